//! Laws of all texts, whichever aliases they may have. Each law is the contract of a function with an empty body.

ghost use Rattle.sd_text.specs.Laws.{HasOneValue, HasValueOrFault, NeverHasBoth, HasOneFault, DescriptorsComeBack};
ghost use Rattle.sd_text.specs.Laws.{SidsComeBack, MasksComeBack};
ghost use Rattle.sd_text.specs.Rights.{mask_text};
ghost use Rattle.sd_text.specs.Sddl.{sddl_in};
ghost use Rattle.sd_text.specs.Sid.{sid_text_in};
ghost use Rattle.sd_text.specs.declared.alias.Aliases.{Aliases};

/// No text spells two descriptors, two SIDs or two masks.
pub fn texts_have_one_value()
    ensures descriptors { (known : Aliases) → HasOneValue (sddl_in known) }
    ensures sids { (known : Aliases) → HasOneValue (sid_text_in known) }
    ensures masks { HasOneValue mask_text }
{}

/// Each text spells a value or has a fault.
pub fn texts_have_a_value_or_a_fault()
    ensures descriptors { (known : Aliases) → HasValueOrFault (sddl_in known) }
    ensures sids { (known : Aliases) → HasValueOrFault (sid_text_in known) }
    ensures masks { HasValueOrFault mask_text }
{}

/// A text that spells a value has no fault.
pub fn texts_never_have_both()
    ensures descriptors { (known : Aliases) → NeverHasBoth (sddl_in known) }
    ensures sids { (known : Aliases) → NeverHasBoth (sid_text_in known) }
    ensures masks { NeverHasBoth mask_text }
{}

/// A text has at most one fault, at one offset.
pub fn texts_have_one_fault()
    ensures descriptors { (known : Aliases) → HasOneFault (sddl_in known) }
    ensures sids { (known : Aliases) → HasOneFault (sid_text_in known) }
    ensures masks { HasOneFault mask_text }
{}

/// The round trip: the printed text of a value spells it. The values are descriptors whose entries have no flag outside
/// the seven named ones, SIDs, and masks as in an entry.
pub fn printed_texts_come_back()
    ensures descriptors { DescriptorsComeBack }
    ensures sids { SidsComeBack }
    ensures masks { MasksComeBack }
{}
