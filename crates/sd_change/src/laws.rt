//! What holds of changes. Each law is the contract of a function that does nothing.

ghost use Rattle.sd_change.specs.Laws.{BackUndoesIt, NoEntryIsLeft, NothingIsLeft, Stays};

/// A law: a descriptor that a change doesn't concern stays as it is.
#[tactic(auto, using(crate::proofs::LawProofs::stays))]
pub fn what_is_not_concerned_stays()
    ensures { Stays }
{}

/// A law: a SID that was replaced by another one is nowhere: it is neither owner nor group, and no entry is for it.
#[tactic(auto, using(crate::proofs::LawProofs::nothing_is_left))]
pub fn nothing_is_left_of_a_replaced_sid()
    ensures { NothingIsLeft }
{}

/// A law: no entry is for a SID that was removed.
#[tactic(auto, using(crate::proofs::LawProofs::no_entry_is_left))]
pub fn no_entry_is_left_of_a_removed_sid()
    ensures { NoEntryIsLeft }
{}

/// A law: where the new SID was nowhere, replacing it by the old one undoes the change.
#[tactic(auto, using(crate::proofs::LawProofs::back_undoes_it))]
pub fn replacing_back_undoes_it()
    ensures { BackUndoesIt }
{}
