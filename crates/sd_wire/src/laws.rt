//! Laws of the self-relative form: each function has an empty body, and its contract is the law.

ghost use Rattle.sd_wire.specs.Laws.{DescriptorsComeBack, ReadingsAreHeld, WhatIsHeldIsRead, OneIsHeld};
ghost use Rattle.sd_wire.specs.Laws.{NoneIsHeldBesideAFault};

/// A law, the round trip: `read_descriptor` parses what `write_descriptor` writes, if no entry has the flag bit 0x20.
#[tactic(auto, using(crate::proofs::WireIsHeld::descriptors_come_back))]
pub fn descriptors_come_back()
    ensures { DescriptorsComeBack }
{}

/// A law, soundness: each part of a descriptor that `read_descriptor` parses is in the bytes at its offset.
pub fn readings_are_held()
    ensures { ReadingsAreHeld }
{}

/// A law, completeness: `read_descriptor` parses each descriptor whose parts are in the bytes.
#[tactic(auto, using(crate::proofs::HeldIsRead::held_is_read))]
pub fn what_is_held_is_read()
    ensures { WhatIsHeldIsRead }
{}

/// A law: bytes hold one descriptor at most.
#[tactic(auto, using(crate::proofs::HeldIsRead::one_is_held))]
pub fn one_is_held()
    ensures { OneIsHeld }
{}

/// A law: bytes that hold a descriptor have no fault.
#[tactic(auto, using(crate::proofs::HeldIsRead::none_beside_a_fault))]
pub fn none_is_held_beside_a_fault()
    ensures { NoneIsHeldBesideAFault }
{}
