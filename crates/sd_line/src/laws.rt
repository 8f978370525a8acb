//! What holds of the names of masks. Each law is the contract of a function that does nothing.
ghost use Rattle.sd_line.specs.Laws.{MasksComeBack, NamesAreDistinct};

/// No two masks have one name, of whichever kinds of object.
pub fn names_are_distinct()
    ensures { NamesAreDistinct }
{}

/// The round trip: what is printed of a mask, as a number or by the names of a kind of object, parses as that mask.
#[tactic(auto, using(crate::proofs::ComeBack::comes_back))]
pub fn masks_come_back()
    ensures { MasksComeBack }
{}
