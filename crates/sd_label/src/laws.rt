//! What follows from the rules. Each law is the contract of a function that does nothing.

ghost use Rattle.sd_label.specs.Laws.{LabelGrantsNoRequest, LabelOnlyTakesAway, NothingTakenChangesNothing};

/// A law: a label that takes nothing changes no verdict.
#[tactic(auto, using(crate::proofs::LawProofs::nothing_taken_changes_nothing))]
pub fn nothing_taken_changes_nothing()
    ensures { NothingTakenChangesNothing }
{}

/// A law: a label only takes away. What is granted under it is what is granted without it, less what it takes; of a
/// request without MAXIMUM_ALLOWED that is all that was asked for ([MS-DTYP] 2.5.3.3).
pub fn label_only_takes_away()
    ensures granted { LabelOnlyTakesAway }
    ensures requests { LabelGrantsNoRequest }
{}
