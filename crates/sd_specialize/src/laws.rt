//! What follows from the rules. Each law is the contract of a function that does nothing.

ghost use Rattle.sd_specialize.specs.Copies.{CopiesChangeNothing, MarkersBringTheirSids};
ghost use Rattle.sd_specialize.specs.Laws.{DenyNeverGrants, NoPartChangesNothing, PlainStaysPlain, UnknownFailsClosed};
ghost use Rattle.sd_specialize.specs.Laws.{WholeIsEveryPart};
ghost use Rattle.sd_specialize.specs.Marked.{AllAreMarked, LaterMarksChangeNothing, MarkersStand};

/// A law: a descriptor whose DACL has allows and denies alone is its plain part for every question, whatever else is
/// known; but where it has an entry for PRINCIPAL SELF, that is a SID that the question names.
pub fn plain_stays_plain()
    ensures { PlainStaysPlain }
{}

/// A law: an entry that has no part in a question changes no verdict on it.
#[tactic(auto, using(crate::proofs::Parts::no_part_changes_nothing))]
pub fn no_part_changes_nothing()
    ensures { NoPartChangesNothing }
{}

/// A law: one more deny grants nothing, whatever its object types are and whatever its condition comes to.
pub fn deny_never_grants()
    ensures { DenyNeverGrants }
{}

/// A law: what is granted on the whole object, where no object type is asked about, is granted on each part of it.
pub fn whole_is_every_part()
    ensures { WholeIsEveryPart }
{}

/// A law: where its condition is unknown, as of data that is no condition, a conditional allow has no part, and a
/// conditional deny denies ([MS-DTYP] 2.5.3.1.5).
#[tactic(auto, using(crate::proofs::Unknowns::unknown_fails_closed))]
pub fn unknown_fails_closed()
    ensures { UnknownFailsClosed }
{}

/// A law: the list in which markers stand for conditions gives each token, with the markers that it counts as having,
/// the verdict that the list gives it by its claims ([MS-DTYP] 2.5.3.1.5).
#[tactic(auto, using(crate::proofs::MarkersStand::markers_stand))]
pub fn markers_stand()
    ensures { MarkersStand }
{}

/// A law: by the conditional entries of a list, and whatever others there are, each of its conditional entries has a
/// marker ([MS-DTYP] 2.4.4.17).
#[tactic(auto, using(crate::proofs::Markers::all_are_marked))]
pub fn all_are_marked()
    ensures { AllAreMarked }
{}

/// A law: more marks after those of its conditional entries change nothing of what a descriptor is by markers: so two
/// descriptors have one list of marks, and one without conditions is the same by each ([MS-DTYP] 2.4.4.17).
#[tactic(auto, using(crate::proofs::LaterMarks::later_marks_change_nothing))]
pub fn later_marks_change_nothing()
    ensures { LaterMarksChangeNothing }
{}

/// A law: copies of entries for the markers of their SIDs change no verdict of a token with the markers that it counts
/// as having ([MS-DTYP] 2.5.3.1.5).
pub fn copies_change_nothing()
    ensures { CopiesChangeNothing }
{}

/// A law: by a list with all copies, who has the marker of an allow is answered as who has its SID too, unless that is
/// the owner ([MS-DTYP] 2.5.3.1.5).
pub fn markers_bring_their_sids()
    ensures { MarkersBringTheirSids }
{}
