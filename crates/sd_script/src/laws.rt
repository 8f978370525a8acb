//! What follows from the answers of a script. A law is the contract of a function that does nothing.
ghost use Rattle.sd_script.specs.Laws.{BeginsAsCheck, DeletesAsChecked, HasOneAnswer, HasOneOutput};
ghost use Rattle.sd_script.specs.Laws.{NoCommandWithoutAnId, OnlyTheseAreGranted, SilentContainerPassesDownTheSame};
ghost use Rattle.sd_script.specs.Laws.{SilentNodeIsUnchanged, SilentReviewChangesNothing};

/// A line leaves one store and has one answer, unless it asks who is granted a right, or who is by the pending edits:
/// those lines are exact in what they say.
#[tactic(auto, using(crate::proofs::OneOutput::has_one_answer))]
pub fn lines_have_one_answer()
    ensures { HasOneAnswer }
{}

/// A text without such lines has one output.
pub fn texts_have_one_output()
    ensures { HasOneOutput }
{}

/// The answer to `why` begins with that of `check` to the same question, and leaves the same store.
pub fn why_begins_as_check()
    ensures { BeginsAsCheck }
{}

/// `delete` is granted by the node just where `check` for DELETE is granted ([MS-DTYP] 2.5.3.2), and leaves the same
/// store.
pub fn deletes_as_checked()
    ensures { DeletesAsChecked }
{}

/// With ids a line whose first word is no id changes nothing: it opens no store, edits none, and raises no floor.
pub fn no_command_without_an_id()
    ensures { NoCommandWithoutAnId }
{}

/// Where a review prints no line for a node, no check of it changes by the pending edits: of no token, for no request
/// without MAXIMUM_ALLOWED ([MS-DTYP] 2.5.3.2); nor, if it is a container, of what is made in it without entries of its
/// own (2.5.3.4). Where it prints its last line alone, none at or below its path does.
#[tactic(auto, using(crate::proofs::Silence::silence))]
pub fn silent_review_changes_nothing()
    ensures node { SilentNodeIsUnchanged }
    ensures container { SilentContainerPassesDownTheSame }
    ensures review { SilentReviewChangesNothing }
{}

/// Where `expect-only` is answered by `ok`, each token without privileges, restricted or not, that the node grants one
/// of the rights has one of the groups as its user or an enabled group ([MS-DTYP] 2.5.3.2).
pub fn only_these_are_granted()
    ensures { OnlyTheseAreGranted }
{}
