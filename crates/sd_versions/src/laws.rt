//! What follows from the rules of the machine. Each law is the contract of a function that does nothing.

ghost use Rattle.sd_versions.specs.Laws.{RunsAreSound, OpeningStays, PublishedGrows, FloorsNeverFall, PublishIsWhole};
ghost use Rattle.sd_versions.specs.Laws.{AnswersAreOfThePublished, FailureChangesNothing};

/// Whatever was asked since the start, what each reader has seen is a beginning of the published journal, and nothing
/// refuses an accepted edit at its place, of the published journal and of the pending edits behind it.
pub fn runs_are_sound()
    ensures { RunsAreSound }
{}

/// No request changes the mapping, the root or the limits that a desk started with.
pub fn opening_stays()
    ensures { OpeningStays }
{}

/// The published journal only grows, and only by a publish: that adds just the pending edits, all at once.
pub fn publish_is_whole()
    ensures grows { PublishedGrows }
    ensures whole { PublishIsWhole }
{}

/// What a reader has seen is never taken back: its floor only grows.
pub fn floors_never_fall()
    ensures { FloorsNeverFall }
{}

/// An answer to a check is that of the published journal, whose length it has. That journal extends what the reader
/// had seen, by a check, a show or a notice, and is what the reader has seen from then on.
pub fn answers_are_of_the_published()
    ensures { AnswersAreOfThePublished }
{}

/// A refusal, a reader or a notice that isn't there, and out of memory leave everything as it was.
pub fn failure_changes_nothing()
    ensures { FailureChangesNothing }
{}
