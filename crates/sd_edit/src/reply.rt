//! What a tree, or a store, answers to a check.

use sd_check::Verdict;

/// What a check of a path answers.
#[derive(Clone, Copy, Debug, PartialEq, Eq)]
pub enum CheckReply {
    /// The verdict for the node there ([MS-DTYP] 2.5.3.2).
    Verdict(Verdict),
    /// No node stands there.
    NoNode,
}

/// The answer to a check ([MS-DTYP] 2.5.3.2), and by which journal it was given.
#[derive(Clone, Copy, Debug, PartialEq, Eq)]
pub struct Answer {
    /// The length of the published journal that the answer was given by.
    pub seen: u64,
    /// The answer.
    pub reply: CheckReply,
}
