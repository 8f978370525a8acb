//! What is asked of a store, and what it replies.

use crate::edit::Edit;
use crate::refusal::EditRefusal;
use crate::reply::Answer;
use sd_acl::Descriptor;
use sd_check::Token;
use sd_path::Path;
use sd_sid::Mask;

/// What is asked of a store: the first three by its writer, the others by a reader, who is named by number.
#[derive(Debug, Drop)]
pub enum Request {
    /// The edit shall become pending.
    Edit(Edit),
    /// The pending edits shall be seen, all at once.
    Publish,
    /// How long the published journal is: a notice that readers may learn.
    Tell,
    /// The reader learns of a published journal of this length.
    Learn {
        reader: u64,
        length: u64,
    },
    /// The reader checks a token's request for the node of a path ([MS-DTYP] 2.5.3.2).
    Check {
        reader: u64,
        path: Path,
        token: Token,
        asked: Mask,
    },
    /// The reader asks for the descriptor of the node of a path ([MS-DTYP] 2.4.6).
    Show {
        reader: u64,
        path: Path,
    },
}

/// What a store replies.
#[derive(Debug, Drop)]
pub enum Reply {
    /// The edit was accepted and is pending.
    Edited,
    /// The edit was refused.
    Refused(EditRefusal),
    /// All edits that were pending are seen; the published journal has this length.
    Published(u64),
    /// The published journal has this length.
    Told(u64),
    /// The reader's floor has this length: no later answer to this reader is given by a shorter journal.
    Learned(u64),
    /// The answer to a check.
    Answered(Answer),
    /// The descriptor of the node, if there is one, and by which journal: the length of the published one.
    Shown {
        seen: u64,
        descriptor: Option<Descriptor>,
    },
    /// There is no reader of this number.
    NoReader,
    /// No journal of this length was published yet.
    NoNotice,
    /// Memory was refused, and nothing changed.
    Memory,
}
