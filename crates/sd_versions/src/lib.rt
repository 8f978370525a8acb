//! What a store of trees is made of, of one thread or of many, and the store of one thread.
//!
//! `Versions` are the tree as it is published and the draft that takes the edits. The draft shares with the published
//! tree all that no edit has changed. A publish makes the draft the published tree. A snapshot is shared, not copied,
//! and never changes.
//!
//! A `Desk` is a store of one thread: it has versions of a tree and the readers that ask. Accepted edits are pending
//! until a publish shows them all at once; each reader has a floor, the prefix of the published journal that it has
//! seen, which never falls. An answer has the length of the journal that it was given by. docs/SCRIPT.md has the rules.
//!
//! ```text
//! let mut desk = Desk::start(alloc, &GenericMapping::file(), &root, 2)?;
//! desk.step(&Request::Edit(edit));
//! desk.step(&Request::Publish);
//! match desk.step(&Request::Check { reader: 0, path, token, asked: Mask(0x1) }) {
//!     Reply::Answered(answer) => ..,
//!     ..
//! }
//! ```
#![tactic(auto)]

mod desk;
mod laws;
mod versions;

pub use desk::Desk;
pub use laws::{
    answers_are_of_the_published, failure_changes_nothing, floors_never_fall, opening_stays,
    publish_is_whole, runs_are_sound,
};
pub use sd_edit::{Answer, MAX_READERS, Reply, Request, StartError};
pub use versions::Versions;
