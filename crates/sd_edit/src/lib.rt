//! Edits of a tree, what is asked of a store of trees, and the definitions of what both make of it: [MS-DTYP] 2.5.3.4.
//! The tree that takes the edits is in `sd_tree`, the store in `sd_versions`: what only reads or prints these needs
//! neither.
//!
//! ```text
//! let dacl = NodeDacl::of_descriptor(alloc, &descriptor)?;
//! let edit = Edit::AddObject { path: Path::read(alloc, "/a")?, owner, group, dacl };
//! ```
#![tactic(auto)]

mod edit;
mod entries;
mod limits;
mod node;
mod opening;
mod refusal;
mod reply;
mod request;
mod start;

pub use edit::Edit;
pub use entries::Entries;
pub use limits::{Limits, LimitsError};
pub use node::{NodeDacl, NodeRow};
pub use opening::{Opening, RootSpec};
pub use refusal::{EditRefusal, TreeError};
pub use reply::{Answer, CheckReply};
pub use request::{Reply, Request};
pub use start::{MAX_READERS, StartError};
