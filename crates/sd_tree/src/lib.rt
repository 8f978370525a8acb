//! A tree of securable nodes, where each node's DACL is what inheritance gives: [MS-DTYP] 2.5.3.4.
//!
//! A tree is the replay of its journal: the edits that it accepted, in their order. It stores each node's whole
//! DACL, so that a check is one search and one walk. The rules are told in docs/TREE.md.
//!
//! ```text
//! let mut tree = Tree::opening(alloc, &GenericMapping::file(), &root)?;
//! tree.apply(&Edit::AddObject { path: Path::read(alloc, "/a")?, owner, group, dacl })?;
//! match tree.check(&path, &token, Mask(0x1)) {
//!     CheckReply::Verdict(verdict) => ..,
//!     CheckReply::NoNode => ..,
//! }
//! ```
#![tactic(auto)]

mod addition;
mod describe;
mod edit_plan;
mod inherit;
mod journal;
mod judging;
mod keep;
mod list_refusal;
mod listing;
mod moving;
mod node;
mod nodes;
mod plan;
mod shared;
mod sharing;
mod siblings;
mod subtree;
mod tree;
mod tree_view;

pub use inherit::inherited_entries;
pub use journal::Journal;
pub use listing::NodeRef;
pub use sd_edit::{
    CheckReply, Edit, EditRefusal, Entries, Limits, LimitsError, NodeDacl, Opening, RootSpec,
    TreeError,
};
pub use sd_inheritance::NodeKind;
pub use sd_path::{Name, Path, PathError};
pub use shared::Shared;
pub use tree::Tree;
