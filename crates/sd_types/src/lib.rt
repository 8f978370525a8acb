//! Trees of object types: [MS-DTYP] 2.5.3.2, ObjectTypeList, and [MS-ADTS] 5.1.3.3.
//!
//! `check_types` answers for each node of a tree, as for a class with its property sets and their properties, whether a
//! client is granted what it asks for there: for a leaf by its chain, as `check_whole` of `sd_access` does, and for a
//! node with others below it exactly if for each of its leaves. The rules are in specs/Verdicts.antt, and in words in
//! docs/CHECK.md; `propagation_grants_the_same` says that the entries, gone through in order, grant just this.
//!
//! ```text
//! let tree = TypeTree::new(alloc, &[TypeNode { level: 0, guid: user }, TypeNode { level: 1, guid: mail }])?;
//! let question = TreeQuestion { client: &client, types: &tree, principal_self: None, mapping: &mapping, asked };
//! let verdicts = check_types(alloc, &question, &descriptor)?;
//! ```
#![tactic(auto)]

mod laws;
mod question;
mod tree;
mod verdicts;

pub use laws::{
    each_list_is_gone_through, node_is_granted_what_its_leaves_are, propagation_gives_the_verdicts,
    propagation_grants_the_same,
};
pub use question::TreeQuestion;
pub use tree::{MAX_LEVEL, TreeError, TreeFault, TreeFaultKind, TypeNode, TypeTree};
pub use verdicts::check_types;
