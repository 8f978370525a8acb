//! What a new object gets: [MS-DTYP] 2.5.3.4, CreateSecurityDescriptor.
//!
//! From the parent's descriptor, what the creator gave and the creator's token follows the descriptor of the new
//! object, with entries of every type, in the SACL too. Windows calls it CreatePrivateObjectSecurityEx. The rules are
//! in specs/Create.antt, the lists' in specs/Acl.antt, and those of one entry in specs/Entry.antt.
//! `inherit` makes that of an object whose container changed (specs/Propagation.antt).
//!
//! ```text
//! let creation = Creation {
//!     parent: Some(&folder),
//!     creator: None,
//!     kind: NodeKind::Object,
//!     types: &[],
//!     flags: AutoInherit::DACL_AUTO_INHERIT,
//!     token: &token,
//!     mapping: &mapping,
//! };
//! let descriptor = create(alloc, &creation)?;
//! ```
//!
//! Whether the creator may make the object at all, and may give it a SACL (SeSecurityPrivilege) or a label, the caller
//! checks first. Not computed, and so left out: the resource manager's byte, and the control bits that the section
//! doesn't speak of.
#![tactic(auto)]

mod acl;
mod copies;
mod creation;
mod descriptor;
mod entry;
mod fault;
mod flags;
mod laws;
mod object;
mod owner;
mod propagation;

pub use creation::{Creation, CreatorToken};
pub use descriptor::create;
pub use fault::{CreateError, CreateFault};
pub use flags::AutoInherit;
pub use laws::{
    inherited_follows_the_parent, inheriting_twice_is_once, plain_is_as_in_a_tree, protected_stays,
    protected_takes_nothing, what_was_created_stays, without_a_list_the_parent_decides,
};
pub use propagation::{Inheritance, inherit};
