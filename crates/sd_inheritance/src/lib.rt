//! What the entries of a container's DACL hand on to a child: [MS-DTYP] 2.5.3.4.
//!
//! ```text
//! let heir = Heir { kind: NodeKind::Object, owner: &alice, group: &staff };
//! let mut inherited = Vec::new(alloc);
//! hand_on(&mut inherited, &GenericMapping::file(), &heir, folder.entries())?;
//! ```
#![tactic(auto)]

mod kind;
mod rule;

pub use kind::{Heir, NodeKind};
pub use rule::{hand_on, is_creator_group, is_creator_owner};
