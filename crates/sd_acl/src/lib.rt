//! Access control entries, lists and security descriptors: [MS-DTYP] 2.4.4 to 2.4.6.
//!
//! Plain values. SDDL, the self-relative form and the access check use this crate.
//!
//! ```text
//! let entry = Ace { kind: AceKind::Allow, flags: AceFlags::empty(), mask: Mask(0x1f01ff), sid: everyone };
//! assert!(acl_size(&[entry]) == 28);
//! ```
#![tactic(auto)]

mod ace;
mod canonical;
mod descriptor;
mod flags;
mod lent;
mod list;

pub use ace::{Ace, AceKind};
pub use canonical::{canonicalize, denies_stand_first, explicit_of, is_canonical};
pub use descriptor::{Dacl, DaclOf, Descriptor};
pub use flags::AceFlags;
pub use lent::AceRef;
pub use list::{ACL_HEADER_BYTES, AceList, AclTooLarge, MAX_ACL_BYTES, acl_size, same_entries};
