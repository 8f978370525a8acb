//! Security identifiers, access masks and generic mappings: [MS-DTYP] 2.4.2 and 2.4.3.
//!
//! Every other crate depends on this one. Only the bytes of a SID are allocated, and nothing calls the system.
//!
//! ```text
//! let everyone = Sid::new(1, &[0])?;
//! let asked = Mask(0x8000_0000);
//! let mapped = GenericMapping::file().map(asked); // Mask(0x0012_0089)
//! ```
#![tactic(auto)]

mod bytes;
mod lent;
mod mapping;
mod mask;
mod sid;

pub use bytes::{SID_HEADER_BYTES, push_sid, read_sid, sid_bytes, sids_come_back, sids_stand};
pub use lent::SidRef;
pub use mapping::{BadMapping, GenericMapping, OBJECT_RIGHTS};
pub use mask::Mask;
pub use sid::{AUTHORITY_LIMIT, MAX_SUBS, Sid, SidError, sids_compare_by_value};
