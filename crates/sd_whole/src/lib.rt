//! Whole security descriptors, with every list and entry that Windows writes: [MS-DTYP] 2.4.4 to 2.4.6.
//!
//! Parses untrusted bytes: owner, group, SACL and DACL, with entries of every type. An entry whose type has no layout,
//! or whose body doesn't have the layout of its type, is kept as its bytes. No list allocates for more entries than the
//! bytes have room for, whatever the counts say. `sd_wire` parses plain descriptors alone, and rejects all others.
//!
//! ```text
//! let descriptor = read_whole(alloc, bytes)?;
//! let written = write_whole(alloc, &descriptor)?; // whole_len(&descriptor) bytes
//! ```
#![tactic(auto)]

mod ace;
mod acl;
mod data;
mod descriptor;
mod entry;
mod header;
mod kind;
mod laws;
mod layout;
mod list;
mod order;
mod plain;
mod types;

pub use ace::{OpaqueAce, TypedAce, WholeAce, for_children_alone};
pub use acl::WholeAcl;
pub use data::{AceData, MAX_DATA_BYTES};
pub use descriptor::{WholeDescriptor, read_whole, whole_len, write_whole};
pub use entry::read_whole_entry;
pub use kind::WholeKind;
pub use laws::{
    entries_stay_as_they_are, lists_stay_as_they_are, plain_descriptors_are_whole,
    whole_descriptors_come_back,
};
pub use list::{ListRevision, WholeList, WholeListTooLarge};
pub use plain::{OddEntry, OddKind, PlainError, PlainPart};
pub use types::{GUID_BYTES, Guid, ObjectTypes};
