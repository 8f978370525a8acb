//! The self-relative form of security descriptors, as Windows stores and sends them: [MS-DTYP] 2.4.6.
//!
//! Parses untrusted bytes, and writes one form. A parse is Ok only with what the bytes hold, else it returns the first
//! test that they fail. It allocates for no more entries than the bytes have room for, whatever the counts say.
//! `check_bytes` is the access check straight over the bytes ([MS-DTYP] 2.5.3.2): one walk tests them and finds the
//! verdict, without an allocation.
//!
//! ```text
//! let descriptor = read_descriptor(alloc, bytes)?;
//! let written = write_descriptor(alloc, &descriptor)?; // wire_len(&descriptor) bytes
//! let verdict = check_bytes(bytes, &GenericMapping::file(), &token, Mask(0x0002_0000))?;
//! ```
#![tactic(auto)]

mod check;
mod descriptor;
mod entries;
mod entry;
mod fault;
mod header;
mod laws;
mod list;
mod number;
mod odd;
mod parts;
mod trustee;

pub use check::check_bytes;
pub use descriptor::{read_descriptor, wire_len, write_descriptor};
pub use entries::{ListEntry, read_entries};
pub use entry::read_entry;
pub use fault::{WireError, WireFault};
pub use header::{
    CONTROL_PLACE, DACL_PLACE, DACL_PRESENT, GROUP_PLACE, HEADER_BYTES, OWNER_PLACE, REVISION,
    SACL_PLACE, SACL_PRESENT, SELF_RELATIVE, bits_when, has_bits, leads_outside, part_offset,
    push_fields, read_header,
};
pub use laws::{
    descriptors_come_back, none_is_held_beside_a_fault, one_is_held, readings_are_held,
    what_is_held_is_read,
};
pub use number::{read_u16, read_u32};
pub use odd::odd_entry;
pub use parts::{DaclPlace, EntryPlaces, Parts, read_parts};
pub use trustee::{push_trustee, read_trustee, trustee_len};
