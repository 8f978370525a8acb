//! Whole security descriptors as text, parsed: [MS-DTYP] 2.5.1.1, with entries of every type in both lists.
//!
//! `sd_text` parses the strict profile: allows and denies without object types in a DACL alone. Here the same text says
//! the same descriptor, and more has a meaning: entries of every type that has letters, GUIDs, conditions, claims, and
//! a SACL. An error is the text's first fault, with the offset in bytes.
//!
//! ```text
//! let descriptor = read_whole_sddl(alloc, known, "D:(OA;;RP;bf967a86-0de6-11d0-a285-00aa003049e2;;AU)")?;
//! let bytes = write_whole(alloc, &descriptor)?;
//! ```
#![tactic(auto)]

mod acl;
mod data;
mod descriptor;
mod entry;
mod fields;
mod guid;
mod kind;
mod laws;
mod part;
mod spaces;
mod stop;

pub use descriptor::read_whole_sddl;
pub use guid::read_guid_text;
pub use laws::{
    guids_come_back, nothing_else_is_left_out, plain_texts_are_read_alike,
    plain_texts_are_their_part, plain_texts_come_back,
};
pub use part::{LeftOut, PartError, TextPart, read_sddl_part, read_text_part};
