//! Whole security descriptors as text, with every list and entry that has one: [MS-DTYP] 2.5.1.1 (SDDL).
//!
//! Prints owner, group, DACL and SACL, with audits, object entries, conditions, claims, labels, policies and trust
//! labels. What no text can say is an error with its place: control bits without a keyword, entries without letters.
//! AclRevision isn't said: it decides nothing of access. `sd_text` prints plain descriptors, whose text is the same
//! here.
//!
//! ```text
//! let descriptor = read_whole(alloc, bytes)?;
//! print_whole(alloc, RightNames::All, &descriptor)?; // O:SYD:P(OA;CI;0x10;bf967a86-0de6-11d0-a285-00aa003049e2;;AU)
//! ```
#![tactic(auto)]

mod acl;
mod data;
mod descriptor;
mod entry;
mod flags;
mod guid;
mod header;
mod kind;
mod laws;
mod level;
mod no_text;
mod rights;

pub use descriptor::print_whole;
pub use guid::print_guid;
pub use laws::plain_texts_stay;
pub use level::level_names;
pub use no_text::{AclKind, NoText, WholeTextError};
