//! Opens of existing files, as NTFS judges them: [MS-FSA] 2.1.5.1.2.1.
//!
//! `check_open` is the check of a file's descriptor, with two rights more that the descriptor of its parent grants: who
//! may delete what is in the parent may delete the file, and who may list the parent may read the file's attributes.
//! The rules are in specs/Open.antt, and in words in docs/CHECK.md.
//!
//! ```text
//! let verdict = check_open(&file, Some(&parent), &GenericMapping::file(), &token, Mask(0x0001_0000));
//! ```
#![tactic(auto)]

mod laws;
mod open;

pub use laws::{
    deletion_is_granted_by_either, open_without_parent_is_a_check, parent_takes_nothing,
};
pub use open::check_open;
