//! What holds of the texts of whole security descriptors, as laws over all of them ([MS-DTYP] 2.5.1.1).
//!
//! A law is the contract of a function with an empty body: a caller of it has the law. No crate needs them to be right.
//! docs/PROOFS.md lists them.
#![tactic(auto)]

mod laws;

pub use laws::{parsed_is_whole, whole_texts_come_back};
