//! What holds of the texts of conditions, as a law over all conditions.
//!
//! The law is the contract of a function with an empty body: a caller of it has the law. No crate needs it to be right.
//! docs/PROOFS.md lists it.
#![tactic(auto)]

mod laws;

pub use laws::conditions_come_back;
