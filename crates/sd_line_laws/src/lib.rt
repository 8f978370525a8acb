//! What holds of the objects of JSON that lines are printed as, as a law over all lines.
//!
//! The law is the contract of a function with an empty body: a caller of it has the law. No crate needs it to be right.
//! docs/PROOFS.md lists it.
#![tactic(auto)]

mod laws;

pub use laws::objects_are_distinct;
