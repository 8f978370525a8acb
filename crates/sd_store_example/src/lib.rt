//! A client of the store of many threads, as an example: what its caller knows of the answer is proved from the
//! contracts of the store.
//!
//! `answer_behind` starts a store with one checker, makes edits and publishes them; the checker learns this and answers
//! a query. By its contract the answer is by a valid journal of which these edits are a prefix: read your writes. The
//! caller picks which store it is (docs/STORE.md, "How to use it").
//!
//! ```text
//! let answer = answer_behind::<Brand, _>(&rt, alloc, Opened::new(), &mapping, &root, &edits, &query)?;
//! ```
#![tactic(auto)]

mod asking;
mod error;

pub use asking::answer_behind;
pub use error::AskError;
