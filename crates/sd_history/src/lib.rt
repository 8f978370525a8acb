//! The history of a writer's edits, in the order in which it accepted them. It exists in the proofs alone.
//!
//! One writer publishes its edits to other threads in several ways, and two threads that compare what they have seen
//! need to know that one has seen a prefix of the other's edits. A `HistoryWriter` appends to the history. A `Front` is
//! a prefix of it that was seen: it has no bytes, any thread may copy it, and of two fronts of one history one is a
//! prefix of the other. Put a front in a struct, beside a value, and let the struct's invariant say that the front's
//! edits are those of the value: then the edits of any two such values are comparable, in any thread.
//!
//! A `Chain` is a type that names one history, and each call of a program picks its own. So a function that is generic
//! over it can't mix up the fronts of two histories.
//!
//! An edit costs two atomic steps on one private word, which is 0 and is only replaced by 0. Only the writer uses the
//! word, and nothing depends on its value: the log in the proofs can grow only at such a step.
//!
//! ```text
//! let mut writer = history.named::<J>();
//! let before = writer.front();
//! writer.write(&edit);
//! let after = writer.front();
//! before.meet(&after);
//! ```
#![tactic(auto)]

mod chain;
mod entry;
mod front;
mod rule;
mod writer;

pub use chain::Chain;
pub use entry::Entry;
pub use front::Front;
pub use writer::{HistoryWriter, Opened};

#[cfg(test)]
mod tests;
