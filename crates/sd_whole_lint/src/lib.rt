//! What is doubtful in the DACL of a whole descriptor: the lines of `lint` under `--whole`.
//!
//! The findings are of entries of every type, by the plain list that the whole one is whoever asks, in which markers
//! stand for conditions (`marked_for_everyone` of `sd_specialize`): each entry has the same place in both lists. Risks
//! are those of two plain lists: what is granted whatever conditions come to, and what if each is met.
//!
//! ```text
//! let plain = marked_for_everyone(alloc, chain, principal_self, &marks, &whole)?;
//! let lines = whole_lint_lines(alloc, view, &base, &whole.dacl, &plain)?; // entry 2 (OA;;CR;..;;BU) has no effect
//! let surely = settled(alloc, principal_self, Bound::Least, &whole.dacl, &plain)?;
//! ```
#![tactic(auto)]

mod bounds;
mod entry_text;
mod findings;
mod forms;

pub use bounds::{Bound, settled};
pub use entry_text::entry_value;
pub use findings::{WholeView, whole_entries, whole_lint_lines};
