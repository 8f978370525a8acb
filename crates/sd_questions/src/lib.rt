//! The answer to a question: of a text, of the input as a text, or of each line of the input.
//!
//! A question is a command of `sd_commands` with arguments, as `sd_arguments` parses it. `answer_to` answers it once,
//! `answer_each` for each line.
//!
//! ```text
//! let (mut reader, mut writer) = (Watched::new(lines), Watched::new(Vec::new(alloc)));
//! let ended = answer_each(alloc, options, given, request, &mut reader, &mut writer)?;
//! // the writer holds an answer to each line, and ended.outcome says whether all did what was asked for
//! ```
#![tactic(auto)]

mod advised;
mod each;
mod found;
mod input;
mod notes;
mod remedies;
mod spoken;
mod text_answer;
mod token_notes;

pub use each::{Ended, answer_each};
pub use text_answer::{answer_to, bad_value};
