//! Whole inputs and outputs, and the lines of an input with their answers, over streams that record a failure.
//!
//! `AnswersLines` says how one line is answered, and what that changes for the lines after it. `answer_lines` reads an
//! input to its end and writes the answers, `answer_text` appends the answers to the lines of a text, `answer_until`
//! those up to the line that ends them; `AreAnswered` in specs/Answers.antt is what all three say. What has been
//! written where a run ended early is `LeavesAnswers` in specs/Output.antt. `Form` says what ends a line and when its
//! answer is written. All lines that have ended are answered, and their answers flushed, before more is read, so
//! another program may ask a line, wait for its answer and ask the next.
//!
//! `read_whole` reads a reader's bytes up to their end, and `write_whole` writes a whole text and flushes it. A
//! `Watched` stream passes each call on and records whether one failed: the errors `Read` and `Write` are returned only
//! if that stream failed. An interruption is a failure like any other, and no call is repeated after one. A `Decoder`
//! gives the text of an input that comes in pieces, by its byte order mark: `decoded` in specs/Decoder.antt.
//!
//! ```text
//! let mut reader = Watched::new(rt.stdin());
//! let mut writer = Watched::new(rt.stdout());
//! answer_lines(alloc, &answers, &mut state, form, &mut reader, &mut writer)?;
//! ```
#![tactic(auto)]

mod answers;
mod decoder;
mod ending;
mod error;
mod form;
mod input;
mod output;
mod part;
mod streams;
mod text;
mod utf16;
mod watched;

pub use answers::AnswersLines;
pub use decoder::Decoder;
pub use ending::{Ending, first_line, without_return};
pub use error::RunError;
pub use form::Form;
pub use input::{MAX_INPUT_BYTES, read_whole};
pub use output::write_whole;
pub use streams::answer_lines;
pub use text::{answer_text, answer_until};
pub use watched::Watched;
