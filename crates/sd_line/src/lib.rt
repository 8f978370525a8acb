//! Lines of answers as values, and how they are printed: as texts, and as objects of JSON.
//!
//! A line is a kind and parts. A part has words, in which each `{name}` stands for the next of its values; nothing of a
//! value is spelled before the line is printed, by the one or by the other printer (specs/Printed.antt).
//!
//! ```text
//! let line = Line::new(alloc, ("granted", "granted {mask}"), vec![in alloc; Value::Mask(Mask(0x160089))]?)?;
//! let spelling = Spelling::Names(Some(ObjectKind::File));
//! let style = Style { spelling, output: Output::Text };
//! push_printed_line(alloc, &mut out, style, Tag::None, &line)?; // granted FR+WD, and a line feed
//! // and by `Output::Json`: {"answer":"granted","mask":"FR+WD"}
//! read_mask_in(spelling, "Full control"); // Mask(0x1F01FF)
//! ```
#![tactic(auto)]

mod fields;
mod form;
mod laws;
mod line;
mod mask;
mod names;
mod object;
mod print;
mod printer;
mod request;
mod rights;
mod spelling;
mod string;

pub use laws::{masks_come_back, names_are_distinct};
pub use line::{Line, LineForm, Part, SidMark, Sids, Text, Value};
pub use mask::read_mask_in;
pub use names::ObjectKind;
pub use print::{Output, Style, Tag, push_printed, push_printed_line, value_text};
pub use request::requested;
pub use rights::rights_line;
pub use spelling::{Spelling, spell};
