//! Scripts: lines of text that build a tree of securable nodes, edit it, publish and ask.
//!
//! Each line is a command with its words, and is answered by one line, and `why`, `find`, `list`, `dump`, `who` and
//! `review` by several: by what a store replies, or by the first thing that is wrong with it. `run` takes a whole
//! script from a reader and writes the whole output, which is what `PrintsAndCountsServed` in specs/Printed.antt says;
//! `serve` does so line by line. docs/SCRIPT.md has the commands.
//!
//! ```text
//! let text = b"open 1 O:BAG:SYD:\naddo /a O:BAG:SYD:(A;;FR;;;SY)\npublish\ncheck 0 /a SY 0x1\n";
//! let (mut reader, mut writer) = (Watched::new(text.as_slice()), Watched::new(Vec::new(alloc)));
//! let (mapping, limits) = (GenericMapping::file(), Limits::standard());
//! let options = ScriptOptions { mapping, limits, notation: Notation::plain(PathSpelling::Plain) };
//! let counts = run(alloc, &options, &mut reader, &mut writer)?;
//! // the writer holds "opened 1\nok\npublished 1\nseen 1 granted 0x1\n", and counts.first_fault is None
//! ```
//!
//! What parses a line and what answers a reply is public, for who carries out a script in another way.
#![tactic(auto)]

mod answer;
mod argument;
mod boxed;
mod command;
mod deletion;
mod dump;
mod expect;
mod fault;
mod forms;
mod ids;
mod importing;
mod laws;
mod line;
mod line_request;
mod lines;
mod listing;
mod moving;
mod paths;
mod question;
mod reply;
mod review;
mod same;
mod script;
mod script_counts;
mod script_options;
mod script_state;
mod session;
mod storing;
mod streams;
mod view;
mod who;

pub use argument::number_in;
pub use boxed::{BoxedRequest, BoxedToken};
pub use expect::{LastAnswer, expects};
pub use fault::{LineFault, LineStop, line_of_fault};
pub use ids::LINES;
pub use importing::{Given, entries_at, import_answer};
pub use laws::{
    deletes_as_checked, lines_have_one_answer, no_command_without_an_id, only_these_are_granted,
    silent_review_changes_nothing, texts_have_one_output, why_begins_as_check,
};
pub use line::read_line;
pub use line_request::LineRequest;
pub use lines::is_silent;
pub use listing::NodeFilter;
pub use moving::move_answer;
pub use paths::PathSpelling;
pub use question::NodeQuestion;
pub use reply::{alone, counted_line, opened_line, reply_line, start_error_line, trimmed_line};
pub use script::push_answer;
pub use script_counts::ScriptCounts;
pub use script_options::{Notation, ScriptOptions};
pub use script_state::ScriptState;
pub use session::Session;
pub use streams::{run, serve};
pub use view::{Groups, ViewRequest};
