//! The arguments of `sdstore`: what they ask for, by the table of `sd_usage`.
//!
//! `read_command_line` parses them to a command line: help, the version, or what a command is asked, under the options
//! before it. Where they are none, `message` says on standard error what is wrong with them.
//!
//! ```text
//! let words = ["sdstore", "verdict", "D:(A;;0x1;;;S-1-1-0)", "S-1-1-0", "0x1"];
//! let line = read_command_line(&words)?;
//! // line.asked is the question whether the descriptor grants 0x1 to S-1-1-0
//! ```
#![tactic(auto)]

mod command_line;
mod flags;
mod laws;
mod option_words;
mod options;
mod usage_error;
mod version;

pub use command_line::{
    CommandLine, Invocation, ProgramRequest, ScriptRun, TextRequest, asks_help, is_command_line,
    read_command_line, reads_input,
};
pub use flags::GivenFlags;
pub use laws::{dashes_keep_texts, each_asks_the_command, help_stands_alone, names_are_distinct};
pub use options::{BadValue, Options};
pub use usage_error::{UsageError, message};
pub use version::version_text;
