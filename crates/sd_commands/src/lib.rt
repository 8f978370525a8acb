//! The commands about one descriptor: text in, the lines of an answer out.
//!
//! `answer_question` answers `verdict`, `why`, `types`, `who`, `compare`, `lint`, `print`, `sort`, `tobin`, `frombin`,
//! `show`, `diff`, `replace`, `remove`, `protect`, `unprotect`, `create`, `inherit`, `stale`, `rights` and `sid`, as
//! `Settings` says. It needs no stream and no thread. `sd_command_line` parses a command line to its arguments.
//!
//! ```text
//! let question = TextCommand::Descriptor(DescriptorCommand::Verdict);
//! let arguments = ["S-1-1-0", "0x1"];
//! let answer = answer_question(alloc, settings, question, "D:(A;;0x1;;;S-1-1-0)", &arguments)?;
//! // answer.lines is the line `granted 0x1`, and answer.outcome.status(false) is 0
//! ```
#![tactic(auto)]

mod analysis;
mod bytes;
mod chain;
mod change;
mod command_answer;
mod concern;
mod conditions;
mod convert;
mod descriptor;
mod diagnostic;
mod escaped;
mod for_everyone;
mod forms;
mod handed;
mod heir;
mod kinds;
mod labels;
mod laws;
mod limits;
mod lint;
mod logon;
mod loose;
mod mapping;
mod nodes;
mod object;
mod object_types;
mod pointer;
mod rights;
mod risks;
mod settings;
mod show;
mod sid_texts;
mod sort;
mod types;
mod value;
mod verdict;
mod whole;
mod whole_analysis;
mod whole_lint;
mod whole_risks;
mod whole_sort;
mod whole_verdict;
mod words;

pub use chain::{Chain, MAX_TYPES, chain_given};
pub use command_answer::{Answer, Outcome, answer_question, fault};
pub use concern::{Concern, concern_given, concern_reason, is_placeholder};
pub use diagnostic::{sid_reason, told_line};
pub use escaped::escaped_word;
pub use laws::{
    conditions_ask_alike, no_line_takes_alike, object_decides_alike, object_hands_nothing_on,
    one_list_for_all_types, sorted_is_canonical, types_change_no_child, types_change_nothing,
};
pub use logon::{Logon, fits_logon, logon_given, words_for};
pub use mapping::{kind_given, mapping_given};
pub use object_types::types_text;
pub use settings::{ByteForm, Settings};
pub use sid_texts::{SidTexts, shown_line, words_value};
pub use verdict::outcome_of;
pub use whole::takes_whole;
