//! The command line of `sdstore`, as a library.
//!
//! `drive` does what the program does with a list of words and three streams, and answers the
//! status with which the program ends. The program hands it the real streams; a test, or a program
//! that wants the answers of the command line without a process, hands it streams in memory.
//!
//! ```text
//! let words = ["sdstore", "verdict", "D:(A;;0x1;;;S-1-1-0)", "S-1-1-0", "0x1"];
//! let status = drive(&rt, alloc, &words, &mut input, &mut output, &mut errors);
//! // status is 0, and output holds "granted 0x1\n"
//! ```
#![tactic(auto)]

mod driven_by_names;
mod names;
mod perform;
mod program;
mod scripts;
mod types_by_name;

pub use driven_by_names::drive_named;
pub use names::{accounts_file, schema_file};
pub use program::drive;
pub use sd_arguments::{asks_help, is_command_line, reads_input};
pub use sd_lines::{RunError, Watched};
pub use sd_script::{Notation, PathSpelling, ScriptCounts, ScriptOptions, run};
pub use sd_script_audit::run_audit;
pub use sd_sid::GenericMapping;
pub use sd_store::{Gate, OpenGate};
pub use types_by_name::{TypesFault, tell_types_fault, with_guids};
