//! The command line of the program `sdstore`: the one table of its commands and options, and what follows from it: how
//! a command is written, and help, by `clap`.
//!
//! `sd_command_line` parses arguments by the table. The contracts of `clap` say nothing about a text: help is tested.
//!
//! ```text
//! let command = command_named("verdict");
//! let text = help(alloc, Some(CommandName::Script))?;
//! let line = usage_line(alloc, "script", command)?;
//! ```
#![tactic(auto)]

mod heir_notes;
mod names;
mod notes;
mod option_table;
mod options;
mod row;
mod table;
mod texts;
mod usage;

pub use names::{Commands, argument_name, listed_commands, usage_line};
pub use option_table::OPTIONS;
pub use row::{
    Argument, Arguments, Beside, ChangeCommand, Command, CommandName, CommandRow,
    DescriptorCommand, Flag, Flags, HeirCommand, OPTION_COUNT, OptionName, OptionRow,
    ProgramOption, TextCommand, Value, command_named, option_named, takes_option,
};
pub use table::COMMANDS;
pub use usage::help;
