//! The help on the program and on each command, by `clap`, made of the table.

use crate::names::argument_name;
use crate::notes::NOTES;
use crate::option_table::option_rows;
use crate::row::{Argument, CommandName, CommandRow, Flag, OptionRow, Value};
use crate::table::command_rows;
use crate::texts::{CommandTexts, flag_help, option_help};
use clap::{Arg, ArgAction, Command};
use std::alloc::{AllocError, Global};

// What `clap` would print as the version. The program's own parser answers all arguments that ask for it.
const WITHOUT_CLAP: &str = "";

/// The help on a command, or on the program, in ASCII. The only error is out of memory.
pub fn help(alloc: Global, command: Option<CommandName>) -> Result<String, AllocError> {
    match command_rows()
        .iter()
        .find(|row| Some(row.1.name) == command)
    {
        Some(row) => command_help(alloc, row),
        None => program_help(alloc),
    }
}

fn program_help(alloc: Global) -> Result<String, AllocError> {
    let mut texts = Vec::new(alloc);
    for row in command_rows() {
        texts.push(CommandTexts::new(alloc, row)?)?;
    }
    let mut helps = Vec::new(alloc);
    for row in option_rows() {
        helps.push(option_help(alloc, row)?)?;
    }
    let mut program = Command::new(alloc, "sdstore")
        .about("Windows security descriptors and access checks by [MS-DTYP]")
        .override_usage("sdstore [OPTIONS] <COMMAND>")
        .after_help(NOTES)
        .version(WITHOUT_CLAP)
        .subcommand_required(true);
    for (row, help) in option_rows().iter().zip(helps.iter()) {
        program = program.arg(option(alloc, row, help.as_str()))?;
    }
    for (row, texts) in command_rows().iter().zip(texts.iter()) {
        program = program.subcommand(described(alloc, row, texts)?)?;
    }
    program.render_help()
}

fn command_help(alloc: Global, row: &'static CommandRow) -> Result<String, AllocError> {
    let texts = CommandTexts::new(alloc, row)?;
    let mut described = described(alloc, row, &texts)?;
    described.render_help()
}

/// A command, with its arguments.
fn described<'a>(
    alloc: Global,
    row: &'static CommandRow,
    texts: &'a CommandTexts,
) -> Result<Command<'a>, AllocError> {
    // Help with a list in it begins on a line of its own.
    let has_words = matches!(row.1.repeated, Some(Argument::Word | Argument::Group));
    let mut described = Command::new(alloc, row.0)
        .about(row.3)
        .override_usage(texts.usage.as_str())
        .after_help(texts.notes.as_str())
        .next_line_help(has_words);
    for flag in [Flag::Ids, Flag::Zero, Flag::Key, Flag::Pairs] {
        if row.1.flag_named(flag.name()).is_some() {
            described = described.arg(own_option(alloc, flag))?;
        }
    }
    for place in 0..row.1.arguments.count() {
        if let Some(argument) = row.1.arguments.at(place) {
            let (name, help) = (argument_name(argument), texts.help(argument));
            described = described.arg(Arg::new(alloc, name).help(help).required(true))?;
        }
    }
    if let Some(argument) = row.1.repeated {
        let (name, help) = (argument_name(argument), texts.help(argument));
        described = described.arg(Arg::new(alloc, name).help(help).num_args(0..))?;
    }
    Ok(described)
}

/// A command's own option.
fn own_option(alloc: Global, flag: Flag) -> Arg<'static> {
    let option = Arg::new(alloc, flag.name())
        .help(flag_help(flag))
        .action(ArgAction::SetTrue);
    match flag {
        Flag::Ids => option.long("ids"),
        Flag::Zero => option.short('0'),
        Flag::Key => option.long("key"),
        Flag::Pairs => option.long("pairs"),
    }
}

/// An option before a command.
fn option<'a>(alloc: Global, row: &'static OptionRow, help: &'a str) -> Arg<'a> {
    let name = row.0.strip_prefix("--").unwrap_or(row.0);
    let option = Arg::new(alloc, name).long(name).help(help);
    match row.1.value {
        Some(value) => option.value_name(value_name(value)),
        None => option.action(ArgAction::SetTrue),
    }
}

fn value_name(value: Value) -> &'static str {
    match value {
        Value::Sid => "SID",
        Value::Sids => "SIDS",
        Value::Kind => "KIND",
        Value::Logon => "LOGON",
        Value::Number => "N",
        Value::Guid => "GUID",
        Value::File => "FILE",
    }
}
