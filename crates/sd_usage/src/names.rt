//! Names of the table as texts have them: lists of commands, and how a command is written.
ghost use Rattle.std.specs.Prelude.{◌≡◌, ◌++◌, IfOk, map, string_bytes};
ghost use Rattle.sd_usage.specs.Texts.{argument_name, argument_text, arguments_text, each_of, first_text};
ghost use Rattle.sd_usage.specs.Texts.{flag_text, flags_text, is_among, link, listed, listed_commands, repeated_text};
ghost use Rattle.sd_usage.specs.Texts.{usage_line};

use crate::row::{
    Argument, Arguments, Command, CommandName, CommandRow, Flag, Flags, OptionName, takes_option,
};
use crate::table::COMMANDS;
use std::alloc::{AllocError, Global};

/// Some of the commands.
#[derive(Clone, Copy)]
pub enum Commands {
    All,
    /// The commands that answer a text: what `each` and `--stdin` take.
    Answering,
    /// The commands before which the option may go.
    Taking(OptionName),
}

impl Commands {
    fn has(self, name: &str, command: Command) -> bool
        ensures { result ≡ is_among self name.now command }
    {
        match self {
            Commands::All => true,
            Commands::Answering => matches!(command.name, CommandName::Ask(_)),
            Commands::Taking(option) => takes_option(name, option),
        }
    }
}

/// The names of these commands, each in quotes, as `'lint', 'print' or 'tobin'`. The only error is out of memory.
#[tactic(auto, unfolding(crate::specs::Texts::listed_commands))]
pub fn listed_commands(alloc: Global, commands: Commands, quote: &str) -> Result<String, AllocError>
    ensures { IfOk result (λ text. string_bytes text ≡ listed_commands commands quote.now) }
{
    let names = command_names(alloc, COMMANDS, commands)?;
    let mut text = String::new(alloc);
    push_listed(&mut text, &names, quote)?;
    Ok(text)
}

/// The names of those commands among the rows.
fn command_names<'a>(
    alloc: Global,
    rows: &'a [CommandRow],
    commands: Commands,
) -> Result<Vec<&'a str>, AllocError>
    ensures { IfOk result
        (λ names. map (λ name. name.now) names.items
        ≡ each_of (λ row. is_among commands row.0.now row.1) (λ row. row.0.now) rows.entry.now) }
{
    let mut names = Vec::new(alloc);
    for row in rows {
        if commands.has(row.0, row.1) {
            names.push(row.0)?;
        }
    }
    Ok(names)
}

/// Adds the names, each in quotes.
fn push_listed(text: &mut String, names: &[&str], quote: &str) -> Result<(), AllocError>
    ensures { IfOk result (λ done. string_bytes text.new
        ≡ string_bytes text.old ++ listed quote.now (map (λ name. name.now) names.now)) }
{
    match names {
        [] => Ok(()),
        [name, rest @ ..] => {
            text.push_str(quote)?;
            text.push_str(name)?;
            text.push_str(quote)?;
            text.push_str(link(rest))?;
            push_listed(text, rest, quote)
        }
    }
}

/// What stands between a name and those after it.
fn link(names: &[&str]) -> &'static str
    ensures { result.now ≡ link (map (λ name. name.now) names.now) }
{
    match names {
        [] => "",
        [_] => " or ",
        _ => ", ",
    }
}

/// An argument's name.
pub fn argument_name(argument: Argument) -> &'static str
    ensures { result.now ≡ argument_name argument }
{
    match argument {
        Argument::Descriptor => "SDDL",
        Argument::Old => "OLD",
        Argument::New => "NEW",
        Argument::Parent => "PARENT",
        Argument::Child => "CHILD",
        Argument::Creator => "CREATOR",
        Argument::Bytes => "BYTES",
        Argument::Tree => "TREE",
        Argument::User => "USER",
        Argument::PrimaryGroup => "GROUP",
        Argument::Mask => "MASK",
        Argument::Sid => "SID",
        Argument::OldSid => "OLD",
        Argument::NewSid => "NEW",
        Argument::Word | Argument::Group => "WORD",
        Argument::Workers => "N",
        Argument::Command => "COMMAND",
        Argument::CommandArgument => "ARG",
    }
}

/// How a command is written. The only error is out of memory.
pub fn usage_line(alloc: Global, name: &str, command: Command) -> Result<String, AllocError>
    ensures { IfOk result (λ text. string_bytes text ≡ usage_line name.now command) }
{
    let flags = flags_text(alloc, command.flags)?;
    let arguments = arguments_text(alloc, command.arguments)?;
    let repeated = repeated_text(alloc, command.repeated)?;
    let text = format!(in alloc; "sdstore [OPTIONS] {name}{flags}{arguments}{repeated}")?;
    Ok(text)
}

fn flags_text(alloc: Global, flags: Flags) -> Result<String, AllocError>
    ensures { IfOk result (λ text. string_bytes text ≡ flags_text flags) }
{
    match flags {
        Flags::Nothing => Ok(String::new(alloc)),
        Flags::One(flag) => flag_text(alloc, flag),
        Flags::Three(first, second, third) => {
            let (first, second, third) = (first.name(), second.name(), third.name());
            let text = format!(in alloc; " [{first}] [{second}] [{third}]")?;
            Ok(text)
        }
    }
}

fn flag_text(alloc: Global, flag: Flag) -> Result<String, AllocError>
    ensures { IfOk result (λ text. string_bytes text ≡ flag_text flag) }
{
    let name = flag.name();
    let text = format!(in alloc; " [{name}]")?;
    Ok(text)
}

fn arguments_text(alloc: Global, arguments: Arguments) -> Result<String, AllocError>
    ensures { IfOk result (λ text. string_bytes text ≡ arguments_text arguments) }
{
    match arguments {
        Arguments::Nothing => Ok(String::new(alloc)),
        Arguments::One(argument) => first_text(alloc, argument),
        Arguments::Two(argument, next) => two_text(alloc, argument, next),
        Arguments::Three(argument, next, last) => three_text(alloc, argument, next, last),
        Arguments::Four(first, second, third, last) => {
            let before = three_text(alloc, first, second, third)?;
            with_argument(alloc, before, last)
        }
    }
}

fn two_text(alloc: Global, argument: Argument, next: Argument) -> Result<String, AllocError>
    ensures { IfOk result (λ text. string_bytes text ≡ first_text argument ++ argument_text next) }
{
    let (first, next) = (first_text(alloc, argument)?, argument_name(next));
    let text = format!(in alloc; "{first} <{next}>")?;
    Ok(text)
}

fn three_text(
    alloc: Global,
    argument: Argument,
    next: Argument,
    last: Argument,
) -> Result<String, AllocError>
    ensures { IfOk result
        (λ text. string_bytes text ≡ first_text argument ++ argument_text next ++ argument_text last) }
{
    let (first, last) = (two_text(alloc, argument, next)?, argument_name(last));
    let text = format!(in alloc; "{first} <{last}>")?;
    Ok(text)
}

/// The text, and one argument more.
fn with_argument(alloc: Global, before: String, argument: Argument) -> Result<String, AllocError>
    ensures { IfOk result (λ text. string_bytes text ≡ string_bytes before ++ argument_text argument) }
{
    let (before, name) = (before.as_str(), argument_name(argument));
    let text = format!(in alloc; "{before} <{name}>")?;
    Ok(text)
}

/// The first argument, with the place of a first `--`: before the arguments, and of `each` before those of its command.
fn first_text(alloc: Global, argument: Argument) -> Result<String, AllocError>
    ensures { IfOk result (λ text. string_bytes text ≡ first_text argument) }
{
    let name = argument_name(argument);
    let text = if argument == Argument::Command {
        format!(in alloc; " <{name}> [--]")?
    } else {
        format!(in alloc; " [--] <{name}>")?
    };
    Ok(text)
}

fn repeated_text(alloc: Global, repeated: Option<Argument>) -> Result<String, AllocError>
    ensures { IfOk result (λ text. string_bytes text ≡ repeated_text repeated) }
{
    match repeated {
        None => Ok(String::new(alloc)),
        Some(argument) => {
            let name = argument_name(argument);
            let text = format!(in alloc; " [{name}]...")?;
            Ok(text)
        }
    }
}
