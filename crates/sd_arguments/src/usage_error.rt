//! What is wrong with a command line, and what standard error gets for it.
ghost use Rattle.std.specs.Prelude.{◌≡◌, IfOk, string_bytes};
ghost use Rattle.sd_arguments.specs.UsageError.{IsMessage, place_text, word_at};

use sd_commands::{escaped_word, told_line};
use sd_usage::{
    Argument, Command, Commands, OptionName, argument_name, listed_commands, usage_line,
};
use std::alloc::{AllocError, Global};

/// What is wrong with a command line. Arguments are counted from its end, so that a part of it that ends with it has
/// the same number for each.
#[derive(Clone, Copy)]
pub struct UsageError {
    /// How many arguments there are from the one on that it is about: 0 where one is missing at the end.
    pub(crate) left: usize,
    /// How many there are from the command on, where it is about one.
    pub(crate) named: usize,
    pub(crate) wrong: UsageErrorKind,
}

#[derive(Clone, Copy)]
pub(crate) enum UsageErrorKind {
    NoCommand,
    UnknownCommand,
    UnknownOption,
    /// Help or the version is asked for among other arguments.
    NotAlone,
    RepeatedOption,
    NoValue,
    /// The command doesn't take the option.
    MisplacedOption(OptionName),
    /// The option excludes another that is given.
    ExcludedOption,
    /// The option goes only beside `--whole`, which isn't given.
    LacksWhole,
    /// The command goes only beside `--whole`, which isn't given.
    WithoutWhole,
    /// Before this command the option goes only beside `--object`, which isn't given.
    LacksObject,
    /// There are more than five object types.
    TooManyTypes,
    /// The command of `each`, or after `--stdin`, answers no text.
    NoText,
    /// `each` has pairs of texts, and its command is of one.
    NoPairs,
    MissingArgument(Argument, Command),
    SurplusArgument(Command),
    NoWorkers(Command),
}

impl UsageError {
    pub(crate) fn new(left: usize, named: usize, wrong: UsageErrorKind) -> UsageError {
        UsageError { left, named, wrong }
    }
}

impl UsageErrorKind {
    /// What the phrase is about: an argument that is missing, or the command of this name.
    fn subject<'a>(self, name: &'a str) -> &'a str {
        match self {
            UsageErrorKind::NoCommand => "COMMAND",
            UsageErrorKind::MisplacedOption(_)
            | UsageErrorKind::WithoutWhole
            | UsageErrorKind::LacksObject
            | UsageErrorKind::NoText
            | UsageErrorKind::NoPairs => name,
            UsageErrorKind::MissingArgument(argument, _) => argument_name(argument),
            _ => "",
        }
    }

    /// What is wrong, with the mistake's number and name.
    fn phrase(self) -> &'static str {
        match self {
            UsageErrorKind::NoCommand => " is missing (1 NoCommand)",
            UsageErrorKind::UnknownCommand => "unknown command (2 UnknownCommand)",
            UsageErrorKind::UnknownOption => "unknown option (3 UnknownOption)",
            UsageErrorKind::NotAlone => "help and the version stand alone (4 NotAlone)",
            UsageErrorKind::RepeatedOption => "this option is given twice (5 RepeatedOption)",
            UsageErrorKind::NoValue => "this option lacks its value (6 NoValue)",
            UsageErrorKind::MisplacedOption(_) => " doesn't take this option (7 MisplacedOption)",
            UsageErrorKind::ExcludedOption => "this option excludes another one (8 ExcludedOption)",
            UsageErrorKind::LacksWhole => "this option goes only beside --whole (13 LacksWhole)",
            UsageErrorKind::WithoutWhole => " goes only beside --whole (17 WithoutWhole)",
            UsageErrorKind::LacksObject => {
                " takes this option only beside --object (15 LacksObject)"
            }
            UsageErrorKind::TooManyTypes => "one object type too many, at most 5 (14 TooManyTypes)",
            UsageErrorKind::NoText => " doesn't answer a text (9 NoText)",
            UsageErrorKind::NoPairs => " isn't about two texts, compare and diff are (16 NoPairs)",
            UsageErrorKind::MissingArgument(..) => " is missing (10 MissingArgument)",
            UsageErrorKind::SurplusArgument(_) => "one argument too many (11 SurplusArgument)",
            UsageErrorKind::NoWorkers(_) => "no number of workers, 1 to 64 (12 NoWorkers)",
        }
    }
}

/// What standard error gets: which argument it is about, from 1, without its control characters, what is wrong, and in
/// a second line what fits. The only error is out of memory.
pub fn message(alloc: Global, words: &[&str], usage_error: UsageError) -> Result<String, AllocError>
    ensures { IfOk result (λ text. IsMessage words.now (string_bytes text)) }
{
    let place = place_text(alloc, words, usage_error.left)?;
    let what = what_is_wrong(alloc, word_at(words, usage_error.named), usage_error.wrong)?;
    told_line(alloc, place.as_str(), what.as_str())
}

/// The argument from which on there are so many, or an empty text.
pub(crate) fn word_at<'a>(words: &[&'a str], left: usize) -> &'a str
    ensures { result.now ≡ word_at words.now left }
{
    match words.get(words.len().saturating_sub(left)) {
        Some(word) => word,
        None => "",
    }
}

/// Which argument it is, and its text, if it is there.
fn place_text(alloc: Global, words: &[&str], left: usize) -> Result<String, AllocError>
    ensures { IfOk result (λ text. string_bytes text ≡ place_text words.now left) }
{
    let place = words.len().saturating_sub(left);
    let text = if left == 0 {
        format!(in alloc; "argument {place}")?
    } else {
        let word = escaped_word(alloc, word_at(words, left))?;
        format!(in alloc; "argument {place}, \"{word}\"")?
    };
    Ok(text)
}

/// What is wrong, and in a second line what fits, where the command has this name.
fn what_is_wrong(alloc: Global, name: &str, wrong: UsageErrorKind) -> Result<String, AllocError> {
    let (subject, phrase) = (wrong.subject(name), wrong.phrase());
    let hint = hint(alloc, name, wrong)?;
    format!(in alloc; "{subject}{phrase}{hint}")
}

/// A second line without its end, of what fits, or nothing.
fn hint(alloc: Global, name: &str, wrong: UsageErrorKind) -> Result<String, AllocError> {
    match wrong {
        UsageErrorKind::NoCommand | UsageErrorKind::UnknownCommand => {
            commands_hint(alloc, "commands: ", Commands::All)
        }
        UsageErrorKind::UnknownOption => String::from_str(
            alloc,
            "\n'sdstore help' lists the options",
        ),
        UsageErrorKind::NotAlone => String::from_str(alloc, "\nusage: sdstore help [COMMAND]"),
        UsageErrorKind::RepeatedOption
        | UsageErrorKind::NoValue
        | UsageErrorKind::ExcludedOption
        | UsageErrorKind::LacksWhole
        | UsageErrorKind::WithoutWhole
        | UsageErrorKind::LacksObject
        | UsageErrorKind::TooManyTypes
        | UsageErrorKind::NoPairs => Ok(String::new(alloc)),
        UsageErrorKind::MisplacedOption(option) => {
            commands_hint(alloc, "it goes before ", Commands::Taking(option))
        }
        UsageErrorKind::NoText => commands_hint(alloc, "commands that do: ", Commands::Answering),
        UsageErrorKind::MissingArgument(_, command)
        | UsageErrorKind::SurplusArgument(command)
        | UsageErrorKind::NoWorkers(command) => usage_hint(alloc, name, command),
    }
}

fn commands_hint(alloc: Global, what: &str, commands: Commands) -> Result<String, AllocError> {
    let names = listed_commands(alloc, commands, "")?;
    format!(in alloc; "\n{what}{names}")
}

fn usage_hint(alloc: Global, name: &str, command: Command) -> Result<String, AllocError> {
    let usage = usage_line(alloc, name, command)?;
    format!(in alloc; "\nusage: {usage}")
}
