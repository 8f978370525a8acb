//! The parser of a command line: what its arguments ask for, by the table of commands and options.
ghost use Rattle.std.specs.Prelude.{◌≡◌, is_some, option_map};
ghost use Rattle.sd_arguments.specs.CommandLine.{arguments_in, arguments_of_line, asked_by, asked_by_words, asks};
ghost use Rattle.sd_arguments.specs.CommandLine.{asks_input, audit_by, call_in, call_of, each_by, run_by, takes_pairs};
ghost use Rattle.sd_arguments.specs.CommandLine.{command_line_of, first_call, help_on, invocation_of, is_of_whole};
ghost use Rattle.sd_arguments.specs.CommandLine.{lacks_whole, line_of, reading};
ghost use Rattle.sd_arguments.specs.CommandLine.{request_after, request_of, request_on, shown_by, workers_of};
ghost use Rattle.sd_arguments.specs.Laws.{shows};
ghost use Rattle.sd_arguments.specs.UsageError.{accepted};
ghost use Rattle.sd_arguments.specs.Options.{no_options, options_of};

use crate::flags::{GivenFlags, NO_FLAGS, flags_in};
use crate::option_words::{misplaced_in, options_in};
use crate::options::Options;
use crate::usage_error::{UsageError, UsageErrorKind};
use sd_usage::{Command, CommandName, DescriptorCommand, OptionName, TextCommand, command_named};

/// What a command line asks for, and with which options.
#[derive(Clone, Copy)]
pub struct CommandLine<'a> {
    pub options: Options<'a>,
    pub asked: ProgramRequest<'a>,
}

/// What the program is asked for.
#[derive(Clone, Copy)]
pub enum ProgramRequest<'a> {
    /// The help on a command, or on the program.
    Help { command: Option<CommandName> },
    /// The version of the program.
    Version,
    Runs(Invocation<'a>),
}

/// What a command is asked.
#[derive(Clone, Copy)]
pub enum Invocation<'a> {
    /// The answer to a text, which standard input is where none is given.
    Ask {
        text: Option<&'a str>,
        request: TextRequest<'a>,
    },
    /// The answer to each line of standard input.
    Each {
        given: GivenFlags,
        request: TextRequest<'a>,
    },
    /// The output of the script on standard input.
    Script(ScriptRun),
}

/// How a script is run.
#[derive(Clone, Copy)]
pub enum ScriptRun {
    AtOnce,
    /// Line by line, where lines may have ids.
    LineByLine { has_ids: bool },
    /// As an audit by so many workers.
    Audit { workers: u64 },
}

/// A command that answers a text, with its arguments after that.
#[derive(Clone, Copy)]
pub struct TextRequest<'a> {
    pub question: TextCommand,
    pub arguments: &'a [&'a str],
}

/// A command after these options, with which the words begin, and what follows it.
#[derive(Clone, Copy)]
struct Call<'a> {
    options: Options<'a>,
    words: &'a [&'a str],
    name: &'a str,
    /// How many arguments there are from the name on.
    named: usize,
    command: Command,
    given: GivenFlags,
    arguments: &'a [&'a str],
}

impl<'a> Call<'a> {
    /// What is asked for, where each option before the command may go there, and none is missing.
    fn asks(self, invocation: Invocation<'a>) -> Result<Invocation<'a>, UsageError>
        ensures { accepted invocation_of result ≡ asks (call_of self.entry) (invocation_of invocation.entry) }
    {
        match misplaced_in(self.name, self.named, self.options, self.words) {
            Some(usage_error) => Err(usage_error),
            None if self.lacks_whole() => {
                let wrong = UsageErrorKind::WithoutWhole;
                Err(UsageError::new(self.named, self.named, wrong))
            }
            None => Ok(invocation),
        }
    }

    /// Whether the command goes only beside `--whole`, which isn't given.
    fn lacks_whole(self) -> bool
        ensures { result ≡ lacks_whole (call_of self.entry) }
    {
        is_of_whole(self.command.name) && !self.options.has(OptionName::Whole)
    }

    /// The mistake of a wrong number of arguments: the one that is missing, or the first that is too many.
    fn miscounted(self, count: usize) -> UsageError {
        let arguments = self.command.arguments;
        let (left, wrong) = match arguments.at(count) {
            Some(argument) => (0, UsageErrorKind::MissingArgument(argument, self.command)),
            None => {
                let left = count.saturating_sub(arguments.count());
                (left, UsageErrorKind::SurplusArgument(self.command))
            }
        };
        UsageError::new(left, self.named, wrong)
    }

    /// What a command that answers a text asks of one, or of two with `pairs`, that the arguments follow.
    fn request_after(self, pairs: bool) -> Result<TextRequest<'a>, UsageError>
        ensures { accepted request_of result ≡ request_after pairs self.entry.command.name (call_of self.entry) }
    {
        let CommandName::Ask(question) = self.command.name else {
            return Err(UsageError::new(self.named, self.named, UsageErrorKind::NoText));
        };
        if pairs && !takes_pairs(question) {
            return Err(UsageError::new(self.named, self.named, UsageErrorKind::NoPairs));
        }
        let count = arguments_of_line(pairs) + self.arguments.len();
        if !self.command.takes_count(count) {
            return Err(self.miscounted(count));
        }
        Ok(TextRequest {
            question,
            arguments: self.arguments,
        })
    }

    /// What a command asks for with its arguments, as many as it takes.
    fn request_on(self) -> Result<Invocation<'a>, UsageError>
        ensures { accepted invocation_of result ≡ request_on (call_of self.entry) }
    {
        if !self.command.takes_count(self.arguments.len()) {
            return Err(self.miscounted(self.arguments.len()));
        }
        match (self.command.name, self.arguments) {
            (CommandName::Ask(question), [text, arguments @ ..]) => {
                let text = Some(*text);
                let request = TextRequest {
                    question,
                    arguments,
                };
                self.asks(Invocation::Ask { text, request })
            }
            (CommandName::Script, _) => self.asks(Invocation::Script(ScriptRun::AtOnce)),
            (CommandName::Serve, _) => {
                let has_ids = self.given.ids;
                self.asks(Invocation::Script(ScriptRun::LineByLine { has_ids }))
            }
            (CommandName::Audit, [workers, ..]) => self.audit_by(workers),
            (CommandName::Each, _) => self.each_line(),
            _ => Err(self.miscounted(self.arguments.len())),
        }
    }

    /// The audit by as many workers as the word says.
    fn audit_by(self, word: &str) -> Result<Invocation<'a>, UsageError>
        ensures { accepted invocation_of result ≡ audit_by (call_of self.entry) word.now }
    {
        match workers_in(word) {
            Some(workers) => self.asks(Invocation::Script(ScriptRun::Audit { workers })),
            None => {
                let wrong = UsageErrorKind::NoWorkers(self.command);
                Err(UsageError::new(self.arguments.len(), self.named, wrong))
            }
        }
    }

    /// What the command of `each`, with which the arguments begin, asks of each line.
    fn each_line(self) -> Result<Invocation<'a>, UsageError>
        ensures { accepted invocation_of result ≡ each_by (call_of self.entry) self.entry.arguments.now }
    {
        let call = call_in(self.options, self.words, self.arguments)?;
        let (given, request) = (self.given, call.request_after(self.given.pairs)?);
        call.asks(Invocation::Each { given, request })
    }

    /// What the command asks for with its arguments, or after `--stdin` what it asks of the input.
    fn asked(self) -> Result<Invocation<'a>, UsageError>
        ensures { accepted invocation_of result ≡ asked_by (call_of self.entry) }
    {
        if !self.options.has(OptionName::Stdin) {
            return self.request_on();
        }
        let request = self.request_after(false)?;
        self.asks(Invocation::Ask {
            text: None,
            request,
        })
    }
}

/// What the arguments ask for, of which the first is the program's name, or the first mistake in them.
pub fn read_command_line<'a>(words: &'a [&'a str]) -> Result<CommandLine<'a>, UsageError>
    ensures { accepted command_line_of result ≡ reading words.entry.now }
{
    match words {
        [] => Err(no_command(words)),
        [_, words @ ..] => asked_by_words(words),
    }
}

/// What the arguments after the program's name ask for.
fn asked_by_words<'a>(words: &'a [&'a str]) -> Result<CommandLine<'a>, UsageError>
    ensures { accepted command_line_of result ≡ asked_by_words words.entry.now }
{
    match shown_by(words) {
        Some(asked) => {
            let options = Options::none();
            Ok(CommandLine { options, asked })
        }
        None => run_by(words),
    }
}

/// What the command after the options asks for.
fn run_by<'a>(words: &'a [&'a str]) -> Result<CommandLine<'a>, UsageError>
    ensures { accepted command_line_of result ≡ run_by words.entry.now }
{
    let call = first_call(words)?;
    let invocation = call.asked()?;
    Ok(CommandLine {
        options: call.options,
        asked: ProgramRequest::Runs(invocation),
    })
}

/// Whether what these words ask for, of which the first is the program's name, is answered from the input.
pub fn reads_input(words: &[&str]) -> bool
    ensures { result ≡ asks_input words.now }
{
    match read_command_line(words) {
        Ok(line) => match line.asked {
            ProgramRequest::Runs(Invocation::Ask { text, .. }) => text.is_none(),
            ProgramRequest::Runs(_) => true,
            _ => false,
        },
        Err(_) => false,
    }
}

/// Whether these words, of which the first is the program's name, are a command line.
pub fn is_command_line(words: &[&str]) -> bool
    ensures { result ≡ is_some (reading words.now) }
{
    read_command_line(words).is_ok()
}

/// Whether what these words ask for, of which the first is the program's name, is help or the version.
pub fn asks_help(words: &[&str]) -> bool
    ensures { result ≡ shows (reading words.now) }
{
    read_command_line(words).is_ok_and(|line| !matches!(line.asked, ProgramRequest::Runs(_)))
}

/// The help or the version that the arguments after the program's name ask for.
fn shown_by<'a>(words: &[&str]) -> Option<ProgramRequest<'a>>
    ensures { option_map (line_of no_options) result ≡ shown_by words.now }
{
    match words {
        ["-h" | "--help" | "help"] | ["help", "help"] => Some(ProgramRequest::Help {
            command: None,
        }),
        ["-V" | "--version"] => Some(ProgramRequest::Version),
        ["help", name] => help_on(name),
        [name, "-h"] => help_on(name),
        [name, "--help"] => help_on(name),
        _ => None,
    }
}

/// The help on the command that the text names.
fn help_on<'a>(word: &str) -> Option<ProgramRequest<'a>>
    ensures { option_map (line_of no_options) result ≡ help_on word.now }
{
    let command = Some(command_named(word)?.name);
    Some(ProgramRequest::Help { command })
}

/// What is wrong where no command begins: no command is named after `help`, or what stands there.
fn no_command(words: &[&str]) -> UsageError {
    if asks_unknown(words) {
        return UsageError::new(1, 0, UsageErrorKind::UnknownCommand);
    }
    UsageError::new(words.len(), 0, wrong_in(words))
}

/// Whether help is asked for on what is no command.
fn asks_unknown(words: &[&str]) -> bool {
    match words {
        ["help", name] => !(command_named(name).is_some() || *name == "help"),
        _ => false,
    }
}

/// Help or the version is asked for among other arguments, or there is an option or another text.
fn wrong_in(words: &[&str]) -> UsageErrorKind {
    match words {
        [] => UsageErrorKind::NoCommand,
        ["help" | "-h" | "--help" | "-V" | "--version", ..] => UsageErrorKind::NotAlone,
        [word, ..] if word.starts_with('-') => UsageErrorKind::UnknownOption,
        _ => UsageErrorKind::UnknownCommand,
    }
}

/// The command after the options with which the words begin.
fn first_call<'a>(words: &'a [&'a str]) -> Result<Call<'a>, UsageError>
    ensures { accepted call_of result ≡ first_call words.entry.now }
{
    let (options, rest) = options_in(Options::none(), words)?;
    call_in(options, words, rest)
}

/// The command that the arguments after these options begin with, its own options, a first `--`, and its arguments.
fn call_in<'a>(
    options: Options<'a>,
    words: &'a [&'a str],
    rest: &'a [&'a str],
) -> Result<Call<'a>, UsageError>
    ensures { accepted call_of result ≡ call_in (options_of options.entry) words.entry.now rest.entry.now }
{
    let [name, after @ ..] = rest else {
        return Err(no_command(rest));
    };
    let command = command_named(name).ok_or_else(|| no_command(rest))?;
    let (given, after) = flags_in(command, NO_FLAGS, after);
    Ok(Call {
        options,
        words,
        name,
        named: rest.len(),
        command,
        given,
        arguments: arguments_in(after),
    })
}

/// The arguments after a command, without a first `--`: a way to say that what follows is no flag.
fn arguments_in<'a>(words: &'a [&'a str]) -> &'a [&'a str]
    ensures { result.now ≡ arguments_in words.entry.now }
{
    match words {
        [word, rest @ ..] if *word == "--" => rest,
        _ => words,
    }
}

/// Whether the command goes only beside `--whole`.
fn is_of_whole(command: CommandName) -> bool
    ensures { result ≡ is_of_whole command }
{
    matches!(command, CommandName::Ask(TextCommand::Types))
}

/// How many arguments of a command a line is.
fn arguments_of_line(pairs: bool) -> usize
    ensures { result ≡ arguments_of_line pairs }
{
    if pairs { 2 } else { 1 }
}

/// Whether the command is of two texts.
fn takes_pairs(question: TextCommand) -> bool
    ensures { result ≡ takes_pairs question }
{
    matches!(
        question,
        TextCommand::Descriptor(DescriptorCommand::Compare) | TextCommand::Diff
    )
}

/// A number of workers: 1 to 64, in one or two decimal digits.
fn workers_in(word: &str) -> Option<u64>
    ensures { result ≡ workers_of word.now }
{
    let (tens, ones) = match word.as_bytes() {
        [ones] => (b'0', *ones),
        [tens, ones] => (*tens, *ones),
        _ => return None,
    };
    if !tens.is_ascii_digit() || !ones.is_ascii_digit() {
        return None;
    }
    let count = u64::from(tens - b'0') * 10 + u64::from(ones - b'0');
    if count < 1 || 64 < count {
        return None;
    }
    Some(count)
}
