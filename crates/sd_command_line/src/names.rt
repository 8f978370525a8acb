//! A command line that names a file of accounts or a schema file.
ghost use Rattle.std.specs.Prelude.{◌≡◌, ◌≤◌, IfOk, length, option_map};
ghost use Rattle.sd_arguments.specs.CommandLine.{command_line_of, request_of};
ghost use Rattle.sd_arguments.specs.Options.{options_of};
ghost use Rattle.sd_usage.specs.declared.row.OptionName.TheVariants.{Accounts, Schema};
ghost use Rattle.sd_command_line.specs.Names.{accounts_place, file_given, is_accounts, request_in, without_accounts};

use sd_arguments::{
    CommandLine, Invocation, Options, ProgramRequest, TextRequest, read_command_line,
};
use sd_line::{Output, Spelling, Style};
use sd_usage::OptionName;
use std::alloc::{AllocError, Global};

/// The name of the accounts file, if the words are a command line about a text that gives one.
pub fn accounts_file<'a>(words: &'a [&'a str]) -> Option<&'a str>
    ensures { option_map (λ file. file.now) result ≡ file_given Accounts words.entry.now }
{
    file_given(OptionName::Accounts, words)
}

/// The name of the schema file, if the words are a command line about a text that gives one.
pub fn schema_file<'a>(words: &'a [&'a str]) -> Option<&'a str>
    ensures { option_map (λ file. file.now) result ≡ file_given Schema words.entry.now }
{
    file_given(OptionName::Schema, words)
}

/// The value of the option, if the words are a command line about a text that gives one.
fn file_given<'a>(option: OptionName, words: &'a [&'a str]) -> Option<&'a str>
    ensures { option_map (λ file. file.now) result ≡ file_given option words.entry.now }
{
    match read_command_line(words) {
        Ok(line) => match request_in(line) {
            Some((options, _)) => options.given(option),
            None => None,
        },
        Err(_) => None,
    }
}

/// How a command line wants a fault printed, and whether it has a status of its own.
pub(crate) fn asked_options(words: &[&str]) -> (Style, bool) {
    let asked = match read_command_line(words) {
        Ok(line) => request_in(line),
        Err(_) => None,
    };
    match asked {
        Some((options, _)) => (options.style(), options.has(OptionName::StrictStatus)),
        None => {
            let (spelling, output) = (Spelling::Number, Output::Text);
            (Style { spelling, output }, false)
        }
    }
}

/// The words without the option and the name of the file.
#[tactic(auto, using(std::proofs::lemmas::List::drop_min))]
pub(crate) fn without_accounts<'a>(
    alloc: Global,
    words: &[&'a str],
) -> Result<Vec<&'a str>, AllocError>
    ensures { IfOk result (λ own. own.items ≡ without_accounts words.now) }
{
    let place = accounts_place(words);
    let mut own = Vec::new(alloc);
    own.extend_from_slice(&words[..place])?;
    own.extend_from_slice(&words[(place + 2).min(words.len())..])?;
    Ok(own)
}

/// The place of the option, or the end.
fn accounts_place(words: &[&str]) -> usize
    ensures place { result ≡ accounts_place words.now }
    ensures within { result ≤ length words.now }
{
    for place in 0..words.len() {
        if is_accounts(words[place]) {
            return place;
        }
    }
    words.len()
}

#[tactic(auto, unfolding(crate::specs::Names::is_accounts))]
fn is_accounts(word: &str) -> bool
    ensures { result ≡ is_accounts word.now }
{
    word == "--accounts"
}

/// What is asked of a text or of each line.
pub(crate) fn request_in(line: CommandLine<'_>) -> Option<(Options<'_>, TextRequest<'_>)>
    ensures { option_map (λ asked. (options_of asked.0, request_of asked.1)) result
        ≡ request_in (command_line_of line.entry) }
{
    match line.asked {
        ProgramRequest::Runs(Invocation::Ask { request, .. } | Invocation::Each { request, .. }) =>
            { Some((line.options, request)) }
        _ => None,
    }
}
