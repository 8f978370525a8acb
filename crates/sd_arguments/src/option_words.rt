//! The options that the arguments of a command line begin with.
ghost use Rattle.std.specs.Prelude.{◌≡◌, is_some, not};
ghost use Rattle.sd_arguments.specs.Options.{go_before, goes_before, options_in, options_of};
ghost use Rattle.sd_arguments.specs.UsageError.{accepted};

use crate::options::Options;
use crate::usage_error::{UsageError, UsageErrorKind};
use sd_usage::{Beside, ProgramOption, option_named, takes_option};

/// The options that the arguments begin with, beside those before, and the arguments after them, or which of them is
/// there twice, or lacks its value.
pub(crate) fn options_in<'a>(
    options: Options<'a>,
    words: &'a [&'a str],
) -> Result<(Options<'a>, &'a [&'a str]), UsageError>
    ensures { accepted (λ read. (options_of read.0, read.1.now)) result
        ≡ options_in (options_of options.entry) words.entry.now }
{
    let [word, after @ ..] = words else {
        return Ok((options, words));
    };
    let Some(option) = option_named(word) else {
        return Ok((options, words));
    };
    let (value, after) = match after {
        _ if option.value.is_none() => ("", after),
        [value, after @ ..] => (*value, after),
        [] => return Err(UsageError::new(words.len(), 0, UsageErrorKind::NoValue)),
    };
    let options = options.with_option(words.len(), option.name, value)?;
    options_in(options, after)
}

/// What is wrong with the first of the options, with which the arguments begin, that may not go before the command of
/// this name.
pub(crate) fn misplaced_in(
    name: &str,
    named: usize,
    options: Options<'_>,
    words: &[&str],
) -> Option<UsageError>
    ensures { not (is_some result) ≡ go_before name.now (options_of options.entry) words.now }
{
    let [word, after @ ..] = words else {
        return None;
    };
    let option = option_named(word)?;
    if let Some(wrong) = wrong_option(name, options, option) {
        return Some(UsageError::new(words.len(), named, wrong));
    }
    match after {
        [_value, after @ ..] if option.value.is_some() => misplaced_in(name, named, options, after),
        _ => misplaced_in(name, named, options, after),
    }
}

/// Why the option may not go before the command, or not beside the others, if it may not.
fn wrong_option(name: &str, options: Options<'_>, option: ProgramOption) -> Option<UsageErrorKind>
    ensures { not (is_some result) ≡ goes_before name.now (options_of options.entry) option }
{
    if !takes_option(name, option.name) {
        return Some(UsageErrorKind::MisplacedOption(option.name));
    }
    match option.beside {
        Beside::Without(other) if options.has(other) => Some(UsageErrorKind::ExcludedOption),
        Beside::With(one, ..) if !options.has(one) => Some(UsageErrorKind::LacksWhole),
        Beside::With(_, other, ..) if options.has(other) => Some(UsageErrorKind::ExcludedOption),
        Beside::With(_, _, taken, also) if takes_option(name, taken) && !options.has(also) => {
            Some(UsageErrorKind::LacksObject)
        }
        _ => None,
    }
}
