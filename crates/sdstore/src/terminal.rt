//! What a terminal changes: verdicts in colour, and a caret below a fault. Where it is none, nothing changes.

use sd_command_line::{asks_help, is_command_line};
use std::alloc::{AllocError, Global};
use std::env;
use std::env::{Env, VarError};
use std::io::IsTerminal;

/// The words with an option before all others, where that is a command line too. Help stays help, also where it is
/// asked for behind a command, and a mistake keeps its argument's number. Without memory for them they stay.
pub(crate) fn with_option<'a>(alloc: Global, words: Vec<&'a str>, option: &'a str) -> Vec<&'a str> {
    if asks_help(words.as_slice()) {
        return words;
    }
    match after_option(alloc, words.as_slice(), option) {
        Ok(more) if is_command_line(more.as_slice()) => more,
        _ => words,
    }
}

fn after_option<'a>(
    alloc: Global,
    words: &[&'a str],
    option: &'a str,
) -> Result<Vec<&'a str>, AllocError> {
    let mut more = Vec::from_slice(alloc, words)?;
    if !words.is_empty() {
        more.insert(1, option)?;
    }
    Ok(more)
}

/// Whether the output shows colours: a terminal's does, unless the variable `NO_COLOR` is there, whatever it holds.
pub(crate) fn shows_colours<T: Env + AllocGlobal, W: IsTerminal>(rt: &T, output: &W) -> bool {
    output.is_terminal() && matches!(env::var(rt, "NO_COLOR"), Err(VarError::NotPresent))
}
