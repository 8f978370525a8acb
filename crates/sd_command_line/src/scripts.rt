//! What comes of a script beside its output.
ghost use Rattle.std.specs.Prelude.{◌≡◌, IfOk, string_bytes};
ghost use Rattle.sd_command_line.specs.Scripts.{IsToldOfScript, expect_note, line_if, line_note, nothing_note};
ghost use Rattle.sd_command_line.specs.Scripts.{nothing_text, script_notes, script_outcome};

use sd_commands::{Outcome, told_line};
use sd_questions::Ended;
use sd_script::ScriptCounts;
use std::alloc::{AllocError, Global};

/// The outcome of a script, the worst of its lines: a fault where none was carried out, or with `strict` where one had
/// a fault or was refused; else a refusal where an expected answer wasn't given, or with `strict` where an answer says
/// that a node differs from the text of its descriptor. The notes for standard error: that no line was carried out,
/// and what mends that; that the script begins with a byte order mark; the first line whose node differs from the text
/// of its descriptor, and the first whose node's own entries were put in order; with `strict` the first fault or
/// refusal; how many answers were expected, and weren't given. No notes if out of memory: the output is there by then.
#[tactic(auto, unfolding(crate::specs::Scripts::script_outcome))]
pub(crate) fn end_of_script(alloc: Global, strict: bool, counts: &ScriptCounts) -> Ended
    ensures told { IsToldOfScript strict counts.now (string_bytes result.told) }
    ensures outcome { result.outcome ≡ script_outcome strict counts.now }
{
    let told = script_notes(alloc, strict, counts).unwrap_or(String::new(alloc));
    let differs = counts.first_difference.is_some() || counts.first_reordered.is_some();
    let outcome = if counts.carried_out == 0 || (strict && counts.first_fault.is_some()) {
        Outcome::Fault
    } else if counts.first_unmet.is_some() || (strict && differs) {
        Outcome::Refused
    } else {
        Outcome::Done
    };
    Ended { told, outcome }
}

fn script_notes(alloc: Global, strict: bool, counts: &ScriptCounts) -> Result<String, AllocError>
    ensures { IfOk result (λ text. string_bytes text ≡ script_notes strict counts.now) }
{
    let nothing = nothing_note(alloc, counts)?;
    let mark = line_if(counts.begins_with_mark, Some(1));
    let mark = line_note(alloc, "it begins with a byte order mark", mark)?;
    let what = "the node differs from its descriptor";
    let difference = line_note(alloc, what, counts.first_difference)?;
    let what = "the node's own entries are in canonical order now";
    let order = line_note(alloc, what, counts.first_reordered)?;
    let fault = line_if(strict, counts.first_fault);
    let fault = line_note(alloc, "a fault or a refusal", fault)?;
    let expectations = expect_note(alloc, counts.expected, counts.unmet, counts.first_unmet)?;
    format!(in alloc; "{nothing}{mark}{difference}{order}{fault}{expectations}")
}

/// That nothing was carried out, where nothing was.
fn nothing_note(alloc: Global, counts: &ScriptCounts) -> Result<String, AllocError>
    ensures { IfOk result (λ text. string_bytes text ≡ nothing_note counts.now) }
{
    if counts.carried_out == 0 {
        told_line(alloc, "standard input", nothing_text(counts))
    } else {
        Ok(String::new(alloc))
    }
}

/// Why nothing was carried out, and what mends that.
fn nothing_text(counts: &ScriptCounts) -> &'static str
    ensures { result.now ≡ nothing_text counts.now }
{
    if counts.lines == 0 {
        "no line"
    } else if counts.begins_as_utf16 {
        "it is UTF-16, and a script is UTF-8: convert it by 'iconv -f UTF-16 -t UTF-8'"
    } else {
        "no line was carried out: 'sdstore help script' has the commands"
    }
}

/// A line, where it is to be told.
fn line_if(is_told: bool, line: Option<u64>) -> Option<u64>
    ensures { result ≡ line_if is_told line }
{
    if is_told { line } else { None }
}

/// What is told of a line, where there is one.
fn line_note(alloc: Global, what: &str, line: Option<u64>) -> Result<String, AllocError>
    ensures { IfOk result (λ text. string_bytes text ≡ line_note what.now line) }
{
    match line {
        None => Ok(String::new(alloc)),
        Some(number) => {
            let argument = format!(in alloc; "line {number}")?;
            told_line(alloc, argument.as_str(), what)
        }
    }
}

/// How many answers were expected, how many weren't given, and the first line that expected one of these.
fn expect_note(
    alloc: Global,
    expected: u64,
    unmet: u64,
    first: Option<u64>,
) -> Result<String, AllocError>
    ensures { IfOk result (λ text. string_bytes text ≡ expect_note expected unmet first) }
{
    let what = match first {
        None if expected == 0 => return Ok(String::new(alloc)),
        None => format!(in alloc; "{expected} expected, all met")?,
        Some(line) => {
            format!(in alloc; "{expected} expected, {unmet} not met, the first in line {line}")?
        }
    };
    told_line(alloc, "expect", what.as_str())
}
