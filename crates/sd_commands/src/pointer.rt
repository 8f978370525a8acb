//! The text around a byte, which a terminal shows below a message that names the byte.
ghost use Rattle.std.specs.Prelude.{◌≡◌, ◌++◌, IfOk, length, string_bytes};
ghost use Rattle.std.specs.Str.{chars};
ghost use Rattle.sd_commands.specs.Pointer.{dots, end_shown, lines_of, pointed, pointer, start_shown};

use crate::escaped::escaped_part;
use std::alloc::{AllocError, Global};

/// How many characters before the byte are shown, and how many from it on: with dots they fit into 80 columns.
const BEFORE: usize = 30;

const FROM: usize = 45;

/// What a message says, and where that is asked for, the text below it.
pub(crate) fn with_pointer(
    alloc: Global,
    points: bool,
    text: &str,
    place: usize,
    mut what: String,
) -> Result<String, AllocError>
    ensures { IfOk result (λ said. string_bytes said ≡ string_bytes what ++ pointed points text.now place) }
{
    if points {
        let lines = pointer_lines(alloc, text, place)?;
        what.push_str(lines.as_str())?;
    }
    Ok(what)
}

/// The characters around the byte at this place, and a caret below the one there.
fn pointer_lines(alloc: Global, text: &str, place: usize) -> Result<String, AllocError>
    ensures { IfOk result (λ lines. string_bytes lines ≡ pointer text.now place) }
{
    let (before, from) = text.split_at(text.floor_char_boundary(place));
    let before = end_shown(alloc, before)?;
    let from = start_shown(alloc, from)?;
    lines_of(alloc, before.as_str(), from.as_str())
}

fn lines_of(alloc: Global, before: &str, from: &str) -> Result<String, AllocError>
    ensures { IfOk result (λ lines. string_bytes lines ≡ lines_of before.now from.now) }
{
    let indent = " ".repeat(alloc, char_count(before))?;
    let indent = indent.as_str();
    let lines = format!(in alloc; "\n  {before}{from}\n  {indent}^")?;
    Ok(lines)
}

/// The last characters of a text, with dots in place of those before them.
#[tactic(auto, using(crate::proofs::CharStart::last_shown))]
fn end_shown(alloc: Global, text: &str) -> Result<String, AllocError>
    ensures { IfOk result (λ shown. string_bytes shown ≡ end_shown (chars text.now)) }
{
    let left_out = char_count(text).saturating_sub(BEFORE);
    let mut shown = String::from_str(alloc, dots(left_out))?;
    let end = escaped_part(alloc, text, left_out, BEFORE)?;
    shown.push_str(end.as_str())?;
    Ok(shown)
}

/// The first characters of a text, with dots in place of those behind them.
fn start_shown(alloc: Global, text: &str) -> Result<String, AllocError>
    ensures { IfOk result (λ shown. string_bytes shown ≡ start_shown (chars text.now)) }
{
    let mut shown = escaped_part(alloc, text, 0, FROM)?;
    let left_out = char_count(text).saturating_sub(FROM);
    shown.push_str(dots(left_out))?;
    Ok(shown)
}

/// What stands for so many characters that are left out.
fn dots(left_out: usize) -> &'static str
    ensures { result.now ≡ dots left_out }
{
    if 0 < left_out { ".." } else { "" }
}

fn char_count(text: &str) -> usize
    ensures { result ≡ length (chars text.now) }
{
    text.chars().count()
}
