//! A word of a command line, as a message shows it.
ghost use Rattle.std.specs.Prelude.{◌≡◌, ◌++◌, IfOk, OnOk, drop, string_bytes, take};
ghost use Rattle.std.specs.Str.{chars};
ghost use Rattle.sd_commands.specs.Escaped.{is_hidden, escaped, escaped_char, escaped_chars};

use std::alloc::{AllocError, Global};

/// A word with its control characters and line separators as `\u{1b}`: it can neither write a line of its own into a
/// log nor reach a terminal. The only error is out of memory.
pub fn escaped_word(alloc: Global, word: &str) -> Result<String, AllocError>
    ensures { IfOk result (λ text. string_bytes text ≡ escaped word.now) }
{
    escaped_part(alloc, word, 0, word.len())
}

/// At most `count` characters of a text from the `start`th on, counted from 0, with control characters and line
/// separators as `\u{1b}`. The only error is out of memory.
pub(crate) fn escaped_part(
    alloc: Global,
    text: &str,
    start: usize,
    count: usize,
) -> Result<String, AllocError>
    ensures { IfOk result
        (λ shown. string_bytes shown ≡ escaped_chars (take count (drop start (chars text.now)))) }
{
    let mut shown = String::new(alloc);
    for c in text.chars().skip(start).take(count) {
        push_escaped(&mut shown, c)?;
    }
    Ok(shown)
}

fn push_escaped(shown: &mut String, c: char) -> Result<(), AllocError>
    ensures { OnOk result (string_bytes shown.new ≡ string_bytes shown.old ++ escaped_char c) }
{
    if is_hidden(c) {
        let code = u32::from(c);
        write!(shown, "\\u{{{code:x}}}")
    } else {
        shown.push(c)
    }
}

/// Whether a character is a control character (C0, DEL or C1), or separates lines or paragraphs.
fn is_hidden(c: char) -> bool
    ensures { result ≡ is_hidden c }
{
    let code = u32::from(c);
    code < 32 || (127 <= code && code <= 159) || code == 0x2028 || code == 0x2029
}
