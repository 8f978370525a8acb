//! The parts of a line.

ghost use Rattle.std.specs.Prelude.{◌≡◌};
ghost use Rattle.std.specs.List.{list_any};
ghost use Rattle.sd_schema.specs.Row.{first_part, is_control, is_keyword, is_name, rest_of, says_nothing};

/// Whether the line is empty or a comment.
pub(crate) fn says_nothing(line: &[u8]) -> bool
    ensures { result ≡ says_nothing line.now }
{
    matches!(line, [] | [b'#', ..])
}

/// What is before the first blank of a text, or all of it, and what is after it.
pub(crate) fn halves(text: &str) -> (&str, &str)
    ensures first { result.0.now ≡ first_part text.now }
    ensures rest { result.1.now ≡ rest_of text.now }
{
    match text.split_once(' ') {
        Some(parts) => parts,
        None => (text, ""),
    }
}

/// Whether a row begins with the word.
pub(crate) fn is_keyword(word: &str) -> bool
    ensures { result ≡ is_keyword word.now }
{
    word == "class" || word == "attribute" || word == "set" || word == "right"
}

/// Whether a text has a character, and no control character.
pub(crate) fn is_name(name: &str) -> bool
    ensures { result ≡ is_name name.now }
{
    !name.is_empty() && !has_control(name)
}

/// Whether a text has a control character.
fn has_control(text: &str) -> bool
    ensures { result ≡ list_any is_control text.now }
{
    text.as_bytes().iter().any(|c| *c < 0x20 || *c == 0x7f)
}
