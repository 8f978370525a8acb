//! Runs of bytes of one class.

ghost use Rattle.std.specs.Prelude.{◌≡◌, ◌≤◌, length, drop, take};
ghost use Rattle.sd_condition_parse.specs.Run.{is_digit, is_in, is_space, is_unquoted, run_len};
ghost use Rattle.sd_condition_parse.specs.declared.run.Class.TheVariants.{Space};
ghost use Rattle.sd_condition_text.specs.Attribute.{is_plain};

use sd_text::Cursor;

/// A class of bytes.
#[derive(Clone, Copy)]
pub(crate) enum Class {
    /// White space ([MS-DTYP] 2.5.1.1, wspace).
    Space,
    /// A digit, a letter, or one of `:./_` ([MS-DTYP] 2.5.1.1, attr-char1).
    Plain,
    /// What may stand between quotes.
    Unquoted,
    /// A hexadecimal digit.
    Digit,
}

impl Class {
    /// Whether the byte is of this class.
    fn has(self, byte: u8) -> bool
        ensures { result ≡ is_in self byte }
    {
        match self {
            Class::Space => is_space(byte),
            Class::Plain => is_plain(byte),
            Class::Unquoted => is_unquoted(byte),
            Class::Digit => is_digit(byte),
        }
    }
}

fn is_space(byte: u8) -> bool
    ensures { result ≡ is_space byte }
{
    matches!(byte, 0x09..=0x0d | 0x20)
}

fn is_plain(byte: u8) -> bool
    ensures { result ≡ is_plain byte }
{
    matches!(byte, b'0'..=b'9' | b'A'..=b'Z' | b'a'..=b'z' | b':' | b'.' | b'/' | b'_')
}

fn is_unquoted(byte: u8) -> bool
    ensures { result ≡ is_unquoted byte }
{
    byte != b'"' && byte != 0
}

/// Whether it is a hexadecimal digit.
pub(crate) fn is_digit(byte: u8) -> bool
    ensures { result ≡ is_digit byte }
{
    char::from(byte).is_digit(16)
}

/// How many bytes of the class the text begins with.
pub(crate) fn run_len(class: Class, text: &[u8]) -> usize
    ensures len { result ≡ run_len class text.now }
    ensures within { result ≤ length text.now }
{
    for (i, byte) in text.iter().enumerate() {
        if !class.has(*byte) {
            return i;
        }
    }
    text.len()
}

/// Consumes the bytes of the class that are here, and returns them.
pub(crate) fn take_run<'a>(cursor: &mut Cursor<'a>, class: Class) -> &'a [u8]
    ensures run { result.now ≡ take (run_len class cursor.old.rest.now) cursor.old.rest.now }
    ensures rest { cursor.new.rest.now ≡ drop (run_len class cursor.old.rest.now) cursor.old.rest.now }
    ensures within { length cursor.new.rest.now ≤ length cursor.old.rest.now }
{
    let (run, rest) = cursor.rest.split_at(run_len(class, cursor.rest));
    cursor.rest = rest;
    run
}

/// Consumes white space.
pub(crate) fn skip_space(cursor: &mut Cursor<'_>)
    ensures rest { cursor.new.rest.now ≡ drop (run_len Space cursor.old.rest.now) cursor.old.rest.now }
    ensures within { length cursor.new.rest.now ≤ length cursor.old.rest.now }
{
    take_run(cursor, Class::Space);
}
