//! UTF-16 as bytes, character by character (RFC 2781).

ghost use Rattle.std.specs.Prelude.{◌≡◌, ◌<◌, ◌≤◌, ◌^◌, ◌∷◌, ◌++◌, ℕ, List, true, IfOk, IfNone, IfSome, OnOk, length};
ghost use Rattle.std.specs.Char.Utf16.{is_high_surrogate, is_low_surrogate, surrogate_pair_char};
ghost use Rattle.sd_lines.specs.Utf16.{char_text, unfinished, unit, utf16_text};

use std::alloc::AllocError;

/// What stands in a decoded text for what is no character. No text in UTF-8 has this byte.
pub(crate) const NO_CHARACTER: u8 = 0xff;

/// The order of the two bytes of a unit of UTF-16.
#[derive(Clone, Copy, Debug, PartialEq, Eq)]
pub enum ByteOrder {
    /// The lower byte is first.
    Little,
    /// The higher byte is first.
    Big,
}

impl ByteOrder {
    fn unit(self, first: u8, second: u8) -> u16
        ensures { result ≡ unit self first second }
    {
        match self {
            ByteOrder::Little => u16::from(first) + 256 * u16::from(second),
            ByteOrder::Big => 256 * u16::from(first) + u16::from(second),
        }
    }

    /// The first unit of the bytes and the bytes after it. `None`: there are fewer than two.
    fn first_unit(self, bytes: &[u8]) -> Option<(u16, &[u8])>
        ensures some { IfSome result (λ first. (a : ℕ) × (b : ℕ)
            × (first.0 ≡ unit self a b) × (bytes.now ≡ a ∷ b ∷ first.1.now)) }
        ensures fits { IfSome result (λ first. first.0 < 2 ^ 16) }
        ensures less { IfSome result (λ first. length first.1.now < length bytes.now) }
        ensures none { IfNone result (length bytes.now < 2) }
    {
        match bytes {
            [first, second, after @ ..] => Some((self.unit(*first, *second), after)),
            _ => None,
        }
    }

    /// The first character of the bytes and the bytes after it; no character at a surrogate without its partner.
    /// `None`: the bytes end before it does.
    fn first_char(self, bytes: &[u8]) -> Option<(Option<char>, &[u8])>
        ensures some { IfSome result (λ first. (more : List ℕ)
            → utf16_text self (bytes.now ++ more) ≡ char_text first.0 ++ utf16_text self (first.1.now ++ more)) }
        ensures less { IfSome result (λ first. length first.1.now < length bytes.now) }
        ensures none { IfNone result (utf16_text self bytes.now ≡ unfinished bytes.now) }
    {
        let (high, after) = self.first_unit(bytes)?;
        if !is_high_surrogate(high) {
            return Some((char::from_u32(u32::from(high)), after));
        }
        let (low, after_pair) = self.first_unit(after)?;
        if is_low_surrogate(low) {
            Some((char::from_u32(pair_code(high, low)), after_pair))
        } else {
            Some((None, after))
        }
    }

    /// Appends the text of the bytes up to where a character is incomplete, and returns the bytes from there on.
    pub(crate) fn decode<'a>(
        self,
        bytes: &'a [u8],
        text: &mut Vec<u8>,
    ) -> Result<&'a [u8], AllocError>
        ensures text { IfOk result (λ left. (added : List ℕ) × (text.new.items ≡ text.old.items ++ added)
            × ((more : List ℕ) → utf16_text self (bytes.now ++ more) ≡ added ++ utf16_text self (left.now ++ more))) }
        ensures left { IfOk result (λ left. utf16_text self left.now ≡ unfinished left.now) }
    {
        let mut rest = bytes;
        'chars: loop {
            let Some((char, after)) = self.first_char(rest) else {
                return Ok(rest);
            };
            push_char(text, char)?;
            rest = after;
        }
    }

    /// Appends the text of the bytes, which are the last.
    pub(crate) fn decode_last(self, bytes: &[u8], text: &mut Vec<u8>) -> Result<(), AllocError>
        ensures { OnOk result (text.new.items ≡ text.old.items ++ utf16_text self bytes.now) }
    {
        let left = self.decode(bytes, text)?;
        text.extend_from_slice(unfinished(left))
    }
}

/// The text of bytes that end before a character does.
fn unfinished(bytes: &[u8]) -> &'static [u8]
    ensures { result.now ≡ unfinished bytes.now }
{
    match bytes.len() {
        0 => &[],
        1 | 2 => &[NO_CHARACTER],
        _ => &[NO_CHARACTER; 2],
    }
}

/// Whether a unit is the first of a pair.
fn is_high_surrogate(unit: u16) -> bool
    ensures { result ≡ is_high_surrogate unit }
{
    (0xd800..0xdc00).contains(&unit)
}

/// Whether a unit is the second of a pair.
fn is_low_surrogate(unit: u16) -> bool
    ensures { result ≡ is_low_surrogate unit }
{
    (0xdc00..0xe000).contains(&unit)
}

/// The code of the character that a pair is.
fn pair_code(high: u16, low: u16) -> u32
    requires high { is_high_surrogate high ≡ true }
    requires low { is_low_surrogate low ≡ true }
    ensures code { result ≡ surrogate_pair_char high low }
    ensures low { 0x10000 ≤ result }
    ensures high { result < 0x110000 }
{
    0x10000 + 0x400 * (u32::from(high) - 0xd800) + (u32::from(low) - 0xdc00)
}

/// Appends a character in UTF-8, or what stands for none.
fn push_char(text: &mut Vec<u8>, char: Option<char>) -> Result<(), AllocError>
    ensures { OnOk result (text.new.items ≡ text.old.items ++ char_text char) }
{
    match char {
        Some(char) => text.extend_from_slice(char.encode_utf8(&mut [0; 4]).as_bytes()),
        None => Ok(text.push(NO_CHARACTER)?),
    }
}
