//! The rest of a text. A parser consumes what it parses; at a fault it leaves the cursor at the fault's byte.

ghost use Rattle.std.specs.Prelude.{◌≡◌, ◌+◌, ◌≤◌, ◌^◌, ◌<◌, ℕ, length, take, drop, IsTrue, if◌then◌else◌};
ghost use Rattle.std.specs.Char.{eq_ignore_ascii_case};
ghost use Rattle.std.specs.Str.Parse.{digits_value};
ghost use Rattle.sd_text.specs.Grammar.{begins, begins_digit, word, number, end};
ghost use Rattle.sd_text.specs.Sid.{begins_letter};
ghost use Rattle.sd_text.specs.Finding.{Gives, find, digits_len, IsCapped};

use crate::fault::TextFault;

/// The part of a text that isn't parsed yet, for grammars of other crates too.
#[derive(Drop)]
pub struct Cursor<'a> {
    pub rest: &'a [u8],
}

impl<'a> Cursor<'a> {
    /// The whole text.
    pub fn new(text: &'a str) -> Cursor<'a>
        ensures { result.rest.now ≡ text.now }
    {
        Cursor {
            rest: text.as_bytes(),
        }
    }

    /// The cursor's offset in the text.
    pub fn place(&self, text: &str) -> u64
        ensures { length self.now.rest.now ≤ length text.now → result + length self.now.rest.now ≡ length text.now }
    {
        text.len().saturating_sub(self.rest.len()) as u64
    }

    /// Whether the rest begins with these letters, at least one, of either case.
    pub fn begins(&self, letters: &[u8]) -> bool
        ensures value { result ≡ begins self.now.rest.now letters.now }
        ensures within { IsTrue result → length letters.now ≤ length self.now.rest.now }
    {
        begins(self.rest, letters)
    }

    /// Whether the rest begins with a digit.
    pub fn begins_digit(&self, radix: u32) -> bool
        requires low { 2 ≤ radix }
        requires high { radix ≤ 16 }
        ensures { result ≡ begins_digit radix self.now.rest.now }
    {
        match self.rest {
            [] => false,
            [c, ..] => char::from(*c).to_digit(radix).is_some(),
        }
    }

    /// Whether there is a letter so many bytes ahead.
    pub fn letter_at(&self, ahead: usize) -> bool
        ensures { result ≡ begins_letter (drop ahead self.now.rest.now) }
    {
        match self.rest.get(ahead) {
            Some(c) => c.is_ascii_alphabetic(),
            None => false,
        }
    }

    /// Consumes these letters, of either case. Returns false, and consumes nothing, if they aren't here.
    pub fn eat(&mut self, letters: &[u8]) -> bool
        ensures stood { result ≡ begins self.old.rest.now letters.now }
        ensures rest { self.new.rest.now
            ≡ (if result then drop (length letters.now) self.old.rest.now else self.old.rest.now) }
    {
        if !begins(self.rest, letters) {
            return false;
        }
        let (_, behind) = self.rest.split_at(letters.len());
        self.rest = behind;
        true
    }

    /// These letters, of either case.
    pub fn word(&mut self, letters: &[u8]) -> Result<(), TextFault>
        ensures { Gives (λ _. tt) result self.new.rest.now (find (word letters.now) self.old.rest.now) }
    {
        if self.eat(letters) {
            Ok(())
        } else {
            Err(TextFault::Syntax)
        }
    }

    /// The end of the text.
    pub fn end(&self) -> Result<(), TextFault>
        ensures { Gives (λ _. tt) result self.now.rest.now (find end self.now.rest.now) }
    {
        if self.rest.is_empty() {
            Ok(())
        } else {
            Err(TextFault::Syntax)
        }
    }

    /// A head of so many bytes and all digits after it: a number below the limit.
    #[inline(always)]
    pub fn number(&mut self, head: usize, radix: u32, limit: u64) -> Result<u64, TextFault>
        requires within { head ≤ length self.old.rest.now }
        requires low { 2 ≤ radix }
        requires high { radix ≤ 16 }
        requires room { limit ≤ 2 ^ 48 }
        ensures { Gives (λ n. n) result self.new.rest.now (find (number head radix limit) self.old.rest.now) }
    {
        let (_, digits) = self.rest.split_at(head);
        let (value, len) = run_of(digits, radix, limit);
        if len == 0 {
            self.rest = digits;
            return Err(TextFault::Syntax);
        }
        if value >= limit {
            return Err(TextFault::Range);
        }
        let (_, behind) = digits.split_at(len);
        self.rest = behind;
        Ok(value)
    }
}

/// Whether a text begins with these letters, at least one, of either case. Only for speed a function of slices: a loop
/// over the cursor's field was slower.
#[tactic(auto, using(crate::proofs::Letters::begins_nothing, crate::proofs::Letters::begins_short))]
fn begins(text: &[u8], letters: &[u8]) -> bool
    ensures value { result ≡ begins text.now letters.now }
    ensures within { IsTrue result → length letters.now ≤ length text.now }
{
    if letters.is_empty() || text.len() < letters.len() {
        return false;
    }
    for (i, letter) in letters.iter().enumerate() {
        if !is_letter(text[i], *letter) {
            return false;
        }
    }
    true
}

/// Whether a byte is this letter, of either case. Only for speed: equal bytes are found first, and case is ignored only
/// for a letter that has one.
#[inline(always)]
fn is_letter(byte: u8, letter: u8) -> bool
    ensures { result ≡ eq_ignore_ascii_case byte letter }
{
    byte == letter || (letter.is_ascii_alphabetic() && byte.eq_ignore_ascii_case(&letter))
}

/// The value of the digits at the front, or any number at or above the limit if the value is; and how many there are.
#[inline(always)]
fn run_of(text: &[u8], radix: u32, limit: u64) -> (u64, usize)
    requires low { 2 ≤ radix }
    requires high { radix ≤ 16 }
    requires room { limit ≤ 2 ^ 48 }
    ensures len { result.1 ≡ digits_len radix text.now }
    ensures within { result.1 ≤ length text.now }
    ensures value { IsCapped limit result.0 (digits_value radix (take result.1 text.now)) }
{
    if text.len() >= NUMBER_FRONT {
        let (front, _) = text.split_at(NUMBER_FRONT);
        let (value, len) = short_run_of(front, radix);
        if len < NUMBER_FRONT {
            return (value, len);
        }
        return long_run_of(text, radix, limit);
    }
    short_run_of(text, radix)
}

/// The digits of a decimal number of 32 bits and the byte after them. Only for speed such a front is parsed by itself:
/// its length is known at compile time, so no digit needs a test for the text's end.
const NUMBER_FRONT: usize = 11;

/// The value of the digits at the front of at most 15 bytes, which fits 64 bits in any radix up to 16, and how many
/// there are. Only for speed: no digit needs a test of the limit.
#[inline(always)]
fn short_run_of(text: &[u8], radix: u32) -> (u64, usize)
    requires low { 2 ≤ radix }
    requires high { radix ≤ 16 }
    requires short { length text.now ≤ 15 }
    ensures len { result.1 ≡ digits_len radix text.now }
    ensures within { result.1 ≤ length text.now }
    ensures value { result.0 ≡ digits_value radix (take result.1 text.now) }
{
    let mut value: u64 = 0;
    for (i, c) in text.iter().enumerate() {
        let Some(digit) = char::from(*c).to_digit(radix) else {
            return (value, i);
        };
        value = value * u64::from(radix) + u64::from(digit);
    }
    (value, text.len())
}

/// The value of the digits at the front, or any number at or above the limit if the value is; and how many there are.
/// Digits after the limit is reached don't count.
#[cold]
fn long_run_of(text: &[u8], radix: u32, limit: u64) -> (u64, usize)
    requires low { 2 ≤ radix }
    requires high { radix ≤ 16 }
    requires room { limit ≤ 2 ^ 48 }
    ensures len { result.1 ≡ digits_len radix text.now }
    ensures within { result.1 ≤ length text.now }
    ensures value { IsCapped limit result.0 (digits_value radix (take result.1 text.now)) }
{
    let mut value: u64 = 0;
    for (i, c) in text.iter().enumerate() {
        let Some(digit) = char::from(*c).to_digit(radix) else {
            return (value, i);
        };
        if value < limit {
            value = value * u64::from(radix) + u64::from(digit);
        }
    }
    (value, text.len())
}
