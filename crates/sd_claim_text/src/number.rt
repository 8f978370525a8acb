//! Numbers of a claim's text.

ghost use Rattle.std.specs.Prelude.{◌≡◌, ◌≤◌, IfOk, IfSome, length, take};
ghost use Rattle.std.specs.Str.Parse.{digits_value};
ghost use Rattle.sd_text.specs.Finding.{Gives, digits_len};
ghost use Rattle.sd_claim_text.specs.Number.{after_sign, digits_found, in_64_bits, integer_found, integer_value};
ghost use Rattle.sd_claim_text.specs.Number.{is_negative, magnitude_found, unsigned_found, unsigned_value, with_digit};

use sd_text::{Cursor, TextFault};

/// A number from 0 to the most, which may have a sign ([MS-DTYP] 2.5.1.1, uint-64).
#[tactic(auto, unfolding(crate::specs::Number::unsigned_found))]
pub(crate) fn parse_unsigned(cursor: &mut Cursor<'_>, most: u64) -> Result<u64, TextFault>
    ensures found { Gives (λ n. n) result cursor.new.rest.now (unsigned_found most cursor.old.rest.now) }
    ensures most { IfOk result (λ n. n ≤ most) }
    ensures within { length cursor.new.rest.now ≤ length cursor.old.rest.now }
{
    let front = cursor.rest;
    let is_negative = eat_sign(cursor);
    let magnitude = parse_magnitude(cursor)?;
    match unsigned_value(most, is_negative, magnitude) {
        Some(number) => Ok(number),
        None => {
            cursor.rest = front;
            Err(TextFault::Range)
        }
    }
}

/// A number of 64 bits in two's complement ([MS-DTYP] 2.5.1.1, int-64).
#[tactic(auto, unfolding(crate::specs::Number::integer_found))]
pub(crate) fn parse_integer(cursor: &mut Cursor<'_>) -> Result<i64, TextFault>
    ensures found { Gives (λ n. n) result cursor.new.rest.now (integer_found cursor.old.rest.now) }
    ensures within { length cursor.new.rest.now ≤ length cursor.old.rest.now }
{
    let front = cursor.rest;
    let is_negative = eat_sign(cursor);
    let magnitude = parse_magnitude(cursor)?;
    match integer_value(is_negative, magnitude) {
        Some(number) => Ok(number),
        None => {
            cursor.rest = front;
            Err(TextFault::Range)
        }
    }
}

/// Consumes the sign, if there is one. Returns whether it is a minus sign.
fn eat_sign(cursor: &mut Cursor<'_>) -> bool
    ensures value { result ≡ is_negative cursor.old.rest.now }
    ensures rest { cursor.new.rest.now ≡ after_sign cursor.old.rest.now }
    ensures within { length cursor.new.rest.now ≤ length cursor.old.rest.now }
{
    if cursor.eat(b"-") {
        return true;
    }
    cursor.eat(b"+");
    false
}

/// The number of a sign and a magnitude, if it is from 0 to the most.
fn unsigned_value(most: u64, is_negative: bool, magnitude: Option<u64>) -> Option<u64>
    ensures value { result ≡ unsigned_value most is_negative magnitude }
    ensures most { IfSome result (λ n. n ≤ most) }
{
    let number = magnitude?;
    if number <= most && (!is_negative || number == 0) {
        Some(number)
    } else {
        None
    }
}

/// The number of a sign and a magnitude, if it has 64 bits in two's complement.
fn integer_value(is_negative: bool, magnitude: Option<u64>) -> Option<i64>
    ensures { result ≡ integer_value is_negative magnitude }
{
    let number = magnitude?;
    if is_negative {
        0i64.checked_sub_unsigned(number)
    } else {
        i64::try_from(number).ok()
    }
}

/// A number without a sign: hexadecimal after `0x`, octal after `0`, else decimal. `None`: it has more than 64 bits.
#[tactic(auto, unfolding(crate::specs::Number::magnitude_found))]
fn parse_magnitude(cursor: &mut Cursor<'_>) -> Result<Option<u64>, TextFault>
    ensures found { Gives (λ n. n) result cursor.new.rest.now (magnitude_found cursor.old.rest.now) }
    ensures within { length cursor.new.rest.now ≤ length cursor.old.rest.now }
{
    if cursor.eat(b"0X") {
        parse_digits(cursor, 16)
    } else if cursor.begins(b"0") {
        parse_digits(cursor, 8)
    } else {
        parse_digits(cursor, 10)
    }
}

/// All digits here, at least one. `None`: their value has more than 64 bits.
fn parse_digits(cursor: &mut Cursor<'_>, radix: u32) -> Result<Option<u64>, TextFault>
    requires low { 2 ≤ radix }
    requires high { radix ≤ 16 }
    ensures found { Gives (λ n. n) result cursor.new.rest.now (digits_found radix cursor.old.rest.now) }
    ensures within { length cursor.new.rest.now ≤ length cursor.old.rest.now }
{
    if !cursor.begins_digit(radix) {
        return Err(TextFault::Syntax);
    }
    let (value, len) = digits_of(cursor.rest, radix);
    let (_, rest) = cursor.rest.split_at(len);
    cursor.rest = rest;
    Ok(value)
}

/// The value of the digits at the front, if it has 64 bits, and how many there are.
pub(crate) fn digits_of(text: &[u8], radix: u32) -> (Option<u64>, usize)
    requires low { 2 ≤ radix }
    requires high { radix ≤ 16 }
    ensures value { result.0 ≡ in_64_bits (digits_value radix (take (digits_len radix text.now) text.now)) }
    ensures len { result.1 ≡ digits_len radix text.now }
    ensures within { result.1 ≤ length text.now }
{
    let mut value = Some(0);
    for (i, c) in text.iter().enumerate() {
        let Some(digit) = char::from(*c).to_digit(radix) else {
            return (value, i);
        };
        value = with_digit(value, radix, digit);
    }
    (value, text.len())
}

/// The value with one more digit, if it has 64 bits.
fn with_digit(value: Option<u64>, radix: u32, digit: u32) -> Option<u64>
    ensures { result ≡ with_digit value radix digit }
{
    value?
        .checked_mul(u64::from(radix))?
        .checked_add(u64::from(digit))
}
