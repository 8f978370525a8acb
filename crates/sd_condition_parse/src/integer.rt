//! Integers.

ghost use Rattle.std.specs.Prelude.{◌≡◌, ℕ, ◌+◌, ◌*◌, ◌^◌, ◌≤◌, ◌<◌, length, take, Ok, IfOk, OnOk};
ghost use Rattle.std.specs.Str.Parse.{digits_value};
ghost use Rattle.sd_condition_parse.specs.Integer.{base, head_len, integer, integer_in, limit, radix, sign, signed};
ghost use Rattle.sd_condition_parse.specs.Outcome.{Gives};
ghost use Rattle.sd_text.specs.Finding.{IsCapped, digits_len, find};
ghost use Rattle.sd_text.specs.Grammar.{number};

use crate::error::ConditionError;
use sd_condition::{Base, Integer, Sign, Width};
use sd_text::{Cursor, TextFault};

/// An integer ([MS-DTYP] 2.5.1.1, integer-value).
#[tactic(auto, unfolding(crate::specs::Integer::integer))]
pub(crate) fn parse_integer(cursor: &mut Cursor<'_>) -> Result<Integer, ConditionError>
    ensures integer { Gives result cursor.new.rest.now (integer cursor.old.rest.now) }
    ensures within { OnOk result (length cursor.new.rest.now ≤ length cursor.old.rest.now) }
{
    let sign = eat_sign(cursor);
    let base = base_of(cursor);
    let number = parse_number(cursor, head_len(base), radix(base), limit(sign))?;
    Ok(Integer {
        width: Width::Int64,
        value: signed(sign, number),
        sign,
        base,
    })
}

/// Consumes a sign, if there is one.
fn eat_sign(cursor: &mut Cursor<'_>) -> Sign
    ensures sign { sign cursor.old.rest.now ≡ Ok (result, cursor.new.rest.now) }
    ensures within { length cursor.new.rest.now ≤ length cursor.old.rest.now }
{
    if cursor.eat(b"+") {
        Sign::Plus
    } else if cursor.eat(b"-") {
        Sign::Minus
    } else {
        Sign::Omitted
    }
}

/// The base of the number that is here.
fn base_of(cursor: &Cursor<'_>) -> Base
    ensures base { result ≡ base cursor.now.rest.now }
    ensures within { head_len result ≤ length cursor.now.rest.now }
{
    if cursor.begins(b"0X") {
        return Base::Hexadecimal;
    }
    match cursor.rest {
        [b'0', digit, ..] if digit.is_ascii_digit() => Base::Octal,
        _ => Base::Decimal,
    }
}

/// How many bytes precede the digits.
fn head_len(base: Base) -> usize
    ensures { result ≡ head_len base }
{
    match base {
        Base::Octal => 1,
        Base::Decimal => 0,
        Base::Hexadecimal => 2,
    }
}

fn radix(base: Base) -> u32
    ensures value { result ≡ radix base }
    ensures low { 2 ≤ result }
    ensures high { result ≤ 16 }
{
    match base {
        Base::Octal => 8,
        Base::Decimal => 10,
        Base::Hexadecimal => 16,
    }
}

/// A number with this sign is below this: the value has 64 bits.
fn limit(sign: Sign) -> u64
    ensures value { result ≡ limit sign }
    ensures room { result ≤ 2 ^ 63 + 1 }
{
    match sign {
        Sign::Plus => 0x8000_0000_0000_0000,
        Sign::Minus => 0x8000_0000_0000_0001,
        Sign::Omitted => 0x8000_0000_0000_0000,
    }
}

/// The value of a number with this sign.
fn signed(sign: Sign, number: u64) -> i64
    requires { number < limit sign }
    ensures { result ≡ signed sign number }
{
    match sign {
        Sign::Minus => (-i128::from(number)) as i64,
        _ => number as i64,
    }
}

/// A head of so many bytes and all digits after it: a number below the limit.
fn parse_number(
    cursor: &mut Cursor<'_>,
    head: usize,
    radix: u32,
    limit: u64,
) -> Result<u64, ConditionError>
    requires within { head ≤ length cursor.old.rest.now }
    requires low { 2 ≤ radix }
    requires high { radix ≤ 16 }
    ensures number { Gives result cursor.new.rest.now (find (number head radix limit) cursor.old.rest.now) }
    ensures below { IfOk result (λ n. n < limit) }
    ensures within { OnOk result (length cursor.new.rest.now ≤ length cursor.old.rest.now) }
{
    let (_, digits) = cursor.rest.split_at(head);
    let (value, len) = digits_of(digits, radix, limit);
    if len == 0 {
        cursor.rest = digits;
        return Err(ConditionError::Fault(TextFault::Syntax));
    }
    if value >= limit {
        return Err(ConditionError::Fault(TextFault::Range));
    }
    let (_, rest) = digits.split_at(len);
    cursor.rest = rest;
    Ok(value)
}

/// The value of the digits at the front, or any number at or above the limit if the value is; and how many there are.
fn digits_of(text: &[u8], radix: u32, limit: u64) -> (u64, usize)
    requires low { 2 ≤ radix }
    requires high { radix ≤ 16 }
    ensures len { result.1 ≡ digits_len radix text.now }
    ensures within { result.1 ≤ length text.now }
    ensures value { IsCapped limit result.0 (digits_value radix (take result.1 text.now)) }
{
    let mut value: u64 = 0;
    for (i, c) in text.iter().enumerate() {
        let Some(digit) = char::from(*c).to_digit(radix) else {
            return (value, i);
        };
        value = next_value(value, radix, digit, limit);
    }
    (value, text.len())
}

/// The value with one more digit, or any number at or above the limit if that is. The value is n, or at or above the
/// limit if n is.
fn next_value(value: u64, radix: u32, digit: u32, limit: u64) -> u64
    requires { 1 ≤ radix }
    ensures { (n : ℕ) → IsCapped limit value n → IsCapped limit result (n * radix + digit) }
{
    if value < limit {
        value
            .saturating_mul(u64::from(radix))
            .saturating_add(u64::from(digit))
    } else {
        value
    }
}
