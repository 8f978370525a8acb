//! The names of attributes.

ghost use Rattle.std.specs.Prelude.{◌≡◌, ◌^◌, ◌≤◌, ◌<◌, true, not, ◌==◌, length, IfOk, IsTrue, OnOk};
ghost use Rattle.std.specs.Char.{digit_value};
ghost use Rattle.std.specs.List.{list_all};
ghost use Rattle.sd_condition_parse.specs.Attribute.{attribute, escape, escaped_unit, is_escape, local_attribute};
ghost use Rattle.sd_condition_parse.specs.Attribute.{prefixed_attribute, prefixed_name, scope, unit_step, units};
ghost use Rattle.sd_condition_parse.specs.Outcome.{Gives, GivesAs};
ghost use Rattle.sd_condition_text.specs.Attribute.{is_literal, is_text};

use crate::error::ConditionError;
use crate::run::{Class, is_digit, run_len, take_run};
use sd_condition::{Attribute, Scope};
use sd_condition_text::{is_literal, is_text};
use sd_data::Utf16;
use sd_text::{Cursor, TextFault};
use std::alloc::{AllocError, Global};

/// How many bytes an escape has.
const ESCAPE_BYTES: usize = 5;

/// An attribute ([MS-DTYP] 2.5.1.1, attr-name).
#[tactic(auto, unfolding(crate::specs::Attribute::attribute))]
pub(crate) fn parse_attribute(
    alloc: Global,
    cursor: &mut Cursor<'_>,
) -> Result<Attribute, ConditionError>
    ensures attribute { Gives result cursor.new.rest.now (attribute cursor.old.rest.now) }
    ensures shorter { OnOk result (length cursor.new.rest.now < length cursor.old.rest.now) }
{
    if cursor.begins(b"@") {
        parse_prefixed(alloc, cursor)
    } else {
        parse_local(alloc, cursor)
    }
}

/// An attribute without a prefix.
#[tactic(auto, unfolding(crate::specs::Attribute::local_attribute))]
fn parse_local(alloc: Global, cursor: &mut Cursor<'_>) -> Result<Attribute, ConditionError>
    ensures attribute { Gives result cursor.new.rest.now (local_attribute cursor.old.rest.now) }
    ensures shorter { OnOk result (length cursor.new.rest.now < length cursor.old.rest.now) }
{
    if run_len(Class::Plain, cursor.rest) == 0 {
        return Err(ConditionError::Fault(TextFault::Syntax));
    }
    let name = take_run(cursor, Class::Plain);
    let units = units_of(alloc, name)?;
    Ok(Attribute {
        scope: Scope::Local,
        name: Utf16::new(units),
    })
}

/// The units of characters of ASCII.
fn units_of(alloc: Global, name: &[u8]) -> Result<Vec<u16>, AllocError>
    ensures { IfOk result (λ units. units.items ≡ name.now) }
{
    let mut units = Vec::new(alloc);
    for byte in name {
        units.push(u16::from(*byte))?;
    }
    Ok(units)
}

/// An attribute with a prefix.
#[tactic(auto, unfolding(crate::specs::Attribute::prefixed_attribute))]
pub(crate) fn parse_prefixed(
    alloc: Global,
    cursor: &mut Cursor<'_>,
) -> Result<Attribute, ConditionError>
    ensures attribute { Gives result cursor.new.rest.now (prefixed_attribute cursor.old.rest.now) }
    ensures shorter { OnOk result (length cursor.new.rest.now < length cursor.old.rest.now) }
{
    let scope = parse_scope(cursor)?;
    let name = parse_name(alloc, cursor)?;
    Ok(Attribute { scope, name })
}

/// A prefix.
fn parse_scope(cursor: &mut Cursor<'_>) -> Result<Scope, ConditionError>
    ensures scope { Gives result cursor.new.rest.now (scope cursor.old.rest.now) }
    ensures shorter { OnOk result (length cursor.new.rest.now < length cursor.old.rest.now) }
{
    if cursor.eat(b"@USER.") {
        Ok(Scope::User)
    } else if cursor.eat(b"@RESOURCE.") {
        Ok(Scope::Resource)
    } else if cursor.eat(b"@DEVICE.") {
        Ok(Scope::Device)
    } else {
        Err(ConditionError::Fault(TextFault::Syntax))
    }
}

/// A name after a prefix.
fn parse_name(alloc: Global, cursor: &mut Cursor<'_>) -> Result<Utf16, ConditionError>
    ensures name { Gives result cursor.new.rest.now (prefixed_name cursor.old.rest.now) }
    ensures within { OnOk result (length cursor.new.rest.now ≤ length cursor.old.rest.now) }
{
    let start = cursor.rest;
    let units = parse_units(alloc, cursor)?;
    if units.is_empty() || !is_text(alloc, &units)? {
        cursor.rest = start;
        return Err(ConditionError::Fault(TextFault::Syntax));
    }
    Ok(Utf16::new(units))
}

/// The units of a name.
fn parse_units(alloc: Global, cursor: &mut Cursor<'_>) -> Result<Vec<u16>, ConditionError>
    ensures units { GivesAs (λ units. units.items) result cursor.new.rest.now (units cursor.old.rest.now) }
    ensures within { OnOk result (length cursor.new.rest.now ≤ length cursor.old.rest.now) }
{
    let mut units = Vec::new(alloc);
    'units: while push_unit(cursor, &mut units)? {}
    Ok(units)
}

/// Appends the unit that is here. Returns false if there is none.
fn push_unit(cursor: &mut Cursor<'_>, units: &mut Vec<u16>) -> Result<bool, ConditionError>
    ensures unit { GivesAs (λ more. (more, units.new.items)) result cursor.new.rest.now
        (unit_step units.old.items cursor.old.rest.now) }
    ensures shorter { IfOk result (λ more. more ≡ true → length cursor.new.rest.now < length cursor.old.rest.now) }
    ensures within { OnOk result (length cursor.new.rest.now ≤ length cursor.old.rest.now) }
{
    match cursor.rest {
        [byte, rest @ ..] if is_literal(u16::from(*byte)) => {
            units.push(u16::from(*byte))?;
            cursor.rest = rest;
            Ok(true)
        }
        [b'%', ..] => {
            let unit = parse_escape(cursor)?;
            units.push(unit)?;
            Ok(true)
        }
        _ => Ok(false),
    }
}

/// An escape: a percent sign and four hexadecimal digits ([MS-DTYP] 2.5.1.1, lit-char). There is none of zero.
fn parse_escape(cursor: &mut Cursor<'_>) -> Result<u16, ConditionError>
    ensures escape { Gives result cursor.new.rest.now (escape cursor.old.rest.now) }
    ensures shorter { OnOk result (length cursor.new.rest.now < length cursor.old.rest.now) }
    ensures within { OnOk result (length cursor.new.rest.now ≤ length cursor.old.rest.now) }
{
    if !is_escape(cursor.rest) {
        return Err(ConditionError::Fault(TextFault::Syntax));
    }
    let unit = escaped_unit(cursor.rest) as u16;
    let (_, rest) = cursor.rest.split_at(ESCAPE_BYTES);
    cursor.rest = rest;
    Ok(unit)
}

/// Whether an escape is at the front of the text, of whose first byte nothing is asked.
fn is_escape(text: &[u8]) -> bool
    ensures value { result ≡ is_escape text.now }
    ensures long { IsTrue result → 5 ≤ length text.now }
    ensures small { IsTrue result → escaped_unit text.now < 2 ^ 16 }
{
    text.len() >= ESCAPE_BYTES
        && is_digit(text[1])
        && is_digit(text[2])
        && is_digit(text[3])
        && is_digit(text[4])
        && escaped_unit(text) != 0
}

/// The number of an escape's digits.
fn escaped_unit(text: &[u8]) -> u32
    requires { 5 ≤ length text.now }
    ensures { result ≡ escaped_unit text.now }
{
    digit_value(text[1]) * 4096
        + digit_value(text[2]) * 256
        + digit_value(text[3]) * 16
        + digit_value(text[4])
}

/// The value of a digit, or 36 if it is none in any base.
fn digit_value(byte: u8) -> u32
    ensures value { result ≡ digit_value byte }
    ensures most { result ≤ 36 }
{
    char::from(byte).to_digit(36).unwrap_or(36)
}
