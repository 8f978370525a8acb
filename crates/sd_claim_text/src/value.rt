//! The values of a claim, as text.

ghost use Rattle.std.specs.Prelude.{◌≡◌, ◌≤◌, ◌<◌, Some, None, IfOk, OnOk, length, string_bytes, if◌then◌else◌};
ghost use Rattle.std.specs.Fmt.{◌++?◌};
ghost use Rattle.sd_claim_text.specs.Outcome.{GivesOrMemory};
ghost use Rattle.sd_claim_text.specs.Text.{values_text};
ghost use Rattle.sd_claim_text.specs.Value.{further_found, value_found, value_text, values_found};

use crate::error::ClaimError;
use crate::number::{parse_integer, parse_unsigned};
use crate::octets::{parse_octets, write_octets};
use crate::quoted::parse_quoted;
use crate::sid::{parse_full_sid, write_sid_of};
use crate::space::skip_space;
use sd_claim::{Value, ValueType};
use sd_condition_text::print_quoted;
use sd_text::{Aliases, Cursor};
use std::alloc::{AllocError, Global};

/// Appends values, each after a comma. Returns false if no text is parsed as one of them.
pub(crate) fn write_values(
    alloc: Global,
    out: &mut String,
    values: &[Value],
) -> Result<bool, AllocError>
    ensures { IfOk result (λ written. (if written then Some (string_bytes out.new) else None)
        ≡ Some (string_bytes out.old) ++? values_text values.now) }
{
    for value in values {
        out.push_str(",")?;
        if !write_value(alloc, out, value)? {
            return Ok(false);
        }
    }
    Ok(true)
}

/// Appends a value. Returns false if no text is parsed as it.
#[tactic(auto, unfolding(crate::specs::Value::value_text))]
fn write_value(alloc: Global, out: &mut String, value: &Value) -> Result<bool, AllocError>
    ensures { IfOk result (λ written. (if written then Some (string_bytes out.new) else None)
        ≡ Some (string_bytes out.old) ++? value_text value.now) }
{
    match value {
        Value::Integer(number) => {
            write!(out, "{number}")?;
            Ok(true)
        }
        Value::Unsigned(number) => {
            write!(out, "{number}")?;
            Ok(true)
        }
        Value::Text(text) => {
            let Some(quoted) = print_quoted(alloc, text.units())? else {
                return Ok(false);
            };
            out.push_str(quoted.as_str())?;
            Ok(true)
        }
        Value::Sid(octets) => write_sid_of(alloc, out, octets.octets()),
        Value::Boolean(number) => {
            if *number > 1 {
                return Ok(false);
            }
            write!(out, "{number}")?;
            Ok(true)
        }
        Value::Octets(octets) => {
            write_octets(alloc, out, octets.octets())?;
            Ok(true)
        }
    }
}

/// Values of a type, as many as there are, each after a comma.
#[tactic(auto, unfolding(crate::specs::Value::values_found))]
pub(crate) fn parse_values(
    alloc: Global,
    cursor: &mut Cursor<'_>,
    value_type: ValueType,
    known: Aliases,
) -> Result<Vec<Value>, ClaimError>
    ensures found { GivesOrMemory (λ values. values.items) result cursor.new.rest.now
        (values_found value_type known cursor.old.rest.now) }
    ensures within { length cursor.new.rest.now ≤ length cursor.old.rest.now }
{
    let mut values = Vec::new(alloc);
    'values: while cursor.begins(b",") {
        parse_further(alloc, cursor, value_type, known, &mut values)?;
    }
    Ok(values)
}

/// Appends the value after a comma, with white space before and after it.
#[tactic(auto, unfolding(crate::specs::Value::further_found))]
fn parse_further(
    alloc: Global,
    cursor: &mut Cursor<'_>,
    value_type: ValueType,
    known: Aliases,
    values: &mut Vec<Value>,
) -> Result<(), ClaimError>
    ensures found { GivesOrMemory (λ _. values.new.items) result cursor.new.rest.now
        (further_found value_type known values.old.items cursor.old.rest.now) }
    ensures within { length cursor.new.rest.now ≤ length cursor.old.rest.now }
    ensures less { OnOk result (length cursor.new.rest.now < length cursor.old.rest.now) }
{
    cursor.word(b",")?;
    skip_space(cursor);
    let value = parse_value(alloc, cursor, value_type, known)?;
    skip_space(cursor);
    values.push(value)?;
    Ok(())
}

/// A value of a type.
#[tactic(auto, unfolding(crate::specs::Value::value_found))]
fn parse_value(
    alloc: Global,
    cursor: &mut Cursor<'_>,
    value_type: ValueType,
    known: Aliases,
) -> Result<Value, ClaimError>
    ensures found { GivesOrMemory (λ value. value) result cursor.new.rest.now
        (value_found value_type known cursor.old.rest.now) }
    ensures within { length cursor.new.rest.now ≤ length cursor.old.rest.now }
{
    match value_type {
        ValueType::Integer => Ok(Value::Integer(parse_integer(cursor)?)),
        ValueType::Unsigned => Ok(Value::Unsigned(parse_unsigned(cursor, u64::MAX)?)),
        ValueType::Text => Ok(Value::Text(parse_quoted(alloc, cursor)?)),
        ValueType::Sid => Ok(Value::Sid(parse_full_sid(alloc, cursor, known)?)),
        ValueType::Boolean => Ok(Value::Boolean(parse_unsigned(cursor, 1)?)),
        ValueType::Octets => Ok(Value::Octets(parse_octets(alloc, cursor)?)),
    }
}
