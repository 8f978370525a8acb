//! Values and lists.

ghost use Rattle.std.specs.Prelude.{◌≡◌, ◌≤◌, ◌<◌, [], length, IfOk, OnOk};
ghost use Rattle.sd_condition_parse.specs.Outcome.{Gives, GivesAs, steps};
ghost use Rattle.sd_condition_parse.specs.Value.{item, item_end, item_step, list, literal_sid, octets, quoted};
ghost use Rattle.sd_condition_parse.specs.Value.{unquoted, value};

use crate::error::ConditionError;
use crate::integer::parse_integer;
use crate::run::{Class, run_len, skip_space, take_run};
use hex::FromHexError;
use sd_condition::{Value, ValueList};
use sd_data::{Octets, Utf16, push_utf16};
use sd_sid::Sid;
use sd_text::{Aliases, Cursor, TextFault};
use std::alloc::{AllocError, Global};
use std::str::from_utf8;

/// What may stand in a list.
#[derive(Clone, Copy)]
pub(crate) enum Item {
    /// Any value.
    Any,
    /// Nothing but SIDs.
    OnlySid,
}

/// A value ([MS-DTYP] 2.5.1.1, value).
#[tactic(auto, unfolding(crate::specs::Value::value))]
pub(crate) fn parse_value(
    alloc: Global,
    cursor: &mut Cursor<'_>,
    known: Aliases,
) -> Result<Value, ConditionError>
    ensures value { Gives result cursor.new.rest.now (value known cursor.old.rest.now) }
    ensures within { OnOk result (length cursor.new.rest.now ≤ length cursor.old.rest.now) }
{
    if cursor.begins(b"\"") {
        let text = parse_quoted(alloc, cursor)?;
        return Ok(Value::Text(text));
    }
    if cursor.begins(b"#") {
        let octets = parse_octets(alloc, cursor)?;
        return Ok(Value::Octets(octets));
    }
    if cursor.begins(b"SID(") {
        let sid = parse_sid(cursor, known)?;
        return Ok(Value::Sid(sid));
    }
    let integer = parse_integer(cursor)?;
    Ok(Value::Integer(integer))
}

/// A text between quotes ([MS-DTYP] 2.5.1.1, string-value).
#[tactic(auto, unfolding(crate::specs::Value::quoted))]
fn parse_quoted(alloc: Global, cursor: &mut Cursor<'_>) -> Result<Utf16, ConditionError>
    ensures quoted { Gives result cursor.new.rest.now (quoted cursor.old.rest.now) }
    ensures within { OnOk result (length cursor.new.rest.now ≤ length cursor.old.rest.now) }
{
    cursor.word(b"\"")?;
    let units = parse_unquoted(alloc, cursor)?;
    cursor.word(b"\"")?;
    Ok(units)
}

/// What is between quotes.
#[tactic(auto, using(sd_data::proofs::Utf8::is_utf8_text, sd_data::proofs::Utf8::is_no_utf8_text))]
fn parse_unquoted(alloc: Global, cursor: &mut Cursor<'_>) -> Result<Utf16, ConditionError>
    ensures unquoted { Gives result cursor.new.rest.now (unquoted cursor.old.rest.now) }
    ensures within { OnOk result (length cursor.new.rest.now ≤ length cursor.old.rest.now) }
{
    let start = cursor.rest;
    let bytes = take_run(cursor, Class::Unquoted);
    match from_utf8(bytes) {
        Ok(text) => {
            let mut units = Vec::new(alloc);
            push_utf16(&mut units, text)?;
            Ok(Utf16::new(units))
        }
        Err(_) => {
            cursor.rest = start;
            Err(ConditionError::Fault(TextFault::Syntax))
        }
    }
}

/// Octets in hexadecimal digits ([MS-DTYP] 2.5.1.1, octet-string-value).
#[tactic(auto, unfolding(crate::specs::Value::octets))]
fn parse_octets(alloc: Global, cursor: &mut Cursor<'_>) -> Result<Octets, ConditionError>
    ensures octets { Gives result cursor.new.rest.now (octets cursor.old.rest.now) }
    ensures within { OnOk result (length cursor.new.rest.now ≤ length cursor.old.rest.now) }
{
    cursor.word(b"#")?;
    let digits = take_run(cursor, Class::Digit);
    match hex::decode(alloc, digits) {
        Ok(octets) => Ok(Octets::new(octets)),
        Err(FromHexError::OutOfMemory) => Err(ConditionError::Memory),
        Err(_) => Err(ConditionError::Fault(TextFault::Syntax)),
    }
}

/// A SID ([MS-DTYP] 2.5.1.1, literal-SID).
#[tactic(auto, unfolding(crate::specs::Value::literal_sid))]
pub(crate) fn parse_sid(cursor: &mut Cursor<'_>, known: Aliases) -> Result<Sid, ConditionError>
    ensures sid { Gives result cursor.new.rest.now (literal_sid known cursor.old.rest.now) }
    ensures within { OnOk result (length cursor.new.rest.now ≤ length cursor.old.rest.now) }
{
    cursor.word(b"SID(")?;
    let sid = cursor.sid(known)?;
    cursor.word(b")")?;
    Ok(sid)
}

/// A list of values ([MS-DTYP] 2.5.1.1, value-array and sid-array).
#[tactic(auto, unfolding(crate::specs::Value::list))]
pub(crate) fn parse_list(
    alloc: Global,
    cursor: &mut Cursor<'_>,
    kind: Item,
    known: Aliases,
) -> Result<ValueList, ConditionError>
    ensures list { Gives result cursor.new.rest.now (list kind known cursor.old.rest.now) }
    ensures within { OnOk result (length cursor.new.rest.now ≤ length cursor.old.rest.now) }
{
    cursor.word(b"{")?;
    skip_space(cursor);
    if cursor.eat(b"}") {
        return Ok(ValueList::new(Vec::new(alloc)));
    }
    let values = parse_items(alloc, cursor, kind, known)?;
    Ok(ValueList::new(values))
}

/// The values of a list, and its closing brace.
fn parse_items(
    alloc: Global,
    cursor: &mut Cursor<'_>,
    kind: Item,
    known: Aliases,
) -> Result<Vec<Value>, ConditionError>
    ensures items { GivesAs (λ values. values.items) result cursor.new.rest.now
        (steps (item_step kind known) [] cursor.old.rest.now) }
    ensures within { OnOk result (length cursor.new.rest.now ≤ length cursor.old.rest.now) }
{
    let mut values = Vec::new(alloc);
    'items: while push_item(alloc, cursor, kind, known, &mut values)? {}
    Ok(values)
}

/// Appends a value. Returns whether another one follows.
#[tactic(auto, unfolding(crate::specs::Value::item_step))]
fn push_item(
    alloc: Global,
    cursor: &mut Cursor<'_>,
    kind: Item,
    known: Aliases,
    values: &mut Vec<Value>,
) -> Result<bool, ConditionError>
    ensures item { GivesAs (λ more. (more, values.new.items)) result cursor.new.rest.now
        (item_step kind known values.old.items cursor.old.rest.now) }
    ensures shorter { OnOk result (length cursor.new.rest.now < length cursor.old.rest.now) }
    ensures within { OnOk result (length cursor.new.rest.now ≤ length cursor.old.rest.now) }
{
    let value = parse_item(alloc, cursor, kind, known)?;
    values.push(value)?;
    skip_space(cursor);
    eat_item_end(cursor)
}

/// A value that may stand in the list.
fn parse_item(
    alloc: Global,
    cursor: &mut Cursor<'_>,
    kind: Item,
    known: Aliases,
) -> Result<Value, ConditionError>
    ensures item { Gives result cursor.new.rest.now (item kind known cursor.old.rest.now) }
    ensures within { OnOk result (length cursor.new.rest.now ≤ length cursor.old.rest.now) }
{
    match kind {
        Item::Any => parse_value(alloc, cursor, known),
        Item::OnlySid => {
            let sid = parse_sid(cursor, known)?;
            Ok(Value::Sid(sid))
        }
    }
}

/// Consumes a comma and white space, or the closing brace. Returns whether another value follows.
#[tactic(auto, unfolding(crate::specs::Value::item_end))]
fn eat_item_end(cursor: &mut Cursor<'_>) -> Result<bool, ConditionError>
    ensures end { Gives result cursor.new.rest.now (item_end cursor.old.rest.now) }
    ensures shorter { OnOk result (length cursor.new.rest.now < length cursor.old.rest.now) }
    ensures within { OnOk result (length cursor.new.rest.now ≤ length cursor.old.rest.now) }
{
    if cursor.eat(b",") {
        skip_space(cursor);
        return Ok(true);
    }
    cursor.word(b"}")?;
    Ok(false)
}
