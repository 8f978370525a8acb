//! Values.

ghost use Rattle.std.specs.Prelude.{◌≡◌, ◌+◌, ◌^◌, ◌<◌, ◌≤◌, ◌++◌, length, IfOk, OnOk};
ghost use Rattle.std.specs.Int.{w64, cast_unsigned, to_le_bytes};
ghost use Rattle.sd_data.specs.Outcome.{Gives};
ghost use Rattle.sd_claim.specs.Reading.{value_at, value_read};
ghost use Rattle.sd_data.specs.Reading.{after};
ghost use Rattle.sd_claim.specs.Table.{layout_of, least_len, type_of};
ghost use Rattle.sd_claim.specs.Writing.{is_value, is_value_of, octet_string, value_bytes};

use crate::part::{LENGTH_BYTES, NUMBER_BYTES, read_part_len};
use crate::text::{push_terminated, read_text_part, terminated_len};
use crate::value_type::ValueType;
use sd_data::{
    Octets, Refusal, Utf16, has_no_zero, push_i64, push_u32, push_u64, read_i64, read_octets,
    read_u64,
};
use std::alloc::{AllocError, Global};

/// A value of a claim ([MS-DTYP] 2.4.10.1).
#[derive(Debug, Drop)]
pub enum Value {
    Integer(i64),
    Unsigned(u64),
    Text(Utf16),
    /// The octets of a SID, as they are: its text in ASCII, or its binary form.
    Sid(Octets),
    /// 0 is false, and any other number is true. It is kept as it is.
    Boolean(u64),
    Octets(Octets),
}

impl Value {
    /// The type of the value.
    pub fn value_type(&self) -> ValueType
        ensures { result ≡ type_of self.now }
    {
        match self {
            Value::Integer(_) => ValueType::Integer,
            Value::Unsigned(_) => ValueType::Unsigned,
            Value::Text(_) => ValueType::Text,
            Value::Sid(_) => ValueType::Sid,
            Value::Boolean(_) => ValueType::Boolean,
            Value::Octets(_) => ValueType::Octets,
        }
    }
}

/// Whether a claim of the type can have the value: it is of the type, and a text has no zero in it.
pub(crate) fn is_value_of(value_type: ValueType, value: &Value) -> bool
    ensures { result ≡ is_value_of value_type value.now }
{
    value.value_type().number() == value_type.number() && is_value(value)
}

/// Whether a value has no zero in it, if it is a text.
fn is_value(value: &Value) -> bool
    ensures { result ≡ is_value value.now }
{
    match value {
        Value::Text(text) => has_no_zero(text.units()),
        _ => true,
    }
}

/// The value at an offset, if it takes no more than `room`, and how many bytes it takes.
#[tactic(auto, unfolding(crate::specs::Reading::value_at))]
pub(crate) fn read_value_at(
    alloc: Global,
    value_type: ValueType,
    bytes: &[u8],
    place: usize,
    room: usize,
) -> Result<(Value, usize), Refusal>
    ensures read { Gives result (value_at value_type bytes.now place room) }
    ensures room { IfOk result (λ x. x.1 ≤ room) }
{
    let len = read_part_len(value_type.layout(), bytes, place, room)?;
    let value = read_value(alloc, value_type, &bytes[place..place + len])?;
    Ok((value, len))
}

/// The value of a part.
#[tactic(auto, unfolding(crate::specs::Reading::value_read))]
fn read_value(alloc: Global, value_type: ValueType, part: &[u8]) -> Result<Value, Refusal>
    requires { least_len (layout_of value_type) ≤ length part.now }
    ensures { Gives result (value_read value_type part.now) }
{
    match value_type {
        ValueType::Integer => Ok(Value::Integer(read_i64(part, 0))),
        ValueType::Unsigned => Ok(Value::Unsigned(read_u64(part, 0))),
        ValueType::Boolean => Ok(Value::Boolean(read_u64(part, 0))),
        ValueType::Text => {
            let text = read_text_part(alloc, part)?;
            Ok(Value::Text(text))
        }
        ValueType::Sid => {
            let octets = read_octets(alloc, &part[LENGTH_BYTES..])?;
            Ok(Value::Sid(octets))
        }
        ValueType::Octets => {
            let octets = read_octets(alloc, &part[LENGTH_BYTES..])?;
            Ok(Value::Octets(octets))
        }
    }
}

/// How many bytes a value takes.
#[tactic(auto, unfolding(crate::specs::Writing::value_bytes))]
pub(crate) fn value_len(value: &Value) -> usize
    ensures exact { result ≡ length (value_bytes value.now) }
    ensures most { result < 2 ^ 63 + 4 }
{
    match value {
        Value::Integer(_) | Value::Unsigned(_) | Value::Boolean(_) => NUMBER_BYTES,
        Value::Text(text) => terminated_len(text),
        Value::Sid(octets) | Value::Octets(octets) => LENGTH_BYTES + octets.octets().len(),
    }
}

/// Appends a value.
#[tactic(auto, unfolding(crate::specs::Writing::value_bytes))]
pub(crate) fn push_value(bytes: &mut Vec<u8>, value: &Value) -> Result<(), AllocError>
    requires { length (value_bytes value.now) ≤ 65535 }
    ensures { OnOk result (bytes.new.items ≡ bytes.old.items ++ value_bytes value.now) }
{
    match value {
        Value::Integer(number) => push_i64(bytes, *number),
        Value::Unsigned(number) => push_u64(bytes, *number),
        Value::Boolean(number) => push_u64(bytes, *number),
        Value::Text(text) => push_terminated(bytes, text),
        Value::Sid(octets) => push_octet_string(bytes, octets),
        Value::Octets(octets) => push_octet_string(bytes, octets),
    }
}

/// Appends octets, after their length.
fn push_octet_string(bytes: &mut Vec<u8>, octets: &Octets) -> Result<(), AllocError>
    requires { length (octet_string octets.now) ≤ 65535 }
    ensures { OnOk result (bytes.new.items ≡ bytes.old.items ++ octet_string octets.now) }
{
    let octets = octets.octets();
    push_u32(bytes, octets.len() as u32)?;
    bytes.extend_from_slice(octets)
}
