//! Values, one after the other.

ghost use Rattle.std.specs.Prelude.{◌≡◌, ◌+◌, ◌^◌, ◌<◌, ◌≤◌, ◌++◌, length, Some, IfErr, IfOk, OnOk, SomeIff};
ghost use Rattle.std.specs.Int.{w32, to_le_bytes};
ghost use Rattle.std.specs.List.{flat_map, list_all};
ghost use Rattle.sd_sid.specs.SidBytes.{u32s_at};
ghost use Rattle.sd_data.specs.Outcome.{Fails};
ghost use Rattle.sd_claim.specs.Reading.{values_read};
ghost use Rattle.sd_claim.specs.Writing.{header_len, is_value_of, offsets_from, value_bytes};

use crate::value::{Value, is_value_of, push_value, read_value_at, value_len};
use crate::value_type::ValueType;
use sd_data::{Refusal, push_u32, read_u32};
use std::alloc::{AllocError, Global};

/// The length of a claim's header, before the offsets of its values ([MS-DTYP] 2.4.10.1).
pub(crate) const HEADER_BYTES: usize = 16;

/// The length of a value's offset ([MS-DTYP] 2.4.10.1).
pub(crate) const OFFSET_BYTES: usize = 4;

/// The values at so many offsets, which follow the header, if all of them take no more bytes than `room`.
pub(crate) fn read_values(
    alloc: Global,
    value_type: ValueType,
    bytes: &[u8],
    count: usize,
    room: usize,
) -> Result<Vec<Value>, Refusal>
    requires { header_len count ≤ length bytes.now }
    ensures ok { IfOk result (λ values.
        values_read value_type bytes.now room (u32s_at bytes.now 16 count) ≡ Some values.items) }
    ensures err { IfErr result (λ e. Fails e (values_read value_type bytes.now room (u32s_at bytes.now 16 count))) }
{
    let mut values = Vec::new(alloc);
    let mut left = room;
    for k in 0..count {
        let place = read_u32(bytes, HEADER_BYTES + OFFSET_BYTES * k) as usize;
        let (value, size) = read_value_at(alloc, value_type, bytes, place, left)?;
        values.push(value)?;
        left -= size;
    }
    Ok(values)
}

/// Whether a claim of the type can have the values.
pub(crate) fn are_values_of(value_type: ValueType, values: &[Value]) -> bool
    ensures { result ≡ list_all (is_value_of value_type) values.now }
{
    for value in values {
        if !is_value_of(value_type, value) {
            return false;
        }
    }
    true
}

/// How many bytes values take, if a number of bytes can be so large.
pub(crate) fn values_len(values: &[Value]) -> Option<usize>
    ensures { SomeIff result (length (flat_map value_bytes values.now) < 2 ^ 64)
        (length (flat_map value_bytes values.now)) }
{
    let mut total: usize = 0;
    for value in values {
        total = total.checked_add(value_len(value))?;
    }
    Some(total)
}

/// Appends the offsets of values that follow one another, the first of which is at `first`.
pub(crate) fn push_offsets(
    bytes: &mut Vec<u8>,
    first: usize,
    values: &[Value],
) -> Result<(), AllocError>
    requires { first + length (flat_map value_bytes values.now) ≤ 65535 }
    ensures { OnOk result (bytes.new.items
        ≡ bytes.old.items ++ flat_map (to_le_bytes w32) (offsets_from first values.now)) }
{
    let mut place = first;
    for value in values {
        push_u32(bytes, place as u32)?;
        place += value_len(value);
    }
    Ok(())
}

/// Appends values.
pub(crate) fn push_values(bytes: &mut Vec<u8>, values: &[Value]) -> Result<(), AllocError>
    requires { length (flat_map value_bytes values.now) ≤ 65535 }
    ensures { OnOk result (bytes.new.items ≡ bytes.old.items ++ flat_map value_bytes values.now) }
{
    for value in values {
        push_value(bytes, value)?;
    }
    Ok(())
}
