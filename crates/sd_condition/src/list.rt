//! Lists of values.

ghost use Rattle.std.specs.Prelude.{◌≡◌, ◌^◌, ◌<◌, ◌≤◌, ◌++◌, length, OnOk, SomeIff};
ghost use Rattle.std.specs.List.{flat_map};
ghost use Rattle.sd_data.specs.Outcome.{Gives};
ghost use Rattle.sd_condition.specs.Reading.{list_read};
ghost use Rattle.sd_condition.specs.Writing.{value_bytes};

use crate::value::{Value, push_value, read_value, value_len};
use sd_data::Refusal;
use std::alloc::{AllocError, Global};
use std::marker::Model;

/// A list of values, in which no other list is ([MS-DTYP] 2.4.4.17.5, composite). Contracts see the list.
#[derive(Debug, Drop)]
pub struct ValueList {
    values: Vec<Value>,
}

impl Model for ValueList {
    ghost use Rattle.std.specs.Prelude.{List};
    ghost use Rattle.sd_condition.specs.declared.value.Value as value;

    ghost Value = { List value.Value };

    ghost view = { λ l. l.values.items };
}

impl ValueList {
    /// The list of these values.
    pub fn new(values: Vec<Value>) -> ValueList
        ensures { result ≡ values.items }
    {
        ValueList { values }
    }

    /// The values, in order.
    pub fn values(&self) -> &[Value]
        ensures { result.now ≡ self.now }
    {
        &self.values
    }
}

/// The values in the bytes, which take them all.
pub(crate) fn read_list(alloc: Global, bytes: &[u8]) -> Result<ValueList, Refusal>
    ensures { Gives result (list_read bytes.now) }
{
    let mut values = Vec::new(alloc);
    let mut rest = bytes;
    while !rest.is_empty() {
        let (value, size) = read_value(alloc, rest)?;
        values.push(value)?;
        rest = &rest[size..];
    }
    Ok(ValueList { values })
}

/// How many bytes values take, one after the other, if a number of bytes can be so large.
pub(crate) fn values_len(values: &[Value]) -> Option<usize>
    ensures { SomeIff result (length (flat_map value_bytes values.now) < 2 ^ 64)
        (length (flat_map value_bytes values.now)) }
{
    let mut total: usize = 0;
    for value in values {
        total = total.checked_add(value_len(value))?;
    }
    Some(total)
}

/// Appends the tokens of values, one after the other.
pub(crate) fn push_values(bytes: &mut Vec<u8>, values: &[Value]) -> Result<(), AllocError>
    requires { length (flat_map value_bytes values.now) ≤ 65535 }
    ensures { OnOk result (bytes.new.items ≡ bytes.old.items ++ flat_map value_bytes values.now) }
{
    for value in values {
        push_value(bytes, value)?;
    }
    Ok(())
}
