//! Integers, as a condition's text wrote them.

ghost use Rattle.std.specs.Prelude.{◌≡◌, ◌≤◌, ◌++◌, length, IfOk, OnOk};
ghost use Rattle.std.specs.Int.{w64, cast_unsigned, to_le_bytes};
ghost use Rattle.sd_data.specs.Outcome.{Gives};
ghost use Rattle.sd_condition.specs.Reading.{integer_read};
ghost use Rattle.sd_condition.specs.Writing.{integer_bytes};
ghost use Rattle.sd_condition.specs.Table.{base_byte, base_read, sign_byte, sign_read, width_byte, width_read};

use sd_data::{Refusal, push_i64, read_i64};
use std::alloc::AllocError;

/// The length of an integer's token: its byte, the value, the sign, the base ([MS-DTYP] 2.4.4.17.5).
pub(crate) const INTEGER_BYTES: usize = 11;

/// The width of an integer, which its token's byte says ([MS-DTYP] 2.4.4.17.5). The value has eight bytes in each.
#[derive(Clone, Copy, Debug, PartialEq, Eq)]
pub enum Width {
    Int8,
    Int16,
    Int32,
    Int64,
}

/// The sign that an integer's text has ([MS-DTYP] 2.4.4.17.5).
#[derive(Clone, Copy, Debug, PartialEq, Eq)]
pub enum Sign {
    Plus,
    Minus,
    /// There is none.
    Omitted,
}

/// The base of an integer's text ([MS-DTYP] 2.4.4.17.5).
#[derive(Clone, Copy, Debug, PartialEq, Eq)]
pub enum Base {
    Octal,
    Decimal,
    Hexadecimal,
}

/// An integer ([MS-DTYP] 2.4.4.17.5). Width, sign and base are kept, since its text shows them.
#[derive(Clone, Copy, Debug, PartialEq, Eq)]
pub struct Integer {
    pub width: Width,
    pub value: i64,
    pub sign: Sign,
    pub base: Base,
}

impl Width {
    /// The byte of an integer's token, which says its width.
    pub(crate) fn byte(self) -> u8
        ensures { result ≡ width_byte self }
    {
        match self {
            Width::Int8 => 0x01,
            Width::Int16 => 0x02,
            Width::Int32 => 0x03,
            Width::Int64 => 0x04,
        }
    }

    /// The width that a token's byte says.
    pub(crate) fn of_byte(byte: u8) -> Option<Width>
        ensures { result ≡ width_read byte }
    {
        match byte {
            0x01 => Some(Width::Int8),
            0x02 => Some(Width::Int16),
            0x03 => Some(Width::Int32),
            0x04 => Some(Width::Int64),
            _ => None,
        }
    }
}

impl Sign {
    /// The byte of a sign.
    pub(crate) fn byte(self) -> u8
        ensures { result ≡ sign_byte self }
    {
        match self {
            Sign::Plus => 0x01,
            Sign::Minus => 0x02,
            Sign::Omitted => 0x03,
        }
    }

    /// The sign of a byte.
    pub(crate) fn of_byte(byte: u8) -> Option<Sign>
        ensures { result ≡ sign_read byte }
    {
        match byte {
            0x01 => Some(Sign::Plus),
            0x02 => Some(Sign::Minus),
            0x03 => Some(Sign::Omitted),
            _ => None,
        }
    }
}

impl Base {
    /// The byte of a base.
    pub(crate) fn byte(self) -> u8
        ensures { result ≡ base_byte self }
    {
        match self {
            Base::Octal => 0x01,
            Base::Decimal => 0x02,
            Base::Hexadecimal => 0x03,
        }
    }

    /// The base of a byte.
    pub(crate) fn of_byte(byte: u8) -> Option<Base>
        ensures { result ≡ base_read byte }
    {
        match byte {
            0x01 => Some(Base::Octal),
            0x02 => Some(Base::Decimal),
            0x03 => Some(Base::Hexadecimal),
            _ => None,
        }
    }
}

/// The integer at the front of the bytes.
#[tactic(auto, unfolding(crate::specs::Reading::integer_read))]
pub(crate) fn read_integer(bytes: &[u8]) -> Result<Integer, Refusal>
    ensures read { Gives result (integer_read bytes.now) }
    ensures long { IfOk result (λ _. 11 ≤ length bytes.now) }
{
    if bytes.len() < INTEGER_BYTES {
        return Err(Refusal::Malformed);
    }
    let width = Width::of_byte(bytes[0]).ok_or(Refusal::Malformed)?;
    let sign = Sign::of_byte(bytes[9]).ok_or(Refusal::Malformed)?;
    let base = Base::of_byte(bytes[10]).ok_or(Refusal::Malformed)?;
    Ok(Integer {
        width,
        value: read_i64(bytes, 1),
        sign,
        base,
    })
}

/// Appends an integer's token.
pub(crate) fn push_integer(bytes: &mut Vec<u8>, integer: Integer) -> Result<(), AllocError>
    ensures { OnOk result (bytes.new.items ≡ bytes.old.items ++ integer_bytes integer) }
{
    bytes.push(integer.width.byte())?;
    push_i64(bytes, integer.value)?;
    bytes.push(integer.sign.byte())?;
    bytes.push(integer.base.byte())?;
    Ok(())
}
