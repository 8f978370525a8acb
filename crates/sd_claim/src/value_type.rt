//! Types of values.

ghost use Rattle.std.specs.Prelude.{◌≡◌};
ghost use Rattle.sd_claim.specs.Table.{layout_of, type_number, type_read};

/// The type of a claim's values, ValueType ([MS-DTYP] 2.4.10.1). In SDDL it is TI, TU, TS, TD, TB or TX.
#[derive(Clone, Copy, Debug, PartialEq, Eq)]
pub enum ValueType {
    Integer,
    Unsigned,
    Text,
    Sid,
    Boolean,
    Octets,
}

/// How a value is laid out.
#[derive(Clone, Copy, Debug, PartialEq, Eq)]
pub(crate) enum Layout {
    /// Eight bytes.
    Number,
    /// UTF-16 units, and a zero unit.
    TerminatedText,
    /// A length in four bytes, and so many octets ([MS-DTYP] 2.4.10.2).
    OctetString,
}

impl ValueType {
    /// ValueType's number.
    pub fn number(self) -> u16
        ensures { result ≡ type_number self }
    {
        match self {
            ValueType::Integer => 0x0001,
            ValueType::Unsigned => 0x0002,
            ValueType::Text => 0x0003,
            ValueType::Sid => 0x0005,
            ValueType::Boolean => 0x0006,
            ValueType::Octets => 0x0010,
        }
    }

    /// The type of a number.
    pub(crate) fn of_number(number: u16) -> Option<ValueType>
        ensures { result ≡ type_read number }
    {
        match number {
            0x0001 => Some(ValueType::Integer),
            0x0002 => Some(ValueType::Unsigned),
            0x0003 => Some(ValueType::Text),
            0x0005 => Some(ValueType::Sid),
            0x0006 => Some(ValueType::Boolean),
            0x0010 => Some(ValueType::Octets),
            _ => None,
        }
    }

    /// How values of the type are laid out.
    pub(crate) fn layout(self) -> Layout
        ensures { result ≡ layout_of self }
    {
        match self {
            ValueType::Integer | ValueType::Unsigned | ValueType::Boolean => Layout::Number,
            ValueType::Text => Layout::TerminatedText,
            ValueType::Sid | ValueType::Octets => Layout::OctetString,
        }
    }
}
