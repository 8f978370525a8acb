//! Types of values, as text.

ghost use Rattle.std.specs.Prelude.{◌≡◌, ◌≤◌, length};
ghost use Rattle.sd_text.specs.Finding.{Gives};
ghost use Rattle.sd_text.specs.Names.{rows};
ghost use Rattle.sd_claim_text.specs.ValueType.{type_found, type_names, type_word};

use sd_claim::ValueType;
use sd_text::{Cursor, TextFault};

/// The words of the types ([MS-DTYP] 2.5.1.1, TI-attr to TB-attr).
static TYPE_NAMES: [(&str, ValueType); 6] = [
    ("TI", ValueType::Integer),
    ("TU", ValueType::Unsigned),
    ("TS", ValueType::Text),
    ("TD", ValueType::Sid),
    ("TB", ValueType::Boolean),
    ("TX", ValueType::Octets),
];

/// The word of a type.
pub(crate) fn type_word(value_type: ValueType) -> &'static str
    ensures { result.now ≡ type_word value_type }
{
    match value_type {
        ValueType::Integer => "TI",
        ValueType::Unsigned => "TU",
        ValueType::Text => "TS",
        ValueType::Sid => "TD",
        ValueType::Boolean => "TB",
        ValueType::Octets => "TX",
    }
}

fn type_names() -> &'static [(&'static str, ValueType)]
    ensures { rows result.now ≡ type_names }
{
    &TYPE_NAMES
}

/// The type whose word is here.
#[tactic(auto, unfolding(crate::specs::ValueType::type_found))]
pub(crate) fn parse_type(cursor: &mut Cursor<'_>) -> Result<ValueType, TextFault>
    ensures found { Gives (λ value_type. value_type) result cursor.new.rest.now (type_found cursor.old.rest.now) }
    ensures within { length cursor.new.rest.now ≤ length cursor.old.rest.now }
{
    cursor.name(type_names()).ok_or(TextFault::Syntax)
}
