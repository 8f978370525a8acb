//! The names of object types.

ghost use Rattle.std.specs.Prelude.{◌≡◌, option_map};
ghost use Rattle.std.specs.List.{list_any};
ghost use Rattle.sd_schema.specs.Kept.{all_rows, row_of, rows_of};
ghost use Rattle.sd_schema.specs.Names.{first_named, guid_named, is_another, is_named, same_guid};

use crate::row::Row;
use crate::schema::Schema;
use sd_whole::Guid;

/// Why a text names no one object type.
#[derive(Clone, Copy, Debug, PartialEq, Eq)]
pub enum TypeNameFault {
    /// It names none.
    Unknown,
    /// It names two.
    Ambiguous,
}

impl Schema {
    /// The GUID of the object type that the text names ([MS-DTYP] 2.3.4.3): of the rows whose name is alike but for the
    /// case of ASCII letters. `Ambiguous`: they have two GUIDs.
    pub fn guid_named(&self, text: &str) -> Result<Guid, TypeNameFault>
        ensures { result ≡ guid_named (rows_of self.now) text.now }
    {
        let Some(guid) = first_named(&self.rows, text) else {
            return Err(TypeNameFault::Unknown);
        };
        if names_another(&self.rows, text, &guid) {
            return Err(TypeNameFault::Ambiguous);
        }
        Ok(guid)
    }
}

/// The GUID of the first row that the text names.
fn first_named(rows: &[Row], text: &str) -> Option<Guid>
    ensures { result ≡ first_named (all_rows rows.now) text.now }
{
    for row in rows {
        if row.is_named(text) {
            return Some(row.guid);
        }
    }
    None
}

/// Whether the text names a row with another GUID.
fn names_another(rows: &[Row], text: &str, guid: &Guid) -> bool
    ensures { result ≡ list_any (λ row. is_another text.now guid.now (row_of row)) rows.now }
{
    rows.iter()
        .any(|row| row.is_named(text) && !same_guid(&row.guid, guid))
}

fn same_guid(one: &Guid, other: &Guid) -> bool
    ensures { result ≡ same_guid one.now other.now }
{
    one.as_slice() == other.as_slice()
}

impl Row {
    /// Whether the text names it.
    fn is_named(&self, text: &str) -> bool
        ensures { result ≡ is_named text.now (row_of self.now) }
    {
        text.eq_ignore_ascii_case(&self.name)
    }
}
