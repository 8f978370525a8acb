//! Parses a schema file.

ghost use Rattle.std.specs.Prelude.{◌≡◌, Ok, IfErr, IfOk, OnOk};
ghost use Rattle.sd_schema.specs.Kept.{all_rows, rows_of};
ghost use Rattle.sd_schema.specs.Row.{IsLineError, IsSchemaError, line_in, rows_in};

use crate::fault::{LineError, SchemaError};
use crate::line::says_nothing;
use crate::row::{Row, read_row};
use crate::schema::Schema;
use sd_lines::{Ending, first_line};
use std::alloc::Global;

impl Schema {
    /// Parses a schema file. `Fault` has the number of the first line that is no row, and why.
    ///
    /// A row is `class GUID NAME`, `attribute GUID NAME`, `set GUID NAME` or `right GUID NAME`, where the GUID has
    /// 8-4-4-4-12 hexadecimal digits ([MS-DTYP] 2.3.4.3) and the name is the rest of the line. An empty line, and one
    /// that begins with `#`, says nothing.
    pub fn read(alloc: Global, text: &[u8]) -> Result<Schema, SchemaError>
        ensures rows { IfOk result (λ schema. rows_in text.now ≡ Ok (rows_of schema)) }
        ensures none { IfErr result (IsSchemaError (rows_in text.now)) }
    {
        match read_rows(alloc, text) {
            Ok(rows) => Ok(Schema { rows }),
            Err(error) => Err(error),
        }
    }
}

/// The rows of a text.
fn read_rows(alloc: Global, text: &[u8]) -> Result<Vec<Row>, SchemaError>
    ensures rows { IfOk result (λ rows. rows_in text.now ≡ Ok (all_rows rows.items)) }
    ensures none { IfErr result (IsSchemaError (rows_in text.now)) }
{
    let mut rows = Vec::new(alloc);
    let mut left = text;
    let mut number = 0;
    'lines: while !left.is_empty() {
        let (line, rest) = first_line(Ending::Feed, left);
        number += 1;
        match read_line(alloc, line, &mut rows) {
            Ok(()) => {}
            Err(LineError::Fault(kind)) => return Err(SchemaError::Fault { line: number, kind }),
            Err(LineError::Memory) => return Err(SchemaError::Memory),
        }
        left = rest;
    }
    Ok(rows)
}

/// Adds what a line says, if it says anything.
fn read_line(alloc: Global, line: &[u8], rows: &mut Vec<Row>) -> Result<(), LineError>
    ensures more { OnOk result (line_in (all_rows rows.old.items) line.now ≡ Ok (all_rows rows.new.items)) }
    ensures none { IfErr result (IsLineError (line_in (all_rows rows.old.items) line.now)) }
{
    if says_nothing(line) {
        return Ok(());
    }
    match read_row(alloc, line) {
        Ok(row) => match rows.push(row) {
            Ok(()) => Ok(()),
            Err(_) => Err(LineError::Memory),
        },
        Err(error) => Err(error),
    }
}
