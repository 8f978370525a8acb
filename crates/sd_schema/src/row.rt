//! The rows of a schema.

ghost use Rattle.std.specs.Prelude.{◌≡◌, Ok, IfErr, IfOk};
ghost use Rattle.sd_schema.specs.Kept.{row_of};
ghost use Rattle.sd_schema.specs.Row.{IsLineError, row_in, text_row};

use crate::fault::{LineError, SchemaFault};
use crate::line::{halves, is_keyword, is_name};
use sd_whole::Guid;
use sd_whole_parse::read_guid_text;
use std::alloc::Global;

/// An object type, and a name of it.
#[derive(Drop)]
pub(crate) struct Row {
    pub(crate) guid: Guid,
    pub(crate) name: String,
}

/// The row that the line is.
#[tactic(auto, using(crate::proofs::Utf8::no_texts))]
pub(crate) fn read_row(alloc: Global, line: &[u8]) -> Result<Row, LineError>
    ensures row { IfOk result (λ row. row_in line.now ≡ Ok (row_of row)) }
    ensures none { IfErr result (IsLineError (row_in line.now)) }
{
    match str::from_utf8(line) {
        Ok(text) => row_of_text(alloc, text),
        Err(_) => Err(LineError::Fault(SchemaFault::Utf8)),
    }
}

/// The row that the text is.
fn row_of_text(alloc: Global, text: &str) -> Result<Row, LineError>
    ensures row { IfOk result (λ row. text_row text.now ≡ Ok (row_of row)) }
    ensures none { IfErr result (IsLineError (text_row text.now)) }
{
    let (keyword, left) = halves(text);
    if !is_keyword(keyword) {
        return Err(LineError::Fault(SchemaFault::Keyword));
    }
    let (guid, name) = halves(left);
    let Some(guid) = read_guid_text(guid) else {
        return Err(LineError::Fault(SchemaFault::Guid));
    };
    if !is_name(name) {
        return Err(LineError::Fault(SchemaFault::Name));
    }
    match String::from_str(alloc, name) {
        Ok(name) => Ok(Row { guid, name }),
        Err(_) => Err(LineError::Memory),
    }
}
