//! The faults of a schema file.

use thiserror::Error;

/// Why a line is no row.
#[derive(Clone, Copy, Debug, PartialEq, Eq)]
pub enum SchemaFault {
    /// It begins with none of the words with which a row begins.
    Keyword,
    /// The GUID is missing, or the text is none.
    Guid,
    /// The name is missing, or it has a control character.
    Name,
    /// The line isn't UTF-8.
    Utf8,
}

/// Why there is no schema.
#[derive(Clone, Copy, Debug, PartialEq, Eq, Error)]
pub enum SchemaError {
    /// The line of this number, counted from 1, is the first that is no row.
    #[error("line {line} is no row: {kind:?}")]
    Fault { line: u64, kind: SchemaFault },
    /// Out of memory.
    #[error("out of memory")]
    Memory,
}

/// Why a line gives no row.
#[derive(Clone, Copy, Debug)]
pub(crate) enum LineError {
    /// It is none.
    Fault(SchemaFault),
    /// Out of memory.
    Memory,
}
