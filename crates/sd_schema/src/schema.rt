//! The schema of a file.

use crate::row::Row;

/// The object types of a schema file with their names: its rows, in order.
#[derive(Drop)]
pub struct Schema {
    pub(crate) rows: Vec<Row>,
}
