//! The accounts of a file.

ghost use Rattle.sd_accounts.specs.Index.{IsIndexOf};
ghost use Rattle.sd_accounts.specs.Kept.{all_rows};

use crate::index::Index;
use crate::row::Row;

/// The accounts of a file: its rows, in order, and an index of the direct memberships.
#[derive(Drop)]
pub struct Accounts {
    pub(crate) rows: Vec<Row>,
    pub(crate) index: Index,
    ghost indexed: { IsIndexOf index (all_rows rows.items) },
}
