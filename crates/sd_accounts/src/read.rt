//! Parses an accounts file.

ghost use Rattle.std.specs.Prelude.{◌≡◌, ◌+◌, ◌<◌, ℕ, Err, IfOk, OnOk};
ghost use Rattle.sd_accounts.specs.Accounts.{rows_of};
ghost use Rattle.sd_accounts.specs.Fault.{IsFirstNoRow};
ghost use Rattle.sd_accounts.specs.Kept.{all_rows};
ghost use Rattle.sd_accounts.specs.Lines.{IsFault, SaysMore};
ghost use Rattle.sd_accounts.specs.Row.{AreRows, lines_of};
ghost use Rattle.sd_accounts.specs.declared.fault.AccountsFault.{AccountsFault};

use crate::accounts::Accounts;
use crate::fault::{AccountsError, AccountsFault, RowError};
use crate::index::index_rows;
use crate::row::{Row, read_row};
use crate::words::{cut, says_nothing, without_return};
use std::alloc::Global;

impl Accounts {
    /// Parses an accounts file. `Fault` has the number of the first line that is no row, and why.
    ///
    /// A row is `user SID NAME` or `group SID NAME`, where the name is the rest of the line, `member GROUP MEMBER`,
    /// `primary USER GROUP` or `disabled USER`. SIDs are texts of [MS-DTYP] 2.4.2.1, or aliases that need no domain.
    /// An empty line, and one that begins with `#`, says nothing. A line that begins with `incomplete` says that rows
    /// are missing, and is a fault: a user may be in groups that no row has.
    pub fn read(alloc: Global, text: &str) -> Result<Accounts, AccountsError>
        ensures rows { IfOk result (λ accounts. AreRows (lines_of text.now) (rows_of accounts)) }
        ensures fault { (line : ℕ) → (kind : AccountsFault) → result ≡ Err (AccountsError.Fault line kind)
            → IsFirstNoRow (lines_of text.now) line kind }
    {
        let rows = read_rows(alloc, text)?;
        let index = index_rows(alloc, &rows)?;
        Ok(Accounts { rows, index })
    }
}

/// The rows of a text.
fn read_rows(alloc: Global, text: &str) -> Result<Vec<Row>, AccountsError>
    ensures rows { IfOk result (λ rows. AreRows (lines_of text.now) (all_rows rows.items)) }
    ensures fault { (line : ℕ) → (kind : AccountsFault) → result ≡ Err (AccountsError.Fault line kind)
        → IsFirstNoRow (lines_of text.now) line kind }
{
    let mut rows = Vec::new(alloc);
    let mut left = Some(text);
    let mut number = 0;
    'lines: while let Some(text) = left {
        let (line, rest) = cut(text, '\n');
        number += 1;
        read_line(alloc, number, without_return(line), &mut rows)?;
        left = rest;
    }
    Ok(rows)
}

/// Adds what a line says, if it says anything. The number of the line is for a fault.
fn read_line(
    alloc: Global,
    number: u64,
    line: &str,
    rows: &mut Vec<Row>,
) -> Result<(), AccountsError>
    ensures row { OnOk result (SaysMore line.now (all_rows rows.old.items) (all_rows rows.new.items)) }
    ensures fault { (place : ℕ) → (kind : AccountsFault) → result ≡ Err (AccountsError.Fault place kind)
        → IsFault line.now number place kind }
{
    if says_nothing(line) {
        return Ok(());
    }
    match read_row(alloc, line) {
        Ok(row) => {
            rows.push(row)?;
            Ok(())
        }
        Err(RowError::Fault(kind)) => Err(AccountsError::Fault { line: number, kind }),
        Err(RowError::Memory) => Err(AccountsError::Memory),
    }
}
