//! The accounts of a file's text, and those that need no file.
ghost use Rattle.std.specs.Prelude.{◌≡◌, IfErr, IfOk, ◌++◌, string_bytes};
ghost use Rattle.std.specs.Str.{IsUtf8};
ghost use Rattle.sd_accounts.specs.Accounts.{rows_of};
ghost use Rattle.sd_named.specs.File.{AreAccounts, IsFileError};
ghost use Rattle.sd_named.specs.declared.well_known.TheConstants.{WELL_KNOWN};
ghost use Rattle.sd_named.specs.declared.file.FileError.TheVariants.{Memory};

use crate::well_known::WELL_KNOWN;
use sd_accounts::{Accounts, AccountsError, AccountsFault};
use std::alloc::{AllocError, Global};

/// Why a file's text has no accounts.
#[derive(Clone, Copy, Debug, PartialEq, Eq)]
pub enum FileError {
    /// It isn't UTF-8 from this byte on.
    Utf8 { at: u64 },
    /// The line of this number, counted from 1, is the first that is no row.
    Row { line: u64, kind: AccountsFault },
    /// Out of memory.
    Memory,
}

impl From<AllocError> for FileError {
    ghost from_gives = { λ _ e. e ≡ Memory };

    fn from(_error: AllocError) -> FileError {
        FileError::Memory
    }
}

/// The accounts of a file's text, and after them those that need no file ([MS-DTYP] 2.4.2.4). The errors are a text
/// that isn't UTF-8, the first line that is no row, as of `Accounts::read`, and out of memory.
pub fn accounts_of(alloc: Global, text: &[u8]) -> Result<Accounts, FileError>
    ensures text { IfOk result (λ _. IsUtf8 text.now) }
    ensures accounts { IfOk result (λ accounts. AreAccounts text.now (rows_of accounts)) }
    ensures none { IfErr result (IsFileError text.now) }
{
    let text = match str::from_utf8(text) {
        Ok(text) => text,
        Err(error) => {
            return Err(FileError::Utf8 {
                at: error.valid_up_to() as u64,
            });
        }
    };
    let all = with_well_known(alloc, text)?;
    match Accounts::read(alloc, all.as_str()) {
        Ok(accounts) => Ok(accounts),
        Err(AccountsError::Fault { line, kind }) => Err(FileError::Row { line, kind }),
        Err(AccountsError::Memory) => Err(FileError::Memory),
    }
}

/// The text, and after it the lines of the accounts that need no file.
fn with_well_known(alloc: Global, text: &str) -> Result<String, AllocError>
    ensures { IfOk result (λ all. string_bytes all ≡ text.now ++ WELL_KNOWN.now) }
{
    let mut all = String::from_str(alloc, text)?;
    all.push_str(WELL_KNOWN)?;
    Ok(all)
}
