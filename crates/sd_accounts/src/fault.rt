//! The faults of an accounts file.

use std::alloc::{AllocError, AllocFailed};
use thiserror::Error;

/// Why a line is no row.
#[derive(Clone, Copy, Debug, PartialEq, Eq)]
pub enum AccountsFault {
    /// It begins with none of the words with which a row begins.
    Keyword,
    /// A SID is missing, or a word is no SID.
    Sid,
    /// The name is missing, or it has a control character.
    Name,
    /// Something follows the last SID.
    Surplus,
    /// It says that rows are missing.
    Incomplete,
}

/// Why there are no accounts.
#[derive(Clone, Copy, Debug, PartialEq, Eq, Error)]
pub enum AccountsError {
    /// The line of this number, counted from 1, is the first that is no row.
    #[error("line {line} is no row: {kind:?}")]
    Fault { line: u64, kind: AccountsFault },
    /// Out of memory.
    #[error("out of memory")]
    Memory,
}

impl From<AllocError> for AccountsError {
    ghost use Rattle.std.specs.Prelude.{◌≡◌};
    ghost use Rattle.sd_accounts.specs.declared.fault.AccountsError.TheVariants.{Memory};

    ghost from_gives = { λ _ e. e ≡ Memory };

    fn from(_error: AllocError) -> AccountsError {
        AccountsError::Memory
    }
}

impl<T: Drop> From<AllocFailed<T>> for AccountsError {
    ghost use Rattle.std.specs.Prelude.{◌≡◌};
    ghost use Rattle.sd_accounts.specs.declared.fault.AccountsError.TheVariants.{Memory};

    ghost from_gives = { λ _ e. e ≡ Memory };

    fn from(_error: AllocFailed<T>) -> AccountsError {
        AccountsError::Memory
    }
}

/// Why a line gives no row.
#[derive(Clone, Copy, Debug)]
pub(crate) enum RowError {
    /// It is none.
    Fault(AccountsFault),
    /// Out of memory.
    Memory,
}

impl From<AccountsFault> for RowError {
    ghost use Rattle.std.specs.Prelude.{◌≡◌};
    ghost use Rattle.sd_accounts.specs.declared.fault.RowError.TheVariants.{Fault};

    ghost from_gives = { λ fault e. e ≡ Fault fault };

    fn from(fault: AccountsFault) -> RowError {
        RowError::Fault(fault)
    }
}

impl From<AllocError> for RowError {
    ghost use Rattle.std.specs.Prelude.{◌≡◌};
    ghost use Rattle.sd_accounts.specs.declared.fault.RowError.TheVariants.{Memory};

    ghost from_gives = { λ _ e. e ≡ Memory };

    fn from(_error: AllocError) -> RowError {
        RowError::Memory
    }
}
