//! Why a call on a store fails.

ghost use Rattle.std.specs.Prelude.{◌≡◌};
ghost use Rattle.sd_store.specs.Errors.{audit_error_number};

use sd_tree::{EditRefusal, TreeError};
use std::alloc::AllocError;
use thiserror::Error;

/// Why an edit didn't become pending. Nothing has changed.
#[derive(Clone, Copy, Debug, PartialEq, Eq, Error)]
pub enum EditError {
    /// The edit is refused.
    #[error("{0}")]
    Refused(EditRefusal),
    /// Memory was refused.
    #[error("memory was refused")]
    Memory,
}

impl From<TreeError> for EditError {
    ghost use Rattle.std.specs.Prelude.{◌≡◌};
    ghost use Rattle.sd_store.specs.Errors.{edit_error_of};

    ghost from_gives = { λ error edit. edit ≡ edit_error_of error };

    fn from(error: TreeError) -> EditError {
        match error {
            TreeError::Refused(refusal) => EditError::Refused(refusal),
            TreeError::Memory => EditError::Memory,
        }
    }
}

/// Why nothing was published. The same edits are pending.
#[derive(Clone, Copy, Debug, PartialEq, Eq, Error)]
pub enum PublishError {
    /// Memory was refused.
    #[error("memory was refused")]
    Memory,
}

/// The shared store gave nothing to read in that call, or a journal shorter than the checker's floor: it may be so once
/// its writer has ended. What the checker has seen stays.
#[derive(Clone, Copy, Debug, PartialEq, Eq, Error)]
#[error("the store is gone")]
pub struct Gone;

/// Why no descriptor was returned.
#[derive(Clone, Copy, Debug, PartialEq, Eq, Error)]
pub enum ShowError {
    /// The shared store gave nothing to read, or less than the checker has seen, as once its writer has ended.
    #[error("the store is gone")]
    Gone,
    /// Memory was refused.
    #[error("memory was refused")]
    Memory,
}

impl From<Gone> for ShowError {
    ghost use Rattle.std.specs.Prelude.{◌≡◌};
    ghost use Rattle.sd_store.specs.declared.error.ShowError.TheVariants as show;

    ghost from_gives = { λ _ error. error ≡ show.Gone };

    fn from(_: Gone) -> ShowError {
        ShowError::Gone
    }
}

impl From<AllocError> for ShowError {
    ghost use Rattle.std.specs.Prelude.{◌≡◌};
    ghost use Rattle.sd_store.specs.declared.error.ShowError.TheVariants.{Memory};

    ghost from_gives = { λ _ error. error ≡ Memory };

    fn from(_: AllocError) -> ShowError {
        ShowError::Memory
    }
}

/// Why an audit has no answers. Each checker has then seen no less than it had.
#[derive(Clone, Copy, Debug, PartialEq, Eq, Error)]
pub enum AuditError {
    /// Memory was refused.
    #[error("memory was refused")]
    Memory,
    /// The gate didn't let a worker go on.
    #[error("the gate was closed")]
    Gate,
    /// A check answered `Gone`.
    #[error("the store is gone")]
    Gone,
}

impl AuditError {
    /// The error's number.
    pub fn number(self) -> u8
        ensures { result ≡ audit_error_number self }
    {
        match self {
            AuditError::Memory => 1,
            AuditError::Gate => 2,
            AuditError::Gone => 3,
        }
    }
}
