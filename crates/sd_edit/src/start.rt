//! How a store starts, and why it doesn't.

ghost use Rattle.std.specs.Prelude.{◌≡◌};
ghost use Rattle.sd_edit.specs.Starts.{start_error_number};

use crate::refusal::{EditRefusal, TreeError};
use std::alloc::AllocError;
use thiserror::Error;

/// The most readers of one store. A publish may have to look at every reader, so their number is kept small.
pub const MAX_READERS: u64 = 64;

/// Why a store didn't start.
#[derive(Clone, Copy, Debug, PartialEq, Eq, Error)]
pub enum StartError {
    /// The number of readers isn't 1 to 64.
    #[error("a store has 1 to 64 readers")]
    Readers,
    /// The root is refused.
    #[error("{0}")]
    Root(EditRefusal),
    /// Memory was refused.
    #[error("memory was refused")]
    Memory,
    /// A store of many threads has no place for a reader. A store of one thread never answers this.
    #[error("the shared store gave no place for a reader")]
    Place,
}

impl StartError {
    /// The error's number.
    pub fn number(self) -> u8
        ensures { result ≡ start_error_number self }
    {
        match self {
            StartError::Readers => 1,
            StartError::Root(_) => 2,
            StartError::Memory => 3,
            StartError::Place => 4,
        }
    }
}

impl From<TreeError> for StartError {
    ghost use Rattle.std.specs.Prelude.{◌≡◌};
    ghost use Rattle.sd_edit.specs.Starts.{start_error_of};

    ghost from_gives = { λ error start. start ≡ start_error_of error };

    fn from(error: TreeError) -> StartError {
        match error {
            TreeError::Refused(refusal) => StartError::Root(refusal),
            TreeError::Memory => StartError::Memory,
        }
    }
}

impl From<AllocError> for StartError {
    ghost use Rattle.std.specs.Prelude.{◌≡◌};
    ghost use Rattle.sd_edit.specs.declared.start.StartError.TheVariants.{Memory};

    ghost from_gives = { λ _ start. start ≡ Memory };

    fn from(_: AllocError) -> StartError {
        StartError::Memory
    }
}
