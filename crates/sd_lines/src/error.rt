//! Why a whole input wasn't read, or a whole output not written.

ghost use Rattle.std.specs.Prelude.{◌≡◌, Some};
ghost use Rattle.std.specs.Fmt.{padded};
ghost use Rattle.sd_lines.specs.Error.{run_error_number, run_error_name};
ghost use Rattle.sd_lines.specs.declared.error.RunError.TheVariants.{Memory};

use std::alloc::{AllocError, AllocFailed};
use std::error::Error;
use std::fmt;

/// Why a run over streams ended early.
#[derive(Clone, Copy, Debug, PartialEq, Eq)]
pub enum RunError {
    /// The reader failed.
    Read,
    /// The input has more than 16,777,216 bytes.
    TooLong,
    /// The writer failed.
    Write,
    /// Out of memory.
    Memory,
    /// The workers of an audit, or the store that they share, didn't answer.
    Thread,
}

impl RunError {
    /// The error's number, from 1 on, by which programs name it.
    pub fn number(self) -> u8
        ensures { result ≡ run_error_number self }
    {
        match self {
            RunError::Read => 1,
            RunError::TooLong => 2,
            RunError::Write => 3,
            RunError::Memory => 4,
            RunError::Thread => 5,
        }
    }

    /// The error's name, by which it is shown.
    pub fn name(self) -> &'static str
        ensures { result.now ≡ run_error_name self }
    {
        match self {
            RunError::Read => "Read",
            RunError::TooLong => "TooLong",
            RunError::Write => "Write",
            RunError::Memory => "Memory",
            RunError::Thread => "Thread",
        }
    }
}

impl fmt::Display for RunError {
    ghost output = { λ error. Some (run_error_name error) };

    ghost styled_output = { λ error spec. Some (padded spec (run_error_name error)) };

    fn fmt<W: fmt::Write>(&self, f: &mut fmt::Formatter<W>) -> fmt::Result {
        f.pad(self.name())
    }
}

impl Error for RunError {}

impl From<AllocError> for RunError {
    ghost from_gives = { λ _ error. error ≡ Memory };

    fn from(_: AllocError) -> RunError {
        RunError::Memory
    }
}

impl<T: Drop> From<AllocFailed<T>> for RunError {
    ghost from_gives = { λ _ error. error ≡ Memory };

    fn from(_: AllocFailed<T>) -> RunError {
        RunError::Memory
    }
}
