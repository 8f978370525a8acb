//! Why a text is no path.

ghost use Rattle.std.specs.Prelude.{◌≡◌};
ghost use Rattle.sd_path.specs.PathText.{path_error_number};

use std::alloc::AllocError;
use thiserror::Error;

/// Why a text is no path, or why a path has no child of this name.
#[derive(Clone, Copy, Debug, PartialEq, Eq, Error)]
pub enum PathError {
    /// The text doesn't begin with `/`, or a name is empty or has a zero byte.
    #[error("a path begins with / and has no empty name and no zero byte")]
    Syntax,
    /// A name has more than 255 bytes.
    #[error("a name has at most 255 bytes")]
    NameTooLong,
    /// There are more than 128 names.
    #[error("a path has at most 128 names")]
    TooManyNames,
    /// Out of memory.
    #[error("memory was refused")]
    Memory,
}

impl PathError {
    /// The error's number.
    pub fn number(self) -> u8
        ensures { result ≡ path_error_number self }
    {
        match self {
            PathError::Syntax => 1,
            PathError::NameTooLong => 2,
            PathError::TooManyNames => 3,
            PathError::Memory => 4,
        }
    }
}

impl From<AllocError> for PathError {
    ghost use Rattle.std.specs.Prelude.{◌≡◌};
    ghost use Rattle.sd_path.specs.declared.error.PathError.TheVariants.{Memory};

    ghost from_gives = { λ _ error. error ≡ Memory };

    fn from(_: AllocError) -> PathError {
        PathError::Memory
    }
}
