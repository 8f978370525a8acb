//! Why the text of a claim is not parsed.

ghost use Rattle.std.specs.Prelude.{◌≡◌};
ghost use Rattle.sd_text.specs.declared.fault.TextFault.{TextFault};
ghost use Rattle.sd_claim_text.specs.declared.error.ClaimError.TheVariants.{Fault, Memory};

use sd_text::TextFault;
use std::alloc::{AllocError, AllocFailed};
use thiserror::Error;

/// Why the text of a claim was not parsed.
#[derive(Clone, Copy, Debug, PartialEq, Eq, Error)]
pub enum ClaimError {
    /// The text's first fault, at which the cursor is left.
    #[error("{}", .0.name())]
    Fault(TextFault),
    /// Out of memory. The cursor is left somewhere in the text.
    #[error("out of memory")]
    Memory,
}

impl From<TextFault> for ClaimError {
    ghost from_gives = { λ fault e. e ≡ Fault fault };

    fn from(fault: TextFault) -> ClaimError {
        ClaimError::Fault(fault)
    }
}

impl From<AllocError> for ClaimError {
    ghost from_gives = { λ _ e. e ≡ Memory };

    fn from(_e: AllocError) -> ClaimError {
        ClaimError::Memory
    }
}

impl<T: Drop> From<AllocFailed<T>> for ClaimError {
    ghost from_gives = { λ _ e. e ≡ Memory };

    fn from(_e: AllocFailed<T>) -> ClaimError {
        ClaimError::Memory
    }
}
