//! Why a condition isn't parsed.

ghost use Rattle.std.specs.Prelude.{◌≡◌};
ghost use Rattle.sd_condition_parse.specs.declared.error.ConditionError.TheVariants.{Fault, Memory};

use sd_text::TextFault;
use std::alloc::{AllocError, AllocFailed};

/// Why a condition isn't parsed.
#[derive(Clone, Copy, Debug, PartialEq, Eq)]
pub enum ConditionError {
    /// A fault of the text, at which the cursor is left.
    Fault(TextFault),
    /// An allocation failed. The cursor is left somewhere in the condition.
    Memory,
}

impl From<TextFault> for ConditionError {
    ghost from_gives = { λ fault e. e ≡ Fault fault };

    fn from(fault: TextFault) -> ConditionError {
        ConditionError::Fault(fault)
    }
}

impl From<AllocError> for ConditionError {
    ghost from_gives = { λ _ e. e ≡ Memory };

    fn from(_: AllocError) -> ConditionError {
        ConditionError::Memory
    }
}

impl<T: Drop> From<AllocFailed<T>> for ConditionError {
    ghost from_gives = { λ _ e. e ≡ Memory };

    fn from(_: AllocFailed<T>) -> ConditionError {
        ConditionError::Memory
    }
}
