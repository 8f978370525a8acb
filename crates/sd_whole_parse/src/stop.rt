//! Why a parser stops.

ghost use Rattle.std.specs.Prelude.{◌≡◌};
ghost use Rattle.sd_whole_parse.specs.declared.stop.Stop.TheVariants as stops;

use sd_text::TextFault;
use std::alloc::{AllocError, AllocFailed};

/// A fault at the cursor, or out of memory.
#[derive(Clone, Copy, Debug, PartialEq, Eq)]
pub(crate) enum Stop {
    Fault(TextFault),
    Memory,
}

impl From<TextFault> for Stop {
    ghost from_gives = { λ fault e. e ≡ stops.Fault fault };

    fn from(fault: TextFault) -> Stop {
        Stop::Fault(fault)
    }
}

impl From<AllocError> for Stop {
    ghost from_gives = { λ _ e. e ≡ stops.Memory };

    fn from(_e: AllocError) -> Stop {
        Stop::Memory
    }
}

impl<T: Drop> From<AllocFailed<T>> for Stop {
    ghost from_gives = { λ _ e. e ≡ stops.Memory };

    fn from(_e: AllocFailed<T>) -> Stop {
        Stop::Memory
    }
}
