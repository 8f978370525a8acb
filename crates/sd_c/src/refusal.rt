//! Why nothing is written.

ghost use Rattle.std.specs.Prelude.{◌≡◌};
ghost use Rattle.sd_c.specs.declared.refusal.Refusal.TheVariants.{Memory};

use sd_sid::SidError;
use sd_text::TextFault;
use sd_whole::OddEntry;
use sd_whole_text::NoText;
use sd_wire::WireFault;
use std::alloc::{AllocError, AllocFailed};

/// Why a call that writes is refused.
#[derive(Clone, Copy)]
pub enum Refusal {
    /// Out of memory.
    Memory,
    /// The text isn't UTF-8 from this byte on.
    Utf8 { place: u64 },
    /// The text's first fault, and its byte offset.
    Text { fault: TextFault, place: u64 },
    /// The bytes hold no descriptor.
    Wire(WireFault),
    /// The bytes don't start with a SID.
    Sid(SidError),
    /// The SID at their front is no domain's.
    NoDomain,
    /// The descriptor doesn't have the part.
    Lacking,
    /// This part of the descriptor has no text.
    NoText(NoText),
    /// This entry of the DACL is no allow and no deny of a plain list.
    NotPlain(OddEntry),
    /// There is no such kind of object.
    NoKind,
}

impl From<AllocError> for Refusal {
    ghost from_gives = { λ _ why. why ≡ Memory };

    fn from(_: AllocError) -> Refusal {
        Refusal::Memory
    }
}

impl<T: Drop> From<AllocFailed<T>> for Refusal {
    ghost from_gives = { λ _ why. why ≡ Memory };

    fn from(_: AllocFailed<T>) -> Refusal {
        Refusal::Memory
    }
}
