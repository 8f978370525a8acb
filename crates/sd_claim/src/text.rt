//! Texts of a claim, which a zero unit ends.

ghost use Rattle.std.specs.Prelude.{◌≡◌, ◌+◌, ◌*◌, ◌^◌, ◌<◌, ◌≤◌, ◌++◌, length, OnOk};
ghost use Rattle.sd_data.specs.Outcome.{Gives};
ghost use Rattle.sd_claim.specs.Reading.{text_of_part};
ghost use Rattle.sd_data.specs.Reading.{text_read};
ghost use Rattle.sd_claim.specs.Writing.{terminated};
ghost use Rattle.sd_data.specs.Writing.{text_bytes};

use sd_data::{Refusal, Utf16, push_text, push_u16, read_text, text_len};
use std::alloc::{AllocError, Global};

/// How many bytes the zero unit takes that ends a text ([MS-DTYP] 2.4.10.1).
pub(crate) const TERMINATOR_BYTES: usize = 2;

/// The text of a part, which a zero unit ends.
pub(crate) fn read_text_part(alloc: Global, part: &[u8]) -> Result<Utf16, Refusal>
    requires { 2 ≤ length part.now }
    ensures { Gives result (text_of_part part.now) }
{
    read_text(alloc, &part[..part.len() - TERMINATOR_BYTES])
}

/// How many bytes a text takes, with the zero unit that ends it.
#[tactic(auto, using(crate::proofs::Lengths::length_of_terminated))]
pub(crate) fn terminated_len(text: &Utf16) -> usize
    ensures exact { result ≡ length (terminated text.now) }
    ensures most { result < 2 ^ 63 + 2 }
{
    text_len(text) + TERMINATOR_BYTES
}

/// Appends the units of a text, and the zero unit that ends it.
pub(crate) fn push_terminated(bytes: &mut Vec<u8>, text: &Utf16) -> Result<(), AllocError>
    ensures { OnOk result (bytes.new.items ≡ bytes.old.items ++ terminated text.now) }
{
    push_text(bytes, text)?;
    push_u16(bytes, 0)
}
