//! GUIDs as text: [MS-DTYP] 2.3.4.3.

ghost use Rattle.std.specs.Prelude.{◌≡◌, ◌<◌, ◌++◌, IfOk, OnOk, length, string_bytes};
ghost use Rattle.std.specs.List.{AllByRecursion};
ghost use Rattle.sd_whole_text.specs.Guid.{byte_text, group_text, guid_text};

use sd_whole::Guid;
use std::alloc::{AllocError, Global};

/// The length of the text of a GUID.
const GUID_TEXT_BYTES: usize = 36;

/// A GUID as text, 8-4-4-4-12 lower-case digits ([MS-DTYP] 2.3.4.3). The only error is out of memory.
pub fn print_guid(alloc: Global, guid: &Guid) -> Result<String, AllocError>
    ensures { IfOk result (λ text. string_bytes text ≡ guid_text guid.now) }
{
    let mut text = String::with_capacity(alloc, GUID_TEXT_BYTES)?;
    push_guid(&mut text, guid)?;
    Ok(text)
}

/// Appends a GUID. The first three groups are little-endian in the bytes.
#[tactic(auto, unfolding(crate::specs::Guid::guid_text), using(std::proofs::Common::append_assoc))]
pub(crate) fn push_guid(out: &mut String, guid: &Guid) -> Result<(), AllocError>
    ensures { OnOk result (string_bytes out.new ≡ string_bytes out.old ++ guid_text guid.now) }
{
    let bytes = guid.as_slice();
    push_group(out, bytes, &[3, 2, 1, 0])?;
    out.push_str("-")?;
    push_group(out, bytes, &[5, 4])?;
    out.push_str("-")?;
    push_group(out, bytes, &[7, 6])?;
    out.push_str("-")?;
    push_group(out, bytes, &[8, 9])?;
    out.push_str("-")?;
    push_group(out, bytes, &[10, 11, 12, 13, 14, 15])
}

/// Appends the bytes at these places, in this order.
#[tactic(auto, unfolding(crate::specs::Guid::group_text))]
fn push_group(out: &mut String, bytes: &[u8], places: &[usize]) -> Result<(), AllocError>
    requires { AllByRecursion (λ place. place < length bytes.now) places.now }
    ensures { OnOk result (string_bytes out.new ≡ string_bytes out.old ++ group_text bytes.now places.now) }
{
    for place in places {
        push_byte(out, bytes[*place])?;
    }
    Ok(())
}

/// Appends a byte in two digits.
#[tactic(auto, using(crate::proofs::Digits::two_digits))]
fn push_byte(out: &mut String, byte: u8) -> Result<(), AllocError>
    ensures { OnOk result (string_bytes out.new ≡ string_bytes out.old ++ byte_text byte) }
{
    write!(out, "{byte:02x}")
}
