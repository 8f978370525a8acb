//! Parts of a claim: how many bytes the name or a value takes, at an offset into the data.

ghost use Rattle.std.specs.Prelude.{◌≡◌, ◌+◌, ◌≤◌, length, IfOk, IsErrOf};
ghost use Rattle.sd_data.specs.Outcome.{Gives};
ghost use Rattle.sd_claim.specs.Reading.{front_len, number_len, octet_string_len, part_len, terminated_len};
ghost use Rattle.sd_claim.specs.Table.{least_len};
ghost use Rattle.sd_data.specs.declared.refusal.Refusal.TheVariants.{Memory};

use crate::text::TERMINATOR_BYTES;
use crate::value_type::Layout;
use sd_data::{Refusal, read_u16, read_u32};

/// The length of a number ([MS-DTYP] 2.4.10.1).
pub(crate) const NUMBER_BYTES: usize = 8;

/// The length of an octet string's length ([MS-DTYP] 2.4.10.2).
pub(crate) const LENGTH_BYTES: usize = 4;

/// How many bytes the part at an offset takes, if it takes no more than `room`.
#[tactic(auto, unfolding(crate::specs::Reading::part_len))]
pub(crate) fn read_part_len(
    layout: Layout,
    bytes: &[u8],
    place: usize,
    room: usize,
) -> Result<usize, Refusal>
    ensures read { Gives result (part_len layout bytes.now place room) }
    ensures memory { ¬ IsErrOf result Memory }
    ensures least { IfOk result (λ n. least_len layout ≤ n) }
    ensures within { IfOk result (λ n. place + n ≤ length bytes.now) }
    ensures room { IfOk result (λ n. n ≤ room) }
{
    if bytes.len() < place {
        return Err(Refusal::Malformed);
    }
    let len = read_front_len(layout, &bytes[place..])?;
    if room < len {
        return Err(Refusal::Malformed);
    }
    Ok(len)
}

/// How many bytes the part at the front of the bytes takes.
fn read_front_len(layout: Layout, bytes: &[u8]) -> Result<usize, Refusal>
    ensures read { Gives result (front_len layout bytes.now) }
    ensures memory { ¬ IsErrOf result Memory }
    ensures least { IfOk result (λ n. least_len layout ≤ n) }
    ensures within { IfOk result (λ n. n ≤ length bytes.now) }
{
    match layout {
        Layout::Number => read_number_len(bytes),
        Layout::TerminatedText => read_terminated_len(bytes),
        Layout::OctetString => read_octet_string_len(bytes),
    }
}

/// How many bytes a number takes.
fn read_number_len(bytes: &[u8]) -> Result<usize, Refusal>
    ensures read { Gives result (number_len bytes.now) }
    ensures memory { ¬ IsErrOf result Memory }
    ensures least { IfOk result (λ n. 8 ≤ n) }
    ensures within { IfOk result (λ n. n ≤ length bytes.now) }
{
    if bytes.len() < NUMBER_BYTES {
        return Err(Refusal::Malformed);
    }
    Ok(NUMBER_BYTES)
}

/// How many bytes a text takes, with the zero unit that ends it.
fn read_terminated_len(bytes: &[u8]) -> Result<usize, Refusal>
    ensures read { Gives result (terminated_len bytes.now) }
    ensures memory { ¬ IsErrOf result Memory }
    ensures least { IfOk result (λ n. 2 ≤ n) }
    ensures within { IfOk result (λ n. n ≤ length bytes.now) }
{
    let mut rest = bytes;
    let mut len: usize = 0;
    while rest.len() >= 2 {
        if read_u16(rest, 0) == 0 {
            return Ok(len + TERMINATOR_BYTES);
        }
        len += 2;
        rest = &rest[2..];
    }
    Err(Refusal::Malformed)
}

/// How many bytes an octet string takes: its length, and so many octets.
fn read_octet_string_len(bytes: &[u8]) -> Result<usize, Refusal>
    ensures read { Gives result (octet_string_len bytes.now) }
    ensures memory { ¬ IsErrOf result Memory }
    ensures least { IfOk result (λ n. 4 ≤ n) }
    ensures within { IfOk result (λ n. n ≤ length bytes.now) }
{
    if bytes.len() < LENGTH_BYTES {
        return Err(Refusal::Malformed);
    }
    let len = read_u32(bytes, 0) as usize;
    if bytes.len() < LENGTH_BYTES + len {
        return Err(Refusal::Malformed);
    }
    Ok(LENGTH_BYTES + len)
}
