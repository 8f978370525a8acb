//! The call that puts parts of two whole descriptors together.

ghost use Rattle.std.specs.Prelude.{◌≡◌, cond, IfErr, IfOk};
ghost use Rattle.sd_wire.specs.Reading.{is_set};
ghost use Rattle.sd_c.specs.WithParts.{IsWithParts, RefusesEither, bits_of_parts, with_parts};
ghost use Rattle.sd_c.specs.Written.{Answers};

use crate::call_answer::{Written, refused, write};
use crate::refusal::Refusal;
use crate::whole::whole_in;
use sd_whole::{WholeAcl, WholeDescriptor, write_whole};
use sd_wire::bits_when;
use std::alloc::Global;

/// The parts of a descriptor, as in [MS-DTYP] 2.4.7 (SECURITY_INFORMATION).
const OWNER: u32 = 1;

const GROUP: u32 = 2;

const DACL: u32 = 4;

const SACL: u32 = 8;

/// Writes the self-relative form ([MS-DTYP] 2.4.6) of the whole descriptor that the bytes hold, with these parts of the
/// one that other bytes hold, into the buffer: 0x1 the owner, 0x2 the group, 0x4 the DACL, 0x8 the SACL, joined, each
/// with the control bits that speak of it; other bits of `parts` are ignored. Refused if either bytes hold none, or out
/// of memory; then, and if the buffer is too small, nothing is written.
#[unsafe(no_mangle)]
pub extern "C" fn hudarin_whole_with_parts(
    alloc: Global,
    bytes: &[u8],
    other: &[u8],
    parts: u32,
    room: &mut [u8],
) -> Written
    ensures { Answers (IsWithParts bytes.now other.now parts) (RefusesEither bytes.now other.now)
        room.old room.new result }
{
    match form_of(alloc, bytes, other, parts) {
        Ok(form) => write(&form, room),
        Err(why) => refused(why),
    }
}

fn form_of(alloc: Global, bytes: &[u8], other: &[u8], parts: u32) -> Result<Vec<u8>, Refusal>
    ensures ok { IfOk result (λ form. IsWithParts bytes.now other.now parts form.items) }
    ensures err { IfErr result (λ why. RefusesEither bytes.now other.now why) }
{
    let descriptor = whole_in(alloc, bytes)?;
    let other = whole_in(alloc, other)?;
    let joined = with_parts(parts, descriptor, other);
    Ok(write_whole(alloc, &joined)?)
}

/// The descriptor with these parts of the other.
fn with_parts(parts: u32, whole: WholeDescriptor, other: WholeDescriptor) -> WholeDescriptor
    ensures { result ≡ with_parts parts whole other }
{
    let bits = bits_of_parts(parts);
    WholeDescriptor {
        resource_manager: whole.resource_manager,
        control: whole.control & !bits | other.control & bits,
        owner: if has(parts, OWNER) {
            other.owner
        } else {
            whole.owner
        },
        group: if has(parts, GROUP) {
            other.group
        } else {
            whole.group
        },
        sacl: chosen(has(parts, SACL), other.sacl, whole.sacl),
        dacl: chosen(has(parts, DACL), other.dacl, whole.dacl),
    }
}

/// The control bits that speak of the parts ([MS-DTYP] 2.4.6).
fn bits_of_parts(parts: u32) -> u16
    ensures { result ≡ bits_of_parts parts }
{
    bits_when(has(parts, OWNER), 0x0001)
        + bits_when(has(parts, GROUP), 0x0002)
        + bits_when(has(parts, DACL), 0x1508)
        + bits_when(has(parts, SACL), 0x2A20)
}

fn has(parts: u32, part: u32) -> bool
    ensures { result ≡ is_set part parts }
{
    parts & part != 0
}

fn chosen(first: bool, one: WholeAcl, other: WholeAcl) -> WholeAcl
    ensures { result ≡ cond first one other }
{
    if first { one } else { other }
}
