//! The calls that turn bytes into a text or a number.

ghost use Rattle.std.specs.Prelude.{◌≡◌, IfOk, IfErr, string_bytes};
ghost use Rattle.sd_c.specs.Written.{Answers, IsFullSidTextOf, IsSidTextOf, IsTextOf, RefusesBytes, RefusesSid};

use crate::call_answer::{Written, refused, write};
use crate::refusal::Refusal;
use sd_sid::read_sid;
use sd_text::{print_full_sid, print_sddl, print_sid};
use sd_wire::{WireError, read_descriptor};
use std::alloc::Global;

/// Writes the canonical text ([MS-DTYP] 2.5.1) of the descriptor that the bytes hold ([MS-DTYP] 2.4.6) into the buffer.
/// Refused if they hold none, or out of memory; then, and if the buffer is too small, nothing is written.
#[unsafe(no_mangle)]
pub extern "C" fn hudarin_bytes_to_sddl(alloc: Global, bytes: &[u8], room: &mut [u8]) -> Written
    ensures { Answers (IsTextOf bytes.now) (RefusesBytes bytes.now) room.old room.new result }
{
    match sddl_of(alloc, bytes) {
        Ok(printed) => write(printed.as_bytes(), room),
        Err(why) => refused(why),
    }
}

/// Writes the canonical text of the SID at the front of the bytes ([MS-DTYP] 2.4.2), its alias or in full, into the
/// buffer. Refused as `hudarin_bytes_to_sddl` is. Bytes after the SID are ignored.
#[unsafe(no_mangle)]
pub extern "C" fn hudarin_sid_bytes_to_text(alloc: Global, bytes: &[u8], room: &mut [u8]) -> Written
    ensures { Answers (IsSidTextOf bytes.now) (RefusesSid bytes.now) room.old room.new result }
{
    match sid_text_of(alloc, bytes) {
        Ok(printed) => write(printed.as_bytes(), room),
        Err(why) => refused(why),
    }
}

/// Writes the text of the SID at the front of the bytes in full, though it may have an alias ([MS-DTYP] 2.4.2.1), into
/// the buffer. Refused as `hudarin_sid_bytes_to_text` is.
#[unsafe(no_mangle)]
pub extern "C" fn hudarin_sid_bytes_to_full_text(
    alloc: Global,
    bytes: &[u8],
    room: &mut [u8],
) -> Written
    ensures { Answers (IsFullSidTextOf bytes.now) (RefusesSid bytes.now) room.old room.new result }
{
    match full_sid_text_of(alloc, bytes) {
        Ok(printed) => write(printed.as_bytes(), room),
        Err(why) => refused(why),
    }
}

fn sddl_of(alloc: Global, bytes: &[u8]) -> Result<String, Refusal>
    ensures ok { IfOk result (λ printed. IsTextOf bytes.now (string_bytes printed)) }
    ensures err { IfErr result (λ why. RefusesBytes bytes.now why) }
{
    match read_descriptor(alloc, bytes) {
        Ok(descriptor) => Ok(print_sddl(alloc, &descriptor)?),
        Err(WireError::Fault(fault)) => Err(Refusal::Wire(fault)),
        Err(WireError::Memory) => Err(Refusal::Memory),
    }
}

fn sid_text_of(alloc: Global, bytes: &[u8]) -> Result<String, Refusal>
    ensures ok { IfOk result (λ printed. IsSidTextOf bytes.now (string_bytes printed)) }
    ensures err { IfErr result (λ why. RefusesSid bytes.now why) }
{
    match read_sid(bytes) {
        Ok((sid, _)) => Ok(print_sid(alloc, &sid)?),
        Err(fault) => Err(Refusal::Sid(fault)),
    }
}

fn full_sid_text_of(alloc: Global, bytes: &[u8]) -> Result<String, Refusal>
    ensures ok { IfOk result (λ printed. IsFullSidTextOf bytes.now (string_bytes printed)) }
    ensures err { IfErr result (λ why. RefusesSid bytes.now why) }
{
    match read_sid(bytes) {
        Ok((sid, _)) => Ok(print_full_sid(alloc, &sid)?),
        Err(fault) => Err(Refusal::Sid(fault)),
    }
}
