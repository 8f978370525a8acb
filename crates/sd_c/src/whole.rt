//! The calls that take whole descriptors, with both lists and entries of every type, out of texts and blobs.

ghost use Rattle.std.specs.Prelude.{◌≡◌, ◌+◌, ◌≤◌, length, IfErr, IfOk, Ok};
ghost use Rattle.sd_text.specs.Alias.{in_domain};
ghost use Rattle.sd_whole.specs.Reading.{whole_read};
ghost use Rattle.sd_c.specs.Whole.{IsWholeAt, IsWholeForm, RefusesBlob, RefusesWhole, RefusesWholeSddl};
ghost use Rattle.sd_c.specs.Whole.{RefusesWholeText, SaysWhole, header_first};
ghost use Rattle.sd_c.specs.Written.{Answers};

use crate::call_answer::{Written, refused, write};
use crate::in_domain::domain_argument;
use crate::refusal::Refusal;
use crate::text::{refusal_of, utf8_of};
use sd_text::{Aliases, Domain};
use sd_whole::{WholeDescriptor, read_whole, write_whole};
use sd_whole_parse::read_whole_sddl;
use sd_wire::{WireError, WireFault};
use std::alloc::{AllocError, Global};

/// The length of a header in bytes ([MS-DTYP] 2.4.6).
const HEADER_BYTES: usize = 20;

/// Writes the one self-relative form ([MS-DTYP] 2.4.6) of the whole descriptor that the SDDL text spells ([MS-DTYP]
/// 2.5.1) into the buffer. With the bytes of a domain's SID the aliases of that domain's accounts and groups are parsed
/// too. Refused if bytes of a domain are no domain's, if the text isn't UTF-8 or has a fault, or out of memory; then,
/// and if the buffer is too small, nothing is written.
#[unsafe(no_mangle)]
pub extern "C" fn hudarin_whole_from_sddl(
    alloc: Global,
    domain: &[u8],
    text: &[u8],
    room: &mut [u8],
) -> Written
    ensures { Answers (IsWholeForm domain.now text.now) (RefusesWholeSddl domain.now text.now)
        room.old room.new result }
{
    match form_of(alloc, domain, text) {
        Ok(bytes) => write(&bytes, room),
        Err(why) => refused(why),
    }
}

/// Writes the one self-relative form ([MS-DTYP] 2.4.6) of the whole descriptor whose header is at a place in a blob,
/// from whose front its offsets count, into the buffer. Refused if no descriptor is there, or out of memory; then, and
/// if the buffer is too small, nothing is written.
#[unsafe(no_mangle)]
pub extern "C" fn hudarin_whole_at(
    alloc: Global,
    blob: &[u8],
    place: u64,
    room: &mut [u8],
) -> Written
    ensures { Answers (IsWholeAt blob.now place) (RefusesBlob blob.now place) room.old room.new result }
{
    match form_at(alloc, blob, place) {
        Ok(bytes) => write(&bytes, room),
        Err(why) => refused(why),
    }
}

fn form_of(alloc: Global, domain: &[u8], text: &[u8]) -> Result<Vec<u8>, Refusal>
    ensures ok { IfOk result (λ form. IsWholeForm domain.now text.now form.items) }
    ensures err { IfErr result (λ why. RefusesWholeSddl domain.now text.now why) }
{
    let domain = domain_argument(domain)?;
    let descriptor = whole_of(alloc, domain, text)?;
    Ok(write_whole(alloc, &descriptor)?)
}

/// The whole descriptor that the text spells, in the domain if one is given.
fn whole_of(alloc: Global, domain: Option<Domain>, text: &[u8]) -> Result<WholeDescriptor, Refusal>
    ensures ok { IfOk result (λ w. SaysWhole (in_domain domain) text.now w) }
    ensures err { IfErr result (λ why. RefusesWholeText (in_domain domain) text.now why) }
{
    match utf8_of(text) {
        Ok(text) => match read_whole_sddl(alloc, Aliases::in_domain(domain), text) {
            Ok(descriptor) => Ok(descriptor),
            Err(e) => Err(refusal_of(e)),
        },
        Err(place) => Err(Refusal::Utf8 { place }),
    }
}

/// The whole descriptor that the bytes hold.
pub(crate) fn whole_in(alloc: Global, bytes: &[u8]) -> Result<WholeDescriptor, Refusal>
    ensures ok { IfOk result (λ w. whole_read bytes.now ≡ Ok w) }
    ensures err { IfErr result (λ why. RefusesWhole bytes.now why) }
{
    match read_whole(alloc, bytes) {
        Ok(descriptor) => Ok(descriptor),
        Err(WireError::Fault(fault)) => Err(Refusal::Wire(fault)),
        Err(WireError::Memory) => Err(Refusal::Memory),
    }
}

fn form_at(alloc: Global, blob: &[u8], place: u64) -> Result<Vec<u8>, Refusal>
    ensures ok { IfOk result (λ form. IsWholeAt blob.now place form.items) }
    ensures err { IfErr result (λ why. RefusesBlob blob.now place why) }
{
    if blob.len() < HEADER_BYTES || place > (blob.len() - HEADER_BYTES) as u64 {
        return Err(Refusal::Wire(WireFault::Short));
    }
    let bytes = header_first(alloc, blob, place as usize)?;
    let descriptor = whole_in(alloc, &bytes)?;
    Ok(write_whole(alloc, &descriptor)?)
}

/// The blob with the header at the place instead of its first bytes.
fn header_first(alloc: Global, blob: &[u8], place: usize) -> Result<Vec<u8>, AllocError>
    requires { place + 20 ≤ length blob.now }
    ensures { IfOk result (λ bytes. bytes.items ≡ header_first blob.now place) }
{
    let mut bytes = Vec::with_capacity(alloc, blob.len())?;
    bytes.extend_from_slice(&blob[place..place + HEADER_BYTES])?;
    bytes.extend_from_slice(&blob[HEADER_BYTES..])?;
    Ok(bytes)
}
