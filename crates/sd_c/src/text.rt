//! The calls that turn a text into bytes or a canonical text.

ghost use Rattle.std.specs.Prelude.{◌≡◌, IfOk, IfErr, string_bytes};
ghost use Rattle.sd_acl.specs.Descriptor.{descriptor_of};
ghost use Rattle.sd_text.specs.Alias.{in_domain};
ghost use Rattle.sd_text.specs.Grammar.{Spells};
ghost use Rattle.sd_text.specs.Sddl.{sddl, sddl_in};
ghost use Rattle.sd_text.specs.Sid.{sid_text, sid_text_in};
ghost use Rattle.sd_c.specs.Written.{Answers, IsCanonOf, IsFormOf, IsNotUtf8, IsSidOf, RefusesText, text_refusal};

use crate::call_answer::{Written, refused, write};
use crate::refusal::Refusal;
use sd_acl::Descriptor;
use sd_sid::{Sid, sid_bytes};
use sd_text::{Aliases, Domain, TextError, print_sddl, read_sddl_in, read_sid_text_in};
use sd_wire::write_descriptor;
use std::alloc::Global;

/// Writes the self-relative form ([MS-DTYP] 2.4.6) of the descriptor that the SDDL text spells ([MS-DTYP] 2.5.1) into
/// the buffer. Refused if the text isn't UTF-8 or has a fault, or out of memory; then, and if the buffer is too small,
/// nothing is written.
#[unsafe(no_mangle)]
pub extern "C" fn hudarin_sddl_to_bytes(alloc: Global, text: &[u8], room: &mut [u8]) -> Written
    ensures { Answers (IsFormOf text.now) (RefusesText sddl text.now) room.old room.new result }
{
    match form_of(alloc, text) {
        Ok(bytes) => write(&bytes, room),
        Err(why) => refused(why),
    }
}

/// Writes the canonical text of the descriptor that the SDDL text spells ([MS-DTYP] 2.5.1) into the buffer. Refused as
/// `hudarin_sddl_to_bytes` is.
#[unsafe(no_mangle)]
pub extern "C" fn hudarin_sddl_canonical(alloc: Global, text: &[u8], room: &mut [u8]) -> Written
    ensures { Answers (IsCanonOf text.now) (RefusesText sddl text.now) room.old room.new result }
{
    match canon_of(alloc, text) {
        Ok(printed) => write(printed.as_bytes(), room),
        Err(why) => refused(why),
    }
}

/// Writes the bytes of the SID that the text spells, in full or by its alias ([MS-DTYP] 2.4.2), into the buffer: at
/// most 68. Refused as `hudarin_sddl_to_bytes` is.
#[unsafe(no_mangle)]
pub extern "C" fn hudarin_sid_text_to_bytes(alloc: Global, text: &[u8], room: &mut [u8]) -> Written
    ensures { Answers (IsSidOf text.now) (RefusesText sid_text text.now) room.old room.new result }
{
    match sid_form_of(alloc, text) {
        Ok(bytes) => write(&bytes, room),
        Err(why) => refused(why),
    }
}

/// The bytes as a text, or the number of valid bytes at their front.
pub(crate) fn utf8_of(bytes: &[u8]) -> Result<&str, u64>
    ensures ok { IfOk result (λ text. text.now ≡ bytes.now) }
    ensures err { IfErr result (λ place. IsNotUtf8 bytes.now place) }
{
    match str::from_utf8(bytes) {
        Ok(text) => Ok(text),
        Err(e) => Err(e.valid_up_to() as u64),
    }
}

/// The reason for an error of a text.
pub(crate) fn refusal_of(e: TextError) -> Refusal
    ensures { result ≡ text_refusal e }
{
    match e {
        TextError::Fault { fault, place } => Refusal::Text { fault, place },
        TextError::Memory => Refusal::Memory,
    }
}

/// The descriptor that the text spells, in the domain if one is given.
pub(crate) fn descriptor_of(
    alloc: Global,
    domain: Option<Domain>,
    text: &[u8],
) -> Result<Descriptor, Refusal>
    ensures ok { IfOk result (λ d. Spells (sddl_in (in_domain domain)) text.now (descriptor_of d)) }
    ensures err { IfErr result (λ why. RefusesText (sddl_in (in_domain domain)) text.now why) }
{
    match utf8_of(text) {
        Ok(text) => match read_sddl_in(alloc, Aliases::in_domain(domain), text) {
            Ok(descriptor) => Ok(descriptor),
            Err(e) => Err(refusal_of(e)),
        },
        Err(place) => Err(Refusal::Utf8 { place }),
    }
}

/// The SID that the text spells, in the domain if one is given.
pub(crate) fn sid_of(domain: Option<Domain>, text: &[u8]) -> Result<Sid, Refusal>
    ensures ok { IfOk result (λ sid. Spells (sid_text_in (in_domain domain)) text.now sid) }
    ensures err { IfErr result (λ why. RefusesText (sid_text_in (in_domain domain)) text.now why) }
{
    match utf8_of(text) {
        Ok(text) => match read_sid_text_in(Aliases::in_domain(domain), text) {
            Ok(sid) => Ok(sid),
            Err(e) => Err(refusal_of(e)),
        },
        Err(place) => Err(Refusal::Utf8 { place }),
    }
}

fn form_of(alloc: Global, text: &[u8]) -> Result<Vec<u8>, Refusal>
    ensures ok { IfOk result (λ bytes. IsFormOf text.now bytes.items) }
    ensures err { IfErr result (λ why. RefusesText sddl text.now why) }
{
    let descriptor = descriptor_of(alloc, None, text)?;
    Ok(write_descriptor(alloc, &descriptor)?)
}

fn canon_of(alloc: Global, text: &[u8]) -> Result<String, Refusal>
    ensures ok { IfOk result (λ printed. IsCanonOf text.now (string_bytes printed)) }
    ensures err { IfErr result (λ why. RefusesText sddl text.now why) }
{
    let descriptor = descriptor_of(alloc, None, text)?;
    Ok(print_sddl(alloc, &descriptor)?)
}

fn sid_form_of(alloc: Global, text: &[u8]) -> Result<Vec<u8>, Refusal>
    ensures ok { IfOk result (λ bytes. IsSidOf text.now bytes.items) }
    ensures err { IfErr result (λ why. RefusesText sid_text text.now why) }
{
    let sid = sid_of(None, text)?;
    Ok(sid_bytes(alloc, &sid)?)
}
