//! The calls that parse the aliases of a domain's accounts and groups ([MS-DTYP] 2.4.2.4).

ghost use Rattle.std.specs.Prelude.{◌<◌, IfErr, IfOk, length};
ghost use Rattle.sd_text.specs.Sddl.{sddl_in};
ghost use Rattle.sd_text.specs.Sid.{sid_text_in};
ghost use Rattle.sd_c.specs.Edits.{IsSid};
ghost use Rattle.sd_c.specs.InDomain.{IsDomainArgument, IsDomainOf, IsFormOfIn, IsSidOfIn, RefusesDomain, RefusesIn};
ghost use Rattle.sd_c.specs.Written.{Answers};

use crate::call_answer::{Written, refused, write};
use crate::refusal::Refusal;
use crate::text::{descriptor_of, sid_of};
use sd_sid::{Sid, read_sid, sid_bytes};
use sd_text::Domain;
use sd_wire::write_descriptor;
use std::alloc::Global;

/// Writes the self-relative form ([MS-DTYP] 2.4.6) of the descriptor that the SDDL text spells into the buffer, where
/// the aliases of a domain's accounts and groups are those of the domain whose SID is at the front of the bytes.
/// Refused as `hudarin_sddl_to_bytes` is, and if no domain's SID is there; then, and if the buffer is too small,
/// nothing is written.
#[unsafe(no_mangle)]
pub extern "C" fn hudarin_sddl_to_bytes_in(
    alloc: Global,
    domain: &[u8],
    text: &[u8],
    room: &mut [u8],
) -> Written
    ensures { Answers (IsFormOfIn domain.now text.now) (RefusesIn sddl_in domain.now text.now)
        room.old room.new result }
{
    match form_in(alloc, domain, text) {
        Ok(bytes) => write(&bytes, room),
        Err(why) => refused(why),
    }
}

/// Writes the bytes of the SID that the text spells into the buffer, in full or by an alias, those of the domain's
/// accounts and groups too. Refused as `hudarin_sddl_to_bytes_in` is.
#[unsafe(no_mangle)]
pub extern "C" fn hudarin_sid_text_to_bytes_in(
    alloc: Global,
    domain: &[u8],
    text: &[u8],
    room: &mut [u8],
) -> Written
    ensures { Answers (IsSidOfIn domain.now text.now) (RefusesIn sid_text_in domain.now text.now)
        room.old room.new result }
{
    match sid_in(alloc, domain, text) {
        Ok(bytes) => write(&bytes, room),
        Err(why) => refused(why),
    }
}

/// The domain whose SID is at the front of the bytes; what follows it is ignored.
pub(crate) fn domain_of(bytes: &[u8]) -> Result<Domain, Refusal>
    ensures ok { IfOk result (λ domain. IsDomainOf bytes.now domain) }
    ensures err { IfErr result (λ why. RefusesDomain bytes.now why) }
{
    let sid = sid_before(bytes)?;
    match Domain::new(&sid) {
        Some(domain) => Ok(domain),
        None => Err(Refusal::NoDomain),
    }
}

/// The domain whose SID is at the front of the bytes; none without bytes.
pub(crate) fn domain_argument(bytes: &[u8]) -> Result<Option<Domain>, Refusal>
    ensures ok { IfOk result (λ domain. IsDomainArgument bytes.now domain) }
    ensures err { IfErr result (λ why. (0 < length bytes.now) × RefusesDomain bytes.now why) }
{
    if bytes.is_empty() {
        return Ok(None);
    }
    let domain = domain_of(bytes)?;
    Ok(Some(domain))
}

/// The SID at the front of the bytes.
fn sid_before(bytes: &[u8]) -> Result<Sid, Refusal>
    ensures ok { IfOk result (λ sid. IsSid bytes.now sid) }
    ensures err { IfErr result (λ why. RefusesDomain bytes.now why) }
{
    match read_sid(bytes) {
        Ok((sid, _)) => Ok(sid),
        Err(fault) => Err(Refusal::Sid(fault)),
    }
}

fn form_in(alloc: Global, domain: &[u8], text: &[u8]) -> Result<Vec<u8>, Refusal>
    ensures ok { IfOk result (λ form. IsFormOfIn domain.now text.now form.items) }
    ensures err { IfErr result (λ why. RefusesIn sddl_in domain.now text.now why) }
{
    let domain = domain_of(domain)?;
    let descriptor = descriptor_of(alloc, Some(domain), text)?;
    Ok(write_descriptor(alloc, &descriptor)?)
}

fn sid_in(alloc: Global, domain: &[u8], text: &[u8]) -> Result<Vec<u8>, Refusal>
    ensures ok { IfOk result (λ form. IsSidOfIn domain.now text.now form.items) }
    ensures err { IfErr result (λ why. RefusesIn sid_text_in domain.now text.now why) }
{
    let domain = domain_of(domain)?;
    let sid = sid_of(Some(domain), text)?;
    Ok(sid_bytes(alloc, &sid)?)
}
