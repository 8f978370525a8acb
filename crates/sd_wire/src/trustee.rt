//! SIDs in a descriptor: those of its owner, its group and its entries.

ghost use Rattle.std.specs.Prelude.{◌≡◌, ◌+◌, ◌*◌, ◌^◌, ◌<◌, ◌≤◌, ◌++◌, length, vec_len, vec_capacity, IfOk};
ghost use Rattle.sd_wire.specs.Reading.{sid_read, trustee_read};
ghost use Rattle.sd_wire.specs.Writing.{trustee_part};

use crate::fault::WireFault;
use crate::header::leads_outside;
use sd_sid::{SID_HEADER_BYTES, Sid, SidRef, push_sid};

/// The SID at an offset, which doesn't pass an end.
#[inline(always)]
pub(crate) fn read_sid_at(bytes: &[u8], place: usize, end: usize) -> Result<SidRef<'_>, WireFault>
    requires place { place ≤ end }
    requires end { end ≤ length bytes.now }
    ensures read { result ≡ sid_read bytes.now place end }
    ensures size { IfOk result (λ sid. place + (8 + 4 * length sid.subs) ≤ end) }
{
    match SidRef::read(&bytes[place..end]) {
        Ok((sid, _)) => Ok(sid),
        Err(_) => Err(WireFault::BadSid),
    }
}

/// The owner or the group at its offset, none if that is 0.
#[tactic(auto, unfolding(crate::specs::Reading::trustee_read))]
pub fn read_trustee(bytes: &[u8], offset: usize) -> Result<Option<SidRef<'_>>, WireFault>
    requires { offset < 2 ^ 32 }
    ensures { result ≡ trustee_read bytes.now offset }
{
    if offset == 0 {
        return Ok(None);
    }
    if leads_outside(bytes, offset) {
        return Err(WireFault::BadOffset);
    }
    let sid = read_sid_at(bytes, offset, bytes.len())?;
    Ok(Some(sid))
}

/// The length of the owner or the group.
#[tactic(auto, using(crate::proofs::Lengths::length_of_trustee))]
pub fn trustee_len(trustee: &Option<Sid>) -> usize
    ensures exact { result ≡ length (trustee_part trustee.now) }
    ensures most { result ≤ 68 }
{
    match trustee {
        Some(sid) => SID_HEADER_BYTES + 4 * sid.subs().len(),
        None => 0,
    }
}

/// Appends the owner or the group, if there is one. The capacity must suffice.
#[tactic(auto, using(crate::proofs::Lengths::length_of_trustee))]
pub fn push_trustee(bytes: &mut Vec<u8>, trustee: &Option<Sid>)
    requires { vec_len bytes.old + length (trustee_part trustee.now) ≤ vec_capacity bytes.old }
    ensures items { bytes.new.items ≡ bytes.old.items ++ trustee_part trustee.now }
    ensures capacity { vec_capacity bytes.old ≤ vec_capacity bytes.new }
{
    if let Some(sid) = trustee {
        push_sid(bytes, sid).unwrap();
    }
}
