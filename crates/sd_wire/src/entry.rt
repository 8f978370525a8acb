//! Entries of a list: header, mask and SID.

ghost use Rattle.std.specs.Prelude.{◌≡◌, ◌+◌, ◌≤◌, ◌++◌, length, vec_len, vec_capacity, IfOk, IsErrOf};
ghost use Rattle.sd_acl.specs.Ace.{ace_size};
ghost use Rattle.sd_wire.specs.Reading.{Gives, entry_read, front_read, kind_read};
ghost use Rattle.sd_wire.specs.Writing.{entry_bytes};

use crate::entries::ListEntry;
use crate::fault::{WireError, WireFault};
use crate::number::{read_u16, read_u32};
use crate::trustee::read_sid_at;
use bitflags::Flags;
use sd_acl::{Ace, AceFlags, AceKind, AceRef};
use sd_sid::{Mask, SID_HEADER_BYTES, push_sid};
use std::alloc::Global;

/// AceType of an allow ([MS-DTYP] 2.4.4.1, ACCESS_ALLOWED_ACE_TYPE).
const ALLOW: u8 = 0x00;

/// AceType of a deny ([MS-DTYP] 2.4.4.1, ACCESS_DENIED_ACE_TYPE).
const DENY: u8 = 0x01;

/// The length of an entry's header: type, flags, AceSize ([MS-DTYP] 2.4.4.1).
const HEADER_BYTES: usize = 4;

/// The length of what precedes an entry's SID: the header and the mask ([MS-DTYP] 2.4.4.2).
const SID_PLACE: usize = 8;

/// The length of the shortest entry.
pub(crate) const MIN_ENTRY_BYTES: usize = SID_PLACE + SID_HEADER_BYTES;

/// Parses the entry at an offset, in a list that ends at `end`. Returns it and its AceSize, or the first test that it
/// fails ([MS-DTYP] 2.4.4). Flags without a name are dropped. Allocates nothing.
// Inlined into its loop, an entry is built in place: a call returns it through memory, which nearly doubles the cost.
#[inline(always)]
#[tactic(auto, unfolding(crate::specs::Reading::entry_read))]
pub fn read_entry(bytes: &[u8], place: usize, end: usize) -> Result<(AceRef<'_>, usize), WireFault>
    requires place { place ≤ end }
    requires end { end ≤ length bytes.now }
    ensures read { result ≡ entry_read bytes.now place end }
    ensures size { IfOk result (λ x. (ace_size x.0 ≤ x.1) × (place + x.1 ≤ end)) }
{
    if end - place < HEADER_BYTES {
        return Err(WireFault::EntrySize);
    }
    let size = read_u16(bytes, place + 2) as usize;
    if size < HEADER_BYTES || !size.is_multiple_of(4) || end - place < size {
        return Err(WireFault::EntrySize);
    }
    let kind = read_kind(bytes[place])?;
    if size < MIN_ENTRY_BYTES {
        return Err(WireFault::EntrySize);
    }
    let flags = AceFlags::from_bits_retain(bytes[place + 1] & AceFlags::NAMED_BITS);
    let mask = Mask(read_u32(bytes, place + HEADER_BYTES));
    let sid = read_sid_at(bytes, place + SID_PLACE, place + size)?;
    Ok((AceRef::new(kind, flags, mask, sid), size))
}

impl ListEntry for Ace {
    ghost reading = { front_read };

    ghost taken = { ace_size };

    ghost least = { 16 };

    /// Allocates nothing, so the error is a fault ([MS-DTYP] 2.4.4).
    #[inline(always)]
    fn read(_alloc: Global, bytes: &[u8]) -> Result<(Ace, usize), WireError>
        ensures read { Gives (λ x. x) result (front_read bytes.now) }
        ensures size { IfOk result (λ x. (16 ≤ ace_size x.0) × (ace_size x.0 ≤ x.1) × (x.1 ≤ length bytes.now)) }
        ensures memory { ¬ IsErrOf result WireError.Memory }
    {
        let (entry, size) = read_entry(bytes, 0, bytes.len())?;
        Ok((entry.copied(), size))
    }
}

/// The kind of an entry's type: an allow or a deny.
fn read_kind(byte: u8) -> Result<AceKind, WireFault>
    ensures { result ≡ kind_read byte }
{
    match byte {
        ALLOW => Ok(AceKind::Allow),
        DENY => Ok(AceKind::Deny),
        _ => Err(WireFault::EntryKind),
    }
}

/// Appends an entry with its named flags. The capacity must suffice.
#[tactic(auto, unfolding(crate::specs::Writing::entry_bytes))]
pub(crate) fn push_entry(bytes: &mut Vec<u8>, entry: &Ace)
    requires { vec_len bytes.old + ace_size entry.now ≤ vec_capacity bytes.old }
    ensures items { bytes.new.items ≡ bytes.old.items ++ entry_bytes entry.now }
    ensures capacity { vec_capacity bytes.old ≤ vec_capacity bytes.new }
{
    let kind = match entry.kind {
        AceKind::Allow => ALLOW,
        AceKind::Deny => DENY,
    };
    let flags = entry.flags.bits() & AceFlags::NAMED_BITS;
    let size = entry.size() as u16;
    let mask = entry.mask.bits();
    bytes.push(kind).unwrap();
    bytes.push(flags).unwrap();
    bytes.extend_from_slice(&size.to_le_bytes()).unwrap();
    bytes.extend_from_slice(&mask.to_le_bytes()).unwrap();
    push_sid(bytes, &entry.sid).unwrap();
}
