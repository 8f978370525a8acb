//! SIDs as bytes.

ghost use Rattle.std.specs.Prelude.{All, ◌≡◌, ◌+◌, ◌-◌, ◌*◌, ◌<◌, ◌≤◌, ◌^◌, ◌++◌, length, take, drop, replicate};
ghost use Rattle.std.specs.Prelude.{vec_len, vec_capacity, IsOk, IfOk, OnOk, OnErr};
ghost use Rattle.std.specs.Int.{w32, to_le_bytes};
ghost use Rattle.std.specs.List.{flat_map};
ghost use Rattle.sd_sid.specs.SidBytes.{u32_at, u32s_at, authority_of, sid_reading, bytes_of_sid, SidsComeBack};
ghost use Rattle.sd_sid.specs.SidBytes.{SidsStand};

use crate::lent::{REVISION, SidRef};
use crate::sid::{MAX_SUBS, Sid, SidError};
use std::alloc::{AllocError, Global};

/// The length of what precedes the sub-authorities: the revision, their count, and six bytes of authority.
pub const SID_HEADER_BYTES: usize = 8;

/// Parses the SID at the front of the bytes. Returns it and its length in bytes: 8, and 4 for each sub-authority
/// ([MS-DTYP] 2.4.2.2). `Short` if there are fewer than 8 bytes; then `Revision` if the first isn't 1, `Count` if the
/// second isn't 1 to 15, and `Short` if the sub-authorities pass the end. Allocates nothing.
#[inline(always)]
pub fn read_sid(bytes: &[u8]) -> Result<(Sid, u64), SidError>
    ensures read { result ≡ sid_reading bytes.now }
    ensures size { IfOk result (λ x. (x.1 ≡ 8 + 4 * length x.0.subs) × (x.1 ≤ length bytes.now)) }
{
    match SidRef::read(bytes) {
        Ok((sid, size)) => Ok((sid.copied(), size)),
        Err(fault) => Err(fault),
    }
}

/// The authority: six bytes, big-endian.
#[inline(always)]
pub(crate) fn authority_in(bytes: &[u8]) -> u64
    requires { 8 ≤ length bytes.now }
    ensures authority { result ≡ authority_of bytes.now }
    ensures small { result < 2 ^ 48 }
{
    u64::from_be_bytes([
        0, 0, bytes[2], bytes[3], bytes[4], bytes[5], bytes[6], bytes[7],
    ])
}

/// The sub-authorities, four bytes each, little-endian, padded with zeros.
#[inline(always)]
pub(crate) fn subs_of(bytes: &[u8], count: usize) -> [u32; MAX_SUBS]
    requires few { count ≤ 15 }
    requires room { 8 + 4 * count ≤ length bytes.now }
    ensures subs { take count result ≡ u32s_at bytes.now 8 count }
    ensures padding { drop count result ≡ replicate (15 - count) 0 }
    ensures words { All (λ sub. sub < 2 ^ 32) result }
{
    if count == 5 {
        return five_subs_of(bytes);
    }
    each_sub_of(bytes, count)
}

/// The first `count` sub-authorities of a SID's bytes ([MS-DTYP] 2.4.2.2), read in a loop; zeros follow them.
#[inline(always)]
fn each_sub_of(bytes: &[u8], count: usize) -> [u32; MAX_SUBS]
    requires few { count ≤ 15 }
    requires room { 8 + 4 * count ≤ length bytes.now }
    ensures subs { take count result ≡ u32s_at bytes.now 8 count }
    ensures padding { drop count result ≡ replicate (15 - count) 0 }
    ensures words { All (λ sub. sub < 2 ^ 32) result }
{
    let mut subs = [0; MAX_SUBS];
    for k in 0..count {
        subs[k] = sub_at(bytes, SID_HEADER_BYTES + 4 * k);
    }
    subs
}

/// The five sub-authorities of a domain account's SID ([MS-DTYP] 2.4.2.4); ten zeros follow them. Only for speed: the
/// loop was the larger part of the cost.
#[inline(always)]
fn five_subs_of(bytes: &[u8]) -> [u32; MAX_SUBS]
    requires { 28 ≤ length bytes.now }
    ensures subs { take 5 result ≡ u32s_at bytes.now 8 5 }
    ensures padding { drop 5 result ≡ replicate 10 0 }
    ensures words { All (λ sub. sub < 2 ^ 32) result }
{
    let first = sub_at(bytes, 8);
    let second = sub_at(bytes, 12);
    let third = sub_at(bytes, 16);
    let fourth = sub_at(bytes, 20);
    let fifth = sub_at(bytes, 24);
    [
        first, second, third, fourth, fifth, 0, 0, 0, 0, 0, 0, 0, 0, 0, 0,
    ]
}

/// The sub-authority at an offset.
#[inline(always)]
pub(crate) fn sub_at(bytes: &[u8], at: usize) -> u32
    requires { at + 4 ≤ length bytes.now }
    ensures { result ≡ u32_at bytes.now at }
{
    u32::from_le_bytes([bytes[at], bytes[at + 1], bytes[at + 2], bytes[at + 3]])
}

/// The bytes of a SID ([MS-DTYP] 2.4.2.2).
pub fn sid_bytes(alloc: Global, sid: &Sid) -> Result<Vec<u8>, AllocError>
    ensures { IfOk result (λ bytes. bytes.items ≡ bytes_of_sid sid.now) }
{
    let mut bytes = Vec::with_capacity(alloc, SID_HEADER_BYTES + 4 * sid.subs().len())?;
    push_sid(&mut bytes, sid)?;
    Ok(bytes)
}

/// Appends the bytes of a SID ([MS-DTYP] 2.4.2.2). If memory runs out the bytes stay as they were. Allocates nothing if
/// the capacity suffices.
#[tactic(auto, unfolding(crate::specs::SidBytes::bytes_of_sid))]
pub fn push_sid(bytes: &mut Vec<u8>, sid: &Sid) -> Result<(), AllocError>
    ensures ok { OnOk result (bytes.new.items ≡ bytes.old.items ++ bytes_of_sid sid.now) }
    ensures err { OnErr result (bytes.new.items ≡ bytes.old.items) }
    ensures succeeds { vec_len bytes.old + (8 + 4 * length sid.now.subs) ≤ vec_capacity bytes.old → IsOk result }
    ensures capacity { vec_capacity bytes.old ≤ vec_capacity bytes.new }
{
    let subs = sid.subs();
    bytes.reserve(SID_HEADER_BYTES + 4 * subs.len())?;
    bytes.push(REVISION).unwrap();
    bytes.push(subs.len() as u8).unwrap();
    bytes
        .extend_from_slice(&sid.authority().to_be_bytes()[2..])
        .unwrap();
    push_subs(bytes, subs);
    Ok(())
}

/// Appends sub-authorities, four bytes each, little-endian. The capacity must suffice.
fn push_subs(bytes: &mut Vec<u8>, subs: &[u32])
    requires { vec_len bytes.old + 4 * length subs.now ≤ vec_capacity bytes.old }
    ensures items { bytes.new.items ≡ bytes.old.items ++ flat_map (to_le_bytes w32) subs.now }
    ensures capacity { vec_capacity bytes.old ≤ vec_capacity bytes.new }
{
    for sub in subs {
        bytes.extend_from_slice(&sub.to_le_bytes()).unwrap();
    }
}

/// A law, the round trip: `read_sid` parses what `sid_bytes` writes, with its length, whatever bytes follow.
#[tactic(auto, using(crate::proofs::SidLaws::sids_come_back))]
pub fn sids_come_back()
    ensures { SidsComeBack }
{}

/// A law: a SID that `read_sid` parses is a prefix of the bytes in the form that `sid_bytes` writes.
#[tactic(auto, using(crate::proofs::SidLaws::sids_stand))]
pub fn sids_stand()
    ensures { SidsStand }
{}
