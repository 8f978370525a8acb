//! The call that measures a descriptor in a longer buffer.

ghost use Rattle.std.specs.Prelude.{◌≡◌, ◌+◌, ◌<◌, ◌≤◌, ◌^◌, length, IfOk, IfErr};
ghost use Rattle.sd_sid.specs.SidBytes.{u32_at};
ghost use Rattle.sd_acl.specs.Descriptor.{descriptor_of};
ghost use Rattle.sd_wire.specs.Standing.{Holds};
ghost use Rattle.sd_c.specs.Length.{AnswersLength, FrontIsRead, HasListRoom, IsLengthOf, dacl_end, descriptor_end};
ghost use Rattle.sd_c.specs.Length.{trustee_end};
ghost use Rattle.sd_c.specs.Written.{RefusesBytes};

use crate::call_answer::{Written, length_told, refused};
use crate::refusal::Refusal;
use sd_acl::{Dacl, Descriptor};
use sd_sid::{SID_HEADER_BYTES, Sid};
use sd_wire::{WireError, read_descriptor};
use std::alloc::Global;

/// The places of the offsets of the owner, the group and the DACL ([MS-DTYP] 2.4.6).
const OWNER_PLACE: usize = 4;

const GROUP_PLACE: usize = 8;

const DACL_PLACE: usize = 16;

/// The length of a header in bytes.
const HEADER_BYTES: u64 = 20;

/// The length of the descriptor at the front of the bytes ([MS-DTYP] 2.4.6): up to the end of its last part. Refused if
/// none is there, or out of memory.
#[unsafe(no_mangle)]
pub extern "C" fn hudarin_descriptor_length(alloc: Global, bytes: &[u8]) -> Written
    ensures { AnswersLength bytes.now result }
{
    match length_of(alloc, bytes) {
        Ok(length) => length_told(length),
        Err(why) => refused(why),
    }
}

/// A law: the front of the bytes, as many as `hudarin_descriptor_length` returns or more, is parsed as the same
/// descriptor.
#[tactic(auto, using(crate::proofs::Front::front_is_read))]
pub fn front_is_read()
    ensures { FrontIsRead }
{}

fn length_of(alloc: Global, bytes: &[u8]) -> Result<u64, Refusal>
    ensures ok { IfOk result (λ n. IsLengthOf bytes.now n) }
    ensures err { IfErr result (λ why. RefusesBytes bytes.now why) }
{
    match read_descriptor(alloc, bytes) {
        Ok(descriptor) => Ok(end_of(bytes, &descriptor)),
        Err(WireError::Fault(fault)) => Err(Refusal::Wire(fault)),
        Err(WireError::Memory) => Err(Refusal::Memory),
    }
}

/// The end of the last part of the descriptor that the bytes hold.
fn end_of(bytes: &[u8], descriptor: &Descriptor) -> u64
    requires { Holds bytes.now (descriptor_of descriptor.now) }
    ensures { result ≡ descriptor_end bytes.now (descriptor_of descriptor.now) }
{
    let owner = trustee_end(offset_at(bytes, OWNER_PLACE), &descriptor.owner);
    let group = trustee_end(offset_at(bytes, GROUP_PLACE), &descriptor.group);
    let dacl = dacl_end(
        bytes,
        offset_at(bytes, DACL_PLACE) as usize,
        &descriptor.dacl,
    );
    owner.max(group).max(dacl)
}

fn offset_at(bytes: &[u8], place: usize) -> u64
    requires { place + 4 ≤ length bytes.now }
    ensures offset { result ≡ u32_at bytes.now place }
    ensures small { result < 2 ^ 32 }
{
    u64::from(u32::from_le_bytes([
        bytes[place],
        bytes[place + 1],
        bytes[place + 2],
        bytes[place + 3],
    ]))
}

fn trustee_end(offset: u64, trustee: &Option<Sid>) -> u64
    requires { offset < 2 ^ 32 }
    ensures { result ≡ trustee_end offset trustee.now }
{
    match trustee {
        Some(sid) => offset + (SID_HEADER_BYTES + 4 * sid.subs().len()) as u64,
        None => HEADER_BYTES,
    }
}

fn dacl_end(bytes: &[u8], offset: usize, dacl: &Dacl) -> u64
    requires small { offset < 2 ^ 32 }
    requires room { HasListRoom bytes.now offset dacl.now }
    ensures { result ≡ dacl_end bytes.now offset dacl.now }
{
    match dacl {
        Dacl::List(_) => {
            offset as u64 + u64::from(u16::from_le_bytes([bytes[offset + 2], bytes[offset + 3]]))
        }
        Dacl::Absent | Dacl::Null => HEADER_BYTES,
    }
}
