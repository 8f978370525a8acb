//! Whole descriptors: header, owner, group and DACL.

ghost use Rattle.std.specs.Prelude.{◌≡◌, ◌+◌, ◌≤◌, ◌<◌, ◌^◌, ◌++◌, false, length, vec_len, vec_capacity, IfOk, IsErrOf};
ghost use Rattle.sd_acl.specs.Dacl.{is_absent};
ghost use Rattle.sd_acl.specs.Descriptor.{descriptor_of};
ghost use Rattle.sd_wire.specs.Memory.{HasEntries, TakesMemory};
ghost use Rattle.sd_wire.specs.Reading.{Gives, dacl_read, descriptor_read};
ghost use Rattle.sd_wire.specs.Standing.{Holds};
ghost use Rattle.sd_wire.specs.Writing.{dacl_part, wire_of};

use crate::fault::{WireError, WireFault};
use crate::header::{
    DACL_AUTO_INHERIT_REQUIRED, DACL_AUTO_INHERITED, DACL_PLACE, DACL_PRESENT, DACL_PROTECTED,
    GROUP_PLACE, HEADER_BYTES, OWNER_PLACE, has_bits, leads_outside, push_header, read_control,
};
use crate::list::{push_list, read_list};
use crate::number::read_u32;
use crate::trustee::{push_trustee, read_trustee, trustee_len};
use sd_acl::{Dacl, Descriptor, acl_size};
use sd_sid::SidRef;
use std::alloc::{AllocError, Global};

/// Parses the descriptor in the bytes, or returns the first test that they fail ([MS-DTYP] 2.4.6): header, owner,
/// group, DACL, then the entries in order. There is one allocation, for the entries, once all that precedes them has
/// passed; so `Memory` may come in place of an entry's fault, and of no other.
pub fn read_descriptor(alloc: Global, bytes: &[u8]) -> Result<Descriptor, WireError>
    ensures exact { Gives descriptor_of result (descriptor_read bytes.now) }
    ensures held { IfOk result (λ descriptor. Holds bytes.now (descriptor_of descriptor)) }
    ensures memory { IsErrOf result WireError.Memory → TakesMemory bytes.now }
{
    read_parts(alloc, bytes)
}

/// Parses header, owner, group, DACL and entries in this order ([MS-DTYP] 2.4.6), up to the first test that fails.
#[tactic(auto, unfolding(crate::specs::Reading::descriptor_read))]
fn read_parts(alloc: Global, bytes: &[u8]) -> Result<Descriptor, WireError>
    ensures read { Gives descriptor_of result (descriptor_read bytes.now) }
    ensures memory { IsErrOf result WireError.Memory → TakesMemory bytes.now }
{
    let control = read_control(bytes)?;
    let owner = read_trustee(bytes, read_u32(bytes, OWNER_PLACE) as usize)?;
    let group = read_trustee(bytes, read_u32(bytes, GROUP_PLACE) as usize)?;
    if !has_bits(control, DACL_PRESENT) {
        return Ok(Descriptor {
            owner: SidRef::copied_from(&owner),
            group: SidRef::copied_from(&group),
            dacl: Dacl::Absent,
            protected: false,
            auto_req: false,
            auto_inherited: false,
        });
    }
    let dacl = read_dacl(alloc, bytes, read_u32(bytes, DACL_PLACE) as usize)?;
    Ok(Descriptor {
        owner: SidRef::copied_from(&owner),
        group: SidRef::copied_from(&group),
        dacl,
        protected: has_bits(control, DACL_PROTECTED),
        auto_req: has_bits(control, DACL_AUTO_INHERIT_REQUIRED),
        auto_inherited: has_bits(control, DACL_AUTO_INHERITED),
    })
}

/// The DACL at its offset: `Null` if that is 0.
#[tactic(auto, unfolding(crate::specs::Reading::dacl_read))]
fn read_dacl(alloc: Global, bytes: &[u8], offset: usize) -> Result<Dacl, WireError>
    requires { offset < 2 ^ 32 }
    ensures read { Gives (λ dacl. dacl) result (dacl_read bytes.now offset) }
    ensures memory { IsErrOf result WireError.Memory → (20 ≤ offset) × HasEntries bytes.now offset }
    ensures present { IfOk result (λ dacl. is_absent dacl ≡ false) }
{
    if offset == 0 {
        return Ok(Dacl::Null);
    }
    if leads_outside(bytes, offset) {
        return Err(WireError::Fault(WireFault::BadOffset));
    }
    let list = read_list(alloc, bytes, offset)?;
    Ok(Dacl::List(list))
}

/// The one written form of a descriptor ([MS-DTYP] 2.4.6): the header, the owner, the group and the DACL, without gaps;
/// list revision 2, and no flag bit 0x20. There is one allocation, of `wire_len` bytes.
#[tactic(auto, unfolding(crate::specs::Writing::wire_of), using(crate::proofs::Lengths::length_of_wire))]
pub fn write_descriptor(alloc: Global, descriptor: &Descriptor) -> Result<Vec<u8>, AllocError>
    ensures { IfOk result (λ bytes. bytes.items ≡ wire_of (descriptor_of descriptor.now)) }
{
    let mut bytes = Vec::with_capacity(alloc, wire_len(descriptor) as usize)?;
    push_header(&mut bytes, descriptor);
    push_trustee(&mut bytes, &descriptor.owner);
    push_trustee(&mut bytes, &descriptor.group);
    push_dacl(&mut bytes, &descriptor.dacl);
    Ok(bytes)
}

/// The length in bytes of what `write_descriptor` returns. Allocates nothing.
#[tactic(auto, using(crate::proofs::Lengths::length_of_wire))]
pub fn wire_len(descriptor: &Descriptor) -> u64
    ensures { result ≡ length (wire_of (descriptor_of descriptor.now)) }
{
    let trustees = trustee_len(&descriptor.owner) + trustee_len(&descriptor.group);
    (HEADER_BYTES + trustees) as u64 + dacl_len(&descriptor.dacl)
}

/// The length of the DACL.
#[tactic(auto, using(crate::proofs::Lengths::length_of_list))]
fn dacl_len(dacl: &Dacl) -> u64
    ensures exact { result ≡ length (dacl_part dacl.now) }
    ensures most { result ≤ 65535 }
{
    match dacl {
        Dacl::Absent | Dacl::Null => 0,
        Dacl::List(list) => acl_size(list.entries()),
    }
}

/// Appends the DACL, if it is a list. The capacity must suffice.
#[tactic(auto, using(crate::proofs::Lengths::length_of_list))]
fn push_dacl(bytes: &mut Vec<u8>, dacl: &Dacl)
    requires { vec_len bytes.old + length (dacl_part dacl.now) ≤ vec_capacity bytes.old }
    ensures items { bytes.new.items ≡ bytes.old.items ++ dacl_part dacl.now }
    ensures capacity { vec_capacity bytes.old ≤ vec_capacity bytes.new }
{
    if let Dacl::List(list) = dacl {
        push_list(bytes, list);
    }
}
