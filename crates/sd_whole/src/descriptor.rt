//! Whole descriptors: header, owner, group, SACL and DACL.

ghost use Rattle.std.specs.Prelude.{◌≡◌, length, IfOk, IsErrOf};
ghost use Rattle.sd_wire.specs.Reading.{Gives};
ghost use Rattle.sd_whole.specs.Memory.{WholeTakesMemory};
ghost use Rattle.sd_whole.specs.Reading.{whole_read};
ghost use Rattle.sd_whole.specs.Whole.{IsWholeDescriptor};
ghost use Rattle.sd_whole.specs.Writing.{whole_wire_of};

use crate::acl::{WholeAcl, acl_len, push_acl, read_acl};
use crate::header::{KEPT_BITS, push_whole_header};
use sd_sid::{Sid, SidRef};
use sd_wire::{
    DACL_PLACE, DACL_PRESENT, GROUP_PLACE, HEADER_BYTES, OWNER_PLACE, SACL_PLACE, SACL_PRESENT,
    WireError, has_bits, push_trustee, read_header, read_trustee, read_u32, trustee_len,
};
use std::alloc::{AllocError, Global};

/// A security descriptor with all that it has in bytes ([MS-DTYP] 2.4.6).
#[derive(Debug, Drop)]
pub struct WholeDescriptor {
    /// Sbz1: the resource manager's byte where the control bit RM is set.
    pub resource_manager: u8,
    /// Control without SR, SP and DP, which follow from what is there.
    pub control: u16,
    pub owner: Option<Sid>,
    pub group: Option<Sid>,
    pub sacl: WholeAcl,
    pub dacl: WholeAcl,
}

/// Parses the descriptor in the bytes with every list and entry, or returns the first test that they fail
/// ([MS-DTYP] 2.4.6): header, owner, group, SACL, DACL, and each list's entries in order. `HasSacl` and `EntryKind`
/// never come. No more entries are allocated than have room, and no more of their bytes than there are.
pub fn read_whole(alloc: Global, bytes: &[u8]) -> Result<WholeDescriptor, WireError>
    ensures exact { Gives (λ d. d) result (whole_read bytes.now) }
    ensures whole { IfOk result IsWholeDescriptor }
    ensures memory { IsErrOf result WireError.Memory → WholeTakesMemory bytes.now }
{
    read_parts(alloc, bytes)
}

/// Parses header, owner, group, SACL and DACL in this order ([MS-DTYP] 2.4.6), up to the first test that fails.
#[tactic(auto, unfolding(crate::specs::Reading::whole_read))]
fn read_parts(alloc: Global, bytes: &[u8]) -> Result<WholeDescriptor, WireError>
    ensures read { Gives (λ d. d) result (whole_read bytes.now) }
    ensures memory { IsErrOf result WireError.Memory → WholeTakesMemory bytes.now }
{
    let control = read_header(bytes)?;
    let owner = read_trustee(bytes, read_u32(bytes, OWNER_PLACE) as usize)?;
    let group = read_trustee(bytes, read_u32(bytes, GROUP_PLACE) as usize)?;
    let sacl = read_acl(alloc, bytes, has_bits(control, SACL_PRESENT), SACL_PLACE)?;
    let dacl = read_acl(alloc, bytes, has_bits(control, DACL_PRESENT), DACL_PLACE)?;
    Ok(WholeDescriptor {
        resource_manager: bytes[1],
        control: control & KEPT_BITS,
        owner: SidRef::copied_from(&owner),
        group: SidRef::copied_from(&group),
        sacl,
        dacl,
    })
}

/// The one written form of a descriptor ([MS-DTYP] 2.4.6): the header, the owner, the group, the SACL and the DACL,
/// without gaps, with each list's revision and every bit of an entry's flags. There is one allocation, of `whole_len`
/// bytes.
#[tactic(auto, unfolding(crate::specs::Writing::whole_wire_of), using(crate::proofs::Lengths::length_of_wire))]
pub fn write_whole(alloc: Global, descriptor: &WholeDescriptor) -> Result<Vec<u8>, AllocError>
    ensures { IfOk result (λ bytes. bytes.items ≡ whole_wire_of descriptor.now) }
{
    let mut bytes = Vec::with_capacity(alloc, whole_len(descriptor) as usize)?;
    push_whole_header(&mut bytes, descriptor);
    push_trustee(&mut bytes, &descriptor.owner);
    push_trustee(&mut bytes, &descriptor.group);
    push_acl(&mut bytes, &descriptor.sacl);
    push_acl(&mut bytes, &descriptor.dacl);
    Ok(bytes)
}

/// The length in bytes of what `write_whole` returns. Allocates nothing.
#[tactic(auto, using(crate::proofs::Lengths::length_of_wire))]
pub fn whole_len(descriptor: &WholeDescriptor) -> u64
    ensures { result ≡ length (whole_wire_of descriptor.now) }
{
    let trustees = trustee_len(&descriptor.owner) + trustee_len(&descriptor.group);
    (HEADER_BYTES + trustees) as u64 + acl_len(&descriptor.sacl) + acl_len(&descriptor.dacl)
}
