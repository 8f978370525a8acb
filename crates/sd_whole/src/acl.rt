//! SACLs and DACLs, at their offsets.

ghost use Rattle.std.specs.Prelude.{◌≡◌, ◌+◌, ◌≤◌, ◌++◌, length, vec_len, vec_capacity, IsErrOf};
ghost use Rattle.sd_sid.specs.SidBytes.{u32_at};
ghost use Rattle.sd_wire.specs.Reading.{Gives};
ghost use Rattle.sd_whole.specs.Memory.{AclTakesMemory};
ghost use Rattle.sd_whole.specs.Reading.{acl_read};
ghost use Rattle.sd_whole.specs.Writing.{acl_part, has_entries};

use crate::list::{WholeList, push_whole_list, read_whole_list};
use sd_acl::DaclOf;
use sd_wire::{WireError, WireFault, leads_outside, read_u32};
use std::alloc::Global;

/// A SACL or a DACL with its entries ([MS-DTYP] 2.4.5).
pub type WholeAcl = DaclOf<WholeList>;

/// The SACL or the DACL whose offset is at a place in the header, if its control bit is set: `Null` if that is 0.
#[tactic(auto, unfolding(crate::specs::Reading::acl_read))]
pub(crate) fn read_acl(
    alloc: Global,
    bytes: &[u8],
    is_present: bool,
    place: usize,
) -> Result<WholeAcl, WireError>
    requires { place + 4 ≤ length bytes.now }
    ensures read { Gives (λ acl. acl) result (acl_read is_present bytes.now (u32_at bytes.now place)) }
    ensures memory { IsErrOf result WireError.Memory → AclTakesMemory is_present bytes.now (u32_at bytes.now place) }
{
    if !is_present {
        return Ok(WholeAcl::Absent);
    }
    let offset = read_u32(bytes, place) as usize;
    if offset == 0 {
        return Ok(WholeAcl::Null);
    }
    if leads_outside(bytes, offset) {
        return Err(WireError::Fault(WireFault::BadOffset));
    }
    let list = read_whole_list(alloc, &bytes[offset..])?;
    Ok(WholeAcl::List(list))
}

/// Whether the SACL or the DACL is a list.
pub(crate) fn has_entries(acl: &WholeAcl) -> bool
    ensures { result ≡ has_entries acl.now }
{
    matches!(acl, WholeAcl::List(_))
}

/// The length of the SACL or the DACL.
#[tactic(auto, using(crate::proofs::Lengths::length_of_list))]
pub(crate) fn acl_len(acl: &WholeAcl) -> u64
    ensures exact { result ≡ length (acl_part acl.now) }
    ensures most { result ≤ 65535 }
{
    match acl {
        WholeAcl::Absent | WholeAcl::Null => 0,
        WholeAcl::List(list) => list.size(),
    }
}

/// Appends the SACL or the DACL, if it is a list. The capacity must suffice.
#[tactic(auto, using(crate::proofs::Lengths::length_of_list))]
pub(crate) fn push_acl(bytes: &mut Vec<u8>, acl: &WholeAcl)
    requires { vec_len bytes.old + length (acl_part acl.now) ≤ vec_capacity bytes.old }
    ensures items { bytes.new.items ≡ bytes.old.items ++ acl_part acl.now }
    ensures capacity { vec_capacity bytes.old ≤ vec_capacity bytes.new }
{
    if let WholeAcl::List(list) = acl {
        push_whole_list(bytes, list);
    }
}
