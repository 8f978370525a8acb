//! A descriptor's header: its control bits and its offsets.

ghost use Rattle.std.specs.Prelude.{◌≡◌, ◌+◌, ◌≤◌, ◌<◌, ◌^◌, ◌++◌, cond, length, OnOk, vec_len, vec_capacity};
ghost use Rattle.sd_acl.specs.Descriptor.{descriptor_of};
ghost use Rattle.sd_wire.specs.Reading.{control_read, header_read, is_outside, is_set};
ghost use Rattle.sd_wire.specs.Writing.{control_of, header_bytes, header_of, is_list, offset_bytes, offset_of};

use crate::fault::WireFault;
use crate::number::{read_u16, read_u32};
use crate::trustee::trustee_len;
use sd_acl::{Dacl, Descriptor};
use sd_sid::SID_HEADER_BYTES;

/// The length of a header ([MS-DTYP] 2.4.6), into which no offset may point.
pub const HEADER_BYTES: usize = 20;

/// The length of the shortest part: a SID's header, which is as long as a list's.
const MIN_PART_BYTES: usize = SID_HEADER_BYTES;

/// The only revision of a descriptor ([MS-DTYP] 2.4.6, Revision).
pub const REVISION: u8 = 1;

/// The offset of the control bits in the header ([MS-DTYP] 2.4.6, Control).
pub const CONTROL_PLACE: usize = 2;

/// The offset of OffsetOwner in the header.
pub const OWNER_PLACE: usize = 4;

/// The offset of OffsetGroup in the header.
pub const GROUP_PLACE: usize = 8;

/// The offset of OffsetSacl in the header.
pub const SACL_PLACE: usize = 12;

/// The offset of OffsetDacl in the header.
pub const DACL_PLACE: usize = 16;

/// Control bit DP: there is a DACL ([MS-DTYP] 2.4.6, Control, as the bits below).
pub const DACL_PRESENT: u16 = 0x0004;

/// Control bit SP: there is a SACL. It is never written.
pub const SACL_PRESENT: u16 = 0x0010;

/// Control bit DC.
pub(crate) const DACL_AUTO_INHERIT_REQUIRED: u16 = 0x0100;

/// Control bit DI.
pub(crate) const DACL_AUTO_INHERITED: u16 = 0x0400;

/// Control bit PD.
pub(crate) const DACL_PROTECTED: u16 = 0x1000;

/// Control bit SR.
pub const SELF_RELATIVE: u16 = 0x8000;

/// OffsetSacl of what is written.
const NO_SACL: u32 = 0;

/// Whether any of these bits is set.
pub fn has_bits(control: u16, bits: u16) -> bool
    ensures { result ≡ is_set bits control }
{
    control & bits != 0
}

/// The control bits of a self-relative descriptor's header, or the first test that it fails ([MS-DTYP] 2.4.6).
#[tactic(auto, unfolding(crate::specs::Reading::header_read))]
pub fn read_header(bytes: &[u8]) -> Result<u16, WireFault>
    ensures read { result ≡ header_read bytes.now }
    ensures size { OnOk result (20 ≤ length bytes.now) }
{
    if bytes.len() < HEADER_BYTES {
        return Err(WireFault::Short);
    }
    if bytes[0] != REVISION {
        return Err(WireFault::Revision);
    }
    let control = read_u16(bytes, CONTROL_PLACE);
    if !has_bits(control, SELF_RELATIVE) {
        return Err(WireFault::NotSelfRelative);
    }
    Ok(control)
}

/// The control bits, if the header passes its tests and there is no SACL.
#[tactic(auto, unfolding(crate::specs::Reading::control_read))]
pub(crate) fn read_control(bytes: &[u8]) -> Result<u16, WireFault>
    ensures read { result ≡ control_read bytes.now }
    ensures size { OnOk result (20 ≤ length bytes.now) }
{
    let control = read_header(bytes)?;
    if has_bits(control, SACL_PRESENT) && read_u32(bytes, SACL_PLACE) != 0 {
        return Err(WireFault::HasSacl);
    }
    Ok(control)
}

/// Whether an offset points into the header, or to fewer than 8 bytes. It is below 2^32, so the sum doesn't wrap.
pub fn leads_outside(bytes: &[u8], offset: usize) -> bool
    requires { offset < 2 ^ 32 }
    ensures { result ≡ is_outside bytes.now offset }
{
    offset < HEADER_BYTES || bytes.len() < offset + MIN_PART_BYTES
}

/// The control bits that a descriptor is written with.
fn control_bits(descriptor: &Descriptor) -> u16
    ensures { result ≡ control_of (descriptor_of descriptor.now) }
{
    SELF_RELATIVE
        | bits_when(!matches!(descriptor.dacl, Dacl::Absent), DACL_PRESENT)
        | bits_when(descriptor.auto_req, DACL_AUTO_INHERIT_REQUIRED)
        | bits_when(descriptor.auto_inherited, DACL_AUTO_INHERITED)
        | bits_when(descriptor.protected, DACL_PROTECTED)
}

/// The bits if the test holds, else none.
pub fn bits_when(test: bool, bits: u16) -> u16
    ensures { result ≡ cond test bits 0 }
{
    if test { bits } else { 0 }
}

/// Whether the DACL is a list.
fn has_list(dacl: &Dacl) -> bool
    ensures { result ≡ is_list dacl.now }
{
    matches!(dacl, Dacl::List(_))
}

/// The offset of a part, 0 if there is none.
pub fn part_offset(is_there: bool, place: usize) -> u32
    requires { place < 2 ^ 32 }
    ensures { result ≡ offset_of is_there place }
{
    if is_there { place as u32 } else { 0 }
}

/// Appends a descriptor's header. The parts follow it without gaps. The capacity must suffice.
#[tactic(auto, unfolding(crate::specs::Writing::header_of))]
pub(crate) fn push_header(bytes: &mut Vec<u8>, descriptor: &Descriptor)
    requires { vec_len bytes.old + 20 ≤ vec_capacity bytes.old }
    ensures items { bytes.new.items ≡ bytes.old.items ++ header_of (descriptor_of descriptor.now) }
    ensures capacity { vec_capacity bytes.old ≤ vec_capacity bytes.new }
{
    let group_place = HEADER_BYTES + trustee_len(&descriptor.owner);
    let dacl_place = group_place + trustee_len(&descriptor.group);
    let owner = part_offset(descriptor.owner.is_some(), HEADER_BYTES);
    let group = part_offset(descriptor.group.is_some(), group_place);
    let dacl = part_offset(has_list(&descriptor.dacl), dacl_place);
    push_fields(
        bytes,
        0,
        control_bits(descriptor),
        owner,
        group,
        NO_SACL,
        dacl,
    );
}

/// Appends the fields of a header, in their order ([MS-DTYP] 2.4.6): the offsets are those of the owner, the group, the
/// SACL, the DACL. The capacity must suffice.
#[tactic(auto, unfolding(crate::specs::Writing::header_bytes))]
pub fn push_fields(
    bytes: &mut Vec<u8>,
    resource_manager: u8,
    control: u16,
    owner: u32,
    group: u32,
    sacl: u32,
    dacl: u32,
)
    requires { vec_len bytes.old + 20 ≤ vec_capacity bytes.old }
    ensures items { bytes.new.items ≡ bytes.old.items
        ++ header_bytes resource_manager control owner group sacl dacl }
    ensures capacity { vec_capacity bytes.old ≤ vec_capacity bytes.new }
{
    bytes.push(REVISION).unwrap();
    bytes.push(resource_manager).unwrap();
    bytes.extend_from_slice(&control.to_le_bytes()).unwrap();
    push_offsets(bytes, owner, group, sacl, dacl);
}

/// Appends the offsets of the owner, the group, the SACL and the DACL.
fn push_offsets(bytes: &mut Vec<u8>, owner: u32, group: u32, sacl: u32, dacl: u32)
    requires { vec_len bytes.old + 16 ≤ vec_capacity bytes.old }
    ensures items { bytes.new.items ≡ bytes.old.items ++ offset_bytes owner group sacl dacl }
    ensures capacity { vec_capacity bytes.old ≤ vec_capacity bytes.new }
{
    bytes.extend_from_slice(&owner.to_le_bytes()).unwrap();
    bytes.extend_from_slice(&group.to_le_bytes()).unwrap();
    bytes.extend_from_slice(&sacl.to_le_bytes()).unwrap();
    bytes.extend_from_slice(&dacl.to_le_bytes()).unwrap();
}
