//! A descriptor's header as it is written: its control bits and its offsets.

ghost use Rattle.std.specs.Prelude.{◌≡◌, ◌+◌, ◌≤◌, ◌++◌, length, vec_len, vec_capacity};
ghost use Rattle.sd_whole.specs.Writing.{whole_control_of, whole_header_of};

use crate::acl::{WholeAcl, acl_len, has_entries};
use crate::descriptor::WholeDescriptor;
use sd_wire::{
    DACL_PRESENT, HEADER_BYTES, SACL_PRESENT, SELF_RELATIVE, bits_when, part_offset, push_fields,
    trustee_len,
};

/// All control bits but SR, SP and DP, which follow from what is there ([MS-DTYP] 2.4.6, Control).
pub(crate) const KEPT_BITS: u16 = !(SELF_RELATIVE | SACL_PRESENT | DACL_PRESENT);

/// The control bits that a descriptor is written with.
fn control_bits(descriptor: &WholeDescriptor) -> u16
    ensures { result ≡ whole_control_of descriptor.now }
{
    descriptor.control & KEPT_BITS
        | SELF_RELATIVE
        | bits_when(!matches!(descriptor.sacl, WholeAcl::Absent), SACL_PRESENT)
        | bits_when(!matches!(descriptor.dacl, WholeAcl::Absent), DACL_PRESENT)
}

/// Appends a descriptor's header. The parts follow it without gaps. The capacity must suffice.
#[tactic(auto, unfolding(crate::specs::Writing::whole_header_of))]
pub(crate) fn push_whole_header(bytes: &mut Vec<u8>, descriptor: &WholeDescriptor)
    requires { vec_len bytes.old + 20 ≤ vec_capacity bytes.old }
    ensures items { bytes.new.items ≡ bytes.old.items ++ whole_header_of descriptor.now }
    ensures capacity { vec_capacity bytes.old ≤ vec_capacity bytes.new }
{
    let group_place = HEADER_BYTES + trustee_len(&descriptor.owner);
    let sacl_place = group_place + trustee_len(&descriptor.group);
    let dacl_place = sacl_place + acl_len(&descriptor.sacl) as usize;
    let owner = part_offset(descriptor.owner.is_some(), HEADER_BYTES);
    let group = part_offset(descriptor.group.is_some(), group_place);
    let sacl = part_offset(has_entries(&descriptor.sacl), sacl_place);
    let dacl = part_offset(has_entries(&descriptor.dacl), dacl_place);
    let control = control_bits(descriptor);
    push_fields(
        bytes,
        descriptor.resource_manager,
        control,
        owner,
        group,
        sacl,
        dacl,
    );
}
