//! What `--object` makes of a descriptor: that of an object and of no container.
ghost use Rattle.std.specs.Prelude.{◌≡◌, ◌||◌, IfOk, map};
ghost use Rattle.std.specs.List.{list_any};
ghost use Rattle.sd_acl.specs.Ace.{acl_size_of};
ghost use Rattle.sd_acl.specs.Descriptor.{descriptor_of};
ghost use Rattle.sd_commands.specs.Object.{is_passed_on, leaves_out, looked_at, object_dacl, object_entry};

use bitflags::Flags;
use sd_acl::{Ace, AceFlags, AceList, Dacl, Descriptor};
use sd_answer::entries_in;
use std::alloc::{AllocError, Global};

/// The descriptor as it is looked at: an object's hands nothing on, so OI and CI of its entries are left out
/// ([MS-DTYP] 2.4.4.1).
pub(crate) fn looked_at(
    alloc: Global,
    is_object: bool,
    descriptor: Descriptor,
) -> Result<Descriptor, AllocError>
    ensures { IfOk result (λ seen. descriptor_of seen ≡ looked_at is_object (descriptor_of descriptor)) }
{
    if !is_object {
        return Ok(descriptor);
    }
    Ok(Descriptor {
        owner: descriptor.owner,
        group: descriptor.group,
        dacl: object_dacl(alloc, &descriptor.dacl)?,
        protected: descriptor.protected,
        auto_req: descriptor.auto_req,
        auto_inherited: descriptor.auto_inherited,
    })
}

/// Whether an entry has OI or CI ([MS-DTYP] 2.4.4.1), so that something is left out.
pub(crate) fn leaves_out(is_object: bool, descriptor: &Descriptor) -> bool
    ensures { result ≡ leaves_out is_object (descriptor_of descriptor.now) }
{
    is_object && are_passed_on(entries_in(&descriptor.dacl))
}

/// Whether something is left out of one of the two.
pub(crate) fn either_leaves_out(is_object: bool, one: &Descriptor, other: &Descriptor) -> bool
    ensures { result
        ≡ (leaves_out is_object (descriptor_of one.now) || leaves_out is_object (descriptor_of other.now)) }
{
    leaves_out(is_object, one) || leaves_out(is_object, other)
}

fn are_passed_on(entries: &[Ace]) -> bool
    ensures { result ≡ list_any is_passed_on entries.now }
{
    entries.iter().any(is_passed_on)
}

fn is_passed_on(entry: &Ace) -> bool
    ensures { result ≡ is_passed_on entry.now }
{
    entry.flags.pass_on()
}

/// The DACL of an object, which takes as many bytes.
fn object_dacl(alloc: Global, dacl: &Dacl) -> Result<Dacl, AllocError>
    ensures { IfOk result (λ own. own ≡ object_dacl dacl.now) }
{
    match dacl {
        Dacl::Absent => Ok(Dacl::Absent),
        Dacl::Null => Ok(Dacl::Null),
        Dacl::List(list) => match AceList::new(object_entries(alloc, list.entries())?) {
            Ok(own) => Ok(Dacl::List(own)),
            Err(_) => unreachable!(),
        },
    }
}

#[tactic(auto, using(crate::proofs::ObjectList::object_size))]
fn object_entries(alloc: Global, entries: &[Ace]) -> Result<Vec<Ace>, AllocError>
    ensures entries { IfOk result (λ own. own.items ≡ map object_entry entries.now) }
    ensures size { IfOk result (λ own. acl_size_of own.items ≡ acl_size_of entries.now) }
{
    entries.iter().map(object_entry).collect(alloc)
}

fn object_entry(entry: &Ace) -> Ace
    ensures { result ≡ object_entry entry.now }
{
    Ace {
        flags: AceFlags::from_bits_retain(entry.flags.bits() & 0xFC),
        ..*entry
    }
}
