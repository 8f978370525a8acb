//! The call that makes the descriptor of a new object.

ghost use Rattle.std.specs.Prelude.{◌≡◌, IsErrOf, Ok};
ghost use Rattle.sd_create.specs.Create.{TakesMemory, created, creation_of, lent_descriptor};
ghost use Rattle.sd_c.specs.Creating.{AnswersCreate, CreateTakesMemory, MakingTakesMemory, creation_by, form_of};
ghost use Rattle.sd_c.specs.Creating.{held_read, kind_of, not_created, of_creation};
ghost use Rattle.sd_c.specs.Request.{Gives};

use crate::call_answer::{CheckAnswer, Written, unwritten, why_not, write};
use crate::creation::{Held, held_in};
use crate::mapping::Mapping;
use crate::stop::{NotRead, Stop};
use bitflags::Flags;
use sd_create::{AutoInherit, CreateError, Creation, CreatorToken, create};
use sd_inheritance::NodeKind;
use sd_whole::{WholeDescriptor, write_whole};
use std::alloc::Global;

/// The answer of `hudarin_create`.
#[repr(C)]
#[derive(Clone, Copy, Debug, PartialEq, Eq)]
pub struct Created {
    pub written: Written,
    /// The number of the invalid argument; 0 where none is.
    pub argument: u32,
}

/// Writes the one self-relative form of a new object's descriptor ([MS-DTYP] 2.5.3.4, CreateSecurityDescriptor) into
/// the buffer, as `create` makes it: of the parent's descriptor and what the creator gave, each of which may be without
/// bytes, as there may be none; of a descriptor whose owner, group and DACL are those that the creator's token has by
/// default; of the SIDs that the token may make the owner, one after the other; of the object's classes, 16 bytes each
/// ([MS-DTYP] 2.3.4.2); and of whether it is a container, if that isn't 0, AutoInheritFlags, whether the token has
/// SeRestorePrivilege, and the mapping. The first argument that is invalid is refused, then the object: its owner, its
/// group, and a list beyond 65,535 bytes. Then, out of memory, and if the buffer is too small, nothing is written.
#[unsafe(no_mangle)]
pub extern "C" fn hudarin_create(
    alloc: Global,
    parent: &[u8],
    creator: &[u8],
    defaults: &[u8],
    owners: &[u8],
    types: &[u8],
    container: u32,
    flags: u32,
    restores: u32,
    mapping: Mapping,
    room: &mut [u8],
) -> Created
    ensures { AnswersCreate (CreateTakesMemory parent.now creator.now defaults.now owners.now types.now
        container flags restores mapping)
        (form_of container flags restores
        (held_read parent.now creator.now defaults.now owners.now types.now mapping))
        room.old room.new result }
{
    match form_in(
        alloc, parent, creator, defaults, owners, types, container, flags, restores, mapping,
    ) {
        Ok(form) => Created {
            written: write(&form, room),
            argument: 0,
        },
        Err(stop) => not_created(why_not(stop)),
    }
}

/// The form of the descriptor, of the arguments.
fn form_in(
    alloc: Global,
    parent: &[u8],
    creator: &[u8],
    defaults: &[u8],
    owners: &[u8],
    types: &[u8],
    container: u32,
    flags: u32,
    restores: u32,
    mapping: Mapping,
) -> Result<Vec<u8>, Stop>
    ensures read { Gives (λ form. form.items) result (form_of container flags restores
        (held_read parent.now creator.now defaults.now owners.now types.now mapping)) }
    ensures memory { IsErrOf result Stop.Memory
        → CreateTakesMemory parent.now creator.now defaults.now owners.now types.now container flags restores mapping }
{
    let held = held_in(alloc, parent, creator, defaults, owners, types, mapping)?;
    form_of(alloc, &held, container, flags, restores)
}

/// The form of the new object's descriptor.
fn form_of(
    alloc: Global,
    held: &Held,
    container: u32,
    flags: u32,
    restores: u32,
) -> Result<Vec<u8>, Stop>
    ensures read { Gives (λ form. form.items) result (form_of container flags restores (Ok held.now)) }
    ensures memory { IsErrOf result Stop.Memory → MakingTakesMemory (creation_by container flags restores held.now) }
{
    let token = CreatorToken {
        owner: held.defaults.owner,
        group: held.defaults.group,
        dacl: &held.defaults.dacl,
        owners: &held.owners,
        restore: restores != 0,
    };
    let creation = Creation {
        parent: lent(&held.parent),
        creator: lent(&held.creator),
        kind: kind_of(container),
        types: &held.types,
        flags: AutoInherit::from_bits_retain(flags),
        token: &token,
        mapping: &held.mapping,
    };
    let descriptor = made(alloc, &creation)?;
    Ok(write_whole(alloc, &descriptor)?)
}

fn made(alloc: Global, creation: &Creation<'_>) -> Result<WholeDescriptor, Stop>
    ensures read { Gives (λ w. w) result (of_creation (created (creation_of creation.now))) }
    ensures memory { IsErrOf result Stop.Memory → TakesMemory (creation_of creation.now) }
{
    match create(alloc, creation) {
        Ok(descriptor) => Ok(descriptor),
        Err(CreateError::Fault(fault)) => Err(Stop::NotRead(NotRead::NotCreated(fault))),
        Err(CreateError::Memory) => Err(Stop::Memory),
    }
}

fn lent(descriptor: &Option<WholeDescriptor>) -> Option<&WholeDescriptor>
    ensures { lent_descriptor result ≡ descriptor.now }
{
    match descriptor {
        Some(descriptor) => Some(descriptor),
        None => None,
    }
}

fn kind_of(container: u32) -> NodeKind
    ensures { result ≡ kind_of container }
{
    if container == 0 {
        NodeKind::Object
    } else {
        NodeKind::Container
    }
}

fn not_created(told: CheckAnswer) -> Created
    ensures { result ≡ not_created told }
{
    Created {
        written: unwritten(told),
        argument: told.argument,
    }
}
