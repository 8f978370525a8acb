//! What the call that makes a new object is given.

ghost use Rattle.std.specs.Prelude.{◌≡◌, ◌<◌, length, IsErrOf};
ghost use Rattle.sd_whole.specs.Memory.{WholeTakesMemory};
ghost use Rattle.sd_whole.specs.Reading.{whole_read};
ghost use Rattle.sd_c.specs.Creating.{HeldTakesMemory, classes_read, defaults_in, given_read, held_read, of_bytes};
ghost use Rattle.sd_c.specs.Creating.{owners_read, part_fault};
ghost use Rattle.sd_c.specs.Request.{Gives};

use crate::mapping::Mapping;
use crate::question::types_of;
use crate::request::{mapping_of, restricting_of};
use crate::stop::{NotRead, Stop};
use sd_sid::{GenericMapping, Sid};
use sd_whole::{GUID_BYTES, Guid, WholeAcl, WholeDescriptor, read_whole};
use sd_wire::{WireError, WireFault};
use std::alloc::Global;
use std::marker::Model;

/// Whose descriptor an argument is.
#[derive(Clone, Copy)]
pub(crate) enum CreationPart {
    /// The container's.
    Parent,
    /// What the creator gave.
    Creator,
    /// What the object gets where nothing else says.
    Defaults,
}

/// The owner, the group and the DACL that an object gets from its creator's token where nothing else says.
#[derive(Drop)]
pub(crate) struct Defaults {
    pub(crate) owner: Sid,
    pub(crate) group: Sid,
    pub(crate) dacl: WholeAcl,
}

impl Model for Defaults {
    ghost use Rattle.sd_c.specs.Creating.{DefaultsValue};

    ghost Value = { DefaultsValue };

    ghost view = { λ d. record { owner = d.owner; group = d.group; dacl = d.dacl } };
}

/// What the arguments hold. Contracts see the values.
#[derive(Drop)]
pub(crate) struct Held {
    pub(crate) parent: Option<WholeDescriptor>,
    pub(crate) creator: Option<WholeDescriptor>,
    pub(crate) defaults: Defaults,
    pub(crate) owners: Vec<Sid>,
    pub(crate) types: Vec<Guid>,
    pub(crate) mapping: GenericMapping,
}

impl Model for Held {
    ghost use Rattle.sd_c.specs.Creating.{HeldValue};

    ghost Value = { HeldValue };

    ghost view = { λ h. record {
      parent = h.parent;
      creator = h.creator;
      defaults = h.defaults;
      owners = h.owners.items;
      types = h.types.items;
      mapping = h.mapping;
    } };
}

/// What the arguments hold, or the first that is invalid.
#[tactic(auto, unfolding(crate::specs::Creating::held_read))]
pub(crate) fn held_in(
    alloc: Global,
    parent: &[u8],
    creator: &[u8],
    defaults: &[u8],
    owners: &[u8],
    types: &[u8],
    mapping: Mapping,
) -> Result<Held, Stop>
    ensures read { Gives (λ held. held) result
        (held_read parent.now creator.now defaults.now owners.now types.now mapping) }
    ensures memory { IsErrOf result Stop.Memory
        → HeldTakesMemory parent.now creator.now defaults.now owners.now types.now }
{
    let parent = given_in(alloc, CreationPart::Parent, parent)?;
    let creator = given_in(alloc, CreationPart::Creator, creator)?;
    let defaults = whole_of(alloc, CreationPart::Defaults, defaults)?;
    Ok(Held {
        parent,
        creator,
        defaults: defaults_in(defaults)?,
        owners: owners_in(alloc, owners)?,
        types: classes_in(alloc, types)?,
        mapping: mapping_of(mapping)?,
    })
}

/// The descriptor that the bytes hold; none without bytes.
fn given_in(
    alloc: Global,
    part: CreationPart,
    bytes: &[u8],
) -> Result<Option<WholeDescriptor>, Stop>
    ensures read { Gives (λ given. given) result (given_read part bytes.now) }
    ensures memory { IsErrOf result Stop.Memory → WholeTakesMemory bytes.now }
{
    if bytes.is_empty() {
        return Ok(None);
    }
    Ok(Some(whole_of(alloc, part, bytes)?))
}

fn whole_of(alloc: Global, part: CreationPart, bytes: &[u8]) -> Result<WholeDescriptor, Stop>
    ensures read { Gives (λ w. w) result (of_bytes part (whole_read bytes.now)) }
    ensures memory { IsErrOf result Stop.Memory → WholeTakesMemory bytes.now }
{
    match read_whole(alloc, bytes) {
        Ok(descriptor) => Ok(descriptor),
        Err(WireError::Fault(fault)) => Err(Stop::NotRead(part_fault(part, fault))),
        Err(WireError::Memory) => Err(Stop::Memory),
    }
}

fn part_fault(part: CreationPart, fault: WireFault) -> NotRead
    ensures { result ≡ part_fault part fault }
{
    match part {
        CreationPart::Parent => NotRead::Parent(fault),
        CreationPart::Creator => NotRead::Creator(fault),
        CreationPart::Defaults => NotRead::Defaults(fault),
    }
}

fn defaults_in(descriptor: WholeDescriptor) -> Result<Defaults, NotRead>
    ensures { result ≡ defaults_in descriptor }
{
    let WholeDescriptor {
        owner,
        group,
        dacl,
        ..
    } = descriptor;
    match (owner, group) {
        (Some(owner), Some(group)) => Ok(Defaults { owner, group, dacl }),
        _ => Err(NotRead::NoDefault),
    }
}

/// The SIDs to the end of the bytes.
fn owners_in(alloc: Global, bytes: &[u8]) -> Result<Vec<Sid>, Stop>
    ensures read { Gives (λ sids. sids.items) result (owners_read bytes.now) }
    ensures memory { IsErrOf result Stop.Memory → 0 < length bytes.now }
{
    match restricting_of(alloc, bytes) {
        Err(Stop::NotRead(NotRead::Restricting { fault, at })) => {
            Err(Stop::NotRead(NotRead::Owner { fault, at }))
        }
        read => read,
    }
}

/// The classes that the bytes are.
fn classes_in(alloc: Global, bytes: &[u8]) -> Result<Vec<Guid>, Stop>
    ensures read { Gives (λ types. types.items) result (classes_read bytes.now) }
    ensures memory { IsErrOf result Stop.Memory → 0 < length bytes.now }
{
    let (parts, rest) = bytes.as_chunks::<GUID_BYTES>();
    if !rest.is_empty() {
        return Err(Stop::NotRead(NotRead::Types));
    }
    Ok(types_of(alloc, parts)?)
}
