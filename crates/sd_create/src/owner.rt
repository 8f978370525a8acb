//! The owner and the group of a new object ([MS-DTYP] 2.5.3.4.1).

ghost use Rattle.std.specs.Prelude.{◌≡◌};
ghost use Rattle.sd_create.specs.Create.{creation_of, group_in, group_of, lent_descriptor, may_own};
ghost use Rattle.sd_create.specs.Create.{owner_in, owner_of, present};
ghost use Rattle.sd_sid.specs.Sid.{same_sid};
ghost use Rattle.std.specs.List.{list_any};

use crate::creation::Creation;
use crate::fault::CreateFault;
use crate::flags::AutoInherit;
use bitflags::Flags;
use sd_sid::Sid;
use sd_whole::WholeDescriptor;

/// The owner: the creator's, else the parent's by DEFAULT_OWNER_FROM_PARENT, else the token's.
pub(crate) fn owner_of(creation: &Creation<'_>) -> Result<Sid, CreateFault>
    ensures { result ≡ owner_of (creation_of creation.now) }
{
    match owner_in(creation.creator) {
        Some(owner) => {
            if may_own(creation, &owner) {
                Ok(owner)
            } else {
                Err(CreateFault::Owner)
            }
        }
        None => {
            if creation
                .flags
                .contains(AutoInherit::DEFAULT_OWNER_FROM_PARENT)
            {
                present(CreateFault::NoOwner, owner_in(creation.parent))
            } else {
                Ok(creation.token.owner)
            }
        }
    }
}

/// The group: the creator's, else the parent's by DEFAULT_GROUP_FROM_PARENT, else the token's.
pub(crate) fn group_of(creation: &Creation<'_>) -> Result<Sid, CreateFault>
    ensures { result ≡ group_of (creation_of creation.now) }
{
    match group_in(creation.creator) {
        Some(group) => Ok(group),
        None => {
            if creation
                .flags
                .contains(AutoInherit::DEFAULT_GROUP_FROM_PARENT)
            {
                present(CreateFault::NoGroup, group_in(creation.parent))
            } else {
                Ok(creation.token.group)
            }
        }
    }
}

/// Whether the token may make the SID the owner, or nobody asks.
fn may_own(creation: &Creation<'_>, sid: &Sid) -> bool
    ensures { result ≡ may_own (creation_of creation.now) sid.now }
{
    creation.flags.contains(AutoInherit::AVOID_OWNER_CHECK)
        || creation.token.restore
        || is_in(creation.token.owners, sid)
}

fn is_in(owners: &[Sid], sid: &Sid) -> bool
    ensures { result ≡ list_any (λ owner. same_sid owner sid.now) owners.now }
{
    owners.iter().any(|owner| owner.is(sid))
}

/// A SID that has to be there.
pub(crate) fn present(fault: CreateFault, sid: Option<Sid>) -> Result<Sid, CreateFault>
    ensures { result ≡ present fault sid }
{
    match sid {
        Some(sid) => Ok(sid),
        None => Err(fault),
    }
}

pub(crate) fn owner_in(descriptor: Option<&WholeDescriptor>) -> Option<Sid>
    ensures { result ≡ owner_in (lent_descriptor descriptor.entry) }
{
    match descriptor {
        Some(descriptor) => descriptor.owner,
        None => None,
    }
}

pub(crate) fn group_in(descriptor: Option<&WholeDescriptor>) -> Option<Sid>
    ensures { result ≡ group_in (lent_descriptor descriptor.entry) }
{
    match descriptor {
        Some(descriptor) => descriptor.group,
        None => None,
    }
}
