//! The descriptor of a new object: CreateSecurityDescriptor of [MS-DTYP] 2.5.3.4.

ghost use Rattle.std.specs.Prelude.{◌≡◌, IsErrOf};
ghost use Rattle.sd_create.specs.Acl.{lent_acl, sources_of};
ghost use Rattle.sd_create.specs.Create.{Gives, TakesMemory, bit_in, control_of, created, creation_of, dacl_in};
ghost use Rattle.sd_create.specs.Create.{dacl_sources};
ghost use Rattle.sd_create.specs.Create.{entries_of, lent_descriptor, new_object, sacl_in, sacl_sources};
ghost use Rattle.sd_create.specs.Entry.{new_of};

use crate::acl::{Sources, acl_of, is_without};
use crate::creation::Creation;
use crate::fault::CreateError;
use crate::flags::AutoInherit;
use crate::object::NewObject;
use crate::owner::{group_in, group_of, owner_in, owner_of};
use bitflags::Flags;
use sd_whole::{WholeAce, WholeAcl, WholeDescriptor};
use sd_wire::{bits_when, has_bits};
use std::alloc::Global;

/// OD: the creator gave no owner ([MS-DTYP] 2.4.6, Control).
const OWNER_DEFAULTED: u16 = 0x0001;

/// GD: the creator gave no group.
const GROUP_DEFAULTED: u16 = 0x0002;

/// DD: the DACL is the token's.
const DACL_DEFAULTED: u16 = 0x0008;

/// DI: the parent's entries were inherited automatically.
pub(crate) const DACL_AUTO_INHERITED: u16 = 0x0400;

/// SI: those of the parent's SACL were.
pub(crate) const SACL_AUTO_INHERITED: u16 = 0x0800;

/// PD: the DACL inherits nothing.
pub(crate) const DACL_PROTECTED: u16 = 0x1000;

/// PS: the SACL inherits nothing.
pub(crate) const SACL_PROTECTED: u16 = 0x2000;

/// The descriptor of a new object ([MS-DTYP] 2.5.3.4, CreateSecurityDescriptor), or the first of owner, group, SACL and
/// DACL that is refused. Each list is allocated, with the data of its entries.
pub fn create(alloc: Global, creation: &Creation<'_>) -> Result<WholeDescriptor, CreateError>
    ensures exact { Gives (λ d. d) result (created (creation_of creation.now)) }
    ensures memory { IsErrOf result CreateError.Memory → TakesMemory (creation_of creation.now) }
{
    let owner = owner_of(creation)?;
    let group = group_of(creation)?;
    let object = NewObject {
        kind: creation.kind,
        types: creation.types,
        owner,
        group,
        mapping: creation.mapping,
    };
    let sacl = acl_of(alloc, &object, &sacl_sources(creation))?;
    let dacl = acl_of(alloc, &object, &dacl_sources(creation))?;
    Ok(WholeDescriptor {
        resource_manager: 0,
        control: control_of(creation),
        owner: Some(owner),
        group: Some(group),
        sacl,
        dacl,
    })
}

/// The control bits.
fn control_of(creation: &Creation<'_>) -> u16
    ensures { result ≡ control_of (creation_of creation.now) }
{
    let dacl = dacl_sources(creation);
    let sacl = sacl_sources(creation);
    bits_when(owner_in(creation.creator).is_none(), OWNER_DEFAULTED)
        | bits_when(group_in(creation.creator).is_none(), GROUP_DEFAULTED)
        | bits_when(dacl.is_defaulted(), DACL_DEFAULTED)
        | bits_when(dacl.is_automatic(), DACL_AUTO_INHERITED)
        | bits_when(sacl.is_automatic(), SACL_AUTO_INHERITED)
        | bits_when(dacl.stays_protected(), DACL_PROTECTED)
        | bits_when(sacl.stays_protected(), SACL_PROTECTED)
}

// ---- what the lists are made of

fn dacl_sources<'a>(creation: &Creation<'a>) -> Sources<'a>
    ensures { sources_of result ≡ dacl_sources (creation_of creation.now) }
{
    let given = dacl_in(creation.creator);
    Sources {
        parent: entries_of(dacl_in(creation.parent)),
        given,
        otherwise: Some(creation.token.dacl),
        is_protected: bit_in(creation.creator, given, DACL_PROTECTED),
        is_automatic: creation.flags.contains(AutoInherit::DACL_AUTO_INHERIT),
        is_default: creation
            .flags
            .contains(AutoInherit::DEFAULT_DESCRIPTOR_FOR_OBJECT),
    }
}

fn sacl_sources<'a>(creation: &Creation<'a>) -> Sources<'a>
    ensures { sources_of result ≡ sacl_sources (creation_of creation.now) }
{
    let given = sacl_in(creation.creator);
    Sources {
        parent: entries_of(sacl_in(creation.parent)),
        given,
        otherwise: None,
        is_protected: bit_in(creation.creator, given, SACL_PROTECTED),
        is_automatic: creation.flags.contains(AutoInherit::SACL_AUTO_INHERIT),
        is_default: creation
            .flags
            .contains(AutoInherit::DEFAULT_DESCRIPTOR_FOR_OBJECT),
    }
}

fn dacl_in(descriptor: Option<&WholeDescriptor>) -> Option<&WholeAcl>
    ensures { lent_acl result ≡ dacl_in (lent_descriptor descriptor.entry) }
{
    match descriptor {
        Some(descriptor) => Some(&descriptor.dacl),
        None => None,
    }
}

fn sacl_in(descriptor: Option<&WholeDescriptor>) -> Option<&WholeAcl>
    ensures { lent_acl result ≡ sacl_in (lent_descriptor descriptor.entry) }
{
    match descriptor {
        Some(descriptor) => Some(&descriptor.sacl),
        None => None,
    }
}

pub(crate) fn entries_of(acl: Option<&WholeAcl>) -> &[WholeAce]
    ensures { result.now ≡ entries_of (lent_acl acl.entry) }
{
    match acl {
        Some(WholeAcl::List(list)) => list.entries(),
        _ => &[],
    }
}

/// Whether a control bit that speaks of a list is set, and there is one.
fn bit_in(descriptor: Option<&WholeDescriptor>, acl: Option<&WholeAcl>, bit: u16) -> bool
    ensures { result ≡ bit_in (lent_descriptor descriptor.entry) (lent_acl acl.entry) bit }
{
    match descriptor {
        Some(descriptor) => has_bits(descriptor.control, bit) && !is_without(acl),
        None => false,
    }
}
