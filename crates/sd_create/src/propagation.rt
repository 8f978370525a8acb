//! The descriptor of an object after that of its container changed.

ghost use Rattle.std.specs.Prelude.{◌≡◌, ◌<◌, ◌+◌, ◌++◌, length, IsErrOf, OnErr, OnOk, Ok};
ghost use Rattle.sd_create.specs.Create.{Gives, acl_with, entries_of};
ghost use Rattle.sd_create.specs.Entry.{new_of};
ghost use Rattle.sd_create.specs.Propagation.{CopiesEntries, acl_after, control_after, descriptor_after, held};
ghost use Rattle.sd_create.specs.Propagation.{inheritance_of, own_entries, renewed, takes};

use crate::acl::{
    contains_inheritable, is_list, is_without, listed, of_parent, push_all_inherited,
};
use crate::copies::with_flags;
use crate::descriptor::{
    DACL_AUTO_INHERITED, DACL_PROTECTED, SACL_AUTO_INHERITED, SACL_PROTECTED, entries_of,
};
use crate::entry::was_inherited;
use crate::fault::{CreateError, CreateFault};
use crate::object::NewObject;
use crate::owner::present;
use sd_inheritance::NodeKind;
use sd_sid::GenericMapping;
use sd_whole::{Guid, WholeAce, WholeAcl, WholeDescriptor, WholeList};
use sd_wire::{bits_when, has_bits};
use std::alloc::{AllocError, Global};

/// An object, and the container that it inherits from.
#[derive(Drop)]
pub struct Inheritance<'a> {
    /// The descriptor of the container.
    pub parent: &'a WholeDescriptor,
    /// The descriptor of the object.
    pub child: &'a WholeDescriptor,
    /// What the object is.
    pub kind: NodeKind,
    /// The object's classes: who inherits an entry with an InheritedObjectType depends on them.
    pub types: &'a [Guid],
    /// What generic rights are for the object.
    pub mapping: &'a GenericMapping,
}

/// The descriptor of an object after that of its container changed: the entries that it inherits ([MS-DTYP] 2.5.3.4)
/// take the place of those that it had inherited, in each list that isn't protected. Or the first of owner, group, SACL
/// and DACL that is refused. Each list is allocated, with the data of its entries.
pub fn inherit(alloc: Global, inheritance: &Inheritance<'_>) -> Result<WholeDescriptor, CreateError>
    ensures exact { Gives (λ d. d) result (descriptor_after (inheritance_of inheritance.now)) }
    ensures memory { IsErrOf result CreateError.Memory → CopiesEntries (inheritance_of inheritance.now) }
{
    let (parent, child) = (inheritance.parent, inheritance.child);
    let object = NewObject {
        kind: inheritance.kind,
        types: inheritance.types,
        owner: present(CreateFault::NoOwner, child.owner)?,
        group: present(CreateFault::NoGroup, child.group)?,
        mapping: inheritance.mapping,
    };
    let is_protected = has_bits(child.control, SACL_PROTECTED);
    let sacl = acl_after(alloc, &object, is_protected, &parent.sacl, &child.sacl)?;
    let is_protected = has_bits(child.control, DACL_PROTECTED);
    let dacl = acl_after(alloc, &object, is_protected, &parent.dacl, &child.dacl)?;
    Ok(WholeDescriptor {
        resource_manager: child.resource_manager,
        control: control_after(inheritance),
        owner: child.owner,
        group: child.group,
        sacl,
        dacl,
    })
}

/// The control bits.
fn control_after(inheritance: &Inheritance<'_>) -> u16
    ensures { result ≡ control_after (inheritance_of inheritance.now) }
{
    let (parent, child) = (inheritance.parent, inheritance.child);
    let is_protected = has_bits(child.control, DACL_PROTECTED);
    let dacl = takes(is_protected, &parent.dacl, &child.dacl);
    let is_protected = has_bits(child.control, SACL_PROTECTED);
    let sacl = takes(is_protected, &parent.sacl, &child.sacl);
    child.control | bits_when(dacl, DACL_AUTO_INHERITED) | bits_when(sacl, SACL_AUTO_INHERITED)
}

/// Whether the parent's entries are in the list.
fn takes(is_protected: bool, parent: &WholeAcl, acl: &WholeAcl) -> bool
    ensures { result ≡ takes is_protected (entries_of parent.now) acl.now }
{
    !is_protected
        && contains_inheritable(entries_of(Some(parent)))
        && (is_without(Some(acl)) || is_list(Some(acl)))
}

/// The SACL or the DACL.
fn acl_after(
    alloc: Global,
    object: &NewObject<'_>,
    is_protected: bool,
    parent: &WholeAcl,
    acl: &WholeAcl,
) -> Result<WholeAcl, CreateError>
    ensures exact { Gives (λ acl. acl) result
        (acl_after (new_of object.now) is_protected (entries_of parent.now) acl.now) }
    ensures memory { IsErrOf result CreateError.Memory
        → 0 < length (entries_of parent.now) + length (entries_of acl.now) }
{
    if is_protected {
        kept(alloc, acl)
    } else {
        renewed(alloc, object, entries_of(Some(parent)), acl)
    }
}

/// A copy of a protected one.
fn kept(alloc: Global, acl: &WholeAcl) -> Result<WholeAcl, CreateError>
    ensures exact { Gives (λ acl. acl) result (Ok acl.now) }
    ensures memory { IsErrOf result CreateError.Memory → 0 < length (entries_of acl.now) }
{
    match acl {
        WholeAcl::Absent => Ok(WholeAcl::Absent),
        WholeAcl::Null => Ok(WholeAcl::Null),
        WholeAcl::List(list) => {
            let mut entries = Vec::new(alloc);
            push_copies(alloc, &mut entries, list.entries())?;
            let list = WholeList::new(list.revision(), entries).unwrap();
            Ok(WholeAcl::List(list))
        }
    }
}

/// What becomes of one that isn't protected.
fn renewed(
    alloc: Global,
    object: &NewObject<'_>,
    parent: &[WholeAce],
    acl: &WholeAcl,
) -> Result<WholeAcl, CreateError>
    ensures exact { Gives (λ acl. acl) result (acl_with (renewed (new_of object.now) parent.now (held acl.now))) }
    ensures memory { IsErrOf result CreateError.Memory → 0 < length parent.now + length (entries_of acl.now) }
{
    match acl {
        WholeAcl::Absent if contains_inheritable(parent) => of_parent(alloc, object, parent),
        WholeAcl::Absent => Ok(WholeAcl::Absent),
        WholeAcl::Null => Ok(WholeAcl::Null),
        WholeAcl::List(list) => {
            let mut entries = Vec::new(alloc);
            push_own_copies(alloc, &mut entries, list.entries())?;
            push_all_inherited(alloc, &mut entries, object, parent)?;
            listed(entries)
        }
    }
}

/// Appends copies of the entries.
fn push_copies(
    alloc: Global,
    list: &mut Vec<WholeAce>,
    entries: &[WholeAce],
) -> Result<(), AllocError>
    ensures list { OnOk result (list.new.items ≡ list.old.items ++ entries.now) }
    ensures memory { OnErr result (0 < length entries.now) }
{
    for entry in entries {
        list.push(with_flags(alloc, entry.flags(), entry)?)?;
    }
    Ok(())
}

/// Appends copies of the object's own entries.
fn push_own_copies(
    alloc: Global,
    list: &mut Vec<WholeAce>,
    entries: &[WholeAce],
) -> Result<(), AllocError>
    ensures list { OnOk result (list.new.items ≡ list.old.items ++ own_entries entries.now) }
    ensures memory { OnErr result (0 < length entries.now) }
{
    for entry in entries {
        let flags = entry.flags();
        if !was_inherited(flags) {
            list.push(with_flags(alloc, flags, entry)?)?;
        }
    }
    Ok(())
}
