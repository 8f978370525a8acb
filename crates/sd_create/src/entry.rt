//! What becomes of one entry in a new object ([MS-DTYP] 2.5.3.4): of the parent's, and of the object's own.

ghost use Rattle.std.specs.Prelude.{◌≡◌, ◌++◌, OnOk};
ghost use Rattle.std.specs.Str.{bytes_eq};
ghost use Rattle.sd_sid.specs.Mask.{holds};
ghost use Rattle.sd_create.specs.Entry.{given_copies, hands_on, inherited_copies, is_for, is_for_class};
ghost use Rattle.sd_create.specs.Entry.{is_one_of, new_of, own_copies, to_container, to_object};

use crate::copies::{
    audit_flags, concrete, effective_copy, is_split, waiting_copy, whole_copy, with_flags,
};
use crate::object::NewObject;
use bitflags::Flags;
use sd_acl::AceFlags;
use sd_inheritance::NodeKind;
use sd_whole::{Guid, WholeAce, for_children_alone};
use std::alloc::{AllocError, Global};

// ---- flags ([MS-DTYP] 2.4.4.1)

fn objects_inherit(flags: AceFlags) -> bool
    ensures { result ≡ holds flags.0 0 }
{
    flags.contains(AceFlags::OI)
}

fn containers_inherit(flags: AceFlags) -> bool
    ensures { result ≡ holds flags.0 1 }
{
    flags.contains(AceFlags::CI)
}

fn stops_here(flags: AceFlags) -> bool
    ensures { result ≡ holds flags.0 2 }
{
    flags.contains(AceFlags::NP)
}

pub(crate) fn was_inherited(flags: AceFlags) -> bool
    ensures { result ≡ holds flags.0 4 }
{
    flags.contains(AceFlags::ID)
}

// ---- classes

/// Whether the entry is for objects of one of the object's classes ([MS-DTYP] 2.4.4.3, InheritedObjectType).
fn is_for_class(object: &NewObject<'_>, entry: &WholeAce) -> bool
    ensures { result ≡ is_for_class (new_of object.now) entry.now }
{
    match entry {
        WholeAce::Typed(ace) => is_for(object.types, &ace.types.inherited),
        WholeAce::Plain(_) | WholeAce::Opaque(_) => true,
    }
}

fn is_for(types: &[Guid], class: &Option<Guid>) -> bool
    ensures { result ≡ is_for types.now class.now }
{
    match class {
        None => true,
        Some(class) => is_one_of(types, class),
    }
}

fn is_one_of(types: &[Guid], class: &Guid) -> bool
    ensures { result ≡ is_one_of types.now class.now }
{
    types.iter().any(|one| same_guid(one, class))
}

fn same_guid(one: &Guid, other: &Guid) -> bool
    ensures { result ≡ bytes_eq one.now.bytes other.now.bytes }
{
    one.as_slice() == other.as_slice()
}

// ---- what is inherited

/// Appends what an object inherits of an entry.
fn to_object(
    alloc: Global,
    list: &mut Vec<WholeAce>,
    object: &NewObject<'_>,
    entry: &WholeAce,
) -> Result<(), AllocError>
    ensures { OnOk result (list.new.items ≡ list.old.items ++ to_object (new_of object.now) entry.now) }
{
    if objects_inherit(entry.flags()) && is_for_class(object, entry) {
        list.push(effective_copy(alloc, object, entry)?)?;
    }
    Ok(())
}

/// Appends what a container inherits of an entry: where it is for another class, it waits for objects of its own.
fn to_container(
    alloc: Global,
    list: &mut Vec<WholeAce>,
    object: &NewObject<'_>,
    entry: &WholeAce,
) -> Result<(), AllocError>
    ensures { OnOk result (list.new.items ≡ list.old.items ++ to_container (new_of object.now) entry.now) }
{
    let flags = entry.flags();
    if !containers_inherit(flags) || !is_for_class(object, entry) {
        if flags.pass_on() && !stops_here(flags) {
            list.push(waiting_copy(alloc, entry)?)?;
        }
    } else if stops_here(flags) {
        list.push(effective_copy(alloc, object, entry)?)?;
    } else if is_split(entry) {
        list.push(effective_copy(alloc, object, entry)?)?;
        list.push(waiting_copy(alloc, entry)?)?;
    } else {
        list.push(whole_copy(alloc, entry)?)?;
    }
    Ok(())
}

/// Appends what the object inherits of an entry of its parent ([MS-DTYP] 2.5.3.4, ComputeInheritedACLFromParent).
pub(crate) fn push_inherited(
    alloc: Global,
    list: &mut Vec<WholeAce>,
    object: &NewObject<'_>,
    entry: &WholeAce,
) -> Result<(), AllocError>
    ensures { OnOk result (list.new.items ≡ list.old.items ++ inherited_copies (new_of object.now) entry.now) }
{
    match object.kind {
        NodeKind::Object => to_object(alloc, list, object, entry),
        NodeKind::Container => to_container(alloc, list, object, entry),
    }
}

// ---- what is the object's own

/// Whether the object hands on entries with these flags.
fn hands_on(kind: NodeKind, flags: AceFlags) -> bool
    ensures { result ≡ hands_on kind flags.0 }
{
    match kind {
        NodeKind::Object => false,
        NodeKind::Container => flags.pass_on(),
    }
}

/// Appends what an entry of the object's own becomes ([MS-DTYP] 2.5.3.4, ComputeInheritedACLFromCreator and
/// PostProcessACL).
pub(crate) fn push_own(
    alloc: Global,
    list: &mut Vec<WholeAce>,
    object: &NewObject<'_>,
    entry: &WholeAce,
) -> Result<(), AllocError>
    ensures { OnOk result (list.new.items ≡ list.old.items ++ own_copies (new_of object.now) entry.now) }
{
    let flags = entry.flags();
    if for_children_alone(flags) {
        list.push(with_flags(alloc, flags, entry)?)?;
    } else if hands_on(object.kind, flags) && is_split(entry) {
        let kept = flags.intersection(audit_flags());
        list.push(concrete(alloc, object, kept, entry)?)?;
        list.push(with_flags(alloc, flags.union(AceFlags::IO), entry)?)?;
    } else {
        list.push(concrete(alloc, object, flags, entry)?)?;
    }
    Ok(())
}

/// Appends what an entry that the creator gave becomes: nothing, where it was inherited elsewhere ([MS-DTYP] 2.5.3.4,
/// PreProcessACLFromCreator).
pub(crate) fn push_given(
    alloc: Global,
    list: &mut Vec<WholeAce>,
    object: &NewObject<'_>,
    entry: &WholeAce,
) -> Result<(), AllocError>
    ensures { OnOk result (list.new.items ≡ list.old.items ++ given_copies (new_of object.now) entry.now) }
{
    if was_inherited(entry.flags()) {
        return Ok(());
    }
    push_own(alloc, list, object, entry)
}
