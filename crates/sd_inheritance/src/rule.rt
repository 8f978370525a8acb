//! What an entry hands on to a child ([MS-DTYP] 2.5.3.4).

ghost use Rattle.std.specs.Prelude.{◌≡◌, ◌++◌, OnOk};
ghost use Rattle.std.specs.List.{flat_map};
ghost use Rattle.sd_sid.specs.Sid.{same_sid};
ghost use Rattle.sd_inheritance.specs.Inheritance.{object_inherit, container_inherit, no_propagate, creator_owner};
ghost use Rattle.sd_inheritance.specs.Inheritance.{creator_group, created_by, effective_copy, waiting_copy, whole_copy};
ghost use Rattle.sd_inheritance.specs.Inheritance.{is_split, to_object, to_container, pass_on};

use crate::kind::{Heir, NodeKind};
use bitflags::Flags;
use sd_acl::{Ace, AceFlags};
use sd_sid::{GenericMapping, Sid};
use std::alloc::AllocError;

// ---- the flags that say how an entry is inherited ([MS-DTYP] 2.4.4.1)

fn objects_inherit(entry: &Ace) -> bool
    ensures { result ≡ object_inherit entry.now }
{
    entry.flags.contains(AceFlags::OI)
}

fn containers_inherit(entry: &Ace) -> bool
    ensures { result ≡ container_inherit entry.now }
{
    entry.flags.contains(AceFlags::CI)
}

fn stops_here(entry: &Ace) -> bool
    ensures { result ≡ no_propagate entry.now }
{
    entry.flags.contains(AceFlags::NP)
}

// ---- the three copies

/// CREATOR OWNER, S-1-3-0 ([MS-DTYP] 2.4.2.4).
pub fn is_creator_owner(sid: &Sid) -> bool
    ensures { result ≡ same_sid sid.now creator_owner }
{
    sid.authority() == 3 && matches!(sid.subs(), [0])
}

/// CREATOR GROUP, S-1-3-1 ([MS-DTYP] 2.4.2.4).
pub fn is_creator_group(sid: &Sid) -> bool
    ensures { result ≡ same_sid sid.now creator_group }
{
    sid.authority() == 3 && matches!(sid.subs(), [1])
}

/// Whom the SID stands for in the child.
fn created_by(heir: &Heir<'_>, sid: Sid) -> Sid
    ensures { result ≡ created_by heir.now.owner.now heir.now.group.now sid }
{
    if is_creator_owner(&sid) {
        *heir.owner
    } else if is_creator_group(&sid) {
        *heir.group
    } else {
        sid
    }
}

/// SA and FA, which every copy keeps.
fn audit_flags() -> AceFlags
    ensures { result.0 ≡ 0xC0 }
{
    AceFlags::SA.union(AceFlags::FA)
}

/// What a copy that is handed on keeps: OI and CI too.
fn lasting_flags() -> AceFlags
    ensures { result.0 ≡ 0xC3 }
{
    AceFlags::OI.union(AceFlags::CI).union(audit_flags())
}

/// The copy that counts for the child alone.
fn effective_copy(mapping: &GenericMapping, heir: &Heir<'_>, entry: &Ace) -> Ace
    ensures { result ≡ effective_copy mapping.now heir.now.owner.now heir.now.group.now entry.now }
{
    Ace {
        kind: entry.kind,
        flags: entry.flags.intersection(audit_flags()).union(AceFlags::ID),
        mask: mapping.map(entry.mask),
        sid: created_by(heir, entry.sid),
    }
}

/// The copy that waits in the child to be handed on.
fn waiting_copy(entry: &Ace) -> Ace
    ensures { result ≡ waiting_copy entry.now }
{
    let waiting = AceFlags::IO.union(AceFlags::ID);
    Ace {
        flags: entry.flags.intersection(lasting_flags()).union(waiting),
        ..*entry
    }
}

/// The copy that both counts and is handed on.
fn whole_copy(entry: &Ace) -> Ace
    ensures { result ≡ whole_copy entry.now }
{
    Ace {
        flags: entry
            .flags
            .intersection(lasting_flags())
            .union(AceFlags::ID),
        ..*entry
    }
}

/// Whether what counts for the child differs from what is handed on.
fn is_split(entry: &Ace) -> bool
    ensures { result ≡ is_split entry.now }
{
    entry.mask.holds(28)
        || entry.mask.holds(29)
        || entry.mask.holds(30)
        || entry.mask.holds(31)
        || is_creator_owner(&entry.sid)
        || is_creator_group(&entry.sid)
}

// ---- what one entry hands on

/// Hands the entry on to a child object.
fn to_object(
    handed: &mut Vec<Ace>,
    mapping: &GenericMapping,
    heir: &Heir<'_>,
    entry: &Ace,
) -> Result<(), AllocError>
    ensures { OnOk result (handed.new.items ≡ handed.old.items
        ++ to_object mapping.now heir.now.owner.now heir.now.group.now entry.now) }
{
    if objects_inherit(entry) {
        handed.push(effective_copy(mapping, heir, entry))?;
    }
    Ok(())
}

/// Hands the entry on to a child container.
fn to_container(
    handed: &mut Vec<Ace>,
    mapping: &GenericMapping,
    heir: &Heir<'_>,
    entry: &Ace,
) -> Result<(), AllocError>
    ensures { OnOk result (handed.new.items ≡ handed.old.items
        ++ to_container mapping.now heir.now.owner.now heir.now.group.now entry.now) }
{
    if !containers_inherit(entry) {
        if objects_inherit(entry) && !stops_here(entry) {
            handed.push(waiting_copy(entry))?;
        }
    } else if stops_here(entry) {
        handed.push(effective_copy(mapping, heir, entry))?;
    } else if is_split(entry) {
        handed.push(effective_copy(mapping, heir, entry))?;
        handed.push(waiting_copy(entry))?;
    } else {
        handed.push(whole_copy(entry))?;
    }
    Ok(())
}

/// Hands the entry on to the child.
fn pass_on(
    handed: &mut Vec<Ace>,
    mapping: &GenericMapping,
    heir: &Heir<'_>,
    entry: &Ace,
) -> Result<(), AllocError>
    ensures { OnOk result (handed.new.items ≡ handed.old.items
        ++ pass_on mapping.now heir.now.kind heir.now.owner.now heir.now.group.now entry.now) }
{
    match heir.kind {
        NodeKind::Object => to_object(handed, mapping, heir, entry),
        NodeKind::Container => to_container(handed, mapping, heir, entry),
    }
}

/// Appends what each entry of the parent's DACL hands on to the child, in order ([MS-DTYP] 2.5.3.4). After an error
/// some are appended.
pub fn hand_on(
    handed: &mut Vec<Ace>,
    mapping: &GenericMapping,
    heir: &Heir<'_>,
    above: &[Ace],
) -> Result<(), AllocError>
    ensures { OnOk result (handed.new.items ≡ handed.old.items ++ flat_map
        (pass_on mapping.now heir.now.kind heir.now.owner.now heir.now.group.now) above.now) }
{
    for entry in above {
        pass_on(handed, mapping, heir, entry)?;
    }
    Ok(())
}
