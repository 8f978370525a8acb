//! Copies of entries of every type, with other flags or made concrete.

ghost use Rattle.std.specs.Prelude.{◌≡◌, IfOk};
ghost use Rattle.sd_inheritance.specs.Inheritance.{created_by};
ghost use Rattle.sd_create.specs.Entry.{concrete, effective_copy, is_open, is_split, new_of, waiting_copy, whole_copy};
ghost use Rattle.sd_create.specs.Entry.{with_flags};
ghost use Rattle.sd_whole.specs.declared.ace.WholeAce.TheVariants.{Typed, Opaque};

use crate::object::NewObject;
use bitflags::Flags;
use sd_acl::{Ace, AceFlags};
use sd_inheritance::{is_creator_group, is_creator_owner};
use sd_sid::{Mask, Sid};
use sd_whole::{AceData, OpaqueAce, TypedAce, WholeAce};
use std::alloc::{AllocError, Global};

/// SA and FA, which every copy keeps.
pub(crate) fn audit_flags() -> AceFlags
    ensures { result.0 ≡ 0xC0 }
{
    AceFlags::SA.union(AceFlags::FA)
}

/// What a copy that is handed on keeps: OI and CI too.
fn lasting_flags() -> AceFlags
    ensures { result.0 ≡ 0xC3 }
{
    AceFlags::OI.union(AceFlags::CI).union(audit_flags())
}

/// A copy of an entry with a layout, with these flags, this mask and this SID.
fn typed(
    alloc: Global,
    flags: AceFlags,
    mask: Mask,
    sid: Sid,
    ace: &TypedAce,
) -> Result<WholeAce, AllocError>
    ensures { IfOk result (λ e. e ≡ Typed (record ace.now { flags = flags; mask = mask; sid = sid })) }
{
    let trailing = AceData::copied(alloc, ace.trailing.as_slice())?;
    Ok(WholeAce::Typed(TypedAce {
        kind: ace.kind,
        flags,
        mask,
        types: ace.types,
        sid,
        trailing,
    }))
}

/// A copy of an entry without a layout, with these flags.
fn opaque(alloc: Global, flags: AceFlags, ace: &OpaqueAce) -> Result<WholeAce, AllocError>
    ensures { IfOk result (λ e. e ≡ Opaque (record ace.now { flags = flags })) }
{
    let body = AceData::copied(alloc, ace.body.as_slice())?;
    Ok(WholeAce::Opaque(OpaqueAce {
        kind: ace.kind,
        flags,
        body,
    }))
}

/// A copy with these flags, and all else as it is.
pub(crate) fn with_flags(
    alloc: Global,
    flags: AceFlags,
    entry: &WholeAce,
) -> Result<WholeAce, AllocError>
    ensures { IfOk result (λ e. e ≡ with_flags flags.0 entry.now) }
{
    match entry {
        WholeAce::Plain(ace) => Ok(WholeAce::Plain(Ace { flags, ..*ace })),
        WholeAce::Typed(ace) => typed(alloc, flags, ace.mask, ace.sid, ace),
        WholeAce::Opaque(ace) => opaque(alloc, flags, ace),
    }
}

/// A copy with these flags, generic rights mapped, and the object's owner and group in the places of CREATOR OWNER and
/// CREATOR GROUP ([MS-DTYP] 2.5.3.4.6, PostProcessACL).
pub(crate) fn concrete(
    alloc: Global,
    object: &NewObject<'_>,
    flags: AceFlags,
    entry: &WholeAce,
) -> Result<WholeAce, AllocError>
    ensures { IfOk result (λ e. e ≡ concrete (new_of object.now) flags.0 entry.now) }
{
    match entry {
        WholeAce::Plain(ace) => Ok(WholeAce::Plain(Ace {
            kind: ace.kind,
            flags,
            mask: object.mapping.map(ace.mask),
            sid: created_by(object, ace.sid),
        })),
        WholeAce::Typed(ace) => {
            let mask = object.mapping.map(ace.mask);
            typed(alloc, flags, mask, created_by(object, ace.sid), ace)
        }
        WholeAce::Opaque(ace) => opaque(alloc, flags, ace),
    }
}

/// Whom the SID stands for in the object.
fn created_by(object: &NewObject<'_>, sid: Sid) -> Sid
    ensures { result ≡ created_by object.now.owner object.now.group sid }
{
    if is_creator_owner(&sid) {
        object.owner
    } else if is_creator_group(&sid) {
        object.group
    } else {
        sid
    }
}

/// Whether what counts for the object differs from what it hands on.
pub(crate) fn is_split(entry: &WholeAce) -> bool
    ensures { result ≡ is_split entry.now }
{
    match entry {
        WholeAce::Plain(ace) => is_open(ace.mask, &ace.sid),
        WholeAce::Typed(ace) => is_open(ace.mask, &ace.sid),
        WholeAce::Opaque(_) => false,
    }
}

/// Whether an entry names a generic right, or CREATOR OWNER or CREATOR GROUP.
fn is_open(mask: Mask, sid: &Sid) -> bool
    ensures { result ≡ is_open mask sid.now }
{
    mask.holds(28)
        || mask.holds(29)
        || mask.holds(30)
        || mask.holds(31)
        || is_creator_owner(sid)
        || is_creator_group(sid)
}

/// The copy that counts for the object alone.
pub(crate) fn effective_copy(
    alloc: Global,
    object: &NewObject<'_>,
    entry: &WholeAce,
) -> Result<WholeAce, AllocError>
    ensures { IfOk result (λ e. e ≡ effective_copy (new_of object.now) entry.now) }
{
    let flags = entry
        .flags()
        .intersection(audit_flags())
        .union(AceFlags::ID);
    concrete(alloc, object, flags, entry)
}

/// The copy that waits in the object to be handed on.
pub(crate) fn waiting_copy(alloc: Global, entry: &WholeAce) -> Result<WholeAce, AllocError>
    ensures { IfOk result (λ e. e ≡ waiting_copy entry.now) }
{
    let waiting = AceFlags::IO.union(AceFlags::ID);
    let flags = entry.flags().intersection(lasting_flags()).union(waiting);
    with_flags(alloc, flags, entry)
}

/// The copy that both counts and is handed on.
pub(crate) fn whole_copy(alloc: Global, entry: &WholeAce) -> Result<WholeAce, AllocError>
    ensures { IfOk result (λ e. e ≡ whole_copy entry.now) }
{
    let flags = entry
        .flags()
        .intersection(lasting_flags())
        .union(AceFlags::ID);
    with_flags(alloc, flags, entry)
}
