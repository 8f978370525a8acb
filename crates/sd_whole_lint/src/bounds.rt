//! The plain descriptor that a whole one is where conditions let entries grant as much, or as little, as they can.

ghost use Rattle.std.specs.Prelude.{◌≡◌, IfOk, length, option_map};
ghost use Rattle.sd_whole_lint.specs.Bounds.{conditional_at};
ghost use Rattle.sd_acl.specs.Descriptor.{descriptor_of};
ghost use Rattle.sd_specialize.specs.Everyone.{has_condition, is_conditional};
ghost use Rattle.sd_specialize.specs.Specialize.{Gives};
ghost use Rattle.sd_whole_lint.specs.Bounds.{applies_at, settled, settled_by, settled_dacl, settled_below};
ghost use Rattle.sd_whole_lint.specs.Bounds.{settled_if, sid_for};

use crate::findings::whole_entries;
use sd_acl::{Ace, AceKind, AceList, Dacl, Descriptor};
use sd_sid::{Mask, Sid};
use sd_specialize::{Conditions, Context, SpecializeError, SpecializeFault, is_deny};
use sd_whole::{TypedAce, WholeAce, WholeAcl, WholeKind, for_children_alone};
use std::alloc::{AllocError, Global};

/// How much conditions let entries grant.
#[derive(Clone, Copy, PartialEq, Eq)]
pub enum Bound {
    /// As much as they can: each allow applies, and no deny.
    Most,
    /// As little as they can: each deny applies, and no allow.
    Least,
}

/// The descriptor for tokens with claims by which conditions ([MS-DTYP] 2.5.3.1.5) let entries grant so much, from the
/// one in which markers stand for the conditions of the whole DACL; PRINCIPAL SELF is the SID that is given, if one is.
/// The fault is that its list gets too large.
pub fn settled(
    alloc: Global,
    principal_self: Option<Sid>,
    bound: Bound,
    whole: &WholeAcl,
    descriptor: &Descriptor,
) -> Result<Descriptor, SpecializeError>
    ensures { Gives descriptor_of result
        (settled bound principal_self whole.now (descriptor_of descriptor.now)) }
{
    let dacl = settled_dacl(
        alloc,
        &principal_self,
        bound,
        whole_entries(whole),
        &descriptor.dacl,
    )?;
    Ok(Descriptor {
        owner: descriptor.owner,
        group: descriptor.group,
        dacl,
        protected: descriptor.protected,
        auto_req: descriptor.auto_req,
        auto_inherited: descriptor.auto_inherited,
    })
}

fn settled_dacl(
    alloc: Global,
    principal_self: &Option<Sid>,
    bound: Bound,
    wholes: &[WholeAce],
    dacl: &Dacl,
) -> Result<Dacl, SpecializeError>
    ensures { Gives (λ dacl. dacl) result (settled_dacl bound principal_self.now wholes.now dacl.now) }
{
    match dacl {
        Dacl::Absent => Ok(Dacl::Absent),
        Dacl::Null => Ok(Dacl::Null),
        Dacl::List(list) => {
            let entries = settled_entries(alloc, principal_self, bound, wholes, list.entries())?;
            match AceList::new(entries) {
                Ok(list) => Ok(Dacl::List(list)),
                Err(_) => Err(SpecializeError::Fault(SpecializeFault::TooLarge)),
            }
        }
    }
}

#[tactic(auto, unfolding(crate::specs::Bounds::settled_below))]
fn settled_entries(
    alloc: Global,
    principal_self: &Option<Sid>,
    bound: Bound,
    wholes: &[WholeAce],
    entries: &[Ace],
) -> Result<Vec<Ace>, AllocError>
    ensures { IfOk result (λ settled. settled.items
        ≡ settled_below bound principal_self.now wholes.now entries.now (length entries.now)) }
{
    let mut settled = Vec::new(alloc);
    for place in 0..entries.len() {
        settled.push(settled_at(principal_self, bound, wholes.get(place), entries[place]))?;
    }
    Ok(settled)
}

fn settled_at(
    principal_self: &Option<Sid>,
    bound: Bound,
    whole: Option<&WholeAce>,
    entry: Ace,
) -> Ace
    ensures { result ≡ settled_if bound principal_self.now
        (conditional_at (option_map (λ whole. whole.now) whole.entry)) entry }
{
    match whole {
        Some(WholeAce::Typed(ace)) if is_conditional(ace) => {
            settled_by(principal_self, bound, ace, entry)
        }
        _ => entry,
    }
}

/// The entry for its own SID in the place of its marker, or one that names no right.
fn settled_by(principal_self: &Option<Sid>, bound: Bound, ace: &TypedAce, entry: Ace) -> Ace
    ensures { result ≡ settled_by bound principal_self.now ace.now entry }
{
    let sid = sid_for(principal_self, ace.sid);
    if applies_at(bound, ace) {
        return Ace { sid, ..entry };
    }
    Ace {
        kind: AceKind::Allow,
        flags: entry.flags,
        mask: Mask(0),
        sid,
    }
}

/// The SID that an entry for this one is for ([MS-DTYP] 2.5.3.1.1).
fn sid_for(principal_self: &Option<Sid>, sid: Sid) -> Sid
    ensures { result ≡ sid_for principal_self.now sid }
{
    let context = Context {
        conditions: Conditions::Unknown,
        chain: &[],
        principal_self: *principal_self,
    };
    context.trustee(sid)
}

fn applies_at(bound: Bound, ace: &TypedAce) -> bool
    ensures { result ≡ applies_at bound ace.now }
{
    match bound {
        Bound::Most => !is_deny(ace.kind),
        Bound::Least => is_deny(ace.kind),
    }
}

/// Whether it is an effective entry with a condition ([MS-DTYP] 2.4.4.17).
fn is_conditional(ace: &TypedAce) -> bool
    ensures { result ≡ is_conditional (WholeAce.Typed ace.now) }
{
    has_condition(ace.kind) && !for_children_alone(ace.flags)
}

fn has_condition(kind: WholeKind) -> bool
    ensures { result ≡ has_condition kind }
{
    matches!(
        kind,
        WholeKind::CallbackAllow
            | WholeKind::CallbackDeny
            | WholeKind::CallbackObjectAllow
            | WholeKind::CallbackObjectDeny
    )
}
