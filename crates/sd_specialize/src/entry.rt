//! What an entry is for one question.

ghost use Rattle.std.specs.Prelude.{◌≡◌, false, IfOk};
ghost use Rattle.sd_specialize.specs.Context.{context_of};
ghost use Rattle.sd_specialize.specs.Entry.{GivesEntry, applies_in, decides, deciding_for, effective_for, entry_for};
ghost use Rattle.sd_specialize.specs.Entry.{nobody, other_for, passes_agree, typed_for};

use crate::condition::condition_applies;
use crate::context::Context;
use crate::fault::{EntryError, RefusedKind};
use crate::part::Part;
use sd_acl::{Ace, AceKind};
use sd_check::Pass;
use sd_sid::Sid;
use sd_whole::{OddKind, OpaqueAce, TypedAce, WholeAce, WholeKind, for_children_alone};
use std::alloc::{AllocError, Global};

/// The plain allow or deny that the entry is for the question ([MS-DTYP] 2.5.3.2), or why it is refused.
pub(crate) fn ace_for(
    alloc: Global,
    context: &Context<'_>,
    entry: &WholeAce,
) -> Result<Ace, EntryError>
    ensures { GivesEntry result (entry_for (context_of context.now) entry.now) }
{
    let null_sid = nobody();
    match entry_for(alloc, context, entry, &null_sid) {
        Ok(part) => Ok(part.ace()),
        Err(error) => Err(error),
    }
}

/// The plain allow or deny that the entry is for the question, whose SID stays where it is stored: in the entry, in the
/// question for PRINCIPAL SELF, or as NULL SID.
#[inline(always)]
pub(crate) fn entry_for<'a>(
    alloc: Global,
    context: &'a Context<'_>,
    entry: &'a WholeAce,
    null_sid: &'a Sid,
) -> Result<Part<'a>, EntryError>
    requires { null_sid.now ≡ nobody }
    ensures { GivesEntry result (entry_for (context_of context.now) entry.now) }
{
    match entry {
        WholeAce::Plain(ace) => Ok(context.part(ace.kind, ace.flags, ace.mask, &ace.sid)),
        WholeAce::Typed(ace) => match ace.kind.plain() {
            Some(kind) => Ok(context.part(kind, ace.flags, ace.mask, &ace.sid)),
            None => other_for(alloc, context, ace),
        },
        WholeAce::Opaque(ace) => opaque_for(context, ace, null_sid),
    }
}

/// An entry without a layout: it is refused unless it is for children alone.
fn opaque_for<'a>(
    context: &'a Context<'_>,
    ace: &OpaqueAce,
    null_sid: &'a Sid,
) -> Result<Part<'a>, EntryError>
    requires { null_sid.now ≡ nobody }
    ensures { GivesEntry result (entry_for (context_of context.now) (WholeAce.Opaque ace.now)) }
{
    if !for_children_alone(ace.flags) {
        return Err(EntryError::Refused(RefusedKind::Odd(OddKind::OpaqueAce)));
    }
    Ok(context.no_part(ace.flags, null_sid))
}

/// An entry with a layout that isn't plain.
fn other_for<'a>(
    alloc: Global,
    context: &'a Context<'_>,
    ace: &'a TypedAce,
) -> Result<Part<'a>, EntryError>
    ensures { GivesEntry result (other_for (context_of context.now) ace.now) }
{
    if for_children_alone(ace.flags) {
        return Ok(context.no_part(ace.flags, &ace.sid));
    }
    match decides(ace.kind) {
        None => Err(EntryError::Refused(RefusedKind::Odd(OddKind::SystemAce))),
        Some(kind) => deciding_for(alloc, context, kind, ace),
    }
}

/// An effective entry that allows or denies.
fn deciding_for<'a>(
    alloc: Global,
    context: &'a Context<'_>,
    kind: AceKind,
    ace: &'a TypedAce,
) -> Result<Part<'a>, EntryError>
    ensures { GivesEntry result (deciding_for (context_of context.now) kind ace.now) }
{
    let applies = applies_in(alloc, context, Pass::First, ace)?;
    if !passes_agree(alloc, context, applies, ace)? {
        return Err(EntryError::Refused(RefusedKind::PassesDiffer));
    }
    if !applies {
        return Ok(context.no_part(ace.flags, &ace.sid));
    }
    Ok(context.part(kind, ace.flags, ace.mask, &ace.sid))
}

/// Whether the entry applies in both passes or in neither, from whether it does in the first; or there is one pass.
fn passes_agree(
    alloc: Global,
    context: &Context<'_>,
    first: bool,
    ace: &TypedAce,
) -> Result<bool, AllocError>
    requires { first ≡ applies_in (context_of context.now) Pass.First ace.now }
    ensures { IfOk result (λ agree. agree ≡ passes_agree (context_of context.now) ace.now) }
{
    if !context.is_restricted() {
        return Ok(true);
    }
    let second = applies_in(alloc, context, Pass::Second, ace)?;
    Ok(second == first)
}

/// Whether the entry applies in the pass ([MS-DTYP] 2.5.3.2): to the object types asked about, and by its condition.
fn applies_in(
    alloc: Global,
    context: &Context<'_>,
    pass: Pass,
    ace: &TypedAce,
) -> Result<bool, AllocError>
    ensures { IfOk result (λ applies. applies ≡ applies_in (context_of context.now) pass ace.now) }
{
    let object = ace.types.object;
    let bytes = ace.trailing.as_slice();
    match ace.kind {
        WholeKind::Allow | WholeKind::Deny => Ok(true),
        WholeKind::ObjectAllow => Ok(context.allows_type(object)),
        WholeKind::ObjectDeny => Ok(context.denies_type(object)),
        WholeKind::CallbackAllow => {
            condition_applies(alloc, context, pass, AceKind::Allow, bytes)
        }
        WholeKind::CallbackDeny => condition_applies(alloc, context, pass, AceKind::Deny, bytes),
        WholeKind::CallbackObjectAllow => {
            let applies = condition_applies(alloc, context, pass, AceKind::Allow, bytes)?;
            Ok(applies && context.allows_type(object))
        }
        WholeKind::CallbackObjectDeny => {
            let applies = condition_applies(alloc, context, pass, AceKind::Deny, bytes)?;
            Ok(applies && context.denies_type(object))
        }
        _ => Ok(false),
    }
}

/// What an entry of the type decides, if it isn't one of SACLs.
pub(crate) fn decides(kind: WholeKind) -> Option<AceKind>
    ensures { result ≡ decides kind }
{
    match kind {
        WholeKind::Allow
        | WholeKind::ObjectAllow
        | WholeKind::CallbackAllow
        | WholeKind::CallbackObjectAllow => Some(AceKind::Allow),
        WholeKind::Deny
        | WholeKind::ObjectDeny
        | WholeKind::CallbackDeny
        | WholeKind::CallbackObjectDeny => Some(AceKind::Deny),
        _ => None,
    }
}

/// NULL SID, nobody's, S-1-0-0 ([MS-DTYP] 2.4.2.4).
pub(crate) fn nobody() -> Sid
    ensures { result ≡ nobody }
{
    Sid::new(0, &[0]).unwrap()
}
