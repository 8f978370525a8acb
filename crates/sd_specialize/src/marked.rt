//! The plain descriptor that a whole one is for all tokens, where a marker stands for each condition.

ghost use Rattle.std.specs.Prelude.{◌≡◌, ◌<◌, ◌^◌, ◌++◌, IfOk, IfSome, IsErrOf, OnOk, false};
ghost use Rattle.sd_acl.specs.Descriptor.{descriptor_of};
ghost use Rattle.sd_specialize.specs.Context.{ContextValue, context_of};
ghost use Rattle.sd_specialize.specs.Entry.{GivesEntry};
ghost use Rattle.sd_specialize.specs.Marked.{conditional_in, conditionals, conditionals_of, decision_of, is_deny};
ghost use Rattle.sd_specialize.specs.Marked.{hindered_by, hinders, is_hindered, is_marker, is_of_types, lent_marks};
ghost use Rattle.sd_specialize.specs.Marked.{mark_place, marked, marked_entry, marked_for, marker, same_mark};
ghost use Rattle.sd_specialize.specs.Marked.{unmarked_place};
ghost use Rattle.sd_specialize.specs.Specialize.{Gives, HasDaclEntries};
ghost use Rattle.std.specs.Option.{option_map, option_map_or, option_to_list};
ghost use Rattle.std.specs.List.{list_any, position};

use crate::context::{Conditions, Context, plain_ace};
use crate::descriptor::descriptor_by;
use crate::entry::ace_for;
use crate::everyone::{conditional_fault, conditional_place, is_conditional};
use crate::fault::{EntryError, SpecializeError};
use crate::rule::Rule;
use sd_acl::{Ace, AceKind, Descriptor};
use sd_sid::Sid;
use sd_whole::{Guid, TypedAce, WholeAce, WholeAcl, WholeDescriptor, WholeKind};
use std::alloc::{AllocError, Global};

/// The authority of markers: the greatest one, of which Windows defines no SID ([MS-DTYP] 2.4.1.1).
const MARKER_AUTHORITY: u64 = 0xFFFF_FFFF_FFFF;

/// Entries with a condition, for each of which stands a marker, and the question.
#[derive(Clone, Copy)]
pub(crate) struct Marks<'a> {
    pub(crate) context: &'a Context<'a>,
    pub(crate) marks: &'a [&'a TypedAce],
}

/// The plain descriptor that a whole one is for all tokens, for each question about these object types of an object,
/// for which PRINCIPAL SELF is this SID ([MS-DTYP] 2.5.3.2): in the place of each effective entry with a condition is
/// one without, for the marker with the number of the first of the marks that says the same. The law `markers_stand`
/// says what it grants. A fault is as that of `specialized`; or the first entry with a condition, where an entry or the
/// owner is a marker, or one with a condition is for OWNER RIGHTS. There is an allocation for the list.
pub fn marked_for_everyone(
    alloc: Global,
    chain: &[Guid],
    principal_self: Option<Sid>,
    marks: &[&TypedAce],
    descriptor: &WholeDescriptor,
) -> Result<Descriptor, SpecializeError>
    ensures exact { (c : ContextValue) → c.chain ≡ chain.now → c.principal_self ≡ principal_self
        → Gives descriptor_of result (marked c (lent_marks marks.now) descriptor.now) }
    ensures memory { IsErrOf result SpecializeError.Memory → HasDaclEntries descriptor.now.dacl }
{
    let context = Context {
        conditions: Conditions::Unknown,
        chain,
        principal_self,
    };
    marked(alloc, &context, marks, descriptor)
}

#[tactic(auto, unfolding(crate::specs::Rule::rule_of))]
fn marked(
    alloc: Global,
    context: &Context<'_>,
    marks: &[&TypedAce],
    descriptor: &WholeDescriptor,
) -> Result<Descriptor, SpecializeError>
    ensures exact { Gives descriptor_of result (marked (context_of context.now) (lent_marks marks.now) descriptor.now) }
    ensures memory { IsErrOf result SpecializeError.Memory → HasDaclEntries descriptor.now.dacl }
{
    if let Some(place) = unmarked_place(context, descriptor, descriptor) {
        return Err(SpecializeError::Fault(conditional_fault(place)));
    }
    descriptor_by(alloc, Rule::Marked(Marks { context, marks }), descriptor)
}

/// The effective entries with a condition ([MS-DTYP] 2.4.4.17), in order. The only error is out of memory.
pub fn conditionals(alloc: Global, acl: &WholeAcl) -> Result<Vec<&TypedAce>, AllocError>
    ensures { IfOk result (λ all. lent_marks all.items ≡ conditionals acl.now) }
{
    match acl {
        WholeAcl::Absent | WholeAcl::Null => Ok(Vec::new(alloc)),
        WholeAcl::List(list) => conditionals_of(alloc, list.entries()),
    }
}

fn conditionals_of(alloc: Global, entries: &[WholeAce]) -> Result<Vec<&TypedAce>, AllocError>
    ensures { IfOk result (λ all. lent_marks all.items ≡ conditionals_of entries.now) }
{
    let mut all = Vec::new(alloc);
    for entry in entries {
        push_conditional(&mut all, entry)?;
    }
    Ok(all)
}

fn push_conditional<'a>(all: &mut Vec<&'a TypedAce>, entry: &'a WholeAce) -> Result<(), AllocError>
    ensures { OnOk result (lent_marks all.new.items
        ≡ lent_marks all.old.items ++ option_to_list (conditional_in entry.now)) }
{
    match conditional_in(entry) {
        Some(ace) => {
            all.push(ace)?;
            Ok(())
        }
        None => Ok(()),
    }
}

fn conditional_in(entry: &WholeAce) -> Option<&TypedAce>
    ensures { option_map (λ ace. ace.now) result ≡ conditional_in entry.now }
{
    match entry {
        WholeAce::Typed(ace) if is_conditional(entry) => Some(ace),
        _ => None,
    }
}

// ---- markers

/// The marker of the number: a SID of an authority of which Windows defines none ([MS-DTYP] 2.4.1.1).
pub fn marker(number: usize) -> Sid
    ensures { result ≡ marker number }
{
    let subs = [
        (number / 0x1_0000_0000) as u32,
        (number % 0x1_0000_0000) as u32,
    ];
    Sid::new(MARKER_AUTHORITY, &subs).unwrap()
}

/// Whether the SID is a marker's ([MS-DTYP] 2.4.1.1).
pub fn is_marker(sid: &Sid) -> bool
    ensures { result ≡ is_marker sid.now }
{
    sid.authority() == MARKER_AUTHORITY
}

/// The number of the entry's marker.
pub(crate) fn mark_place(marks: &[&TypedAce], ace: &TypedAce) -> usize
    ensures { result ≡ mark_place (lent_marks marks.now) ace.now }
{
    match first_mark(marks, ace) {
        Some(place) => place,
        None => marks.len(),
    }
}

fn first_mark(marks: &[&TypedAce], ace: &TypedAce) -> Option<usize>
    ensures { result ≡ position (λ mark. same_mark ace.now mark.now) marks.now }
{
    marks.iter().position(|mark| same_mark(ace, mark))
}

fn same_mark(one: &TypedAce, other: &TypedAce) -> bool
    ensures { result ≡ same_mark one.now other.now }
{
    is_deny(one.kind) == is_deny(other.kind)
        && one.sid.is(&other.sid)
        && one.trailing.as_slice() == other.trailing.as_slice()
}

/// Whether an entry of the type with a condition is_deny ([MS-DTYP] 2.4.4.17).
pub fn is_deny(kind: WholeKind) -> bool
    ensures { result ≡ is_deny kind }
{
    matches!(
        kind,
        WholeKind::CallbackDeny | WholeKind::CallbackObjectDeny
    )
}

fn decision_of(ace: &TypedAce) -> AceKind
    ensures { result ≡ decision_of ace.now }
{
    if is_deny(ace.kind) {
        AceKind::Deny
    } else {
        AceKind::Allow
    }
}

// ---- entries

/// What the entry is for all tokens.
pub(crate) fn marked_entry(
    alloc: Global,
    marks: Marks<'_>,
    entry: &WholeAce,
) -> Result<Ace, EntryError>
    ensures { GivesEntry result
        (marked_entry (context_of marks.entry.context.now) (lent_marks marks.entry.marks.now) entry.now) }
{
    match conditional_in(entry) {
        Some(ace) => Ok(marked_for(marks, ace)),
        None => ace_for(alloc, marks.context, entry),
    }
}

/// An entry with a condition, for its marker.
fn marked_for(marks: Marks<'_>, ace: &TypedAce) -> Ace
    ensures { result ≡ marked_for (context_of marks.entry.context.now) (lent_marks marks.entry.marks.now) ace.now }
{
    if is_of_types(marks.context, ace) {
        let marker = marker(mark_place(marks.marks, ace));
        plain_ace(decision_of(ace), ace.flags, ace.mask, marker)
    } else {
        marks.context.without_part(ace.flags, ace.sid)
    }
}

/// Whether an entry is for the object types asked about ([MS-DTYP] 2.5.3.2).
pub(crate) fn is_of_types(context: &Context<'_>, ace: &TypedAce) -> bool
    ensures { result ≡ is_of_types ace.now.kind (context_of context.now) ace.now }
{
    match ace.kind {
        WholeKind::ObjectAllow | WholeKind::CallbackObjectAllow => {
            context.allows_type(ace.types.object)
        }
        WholeKind::ObjectDeny | WholeKind::CallbackObjectDeny => {
            context.denies_type(ace.types.object)
        }
        _ => true,
    }
}

// ---- what no marker can stand for

/// The place of the first entry of a descriptor with a condition ([MS-DTYP] 2.4.4.17), if beside the other descriptor
/// no marker can stand for one: an entry or the owner of that is a marker, or has a condition and is for OWNER RIGHTS.
pub fn unmarked_place(
    context: &Context<'_>,
    other: &WholeDescriptor,
    descriptor: &WholeDescriptor,
) -> Option<usize>
    ensures place { result ≡ unmarked_place (context_of context.now) other.now descriptor.now }
    ensures within { IfSome result (λ place. place < 2 ^ 63) }
{
    if is_hindered(context, other) {
        conditional_place(&descriptor.dacl)
    } else {
        None
    }
}

fn is_hindered(context: &Context<'_>, descriptor: &WholeDescriptor) -> bool
    ensures { result ≡ is_hindered (context_of context.now) descriptor.now }
{
    has_marker(&descriptor.owner) || hindered_by(context, &descriptor.dacl)
}

fn has_marker(owner: &Option<Sid>) -> bool
    ensures { result ≡ option_map_or is_marker owner.now false }
{
    match owner {
        Some(owner) => is_marker(owner),
        None => false,
    }
}

fn hindered_by(context: &Context<'_>, acl: &WholeAcl) -> bool
    ensures { result ≡ hindered_by (context_of context.now) acl.now }
{
    match acl {
        WholeAcl::Absent | WholeAcl::Null => false,
        WholeAcl::List(list) => any_hinders(context, list.entries()),
    }
}

fn any_hinders(context: &Context<'_>, entries: &[WholeAce]) -> bool
    ensures { result ≡ list_any (hinders (context_of context.now)) entries.now }
{
    entries.iter().any(|entry| hinders(context, entry))
}

/// Whether the entry is for a SID that is a marker, or limits the owner whatever its condition comes to.
fn hinders(context: &Context<'_>, entry: &WholeAce) -> bool
    ensures { result ≡ hinders (context_of context.now) entry.now }
{
    match entry {
        WholeAce::Plain(ace) => is_marker(&context.trustee(ace.sid)),
        WholeAce::Typed(ace) => {
            let sid = context.trustee(ace.sid);
            is_marker(&sid) || (is_conditional(entry) && sid.is_owner_rights())
        }
        WholeAce::Opaque(_) => false,
    }
}
