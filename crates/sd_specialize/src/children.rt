//! What children inherit of a whole DACL for all tokens, as plain entries.

ghost use Rattle.std.specs.Prelude.{◌≡◌, ◌++◌, ◌||◌, IfOk, OnOk};
ghost use Rattle.std.specs.List.{list_any};
ghost use Rattle.std.specs.Option.{option_map, option_to_list};
ghost use Rattle.sd_specialize.specs.Children.{entries_of, handed_class, handed_classes, handed_conditional};
ghost use Rattle.sd_specialize.specs.Children.{handed_conditionals, handed_conditionals_of, handed_entries};
ghost use Rattle.sd_specialize.specs.Children.{handed_entry, handed_sid, handed_typed, hands_on_conditions};
ghost use Rattle.sd_specialize.specs.Children.{has_hindrance, has_unsaid, hinders_marks, is_handed_conditional};
ghost use Rattle.sd_specialize.specs.Children.{is_of_class, is_unsaid, leaves_out_children, no_right, with_class};
ghost use Rattle.sd_specialize.specs.Children.{with_classes};
ghost use Rattle.sd_specialize.specs.Context.{context_of};
ghost use Rattle.sd_specialize.specs.Entry.{decides};
ghost use Rattle.sd_specialize.specs.Marked.{lent_marks};

use crate::context::{Context, is_asked, plain_ace, same_guid};
use crate::entry::{decides, nobody};
use crate::everyone::has_condition;
use crate::marked::{is_marker, is_of_types, mark_place, marker};
use sd_acl::{Ace, AceFlags, AceKind};
use sd_sid::{Mask, Sid};
use sd_whole::{Guid, ObjectTypes, TypedAce, WholeAce, WholeAcl};
use std::alloc::{AllocError, Global};

/// The entries of a DACL as plain ones with their flags and masks, of which `sd_inheritance` makes what children of a
/// class, of which this is asked, inherit for all tokens ([MS-DTYP] 2.5.3.4): one with a condition is for the marker
/// with the number of the first of the marks that says the same. Without a class they are of one that no entry names.
/// PRINCIPAL SELF is each child's own. There is an allocation for the list, and the only error is out of memory.
pub fn handed_entries(
    alloc: Global,
    class: Option<Guid>,
    context: &Context<'_>,
    marks: &[&TypedAce],
    acl: &WholeAcl,
) -> Result<Vec<Ace>, AllocError>
    ensures { IfOk result (λ entries. entries.items
        ≡ handed_entries class (context_of context.now) (lent_marks marks.now) acl.now) }
{
    let entries = entries_of(acl);
    entries
        .iter()
        .map(|entry| handed_entry(class, context, marks, entry))
        .collect(alloc)
}

/// The classes whose children alone have an entry of two DACLs that is handed on as effective ([MS-DTYP] 2.4.4.3), each
/// once, in the order of their first places. The only error is out of memory.
pub fn handed_classes(
    alloc: Global,
    one: &WholeAcl,
    other: &WholeAcl,
) -> Result<Vec<Guid>, AllocError>
    ensures { IfOk result (λ classes. classes.items ≡ handed_classes one.now other.now) }
{
    let mut classes = Vec::new(alloc);
    push_classes(&mut classes, entries_of(one))?;
    push_classes(&mut classes, entries_of(other))?;
    Ok(classes)
}

fn push_classes(classes: &mut Vec<Guid>, entries: &[WholeAce]) -> Result<(), AllocError>
    ensures { OnOk result (classes.new.items ≡ with_classes classes.old.items entries.now) }
{
    for entry in entries {
        push_class(classes, handed_class(entry))?;
    }
    Ok(())
}

fn push_class(classes: &mut Vec<Guid>, class: Option<Guid>) -> Result<(), AllocError>
    ensures { OnOk result (classes.new.items ≡ with_class classes.old.items class) }
{
    match class {
        Some(class) if !is_asked(classes, class) => {
            classes.push(class)?;
            Ok(())
        }
        _ => Ok(()),
    }
}

fn handed_class(entry: &WholeAce) -> Option<Guid>
    ensures { result ≡ handed_class entry.now }
{
    match entry {
        WholeAce::Typed(ace) if ace.flags.pass_on() => ace.types.inherited,
        _ => None,
    }
}

/// The entries with a condition that are handed on ([MS-DTYP] 2.4.4.1, 2.4.4.17), in order. The only error is out of
/// memory.
pub fn handed_conditionals(alloc: Global, acl: &WholeAcl) -> Result<Vec<&TypedAce>, AllocError>
    ensures { IfOk result (λ all. lent_marks all.items ≡ handed_conditionals acl.now) }
{
    handed_conditionals_of(alloc, entries_of(acl))
}

fn handed_conditionals_of(alloc: Global, entries: &[WholeAce]) -> Result<Vec<&TypedAce>, AllocError>
    ensures { IfOk result (λ all. lent_marks all.items ≡ handed_conditionals_of entries.now) }
{
    let mut all = Vec::new(alloc);
    for entry in entries {
        push_handed(&mut all, entry)?;
    }
    Ok(all)
}

fn push_handed<'a>(all: &mut Vec<&'a TypedAce>, entry: &'a WholeAce) -> Result<(), AllocError>
    ensures { OnOk result (lent_marks all.new.items
        ≡ lent_marks all.old.items ++ option_to_list (handed_conditional entry.now)) }
{
    match handed_conditional(entry) {
        Some(ace) => {
            all.push(ace)?;
            Ok(())
        }
        None => Ok(()),
    }
}

fn handed_conditional(entry: &WholeAce) -> Option<&TypedAce>
    ensures { option_map (λ ace. ace.now) result ≡ handed_conditional entry.now }
{
    match entry {
        WholeAce::Typed(ace) if has_condition(ace.kind) && ace.flags.pass_on() => Some(ace),
        _ => None,
    }
}

/// Whether an entry with a condition is handed on ([MS-DTYP] 2.4.4.1, 2.4.4.17).
pub fn hands_on_conditions(acl: &WholeAcl) -> bool
    ensures { result ≡ hands_on_conditions acl.now }
{
    entries_of(acl).iter().any(is_handed_conditional)
}

fn is_handed_conditional(entry: &WholeAce) -> bool
    ensures { result ≡ is_handed_conditional entry.now }
{
    handed_conditional(entry).is_some()
}

/// Whether the plain entries of one of two DACLs don't say what children inherit ([MS-DTYP] 2.5.3.4): one that is
/// handed on is no allow and no deny; or conditions are handed on, and one of OWNER RIGHTS or an entry for a SID that
/// is a marker.
pub fn leaves_out_children(one: &WholeAcl, other: &WholeAcl) -> bool
    ensures { result ≡ leaves_out_children one.now other.now }
{
    either_unsaid(one, other) || (either_asks(one, other) && either_hinders(one, other))
}

fn either_unsaid(one: &WholeAcl, other: &WholeAcl) -> bool
    ensures { result ≡ (has_unsaid one.now || has_unsaid other.now) }
{
    has_unsaid(one) || has_unsaid(other)
}

fn either_asks(one: &WholeAcl, other: &WholeAcl) -> bool
    ensures { result ≡ (hands_on_conditions one.now || hands_on_conditions other.now) }
{
    hands_on_conditions(one) || hands_on_conditions(other)
}

fn either_hinders(one: &WholeAcl, other: &WholeAcl) -> bool
    ensures { result ≡ (has_hindrance one.now || has_hindrance other.now) }
{
    has_hindrance(one) || has_hindrance(other)
}

fn has_unsaid(acl: &WholeAcl) -> bool
    ensures { result ≡ has_unsaid acl.now }
{
    entries_of(acl).iter().any(is_unsaid)
}

fn has_hindrance(acl: &WholeAcl) -> bool
    ensures { result ≡ has_hindrance acl.now }
{
    entries_of(acl).iter().any(hinders_marks)
}

fn entries_of(acl: &WholeAcl) -> &[WholeAce]
    ensures { result.now ≡ entries_of acl.now }
{
    match acl {
        WholeAcl::Absent | WholeAcl::Null => &[],
        WholeAcl::List(list) => list.entries(),
    }
}

// ---- entries

fn handed_entry(
    class: Option<Guid>,
    context: &Context<'_>,
    marks: &[&TypedAce],
    entry: &WholeAce,
) -> Ace
    ensures { result ≡ handed_entry class (context_of context.now) (lent_marks marks.now) entry.now }
{
    match entry {
        WholeAce::Plain(ace) => plain_ace(ace.kind, ace.flags, ace.mask, ace.sid),
        WholeAce::Typed(ace) if is_of_class(class, &ace.types) => {
            handed_typed(context, marks, ace)
        }
        WholeAce::Typed(ace) => no_right(ace.flags, nobody()),
        WholeAce::Opaque(ace) => no_right(ace.flags, nobody()),
    }
}

/// Whether a child of the class has an entry with these types as effective.
fn is_of_class(class: Option<Guid>, types: &ObjectTypes) -> bool
    ensures { result ≡ is_of_class class types.now }
{
    match (types.inherited, class) {
        (None, _) => true,
        (Some(inherited), Some(class)) => same_guid(&class, &inherited),
        (Some(_), None) => false,
    }
}

fn handed_typed(context: &Context<'_>, marks: &[&TypedAce], ace: &TypedAce) -> Ace
    ensures { result
        ≡ handed_typed (decides ace.now.kind) (context_of context.now) (lent_marks marks.now) ace.now }
{
    match decides(ace.kind) {
        Some(kind) if is_of_types(context, ace) => {
            plain_ace(kind, ace.flags, ace.mask, handed_sid(marks, ace))
        }
        _ => no_right(ace.flags, ace.sid),
    }
}

fn no_right(flags: AceFlags, sid: Sid) -> Ace
    ensures { result ≡ no_right flags.0 sid }
{
    plain_ace(AceKind::Allow, flags, Mask(0), sid)
}

fn handed_sid(marks: &[&TypedAce], ace: &TypedAce) -> Sid
    ensures { result ≡ handed_sid (lent_marks marks.now) ace.now }
{
    if has_condition(ace.kind) {
        marker(mark_place(marks, ace))
    } else {
        ace.sid
    }
}

fn is_unsaid(entry: &WholeAce) -> bool
    ensures { result ≡ is_unsaid entry.now }
{
    match entry {
        WholeAce::Plain(_) => false,
        WholeAce::Typed(ace) => ace.flags.pass_on() && decides(ace.kind).is_none(),
        WholeAce::Opaque(ace) => ace.flags.pass_on(),
    }
}

fn hinders_marks(entry: &WholeAce) -> bool
    ensures { result ≡ hinders_marks entry.now }
{
    match entry {
        WholeAce::Plain(ace) => ace.flags.pass_on() && is_marker(&ace.sid),
        WholeAce::Typed(ace) => {
            let limits = has_condition(ace.kind) && ace.sid.is_owner_rights();
            ace.flags.pass_on() && (is_marker(&ace.sid) || limits)
        }
        WholeAce::Opaque(_) => false,
    }
}
