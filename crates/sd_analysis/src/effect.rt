//! Whether an entry of a list matters to any token.

ghost use Rattle.std.specs.Prelude.{◌≡◌, ◌<◌, ℕ, true, false, IfOk, length, remove};
ghost use Rattle.sd_analysis.specs.Effect.{DecideAlike, Differ, HasEffect, HasNoEffect, InheritAlike, InheritUnlike};
ghost use Rattle.sd_analysis.specs.Compare.{AreGains};
ghost use Rattle.sd_analysis.specs.Descendants.{list_of};
ghost use Rattle.sd_analysis.specs.Sufficient.{parts_with};
ghost use Rattle.sd_analysis.specs.declared.descendants.Descendant.{Descendant};

use crate::base::Base;
use crate::compare_gains::{Comparison, compare};
use crate::compare_sides::{DescriptorRef, sid_from_parts};
use crate::descendants::{Descendant, inherited_list};
use crate::trial::shows_effect;
use crate::who_case::Case;
use sd_acl::Ace;
use sd_check::DaclRef;
use sd_sid::{GenericMapping, Sid};
use std::alloc::{AllocError, Global};

/// Whether the entry at the place has an effect: whether, without it, some check of a token with the base has another
/// verdict ([MS-DTYP] 2.5.3.2), of the object, or of something made in it if it is a container, to which it hands other
/// entries on (2.5.3.4); or nothing is handed on any more. Restricted tokens and both privileges are included. A place
/// beyond the list has none. Two entries without an effect may have one together, as two equal ones do. Fails only
/// where an allocation fails.
pub fn has_effect(
    alloc: Global,
    owner: Option<Sid>,
    entries: &[Ace],
    place: usize,
    mapping: &GenericMapping,
    base: &Base<'_>,
) -> Result<bool, AllocError>
    ensures yes { IfOk result (λ has. has ≡ true → HasEffect owner entries.now mapping.now base.now place) }
    ensures no { IfOk result (λ has. has ≡ false → HasNoEffect owner entries.now mapping.now base.now place) }
{
    if place >= entries.len() {
        return Ok(false);
    }
    let case = Case {
        owner: &owner,
        entries,
        mapping,
        base,
    };
    if shows_effect(alloc, &case, place)? {
        return Ok(true);
    }
    let mut others = Vec::from_slice(alloc, entries)?;
    others.remove(place);
    if differ(alloc, &case, &others)? {
        return Ok(true);
    }
    let unlike = differ_below(alloc, &case, &others, place)?;
    Ok(unlike)
}

/// Whether the others, in place of the entries, change a verdict.
fn differ(alloc: Global, case: &Case<'_>, others: &[Ace]) -> Result<bool, AllocError>
    ensures yes { let case = case.now in IfOk result (λ differ. differ ≡ true
        → Differ case.owner.now case.mapping.now case.base.now case.entries.now others.now) }
    ensures no { let case = case.now in IfOk result (λ differ. differ ≡ false
        → DecideAlike case.owner.now case.mapping.now case.base.now case.entries.now others.now) }
{
    let comparison = compared(alloc, case, others)?;
    if comparison.gained.is_empty() {
        return Ok(!comparison.lost.is_empty());
    }
    Ok(true)
}

/// What changes where the others take the place of the entries.
fn compared(alloc: Global, case: &Case<'_>, others: &[Ace]) -> Result<Comparison, AllocError>
    ensures gained { let case = case.now in IfOk result (λ c. AreGains case.mapping.now case.base.now
        (parts_with case.owner.now case.entries.now) (parts_with case.owner.now others.now) c.gained.items) }
    ensures lost { let case = case.now in IfOk result (λ c. AreGains case.mapping.now case.base.now
        (parts_with case.owner.now others.now) (parts_with case.owner.now case.entries.now) c.lost.items) }
{
    let before = DescriptorRef {
        owner: *case.owner,
        dacl: DaclRef::List(case.entries),
    };
    let after = DescriptorRef {
        owner: *case.owner,
        dacl: DaclRef::List(others),
    };
    compare(alloc, &before, &after, case.mapping, case.base)
}

/// Whether the others, which are the entries without the one at the place, change what something is that is made in the
/// container.
fn differ_below(
    alloc: Global,
    case: &Case<'_>,
    others: &[Ace],
    place: usize,
) -> Result<bool, AllocError>
    requires place { place < length case.now.entries.now }
    requires others { others.now ≡ remove case.now.entries.now place }
    ensures yes { let case = case.now in IfOk result (λ differ. differ ≡ true
        → (d : Descendant) × InheritUnlike case.mapping.now case.base.now
        (list_of case.mapping.now d case.entries.now) (list_of case.mapping.now d others.now)) }
    ensures no { let case = case.now in IfOk result (λ differ. differ ≡ false
        → (d : Descendant) → InheritAlike case.mapping.now case.base.now
        (list_of case.mapping.now d case.entries.now) (list_of case.mapping.now d others.now)) }
{
    if differs(alloc, Descendant::Object, case, others, place)? {
        return Ok(true);
    }
    if differs(alloc, Descendant::Container, case, others, place)? {
        return Ok(true);
    }
    if differs(alloc, Descendant::ObjectBelow, case, others, place)? {
        return Ok(true);
    }
    if differs(alloc, Descendant::ContainerBelow, case, others, place)? {
        return Ok(true);
    }
    Ok(false)
}

/// Whether they change what this descendant is. Without a copy of the entry its list is the same.
fn differs(
    alloc: Global,
    descendant: Descendant,
    case: &Case<'_>,
    others: &[Ace],
    place: usize,
) -> Result<bool, AllocError>
    requires place { place < length case.now.entries.now }
    requires others { others.now ≡ remove case.now.entries.now place }
    ensures yes { let case = case.now in IfOk result (λ differ. differ ≡ true
        → InheritUnlike case.mapping.now case.base.now
        (list_of case.mapping.now descendant case.entries.now) (list_of case.mapping.now descendant others.now)) }
    ensures no { let case = case.now in IfOk result (λ differ. differ ≡ false
        → InheritAlike case.mapping.now case.base.now
        (list_of case.mapping.now descendant case.entries.now) (list_of case.mapping.now descendant others.now)) }
{
    let entry = &case.entries[place..place + 1];
    let copies = inherited_list(alloc, case.mapping, descendant, entry)?;
    if copies.is_empty() {
        return Ok(false);
    }
    let before = inherited_list(alloc, case.mapping, descendant, case.entries)?;
    let after = inherited_list(alloc, case.mapping, descendant, others)?;
    let unlike = inherit_unlike(alloc, case, &before, &after)?;
    Ok(unlike)
}

/// Whether these lists make different things of what is made in the container.
fn inherit_unlike(
    alloc: Global,
    case: &Case<'_>,
    before: &[Ace],
    after: &[Ace],
) -> Result<bool, AllocError>
    ensures yes { IfOk result (λ differ. differ ≡ true
        → InheritUnlike case.now.mapping.now case.now.base.now before.now after.now) }
    ensures no { IfOk result (λ differ. differ ≡ false
        → InheritAlike case.now.mapping.now case.now.base.now before.now after.now) }
{
    if before.is_empty() != after.is_empty() {
        return Ok(true);
    }
    let owner = Some(sid_from_parts(3, &[0]));
    let inheriting = Case {
        owner: &owner,
        entries: before,
        mapping: case.mapping,
        base: case.base,
    };
    let unlike = differ(alloc, &inheriting, after)?;
    Ok(unlike)
}
