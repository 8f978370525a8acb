//! Which entries of a list can all go.

ghost use Rattle.std.specs.Prelude.{◌≡◌, ◌<◌, ◌⊎◌, false, IfOk, OnOk, length, replicate};
ghost use Rattle.sd_analysis.specs.Redundant.{AreRedundant, Goes, Stays};

use crate::base::Base;
use crate::effect::has_effect;
use sd_acl::Ace;
use sd_sid::{GenericMapping, Sid};
use std::alloc::{AllocError, Global};

/// For each entry whether it is redundant. All redundant entries can go at once: without them each check of a token
/// with the base has the same verdict ([MS-DTYP] 2.5.3.2). The last entry is judged first. Each is redundant where it
/// has no effect (`has_effect`) in the list without the redundant entries after it, so of two equal ones that do
/// together it is the last. None is redundant where each has an effect by itself. Restricted tokens and both privileges
/// are included. Fails only where an allocation fails.
pub fn redundant(
    alloc: Global,
    owner: Option<Sid>,
    entries: &[Ace],
    mapping: &GenericMapping,
    base: &Base<'_>,
) -> Result<Vec<bool>, AllocError>
    ensures { IfOk result (λ marks. AreRedundant owner entries.now mapping.now base.now marks.items) }
{
    let mut left = Vec::from_slice(alloc, entries)?;
    let mut marks = unmarked(alloc, entries.len())?;
    for judged in 0..entries.len() {
        let place = entries.len() - 1 - judged;
        judge(alloc, &owner, &mut left, &mut marks, place, mapping, base)?;
    }
    Ok(marks)
}

/// Marks the entry at the place and takes it out, unless it has an effect.
fn judge(
    alloc: Global,
    owner: &Option<Sid>,
    left: &mut Vec<Ace>,
    marks: &mut Vec<bool>,
    place: usize,
    mapping: &GenericMapping,
    base: &Base<'_>,
) -> Result<(), AllocError>
    requires left { place < length left.old.items }
    requires marks { place < length marks.old.items }
    ensures { OnOk result
        (Stays owner.now left.old.items mapping.now base.now place marks.old.items left.new.items marks.new.items
        ⊎ Goes owner.now left.old.items mapping.now base.now place marks.old.items left.new.items marks.new.items) }
{
    let has = has_effect(alloc, *owner, left, place, mapping, base)?;
    if has {
        return Ok(());
    }
    left.remove(place);
    marks[place] = true;
    Ok(())
}

/// No mark at any of so many places.
fn unmarked(alloc: Global, count: usize) -> Result<Vec<bool>, AllocError>
    ensures { IfOk result (λ marks. marks.items ≡ replicate count false) }
{
    vec![in alloc; false; count]
}
