//! The lines about what is made in a container.
ghost use Rattle.std.specs.Prelude.{◌≡◌, ◌++◌, IfOk, OnOk, Some};
ghost use Rattle.sd_check.specs.Check.{entries_of};
ghost use Rattle.sd_inheritance.specs.Inheritance.{creator_owner};
ghost use Rattle.sd_answer.specs.Compare.{gains_and_losses};
ghost use Rattle.sd_answer.specs.Descendants.{descendant_lines, descendant_who_lines, descendants_lines};
ghost use Rattle.sd_answer.specs.Descendants.{descendants_who_lines, inheritance_lines, nothing_inherited};

use crate::compare::push_gains_and_losses;
use crate::forms::{NO_LONGER_PROTECTED, NOTHING_INHERITED, NOW_PROTECTED};
use crate::lines::push_made;
use crate::who::push_who;
use sd_analysis::{
    Comparison, Descendant, DescendantAccess, DescendantChange, DescriptorRef, descendant_ref,
};
use sd_check::DaclRef;
use sd_line::{Line, Part};
use std::alloc::{AllocError, Global};

/// Adds what tokens gain and lose of each descendant, as `new objects: gained 0x2 by S-1-5-32-545`: nothing where
/// nothing changes. The only error is out of memory.
pub fn push_descendants(
    alloc: Global,
    out: &mut Vec<Line>,
    changes: &[DescendantChange],
) -> Result<(), AllocError>
    ensures { OnOk result (out.new.items ≡ out.old.items ++ descendants_lines changes.now) }
{
    for change in changes {
        push_descendant(alloc, out, change)?;
    }
    Ok(())
}

fn push_descendant(
    alloc: Global,
    out: &mut Vec<Line>,
    change: &DescendantChange,
) -> Result<(), AllocError>
    ensures { OnOk result (out.new.items ≡ out.old.items ++ descendant_lines change.now) }
{
    let (old, new) = (
        DaclRef::List(change.before.as_slice()),
        DaclRef::List(change.after.as_slice()),
    );
    push_between(alloc, out, change.descendant, old, new, &change.comparison)
}

/// Adds the lines of a comparison of descendants with these lists.
fn push_between(
    alloc: Global,
    out: &mut Vec<Line>,
    descendant: Descendant,
    old: DaclRef<'_>,
    new: DaclRef<'_>,
    comparison: &Comparison,
) -> Result<(), AllocError>
    ensures { OnOk result (out.new.items ≡ out.old.items ++ gains_and_losses (Some descendant)
        (record { owner = Some creator_owner; dacl = entries_of old.entry })
        (record { owner = Some creator_owner; dacl = entries_of new.entry })
        comparison.now.gained.items comparison.now.lost.items) }
{
    let old = DescriptorRef {
        owner: descendant_ref(&[]).owner,
        dacl: old,
    };
    let new = DescriptorRef {
        owner: descendant_ref(&[]).owner,
        dacl: new,
    };
    push_gains_and_losses(alloc, out, Some(descendant), &old, &new, comparison)
}

/// Adds the line of a list that was protected from inheritance and is not, or the other way round ([MS-DTYP] 2.5.3.4):
/// none where both are the same. The only error is out of memory.
pub fn push_inheritance(
    alloc: Global,
    out: &mut Vec<Line>,
    was: bool,
    is: bool,
) -> Result<(), AllocError>
    ensures { OnOk result (out.new.items ≡ out.old.items ++ inheritance_lines was is) }
{
    if was != is {
        let form = if was {
            NO_LONGER_PROTECTED
        } else {
            NOW_PROTECTED
        };
        out.push(Line::new(alloc, form, Vec::new(alloc))?)?;
    }
    Ok(())
}

/// Adds whom rights of each descendant are granted to, as `new objects: 0x1 to S-1-1-0`, or that it inherits nothing.
/// The only error is out of memory.
pub fn push_descendants_who(
    alloc: Global,
    out: &mut Vec<Line>,
    all: &[DescendantAccess],
) -> Result<(), AllocError>
    ensures { OnOk result (out.new.items ≡ out.old.items ++ descendants_who_lines all.now) }
{
    for access in all {
        push_descendant_who(alloc, out, access)?;
    }
    Ok(())
}

fn push_descendant_who(
    alloc: Global,
    out: &mut Vec<Line>,
    access: &DescendantAccess,
) -> Result<(), AllocError>
    ensures { OnOk result (out.new.items ≡ out.old.items ++ descendant_who_lines access.now) }
{
    if access.list.is_empty() {
        out.push(nothing_inherited(alloc, access.descendant)?)?;
        return Ok(());
    }
    push_who(alloc, out, Some(access.descendant), &access.accesses)
}

fn nothing_inherited(alloc: Global, descendant: Descendant) -> Result<Line, AllocError>
    ensures { IfOk result (λ line. line ≡ nothing_inherited descendant) }
{
    let mut parts = Vec::new(alloc);
    push_made(alloc, &mut parts, Some(descendant))?;
    parts.push(Part::new(NOTHING_INHERITED.1, Vec::new(alloc)))?;
    Ok(Line::of(NOTHING_INHERITED.0, parts))
}
