//! Who is granted rights of what is made in a container.

ghost use Rattle.std.specs.Prelude.{◌≡◌, IfOk};
ghost use Rattle.sd_analysis.specs.Descendants.{AreDescendantAccesses, IsDescendantAccess};

use crate::base::Base;
use crate::compare_sides::DescriptorRef;
use crate::descendants::{Descendant, descendants_of, inherited_list};
use crate::descendants_compare::descendant_ref;
use crate::who_has::{Access, who};
use sd_acl::Ace;
use sd_sid::{GenericMapping, Mask};
use std::alloc::{AllocError, Global};

/// Who is granted rights of a descendant.
#[derive(Debug, Drop)]
pub struct DescendantAccess {
    pub descendant: Descendant,
    /// The descendant's list: empty where nothing is inherited, and whoever makes it gives it another.
    pub list: Vec<Ace>,
    /// With S-1-3-0 for the owner and S-1-3-1 for the group.
    pub accesses: Vec<Access>,
}

/// Who is granted which of the rights of all that is made in a container with this list: of each descendant what `who`
/// finds for the list that it inherits ([MS-DTYP] 2.5.3.2, 2.5.3.4). Fails only where an allocation fails.
pub fn who_descendants(
    alloc: Global,
    entries: &[Ace],
    mapping: &GenericMapping,
    base: &Base<'_>,
    rights: Mask,
) -> Result<Vec<DescendantAccess>, AllocError>
    ensures { IfOk result (λ all. AreDescendantAccesses mapping.now base.now entries.now rights all.items) }
{
    let mut all = Vec::new(alloc);
    let descendants = descendants_of(&[], entries);
    for descendant in descendants {
        all.push(access_of(alloc, *descendant, entries, mapping, base, rights)?)?;
    }
    Ok(all)
}

fn access_of(
    alloc: Global,
    descendant: Descendant,
    entries: &[Ace],
    mapping: &GenericMapping,
    base: &Base<'_>,
    rights: Mask,
) -> Result<DescendantAccess, AllocError>
    ensures access { IfOk result (IsDescendantAccess mapping.now base.now entries.now rights) }
    ensures descendant { IfOk result (λ a. a.descendant ≡ descendant) }
{
    let list = inherited_list(alloc, mapping, descendant, entries)?;
    let DescriptorRef { owner, dacl } = descendant_ref(&list);
    let accesses = who(alloc, owner, dacl, mapping, base, rights)?;
    Ok(DescendantAccess {
        descendant,
        list,
        accesses,
    })
}
