//! What tokens gain and lose of what is made in a node.
ghost use Rattle.std.specs.Prelude.{◌≡◌, IfOk, true};
ghost use Rattle.sd_analysis.specs.Descendants.{list_of};
ghost use Rattle.sd_analysis.specs.declared.descendants.Descendant.{Descendant};
ghost use Rattle.sd_review.specs.Compared.{AreChangesBelow};

use sd_acl::{Ace, same_entries};
use sd_analysis::{Base, Descendant, DescendantChange, compare_descendants, inherited_list};
use sd_sid::GenericMapping;
use std::alloc::{AllocError, Global};

/// What all tokens gain and lose of what is made in a node whose list changes so ([MS-DTYP] 2.5.3.4): nothing in an
/// object, nor where all that is made inherits the same.
pub(crate) fn changes_below(
    alloc: Global,
    mapping: &GenericMapping,
    is_container: bool,
    old: &[Ace],
    new: &[Ace],
) -> Result<Vec<DescendantChange>, AllocError>
    ensures { IfOk result (λ changes. AreChangesBelow mapping.now is_container old.now new.now changes.items) }
{
    if !is_container || inherits_the_same(alloc, mapping, old, new)? {
        return Ok(Vec::new(alloc));
    }
    compare_descendants(alloc, old, new, mapping, &Base { groups: &[] })
}

/// Whether all that is made in a container inherits the same of both lists. What is made below a new container inherits
/// of its list.
fn inherits_the_same(
    alloc: Global,
    mapping: &GenericMapping,
    old: &[Ace],
    new: &[Ace],
) -> Result<bool, AllocError>
    ensures { IfOk result (λ same. same ≡ true
        → (d : Descendant) → list_of mapping.now d old.now ≡ list_of mapping.now d new.now) }
{
    if same_entries(old, new) {
        return Ok(true);
    }
    Ok(
        same_inherited(alloc, mapping, Descendant::Object, old, new)?
            && same_inherited(alloc, mapping, Descendant::Container, old, new)?,
    )
}

fn same_inherited(
    alloc: Global,
    mapping: &GenericMapping,
    descendant: Descendant,
    old: &[Ace],
    new: &[Ace],
) -> Result<bool, AllocError>
    ensures { IfOk result (λ same. same ≡ true
        → list_of mapping.now descendant old.now ≡ list_of mapping.now descendant new.now) }
{
    let before = inherited_list(alloc, mapping, descendant, old)?;
    let after = inherited_list(alloc, mapping, descendant, new)?;
    Ok(same_entries(&before, &after))
}
