//! What tokens gain and lose by a change of a descriptor.
ghost use Rattle.std.specs.Prelude.{◌≡◌, [], IfOk, OnOk, Some, true};
ghost use Rattle.std.specs.Option.{ForSome};
ghost use Rattle.sd_acl.specs.Descriptor.{descriptor_of};
ghost use Rattle.sd_analysis.specs.Compare.{AreGains};
ghost use Rattle.sd_answer.specs.Parts.{parts_in};
ghost use Rattle.sd_review.specs.Compared.{HasParts, IsOf, IsOfBoth, IsRight, review_parts_in};

use crate::below::changes_below;
use crate::compared::Compared;
use crate::equality::{is_alike, is_same};
use sd_acl::Descriptor;
use sd_analysis::{Base, Comparison, compare};
use sd_answer::{descriptor_ref, entries_in};
use sd_sid::GenericMapping;
use std::alloc::{AllocError, Global};

/// Leaves the comparison of these descriptors of a node in `last`: nodes that share their lists before and after follow
/// one another, so the last one often serves again.
pub(crate) fn compare_next(
    alloc: Global,
    last: &mut Option<Compared>,
    mapping: &GenericMapping,
    is_container: bool,
    before: Descriptor,
    after: Descriptor,
) -> Result<(), AllocError>
    requires { ForSome last.old (IsRight mapping.now) }
    ensures { OnOk result (IsOfBoth mapping.now is_container (Some (descriptor_of before)) (Some (descriptor_of after))
        last.new) }
{
    if !is_of(last, is_container, &before, &after) {
        *last = Some(compared(alloc, mapping, is_container, before, after)?);
    }
    Ok(())
}

/// Whether the comparison is of a node of that kind, and of descriptors that are the same to a review.
fn is_of(
    last: &Option<Compared>,
    is_container: bool,
    before: &Descriptor,
    after: &Descriptor,
) -> bool
    ensures { result ≡ true → HasParts is_container (review_parts_in (descriptor_of before.now))
        (review_parts_in (descriptor_of after.now)) last.now }
{
    match last {
        Some(compared) => {
            compared.is_container == is_container
                && is_same(&compared.before, before)
                && is_same(&compared.after, after)
        }
        None => false,
    }
}

/// The comparison of these descriptors.
fn compared(
    alloc: Global,
    mapping: &GenericMapping,
    is_container: bool,
    before: Descriptor,
    after: Descriptor,
) -> Result<Compared, AllocError>
    ensures { IfOk result (IsOf mapping.now is_container (review_parts_in (descriptor_of before))
        (review_parts_in (descriptor_of after))) }
{
    let comparison = comparison_of(alloc, mapping, &before, &after)?;
    let (old, new) = (entries_in(&before.dacl), entries_in(&after.dacl));
    let below = changes_below(alloc, mapping, is_container, old, new)?;
    Ok(Compared {
        before,
        after,
        is_container,
        comparison,
        below,
    })
}

/// What all tokens gain and lose: nothing where no check can tell the descriptors apart, and then they aren't compared.
fn comparison_of(
    alloc: Global,
    mapping: &GenericMapping,
    before: &Descriptor,
    after: &Descriptor,
) -> Result<Comparison, AllocError>
    ensures gained { IfOk result (λ c. AreGains mapping.now [] (parts_in (descriptor_of before.now))
        (parts_in (descriptor_of after.now)) c.gained.items) }
    ensures lost { IfOk result (λ c. AreGains mapping.now [] (parts_in (descriptor_of after.now))
        (parts_in (descriptor_of before.now)) c.lost.items) }
    ensures same { IfOk result (λ c. parts_in (descriptor_of before.now) ≡ parts_in (descriptor_of after.now)
        → (c.gained.items ≡ []) × (c.lost.items ≡ [])) }
{
    if is_alike(before, after) {
        return Ok(Comparison {
            gained: Vec::new(alloc),
            lost: Vec::new(alloc),
        });
    }
    let base = Base { groups: &[] };
    let old = descriptor_ref(before);
    let new = descriptor_ref(after);
    compare(alloc, &old, &new, mapping, &base)
}
