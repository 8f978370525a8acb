//! Whether two descriptors are the same to a review.
ghost use Rattle.std.specs.Prelude.{◌≡◌, true};
ghost use Rattle.sd_acl.specs.Descriptor.{descriptor_of};
ghost use Rattle.sd_answer.specs.Parts.{parts_in};
ghost use Rattle.sd_check.specs.Check.{dacl_entries};
ghost use Rattle.sd_review.specs.Compared.{review_parts_in};

use sd_acl::{Dacl, Descriptor, same_entries};
use sd_sid::Sid;

/// Whether they are alike, and both lists or none protected from inheritance ([MS-DTYP] 2.5.3.4).
pub(crate) fn is_same(one: &Descriptor, other: &Descriptor) -> bool
    ensures { result ≡ true → review_parts_in (descriptor_of one.now) ≡ review_parts_in (descriptor_of other.now) }
{
    is_alike(one, other) && one.protected == other.protected
}

/// Whether the owner and the entries are the same, which is all that a check looks at ([MS-DTYP] 2.5.3.2).
pub(crate) fn is_alike(one: &Descriptor, other: &Descriptor) -> bool
    ensures { result ≡ true → parts_in (descriptor_of one.now) ≡ parts_in (descriptor_of other.now) }
{
    same_owner(&one.owner, &other.owner) && same_list(&one.dacl, &other.dacl)
}

fn same_owner(one: &Option<Sid>, other: &Option<Sid>) -> bool
    ensures { result ≡ true → one.now ≡ other.now }
{
    match (one, other) {
        (None, None) => true,
        (Some(one), Some(other)) => one.is(other),
        _ => false,
    }
}

fn same_list(one: &Dacl, other: &Dacl) -> bool
    ensures { result ≡ true → dacl_entries one.now ≡ dacl_entries other.now }
{
    match (one, other) {
        (Dacl::List(one), Dacl::List(other)) => same_entries(one.entries(), other.entries()),
        (Dacl::List(_), _) => false,
        (_, Dacl::List(_)) => false,
        _ => true,
    }
}
