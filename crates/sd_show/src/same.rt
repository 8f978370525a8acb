//! Whether two entries, or two lists, are equal in all that they have.

ghost use Rattle.std.specs.Prelude.{◌≡◌};
ghost use Rattle.std.specs.Bool.{Decides};
ghost use Rattle.sd_show.specs.Same.{same_entry, same_guid, same_opaque, same_typed};

use bitflags::Flags;
use sd_whole::{Guid, OpaqueAce, TypedAce, WholeAce, WholeAcl};

/// Whether both are absent, both null, or both lists of the same revision with the same entries in the same order.
pub fn same_acl(one: &WholeAcl, other: &WholeAcl) -> bool
    ensures { Decides result (one.now ≡ other.now) }
{
    match (one, other) {
        (WholeAcl::Absent, WholeAcl::Absent) | (WholeAcl::Null, WholeAcl::Null) => true,
        (WholeAcl::List(one), WholeAcl::List(other)) => {
            one.revision() == other.revision() && same_entries(one.entries(), other.entries())
        }
        _ => false,
    }
}

fn same_entries(one: &[WholeAce], other: &[WholeAce]) -> bool
    ensures { Decides result (one.now ≡ other.now) }
{
    if one.len() != other.len() {
        return false;
    }
    for (i, entry) in one.iter().enumerate() {
        if !is_one(entry, &other[i]) {
            return false;
        }
    }
    true
}

#[tactic(auto, using(crate::proofs::NothingDiffers::same_entry_decides))]
fn is_one(entry: &WholeAce, other: &WholeAce) -> bool
    ensures { Decides result (entry.now ≡ other.now) }
{
    same_entry(entry, other)
}

/// Whether both entries have the same type, flags, mask, object types, SID and data ([MS-DTYP] 2.4.4).
pub fn same_entry(one: &WholeAce, other: &WholeAce) -> bool
    ensures { result ≡ same_entry one.now other.now }
{
    match (one, other) {
        (WholeAce::Plain(one), WholeAce::Plain(other)) => one.is(other),
        (WholeAce::Typed(one), WholeAce::Typed(other)) => same_typed(one, other),
        (WholeAce::Opaque(one), WholeAce::Opaque(other)) => same_opaque(one, other),
        _ => false,
    }
}

fn same_typed(one: &TypedAce, other: &TypedAce) -> bool
    ensures { result ≡ same_typed one.now other.now }
{
    one.kind.number() == other.kind.number()
        && one.flags.bits() == other.flags.bits()
        && one.mask.bits() == other.mask.bits()
        && same_guid(&one.types.object, &other.types.object)
        && same_guid(&one.types.inherited, &other.types.inherited)
        && one.sid.is(&other.sid)
        && one.trailing.as_slice() == other.trailing.as_slice()
}

fn same_guid(one: &Option<Guid>, other: &Option<Guid>) -> bool
    ensures { result ≡ same_guid one.now other.now }
{
    match (one, other) {
        (None, None) => true,
        (Some(one), Some(other)) => one.as_slice() == other.as_slice(),
        _ => false,
    }
}

fn same_opaque(one: &OpaqueAce, other: &OpaqueAce) -> bool
    ensures { result ≡ same_opaque one.now other.now }
{
    one.kind == other.kind
        && one.flags.bits() == other.flags.bits()
        && one.body.as_slice() == other.body.as_slice()
}
