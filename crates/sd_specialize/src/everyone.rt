//! Entries that depend on who asks: the effective ones with a condition.

ghost use Rattle.std.specs.Prelude.{◌≡◌, ◌<◌, ◌^◌, IfSome};
ghost use Rattle.std.specs.List.{position};
ghost use Rattle.sd_specialize.specs.Everyone.{conditional_fault, conditional_place, has_condition, is_conditional};

use crate::fault::{RefusedEntry, RefusedKind, SpecializeFault};
use sd_whole::{OddKind, WholeAce, WholeAcl, WholeKind, for_children_alone};

/// The fault of an entry with a condition ([MS-DTYP] 2.4.4.17) at this place.
pub fn conditional_fault(place: usize) -> SpecializeFault
    requires { place < 2 ^ 63 }
    ensures { result ≡ conditional_fault place }
{
    SpecializeFault::Refused(RefusedEntry {
        entry: place + 1,
        kind: RefusedKind::Odd(OddKind::ConditionalAce),
    })
}

/// The place of the first effective entry with a condition ([MS-DTYP] 2.4.4.17), from 0.
pub fn conditional_place(acl: &WholeAcl) -> Option<usize>
    ensures place { result ≡ conditional_place acl.now }
    ensures within { IfSome result (λ place. place < 2 ^ 63) }
{
    match acl {
        WholeAcl::Absent | WholeAcl::Null => None,
        WholeAcl::List(list) => first_conditional(list.entries()),
    }
}

fn first_conditional(entries: &[WholeAce]) -> Option<usize>
    ensures place { result ≡ position is_conditional entries.now }
    ensures within { IfSome result (λ place. place < 2 ^ 63) }
{
    entries.iter().position(is_conditional)
}

/// Whether it is an effective entry with a condition.
pub(crate) fn is_conditional(entry: &WholeAce) -> bool
    ensures { result ≡ is_conditional entry.now }
{
    match entry {
        WholeAce::Typed(ace) => has_condition(ace.kind) && !for_children_alone(ace.flags),
        _ => false,
    }
}

pub(crate) fn has_condition(kind: WholeKind) -> bool
    ensures { result ≡ has_condition kind }
{
    matches!(
        kind,
        WholeKind::CallbackAllow
            | WholeKind::CallbackDeny
            | WholeKind::CallbackObjectAllow
            | WholeKind::CallbackObjectDeny
    )
}
