//! What of a SACL may deny what a DACL grants, and no verdict looks at.

ghost use Rattle.std.specs.Prelude.{◌≡◌};
ghost use Rattle.std.specs.List.{list_any};
ghost use Rattle.sd_access.specs.Limits.{counts, grants, has_limits, is_limit, limits, limits_unread, may_be_denied};

use sd_acl::AceFlags;
use sd_check::Verdict;
use sd_whole::{WholeAce, WholeAcl, WholeDescriptor, WholeKind, for_children_alone};

/// Whether the verdict grants what an entry of the SACL may deny ([MS-DTYP] 2.5.3.3): an effective entry of a central
/// policy, a trust label or an access filter, one of a type that isn't known, or a label that can't be read.
pub fn may_be_denied(verdict: &Verdict, descriptor: &WholeDescriptor) -> bool
    ensures { result ≡ may_be_denied verdict.now descriptor.now }
{
    grants(verdict) && has_limits(false, &descriptor.sacl)
}

fn grants(verdict: &Verdict) -> bool
    ensures { result ≡ grants verdict.now }
{
    matches!(verdict, Verdict::Granted(_))
}

/// Whether an entry of the SACL may deny of the object itself ([MS-DTYP] 2.5.3.3), or, of a container, of what is made
/// in it, where a label that is passed on counts too.
pub fn has_limits(below: bool, acl: &WholeAcl) -> bool
    ensures { result ≡ has_limits below acl.now }
{
    match acl {
        WholeAcl::Absent | WholeAcl::Null => false,
        WholeAcl::List(list) => are_limits(below, list.entries()),
    }
}

fn are_limits(below: bool, entries: &[WholeAce]) -> bool
    ensures { result ≡ list_any (is_limit below) entries.now }
{
    entries.iter().any(|entry| is_limit(below, entry))
}

fn is_limit(below: bool, entry: &WholeAce) -> bool
    ensures { result ≡ is_limit below entry.now }
{
    match entry {
        WholeAce::Plain(_) => false,
        WholeAce::Typed(ace) => {
            let own = limits(ace.kind) && counts(below, ace.flags);
            let label = matches!(ace.kind, WholeKind::MandatoryLabel);
            own || (below && label && ace.flags.pass_on())
        }
        WholeAce::Opaque(ace) => limits_unread(ace.kind) && counts(below, ace.flags),
    }
}

fn limits(kind: WholeKind) -> bool
    ensures { result ≡ limits kind }
{
    matches!(
        kind,
        WholeKind::ScopedPolicy | WholeKind::TrustLabel | WholeKind::AccessFilter
    )
}

/// An entry of this AceType that can't be read ([MS-DTYP] 2.4.4.1).
fn limits_unread(number: u8) -> bool
    ensures { result ≡ limits_unread number }
{
    match WholeKind::of(number) {
        Some(WholeKind::MandatoryLabel) | None => true,
        Some(kind) => limits(kind),
    }
}

fn counts(below: bool, flags: AceFlags) -> bool
    ensures { result ≡ counts below flags.0 }
{
    below || !for_children_alone(flags)
}
