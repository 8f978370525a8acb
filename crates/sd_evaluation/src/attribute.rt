//! The claims that attributes mean.

ghost use Rattle.std.specs.Prelude.{◌≡◌, IfSome, false};
ghost use Rattle.std.specs.Option.{option_copied};
ghost use Rattle.sd_evaluation.specs.Facts.{attribute_claim, claims_of, is_case_sensitive, is_there};

use crate::facts::Facts;
use crate::text::same_text;
use sd_acl::AceKind;
use sd_claim::Claim;
use sd_condition::{Attribute, Scope};

/// CLAIM_SECURITY_ATTRIBUTE_VALUE_CASE_SENSITIVE ([MS-DTYP] 2.4.10.1).
const CASE_SENSITIVE: u32 = 0x2;

/// CLAIM_SECURITY_ATTRIBUTE_USE_FOR_DENY_ONLY.
const USE_FOR_DENY_ONLY: u32 = 0x4;

/// CLAIM_SECURITY_ATTRIBUTE_DISABLED.
const DISABLED: u32 = 0x10;

/// Whether the claim's texts compare with case.
pub(crate) fn is_case_sensitive(claim: &Claim) -> bool
    ensures { result ≡ is_case_sensitive claim.now }
{
    claim.flags() & CASE_SENSITIVE != 0
}

/// Whether the claim is there for an entry of the kind.
fn is_there(kind: AceKind, claim: &Claim) -> bool
    ensures { result ≡ is_there kind claim.now }
{
    let flags = claim.flags();
    flags & DISABLED == 0
        && (kind == AceKind::Deny || flags & USE_FOR_DENY_ONLY == 0)
        && !claim.values().is_empty()
}

/// The claims of a scope.
fn claims_of<'a>(facts: &Facts<'a>, scope: Scope) -> &'a [Claim]
    ensures { result.now ≡ claims_of facts.now scope }
{
    match scope {
        Scope::Local => facts.local,
        Scope::User => facts.user,
        Scope::Resource => facts.resource,
        Scope::Device => facts.device,
    }
}

/// The claim that an attribute means, if it is there.
pub(crate) fn attribute_claim<'a>(
    facts: &Facts<'a>,
    kind: AceKind,
    attribute: &Attribute,
) -> Option<&'a Claim>
    ensures { option_copied result ≡ attribute_claim facts.now kind attribute.now }
{
    let name = attribute.name.units();
    for claim in claims_of(facts, attribute.scope) {
        if is_there(kind, claim) && same_text(false, claim.name().units(), name) {
            return Some(claim);
        }
    }
    None
}
