//! The claims of an object, which are in its SACL.

ghost use Rattle.std.specs.Prelude.{◌≡◌, ◌<◌, length, IfOk, OnErr};
ghost use Rattle.std.specs.List.{filter_map};
ghost use Rattle.sd_access.specs.Access.{claim_in, is_attribute, resource_claims};
ghost use Rattle.sd_specialize.specs.Specialize.{HasDaclEntries};

use sd_claim::{Claim, read_claim};
use sd_whole::{WholeAce, WholeAcl, WholeKind, for_children_alone};
use std::alloc::{AllocError, Global};

/// The claims of the SACL's effective resource attribute entries, in order ([MS-DTYP] 2.4.4.15); data that is no claim
/// counts as none. There is an allocation for the list, and those for parsing each claim.
pub fn resource_claims(alloc: Global, sacl: &WholeAcl) -> Result<Vec<Claim>, AllocError>
    ensures exact { IfOk result (λ claims. claims.items ≡ resource_claims sacl.now) }
    ensures memory { OnErr result (HasDaclEntries sacl.now) }
{
    match sacl {
        WholeAcl::Absent | WholeAcl::Null => Ok(Vec::new(alloc)),
        WholeAcl::List(list) => claims_in(alloc, list.entries()),
    }
}

/// The claims of the entries.
fn claims_in(alloc: Global, entries: &[WholeAce]) -> Result<Vec<Claim>, AllocError>
    ensures exact { IfOk result (λ claims. claims.items ≡ filter_map claim_in entries.now) }
    ensures memory { OnErr result (0 < length entries.now) }
{
    let mut claims = Vec::new(alloc);
    for entry in entries {
        if let Some(claim) = claim_in(alloc, entry)? {
            claims.push(claim)?;
        }
    }
    Ok(claims)
}

/// The claim of an entry, if it is an effective resource attribute entry and its data is a claim.
fn claim_in(alloc: Global, entry: &WholeAce) -> Result<Option<Claim>, AllocError>
    ensures { IfOk result (λ claim. claim ≡ claim_in entry.now) }
{
    let WholeAce::Typed(ace) = entry else {
        return Ok(None);
    };
    if !is_attribute(ace.kind) || for_children_alone(ace.flags) {
        return Ok(None);
    }
    read_claim(alloc, ace.trailing.as_slice())
}

fn is_attribute(kind: WholeKind) -> bool
    ensures { result ≡ is_attribute kind }
{
    matches!(kind, WholeKind::ResourceAttribute)
}
