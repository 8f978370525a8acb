//! SIDs of a claim, which has the text of each in full.

ghost use Rattle.std.specs.Prelude.{◌≡◌, ◌≤◌, Some, None, IfOk, length, string_bytes, if◌then◌else◌};
ghost use Rattle.std.specs.Fmt.{◌++?◌};
ghost use Rattle.std.specs.Option.{option_map};
ghost use Rattle.sd_text.specs.Canon.{sid_canon};
ghost use Rattle.sd_claim_text.specs.Outcome.{GivesOrMemory};
ghost use Rattle.sd_claim_text.specs.Value.{full_sid_found, sid_of};

use crate::error::ClaimError;
use sd_data::Octets;
use sd_sid::Sid;
use sd_text::{Aliases, Cursor, print_full_sid, write_sid};
use std::alloc::{AllocError, Global};

/// Appends a SID by its alias, or else in full. Returns false if the octets aren't the text in full of one.
pub(crate) fn write_sid_of(
    alloc: Global,
    out: &mut String,
    octets: &[u8],
) -> Result<bool, AllocError>
    ensures { IfOk result (λ written. (if written then Some (string_bytes out.new) else None)
        ≡ Some (string_bytes out.old) ++? option_map sid_canon (sid_of octets.now)) }
{
    let Some(sid) = sid_of(alloc, octets)? else {
        return Ok(false);
    };
    write_sid(out, &sid)?;
    Ok(true)
}

/// The SID whose text in full, without an alias, the octets are.
#[tactic(auto, unfolding(crate::specs::Value::sid_of))]
fn sid_of(alloc: Global, octets: &[u8]) -> Result<Option<Sid>, AllocError>
    ensures { IfOk result (λ sid. sid ≡ sid_of octets.now) }
{
    let mut cursor = Cursor { rest: octets };
    let Ok(sid) = cursor.sid(Aliases::in_domain(None)) else {
        return Ok(None);
    };
    let text = print_full_sid(alloc, &sid)?;
    if text.as_bytes() == octets {
        Ok(Some(sid))
    } else {
        Ok(None)
    }
}

/// The text in full of a SID, which may have its alias here.
pub(crate) fn parse_full_sid(
    alloc: Global,
    cursor: &mut Cursor<'_>,
    known: Aliases,
) -> Result<Octets, ClaimError>
    ensures found { GivesOrMemory (λ octets. octets) result cursor.new.rest.now
        (full_sid_found known cursor.old.rest.now) }
    ensures within { length cursor.new.rest.now ≤ length cursor.old.rest.now }
{
    let sid = cursor.sid(known)?;
    let text = print_full_sid(alloc, &sid)?;
    let octets = Vec::from_slice(alloc, text.as_bytes())?;
    Ok(Octets::new(octets))
}
