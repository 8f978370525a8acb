//! Octets, in hexadecimal digits.

ghost use Rattle.std.specs.Prelude.{◌≡◌, ◌++◌, ◌≤◌, OnOk, length, string_bytes};
ghost use Rattle.sd_claim_text.specs.Outcome.{GivesOrMemory};
ghost use Rattle.sd_claim_text.specs.Value.{octets_found, octets_text, pairs_found};

use crate::error::ClaimError;
use crate::number::digits_of;
use hex::FromHexError;
use sd_data::Octets;
use sd_text::{Cursor, TextFault};
use std::alloc::{AllocError, Global};

/// Appends octets, two digits each; where there are none, the sign that may stand before them.
pub(crate) fn write_octets(alloc: Global, out: &mut String, octets: &[u8]) -> Result<(), AllocError>
    ensures { OnOk result (string_bytes out.new ≡ string_bytes out.old ++ octets_text octets.now) }
{
    if octets.is_empty() {
        return out.push_str("#");
    }
    let digits = hex::encode_upper(alloc, octets)?;
    out.push_str(digits.as_str())
}

/// Octets, perhaps after a `#` ([MS-DTYP] 2.5.1.1, octet-string), which only an empty string needs.
#[tactic(auto, unfolding(crate::specs::Value::octets_found))]
pub(crate) fn parse_octets(alloc: Global, cursor: &mut Cursor<'_>) -> Result<Octets, ClaimError>
    ensures found { GivesOrMemory (λ octets. octets) result cursor.new.rest.now (octets_found cursor.old.rest.now) }
    ensures within { length cursor.new.rest.now ≤ length cursor.old.rest.now }
{
    if !cursor.eat(b"#") && !cursor.begins_digit(16) {
        return Err(ClaimError::Fault(TextFault::Syntax));
    }
    parse_pairs(alloc, cursor)
}

/// The octets of all digits here.
fn parse_pairs(alloc: Global, cursor: &mut Cursor<'_>) -> Result<Octets, ClaimError>
    ensures found { GivesOrMemory (λ octets. octets) result cursor.new.rest.now (pairs_found cursor.old.rest.now) }
    ensures within { length cursor.new.rest.now ≤ length cursor.old.rest.now }
{
    let (_, len) = digits_of(cursor.rest, 16);
    let (digits, rest) = cursor.rest.split_at(len);
    cursor.rest = rest;
    match hex::decode(alloc, digits) {
        Ok(octets) => Ok(Octets::new(octets)),
        Err(FromHexError::OutOfMemory) => Err(ClaimError::Memory),
        Err(_) => Err(ClaimError::Fault(TextFault::Syntax)),
    }
}
