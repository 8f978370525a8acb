//! Values, as comparisons see them.

ghost use Rattle.std.specs.Prelude.{◌≡◌, length, None};
ghost use Rattle.sd_sid.specs.SidBytes.{sid_reading};
ghost use Rattle.sd_text.specs.Alias.{in_domain};
ghost use Rattle.sd_text.specs.Finding.{find};
ghost use Rattle.sd_text.specs.Sid.{sid};
ghost use Rattle.sd_evaluation.specs.Seen.{seen};
ghost use Rattle.sd_evaluation.specs.Value.{claim_datum, literal_datum, sid_datum, sid_of, unterminated};
ghost use Rattle.sd_evaluation.specs.Value.{whole_bytes, whole_text};

use sd_claim::Value as InClaim;
use sd_condition::Value;
use sd_sid::{Sid, read_sid};
use sd_text::{Aliases, Cursor};

/// A value, as comparisons see it: of a literal, or of a claim.
#[derive(Clone, Copy)]
pub(crate) enum Datum<'a> {
    Number(i128),
    Text(&'a [u16]),
    Octets(&'a [u8]),
    Sid(Sid),
    /// The octets of a claim of SIDs that are none.
    Unreadable,
}

impl<'a> Datum<'a> {
    pub(crate) fn copied(&self) -> Datum<'a>
        ensures { seen result ≡ seen self.now }
    {
        match self {
            Datum::Number(number) => Datum::Number(*number),
            Datum::Text(text) => Datum::Text(text),
            Datum::Octets(octets) => Datum::Octets(octets),
            Datum::Sid(sid) => Datum::Sid(*sid),
            Datum::Unreadable => Datum::Unreadable,
        }
    }
}

/// The value of a literal.
pub(crate) fn literal_datum(value: &Value) -> Datum<'_>
    ensures { seen result ≡ literal_datum value.now }
{
    match value {
        Value::Integer(integer) => Datum::Number(integer.value as i128),
        Value::Text(text) => Datum::Text(text.units()),
        Value::Octets(octets) => Datum::Octets(octets.octets()),
        Value::Sid(sid) => Datum::Sid(*sid),
    }
}

/// The value of a claim.
pub(crate) fn claim_datum(value: &InClaim) -> Datum<'_>
    ensures { seen result ≡ claim_datum value.now }
{
    match value {
        InClaim::Integer(number) => Datum::Number(*number as i128),
        InClaim::Unsigned(number) => Datum::Number(*number as i128),
        InClaim::Text(text) => Datum::Text(text.units()),
        InClaim::Sid(octets) => sid_datum(octets.octets()),
        InClaim::Boolean(number) => Datum::Number(if *number == 0 { 0 } else { 1 }),
        InClaim::Octets(octets) => Datum::Octets(octets.octets()),
    }
}

/// The value of a claim's octets that are to be a SID.
fn sid_datum(octets: &[u8]) -> Datum<'_>
    ensures { seen result ≡ sid_datum (sid_of octets.now) }
{
    match sid_of(octets) {
        Some(sid) => Datum::Sid(sid),
        None => Datum::Unreadable,
    }
}

/// The octets without a zero that ends them.
fn unterminated(octets: &[u8]) -> &[u8]
    ensures { result.now ≡ unterminated octets.now }
{
    if !octets.is_empty() && octets[octets.len() - 1] == 0 {
        &octets[..octets.len() - 1]
    } else {
        octets
    }
}

/// The SID that all of the text is ([MS-DTYP] 2.4.2.1).
fn sid_of_text(text: &[u8]) -> Option<Sid>
    ensures { result ≡ whole_text (find (sid (in_domain None)) text.now) }
{
    let mut cursor = Cursor { rest: text };
    let sid = cursor.sid(Aliases::in_domain(None)).ok()?;
    if !cursor.rest.is_empty() {
        return None;
    }
    Some(sid)
}

/// The SID that all of the bytes are ([MS-DTYP] 2.4.2.2).
fn sid_of_bytes(bytes: &[u8]) -> Option<Sid>
    ensures { result ≡ whole_bytes (length bytes.now) (sid_reading bytes.now) }
{
    let (sid, size) = read_sid(bytes).ok()?;
    if size != bytes.len() as u64 {
        return None;
    }
    Some(sid)
}

/// The SID of a claim: as text in full, or as bytes.
#[tactic(auto, unfolding(crate::specs::Value::sid_of))]
fn sid_of(octets: &[u8]) -> Option<Sid>
    ensures { result ≡ sid_of octets.now }
{
    if (Cursor { rest: octets }).begins(b"S-1-") {
        sid_of_text(unterminated(octets))
    } else {
        sid_of_bytes(octets)
    }
}
