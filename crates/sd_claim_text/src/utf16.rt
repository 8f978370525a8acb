//! Texts in UTF-8 as units of UTF-16.

ghost use Rattle.std.specs.Prelude.{◌+◌, ◌++◌, ◌≤◌, length, OnOk};
ghost use Rattle.sd_claim_text.specs.Outcome.{GivesOrMemory};
ghost use Rattle.sd_claim_text.specs.Parser.{mapped};
ghost use Rattle.sd_claim_text.specs.Utf16.{utf16_front};

use crate::error::ClaimError;
use sd_data::push_utf16;
use sd_text::{Cursor, TextFault};
use std::str::from_utf8;

/// Consumes so many bytes and appends their units. They are no text in UTF-8: a fault, and nothing is consumed.
#[tactic(auto, using(sd_data::proofs::Utf8::is_utf8_text, sd_data::proofs::Utf8::is_no_utf8_text))]
pub(crate) fn parse_utf16(
    cursor: &mut Cursor<'_>,
    len: usize,
    units: &mut Vec<u16>,
) -> Result<(), ClaimError>
    requires { len ≤ length cursor.old.rest.now }
    ensures found { GivesOrMemory (λ _. units.new.items) result cursor.new.rest.now
        (mapped (λ more. units.old.items ++ more) (utf16_front len cursor.old.rest.now)) }
    ensures within { length cursor.new.rest.now ≤ length cursor.old.rest.now }
    ensures less { OnOk result (length cursor.new.rest.now + len ≤ length cursor.old.rest.now) }
{
    let (front, rest) = cursor.rest.split_at(len);
    let Ok(text) = from_utf8(front) else {
        return Err(ClaimError::Fault(TextFault::Syntax));
    };
    push_utf16(units, text)?;
    cursor.rest = rest;
    Ok(())
}
