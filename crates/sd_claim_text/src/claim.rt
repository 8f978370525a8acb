//! Claims, as text.

ghost use Rattle.std.specs.Prelude.{◌≡◌, ◌++◌, ◌≤◌, IfOk, OnOk, length, string_bytes};
ghost use Rattle.std.specs.Option.{option_map};
ghost use Rattle.sd_text.specs.Finding.{Gives};
ghost use Rattle.sd_claim_text.specs.Found.{claim_found, end_found};
ghost use Rattle.sd_claim_text.specs.Outcome.{GivesOrMemory};
ghost use Rattle.sd_claim_text.specs.Text.{claim_text, kind_text};

use crate::error::ClaimError;
use crate::name::{parse_name, write_name};
use crate::number::parse_unsigned;
use crate::value::{parse_values, write_values};
use crate::value_type::{parse_type, type_word};
use sd_claim::Claim;
use sd_text::{Aliases, Cursor, TextFault};
use std::alloc::{AllocError, Global};

/// The most that flags can be: they have 32 bits ([MS-DTYP] 2.4.10.1).
const MAX_FLAGS: u64 = 0xffff_ffff;

/// The text of a claim ([MS-DTYP] 2.5.1.1, attribute-data), in parentheses and in one line; `None` if no such text is
/// parsed as just this claim. These have none: an empty name; a name or a text with an unpaired surrogate; a text with
/// a quote or a control character; a SID whose octets aren't its text in full; a boolean that is neither 0 nor 1. The
/// only error is out of memory.
#[tactic(auto, unfolding(crate::specs::Text::claim_text))]
pub fn print_claim(alloc: Global, claim: &Claim) -> Result<Option<String>, AllocError>
    ensures { IfOk result (λ text. option_map string_bytes text ≡ claim_text claim.now) }
{
    let mut text = String::from_str(alloc, "(")?;
    if !write_name(alloc, &mut text, claim.name().units())? {
        return Ok(None);
    }
    write_kind(&mut text, claim)?;
    if !write_values(alloc, &mut text, claim.values())? {
        return Ok(None);
    }
    text.push_str(")")?;
    Ok(Some(text))
}

/// Appends the type and the flags of a claim, each after a comma.
fn write_kind(out: &mut String, claim: &Claim) -> Result<(), AllocError>
    ensures { OnOk result (string_bytes out.new ≡ string_bytes out.old ++ kind_text claim.now) }
{
    let flags = claim.flags();
    out.push_str(",")?;
    out.push_str(type_word(claim.value_type()))?;
    write!(out, ",0x{flags:x}")
}

/// The claim here ([MS-DTYP] 2.5.1.1, attribute-data), in parentheses, after which the cursor is left. White space may
/// stand before and after each value. An error is out of memory, or the first fault, at which the cursor is left:
/// `Syntax`; `Range` at a number that is too large; what a SID's alias can be; `AclTooLarge` at the closing
/// parenthesis, if the claim's data would have more than 65,535 bytes.
#[tactic(auto, unfolding(crate::specs::Found::claim_found))]
pub fn parse_claim(
    alloc: Global,
    cursor: &mut Cursor<'_>,
    known: Aliases,
) -> Result<Claim, ClaimError>
    ensures found { GivesOrMemory (λ claim. claim) result cursor.new.rest.now
        (claim_found known cursor.old.rest.now) }
    ensures within { length cursor.new.rest.now ≤ length cursor.old.rest.now }
{
    cursor.word(b"(")?;
    let name = parse_name(alloc, cursor)?;
    cursor.word(b",")?;
    let value_type = parse_type(cursor)?;
    cursor.word(b",")?;
    let flags = parse_unsigned(cursor, MAX_FLAGS)? as u32;
    let values = parse_values(alloc, cursor, value_type, known)?;
    let claim = parse_end(cursor, Claim::new(name, flags, value_type, values))?;
    Ok(claim)
}

/// The end of a claim, if there is one.
fn parse_end(cursor: &mut Cursor<'_>, claim: Option<Claim>) -> Result<Claim, TextFault>
    ensures found { Gives (λ claim. claim) result cursor.new.rest.now (end_found claim cursor.old.rest.now) }
    ensures within { length cursor.new.rest.now ≤ length cursor.old.rest.now }
{
    match claim {
        Some(claim) => {
            cursor.word(b")")?;
            Ok(claim)
        }
        None if cursor.begins(b")") => Err(TextFault::AclTooLarge),
        None => Err(TextFault::Syntax),
    }
}
