//! The bytes after the SID of an entry: a condition, a claim, or other data ([MS-DTYP] 2.4.4.17 and 2.4.10.1).

ghost use Rattle.std.specs.Prelude.{◌≡◌, ◌∷◌, [], ◌++◌, IfOk, OnOk, option_map, string_bytes};
ghost use Rattle.sd_show.specs.Data.{claim_parts, condition_parts, data_parts, data_part, other_parts};
ghost use Rattle.sd_whole_text.specs.Data.{claim_in, condition_in};

use crate::forms::{CLAIM, CONDITION, DATA, UNKNOWN_CONDITION};
use crate::line_list::Parts;
use sd_claim::read_claim;
use sd_claim_text::print_claim;
use sd_condition::read_condition;
use sd_condition_text::print_condition;
use sd_whole::WholeKind;
use std::alloc::{AllocError, Global};

/// Adds the bytes after the SID of an entry of this kind.
pub(crate) fn push_data(parts: &mut Parts, kind: WholeKind, bytes: &[u8]) -> Result<(), AllocError>
    ensures { OnOk result (parts.new ≡ parts.old ++ data_parts kind bytes.now) }
{
    match kind {
        WholeKind::CallbackAllow
        | WholeKind::CallbackDeny
        | WholeKind::CallbackObjectAllow
        | WholeKind::CallbackObjectDeny
        | WholeKind::CallbackAudit
        | WholeKind::CallbackObjectAudit
        | WholeKind::AccessFilter => push_condition(parts, bytes),
        WholeKind::ResourceAttribute => push_claim(parts, bytes),
        _ => push_other(parts, bytes),
    }
}

/// Adds the text of a condition, or its bytes where it has none.
fn push_condition(parts: &mut Parts, bytes: &[u8]) -> Result<(), AllocError>
    ensures { OnOk result (parts.new ≡ parts.old ++ condition_parts (condition_in bytes.now) bytes.now) }
{
    match condition_text(parts.alloc, bytes)? {
        Some(text) => parts.push_text(CONDITION, text),
        None => push_bytes(parts, UNKNOWN_CONDITION, bytes),
    }
}

/// The text of the condition in application data ([MS-DTYP] 2.4.4.17); `None`: it is no condition, or has no text. The
/// only error is out of memory.
#[tactic(auto, unfolding(sd_whole_text::specs::Data::condition_in))]
pub fn condition_text(alloc: Global, bytes: &[u8]) -> Result<Option<String>, AllocError>
    ensures { IfOk result (λ text. option_map string_bytes text ≡ condition_in bytes.now) }
{
    match read_condition(alloc, bytes)? {
        Some(condition) => print_condition(alloc, &condition),
        None => Ok(None),
    }
}

/// Adds the text of a claim, or its bytes where it has none.
fn push_claim(parts: &mut Parts, bytes: &[u8]) -> Result<(), AllocError>
    ensures { OnOk result (parts.new ≡ parts.old ++ claim_parts (claim_in bytes.now) bytes.now) }
{
    match claim_text(parts.alloc, bytes)? {
        Some(text) => parts.push_text(CLAIM, text),
        None => push_other(parts, bytes),
    }
}

/// The text of the claim in the bytes; `None`: they are no claim, or aren't its one written form, or it has no text.
#[tactic(auto, unfolding(sd_whole_text::specs::Data::claim_in))]
fn claim_text(alloc: Global, bytes: &[u8]) -> Result<Option<String>, AllocError>
    ensures { IfOk result (λ text. option_map string_bytes text ≡ claim_in bytes.now) }
{
    let Some(claim) = read_claim(alloc, bytes)? else {
        return Ok(None);
    };
    let written = claim.write(alloc)?;
    if written.as_slice() == bytes {
        print_claim(alloc, &claim)
    } else {
        Ok(None)
    }
}

/// Adds bytes that have no meaning, if there are any.
pub(crate) fn push_other(parts: &mut Parts, bytes: &[u8]) -> Result<(), AllocError>
    ensures { OnOk result (parts.new ≡ parts.old ++ other_parts bytes.now) }
{
    if bytes.is_empty() {
        return Ok(());
    }
    push_bytes(parts, DATA, bytes)
}

/// Adds bytes in hexadecimal digits.
fn push_bytes(parts: &mut Parts, form: &'static str, bytes: &[u8]) -> Result<(), AllocError>
    ensures { OnOk result (parts.new ≡ parts.old ++ data_part form.now bytes.now ∷ []) }
{
    let text = hex::encode(parts.alloc, bytes)?;
    parts.push_text(form, text)
}
