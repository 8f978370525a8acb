//! The bytes after the SID of an entry: a condition, or a claim ([MS-DTYP] 2.4.4.17 and 2.4.10.1).

ghost use Rattle.std.specs.Prelude.{◌≡◌, ◌++◌, [], is_some, unwrap_or, option_map, IfOk, OnOk, string_bytes};
ghost use Rattle.sd_whole_text.specs.Data.{claim_in, condition_in, data_text, last_field};

use sd_claim::read_claim;
use sd_claim_text::print_claim;
use sd_condition::read_condition;
use sd_condition_text::print_condition;
use sd_whole::{TypedAce, WholeKind};
use std::alloc::{AllocError, Global};

/// What an entry's last field says, after its SID ([MS-DTYP] 2.5.1.1, ace).
#[derive(Clone, Copy)]
pub(crate) enum LastField {
    /// A condition.
    Condition,
    /// A claim.
    Claim,
    /// There is no such field.
    Nothing,
}

/// The last field of entries of a kind.
fn last_field(kind: WholeKind) -> LastField
    ensures { result ≡ last_field kind }
{
    match kind {
        WholeKind::CallbackAllow
        | WholeKind::CallbackDeny
        | WholeKind::CallbackObjectAllow
        | WholeKind::CallbackObjectDeny
        | WholeKind::CallbackAudit
        | WholeKind::CallbackObjectAudit
        | WholeKind::AccessFilter => LastField::Condition,
        WholeKind::ResourceAttribute => LastField::Claim,
        _ => LastField::Nothing,
    }
}

/// Appends the last field of an entry, if its kind has one; whether the bytes after its SID have a text.
pub(crate) fn push_data(alloc: Global, out: &mut String, ace: &TypedAce) -> Result<bool, AllocError>
    ensures found { IfOk result (λ found. found ≡ is_some (data_text ace.now)) }
    ensures text { OnOk result (string_bytes out.new ≡ string_bytes out.old ++ unwrap_or (data_text ace.now) []) }
{
    let bytes = ace.trailing.as_slice();
    let text = match last_field(ace.kind) {
        LastField::Condition => print_condition_in(alloc, bytes)?,
        LastField::Claim => print_claim_in(alloc, bytes)?,
        LastField::Nothing => return Ok(bytes.is_empty()),
    };
    let Some(text) = text else {
        return Ok(false);
    };
    out.push_str(";")?;
    out.push_str(&text)?;
    Ok(true)
}

/// The text of the condition in application data; `None`: it is no condition, or has no text.
#[tactic(auto, unfolding(crate::specs::Data::condition_in))]
fn print_condition_in(alloc: Global, bytes: &[u8]) -> Result<Option<String>, AllocError>
    ensures { IfOk result (λ text. option_map string_bytes text ≡ condition_in bytes.now) }
{
    match read_condition(alloc, bytes)? {
        Some(condition) => print_condition(alloc, &condition),
        None => Ok(None),
    }
}

/// The text of the claim in the bytes; `None`: they are no claim, or aren't its one written form, or it has no text.
#[tactic(auto, unfolding(crate::specs::Data::claim_in))]
fn print_claim_in(alloc: Global, bytes: &[u8]) -> Result<Option<String>, AllocError>
    ensures { IfOk result (λ text. option_map string_bytes text ≡ claim_in bytes.now) }
{
    let Some(claim) = read_claim(alloc, bytes)? else {
        return Ok(None);
    };
    let written = claim.write(alloc)?;
    if written.as_slice() == bytes {
        print_claim(alloc, &claim)
    } else {
        Ok(None)
    }
}
