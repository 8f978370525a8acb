//! The last field of an entry: [MS-DTYP] 2.5.1.1, conditional-ace and resource-attribute-ace.

ghost use Rattle.std.specs.Prelude.{◌≡◌, ◌≤◌, ◌%◌, IfOk, OnOk, length};
ghost use Rattle.sd_whole_parse.specs.Data.{claim_field, condition_field, data_found, has_condition};
ghost use Rattle.sd_whole_parse.specs.Finding.{GivesOrMemory};

use crate::stop::Stop;
use sd_claim_text::{ClaimError, parse_claim};
use sd_condition_parse::{ConditionError, parse_condition};
use sd_text::{Aliases, Cursor};
use sd_whole::{AceData, WholeKind};
use std::alloc::Global;

/// The bytes of the last field: none in an entry of a kind that has no such field.
#[tactic(auto, unfolding(crate::specs::Data::data_found))]
pub(crate) fn read_data(
    alloc: Global,
    cursor: &mut Cursor<'_>,
    known: Aliases,
    kind: WholeKind,
) -> Result<AceData, Stop>
    ensures found { GivesOrMemory (λ bytes. bytes) result cursor.new.rest.now
        (data_found known kind cursor.old.rest.now) }
    ensures aligned { IfOk result (λ bytes. length bytes % 4 ≡ 0) }
    ensures shorter { OnOk result (length cursor.new.rest.now ≤ length cursor.old.rest.now) }
{
    if has_condition(kind) {
        return read_condition_field(alloc, cursor, known);
    }
    if matches!(kind, WholeKind::ResourceAttribute) {
        return read_claim_field(alloc, cursor, known);
    }
    let none = AceData::copied(alloc, &[])?;
    Ok(none)
}

/// Whether the last field of entries of this kind is a condition.
fn has_condition(kind: WholeKind) -> bool
    ensures { result ≡ has_condition kind }
{
    matches!(
        kind,
        WholeKind::CallbackAllow
            | WholeKind::CallbackDeny
            | WholeKind::CallbackObjectAllow
            | WholeKind::CallbackAudit
            | WholeKind::AccessFilter
    )
}

/// The field of a condition. Returns the condition's application data ([MS-DTYP] 2.4.4.17.4).
#[tactic(auto, unfolding(crate::specs::Data::condition_field), using(crate::proofs::Padding::condition_aligned))]
fn read_condition_field(
    alloc: Global,
    cursor: &mut Cursor<'_>,
    known: Aliases,
) -> Result<AceData, Stop>
    ensures found { GivesOrMemory (λ bytes. bytes) result cursor.new.rest.now
        (condition_field known cursor.old.rest.now) }
    ensures aligned { IfOk result (λ bytes. length bytes % 4 ≡ 0) }
    ensures shorter { OnOk result (length cursor.new.rest.now ≤ length cursor.old.rest.now) }
{
    cursor.word(b";")?;
    let condition = match parse_condition(alloc, cursor, known) {
        Ok(condition) => condition,
        Err(ConditionError::Fault(fault)) => return Err(Stop::Fault(fault)),
        Err(ConditionError::Memory) => return Err(Stop::Memory),
    };
    let bytes = condition.write(alloc)?;
    let kept = AceData::copied(alloc, &bytes)?;
    Ok(kept)
}

/// The field of a claim. Returns the claim's bytes ([MS-DTYP] 2.4.10.1).
#[tactic(auto, unfolding(crate::specs::Data::claim_field), using(crate::proofs::Padding::claim_aligned))]
fn read_claim_field(alloc: Global, cursor: &mut Cursor<'_>, known: Aliases) -> Result<AceData, Stop>
    ensures found { GivesOrMemory (λ bytes. bytes) result cursor.new.rest.now
        (claim_field known cursor.old.rest.now) }
    ensures aligned { IfOk result (λ bytes. length bytes % 4 ≡ 0) }
    ensures shorter { OnOk result (length cursor.new.rest.now ≤ length cursor.old.rest.now) }
{
    cursor.word(b";")?;
    let claim = match parse_claim(alloc, cursor, known) {
        Ok(claim) => claim,
        Err(ClaimError::Fault(fault)) => return Err(Stop::Fault(fault)),
        Err(ClaimError::Memory) => return Err(Stop::Memory),
    };
    let bytes = claim.write(alloc)?;
    let kept = AceData::copied(alloc, &bytes)?;
    Ok(kept)
}
