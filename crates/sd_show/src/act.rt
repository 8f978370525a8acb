//! What an entry does, by its type ([MS-DTYP] 2.4.4.1, AceType).

ghost use Rattle.std.specs.Prelude.{◌≡◌, ◌∷◌, [], ◌++◌, OnOk};
ghost use Rattle.sd_line.specs.Line.{part_of};
ghost use Rattle.sd_line.specs.declared.line.Value.TheVariants as values;
ghost use Rattle.sd_show.specs.Act.{act_of, act_parts, flag_words, other_mask_parts, outcome_of, policy_words, word_of};
ghost use Rattle.sd_show.specs.Control.{rows, words_set};

use crate::control::{BitWord, words_value};
use crate::forms::{ACCESS, AUDIT, LABEL, LIMIT, OF_SID, OTHER_MASK};
use crate::line_list::Parts;
use sd_line::Value;
use sd_sid::{Mask, Sid};
use sd_whole::WholeKind;
use std::alloc::AllocError;

/// What an entry does.
#[derive(Clone, Copy, PartialEq, Eq)]
pub(crate) enum Act {
    Allow,
    Deny,
    Audit,
    Alarm,
    Label,
    Attribute,
    Policy,
    TrustLabel,
    Filter,
}

/// The flag by which successes are audited (SUCCESSFUL_ACCESS_ACE_FLAG).
const SUCCESS: u8 = 0x40;

/// The flag by which failures are audited (FAILED_ACCESS_ACE_FLAG).
const FAILURE: u8 = 0x80;

/// The mask of all rights that a label speaks of ([MS-DTYP] 2.4.4.13).
const LABEL_BITS: u32 = 7;

static POLICY: [BitWord; 3] = [(1, "no-write-up"), (2, "no-read-up"), (4, "no-execute-up")];

static AUDIT_FLAGS: [BitWord; 3] = [
    (0x10, "inherited"),
    (0x04, "one-level-only"),
    (0x20, "critical"),
];

static FLAGS: [BitWord; 5] = [
    (0x10, "inherited"),
    (0x04, "one-level-only"),
    (0x20, "critical"),
    (0x40, "success"),
    (0x80, "failure"),
];

static FILTER_FLAGS: [BitWord; 5] = [
    (0x10, "inherited"),
    (0x04, "one-level-only"),
    (0x20, "critical"),
    (0x40, "trust-protected"),
    (0x80, "failure"),
];

impl Act {
    /// What entries of a kind do ([MS-DTYP] 2.4.4.1).
    pub(crate) fn of(kind: WholeKind) -> Act
        ensures { result ≡ act_of kind }
    {
        match kind {
            WholeKind::Allow
            | WholeKind::ObjectAllow
            | WholeKind::CallbackAllow
            | WholeKind::CallbackObjectAllow => Act::Allow,
            WholeKind::Deny
            | WholeKind::ObjectDeny
            | WholeKind::CallbackDeny
            | WholeKind::CallbackObjectDeny => Act::Deny,
            WholeKind::Audit
            | WholeKind::ObjectAudit
            | WholeKind::CallbackAudit
            | WholeKind::CallbackObjectAudit => Act::Audit,
            WholeKind::Alarm | WholeKind::ObjectAlarm => Act::Alarm,
            WholeKind::MandatoryLabel => Act::Label,
            WholeKind::ResourceAttribute => Act::Attribute,
            WholeKind::ScopedPolicy => Act::Policy,
            WholeKind::TrustLabel => Act::TrustLabel,
            WholeKind::AccessFilter => Act::Filter,
        }
    }

    /// Its word in a line.
    fn word(self) -> &'static str
        ensures { result.now ≡ word_of self }
    {
        match self {
            Act::Allow => "allows",
            Act::Deny => "denies",
            Act::Audit => "audits",
            Act::Alarm => "raises alarms on",
            Act::Label => "integrity label",
            Act::Attribute => "resource attribute for",
            Act::Policy => "central policy",
            Act::TrustLabel => "process trust label",
            Act::Filter => "access filter",
        }
    }

    /// The words of its flags, but those that say where it applies, and of an audit what is audited.
    pub(crate) fn flag_words(self) -> &'static [BitWord]
        ensures { rows result.now ≡ flag_words self }
    {
        match self {
            Act::Audit | Act::Alarm => &AUDIT_FLAGS,
            Act::Filter => &FILTER_FLAGS,
            _ => &FLAGS,
        }
    }

    /// Adds what it does, to which rights and whom.
    pub(crate) fn push(
        self,
        parts: &mut Parts,
        flags: u8,
        mask: Mask,
        sid: &Sid,
    ) -> Result<(), AllocError>
        ensures { OnOk result (parts.new ≡ parts.old ++ act_parts self flags mask sid.now) }
    {
        let word = Value::word(parts.alloc, self.word())?;
        match self {
            Act::Allow | Act::Deny => push_mask(parts, ACCESS, word, mask, sid),
            Act::Audit | Act::Alarm => push_audit(parts, word, flags, mask, sid),
            Act::Label => {
                push_label(parts, word, mask, sid)?;
                push_other_mask(parts, LABEL_BITS, mask)
            }
            Act::Attribute | Act::Policy => {
                push_sid(parts, word, sid)?;
                push_other_mask(parts, 0, mask)
            }
            Act::TrustLabel | Act::Filter => push_mask(parts, LIMIT, word, mask, sid),
        }
    }
}

fn push_mask(
    parts: &mut Parts,
    form: &'static str,
    word: Value,
    mask: Mask,
    sid: &Sid,
) -> Result<(), AllocError>
    ensures { OnOk result (parts.new
        ≡ parts.old ++ part_of form.now (word ∷ values.Mask mask ∷ values.Sid sid.now ∷ []) ∷ []) }
{
    let values = vec![in parts.alloc; word, Value::Mask(mask), Value::Sid(*sid)]?;
    parts.push(form, values)
}

fn push_audit(
    parts: &mut Parts,
    word: Value,
    flags: u8,
    mask: Mask,
    sid: &Sid,
) -> Result<(), AllocError>
    ensures { OnOk result (parts.new ≡ parts.old ++ part_of AUDIT.now
        (word ∷ values.Text (outcome_of flags) ∷ values.Mask mask ∷ values.Sid sid.now ∷ []) ∷ []) }
{
    let outcome = Value::word(parts.alloc, outcome_of(flags))?;
    let values = vec![in parts.alloc; word, outcome, Value::Mask(mask), Value::Sid(*sid)]?;
    parts.push(AUDIT, values)
}

/// What an audit is of.
fn outcome_of(flags: u8) -> &'static str
    ensures { result.now ≡ outcome_of flags }
{
    match (flags & SUCCESS != 0, flags & FAILURE != 0) {
        (true, true) => "success and failure",
        (true, false) => "success",
        (false, true) => "failure",
        (false, false) => "nothing",
    }
}

/// What a label denies to lower levels ([MS-DTYP] 2.4.4.13).
fn policy_words() -> &'static [BitWord]
    ensures { rows result.now ≡ policy_words }
{
    &POLICY
}

fn push_label(parts: &mut Parts, word: Value, mask: Mask, sid: &Sid) -> Result<(), AllocError>
    ensures { OnOk result (parts.new ≡ parts.old ++ part_of LABEL.now
        (word ∷ values.Sid sid.now ∷ values.Words (words_set policy_words mask) ∷ []) ∷ []) }
{
    let policy = words_value(parts.alloc, policy_words(), mask.bits())?;
    let values = vec![in parts.alloc; word, Value::Sid(*sid), policy]?;
    parts.push(LABEL, values)
}

fn push_sid(parts: &mut Parts, word: Value, sid: &Sid) -> Result<(), AllocError>
    ensures { OnOk result (parts.new ≡ parts.old ++ part_of OF_SID.now (word ∷ values.Sid sid.now ∷ []) ∷ []) }
{
    let values = vec![in parts.alloc; word, Value::Sid(*sid)]?;
    parts.push(OF_SID, values)
}

/// Adds the mask, where it has more bits than these.
fn push_other_mask(parts: &mut Parts, most: u32, mask: Mask) -> Result<(), AllocError>
    ensures { OnOk result (parts.new ≡ parts.old ++ other_mask_parts most mask) }
{
    if mask.bits() <= most {
        return Ok(());
    }
    let values = vec![in parts.alloc; Value::Mask(mask)]?;
    parts.push(OTHER_MASK, values)
}
