//! The lines of `why`: the verdict, and the reason of each bit.
ghost use Rattle.std.specs.Prelude.{◌≡◌, ◌++◌, ◌∷◌, [], IfOk, OnOk, slice_get};
ghost use Rattle.sd_check.specs.Check.{subject};
ghost use Rattle.sd_acl.specs.Descriptor.{descriptor_of};
ghost use Rattle.sd_explain.specs.Parts.{reason_in};
ghost use Rattle.sd_line.specs.Line.{form_of, word_part};
ghost use Rattle.sd_answer.specs.Why.{cause_parts, entry_parts, explanation_lines, finding_parts, line_at, part_lines};
ghost use Rattle.sd_answer.specs.Why.{subject_value, verb_of, why_lines};

use crate::forms::{
    AS, BEYOND, BY, BY_ENTRY, BY_NO, DENIED, GRANTED, SECOND_BY_ENTRY, SECOND_BY_NO, TO_THE,
    WITHOUT, WITHOUT_A,
};
use crate::parts::entries_in;
use crate::verdict_lines::verdict_line;
use sd_acl::{Ace, Descriptor};
use sd_check::{Token, subject_of};
use sd_explain::{Cause, Explanation, Finding, PLACES, Part as Share, explain_descriptor};
use sd_line::{Line, LineForm, Part, Value};
use sd_sid::{GenericMapping, Mask, Sid};
use std::alloc::{AllocError, Global};

/// The lines of why a request is answered as it is: the verdict's, and one for each part, as `denied 0x2 by entry 1
/// (D;;0x2;;;BU) as S-1-5-32-545` ([MS-DTYP] 2.5.3.2).
pub fn why_lines(
    alloc: Global,
    mapping: &GenericMapping,
    descriptor: &Descriptor,
    token: &Token,
    asked: Mask,
) -> Result<Vec<Line>, AllocError>
    ensures { IfOk result (λ lines. lines.items
        ≡ why_lines mapping.now (descriptor_of descriptor.now) token.now asked) }
{
    let explanation = explain_descriptor(descriptor, mapping, token, asked);
    explanation_lines(alloc, descriptor, &explanation)
}

/// The lines of an explanation by this descriptor ([MS-DTYP] 2.5.3.2): the line of its verdict, and one for each part,
/// whose entries are those of the descriptor.
pub fn explanation_lines(
    alloc: Global,
    descriptor: &Descriptor,
    explanation: &Explanation,
) -> Result<Vec<Line>, AllocError>
    ensures { IfOk result (λ lines. lines.items
        ≡ explanation_lines (descriptor_of descriptor.now) explanation.now.reasons) }
{
    let list = Listed {
        alloc,
        owner: &descriptor.owner,
        entries: entries_in(&descriptor.dacl),
    };
    let mut lines = vec![in alloc; verdict_line(alloc, explanation.verdict())?]?;
    list.push_parts(&mut lines, explanation)?;
    Ok(lines)
}

/// What the lines name: the entries, and the owner for whom those of OWNER RIGHTS stand.
#[derive(Clone, Copy)]
struct Listed<'a> {
    alloc: Global,
    owner: &'a Option<Sid>,
    entries: &'a [Ace],
}

impl Listed<'_> {
    /// Adds the line of each part, in the order of their least bits.
    #[tactic(auto, unfolding(crate::specs::Why::part_lines), using(std::proofs::Common::append_assoc))]
    fn push_parts(&self, lines: &mut Vec<Line>, explanation: &Explanation) -> Result<(), AllocError>
        ensures { OnOk result (lines.new.items ≡ lines.old.items
            ++ part_lines self.now.owner.now self.now.entries.now (reason_in explanation.now.reasons) 32) }
    {
        for place in 0..PLACES {
            self.push_line_at(lines, explanation.part(place))?;
        }
        Ok(())
    }

    /// Adds the line of a part, where there is one.
    fn push_line_at(&self, lines: &mut Vec<Line>, part: Option<Share>) -> Result<(), AllocError>
        ensures { OnOk result (lines.new.items
            ≡ lines.old.items ++ line_at self.now.owner.now self.now.entries.now part) }
    {
        let Some(part) = part else {
            return Ok(());
        };
        let form = verb(part.cause);
        let mask = vec![in self.alloc; Value::Mask(part.mask)]?;
        let mut parts = vec![in self.alloc; Part::new(form.1, mask)]?;
        self.push_cause(&mut parts, part.cause)?;
        lines.push(Line::of(form.0, parts))?;
        Ok(())
    }

    /// Adds why; of a restricted token, each pass by itself.
    fn push_cause(&self, parts: &mut Vec<Part>, cause: Cause) -> Result<(), AllocError>
        ensures { OnOk result (parts.new.items
            ≡ parts.old.items ++ cause_parts self.now.owner.now self.now.entries.now cause) }
    {
        match cause {
            Cause::Listed(finding) => self.push_finding(parts, BY_ENTRY, BY_NO, finding),
            Cause::Restricted(first, second) => {
                self.push_finding(parts, BY_ENTRY, BY_NO, first)?;
                self.push_finding(parts, SECOND_BY_ENTRY, SECOND_BY_NO, second)
            }
            Cause::NoList => self.push_word(parts, WITHOUT_A, "list"),
            Cause::Owner => self.push_word(parts, TO_THE, "owner"),
            Cause::TakeOwnership => self.push_word(parts, BY, "SeTakeOwnershipPrivilege"),
            Cause::Security => self.push_word(parts, BY, "SeSecurityPrivilege"),
            Cause::NoSecurity => self.push_word(parts, WITHOUT, "SeSecurityPrivilege"),
            Cause::BeyondAll => self.push_word(parts, BEYOND, "GENERIC_ALL"),
            Cause::Reserved => self.push_word(parts, AS, "reserved"),
            Cause::Label => self.push_word(parts, BY, "the label"),
        }
    }

    fn push_word(
        &self,
        parts: &mut Vec<Part>,
        form: &'static str,
        word: &str,
    ) -> Result<(), AllocError>
        ensures { OnOk result (parts.new.items ≡ parts.old.items ++ word_part form.now word.now ∷ []) }
    {
        parts.push(Part::word(self.alloc, form, word)?)?;
        Ok(())
    }

    /// Adds what a pass found, in the words for an entry, or in those for none.
    fn push_finding(
        &self,
        parts: &mut Vec<Part>,
        by_entry: &'static str,
        by_no: &'static str,
        finding: Finding,
    ) -> Result<(), AllocError>
        ensures { OnOk result (parts.new.items ≡ parts.old.items
            ++ finding_parts by_entry.now by_no.now self.now.owner.now self.now.entries.now finding) }
    {
        match finding {
            Finding::Allowed(place) | Finding::Denied(place) => {
                self.push_entry(parts, by_entry, place)
            }
            Finding::NoEntry => self.push_word(parts, by_no, "entry"),
        }
    }

    /// Adds the entry at the place, where there is one.
    fn push_entry(
        &self,
        parts: &mut Vec<Part>,
        form: &'static str,
        place: usize,
    ) -> Result<(), AllocError>
        ensures { OnOk result (parts.new.items ≡ parts.old.items
            ++ entry_parts form.now self.now.owner.now place (slice_get self.now.entries.now place)) }
    {
        match self.entries.get(place) {
            None => Ok(()),
            Some(entry) => {
                let number = Value::Number(place as u64 + 1);
                let whom = self.subject_value(&entry.sid)?;
                let values = vec![in self.alloc; number, Value::Entry(*entry), whom]?;
                parts.push(Part::new(form, values))?;
                Ok(())
            }
        }
    }

    /// Whom an entry for the SID speaks of.
    fn subject_value(&self, sid: &Sid) -> Result<Value, AllocError>
        ensures { IfOk result (λ value. value ≡ subject_value (subject self.now.owner.now sid.now)) }
    {
        match subject_of(self.owner, sid) {
            None => Value::word(self.alloc, ""),
            Some(subject) => Ok(Value::Sid(*subject)),
        }
    }
}

/// What becomes of a bit of the cause.
fn verb(cause: Cause) -> LineForm
    ensures { form_of result ≡ verb_of cause }
{
    if cause.grants() { GRANTED } else { DENIED }
}
