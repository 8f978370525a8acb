//! The lines of risks of whole descriptors: what is granted whatever conditions come to, and what if they allow it.
ghost use Rattle.std.specs.Prelude.{◌≡◌, ◌++◌, ◌-◌, IfOk, OnOk, slice_get};
ghost use Rattle.std.specs.List.{flat_map, list_any};
ghost use Rattle.sd_acl.specs.Descriptor.{descriptor_of};
ghost use Rattle.sd_specialize.specs.Specialize.{Gives};
ghost use Rattle.sd_commands.specs.WholeRisks.{is_grant, is_kept, is_owner_risk, least_lines, line_in};
ghost use Rattle.sd_commands.specs.WholeRisks.{lines_between, most_lines, right_lines, right_number, value_of};
ghost use Rattle.sd_commands.specs.WholeRisks.{whole_risk_lines};

use crate::forms::MAY_BE_GRANTED;
use crate::risks::{right_name, risk_line};
use crate::settings::CommandContext;
use sd_acl::{Ace, Descriptor};
use sd_analysis::{Base, Right, Risk, risks_in};
use sd_answer::UNKNOWN_SID;
use sd_line::{Line, Value};
use sd_sid::Sid;
use sd_specialize::SpecializeError;
use sd_text::RightNames;
use sd_whole::{WholeAce, WholeDescriptor};
use sd_whole_lint::{Bound, entry_value, settled, whole_entries};
use std::alloc::{AllocError, Global};

impl CommandContext<'_> {
    /// The lines, where risks are asked for, of the whole descriptor that is this plain one whoever asks; or that a
    /// list gets too large.
    pub(crate) fn whole_risks(
        &self,
        whole: &WholeDescriptor,
        plain: &Descriptor,
        base: &Base<'_>,
    ) -> Result<Vec<Line>, SpecializeError>
        ensures { Gives (λ lines. lines.items) result
            (whole_risk_lines self.now.settings.now whole.now (descriptor_of plain.now) base.now) }
    {
        if !self.settings.risks {
            return Ok(Vec::new(self.alloc));
        }
        let named = self.settings.principal_self;
        let least = settled(self.alloc, named, Bound::Least, &whole.dacl, plain)?;
        let most = settled(self.alloc, named, Bound::Most, &whole.dacl, plain)?;
        Ok(self.lines_between(whole, base, &least, &most)?)
    }

    fn lines_between(
        &self,
        whole: &WholeDescriptor,
        base: &Base<'_>,
        least: &Descriptor,
        most: &Descriptor,
    ) -> Result<Vec<Line>, AllocError>
        ensures { IfOk result (λ lines. lines.items ≡ lines_between self.now.settings.now whole.now base.now
            (descriptor_of least.now) (descriptor_of most.now)) }
    {
        let (mapping, given) = (&self.settings.mapping, self.settings.concern.sids());
        let least = risks_in(self.alloc, least, mapping, base, given)?;
        let most = risks_in(self.alloc, most, mapping, base, given)?;
        let entries = WholeEntries {
            alloc: self.alloc,
            names: self.settings.spelling.right_names(),
            entries: whole_entries(&whole.dacl),
        };
        let mut lines = Vec::new(self.alloc);
        entries.push_least(&mut lines, &least, &most)?;
        push_most(self.alloc, &mut lines, &least, &most)?;
        Ok(lines)
    }
}

/// The entries of a whole list, which lines are about.
#[derive(Clone, Copy)]
struct WholeEntries<'a> {
    alloc: Global,
    names: RightNames,
    entries: &'a [WholeAce],
}

impl WholeEntries<'_> {
    /// Adds what is so whatever conditions come to: risks where least is granted.
    fn push_least(
        &self,
        lines: &mut Vec<Line>,
        least: &[Risk],
        most: &[Risk],
    ) -> Result<(), AllocError>
        ensures { OnOk result (lines.new.items
            ≡ lines.old.items ++ flat_map (least_lines self.now.names self.now.entries.now most.now) least.now) }
    {
        for risk in least {
            self.push_one(lines, risk, most)?;
        }
        Ok(())
    }

    fn push_one(&self, lines: &mut Vec<Line>, risk: &Risk, most: &[Risk]) -> Result<(), AllocError>
        ensures { OnOk result (lines.new.items
            ≡ lines.old.items ++ least_lines self.now.names self.now.entries.now most.now risk.now) }
    {
        if is_kept(most, risk) {
            lines.push(self.line_in(risk)?)?;
        }
        Ok(())
    }

    /// The line of a risk, whose entry is that of the whole list.
    fn line_in(&self, risk: &Risk) -> Result<Line, AllocError>
        ensures { IfOk result (λ line. line ≡ line_in self.now.names self.now.entries.now risk.now) }
    {
        match risk {
            Risk::UnknownEntry(number, entry) => {
                let value = self.value_of(*number, entry)?;
                let values = vec![in self.alloc; Value::Number(*number as u64), value]?;
                Line::new(self.alloc, UNKNOWN_SID, values)
            }
            _ => risk_line(self.alloc, risk),
        }
    }

    /// The entry of the number, which is this plain one.
    fn value_of(&self, number: usize, entry: &Ace) -> Result<Value, AllocError>
        ensures { IfOk result (λ value. value
            ≡ value_of self.now.names (slice_get self.now.entries.now (number - 1)) entry.now) }
    {
        match self.entries.get(number.saturating_sub(1)) {
            Some(whole) => entry_value(self.alloc, self.names, whole),
            None => Ok(Value::Entry(*entry)),
        }
    }
}

/// Whether a risk where least is granted is one whatever conditions come to: the owner may read where most is granted,
/// unless it is a risk there too.
fn is_kept(most: &[Risk], risk: &Risk) -> bool
    ensures { result ≡ is_kept most.now risk.now }
{
    !is_owner_risk(risk) || any_owner_risk(most)
}

fn any_owner_risk(risks: &[Risk]) -> bool
    ensures { result ≡ list_any is_owner_risk risks.now }
{
    risks.iter().any(is_owner_risk)
}

fn is_owner_risk(risk: &Risk) -> bool
    ensures { result ≡ is_owner_risk risk.now }
{
    matches!(risk, Risk::OwnerCannotRead(_))
}

/// Adds what is so if conditions allow it: rights where most is granted that aren't where least is.
fn push_most(
    alloc: Global,
    lines: &mut Vec<Line>,
    least: &[Risk],
    most: &[Risk],
) -> Result<(), AllocError>
    ensures { OnOk result (lines.new.items ≡ lines.old.items ++ flat_map (most_lines least.now) most.now) }
{
    for risk in most {
        push_possible(alloc, lines, least, risk)?;
    }
    Ok(())
}

fn push_possible(
    alloc: Global,
    lines: &mut Vec<Line>,
    least: &[Risk],
    risk: &Risk,
) -> Result<(), AllocError>
    ensures { OnOk result (lines.new.items ≡ lines.old.items ++ most_lines least.now risk.now) }
{
    match risk {
        Risk::Grants(None, sid, right) => {
            push_right(alloc, lines, is_granted(least, sid, *right), sid, *right)
        }
        _ => Ok(()),
    }
}

/// Adds the line of a right that the SID may be granted, unless it is granted it anyhow.
fn push_right(
    alloc: Global,
    lines: &mut Vec<Line>,
    anyhow: bool,
    sid: &Sid,
    right: Right,
) -> Result<(), AllocError>
    ensures { OnOk result (lines.new.items ≡ lines.old.items ++ right_lines anyhow sid.now right) }
{
    if anyhow {
        return Ok(());
    }
    let right = Value::word(alloc, right_name(right))?;
    let values = vec![in alloc; Value::Sid(*sid), right]?;
    lines.push(Line::new(alloc, MAY_BE_GRANTED, values)?)?;
    Ok(())
}

/// Whether one of the risks is that the SID has the right to the object.
fn is_granted(risks: &[Risk], sid: &Sid, right: Right) -> bool
    ensures { result ≡ list_any (is_grant sid.now right) risks.now }
{
    risks.iter().any(|risk| is_grant(sid, right, risk))
}

fn is_grant(sid: &Sid, right: Right, risk: &Risk) -> bool
    ensures { result ≡ is_grant sid.now right risk.now }
{
    match risk {
        Risk::Grants(None, whose, other) => {
            sid.is(whose) && right_number(right) == right_number(*other)
        }
        _ => false,
    }
}

fn right_number(right: Right) -> u8
    ensures { result ≡ right_number right }
{
    match right {
        Right::FullControl => 0,
        Right::Write => 1,
        Right::Delete => 2,
        Right::ChangePermissions => 3,
    }
}
