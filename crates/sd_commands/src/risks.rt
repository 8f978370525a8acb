//! The lines of risks, which `--risks` adds to those of `lint`.
ghost use Rattle.std.specs.Prelude.{◌≡◌, ◌++◌, IfOk, OnOk, map};
ghost use Rattle.sd_acl.specs.Descriptor.{descriptor_of};
ghost use Rattle.sd_line.specs.Line.{form_of};
ghost use Rattle.sd_commands.specs.Risks.{about, grant_form, grant_line, right_name, risk_line, risk_lines};
ghost use Rattle.sd_commands.specs.Risks.{unknown_line};

use crate::settings::Settings;
use sd_acl::{Ace, Descriptor};
use sd_analysis::{Base, Descendant, Right, Risk, risks_in};
use sd_answer::{
    EMPTY_DACL, OWNER_CANNOT_READ, RISKY_GRANT, RISKY_GRANT_BELOW, UNKNOWN_GROUP, UNKNOWN_OWNER,
    UNKNOWN_SID, push_made,
};
use sd_line::{Line, LineForm, Part, Value};
use sd_sid::Sid;
use std::alloc::{AllocError, Global};

/// Adds a line for each risk in the descriptor, where risks are asked for.
pub(crate) fn push_risks(
    alloc: Global,
    out: &mut Vec<Line>,
    settings: &Settings,
    descriptor: &Descriptor,
    base: &Base<'_>,
) -> Result<(), AllocError>
    ensures { OnOk result
        (out.new.items ≡ out.old.items ++ risk_lines settings.now (descriptor_of descriptor.now) base.now) }
{
    if !settings.risks {
        return Ok(());
    }
    let given = settings.concern.sids();
    let risks = risks_in(alloc, descriptor, &settings.mapping, base, given)?;
    push_lines(alloc, out, &risks)
}

fn push_lines(alloc: Global, out: &mut Vec<Line>, risks: &[Risk]) -> Result<(), AllocError>
    ensures { OnOk result (out.new.items ≡ out.old.items ++ map risk_line risks.now) }
{
    for risk in risks {
        out.push(risk_line(alloc, risk)?)?;
    }
    Ok(())
}

pub(crate) fn risk_line(alloc: Global, risk: &Risk) -> Result<Line, AllocError>
    ensures { IfOk result (λ line. line ≡ risk_line risk.now) }
{
    match risk {
        Risk::EmptyList => Line::new(alloc, EMPTY_DACL, Vec::new(alloc)),
        Risk::OwnerCannotRead(sid) => about(alloc, OWNER_CANNOT_READ, sid),
        Risk::Grants(whose, sid, right) => grant_line(alloc, *whose, sid, *right),
        Risk::UnknownEntry(number, entry) => unknown_line(alloc, *number, entry),
        Risk::UnknownOwner(sid) => about(alloc, UNKNOWN_OWNER, sid),
        Risk::UnknownGroup(sid) => about(alloc, UNKNOWN_GROUP, sid),
    }
}

/// The line of what is so of a SID.
fn about(alloc: Global, form: LineForm, sid: &Sid) -> Result<Line, AllocError>
    ensures { IfOk result (λ line. line ≡ about (form_of form.entry) sid.now) }
{
    Line::new(alloc, form, vec![in alloc; Value::Sid(*sid)]?)
}

/// The line of a right to the object, or to what is made in it, that a SID of concern has.
fn grant_line(
    alloc: Global,
    whose: Option<Descendant>,
    sid: &Sid,
    right: Right,
) -> Result<Line, AllocError>
    ensures { IfOk result (λ line. line ≡ grant_line whose sid.now right) }
{
    let (kind, words) = grant_form(whose);
    let mut parts = Vec::new(alloc);
    push_made(alloc, &mut parts, whose)?;
    let right = Value::word(alloc, right_name(right))?;
    parts.push(Part::new(words, vec![in alloc; Value::Sid(*sid), right]?))?;
    Ok(Line::of(kind, parts))
}

fn grant_form(whose: Option<Descendant>) -> LineForm
    ensures { form_of result ≡ grant_form whose }
{
    match whose {
        None => RISKY_GRANT,
        Some(_) => RISKY_GRANT_BELOW,
    }
}

pub(crate) fn right_name(right: Right) -> &'static str
    ensures { result.now ≡ right_name right }
{
    match right {
        Right::FullControl => "full-control",
        Right::Write => "write",
        Right::Delete => "delete",
        Right::ChangePermissions => "change-permissions",
    }
}

/// The line of an entry, counted from 1, whose SID is of no known kind.
fn unknown_line(alloc: Global, number: usize, entry: &Ace) -> Result<Line, AllocError>
    ensures { IfOk result (λ line. line ≡ unknown_line number entry.now) }
{
    let values = vec![in alloc; Value::Number(number as u64), Value::Entry(*entry)]?;
    Line::new(alloc, UNKNOWN_SID, values)
}
