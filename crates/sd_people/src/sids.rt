//! The SIDs of lines.
ghost use Rattle.std.specs.Prelude.{◌≡◌, ◌++◌, IfOk, OnOk, flat_map, map};
ghost use Rattle.sd_analysis.specs.Risks.{with_sid};
ghost use Rattle.sd_analysis.specs.Sufficient.{is_among};
ghost use Rattle.sd_people.specs.Naming.{listed_sid, once, sids_of_line, sids_of_part, sids_of_told, sids_of_value};

use crate::people::Told;
use sd_line::{Line, Part, SidMark, Value};
use sd_sid::Sid;
use std::alloc::{AllocError, Global};

/// Adds the SIDs of lines.
pub(crate) fn push_sids_of_lines(sids: &mut Vec<Sid>, lines: &[Line]) -> Result<(), AllocError>
    ensures { OnOk result (sids.new.items ≡ sids.old.items ++ flat_map sids_of_line lines.now) }
{
    for line in lines {
        push_sids_of_line(sids, line)?;
    }
    Ok(())
}

/// Adds the SIDs of lines about people, but for the people's own.
pub(crate) fn push_sids_of_people(sids: &mut Vec<Sid>, people: &[Told]) -> Result<(), AllocError>
    ensures { OnOk result (sids.new.items ≡ sids.old.items ++ flat_map sids_of_told people.now) }
{
    for told in people {
        push_sids_of_line(sids, &told.0)?;
    }
    Ok(())
}

/// Adds the SIDs of a line.
pub(crate) fn push_sids_of_line(sids: &mut Vec<Sid>, line: &Line) -> Result<(), AllocError>
    ensures { OnOk result (sids.new.items ≡ sids.old.items ++ sids_of_line line.now) }
{
    let (first, rest) = line.parts();
    if let Some(part) = first {
        push_sids_of_part(sids, part)?;
    }
    push_sids_of_parts(sids, rest)
}

fn push_sids_of_parts(sids: &mut Vec<Sid>, parts: &[Part]) -> Result<(), AllocError>
    ensures { OnOk result (sids.new.items ≡ sids.old.items ++ flat_map sids_of_part parts.now) }
{
    for part in parts {
        push_sids_of_part(sids, part)?;
    }
    Ok(())
}

fn push_sids_of_part(sids: &mut Vec<Sid>, part: &Part) -> Result<(), AllocError>
    ensures { OnOk result (sids.new.items ≡ sids.old.items ++ sids_of_part part.now) }
{
    push_sids_of_values(sids, part.values())
}

fn push_sids_of_values(sids: &mut Vec<Sid>, values: &[Value]) -> Result<(), AllocError>
    ensures { OnOk result (sids.new.items ≡ sids.old.items ++ flat_map sids_of_value values.now) }
{
    for value in values {
        push_sids_of_value(sids, value)?;
    }
    Ok(())
}

fn push_sids_of_value(sids: &mut Vec<Sid>, value: &Value) -> Result<(), AllocError>
    ensures { OnOk result (sids.new.items ≡ sids.old.items ++ sids_of_value value.now) }
{
    match value {
        Value::Sid(sid) => {
            sids.push(*sid)?;
            Ok(())
        }
        Value::Entry(entry) => {
            sids.push(entry.sid)?;
            Ok(())
        }
        Value::Sids(listed) => push_listed(sids, listed.as_slice()),
        _ => Ok(()),
    }
}

fn push_listed(sids: &mut Vec<Sid>, listed: &[(Sid, SidMark)]) -> Result<(), AllocError>
    ensures { OnOk result (sids.new.items ≡ sids.old.items ++ map listed_sid listed.now) }
{
    for one in listed {
        sids.push(one.0)?;
    }
    Ok(())
}

/// The SIDs, each once, where it stands first.
pub(crate) fn once(alloc: Global, sids: &[Sid]) -> Result<Vec<Sid>, AllocError>
    ensures { IfOk result (λ found. found.items ≡ once sids.now) }
{
    let mut found = Vec::new(alloc);
    for sid in sids {
        add_once(&mut found, sid)?;
    }
    Ok(found)
}

fn add_once(found: &mut Vec<Sid>, sid: &Sid) -> Result<(), AllocError>
    ensures { OnOk result (found.new.items ≡ with_sid found.old.items sid.now) }
{
    if !is_among(found, sid) {
        found.push(*sid)?;
    }
    Ok(())
}

fn is_among(sids: &[Sid], sid: &Sid) -> bool
    ensures { result ≡ is_among sids.now sid.now }
{
    sids.iter().any(|one| one.is(sid))
}
