//! The way by which a user belongs to the group that is granted something.
ghost use Rattle.std.specs.Prelude.{◌≡◌, IfOk, Some, option_map};
ghost use Rattle.std.specs.List.{list_any};
ghost use Rattle.sd_sid.specs.Sid.{same_sid};
ghost use Rattle.sd_people.specs.Way.{IsWayTo, IsWithWay, holder, plain_sids, with_way};

use crate::forms::BY_WAY_OF;
use sd_accounts::Membership;
use sd_line::{Line, Part, SidMark, Value};
use sd_sid::Sid;
use std::alloc::{AllocError, Global};

/// The line with the way to whom it says that something is granted.
pub(crate) fn with_way(
    alloc: Global,
    member: &Membership<'_>,
    line: Line,
) -> Result<Line, AllocError>
    ensures { IfOk result (IsWithWay member.now.rows member.now.starts (holder line) line) }
{
    let Some(sid) = holder(&line) else {
        return Ok(line);
    };
    match way_to(alloc, member, &sid)? {
        Some(way) => with_groups(alloc, line, &way),
        None => Ok(line),
    }
}

/// The SID as which the line says that the user is granted something.
fn holder(line: &Line) -> Option<Sid>
    ensures { result ≡ holder line.now }
{
    match line.value(b"sid") {
        Some(Value::Sid(sid)) => Some(*sid),
        _ => None,
    }
}

/// A way to the SID, unless it is one of the starts.
fn way_to(alloc: Global, member: &Membership<'_>, sid: &Sid) -> Result<Option<Vec<Sid>>, AllocError>
    ensures { IfOk result (λ way. IsWayTo member.now.rows member.now.starts sid.now
        (option_map (λ groups. groups.items) way)) }
{
    if has_sid(member.starts(), sid) {
        return Ok(None);
    }
    member.way_to(alloc, sid)
}

fn has_sid(sids: &[Sid], sid: &Sid) -> bool
    ensures { result ≡ list_any (same_sid sid.now) sids.now }
{
    sids.iter().any(|other| sid.is(other))
}

/// The line with the groups of the way but for the last, where there are some.
fn with_groups(alloc: Global, line: Line, way: &[Sid]) -> Result<Line, AllocError>
    ensures { IfOk result (λ shown. shown ≡ with_way (Some way.now) line) }
{
    if way.len() < 2 {
        return Ok(line);
    }
    let groups = Value::sids(plain_sids(alloc, &way[..way.len() - 1])?);
    line.with_tail(Part::new(BY_WAY_OF, vec![in alloc; groups]?))
}

fn plain_sids(alloc: Global, sids: &[Sid]) -> Result<Vec<(Sid, SidMark)>, AllocError>
    ensures { IfOk result (λ marked. marked.items ≡ plain_sids sids.now) }
{
    let mut marked = Vec::new(alloc);
    for sid in sids {
        marked.push((*sid, SidMark::Plain))?;
    }
    Ok(marked)
}
