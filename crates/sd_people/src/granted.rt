//! The lines of what is granted to a user.
ghost use Rattle.std.specs.Prelude.{◌≡◌, IfOk, drop};
ghost use Rattle.sd_people.specs.Lines.{leaves_out, person};
ghost use Rattle.sd_people.specs.Way.{AreGranted};

use crate::forms::PERSON;
use crate::people::Told;
use crate::way::with_way;
use sd_accounts::Membership;
use sd_answer::LABEL_ALONE;
use sd_commands::escaped_word;
use sd_line::{Line, Part, Value};
use sd_sid::Sid;
use std::alloc::{AllocError, Global};

/// Of the lines of `why` those of what is granted, each with the way to whom it is granted, and the user.
pub(crate) fn grants_of(
    alloc: Global,
    member: &Membership<'_>,
    user: &Sid,
    name: &str,
    lines: Vec<Line>,
) -> Result<Vec<Told>, AllocError>
    ensures { IfOk result (λ told. AreGranted member.now.rows member.now.starts (user.now, name.now)
        (drop 1 lines.items) told.items) }
{
    let mut told = Vec::new(alloc);
    for line in without_first(lines) {
        if line.is_of("granted") {
            let line = with_way(alloc, member, line)?;
            told.push((line, person(alloc, PERSON, user, name)?))?;
        }
    }
    Ok(told)
}

fn without_first(mut lines: Vec<Line>) -> Vec<Line>
    ensures { result.items ≡ drop 1 lines.items }
{
    if !lines.is_empty() {
        lines.remove(0);
    }
    lines
}

/// Whom a line is about.
pub(crate) fn person(
    alloc: Global,
    form: &'static str,
    user: &Sid,
    name: &str,
) -> Result<Part, AllocError>
    ensures { IfOk result (λ part. part ≡ person form.now (user.now, name.now)) }
{
    // (a name is from outside: it neither writes a line of its own nor reaches a terminal)
    let name = Value::text(escaped_word(alloc, name)?);
    let values = vec![in alloc; Value::Sid(*user), name]?;
    Ok(Part::new(form, values))
}

/// Whether the lines of `why` say that something was left out.
pub(crate) fn leaves_out(lines: &[Line]) -> bool
    ensures { result ≡ leaves_out lines.now }
{
    lines.iter().any(|line| line.is_of(LABEL_ALONE.0))
}
