//! What a user gains and loses.
ghost use Rattle.std.specs.Prelude.{◌≡◌, IfOk};
ghost use Rattle.sd_line.specs.Line.{form_of};
ghost use Rattle.sd_people.specs.Change.{change, changes, granted_mask, mask_of_line};

use crate::forms::{BY_PERSON, GAINED_BY, LOST_BY};
use crate::granted::person;
use crate::people::Told;
use sd_line::{Line, LineForm, Value};
use sd_sid::{Mask, Sid};
use std::alloc::{AllocError, Global};

/// The mask MAXIMUM_ALLOWED: all rights that the user is granted ([MS-DTYP] 2.4.3).
pub(crate) const ALL_GRANTED: &str = "0x02000000";

/// The lines of what the user gains, and then of what it loses, where it was granted the first mask, and is granted the
/// second.
pub(crate) fn changes(
    alloc: Global,
    user: &Sid,
    name: &str,
    old: Mask,
    new: Mask,
) -> Result<Vec<Told>, AllocError>
    ensures { IfOk result (λ told. told.items ≡ changes (user.now, name.now) old new) }
{
    let mut told = change(alloc, GAINED_BY, user, name, new.minus(old))?;
    told.append(&mut change(alloc, LOST_BY, user, name, old.minus(new))?)?;
    Ok(told)
}

/// The line of what changes, where something does.
fn change(
    alloc: Global,
    form: LineForm,
    user: &Sid,
    name: &str,
    mask: Mask,
) -> Result<Vec<Told>, AllocError>
    ensures { IfOk result (λ told. told.items ≡ change (form_of form.entry) (user.now, name.now) mask) }
{
    if mask.is_empty() {
        return Ok(Vec::new(alloc));
    }
    let line = Line::new(alloc, form, vec![in alloc; Value::Mask(mask)]?)?;
    Ok(vec![in alloc; (line, person(alloc, BY_PERSON, user, name)?)]?)
}

/// The mask that the first line of `why` says is granted; none where it says otherwise.
pub(crate) fn granted_mask(lines: &[Line]) -> Mask
    ensures { result ≡ granted_mask lines.now }
{
    match lines {
        [line, ..] => mask_of_line(line),
        [] => Mask(0),
    }
}

fn mask_of_line(line: &Line) -> Mask
    ensures { result ≡ mask_of_line line.now }
{
    if !line.is_of("granted") {
        return Mask(0);
    }
    match line.value(b"mask") {
        Some(Value::Mask(mask)) => *mask,
        _ => Mask(0),
    }
}
