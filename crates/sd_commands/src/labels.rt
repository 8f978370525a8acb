//! The integrity labels of two descriptors, compared: the line of `compare`.
ghost use Rattle.std.specs.Prelude.{◌≡◌, IfOk, string_bytes};
ghost use Rattle.sd_commands.specs.Labels.{label_changes, label_lines, label_text, level_name, same_label};

use sd_answer::LABEL_CHANGED;
use sd_label::Label;
use sd_line::{Line, Value};
use sd_text::write_where;
use sd_whole::WholeDescriptor;
use std::alloc::{AllocError, Global};

/// What SYSTEM_MANDATORY_LABEL_NO_WRITE_UP, NO_READ_UP and NO_EXECUTE_UP are in a label's mask ([MS-DTYP] 2.4.4.13).
const NO_WRITE_UP: u32 = 0;

const NO_READ_UP: u32 = 1;

const NO_EXECUTE_UP: u32 = 2;

/// The line of a label that is another ([MS-DTYP] 2.5.3.3), or none: then each level is denied the same.
pub(crate) fn label_changes(
    alloc: Global,
    old: &WholeDescriptor,
    new: &WholeDescriptor,
) -> Result<Vec<Line>, AllocError>
    ensures { IfOk result (λ lines. lines.items ≡ label_changes old.now new.now) }
{
    label_lines(
        alloc,
        Label::of_object(&old.sacl),
        Label::of_object(&new.sacl),
    )
}

fn label_lines(alloc: Global, was: Label, is: Label) -> Result<Vec<Line>, AllocError>
    ensures { IfOk result (λ lines. lines.items ≡ label_lines was is) }
{
    if same_label(was, is) {
        return Ok(Vec::new(alloc));
    }
    let was = Value::text(label_text(alloc, was)?);
    let is = Value::text(label_text(alloc, is)?);
    let line = Line::new(alloc, LABEL_CHANGED, vec![in alloc; was, is]?)?;
    Ok(vec![in alloc; line]?)
}

/// Whether both labels have one level, and deny the same.
fn same_label(one: Label, other: Label) -> bool
    ensures { result ≡ same_label one other }
{
    one.level == other.level
        && one.policy.holds(NO_WRITE_UP) == other.policy.holds(NO_WRITE_UP)
        && one.policy.holds(NO_READ_UP) == other.policy.holds(NO_READ_UP)
        && one.policy.holds(NO_EXECUTE_UP) == other.policy.holds(NO_EXECUTE_UP)
}

/// The label's level, and what it denies to lower ones ([MS-DTYP] 2.4.4.13).
fn label_text(alloc: Global, label: Label) -> Result<String, AllocError>
    ensures { IfOk result (λ text. string_bytes text ≡ label_text label) }
{
    let mut text = level_name(alloc, label.level)?;
    write_where(&mut text, label.policy.holds(NO_WRITE_UP), " no-write-up")?;
    write_where(&mut text, label.policy.holds(NO_READ_UP), " no-read-up")?;
    write_where(
        &mut text,
        label.policy.holds(NO_EXECUTE_UP),
        " no-execute-up",
    )?;
    Ok(text)
}

/// The level's name, as `level=` takes it, or its number.
fn level_name(alloc: Global, level: u32) -> Result<String, AllocError>
    ensures { IfOk result (λ name. string_bytes name ≡ level_name level) }
{
    match level {
        0x0000 => String::from_str(alloc, "untrusted"),
        0x1000 => String::from_str(alloc, "low"),
        0x2000 => String::from_str(alloc, "medium"),
        0x2100 => String::from_str(alloc, "mediumplus"),
        0x3000 => String::from_str(alloc, "high"),
        0x4000 => String::from_str(alloc, "system"),
        _ => format!(in alloc; "{level}"),
    }
}
