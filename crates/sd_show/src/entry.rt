//! Entries in words ([MS-DTYP] 2.4.4).

ghost use Rattle.std.specs.Prelude.{◌≡◌, ◌∷◌, [], ◌++◌, IfOk, OnOk};
ghost use Rattle.sd_line.specs.Line.{form_of, word_part};
ghost use Rattle.sd_show.specs.Control.{rows};
ghost use Rattle.sd_show.specs.Entry.{applies_to, entry_line, entry_parts, entry_values, flags_parts, types_parts};
ghost use Rattle.sd_whole_text.specs.Guid.{guid_text};

use crate::act::Act;
use crate::control::{BitWord, Field, words_set};
use crate::data::{push_data, push_other};
use crate::forms::{FLAGS, INHERITED_TYPE, OBJECT_TYPE, ON, OPAQUE};
use crate::line_list::{Lines, Parts};
use bitflags::Flags;
use sd_acl::{Ace, AceKind};
use sd_line::{LineForm, Value};
use sd_whole::{Guid, ObjectTypes, OpaqueAce, TypedAce, WholeAce};
use sd_whole_text::{AclKind, print_guid};
use std::alloc::{AllocError, Global};

const TO_OBJECTS: u8 = 0x01;

const TO_CONTAINERS: u8 = 0x02;

const INHERIT_ONLY: u8 = 0x08;

/// Adds the line of an entry, which begins with its list, and numbers of entries, counted from 1: its own, and that
/// which it had.
pub(crate) fn push_entry(
    lines: &mut Lines,
    form: LineForm,
    acl: AclKind,
    numbers: &[usize],
    entry: &WholeAce,
) -> Result<(), AllocError>
    ensures { OnOk result (lines.new ≡ lines.old ++ entry_line (form_of form.entry) acl numbers.now entry.now ∷ []) }
{
    let mut parts = Parts::new(lines.alloc);
    parts.push(form.1, entry_values(lines.alloc, acl, numbers)?)?;
    push_entry_parts(&mut parts, entry)?;
    lines.push_parts(form.0, parts)
}

/// A list, and numbers of entries.
fn entry_values(alloc: Global, acl: AclKind, numbers: &[usize]) -> Result<Vec<Value>, AllocError>
    ensures { IfOk result (λ values. values.items ≡ entry_values acl numbers.now) }
{
    let mut values = vec![in alloc; Value::word(alloc, Field::of(acl).name())?]?;
    for number in numbers {
        values.push(Value::Number(*number as u64))?;
    }
    Ok(values)
}

/// Adds all that an entry has.
fn push_entry_parts(parts: &mut Parts, entry: &WholeAce) -> Result<(), AllocError>
    ensures { OnOk result (parts.new ≡ parts.old ++ entry_parts entry.now) }
{
    match entry {
        WholeAce::Plain(ace) => push_plain(parts, ace),
        WholeAce::Typed(ace) => push_typed(parts, ace),
        WholeAce::Opaque(ace) => push_opaque(parts, ace),
    }
}

fn push_plain(parts: &mut Parts, ace: &Ace) -> Result<(), AllocError>
    ensures { OnOk result (parts.new ≡ parts.old ++ entry_parts (WholeAce.Plain ace.now)) }
{
    let act = match ace.kind {
        AceKind::Allow => Act::Allow,
        AceKind::Deny => Act::Deny,
    };
    let flags = ace.flags.bits();
    act.push(parts, flags, ace.mask, &ace.sid)?;
    parts.push_word(ON, applies_to(flags))?;
    push_flags(parts, act.flag_words(), flags)
}

fn push_typed(parts: &mut Parts, ace: &TypedAce) -> Result<(), AllocError>
    ensures { OnOk result (parts.new ≡ parts.old ++ entry_parts (WholeAce.Typed ace.now)) }
{
    let act = Act::of(ace.kind);
    let flags = ace.flags.bits();
    act.push(parts, flags, ace.mask, &ace.sid)?;
    parts.push_word(ON, applies_to(flags))?;
    push_types(parts, ace.kind.has_object_types(), &ace.types)?;
    push_data(parts, ace.kind, ace.trailing.as_slice())?;
    push_flags(parts, act.flag_words(), flags)
}

fn push_opaque(parts: &mut Parts, ace: &OpaqueAce) -> Result<(), AllocError>
    ensures { OnOk result (parts.new ≡ parts.old ++ entry_parts (WholeAce.Opaque ace.now)) }
{
    let number = vec![in parts.alloc; Value::Number(ace.kind as u64)]?;
    parts.push(OPAQUE, number)?;
    let flags = ace.flags.bits();
    parts.push_word(ON, applies_to(flags))?;
    push_other(parts, ace.body.as_slice())?;
    push_flags(parts, Act::Allow.flag_words(), flags)
}

/// What an entry with these flags applies to ([MS-DTYP] 2.4.4.1, AceFlags).
fn applies_to(flags: u8) -> &'static str
    ensures { result.now ≡ applies_to flags }
{
    let below = (flags & TO_CONTAINERS != 0, flags & TO_OBJECTS != 0);
    match (flags & INHERIT_ONLY != 0, below) {
        (false, (false, false)) => "this object",
        (false, (false, true)) => "this object and objects below",
        (false, (true, false)) => "this object and containers below",
        (false, (true, true)) => "this object, containers and objects below",
        (true, (false, false)) => "nothing",
        (true, (false, true)) => "objects below",
        (true, (true, false)) => "containers below",
        (true, (true, true)) => "containers and objects below",
    }
}

/// Adds the words of the flags that are set, where there are some.
fn push_flags(parts: &mut Parts, named: &[BitWord], flags: u8) -> Result<(), AllocError>
    ensures { OnOk result (parts.new ≡ parts.old ++ flags_parts (rows named.now) flags) }
{
    let words = words_set(parts.alloc, named, flags as u32)?;
    if words.is_empty() {
        return Ok(());
    }
    let words = Value::words(parts.alloc, &words)?;
    let values = vec![in parts.alloc; words]?;
    parts.push(FLAGS, values)
}

/// Adds the types of objects, where the kind has them ([MS-DTYP] 2.4.4.3).
fn push_types(parts: &mut Parts, has: bool, types: &ObjectTypes) -> Result<(), AllocError>
    ensures { OnOk result (parts.new ≡ parts.old ++ types_parts has types.now) }
{
    if !has {
        return Ok(());
    }
    match &types.object {
        Some(guid) => push_guid(parts, OBJECT_TYPE, guid)?,
        None => parts.push_word(OBJECT_TYPE, "any")?,
    }
    match &types.inherited {
        Some(guid) => push_guid(parts, INHERITED_TYPE, guid),
        None => Ok(()),
    }
}

fn push_guid(parts: &mut Parts, form: &'static str, guid: &Guid) -> Result<(), AllocError>
    ensures { OnOk result (parts.new ≡ parts.old ++ word_part form.now (guid_text guid.now) ∷ []) }
{
    let text = print_guid(parts.alloc, guid)?;
    parts.push_text(form, text)
}
