//! What differs between two descriptors, in the words of `show_lines`.

ghost use Rattle.std.specs.Prelude.{◌≡◌, ◌+◌, ◌<◌, ◌^◌, ◌++◌, IfOk, OnOk, length};
ghost use Rattle.sd_show.specs.Diff.{acl_changes, bits_changes, byte_changes, changed, changes, entry_changes};
ghost use Rattle.sd_show.specs.Diff.{new_at, new_below, removed_at, removed_below, same_trustee, state_changes};
ghost use Rattle.sd_show.specs.Diff.{state_of, trustee_changes, trustee_value, word_changes};
ghost use Rattle.sd_show.specs.Pairs.{partner_at};

use crate::control::Field;
use crate::entry::push_entry;
use crate::forms::{ADDED, BYTE_CHANGED, CHANGED, CLEARED, ENTRY_MOVED, REMOVED, SET};
use crate::line_list::Lines;
use crate::pairs::{common_within, counts, partner_at, partners};
use crate::show::{REVISION_WORD, entries_of, is_of_directory};
use sd_line::{Line, Value};
use sd_sid::Sid;
use sd_whole::{WholeAce, WholeAcl, WholeDescriptor};
use sd_whole_text::AclKind;
use std::alloc::{AllocError, Global};

/// All that differs between two descriptors ([MS-DTYP] 2.4.6), a line for each difference, in the order of
/// `show_lines`: owner, group, resource manager, DACL, SACL; of a list what it is, its control bits, the old entries
/// that are removed, then the new ones that are added or moved. Equal entries are common to both lists, the first of
/// them with the first, the second with the second; one is moved where its number among those in common changes. No
/// line where nothing differs. The only error is out of memory.
#[tactic(auto, using(std::proofs::Common::append_assoc))]
pub fn diff_lines(
    alloc: Global,
    old: &WholeDescriptor,
    new: &WholeDescriptor,
) -> Result<Vec<Line>, AllocError>
    ensures { IfOk result (λ lines. lines.items ≡ changes old.now new.now) }
{
    let (was, is) = (old.control, new.control);
    let mut lines = Lines::new(alloc);
    push_trustee(&mut lines, Field::Owner, &old.owner, &new.owner)?;
    push_bits(&mut lines, Field::Owner, was, is)?;
    push_trustee(&mut lines, Field::Group, &old.group, &new.group)?;
    push_bits(&mut lines, Field::Group, was, is)?;
    push_byte(&mut lines, old.resource_manager, new.resource_manager)?;
    push_bits(&mut lines, Field::ResourceManager, was, is)?;
    push_acl(&mut lines, AclKind::Dacl, (was, &old.dacl), (is, &new.dacl))?;
    push_acl(&mut lines, AclKind::Sacl, (was, &old.sacl), (is, &new.sacl))?;
    Ok(lines.items)
}

/// Adds the change of an owner or a group, where there is one.
fn push_trustee(
    lines: &mut Lines,
    field: Field,
    was: &Option<Sid>,
    is: &Option<Sid>,
) -> Result<(), AllocError>
    ensures { OnOk result (lines.new ≡ lines.old ++ trustee_changes field was.now is.now) }
{
    if same_trustee(was, is) {
        return Ok(());
    }
    let was = trustee_value(lines.alloc, was)?;
    let is = trustee_value(lines.alloc, is)?;
    push_changed(lines, field, was, is)
}

fn push_changed(lines: &mut Lines, field: Field, was: Value, is: Value) -> Result<(), AllocError>
    ensures { OnOk result (lines.new ≡ lines.old ++ changed field was is) }
{
    let part = Value::word(lines.alloc, field.name())?;
    let values = vec![in lines.alloc; part, was, is]?;
    lines.push(CHANGED, values)
}

fn same_trustee(one: &Option<Sid>, other: &Option<Sid>) -> bool
    ensures { result ≡ same_trustee one.now other.now }
{
    match (one, other) {
        (None, None) => true,
        (Some(one), Some(other)) => one.is(other),
        _ => false,
    }
}

fn trustee_value(alloc: Global, sid: &Option<Sid>) -> Result<Value, AllocError>
    ensures { IfOk result (λ value. value ≡ trustee_value sid.now) }
{
    match sid {
        Some(sid) => Ok(Value::Sid(*sid)),
        None => Value::word(alloc, "absent"),
    }
}

/// Adds the change of the resource manager's byte, where there is one.
fn push_byte(lines: &mut Lines, was: u8, is: u8) -> Result<(), AllocError>
    ensures { OnOk result (lines.new ≡ lines.old ++ byte_changes was is) }
{
    if was == is {
        return Ok(());
    }
    let values = vec![in lines.alloc; Value::Number(was as u64), Value::Number(is as u64)]?;
    lines.push(BYTE_CHANGED, values)
}

/// Adds the changes of the control bits of a part ([MS-DTYP] 2.4.6).
fn push_bits(lines: &mut Lines, field: Field, was: u16, is: u16) -> Result<(), AllocError>
    ensures { OnOk result (lines.new ≡ lines.old ++ bits_changes field was is) }
{
    for (bit, word) in field.bits() {
        let (was, is) = (was as u32 & *bit != 0, is as u32 & *bit != 0);
        push_word(lines, field, word, was, is)?;
    }
    Ok(())
}

/// Adds the change of what a word says of a part, where there is one.
fn push_word(
    lines: &mut Lines,
    field: Field,
    word: &str,
    was: bool,
    is: bool,
) -> Result<(), AllocError>
    ensures { OnOk result (lines.new ≡ lines.old ++ word_changes field word.now was is) }
{
    if was == is {
        return Ok(());
    }
    let part = Value::word(lines.alloc, field.name())?;
    let word = Value::word(lines.alloc, word)?;
    let values = vec![in lines.alloc; part, word]?;
    lines.push(if is { SET } else { CLEARED }, values)
}

/// Adds the changes of a DACL or a SACL, with those of its control bits.
#[tactic(auto, using(std::proofs::Common::append_assoc))]
fn push_acl(
    lines: &mut Lines,
    kind: AclKind,
    was: (u16, &WholeAcl),
    is: (u16, &WholeAcl),
) -> Result<(), AllocError>
    ensures { OnOk result (lines.new
        ≡ lines.old ++ acl_changes kind was.entry.0 is.entry.0 was.entry.1.now is.entry.1.now) }
{
    let field = Field::of(kind);
    push_state(lines, field, state_of(was.1), state_of(is.1))?;
    push_bits(lines, field, was.0, is.0)?;
    let (old, new) = (is_of_directory(was.1), is_of_directory(is.1));
    push_word(lines, field, REVISION_WORD, old, new)?;
    push_entries(lines, kind, entries_of(was.1), entries_of(is.1))
}

/// Adds the change of what a DACL or a SACL is, where there is one.
fn push_state(lines: &mut Lines, field: Field, was: &str, is: &str) -> Result<(), AllocError>
    ensures { OnOk result (lines.new ≡ lines.old ++ state_changes field was.now is.now) }
{
    if was.as_bytes() == is.as_bytes() {
        return Ok(());
    }
    let was = Value::word(lines.alloc, was)?;
    let is = Value::word(lines.alloc, is)?;
    push_changed(lines, field, was, is)
}

/// What a DACL or a SACL is.
fn state_of(acl: &WholeAcl) -> &'static str
    ensures { result.now ≡ state_of acl.now }
{
    match acl {
        WholeAcl::Absent => "absent",
        WholeAcl::Null => "null",
        WholeAcl::List(_) => "a list",
    }
}

/// Adds the changes of the entries.
#[tactic(auto, using(std::proofs::Common::append_assoc))]
fn push_entries(
    lines: &mut Lines,
    kind: AclKind,
    old: &[WholeAce],
    new: &[WholeAce],
) -> Result<(), AllocError>
    ensures { OnOk result (lines.new ≡ lines.old ++ entry_changes kind old.now new.now) }
{
    let was = counts(lines.alloc, old)?;
    let is = counts(lines.alloc, new)?;
    let removed = partners(lines.alloc, &was, &is)?;
    let added = partners(lines.alloc, &is, &was)?;
    push_removed(lines, kind, old, &removed)?;
    push_new(lines, kind, new, &removed, &added)
}

/// Adds the lines of the old entries that have no partner.
#[tactic(auto, unfolding(crate::specs::Diff::removed_below))]
fn push_removed(
    lines: &mut Lines,
    kind: AclKind,
    entries: &[WholeAce],
    partners: &[Option<usize>],
) -> Result<(), AllocError>
    ensures { OnOk result (lines.new
        ≡ lines.old ++ removed_below kind partners.now entries.now (length entries.now)) }
{
    for place in 0..entries.len() {
        let partner = partner_at(partners, place);
        push_old_entry(lines, kind, place + 1, partner, &entries[place])?;
    }
    Ok(())
}

fn push_old_entry(
    lines: &mut Lines,
    kind: AclKind,
    number: usize,
    partner: Option<usize>,
    entry: &WholeAce,
) -> Result<(), AllocError>
    ensures { OnOk result (lines.new ≡ lines.old ++ removed_at kind number partner (Some entry.now)) }
{
    match partner {
        Some(_) => Ok(()),
        None => push_entry(lines, REMOVED, kind, &[number], entry),
    }
}

/// Adds the lines of the new entries that have no partner, or have it in another order.
#[tactic(auto, unfolding(crate::specs::Diff::new_below))]
fn push_new(
    lines: &mut Lines,
    kind: AclKind,
    entries: &[WholeAce],
    old: &[Option<usize>],
    new: &[Option<usize>],
) -> Result<(), AllocError>
    ensures { OnOk result (lines.new
        ≡ lines.old ++ new_below kind old.now new.now entries.now (length entries.now)) }
{
    for place in 0..entries.len() {
        push_new_entry(lines, kind, old, new, place, &entries[place])?;
    }
    Ok(())
}

fn push_new_entry(
    lines: &mut Lines,
    kind: AclKind,
    old: &[Option<usize>],
    new: &[Option<usize>],
    place: usize,
    entry: &WholeAce,
) -> Result<(), AllocError>
    requires { place < 2 ^ 63 }
    ensures { OnOk result (lines.new ≡ lines.old
        ++ new_at kind old.now new.now (place + 1) (partner_at new.now place) (Some entry.now)) }
{
    let number = place + 1;
    match partner_at(new, place) {
        None => push_entry(lines, ADDED, kind, &[number], entry),
        Some(from) if common_within(old, from) == common_within(new, number) => Ok(()),
        Some(from) => push_entry(lines, ENTRY_MOVED, kind, &[number, from], entry),
    }
}
