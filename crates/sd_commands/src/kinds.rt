//! The kinds of entries by their names: [MS-DTYP] 2.4.4.1 and 2.5.1.1.
ghost use Rattle.std.specs.Prelude.{◌≡◌, IfOk, Some, map, string_bytes};
ghost use Rattle.sd_commands.specs.Kinds.{entry_note, kind_at, kind_by_letters, kind_by_number, kind_note, kind_row};
ghost use Rattle.sd_commands.specs.Kinds.{kinds, wire_kind_note};

use crate::words::items_from;
use sd_text::TextFault;
use sd_wire::{WireFault, odd_entry};
use std::alloc::{AllocError, Global};

/// A kind: its AceType, its letters in a text, in lower case, or none, and its name.
type KindRow = (u8, &'static str, &'static str);

static KINDS: [KindRow; 22] = [
    (0, "a", "allow"),
    (1, "d", "deny"),
    (2, "au", "audit"),
    (3, "al", "alarm"),
    (4, "", "compound allow"),
    (5, "oa", "object allow"),
    (6, "od", "object deny"),
    (7, "ou", "object audit"),
    (8, "ol", "object alarm"),
    (9, "xa", "callback allow"),
    (10, "xd", "callback deny"),
    (11, "za", "callback object allow"),
    (12, "", "callback object deny"),
    (13, "xu", "callback audit"),
    (14, "", "callback alarm"),
    (15, "", "callback object audit"),
    (16, "", "callback object alarm"),
    (17, "ml", "mandatory label"),
    (18, "ra", "resource attribute"),
    (19, "sp", "scoped policy"),
    (20, "tl", "trust label"),
    (21, "fl", "access filter"),
];

fn kinds() -> &'static [KindRow]
    ensures { map kind_row result.now ≡ kinds }
{
    &KINDS
}

/// Which kind an entry of a text is, where the fault is that it may not stand in its list: its type is at this byte.
pub(crate) fn kind_note(
    alloc: Global,
    text: &str,
    fault: TextFault,
    place: u64,
) -> Result<String, AllocError>
    ensures { IfOk result (λ note. string_bytes note ≡ kind_note text.now fault place) }
{
    match fault {
        TextFault::EntryKind => {
            let kind = kind_at(items_from(text.as_bytes(), place as usize));
            format!(in alloc; " ({kind})")
        }
        _ => Ok(String::new(alloc)),
    }
}

/// The number, from 1 on, and the kind of an entry in bytes that isn't supported, where this is the fault.
pub(crate) fn wire_kind_note(
    alloc: Global,
    bytes: &[u8],
    fault: WireFault,
) -> Result<String, AllocError>
    ensures { IfOk result (λ note. string_bytes note ≡ wire_kind_note bytes.now fault) }
{
    match fault {
        WireFault::EntryKind => entry_note(alloc, odd_entry(bytes)),
        _ => Ok(String::new(alloc)),
    }
}

fn entry_note(alloc: Global, entry: Option<(usize, u8)>) -> Result<String, AllocError>
    ensures { IfOk result (λ note. string_bytes note ≡ entry_note entry) }
{
    match entry {
        Some((number, kind)) => {
            let kind = kind_by_number(kinds(), kind);
            let note = format!(in alloc; " (entry {number}: {kind})")?;
            Ok(note)
        }
        None => Ok(String::new(alloc)),
    }
}

/// Which kind an entry is whose type, one or two letters of either case, begins a text.
fn kind_at(text: &[u8]) -> &'static str
    ensures { result.now ≡ kind_at text.now }
{
    match text {
        [] => "unknown",
        [_, second, after, ..] if second.is_ascii_alphabetic() && after.is_ascii_alphabetic() => {
            "unknown"
        }
        [first, second, ..] if second.is_ascii_alphabetic() => kind_by_letters(
            kinds(),
            &[first.to_ascii_lowercase(), second.to_ascii_lowercase()],
        ),
        [first, ..] => kind_by_letters(kinds(), &[first.to_ascii_lowercase()]),
    }
}

/// The name of the kind with these letters.
fn kind_by_letters(rows: &[KindRow], letters: &[u8]) -> &'static str
    ensures { result.now ≡ kind_by_letters (map kind_row rows.now) letters.now }
{
    match rows {
        [] => "unknown",
        [row, _rows @ ..] if row.1.as_bytes() == letters => row.2,
        [_row, rows @ ..] => kind_by_letters(rows, letters),
    }
}

/// The name of the kind with this AceType.
fn kind_by_number(rows: &[KindRow], number: u8) -> &'static str
    ensures { result.now ≡ kind_by_number (map kind_row rows.now) number }
{
    match rows {
        [] => "unknown",
        [row, _rows @ ..] if row.0 == number => row.2,
        [_row, rows @ ..] => kind_by_number(rows, number),
    }
}
