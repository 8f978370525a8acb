//! Entries of every type as text: [MS-DTYP] 2.5.1.1, ace.

ghost use Rattle.std.specs.Prelude.{◌≡◌, ◌≤◌, ◌+◌, ◌%◌, IfOk, OnOk, IsErrOf, IsTrue, length};
ghost use Rattle.std.specs.List.{AllByRecursion};
ghost use Rattle.sd_text.specs.Finding.{Gives, find};
ghost use Rattle.sd_whole.specs.Entry.{whole_ace_size, whole_acl_size};
ghost use Rattle.sd_whole.specs.Kind.{has_object_types, plain_kind};
ghost use Rattle.sd_whole.specs.Reading.{plain_or_typed};
ghost use Rattle.sd_whole.specs.Whole.{AreTypes, IsWholeAce};
ghost use Rattle.sd_whole_parse.specs.Entry.{entries_found, entry_end, entry_found};
ghost use Rattle.sd_whole_parse.specs.Finding.{GivesOrMemory, has_opening};

use crate::data::read_data;
use crate::fields::{read_flags, read_rights, read_sid_of};
use crate::guid::read_types;
use crate::kind::read_kind;
use crate::spaces::skip_to_entry;
use crate::stop::Stop;
use sd_acl::{ACL_HEADER_BYTES, Ace, MAX_ACL_BYTES};
use sd_text::{Aliases, Cursor, TextFault};
use sd_whole::{TypedAce, WholeAce};
use std::alloc::Global;

/// Any number of entries.
pub(crate) fn read_entries(
    alloc: Global,
    cursor: &mut Cursor<'_>,
    known: Aliases,
) -> Result<Vec<WholeAce>, Stop>
    ensures entries { GivesOrMemory (λ entries. entries.items) result cursor.new.rest.now
        (entries_found known cursor.old.rest.now) }
    ensures fits { IfOk result (λ entries. whole_acl_size entries.items ≤ 65535) }
    ensures whole { IfOk result (λ entries. AllByRecursion IsWholeAce entries.items) }
    ensures kept { OnOk result (IsTrue (has_opening cursor.new.rest.now) → IsTrue (has_opening cursor.old.rest.now)) }
    ensures memory { IsErrOf result Stop.Memory → IsTrue (has_opening cursor.old.rest.now) }
{
    let mut entries = Vec::new(alloc);
    let mut size = ACL_HEADER_BYTES;
    'entries: while cursor.eat(b"(") {
        let entry = read_entry(alloc, cursor, known, size)?;
        size += entry.size();
        entries.push(entry)?;
    }
    Ok(entries)
}

/// An entry after its `(`, and the spaces up to the next one. The list before it has this size in bytes.
#[tactic(auto, unfolding(crate::specs::Entry::entry_found))]
fn read_entry(
    alloc: Global,
    cursor: &mut Cursor<'_>,
    known: Aliases,
    size: u64,
) -> Result<WholeAce, Stop>
    requires { size ≤ 65535 }
    ensures entry { GivesOrMemory (λ entry. entry) result cursor.new.rest.now
        (entry_found known size cursor.old.rest.now) }
    ensures fits { IfOk result (λ entry. size + whole_ace_size entry ≤ 65535) }
    ensures whole { IfOk result IsWholeAce }
    ensures shorter { OnOk result (length cursor.new.rest.now ≤ length cursor.old.rest.now) }
{
    let kind = read_kind(cursor)?;
    cursor.word(b";")?;
    let flags = read_flags(cursor, kind);
    cursor.word(b";")?;
    let mask = read_rights(cursor, kind)?;
    cursor.word(b";")?;
    let types = read_types(cursor, kind.has_object_types())?;
    let sid = read_sid_of(cursor, kind, known)?;
    let trailing = read_data(alloc, cursor, known, kind)?;
    let entry = plain_or_typed(TypedAce {
        kind,
        flags,
        mask,
        types,
        sid,
        trailing,
    });
    read_end(cursor, size, &entry)?;
    skip_to_entry(cursor);
    Ok(entry)
}

/// The entry, which is plain if it is an allow or a deny with nothing after its SID.
fn plain_or_typed(ace: TypedAce) -> WholeAce
    requires types { AreTypes (has_object_types ace.kind) ace.types }
    requires aligned { length ace.trailing % 4 ≡ 0 }
    ensures entry { result ≡ plain_or_typed (plain_kind ace.kind) ace }
    ensures whole { IsWholeAce result }
{
    match ace.kind.plain() {
        Some(kind) if ace.trailing.as_slice().is_empty() => WholeAce::Plain(Ace {
            kind,
            flags: ace.flags,
            mask: ace.mask,
            sid: ace.sid,
        }),
        _ => WholeAce::Typed(ace),
    }
}

/// The end of an entry, if the list doesn't grow too large with it.
#[tactic(auto, unfolding(crate::specs::Entry::entry_end))]
fn read_end(cursor: &mut Cursor<'_>, size: u64, entry: &WholeAce) -> Result<(), TextFault>
    requires { size ≤ 65535 }
    ensures found { Gives (λ _. entry.now) result cursor.new.rest.now
        (find (entry_end size entry.now) cursor.old.rest.now) }
    ensures fits { OnOk result (size + whole_ace_size entry.now ≤ 65535) }
{
    if size + entry.size() > MAX_ACL_BYTES && cursor.begins(b")") {
        return Err(TextFault::AclTooLarge);
    }
    cursor.word(b")")
}
