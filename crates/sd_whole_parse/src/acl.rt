//! The sections of a DACL and of a SACL: [MS-DTYP] 2.5.1.1, dacl and sacl.

ghost use Rattle.std.specs.List.{list_any};
ghost use Rattle.std.specs.Prelude.{◌≡◌, IfOk, OnOk, IsErrOf, IsTrue};
ghost use Rattle.sd_whole.specs.Whole.{IsWholeAcl};
ghost use Rattle.sd_whole_parse.specs.Acl.{acl_behind, acl_section, is_object, list_of, revision_of};
ghost use Rattle.sd_whole_parse.specs.Finding.{GivesOrMemory, has_opening};

use crate::entry::read_entries;
use crate::spaces::skip_to_entry;
use crate::stop::Stop;
use sd_text::{Aliases, Cursor, DaclWords};
use sd_whole::{ListRevision, WholeAce, WholeAcl, WholeList};
use std::alloc::Global;

/// The section of a DACL or a SACL, or its absence.
#[derive(Drop)]
pub(crate) struct AclPart {
    pub(crate) acl: WholeAcl,
    pub(crate) words: DaclWords,
}

/// The section with this head, if it is here.
#[tactic(auto, unfolding(crate::specs::Acl::acl_section, crate::specs::Acl::acl_behind))]
pub(crate) fn read_section(
    alloc: Global,
    cursor: &mut Cursor<'_>,
    known: Aliases,
    head: &[u8],
) -> Result<AclPart, Stop>
    ensures found { GivesOrMemory (λ part. part) result cursor.new.rest.now
        (acl_section known head.now cursor.old.rest.now) }
    ensures whole { IfOk result (λ part. IsWholeAcl part.acl) }
    ensures kept { OnOk result (IsTrue (has_opening cursor.new.rest.now) → IsTrue (has_opening cursor.old.rest.now)) }
    ensures memory { IsErrOf result Stop.Memory → IsTrue (has_opening cursor.old.rest.now) }
{
    if !cursor.eat(head) {
        return Ok(AclPart {
            acl: WholeAcl::Absent,
            words: DaclWords::none(),
        });
    }
    let words = cursor.words();
    if words.no_access_control {
        return Ok(AclPart {
            acl: WholeAcl::Null,
            words,
        });
    }
    skip_to_entry(cursor);
    let entries = read_entries(alloc, cursor, known)?;
    let list = WholeList::new(revision_of(&entries), entries).unwrap();
    Ok(AclPart {
        acl: WholeAcl::List(list),
        words,
    })
}

/// AclRevision: 4 with an object entry, else 2 ([MS-DTYP] 2.4.5).
fn revision_of(entries: &[WholeAce]) -> ListRevision
    ensures { result ≡ revision_of entries.now }
{
    if has_object(entries) {
        ListRevision::DirectoryService
    } else {
        ListRevision::Standard
    }
}

/// Whether one of the entries has object types.
fn has_object(entries: &[WholeAce]) -> bool
    ensures { result ≡ list_any is_object entries.now }
{
    entries.iter().any(is_object)
}

/// Whether an entry has object types.
fn is_object(entry: &WholeAce) -> bool
    ensures { result ≡ is_object entry.now }
{
    match entry {
        WholeAce::Typed(ace) => ace.kind.has_object_types(),
        _ => false,
    }
}
