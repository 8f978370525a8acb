//! Lists of entries.

ghost use Rattle.std.specs.Prelude.{◌≡◌, ◌+◌, ◌≤◌, ◌++◌, length, sum_by, vec_len, vec_capacity};
ghost use Rattle.std.specs.Prelude.{Err, IfErr, IfOk, IsErrOf};
ghost use Rattle.std.specs.List.{flat_map};
ghost use Rattle.sd_acl.specs.Ace.{ace_size, acl_size_of};
ghost use Rattle.sd_wire.specs.Reading.{Gives, list_read};
ghost use Rattle.sd_wire.specs.Memory.{HasEntries};
ghost use Rattle.sd_wire.specs.Parts.{EntriesBegin};
ghost use Rattle.sd_wire.specs.Writing.{entry_bytes, list_bytes};

use crate::entries::read_entries;
use crate::entry::{MIN_ENTRY_BYTES, push_entry};
use crate::fault::{WireError, WireFault};
use crate::number::read_u16;
use crate::parts::EntryPlaces;
use sd_acl::{ACL_HEADER_BYTES, Ace, AceList, acl_size};
use std::alloc::Global;

/// The length of a list's header, as an index.
const HEADER_BYTES: usize = ACL_HEADER_BYTES as usize;

/// The revision that is written ([MS-DTYP] 2.4.5, ACL_REVISION); lists with object entries have the other.
const REVISION: u8 = 2;

/// The other revision that is accepted ([MS-DTYP] 2.4.5, ACL_REVISION_DS).
const REVISION_DS: u8 = 4;

/// Parses the list at an offset.
#[tactic(auto, using(crate::proofs::Rest::entries_in_rest))]
pub(crate) fn read_list(alloc: Global, bytes: &[u8], place: usize) -> Result<AceList, WireError>
    requires { place + 8 ≤ length bytes.now }
    ensures read { Gives (λ list. list) result (list_read bytes.now place) }
    ensures memory { IsErrOf result WireError.Memory → HasEntries bytes.now place }
{
    let EntryPlaces { place, end, count } = find_entries(bytes, place)?;
    let entries = read_entries::<Ace>(alloc, &bytes[place..end], count, MIN_ENTRY_BYTES)?;
    // AclSize has 16 bits, and the entries lie within it.
    Ok(AceList::new(entries).unwrap())
}

/// The range of the entries of the list at an offset, if its header passes its tests.
#[tactic(auto, unfolding(crate::specs::Reading::list_read))]
pub(crate) fn find_entries(bytes: &[u8], place: usize) -> Result<EntryPlaces, WireFault>
    requires { place + 8 ≤ length bytes.now }
    ensures ok { IfOk result (λ found. EntriesBegin bytes.now place found) }
    ensures err { IfErr result (λ fault. list_read bytes.now place ≡ Err fault) }
{
    if !matches!(bytes[place], REVISION | REVISION_DS) {
        return Err(WireFault::AclRevision);
    }
    let size = read_u16(bytes, place + 2) as usize;
    if size < HEADER_BYTES || bytes.len() - place < size {
        return Err(WireFault::AclSize);
    }
    Ok(EntryPlaces {
        place: place + HEADER_BYTES,
        end: place + size,
        count: read_u16(bytes, place + 4) as usize,
    })
}

/// Appends a list: revision 2, and the entries without gaps. The capacity must suffice.
#[tactic(auto, unfolding(crate::specs::Writing::list_bytes))]
pub(crate) fn push_list(bytes: &mut Vec<u8>, list: &AceList)
    requires { vec_len bytes.old + acl_size_of list.now ≤ vec_capacity bytes.old }
    ensures items { bytes.new.items ≡ bytes.old.items ++ list_bytes list.now }
    ensures capacity { vec_capacity bytes.old ≤ vec_capacity bytes.new }
{
    let entries = list.entries();
    let size = acl_size(entries) as u16;
    let count = entries.len() as u16;
    bytes.push(REVISION).unwrap();
    bytes.push(0).unwrap();
    bytes.extend_from_slice(&size.to_le_bytes()).unwrap();
    bytes.extend_from_slice(&count.to_le_bytes()).unwrap();
    bytes.extend_from_slice(&[0, 0]).unwrap();
    push_entries(bytes, entries);
}

/// Appends entries without gaps.
fn push_entries(bytes: &mut Vec<u8>, entries: &[Ace])
    requires { vec_len bytes.old + sum_by ace_size entries.now ≤ vec_capacity bytes.old }
    ensures items { bytes.new.items ≡ bytes.old.items ++ flat_map entry_bytes entries.now }
    ensures capacity { vec_capacity bytes.old ≤ vec_capacity bytes.new }
{
    for entry in entries {
        push_entry(bytes, entry);
    }
}
