//! Lists of entries of every type.

ghost use Rattle.std.specs.Prelude.{◌≡◌, ◌+◌, ◌≤◌, ◌<◌, ◌++◌, length, sum_by, nat_lt, vec_len, vec_capacity};
ghost use Rattle.std.specs.Prelude.{IfOk, IfErr, IsErrOf, OnOk, OnErr, None, Some, if◌then◌else◌, codes};
ghost use Rattle.std.specs.List.{flat_map};
ghost use Rattle.sd_wire.specs.Reading.{Gives};
ghost use Rattle.sd_whole.specs.Entry.{whole_ace_size, whole_acl_size, whole_entry_bytes};
ghost use Rattle.sd_whole.specs.Memory.{HasWholeEntries};
ghost use Rattle.sd_whole.specs.Order.{IsCanonicalOrder};
ghost use Rattle.sd_whole.specs.Reading.{revision_read, whole_entry_read, whole_list_read};
ghost use Rattle.sd_whole.specs.Values.{revision_number};
ghost use Rattle.sd_whole.specs.Writing.{whole_list_bytes};

use crate::ace::{ACE_HEADER_BYTES, WholeAce};
use crate::entry::{push_whole_entry, read_whole_entry};
use sd_acl::{ACL_HEADER_BYTES, MAX_ACL_BYTES};
use sd_wire::{ListEntry, WireError, WireFault, read_entries, read_u16};
use std::alloc::{AllocError, Global};
use std::marker::Model;
use thiserror::Error;

/// The length of a list's header, as an index.
const HEADER_BYTES: usize = ACL_HEADER_BYTES as usize;

/// The revision of a list ([MS-DTYP] 2.4.5, AclRevision).
#[derive(Clone, Copy, Debug, PartialEq, Eq, Hash)]
pub enum ListRevision {
    /// ACL_REVISION, 2.
    Standard,
    /// ACL_REVISION_DS, 4: object entries may be in the list.
    DirectoryService,
}

impl ListRevision {
    /// AclRevision ([MS-DTYP] 2.4.5).
    pub fn number(self) -> u8
        ensures { result ≡ revision_number self }
    {
        match self {
            ListRevision::Standard => 2,
            ListRevision::DirectoryService => 4,
        }
    }

    /// The revision of AclRevision, 2 or 4 ([MS-DTYP] 2.4.5).
    fn read(byte: u8) -> Result<ListRevision, WireFault>
        ensures { result ≡ revision_read byte }
    {
        match byte {
            2 => Ok(ListRevision::Standard),
            4 => Ok(ListRevision::DirectoryService),
            _ => Err(WireFault::AclRevision),
        }
    }
}

/// A list of entries of every type that takes at most 65,535 bytes ([MS-DTYP] 2.4.5). Contracts see it as its revision
/// and the list.
#[derive(Debug, Drop)]
pub struct WholeList {
    revision: ListRevision,
    size: u64,
    entries: Vec<WholeAce>,
}

impl Model for WholeList {
    ghost use Rattle.std.specs.Prelude.{◌≡◌, ◌≤◌};
    ghost use Rattle.sd_whole.specs.Entry.{whole_acl_size};
    ghost use Rattle.sd_whole.specs.Values.{WholeListValue};

    ghost Value = { WholeListValue };

    ghost view = { λ l. record { revision = l.revision; entries = l.entries.items } };

    ghost invariant = { λ l. (l.size ≡ whole_acl_size l.entries.items) × (l.size ≤ 65535) };
}

/// The entries take more than 65,535 bytes. They are handed back.
#[derive(Debug, Drop, Error)]
#[error("a list's entries take at most 65535 bytes")]
pub struct WholeListTooLarge {
    pub entries: Vec<WholeAce>,
}

impl WholeListTooLarge {
    /// The error's number.
    pub fn number(&self) -> u8
        ensures { result ≡ 1 }
    {
        1
    }

    /// The error's name.
    pub fn name(&self) -> &'static str
        ensures { result.now ≡ codes "WholeListTooLarge" }
    {
        "WholeListTooLarge"
    }
}

impl WholeList {
    /// The list of these entries, which are handed back where they take more than 65,535 bytes ([MS-DTYP] 2.4.5).
    /// Allocates nothing.
    pub fn new(
        revision: ListRevision,
        entries: Vec<WholeAce>,
    ) -> Result<WholeList, WholeListTooLarge>
        ensures list { IfOk result (λ list. (list ≡ record { revision = revision; entries = entries.items })
            × (whole_acl_size entries.items ≤ 65535)) }
        ensures too_large { IfErr result (λ e. (e.entries ≡ entries) × (65535 < whole_acl_size entries.items)) }
    {
        match size_within(&entries) {
            Some(size) => Ok(WholeList {
                revision,
                size,
                entries,
            }),
            None => Err(WholeListTooLarge { entries }),
        }
    }

    /// The revision.
    pub fn revision(&self) -> ListRevision
        ensures { result ≡ self.now.revision }
    {
        self.revision
    }

    /// The entries, in order.
    pub fn entries(&self) -> &[WholeAce]
        ensures entries { result.now ≡ self.now.entries }
        ensures known { whole_acl_size self.now.entries ≤ 65535 }
    {
        &self.entries
    }

    /// The bytes that the list takes ([MS-DTYP] 2.4.5, AclSize).
    pub fn size(&self) -> u64
        ensures size { result ≡ whole_acl_size self.now.entries }
        ensures most { result ≤ 65535 }
    {
        self.size
    }

    /// Puts the entries in canonical order ([MS-DTYP] 2.4.5): the explicit ones before the inherited ones, of the
    /// explicit ones those that deny before the others, and each of these in the order that it had. The only error is
    /// out of memory, and leaves all as it was.
    pub fn sort(&mut self) -> Result<(), AllocError>
        ensures sorted { OnOk result (IsCanonicalOrder self.old.entries self.new.entries) }
        ensures revision { self.new.revision ≡ self.old.revision }
        ensures kept { OnErr result (self.new ≡ self.old) }
    {
        sort_entries(&mut self.entries)
    }
}

/// The bytes that a list of these entries takes ([MS-DTYP] 2.4.5, AclSize); `None`: more than 65,535.
fn size_within(entries: &[WholeAce]) -> Option<u64>
    ensures { result ≡ (if nat_lt 65535 (whole_acl_size entries.now) then None else Some (whole_acl_size entries.now)) }
{
    let mut size = ACL_HEADER_BYTES;
    for entry in entries {
        size += entry.size();
        if size > MAX_ACL_BYTES {
            return None;
        }
    }
    Some(size)
}

/// Puts entries in canonical order.
fn sort_entries(entries: &mut Vec<WholeAce>) -> Result<(), AllocError>
    ensures sorted { OnOk result (IsCanonicalOrder entries.old.items entries.new.items) }
    ensures kept { OnErr result (entries.new.items ≡ entries.old.items) }
{
    entries.sort_by_key(|entry| entry.rank())?;
    Ok(())
}

/// Parses the list at the front of the bytes ([MS-DTYP] 2.4.5): AclRevision, AclSize, then the entries in order.
#[tactic(auto, unfolding(crate::specs::Reading::whole_list_read))]
pub(crate) fn read_whole_list(alloc: Global, bytes: &[u8]) -> Result<WholeList, WireError>
    requires { 8 ≤ length bytes.now }
    ensures read { Gives (λ list. list) result (whole_list_read bytes.now) }
    ensures memory { IsErrOf result WireError.Memory → HasWholeEntries bytes.now }
{
    let revision = ListRevision::read(bytes[0])?;
    let size = read_u16(bytes, 2) as usize;
    if size < HEADER_BYTES || bytes.len() < size {
        return Err(WireError::Fault(WireFault::AclSize));
    }
    let count = read_u16(bytes, 4) as usize;
    let entries = read_entries::<WholeAce>(
        alloc,
        &bytes[HEADER_BYTES..size],
        count,
        ACE_HEADER_BYTES,
    )?;
    // AclSize has 16 bits, and the entries lie within it.
    Ok(WholeList::new(revision, entries).unwrap())
}

impl ListEntry for WholeAce {
    ghost reading = { whole_entry_read };

    ghost taken = { whole_ace_size };

    ghost least = { 4 };

    fn read(alloc: Global, bytes: &[u8]) -> Result<(WholeAce, usize), WireError> {
        read_whole_entry(alloc, bytes)
    }
}

/// Appends a list: its revision, and the entries without gaps ([MS-DTYP] 2.4.5). The capacity must suffice.
#[tactic(auto, unfolding(crate::specs::Writing::whole_list_bytes))]
pub(crate) fn push_whole_list(bytes: &mut Vec<u8>, list: &WholeList)
    requires { vec_len bytes.old + whole_acl_size list.now.entries ≤ vec_capacity bytes.old }
    ensures items { bytes.new.items ≡ bytes.old.items ++ whole_list_bytes list.now }
    ensures capacity { vec_capacity bytes.old ≤ vec_capacity bytes.new }
{
    let entries = list.entries();
    let size = list.size() as u16;
    let count = entries.len() as u16;
    bytes.push(list.revision().number()).unwrap();
    bytes.push(0).unwrap();
    bytes.extend_from_slice(&size.to_le_bytes()).unwrap();
    bytes.extend_from_slice(&count.to_le_bytes()).unwrap();
    bytes.extend_from_slice(&[0, 0]).unwrap();
    push_whole_entries(bytes, entries);
}

/// Appends entries without gaps.
fn push_whole_entries(bytes: &mut Vec<u8>, entries: &[WholeAce])
    requires room { vec_len bytes.old + sum_by whole_ace_size entries.now ≤ vec_capacity bytes.old }
    requires small { sum_by whole_ace_size entries.now ≤ 65535 }
    ensures items { bytes.new.items ≡ bytes.old.items ++ flat_map whole_entry_bytes entries.now }
    ensures capacity { vec_capacity bytes.old ≤ vec_capacity bytes.new }
{
    for entry in entries {
        push_whole_entry(bytes, entry);
    }
}
