//! The call that makes a list of a whole descriptor of entries.

ghost use Rattle.std.specs.Prelude.{◌≡◌, ◌≤◌, length, sum_by, IfErr, IfOk, Err, Ok};
ghost use Rattle.sd_wire.specs.declared.fault.WireFault.TheVariants.{AclRevision};
ghost use Rattle.sd_whole.specs.Entry.{whole_ace_size};
ghost use Rattle.sd_whole.specs.Reading.{revision_read, whole_entry_read};
ghost use Rattle.sd_c.specs.declared.refusal.Refusal.TheVariants.{Wire};
ghost use Rattle.sd_c.specs.WithEntries.{AreEntriesOf, IsListOf, IsWithEntries, RefusesEntries, RefusesEntry};
ghost use Rattle.sd_c.specs.WithEntries.{RefusesList, RefusesWithEntries, with_list};
ghost use Rattle.sd_c.specs.Written.{Answers};

use crate::call_answer::{Written, refused, write};
use crate::refusal::Refusal;
use crate::whole::whole_in;
use crate::whole_parts::list_with;
use sd_acl::{ACL_HEADER_BYTES, MAX_ACL_BYTES};
use sd_whole::{
    ListRevision, WholeAce, WholeAcl, WholeDescriptor, WholeList, read_whole_entry, write_whole,
};
use sd_wire::{WireError, WireFault};
use std::alloc::Global;

/// Writes the one self-relative form ([MS-DTYP] 2.4.6) of the whole descriptor that the bytes hold into the buffer,
/// with just the entries that other bytes have, one after the other ([MS-DTYP] 2.4.4), as its DACL (`list` 1) or its
/// SACL (`list` 2), of the AclRevision 2 or 4 ([MS-DTYP] 2.4.5). There may have been another list or none; the control
/// bit that says that there is one is set, and all else stays. Refused if the bytes hold no descriptor, if there is no
/// list or no AclRevision of the number, if the list would have more than 65,535 bytes (`AclSize`), if no entry is
/// where the one before it ends, or out of memory; then, and if the buffer is too small, nothing is written.
#[unsafe(no_mangle)]
pub extern "C" fn hudarin_whole_with_entries(
    alloc: Global,
    bytes: &[u8],
    list: u32,
    revision: u32,
    entries: &[u8],
    room: &mut [u8],
) -> Written
    ensures { Answers (IsWithEntries bytes.now list revision entries.now)
        (RefusesWithEntries bytes.now list revision entries.now) room.old room.new result }
{
    match form_of(alloc, bytes, list, revision, entries) {
        Ok(form) => write(&form, room),
        Err(why) => refused(why),
    }
}

fn form_of(
    alloc: Global,
    bytes: &[u8],
    list: u32,
    revision: u32,
    entries: &[u8],
) -> Result<Vec<u8>, Refusal>
    ensures ok { IfOk result (λ form. IsWithEntries bytes.now list revision entries.now form.items) }
    ensures err { IfErr result (λ why. RefusesWithEntries bytes.now list revision entries.now why) }
{
    let descriptor = whole_in(alloc, bytes)?;
    if list_with(list, &descriptor).is_none() {
        return Err(Refusal::Lacking);
    }
    let made = list_of(alloc, revision, entries)?;
    let whole = with_list(list, WholeAcl::List(made), descriptor);
    Ok(write_whole(alloc, &whole)?)
}

/// The descriptor with this as its DACL (`list` 1), or else as its SACL.
fn with_list(list: u32, acl: WholeAcl, whole: WholeDescriptor) -> WholeDescriptor
    ensures { result ≡ with_list list acl whole }
{
    match list {
        1 => WholeDescriptor { dacl: acl, ..whole },
        _ => WholeDescriptor { sacl: acl, ..whole },
    }
}

/// The list of this AclRevision that has the entries in the bytes, if they fit one.
fn list_of(alloc: Global, revision: u32, bytes: &[u8]) -> Result<WholeList, Refusal>
    ensures ok { IfOk result (λ list. IsListOf revision bytes.now list) }
    ensures err { IfErr result (λ why. RefusesList revision bytes.now why) }
{
    let revision = revision_of(revision)?;
    if bytes.len() as u64 > MAX_ACL_BYTES - ACL_HEADER_BYTES {
        return Err(Refusal::Wire(WireFault::AclSize));
    }
    let entries = entries_in(alloc, bytes)?;
    // The entries take just the bytes that they are read from.
    Ok(WholeList::new(revision, entries).unwrap())
}

/// The revision of AclRevision, 2 or 4 ([MS-DTYP] 2.4.5).
fn revision_of(number: u32) -> Result<ListRevision, Refusal>
    ensures ok { IfOk result (λ revision. revision_read number ≡ Ok revision) }
    ensures err { IfErr result (λ why. (why ≡ Wire AclRevision) × (revision_read number ≡ Err AclRevision)) }
{
    match number {
        2 => Ok(ListRevision::Standard),
        4 => Ok(ListRevision::DirectoryService),
        _ => Err(Refusal::Wire(WireFault::AclRevision)),
    }
}

/// The entries in the bytes, one after the other, which take them all.
fn entries_in(alloc: Global, bytes: &[u8]) -> Result<Vec<WholeAce>, Refusal>
    ensures ok { IfOk result (λ entries. AreEntriesOf bytes.now entries.items) }
    ensures size { IfOk result (λ entries. sum_by whole_ace_size entries.items ≡ length bytes.now) }
    ensures err { IfErr result (λ why. RefusesEntries bytes.now why) }
{
    let mut entries = Vec::new(alloc);
    let mut rest = bytes;
    while !rest.is_empty() {
        let (entry, size) = front_of(alloc, rest)?;
        entries.push(entry)?;
        rest = &rest[size..];
    }
    Ok(entries)
}

/// The entry at the front of the bytes, and its AceSize.
fn front_of(alloc: Global, bytes: &[u8]) -> Result<(WholeAce, usize), Refusal>
    ensures ok { IfOk result (λ x. whole_entry_read bytes.now ≡ Ok x) }
    ensures size { IfOk result (λ x. (whole_ace_size x.0 ≡ x.1) × (x.1 ≤ length bytes.now)) }
    ensures err { IfErr result (λ why. RefusesEntry bytes.now why) }
{
    match read_whole_entry(alloc, bytes) {
        Ok(found) => Ok(found),
        Err(WireError::Fault(fault)) => Err(Refusal::Wire(fault)),
        Err(WireError::Memory) => Err(Refusal::Memory),
    }
}
