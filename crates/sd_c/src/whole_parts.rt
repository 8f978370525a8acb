//! The calls that return the parts of a whole descriptor: its owner and group, its lists and their entries.

ghost use Rattle.std.specs.Prelude.{◌≡◌, length, IfErr, IfOk, option_map};
ghost use Rattle.sd_sid.specs.SidBytes.{bytes_of_sid};
ghost use Rattle.sd_c.specs.WholeParts.{HasFields, IsEntryAnswer, IsListAnswer, IsTrustee, RefusesPart, ReturnsList};
ghost use Rattle.sd_c.specs.WholeParts.{WritesWholeEntry, acl_kind};
ghost use Rattle.sd_c.specs.WholeParts.{acl_revision, bits_of_list, entries_of, entry_with, guid_in, list_answer};
ghost use Rattle.sd_c.specs.WholeParts.{list_with, mask_in, no_entry, no_list, sid_and_data, sid_length_in};
ghost use Rattle.sd_c.specs.WholeParts.{trustee_with, types_in, types_number};
ghost use Rattle.sd_c.specs.Written.{Answers};

use crate::call_answer::{OK, Written, length_told, refused, write};
use crate::refusal::Refusal;
use crate::whole::whole_in;
use bitflags::Flags;
use sd_sid::{SID_HEADER_BYTES, Sid, sid_bytes};
use sd_whole::{GUID_BYTES, Guid, ObjectTypes, WholeAce, WholeAcl, WholeDescriptor};
use std::alloc::{AllocError, Global};

/// The answer of `hudarin_whole_list`: all but `status` and `fault` is 0 where the bytes hold no descriptor.
#[repr(C)]
#[derive(Clone, Copy, Debug, PartialEq, Eq)]
pub struct WholeListAnswer {
    pub status: u32,
    /// The fault's number, 0 where there is none.
    pub fault: u32,
    /// 1 for an absent one, 2 for a null one, 3 for a list.
    pub kind: u32,
    /// AclRevision, 0 where there is no list.
    pub revision: u32,
    /// The control bits that speak of the list.
    pub control: u32,
    /// The number of entries.
    pub entries: u64,
}

/// The answer of `hudarin_whole_entry`: all but `written` is 0 where there is no entry.
#[repr(C)]
#[derive(Clone, Copy, Debug, PartialEq, Eq)]
pub struct WholeEntry {
    pub written: Written,
    /// AceType ([MS-DTYP] 2.4.4.1).
    pub kind: u32,
    pub flags: u32,
    pub mask: u32,
    /// 0x1 if there is an ObjectType, joined with 0x2 if there is an InheritedObjectType.
    pub object_types: u32,
    pub object_type: [u8; GUID_BYTES],
    pub inherited_object_type: [u8; GUID_BYTES],
    /// The number of bytes of the SID, at the front of what is written.
    pub sid_length: u64,
}

/// Writes the bytes of the owner (`part` 1) or the group (`part` 2) of the whole descriptor that the bytes hold
/// ([MS-DTYP] 2.4.6) into the buffer. Refused if the bytes hold none, if it has no such part, or out of memory; then,
/// and if the buffer is too small, nothing is written.
#[unsafe(no_mangle)]
pub extern "C" fn hudarin_whole_trustee(
    alloc: Global,
    bytes: &[u8],
    part: u32,
    room: &mut [u8],
) -> Written
    ensures { Answers (IsTrustee part bytes.now) (RefusesPart (trustee_with part) bytes.now)
        room.old room.new result }
{
    match trustee_bytes(alloc, bytes, part) {
        Ok(sid) => write(&sid, room),
        Err(why) => refused(why),
    }
}

/// The kind, the revision, the control bits and the number of entries of a list of the whole descriptor that the bytes
/// hold ([MS-DTYP] 2.4.5): of the DACL (`list` 1) or the SACL (`list` 2). Refused if the bytes hold none, if there is
/// no list of that number, or out of memory.
#[unsafe(no_mangle)]
pub extern "C" fn hudarin_whole_list(alloc: Global, bytes: &[u8], list: u32) -> WholeListAnswer
    ensures { ReturnsList list bytes.now result }
{
    match list_found(alloc, bytes, list) {
        Ok(answer) => answer,
        Err(why) => no_list(why),
    }
}

/// The entry at the index, from 0, of a list of the whole descriptor that the bytes hold ([MS-DTYP] 2.4.4): of the DACL
/// (`list` 1) or the SACL (`list` 2). Its SID and the bytes after that are written into the buffer; of an entry without
/// the layout of its type, what follows its header. Refused as `hudarin_whole_trustee` is.
#[unsafe(no_mangle)]
pub extern "C" fn hudarin_whole_entry(
    alloc: Global,
    bytes: &[u8],
    list: u32,
    index: u64,
    room: &mut [u8],
) -> WholeEntry
    ensures { WritesWholeEntry list index bytes.now room.old room.new result }
{
    match entry_found(alloc, bytes, list, index) {
        Ok((mut answer, data)) => {
            answer.written = write(&data, room);
            answer
        }
        Err(why) => no_entry(why),
    }
}

fn trustee_bytes(alloc: Global, bytes: &[u8], part: u32) -> Result<Vec<u8>, Refusal>
    ensures ok { IfOk result (λ sid. IsTrustee part bytes.now sid.items) }
    ensures err { IfErr result (λ why. RefusesPart (trustee_with part) bytes.now why) }
{
    let descriptor = whole_in(alloc, bytes)?;
    match trustee_with(part, &descriptor) {
        Some(sid) => Ok(sid_bytes(alloc, &sid)?),
        None => Err(Refusal::Lacking),
    }
}

fn list_found(alloc: Global, bytes: &[u8], list: u32) -> Result<WholeListAnswer, Refusal>
    ensures ok { IfOk result (λ answer. IsListAnswer list bytes.now answer) }
    ensures err { IfErr result (λ why. RefusesPart (list_with list) bytes.now why) }
{
    let descriptor = whole_in(alloc, bytes)?;
    match list_with(list, &descriptor) {
        Some(acl) => Ok(list_answer(list, descriptor.control, acl)),
        None => Err(Refusal::Lacking),
    }
}

/// The fields of the entry at the index, and its SID and data.
fn entry_found(
    alloc: Global,
    bytes: &[u8],
    list: u32,
    index: u64,
) -> Result<(WholeEntry, Vec<u8>), Refusal>
    ensures ok { IfOk result (λ found. IsEntryAnswer list index bytes.now found.0 found.1.items) }
    ensures err { IfErr result (λ why. RefusesPart (entry_with list index) bytes.now why) }
{
    let descriptor = whole_in(alloc, bytes)?;
    match entry_with(list, index, &descriptor) {
        Some(entry) => Ok((entry_answer(entry), sid_and_data(alloc, entry)?)),
        None => Err(Refusal::Lacking),
    }
}

fn trustee_with(part: u32, descriptor: &WholeDescriptor) -> Option<Sid>
    ensures { result ≡ trustee_with part descriptor.now }
{
    match part {
        1 => descriptor.owner,
        2 => descriptor.group,
        _ => None,
    }
}

pub(crate) fn list_with(list: u32, descriptor: &WholeDescriptor) -> Option<&WholeAcl>
    ensures { option_map (λ acl. acl.now) result ≡ list_with list descriptor.now }
{
    match list {
        1 => Some(&descriptor.dacl),
        2 => Some(&descriptor.sacl),
        _ => None,
    }
}

fn entry_with(list: u32, index: u64, descriptor: &WholeDescriptor) -> Option<&WholeAce>
    ensures { option_map (λ entry. entry.now) result ≡ entry_with list index descriptor.now }
{
    let acl = list_with(list, descriptor)?;
    entries_of(acl).get(index as usize)
}

fn bits_of_list(list: u32) -> u16
    ensures { result ≡ bits_of_list list }
{
    match list {
        1 => 0x1508,
        _ => 0x2A20,
    }
}

fn list_answer(list: u32, control: u16, acl: &WholeAcl) -> WholeListAnswer
    ensures { result ≡ list_answer list control acl.now }
{
    WholeListAnswer {
        status: OK,
        fault: 0,
        kind: acl_kind(acl),
        revision: acl_revision(acl),
        control: u32::from(control & bits_of_list(list)),
        entries: entries_of(acl).len() as u64,
    }
}

fn no_list(why: Refusal) -> WholeListAnswer
    ensures { result ≡ no_list why }
{
    let told = refused(why);
    WholeListAnswer {
        status: told.status,
        fault: told.fault,
        kind: 0,
        revision: 0,
        control: 0,
        entries: 0,
    }
}

fn acl_kind(acl: &WholeAcl) -> u32
    ensures { result ≡ acl_kind acl.now }
{
    match acl {
        WholeAcl::Absent => 1,
        WholeAcl::Null => 2,
        WholeAcl::List(_) => 3,
    }
}

fn acl_revision(acl: &WholeAcl) -> u32
    ensures { result ≡ acl_revision acl.now }
{
    match acl {
        WholeAcl::Absent | WholeAcl::Null => 0,
        WholeAcl::List(list) => u32::from(list.revision().number()),
    }
}

fn entries_of(acl: &WholeAcl) -> &[WholeAce]
    ensures { result.now ≡ entries_of acl.now }
{
    match acl {
        WholeAcl::Absent | WholeAcl::Null => &[],
        WholeAcl::List(list) => list.entries(),
    }
}

/// The fields of this entry, before anything is written.
fn entry_answer(entry: &WholeAce) -> WholeEntry
    ensures { HasFields entry.now result }
{
    let types = types_in(entry);
    WholeEntry {
        written: length_told(0),
        kind: u32::from(entry.number()),
        flags: u32::from(entry.flags().bits()),
        mask: mask_in(entry),
        object_types: types_number(&types),
        object_type: guid_in(types.object),
        inherited_object_type: guid_in(types.inherited),
        sid_length: sid_length_in(entry),
    }
}

fn no_entry(why: Refusal) -> WholeEntry
    ensures { result ≡ no_entry why }
{
    WholeEntry {
        written: refused(why),
        kind: 0,
        flags: 0,
        mask: 0,
        object_types: 0,
        object_type: [0; GUID_BYTES],
        inherited_object_type: [0; GUID_BYTES],
        sid_length: 0,
    }
}

fn mask_in(entry: &WholeAce) -> u32
    ensures { result ≡ mask_in entry.now }
{
    match entry {
        WholeAce::Plain(ace) => ace.mask.bits(),
        WholeAce::Typed(ace) => ace.mask.bits(),
        WholeAce::Opaque(_) => 0,
    }
}

fn types_in(entry: &WholeAce) -> ObjectTypes
    ensures { result ≡ types_in entry.now }
{
    match entry {
        WholeAce::Typed(ace) => ace.types,
        WholeAce::Plain(_) | WholeAce::Opaque(_) => ObjectTypes::NONE,
    }
}

fn types_number(types: &ObjectTypes) -> u32
    ensures { result ≡ types_number types.now }
{
    u32::from(types.object.is_some()) + if types.inherited.is_some() { 2 } else { 0 }
}

/// The bytes of a GUID; zeros without one.
fn guid_in(guid: Option<Guid>) -> [u8; GUID_BYTES]
    ensures { result ≡ guid_in guid }
{
    match guid {
        Some(guid) => guid.bytes,
        None => [0; GUID_BYTES],
    }
}

/// The SID and the bytes after it; of an entry without a layout its body.
fn sid_and_data(alloc: Global, entry: &WholeAce) -> Result<Vec<u8>, AllocError>
    ensures { IfOk result (λ made. made.items ≡ sid_and_data entry.now) }
{
    match entry {
        WholeAce::Plain(ace) => sid_bytes(alloc, &ace.sid),
        WholeAce::Typed(ace) => {
            let mut data = sid_bytes(alloc, &ace.sid)?;
            data.extend_from_slice(ace.trailing.as_slice())?;
            Ok(data)
        }
        WholeAce::Opaque(ace) => Vec::from_slice(alloc, ace.body.as_slice()),
    }
}

fn sid_length_in(entry: &WholeAce) -> u64
    ensures { result ≡ sid_length_in entry.now }
{
    match entry {
        WholeAce::Plain(ace) => sid_len(&ace.sid),
        WholeAce::Typed(ace) => sid_len(&ace.sid),
        WholeAce::Opaque(_) => 0,
    }
}

#[tactic(auto, using(sd_sid::proofs::SidLaws::length_of_sid))]
fn sid_len(sid: &Sid) -> u64
    ensures { result ≡ length (bytes_of_sid sid.now) }
{
    (SID_HEADER_BYTES + 4 * sid.subs().len()) as u64
}
