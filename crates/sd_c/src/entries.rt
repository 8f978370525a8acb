//! The calls that return the parts of a kept descriptor: its owner, its group, its DACL and the entries of that.

ghost use Rattle.std.specs.Prelude.{◌≡◌, IfErr, IfOk};
ghost use Rattle.sd_acl.specs.Descriptor.{descriptor_of};
ghost use Rattle.sd_c.specs.Entries.{IsEntryPart, IsSidPart, LacksPart, ReturnsDacl, WritesEntry, WritesSidPart};
ghost use Rattle.sd_c.specs.Entries.{control_of, dacl_answer, dacl_in, entry_at, entry_in, entry_kind, no_dacl};
ghost use Rattle.sd_c.specs.Entries.{no_entry, no_part, sid_in, where_set};
ghost use Rattle.sd_c.specs.Kept.{Stays};
ghost use Rattle.sd_c.specs.declared.entries.NoPart.TheVariants.{Memory};

use crate::call_answer::{HANDLE, MEMORY, NO_PART, OK, Written, not_written, write};
use crate::handle::{Handle, Kept};
use bitflags::Flags;
use sd_acl::{Ace, AceKind, Dacl, Descriptor};
use sd_check::subject_of;
use sd_sid::{Sid, sid_bytes};
use std::alloc::{AllocError, Global};

/// The control bits of a descriptor's DACL ([MS-DTYP] 2.4.6): PD, DC and DI.
const PROTECTED: u32 = 0x1000;

const AUTO_REQ: u32 = 0x0100;

const AUTO_INHERITED: u32 = 0x0400;

/// A part of a descriptor that is a SID.
#[derive(Clone, Copy)]
pub enum SidPart {
    Owner,
    Group,
    /// The SID by which the entry at this index applies to a token.
    Subject(u64),
}

/// Why a part of a descriptor isn't returned.
#[derive(Clone, Copy)]
pub enum NoPart {
    /// The handle keeps no descriptor.
    Handle,
    /// The descriptor doesn't have the part.
    Absent,
    /// Out of memory.
    Memory,
}

impl From<AllocError> for NoPart {
    ghost from_gives = { λ _ why. why ≡ Memory };

    fn from(_: AllocError) -> NoPart {
        NoPart::Memory
    }
}

/// The answer of `hudarin_descriptor_dacl`.
#[repr(C)]
#[derive(Clone, Copy, Debug, PartialEq, Eq)]
pub struct DaclAnswer {
    pub status: u32,
    /// 1 for an absent DACL, 2 for a null one, 3 for a list; 0 without a descriptor.
    pub kind: u32,
    /// The control bits that speak of the DACL.
    pub control: u32,
    /// The number of entries.
    pub entries: u64,
}

/// The answer of `hudarin_descriptor_entry`: all but `written` is 0 where there is no entry.
#[repr(C)]
#[derive(Clone, Copy, Debug, PartialEq, Eq)]
pub struct EntryAnswer {
    pub written: Written,
    /// 1 for an allow entry, 2 for a deny entry.
    pub kind: u32,
    pub flags: u32,
    pub mask: u32,
}

/// Writes the bytes of a kept descriptor's owner ([MS-DTYP] 2.4.6) into the buffer. Refused if the handle keeps no
/// descriptor, if that has no owner, or out of memory; then, and if the buffer is too small, nothing is written.
#[unsafe(no_mangle)]
pub extern "C" fn hudarin_descriptor_owner(
    alloc: Global,
    descriptor: &mut Handle,
    room: &mut [u8],
) -> Written
    ensures answer { WritesSidPart SidPart.Owner descriptor.old room.old room.new result }
    ensures descriptor { Stays descriptor.old descriptor.new }
{
    write_part(alloc, descriptor, SidPart::Owner, room)
}

/// Writes the bytes of a kept descriptor's group ([MS-DTYP] 2.4.6), and is refused as `hudarin_descriptor_owner` is.
#[unsafe(no_mangle)]
pub extern "C" fn hudarin_descriptor_group(
    alloc: Global,
    descriptor: &mut Handle,
    room: &mut [u8],
) -> Written
    ensures answer { WritesSidPart SidPart.Group descriptor.old room.old room.new result }
    ensures descriptor { Stays descriptor.old descriptor.new }
{
    write_part(alloc, descriptor, SidPart::Group, room)
}

/// Writes the bytes of the SID by which the entry at the index, from 0, applies to a token ([MS-DTYP] 2.5.3.2): the
/// entry's own, but of OWNER RIGHTS the descriptor's owner. Refused as `hudarin_descriptor_owner` is.
#[unsafe(no_mangle)]
pub extern "C" fn hudarin_descriptor_subject(
    alloc: Global,
    descriptor: &mut Handle,
    index: u64,
    room: &mut [u8],
) -> Written
    ensures answer { WritesSidPart (SidPart.Subject index) descriptor.old room.old room.new result }
    ensures descriptor { Stays descriptor.old descriptor.new }
{
    write_part(alloc, descriptor, SidPart::Subject(index), room)
}

/// The kind of a kept descriptor's DACL, its control bits and the number of its entries ([MS-DTYP] 2.4.6). Refused if
/// the handle keeps no descriptor. Takes no memory.
#[unsafe(no_mangle)]
pub extern "C" fn hudarin_descriptor_dacl(alloc: Global, descriptor: &mut Handle) -> DaclAnswer
    ensures answer { ReturnsDacl descriptor.old result }
    ensures descriptor { Stays descriptor.old descriptor.new }
{
    let Some(kept) = descriptor.take(alloc) else {
        return no_dacl();
    };
    let answer = dacl_in(&kept);
    descriptor.put(kept);
    answer
}

/// The kind, the flags and the mask of the entry at the index, from 0, of a kept descriptor's DACL ([MS-DTYP] 2.4.4),
/// whose SID is written into the buffer. Refused as `hudarin_descriptor_owner` is.
#[unsafe(no_mangle)]
pub extern "C" fn hudarin_descriptor_entry(
    alloc: Global,
    descriptor: &mut Handle,
    index: u64,
    room: &mut [u8],
) -> EntryAnswer
    ensures answer { WritesEntry index descriptor.old room.old room.new result }
    ensures descriptor { Stays descriptor.old descriptor.new }
{
    let Some(kept) = descriptor.take(alloc) else {
        return no_entry(NoPart::Handle);
    };
    let answer = match entry_part(alloc, &kept, index) {
        Ok((bytes, entry)) => EntryAnswer {
            written: write(&bytes, room),
            kind: entry_kind(entry.kind),
            flags: u32::from(entry.flags.bits()),
            mask: entry.mask.bits(),
        },
        Err(why) => no_entry(why),
    };
    descriptor.put(kept);
    answer
}

fn write_part(alloc: Global, descriptor: &mut Handle, part: SidPart, room: &mut [u8]) -> Written
    ensures answer { WritesSidPart part descriptor.old room.old room.new result }
    ensures descriptor { Stays descriptor.old descriptor.new }
{
    let Some(kept) = descriptor.take(alloc) else {
        return no_part(NoPart::Handle);
    };
    let answer = match sid_part(alloc, &kept, part) {
        Ok(bytes) => write(&bytes, room),
        Err(why) => no_part(why),
    };
    descriptor.put(kept);
    answer
}

/// The bytes of the SID that is this part.
fn sid_part(alloc: Global, kept: &Kept, part: SidPart) -> Result<Vec<u8>, NoPart>
    ensures ok { IfOk result (λ bytes. IsSidPart part kept.now bytes.items) }
    ensures err { IfErr result (λ why. LacksPart (sid_in part) kept.now why) }
{
    let Kept::Descriptor(descriptor) = kept else {
        return Err(NoPart::Handle);
    };
    match sid_in(descriptor, part) {
        Some(sid) => Ok(sid_bytes(alloc, &sid)?),
        None => Err(NoPart::Absent),
    }
}

/// The entry at the index, and the bytes of its SID.
fn entry_part(alloc: Global, kept: &Kept, index: u64) -> Result<(Vec<u8>, Ace), NoPart>
    ensures ok { IfOk result (λ made. IsEntryPart index kept.now made.0.items made.1) }
    ensures err { IfErr result (λ why. LacksPart (entry_in index) kept.now why) }
{
    let Kept::Descriptor(descriptor) = kept else {
        return Err(NoPart::Handle);
    };
    match entry_at(&descriptor.dacl, index) {
        Some(entry) => Ok((sid_bytes(alloc, &entry.sid)?, entry)),
        None => Err(NoPart::Absent),
    }
}

fn sid_in(descriptor: &Descriptor, part: SidPart) -> Option<Sid>
    ensures { result ≡ sid_in part (descriptor_of descriptor.now) }
{
    match part {
        SidPart::Owner => descriptor.owner,
        SidPart::Group => descriptor.group,
        SidPart::Subject(index) => {
            let entry = entry_at(&descriptor.dacl, index)?;
            subject_of(&descriptor.owner, &entry.sid).copied()
        }
    }
}

fn entry_at(dacl: &Dacl, index: u64) -> Option<Ace>
    ensures { result ≡ entry_at index dacl.now }
{
    match dacl {
        Dacl::Absent | Dacl::Null => None,
        Dacl::List(list) => list.entries().get(index as usize).copied(),
    }
}

fn entry_kind(kind: AceKind) -> u32
    ensures { result ≡ entry_kind kind }
{
    match kind {
        AceKind::Allow => 1,
        AceKind::Deny => 2,
    }
}

fn dacl_in(kept: &Kept) -> DaclAnswer
    ensures { result ≡ dacl_in kept.now }
{
    match kept {
        Kept::Descriptor(descriptor) => dacl_answer(descriptor),
        _ => no_dacl(),
    }
}

fn dacl_answer(descriptor: &Descriptor) -> DaclAnswer
    ensures { result ≡ dacl_answer (descriptor_of descriptor.now) }
{
    let (kind, entries) = match &descriptor.dacl {
        Dacl::Absent => (1, 0),
        Dacl::Null => (2, 0),
        Dacl::List(list) => (3, list.entries().len() as u64),
    };
    DaclAnswer {
        status: OK,
        kind,
        control: control_of(descriptor),
        entries,
    }
}

fn control_of(descriptor: &Descriptor) -> u32
    ensures { result ≡ control_of (descriptor_of descriptor.now) }
{
    where_set(descriptor.protected, PROTECTED)
        | where_set(descriptor.auto_req, AUTO_REQ)
        | where_set(descriptor.auto_inherited, AUTO_INHERITED)
}

fn where_set(test: bool, bit: u32) -> u32
    ensures { result ≡ where_set test bit }
{
    if test { bit } else { 0 }
}

/// The answer that says why no part is returned.
pub(crate) fn no_part(why: NoPart) -> Written
    ensures { result ≡ no_part why }
{
    match why {
        NoPart::Handle => not_written(HANDLE, 0, 0),
        NoPart::Absent => not_written(NO_PART, 0, 0),
        NoPart::Memory => not_written(MEMORY, 0, 0),
    }
}

fn no_entry(why: NoPart) -> EntryAnswer
    ensures { result ≡ no_entry why }
{
    EntryAnswer {
        written: no_part(why),
        kind: 0,
        flags: 0,
        mask: 0,
    }
}

fn no_dacl() -> DaclAnswer
    ensures { result ≡ no_dacl }
{
    DaclAnswer {
        status: HANDLE,
        kind: 0,
        control: 0,
        entries: 0,
    }
}
