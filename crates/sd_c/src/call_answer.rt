//! The answers of the calls, as C takes them: by value, and as numbers.

ghost use Rattle.std.specs.Prelude.{◌≡◌};
ghost use Rattle.sd_c.specs.CallAnswer.{given, verdict_given, unread, not_read, undecided_place, unwritten, why_not};
ghost use Rattle.sd_c.specs.Length.{length_told};
ghost use Rattle.sd_c.specs.Written.{Writes, index_of, not_written, refused};

use crate::refusal::Refusal;
use crate::stop::{NotRead, Stop};
use sd_check::Verdict;
use sd_sid::Mask;
use sd_specialize::SpecializeFault;
use sd_whole_text::NoText;

/// Success.
pub const OK: u32 = 0;
/// Out of memory.
pub const MEMORY: u32 = 1;
/// The buffer is too small; the answer has the number of bytes required.
pub const ROOM: u32 = 2;
/// A text isn't UTF-8.
pub const UTF8: u32 = 3;
/// A text is invalid; the fault is one of those of `TextFault`.
pub const TEXT: u32 = 4;
/// Bytes hold no descriptor; the fault is one of those of `WireFault`.
pub const WIRE: u32 = 5;
/// Bytes don't start with a SID; the fault is one of those of `SidError`.
pub const SID: u32 = 6;
/// Bytes follow the groups.
pub const BEHIND_GROUPS: u32 = 7;
/// A group's state is invalid.
pub const STATE: u32 = 8;
/// A bit is no privilege.
pub const PRIVILEGES: u32 = 9;
/// A mask of a mapping has a bit beyond 0x001FFFFF.
pub const MAPPING: u32 = 10;
/// A handle keeps nothing, or something else; or it keeps something already.
pub const HANDLE: u32 = 11;
/// A number is no edit's, or an edit has a value and takes none.
pub const EDIT: u32 = 12;
/// A text is no path; the fault is one of those of `PathError`.
pub const PATH: u32 = 13;
/// A descriptor lacks an owner or a group, or has one where only a DACL may be.
pub const PARTS: u32 = 14;
/// The tree refuses the edit; the fault is one of those of `EditRefusal`.
pub const REFUSED: u32 = 15;
/// There is no node at the path.
pub const NO_NODE: u32 = 16;
/// A SID is no domain's.
pub const DOMAIN: u32 = 17;
/// A descriptor has no owner, no group or no entry at an index.
pub const NO_PART: u32 = 18;
/// Numbers are no limits of a store; the fault is one of those of `LimitsError`.
pub const LIMITS: u32 = 19;
/// A part of a descriptor has no text; the fault is one of those of `NoText`.
pub const NO_TEXT: u32 = 20;
/// An entry of a DACL isn't plain; the fault is one of those of `OddKind`.
pub const NOT_PLAIN: u32 = 21;
/// A word says nothing of a client.
pub const WORD: u32 = 22;
/// The last word has no zero byte after it.
pub const UNENDED: u32 = 23;
/// Object types are more than five, or not of 16 bytes each.
pub const TYPES: u32 = 24;
/// A descriptor can't be decided for a question; the fault is one of those of `SpecializeFault`, or that an entry of
/// the SACL may deny what the DACL grants.
pub const UNDECIDED: u32 = 25;
/// A line of accounts is no row; the fault is one of those of `AccountsFault`.
pub const ROW: u32 = 26;
/// A text means no user that may log on; the fault says why.
pub const ACCOUNT: u32 = 27;
/// No kind of object has the number.
pub const KIND: u32 = 28;
/// Nodes are no tree of object types; the fault is one of those of `TreeFaultKind`.
pub const TREE: u32 = 29;
/// A new object gets no descriptor; the fault is one of those of `CreateFault`.
pub const NOT_CREATED: u32 = 30;

/// The answer of a check: a verdict and its mask, or which argument is invalid.
#[repr(C)]
#[derive(Clone, Copy, Debug, PartialEq, Eq)]
pub struct CheckAnswer {
    pub status: u32,
    /// The number of the invalid argument, from 1; 0 where none is.
    pub argument: u32,
    /// The fault's number, 0 where there is none.
    pub fault: u32,
    /// The verdict, 0 where there is none.
    pub kind: u32,
    /// The index of the invalid group, word, node or entry, or the byte offset where a text isn't UTF-8.
    pub place: u64,
    pub mask: u32,
}

fn given(kind: u32, mask: u32) -> CheckAnswer
    ensures { result ≡ given kind mask }
{
    CheckAnswer {
        status: OK,
        argument: 0,
        fault: 0,
        kind,
        place: 0,
        mask,
    }
}

/// The answer that is this verdict.
pub(crate) fn verdict_given(verdict: Verdict) -> CheckAnswer
    ensures { result ≡ verdict_given verdict }
{
    match verdict {
        Verdict::Granted(mask) => given(1, mask.bits()),
        Verdict::Denied { missing } => given(2, missing.bits()),
        Verdict::Reserved(mask) => given(3, mask.bits()),
        Verdict::EmptyRequest => given(4, 0),
    }
}

/// The answer without a verdict.
pub(crate) fn unread(status: u32, argument: u32, fault: u8, place: u64) -> CheckAnswer
    ensures { result ≡ unread status argument fault place }
{
    CheckAnswer {
        status,
        argument,
        fault: u32::from(fault),
        kind: 0,
        place,
        mask: 0,
    }
}

/// The answer that says that the handle for lines, the argument 17, is in use.
pub(crate) fn lines_in_use() -> CheckAnswer
    ensures { result ≡ unread 11 17 0 0 }
{
    unread(HANDLE, 17, 0, 0)
}

/// The answer that says which argument is invalid.
pub(crate) fn not_read(why: NotRead) -> CheckAnswer
    ensures { result ≡ not_read why }
{
    match why {
        NotRead::Descriptor(fault) => unread(WIRE, 1, fault.number(), 0),
        NotRead::User(fault) => unread(SID, 2, fault.number(), 0),
        NotRead::Group { fault, at } => unread(SID, 3, fault.number(), at),
        NotRead::BehindGroups { at } => unread(BEHIND_GROUPS, 3, 0, at),
        NotRead::State { at } => unread(STATE, 4, 0, at),
        NotRead::Restricting { fault, at } => unread(SID, 5, fault.number(), at),
        NotRead::PrivilegeBits => unread(PRIVILEGES, 6, 0, 0),
        NotRead::MappingBits => unread(MAPPING, 7, 0, 0),
        NotRead::DescriptorHandle => unread(HANDLE, 1, 0, 0),
        NotRead::TokenHandle => unread(HANDLE, 8, 0, 0),
        NotRead::NewHandle => unread(HANDLE, 14, 0, 0),
        NotRead::DomainSid(fault) => unread(SID, 18, fault.number(), 0),
        NotRead::NoDomain => unread(DOMAIN, 18, 0, 0),
        NotRead::WordsUtf8 { at } => unread(UTF8, 19, 0, at),
        NotRead::Unended => unread(UNENDED, 19, 0, 0),
        NotRead::NoWord { at } => unread(WORD, 19, 0, at),
        NotRead::Types => unread(TYPES, 20, 0, 0),
        NotRead::Tree(fault) => unread(TREE, 25, fault.kind.number(), fault.place as u64),
        NotRead::PrincipalSelf(fault) => unread(SID, 21, fault.number(), 0),
        NotRead::ClientHandle => unread(HANDLE, 22, 0, 0),
        NotRead::Undecided(fault) => unread(UNDECIDED, 1, fault.number(), undecided_place(fault)),
        NotRead::MayBeDenied => unread(UNDECIDED, 1, 7, 0),
        NotRead::Parent(fault) => unread(WIRE, 27, fault.number(), 0),
        NotRead::Creator(fault) => unread(WIRE, 28, fault.number(), 0),
        NotRead::Defaults(fault) => unread(WIRE, 29, fault.number(), 0),
        NotRead::NoDefault => unread(PARTS, 29, 0, 0),
        NotRead::Owner { fault, at } => unread(SID, 30, fault.number(), at),
        NotRead::NotCreated(fault) => unread(NOT_CREATED, 0, fault.number(), 0),
    }
}

/// The index, from 0, of the entry that is refused, which the fault counts from 1; else 0.
fn undecided_place(fault: SpecializeFault) -> u64
    ensures { result ≡ undecided_place fault }
{
    match fault {
        SpecializeFault::Refused(refused) => refused.entry.saturating_sub(1) as u64,
        SpecializeFault::TooLarge => 0,
    }
}

/// The answer that says why a check stops.
pub(crate) fn why_not(stop: Stop) -> CheckAnswer
    ensures { result ≡ why_not stop }
{
    match stop {
        Stop::NotRead(why) => not_read(why),
        Stop::Memory => unread(MEMORY, 0, 0, 0),
    }
}

/// The answer of a call that writes.
#[repr(C)]
#[derive(Clone, Copy, Debug, PartialEq, Eq)]
pub struct Written {
    pub status: u32,
    /// The fault's number, 0 where there is none.
    pub fault: u32,
    /// The byte offset of a fault in a text, or the index of an entry.
    pub place: u64,
    /// The number of bytes that are written, or required where the buffer is too small.
    pub length: u64,
}

/// Writes the bytes at the front of the buffer, if they fit.
pub(crate) fn write(bytes: &[u8], room: &mut [u8]) -> Written
    ensures { Writes bytes.now room.old room.new result }
{
    let status = if room.len() < bytes.len() { ROOM } else { OK };
    if status == OK {
        room[..bytes.len()].copy_from_slice(bytes);
    }
    Written {
        status,
        fault: 0,
        place: 0,
        length: bytes.len() as u64,
    }
}

/// The answer that has a length.
pub(crate) fn length_told(length: u64) -> Written
    ensures { result ≡ length_told length }
{
    Written {
        status: OK,
        fault: 0,
        place: 0,
        length,
    }
}

pub(crate) fn not_written(status: u32, fault: u8, place: u64) -> Written
    ensures { result ≡ not_written status fault place }
{
    Written {
        status,
        fault: u32::from(fault),
        place,
        length: 0,
    }
}

/// The answer of a call that writes nothing, for the reason in the answer of a check.
pub(crate) fn unwritten(told: CheckAnswer) -> Written
    ensures { result ≡ unwritten told }
{
    Written {
        status: told.status,
        fault: told.fault,
        place: told.place,
        length: 0,
    }
}

/// The answer that says why nothing is written.
pub(crate) fn refused(why: Refusal) -> Written
    ensures { result ≡ refused why }
{
    match why {
        Refusal::Memory => not_written(MEMORY, 0, 0),
        Refusal::Utf8 { place } => not_written(UTF8, 0, place),
        Refusal::Text { fault, place } => not_written(TEXT, fault.number(), place),
        Refusal::Wire(fault) => not_written(WIRE, fault.number(), 0),
        Refusal::Sid(fault) => not_written(SID, fault.number(), 0),
        Refusal::NoDomain => not_written(DOMAIN, 0, 0),
        Refusal::Lacking => not_written(NO_PART, 0, 0),
        Refusal::NoText(why) => not_written(NO_TEXT, why.number(), index_of(why)),
        Refusal::NotPlain(odd) => {
            not_written(
                NOT_PLAIN,
                odd.kind.number(),
                odd.entry.saturating_sub(1) as u64,
            )
        }
        Refusal::NoKind => not_written(KIND, 0, 0),
    }
}

/// The index, from 0, of the entry that has no text, which the reason counts from 1; else 0.
fn index_of(why: NoText) -> u64
    ensures { result ≡ index_of why }
{
    match why {
        NoText::ResourceManager | NoText::Control | NoText::Keywords(_) => 0,
        NoText::Opaque(_, entry) | NoText::Kind(_, entry) | NoText::Data(_, entry) => {
            entry.saturating_sub(1) as u64
        }
    }
}
