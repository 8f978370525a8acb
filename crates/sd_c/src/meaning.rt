//! What the statuses and faults of an answer mean, in words.

ghost use Rattle.std.specs.Prelude.{◌≡◌};
ghost use Rattle.sd_c.specs.Meaning.{FaultsHaveNames, fault_name, limits_fault, no_text_fault_name, odd_kind};
ghost use Rattle.sd_c.specs.Meaning.{path_fault_name, refusal_of, sid_fault, status_text, text_fault, wire_fault};
ghost use Rattle.sd_c.specs.Meaning.{account_fault_name, create_fault, name_or_nothing, row_fault_name};
ghost use Rattle.sd_c.specs.Meaning.{tree_fault_kind, undecided_fault_name};
ghost use Rattle.sd_types.specs.Tree.{kind_name};
ghost use Rattle.sd_c.specs.Written.{Writes};

use crate::call_answer::{
    ACCOUNT, BEHIND_GROUPS, DOMAIN, EDIT, HANDLE, KIND, LIMITS, MAPPING, MEMORY, NO_NODE, NO_PART,
    NO_TEXT, NOT_CREATED, NOT_PLAIN, OK, PARTS, PATH, PRIVILEGES, REFUSED, ROOM, ROW, SID, STATE,
    TEXT, TREE, TYPES, UNDECIDED, UNENDED, UTF8, WIRE, WORD, Written, write,
};
use sd_create::CreateFault;
use sd_sid::SidError;
use sd_text::TextFault;
use sd_tree::{EditRefusal, LimitsError};
use sd_types::TreeFaultKind;
use sd_whole::OddKind;
use sd_wire::WireFault;

/// Writes what a status means into the buffer; of a number that is no status nothing. Takes no memory.
#[unsafe(no_mangle)]
pub extern "C" fn hudarin_status_text(status: u32, room: &mut [u8]) -> Written
    ensures { Writes (status_text status) room.old room.new result }
{
    write(status_text(status).as_bytes(), room)
}

/// Writes the name of a status' fault into the buffer; where the status has no such fault nothing. Takes no memory.
#[unsafe(no_mangle)]
pub extern "C" fn hudarin_fault_name(status: u32, fault: u32, room: &mut [u8]) -> Written
    ensures { Writes (fault_name status fault) room.old room.new result }
{
    write(fault_name(status, fault).as_bytes(), room)
}

/// A law: each fault of each status has its name at its number.
pub fn faults_have_names()
    ensures { FaultsHaveNames }
{}

fn status_text(status: u32) -> &'static str
    ensures { result.now ≡ status_text status }
{
    match status {
        OK => "success",
        MEMORY => "out of memory",
        ROOM => "the buffer is too small",
        UTF8 => "a text isn't UTF-8",
        TEXT => "a text is invalid",
        WIRE => "the bytes hold no descriptor",
        SID => "the bytes don't start with a SID",
        BEHIND_GROUPS => "bytes follow the groups",
        STATE => "a group's state is invalid",
        PRIVILEGES => "a bit is no privilege",
        MAPPING => "a mask of the mapping has a bit beyond 0x001FFFFF",
        HANDLE => "a handle is empty, in use or of another kind",
        EDIT => "there is no such edit, or it takes no value",
        PATH => "a text is no path",
        PARTS => "an owner or a group is missing, or isn't allowed",
        REFUSED => "the tree refuses the edit",
        NO_NODE => "there is no node at the path",
        DOMAIN => "the SID is no domain's",
        NO_PART => "there is no such part",
        LIMITS => "a limit of the store is out of range",
        NO_TEXT => "a part of the descriptor has no text",
        NOT_PLAIN => "an entry of the DACL isn't plain",
        WORD => "a word says nothing of a client",
        UNENDED => "the last word has no zero byte after it",
        TYPES => "the object types are more than five, or not of 16 bytes",
        UNDECIDED => "the descriptor can't be decided for the question",
        ROW => "a line of the accounts is no row",
        ACCOUNT => "the text means no user that may log on",
        KIND => "no kind of object has the number",
        TREE => "the nodes are no tree of object types",
        NOT_CREATED => "the new object gets no descriptor",
        _ => "",
    }
}

fn fault_name(status: u32, fault: u32) -> &'static str
    ensures { result.now ≡ fault_name status fault }
{
    match status {
        TEXT => match text_fault(fault) {
            Some(fault) => fault.name(),
            None => "",
        },
        WIRE => match wire_fault(fault) {
            Some(fault) => fault.name(),
            None => "",
        },
        SID => match sid_fault(fault) {
            Some(fault) => fault.name(),
            None => "",
        },
        PATH => path_fault_name(fault),
        REFUSED => match refusal_of(fault) {
            Some(refusal) => refusal.name(),
            None => "",
        },
        LIMITS => match limits_fault(fault) {
            Some(fault) => fault.name(),
            None => "",
        },
        NO_TEXT => no_text_fault_name(fault),
        NOT_PLAIN => match odd_kind(fault) {
            Some(kind) => kind.name(),
            None => "",
        },
        UNDECIDED => undecided_fault_name(fault),
        ROW => row_fault_name(fault),
        ACCOUNT => account_fault_name(fault),
        TREE => tree_fault_name(fault),
        NOT_CREATED => match create_fault(fault) {
            Some(fault) => fault.name(),
            None => "",
        },
        _ => "",
    }
}

fn text_fault(number: u32) -> Option<TextFault>
    ensures { result ≡ text_fault number }
{
    match number {
        1 => Some(TextFault::Syntax),
        2 => Some(TextFault::HasSacl),
        3 => Some(TextFault::EntryKind),
        4 => Some(TextFault::ObjectGuid),
        5 => Some(TextFault::UnknownAlias),
        6 => Some(TextFault::DomainAlias),
        7 => Some(TextFault::Range),
        8 => Some(TextFault::AclTooLarge),
        _ => None,
    }
}

fn wire_fault(number: u32) -> Option<WireFault>
    ensures { result ≡ wire_fault number }
{
    match number {
        1 => Some(WireFault::Short),
        2 => Some(WireFault::Revision),
        3 => Some(WireFault::NotSelfRelative),
        4 => Some(WireFault::HasSacl),
        5 => Some(WireFault::BadOffset),
        6 => Some(WireFault::BadSid),
        7 => Some(WireFault::AclRevision),
        8 => Some(WireFault::AclSize),
        9 => Some(WireFault::EntrySize),
        10 => Some(WireFault::EntryKind),
        _ => None,
    }
}

/// The error of a SID's bytes with this number, if there is one.
fn sid_fault(number: u32) -> Option<SidError>
    ensures { result ≡ sid_fault number }
{
    match number {
        1 => Some(SidError::Revision),
        2 => Some(SidError::Count),
        3 => Some(SidError::Short),
        _ => None,
    }
}

fn path_fault_name(number: u32) -> &'static str
    ensures { result.now ≡ path_fault_name number }
{
    match number {
        1 => "Syntax",
        2 => "NameTooLong",
        3 => "TooManyNames",
        _ => "",
    }
}

fn no_text_fault_name(number: u32) -> &'static str
    ensures { result.now ≡ no_text_fault_name number }
{
    match number {
        1 => "ResourceManager",
        2 => "Control",
        3 => "Keywords",
        4 => "Opaque",
        5 => "Kind",
        6 => "Data",
        _ => "",
    }
}

fn odd_kind(number: u32) -> Option<OddKind>
    ensures { result ≡ odd_kind number }
{
    match number {
        1 => Some(OddKind::ObjectAce),
        2 => Some(OddKind::ConditionalAce),
        3 => Some(OddKind::SystemAce),
        4 => Some(OddKind::OpaqueAce),
        _ => None,
    }
}

fn undecided_fault_name(number: u32) -> &'static str
    ensures { result.now ≡ undecided_fault_name number }
{
    match number {
        5 => "PassesDiffer",
        6 => "TooLarge",
        7 => "MayBeDenied",
        _ => match odd_kind(number) {
            Some(kind) => kind.name(),
            None => "",
        },
    }
}

fn row_fault_name(number: u32) -> &'static str
    ensures { result.now ≡ row_fault_name number }
{
    match number {
        1 => "Keyword",
        2 => "Sid",
        3 => "Name",
        4 => "Surplus",
        5 => "Incomplete",
        _ => "",
    }
}

fn account_fault_name(number: u32) -> &'static str
    ensures { result.now ≡ account_fault_name number }
{
    match number {
        1 => "Unknown",
        2 => "Ambiguous",
        3 => "NoUser",
        4 => "Disabled",
        _ => "",
    }
}

fn tree_fault_name(number: u32) -> &'static str
    ensures { result.now ≡ name_or_nothing kind_name (tree_fault_kind number) }
{
    match tree_fault_kind(number) {
        Some(kind) => kind.name(),
        None => "",
    }
}

fn tree_fault_kind(number: u32) -> Option<TreeFaultKind>
    ensures { result ≡ tree_fault_kind number }
{
    match number {
        1 => Some(TreeFaultKind::NoClass),
        2 => Some(TreeFaultKind::LevelLeftOut),
        3 => Some(TreeFaultKind::SecondClass),
        4 => Some(TreeFaultKind::TooDeep),
        5 => Some(TreeFaultKind::Repeated),
        _ => None,
    }
}

fn create_fault(number: u32) -> Option<CreateFault>
    ensures { result ≡ create_fault number }
{
    match number {
        1 => Some(CreateFault::Owner),
        2 => Some(CreateFault::NoOwner),
        3 => Some(CreateFault::NoGroup),
        4 => Some(CreateFault::TooLarge),
        _ => None,
    }
}

fn refusal_of(number: u32) -> Option<EditRefusal>
    ensures { result ≡ refusal_of number }
{
    match number {
        1 => Some(EditRefusal::NoParent),
        2 => Some(EditRefusal::ParentIsObject),
        3 => Some(EditRefusal::Exists),
        4 => Some(EditRefusal::NoNode),
        5 => Some(EditRefusal::NotEmpty),
        6 => Some(EditRefusal::IsRoot),
        7 => Some(EditRefusal::InheritedEntry),
        8 => Some(EditRefusal::NotCanonical),
        9 => Some(EditRefusal::AclTooLarge),
        10 => Some(EditRefusal::TooDeep),
        11 => Some(EditRefusal::NodesFull),
        12 => Some(EditRefusal::JournalFull),
        13 => Some(EditRefusal::IntoItself),
        _ => None,
    }
}

fn limits_fault(number: u32) -> Option<LimitsError>
    ensures { result ≡ limits_fault number }
{
    match number {
        1 => Some(LimitsError::NoNodes),
        2 => Some(LimitsError::TooManyNodes),
        3 => Some(LimitsError::TooManyEdits),
        _ => None,
    }
}
