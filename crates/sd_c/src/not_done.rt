//! Why a call over a store or a view did nothing.

ghost use Rattle.std.specs.Prelude.{◌≡◌};
ghost use Rattle.sd_c.specs.declared.not_done.NotDone.TheVariants.{Limits, Memory};
ghost use Rattle.sd_c.specs.NotDone.{argument_number, limits_argument, not_done};

use crate::call_answer::{
    CheckAnswer, EDIT, HANDLE, LIMITS, MAPPING, MEMORY, NO_NODE, NO_PART, PARTS, PATH, REFUSED,
    SID, UTF8, WIRE, unread,
};
use sd_path::PathError;
use sd_sid::SidError;
use sd_tree::{EditRefusal, LimitsError};
use sd_wire::WireFault;
use std::alloc::AllocError;

/// An argument of an edit, or of a question about a node.
#[derive(Clone, Copy)]
pub enum EditArgument {
    /// The path of the node.
    Path,
    /// The value of the edit.
    Value,
    /// What the node had inherited elsewhere.
    Kept,
    /// What was offered to it there.
    Offer,
}

impl EditArgument {
    /// The number by which an answer names it.
    pub(crate) fn number(self) -> u32
        ensures { result ≡ argument_number self }
    {
        match self {
            EditArgument::Path => 12,
            EditArgument::Value => 13,
            EditArgument::Kept => 23,
            EditArgument::Offer => 24,
        }
    }
}

/// Why a call over a store or a view did nothing.
#[derive(Clone, Copy)]
pub enum NotDone {
    /// Out of memory.
    Memory,
    /// The store's handle keeps no store.
    StoreHandle,
    /// The view's handle keeps no view.
    ViewHandle,
    /// The token's handle keeps no token.
    TokenHandle,
    /// A mask of the mapping has a bit beyond 0x001FFFFF.
    MappingBits,
    /// The numbers are no limits of a store.
    Limits(LimitsError),
    /// The number is no edit's, or the edit takes no value and has one.
    EditKind,
    /// The path isn't UTF-8 from this byte on.
    Utf8 {
        argument: EditArgument,
        place: u64,
    },
    /// The text is no path.
    Path {
        argument: EditArgument,
        fault: PathError,
    },
    /// The bytes hold no descriptor.
    Descriptor {
        argument: EditArgument,
        fault: WireFault,
    },
    /// The descriptor lacks an owner or a group, or has one where only a DACL may be; or it has more than a list that
    /// isn't protected, or no such list, where that alone may be.
    Parts(EditArgument),
    /// The bytes don't start with a SID.
    Sid(SidError),
    /// The tree refuses the edit.
    Refused(EditRefusal),
    /// There is no node at the path.
    NoNode,
    /// The node keeps nothing that it had inherited elsewhere, or the number is no part of that.
    NothingKept,
}

impl From<AllocError> for NotDone {
    ghost from_gives = { λ _ why. why ≡ Memory };

    fn from(_: AllocError) -> NotDone {
        NotDone::Memory
    }
}

impl From<LimitsError> for NotDone {
    ghost from_gives = { λ fault why. why ≡ Limits fault };

    fn from(fault: LimitsError) -> NotDone {
        NotDone::Limits(fault)
    }
}

/// The number of the argument that is no limit.
fn limits_argument(fault: LimitsError) -> u32
    ensures { result ≡ limits_argument fault }
{
    match fault {
        LimitsError::NoNodes | LimitsError::TooManyNodes => 15,
        LimitsError::TooManyEdits => 16,
    }
}

/// The answer that says why nothing was done.
pub(crate) fn not_done(why: NotDone) -> CheckAnswer
    ensures { result ≡ not_done why }
{
    match why {
        NotDone::Memory => unread(MEMORY, 0, 0, 0),
        NotDone::StoreHandle => unread(HANDLE, 9, 0, 0),
        NotDone::ViewHandle => unread(HANDLE, 10, 0, 0),
        NotDone::TokenHandle => unread(HANDLE, 8, 0, 0),
        NotDone::MappingBits => unread(MAPPING, 7, 0, 0),
        NotDone::Limits(fault) => unread(LIMITS, limits_argument(fault), fault.number(), 0),
        NotDone::EditKind => unread(EDIT, 11, 0, 0),
        NotDone::Utf8 { argument, place } => unread(UTF8, argument.number(), 0, place),
        NotDone::Path { argument, fault } => unread(PATH, argument.number(), fault.number(), 0),
        NotDone::Descriptor { argument, fault } => {
            unread(WIRE, argument.number(), fault.number(), 0)
        }
        NotDone::Parts(argument) => unread(PARTS, argument.number(), 0, 0),
        NotDone::Sid(fault) => unread(SID, 13, fault.number(), 0),
        NotDone::Refused(refusal) => unread(REFUSED, 0, refusal.number(), 0),
        NotDone::NoNode => unread(NO_NODE, 12, 0, 0),
        NotDone::NothingKept => unread(NO_PART, 0, 0, 0),
    }
}
