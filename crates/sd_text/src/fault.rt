//! Why a text is refused, and at which byte.

ghost use Rattle.std.specs.Prelude.{◌≡◌};
ghost use Rattle.sd_text.specs.declared.fault.TextError.TheVariants.{Memory};
ghost use Rattle.sd_text.specs.Fault.{number_of, name_of};

use std::alloc::{AllocError, AllocFailed};
use thiserror::Error;

/// What is wrong with a text at its first fault from the left.
#[derive(Clone, Copy, Debug, PartialEq, Eq)]
pub enum TextFault {
    /// Something unexpected, or something is missing.
    Syntax,
    /// A section `S:`, the system access control list.
    HasSacl,
    /// An entry that neither allows nor denies.
    EntryKind,
    /// An entry with an object's GUID.
    ObjectGuid,
    /// Two letters that are no alias of a SID.
    UnknownAlias,
    /// An alias that needs a domain.
    DomainAlias,
    /// A number that is too large, or a sixteenth sub-authority.
    Range,
    /// An entry with which the list exceeds 65,535 bytes, the most that its header can hold.
    AclTooLarge,
}

impl TextFault {
    /// The fault's number, from 1 on, by which programs name it.
    pub fn number(self) -> u8
        ensures { result ≡ number_of self }
    {
        match self {
            TextFault::Syntax => 1,
            TextFault::HasSacl => 2,
            TextFault::EntryKind => 3,
            TextFault::ObjectGuid => 4,
            TextFault::UnknownAlias => 5,
            TextFault::DomainAlias => 6,
            TextFault::Range => 7,
            TextFault::AclTooLarge => 8,
        }
    }

    /// The fault's name, by which programs print it.
    pub fn name(self) -> &'static str
        ensures { result.now ≡ name_of self }
    {
        match self {
            TextFault::Syntax => "Syntax",
            TextFault::HasSacl => "HasSacl",
            TextFault::EntryKind => "EntryKind",
            TextFault::ObjectGuid => "ObjectGuid",
            TextFault::UnknownAlias => "UnknownAlias",
            TextFault::DomainAlias => "DomainAlias",
            TextFault::Range => "Range",
            TextFault::AclTooLarge => "AclTooLarge",
        }
    }
}

/// Why a text was not parsed: its first fault and that fault's offset in bytes from 0, or out of memory.
#[derive(Clone, Copy, Debug, PartialEq, Eq, Error)]
pub enum TextError {
    #[error("{} at {place}", .fault.name())]
    Fault { fault: TextFault, place: u64 },
    #[error("out of memory")]
    Memory,
}

impl From<AllocError> for TextError {
    ghost from_gives = { λ _ e. e ≡ Memory };

    fn from(_e: AllocError) -> TextError {
        TextError::Memory
    }
}

impl<T: Drop> From<AllocFailed<T>> for TextError {
    ghost from_gives = { λ _ e. e ≡ Memory };

    fn from(_e: AllocFailed<T>) -> TextError {
        TextError::Memory
    }
}
