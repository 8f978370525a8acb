//! Why a whole descriptor has no plain one for a question.

ghost use Rattle.std.specs.Prelude.{◌≡◌};
ghost use Rattle.sd_specialize.specs.Specialize.{fault_name, fault_number, refused_name, refused_number};
ghost use Rattle.sd_specialize.specs.declared.fault.EntryError.TheVariants as entries;
ghost use Rattle.sd_specialize.specs.declared.fault.SpecializeError.TheVariants as errors;

use sd_whole::OddKind;
use std::alloc::{AllocError, AllocFailed};

/// Why an entry of a DACL has no plain form for a question.
#[derive(Clone, Copy, Debug, PartialEq, Eq)]
pub enum RefusedKind {
    /// The entry is effective, and neither an allow nor a deny: its type is of SACLs, or it has no layout.
    Odd(OddKind),
    /// The token is restricted, and the entry's condition lets it apply in one of the two passes alone ([MS-DTYP]
    /// 2.5.2).
    PassesDiffer,
}

impl RefusedKind {
    /// The number, by which programs name it: of an `OddKind` its own.
    pub fn number(self) -> u8
        ensures { result ≡ refused_number self }
    {
        match self {
            RefusedKind::Odd(kind) => kind.number(),
            RefusedKind::PassesDiffer => 5,
        }
    }

    /// The name, by which programs print it: of an `OddKind` its own.
    pub fn name(self) -> &'static str
        ensures { result.now ≡ refused_name self }
    {
        match self {
            RefusedKind::Odd(kind) => kind.name(),
            RefusedKind::PassesDiffer => "PassesDiffer",
        }
    }
}

/// The first entry of a DACL that has no plain form for a question.
#[derive(Clone, Copy, Debug, PartialEq, Eq)]
pub struct RefusedEntry {
    /// The entry's number in the list, from 1 on.
    pub entry: usize,
    pub kind: RefusedKind,
}

/// Why a whole descriptor has no plain one for a question.
#[derive(Clone, Copy, Debug, PartialEq, Eq)]
pub enum SpecializeFault {
    /// An entry of the DACL is refused.
    Refused(RefusedEntry),
    /// With longer SIDs in place of PRINCIPAL SELF, the list takes more than 65,535 bytes ([MS-DTYP] 2.4.5).
    TooLarge,
}

impl SpecializeFault {
    /// The number, by which programs name it.
    pub fn number(self) -> u8
        ensures { result ≡ fault_number self }
    {
        match self {
            SpecializeFault::Refused(entry) => entry.kind.number(),
            SpecializeFault::TooLarge => 6,
        }
    }

    /// The name, by which programs print it.
    pub fn name(self) -> &'static str
        ensures { result.now ≡ fault_name self }
    {
        match self {
            SpecializeFault::Refused(entry) => entry.kind.name(),
            SpecializeFault::TooLarge => "TooLarge",
        }
    }
}

/// Why no plain descriptor is made for a question.
#[derive(Clone, Copy, Debug, PartialEq, Eq)]
pub enum SpecializeError {
    /// There is none.
    Fault(SpecializeFault),
    /// Memory was refused.
    Memory,
}

impl From<AllocError> for SpecializeError {
    ghost from_gives = { λ _ e. e ≡ errors.Memory };

    fn from(_error: AllocError) -> SpecializeError {
        SpecializeError::Memory
    }
}

impl<T: Drop> From<AllocFailed<T>> for SpecializeError {
    ghost from_gives = { λ _ e. e ≡ errors.Memory };

    fn from(_error: AllocFailed<T>) -> SpecializeError {
        SpecializeError::Memory
    }
}

/// Why an entry has no plain form.
#[derive(Clone, Copy)]
pub(crate) enum EntryError {
    Refused(RefusedKind),
    Memory,
}

impl From<AllocError> for EntryError {
    ghost from_gives = { λ _ e. e ≡ entries.Memory };

    fn from(_error: AllocError) -> EntryError {
        EntryError::Memory
    }
}
