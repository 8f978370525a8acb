//! What is wrong with bytes that hold no descriptor.

ghost use Rattle.std.specs.Prelude.{◌≡◌, Some};
ghost use Rattle.std.specs.Fmt.{padded};
ghost use Rattle.sd_wire.specs.Fault.{wire_fault_number, wire_fault_name};
ghost use Rattle.sd_wire.specs.declared.fault.WireError.TheVariants.{Fault, Memory};

use std::alloc::{AllocError, AllocFailed};
use std::fmt;
use thiserror::Error;

/// The first test that bytes fail, in the order in which a descriptor is parsed ([MS-DTYP] 2.4.6).
#[derive(Clone, Copy, Debug, PartialEq, Eq)]
pub enum WireFault {
    /// The bytes are fewer than a header's 20.
    Short,
    /// The descriptor's revision isn't 1.
    Revision,
    /// The descriptor isn't self-relative.
    NotSelfRelative,
    /// The descriptor has a SACL.
    HasSacl,
    /// An offset points into the header, or to fewer than 8 bytes.
    BadOffset,
    /// There is no SID where there must be one.
    BadSid,
    /// The list's revision is neither 2 nor 4.
    AclRevision,
    /// The list's size is below its header's, or passes the end of the bytes.
    AclSize,
    /// An entry's size doesn't fit the entry or the list.
    EntrySize,
    /// An entry is neither an allow nor a deny.
    EntryKind,
}

impl WireFault {
    /// The fault's number, from 1 on, by which programs name it.
    pub fn number(self) -> u8
        ensures { result ≡ wire_fault_number self }
    {
        match self {
            WireFault::Short => 1,
            WireFault::Revision => 2,
            WireFault::NotSelfRelative => 3,
            WireFault::HasSacl => 4,
            WireFault::BadOffset => 5,
            WireFault::BadSid => 6,
            WireFault::AclRevision => 7,
            WireFault::AclSize => 8,
            WireFault::EntrySize => 9,
            WireFault::EntryKind => 10,
        }
    }

    /// The fault's name, by which programs print it.
    pub fn name(self) -> &'static str
        ensures { result.now ≡ wire_fault_name self }
    {
        match self {
            WireFault::Short => "Short",
            WireFault::Revision => "Revision",
            WireFault::NotSelfRelative => "NotSelfRelative",
            WireFault::HasSacl => "HasSacl",
            WireFault::BadOffset => "BadOffset",
            WireFault::BadSid => "BadSid",
            WireFault::AclRevision => "AclRevision",
            WireFault::AclSize => "AclSize",
            WireFault::EntrySize => "EntrySize",
            WireFault::EntryKind => "EntryKind",
        }
    }
}

impl fmt::Display for WireFault {
    ghost output = { λ fault. Some (wire_fault_name fault) };

    ghost styled_output = { λ fault spec. Some (padded spec (wire_fault_name fault)) };

    fn fmt<W: fmt::Write>(&self, f: &mut fmt::Formatter<W>) -> fmt::Result {
        f.pad(self.name())
    }
}

/// Why no descriptor was parsed: the bytes' first fault, or out of memory.
#[derive(Clone, Copy, Debug, PartialEq, Eq, Error)]
pub enum WireError {
    #[error("{0}")]
    Fault(WireFault),
    #[error("out of memory")]
    Memory,
}

impl From<WireFault> for WireError {
    ghost from_gives = { λ fault e. e ≡ Fault fault };

    fn from(fault: WireFault) -> WireError {
        WireError::Fault(fault)
    }
}

impl From<AllocError> for WireError {
    ghost from_gives = { λ _ e. e ≡ Memory };

    fn from(_: AllocError) -> WireError {
        WireError::Memory
    }
}

impl<T: Drop> From<AllocFailed<T>> for WireError {
    ghost from_gives = { λ _ e. e ≡ Memory };

    fn from(_: AllocFailed<T>) -> WireError {
        WireError::Memory
    }
}
