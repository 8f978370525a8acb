//! What has no text.

ghost use Rattle.std.specs.Prelude.{◌≡◌, Some};
ghost use Rattle.std.specs.Fmt.{padded};
ghost use Rattle.sd_whole_text.specs.NoText.{no_text_number, no_text_name};
ghost use Rattle.sd_whole_text.specs.declared.no_text.WholeTextError.TheVariants.{NoText, Memory};

use std::alloc::{AllocError, AllocFailed};
use std::fmt;
use thiserror::Error;

/// One of the two lists of a descriptor ([MS-DTYP] 2.4.5).
#[derive(Clone, Copy, Debug, PartialEq, Eq)]
pub enum AclKind {
    /// The discretionary list, who is allowed what.
    Dacl,
    /// The system list, what is audited, and labels.
    Sacl,
}

/// The first part of a descriptor that has no text, of its header, then of its entries in the order of the text
/// ([MS-DTYP] 2.5.1.1): its text would be parsed as another descriptor. Entries are counted from 1.
#[derive(Clone, Copy, Debug, PartialEq, Eq)]
pub enum NoText {
    /// The resource manager's byte isn't 0.
    ResourceManager,
    /// A control bit has no keyword: OD, GD, DD, SD, SS, DT or RM.
    Control,
    /// A keyword is set of a list that isn't there.
    Keywords(AclKind),
    /// An entry is kept as bytes.
    Opaque(AclKind, usize),
    /// An entry's type has no letters.
    Kind(AclKind, usize),
    /// The bytes after an entry's SID have no text: its type has no field for them, or they aren't the one written form
    /// of the condition or the claim that it has, or these have no text.
    Data(AclKind, usize),
}

impl NoText {
    /// The reason's number, from 1 on, by which programs name it.
    pub fn number(self) -> u8
        ensures { result ≡ no_text_number self }
    {
        match self {
            NoText::ResourceManager => 1,
            NoText::Control => 2,
            NoText::Keywords(_) => 3,
            NoText::Opaque(..) => 4,
            NoText::Kind(..) => 5,
            NoText::Data(..) => 6,
        }
    }

    /// The reason's name, by which programs print it.
    pub fn name(self) -> &'static str
        ensures { result.now ≡ no_text_name self }
    {
        match self {
            NoText::ResourceManager => "ResourceManager",
            NoText::Control => "Control",
            NoText::Keywords(_) => "Keywords",
            NoText::Opaque(..) => "Opaque",
            NoText::Kind(..) => "Kind",
            NoText::Data(..) => "Data",
        }
    }
}

impl fmt::Display for NoText {
    ghost output = { λ why. Some (no_text_name why) };

    ghost styled_output = { λ why spec. Some (padded spec (no_text_name why)) };

    fn fmt<W: fmt::Write>(&self, f: &mut fmt::Formatter<W>) -> fmt::Result {
        f.pad(self.name())
    }
}

/// Why no text was printed: what has none, or out of memory.
#[derive(Clone, Copy, Debug, PartialEq, Eq, Error)]
pub enum WholeTextError {
    #[error("{0}")]
    NoText(NoText),
    #[error("out of memory")]
    Memory,
}

impl From<NoText> for WholeTextError {
    ghost from_gives = { λ why e. e ≡ NoText why };

    fn from(why: NoText) -> WholeTextError {
        WholeTextError::NoText(why)
    }
}

impl From<AllocError> for WholeTextError {
    ghost from_gives = { λ _ e. e ≡ Memory };

    fn from(_: AllocError) -> WholeTextError {
        WholeTextError::Memory
    }
}

impl<T: Drop> From<AllocFailed<T>> for WholeTextError {
    ghost from_gives = { λ _ e. e ≡ Memory };

    fn from(_: AllocFailed<T>) -> WholeTextError {
        WholeTextError::Memory
    }
}
