//! How masks are spelled, and the rights of entries beside them.
ghost use Rattle.std.specs.Prelude.{◌≡◌, IfOk, string_bytes};
ghost use Rattle.sd_line.specs.Spelling.{right_names_of, spelled};

use crate::names::{ObjectKind, mask_names};
use sd_sid::Mask;
use sd_text::RightNames;
use std::alloc::{AllocError, Global};

/// How a mask is spelled.
#[derive(Clone, Copy, Debug, PartialEq, Eq)]
pub enum Spelling {
    /// As a number, as `0x160089`.
    Number,
    /// By the names of a kind of object, as `FR+WD` of a file; of none by those of every object.
    Names(Option<ObjectKind>),
}

impl Spelling {
    /// The names that rights have in an entry beside masks so spelled: of their kind of object alone. Without names the
    /// entry is that of the canonical text.
    pub fn right_names(self) -> RightNames
        ensures { result ≡ right_names_of self }
    {
        match self {
            Spelling::Number => RightNames::All,
            Spelling::Names(Some(ObjectKind::File | ObjectKind::Folder)) => RightNames::Files,
            Spelling::Names(Some(ObjectKind::Key)) => RightNames::Keys,
            Spelling::Names(_) => RightNames::Common,
        }
    }
}

/// The mask in this spelling ([MS-DTYP] 2.4.3).
pub fn spell(alloc: Global, spelling: Spelling, mask: Mask) -> Result<String, AllocError>
    ensures { IfOk result (λ text. string_bytes text ≡ spelled spelling mask) }
{
    match spelling {
        Spelling::Number => {
            let bits = mask.bits();
            format!(in alloc; "0x{bits:x}")
        }
        Spelling::Names(kind) => mask_names(alloc, kind, mask),
    }
}
