//! The line of `rights`: the names of a mask's rights, by kind of object ([MS-DTYP] 2.4.3).
ghost use Rattle.std.specs.Prelude.{◌≡◌, IfOk, string_bytes};
ghost use Rattle.sd_line.specs.Rights.{rights_line, rights_text};

use crate::line::Line;
use crate::names::{ObjectKind, names_among, permission_among, permissions, rights};
use sd_sid::Mask;
use std::alloc::{AllocError, Global};

/// The mask, the permission that it is, and its rights, as `0x10001: FILE_READ_DATA+DELETE`. The only error is out of
/// memory.
pub fn rights_line(alloc: Global, kind: Option<ObjectKind>, mask: Mask) -> Result<Line, AllocError>
    ensures { IfOk result (λ line. line ≡ rights_line kind mask) }
{
    let text = rights_text(alloc, kind, mask)?;
    Line::text(alloc, text)
}

#[tactic(auto, using(std::proofs::Common::append_assoc))]
fn rights_text(alloc: Global, kind: Option<ObjectKind>, mask: Mask) -> Result<String, AllocError>
    ensures { IfOk result (λ text. string_bytes text ≡ rights_text kind mask) }
{
    let names = names_among(alloc, rights(), kind, mask)?;
    let (bits, names) = (mask.bits(), names.as_str());
    match permission_among(permissions(), kind, mask.bits()) {
        Some(name) => {
            let text = format!(in alloc; "0x{bits:x} {name}: {names}")?;
            Ok(text)
        }
        None => {
            let text = format!(in alloc; "0x{bits:x}: {names}")?;
            Ok(text)
        }
    }
}
