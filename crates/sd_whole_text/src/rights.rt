//! The rights of an entry: [MS-DTYP] 2.5.1.1, ace-rights.

ghost use Rattle.std.specs.Prelude.{◌≡◌, ◌++◌, OnOk, string_bytes};
ghost use Rattle.sd_whole_text.specs.Rights.{label_text, rights_text};

use sd_sid::Mask;
use sd_text::{RightNames, write_rights, write_where};
use sd_whole::WholeKind;
use std::alloc::AllocError;

/// The mask of all three rights of a label.
const LABEL_BITS: u32 = 7;

/// Appends the mask of an entry of this kind: a label's by the names of labels, and nothing of one that has to be 0 and
/// is ([MS-DTYP] 2.4.4.15, 2.4.4.16).
pub(crate) fn push_rights(
    out: &mut String,
    names: RightNames,
    kind: WholeKind,
    mask: Mask,
) -> Result<(), AllocError>
    ensures { OnOk result (string_bytes out.new ≡ string_bytes out.old ++ rights_text names kind mask) }
{
    match kind {
        WholeKind::MandatoryLabel => push_label(out, mask),
        WholeKind::ResourceAttribute | WholeKind::ScopedPolicy if mask.bits() == 0 => Ok(()),
        _ => write_rights(out, names, mask),
    }
}

/// Appends the mask of a label ([MS-DTYP] 2.4.4.13).
#[tactic(auto, unfolding(crate::specs::Rights::label_text))]
fn push_label(out: &mut String, mask: Mask) -> Result<(), AllocError>
    ensures { OnOk result (string_bytes out.new ≡ string_bytes out.old ++ label_text mask) }
{
    let bits = mask.bits();
    if bits == 0 || bits > LABEL_BITS {
        return write!(out, "0x{bits:x}");
    }
    write_where(out, bits & 1 != 0, "NW")?;
    write_where(out, bits & 2 != 0, "NR")?;
    write_where(out, bits & 4 != 0, "NX")
}
