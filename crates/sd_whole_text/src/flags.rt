//! The flags of an entry: [MS-DTYP] 2.5.1.1, ace-flag-string.

ghost use Rattle.std.specs.Prelude.{◌≡◌, ◌++◌, OnOk, string_bytes};
ghost use Rattle.sd_whole_text.specs.Flags.{flags_text, named_text};

use bitflags::Flags;
use sd_acl::AceFlags;
use sd_text::{write_flags, write_where};
use sd_whole::WholeKind;
use std::alloc::AllocError;

/// The flag that has a name in newer versions alone (CRITICAL_ACE_FLAG).
const CRITICAL: u8 = 0x20;

/// The flag that has another name in an access filter (TRUST_PROTECTED_FILTER_ACE_FLAG).
const TRUST_PROTECTED: u8 = 0x40;

/// Appends the flags of an entry of this kind by their names ([MS-DTYP] 2.4.4.1, AceFlags).
#[tactic(auto, unfolding(crate::specs::Flags::flags_text))]
pub(crate) fn push_flags(
    out: &mut String,
    kind: WholeKind,
    flags: AceFlags,
) -> Result<(), AllocError>
    ensures { OnOk result (string_bytes out.new ≡ string_bytes out.old ++ flags_text kind flags.0) }
{
    push_named(out, kind, flags)?;
    write_where(out, flags.bits() & CRITICAL != 0, "CR")
}

/// Appends the flags that are named everywhere.
fn push_named(out: &mut String, kind: WholeKind, flags: AceFlags) -> Result<(), AllocError>
    ensures { OnOk result (string_bytes out.new ≡ string_bytes out.old ++ named_text kind flags.0) }
{
    match kind {
        WholeKind::AccessFilter => {
            let bits = flags.bits();
            write_flags(out, AceFlags::from_bits_retain(bits & !TRUST_PROTECTED))?;
            write_where(out, bits & TRUST_PROTECTED != 0, "TP")
        }
        _ => write_flags(out, flags),
    }
}
