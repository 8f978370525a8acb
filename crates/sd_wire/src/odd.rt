//! The first entry of a DACL that is neither an allow nor a deny.

ghost use Rattle.std.specs.Prelude.{◌≡◌, ◌≤◌, ◌+◌, length};
ghost use Rattle.sd_wire.specs.Odd.{odd_entry, odd_from};

use crate::header::{DACL_PLACE, HEADER_BYTES, leads_outside};
use crate::number::{read_u16, read_u32};

/// The number, from 1 on, and the AceType of the first entry that is neither an allow nor a deny ([MS-DTYP] 2.4.4.1):
/// the one of which `read_descriptor` says EntryKind. `None`: there is none, or the DACL is no list within the bytes.
pub fn odd_entry(bytes: &[u8]) -> Option<(usize, u8)>
    ensures { result ≡ odd_entry bytes.now }
{
    if bytes.len() < HEADER_BYTES {
        return None;
    }
    let offset = read_u32(bytes, DACL_PLACE) as usize;
    if leads_outside(bytes, offset) {
        return None;
    }
    odd_from(bytes, offset + 8, read_u16(bytes, offset + 4) as usize)
}

/// The number, from 1 on, and the AceType of the first of `count` entries at `place` that neither allows nor denies.
fn odd_from(bytes: &[u8], place: usize, count: usize) -> Option<(usize, u8)>
    requires within { place ≤ length bytes.now }
    requires few { count ≤ 65535 }
    ensures { result ≡ odd_from bytes.now place count 1 }
{
    let mut at = place;
    for i in 0..count {
        if bytes.len() < at + 4 {
            return None;
        }
        if bytes[at] > 1 {
            return Some((i + 1, bytes[at]));
        }
        at += read_u16(bytes, at + 2) as usize;
    }
    None
}
