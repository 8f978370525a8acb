//! The bodies of entries that have a layout.

ghost use Rattle.std.specs.Prelude.{◌≡◌, ◌≤◌, length, IfSome};
ghost use Rattle.sd_whole.specs.Layout.{layout_read};

use crate::ace::MASK_BYTES;
use crate::types::{ObjectTypes, read_types};
use sd_sid::{Mask, Sid, read_sid};
use sd_wire::read_u32;

/// What the body of an entry with a layout says, and the offset of the bytes after its SID.
#[derive(Clone, Copy)]
pub(crate) struct Layout {
    pub(crate) mask: Mask,
    pub(crate) types: ObjectTypes,
    pub(crate) sid: Sid,
    pub(crate) place: usize,
}

/// Parses the body of an entry ([MS-DTYP] 2.4.4.2 and 2.4.4.3): mask, object types where the kind has them, SID.
/// `None`: it doesn't have this layout.
#[tactic(auto, unfolding(crate::specs::Layout::layout_read))]
pub(crate) fn read_layout(has_types: bool, body: &[u8]) -> Option<Layout>
    ensures read { result ≡ layout_read has_types body.now }
    ensures place { IfSome result (λ layout. layout.place ≤ length body.now) }
{
    if body.len() < MASK_BYTES {
        return None;
    }
    let rest = &body[MASK_BYTES..];
    let (types, types_size) = read_types(has_types, rest)?;
    match read_sid(&rest[types_size..]) {
        Ok((sid, sid_size)) => Some(Layout {
            mask: Mask(read_u32(body, 0)),
            types,
            sid,
            place: MASK_BYTES + types_size + sid_size as usize,
        }),
        Err(_) => None,
    }
}
