//! What a request for an object asks the check for ([MS-DTYP] 2.5.3.2).
ghost use Rattle.std.specs.Prelude.{◌≡◌};
ghost use Rattle.sd_line.specs.Request.{requested};

use crate::names::ObjectKind;
use sd_sid::Mask;

/// KEY_WOW64_64KEY and KEY_WOW64_32KEY, which RegOpenKeyEx takes beside a key's rights.
const VIEWS: Mask = Mask(0x300);

/// The rights that a request for an object of this kind asks for: of a registry key without the bits that say which
/// view of the registry is opened, which are no rights; of all else the request.
pub fn requested(kind: Option<ObjectKind>, request: Mask) -> Mask
    ensures { result ≡ requested kind request }
{
    match kind {
        Some(ObjectKind::Key) => request.minus(VIEWS),
        _ => request,
    }
}
