//! What a text doesn't say of a descriptor's header.

ghost use Rattle.std.specs.Prelude.{◌≡◌};
ghost use Rattle.sd_whole_text.specs.NoText.{header_test, keyword_bits, keywords_test};

use crate::no_text::{AclKind, NoText};
use sd_whole::{WholeAcl, WholeDescriptor};
use sd_wire::has_bits;

/// The control bits without a keyword: OD, GD, DD, SD, SS, DT and RM ([MS-DTYP] 2.4.6).
const BITS_WITHOUT_KEYWORD: u16 = 0x40EB;

/// Whether a text says all of the header; else the first part that it doesn't say.
pub(crate) fn test_header(descriptor: &WholeDescriptor) -> Result<(), NoText>
    ensures { result ≡ header_test descriptor.now }
{
    if descriptor.resource_manager != 0 {
        return Err(NoText::ResourceManager);
    }
    if has_bits(descriptor.control, BITS_WITHOUT_KEYWORD) {
        return Err(NoText::Control);
    }
    test_keywords(AclKind::Dacl, descriptor.control, &descriptor.dacl)?;
    test_keywords(AclKind::Sacl, descriptor.control, &descriptor.sacl)
}

/// The keywords of a SACL or a DACL need its section.
fn test_keywords(kind: AclKind, control: u16, acl: &WholeAcl) -> Result<(), NoText>
    ensures { result ≡ keywords_test kind control acl.now }
{
    match acl {
        WholeAcl::Absent if has_bits(control, keyword_bits(kind)) => Err(NoText::Keywords(kind)),
        _ => Ok(()),
    }
}

/// The control bits of the keywords P, AR and AI.
fn keyword_bits(kind: AclKind) -> u16
    ensures { result ≡ keyword_bits kind }
{
    match kind {
        AclKind::Dacl => 0x1500,
        AclKind::Sacl => 0x2A00,
    }
}
