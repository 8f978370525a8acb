//! Whole descriptors as text: [MS-DTYP] 2.5.1.1, sddl.

ghost use Rattle.std.specs.Prelude.{◌≡◌, [], ◌++◌, true, false, Ok, OnOk, IsErrOf, string_bytes};
ghost use Rattle.sd_text.specs.declared.right_names.RightNames.{RightNames};
ghost use Rattle.sd_whole_text.specs.Descriptor.{is_empty, sections_text, whole_text};
ghost use Rattle.sd_whole_text.specs.NoText.{Gives, sections_test};

use crate::acl::push_acl;
use crate::header::test_header;
use crate::no_text::{AclKind, WholeTextError};
use sd_text::{RightNames, write_section};
use sd_whole::{WholeAcl, WholeDescriptor};
use std::alloc::Global;

/// The text of a descriptor in which rights have these names: owner, group, DACL, SACL ([MS-DTYP] 2.5.1.1). The error
/// is the first part that has no text, of the header, then of the entries in the order of the text, or else out of
/// memory, which doesn't come where nothing is printed. The text doesn't say a list's AclRevision: a parsed text has 4
/// where an object entry (0x05 to 0x08, 0x0b, 0x0c, 0x0f) is in the list, else 2.
#[tactic(auto, unfolding(crate::specs::NoText::whole_test))]
pub fn print_whole(
    alloc: Global,
    names: RightNames,
    descriptor: &WholeDescriptor,
) -> Result<String, WholeTextError>
    ensures exact { Gives (λ text. string_bytes text) result (whole_text names descriptor.now) }
    ensures memory { IsErrOf result WholeTextError.Memory → is_empty descriptor.now ≡ false }
{
    test_header(descriptor)?;
    if is_empty(descriptor) {
        return Ok(String::new(alloc));
    }
    let mut text = String::new(alloc);
    push_sections(alloc, &mut text, names, descriptor)?;
    Ok(text)
}

/// Whether nothing is printed.
#[tactic(auto, unfolding(crate::specs::Descriptor::sections_text))]
fn is_empty(d: &WholeDescriptor) -> bool
    ensures empty { result ≡ is_empty d.now }
    ensures test { result ≡ true → sections_test d.now ≡ Ok tt }
    ensures text { (names : RightNames) → result ≡ true → sections_text names d.now ≡ [] }
{
    matches!(
        (&d.owner, &d.group, &d.dacl, &d.sacl),
        (None, None, WholeAcl::Absent, WholeAcl::Absent)
    )
}

/// Appends owner, group, DACL and SACL.
#[tactic(auto, unfolding(crate::specs::Descriptor::sections_text))]
fn push_sections(
    alloc: Global,
    out: &mut String,
    names: RightNames,
    d: &WholeDescriptor,
) -> Result<(), WholeTextError>
    ensures test { Gives (λ _. tt) result (sections_test d.now) }
    ensures text { OnOk result (string_bytes out.new ≡ string_bytes out.old ++ sections_text names d.now) }
{
    write_section(out, "O:", &d.owner)?;
    write_section(out, "G:", &d.group)?;
    push_acl(alloc, out, names, AclKind::Dacl, d.control, &d.dacl)?;
    push_acl(alloc, out, names, AclKind::Sacl, d.control, &d.sacl)
}
