//! Whole descriptors as text: [MS-DTYP] 2.5.1.1, sddl.

ghost use Rattle.std.specs.Prelude.{◌≡◌, ◌≤◌, [], IfOk, OnOk, IsErrOf, IsTrue};
ghost use Rattle.sd_whole.specs.Whole.{IsWholeDescriptor};
ghost use Rattle.sd_whole_parse.specs.Descriptor.{dacl_bits, sacl_bits, whole_found};
ghost use Rattle.sd_whole_parse.specs.Finding.{GivesOrMemory, Reads, has_opening};

use crate::acl::read_section;
use crate::stop::Stop;
use sd_text::{Aliases, Cursor, DaclWords, TextError};
use sd_whole::WholeDescriptor;
use sd_wire::bits_when;
use std::alloc::Global;

/// Parses the text of a descriptor with entries of every type ([MS-DTYP] 2.5.1.1): the whole text, letters of either
/// case; owner, group, DACL, SACL. A callback entry and an access filter have a condition, a resource attribute has a
/// claim. Returns the first fault from the left, with its offset in bytes; `HasSacl` never comes. `Memory` comes only
/// for a text that has a `(`, as each entry has, and may come in place of a fault after it.
pub fn read_whole_sddl(
    alloc: Global,
    known: Aliases,
    text: &str,
) -> Result<WholeDescriptor, TextError>
    ensures exact { Reads (λ d. d) result text.now (whole_found known text.now) }
    ensures whole { IfOk result IsWholeDescriptor }
    ensures memory { IsErrOf result TextError.Memory → IsTrue (has_opening text.now) }
{
    let mut cursor = Cursor::new(text);
    match read_sections(alloc, &mut cursor, known) {
        Ok(descriptor) => Ok(descriptor),
        Err(Stop::Memory) => Err(TextError::Memory),
        Err(Stop::Fault(fault)) => Err(TextError::Fault {
            fault,
            place: text.len().saturating_sub(cursor.rest.len()) as u64,
        }),
    }
}

/// The whole text. Each section may be left out.
#[tactic(auto, unfolding(crate::specs::Descriptor::whole_found), using(crate::proofs::Loop::nothing_left))]
fn read_sections(
    alloc: Global,
    cursor: &mut Cursor<'_>,
    known: Aliases,
) -> Result<WholeDescriptor, Stop>
    ensures found { GivesOrMemory (λ d. d) result cursor.new.rest.now (whole_found known cursor.old.rest.now) }
    ensures whole { IfOk result IsWholeDescriptor }
    ensures ended { OnOk result (cursor.new.rest.now ≡ []) }
    ensures memory { IsErrOf result Stop.Memory → IsTrue (has_opening cursor.old.rest.now) }
{
    let owner = cursor.sid_section(known, b"O:")?;
    let group = cursor.sid_section(known, b"G:")?;
    let dacl = read_section(alloc, cursor, known, b"D:")?;
    let sacl = read_section(alloc, cursor, known, b"S:")?;
    cursor.end()?;
    Ok(WholeDescriptor {
        resource_manager: 0,
        control: dacl_bits(dacl.words) + sacl_bits(sacl.words),
        owner,
        group,
        sacl: sacl.acl,
        dacl: dacl.acl,
    })
}

/// PD, DC and DI, the control bits of a DACL's keywords ([MS-DTYP] 2.4.6).
fn dacl_bits(words: DaclWords) -> u16
    ensures bits { result ≡ dacl_bits words }
    ensures most { result ≤ 0x1500 }
{
    bits_when(words.protected, 0x1000)
        + bits_when(words.auto_req, 0x0100)
        + bits_when(words.auto_inherited, 0x0400)
}

/// PS, SC and SI, the control bits of a SACL's keywords ([MS-DTYP] 2.4.6).
fn sacl_bits(words: DaclWords) -> u16
    ensures bits { result ≡ sacl_bits words }
    ensures most { result ≤ 0x2a00 }
{
    bits_when(words.protected, 0x2000)
        + bits_when(words.auto_req, 0x0200)
        + bits_when(words.auto_inherited, 0x0800)
}
