//! A whole descriptor in words, a line for each fact ([MS-DTYP] 2.4.6).

ghost use Rattle.std.specs.Prelude.{◌≡◌, ◌∷◌, [], ◌++◌, IfOk, OnOk, length, map};
ghost use Rattle.sd_line.specs.Line.{form_of};
ghost use Rattle.sd_show.specs.Show.{acl_form, acl_lines, acl_words, entries_below, entries_of, is_of_directory};
ghost use Rattle.sd_show.specs.Show.{manager_lines, shown, trustee_line};

use crate::control::{Field, words_set, words_value};
use crate::entry::push_entry;
use crate::forms::{
    DACL, DACL_ABSENT, DACL_EMPTY, DACL_NULL, ENTRY, GROUP, NO_GROUP, NO_OWNER, OWNER,
    RESOURCE_MANAGER, SACL, SACL_ABSENT, SACL_NULL,
};
use crate::line_list::Lines;
use sd_line::{Line, LineForm, Value};
use sd_sid::Sid;
use sd_whole::{ListRevision, WholeAce, WholeAcl, WholeDescriptor};
use sd_whole_text::AclKind;
use std::alloc::{AllocError, Global};

/// The control bit RM ([MS-DTYP] 2.4.6).
const RESOURCE_MANAGER_VALID: u16 = 0x4000;

/// All that a descriptor has, a line for each fact ([MS-DTYP] 2.4.6): owner, group, the resource manager's byte where
/// there is one, the DACL with its entries, and the SACL with its entries. Each control bit is said where its part is,
/// each flag with its entry; data without a text is said by its bytes. The only error is out of memory.
#[tactic(auto, using(std::proofs::Common::append_assoc))]
pub fn show_lines(alloc: Global, descriptor: &WholeDescriptor) -> Result<Vec<Line>, AllocError>
    ensures { IfOk result (λ lines. lines.items ≡ shown descriptor.now) }
{
    let control = descriptor.control;
    let mut lines = Lines::new(alloc);
    let bits = words_value(alloc, Field::Owner.bits(), control as u32)?;
    push_trustee(&mut lines, OWNER, NO_OWNER, &descriptor.owner, bits)?;
    let bits = words_value(alloc, Field::Group.bits(), control as u32)?;
    push_trustee(&mut lines, GROUP, NO_GROUP, &descriptor.group, bits)?;
    push_manager(&mut lines, descriptor.resource_manager, control)?;
    push_acl(&mut lines, AclKind::Dacl, control, &descriptor.dacl)?;
    push_acl(&mut lines, AclKind::Sacl, control, &descriptor.sacl)?;
    Ok(lines.items)
}

/// Adds the line of an owner or a group, with the words of its control bits.
fn push_trustee(
    lines: &mut Lines,
    present: LineForm,
    absent: LineForm,
    sid: &Option<Sid>,
    bits: Value,
) -> Result<(), AllocError>
    ensures { OnOk result (lines.new ≡ lines.old
        ++ trustee_line (form_of present.entry) (form_of absent.entry) sid.now bits ∷ []) }
{
    let Some(sid) = sid else {
        let values = vec![in lines.alloc; bits]?;
        return lines.push(absent, values);
    };
    let values = vec![in lines.alloc; Value::Sid(*sid), bits]?;
    lines.push(present, values)
}

/// Adds the line of the resource manager's byte, where it is there ([MS-DTYP] 2.4.6, Sbz1).
fn push_manager(lines: &mut Lines, byte: u8, control: u16) -> Result<(), AllocError>
    ensures { OnOk result (lines.new ≡ lines.old ++ manager_lines byte control) }
{
    if byte == 0 && control & RESOURCE_MANAGER_VALID == 0 {
        return Ok(());
    }
    let bits = words_value(lines.alloc, Field::ResourceManager.bits(), control as u32)?;
    let values = vec![in lines.alloc; Value::Number(byte as u64), bits]?;
    lines.push(RESOURCE_MANAGER, values)
}

/// Adds the lines of a DACL or a SACL ([MS-DTYP] 2.4.5).
#[tactic(auto, using(std::proofs::Common::append_assoc))]
fn push_acl(
    lines: &mut Lines,
    kind: AclKind,
    control: u16,
    acl: &WholeAcl,
) -> Result<(), AllocError>
    ensures { OnOk result (lines.new ≡ lines.old ++ acl_lines kind control acl.now) }
{
    let words = acl_words(lines.alloc, kind, control, acl)?;
    let words = Value::words(lines.alloc, &words)?;
    let values = vec![in lines.alloc; words]?;
    lines.push(acl_form(kind, acl), values)?;
    push_entries(lines, kind, entries_of(acl))
}

/// The form of the line before the entries of a DACL or a SACL.
fn acl_form(kind: AclKind, acl: &WholeAcl) -> LineForm
    ensures { form_of result ≡ acl_form kind acl.now }
{
    match (kind, acl) {
        (AclKind::Dacl, WholeAcl::Absent) => DACL_ABSENT,
        (AclKind::Dacl, WholeAcl::Null) => DACL_NULL,
        (AclKind::Dacl, WholeAcl::List(list)) => {
            if list.entries().is_empty() {
                DACL_EMPTY
            } else {
                DACL
            }
        }
        (AclKind::Sacl, WholeAcl::Absent) => SACL_ABSENT,
        (AclKind::Sacl, WholeAcl::Null) => SACL_NULL,
        (AclKind::Sacl, WholeAcl::List(_)) => SACL,
    }
}

/// The words of the control bits of a DACL or a SACL, and of its revision.
fn acl_words(
    alloc: Global,
    kind: AclKind,
    control: u16,
    acl: &WholeAcl,
) -> Result<Vec<&'static str>, AllocError>
    ensures { IfOk result (λ words. map (λ word. word.now) words.items ≡ acl_words kind control acl.now) }
{
    let mut words = words_set(alloc, Field::of(kind).bits(), control as u32)?;
    if is_of_directory(acl) {
        words.push(REVISION_WORD)?;
    }
    Ok(words)
}

/// The word of a list whose revision is 4 ([MS-DTYP] 2.4.5, ACL_REVISION_DS).
pub(crate) const REVISION_WORD: &str = "revision-4";

/// Whether the list's revision is 4.
pub(crate) fn is_of_directory(acl: &WholeAcl) -> bool
    ensures { result ≡ is_of_directory acl.now }
{
    match acl {
        WholeAcl::Absent | WholeAcl::Null => false,
        WholeAcl::List(list) => matches!(list.revision(), ListRevision::DirectoryService),
    }
}

/// The entries of a DACL or a SACL: none where there is no list.
pub(crate) fn entries_of(acl: &WholeAcl) -> &[WholeAce]
    ensures { result.now ≡ entries_of acl.now }
{
    match acl {
        WholeAcl::Absent | WholeAcl::Null => &[],
        WholeAcl::List(list) => list.entries(),
    }
}

/// Adds the lines of a list's entries.
#[tactic(auto, unfolding(crate::specs::Show::entries_below))]
fn push_entries(lines: &mut Lines, kind: AclKind, entries: &[WholeAce]) -> Result<(), AllocError>
    ensures { OnOk result (lines.new ≡ lines.old ++ entries_below kind entries.now (length entries.now)) }
{
    for place in 0..entries.len() {
        push_entry(lines, ENTRY, kind, &[place + 1], &entries[place])?;
    }
    Ok(())
}
