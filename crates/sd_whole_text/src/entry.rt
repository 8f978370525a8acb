//! Entries as text: [MS-DTYP] 2.5.1.1, ace.

ghost use Rattle.std.specs.Prelude.{◌≡◌, ◌++◌, is_some, IfOk, OnOk, string_bytes};
ghost use Rattle.sd_whole_text.specs.Data.{data_text};
ghost use Rattle.sd_whole_text.specs.Entry.{entry_text, guid_field, head_text, types_text};
ghost use Rattle.sd_whole_text.specs.NoText.{entry_test, Gives};

use crate::data::push_data;
use crate::flags::push_flags;
use crate::guid::push_guid;
use crate::kind::{kind_of_plain, letters_of};
use crate::level::push_trustee;
use crate::no_text::{AclKind, NoText, WholeTextError};
use crate::rights::push_rights;
use sd_acl::{Ace, AceFlags};
use sd_sid::Mask;
use sd_text::{RightNames, write_sid};
use sd_whole::{Guid, ObjectTypes, TypedAce, WholeAce, WholeKind};
use std::alloc::{AllocError, Global};

/// Appends an entry at this place of its list, from 1 on.
pub(crate) fn push_entry(
    alloc: Global,
    out: &mut String,
    names: RightNames,
    acl: AclKind,
    place: usize,
    entry: &WholeAce,
) -> Result<(), WholeTextError>
    ensures test { Gives (λ _. tt) result (entry_test acl place entry.now) }
    ensures text { OnOk result (string_bytes out.new ≡ string_bytes out.old ++ entry_text names entry.now) }
{
    match entry {
        WholeAce::Plain(ace) => {
            push_plain(out, names, ace)?;
            Ok(())
        }
        WholeAce::Typed(ace) if letters_of(ace.kind).is_empty() => {
            Err(WholeTextError::NoText(NoText::Kind(acl, place)))
        }
        WholeAce::Typed(ace) => {
            if push_typed(alloc, out, names, ace)? {
                Ok(())
            } else {
                Err(WholeTextError::NoText(NoText::Data(acl, place)))
            }
        }
        WholeAce::Opaque(_) => Err(WholeTextError::NoText(NoText::Opaque(acl, place))),
    }
}

/// Appends an allow or a deny with nothing after its SID.
fn push_plain(out: &mut String, names: RightNames, ace: &Ace) -> Result<(), AllocError>
    ensures { OnOk result (string_bytes out.new ≡ string_bytes out.old ++ entry_text names (WholeAce.Plain ace.now)) }
{
    push_head(out, names, kind_of_plain(ace.kind), ace.flags, ace.mask)?;
    out.push_str(";;")?;
    write_sid(out, &ace.sid)?;
    out.push_str(")")
}

/// Appends an entry with a layout; whether the bytes after its SID have a text.
fn push_typed(
    alloc: Global,
    out: &mut String,
    names: RightNames,
    ace: &TypedAce,
) -> Result<bool, AllocError>
    ensures found { IfOk result (λ found. found ≡ is_some (data_text ace.now)) }
    ensures text { OnOk result (string_bytes out.new
        ≡ string_bytes out.old ++ entry_text names (WholeAce.Typed ace.now)) }
{
    push_head(out, names, ace.kind, ace.flags, ace.mask)?;
    push_types(out, ace.kind.has_object_types(), &ace.types)?;
    out.push_str(";")?;
    push_trustee(out, ace.kind, &ace.sid)?;
    let found = push_data(alloc, out, ace)?;
    out.push_str(")")?;
    Ok(found)
}

/// Appends the fields before the GUIDs.
#[tactic(auto, unfolding(crate::specs::Entry::head_text))]
fn push_head(
    out: &mut String,
    names: RightNames,
    kind: WholeKind,
    flags: AceFlags,
    mask: Mask,
) -> Result<(), AllocError>
    ensures { OnOk result (string_bytes out.new ≡ string_bytes out.old ++ head_text names kind flags.0 mask) }
{
    out.push_str("(")?;
    out.push_str(letters_of(kind))?;
    out.push_str(";")?;
    push_flags(out, kind, flags)?;
    out.push_str(";")?;
    push_rights(out, names, kind, mask)?;
    out.push_str(";")
}

/// Appends the fields of the GUIDs, which only entries with object types fill.
fn push_types(out: &mut String, has: bool, types: &ObjectTypes) -> Result<(), AllocError>
    ensures { OnOk result (string_bytes out.new ≡ string_bytes out.old ++ types_text has types.now) }
{
    if !has {
        return out.push_str(";");
    }
    push_field(out, &types.object)?;
    out.push_str(";")?;
    push_field(out, &types.inherited)
}

/// Appends a GUID, if there is one.
fn push_field(out: &mut String, guid: &Option<Guid>) -> Result<(), AllocError>
    ensures { OnOk result (string_bytes out.new ≡ string_bytes out.old ++ guid_field guid.now) }
{
    match guid {
        Some(guid) => push_guid(out, guid),
        None => Ok(()),
    }
}
