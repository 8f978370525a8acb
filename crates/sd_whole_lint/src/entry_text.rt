//! An entry of a whole list, as a line names it.

ghost use Rattle.std.specs.Prelude.{◌≡◌, ◌++◌, ℕ, IfOk, List, codes, option_map, string_bytes};
ghost use Rattle.sd_whole_lint.specs.EntryText.{entry_value, entry_word, text_of};

use sd_line::Value;
use sd_text::RightNames;
use sd_whole::{
    AceData, ListRevision, OpaqueAce, TypedAce, WholeAce, WholeAcl, WholeDescriptor, WholeList,
};
use sd_whole_text::{WholeTextError, print_whole};
use std::alloc::{AllocError, Global};

/// An entry in a line: a plain one as it is, another one by its text ([MS-DTYP] 2.5.1.1), with these names of rights,
/// or by its AceType where it has none. The only error is out of memory.
pub fn entry_value(alloc: Global, names: RightNames, entry: &WholeAce) -> Result<Value, AllocError>
    ensures { IfOk result (λ value. value ≡ entry_value names entry.now) }
{
    match entry {
        WholeAce::Plain(ace) => Ok(Value::Entry(*ace)),
        WholeAce::Typed(_) | WholeAce::Opaque(_) => {
            Ok(Value::text(entry_word(alloc, names, entry)?))
        }
    }
}

fn entry_word(alloc: Global, names: RightNames, entry: &WholeAce) -> Result<String, AllocError>
    ensures { IfOk result (λ word. string_bytes word ≡ entry_word names entry.now) }
{
    if let Some(text) = text_of(alloc, names, entry)? {
        return Ok(text);
    }
    let number = entry.number();
    format!(in alloc; "of type {number}")
}

/// Its text, if it has one.
fn text_of(alloc: Global, names: RightNames, entry: &WholeAce) -> Result<Option<String>, AllocError>
    ensures { IfOk result (λ text. option_map string_bytes text ≡ text_of names entry.now) }
{
    let entries = vec![in alloc; copied(alloc, entry)?]?;
    let list = match WholeList::new(ListRevision::Standard, entries) {
        Ok(list) => list,
        Err(_) => return Ok(None),
    };
    let alone = WholeDescriptor {
        resource_manager: 0,
        control: 0,
        owner: None,
        group: None,
        sacl: WholeAcl::Absent,
        dacl: WholeAcl::List(list),
    };
    match print_whole(alloc, names, &alone) {
        Ok(text) => Ok(Some(String::from_str(alloc, behind_head(text.as_str()))?)),
        Err(WholeTextError::NoText(_)) => Ok(None),
        Err(WholeTextError::Memory) => Err(AllocError),
    }
}

/// An equal entry.
fn copied(alloc: Global, entry: &WholeAce) -> Result<WholeAce, AllocError>
    ensures { IfOk result (λ copy. copy ≡ entry.now) }
{
    match entry {
        WholeAce::Plain(ace) => Ok(WholeAce::Plain(*ace)),
        WholeAce::Typed(ace) => Ok(WholeAce::Typed(TypedAce {
            kind: ace.kind,
            flags: ace.flags,
            mask: ace.mask,
            types: ace.types,
            sid: ace.sid,
            trailing: AceData::copied(alloc, ace.trailing.as_slice())?,
        })),
        WholeAce::Opaque(ace) => Ok(WholeAce::Opaque(OpaqueAce {
            kind: ace.kind,
            flags: ace.flags,
            body: AceData::copied(alloc, ace.body.as_slice())?,
        })),
    }
}

/// What stands behind the head of a DACL.
fn behind_head(text: &str) -> &str
    ensures { (rest : List ℕ) → text.now ≡ codes "D:" ++ rest → result.now ≡ rest }
{
    let Some(section) = text.strip_prefix('D') else {
        return "";
    };
    match section.strip_prefix(':') {
        Some(rest) => rest,
        None => "",
    }
}
