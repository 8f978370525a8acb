//! Which object types an answer is about, where that depends on it.
ghost use Rattle.std.specs.Prelude.{◌≡◌, ◌&&◌, ◌||◌, IfOk, false, string_bytes};
ghost use Rattle.std.specs.Bool.{Decides};
ghost use Rattle.std.specs.List.{list_any};
ghost use Rattle.sd_commands.specs.Answer.{IsTold, answer_of};
ghost use Rattle.sd_commands.specs.Chain.{types_of};
ghost use Rattle.sd_commands.specs.ObjectTypes.{ChangeHasTypes, has_types, is_for_type, is_of_whole};
ghost use Rattle.sd_commands.specs.ObjectTypes.{types_left_out, types_note, types_text};

use crate::command_answer::{Answer, Answered};
use crate::diagnostic::told_line;
use crate::settings::Settings;
use crate::whole::told_before;
use sd_answer::WHOLE_ALONE;
use sd_line::Line;
use sd_show::same_acl;
use sd_sid::Sid;
use sd_whole::{WholeAce, WholeAcl, WholeDescriptor, for_children_alone};
use std::alloc::{AllocError, Global};

/// Whether an effective entry has an ObjectType ([MS-DTYP] 2.4.4.3), or where children are looked at one for them: its
/// part depends on the object types asked about.
pub(crate) fn has_types(below: bool, acl: &WholeAcl) -> bool
    ensures { result ≡ has_types below acl.now }
{
    match acl {
        WholeAcl::Absent | WholeAcl::Null => false,
        WholeAcl::List(list) => are_for_types(below, list.entries()),
    }
}

fn are_for_types(below: bool, entries: &[WholeAce]) -> bool
    ensures { result ≡ list_any (is_for_type below) entries.now }
{
    entries.iter().any(|entry| is_for_type(below, entry))
}

fn is_for_type(below: bool, entry: &WholeAce) -> bool
    ensures { result ≡ is_for_type below entry.now }
{
    match entry {
        WholeAce::Typed(ace) => {
            ace.types.object.is_some() && (below || !for_children_alone(ace.flags))
        }
        _ => false,
    }
}

/// Whether `who` depends on the object types, of which none is asked about.
pub(crate) fn who_has_types(settings: &Settings, descriptor: &WholeDescriptor) -> bool
    ensures { result ≡ (has_types false descriptor.now.dacl && is_of_whole (types_of settings.now.chain)) }
{
    has_types(false, &descriptor.dacl) && is_of_whole(settings)
}

/// Whether `compare` depends on the object types asked about: not where both have one owner and one DACL.
pub(crate) fn change_has_types(below: bool, old: &WholeDescriptor, new: &WholeDescriptor) -> bool
    ensures { ChangeHasTypes result below old.now new.now }
{
    let same = same_rights(old, new);
    either_has_types(below, old, new) && !same
}

fn either_has_types(below: bool, old: &WholeDescriptor, new: &WholeDescriptor) -> bool
    ensures { result ≡ (has_types below old.now.dacl || has_types below new.now.dacl) }
{
    has_types(below, &old.dacl) || has_types(below, &new.dacl)
}

/// Whether both have one owner and one DACL.
fn same_rights(old: &WholeDescriptor, new: &WholeDescriptor) -> bool
    ensures { Decides result ((old.now.owner ≡ new.now.owner) × (old.now.dacl ≡ new.now.dacl)) }
{
    same_owner(&old.owner, &new.owner) && same_acl(&old.dacl, &new.dacl)
}

fn same_owner(one: &Option<Sid>, other: &Option<Sid>) -> bool
    ensures { Decides result (one.now ≡ other.now) }
{
    match (one, other) {
        (None, None) => true,
        (Some(one), Some(other)) => one.is(other),
        _ => false,
    }
}

/// Whether no object type is asked about.
fn is_of_whole(settings: &Settings) -> bool
    ensures { result ≡ is_of_whole (types_of settings.now.chain) }
{
    settings.chain.types().is_empty()
}

/// The line of an answer that depends on the object types, of which none is asked about.
pub(crate) fn types_left_out(
    alloc: Global,
    settings: &Settings,
    depends: bool,
) -> Result<Vec<Line>, AllocError>
    ensures { IfOk result (λ lines. lines.items ≡ types_left_out settings.now depends) }
{
    if depends && is_of_whole(settings) {
        let line = Line::new(alloc, WHOLE_ALONE, Vec::new(alloc))?;
        return Ok(vec![in alloc; line]?);
    }
    Ok(Vec::new(alloc))
}

/// What standard error says beside an answer that depends on the object types asked about.
pub fn types_text(of_whole: bool) -> &'static str
    ensures { result.now ≡ types_text of_whole }
{
    if of_whole {
        "asks about an object type"
    } else {
        "only these object types are looked at: of others the answer may be another"
    }
}

/// The answer, and before what else standard error says, what it is about, where it depends on that.
pub(crate) fn note_types(
    alloc: Global,
    settings: &Settings,
    depends: bool,
    answer: Answer,
) -> Answered
    ensures { IfOk result
        (λ noted. IsTold (types_note settings.now depends) (answer_of answer) (answer_of noted)) }
{
    let note = types_note(alloc, settings, depends)?;
    told_before(note, answer)
}

fn types_note(alloc: Global, settings: &Settings, depends: bool) -> Result<String, AllocError>
    ensures { IfOk result (λ note. string_bytes note ≡ types_note settings.now depends) }
{
    if !depends {
        return Ok(String::new(alloc));
    }
    told_line(alloc, "--type", types_text(is_of_whole(settings)))
}
