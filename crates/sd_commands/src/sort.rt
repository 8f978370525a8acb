//! The answer to `sort`: a descriptor with its DACL in canonical order, and what moved for that.
ghost use Rattle.std.specs.Prelude.{◌≡◌, ◌<◌, IfOk, length, string_bytes};
ghost use Rattle.sd_acl.specs.Ace.{acl_size_of};
ghost use Rattle.sd_acl.specs.Descriptor.{descriptor_of};
ghost use Rattle.sd_commands.specs.Answer.{answer_of};
ghost use Rattle.sd_commands.specs.CommandAnswer.{IsSorted};
ghost use Rattle.sd_commands.specs.Sort.{move_notes, note_of, notes_below, sorted, sorted_dacl};

use crate::command_answer::{Answer, Answered, Outcome, value_line};
use crate::diagnostic::told_line;
use crate::settings::CommandContext;
use sd_acl::{Ace, AceList, Dacl, Descriptor, canonicalize};
use sd_answer::first_misplaced;
use sd_line::{Spelling, Value};
use sd_text::print_entry_in;
use std::alloc::{AllocError, Global};

impl CommandContext<'_> {
    /// A descriptor with its DACL in canonical order ([MS-DTYP] 2.4.5).
    #[inline(never)]
    pub(crate) fn sort(&self, descriptor: &Descriptor) -> Answered
        ensures { IfOk result (λ answer. IsSorted self.now.settings.now (descriptor_of descriptor.now)
            (answer_of answer)) }
    {
        let alloc = self.alloc;
        let told = move_notes(alloc, self.settings.spelling, &descriptor.dacl)?;
        let sorted = Descriptor {
            owner: descriptor.owner,
            group: descriptor.group,
            dacl: sorted_dacl(alloc, &descriptor.dacl)?,
            protected: descriptor.protected,
            auto_req: descriptor.auto_req,
            auto_inherited: descriptor.auto_inherited,
        };
        let line = value_line(alloc, Value::descriptor(sorted))?;
        Ok(Answer {
            lines: vec![in alloc; line]?,
            told,
            outcome: Outcome::Done,
        })
    }
}

/// The DACL with its list in canonical order, which takes as many bytes.
fn sorted_dacl(alloc: Global, dacl: &Dacl) -> Result<Dacl, AllocError>
    ensures { IfOk result (λ ordered. ordered ≡ sorted_dacl dacl.now) }
{
    match dacl {
        Dacl::Absent => Ok(Dacl::Absent),
        Dacl::Null => Ok(Dacl::Null),
        Dacl::List(list) => match AceList::new(sorted_entries(alloc, list.entries())?) {
            Ok(ordered) => Ok(Dacl::List(ordered)),
            Err(_) => unreachable!(),
        },
    }
}

fn sorted_entries(alloc: Global, entries: &[Ace]) -> Result<Vec<Ace>, AllocError>
    ensures order { IfOk result (λ ordered. ordered.items ≡ sorted entries.now) }
    ensures size { IfOk result (λ ordered. acl_size_of ordered.items ≡ acl_size_of entries.now) }
{
    let explicit = entries.iter().filter(|entry| !entry.is_inherited());
    let explicit: Vec<Ace> = explicit.copied().collect(alloc)?;
    let mut ordered = canonicalize(alloc, &explicit)?;
    let inherited = entries.iter().filter(|entry| entry.is_inherited());
    ordered.extend(inherited.copied())?;
    Ok(ordered)
}

/// A line for each entry that moves.
fn move_notes(alloc: Global, spelling: Spelling, dacl: &Dacl) -> Result<String, AllocError>
    ensures { IfOk result (λ text. string_bytes text ≡ move_notes spelling dacl.now) }
{
    match dacl {
        Dacl::List(list) => list_notes(alloc, spelling, list.entries()),
        _ => Ok(String::new(alloc)),
    }
}

fn list_notes(alloc: Global, spelling: Spelling, entries: &[Ace]) -> Result<String, AllocError>
    ensures { IfOk result (λ text. string_bytes text ≡ notes_below spelling entries.now (length entries.now)) }
{
    let mut text = String::new(alloc);
    for place in 0..entries.len() {
        let note = note_of(alloc, spelling, entries, place, &entries[place])?;
        text.push_str(note.as_str())?;
    }
    Ok(text)
}

/// Before which entry the one at the place moves, or nothing.
fn note_of(
    alloc: Global,
    spelling: Spelling,
    entries: &[Ace],
    place: usize,
    entry: &Ace,
) -> Result<String, AllocError>
    requires { place < length entries.now }
    ensures { IfOk result (λ text. string_bytes text ≡ note_of spelling entries.now place entry.now) }
{
    match first_misplaced(&entries[..place], entry) {
        None => Ok(String::new(alloc)),
        Some(first) => {
            let (number, before) = (place + 1, first + 1);
            let entry = print_entry_in(alloc, spelling.right_names(), entry)?;
            let entry = entry.as_str();
            let what = format!(in alloc; "entry {number} {entry} moves before entry {before}")?;
            told_line(alloc, "SDDL", what.as_str())
        }
    }
}
