//! The answer to `sort` under `--whole`: a whole descriptor with its DACL in canonical order, and what moved for that.
ghost use Rattle.std.specs.Prelude.{◌≡◌, ◌<◌, OnOk, IfOk, length, position, string_bytes, nat_lt};
ghost use Rattle.sd_whole.specs.Order.{rank};
ghost use Rattle.sd_commands.specs.Answer.{answer_of};
ghost use Rattle.sd_commands.specs.WholeSort.{AnswersSorted, IsSortedAcl, acl_notes, note_on, notes_below};

use crate::command_answer::Answered;
use crate::diagnostic::told_line;
use crate::settings::CommandContext;
use crate::whole::told_before;
use sd_whole::{WholeAce, WholeAcl, WholeDescriptor};
use std::alloc::{AllocError, Global};

impl CommandContext<'_> {
    /// A whole descriptor with its DACL in canonical order ([MS-DTYP] 2.4.5).
    pub(crate) fn sort_all(&self, mut descriptor: WholeDescriptor) -> Answered
        ensures { IfOk result (λ answer. AnswersSorted self.now.settings.now descriptor (answer_of answer)) }
    {
        let notes = acl_notes(self.alloc, &descriptor.dacl)?;
        sort_acl(&mut descriptor.dacl)?;
        let answer = self.print_all("SDDL", &descriptor)?;
        told_before(notes, answer)
    }
}

fn sort_acl(acl: &mut WholeAcl) -> Result<(), AllocError>
    ensures { OnOk result (IsSortedAcl acl.old acl.new) }
{
    match acl {
        WholeAcl::List(list) => list.sort(),
        _ => Ok(()),
    }
}

/// A line for each entry that moves.
fn acl_notes(alloc: Global, acl: &WholeAcl) -> Result<String, AllocError>
    ensures { IfOk result (λ text. string_bytes text ≡ acl_notes acl.now) }
{
    match acl {
        WholeAcl::List(list) => list_notes(alloc, list.entries()),
        _ => Ok(String::new(alloc)),
    }
}

fn list_notes(alloc: Global, entries: &[WholeAce]) -> Result<String, AllocError>
    ensures { IfOk result (λ text. string_bytes text ≡ notes_below entries.now (length entries.now)) }
{
    let mut text = String::new(alloc);
    for place in 0..entries.len() {
        let note = note_on(alloc, entries, place, &entries[place])?;
        text.push_str(note.as_str())?;
    }
    Ok(text)
}

/// Before which entry the one at the place moves, or nothing.
fn note_on(
    alloc: Global,
    entries: &[WholeAce],
    place: usize,
    entry: &WholeAce,
) -> Result<String, AllocError>
    requires { place < length entries.now }
    ensures { IfOk result (λ text. string_bytes text ≡ note_on entries.now place entry.now) }
{
    match first_above(&entries[..place], entry) {
        None => Ok(String::new(alloc)),
        Some(first) => {
            let (number, before) = (place + 1, first + 1);
            let what = format!(in alloc; "entry {number} moves before entry {before}")?;
            told_line(alloc, "SDDL", what.as_str())
        }
    }
}

/// The first of the entries that belongs behind this one in canonical order.
fn first_above(entries: &[WholeAce], entry: &WholeAce) -> Option<usize>
    ensures { result ≡ position (λ other. nat_lt (rank entry.now) (rank other)) entries.now }
{
    let own = entry.rank();
    entries.iter().position(|other| own < other.rank())
}
