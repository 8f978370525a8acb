//! A node that is moved, and inherits again at its new place.
ghost use Rattle.std.specs.Prelude.{◌≡◌, ◌⊎◌, IfOk, OnErr, Some, map};
ghost use Rattle.sd_edit.specs.Machine.{Machine, accepted};
ghost use Rattle.sd_script.specs.Command.{Parses, moves};
ghost use Rattle.sd_script.specs.Moving.{IsMoved, moved_words};
ghost use Rattle.sd_script.specs.Output.{IsDone, IsMade};
ghost use Rattle.sd_script.specs.declared.line_request.LineRequest.TheVariants.{Moving};
ghost use Rattle.sd_script.specs.declared.script_options.Notation.{Notation};
ghost use Rattle.sd_script.specs.declared.session.Session.TheVariants.{Opened};

use crate::argument::Parser;
use crate::importing::entries_at;
use crate::line_request::{LineRequest, Parsed};
use crate::reply::{alone, ok_line, reply_line};
use sd_acl::{Ace, same_entries};
use sd_line::Line;
use sd_tree::{Edit, Path, Tree};
use sd_versions::{Desk, Reply, Request};
use std::alloc::{AllocError, Global};

impl Parser {
    /// A node that is moved from the first path to the second.
    pub(crate) fn moving(self, source: &str, target: &str) -> Parsed
        ensures { Parses self.notation (Some (moves source.now target.now)) result }
    {
        let source = self.path(source)?;
        let target = self.path(target)?;
        let edit = Edit::Move {
            source: source.copy(self.alloc)?,
            target: target.copy(self.alloc)?,
        };
        Ok(Some(LineRequest::Moving {
            edit,
            source,
            target,
        }))
    }
}

/// Moves a node of the store that is open.
pub(crate) fn moved(
    alloc: Global,
    desk: &mut Desk,
    edit: Edit,
    source: &Path,
    target: &Path,
) -> Result<Vec<Line>, AllocError>
    ensures done { (notation : Notation) → IfOk result (λ answer. IsDone (Opened notation desk.old)
        (Moving edit source.now target.now) answer.items (Opened notation desk.new)) }
    ensures failed { (notation : Notation) → OnErr result ((desk.new ≡ desk.old)
        ⊎ IsMade (Opened notation desk.old) (Moving edit source.now target.now) (Opened notation desk.new)) }
{
    let before = entries_at(alloc, desk.draft(), source)?;
    let reply = desk.step(&Request::Edit(edit));
    move_answer(alloc, &before, desk.draft(), target, reply)
}

/// The answer to an edit that moves a node with these entries to a path. Of one that was accepted it says whether the
/// node, in the tree of all accepted edits, has other ones, by what it inherits there. Out of memory has none.
pub fn move_answer(
    alloc: Global,
    before: &[Ace],
    tree: &Tree,
    target: &Path,
    reply: Reply,
) -> Result<Vec<Line>, AllocError>
    ensures { (m : Machine) → m.opening ≡ tree.now.opening → accepted m ≡ tree.now.journal
        → IfOk result (λ answer. IsMoved before.now m target.now reply answer.items) }
{
    let line = match reply {
        Reply::Edited => {
            let stored = entries_at(alloc, tree, target)?;
            ok_line(alloc, moved_words(same_entries(&stored, before)))?
        }
        reply => reply_line(alloc, reply)?,
    };
    alone(alloc, line)
}

fn moved_words(is_kept: bool) -> &'static [&'static str]
    ensures { map (λ word. word.now) result.now ≡ moved_words is_kept }
{
    if is_kept { &[] } else { &["reinherited"] }
}
