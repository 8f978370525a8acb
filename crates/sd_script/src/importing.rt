//! A node that comes with the descriptor that it had elsewhere.
ghost use Rattle.std.specs.Prelude.{◌≡◌, ◌&&◌, [], IfOk, Some, filter, map};
ghost use Rattle.std.specs.Bool.{Decides};
ghost use Rattle.std.specs.Option.{unwrap_or};
ghost use Rattle.sd_acl.specs.Canonical.{is_explicit, is_inherited};
ghost use Rattle.sd_script.specs.Argument.{entries_in, given_in, imported, imported_dacl};
ghost use Rattle.sd_script.specs.Command.{Parses, imports};
ghost use Rattle.sd_script.specs.Fault.{UnlessMemory};
ghost use Rattle.sd_script.specs.Importing.{AreOrderedAlike, InheritAlike, IsImported, entries_by, imported_words};
ghost use Rattle.sd_edit.specs.Machine.{Machine, accepted};
ghost use Rattle.sd_edit.specs.Answers.{descriptor_at};
ghost use Rattle.sd_edit.specs.Journal.{replay};

use crate::argument::Parser;
use crate::fault::{LineFault, LineStop};
use crate::line_request::{LineRequest, Parsed};
use crate::reply::{alone, ok_line, reply_line};
use sd_acl::{Ace, Dacl, Descriptor, canonicalize, same_entries};
use sd_line::Line;
use sd_tree::{Edit, Entries, NodeDacl, NodeKind, Path, RootSpec, Tree};
use sd_versions::Reply;
use sd_whole_parse::TextPart;
use std::alloc::{AllocError, Global};

/// What the text of a descriptor gives to compare its node with.
#[derive(Debug, Drop)]
pub struct Given {
    /// All entries that the node had, if it had a DACL.
    pub entries: Option<Entries>,
    /// Whether nothing of the text was left out.
    pub is_all: bool,
}

impl Parser {
    /// A node of the kind with the descriptor of a text, and the entries that it had elsewhere.
    pub(crate) fn importing(self, kind: NodeKind, path: &str, sddl: &str) -> Parsed
        ensures { Parses self.notation (Some (imports path.now sddl.now kind)) result }
    {
        let path = self.path(path)?;
        let imported = self.imported(sddl)?;
        let added = path.copy(self.alloc)?;
        Ok(Some(LineRequest::Importing {
            edit: Edit::addition(kind, added, imported.0),
            path,
            given: imported.1,
        }))
    }

    /// The text of a descriptor with an owner and a group, as a node had it: what it gives a node, and what to compare
    /// that with.
    fn imported(self, word: &str) -> Result<(RootSpec, Given), LineStop>
        ensures { UnlessMemory (imported self.notation word.now) result }
    {
        let TextPart {
            descriptor,
            left_out,
        } = self.descriptor(word)?;
        let (Some(owner), Some(group)) = (descriptor.owner, descriptor.group) else {
            return Err(LineStop::Fault(LineFault::Parts));
        };
        let dacl = imported_dacl(self.alloc, &descriptor)?;
        let entries = given_in(self.alloc, &descriptor.dacl)?;
        let is_all = left_out.is_nothing();
        Ok((RootSpec { owner, group, dacl }, Given { entries, is_all }))
    }
}

/// What the node had of its own, the denies first ([MS-DTYP] 2.4.5).
fn imported_dacl(alloc: Global, descriptor: &Descriptor) -> Result<NodeDacl, AllocError>
    ensures { IfOk result (λ given. given ≡ imported_dacl descriptor.now.protected descriptor.now.dacl) }
{
    match &descriptor.dacl {
        Dacl::List(list) => {
            let explicit = explicit_in(alloc, list.entries())?;
            Ok(NodeDacl::List {
                protected: descriptor.protected,
                entries: Entries::new(canonicalize(alloc, &explicit)?),
            })
        }
        _ => NodeDacl::of_descriptor(alloc, descriptor),
    }
}

/// The entries of a DACL; a null one has none.
fn given_in(alloc: Global, dacl: &Dacl) -> Result<Option<Entries>, AllocError>
    ensures { IfOk result (λ given. given ≡ given_in dacl.now) }
{
    match dacl {
        Dacl::Absent => Ok(None),
        _ => Ok(Some(Entries::new(entries_in(alloc, dacl)?))),
    }
}

/// The entries of a list; a null one and an absent one have none.
fn entries_in(alloc: Global, dacl: &Dacl) -> Result<Vec<Ace>, AllocError>
    ensures { IfOk result (λ entries. entries.items ≡ entries_in dacl.now) }
{
    match dacl {
        Dacl::List(list) => Vec::from_slice(alloc, list.entries()),
        _ => Ok(Vec::new(alloc)),
    }
}

/// The entries that were inherited ([MS-DTYP] 2.4.4.1, INHERITED_ACE).
fn inherited_in(alloc: Global, entries: &[Ace]) -> Result<Vec<Ace>, AllocError>
    ensures { IfOk result (λ inherited. inherited.items ≡ filter is_inherited entries.now) }
{
    let inherited = entries.iter().filter(|entry| entry.is_inherited());
    Ok(inherited.copied().collect(alloc)?)
}

/// The entries that weren't inherited ([MS-DTYP] 2.4.4.1, INHERITED_ACE).
fn explicit_in(alloc: Global, entries: &[Ace]) -> Result<Vec<Ace>, AllocError>
    ensures { IfOk result (λ explicit. explicit.items ≡ filter is_explicit entries.now) }
{
    let explicit = entries.iter().filter(|entry| !entry.is_inherited());
    Ok(explicit.copied().collect(alloc)?)
}

/// The answer to an edit that imports the node of a path. Of one that was accepted it says whether the node, in the
/// tree of all accepted edits, has all that its text says, and inherits what it had inherited elsewhere, where it had a
/// DACL, and whether its own entries have the order that they had there. Out of memory has none.
pub fn import_answer(
    alloc: Global,
    tree: &Tree,
    path: &Path,
    given: &Given,
    reply: Reply,
) -> Result<Vec<Line>, AllocError>
    ensures { (m : Machine) → m.opening ≡ tree.now.opening → accepted m ≡ tree.now.journal
        → IfOk result (λ answer. IsImported m path.now given.now reply answer.items) }
{
    let line = match reply {
        Reply::Edited => {
            let stored = entries_at(alloc, tree, path)?;
            let inherits = inherits_alike(alloc, &stored, &given.entries)?;
            let is_ordered = is_ordered_alike(alloc, &stored, &given.entries)?;
            ok_line(alloc, imported_words(given.is_all, inherits, is_ordered))?
        }
        reply => reply_line(alloc, reply)?,
    };
    alone(alloc, line)
}

/// Whether a node inherits what it had inherited elsewhere. One that had no DACL, which grants everything, doesn't.
fn inherits_alike(
    alloc: Global,
    stored: &[Ace],
    given: &Option<Entries>,
) -> Result<bool, AllocError>
    ensures { IfOk result (λ alike. Decides alike (InheritAlike stored.now given.now)) }
{
    let Some(given) = given else {
        return Ok(false);
    };
    let given = inherited_in(alloc, given.as_slice())?;
    let stored = inherited_in(alloc, stored)?;
    Ok(same_entries(&stored, &given))
}

/// Whether a node's own entries have the order that they had elsewhere.
fn is_ordered_alike(
    alloc: Global,
    stored: &[Ace],
    given: &Option<Entries>,
) -> Result<bool, AllocError>
    ensures { IfOk result (λ alike. Decides alike (AreOrderedAlike stored.now given.now)) }
{
    let given = explicit_in(alloc, entries_or_none(given))?;
    let stored = explicit_in(alloc, stored)?;
    Ok(same_entries(&stored, &given))
}

fn entries_or_none(given: &Option<Entries>) -> &[Ace]
    ensures { result.now ≡ unwrap_or given.now [] }
{
    match given {
        Some(given) => given.as_slice(),
        None => &[],
    }
}

fn imported_words(
    is_all: bool,
    inherits_alike: bool,
    is_ordered_alike: bool,
) -> &'static [&'static str]
    ensures { map (λ word. word.now) result.now ≡ imported_words (is_all && inherits_alike) is_ordered_alike }
{
    match (is_all, inherits_alike, is_ordered_alike) {
        (true, true, true) => &[],
        (true, true, false) => &["reordered"],
        (_, _, true) => &["differs"],
        (_, _, false) => &["differs", "reordered"],
    }
}

/// The entries of the node of a path, and none where none stands there.
pub fn entries_at(alloc: Global, tree: &Tree, path: &Path) -> Result<Vec<Ace>, AllocError>
    ensures { IfOk result (λ entries. entries.items ≡ entries_by (descriptor_at tree.now.opening.mapping
        (replay tree.now.opening tree.now.journal) path.now)) }
{
    match tree.descriptor(path)? {
        Some(descriptor) => entries_in(alloc, &descriptor.dacl),
        None => Ok(Vec::new(alloc)),
    }
}
