//! The calls that return a view's nodes, by which a server lists and saves its store.

ghost use Rattle.std.specs.Prelude.{◌≡◌, IfErr, IfOk, string_bytes};
ghost use Rattle.sd_edit.specs.Answers.{given_at};
ghost use Rattle.sd_edit.specs.History.{history_of};
ghost use Rattle.sd_edit.specs.Journal.{replay};
ghost use Rattle.sd_c.specs.Kept.{Stays};
ghost use Rattle.sd_c.specs.Nodes.{IsNoOwnAt, IsNoPathAt, IsOwnAt, IsOwnIn, IsPathAt, OwnFormsComeBack, TellsNode};
ghost use Rattle.sd_c.specs.Nodes.{kind_number, no_node_told};
ghost use Rattle.sd_c.specs.Views.{IsNotFound};
ghost use Rattle.sd_c.specs.Written.{Writes};

use crate::call_answer::{Written, write};
use crate::edits::path_of;
use crate::handle::{Handle, Kept};
use crate::not_done::{EditArgument, NotDone};
use crate::views::not_told;
use sd_path::Path;
use sd_tree::{NodeKind, Tree};
use sd_wire::write_descriptor;
use std::alloc::Global;

/// The answer of a call that returns a node.
#[repr(C)]
#[derive(Clone, Copy, Debug, PartialEq, Eq)]
pub struct NodeAnswer {
    pub written: Written,
    /// 1 for a container and 2 for an object; 0 without a node.
    pub kind: u32,
}

/// Writes what was given to the node of a path in the view's tree into the buffer: the self-relative form ([MS-DTYP]
/// 2.4.6) of its owner, its group and its own DACL, without what it inherits. Refused as `hudarin_view_descriptor` is;
/// then, and if the buffer is too small, nothing is written.
#[unsafe(no_mangle)]
pub extern "C" fn hudarin_view_own(
    alloc: Global,
    view: &mut Handle,
    path: &[u8],
    room: &mut [u8],
) -> NodeAnswer
    ensures answer { TellsNode (IsOwnAt view.old.seal.kept path.now) (IsNoOwnAt view.old.seal.kept path.now)
        view.old room.old room.new result }
    ensures view { Stays view.old view.new }
{
    let Some(kept) = view.take(alloc) else {
        return no_node_told(NotDone::ViewHandle);
    };
    let answer = match own_at(alloc, &kept, path) {
        Ok((bytes, kind)) => node_told(&bytes, kind, room),
        Err(why) => no_node_told(why),
    };
    view.put(kept);
    answer
}

/// Writes the path of the node at this index in path order into the buffer: the root is at 0, and each node at one
/// index, after its parent. Refused if the handle keeps no view, after the last node, or out of memory; then, and if
/// the buffer is too small, nothing is written.
#[unsafe(no_mangle)]
pub extern "C" fn hudarin_view_node(
    alloc: Global,
    view: &mut Handle,
    place: u64,
    room: &mut [u8],
) -> NodeAnswer
    ensures answer { TellsNode (IsPathAt view.old.seal.kept place) (IsNoPathAt view.old.seal.kept place)
        view.old room.old room.new result }
    ensures view { Stays view.old view.new }
{
    let Some(kept) = view.take(alloc) else {
        return no_node_told(NotDone::ViewHandle);
    };
    let answer = match path_at(alloc, &kept, place) {
        Ok((text, kind)) => node_told(text.as_bytes(), kind, room),
        Err(why) => no_node_told(why),
    };
    view.put(kept);
    answer
}

/// A law: an edit whose value is what `hudarin_view_own` wrote of a node, where no entry has an unnamed flag, gives the
/// node of its path the same owner, group and DACL, but for what it had inherited elsewhere.
pub fn own_forms_come_back()
    ensures { OwnFormsComeBack }
{}

fn own_at(alloc: Global, kept: &Kept, path: &[u8]) -> Result<(Vec<u8>, NodeKind), NotDone>
    ensures ok { IfOk result (λ made. IsOwnAt kept.now path.now made.0.items made.1) }
    ensures err { IfErr result (λ why. IsNoOwnAt kept.now path.now why) }
{
    let Kept::View(tree) = kept else {
        return Err(NotDone::ViewHandle);
    };
    let path = path_of(alloc, EditArgument::Path, path)?;
    let made = own_in(alloc, tree.get(), &path)?;
    Ok(made)
}

fn own_in(alloc: Global, tree: &Tree, path: &Path) -> Result<(Vec<u8>, NodeKind), NotDone>
    ensures ok { IfOk result (λ made. IsOwnIn (history_of tree.now) path.now made.0.items made.1) }
    ensures err { IfErr result (λ why. IsNotFound (given_at (replay tree.now.opening tree.now.journal) path.now) why) }
{
    match tree.given(path)? {
        Some((kind, descriptor)) => Ok((write_descriptor(alloc, &descriptor)?, kind)),
        None => Err(NotDone::NoNode),
    }
}

fn path_at(alloc: Global, kept: &Kept, place: u64) -> Result<(String, NodeKind), NotDone>
    ensures ok { IfOk result (λ made. IsPathAt kept.now place (string_bytes made.0) made.1) }
    ensures err { IfErr result (λ why. IsNoPathAt kept.now place why) }
{
    let Kept::View(tree) = kept else {
        return Err(NotDone::ViewHandle);
    };
    match tree.get().node(place as usize) {
        Some(node) => {
            let path = node.path;
            Ok((format!(in alloc; "{path}")?, node.kind))
        }
        None => Err(NotDone::NoNode),
    }
}

fn node_told(bytes: &[u8], kind: NodeKind, room: &mut [u8]) -> NodeAnswer
    ensures written { Writes bytes.now room.old room.new result.written }
    ensures kind { result.kind ≡ kind_number kind }
{
    NodeAnswer {
        written: write(bytes, room),
        kind: match kind {
            NodeKind::Container => 1,
            NodeKind::Object => 2,
        },
    }
}

fn no_node_told(why: NotDone) -> NodeAnswer
    ensures { result ≡ no_node_told why }
{
    NodeAnswer {
        written: not_told(why),
        kind: 0,
    }
}
