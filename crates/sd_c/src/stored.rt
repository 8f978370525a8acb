//! Nodes that keep what they had inherited elsewhere: the edit that adds one, and what a node keeps.

ghost use Rattle.std.specs.Prelude.{◌≡◌, IfErr, IfOk, option_map};
ghost use Rattle.sd_acl.specs.Descriptor.{descriptor_of};
ghost use Rattle.sd_c.specs.Kept.{Stays};
ghost use Rattle.sd_c.specs.Publishing.{Edits, Judges};
ghost use Rattle.sd_c.specs.Stored.{IsKept, IsKeptAt, IsList, IsNoList, IsNoLists, IsNoStoredNode, IsNoStoring};
ghost use Rattle.sd_c.specs.Stored.{IsNotKept, IsNotKeptAt, IsStoredNode, IsStoring, ListsComeBack};
ghost use Rattle.sd_c.specs.Stored.{descriptor_of_list, kept_part};
ghost use Rattle.sd_c.specs.Views.{TellsBytes};

use crate::call_answer::{CheckAnswer, Written, write};
use crate::edits::{ADD_CONTAINER, ADD_OBJECT, descriptor_of, node_of, path_of};
use crate::handle::{Handle, Kept};
use crate::not_done::{EditArgument, NotDone};
use crate::stores::{edit_judged, edit_made};
use crate::views::not_told;
use sd_acl::{AceList, Dacl, Descriptor};
use sd_tree::{Edit, NodeDacl, NodeKind, RootSpec};
use sd_wire::write_descriptor;
use std::alloc::Global;

/// Adds a node of a kind, 1 a container and 2 an object, that keeps what it had inherited elsewhere while its container
/// offers what was offered there: the bytes of its own descriptor, as of an edit that adds a node, of what it had
/// inherited, and of the offer, each a descriptor ([MS-DTYP] 2.4.6) with a list alone that isn't protected. Refused as
/// `hudarin_store_edit` is.
#[unsafe(no_mangle)]
pub extern "C" fn hudarin_store_add_stored(
    alloc: Global,
    store: &mut Handle,
    kind: u32,
    path: &[u8],
    own: &[u8],
    kept: &[u8],
    offer: &[u8],
) -> CheckAnswer
    ensures { Edits (IsStoring kind path.now own.now kept.now offer.now)
        (IsNoStoring kind path.now own.now kept.now offer.now) store.old store.new result }
{
    edit_made(
        alloc,
        store,
        stored_edit_of(alloc, kind, path, own, kept, offer),
    )
}

/// What `hudarin_store_add_stored` would answer to these arguments; nothing changes.
#[unsafe(no_mangle)]
pub extern "C" fn hudarin_store_judge_stored(
    alloc: Global,
    store: &mut Handle,
    kind: u32,
    path: &[u8],
    own: &[u8],
    kept: &[u8],
    offer: &[u8],
) -> CheckAnswer
    ensures answer { Judges (IsStoring kind path.now own.now kept.now offer.now)
        (IsNoStoring kind path.now own.now kept.now offer.now) store.old result }
    ensures store { Stays store.old store.new }
{
    edit_judged(
        alloc,
        store,
        stored_edit_of(alloc, kind, path, own, kept, offer),
    )
}

/// Writes what the node at this index in path order keeps into the buffer: `part` 1 what it had inherited elsewhere, 2
/// the offer with which it stands; the self-relative form ([MS-DTYP] 2.4.6) of a descriptor with that list alone.
/// Refused if the handle keeps no view, after the last node, if the node keeps no such part, or out of memory; then,
/// and if the buffer is too small, nothing is written.
#[unsafe(no_mangle)]
pub extern "C" fn hudarin_view_stored(
    alloc: Global,
    view: &mut Handle,
    place: u64,
    part: u32,
    room: &mut [u8],
) -> Written
    ensures answer { TellsBytes (IsKeptAt view.old.seal.kept place part) (IsNotKeptAt view.old.seal.kept place part)
        view.old room.old room.new result }
    ensures view { Stays view.old view.new }
{
    let Some(kept) = view.take(alloc) else {
        return not_told(NotDone::ViewHandle);
    };
    let answer = match kept_at(alloc, &kept, place, part) {
        Ok(bytes) => write(&bytes, room),
        Err(why) => not_told(why),
    };
    view.put(kept);
    answer
}

/// A law: what `hudarin_view_stored` wrote of a list, if no entry has an unnamed flag, gives `hudarin_store_add_stored`
/// that list again.
pub fn lists_come_back()
    ensures { ListsComeBack }
{}

/// The edit that adds a node of the kind of this number, with what it keeps.
fn stored_edit_of(
    alloc: Global,
    kind: u32,
    path: &[u8],
    own: &[u8],
    kept: &[u8],
    offer: &[u8],
) -> Result<Edit, NotDone>
    ensures ok { IfOk result (λ edit. IsStoring kind path.now own.now kept.now offer.now edit) }
    ensures err { IfErr result (λ why. IsNoStoring kind path.now own.now kept.now offer.now why) }
{
    let path = path_of(alloc, EditArgument::Path, path)?;
    match kind {
        ADD_CONTAINER => {
            let node = stored_node_of(alloc, own, kept, offer)?;
            Ok(Edit::addition(NodeKind::Container, path, node))
        }
        ADD_OBJECT => {
            let node = stored_node_of(alloc, own, kept, offer)?;
            Ok(Edit::addition(NodeKind::Object, path, node))
        }
        _ => Err(NotDone::EditKind),
    }
}

/// The owner, the group and the DACL of a node, as its own descriptor and both lists in the bytes give them.
fn stored_node_of(alloc: Global, own: &[u8], kept: &[u8], offer: &[u8]) -> Result<RootSpec, NotDone>
    ensures ok { IfOk result
        (λ node. IsStoredNode own.now kept.now offer.now node.owner node.group node.dacl) }
    ensures err { IfErr result (λ why. IsNoStoredNode own.now kept.now offer.now why) }
{
    let RootSpec { owner, group, dacl } = node_of(alloc, own)?;
    let (inherited, offered) = lists_of(alloc, kept, offer)?;
    let dacl = dacl.stored(inherited, offered);
    Ok(RootSpec { owner, group, dacl })
}

/// Both lists that a node keeps.
fn lists_of(alloc: Global, kept: &[u8], offer: &[u8]) -> Result<(AceList, AceList), NotDone>
    ensures ok { IfOk result (λ lists. IsList kept.now lists.0 × IsList offer.now lists.1) }
    ensures err { IfErr result (λ why. IsNoLists kept.now offer.now why) }
{
    let inherited = list_of(alloc, EditArgument::Kept, kept)?;
    let offered = list_of(alloc, EditArgument::Offer, offer)?;
    Ok((inherited, offered))
}

/// The list that a descriptor in the bytes has alone, and which isn't protected.
fn list_of(alloc: Global, argument: EditArgument, bytes: &[u8]) -> Result<AceList, NotDone>
    ensures ok { IfOk result (λ list. IsList bytes.now list) }
    ensures err { IfErr result (λ why. IsNoList argument bytes.now why) }
{
    let Descriptor {
        owner,
        group,
        dacl,
        protected,
        ..
    } = descriptor_of(alloc, argument, bytes)?;
    match (owner, group, protected, dacl) {
        (None, None, false, Dacl::List(list)) => Ok(list),
        _ => Err(NotDone::Parts(argument)),
    }
}

/// A part of what the node at this index of the view's tree keeps.
fn kept_at(alloc: Global, kept: &Kept, place: u64, part: u32) -> Result<Vec<u8>, NotDone>
    ensures ok { IfOk result (λ bytes. IsKeptAt kept.now place part bytes.items) }
    ensures err { IfErr result (λ why. IsNotKeptAt kept.now place part why) }
{
    let Kept::View(tree) = kept else {
        return Err(NotDone::ViewHandle);
    };
    let Some(node) = tree.get().node(place as usize) else {
        return Err(NotDone::NoNode);
    };
    let bytes = kept_of(alloc, part, node.dacl)?;
    Ok(bytes)
}

/// The bytes of a part of what a node with this DACL keeps.
fn kept_of(alloc: Global, part: u32, dacl: &NodeDacl) -> Result<Vec<u8>, NotDone>
    ensures ok { IfOk result (λ bytes. IsKept part dacl.now bytes.items) }
    ensures err { IfErr result (λ why. IsNotKept (kept_part part dacl.now) why) }
{
    match kept_part(part, dacl) {
        Some(list) => {
            let descriptor = descriptor_of_list(list.copy(alloc)?);
            Ok(write_descriptor(alloc, &descriptor)?)
        }
        None => Err(NotDone::NothingKept),
    }
}

fn kept_part(part: u32, dacl: &NodeDacl) -> Option<&AceList>
    ensures { option_map (λ list. list.now) result ≡ kept_part part dacl.now }
{
    match dacl {
        NodeDacl::Stored {
            inherited,
            offer,
            ..
        } => match part {
            1 => Some(inherited),
            2 => Some(offer),
            _ => None,
        },
        NodeDacl::Null | NodeDacl::List { .. } => None,
    }
}

fn descriptor_of_list(list: AceList) -> Descriptor
    ensures { descriptor_of result ≡ descriptor_of_list list }
{
    Descriptor {
        owner: None,
        group: None,
        dacl: Dacl::List(list),
        protected: false,
        auto_req: false,
        auto_inherited: false,
    }
}
