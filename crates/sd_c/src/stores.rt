//! The calls over a store, which has one writer.

ghost use Rattle.std.specs.Prelude.{◌≡◌, ◌⊎◌, None, Err, Ok, Some, IfErr, IfOk, IsSome, MatchOption, MatchResult, OnOk};
ghost use Rattle.sd_edit.specs.Limits.{limits_of, standard_limits};
ghost use Rattle.sd_c.specs.Edits.{IsEdit, IsNoEdit};
ghost use Rattle.sd_c.specs.Kept.{IsSame, Stays, store_in, view_in};
ghost use Rattle.sd_c.specs.Publishing.{Begins, Edits, IsAllowed, IsBegun, IsEdited, IsNotBegun, IsNotEdited};
ghost use Rattle.sd_c.specs.Publishing.{IsReverted, IsViewOf, Judges, Publishes, Reverts, tree_reason};

use crate::call_answer::{
    CheckAnswer, HANDLE, MEMORY, OK, Written, length_told, not_written, unread,
};
use crate::edits::{edit_of, node_of};
use crate::handle::{Handle, Kept};
use crate::mapping::Mapping;
use crate::not_done::{NotDone, not_done};
use crate::request::mapping_of;
use sd_tree::{Edit, Limits, LimitsError, TreeError};
use sd_versions::Versions;
use std::alloc::{AllocError, Global};

/// Opens a store whose tree is the root alone: a container with the owner, the group and the DACL of the descriptor in
/// the bytes ([MS-DTYP] 2.4.6), and this mapping for all nodes. Refused if one of them is invalid, if the tree refuses
/// the root, out of memory, or if the handle is in use; then it is unchanged.
#[unsafe(no_mangle)]
pub extern "C" fn hudarin_store_open(
    alloc: Global,
    root: &[u8],
    mapping: Mapping,
    store: &mut Handle,
) -> CheckAnswer
    ensures { Begins root.now mapping (Ok standard_limits) store.old store.new result }
{
    begun(alloc, root, mapping, Ok(Limits::standard()), store)
}

/// Opens a store, as `hudarin_store_open`, within limits: its tree has at most so many nodes, the root counted, and so
/// many edits. Refused also if these are no limits of a tree.
#[unsafe(no_mangle)]
pub extern "C" fn hudarin_store_open_within(
    alloc: Global,
    root: &[u8],
    mapping: Mapping,
    nodes: u64,
    edits: u64,
    store: &mut Handle,
) -> CheckAnswer
    ensures { Begins root.now mapping (limits_of nodes edits) store.old store.new result }
{
    begun(alloc, root, mapping, Limits::new(nodes, edits), store)
}

fn begun(
    alloc: Global,
    root: &[u8],
    mapping: Mapping,
    limits: Result<Limits, LimitsError>,
    store: &mut Handle,
) -> CheckAnswer
    ensures { Begins root.now mapping limits store.old store.new result }
{
    if store.is_there == 1 {
        return not_done(NotDone::StoreHandle);
    }
    match opened(alloc, root, mapping, limits) {
        Ok(kept) => {
            store.put(kept);
            unread(OK, 0, 0, 0)
        }
        Err(why) => not_done(why),
    }
}

fn opened(
    alloc: Global,
    root: &[u8],
    mapping: Mapping,
    limits: Result<Limits, LimitsError>,
) -> Result<Box<Kept>, NotDone>
    ensures ok { IfOk result (λ kept. IsBegun root.now mapping limits kept.value) }
    ensures err { IfErr result (λ why. IsNotBegun root.now mapping limits why) }
{
    let root = node_of(alloc, root)?;
    let Ok(mapping) = mapping_of(mapping) else {
        return Err(NotDone::MappingBits);
    };
    match Versions::opening(alloc, &mapping, &root, limits?) {
        Ok(versions) => Ok(boxed_store(alloc, versions)?),
        Err(e) => Err(reason_of(e)),
    }
}

fn boxed_store(alloc: Global, versions: Versions) -> Result<Box<Kept>, AllocError>
    ensures { IfOk result (λ kept. store_in kept.value ≡ Some versions) }
{
    let store = Box::new(alloc, versions)?;
    Ok(Box::new(alloc, Kept::Store(store))?)
}

/// Why a tree wasn't opened or changed.
fn reason_of(e: TreeError) -> NotDone
    ensures { result ≡ tree_reason e }
{
    match e {
        TreeError::Refused(refusal) => NotDone::Refused(refusal),
        TreeError::Memory => NotDone::Memory,
    }
}

/// Makes an edit of the store's tree: its number, the path of its node, and its value, by its kind a descriptor's
/// bytes, a SID's, a target's text, or nothing. If an argument is invalid, if the tree refuses the edit, or out of
/// memory, nothing changes.
#[unsafe(no_mangle)]
pub extern "C" fn hudarin_store_edit(
    alloc: Global,
    store: &mut Handle,
    kind: u32,
    path: &[u8],
    value: &[u8],
) -> CheckAnswer
    ensures { Edits (IsEdit kind path.now value.now) (IsNoEdit kind path.now value.now) store.old store.new result }
{
    edit_made(alloc, store, edit_of(alloc, kind, path, value))
}

/// Makes the edit that arguments say, or answers why they say none.
pub(crate) fn edit_made(
    alloc: Global,
    store: &mut Handle,
    edit: Result<Edit, NotDone>,
) -> CheckAnswer
    ensures { Edits (λ said. edit ≡ Ok said) (λ why. edit ≡ Err why) store.old store.new result }
{
    let Some(kept) = store.take(alloc) else {
        return not_done(NotDone::StoreHandle);
    };
    let mut kept = kept;
    let answer = match edited(&mut kept, edit) {
        Ok(()) => unread(OK, 0, 0, 0),
        Err(why) => not_done(why),
    };
    store.put(kept);
    answer
}

fn edited(kept: &mut Kept, edit: Result<Edit, NotDone>) -> Result<(), NotDone>
    ensures { MatchResult result (λ _. IsEdited (λ said. edit ≡ Ok said) kept.old kept.new)
        (λ why. IsNotEdited (λ said. edit ≡ Ok said) (λ w. edit ≡ Err w) kept.old why × IsSame kept.old kept.new) }
{
    let Kept::Store(store) = kept else {
        return Err(NotDone::StoreHandle);
    };
    let edit = edit?;
    match store.edit(&edit) {
        Ok(()) => Ok(()),
        Err(e) => Err(reason_of(e)),
    }
}

/// What `hudarin_store_edit` would answer to these arguments; nothing changes.
#[unsafe(no_mangle)]
pub extern "C" fn hudarin_store_judge(
    alloc: Global,
    store: &mut Handle,
    kind: u32,
    path: &[u8],
    value: &[u8],
) -> CheckAnswer
    ensures answer { Judges (IsEdit kind path.now value.now) (IsNoEdit kind path.now value.now) store.old result }
    ensures store { Stays store.old store.new }
{
    edit_judged(alloc, store, edit_of(alloc, kind, path, value))
}

/// What `edit_made` would answer.
pub(crate) fn edit_judged(
    alloc: Global,
    store: &mut Handle,
    edit: Result<Edit, NotDone>,
) -> CheckAnswer
    ensures answer { Judges (λ said. edit ≡ Ok said) (λ why. edit ≡ Err why) store.old result }
    ensures store { Stays store.old store.new }
{
    let Some(kept) = store.take(alloc) else {
        return not_done(NotDone::StoreHandle);
    };
    let answer = match judged(&kept, edit) {
        Ok(()) => unread(OK, 0, 0, 0),
        Err(why) => not_done(why),
    };
    store.put(kept);
    answer
}

fn judged(kept: &Kept, edit: Result<Edit, NotDone>) -> Result<(), NotDone>
    ensures ok { OnOk result (IsAllowed (λ said. edit ≡ Ok said) kept.now) }
    ensures err { IfErr result
        (λ why. IsNotEdited (λ said. edit ≡ Ok said) (λ w. edit ≡ Err w) kept.now why) }
{
    let Kept::Store(store) = kept else {
        return Err(NotDone::StoreHandle);
    };
    let edit = edit?;
    match store.draft().judge(&edit)? {
        None => Ok(()),
        Some(refusal) => Err(NotDone::Refused(refusal)),
    }
}

/// Makes `view` the store's tree with all its edits, of which none is pending then; `length` is their number. Refused
/// if `store` keeps no store, if `view` is in use, or out of memory; then both are unchanged.
#[unsafe(no_mangle)]
pub extern "C" fn hudarin_store_publish(
    alloc: Global,
    store: &mut Handle,
    view: &mut Handle,
) -> Written
    ensures { Publishes store.old store.new view.old view.new result }
{
    if view.is_there == 1 {
        return not_written(HANDLE, 0, 0);
    }
    let Some(kept) = store.take(alloc) else {
        return not_written(HANDLE, 0, 0);
    };
    let mut kept = kept;
    let answer = match published(alloc, &mut kept) {
        Ok(Some((made, length))) => {
            view.put(made);
            length_told(length)
        }
        Ok(None) => not_written(HANDLE, 0, 0),
        Err(AllocError) => not_written(MEMORY, 0, 0),
    };
    store.put(kept);
    answer
}

/// A view of the kept store, if there is one, which is published, and the length of its journal.
fn published(alloc: Global, kept: &mut Kept) -> Result<Option<(Box<Kept>, u64)>, AllocError>
    ensures { MatchResult result
        (λ made. MatchOption made ((store_in kept.old ≡ None) × IsSame kept.old kept.new)
        (λ x. IsViewOf kept.old kept.new x.0.value x.1))
        (λ _. IsSome (store_in kept.old) × IsSame kept.old kept.new) }
{
    let Kept::Store(store) = kept else {
        return Ok(None);
    };
    let tree = store.draft_snapshot()?;
    let length = tree.get().len();
    let view = Box::new(alloc, Kept::View(tree))?;
    store.publish();
    Ok(Some((view, length)))
}

/// Makes the store's tree that of the view, with its edits alone, of which none is pending; `length` is their number. A
/// view of another store brings that store's root, mapping and limits too. Refused if `store` keeps no store or `view`
/// no view, or out of memory; then the store is unchanged.
#[unsafe(no_mangle)]
pub extern "C" fn hudarin_store_revert(
    alloc: Global,
    store: &mut Handle,
    view: &mut Handle,
) -> Written
    ensures store { Reverts store.old store.new view.old result }
    ensures view { Stays view.old view.new }
{
    let Some(first) = store.take(alloc) else {
        return not_written(HANDLE, 0, 0);
    };
    let mut first = first;
    let Some(second) = view.take(alloc) else {
        store.put(first);
        return not_written(HANDLE, 0, 0);
    };
    let answer = match reverted(alloc, &mut first, &second) {
        Ok(Some(length)) => length_told(length),
        Ok(None) => not_written(HANDLE, 0, 0),
        Err(AllocError) => not_written(MEMORY, 0, 0),
    };
    store.put(first);
    view.put(second);
    answer
}

/// Gives the kept store the view's tree, if they are a store and a view; the length of its journal.
fn reverted(alloc: Global, first: &mut Kept, second: &Kept) -> Result<Option<u64>, AllocError>
    ensures { MatchResult result (λ told. MatchOption told
        (((store_in first.old ≡ None) ⊎ (view_in second.now ≡ None)) × IsSame first.old first.new)
        (λ length. IsReverted first.old first.new second.now length))
        (λ _. IsSome (store_in first.old) × IsSome (view_in second.now) × IsSame first.old first.new) }
{
    let Kept::Store(store) = first else {
        return Ok(None);
    };
    let Kept::View(tree) = second else {
        return Ok(None);
    };
    **store = Versions::of(alloc, tree.share()?);
    Ok(Some(tree.get().len()))
}
