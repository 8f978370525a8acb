//! How a store of many threads starts.

ghost use Rattle.std.specs.Prelude.{◌≡◌, ◌⊎◌, ◌∷◌, ◌<◌, ◌≤◌, [], None, drop, IfOk, IfErr, All, vec_len};
ghost use Rattle.left_right.specs.Sides.{view};
ghost use Rattle.sd_edit.specs.Journal.{opening_of, opening_within, root_refusal};
ghost use Rattle.sd_history.specs.Chains.{items_from};
ghost use Rattle.sd_edit.specs.Starts.{IsReaderCount};
ghost use Rattle.sd_edit.specs.declared.start.StartError.TheVariants.{Memory, Place};
ghost use Rattle.sd_store.specs.Errors.{IsStoreError};
ghost use Rattle.sd_store.specs.Rules.{store_id, newcomer, IsFrontOf, IsOpened};

use crate::checker::Checker;
use crate::floor::Floor;
use crate::published::Published;
use crate::rule::Cell;
use crate::store_id::StoreId;
use crate::writer::StoreWriter;
use sd_history::{Front, Opened};
use sd_sid::GenericMapping;
use sd_tree::{Edit, Limits, RootSpec, Shared, Tree};
use sd_versions::{MAX_READERS, StartError, Versions};
use std::alloc::{AllocError, Global};
use std::sync::Wait;

/// A store with no edit yet: its writer, and 1 to 64 checkers, which have seen none. It is of the history that it
/// takes, a new one. `Readers` for another number, and else the root's first refusal. It may wait where it answers
/// `Place`. Its tree has at most 65,536 nodes and 1,048,576 edits.
pub fn start<J: StoreId, R: Wait>(
    rt: &R,
    alloc: Global,
    history: Opened<Edit>,
    mapping: &GenericMapping,
    root: &RootSpec,
    readers: u64,
) -> Result<(StoreWriter<J>, Vec<Checker<J>>), StartError>
    requires history { (history.book ≡ J.book) × (history.first ≡ J.first) }
    requires opening { opening_of mapping.now root.now ≡ J.opening }
    ensures accepted { IfOk result (λ _. IsReaderCount readers
        × (root_refusal (opening_of mapping.now root.now) ≡ None)) }
    ensures count { IfOk result (λ store. vec_len store.1 ≡ readers) }
    ensures writer { IfOk result (λ store. (store.0.journal ≡ []) × (store.0.marks ≡ 0 ∷ []) × (store.0.pending ≡ [])) }
    ensures checkers { IfOk result (λ store.
        All (λ checker. (checker.floor ≡ []) × (checker.view ≡ newcomer)) store.1.items) }
    ensures refused { IfErr result (λ e. IsStoreError e readers (root_refusal (opening_of mapping.now root.now))) }
{
    let limits = Limits::standard();
    start_within::<J, R>(rt, alloc, history, mapping, root, limits, readers)
}

/// A store with no edit yet, whose tree stays within these limits: its writer, and 1 to 64 checkers, which have seen
/// none. It is of the history that it takes, a new one. `Readers` for another number, and else the root's first
/// refusal. It may wait where it answers `Place`.
pub fn start_within<J: StoreId, R: Wait>(
    rt: &R,
    alloc: Global,
    history: Opened<Edit>,
    mapping: &GenericMapping,
    root: &RootSpec,
    limits: Limits,
    readers: u64,
) -> Result<(StoreWriter<J>, Vec<Checker<J>>), StartError>
    requires history { (history.book ≡ J.book) × (history.first ≡ J.first) }
    requires opening { opening_within mapping.now root.now limits ≡ J.opening }
    ensures accepted { IfOk result (λ _. IsReaderCount readers
        × (root_refusal (opening_within mapping.now root.now limits) ≡ None)) }
    ensures count { IfOk result (λ store. vec_len store.1 ≡ readers) }
    ensures writer { IfOk result (λ store. (store.0.journal ≡ []) × (store.0.marks ≡ 0 ∷ []) × (store.0.pending ≡ [])) }
    ensures checkers { IfOk result (λ store.
        All (λ checker. (checker.floor ≡ []) × (checker.view ≡ newcomer)) store.1.items) }
    ensures refused { IfErr result (λ e.
        IsStoreError e readers (root_refusal (opening_within mapping.now root.now limits))) }
{
    if readers < 1 || MAX_READERS < readers {
        return Err(StartError::Readers);
    }
    let versions = Versions::opening(alloc, mapping, root, limits)?;
    let tree = versions.snapshot()?;
    let history = history.named::<J>();
    let front = history.front();
    let cell = opened::<J>(alloc, &tree, &front, readers)?;
    match seated(alloc, &cell, &front, readers) {
        Ok(checkers) => {
            let writer = StoreWriter {
                versions,
                history,
                cell: Some(cell),
            };
            Ok((writer, checkers))
        }
        Err(error) => {
            cell.take(rt);
            Err(error)
        }
    }
}

/// The shared store of a tree without an edit, with room for so many readers.
fn opened<J: StoreId>(
    alloc: Global,
    tree: &Shared<Tree>,
    front: &Front<Edit>,
    readers: u64,
) -> Result<Cell<J>, AllocError>
    requires readers { (0 < readers) × (readers ≤ 64) }
    requires tree { (tree.now.opening ≡ J.opening) × (tree.now.journal ≡ []) }
    requires front { IsFrontOf (store_id J.opening J.book J.first) front.now [] }
    ensures { IfOk result (λ c. IsOpened (store_id J.opening J.book J.first)
        (view c.desk.place) c.desk.shown.value (drop c.behind c.log.items)) }
{
    let first = first_published(alloc, tree, front)?;
    let second = first_published(alloc, tree, front)?;
    Cell::new(alloc, first, second, readers as usize)
}

/// What is published before any publish.
fn first_published(
    alloc: Global,
    tree: &Shared<Tree>,
    front: &Front<Edit>,
) -> Result<Published, AllocError>
    ensures tree { IfOk result (λ p. (p.tree.opening ≡ tree.now.opening) × (p.tree.journal ≡ tree.now.journal)) }
    ensures marks { IfOk result (λ p. p.marks.items ≡ 0 ∷ []) }
    ensures front { IfOk result (λ p. p.front ≡ front.now) }
{
    Ok(Published {
        tree: tree.share()?,
        marks: vec![in alloc; 0]?,
        front: front.copy(),
    })
}

/// A checker for each place.
fn seated<J: StoreId>(
    alloc: Global,
    cell: &Cell<J>,
    front: &Front<Edit>,
    readers: u64,
) -> Result<Vec<Checker<J>>, StartError>
    requires readers { (0 < readers) × (readers ≤ 64) }
    requires front { (front.now.book ≡ J.book) × (items_from J.first front.now.log ≡ []) }
    ensures count { IfOk result (λ checkers. vec_len checkers ≡ readers) }
    ensures checkers { IfOk result (λ checkers.
        All (λ checker. (checker.floor ≡ []) × (checker.view ≡ newcomer)) checkers.items) }
    ensures refused { IfErr result (λ e. (e ≡ Memory) ⊎ (e ≡ Place)) }
{
    let mut checkers = Vec::with_capacity(alloc, readers as usize)?;
    for _ in 0..readers {
        let Ok(seat) = cell.factory().reader() else {
            return Err(StartError::Place);
        };
        checkers.push_reserved(Checker {
            seat: Some(seat),
            floor: Floor::new(0, front.copy()),
            drawn: Vec::new(alloc),
            failed: None,
        });
    }
    Ok(checkers)
}
