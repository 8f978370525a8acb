//! One publish: readers get a tree.

ghost use Rattle.std.specs.Prelude.{◌≡◌, [], ◌∷◌, ◌++◌, length, drop, OnOk, MatchResult};
ghost use mathlib.Core.List.{IsPrefix};
ghost use Rattle.left_right.specs.Sides.{view};
ghost use Rattle.sd_edit.specs.Journal.{IsLawful};
ghost use Rattle.sd_store.specs.Marks.{IsOnePublish, ShowTree};
ghost use Rattle.sd_store.specs.Rules.{store_id, IsReady, IsFrontOf};

use crate::operation::Operation;
use crate::rule::{Cell, Sees};
use crate::store_id::StoreId;
use sd_history::Front;
use sd_tree::{Edit, Shared, Tree};
use std::alloc::AllocError;
use std::sync::Wait;

/// The tree joins the pending operations. It stands in for those of publishes that failed before, so that a publish
/// makes one mark.
#[tactic(auto, using(crate::proofs::Marking::one_more, crate::proofs::Marking::first_one, crate::proofs::Marking::shows))]
fn show<J: StoreId>(
    cell: &mut Cell<J>,
    tree: Shared<Tree>,
    front: Front<Edit>,
) -> Result<(), AllocError>
    requires one { IsOnePublish (drop cell.old.behind cell.old.log.items) }
    ensures desk { cell.new.desk ≡ cell.old.desk }
    ensures one { IsOnePublish (drop cell.new.behind cell.new.log.items) }
    ensures shown { OnOk result (ShowTree (drop cell.new.behind cell.new.log.items) tree front) }
{
    let opens = !cell.has_pending_operations();
    cell.append(Operation { tree, front, opens })
        .map_err(|_| AllocError)
}

/// One publish of the tree, which goes on from what is published. At an `AllocError` readers see what they saw.
pub(crate) fn publish_all<J: StoreId, R: Wait>(
    rt: &R,
    cell: Cell<J>,
    tree: Shared<Tree>,
    front: Front<Edit>,
) -> (Cell<J>, Result<(), AllocError>)
    requires ready { IsReady (store_id J.opening J.book J.first)
        (view cell.desk.place) cell.desk.shown.value (drop cell.behind cell.log.items) }
    requires opening { tree.opening ≡ J.opening }
    requires lawful { IsLawful J.opening tree.journal }
    requires onwards { IsPrefix cell.desk.shown.value.tree.journal tree.journal }
    requires front { IsFrontOf (store_id J.opening J.book J.first) front tree.journal }
    ensures ready { IsReady (store_id J.opening J.book J.first)
        (view result.0.desk.place) result.0.desk.shown.value (drop result.0.behind result.0.log.items) }
    ensures journal { MatchResult result.1
        (λ _. result.0.desk.shown.value.tree.journal ≡ tree.journal)
        (λ _. result.0.desk.shown.value.tree.journal ≡ cell.desk.shown.value.tree.journal) }
    ensures marks { MatchResult result.1
        (λ _. result.0.desk.shown.value.marks.items
        ≡ cell.desk.shown.value.marks.items ++ length result.0.desk.shown.value.tree.journal ∷ [])
        (λ _. result.0.desk.shown.value.marks.items ≡ cell.desk.shown.value.marks.items) }
{
    let mut cell = cell;
    if show(&mut cell, tree, front).is_err() {
        return (cell, Err(AllocError));
    }
    cell.publish_as::<Sees<J>, R>(rt)
}
