//! The plan of an edit.

ghost use Rattle.std.specs.Prelude.{◌≡◌, ◌<◌, ◌≤◌, length, false, None, IsSome, OnOk, IfOk, IfErr};
ghost use Rattle.std.specs.List.{HoldsAt};
ghost use Rattle.std.specs.FinMap.{insert, remove};
ghost use Rattle.sd_path.specs.Names.{is_root};
ghost use Rattle.sd_edit.specs.Plain.{row_at, dacl_at};
ghost use Rattle.sd_edit.specs.Closed.{IsAddable};
ghost use Rattle.sd_edit.specs.Edits.{changed, edited, keeping, ChangesOneNode};
ghost use Rattle.sd_edit.specs.Refusals.{dacl_size, early_refusal, has_child, moves_too_deep};
ghost use Rattle.sd_tree.specs.Stored.{path_of_node, IsNodeAt};
ghost use Rattle.sd_tree.specs.View.{IsView, tree_in};
ghost use Rattle.sd_tree.specs.Plans.{IsPlan, IsLargeError, IsLateError, changed_row};

use crate::addition::Addition;
use crate::keep::kept_dacl;
use crate::node::{Node, RowChange};
use crate::nodes::locate;
use crate::plan::Plan;
use crate::shared::Shared;
use crate::tree_view::TreeView;
use sd_edit::{Edit, NodeRow, TreeError};
use sd_path::Path;

impl TreeView<'_> {
    /// The plan for one more node, where none stands.
    fn insertion_plan(&self, addition: Addition) -> Result<Plan, TreeError>
        requires standing { IsView self.now }
        requires addable { IsAddable (tree_in self.now) addition.path }
        ensures plan { IfOk result (IsPlan self.now.mapping.now (tree_in self.now)
            (insert (tree_in self.now) addition.path addition.row)) }
        ensures refused { IfErr result (IsLargeError self.now.mapping.now
            (insert (tree_in self.now) addition.path addition.row)) }
    {
        let path = addition.path().as_path_ref();
        match locate(self.nodes, &path) {
            Ok(_) => unreachable!(),
            Err(at) => {
                let inherited = self.inherited_at(&path, at, &addition.row())?;
                let node = Node::new(addition, inherited)?;
                Ok(Plan::Insert { at, node })
            }
        }
    }

    /// The node at a place, with another row.
    fn node_with(&self, path: &Path, at: usize, row: NodeRow) -> Result<Node, TreeError>
        requires standing { IsView self.now }
        requires within { at < length self.now.nodes.now }
        requires stands { HoldsAt (λ b. path_of_node b ≡ path.now) self.now.nodes.now at }
        ensures path { IfOk result (λ node. node.path ≡ path.now) }
        ensures row { IfOk result (λ node. node.row ≡ row) }
        ensures whole { IfOk result (λ node. node.whole ≡ dacl_at self.now.mapping.now
            (insert (tree_in self.now) path.now row) path.now) }
        ensures fits { IfOk result (λ node. dacl_size node.whole ≤ 65535) }
        ensures refused { IfErr result (IsLargeError self.now.mapping.now (insert (tree_in self.now) path.now row)) }
    {
        let addition = Addition::new(self.alloc, path.copy(self.alloc)?, row)?;
        let inherited = self.inherited_at(&path.as_path_ref(), at, &addition.row())?;
        Node::new(addition, inherited)
    }

    /// The plan for a node that gets another row, where what it hands on changes with it.
    fn run_plan(&self, path: &Path, at: usize, row: NodeRow) -> Result<Plan, TreeError>
        requires standing { IsView self.now }
        requires within { at < length self.now.nodes.now }
        requires stands { HoldsAt (λ b. path_of_node b ≡ path.now) self.now.nodes.now at }
        ensures plan { IfOk result (IsPlan self.now.mapping.now (tree_in self.now)
            (insert (tree_in self.now) path.now row)) }
        ensures refused { IfErr result (IsLargeError self.now.mapping.now (insert (tree_in self.now) path.now row)) }
    {
        let first = self.node_with(path, at, row)?;
        let run = self.subtree(&path.as_path_ref(), at, first)?;
        Ok(Plan::Exchange {
            from: at,
            to: at,
            run,
        })
    }

    /// The plan for a node that gets another row, where no other node's DACL changes with it.
    fn one_node_plan(&self, path: &Path, at: usize, row: NodeRow) -> Result<Plan, TreeError>
        requires standing { IsView self.now }
        requires within { at < length self.now.nodes.now }
        requires stands { HoldsAt (λ b. path_of_node b ≡ path.now) self.now.nodes.now at }
        requires alone { ChangesOneNode self.now.mapping.now (tree_in self.now)
            (insert (tree_in self.now) path.now row) path.now }
        ensures plan { IfOk result (IsPlan self.now.mapping.now (tree_in self.now)
            (insert (tree_in self.now) path.now row)) }
        ensures refused { IfErr result (IsLargeError self.now.mapping.now (insert (tree_in self.now) path.now row)) }
    {
        let node = self.node_with(path, at, row)?;
        Ok(Plan::Set { at, node })
    }

    /// A node that is there, and its place.
    fn node_of(&self, path: &Path) -> (usize, &Node)
        requires standing { IsView self.now }
        requires there { IsSome (row_at (tree_in self.now) path.now) }
        ensures within { result.0 < length self.now.nodes.now }
        ensures stands { HoldsAt (λ b. path_of_node b ≡ path.now) self.now.nodes.now result.0 }
        ensures node { IsNodeAt self.now.nodes.now path.now result.1.now }
    {
        let at = self.place_of(&path.as_path_ref());
        (at, self.node(at))
    }

    /// The plan for a node that stays where it is. Its owner and its group go no further than the node's own DACL, and
    /// nothing does where no node stands below it.
    fn change_plan(&self, path: &Path, change: RowChange) -> Result<Plan, TreeError>
        requires standing { IsView self.now }
        requires there { IsSome (row_at (tree_in self.now) path.now) }
        ensures plan { IfOk result (IsPlan self.now.mapping.now (tree_in self.now)
            (changed (tree_in self.now) path.now (changed_row change))) }
        ensures refused { IfErr result (IsLargeError self.now.mapping.now
            (changed (tree_in self.now) path.now (changed_row change))) }
    {
        let (at, old) = self.node_of(path);
        let alone = change.is_of_trustee() || !self.has_child(&path.as_path_ref(), at);
        let row = old.row().with(self.alloc, change)?;
        if alone {
            self.one_node_plan(path, at, row)
        } else {
            self.run_plan(path, at, row)
        }
    }

    /// The plan for a node without children that goes.
    fn removal_plan(&self, path: &Path) -> Plan
        requires standing { IsView self.now }
        requires there { IsSome (row_at (tree_in self.now) path.now) }
        requires childless { has_child (tree_in self.now) path.now ≡ false }
        ensures { IsPlan self.now.mapping.now (tree_in self.now) (remove (tree_in self.now) path.now) result }
    {
        let at = self.place_of(&path.as_path_ref());
        Plan::Remove { at }
    }

    /// The plan for a node that is protected and keeps what it had inherited. A null DACL stays.
    fn keeping_plan(&self, path: &Path) -> Result<Plan, TreeError>
        requires standing { IsView self.now }
        requires there { IsSome (row_at (tree_in self.now) path.now) }
        ensures plan { IfOk result (IsPlan self.now.mapping.now (tree_in self.now)
            (changed (tree_in self.now) path.now
            (keeping (dacl_at self.now.mapping.now (tree_in self.now) path.now)))) }
        ensures refused { IfErr result (IsLargeError self.now.mapping.now
            (changed (tree_in self.now) path.now
            (keeping (dacl_at self.now.mapping.now (tree_in self.now) path.now)))) }
    {
        let (at, old) = self.node_of(path);
        match kept_dacl(self.alloc, old)? {
            Some(dacl) => self.change_plan(path, RowChange::Dacl(dacl)),
            None => {
                let row = old.row().copy(self.alloc)?;
                self.one_node_plan(path, at, row)
            }
        }
    }

    /// The plan of an edit that no test without memory refuses. A node that it adds shares it.
    pub(crate) fn plan(&self, edit: &Shared<Edit>) -> Result<Plan, TreeError>
        requires standing { IsView self.now }
        requires accepted { early_refusal (tree_in self.now) edit.now ≡ None }
        ensures plan { IfOk result (IsPlan self.now.mapping.now (tree_in self.now)
            (edited self.now.mapping.now (tree_in self.now) edit.now)) }
        ensures shallow { OnOk result (moves_too_deep (tree_in self.now) edit.now ≡ false) }
        ensures refused { IfErr result (IsLateError self.now.mapping.now (tree_in self.now) edit.now) }
    {
        match edit.get() {
            Edit::AddContainer { .. } | Edit::AddObject { .. } => {
                self.insertion_plan(Addition::of(edit.share()?))
            }
            Edit::SetOwner { path, owner } => self.change_plan(path, RowChange::Owner(*owner)),
            Edit::SetGroup { path, group } => self.change_plan(path, RowChange::Group(*group)),
            Edit::SetDacl { path, dacl } => {
                let dacl = dacl.copy(self.alloc)?;
                self.change_plan(path, RowChange::Dacl(dacl))
            }
            Edit::Remove { path } => Ok(self.removal_plan(path)),
            Edit::ProtectKeeping { path } => self.keeping_plan(path),
            Edit::Move { source, target } => self.moving_plan(source, target),
        }
    }
}
