//! The plan of a move: a node goes elsewhere with all below it.

ghost use Rattle.std.specs.Prelude.{◌≡◌, ◌≤◌, false, true, length, map, All, OnOk, IfOk, IfErr};
ghost use Rattle.sd_path.specs.Names.{is_within, moved_path};
ghost use Rattle.sd_edit.specs.Closed.{IsMovable};
ghost use Rattle.sd_edit.specs.Edits.{moved};
ghost use Rattle.sd_tree.specs.Plans.{IsPlan, IsLateError, IsDepthError, relocated};
ghost use Rattle.sd_edit.specs.Refusals.{moves_too_deep};
ghost use Rattle.sd_tree.specs.View.{IsView, tree_in};
ghost use Rattle.sd_edit.specs.declared.edit.Edit.TheVariants.{Move};
ghost use Rattle.sd_tree.specs.declared.node.Node.{Node};

use crate::judging::MAX_DEPTH;
use crate::node::Node;
use crate::nodes::locate;
use crate::plan::Plan;
use crate::tree_view::TreeView;
use sd_edit::{EditRefusal, TreeError};
use sd_path::{Path, PathRef};
use std::alloc::Global;

impl TreeView<'_> {
    /// The plan for a node that goes to a free path with all below it.
    pub(crate) fn moving_plan(&self, source: &Path, target: &Path) -> Result<Plan, TreeError>
        requires standing { IsView self.now }
        requires movable { IsMovable (tree_in self.now) source.now target.now }
        ensures plan { IfOk result (IsPlan self.now.mapping.now (tree_in self.now)
            (moved (tree_in self.now) source.now target.now)) }
        ensures shallow { OnOk result (moves_too_deep (tree_in self.now) (Move source.now target.now) ≡ false) }
        ensures refused { IfErr result
            (IsLateError self.now.mapping.now (tree_in self.now) (Move source.now target.now)) }
    {
        let (source, target) = (source.as_path_ref(), target.as_path_ref());
        let from = self.place_of(&source);
        match locate(self.nodes, &target) {
            Ok(_) => unreachable!(),
            Err(at) => {
                let node = self.node(from);
                let inherited = self.inherited_at(&target, at, &node.row())?;
                let first = node.inheriting(inherited)?;
                let nodes = self.subtree(&source, from, first)?;
                let run = relocated(self.alloc, &nodes, &source, &target)?;
                let to = if at <= from { at } else { at - run.len() };
                Ok(Plan::Exchange { from, to, run })
            }
        }
    }
}

/// The nodes, once the source has come to the target.
fn relocated(
    alloc: Global,
    nodes: &[Node],
    source: &PathRef<'_>,
    target: &PathRef<'_>,
) -> Result<Vec<Node>, TreeError>
    requires { All (λ n. is_within source.now n.path ≡ true) nodes.now }
    ensures run { IfOk result (λ run. run.items ≡ map (relocated source.now target.now) nodes.now) }
    ensures shallow { IfOk result (λ run. All (λ n. length n.path ≤ 64) run.items) }
    ensures refused { IfErr result (IsDepthError source.now target.now nodes.now) }
{
    let mut run = Vec::with_capacity(alloc, nodes.len())?;
    for node in nodes {
        let below = node.path().depth() - source.depth();
        if target.depth().saturating_add(below) > MAX_DEPTH {
            return Err(TreeError::Refused(EditRefusal::TooDeep));
        }
        let path = node.stored_path().moved(alloc, source, target)?;
        let next = node.at(alloc, path)?;
        run.push(next)?;
    }
    Ok(run)
}
