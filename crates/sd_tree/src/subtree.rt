//! A node with all that stand below it, once the node is another.

ghost use Rattle.std.specs.Prelude.{◌≡◌, ◌-◌, ◌≤◌, ◌<◌, length, slice_index_or, true, false, OnOk, IfOk, IfErr};
ghost use Rattle.std.specs.List.{HoldsAt, AllWithin};
ghost use Rattle.sd_path.specs.Names.{Names, is_within};
ghost use Rattle.sd_edit.specs.Inheritance.{dacl_of_row};
ghost use Rattle.sd_edit.specs.Plain.{PlainTree};
ghost use Rattle.sd_tree.specs.Plans.{AreUnder, IsLargeError, IsRunBelow, IsTaken};
ghost use Rattle.sd_edit.specs.Refusals.{dacl_size};
ghost use Rattle.sd_tree.specs.Sharing.{AreMadeFor};
ghost use Rattle.sd_tree.specs.Sizes.{IsSizeError};
ghost use Rattle.sd_tree.specs.Stored.{path_of_node};
ghost use Rattle.sd_tree.specs.View.{IsView, tree_in};
ghost use Rattle.sd_tree.specs.declared.node.Node.{Node};

use crate::inherit::inherited_below;
use crate::node::Node;
use crate::nodes::Walk;
use crate::sharing::have_one_dacl;
use crate::tree_view::TreeView;
use sd_blocks::{Sought, TryCopy};
use sd_edit::TreeError;
use sd_path::PathRef;
use std::cmp::Ordering;

impl TreeView<'_> {
    /// The node at a place and those below it, in their order, once the first of them is this one, wherever that is to
    /// stand: what they inherit follows from its whole DACL. Their paths stay.
    pub(crate) fn subtree(
        &self,
        path: &PathRef<'_>,
        at: usize,
        first: Node,
    ) -> Result<Vec<Node>, TreeError>
        requires standing { IsView self.now }
        requires within { at < length self.now.nodes.now }
        requires stands { HoldsAt (λ b. path_of_node b ≡ path.now) self.now.nodes.now at }
        requires first { first.path ≡ path.now }
        requires fits { dacl_size first.whole ≤ 65535 }
        ensures run { IfOk result (λ run. IsRunBelow self.now.nodes.now path.now at (length run.items)) }
        ensures nodes { IfOk result (λ run. AreUnder self.now.mapping.now self.now.nodes.now path.now at first
            run.items) }
        ensures refused { IfErr result (λ e. (after : PlainTree) (target : Names)
            → IsTaken self.now.mapping.now (tree_in self.now) after path.now target first
            → IsLargeError self.now.mapping.now after e) }
    {
        let end = self.end_below(path, at);
        let mut run = Vec::with_capacity(self.alloc, end - at)?;
        let old = self.node(at);
        // What stands below sees of all above it the node's whole DACL alone: where that stays, as it mostly does when
        // a node is renamed, theirs stay too.
        let stays = have_one_dacl(&first, old);
        run.push(first)?;
        let mut walk = Walk::new(self.nodes);
        let mut last = (at, old);
        let mut before = old;
        for k in at + 1..end {
            let node = walk.node(k);
            // Mostly the parent of the node before, or that node.
            let parent = self.node_near(&node.path().parent(), last, k - 1);
            last = parent;
            let above = &run[parent.0 - at];
            let next = self.node_in_run((at, k), before, node, above, stays, &run)?;
            run.push(next)?;
            before = node;
        }
        Ok(run)
    }

    /// The node at the second place, of a run that begins at the first, below that parent. The node right before it is
    /// at hand. What it inherits is that of a near sibling whose list is made already, where it is the same, or its own
    /// where that stays.
    fn node_in_run(
        &self,
        places: (usize, usize),
        before: &Node,
        node: &Node,
        above: &Node,
        stays: bool,
        made: &[Node],
    ) -> Result<Node, TreeError>
        requires standing { IsView self.now }
        requires place { places.1 ≤ length self.now.nodes.now }
        requires some { 0 < places.1 }
        requires before { (n : Node) → before.now ≡ slice_index_or self.now.nodes.now (places.1 - 1) n }
        requires stays { stays ≡ true
            → node.now.whole ≡ dacl_of_row self.now.mapping.now node.now.row above.now.whole }
        requires fits { dacl_size node.now.whole ≤ 65535 }
        requires made { AreMadeFor self.now.mapping.now self.now.nodes.now node.now.path node.now.row above.now.whole
            places.0 made.now }
        ensures node { IfOk result (λ next. next ≡ record node.now
            { whole = dacl_of_row self.now.mapping.now node.now.row above.now.whole }) }
        ensures fits { IfOk result (λ next. dacl_size next.whole ≤ 65535) }
        ensures refused { IfErr result (λ e. IsSizeError e
            (dacl_of_row self.now.mapping.now node.now.row above.now.whole)) }
    {
        if stays {
            return Ok(node.try_copy()?);
        }
        let (at, k) = places;
        if let Some(beside) = self.sibling_behind(&node.path(), &node.row(), above, k, before) {
            if at < beside.0 && beside.0 - at < made.len() {
                return node.inheriting(made[beside.0 - at].inherited().share()?);
            }
        }
        let above = above.parts();
        node.inheriting(inherited_below(self.alloc, self.mapping, &node.row(), above)?)
    }

    /// The end of the run of nodes that begins at a place and holds all that stands at or below its path.
    pub(crate) fn end_below(&self, path: &PathRef<'_>, at: usize) -> usize
        requires standing { IsView self.now }
        requires within { at < length self.now.nodes.now }
        requires stands { HoldsAt (λ b. path_of_node b ≡ path.now) self.now.nodes.now at }
        ensures place { (at < result) × (result ≤ length self.now.nodes.now) }
        ensures below { AllWithin (λ b. is_within path.now (path_of_node b) ≡ true) self.now.nodes.now at result }
        ensures beyond { AllWithin (λ b. is_within path.now (path_of_node b) ≡ false) self.now.nodes.now result
            (length self.now.nodes.now) }
    {
        match self.nodes.search(&End { path }) {
            Ok(_) => unreachable!(),
            Err(end) => end,
        }
    }
}

/// The end of all that stand at or below a path, sought among nodes.
#[derive(Drop)]
struct End<'a> {
    path: &'a PathRef<'a>,
}

impl Sought<Node> for End<'_> {
    ghost use Rattle.sd_tree.specs.Stored.{end_cmp};

    ghost ord = { λ e n. end_cmp e.path.now n.path };

    fn compare(&self, node: &Node) -> Ordering {
        let path = node.path();
        if path.is_within(self.path) {
            return Ordering::Less;
        }
        path.compare(self.path)
    }
}
