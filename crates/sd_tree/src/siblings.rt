//! Nodes that stand beside one, among which what it inherits may be found before it is built.

ghost use Rattle.std.specs.Prelude.{◌≡◌, ◌-◌, ◌<◌, ◌≤◌, length, slice_index_or, true, false, IfSome};
ghost use Rattle.sd_path.specs.Names.{is_root};
ghost use Rattle.sd_tree.specs.Sharing.{trustees_matter, IsSibling};
ghost use Rattle.sd_tree.specs.View.{IsView};
ghost use Rattle.sd_tree.specs.declared.node.Node.{Node};

use crate::node::{Node, RowRef};
use crate::nodes::locate;
use crate::sharing::{are_alike, inherits, trustees_matter};
use crate::tree_view::TreeView;
use sd_path::PathRef;

/// How many siblings are looked at, the nearest first. A container that holds nodes of both kinds and of several owners
/// has the next of each kind and owner near.
const NEAR: usize = 8;

impl TreeView<'_> {
    /// Whether the node at a place is a sibling of what stands, or would stand, at the path below that parent,
    /// and inherits what the row does; `true` only where it does.
    fn is_sibling(
        &self,
        path: &PathRef<'_>,
        row: &RowRef<'_>,
        above: &Node,
        by_trustees: bool,
        at: usize,
        node: &Node,
    ) -> bool
        requires place { at < length self.now.nodes.now }
        requires node { (n : Node) → node.now ≡ slice_index_or self.now.nodes.now at n }
        requires trustees { by_trustees ≡ false → trustees_matter above.now.whole ≡ false }
        ensures { result ≡ true → IsSibling self.now.nodes.now path.now row.now above.now.whole at }
    {
        let beside = node.path();
        if beside.is_root() || !are_alike(&node.row(), row, by_trustees) {
            return false;
        }
        beside.depth() == path.depth() && beside.is_within(&path.parent())
    }

    /// The sibling right before a place, and its own place, if there is one.
    fn sibling_before(&self, path: &PathRef<'_>, at: usize) -> Option<(usize, &Node)>
        requires standing { IsView self.now }
        requires place { at ≤ length self.now.nodes.now }
        ensures place { IfSome result (λ before. before.0 < length self.now.nodes.now) }
        ensures node { IfSome result
            (λ before. (n : Node) → before.1.now ≡ slice_index_or self.now.nodes.now before.0 n) }
    {
        let before = at.checked_sub(1)?;
        let node = self.node(before);
        let mut beside = node.path();
        if beside.depth() < path.depth() {
            return None;
        }
        if beside.depth() == path.depth() {
            return Some((before, node));
        }
        // It stands below the sibling.
        for _ in path.depth()..beside.depth() {
            beside = beside.parent();
        }
        match locate(self.nodes, &beside) {
            Ok(before) => Some((before, self.node(before))),
            Err(_) => None,
        }
    }

    /// A sibling before a place that inherits what the row does, and its own place, if one is found near.
    fn sibling_among(
        &self,
        path: &PathRef<'_>,
        row: &RowRef<'_>,
        above: &Node,
        by_trustees: bool,
        at: usize,
    ) -> Option<(usize, &Node)>
        requires standing { IsView self.now }
        requires place { at ≤ length self.now.nodes.now }
        requires trustees { by_trustees ≡ false → trustees_matter above.now.whole ≡ false }
        ensures sibling { IfSome result
            (λ beside. IsSibling self.now.nodes.now path.now row.now above.now.whole beside.0) }
        ensures node { IfSome result
            (λ beside. (n : Node) → beside.1.now ≡ slice_index_or self.now.nodes.now beside.0 n) }
    {
        let mut near = at;
        for _ in 0..NEAR {
            let Some((before, node)) = self.sibling_before(path, near) else {
                return None;
            };
            if self.is_sibling(path, row, above, by_trustees, before, node) {
                return Some((before, node));
            }
            near = before;
        }
        None
    }

    /// A sibling near the place that inherits what the row does, and its place: one with the row's owner and group
    /// first, and else any, where owner and group don't matter.
    pub(crate) fn sibling_with(
        &self,
        path: &PathRef<'_>,
        row: &RowRef<'_>,
        above: &Node,
        at: usize,
    ) -> Option<(usize, &Node)>
        requires standing { IsView self.now }
        requires place { at ≤ length self.now.nodes.now }
        ensures sibling { IfSome result
            (λ beside. IsSibling self.now.nodes.now path.now row.now above.now.whole beside.0) }
        ensures node { IfSome result
            (λ beside. (n : Node) → beside.1.now ≡ slice_index_or self.now.nodes.now beside.0 n) }
    {
        if !inherits(row.dacl) {
            return None;
        }
        if let Some(found) = self.sibling_among(path, row, above, true, at) {
            return Some(found);
        }
        if trustees_matter(above) {
            return None;
        }
        self.sibling_among(path, row, above, false, at)
    }

    /// A sibling near the place that inherits what the row does, and its place; `before`, the node right before the
    /// place, is tried first.
    pub(crate) fn sibling_behind<'b>(
        &'b self,
        path: &PathRef<'_>,
        row: &RowRef<'_>,
        above: &Node,
        at: usize,
        before: &'b Node,
    ) -> Option<(usize, &'b Node)>
        requires standing { IsView self.now }
        requires place { at ≤ length self.now.nodes.now }
        requires some { 0 < at }
        requires before { (n : Node) → before.now ≡ slice_index_or self.now.nodes.now (at - 1) n }
        ensures sibling { IfSome result
            (λ beside. IsSibling self.now.nodes.now path.now row.now above.now.whole beside.0) }
        ensures node { IfSome result
            (λ beside. (n : Node) → beside.1.now ≡ slice_index_or self.now.nodes.now beside.0 n) }
    {
        if self.is_sibling(path, row, above, true, at - 1, before) {
            return Some((at - 1, before));
        }
        self.sibling_with(path, row, above, at)
    }

    /// A sibling near the place that inherits what the row does, and its place. First the node at the place is tried:
    /// it stands at the path or comes right after it.
    pub(crate) fn sibling_around(
        &self,
        path: &PathRef<'_>,
        row: &RowRef<'_>,
        above: &Node,
        at: usize,
    ) -> Option<(usize, &Node)>
        requires standing { IsView self.now }
        requires place { at ≤ length self.now.nodes.now }
        ensures sibling { IfSome result
            (λ beside. IsSibling self.now.nodes.now path.now row.now above.now.whole beside.0) }
        ensures node { IfSome result
            (λ beside. (n : Node) → beside.1.now ≡ slice_index_or self.now.nodes.now beside.0 n) }
    {
        if at < self.nodes.len() {
            let node = self.node(at);
            if self.is_sibling(path, row, above, true, at, node) {
                return Some((at, node));
            }
        }
        self.sibling_with(path, row, above, at)
    }
}
