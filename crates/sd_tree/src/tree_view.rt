//! The nodes of a tree as they stand, for working out an edit.

ghost use Rattle.std.specs.Prelude.{◌≡◌, ◌≤◌, ◌<◌, length, slice_index_or, true, false, IfOk, IsSome};
ghost use Rattle.std.specs.List.{HoldsAt};
ghost use Rattle.std.specs.FinMap.{insert};
ghost use Rattle.sd_path.specs.Names.{is_root, up};
ghost use Rattle.sd_edit.specs.Plain.{row_at, dacl_at};
ghost use Rattle.sd_tree.specs.Stored.{path_of_node};
ghost use Rattle.sd_tree.specs.View.{IsView, tree_in};
ghost use Rattle.sd_tree.specs.Node.{whole_with};
ghost use Rattle.sd_tree.specs.declared.node.Node.{Node};

use crate::inherit::inherited_below;
use crate::node::{Node, RowRef};
use crate::nodes::{locate, node_in};
use crate::shared::Shared;
use sd_blocks::Blocks;
use sd_edit::Entries;
use sd_path::PathRef;
use sd_sid::GenericMapping;
use std::alloc::{AllocError, Global};
use std::cmp::Ordering;

/// The nodes of a tree as they stand.
#[derive(Clone, Copy)]
pub(crate) struct TreeView<'a> {
    pub alloc: Global,
    pub mapping: &'a GenericMapping,
    pub nodes: &'a Blocks<Node>,
}

impl<'a> TreeView<'a> {
    /// The node at a place.
    pub(crate) fn node(&self, at: usize) -> &'a Node
        requires { at < length self.now.nodes.now }
        ensures { (n : Node) → result.now ≡ slice_index_or self.now.nodes.now at n }
    {
        node_in(self.nodes, at)
    }

    /// The place of a node that is there.
    pub(crate) fn place_of(&self, path: &PathRef<'_>) -> usize
        requires standing { IsView self.now }
        requires there { IsSome (row_at (tree_in self.now) path.now) }
        ensures within { result < length self.now.nodes.now }
        ensures stands { HoldsAt (λ b. path_of_node b ≡ path.now) self.now.nodes.now result }
    {
        match locate(self.nodes, path) {
            Ok(at) => at,
            Err(_) => unreachable!(),
        }
    }

    /// Whether the node of a path stands at a place; `true` only where it does.
    fn stands_at(&self, path: &PathRef<'_>, at: usize) -> bool
        ensures { result ≡ true → (at < length self.now.nodes.now)
            × HoldsAt (λ b. path_of_node b ≡ path.now) self.now.nodes.now at }
    {
        if at >= self.nodes.len() {
            return false;
        }
        self.node(at).path().compare(path) == Ordering::Equal
    }

    /// The node of a path that is there, and its place: this one, or it is looked for at another place first.
    pub(crate) fn node_near(
        &self,
        path: &PathRef<'_>,
        near: (usize, &'a Node),
        other: usize,
    ) -> (usize, &'a Node)
        requires standing { IsView self.now }
        requires there { IsSome (row_at (tree_in self.now) path.now) }
        requires within { near.0 < length self.now.nodes.now }
        requires node { (n : Node) → near.1.now ≡ slice_index_or self.now.nodes.now near.0 n }
        ensures within { result.0 < length self.now.nodes.now }
        ensures stands { HoldsAt (λ b. path_of_node b ≡ path.now) self.now.nodes.now result.0 }
        ensures node { (n : Node) → result.1.now ≡ slice_index_or self.now.nodes.now result.0 n }
    {
        if near.1.path().compare(path) == Ordering::Equal {
            return near;
        }
        let at = self.place_near(path, other);
        (at, self.node(at))
    }

    /// The place of a node that is there, looked for at one place first.
    fn place_near(&self, path: &PathRef<'_>, first: usize) -> usize
        requires standing { IsView self.now }
        requires there { IsSome (row_at (tree_in self.now) path.now) }
        ensures within { result < length self.now.nodes.now }
        ensures stands { HoldsAt (λ b. path_of_node b ≡ path.now) self.now.nodes.now result }
    {
        if self.stands_at(path, first) {
            return first;
        }
        self.place_of(path)
    }

    /// What the node of a path would inherit with this row; the path stands, or would stand, at the place. It is shared
    /// with the node at the place or a near sibling, where that inherits the same.
    pub(crate) fn inherited_at(
        &self,
        path: &PathRef<'_>,
        at: usize,
        row: &RowRef<'_>,
    ) -> Result<Shared<Entries>, AllocError>
        requires standing { IsView self.now }
        requires place { at ≤ length self.now.nodes.now }
        requires parent { is_root path.now ≡ false → IsSome (row_at (tree_in self.now) (up path.now)) }
        ensures { IfOk result (λ inherited. whole_with row.now inherited ≡ dacl_at self.now.mapping.now
            (insert (tree_in self.now) path.now row.now) path.now) }
    {
        if path.is_root() {
            return inherited_below(self.alloc, self.mapping, row, None);
        }
        let above = self.node(self.place_of(&path.parent()));
        if let Some(beside) = self.sibling_around(path, row, above, at) {
            return beside.1.inherited().share();
        }
        inherited_below(self.alloc, self.mapping, row, above.parts())
    }
}
