//! The nodes of a tree in the order of their paths.

ghost use Rattle.std.specs.Prelude.{◌≡◌, ◌-◌, ◌<◌, ◌≤◌, length, slice_index_or, IfOk, IfErr};
ghost use Rattle.std.specs.List.{HoldsAt, AllWithin};
ghost use Rattle.std.specs.Option.{option_copied};
ghost use Rattle.std.specs.declared.cmp.Ordering.TheVariants.{Less, Greater};
ghost use Rattle.sd_path.specs.Names.{names_cmp};
ghost use Rattle.sd_tree.specs.Stored.{path_of_node, IsInOrder, IsFound};
ghost use Rattle.sd_tree.specs.declared.node.Node.{Node};

use crate::node::Node;
use sd_blocks::{Blocks, Sought};
use sd_path::PathRef;
use std::cmp::Ordering;
use std::marker::Model;

/// A path that is sought among nodes.
#[derive(Drop)]
struct Place<'a> {
    path: &'a PathRef<'a>,
}

impl Sought<Node> for Place<'_> {
    ghost use Rattle.sd_path.specs.Names.{names_cmp};

    ghost ord = { λ place n. names_cmp n.path place.path.now };

    fn compare(&self, node: &Node) -> Ordering {
        node.path().compare(self.path)
    }
}

/// Where the node of a path stands, or where it would.
pub(crate) fn locate(nodes: &Blocks<Node>, path: &PathRef<'_>) -> Result<usize, usize>
    requires { IsInOrder nodes.now }
    ensures found { IfOk result (λ at. (at < length nodes.now) × HoldsAt
        (λ n. path_of_node n ≡ path.now) nodes.now at) }
    ensures absent { IfErr result (λ at. (at ≤ length nodes.now) × AllWithin
        (λ n. names_cmp (path_of_node n) path.now ≡ Less) nodes.now 0 at × AllWithin
        (λ n. names_cmp (path_of_node n) path.now ≡ Greater) nodes.now at (length nodes.now)) }
{
    let place = Place { path };
    nodes.search(&place)
}

/// The node of a path.
pub(crate) fn node_at<'a>(nodes: &'a Blocks<Node>, path: &PathRef<'_>) -> Option<&'a Node>
    requires { IsInOrder nodes.now }
    ensures { IsFound nodes.now path.now (option_copied result) }
{
    match locate(nodes, path) {
        Ok(at) => Some(node_in(nodes, at)),
        Err(_) => None,
    }
}

/// The node at a place.
pub(crate) fn node_in(nodes: &Blocks<Node>, at: usize) -> &Node
    requires { at < length nodes.now }
    ensures { (n : Node) → result.now ≡ slice_index_or nodes.now at n }
{
    match nodes.get(at) {
        Some(node) => node,
        None => unreachable!(),
    }
}

/// Nodes that are read in their order: the next one mostly stands in the block of the one before, and needs no search.
/// Contracts see all the nodes.
#[derive(Drop)]
pub(crate) struct Walk<'a> {
    nodes: &'a Blocks<Node>,
    start: usize,
    block: &'a [Node],
}

impl<'a> Model for Walk<'a> {
    ghost use Rattle.std.specs.Prelude.{◌≡◌, List, length, take, drop};
    ghost use Rattle.sd_tree.specs.declared.node.Node.{Node};

    ghost Value = { List Node };

    ghost view = { λ w. w.nodes.now };

    ghost invariant = { λ w. w.block.now ≡ take (length w.block.now) (drop w.start w.nodes.now) };
}

impl<'a> Walk<'a> {
    /// Before the first node is read.
    pub(crate) fn new(nodes: &'a Blocks<Node>) -> Walk<'a>
        ensures { result ≡ nodes.now }
    {
        Walk {
            nodes,
            start: 0,
            block: &[],
        }
    }

    /// The node at a place.
    pub(crate) fn node(&mut self, at: usize) -> &'a Node
        requires { at < length self.old }
        ensures same { self.new ≡ self.old }
        ensures node { (n : Node) → result.now ≡ slice_index_or self.old at n }
    {
        if at < self.start || at - self.start >= self.block.len() {
            self.block = self.nodes.run_from(at);
            self.start = at;
        }
        &self.block[at - self.start]
    }
}
