//! TREE: the nodes of a tree of object types as an argument, `LEVEL:GUID` with commas between.
ghost use Rattle.std.specs.Prelude.{◌≡◌, ◌<◌, ◌^◌, IfOk, string_bytes};
ghost use Rattle.sd_commands.specs.Mapping.{between_commas};
ghost use Rattle.sd_commands.specs.Nodes.{Finds, HasNodes, level_in, level_text, node_place, nodes_after, nodes_in};
ghost use Rattle.sd_commands.specs.Nodes.{nodes_name, nodes_number, nodes_place, one_more, told_nodes, tree_in};
ghost use Rattle.sd_commands.specs.Nodes.{tree_place, type_text, with_node};
ghost use Rattle.sd_commands.specs.declared.nodes.NodesError.TheVariants.{Memory};

use crate::mapping::cut;
use sd_types::{TreeError, TreeFault, TreeFaultKind, TypeNode, TypeTree};
use sd_whole::Guid;
use sd_whole_parse::read_guid_text;
use std::alloc::{AllocError, AllocFailed, Global};

/// The nodes of a tree of object types, and the tree that they are.
#[derive(Drop)]
pub(crate) struct NodesAsked {
    pub(crate) nodes: Vec<TypeNode>,
    pub(crate) tree: TypeTree,
}

/// What is wrong with TREE.
#[derive(Clone, Copy)]
pub(crate) enum NodesFault {
    /// The text of the node at this place, counted from 0, doesn't begin with a level and a colon.
    NoLevel(usize),
    /// What follows there is no GUID.
    NoGuid(usize),
    /// The nodes are no tree.
    NoTree(TreeFault),
}

/// Why there are no nodes.
#[derive(Clone, Copy)]
pub(crate) enum NodesError {
    Fault(NodesFault),
    Memory,
}

impl From<AllocError> for NodesError {
    ghost from_gives = { λ _ e. e ≡ Memory };

    fn from(_error: AllocError) -> NodesError {
        NodesError::Memory
    }
}

impl<T: Drop> From<AllocFailed<T>> for NodesError {
    ghost from_gives = { λ _ e. e ≡ Memory };

    fn from(_error: AllocFailed<T>) -> NodesError {
        NodesError::Memory
    }
}

impl NodesFault {
    /// The number: those of trees of object types, and after them two of texts.
    pub(crate) fn number(self) -> u8
        ensures { result ≡ nodes_number self }
    {
        match self {
            NodesFault::NoTree(fault) => fault.kind.number(),
            NodesFault::NoLevel(_) => 6,
            NodesFault::NoGuid(_) => 7,
        }
    }

    pub(crate) fn name(self) -> &'static str
        ensures { result.now ≡ nodes_name self }
    {
        match self {
            NodesFault::NoTree(fault) => fault.kind.name(),
            NodesFault::NoLevel(_) => "NoLevel",
            NodesFault::NoGuid(_) => "NoGuid",
        }
    }
}

/// The nodes that the text is, and their tree ([MS-DTYP] 2.5.3.2, ObjectTypeList); or the first fault of it.
pub(crate) fn read_tree(alloc: Global, text: &str) -> Result<NodesAsked, NodesError>
    ensures { Finds HasNodes result (tree_in text.now) }
{
    let nodes = read_nodes(alloc, text)?;
    match TypeTree::new(alloc, &nodes) {
        Ok(tree) => Ok(NodesAsked { nodes, tree }),
        Err(TreeError::Fault(fault)) => Err(NodesError::Fault(NodesFault::NoTree(fault))),
        Err(TreeError::Memory) => Err(NodesError::Memory),
    }
}

/// The nodes that the text has between commas; none of an empty one.
fn read_nodes(alloc: Global, text: &str) -> Result<Vec<TypeNode>, NodesError>
    ensures { Finds (λ read nodes. read.items ≡ nodes) result (nodes_in text.now) }
{
    if text.is_empty() {
        return Ok(Vec::new(alloc));
    }
    nodes_after(Vec::new(alloc), text)
}

/// These nodes, and those that the text has between commas.
fn nodes_after(before: Vec<TypeNode>, text: &str) -> Result<Vec<TypeNode>, NodesError>
    ensures { Finds (λ read nodes. read.items ≡ nodes) result
        (nodes_after before.items (between_commas text.entry.now)) }
{
    match cut(text) {
        None => one_more(before, text),
        Some((first, rest)) => nodes_after(one_more(before, first)?, rest),
    }
}

/// These nodes, and the one that the text is.
fn one_more(before: Vec<TypeNode>, text: &str) -> Result<Vec<TypeNode>, NodesError>
    ensures { Finds (λ read nodes. read.items ≡ nodes) result (one_more before.items text.now) }
{
    let (level, guid) = halves(text);
    with_node(before, level_in(level), read_guid_text(guid))
}

/// These nodes, and one with this level and this type, if it has both.
fn with_node(
    before: Vec<TypeNode>,
    level: Option<usize>,
    guid: Option<Guid>,
) -> Result<Vec<TypeNode>, NodesError>
    ensures { Finds (λ read nodes. read.items ≡ nodes) result (with_node before.items level guid) }
{
    let place = before.len();
    let Some(level) = level else {
        return Err(NodesError::Fault(NodesFault::NoLevel(place)));
    };
    let Some(guid) = guid else {
        return Err(NodesError::Fault(NodesFault::NoGuid(place)));
    };
    let mut nodes = before;
    nodes.push(TypeNode { level, guid })?;
    Ok(nodes)
}

/// What is before the first colon of a text, or all of it, and what is after it.
fn halves(text: &str) -> (&str, &str)
    ensures level { result.0.now ≡ level_text text.now }
    ensures guid { result.1.now ≡ type_text text.now }
{
    match text.split_once(':') {
        Some(parts) => parts,
        None => (text, ""),
    }
}

/// The level that a decimal digit is.
fn level_in(text: &str) -> Option<usize>
    ensures { result ≡ level_in text.now }
{
    match text.as_bytes() {
        [digit] if digit.is_ascii_digit() => Some(usize::from(*digit - b'0')),
        _ => None,
    }
}

/// A fault by number and name, and which node has it.
pub(crate) fn nodes_reason(alloc: Global, fault: NodesFault) -> Result<String, AllocError>
    ensures { IfOk result (λ text. string_bytes text ≡ told_nodes fault) }
{
    let place = nodes_place(alloc, fault)?;
    let number = fault.number();
    let name = fault.name();
    let reason = format!(in alloc; "{number} {name}{place}")?;
    Ok(reason)
}

fn nodes_place(alloc: Global, fault: NodesFault) -> Result<String, AllocError>
    ensures { IfOk result (λ text. string_bytes text ≡ nodes_place fault) }
{
    match fault {
        NodesFault::NoLevel(place) | NodesFault::NoGuid(place) => node_place(alloc, place),
        NodesFault::NoTree(fault) => tree_place(alloc, fault),
    }
}

fn tree_place(alloc: Global, fault: TreeFault) -> Result<String, AllocError>
    ensures { IfOk result (λ text. string_bytes text ≡ tree_place fault) }
{
    match fault.kind {
        TreeFaultKind::NoClass => Ok(String::new(alloc)),
        _ => node_place(alloc, fault.place),
    }
}

/// Which node it is, counted from 1.
fn node_place(alloc: Global, place: usize) -> Result<String, AllocError>
    ensures { IfOk result (λ text. string_bytes text ≡ node_place place) }
{
    let number = place as u128 + 1;
    let text = format!(in alloc; " (node {number})")?;
    Ok(text)
}
