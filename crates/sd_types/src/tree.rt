//! A tree of object types, from a list of its nodes.

ghost use Rattle.std.specs.Prelude.{◌≡◌, [], map, nat_lt};
ghost use Rattle.std.specs.List.{list_any};
ghost use Rattle.sd_types.specs.Tree.{GivesTree, deepest_after, fault_after, is_below, is_leaf, is_under, kind_name};
ghost use Rattle.sd_types.specs.Tree.{kind_number, node_fault, same_guid, tree_fault};
ghost use Rattle.sd_types.specs.declared.tree.TreeError.TheVariants as errors;
ghost use Rattle.sd_types.specs.declared.tree.TypeNode.{TypeNode};

use sd_whole::Guid;
use std::alloc::{AllocError, AllocFailed, Global};

/// The deepest level: those of a question's list are 0 to 4 ([MS-DTYP] 2.5.3.2, ObjectTypeList).
pub const MAX_LEVEL: usize = 4;

/// A node of a tree of object types, as a list of them has it ([MS-DTYP] 2.5.3.2, ObjectTypeList).
#[derive(Clone, Copy, Debug, PartialEq, Eq)]
pub struct TypeNode {
    /// How many nodes are above it: 0 of the class.
    pub level: usize,
    pub guid: Guid,
}

/// Why a node can't stand in a list where it does.
#[derive(Clone, Copy, Debug, PartialEq, Eq)]
pub enum TreeFaultKind {
    /// The list has no node. A tree has at least its class, of level 0.
    NoClass,
    /// The level is deeper than one below the node before. The first node has level 0.
    LevelLeftOut,
    /// The level is 0, which the first node alone has.
    SecondClass,
    /// The level is deeper than 4.
    TooDeep,
    /// The type is that of a node before, so that entries for it would have two nodes.
    Repeated,
}

impl TreeFaultKind {
    /// The number, by which programs name it.
    pub fn number(self) -> u8
        ensures { result ≡ kind_number self }
    {
        match self {
            TreeFaultKind::NoClass => 1,
            TreeFaultKind::LevelLeftOut => 2,
            TreeFaultKind::SecondClass => 3,
            TreeFaultKind::TooDeep => 4,
            TreeFaultKind::Repeated => 5,
        }
    }

    /// The name, by which programs print it.
    pub fn name(self) -> &'static str
        ensures { result.now ≡ kind_name self }
    {
        match self {
            TreeFaultKind::NoClass => "NoClass",
            TreeFaultKind::LevelLeftOut => "LevelLeftOut",
            TreeFaultKind::SecondClass => "SecondClass",
            TreeFaultKind::TooDeep => "TooDeep",
            TreeFaultKind::Repeated => "Repeated",
        }
    }
}

/// The first node of a list that can't stand there.
#[derive(Clone, Copy, Debug, PartialEq, Eq)]
pub struct TreeFault {
    /// How many nodes are before it.
    pub place: usize,
    pub kind: TreeFaultKind,
}

/// Why there is no tree.
#[derive(Clone, Copy, Debug, PartialEq, Eq)]
pub enum TreeError {
    /// The list isn't one.
    Fault(TreeFault),
    /// Memory was refused.
    Memory,
}

impl From<AllocError> for TreeError {
    ghost from_gives = { λ _ e. e ≡ errors.Memory };

    fn from(_error: AllocError) -> TreeError {
        TreeError::Memory
    }
}

impl<T: Drop> From<AllocFailed<T>> for TreeError {
    ghost from_gives = { λ _ e. e ≡ errors.Memory };

    fn from(_error: AllocFailed<T>) -> TreeError {
        TreeError::Memory
    }
}

/// A tree of object types: of each node the chain of types from the class to its own.
#[derive(Drop)]
pub struct TypeTree {
    pub(crate) chains: Vec<Vec<Guid>>,
}

impl TypeTree {
    /// The tree of the nodes, each behind the one above it ([MS-DTYP] 2.5.3.2, ObjectTypeList); or the first node that
    /// can't stand where it does. There is an allocation for the list of nodes, and one or more for each; the time
    /// grows as the square of their number.
    pub fn new(alloc: Global, nodes: &[TypeNode]) -> Result<TypeTree, TreeError>
        ensures { GivesTree result nodes.now }
    {
        if let Some(fault) = tree_fault(nodes) {
            return Err(TreeError::Fault(fault));
        }
        let mut chain = Vec::new(alloc);
        let mut chains = Vec::new(alloc);
        for node in nodes {
            chain.truncate(node.level);
            chain.push(node.guid)?;
            chains.push(Vec::from_slice(alloc, &chain)?)?;
        }
        Ok(TypeTree { chains })
    }
}

/// Why the list is no tree.
fn tree_fault(nodes: &[TypeNode]) -> Option<TreeFault>
    ensures { result ≡ tree_fault nodes.now }
{
    if nodes.is_empty() {
        return Some(TreeFault {
            place: 0,
            kind: TreeFaultKind::NoClass,
        });
    }
    first_fault(nodes)
}

/// The first node that can't stand behind those before it.
fn first_fault(nodes: &[TypeNode]) -> Option<TreeFault>
    ensures { result ≡ fault_after [] nodes.now }
{
    for place in 0..nodes.len() {
        if let Some(kind) = node_fault(&nodes[..place], &nodes[place]) {
            return Some(TreeFault { place, kind });
        }
    }
    None
}

/// Why a node can't stand behind these.
fn node_fault(before: &[TypeNode], node: &TypeNode) -> Option<TreeFaultKind>
    ensures { result ≡ node_fault before.now node.now }
{
    if leaves_level_out(before, node.level) {
        Some(TreeFaultKind::LevelLeftOut)
    } else if node.level == 0 && !before.is_empty() {
        Some(TreeFaultKind::SecondClass)
    } else if node.level > MAX_LEVEL {
        Some(TreeFaultKind::TooDeep)
    } else if has_type(before, &node.guid) {
        Some(TreeFaultKind::Repeated)
    } else {
        None
    }
}

/// Whether a level is deeper than one below the last of these.
fn leaves_level_out(before: &[TypeNode], level: usize) -> bool
    ensures { result ≡ nat_lt (deepest_after before.now) level }
{
    match before.last() {
        Some(last) => level.saturating_sub(last.level) > 1,
        None => level > 0,
    }
}

fn has_type(nodes: &[TypeNode], guid: &Guid) -> bool
    ensures { result ≡ list_any (λ (other : TypeNode). same_guid other.guid guid.now) nodes.now }
{
    nodes.iter().any(|other| same_guid(&other.guid, guid))
}

fn same_guid(one: &Guid, other: &Guid) -> bool
    ensures { result ≡ same_guid one.now other.now }
{
    one.as_slice() == other.as_slice()
}

/// Whether the node of the second chain is that of the first or below it.
pub(crate) fn is_under(top: &[Guid], chain: &[Guid]) -> bool
    ensures { result ≡ is_under top.now chain.now }
{
    chain.starts_with(top)
}

/// Whether it is below it.
fn is_below(top: &[Guid], chain: &[Guid]) -> bool
    ensures { result ≡ is_below top.now chain.now }
{
    top.len() < chain.len() && is_under(top, chain)
}

/// Whether no node is below that of the chain.
pub(crate) fn is_leaf(chains: &[Vec<Guid>], chain: &[Guid]) -> bool
    ensures { result ≡ is_leaf (map (λ other. other.items) chains.now) chain.now }
{
    !has_below(chains, chain)
}

/// Whether one is.
fn has_below(chains: &[Vec<Guid>], chain: &[Guid]) -> bool
    ensures { result ≡ list_any (λ other. is_below chain.now other.items) chains.now }
{
    chains.iter().any(|other| is_below(chain, other))
}
