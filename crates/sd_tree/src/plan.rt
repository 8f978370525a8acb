//! What an accepted edit does to the nodes of a tree: worked out first, then carried out.

ghost use Rattle.std.specs.Prelude.{◌≡◌, ◌<◌, length, OnOk, OnErr};
ghost use Rattle.std.specs.List.{remove};
ghost use Rattle.sd_tree.specs.Plans.{CanCarryOut, carried};

use crate::node::Node;
use sd_blocks::Blocks;
use std::alloc::{AllocError, Global};

/// What an accepted edit does to the nodes.
#[derive(Debug, Drop)]
pub(crate) enum Plan {
    /// The node goes to the place.
    Insert {
        at: usize,
        node: Node,
    },
    /// The node at the place is another.
    Set {
        at: usize,
        node: Node,
    },
    /// The node at the place goes.
    Remove {
        at: usize,
    },
    /// As many nodes from `from` on as the run has are removed, and the run is inserted at `to`, counted without them.
    Exchange {
        from: usize,
        to: usize,
        run: Vec<Node>,
    },
}

/// The plan, carried out. It fails only when memory is out, and then the nodes are as they were.
pub(crate) fn carry_out(
    alloc: Global,
    nodes: &mut Blocks<Node>,
    plan: Plan,
) -> Result<(), AllocError>
    requires { CanCarryOut (length nodes.old) plan }
    ensures done { OnOk result (nodes.new ≡ carried plan nodes.old) }
    ensures refused { OnErr result (nodes.new ≡ nodes.old) }
{
    match plan {
        Plan::Insert { at, node } => nodes.insert(alloc, at, node),
        Plan::Set { at, node } => nodes.set(alloc, at, node),
        Plan::Remove { at } => remove(alloc, nodes, at),
        Plan::Exchange { from, to, run } => nodes.exchange_run(alloc, from, to, run),
    }
}

/// The node at the place goes.
fn remove(alloc: Global, nodes: &mut Blocks<Node>, at: usize) -> Result<(), AllocError>
    requires { at < length nodes.old }
    ensures done { OnOk result (nodes.new ≡ remove nodes.old at) }
    ensures refused { OnErr result (nodes.new ≡ nodes.old) }
{
    let _gone = nodes.remove(alloc, at)?;
    Ok(())
}
