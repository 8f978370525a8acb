//! Whether two nodes below one parent inherit the same ([MS-DTYP] 2.5.3.4).

ghost use Rattle.std.specs.Prelude.{◌≡◌, true, false};
ghost use Rattle.std.specs.List.{list_any};
ghost use Rattle.sd_tree.specs.Sharing.{names_creator, trustees_matter, AreAlike};
ghost use Rattle.sd_tree.specs.Node.{inherits};

use crate::node::{Node, RowRef};
use sd_acl::{Ace, same_entries};
use sd_edit::NodeDacl;
use sd_inheritance::{is_creator_group, is_creator_owner};

/// Whether a node with this DACL inherits what is handed on to it: it is neither null nor protected, nor was it stored.
pub(crate) fn inherits(dacl: &NodeDacl) -> bool
    ensures { result ≡ inherits dacl.now }
{
    match dacl {
        NodeDacl::Null | NodeDacl::Stored { .. } => false,
        NodeDacl::List { protected, .. } => !*protected,
    }
}

/// Whether some entry is for CREATOR OWNER or CREATOR GROUP.
fn names_creator(entries: &[Ace]) -> bool
    ensures { result ≡ list_any names_creator entries.now }
{
    entries.iter().any(|entry| is_creator_owner(&entry.sid) || is_creator_group(&entry.sid))
}

/// Whether a parent's DACL has such an entry: then a child's owner and group tell in what it inherits.
pub(crate) fn trustees_matter(above: &Node) -> bool
    ensures { result ≡ trustees_matter above.now.whole }
{
    match above.parts() {
        None => false,
        Some((own, inherited)) => names_creator(own) || names_creator(inherited),
    }
}

/// Whether both rows inherit, and nothing tells them apart in what they do; `true` only where nothing does. Owner and
/// group are compared where the caller says so.
pub(crate) fn are_alike(one: &RowRef<'_>, other: &RowRef<'_>, by_trustees: bool) -> bool
    ensures { result ≡ true → AreAlike one.now other.now by_trustees }
{
    if one.kind != other.kind || !inherits(one.dacl) || !inherits(other.dacl) {
        return false;
    }
    !by_trustees || (one.owner.is(other.owner) && one.group.is(other.group))
}

/// Whether both nodes have one DACL, entry by entry, own ones and inherited ones; `true` only where they have.
pub(crate) fn have_one_dacl(one: &Node, other: &Node) -> bool
    ensures { result ≡ true → one.now.whole ≡ other.now.whole }
{
    match (one.parts(), other.parts()) {
        (None, None) => true,
        (Some(one), Some(other)) => { same_entries(one.0, other.0) && same_entries(one.1, other.1) }
        _ => false,
    }
}
