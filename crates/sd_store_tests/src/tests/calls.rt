//! Public calls that nothing else makes, once each.

use super::*;
use sd_sid::{GenericMapping, Sid};
use sd_text::{Domain, alias_of};
use sd_tree::{Name, NodeKind, Tree};
use std::process::Abort;

/// S-1-5-21-7-8-9 as a domain, and its account 500.
fn domain_and_account() -> Option<(Domain, Sid, Sid)> {
    let sid = Sid::new(5, &[21, 7, 8, 9]).ok()?;
    let account = Sid::new(5, &[21, 7, 8, 9, 500]).ok()?;
    Some((Domain::new(&sid)?, sid, account))
}

#[test]
fn a_domain_has_its_sid(rt: HostRuntime) {
    let (domain, sid, account) = domain_and_account().expect(&rt, "a domain");
    assert_eq!(rt; domain.sid(), sid);
    assert_eq!(rt; domain.account(500), account);
    assert_eq!(rt; alias_of(&account), None);
}

/// Adds a container.
fn add(alloc: Global, tree: &mut Tree, path: &str) -> Option<()> {
    let edit = edit(alloc, Change::Container, path, "O:BAG:SYD:")?;
    tree.apply(&edit).ok()
}

/// Removes the node of a path.
fn remove(alloc: Global, tree: &mut Tree, path: &str) -> Option<()> {
    let path = Path::read(alloc, path).ok()?;
    tree.apply(&Edit::Remove { path }).ok()
}

/// A tree in which `/a` was removed.
fn tree(alloc: Global) -> Option<Tree> {
    let root = spec(alloc, "O:BAG:SYD:")?;
    let mut tree = Tree::opening(alloc, &GenericMapping::file(), &root).ok()?;
    for path in ["/a", "/b", "/b/c"] {
        add(alloc, &mut tree, path)?;
    }
    remove(alloc, &mut tree, "/a")?;
    Some(tree)
}

/// The path of the child `c` of `/b`, by its name.
fn child(alloc: Global) -> Option<Path> {
    let name = Name::read("c").ok()?;
    Path::read(alloc, "/b").ok()?.child(alloc, &name).ok()
}

#[test]
fn a_child_is_found_by_its_name(rt: HostRuntime) {
    let tree = tree(rt.alloc()).expect(&rt, "memory");
    let child = child(rt.alloc()).expect(&rt, "memory");
    assert_eq!(rt; (tree.len(), tree.node_count()), (4, 3));
    assert_eq!(rt; tree.lookup(&child), Some(NodeKind::Container));
}
