//! The descriptor of a node ([MS-DTYP] 2.4.6).

ghost use Rattle.std.specs.Prelude.{◌≡◌, ◌≤◌, IfOk};
ghost use Rattle.sd_acl.specs.Ace.{acl_size_of};
ghost use Rattle.sd_acl.specs.Descriptor.{descriptor_of};
ghost use Rattle.sd_edit.specs.Descriptors.{is_protected, descriptor_of_row, own_descriptor_of_row, own_list};
ghost use Rattle.sd_edit.specs.Refusals.{own_entries};

use crate::node::{Node, RowRef};
use sd_acl::{Ace, AceList, Dacl, Descriptor};
use sd_edit::NodeDacl;
use std::alloc::{AllocError, Global};

/// The descriptor of a node. Control bit DI says that a list was inherited automatically ([MS-DTYP] 2.4.6).
pub(crate) fn descriptor_of_node(alloc: Global, node: &Node) -> Result<Descriptor, AllocError>
    ensures { IfOk result (λ descriptor. descriptor_of descriptor ≡ descriptor_of_row node.now.row node.now.whole) }
{
    let row = node.row();
    let (dacl, protected, auto_inherited) = match node.whole(alloc)? {
        None => (Dacl::Null, false, false),
        Some(entries) => (Dacl::List(list_of(entries)), is_protected(row.dacl), true),
    };
    Ok(Descriptor {
        owner: Some(*row.owner),
        group: Some(*row.group),
        dacl,
        protected,
        auto_req: false,
        auto_inherited,
    })
}

/// Entries that fit a list.
fn list_of(entries: Vec<Ace>) -> AceList
    requires { acl_size_of entries.items ≤ 65535 }
    ensures { result ≡ entries.items }
{
    match AceList::new(entries) {
        Ok(list) => list,
        Err(_) => unreachable!(),
    }
}

/// The descriptor that was given to a node: without what it inherits.
pub(crate) fn own_descriptor_of_row(
    alloc: Global,
    row: &RowRef<'_>,
) -> Result<Descriptor, AllocError>
    requires { acl_size_of (own_entries row.now.dacl) ≤ 65535 }
    ensures { IfOk result (λ descriptor. descriptor_of descriptor ≡ own_descriptor_of_row row.now) }
{
    Ok(Descriptor {
        owner: Some(*row.owner),
        group: Some(*row.group),
        dacl: own_list(alloc, row.dacl)?,
        protected: is_protected(row.dacl),
        auto_req: false,
        auto_inherited: false,
    })
}

fn own_list(alloc: Global, dacl: &NodeDacl) -> Result<Dacl, AllocError>
    requires { acl_size_of (own_entries dacl.now) ≤ 65535 }
    ensures { IfOk result (λ list. list ≡ own_list dacl.now) }
{
    match dacl {
        NodeDacl::Null => Ok(Dacl::Null),
        NodeDacl::List { entries, .. } | NodeDacl::Stored { entries, .. } => {
            let entries = Vec::from_slice(alloc, entries.as_slice())?;
            Ok(Dacl::List(list_of(entries)))
        }
    }
}

/// Control bit PD.
fn is_protected(dacl: &NodeDacl) -> bool
    ensures { result ≡ is_protected dacl.now }
{
    matches!(
        dacl,
        NodeDacl::List {
            protected: true,
            ..
        }
    )
}
