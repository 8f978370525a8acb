//! The nodes of a tree, one after the other.

ghost use Rattle.std.specs.Prelude.{◌≡◌, IfErr, IfOk, IsSome, option_map, slice_get};
ghost use Rattle.std.specs.FinMap.{entries, len};
ghost use Rattle.sd_edit.specs.Answers.{given_at};
ghost use Rattle.sd_edit.specs.Journal.{replay};
ghost use Rattle.sd_tree.specs.Listing.{given_of, listed};
ghost use Rattle.sd_edit.specs.Plain.{row_at};

use crate::describe::own_descriptor_of_row;
use crate::nodes::{node_at, node_in};
use crate::tree::Tree;
use sd_acl::Descriptor;
use sd_edit::NodeDacl;
use sd_inheritance::NodeKind;
use sd_path::Path;
use sd_sid::{GenericMapping, Sid};
use std::alloc::AllocError;

/// A node without what it inherits, lent by its tree.
#[derive(Clone, Copy)]
pub struct NodeRef<'a> {
    pub path: &'a Path,
    pub kind: NodeKind,
    pub owner: Sid,
    pub group: Sid,
    pub dacl: &'a NodeDacl,
}

impl Tree {
    /// The generic mapping of its nodes ([MS-DTYP] 2.4.3).
    pub fn mapping(&self) -> &GenericMapping
        ensures { result.now ≡ self.now.opening.mapping }
    {
        self.view().mapping
    }

    /// How many nodes there are, the root counted.
    pub fn node_count(&self) -> usize
        ensures { result ≡ len (replay self.now.opening self.now.journal) }
    {
        self.view().nodes.len()
    }

    /// The node that stands so many places behind the root in the order of the paths, if there is one: each stands
    /// once, and behind what holds it. Takes no memory.
    pub fn node(&self, index: usize) -> Option<NodeRef<'_>>
        ensures { option_map listed result ≡ slice_get (entries (replay self.now.opening self.now.journal)) index }
    {
        let nodes = self.view().nodes;
        if index >= nodes.len() {
            return None;
        }
        let node = node_in(nodes, index);
        let row = node.row();
        Some(NodeRef {
            path: node.stored_path(),
            kind: row.kind,
            owner: *row.owner,
            group: *row.group,
            dacl: row.dacl,
        })
    }

    /// What was given to the node of a path, if there is one: its kind, and its descriptor without what it inherits
    /// ([MS-DTYP] 2.4.6). `AllocError` only where there is one.
    pub fn given(&self, path: &Path) -> Result<Option<(NodeKind, Descriptor)>, AllocError>
        ensures given { IfOk result (λ found. option_map given_of found
            ≡ given_at (replay self.now.opening self.now.journal) path.now) }
        ensures memory { IfErr result (λ _. IsSome (row_at (replay self.now.opening self.now.journal) path.now)) }
    {
        let view = self.view();
        match node_at(view.nodes, &path.as_path_ref()) {
            None => Ok(None),
            Some(node) => {
                let row = node.row();
                Ok(Some((row.kind, own_descriptor_of_row(view.alloc, &row)?)))
            }
        }
    }
}
