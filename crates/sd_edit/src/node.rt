//! What is given to a node.

ghost use Rattle.std.specs.Prelude.{◌≡◌, IfOk};
ghost use Rattle.sd_edit.specs.Descriptors.{own_dacl, stored_dacl};

use crate::entries::Entries;
use sd_acl::{AceList, Dacl, Descriptor};
use sd_inheritance::NodeKind;
use sd_sid::Sid;
use std::alloc::{AllocError, Global};

/// The DACL that is given to a node, without what it inherits ([MS-DTYP] 2.4.6).
#[derive(Debug, Drop)]
pub enum NodeDacl {
    /// A null DACL: everything is granted, and nothing is inherited or passed down.
    Null,
    /// The node's own entries; where the DACL is protected (control bit PD), nothing is inherited.
    List {
        protected: bool,
        entries: Entries,
    },
    /// The node's own entries, and those that it had inherited elsewhere, where its parent offered this. They stand
    /// while the parent offers the same, in whatever order of denies and allows: what it hands on to a child of the
    /// kind whose owner is CREATOR OWNER and whose group is CREATOR GROUP. Else the node inherits as every other.
    Stored {
        entries: Entries,
        inherited: AceList,
        offer: AceList,
    },
}

impl NodeDacl {
    /// The DACL that a descriptor gives a node ([MS-DTYP] 2.4.6): an absent one is an empty list that isn't protected.
    pub fn of_descriptor(alloc: Global, descriptor: &Descriptor) -> Result<NodeDacl, AllocError>
        ensures { IfOk result (λ given. given ≡ own_dacl descriptor.now.protected descriptor.now.dacl) }
    {
        match &descriptor.dacl {
            Dacl::Absent => Ok(NodeDacl::List {
                protected: false,
                entries: Entries::new(Vec::new(alloc)),
            }),
            Dacl::Null => Ok(NodeDacl::Null),
            Dacl::List(list) => Ok(NodeDacl::List {
                protected: descriptor.protected,
                entries: Entries::new(Vec::from_slice(alloc, list.entries())?),
            }),
        }
    }

    /// The DACL with what the node had inherited elsewhere, and what was offered there, if it is a list that isn't
    /// protected; any other is as it was ([MS-DTYP] 2.5.3.4).
    pub fn stored(self, inherited: AceList, offer: AceList) -> NodeDacl
        ensures { result ≡ stored_dacl self inherited offer }
    {
        match self {
            NodeDacl::List {
                protected: false,
                entries,
            } => NodeDacl::Stored {
                entries,
                inherited,
                offer,
            },
            other => other,
        }
    }

    /// An equal DACL.
    pub fn copy(&self, alloc: Global) -> Result<NodeDacl, AllocError>
        ensures { IfOk result (λ dacl. dacl ≡ self.now) }
    {
        match self {
            NodeDacl::Null => Ok(NodeDacl::Null),
            NodeDacl::List { protected, entries } => Ok(NodeDacl::List {
                protected: *protected,
                entries: entries.copy(alloc)?,
            }),
            NodeDacl::Stored {
                entries,
                inherited,
                offer,
            } => Ok(NodeDacl::Stored {
                entries: entries.copy(alloc)?,
                inherited: inherited.copy(alloc)?,
                offer: offer.copy(alloc)?,
            }),
        }
    }
}

/// A node without its path and without what it inherits.
#[derive(Debug, Drop)]
pub struct NodeRow {
    pub kind: NodeKind,
    pub owner: Sid,
    pub group: Sid,
    pub dacl: NodeDacl,
}
