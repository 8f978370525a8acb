//! What stands at a path.

ghost use Rattle.std.specs.Prelude.{◌≡◌, ◌++◌, ◌≤◌, None, Some, MatchOption, IfOk, IfErr};
ghost use Rattle.sd_tree.specs.Plans.{changed_row, is_of_trustee};
ghost use Rattle.sd_edit.specs.Refusals.{dacl_size};
ghost use Rattle.sd_tree.specs.Sizes.{IsSizeError};
ghost use Rattle.sd_tree.specs.Node.{joined, whole_with};

use crate::addition::Addition;
use crate::shared::Shared;
use sd_acl::{ACL_HEADER_BYTES, Ace, MAX_ACL_BYTES};
use sd_blocks::TryCopy;
use sd_edit::{EditRefusal, Entries, NodeDacl, NodeRow, TreeError};
use sd_inheritance::NodeKind;
use sd_path::{Path, PathRef};
use sd_sid::Sid;
use std::alloc::{AllocError, Global};
use std::marker::Model;

/// A row, borrowed. Contracts see the row.
#[derive(Drop)]
pub(crate) struct RowRef<'a> {
    pub kind: NodeKind,
    pub owner: &'a Sid,
    pub group: &'a Sid,
    pub dacl: &'a NodeDacl,
}

impl<'a> Model for RowRef<'a> {
    ghost use Rattle.sd_edit.specs.declared.node.NodeRow.{NodeRow};

    ghost Value = { NodeRow };

    ghost view = { λ r. record { kind = r.kind; owner = r.owner.now; group = r.group.now; dacl = r.dacl.now } };
}

impl RowRef<'_> {
    /// An equal row.
    pub(crate) fn copy(&self, alloc: Global) -> Result<NodeRow, AllocError>
        ensures { IfOk result (λ row. row ≡ self.now) }
    {
        let dacl = self.dacl.copy(alloc)?;
        Ok(self.with_dacl(dacl))
    }

    /// A copy of the row, with another DACL.
    fn with_dacl(&self, dacl: NodeDacl) -> NodeRow
        ensures { result ≡ record self.now { dacl = dacl } }
    {
        NodeRow {
            kind: self.kind,
            owner: *self.owner,
            group: *self.group,
            dacl,
        }
    }

    /// A copy of the row after the change.
    pub(crate) fn with(&self, alloc: Global, change: RowChange) -> Result<NodeRow, AllocError>
        ensures { IfOk result (λ row. row ≡ changed_row change self.now) }
    {
        Ok(match change {
            RowChange::Owner(owner) => NodeRow {
                owner,
                ..self.copy(alloc)?
            },
            RowChange::Group(group) => NodeRow {
                group,
                ..self.copy(alloc)?
            },
            RowChange::Dacl(dacl) => self.with_dacl(dacl),
        })
    }
}

/// What changes of a node that stays where it is.
#[derive(Debug, Drop)]
pub(crate) enum RowChange {
    Owner(Sid),
    Group(Sid),
    Dacl(NodeDacl),
}

impl RowChange {
    /// Whether it is of the owner or the group, which a node doesn't hand on.
    pub(crate) fn is_of_trustee(&self) -> bool
        ensures { result ≡ is_of_trustee self.now }
    {
        match self {
            RowChange::Owner(_) | RowChange::Group(_) => true,
            RowChange::Dacl(_) => false,
        }
    }
}

/// A node where it stands. It mostly shares its addition with the journal, and what it inherits with its siblings, so
/// it takes little. Contracts see its path, its row and its whole DACL ([MS-DTYP] 2.5.3.4): the row's own entries and,
/// after them, those that it inherits, or None for a null one.
#[derive(Debug, Drop)]
pub(crate) struct Node {
    addition: Addition,
    inherited: Shared<Entries>,
}

impl Model for Node {
    ghost use Rattle.std.specs.Prelude.{◌≤◌};
    ghost use Rattle.sd_edit.specs.Refusals.{dacl_size};
    ghost use Rattle.sd_tree.specs.Node.{NodeValue, whole_with};

    ghost Value = { NodeValue };

    ghost view = { λ n. record
        { path = n.addition.path; row = n.addition.row; whole = whole_with n.addition.row n.inherited } };

    ghost invariant = { λ n. dacl_size (whole_with n.addition.row n.inherited) ≤ 65535 };
}

impl Node {
    /// The node of these parts; `AclTooLarge` where its whole DACL would take more than 65,535 bytes ([MS-DTYP] 2.4.5).
    pub(crate) fn new(addition: Addition, inherited: Shared<Entries>) -> Result<Node, TreeError>
        ensures node { IfOk result (λ node. node ≡ record
            { path = addition.path; row = addition.row; whole = whole_with addition.row inherited }) }
        ensures fits { IfOk result (λ node. dacl_size node.whole ≤ 65535) }
        ensures refused { IfErr result (λ e. IsSizeError e (whole_with addition.row inherited)) }
    {
        if let NodeDacl::List { entries, .. } | NodeDacl::Stored { entries, .. } = addition
            .row()
            .dacl
        {
            // Both sizes count a header.
            let size = entries.size().saturating_add(inherited.get().size());
            if size > MAX_ACL_BYTES + ACL_HEADER_BYTES {
                return Err(TreeError::Refused(EditRefusal::AclTooLarge));
            }
        }
        Ok(Node {
            addition,
            inherited,
        })
    }

    /// A copy of the node, at another path.
    pub(crate) fn at(&self, alloc: Global, path: Path) -> Result<Node, AllocError>
        ensures { IfOk result (λ node. node ≡ record self.now { path = path }) }
    {
        let addition = Addition::new(alloc, path, self.row().copy(alloc)?)?;
        let inherited = self.inherited.share()?;
        Ok(Node {
            addition,
            inherited,
        })
    }

    /// The node with another inherited part; `AclTooLarge` where its whole DACL would take more than 65,535 bytes
    /// ([MS-DTYP] 2.4.5).
    pub(crate) fn inheriting(&self, inherited: Shared<Entries>) -> Result<Node, TreeError>
        ensures node { IfOk result (λ node. node ≡ record self.now { whole = whole_with self.now.row inherited }) }
        ensures fits { IfOk result (λ node. dacl_size node.whole ≤ 65535) }
        ensures refused { IfErr result (λ e. IsSizeError e (whole_with self.now.row inherited)) }
    {
        Node::new(self.addition.share()?, inherited)
    }

    /// Its path.
    pub(crate) fn path(&self) -> PathRef<'_>
        ensures { result ≡ self.now.path }
    {
        self.stored_path().as_path_ref()
    }

    /// The node's path, as it is stored.
    pub(crate) fn stored_path(&self) -> &Path
        ensures { result.now ≡ self.now.path }
    {
        self.addition.path()
    }

    /// Its row.
    pub(crate) fn row(&self) -> RowRef<'_>
        ensures { result ≡ self.now.row }
    {
        self.addition.row()
    }

    /// What it inherits.
    pub(crate) fn inherited(&self) -> &Shared<Entries>
        ensures { self.now.whole ≡ whole_with self.now.row result.now }
    {
        &self.inherited
    }

    /// Its own entries, and those that it inherits; `None` where its DACL is a null one.
    pub(crate) fn parts(&self) -> Option<(&[Ace], &[Ace])>
        ensures parts { self.now.whole ≡ joined result }
        ensures fits { dacl_size self.now.whole ≤ 65535 }
    {
        match self.row().dacl {
            NodeDacl::Null => None,
            NodeDacl::List { entries, .. } | NodeDacl::Stored { entries, .. } => {
                Some((entries.as_slice(), self.inherited.get().as_slice()))
            }
        }
    }

    /// Its whole DACL in a vector of its own; `None` where it is a null one.
    pub(crate) fn whole(&self, alloc: Global) -> Result<Option<Vec<Ace>>, AllocError>
        ensures whole { IfOk result (λ whole. MatchOption whole (self.now.whole ≡ None)
            (λ entries. self.now.whole ≡ Some entries.items)) }
        ensures fits { dacl_size self.now.whole ≤ 65535 }
    {
        let Some((own, inherited)) = self.parts() else {
            return Ok(None);
        };
        let mut whole = Vec::with_capacity(alloc, own.len() + inherited.len())?;
        whole.extend_from_slice(own)?;
        whole.extend_from_slice(inherited)?;
        Ok(Some(whole))
    }
}

impl TryCopy for Node {
    fn try_copy(&self) -> Result<Node, AllocError> {
        let addition = self.addition.share()?;
        let inherited = self.inherited.share()?;
        Ok(Node {
            addition,
            inherited,
        })
    }
}
