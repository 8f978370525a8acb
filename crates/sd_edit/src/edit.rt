//! Edits of a tree.

ghost use Rattle.std.specs.Prelude.{◌≡◌, IfOk};
ghost use Rattle.sd_edit.specs.Additions.{addition_of, row_of};
ghost use Rattle.sd_edit.specs.declared.edit.Edit.TheVariants.{SetDacl, Move};

use crate::node::NodeDacl;
use crate::opening::RootSpec;
use sd_inheritance::NodeKind;
use sd_path::Path;
use sd_sid::Sid;
use std::alloc::{AllocError, Global};

/// One change of a tree. Contracts see it whole, free of capacities.
#[derive(Debug, Drop)]
pub enum Edit {
    /// A container is added below one that is there.
    AddContainer {
        path: Path,
        owner: Sid,
        group: Sid,
        dacl: NodeDacl,
    },
    /// An object is added below a container that is there.
    AddObject {
        path: Path,
        owner: Sid,
        group: Sid,
        dacl: NodeDacl,
    },
    /// The node gets an owner; what CREATOR OWNER became in its inherited entries changes with it.
    SetOwner {
        path: Path,
        owner: Sid,
    },
    /// The node gets a group; what CREATOR GROUP became in its inherited entries changes with it.
    SetGroup {
        path: Path,
        group: Sid,
    },
    /// The node gets a DACL of its own.
    SetDacl {
        path: Path,
        dacl: NodeDacl,
    },
    /// A node without children, and not the root, goes.
    Remove {
        path: Path,
    },
    /// The node is protected, and what it had inherited becomes its own, in canonical order.
    ProtectKeeping {
        path: Path,
    },
    /// The node and all below it go to a free path, which may be within the same parent; what they inherit is what the
    /// new place gives.
    Move {
        source: Path,
        target: Path,
    },
}

impl Edit {
    /// The one that adds a node of this kind, which has this of its own ([MS-DTYP] 2.4.6).
    pub fn addition(kind: NodeKind, path: Path, node: RootSpec) -> Edit
        ensures { result ≡ addition_of kind path (row_of kind node) }
    {
        let RootSpec { owner, group, dacl } = node;
        match kind {
            NodeKind::Container => Edit::AddContainer {
                path,
                owner,
                group,
                dacl,
            },
            NodeKind::Object => Edit::AddObject {
                path,
                owner,
                group,
                dacl,
            },
        }
    }

    /// An equal edit.
    pub fn copy(&self, alloc: Global) -> Result<Edit, AllocError>
        ensures { IfOk result (λ edit. edit ≡ self.now) }
    {
        match self {
            Edit::AddContainer {
                path,
                owner,
                group,
                dacl,
            } => copy_of_addition(alloc, NodeKind::Container, path, *owner, *group, dacl),
            Edit::AddObject {
                path,
                owner,
                group,
                dacl,
            } => copy_of_addition(alloc, NodeKind::Object, path, *owner, *group, dacl),
            Edit::SetDacl { path, dacl } => copy_of_list(alloc, path, dacl),
            Edit::Move { source, target } => copy_of_move(alloc, source, target),
            Edit::SetOwner { path, owner } => Ok(Edit::SetOwner {
                path: path.copy(alloc)?,
                owner: *owner,
            }),
            Edit::SetGroup { path, group } => Ok(Edit::SetGroup {
                path: path.copy(alloc)?,
                group: *group,
            }),
            Edit::Remove { path } => Ok(Edit::Remove {
                path: path.copy(alloc)?,
            }),
            Edit::ProtectKeeping { path } => Ok(Edit::ProtectKeeping {
                path: path.copy(alloc)?,
            }),
        }
    }
}

// ---- copies of edits that hold two values, each of which memory may be refused

fn copy_of_addition(
    alloc: Global,
    kind: NodeKind,
    path: &Path,
    owner: Sid,
    group: Sid,
    dacl: &NodeDacl,
) -> Result<Edit, AllocError>
    ensures { IfOk result (λ edit. edit ≡ addition_of kind path.now
        (record { kind = kind; owner = owner; group = group; dacl = dacl.now })) }
{
    let path = path.copy(alloc)?;
    let dacl = dacl.copy(alloc)?;
    let node = RootSpec { owner, group, dacl };
    Ok(Edit::addition(kind, path, node))
}

fn copy_of_list(alloc: Global, path: &Path, dacl: &NodeDacl) -> Result<Edit, AllocError>
    ensures { IfOk result (λ edit. edit ≡ SetDacl path.now dacl.now) }
{
    let path = path.copy(alloc)?;
    let dacl = dacl.copy(alloc)?;
    Ok(Edit::SetDacl { path, dacl })
}

fn copy_of_move(alloc: Global, source: &Path, target: &Path) -> Result<Edit, AllocError>
    ensures { IfOk result (λ edit. edit ≡ Move source.now target.now) }
{
    let source = source.copy(alloc)?;
    let target = target.copy(alloc)?;
    Ok(Edit::Move { source, target })
}
