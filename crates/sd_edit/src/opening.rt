//! What a tree begins with.

ghost use Rattle.std.specs.Prelude.{◌≡◌, IfOk};

use crate::limits::Limits;
use crate::node::NodeDacl;
use sd_sid::{GenericMapping, Sid};
use std::alloc::{AllocError, Global};

/// The root, which is a container: its owner, its group and its own DACL ([MS-DTYP] 2.4.6).
#[derive(Debug, Drop)]
pub struct RootSpec {
    pub owner: Sid,
    pub group: Sid,
    pub dacl: NodeDacl,
}

/// A tree before its journal: its nodes' generic mapping ([MS-DTYP] 2.4.3), its root before any edit, its limits.
#[derive(Debug, Drop)]
pub struct Opening {
    pub mapping: GenericMapping,
    pub root: RootSpec,
    pub limits: Limits,
}

impl RootSpec {
    /// An equal root.
    pub fn copy(&self, alloc: Global) -> Result<RootSpec, AllocError>
        ensures { IfOk result (λ root. root ≡ self.now) }
    {
        let dacl = self.dacl.copy(alloc)?;
        Ok(RootSpec {
            owner: self.owner,
            group: self.group,
            dacl,
        })
    }
}

impl Opening {
    /// An equal opening.
    pub fn copy(&self, alloc: Global) -> Result<Opening, AllocError>
        ensures { IfOk result (λ opening. opening ≡ self.now) }
    {
        let root = self.root.copy(alloc)?;
        Ok(Opening {
            mapping: self.mapping,
            root,
            limits: self.limits,
        })
    }
}
