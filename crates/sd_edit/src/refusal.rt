//! Why an edit is refused.

ghost use Rattle.std.specs.Prelude.{◌≡◌};
ghost use Rattle.sd_edit.specs.Refusals.{number_of, name_of};

use std::alloc::{AllocError, AllocFailed};
use thiserror::Error;

/// Why an edit is refused. The first that fits is answered: by their numbers, and of a move by the order that
/// docs/TREE.md tells.
#[derive(Clone, Copy, Debug, PartialEq, Eq, Error)]
pub enum EditRefusal {
    /// The path isn't the root, and nothing stands where its parent would.
    #[error("the parent isn't in the tree")]
    NoParent,
    /// The parent is an object.
    #[error("the parent is an object")]
    ParentIsObject,
    /// A node stands at the path already.
    #[error("a node stands at the path")]
    Exists,
    /// No node stands at the path.
    #[error("no node stands at the path")]
    NoNode,
    /// The node has children.
    #[error("the node has children")]
    NotEmpty,
    /// The root stays.
    #[error("the path is the root")]
    IsRoot,
    /// An entry of the given list has the flag ID ([MS-DTYP] 2.4.4.1, INHERITED_ACE).
    #[error("an entry of the list is marked as inherited")]
    InheritedEntry,
    /// A deny stands behind an allow in the given list.
    #[error("a deny stands behind an allow")]
    NotCanonical,
    /// Some node would have a DACL of more than 65,535 bytes ([MS-DTYP] 2.4.5, AclSize).
    #[error("a node's DACL would take more than 65535 bytes")]
    AclTooLarge,
    /// The path has more than 64 names.
    #[error("the path has more than 64 names")]
    TooDeep,
    /// The tree has as many nodes as its limits allow, the root counted.
    #[error("the tree has as many nodes as its limits allow")]
    NodesFull,
    /// The journal has as many edits as its limits allow.
    #[error("the journal has as many edits as its limits allow")]
    JournalFull,
    /// The node would go below itself. It is judged behind `IsRoot`.
    #[error("a node can't go below itself")]
    IntoItself,
}

impl EditRefusal {
    /// The refusal's number. docs/TREE.md tells in which order an edit is judged.
    pub fn number(self) -> u8
        ensures { result ≡ number_of self }
    {
        match self {
            EditRefusal::NoParent => 1,
            EditRefusal::ParentIsObject => 2,
            EditRefusal::Exists => 3,
            EditRefusal::NoNode => 4,
            EditRefusal::NotEmpty => 5,
            EditRefusal::IsRoot => 6,
            EditRefusal::InheritedEntry => 7,
            EditRefusal::NotCanonical => 8,
            EditRefusal::AclTooLarge => 9,
            EditRefusal::TooDeep => 10,
            EditRefusal::NodesFull => 11,
            EditRefusal::JournalFull => 12,
            EditRefusal::IntoItself => 13,
        }
    }

    /// The refusal's name.
    pub fn name(self) -> &'static str
        ensures { result.now ≡ name_of self }
    {
        match self {
            EditRefusal::NoParent => "NoParent",
            EditRefusal::ParentIsObject => "ParentIsObject",
            EditRefusal::Exists => "Exists",
            EditRefusal::NoNode => "NoNode",
            EditRefusal::NotEmpty => "NotEmpty",
            EditRefusal::IsRoot => "IsRoot",
            EditRefusal::InheritedEntry => "InheritedEntry",
            EditRefusal::NotCanonical => "NotCanonical",
            EditRefusal::AclTooLarge => "AclTooLarge",
            EditRefusal::TooDeep => "TooDeep",
            EditRefusal::NodesFull => "NodesFull",
            EditRefusal::JournalFull => "JournalFull",
            EditRefusal::IntoItself => "IntoItself",
        }
    }
}

/// Why a tree wasn't opened or changed.
#[derive(Clone, Copy, Debug, PartialEq, Eq, Error)]
pub enum TreeError {
    /// The edit is refused.
    #[error("{0}")]
    Refused(EditRefusal),
    /// Memory was refused.
    #[error("memory was refused")]
    Memory,
}

impl From<AllocError> for TreeError {
    ghost use Rattle.std.specs.Prelude.{◌≡◌};
    ghost use Rattle.sd_edit.specs.declared.refusal.TreeError.TheVariants.{Memory};

    ghost from_gives = { λ _ error. error ≡ Memory };

    fn from(_: AllocError) -> TreeError {
        TreeError::Memory
    }
}

impl<T: Drop> From<AllocFailed<T>> for TreeError {
    ghost use Rattle.std.specs.Prelude.{◌≡◌};
    ghost use Rattle.sd_edit.specs.declared.refusal.TreeError.TheVariants.{Memory};

    ghost from_gives = { λ _ error. error ≡ Memory };

    fn from(_: AllocFailed<T>) -> TreeError {
        TreeError::Memory
    }
}
