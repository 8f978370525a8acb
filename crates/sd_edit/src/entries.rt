//! The entries that a node has of its own.

ghost use Rattle.std.specs.Prelude.{◌≡◌, IfOk};
ghost use Rattle.sd_acl.specs.Ace.{acl_size_of};

use sd_acl::{Ace, acl_size};
use std::alloc::{AllocError, Global};
use std::marker::Model;

/// The entries of a node's own list, however many they are ([MS-DTYP] 2.4.5). Contracts see it as the list.
#[derive(Debug, Drop)]
pub struct Entries {
    items: Vec<Ace>,
    /// The bytes that a list of them takes.
    size: u64,
}

impl Model for Entries {
    ghost use Rattle.std.specs.Prelude.{◌≡◌, List};
    ghost use Rattle.sd_acl.specs.Ace.{acl_size_of};
    ghost use Rattle.sd_acl.specs.declared.ace.Ace.{Ace};

    ghost Value = { List Ace };

    ghost view = { λ e. e.items.items };

    ghost invariant = { λ e. e.size ≡ acl_size_of e.items.items };
}

impl Entries {
    /// These entries, in this order. Takes no memory.
    pub fn new(items: Vec<Ace>) -> Entries
        ensures { result ≡ items.items }
    {
        let size = acl_size(&items);
        Entries { items, size }
    }

    /// The entries, in order.
    pub fn as_slice(&self) -> &[Ace]
        ensures { result.now ≡ self.now }
    {
        &self.items
    }

    /// The bytes that a list of them takes ([MS-DTYP] 2.4.5, AclSize).
    pub fn size(&self) -> u64
        ensures { result ≡ acl_size_of self.now }
    {
        self.size
    }

    /// The entries, given back. Takes no memory.
    pub fn into_vec(self) -> Vec<Ace>
        ensures { result.items ≡ self }
    {
        self.items
    }

    /// Equal entries.
    pub fn copy(&self, alloc: Global) -> Result<Entries, AllocError>
        ensures { IfOk result (λ entries. entries ≡ self.now) }
    {
        let items = Vec::from_slice(alloc, self.items.as_slice())?;
        Ok(Entries {
            items,
            size: self.size,
        })
    }
}
