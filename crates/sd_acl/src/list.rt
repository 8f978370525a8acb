//! Lists of entries, and the bytes that they take.

ghost use Rattle.std.specs.Prelude.{◌≡◌, ◌≤◌, ◌<◌, IfOk, IfErr, codes};
ghost use Rattle.std.specs.Bool.{Decides};
ghost use Rattle.sd_acl.specs.Ace.{acl_size_of};

use crate::ace::Ace;
use std::alloc::{AllocError, Global};
use std::marker::Model;
use thiserror::Error;

/// The most bytes that a list takes: AclSize is 16 bits wide ([MS-DTYP] 2.4.5).
pub const MAX_ACL_BYTES: u64 = 0xFFFF;

/// The bytes before a list's entries, its header ([MS-DTYP] 2.4.5).
pub const ACL_HEADER_BYTES: u64 = 8;

/// A list of entries that takes at most 65,535 bytes ([MS-DTYP] 2.4.5). Contracts see it as the list.
#[derive(Debug, Drop)]
pub struct AceList {
    entries: Vec<Ace>,
}

impl Model for AceList {
    ghost use Rattle.std.specs.Prelude.{List, ◌≤◌};
    ghost use Rattle.sd_acl.specs.declared.ace.Ace.{Ace};
    ghost use Rattle.sd_acl.specs.Ace.{acl_size_of};

    ghost Value = { List Ace };

    ghost view = { λ a. a.entries.items };

    ghost invariant = { λ a. acl_size_of a.entries.items ≤ 65535 };
}

/// The entries take more than 65,535 bytes. They are handed back.
#[derive(Debug, Drop, Error)]
#[error("a list's entries take at most 65535 bytes")]
pub struct AclTooLarge {
    pub entries: Vec<Ace>,
}

impl AclTooLarge {
    /// The error's number.
    pub fn number(&self) -> u8
        ensures { result ≡ 1 }
    {
        1
    }

    /// The error's name.
    pub fn name(&self) -> &'static str
        ensures { result.now ≡ codes "AclTooLarge" }
    {
        "AclTooLarge"
    }
}

impl AceList {
    /// The list of these entries, which are handed back where they take more than 65,535 bytes
    /// ([MS-DTYP] 2.4.5). Takes no memory.
    pub fn new(entries: Vec<Ace>) -> Result<AceList, AclTooLarge>
        ensures list { IfOk result (λ list. (list ≡ entries.items) × (acl_size_of entries.items ≤ 65535)) }
        ensures too_large { IfErr result (λ e. (e.entries ≡ entries) × (65535 < acl_size_of entries.items)) }
    {
        if acl_size(&entries) > MAX_ACL_BYTES {
            return Err(AclTooLarge { entries });
        }
        Ok(AceList { entries })
    }

    /// An equal list.
    pub fn copy(&self, alloc: Global) -> Result<AceList, AllocError>
        ensures { IfOk result (λ copy. copy ≡ self.now) }
    {
        let entries = Vec::from_slice(alloc, &self.entries)?;
        Ok(AceList { entries })
    }

    /// The entries, in order.
    pub fn entries(&self) -> &[Ace]
        ensures entries { result.now ≡ self.now }
        ensures known { acl_size_of self.now ≤ 65535 }
    {
        &self.entries
    }
}

/// Whether both lists are one, entry by entry ([MS-DTYP] 2.4.5).
pub fn same_entries(one: &[Ace], other: &[Ace]) -> bool
    ensures { Decides result (one.now ≡ other.now) }
{
    if one.len() != other.len() {
        return false;
    }
    for (i, entry) in one.iter().enumerate() {
        if !entry.is(&other[i]) {
            return false;
        }
    }
    true
}

/// The bytes that a list of these entries takes ([MS-DTYP] 2.4.5, AclSize): its header's, and the size of each entry.
pub fn acl_size(entries: &[Ace]) -> u64
    ensures { result ≡ acl_size_of entries.now }
{
    let mut size = ACL_HEADER_BYTES;
    for entry in entries {
        size += entry.size();
    }
    size
}
