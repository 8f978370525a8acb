//! A change, and the descriptor that it makes.

ghost use Rattle.std.specs.Prelude.{◌≡◌, IfOk, IfErr, option_map};
ghost use Rattle.sd_change.specs.Change.{IsWhy, acl_after, concerns, control_after, descriptor_after};
ghost use Rattle.sd_change.specs.Change.{IsWhyAcl, entries_after, sid_after};
ghost use Rattle.sd_change.specs.declared.change.ChangeError.TheVariants.{Memory};

use crate::entry::is_inherited;
use crate::occurrence::{has_entry_for, has_inherited, occurs};
use sd_sid::Sid;
use sd_whole::{WholeAce, WholeAcl, WholeDescriptor, WholeList};
use sd_whole_text::AclKind;
use sd_wire::has_bits;
use std::alloc::{AllocError, Global};

/// Control bit PD: nothing is inherited ([MS-DTYP] 2.4.6, Control).
const PROTECTED: u16 = 0x1000;

/// What becomes of the inherited entries of a DACL that is protected.
#[derive(Clone, Copy, Debug, PartialEq, Eq)]
pub enum Inherited {
    /// They become the object's own, as `icacls /inheritance:d` makes them.
    Kept,
    /// They go, as `icacls /inheritance:r` makes them.
    Dropped,
}

/// A change of a descriptor.
#[derive(Clone, Copy, Debug, PartialEq, Eq)]
pub enum Change {
    /// Each SID that is the old one becomes the new one: owner, group, those of entries.
    Replace { old: Sid, new: Sid },
    /// The entries for the SID go. It stays where it is the owner or the group.
    Remove { sid: Sid },
    /// The DACL inherits nothing any more ([MS-DTYP] 2.4.6, control bit PD).
    Protect(Inherited),
    /// The DACL may inherit. The entries that it would inherit are the parent's to give.
    Unprotect,
}

/// Why a change makes no descriptor.
#[derive(Clone, Copy, Debug, PartialEq, Eq)]
pub enum ChangeError {
    /// The list would take more than 65,535 bytes.
    TooLarge(AclKind),
    /// Memory was refused.
    Memory,
}

impl From<AllocError> for ChangeError {
    ghost from_gives = { λ _ e. e ≡ Memory };

    fn from(_error: AllocError) -> ChangeError {
        ChangeError::Memory
    }
}

impl Change {
    /// Whether the change changes anything of the descriptor.
    pub fn concerns(&self, descriptor: &WholeDescriptor) -> bool
        ensures { result ≡ concerns self.now descriptor.now }
    {
        match self {
            Change::Replace { old, new } => !old.is(new) && occurs(old, descriptor),
            Change::Remove { sid } => {
                has_entry_for(sid, &descriptor.sacl) || has_entry_for(sid, &descriptor.dacl)
            }
            Change::Protect(_) => {
                !has_bits(descriptor.control, PROTECTED) || has_inherited(&descriptor.dacl)
            }
            Change::Unprotect => has_bits(descriptor.control, PROTECTED),
        }
    }

    /// The descriptor after the change. `TooLarge` where a list no longer fits, as it may where a SID replaces one with
    /// fewer sub-authorities.
    pub fn apply(
        &self,
        alloc: Global,
        descriptor: &WholeDescriptor,
    ) -> Result<WholeDescriptor, ChangeError>
        ensures changed { IfOk result (λ after. after ≡ descriptor_after self.now descriptor.now) }
        ensures too_large { IfErr result (IsWhy self.now descriptor.now) }
    {
        let sacl = self.acl_after(alloc, AclKind::Sacl, &descriptor.sacl)?;
        let dacl = self.acl_after(alloc, AclKind::Dacl, &descriptor.dacl)?;
        Ok(WholeDescriptor {
            resource_manager: descriptor.resource_manager,
            control: self.control_after(descriptor.control),
            owner: self.trustee_after(&descriptor.owner),
            group: self.trustee_after(&descriptor.group),
            sacl,
            dacl,
        })
    }

    /// The control bits after the change.
    fn control_after(&self, control: u16) -> u16
        ensures { result ≡ control_after self.now control }
    {
        match self {
            Change::Protect(_) if !has_bits(control, PROTECTED) => control | PROTECTED,
            Change::Unprotect if has_bits(control, PROTECTED) => control & !PROTECTED,
            _ => control,
        }
    }

    /// The owner or the group after the change.
    fn trustee_after(&self, trustee: &Option<Sid>) -> Option<Sid>
        ensures { result ≡ option_map (sid_after self.now) trustee.now }
    {
        match trustee {
            Some(sid) => Some(self.sid_after(sid)),
            None => None,
        }
    }

    /// The list after the change: an empty one stays a list.
    fn acl_after(
        &self,
        alloc: Global,
        kind: AclKind,
        acl: &WholeAcl,
    ) -> Result<WholeAcl, ChangeError>
        ensures changed { IfOk result (λ after. after ≡ acl_after self.now kind acl.now) }
        ensures too_large { IfErr result (IsWhyAcl self.now kind acl.now) }
    {
        match acl {
            WholeAcl::Absent => Ok(WholeAcl::Absent),
            WholeAcl::Null => Ok(WholeAcl::Null),
            WholeAcl::List(list) => {
                let entries = self.entries_after(alloc, kind, list.entries())?;
                match WholeList::new(list.revision(), entries) {
                    Ok(list) => Ok(WholeAcl::List(list)),
                    Err(_) => Err(ChangeError::TooLarge(kind)),
                }
            }
        }
    }

    /// The entries that stay, each after the change, in their order.
    fn entries_after(
        &self,
        alloc: Global,
        kind: AclKind,
        entries: &[WholeAce],
    ) -> Result<Vec<WholeAce>, AllocError>
        ensures { IfOk result (λ after. after.items ≡ entries_after self.now kind entries.now) }
    {
        let mut after = Vec::new(alloc);
        for entry in entries {
            if !self.takes(kind, entry) {
                after.push(self.entry_after(alloc, kind, entry)?)?;
            }
        }
        Ok(after)
    }
}
