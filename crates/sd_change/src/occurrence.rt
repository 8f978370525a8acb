//! Where a SID is in a descriptor: owner, group, and the SIDs of entries.

ghost use Rattle.std.specs.Prelude.{◌≡◌};
ghost use Rattle.std.specs.List.{list_any};
ghost use Rattle.sd_change.specs.Occurrence.{acl_has, is_for, is_trustee, occurs};
ghost use Rattle.sd_change.specs.Change.{is_inherited};

use crate::entry::{is_for, is_inherited};
use sd_sid::Sid;
use sd_whole::{WholeAce, WholeAcl, WholeDescriptor};

/// Whether the SID is the owner, the group, or that of an entry of the SACL or the DACL.
pub fn occurs(sid: &Sid, descriptor: &WholeDescriptor) -> bool
    ensures { result ≡ occurs sid.now descriptor.now }
{
    is_trustee(sid, &descriptor.owner)
        || is_trustee(sid, &descriptor.group)
        || has_entry_for(sid, &descriptor.sacl)
        || has_entry_for(sid, &descriptor.dacl)
}

/// Whether the SID is that owner or that group.
pub fn is_trustee(sid: &Sid, trustee: &Option<Sid>) -> bool
    ensures { result ≡ is_trustee sid.now trustee.now }
{
    match trustee {
        Some(other) => sid.is(other),
        None => false,
    }
}

/// Whether an entry of the list is for the SID.
pub(crate) fn has_entry_for(sid: &Sid, acl: &WholeAcl) -> bool
    ensures { result ≡ acl_has (is_for sid.now) acl.now }
{
    match acl {
        WholeAcl::List(list) => any_is_for(sid, list.entries()),
        _ => false,
    }
}

fn any_is_for(sid: &Sid, entries: &[WholeAce]) -> bool
    ensures { result ≡ list_any (is_for sid.now) entries.now }
{
    entries.iter().any(|entry| is_for(sid, entry))
}

/// Whether an entry of the list is inherited.
pub(crate) fn has_inherited(acl: &WholeAcl) -> bool
    ensures { result ≡ acl_has is_inherited acl.now }
{
    match acl {
        WholeAcl::List(list) => any_is_inherited(list.entries()),
        _ => false,
    }
}

fn any_is_inherited(entries: &[WholeAce]) -> bool
    ensures { result ≡ list_any is_inherited entries.now }
{
    entries.iter().any(is_inherited)
}
