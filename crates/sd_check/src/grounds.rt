//! What a verdict rests on, for who explains one: the passes, and what is granted without an entry.

ghost use Rattle.std.specs.Prelude.{◌≡◌, Some};
ghost use Rattle.std.specs.Option.{option_copied};
ghost use Rattle.sd_check.specs.Check.{entries_of, implied_of, limits_owner, subject};

use crate::question::Question;
use crate::request::DaclRef;
use sd_acl::Ace;
use sd_sid::Sid;

/// A pass over the list ([MS-DTYP] 2.5.3.2).
#[derive(Clone, Copy, Debug, PartialEq, Eq)]
pub enum Pass {
    /// The pass for the user and the groups: the only one, unless the token has restricting SIDs.
    First,
    /// The pass for the restricting SIDs.
    Second,
}

/// What is granted without an entry.
#[derive(Clone, Copy, Debug, PartialEq, Eq)]
pub struct Implied {
    /// READ_CONTROL and WRITE_DAC: the token is the owner's in each pass, and the list doesn't limit the owner.
    pub owner: bool,
    /// WRITE_OWNER: the token has SeTakeOwnershipPrivilege.
    pub take_ownership: bool,
    /// ACCESS_SYSTEM_SECURITY: the token has SeSecurityPrivilege.
    pub security: bool,
}

/// Whom an entry for the SID speaks of: OWNER RIGHTS is the owner, or nobody where there is none ([MS-DTYP] 2.5.3.1).
pub fn subject_of<'a>(owner: &'a Option<Sid>, sid: &'a Sid) -> Option<&'a Sid>
    ensures { option_copied result ≡ subject owner.now sid.now }
{
    if sid.is_owner_rights() {
        owner.as_ref()
    } else {
        Some(sid)
    }
}

impl Question<'_, Sid> {
    /// What the token is granted without an entry ([MS-DTYP] 2.5.3.2).
    pub fn implied(&self, dacl: DaclRef<'_>) -> Implied
        ensures { result ≡ implied_of self.now.owner.now (entries_of dacl.entry) self.now.token.now }
    {
        let privileges = self.token.privileges();
        Implied {
            owner: self.is_owner() && !is_limited(dacl),
            take_ownership: privileges.take_ownership,
            security: privileges.security,
        }
    }
}

/// Whether an effective entry for OWNER RIGHTS is in the DACL.
fn is_limited(dacl: DaclRef<'_>) -> bool
    ensures { result ≡ limits_owner (entries_of dacl.entry) }
{
    match dacl {
        DaclRef::Absent => false,
        DaclRef::Null => false,
        DaclRef::List(entries) => has_limit(entries),
    }
}

fn has_limit(entries: &[Ace]) -> bool
    ensures { result ≡ limits_owner (Some entries.now) }
{
    entries.iter().any(|entry| !entry.is_inherit_only() && entry.sid.is_owner_rights())
}
