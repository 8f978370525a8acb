//! The SIDs of the token of a user that logged on.
ghost use Rattle.std.specs.Prelude.{◌≡◌, [], IfErr, IfOk, OnOk};
ghost use Rattle.std.specs.List.{IsDistinct};
ghost use Rattle.sd_sid.specs.Sid.{same_sid};
ghost use Rattle.sd_accounts.specs.Accounts.{rows_of};
ghost use Rattle.sd_named.specs.Arguments.{IsUserError};
ghost use Rattle.sd_named.specs.Sids.{AreSidsOfUser, AreTokenSids, joined};

use crate::added::{added, starts};
use crate::arguments::{NamedError, Naming};
use crate::logon::logon_groups;
use crate::word::Role;
use sd_sid::Sid;
use std::alloc::{AllocError, Global};

impl Naming<'_> {
    /// The SIDs of the token of the user whom the text means, after a logon ([MS-DTYP] 2.5.2): the user's own, then
    /// those of the groups that `of_user` adds without words, each once. The errors are those of `of_user`.
    pub fn sids_of_user(&self, user: &str) -> Result<Vec<Sid>, NamedError>
        ensures sids { IfOk result (λ sids. AreSidsOfUser (rows_of self.now.accounts.now) self.now.known user.now
            sids.items) }
        ensures once { IfOk result (λ sids. IsDistinct same_sid sids.items) }
        ensures none { IfErr result (IsUserError (rows_of self.now.accounts.now) self.now.known user.now []) }
    {
        match self.user(user) {
            Ok(sid) => Ok(self.token_sids(sid)?),
            Err(error) => Err(error),
        }
    }

    /// The SIDs of the token of this user.
    fn token_sids(&self, user: Sid) -> Result<Vec<Sid>, AllocError>
        ensures { IfOk result (λ sids. AreTokenSids (rows_of self.now.accounts.now) user sids.items) }
    {
        let starts = starts(self.alloc, false, user, &[])?;
        let groups = self.accounts.groups_of(self.alloc, &starts)?;
        let mut sids = vec![in self.alloc; user]?;
        join(
            self.alloc,
            &mut sids,
            &logon_groups(self.alloc, false, &user)?,
        )?;
        join(self.alloc, &mut sids, &groups)?;
        Ok(sids)
    }
}

/// Adds those of the groups that aren't among the SIDs.
fn join(alloc: Global, sids: &mut Vec<Sid>, groups: &[Sid]) -> Result<(), AllocError>
    ensures { OnOk result (sids.new.items ≡ joined sids.old.items groups.now) }
{
    let mut further = added(alloc, Role::Enabled, &[], groups, sids)?;
    sids.append(&mut further)?;
    Ok(())
}
