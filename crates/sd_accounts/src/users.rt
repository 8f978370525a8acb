//! The users that may log on.

ghost use Rattle.std.specs.Prelude.{◌≡◌, IfOk};
ghost use Rattle.std.specs.Option.{option_map};
ghost use Rattle.sd_accounts.specs.Accounts.{rows_of};
ghost use Rattle.sd_accounts.specs.Kept.{row_of};
ghost use Rattle.sd_accounts.specs.Users.{AreDisabled, lent_user, named, user_after, users_of};

use crate::accounts::Accounts;
use crate::row::Row;
use indexmap::IndexSet;
use sd_sid::Sid;
use std::alloc::{AllocError, Global};

impl Accounts {
    /// The users that may log on, in the file's order, each with a name of it ([MS-DTYP] 2.4.2): a row that gives a
    /// further name to the user of the last `user` row adds none. The only error is out of memory.
    pub fn users(&self, alloc: Global) -> Result<Vec<(Sid, &str)>, AllocError>
        ensures { IfOk result (λ users. named users.items ≡ users_of (rows_of self.now)) }
    {
        let disabled = self.disabled_sids(alloc)?;
        let mut users = Vec::new(alloc);
        let mut last = None;
        for row in &self.rows {
            let Some((sid, name)) = row.user_after(&last) else {
                continue;
            };
            last = Some(*sid);
            if !disabled.contains(sid) {
                if users.push((*sid, name)).is_err() {
                    return Err(AllocError);
                }
            }
        }
        Ok(users)
    }

    /// The SIDs of the disabled accounts.
    fn disabled_sids(&self, alloc: Global) -> Result<IndexSet<Sid>, AllocError>
        ensures { IfOk result (λ sids. AreDisabled sids (rows_of self.now)) }
    {
        let mut sids = IndexSet::new(alloc);
        for row in &self.rows {
            if let Row::Disabled { user } = row {
                sids.insert(*user)?;
            }
        }
        Ok(sids)
    }
}

impl Row {
    /// The user of the row with its name, unless it is the last user.
    fn user_after(&self, last: &Option<Sid>) -> Option<(&Sid, &str)>
        ensures { option_map lent_user result ≡ user_after last.now (row_of self.now) }
    {
        match self {
            Row::User { sid, name } => match last {
                Some(last) if last.is(sid) => None,
                _ => Some((sid, name)),
            },
            _ => None,
        }
    }
}
