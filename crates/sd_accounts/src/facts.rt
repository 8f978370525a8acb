//! What the rows say of one account.

ghost use Rattle.std.specs.Prelude.{◌≡◌};
ghost use Rattle.std.specs.List.{list_any};
ghost use Rattle.sd_accounts.specs.Accounts.{rows_of};
ghost use Rattle.sd_accounts.specs.Kept.{row_of};
ghost use Rattle.sd_accounts.specs.Names.{is_disabled, is_user, says_disabled, says_user};

use crate::accounts::Accounts;
use crate::row::Row;
use sd_sid::Sid;

impl Accounts {
    /// Whether the SID is a user's ([MS-DTYP] 2.4.2).
    pub fn is_user(&self, sid: &Sid) -> bool
        ensures { result ≡ is_user (rows_of self.now) sid.now }
    {
        any_says_user(&self.rows, sid)
    }

    /// Whether the account of the SID is disabled ([MS-DTYP] 2.4.2).
    pub fn is_disabled(&self, sid: &Sid) -> bool
        ensures { result ≡ is_disabled (rows_of self.now) sid.now }
    {
        any_says_disabled(&self.rows, sid)
    }
}

/// Whether a row says that the SID is a user's.
fn any_says_user(rows: &[Row], sid: &Sid) -> bool
    ensures { result ≡ list_any (λ row. says_user sid.now (row_of row)) rows.now }
{
    rows.iter().any(|row| row.says_user(sid))
}

/// Whether a row says that the account of the SID is disabled.
fn any_says_disabled(rows: &[Row], sid: &Sid) -> bool
    ensures { result ≡ list_any (λ row. says_disabled sid.now (row_of row)) rows.now }
{
    rows.iter().any(|row| row.says_disabled(sid))
}

impl Row {
    fn says_user(&self, sid: &Sid) -> bool
        ensures { result ≡ says_user sid.now (row_of self.now) }
    {
        match self {
            Row::User { sid: own, .. } => own.is(sid),
            _ => false,
        }
    }

    fn says_disabled(&self, sid: &Sid) -> bool
        ensures { result ≡ says_disabled sid.now (row_of self.now) }
    {
        match self {
            Row::Disabled { user } => user.is(sid),
            _ => false,
        }
    }
}
