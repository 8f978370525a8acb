//! The groups to which one belongs, and by which way: what is known.

use crate::accounts::Accounts;
use sd_sid::Sid;
use std::marker::Model;

/// The groups to which one belongs who has some SIDs, in the order in which a walk found them, and from where it found
/// each ([MS-DTYP] 2.4.2).
#[derive(Drop)]
pub struct Membership<'a> {
    pub(crate) accounts: &'a Accounts,
    pub(crate) starts: &'a [Sid],
    pub(crate) groups: Vec<Sid>,
    /// For each group the place of one before it that is directly in it; none where one of the SIDs is.
    pub(crate) before: Vec<Option<usize>>,
}

impl<'a> Model for Membership<'a> {
    ghost use Rattle.sd_accounts.specs.Membership.{MembershipValue};

    ghost Value = { MembershipValue };

    ghost use Rattle.sd_accounts.specs.Accounts.{rows_of};
    ghost use Rattle.sd_accounts.specs.Groups.{AreGroupsOf};
    ghost use Rattle.sd_accounts.specs.Walk.{AreFoundFrom};

    ghost view = { λ m. record { rows = rows_of m.accounts.now; starts = m.starts.now; groups = m.groups.items } };

    ghost invariant = { λ m. AreGroupsOf (rows_of m.accounts.now) m.starts.now m.groups.items
        × AreFoundFrom (rows_of m.accounts.now) m.starts.now m.groups.items m.before.items };
}
