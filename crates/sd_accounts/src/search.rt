//! A search for wanted SIDs: what it knows.

ghost use Rattle.indexmap.specs.IndexMap.{keys};
ghost use Rattle.sd_accounts.specs.Accounts.{rows_of};
ghost use Rattle.sd_accounts.specs.Wanted.{AreNowhere};

use crate::accounts::Accounts;
use indexmap::IndexSet;
use sd_sid::Sid;
use std::alloc::Global;

/// A search for wanted SIDs among those that many users have, one after another ([MS-DTYP] 2.4.2). It keeps the groups
/// from which none is reached, so that each of these is walked once.
#[derive(Drop)]
pub struct Search<'a> {
    pub(crate) alloc: Global,
    pub(crate) accounts: &'a Accounts,
    pub(crate) wanted: IndexSet<Sid>,
    /// For each number whether it is kept that none of the wanted is reached from its SID.
    pub(crate) nowhere: Vec<bool>,
    ghost kept: { AreNowhere (rows_of accounts.now) wanted.keys (keys accounts.now.index) nowhere.items },
}
