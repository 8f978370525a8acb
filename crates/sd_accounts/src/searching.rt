//! Searches for wanted SIDs among those that one has.

ghost use Rattle.std.specs.Prelude.{◌≡◌, ◌⊎◌, false, true, IfNone, IfOk, IfSome, OnOk, Contains, not, slice_index_or};
ghost use Rattle.std.specs.Bool.{Decides};
ghost use Rattle.std.specs.List.{list_any};
ghost use Rattle.indexmap.specs.IndexMap.{keys};
ghost use Rattle.sd_sid.specs.Sid.{IsSid, SidValue, same_sid};
ghost use Rattle.sd_accounts.specs.Accounts.{rows_of};
ghost use Rattle.sd_accounts.specs.Search.{searched, wanted_by};
ghost use Rattle.sd_accounts.specs.Wanted.{AreUnwanted, HasNone, HasWanted, IsOneWanted, Keeps, NoneAbove};

use crate::accounts::Accounts;
use crate::index::{Index, groups_in};
use crate::membership::Membership;
use crate::search::Search;
use indexmap::IndexSet;
use sd_sid::Sid;
use std::alloc::{AllocError, Global};

/// How many SIDs are compared in turn.
const FEW: usize = 8;

impl<'a> Search<'a> {
    /// A search for these SIDs. The only error is out of memory.
    pub fn new(
        alloc: Global,
        accounts: &'a Accounts,
        sids: &[Sid],
    ) -> Result<Search<'a>, AllocError>
        ensures searched { IfOk result (λ search. searched search ≡ rows_of accounts.now) }
        ensures wanted { IfOk result (λ search. (sid : SidValue)
            → Contains sids.now sid → Contains (wanted_by search) sid) }
        ensures sound { IfOk result (λ search. (sid : SidValue)
            → Contains (wanted_by search) sid → Contains sids.now sid) }
    {
        let mut wanted = IndexSet::new(alloc);
        add_all(&mut wanted, sids)?;
        let nowhere = vec![in alloc; false; accounts.index.len()]?;
        Ok(Search {
            alloc,
            accounts,
            wanted,
            nowhere,
        })
    }

    /// The groups of one who has these SIDs, where one has one of the wanted ones: one of these is, or a group to which
    /// one belongs ([MS-DTYP] 2.4.2). None where one has none of them. The only error is out of memory.
    pub fn find<'b>(&mut self, starts: &'b [Sid]) -> Result<Option<Membership<'b>>, AllocError>
    where
        'a: 'b,
        ensures member { IfOk result (λ found. IfSome found (λ member.
            (member.rows ≡ searched self.old) × (member.starts ≡ starts.now))) }
        ensures one { IfOk result (λ found. IfSome found (λ _.
            HasWanted (searched self.old) (wanted_by self.old) starts.now)) }
        ensures none { IfOk result (λ found. IfNone found
            (HasNone (searched self.old) (wanted_by self.old) starts.now)) }
        ensures searched { searched self.new ≡ searched self.old }
        ensures wanted { wanted_by self.new ≡ wanted_by self.old }
    {
        let accounts = self.accounts;
        if any_wanted(&self.wanted, starts) {
            return Ok(Some(accounts.membership(self.alloc, starts)?));
        }
        if self.leads_nowhere(starts) {
            return Ok(None);
        }
        let member = accounts.membership(self.alloc, starts)?;
        if any_wanted(&self.wanted, member.groups()) {
            return Ok(Some(member));
        }
        keep(&mut self.nowhere, &accounts.index, member.groups());
        Ok(None)
    }

    /// Whether it is kept of each group in which one of the starts directly is that none of the wanted is reached.
    fn leads_nowhere(&self, starts: &[Sid]) -> bool
        ensures { result ≡ true → NoneAbove (searched self.now) (wanted_by self.now) starts.now }
    {
        for start in starts {
            if any_open(&self.nowhere, groups_in(&self.accounts.index, start)) {
                return false;
            }
        }
        true
    }
}

/// Whether nothing is kept of one of the numbers.
fn any_open(nowhere: &[bool], numbers: &[usize]) -> bool
    ensures { result ≡ list_any (λ number. not (slice_index_or nowhere.now number false)) numbers.now }
{
    numbers.iter().any(|number| !is_kept(nowhere, *number))
}

fn is_kept(nowhere: &[bool], number: usize) -> bool
    ensures { result ≡ slice_index_or nowhere.now number false }
{
    number < nowhere.len() && nowhere[number]
}

/// Keeps that none of the wanted is reached from these SIDs.
fn keep(nowhere: &mut Vec<bool>, index: &Index, sids: &[Sid])
    ensures { Keeps (keys index.now) sids.now nowhere.old.items nowhere.new.items }
{
    for sid in sids {
        if let Some(number) = index.get_index_of(sid) {
            if number < nowhere.len() {
                nowhere[number] = true;
            }
        }
    }
}

/// Adds SIDs to a set; where memory is refused, some of them.
fn add_all(set: &mut IndexSet<Sid>, sids: &[Sid]) -> Result<(), AllocError>
    ensures sound { (sid : SidValue) → Contains set.new.keys sid → Contains set.old.keys sid ⊎ Contains sids.now sid }
    ensures all { OnOk result ((sid : SidValue) → Contains sids.now sid → Contains set.new.keys sid) }
{
    for sid in sids {
        set.insert(*sid)?;
    }
    Ok(())
}

/// Whether one of the SIDs is wanted.
fn any_wanted(wanted: &IndexSet<Sid>, sids: &[Sid]) -> bool
    ensures one { result ≡ true → IsOneWanted wanted.now.keys sids.now }
    ensures none { result ≡ false → AreUnwanted wanted.now.keys sids.now }
{
    for sid in sids {
        if is_wanted(wanted, sid) {
            return true;
        }
    }
    false
}

/// Whether the SID is wanted.
fn is_wanted(wanted: &IndexSet<Sid>, sid: &Sid) -> bool
    ensures wanted { Decides result (Contains wanted.now.keys sid.now) }
    ensures known { IsSid sid.now }
{
    // (the authority is of no use here: that it can be read says that it is a SID)
    let _authority = sid.authority();
    has_sid(wanted, sid)
}

/// Whether the set has the SID: where it has few, by comparing these, which takes less time than a hash.
fn has_sid(set: &IndexSet<Sid>, sid: &Sid) -> bool
    ensures { result ≡ list_any (same_sid sid.now) set.now.keys }
{
    if set.len() <= FEW {
        return is_among(set.as_slice(), sid);
    }
    set.contains(sid)
}

fn is_among(sids: &[Sid], sid: &Sid) -> bool
    ensures { result ≡ list_any (same_sid sid.now) sids.now }
{
    sids.iter().any(|one| sid.is(one))
}
