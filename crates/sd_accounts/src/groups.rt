//! The groups that an account really has.

ghost use Rattle.std.specs.Prelude.{◌≡◌, ◌<◌, ◌^◌, ◌+◌, ◌-◌, ◌++◌, OnOk, IfOk, Contains, length, nat_eq, replicate};
ghost use Rattle.std.specs.Prelude.{slice_get};
ghost use Rattle.std.specs.List.{IsDistinct, filter_map};
ghost use Rattle.indexmap.specs.IndexMap.{keys};
ghost use Rattle.sd_accounts.specs.Accounts.{rows_of};
ghost use Rattle.sd_accounts.specs.Groups.{AreGroupsOf};
ghost use Rattle.sd_accounts.specs.Index.{AreWithin, sids_at};
ghost use Rattle.sd_accounts.specs.Walk.{Extends, HasStarts};

use crate::accounts::Accounts;
use crate::index::{Index, groups_in, numbered};
use crate::membership::Membership;
use crate::walk::{FEW, Walk};
use sd_sid::Sid;
use std::alloc::{AllocError, Global};

impl Accounts {
    /// The groups to which one belongs who has these SIDs, directly or by other groups, each once; the SIDs themselves
    /// are among them only if one belongs to them ([MS-DTYP] 2.4.2). The only error is out of memory.
    pub fn groups_of(&self, alloc: Global, starts: &[Sid]) -> Result<Vec<Sid>, AllocError>
        ensures { IfOk result (λ groups. AreGroupsOf (rows_of self.now) starts.now groups.items) }
    {
        let Membership { groups, .. } = self.membership(alloc, starts)?;
        Ok(groups)
    }

    /// The groups of `groups_of`, with the ways to them. The only error is out of memory.
    pub fn membership<'a>(
        &'a self,
        alloc: Global,
        starts: &'a [Sid],
    ) -> Result<Membership<'a>, AllocError>
        ensures rows { IfOk result (λ member. member.rows ≡ rows_of self.now) }
        ensures starts { IfOk result (λ member. member.starts ≡ starts.now) }
    {
        let mut found = self.direct_groups(alloc, starts)?;
        let mut before = Vec::with_capacity(alloc, FEW)?;
        note(&mut before, found.len(), None)?;
        // (each group that is found is visited once, in order; the last one ends the walk)
        for place in 0..usize::MAX {
            let Some(number) = found.at(place) else {
                break;
            };
            if let Some((_, groups)) = numbered(&self.index, number) {
                add_all(&mut found, groups)?;
                note(&mut before, found.len(), Some(place))?;
            }
        }
        let groups = sids_of(alloc, &self.index, &found)?;
        Ok(Membership {
            accounts: self,
            starts,
            groups,
            before,
        })
    }

    /// The groups in which one of these SIDs directly is, by their numbers.
    fn direct_groups(&self, alloc: Global, starts: &[Sid]) -> Result<Walk, AllocError>
        ensures starts { IfOk result (λ found.
            HasStarts (rows_of self.now) starts.now (sids_at (keys self.now.index) found)) }
        ensures within { IfOk result (λ found. AreWithin (keys self.now.index) found) }
    {
        let mut found = Walk::new(alloc)?;
        for start in starts {
            add_all(&mut found, groups_in(&self.index, start))?;
        }
        Ok(found)
    }
}

/// Adds numbers to those found.
fn add_all(found: &mut Walk, numbers: &[usize]) -> Result<(), AllocError>
    ensures { OnOk result (Extends (Contains numbers.now) found.old found.new) }
{
    for number in numbers {
        found.insert(*number)?;
    }
    Ok(())
}

/// Says of each further one, up to so many, from where it was found.
fn note(before: &mut Vec<Option<usize>>, len: usize, from: Option<usize>) -> Result<(), AllocError>
    ensures { OnOk result
        (before.new.items ≡ before.old.items ++ replicate (len - length before.old.items) from) }
{
    for _ in 0..len.saturating_sub(before.len()) {
        before.push(from)?;
    }
    Ok(())
}

/// The SIDs of the numbers found, in their order.
fn sids_of(alloc: Global, index: &Index, found: &Walk) -> Result<Vec<Sid>, AllocError>
    ensures sids { IfOk result (λ sids. sids.items ≡ filter_map (slice_get (keys index.now)) found.now) }
    ensures few { length found.now < 2 ^ 63 + 33 }
    ensures once { IsDistinct nat_eq found.now }
{
    let mut sids = Vec::with_capacity(alloc, found.len())?;
    for place in 0..found.len() {
        let Some(number) = found.at(place) else {
            break;
        };
        if let Some((sid, _)) = numbered(index, number) {
            sids.push(*sid)?;
        }
    }
    Ok(sids)
}
