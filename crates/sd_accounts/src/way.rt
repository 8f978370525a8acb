//! The ways to a group.

ghost use Rattle.std.specs.Prelude.{◌≡◌, ◌<◌, IfNone, IfOk, IfSome, length};
ghost use Rattle.std.specs.List.{HoldsAt, position};
ghost use Rattle.sd_sid.specs.Sid.{same_sid};
ghost use Rattle.sd_accounts.specs.Groups.{AreGroupsOf, Belongs};
ghost use Rattle.sd_accounts.specs.Way.{IsWay};

use crate::membership::Membership;
use sd_sid::Sid;
use std::alloc::{AllocError, Global};

impl Membership<'_> {
    /// The SIDs that one has.
    pub fn starts(&self) -> &[Sid]
        ensures { result.now ≡ self.now.starts }
    {
        self.starts
    }

    /// The groups to which one belongs, each once ([MS-DTYP] 2.4.2).
    pub fn groups(&self) -> &[Sid]
        ensures groups { result.now ≡ self.now.groups }
        ensures all { AreGroupsOf self.now.rows self.now.starts self.now.groups }
    {
        &self.groups
    }

    /// A way to a group ([MS-DTYP] 2.4.2): one of the SIDs is directly in its first group, each group is directly in
    /// the next, and the last is this one. None if one doesn't belong to it. The only error is out of memory.
    pub fn way_to(&self, alloc: Global, group: &Sid) -> Result<Option<Vec<Sid>>, AllocError>
        ensures way { IfOk result (λ found.
            IfSome found (λ way. IsWay self.now.rows self.now.starts group.now way.items)) }
        ensures none { IfOk result (λ found.
            IfNone found (Belongs self.now.rows self.now.starts group.now → ⊥)) }
    {
        match place_of(&self.groups, group) {
            Some(place) => Ok(Some(self.way_back(alloc, place)?)),
            None => Ok(None),
        }
    }

    /// A way to the group at this place. The only error is out of memory.
    fn way_back(&self, alloc: Global, place: usize) -> Result<Vec<Sid>, AllocError>
        requires { place < length self.now.groups }
        ensures { IfOk result (λ way.
            HoldsAt (λ group. IsWay self.now.rows self.now.starts group way.items)
            self.now.groups place) }
    {
        let mut way = Vec::new(alloc);
        let mut last = place;
        'back: while let Some(earlier) = self.before[last] {
            way.push(self.groups[last])?;
            last = earlier;
        }
        way.push(self.groups[last])?;
        way.reverse();
        Ok(way)
    }
}

/// The place of the group among those found.
fn place_of(found: &[Sid], group: &Sid) -> Option<usize>
    ensures { result ≡ position (λ one. same_sid one group.now) found.now }
{
    found.iter().position(|one| one.is(group))
}
