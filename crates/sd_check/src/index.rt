//! Finds an entry's SID among those of a token. Each SID has one of 1,024 places. Most entries' SIDs have a place that
//! no SID of the token has; any other is compared with those of its place alone.

ghost use Rattle.std.specs.Prelude.{◌≡◌, ◌<◌, ◌+◌, ◌-◌, ◌||◌, ◌&&◌, true, false, List, length, drop, slice_index};
ghost use Rattle.std.specs.Prelude.{slice_index_or, IfSome};
ghost use Rattle.std.specs.List.{list_any};
ghost use Rattle.sd_sid.specs.Sid.{SidValue, same_sid, owner_rights};
ghost use Rattle.sd_acl.specs.declared.ace.AceKind.{AceKind};
ghost use Rattle.sd_check.specs.declared.token.GroupState.{GroupState};
ghost use Rattle.sd_check.specs.Index.{IsIndex, IsMarked, Keeps, MarksEach, may_hold, place_of};
ghost use Rattle.sd_check.specs.Token.{a_group_stands_for, counts};

use crate::entry::Trustee;
use crate::token::GroupState;
use sd_acl::AceKind;
use sd_sid::Sid;

/// The number of places.
const PLACES: usize = 1024;

/// The number of groups that chains lead to: a link is 8 bits wide, and two of its values are no group's.
const MAX_CHAINED: usize = 254;

/// The place of OWNER RIGHTS, S-1-3-4 ([MS-DTYP] 2.4.2.4).
const OWNER_RIGHTS_PLACE: usize = 4;

/// The user or a group, and how it counts.
type Member = (Sid, GroupState);

/// For each place a chain of the groups whose SIDs have it, the last first, and then the user. A link is 0 at the end
/// of a chain, 1 for the user, and a group's number and 2 for a group. The places of OWNER RIGHTS, of restricting SIDs
/// and of groups beyond the first 254 are marked: their chains end with the user too.
#[derive(Clone, Copy, Debug)]
pub(crate) struct Index {
    /// For each place the first link of its chain.
    heads: [u8; 1024],
    /// For the user, and then for each group, the next link.
    nexts: [u8; 255],
}

impl Index {
    /// The index of a user, of the groups that count for anything, of restricting SIDs and of OWNER RIGHTS.
    pub(crate) fn new(user: &Sid, groups: &[Member], restricting: &[Sid]) -> Index
        ensures chains { IsIndex result.heads result.nexts groups.now (length groups.now) }
        ensures user { IsMarked result.heads result.nexts user.now }
        ensures marks { MarksEach result.heads result.nexts groups.now restricting.now }
    {
        let mut index = Index {
            heads: [0; 1024],
            nexts: [0; 255],
        };
        index.mark(OWNER_RIGHTS_PLACE);
        index.mark(place_of(user));
        index.mark_each(restricting);
        index.mark_groups(beyond_chains(groups));
        for (number, group_state) in groups.iter().enumerate() {
            let (group, state) = group_state;
            if number < MAX_CHAINED && state.counts(AceKind::Deny) {
                index.add(number, group);
            }
        }
        index
    }

    /// Adds the group of this number, after all those before it.
    fn add(&mut self, number: usize, group: &Sid)
        requires { number < 254 }
        ensures chains { (groups : List (SidValue × GroupState))
            → ((d : SidValue × GroupState) → (slice_index_or groups number d).0 ≡ group.now)
            → IsIndex self.old.heads self.old.nexts groups number
            → IsIndex self.new.heads self.new.nexts groups (number + 1) }
        ensures marks { (groups : List (SidValue × GroupState)) (s : SidValue)
            → IsIndex self.old.heads self.old.nexts groups number
            → IsMarked self.old.heads self.old.nexts s → IsMarked self.new.heads self.new.nexts s }
    {
        let place = place_of(group);
        self.nexts[number + 1] = self.heads[place];
        self.heads[place] = number as u8 + 2;
    }

    /// Marks the places of restricting SIDs.
    fn mark_each(&mut self, sids: &[Sid])
        ensures kept { Keeps self.old.heads self.old.nexts self.new.heads self.new.nexts }
        ensures here { (s : SidValue) → list_any (λ one. same_sid one s) sids.now ≡ true
            → IsMarked self.new.heads self.new.nexts s }
    {
        'sids: for sid in sids {
            self.mark(place_of(sid));
        }
    }

    /// Marks the places of groups that no chain leads to.
    fn mark_groups(&mut self, groups: &[Member])
        ensures kept { Keeps self.old.heads self.old.nexts self.new.heads self.new.nexts }
        ensures here { (kind : AceKind) (s : SidValue) → a_group_stands_for groups.now kind s ≡ true
            → IsMarked self.new.heads self.new.nexts s }
    {
        'groups: for place in groups {
            self.mark(place_of(&place.0));
        }
    }

    /// Marks a place, before any group is added.
    #[tactic(auto, using(crate::proofs::Chains::mark_here))]
    fn mark(&mut self, place: usize)
        requires { place < 1024 }
        ensures kept { Keeps self.old.heads self.old.nexts self.new.heads self.new.nexts }
        ensures here { (s : SidValue) → place ≡ place_of s → IsMarked self.new.heads self.new.nexts s }
    {
        self.heads[place] = 1;
    }

    /// Whether the SID's place has a link.
    #[inline(always)]
    pub(crate) fn may_hold<S: Trustee>(&self, sid: &S) -> bool
        ensures { result ≡ may_hold self.now.heads (S.sid sid.now) }
    {
        self.heads[sid.last_sub() as usize % PLACES] != 0
    }

    /// Whether the user or a group has the SID and counts for an entry of the kind: where the SID's place has one
    /// group and isn't marked, as most places with a link; else `None`.
    #[inline(always)]
    pub(crate) fn stands_for_in_one_look(
        &self,
        user: &Member,
        groups: &[Member],
        kind: AceKind,
        sid: &Sid,
    ) -> Option<bool>
        requires chains { IsIndex self.now.heads self.now.nexts groups.now (length groups.now) }
        requires user { IsMarked self.now.heads self.now.nexts user.now.0 }
        ensures { IfSome result (λ stands. (IsMarked self.now.heads self.now.nexts sid.now → ⊥)
            × (a_group_stands_for (drop 254 groups.now) kind sid.now ≡ false
            → ((same_sid user.now.0 sid.now && counts kind user.now.1) || a_group_stands_for groups.now kind sid.now)
            ≡ stands)) }
    {
        let link = self.heads[place_of(sid)] as usize;
        if link > 1 && self.nexts[link - 1] == 0 {
            return Some(stands_for(&groups[link - 2], kind, sid));
        }
        None
    }

    /// Whether the user or a group has the SID and counts for an entry of the kind.
    #[inline(always)]
    pub(crate) fn stands_for(
        &self,
        user: &Member,
        groups: &[Member],
        kind: AceKind,
        sid: &Sid,
    ) -> bool
        requires chains { IsIndex self.now.heads self.now.nexts groups.now (length groups.now) }
        requires user { IsMarked self.now.heads self.now.nexts user.now.0 }
        ensures { result ≡ ((same_sid user.now.0 sid.now && counts kind user.now.1)
            || a_group_stands_for groups.now kind sid.now) }
    {
        let mut link = self.heads[place_of(sid)] as usize;
        while link > 1 {
            if stands_for(&groups[link - 2], kind, sid) {
                return true;
            }
            link = self.nexts[link - 1] as usize;
        }
        link == 1 && stands_for(user, kind, sid) || one_beyond_chains(groups, kind, sid)
    }
}

/// The place of a SID.
#[inline(always)]
fn place_of(sid: &Sid) -> usize
    ensures place { result ≡ place_of sid.now }
    ensures small { result < 1024 }
{
    last_sub(sid) as usize % PLACES
}

/// The SID's last sub-authority, in which SIDs differ most.
#[inline(always)]
pub(crate) fn last_sub(sid: &Sid) -> u32
    ensures { result ≡ slice_index sid.now.subs (length sid.now.subs - 1) }
{
    let subs = sid.subs();
    subs[subs.len() - 1]
}

/// The groups that no chain leads to.
#[inline(always)]
fn beyond_chains(groups: &[Member]) -> &[Member]
    ensures { result.now ≡ drop 254 groups.now }
{
    if groups.len() > MAX_CHAINED {
        &groups[MAX_CHAINED..]
    } else {
        &[]
    }
}

/// Whether one of them has the SID, and counts for an entry of the kind.
#[inline(always)]
fn one_beyond_chains(groups: &[Member], kind: AceKind, sid: &Sid) -> bool
    ensures { result ≡ a_group_stands_for (drop 254 groups.now) kind sid.now }
{
    let beyond = beyond_chains(groups);
    !beyond.is_empty() && a_group_stands_for(beyond, kind, sid)
}

/// Whether one of the groups has the SID, and counts for an entry of the kind.
#[inline(never)]
fn a_group_stands_for(groups: &[Member], kind: AceKind, sid: &Sid) -> bool
    ensures { result ≡ a_group_stands_for groups.now kind sid.now }
{
    groups.iter().any(|place| stands_for(place, kind, sid))
}

/// Whether the user or group has the SID, and counts for an entry of the kind.
#[inline(always)]
fn stands_for(place: &Member, kind: AceKind, sid: &Sid) -> bool
    ensures { result ≡ (same_sid place.now.0 sid.now && counts kind place.now.1) }
{
    let (group, state) = place;
    group.is(sid) && state.counts(kind)
}
