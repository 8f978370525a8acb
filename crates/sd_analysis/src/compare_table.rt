//! What two lists grant with each of many SIDs, in one walk over each.

ghost use Rattle.std.specs.Prelude.{◌≡◌, ◌<◌, ◌&&◌, ℕ, Option, Some, None, IfOk, OnOk, List, length, map, fold, true};
ghost use Rattle.std.specs.Prelude.{slice_index_or};
ghost use Rattle.std.specs.Option.{is_some};
ghost use Rattle.sd_sid.specs.Mapping.{MappingValue};
ghost use Rattle.sd_sid.specs.Sid.{SidValue};
ghost use Rattle.sd_check.specs.declared.token.GroupState.{GroupState};
ghost use Rattle.sd_analysis.specs.Sufficient.{Parts, parts_of};
ghost use Rattle.sd_analysis.specs.Table.{AreBeforeAndAfter, IsOtherSid, IsListing, IsTable, all_allowed, applies_in};
ghost use Rattle.sd_analysis.specs.Table.{counts_in, first_point, is_at, listed_of, nothing_decided};
ghost use Rattle.sd_analysis.specs.Table.{point_after, point_at, row_of, share_after};

use crate::base::Base;
use crate::compare_sides::DescriptorRef;
use crate::places::{place_of, places_of};
use sd_acl::{Ace, AceKind};
use sd_check::{Pass, subject_of};
use sd_sid::{GenericMapping, Mask, OBJECT_RIGHTS, Sid};
use std::alloc::{AllocError, Global};

/// An entry, as a walk takes it.
#[derive(Clone, Copy)]
pub(crate) struct EntryRow {
    pub(crate) kind: AceKind,
    /// What it decides where it applies.
    pub(crate) mask: Mask,
    /// The place of its subject among the SIDs, or their number.
    pub(crate) place: usize,
    /// Whether the base stands for its subject.
    pub(crate) is_based: bool,
}

/// The rows of a descriptor's list, if it has one.
#[derive(Drop)]
pub(crate) struct Listing {
    pub(crate) is_list: bool,
    pub(crate) rows: Vec<EntryRow>,
}

/// A pass, and the place of a SID that is there beside each other one: these then deny only, in the first pass.
#[derive(Clone, Copy)]
pub(crate) struct WalkPass {
    pub(crate) pass: Pass,
    pub(crate) other_sid: Option<usize>,
}

/// The rights that no entry decided so far, and those that one allowed.
#[derive(Clone, Copy)]
pub(crate) struct DecidedRights {
    pub(crate) undecided: Mask,
    pub(crate) allowed: Mask,
}

/// What a list comes to: by the entries that apply whichever SID is there, and at each place by those of its SID.
#[derive(Drop)]
pub(crate) struct RightsBySid {
    pub(crate) common: DecidedRights,
    pub(crate) own: Vec<DecidedRights>,
}

/// What the lists of both descriptors of a comparison come to.
#[derive(Drop)]
pub(crate) struct BeforeAndAfter {
    pub(crate) before: RightsBySid,
    pub(crate) after: RightsBySid,
}

/// The SIDs of a comparison by their places, the rows of both lists, and what these grant in each pass with one of the
/// SIDs.
#[derive(Drop)]
pub(crate) struct Table {
    /// For each of the SIDs the place of the first that is the same.
    pub(crate) places: Vec<usize>,
    pub(crate) old: Listing,
    pub(crate) new: Listing,
    pub(crate) first: BeforeAndAfter,
    pub(crate) second: BeforeAndAfter,
}

/// What no entry came to.
const NOTHING_DECIDED: DecidedRights = DecidedRights {
    undecided: OBJECT_RIGHTS,
    allowed: Mask(0),
};

/// What a missing list comes to.
const ALL_ALLOWED: DecidedRights = DecidedRights {
    undecided: Mask(0),
    allowed: OBJECT_RIGHTS,
};

impl Table {
    /// The table of these SIDs.
    pub(crate) fn new(
        alloc: Global,
        sids: &[Sid],
        old: &DescriptorRef<'_>,
        new: &DescriptorRef<'_>,
        mapping: &GenericMapping,
        base: &Base<'_>,
    ) -> Result<Table, AllocError>
        ensures { let before = parts_of old.now in let after = parts_of new.now in
            IfOk result (IsTable mapping.now base.now sids.now before after) }
    {
        let places = places_of(alloc, sids)?;
        let old_listing = old.listing(alloc, sids, mapping, base)?;
        let new_listing = new.listing(alloc, sids, mapping, base)?;
        let mut first = BeforeAndAfter::new(alloc, sids.len())?;
        let mut second = BeforeAndAfter::new(alloc, sids.len())?;
        let walk_pass = WalkPass {
            pass: Pass::First,
            other_sid: None,
        };
        first.walk(&old_listing, &new_listing, walk_pass);
        let again = WalkPass {
            pass: Pass::Second,
            other_sid: None,
        };
        second.walk(&old_listing, &new_listing, again);
        Ok(Table {
            places,
            old: old_listing,
            new: new_listing,
            first,
            second,
        })
    }

    /// What both lists grant in the pass with one of the SIDs.
    pub(crate) fn alone(&self, pass: Pass) -> &BeforeAndAfter
        ensures { (g : MappingValue) (base : List (SidValue × GroupState)) (sids : List SidValue) (old new : Parts)
            → IsTable g base sids old new self.now → AreBeforeAndAfter g base sids old new pass None result.now }
    {
        match pass {
            Pass::First => &self.first,
            Pass::Second => &self.second,
        }
    }
}

impl DescriptorRef<'_> {
    /// The rows of its list.
    fn listing(
        &self,
        alloc: Global,
        sids: &[Sid],
        mapping: &GenericMapping,
        base: &Base<'_>,
    ) -> Result<Listing, AllocError>
        ensures { let parts = parts_of self.now in IfOk result (IsListing mapping.now base.now sids.now parts) }
    {
        let rows = rows_of(alloc, &self.owner, self.entries(), sids, mapping, base)?;
        Ok(Listing {
            is_list: self.has_list(),
            rows,
        })
    }
}

fn rows_of(
    alloc: Global,
    owner: &Option<Sid>,
    entries: &[Ace],
    sids: &[Sid],
    mapping: &GenericMapping,
    base: &Base<'_>,
) -> Result<Vec<EntryRow>, AllocError>
    ensures { IfOk result (λ rows. rows.items ≡ map (row_of mapping.now base.now sids.now owner.now) entries.now) }
{
    entries
        .iter()
        .map(|entry| row_of(owner, entry, sids, mapping, base))
        .collect(alloc)
}

fn row_of(
    owner: &Option<Sid>,
    entry: &Ace,
    sids: &[Sid],
    mapping: &GenericMapping,
    base: &Base<'_>,
) -> EntryRow
    ensures { result ≡ row_of mapping.now base.now sids.now owner.now entry.now }
{
    match subject_of(owner, &entry.sid) {
        None => EntryRow {
            kind: entry.kind,
            mask: Mask(0),
            place: sids.len(),
            is_based: false,
        },
        Some(subject) => EntryRow {
            kind: entry.kind,
            mask: mapping.map(entry.mask).only_if(!entry.is_inherit_only()),
            place: place_of(sids, subject),
            is_based: base.stands_for(entry.kind, subject),
        },
    }
}

impl BeforeAndAfter {
    /// Room for this number of SIDs.
    pub(crate) fn new(alloc: Global, count: usize) -> Result<BeforeAndAfter, AllocError>
        ensures before { IfOk result (λ both. length both.before.own.items ≡ count) }
        ensures after { IfOk result (λ both. length both.after.own.items ≡ count) }
    {
        Ok(BeforeAndAfter {
            before: RightsBySid::new(alloc, count)?,
            after: RightsBySid::new(alloc, count)?,
        })
    }

    /// What the lists grant in the pass.
    pub(crate) fn walk(&mut self, old: &Listing, new: &Listing, walk_pass: WalkPass)
        ensures { (g : MappingValue)
            (base : List (SidValue × GroupState)) (sids : List SidValue) (one other : Parts)
            (other_sid : Option SidValue)
            → IsListing g base sids one old.now → IsListing g base sids other new.now
            → IsOtherSid sids other_sid walk_pass.other_sid
            → length self.old.before.own.items ≡ length sids → length self.old.after.own.items ≡ length sids
            → AreBeforeAndAfter g base sids one other walk_pass.pass other_sid self.new }
    {
        self.before.walk(old, walk_pass);
        self.after.walk(new, walk_pass);
    }
}

impl RightsBySid {
    /// Room for this number of SIDs.
    fn new(alloc: Global, count: usize) -> Result<RightsBySid, AllocError>
        ensures { IfOk result (λ shares. length shares.own.items ≡ count) }
    {
        Ok(RightsBySid {
            common: NOTHING_DECIDED,
            own: vec![in alloc; NOTHING_DECIDED; count]?,
        })
    }

    /// What the list comes to in the pass.
    fn walk(&mut self, listing: &Listing, walk_pass: WalkPass)
        ensures room { length self.new.own.items ≡ length self.old.own.items }
        ensures points { (place : ℕ) → place < length self.old.own.items
            → point_at self.new place
            ≡ fold (point_after walk_pass place) (first_point listing.now.is_list) listing.now.rows.items }
    {
        self.begin(listing.is_list);
        self.take_rows(&listing.rows, walk_pass);
    }

    /// Starts over, with a list or without one.
    fn begin(&mut self, is_list: bool)
        ensures room { length self.new.own.items ≡ length self.old.own.items }
        ensures points { (place : ℕ) → point_at self.new place ≡ first_point is_list }
    {
        for place in 0..self.own.len() {
            self.own[place] = NOTHING_DECIDED;
        }
        self.common = first_share(is_list);
    }

    fn take_rows(&mut self, rows: &[EntryRow], walk_pass: WalkPass)
        ensures room { length self.new.own.items ≡ length self.old.own.items }
        ensures points { (place : ℕ) → place < length self.old.own.items
            → point_at self.new place ≡ fold (point_after walk_pass place) (point_at self.old place) rows.now }
    {
        for row in rows {
            self.take(row, walk_pass);
        }
    }

    /// One entry more.
    #[inline(always)]
    fn take(&mut self, row: &EntryRow, walk_pass: WalkPass)
        ensures room { length self.new.own.items ≡ length self.old.own.items }
        ensures points { (place : ℕ) → place < length self.old.own.items
            → point_at self.new place ≡ point_after walk_pass place (point_at self.old place) row.now }
    {
        if walk_pass.applies(row) {
            self.common = self.common.after(row.mask, row.kind);
            return;
        }
        if !walk_pass.counts(row.kind) {
            return;
        }
        if row.place >= self.own.len() {
            return;
        }
        let left = row.mask.common(self.common.undecided);
        let share = self.own[row.place].after(left, row.kind);
        self.own[row.place] = share;
    }

    /// What the list grants with the SID of the place.
    #[inline(always)]
    pub(crate) fn listed(&self, place: usize) -> Mask
        requires { place < length self.now.own.items }
        ensures { result ≡ listed_of (point_at self.now place) }
    {
        let own = self.own[place];
        own.allowed.union(self.common.allowed.common(own.undecided))
    }
}

fn first_share(is_list: bool) -> DecidedRights
    ensures { result ≡ (first_point is_list).common }
{
    if is_list {
        NOTHING_DECIDED
    } else {
        ALL_ALLOWED
    }
}

impl DecidedRights {
    #[inline(always)]
    fn after(self, mask: Mask, kind: AceKind) -> DecidedRights
        ensures { result ≡ share_after self mask kind }
    {
        let decided = mask.common(self.undecided);
        let undecided = self.undecided.minus(decided);
        let more = decided.only_if(kind.is_allow());
        let allowed = self.allowed.union(more);
        DecidedRights { undecided, allowed }
    }
}

impl WalkPass {
    /// Whether the entry applies whichever SID is there.
    #[inline(always)]
    fn applies(self, row: &EntryRow) -> bool
        ensures { result ≡ applies_in self.pass self.other_sid row.now }
    {
        match self.pass {
            Pass::First => row.is_based || self.is_beside(row.place),
            Pass::Second => self.is_beside(row.place),
        }
    }

    #[inline(always)]
    fn is_beside(self, place: usize) -> bool
        ensures { result ≡ is_at self.other_sid place }
    {
        match self.other_sid {
            None => false,
            Some(one) => place == one,
        }
    }

    /// Whether an entry of the kind applies where its SID is there.
    #[inline(always)]
    fn counts(self, kind: AceKind) -> bool
        ensures { result ≡ counts_in self.pass self.other_sid kind }
    {
        match (self.other_sid, self.pass) {
            (None, _) => true,
            (Some(_), Pass::First) => !kind.is_allow(),
            (Some(_), Pass::Second) => true,
        }
    }
}
