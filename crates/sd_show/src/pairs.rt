//! Which entries two lists have in common: the first of equal entries with the first, the second with the second, and
//! so on.

ghost use Rattle.std.specs.Prelude.{◌≡◌, ◌<◌, ◌^◌, IfOk, IfSome, length};
ghost use Rattle.std.specs.List.{count_by, position};
ghost use Rattle.sd_show.specs.Pairs.{common_within, counted_of, counts, is_partner, partner, partner_at, partners};
ghost use Rattle.sd_show.specs.Pairs.{values};
ghost use Rattle.sd_show.specs.Same.{same_entry};

use crate::same::same_entry;
use sd_whole::WholeAce;
use std::alloc::{AllocError, Global};

/// An entry, and how many equal ones are before it in its list.
#[derive(Clone, Copy)]
pub(crate) struct Counted<'a> {
    entry: &'a WholeAce,
    before: usize,
}

impl Counted<'_> {
    /// Whether the entries are equal, and as many equal ones are before either in its list.
    fn is_partner(&self, other: &Counted<'_>) -> bool
        ensures { result ≡ is_partner (counted_of self.now) (counted_of other.now) }
    {
        self.before == other.before && same_entry(self.entry, other.entry)
    }
}

/// The entries of a list, each with the number of equal ones before it.
#[tactic(auto, unfolding(crate::specs::Pairs::counts))]
pub(crate) fn counts<'a>(
    alloc: Global,
    entries: &'a [WholeAce],
) -> Result<Vec<Counted<'a>>, AllocError>
    ensures { IfOk result (λ list. values list.items ≡ counts entries.entry.now (length entries.entry.now)) }
{
    let mut list = Vec::new(alloc);
    for place in 0..entries.len() {
        let entry = &entries[place];
        let before = count_same(entry, &entries[..place]);
        list.push(Counted { entry, before })?;
    }
    Ok(list)
}

/// How many of these entries are equal to this one.
fn count_same(entry: &WholeAce, entries: &[WholeAce]) -> usize
    ensures { result ≡ count_by (same_entry entry.now) entries.now }
{
    entries
        .iter()
        .filter(|other| same_entry(entry, other))
        .count()
}

/// The number of each one's partner among the others, if it has one there.
pub(crate) fn partners(
    alloc: Global,
    list: &[Counted<'_>],
    others: &[Counted<'_>],
) -> Result<Vec<Option<usize>>, AllocError>
    ensures { IfOk result (λ found. found.items ≡ partners (values list.now) (values others.now)) }
{
    let mut found = Vec::new(alloc);
    for one in list {
        found.push(partner(one, others))?;
    }
    Ok(found)
}

/// The number of the partner, counted from 1.
#[tactic(auto, using(crate::proofs::Steps::partner_is))]
fn partner(one: &Counted<'_>, others: &[Counted<'_>]) -> Option<usize>
    ensures { result ≡ partner (values others.now) (counted_of one.now) }
{
    match place_of(one, others) {
        Some(place) => Some(place + 1),
        None => None,
    }
}

fn place_of(one: &Counted<'_>, others: &[Counted<'_>]) -> Option<usize>
    ensures found { result
        ≡ position (λ (other : Counted). is_partner (counted_of one.now) (counted_of other)) others.now }
    ensures low { IfSome result (λ place. place < 2 ^ 63) }
{
    others.iter().position(|other| one.is_partner(other))
}

/// The number of the partner of the entry at a place.
pub(crate) fn partner_at(partners: &[Option<usize>], place: usize) -> Option<usize>
    ensures { result ≡ partner_at partners.now place }
{
    match partners.get(place) {
        Some(partner) => *partner,
        None => None,
    }
}

/// How many of the first entries, so many, have a partner.
pub(crate) fn common_within(partners: &[Option<usize>], number: usize) -> usize
    ensures { result ≡ common_within partners.now number }
{
    partners
        .iter()
        .take(number)
        .filter(|partner| partner.is_some())
        .count()
}
