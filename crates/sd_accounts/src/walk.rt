//! The groups that a walk has found.

ghost use Rattle.std.specs.Prelude.{◌≡◌, ◌<◌, ◌^◌, ◌+◌, [], IfOk, OnOk, length, nat_eq, slice_get};
ghost use Rattle.std.specs.List.{IsDistinct, list_any};
ghost use Rattle.indexmap.specs.IndexSet.{insert_key};

use indexmap::IndexSet;
use std::alloc::{AllocError, Global};
use std::marker::Model;

/// How many numbers are compared in turn: most walks find fewer groups, and need no hash.
pub(crate) const FEW: usize = 32;

/// The groups that a walk has found, by their numbers, each once, in the order in which it found them. Contracts see
/// the list.
#[derive(Drop)]
pub(crate) struct Walk {
    first: Vec<usize>,
    /// Those after the first few.
    further: IndexSet<usize>,
}

impl Model for Walk {
    ghost use Rattle.std.specs.Prelude.{List, ℕ, ◌++◌, nat_eq};
    ghost use Rattle.std.specs.List.{IsDistinct};
    ghost use Rattle.sd_accounts.specs.Walk.{IsFilled};

    ghost Value = { List ℕ };

    ghost view = { λ w. w.first.items ++ w.further.keys };

    ghost invariant = { λ w. IsFilled w.first.items w.further.keys
        × IsDistinct nat_eq (w.first.items ++ w.further.keys) };
}

impl Walk {
    /// A walk that has found nothing, with memory for the first few. The only error is out of memory.
    pub(crate) fn new(alloc: Global) -> Result<Walk, AllocError>
        ensures { IfOk result (λ walk. walk ≡ []) }
    {
        Ok(Walk {
            first: Vec::with_capacity(alloc, FEW)?,
            further: IndexSet::new(alloc),
        })
    }

    /// Adds a number, unless it is found.
    #[tactic(auto, using(crate::proofs::Filled::found_before))]
    pub(crate) fn insert(&mut self, number: usize) -> Result<(), AllocError>
        ensures { OnOk result (self.new ≡ insert_key nat_eq self.old number) }
    {
        if is_among(&self.first, number) {
            return Ok(());
        }
        if self.first.len() < FEW {
            self.first.push(number)?;
        } else {
            self.further.insert(number)?;
        }
        Ok(())
    }

    /// How many are found.
    pub(crate) fn len(&self) -> usize
        ensures len { result ≡ length self.now }
        ensures few { result < 2 ^ 63 + 33 }
        ensures once { IsDistinct nat_eq self.now }
    {
        self.first.len() + self.further.len()
    }

    /// The number that was found at this place.
    pub(crate) fn at(&self, place: usize) -> Option<usize>
        ensures { result ≡ slice_get self.now place }
    {
        let few = self.first.len();
        if place < few {
            Some(self.first[place])
        } else {
            self.further.get_index(place - few).copied()
        }
    }
}

fn is_among(numbers: &[usize], number: usize) -> bool
    ensures { result ≡ list_any (nat_eq number) numbers.now }
{
    numbers.iter().any(|one| number == *one)
}
