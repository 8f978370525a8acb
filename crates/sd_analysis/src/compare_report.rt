//! What is reported of a comparison.

ghost use Rattle.std.specs.Prelude.{◌≡◌, ◌||◌, ◌<◌, ℕ, Bool, true, false, OnOk, IfSome, length, slice_index_or};
ghost use Rattle.std.specs.List.{All};
ghost use Rattle.sd_sid.specs.Mask.{holds};
ghost use Rattle.sd_analysis.specs.Compare.{HasABit, is_reported};
ghost use Rattle.sd_analysis.specs.Report.{IsReport, IsLess};
ghost use Rattle.sd_analysis.specs.declared.compare_report.Change.{Change};
ghost use Rattle.sd_analysis.specs.declared.witness.Witness.{Witness};

use crate::witness::Witness;
use sd_sid::Mask;
use std::alloc::AllocError;

/// Bits that some token gains or loses, and a token that does.
#[derive(Clone, Copy, Debug, PartialEq, Eq)]
pub struct Change {
    pub mask: Mask,
    pub witness: Witness,
}

/// The changes so far, and the bits that none of them has.
#[derive(Drop)]
pub(crate) struct Report {
    pub(crate) changes: Vec<Change>,
    pub(crate) wanted: Mask,
}

impl Report {
    /// Reports of the bits those that are still wanted, with their witness.
    pub(crate) fn add(&mut self, witness: &Witness, mask: Mask) -> Result<(), AllocError>
        ensures report { OnOk result ((shows : Witness → ℕ → Bool) → IsReport shows self.old
            → ((b : ℕ) → holds mask b ≡ true → shows witness.now b ≡ true) → IsReport shows self.new) }
        ensures less { OnOk result (IsLess self.old self.new) }
        ensures gone { OnOk result ((b : ℕ) → b < 21 → holds mask b ≡ true → holds self.new.wanted b ≡ false) }
    {
        let bits = mask.common(self.wanted);
        if bits.is_empty() {
            return Ok(());
        }
        note(&mut self.changes, witness, bits)?;
        self.wanted = self.wanted.minus(bits);
        Ok(())
    }
}

/// Joins the bits with those that have the same witness already, if there are any.
fn note(changes: &mut Vec<Change>, witness: &Witness, bits: Mask) -> Result<(), AllocError>
    requires { HasABit bits }
    ensures reported { OnOk result ((b : ℕ) → b < 32
        → is_reported changes.new.items b ≡ (is_reported changes.old.items b || holds bits b)) }
    ensures shown { OnOk result ((shows : Witness → ℕ → Bool)
        → All (λ c. (b : ℕ) → holds c.mask b ≡ true → shows c.witness b ≡ true) changes.old.items
        → ((b : ℕ) → holds bits b ≡ true → shows witness.now b ≡ true)
        → All (λ c. (b : ℕ) → holds c.mask b ≡ true → shows c.witness b ≡ true) changes.new.items) }
    ensures some { OnOk result (All (λ c. HasABit c.mask) changes.old.items
        → All (λ c. HasABit c.mask) changes.new.items) }
{
    if let Some(place) = place_of(changes, witness) {
        let mask = changes[place].mask.union(bits);
        changes[place].mask = mask;
        return Ok(());
    }
    changes.push(Change {
        mask: bits,
        witness: *witness,
    })?;
    Ok(())
}

/// Where the witness stands, if it does.
fn place_of(changes: &[Change], witness: &Witness) -> Option<usize>
    ensures { IfSome result (λ i. (i < length changes.now) × ((d : Change)
        → (slice_index_or changes.now i d).witness ≡ witness.now)) }
{
    changes.iter().position(|change| change.witness.is(witness))
}
