//! Values that nodes, journals, plans and trees share.

ghost use Rattle.std.specs.Prelude.{◌≡◌, IfOk, IfSome, MatchResult};
ghost use Rattle.std.specs.Borrow.{LendsIf, sem};
ghost use Rattle.sd_tree.specs.contracts.shared.Shared.{the_row};

use sd_blocks::TryCopy;
use std::alloc::{AllocError, Global};
use std::marker::Model;
use std::sync::Arc;

/// A value that is kept once, however many hold it. Contracts see the value.
#[derive(Debug, Drop)]
pub struct Shared<T> {
    value: Arc<T>,
}

impl<T> Model for Shared<T> {
    ghost use Rattle.std.specs.Arc.{arc_value};

    ghost Value = { T };

    ghost view = { λ s. arc_value s.value };
}

impl<T: Drop> TryCopy for Shared<T> {
    fn try_copy(&self) -> Result<Shared<T>, AllocError> {
        self.share()
    }
}

impl<T: Drop> Shared<T> {
    /// The value, for its first holder.
    pub(crate) fn new(alloc: Global, value: T) -> Result<Shared<T>, AllocError>
        ensures { IfOk result (λ shared. shared ≡ value) }
    {
        let value = Arc::new(alloc, value)?;
        Ok(Shared { value })
    }

    /// The value, for its first holder; it comes back where memory for it is refused.
    pub fn try_new(alloc: Global, value: T) -> Result<Shared<T>, T>
        ensures { MatchResult result (λ shared. shared ≡ value) (λ back. back ≡ value) }
    {
        match Arc::new(alloc, value) {
            Ok(value) => Ok(Shared { value }),
            Err(refused) => Err(refused.value),
        }
    }

    /// The value, for one holder more. `AllocError` only where its count of holders is full.
    pub fn share(&self) -> Result<Shared<T>, AllocError>
        ensures { IfOk result (λ shared. shared ≡ self.now) }
    {
        let value = Arc::try_clone(&self.value)?;
        Ok(Shared { value })
    }

    /// The value.
    pub fn get(&self) -> &T
        ensures { result.now ≡ self.now }
    {
        &self.value
    }

    /// The value, to be changed, where it has no other holder.
    pub fn get_mut(&mut self) -> Option<&mut T>
        ensures* writes_back { sem 𝓛 (LendsIf (the_row T.row) T.row self.entry result (λ w. w) self.entry.now) }
        ensures value { IfSome result (λ value. value.now ≡ self.old) }
    {
        Arc::get_mut(&mut self.value)
    }
}
