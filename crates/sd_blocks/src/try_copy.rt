//! Values that are copied by a call that may run out of memory.

ghost use Rattle.std.specs.Prelude.{◌≡◌, IfOk};

use std::alloc::AllocError;

/// A value with a copy that equals it. A shared block is copied element by element before its first write, so a copy
/// should cost little: a count of an `Arc`, a number.
pub trait TryCopy: Sized + Drop {
    /// An equal value.
    fn try_copy(&self) -> Result<Self, AllocError>
        ensures { IfOk result (λ copy. copy ≡ self.now) };
}

impl TryCopy for u64 {
    fn try_copy(&self) -> Result<u64, AllocError> {
        Ok(*self)
    }
}
