//! What a caller keeps between calls: the content of a handle.

ghost use Rattle.std.specs.Prelude.{◌≡◌, ◌<◌, ◌≤◌, IfNone, IfSome};

mod kept;
mod parts;
mod seal;

pub use kept::Kept;
pub use seal::Seal;
use std::alloc::Global;

/// A box that is kept for the caller, or nothing: zeros are nothing. C holds it as a pointer and a number, and passes
/// it to one call at a time. Dropping a handle frees nothing: `hudarin_release` does.
#[repr(C)]
#[derive(Drop)]
pub struct Handle {
    pub seal: Seal,
    pub is_there: u32,
    ghost small: { is_there ≤ 1 },
    ghost agrees: { seal.there ≡ is_there },
}

impl Handle {
    /// What the handle keeps, taken out of it.
    pub(crate) fn take(&mut self, alloc: Global) -> Option<Box<Kept>>
        ensures none { IfNone result (self.old.is_there ≡ 0) }
        ensures some { IfSome result (λ kept. (self.old.is_there ≡ 1) × (kept.value ≡ self.old.seal.kept)) }
        ensures empty { self.new.is_there ≡ 0 }
        ensures same { self.old.is_there ≡ 0 → self.new ≡ self.old }
    {
        if self.is_there == 0 {
            return None;
        }
        let seal = std::mem::replace(&mut self.seal, Seal::none(alloc));
        self.is_there = 0;
        Some(seal.into_box())
    }

    /// Puts something into a handle that keeps nothing.
    pub(crate) fn put(&mut self, kept: Box<Kept>)
        requires { self.old.is_there ≡ 0 }
        ensures there { self.new.is_there ≡ 1 }
        ensures kept { self.new.seal.kept ≡ kept.value }
    {
        self.seal = Seal::of(kept);
        self.is_there = 1;
    }
}
