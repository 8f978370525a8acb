//! A box as its pointer, in a form that C can hold.

ghost use Rattle.std.specs.Prelude.{◌≡◌, ◌<◌, ℕ};
ghost use Rattle.sd_c.specs.declared.handle.kept.Kept.{Kept};
ghost use Rattle.sd_c.specs.Handle.{seal_owns, kept_coded};

use super::kept::Kept;
use super::parts::Parts;
use std::alloc::Global;
use std::marker::Model;

/// A pointer to what is kept, if anything is. Dropping a seal frees nothing.
#[repr(C)]
#[derive(Drop)]
pub struct Seal {
    at: *mut (),
    alloc: Global,
    pub ghost there: { ℕ },
    pub ghost kept: { Kept } by { kept_coded },
}

impl Model for Seal {
    ghost also_owns = { λ s. seal_owns s.there s.alloc s.at s.kept };
}

impl Seal {
    pub(crate) fn none(alloc: Global) -> Seal
        ensures { result.there ≡ 0 }
    {
        Seal::empty(nowhere(), alloc)
    }

    pub(crate) fn of(kept: Box<Kept>) -> Seal
        ensures there { result.there ≡ 1 }
        ensures kept { result.kept ≡ kept.value }
    {
        Seal::of_parts(Parts::of(kept))
    }

    pub(crate) fn into_box(self) -> Box<Kept>
        requires { 0 < self.there }
        ensures { result.value ≡ self.kept }
    {
        self.into_parts().into_box()
    }

    fn empty(at: *mut (), alloc: Global) -> Seal
        ensures { result.there ≡ 0 }
    {
        Seal { at, alloc }
    }

    fn of_parts(parts: Parts<Kept, Global>) -> Seal
        ensures { (result.there ≡ 1) × (result.kept ≡ parts.value) }
    {
        let Parts { ptr, alloc } = parts;
        Seal {
            at: ptr as *mut (),
            alloc,
        }
    }

    fn into_parts(self) -> Parts<Kept, Global>
        requires { 0 < self.there }
        ensures { result.value ≡ self.kept }
    {
        let Seal { at, alloc } = self;
        Parts {
            ptr: at as *mut Kept,
            alloc,
        }
    }
}

fn nowhere() -> *mut () {
    std::ptr::null_mut()
}
