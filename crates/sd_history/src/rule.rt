//! The rule of the log, and what its two steps do.

use crate::entry::Entry;
use logbook::{Gain, Pen, Plain, Play, Rule};
use std::snapshot::Snapshot;

/// The rule: each entry's writer has used up its pen.
pub struct Chained;

impl<T> Rule<Entry<T>, u64> for Chained {
    ghost use Rattle.std.specs.Prelude.{[]};
    ghost use base.Fml.{ftrue};
    ghost use Rattle.sd_history.specs.Chains.{IsKept};

    ghost holds = { λ cells log. IsKept cells log };

    ghost first = { [] };

    ghost hinted = { λ n log. Unit {0} };

    ghost shows = { λ log. [] };

    ghost keeps = { λ names log. ftrue };

    ghost moves = { λ ask before after answer. Unit {0} };
}

/// What the client of a step has after it: nothing new.
pub struct Nothing;

impl<T> Gain<Entry<T>, u64> for Nothing {
    ghost use base.Fml.{ftrue};

    ghost after = { λ names about answer. ftrue };
}

/// The step that makes a pen.
pub struct Grows;

impl<T> Play<Entry<T>, u64> for Grows {
    ghost use Rattle.sd_history.specs.Chains.{MakesPen};

    ghost then = { MakesPen };
}

impl<T> Plain<u64, Entry<T>, u64> for Grows {
    ghost use Rattle.std.specs.Prelude.{[], None};
    ghost use Rattle.sd_history.specs.Chains.{entry};

    ghost ask = { λ _. entry [] 0 0 };

    ghost state = { λ _. None };
}

/// The step that writes.
pub struct Writes;

impl<T> Play<Entry<T>, u64> for Writes {
    ghost use Rattle.sd_history.specs.Chains.{Appends};

    ghost then = { Appends };
}

/// What to write, with which pen, and the pen that may write after it.
#[derive(Drop)]
pub struct Asking<T> {
    pub what: Snapshot<T>,
    pub own: Snapshot<Pen>,
    pub next: Snapshot<Pen>,
}

impl<T> Plain<Asking<T>, Entry<T>, u64> for Writes {
    ghost use Rattle.std.specs.Prelude.{[], ◌∷◌, None};
    ghost use Rattle.sd_history.specs.Chains.{entry};

    ghost ask = { λ a. entry (a.what.value ∷ []) a.own.value.nib.key a.next.value.nib.key };

    ghost state = { λ _. None };
}
