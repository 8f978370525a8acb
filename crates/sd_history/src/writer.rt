//! The writer of a history.

ghost use Rattle.std.specs.Prelude.{◌≡◌, [], ◌∷◌, ◌++◌};
ghost use Rattle.logbook.specs.Pages.{may_write};
ghost use Rattle.sd_history.specs.Chains.{items_from, head_of};

use crate::chain::Chain;
use crate::entry::Entry;
use crate::front::Front;
use crate::rule::{Asking, Chained, Grows, Nothing, Writes};
use logbook::{Offer, Pen, Seen, Start, Word};
use std::marker::{Model, PhantomData};
use std::snapshot::Snapshot;

/// An empty history that has no name yet. It allocates nothing. Contracts see its book, the pen that starts it, and its
/// edits, of which there are none.
#[derive(Drop)]
pub struct Opened<T> {
    head: Word<Entry<T>, u64, Chained>,
    seen: Seen<Entry<T>, u64, Chained>,
    pen: Pen,
}

impl<T> Model for Opened<T> {
    ghost use Rattle.std.specs.Prelude.{◌≡◌, []};
    ghost use Rattle.logbook.specs.Pages.{may_write};
    ghost use Rattle.sd_history.specs.Chains.{Origin, items_from, head_of};

    ghost Value = { Origin T };

    ghost view = { λ o. record {
      book = o.seen.book;
      first = o.pen.nib.key;
      items = items_from o.pen.nib.key o.seen.log;
    } };

    ghost invariant = { λ o. (o.head ≡ head_of o.seen.book)
        × (o.seen.log ≡ [])
        × (o.pen.book ≡ o.seen.book)
        × (o.pen.nib.right ≡ may_write) };
}

impl<T> Opened<T> {
    /// A history without edits.
    pub fn new() -> Opened<T>
        ensures { result.items ≡ [] }
    {
        let (seen, mut first, _second) = Seen::open(Start::alone(), 0, 0);
        let head = Word::tracked(0, &mut first);
        let pen = fresh_pen(&head, &seen);
        Opened { head, seen, pen }
    }

    /// The writer of this history, which has written nothing, under the name that the caller picked.
    pub fn named<J: Chain>(self) -> HistoryWriter<T, J>
        requires { (self.book ≡ J.book) × (self.first ≡ J.first) }
        ensures { result ≡ [] }
    {
        let Opened { head, seen, pen } = self;
        HistoryWriter {
            head,
            seen,
            pen,
            of: PhantomData,
        }
    }
}

/// The only writer of a history. Contracts see the edits so far, in the order in which they were written.
#[derive(Drop)]
pub struct HistoryWriter<T, J: Chain> {
    head: Word<Entry<T>, u64, Chained>,
    seen: Seen<Entry<T>, u64, Chained>,
    pen: Pen,
    of: PhantomData<J>,
}

impl<T, J: Chain> Model for HistoryWriter<T, J> {
    ghost use Rattle.std.specs.Prelude.{◌≡◌, List};
    ghost use Rattle.logbook.specs.Pages.{may_write};
    ghost use Rattle.sd_history.specs.Chains.{items_from, end_of, head_of};

    ghost Value = { List T };

    ghost view = { λ p. items_from J.first p.seen.log };

    ghost invariant = { λ p. (p.head ≡ head_of J.book)
        × (p.seen.book ≡ J.book)
        × (p.pen.book ≡ J.book)
        × (p.pen.nib.right ≡ may_write)
        × (end_of J.first p.seen.log ≡ p.pen.nib.key) };
}

impl<T, J: Chain> HistoryWriter<T, J> {
    /// The front that has seen exactly the edits so far.
    pub fn front(&self) -> Front<T>
        ensures { (result.book ≡ J.book) × (items_from J.first result.log ≡ self.now) }
    {
        Front {
            seen: self.seen.again(),
        }
    }

    /// Appends one edit.
    pub fn write(&mut self, what: &T)
        ensures { self.new ≡ self.old ++ what.now ∷ [] }
    {
        let next = fresh_pen(&self.head, &self.seen);
        let asking = Asking {
            what: Snapshot::of(what),
            own: Snapshot::of(&self.pen),
            next: Snapshot::of(&next),
        };
        let mut offer: Offer<Entry<T>, u64, Chained, Nothing> = self
            .seen
            .plain::<Nothing, Asking<T>, Writes>(&asking);
        self.head
            .compare_exchange::<Writes, Nothing>(0, 0, &mut self.seen, &mut offer, &mut self.pen);
        self.pen = next;
    }
}

/// A pen with which nothing was written yet. The step is made on a copy of what was seen, since its contract says only
/// that the log has grown.
fn fresh_pen<T>(head: &Word<Entry<T>, u64, Chained>, seen: &Seen<Entry<T>, u64, Chained>) -> Pen
    requires { head.now ≡ head_of seen.now.book }
    ensures { (result.book ≡ seen.now.book) × (result.nib.right ≡ may_write) }
{
    let mut copy = seen.again();
    let mut offer: Offer<Entry<T>, u64, Chained, Nothing> = copy.plain::<Nothing, u64, Grows>(&0);
    let mut pen = copy.no_pen();
    head.compare_exchange::<Grows, Nothing>(0, 0, &mut copy, &mut offer, &mut pen);
    let _word: Word<Entry<T>, u64, Chained> = Word::tracked(0, &mut pen);
    pen
}
