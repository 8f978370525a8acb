//! The one writer of a store.

ghost use Rattle.std.specs.Prelude.{◌≡◌, ◌∷◌, ◌++◌, [], None, length, IfOk, IfErr, OnOk, MatchResult};
ghost use Rattle.sd_edit.specs.Journal.{refusal};
ghost use Rattle.sd_store.specs.Errors.{IsEditError};

use crate::error::{EditError, PublishError};
use crate::notice::{Listed, Notice};
use crate::publishing::publish_all;
use crate::rule::Cell;
use crate::store_id::StoreId;
use boxcar::tag::Tag;
use sd_history::HistoryWriter;
use sd_tree::{Edit, Tree};
use sd_versions::Versions;
use std::marker::{Model, PhantomData};
use std::sync::Wait;
use std::{fmt, mem};

/// The writer of a store. It isn't `Drop`: end it by `end`. Contracts see the published journal, its marks, and the
/// pending edits.
pub struct StoreWriter<J: StoreId> {
    /// The tree that readers see, and the one that takes the edits.
    pub(crate) versions: Versions,
    /// What writes the history of accepted edits.
    pub(crate) history: HistoryWriter<Edit, J>,
    /// The shared store; away during a publish alone.
    pub(crate) cell: Option<Cell<J>>,
}

impl<J: StoreId> Model for StoreWriter<J> {
    ghost use Rattle.std.specs.Prelude.{◌≡◌, drop, MatchOption};
    ghost use Rattle.std.specs.Option.{option_map_or};
    ghost use Rattle.left_right.specs.Sides.{view as client_of};
    ghost use Rattle.sd_versions.specs.Versions.{accepted};
    ghost use Rattle.sd_store.specs.Rules.{store_id, IsReady};
    ghost use Rattle.sd_store.specs.Sights.{StoreState, state_of, blank};

    ghost Value = { StoreState };

    ghost view = { λ w. option_map_or (λ c. state_of (client_of c.desk.place) w.versions.pending) w.cell blank };

    ghost invariant = { λ w. MatchOption w.cell ⊥ (λ c.
        IsReady (store_id J.opening J.book J.first)
        (client_of c.desk.place) c.desk.shown.value (drop c.behind c.log.items)
        × (w.versions.opening ≡ J.opening)
        × (w.versions.published ≡ c.desk.shown.value.tree.journal)
        × (w.history ≡ accepted w.versions)) };
}

/// Shows the length of the published journal, and how many edits are pending.
impl<J: StoreId> fmt::Debug for StoreWriter<J> {
    fn fmt<W: fmt::Write>(&self, f: &mut fmt::Formatter<W>) -> fmt::Result {
        f.debug_struct("StoreWriter")
            .field("published", &self.published_len())
            .field("pending", &self.pending_len())
            .finish_non_exhaustive()
    }
}

impl<J: StoreId> StoreWriter<J> {
    /// The edit becomes pending, or the first refusal that fits the published journal followed by the pending edits is
    /// answered and nothing changes; out of memory only where none is due that is found without it. No reader sees the
    /// edit before a publish.
    pub fn edit(&mut self, edit: &Edit) -> Result<(), EditError>
        ensures published { (self.new.journal ≡ self.old.journal) × (self.new.marks ≡ self.old.marks) }
        ensures pending { MatchResult result
            (λ _. self.new.pending ≡ self.old.pending ++ edit.now ∷ [])
            (λ _. self.new.pending ≡ self.old.pending) }
        ensures accepted { OnOk result (refusal J.opening (self.old.journal ++ self.old.pending) edit.now ≡ None) }
        ensures refused { IfErr result (λ e.
            IsEditError e (refusal J.opening (self.old.journal ++ self.old.pending) edit.now)) }
    {
        self.versions.edit(edit)?;
        self.history.write(edit);
        Ok(())
    }

    /// Readers see all pending edits, at one moment: the published journal goes on by just these, and has one mark
    /// more, its new length, which is answered. So it is also where no edit is pending. At an error nothing was
    /// published, and the same edits are pending. It waits for readers that are within a check.
    pub fn publish<R: Wait>(&mut self, rt: &R) -> Result<u64, PublishError>
        ensures published { IfOk result (λ n. (self.new.journal ≡ self.old.journal ++ self.old.pending)
            × (n ≡ length self.new.journal)) }
        ensures marks { IfOk result (λ n. self.new.marks ≡ self.old.marks ++ n ∷ []) }
        ensures pending { OnOk result (self.new.pending ≡ []) }
        ensures refused { IfErr result (λ _. self.new ≡ self.old) }
    {
        let front = self.history.front();
        let Ok(tree) = self.versions.draft_snapshot() else {
            return Err(PublishError::Memory);
        };
        let length = tree.get().len();
        let Some(cell) = self.cell.take() else {
            unreachable!()
        };
        let (cell, done) = publish_all(rt, cell, tree, front);
        match mem::replace(&mut self.cell, Some(cell)) {
            None => {}
            Some(_) => unreachable!(),
        }
        if done.is_err() {
            return Err(PublishError::Memory);
        }
        self.versions.publish();
        Ok(length)
    }

    /// What is published now, for readers to learn. Takes no memory, and waits for nobody.
    pub fn tell(&mut self) -> Notice<J>
        ensures same { self.new ≡ self.old }
        ensures notice { (result.journal ≡ self.old.journal) × (result.marks ≡ self.old.marks) }
    {
        let Some(cell) = &self.cell else {
            unreachable!()
        };
        let published = cell.published();
        Notice {
            journal: published.floor(),
            marks: Tag::of::<Vec<u64>, Listed>(&published.marks),
        }
    }

    /// The tree of the published journal and the pending edits, to be asked: `judge` answers what an edit would be
    /// refused for, without making it.
    pub fn draft(&self) -> &Tree
        ensures opening { result.now.opening ≡ J.opening }
        ensures journal { result.now.journal ≡ self.now.journal ++ self.now.pending }
    {
        self.versions.draft()
    }

    /// The length of the published journal.
    pub fn published_len(&self) -> u64
        ensures { result ≡ length self.now.journal }
    {
        self.versions.published().len()
    }

    /// How many edits are pending.
    pub fn pending_len(&self) -> u64
        ensures { result ≡ length self.now.pending }
    {
        self.versions.draft().len() - self.versions.published().len()
    }

    /// Ends the store. Pending edits are dropped. It waits for readers that are within a check; each later
    /// check answers `Gone`.
    pub fn end<R: Wait>(self, rt: &R) {
        let StoreWriter {
            versions: _versions,
            history: _history,
            cell,
        } = self;
        match cell {
            Some(cell) => {
                cell.take(rt);
            }
            None => unreachable!(),
        }
    }
}
