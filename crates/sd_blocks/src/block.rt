//! One block of a list: a run, and where it starts.

ghost use Rattle.std.specs.Prelude.{◌≡◌, ◌+◌, ◌-◌, ◌^◌, ◌<◌, ◌≤◌, [], ◌∷◌, length, IfOk, IfSome, OnOk, OnErr};
ghost use Rattle.std.specs.Prelude.{slice_set, slice_index_or};
ghost use Rattle.std.specs.List.{insert, remove};
ghost use Rattle.std.specs.List.Sorted.{IsSearchInRange, IsBinarySearchResult};
ghost use Rattle.sd_blocks.specs.Runs.{IsRunAt, written};
ghost use Rattle.sd_blocks.specs.Stored.{AreHalves, lowered};

use crate::run::Run;
use crate::search::Sought;
use std::alloc::{AllocError, Global};
use std::marker::{Model, PhantomData};

/// A run, and the position of its first element in the list. Contracts see that position and the run's elements.
#[derive(Drop)]
pub struct Block<T, R: Run<T>> {
    start: usize,
    run: R,
    of: PhantomData<T>,
}

impl<T, R: Run<T>> Model for Block<T, R> {
    ghost use Rattle.std.specs.Prelude.{ℕ, List};

    ghost Value = { ℕ × List T };

    ghost view = { λ b. (b.start, R.elements b.run) };
}

impl<T, R: Run<T>> Block<T, R> {
    fn new(start: usize, run: R) -> Block<T, R>
        ensures { result ≡ (start, R.elements run) }
    {
        Block {
            start,
            run,
            of: PhantomData,
        }
    }

    /// A block of one element.
    pub(crate) fn single(alloc: Global, item: T) -> Result<Block<T, R>, AllocError>
        ensures { IfOk result (λ block. block ≡ (0, item ∷ [])) }
    {
        Ok(Block::new(0, R::single(alloc, item)?))
    }

    /// The position of the first element.
    pub(crate) fn start(&self) -> usize
        ensures { result ≡ self.now.0 }
    {
        self.start
    }

    /// How many elements there are.
    pub(crate) fn count(&self) -> usize
        ensures { result ≡ length self.now.1 }
    {
        self.run.count()
    }

    /// The element at a position of the block.
    pub(crate) fn get(&self, at: usize) -> &T
        requires { at < length self.now.1 }
        ensures { result.now ≡ slice_index_or self.now.1 at result.now }
    {
        self.run.get(at)
    }

    /// The first element.
    pub(crate) fn first(&self) -> &T
        requires { 0 < length self.now.1 }
        ensures { result.now ≡ slice_index_or self.now.1 0 result.now }
    {
        self.run.first()
    }

    /// Some elements from a position on.
    pub(crate) fn run_from(&self, at: usize) -> &[T]
        requires { at < length self.now.1 }
        ensures { IsRunAt self.now.1 at result.now }
    {
        self.run.run_from(at)
    }

    /// The position of what is sought in the block, or where it belongs.
    pub(crate) fn search<S: Sought<T>>(&self, sought: &S) -> Result<usize, usize>
        ensures bound { IsSearchInRange result (length self.now.1) }
        ensures position { IsBinarySearchResult (S.ord sought.now) self.now.1 result }
    {
        self.run.search(sought)
    }

    /// The block, one position further on.
    pub(crate) fn move_up(&mut self)
        requires { self.old.0 < usize.MAX }
        ensures { self.new ≡ (self.old.0 + 1, self.old.1) }
    {
        self.start += 1;
    }

    /// The block, one position nearer.
    pub(crate) fn move_down(&mut self)
        requires { 0 < self.old.0 }
        ensures { self.new ≡ (self.old.0 - 1, self.old.1) }
    {
        self.start -= 1;
    }

    /// A block that shares this one's run, in a list that starts `by` positions later.
    pub(crate) fn share_from(&self, by: usize) -> Result<Block<T, R>, AllocError>
        requires { by ≤ self.now.0 }
        ensures { IfOk result (λ shared. shared ≡ lowered by self.now) }
    {
        let start = self.start - by;
        Ok(Block::new(start, self.run.share()?))
    }

    /// Writes one element.
    pub(crate) fn set(&mut self, alloc: Global, at: usize, item: T) -> Result<(), AllocError>
        requires { at < length self.old.1 }
        ensures start { self.new.0 ≡ self.old.0 }
        ensures len { length self.new.1 ≡ length self.old.1 }
        ensures done { OnOk result (self.new.1 ≡ slice_set self.old.1 at item) }
        ensures refused { OnErr result (self.new.1 ≡ self.old.1) }
    {
        self.run.set(alloc, at, item)
    }

    /// Writes elements from a position on. After an error some are written.
    pub(crate) fn write(
        &mut self,
        alloc: Global,
        at: usize,
        items: Vec<T>,
    ) -> Result<(), AllocError>
        requires { at + length items.items ≤ length self.old.1 }
        ensures start { self.new.0 ≡ self.old.0 }
        ensures len { length self.new.1 ≡ length self.old.1 }
        ensures done { OnOk result (self.new.1 ≡ written at items.items self.old.1) }
    {
        self.run.write(alloc, at, items)
    }

    /// Inserts an element before a position.
    pub(crate) fn insert(&mut self, alloc: Global, at: usize, item: T) -> Result<(), AllocError>
        requires { at ≤ length self.old.1 }
        ensures start { self.new.0 ≡ self.old.0 }
        ensures done { OnOk result (self.new.1 ≡ insert self.old.1 at item) }
        ensures refused { OnErr result (self.new.1 ≡ self.old.1) }
    {
        self.run.insert(alloc, at, item)
    }

    /// Removes the element at a position.
    pub(crate) fn remove(&mut self, alloc: Global, at: usize) -> Result<T, AllocError>
        requires { at < length self.old.1 }
        ensures start { self.new.0 ≡ self.old.0 }
        ensures value { IfOk result (λ item. item ≡ slice_index_or self.old.1 at item) }
        ensures done { OnOk result (self.new.1 ≡ remove self.old.1 at) }
        ensures refused { OnErr result (self.new.1 ≡ self.old.1) }
    {
        self.run.remove(alloc, at)
    }

    /// The element at the one position gives way to the item, which goes to the other, counted among those that stay.
    pub(crate) fn exchange(
        &mut self,
        alloc: Global,
        from: usize,
        to: usize,
        item: T,
    ) -> Result<(), AllocError>
        requires from { from < length self.old.1 }
        requires to { to < length self.old.1 }
        ensures start { self.new.0 ≡ self.old.0 }
        ensures len { length self.new.1 ≡ length self.old.1 }
        ensures done { OnOk result (self.new.1 ≡ insert (remove self.old.1 from) to item) }
        ensures refused { OnErr result (self.new.1 ≡ self.old.1) }
    {
        self.run.exchange(alloc, from, to, item)
    }

    /// The block as two, where its run is long.
    pub(crate) fn split(
        &self,
        alloc: Global,
    ) -> Result<Option<(Block<T, R>, Block<T, R>)>, AllocError>
        requires { self.now.0 + length self.now.1 < 2 ^ 64 }
        ensures { IfOk result (λ parts. IfSome parts (λ p. AreHalves self.now p.0 p.1)) }
    {
        match self.run.split(alloc)? {
            None => Ok(None),
            Some((low, high)) => {
                let from = self.start + low.count();
                Ok(Some((Block::new(self.start, low), Block::new(from, high))))
            }
        }
    }
}
