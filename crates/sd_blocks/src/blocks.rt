//! The list, as other crates have it.

ghost use Rattle.std.specs.Prelude.{◌≡◌, ◌+◌, ◌<◌, ◌≤◌, [], ◌∷◌, length, IfOk, IfSome, IsSome, OnOk, OnErr, ◌↔◌};
ghost use Rattle.std.specs.Prelude.{slice_index_or, slice_set};
ghost use Rattle.std.specs.List.{insert, remove};
ghost use Rattle.std.specs.List.Sorted.{IsSearchInRange, IsBinarySearchResult};
ghost use Rattle.sd_blocks.specs.Runs.{IsRunAt, exchanged, with_run};

use crate::leaf::Leaf;
use crate::level::Level;
use crate::nested::Nested;
use crate::search::Sought;
use crate::try_copy::TryCopy;
use std::alloc::{AllocError, Global};
use std::marker::Model;

/// A list in blocks of blocks: with three levels the longest vector of a list of ten million has some hundred places.
/// Contracts see the list of its elements. It is a type of its own, and no name for its levels: whoever calls a level
/// has to show that each level below it is a run, which takes the prover ten seconds a call.
#[derive(Drop)]
pub struct Blocks<T: TryCopy> {
    list: Level<T, Nested<T, Nested<T, Leaf<T>>>>,
}

impl<T: TryCopy> Model for Blocks<T> {
    ghost use Rattle.std.specs.Prelude.{List};

    ghost Value = { List T };

    ghost view = { λ b. b.list };
}

impl<T: TryCopy> Blocks<T> {
    /// The empty list.
    pub fn new(alloc: Global) -> Blocks<T>
        ensures { result ≡ [] }
    {
        Blocks {
            list: Level {
                blocks: Vec::new(alloc),
                len: 0,
            },
        }
    }

    /// A list of one element.
    pub fn single(alloc: Global, item: T) -> Result<Blocks<T>, AllocError>
        ensures { IfOk result (λ list. list ≡ item ∷ []) }
    {
        let list = Level::single(alloc, item)?;
        Ok(Blocks { list })
    }

    /// The number of elements.
    pub fn len(&self) -> usize
        ensures { result ≡ length self.now }
    {
        self.list.len
    }

    /// The element at a position; none where the list ends before it.
    pub fn get(&self, at: usize) -> Option<&T>
        ensures variant { IsSome result ↔ (at < length self.now) }
        ensures value { IfSome result (λ item. item.now ≡ slice_index_or self.now at item.now) }
    {
        self.list.get(at)
    }

    /// Some elements from a position on, at least one, side by side in memory: an iteration takes the next run where
    /// this one ends.
    pub fn run_from(&self, at: usize) -> &[T]
        requires { at < length self.now }
        ensures { IsRunAt self.now at result.now }
    {
        self.list.run_from(at)
    }

    /// The position of an element that equals what is sought in a sorted list, or the position where it belongs.
    pub fn search<S: Sought<T>>(&self, sought: &S) -> Result<usize, usize>
        ensures bound { IsSearchInRange result (length self.now) }
        ensures position { IsBinarySearchResult (S.ord sought.now) self.now result }
    {
        self.list.search(sought)
    }

    /// An equal list that shares all blocks. It fails only when memory is out.
    pub fn copy(&self, alloc: Global) -> Result<Blocks<T>, AllocError>
        ensures { IfOk result (λ copy. copy ≡ self.now) }
    {
        let list = self.list.copy(alloc)?;
        Ok(Blocks { list })
    }

    /// Writes one element. It fails only when memory is out, and then the list is as it was.
    pub fn set(&mut self, alloc: Global, at: usize, item: T) -> Result<(), AllocError>
        requires { at < length self.old }
        ensures done { OnOk result (self.new ≡ slice_set self.old at item) }
        ensures refused { OnErr result (self.new ≡ self.old) }
    {
        self.list.set(alloc, at, item)
    }

    /// Inserts an element before a position. It fails only when memory is out, and then the list is as it was.
    pub fn insert(&mut self, alloc: Global, at: usize, item: T) -> Result<(), AllocError>
        requires { at ≤ length self.old }
        ensures done { OnOk result (self.new ≡ insert self.old at item) }
        ensures refused { OnErr result (self.new ≡ self.old) }
    {
        self.list.insert(alloc, at, item)
    }

    /// Removes the element at a position. It fails only when memory is out, and then the list is as it was.
    pub fn remove(&mut self, alloc: Global, at: usize) -> Result<T, AllocError>
        requires { at < length self.old }
        ensures value { IfOk result (λ item. item ≡ slice_index_or self.old at item) }
        ensures done { OnOk result (self.new ≡ remove self.old at) }
        ensures refused { OnErr result (self.new ≡ self.old) }
    {
        self.list.remove(alloc, at)
    }

    /// Inserts elements before a position. It fails only when memory is out, and then the list is as it was.
    pub fn insert_run(&mut self, alloc: Global, at: usize, run: Vec<T>) -> Result<(), AllocError>
        requires { at ≤ length self.old }
        ensures done { OnOk result (self.new ≡ with_run at run.items self.old) }
        ensures refused { OnErr result (self.new ≡ self.old) }
    {
        self.list.insert_run(alloc, at, run)
    }

    /// Removes as many elements from `from` on as the run has, and inserts the run at `to`, counted without them. The
    /// only error is out of memory; then the list is as it was.
    pub fn exchange_run(
        &mut self,
        alloc: Global,
        from: usize,
        to: usize,
        run: Vec<T>,
    ) -> Result<(), AllocError>
        requires from { from + length run.items ≤ length self.old }
        requires to { to + length run.items ≤ length self.old }
        ensures done { OnOk result (self.new ≡ exchanged from (length run.items) to run.items self.old) }
        ensures refused { OnErr result (self.new ≡ self.old) }
    {
        self.list.exchange_run(alloc, from, to, run)
    }
}
