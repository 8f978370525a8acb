//! The list.

ghost use Rattle.std.specs.Prelude.{◌≡◌, ◌<◌, ◌≤◌, [], ◌∷◌, length, IfOk, IfSome, IsSome, OnOk, OnErr, ◌↔◌};
ghost use Rattle.std.specs.Prelude.{slice_index_or, slice_set};
ghost use Rattle.std.specs.List.{insert, remove};
ghost use Rattle.std.specs.List.Sorted.{IsSearchInRange, IsBinarySearchResult};
ghost use Rattle.sd_blocks.specs.Runs.{AreParts, IsRunAt};
ghost use Rattle.sd_blocks.specs.Stored.{joined, StartFrom};

use crate::block::Block;
use crate::edits::{make_room, put, take_out};
use crate::locate::locate;
use crate::run::Run;
use crate::search::Sought;
use crate::search_blocks::search_blocks;
use std::alloc::{AllocError, Global};
use std::marker::Model;

/// A list that has this many blocks is split before the next insertion, where it is a run of a larger one.
const MAX_BLOCKS: usize = 128;

/// A list in blocks, each a run. Contracts see the list of its elements.
#[derive(Drop)]
pub struct Level<T, R: Run<T>> {
    pub(crate) blocks: Vec<Block<T, R>>,
    pub(crate) len: usize,
}

impl<T, R: Run<T>> Model for Level<T, R> {
    ghost use Rattle.std.specs.Prelude.{List, ◌≡◌, length};

    ghost Value = { List T };

    ghost use Rattle.sd_blocks.specs.Stored.{joined, StartFrom};

    ghost view = { λ b. joined b.blocks.items };

    ghost invariant = { λ b. StartFrom 0 b.blocks.items × (b.len ≡ length (joined b.blocks.items)) };
}

impl<T: Drop, R: Run<T>> Level<T, R> {
    /// The number of elements.
    pub(crate) fn len(&self) -> usize
        ensures { result ≡ length self.now }
    {
        self.len
    }

    /// The element at a position; none where the list ends before it.
    pub(crate) fn get(&self, at: usize) -> Option<&T>
        ensures variant { IsSome result ↔ (at < length self.now) }
        ensures value { IfSome result (λ item. item.now ≡ slice_index_or self.now at item.now) }
    {
        if at >= self.len {
            return None;
        }
        let blocks = self.blocks.as_slice();
        let block = &blocks[locate(blocks, at)];
        let within = at - block.start();
        Some(block.get(within))
    }

    /// The first element.
    pub(crate) fn first(&self) -> &T
        requires { 0 < length self.now }
        ensures { result.now ≡ slice_index_or self.now 0 result.now }
    {
        self.blocks[0].first()
    }

    /// Some elements from a position on, at least one, side by side in memory: an iteration takes the next run where
    /// this one ends.
    pub(crate) fn run_from(&self, at: usize) -> &[T]
        requires { at < length self.now }
        ensures { IsRunAt self.now at result.now }
    {
        let blocks = self.blocks.as_slice();
        let block = &blocks[locate(blocks, at)];
        let within = at - block.start();
        block.run_from(within)
    }

    /// The position of an element that equals what is sought in a sorted list, or the position where it belongs.
    pub(crate) fn search<S: Sought<T>>(&self, sought: &S) -> Result<usize, usize>
        ensures bound { IsSearchInRange result (length self.now) }
        ensures position { IsBinarySearchResult (S.ord sought.now) self.now result }
    {
        // That the length fits a usize.
        let _len = self.len;
        search_blocks(self.blocks.as_slice(), sought)
    }

    /// An equal list that shares all blocks. It fails only when memory is out.
    pub(crate) fn copy(&self, alloc: Global) -> Result<Level<T, R>, AllocError>
        ensures { IfOk result (λ copy. copy ≡ self.now) }
    {
        share_blocks(alloc, self.blocks.as_slice(), 0, self.len)
    }

    /// Writes one element. It fails only when memory is out, and then the list is as it was.
    pub(crate) fn set(&mut self, alloc: Global, at: usize, item: T) -> Result<(), AllocError>
        requires { at < length self.old }
        ensures done { OnOk result (self.new ≡ slice_set self.old at item) }
        ensures refused { OnErr result (self.new ≡ self.old) }
    {
        let k = locate(self.blocks.as_slice(), at);
        let block = &mut self.blocks[k];
        let within = at - block.start();
        block.set(alloc, within, item)
    }

    /// Inserts an element before a position. It fails only when memory is out, and then the list is as it was.
    pub(crate) fn insert(&mut self, alloc: Global, at: usize, item: T) -> Result<(), AllocError>
        requires { at ≤ length self.old }
        ensures done { OnOk result (self.new ≡ insert self.old at item) }
        ensures refused { OnErr result (self.new ≡ self.old) }
    {
        if self.len == usize::MAX {
            return Err(AllocError);
        }
        if self.blocks.is_empty() {
            let block = Block::single(alloc, item)?;
            self.blocks.push(block)?;
            self.len = 1;
            return Ok(());
        }
        make_room(alloc, &mut self.blocks, at)?;
        put(alloc, &mut self.blocks, at, item)?;
        self.len += 1;
        Ok(())
    }

    /// Removes the element at a position. It fails only when memory is out, and then the list is as it was.
    pub(crate) fn remove(&mut self, alloc: Global, at: usize) -> Result<T, AllocError>
        requires { at < length self.old }
        ensures value { IfOk result (λ item. item ≡ slice_index_or self.old at item) }
        ensures done { OnOk result (self.new ≡ remove self.old at) }
        ensures refused { OnErr result (self.new ≡ self.old) }
    {
        let item = take_out(alloc, &mut self.blocks, at)?;
        self.len -= 1;
        Ok(item)
    }

    /// A list of one element.
    pub(crate) fn single(alloc: Global, item: T) -> Result<Level<T, R>, AllocError>
        ensures { IfOk result (λ list. list ≡ item ∷ []) }
    {
        let mut blocks = Vec::new(alloc);
        blocks.push(Block::single(alloc, item)?)?;
        Ok(Level { blocks, len: 1 })
    }

    /// The list as two, each with half of the blocks, where it has many.
    pub(crate) fn split(
        &self,
        alloc: Global,
    ) -> Result<Option<(Level<T, R>, Level<T, R>)>, AllocError>
        ensures { IfOk result (λ parts. IfSome parts (λ p. AreParts self.now p.0 p.1)) }
    {
        let blocks = self.blocks.as_slice();
        if blocks.len() < MAX_BLOCKS {
            return Ok(None);
        }
        let half = blocks.len() / 2;
        let by = blocks[half].start();
        let low = share_blocks(alloc, &blocks[..half], 0, by)?;
        let high = share_blocks(alloc, &blocks[half..], by, self.len - by)?;
        Ok(Some((low, high)))
    }
}

/// A list of some of another's blocks.
fn share_blocks<T: Drop, R: Run<T>>(
    alloc: Global,
    blocks: &[Block<T, R>],
    by: usize,
    len: usize,
) -> Result<Level<T, R>, AllocError>
    requires starts { StartFrom by blocks.now }
    requires len { len ≡ length (joined blocks.now) }
    ensures { IfOk result (λ list. list ≡ joined blocks.now) }
{
    let mut shared = Vec::with_capacity(alloc, blocks.len())?;
    for block in blocks {
        shared.push(block.share_from(by)?)?;
    }
    Ok(Level {
        blocks: shared,
        len,
    })
}
