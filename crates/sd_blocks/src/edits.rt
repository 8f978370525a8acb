//! Insertion and removal of one element.

ghost use Rattle.std.specs.Prelude.{◌≡◌, ◌^◌, ◌<◌, ◌≤◌, length, IfOk, OnOk, OnErr, slice_index_or, vec_len};
ghost use Rattle.std.specs.List.{insert, remove};
ghost use Rattle.sd_blocks.specs.Stored.{joined, StartFrom};

use crate::block::Block;
use crate::locate::locate;
use crate::run::Run;
use crate::shift::{move_down_from, move_up_from};
use std::alloc::{AllocError, Global};

/// Splits the block that gets an element at a position, where it is full.
pub(crate) fn make_room<T: Drop, R: Run<T>>(
    alloc: Global,
    blocks: &mut Vec<Block<T, R>>,
    at: usize,
) -> Result<(), AllocError>
    requires starts { StartFrom 0 blocks.old.items }
    requires some { 0 < vec_len blocks.old }
    requires within { at ≤ length (joined blocks.old.items) }
    requires fits { length (joined blocks.old.items) < 2 ^ 64 }
    ensures starts { StartFrom 0 blocks.new.items }
    ensures some { 0 < vec_len blocks.new }
    ensures same { joined blocks.new.items ≡ joined blocks.old.items }
{
    let k = locate(blocks.as_slice(), at);
    let block = &blocks[k];
    match block.split(alloc)? {
        None => Ok(()),
        Some((low, high)) => {
            blocks.insert(k + 1, high)?;
            blocks[k] = low;
            Ok(())
        }
    }
}

/// Inserts an element into the block that has a position.
pub(crate) fn put<T: Drop, R: Run<T>>(
    alloc: Global,
    blocks: &mut Vec<Block<T, R>>,
    at: usize,
    item: T,
) -> Result<(), AllocError>
    requires starts { StartFrom 0 blocks.old.items }
    requires some { 0 < vec_len blocks.old }
    requires within { at ≤ length (joined blocks.old.items) }
    requires fits { length (joined blocks.old.items) < usize.MAX }
    ensures starts { StartFrom 0 blocks.new.items }
    ensures done { OnOk result (joined blocks.new.items ≡ insert (joined blocks.old.items) at item) }
    ensures refused { OnErr result (joined blocks.new.items ≡ joined blocks.old.items) }
{
    let k = locate(blocks.as_slice(), at);
    let block = &mut blocks[k];
    let within = at - block.start();
    block.insert(alloc, within, item)?;
    move_up_from(blocks, k + 1);
    Ok(())
}

/// Removes the element at a position, and its block where that was its only one.
pub(crate) fn take_out<T: Drop, R: Run<T>>(
    alloc: Global,
    blocks: &mut Vec<Block<T, R>>,
    at: usize,
) -> Result<T, AllocError>
    requires starts { StartFrom 0 blocks.old.items }
    requires within { at < length (joined blocks.old.items) }
    ensures starts { StartFrom 0 blocks.new.items }
    ensures value { IfOk result (λ item. item ≡ slice_index_or (joined blocks.old.items) at item) }
    ensures done { OnOk result (joined blocks.new.items ≡ remove (joined blocks.old.items) at) }
    ensures refused { OnErr result (joined blocks.new.items ≡ joined blocks.old.items) }
{
    let k = locate(blocks.as_slice(), at);
    let block = &mut blocks[k];
    let within = at - block.start();
    let item = block.remove(alloc, within)?;
    let left = block.count();
    move_down_from(blocks, k + 1);
    if left == 0 {
        let _emptied = blocks.remove(k);
        return Ok(item);
    }
    Ok(item)
}
