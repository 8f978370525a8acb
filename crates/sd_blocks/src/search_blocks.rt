//! The search in the blocks of a sorted list.

ghost use Rattle.std.specs.Prelude.{◌^◌, ◌<◌, length};
ghost use Rattle.std.specs.List.Sorted.{IsSearchInRange, IsBinarySearchResult};
ghost use Rattle.sd_blocks.specs.Stored.{joined, StartFrom};

use crate::block::Block;
use crate::run::Run;
use crate::search::Sought;
use std::cmp::Ordering;

/// The position of what is sought in all of them, or where it belongs.
pub(crate) fn search_blocks<T: Drop, R: Run<T>, S: Sought<T>>(
    blocks: &[Block<T, R>],
    sought: &S,
) -> Result<usize, usize>
    requires starts { StartFrom 0 blocks.now }
    requires fits { length (joined blocks.now) < 2 ^ 64 }
    ensures bound { IsSearchInRange result (length (joined blocks.now)) }
    ensures position { IsBinarySearchResult (S.ord sought.now) (joined blocks.now) result }
{
    if blocks.is_empty() {
        return Err(0);
    }
    let mut low = 0;
    let mut high = blocks.len();
    while high - low > 1 {
        let middle = low + (high - low) / 2;
        let block = &blocks[middle];
        match sought.compare(block.first()) {
            Ordering::Less => low = middle,
            Ordering::Equal => return Ok(block.start()),
            Ordering::Greater => high = middle,
        }
    }
    let block = &blocks[low];
    let start = block.start();
    match block.search(sought) {
        Ok(at) => Ok(start + at),
        Err(at) => Err(start + at),
    }
}
