//! Which block has a position of the list.

ghost use Rattle.std.specs.Prelude.{◌<◌, ◌≤◌, length};
ghost use Rattle.sd_blocks.specs.Stored.{joined, StartFrom, IsBlockOf};

use crate::block::Block;
use crate::run::Run;

/// The number of the block that has a position; of the last one at the list's end.
pub(crate) fn locate<T: Drop, R: Run<T>>(blocks: &[Block<T, R>], at: usize) -> usize
    requires starts { StartFrom 0 blocks.now }
    requires some { 0 < length blocks.now }
    requires within { at ≤ length (joined blocks.now) }
    ensures { IsBlockOf blocks.now at result }
{
    let mut low = 0;
    let mut high = blocks.len();
    while high - low > 1 {
        let middle = low + (high - low) / 2;
        if blocks[middle].start() <= at {
            low = middle;
        } else {
            high = middle;
        }
    }
    low
}
