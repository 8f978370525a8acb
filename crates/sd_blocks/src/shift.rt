//! Blocks whose starts move by one.

ghost use Rattle.std.specs.Prelude.{◌≡◌, ◌<◌, ◌≤◌, ◌++◌, length, map, take, drop, vec_len};
ghost use Rattle.std.specs.List.{All};
ghost use Rattle.sd_blocks.specs.Stored.{up, down};

use crate::block::Block;
use crate::run::Run;

/// Moves the starts of the blocks from one on up by one.
pub(crate) fn move_up_from<T: Drop, R: Run<T>>(blocks: &mut Vec<Block<T, R>>, from: usize)
    requires inside { from ≤ vec_len blocks.old }
    requires fits { All (λ b. b.0 < usize.MAX) (drop from blocks.old.items) }
    ensures { blocks.new.items ≡ take from blocks.old.items ++ map up (drop from blocks.old.items) }
{
    let (_, rest) = blocks.as_mut_slice().split_at_mut(from);
    move_up(rest);
}

fn move_up<T: Drop, R: Run<T>>(blocks: &mut [Block<T, R>])
    requires { All (λ b. b.0 < usize.MAX) blocks.old }
    ensures { blocks.new ≡ map up blocks.old }
{
    for block in blocks.iter_mut() {
        block.move_up();
    }
}

/// Moves the starts of the blocks from one on down by one.
pub(crate) fn move_down_from<T: Drop, R: Run<T>>(blocks: &mut Vec<Block<T, R>>, from: usize)
    requires inside { from ≤ vec_len blocks.old }
    requires fits { All (λ b. 0 < b.0) (drop from blocks.old.items) }
    ensures { blocks.new.items ≡ take from blocks.old.items ++ map down (drop from blocks.old.items) }
{
    let (_, rest) = blocks.as_mut_slice().split_at_mut(from);
    move_down(rest);
}

fn move_down<T: Drop, R: Run<T>>(blocks: &mut [Block<T, R>])
    requires { All (λ b. 0 < b.0) blocks.old }
    ensures { blocks.new ≡ map down blocks.old }
{
    for block in blocks.iter_mut() {
        block.move_down();
    }
}
