//! Laws of lists in shared blocks.

ghost use Rattle.std.specs.Prelude.{◌≡◌, ◌≤◌, length, IfOk, OnOk, OnErr};
ghost use Rattle.std.specs.List.{insert};

use crate::blocks::Blocks;
use crate::try_copy::TryCopy;
use std::alloc::{AllocError, Global};

/// A snapshot keeps what the list had, also where the list gets an element afterwards: snapshot isolation.
pub fn snapshot_stays<T: TryCopy>(
    alloc: Global,
    list: &mut Blocks<T>,
    at: usize,
    item: T,
) -> Result<Blocks<T>, AllocError>
    requires { at ≤ length list.old }
    ensures snapshot { IfOk result (λ snapshot. snapshot ≡ list.old) }
    ensures done { OnOk result (list.new ≡ insert list.old at item) }
    ensures refused { OnErr result (list.new ≡ list.old) }
{
    let snapshot = list.copy(alloc)?;
    list.insert(alloc, at, item)?;
    Ok(snapshot)
}
