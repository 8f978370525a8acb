//! Another handle of what a handle keeps.

ghost use Rattle.std.specs.Prelude.{◌≡◌, MatchOption, MatchResult, false, true};
ghost use Rattle.sd_c.specs.Kept.{IsShared, IsSame, Stays, has_one_handle};

use crate::call_answer::{HANDLE, MEMORY, OK, Written, not_written};
use crate::handle::{Handle, Kept};
use std::alloc::{AllocError, Global};
use std::sync::Arc;

/// Makes `other` another handle of what `handle` keeps, as for another thread: nothing is copied, and it is freed with
/// its last handle. Refused if `handle` keeps nothing, a store or lines, or `other` is in use; then both are unchanged.
#[unsafe(no_mangle)]
pub extern "C" fn hudarin_share(alloc: Global, handle: &mut Handle, other: &mut Handle) -> Written
    ensures shared { IsShared handle.old other.old other.new result }
    ensures stays { Stays handle.old handle.new }
{
    if other.is_there == 1 {
        return not_written(HANDLE, 0, 0);
    }
    let Some(kept) = handle.take(alloc) else {
        return not_written(HANDLE, 0, 0);
    };
    let answer = match shared(alloc, &kept) {
        Ok(Some(second)) => {
            other.put(second);
            not_written(OK, 0, 0)
        }
        Ok(None) => not_written(HANDLE, 0, 0),
        Err(AllocError) => not_written(MEMORY, 0, 0),
    };
    handle.put(kept);
    answer
}

/// Another handle's content; none of what has one handle.
fn shared(alloc: Global, kept: &Kept) -> Result<Option<Box<Kept>>, AllocError>
    ensures { MatchResult result
        (λ second. MatchOption second (has_one_handle kept.now ≡ true) (λ other. IsSame kept.now other.value))
        (λ _. has_one_handle kept.now ≡ false) }
{
    let second = match kept {
        Kept::Descriptor(descriptor) => Kept::Descriptor(Arc::try_clone(descriptor)?),
        Kept::Token(token) => Kept::Token(Arc::try_clone(token)?),
        Kept::Client(client) => Kept::Client(Arc::try_clone(client)?),
        Kept::View(tree) => Kept::View(tree.share()?),
        Kept::Accounts(accounts) => Kept::Accounts(Arc::try_clone(accounts)?),
        Kept::Store(_) | Kept::Lines(_) => return Ok(None),
    };
    may_cross(&second);
    Ok(Some(Box::new(alloc, second)?))
}

/// Compiled only for what may go to another thread.
fn may_cross<T: Send>(_: &T) {}
