//! A list in shared blocks.
//!
//! A copy shares all blocks, and a write copies the one block that it changes, so a snapshot of a list is a copy. A
//! list of 65,536 elements is copied in about a microsecond, and an insertion anywhere takes less than one.
//!
//! Each call that changes a list may run out of memory, and then leaves the list as it was. So several changes belong
//! together where they are made on a copy, which then replaces the list.
//!
//! ```text
//! let mut list = Blocks::new(alloc);
//! list.insert(alloc, 0, 7)?;
//! let snapshot = list.copy(alloc)?;
//! list.insert(alloc, 1, 9)?;
//! assert!(snapshot.len() == 1 && list.len() == 2);
//! ```
#![tactic(auto)]

mod block;
mod blocks;
mod edits;
mod laws;
mod leaf;
mod level;
mod locate;
mod nested;
mod run;
mod runs;
mod search;
mod search_blocks;
mod shift;
mod try_copy;
mod write;

pub use blocks::Blocks;
pub use laws::snapshot_stays;
pub use search::Sought;
pub use try_copy::TryCopy;
