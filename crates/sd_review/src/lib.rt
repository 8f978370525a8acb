//! What the pending edits of a store change, node by node, for all tokens.
//!
//! A node of the tree with all edits is compared with the one at its path in the published tree, or with the one that
//! the edits moved there; of a container also what is made in it. Scripts and the library for C return the same of each
//! node.
//!
//! ```text
//! let review = Review::of(published, draft);
//! let mut last = None;
//! match review.former(alloc, &path)? {
//!     Former::Same => review.compare(alloc, &mut last, &path, &path)?,
//!     Former::Moved(before) => review.compare(alloc, &mut last, &before, &path)?,
//!     Former::New => ..,
//! }
//! if let Some(compared) = &last {
//!     // compared.comparison has the rights that some token gains, and those that some token loses
//!     let lines = with_path(alloc, "/a", compared.lines(alloc)?)?;
//!     push_printed(alloc, &mut out, style, Tag::None, &lines)?; // /a gained 0x2 by S-1-5-32-545
//! }
//! ```
#![tactic(auto)]

mod below;
mod compared;
mod comparing;
mod equality;
mod laws;
mod lines;
mod origin;
mod pending;
mod review;

pub use compared::Compared;
pub use laws::silent_changes_grant_the_same;
pub use lines::with_path;
pub use pending::Review;
pub use review::Former;
