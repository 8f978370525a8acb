//! Names and paths of securable nodes, parsed from texts.
//!
//! A path is the list of its names from the root down; the root's is `/`. Paths are ordered by their names, so each
//! precedes the paths below it. docs/TREE.md has the rules.
//!
//! ```text
//! let path = Path::read(alloc, "/share/plans")?;
//! let report = path.child(alloc, &Name::read("report.txt")?)?;
//! assert!(report.as_path_ref().is_within(&path.as_path_ref()));
//! ```
#![tactic(auto)]

mod compared;
mod error;
mod lent;
mod name;
mod path;
mod print;
mod read;

pub use error::PathError;
pub use lent::PathRef;
pub use name::Name;
pub use path::Path;
pub use read::MAX_NAMES;
