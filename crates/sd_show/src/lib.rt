//! A whole descriptor in words, and what differs between two: the lines of `show` and `diff`.
//!
//! All that a descriptor has is said, a line for each fact: each control bit, each flag, and data without a text by its
//! bytes (specs/Show.antt, specs/Entry.antt). `diff` has the same words. Lines are values: `sd_line` prints them.
//!
//! ```text
//! let lines = show_lines(alloc, &descriptor)?; // dacl entry 1 denies FW to S-1-5-32-546 on this object
//! let lines = diff_lines(alloc, &old, &new)?; // removed dacl entry 1: denies FW to S-1-5-32-546 on this object
//! ```
#![tactic(auto)]

mod act;
mod control;
mod data;
mod diff;
mod entry;
mod forms;
mod laws;
mod line_list;
mod pairs;
mod same;
mod show;

pub use data::condition_text;
pub use diff::diff_lines;
pub use forms::SACL_LEFT_OUT;
pub use laws::{alike_has_no_line, no_line_means_alike};
pub use same::{same_acl, same_entry};
pub use show::show_lines;
