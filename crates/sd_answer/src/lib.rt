//! The arguments of a question and the lines of its answer, which scripts and the command line have in common.
//!
//! A question's WORDs, as `BU` or `+security`, make its token. Its answer is a line of its verdict, and where reasons
//! are asked for, a line for each part of the mask; or the line of the first argument that is invalid. Lines are
//! values: `sd_line` prints them.
//!
//! ```text
//! let token = read_token(alloc, aliases, user, &["BU", "S-1-5-21-1-2-3-512=deny", "+take"])?;
//! let lines = why_lines(alloc, mapping, descriptor, &token, Mask(0x3))?;
//! push_printed(alloc, &mut out, style, Tag::None, &lines)?; // denied 0x2, and why
//! ```
#![tactic(auto)]

mod compare;
mod descendants;
mod forms;
mod lines;
mod lint;
mod parts;
mod verdict_lines;
mod who;
mod why;
mod word;

pub use compare::push_gains_and_losses;
pub use descendants::{push_descendants, push_descendants_who, push_inheritance};
pub use forms::{
    ADD_CONTAINER, ADD_OBJECT, CLEAN, CONTAINER, DENIED_ALL, EMPTY, EMPTY_DACL, FAULT_AT,
    FAULT_NAMED, FOUND, GONE, GRANTED, GRANTED_BY, LABEL_ALONE, LABEL_CHANGED, LEARNED, MOVED,
    NEW_NODE, NO_NODE, NO_NOTICE, NO_READER, OBJECT, OK, OPEN, OPENED, OWNER_CANNOT_READ, PATH,
    PUBLISH, PUBLISHED, REFUSED, REFUSED_NAMED, REVIEWED, RISKY_GRANT, RISKY_GRANT_BELOW, SAME,
    SEEN, SHOWN, TOLD, UNKNOWN_GROUP, UNKNOWN_OWNER, UNKNOWN_SID, WHOLE_ALONE,
};
pub use lines::push_made;
pub use lint::{first_misplaced, lint_lines};
pub use parts::{dacl_ref, descriptor_ref, entries_in};
pub use verdict_lines::{entry_fault_line, fault_line, sddl_fault_line, verdict_line};
pub use who::{rights_asked, who_lines};
pub use why::{explanation_lines, why_lines};
pub use word::{TokenError, TokenParts, Word, read_base, read_token, read_word};
