//! Whole DACLs for one question: [MS-DTYP] 2.5.3.1 and 2.5.3.2, and of object types [MS-ADTS] 5.1.3.
//!
//! A whole DACL has entries for object types, and entries with conditions. For one question each of these is a plain
//! allow or deny, or has no part. `specialized` makes that plain descriptor, and `sd_check` answers the question from
//! it, as do `sd_explain` and whatever else is asked about that question; an entry has the same number in both lists.
//! `check_dacl` answers it without the list.
//! The rules are in specs/Entry.antt, and in words in docs/CHECK.md.
//!
//! The plain descriptor is for checks of this object by this token. What children inherit follows from the whole one:
//! for all tokens `handed_entries` is what `sd_inheritance` makes it of.
//!
//! ```text
//! let plain = specialized(alloc, &context, &whole)?;
//! let verdict = check(&plain, &mapping, &token, asked);
//! ```
#![tactic(auto)]

mod check;
mod children;
mod condition;
mod context;
mod copies;
mod descriptor;
mod entry;
mod everyone;
mod fault;
mod laws;
mod marked;
mod part;
mod rule;

pub use check::check_dacl;
pub use children::{
    handed_classes, handed_conditionals, handed_entries, hands_on_conditions, leaves_out_children,
};
pub use context::{Conditions, Context};
pub use copies::with_copies;
pub use descriptor::specialized;
pub use everyone::{conditional_fault, conditional_place};
pub use fault::{RefusedEntry, RefusedKind, SpecializeError, SpecializeFault};
pub use laws::{
    all_are_marked, copies_change_nothing, deny_never_grants, later_marks_change_nothing,
    markers_bring_their_sids, markers_stand, no_part_changes_nothing, plain_stays_plain,
    unknown_fails_closed, whole_is_every_part,
};
pub use marked::{conditionals, is_deny, is_marker, marked_for_everyone, marker, unmarked_place};
