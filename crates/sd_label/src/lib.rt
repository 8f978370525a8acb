//! Integrity labels in a check: [MS-DTYP] 2.5.3.3.
//!
//! An object's label takes rights from tokens of a lower integrity level, whatever the DACL and the privileges say.
//! `Label::of_object` is the label of a whole descriptor's SACL, and `Label::taken` what it takes; `verdict_under` is a
//! verdict without this, and `explain_under` answers as `explain_descriptor` does, without it. The rules are in
//! specs/Label.antt and specs/Under.antt, and in words in docs/CHECK.md.
//!
//! ```text
//! let taken = Label::of_object(&whole.sacl).taken(level, &mapping);
//! let verdict = verdict_under(taken, &mapping, asked, check(&plain, &mapping, &token, asked));
//! ```
#![tactic(auto)]

mod check;
mod explanation;
mod label;
mod laws;

pub use check::verdict_under;
pub use explanation::explain_under;
pub use label::Label;
pub use laws::{label_only_takes_away, nothing_taken_changes_nothing};
