//! Why a request is granted or denied: [MS-DTYP] 2.5.3.2, bit by bit.
//!
//! `explain` returns the verdict of `check_parts` of `sd_check` as the reason of each bit: the first entry that decides
//! it, in each pass, or what is granted without an entry. It allocates nothing. The rules are in docs/CHECK.md.
//!
//! ```text
//! let explanation = explain(owner, dacl, &GenericMapping::file(), &token, Mask(0x0012_0116));
//! explanation.verdict(); // Denied { missing: 0x116 }
//! explanation.part(1);   // Some(Part { mask: 0x116, cause: Cause::Listed(Finding::Denied(0)) })
//! ```
#![tactic(auto)]

mod case;
mod explanation;
mod laws;
mod reason;

pub use explanation::{Explanation, PLACES, Part, explain, explain_descriptor};
pub use laws::{
    causes_are_due, findings_have_a_subject, findings_name_first_entries,
    parts_are_apart_and_whole, parts_join,
};
pub use reason::{Cause, Finding, Reason, Share};
