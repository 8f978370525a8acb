//! The access check: [MS-DTYP] 2.5.3.2.
//!
//! A pure question over a descriptor, a token and a request. It takes no memory and asks nothing of the
//! system. The rules are in specs/Check.antt, and in words in docs/CHECK.md.
//!
//! ```text
//! let token = Token::new(user, groups, Privileges::default());
//! match check(&descriptor, &GenericMapping::file(), &token, Mask(0x0002_0000)) {
//!     Verdict::Granted(mask) => ..,
//!     Verdict::Denied { missing } => ..,
//!     ..
//! }
//! ```
#![tactic(auto)]

mod check_progress;
mod entry;
mod fold;
mod grounds;
mod index;
mod laws;
mod question;
mod request;
mod token;
mod verdict;

pub use check_progress::{CheckProgress, PassProgress};
pub use entry::{Entry, Trustee};
pub use fold::RESERVED;
pub use grounds::{Implied, Pass, subject_of};
pub use laws::{
    enabled_group_takes_nothing, entries_grant_rights_alone, first_entry_decides,
    grants_what_was_asked, maximum_is_each_by_itself, nobody_restricts_nothing,
    order_of_restricting_sids_is_free, restriction_only_takes_away, silent_entry_changes_nothing,
};
pub use question::{MAXIMUM_ALLOWED, MAXIMUM_PLACE, Question};
pub use request::{DaclRef, check, check_joined, check_parts};
pub use token::{GroupState, Privileges, Token};
pub use verdict::Verdict;
