//! Questions about whole descriptors: [MS-DTYP] 2.5.3.
//!
//! `check_whole` answers whether a client is granted what it asks for on an object, by all that its descriptor has:
//! entries for object types and with conditions, the claims of resource attributes, PRINCIPAL SELF, and the integrity
//! label. `explain_whole` says why. A descriptor without these is answered as by `check` of `sd_check`. The rules are
//! in specs/Access.antt, and in words in docs/CHECK.md.
//!
//! ```text
//! let question = Question { client: &client, chain: &[], principal_self: None, mapping: &mapping, asked };
//! let verdict = check_whole(alloc, &question, &descriptor)?;
//! ```
#![tactic(auto)]

mod access;
mod laws;
mod limits;
mod question;
mod resource;

pub use access::{Explained, check_whole, explain_whole};
pub use laws::plain_is_checked_as_before;
pub use limits::{has_limits, may_be_denied};
pub use question::Question;
pub use resource::resource_claims;
