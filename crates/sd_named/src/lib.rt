//! Names in the words of a command line: SIDs in the place of the names of accounts, and the groups that a user has;
//! also the accounts of a file's text, and the SIDs of a user's token.
//!
//! ```text
//! let naming = Naming { alloc, accounts: &accounts, known };
//! let named = naming.of_user(false, "EXAMPLE\\alice", "FR", &[])?;
//! // S-1-5-21-1-2-3-1104 FR S-1-1-0 S-1-5-11 S-1-5-21-1-2-3-513 ..: arguments of `verdict`
//! ```
#![tactic(auto)]

mod added;
mod arguments;
mod file;
mod lending;
mod logon;
mod sddl;
mod sids;
mod trustee;
mod well_known;
mod word;

pub use arguments::{NamedError, NamedWords, Naming};
pub use file::{FileError, accounts_of};
pub use lending::lent;
pub use sddl::named_sddl;
pub use trustee::trustee_of;
pub use well_known::WELL_KNOWN;
