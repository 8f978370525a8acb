//! Who asks, and the words that say it: a token, the groups of a device, claims, an integrity level ([MS-DTYP] 2.5.2).
//!
//! A token is not all that a whole descriptor asks about: its conditions ask about claims and about the device that is
//! asked from, and its label about an integrity level. A question's WORDs say each of these, beside those of a token,
//! which `sd_answer` parses. A claim is written as a condition would compare it, and parsed by the same parser.
//!
//! ```text
//! let words = ["BU", "DC=device", "level=low", "@User.Project={\"VP\", \"QA\"}", "@Device.Managed=1"];
//! let client = read_client(alloc, aliases, user, &words)?;
//! let facts = Facts { token: &client.token, device_groups: &client.device_groups, .. };
//! ```
#![tactic(auto)]

mod claim;
mod client;
mod laws;
mod level;
mod read;
mod word;

pub use client::Client;
pub use laws::{claims_compare_as_written, clients_of_tokens};
pub use read::read_client;
