//! The claims of resource attribute entries as text, in the security descriptor definition language (SDDL) of
//! [MS-DTYP] 2.5.1.1.
//!
//! A claim is printed as the text that is parsed as just this claim, and has no text here if there is none.
//!
//! ```text
//! let claim = parse_claim(alloc, &mut cursor, known)?; // the cursor is at ("Project",TS,0,"Windows")
//! if let Some(text) = print_claim(alloc, &claim)? {
//!     // ("Project",TS,0x0,"Windows")
//! }
//! ```
#![tactic(auto)]

mod claim;
mod error;
mod laws;
mod name;
mod number;
mod octets;
mod quoted;
mod sid;
mod space;
#[cfg(test)]
mod tests;
mod utf16;
mod value;
mod value_type;

pub use claim::{parse_claim, print_claim};
pub use error::ClaimError;
pub use laws::names_come_back;
