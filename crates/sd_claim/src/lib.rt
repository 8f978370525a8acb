//! The claims of resource attribute entries, as values and as bytes: [MS-DTYP] 2.4.4.15, 2.4.10.1.
//!
//! A claim is a name, flags and values of one type, which conditions ask for as `@Resource.name`. An entry whose data
//! is no claim is for the caller, who has its bytes.
//!
//! ```text
//! let claim = read_claim(alloc, data)?; // None if the data is no claim
//! let data = claim.write(alloc)?; // the one written form
//! ```
#![tactic(auto)]

mod claim;
mod laws;
mod part;
mod text;
mod value;
mod value_type;
mod values;

pub use claim::{Claim, MAX_CLAIM_BYTES, read_claim};
pub use laws::{claims_come_back, claims_fit_their_data, worked_claims_are_written};
pub use value::Value;
pub use value_type::ValueType;
