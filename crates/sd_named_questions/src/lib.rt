//! Questions whose words name accounts: the words are put as SIDs, the question is answered, and the answer is told by
//! people.
//!
//! ```text
//! let answer = answer_named(alloc, &accounts, options, Some("D:(A;;FR;;;EXAMPLE\\staff)"), request, &mut reader)?;
//! // with `who FR` as the request: whom the list grants FR, and which users it is
//! ```
#![tactic(auto)]

mod answer;
mod request;

pub use answer::{NamedRunError, answer_each_named, answer_named};
