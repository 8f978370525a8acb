//! The conditions of callback entries as text, in the security descriptor definition language (SDDL) of
//! [MS-DTYP] 2.5.1.1.
//!
//! A condition is printed from its tokens. Its text is parsed as just these tokens, so a condition for which there is
//! no such text has none here. Each operand that is a condition stands in parentheses, as Windows and Samba print it.
//!
//! ```text
//! if let Some(text) = print_condition(alloc, &condition)? {
//!     // ((@USER.Level >= 5) && (Member_of {SID(BA)}))
//! }
//! ```
#![tactic(auto)]

mod attribute;
mod condition;
mod growing;
mod laws;
mod operator;
mod part;
mod value;

pub use attribute::{is_literal, is_text, push_escaped};
pub use condition::print_condition;
pub use laws::{conditions_have_a_tree, trees_say_the_tokens};
pub use value::print_quoted;
