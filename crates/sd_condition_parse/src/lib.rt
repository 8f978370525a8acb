//! Conditions of callback entries parsed from text, in the security descriptor definition language (SDDL) of
//! [MS-DTYP] 2.5.1.1.
//!
//! A condition is parsed to its tokens in postfix order, in one pass over untrusted text, at a cursor in the text that
//! it is a part of. There is no recursion, so no text runs out of stack, however deep its parentheses are. The operand
//! on the right of a comparison is a value, a list, or an attribute with a prefix; `!` stands before a parenthesis.
//!
//! ```text
//! let mut cursor = Cursor::new("(@User.Level >= 5 && Member_of {SID(BA)})");
//! parse_condition(alloc, &mut cursor, Aliases::in_domain(None))?; // 6 tokens, and the cursor is at the end
//! ```
#![tactic(auto)]

mod attribute;
mod condition;
mod error;
mod integer;
mod laws;
mod operator;
mod run;
mod state;
mod term;
mod value;

pub use condition::parse_condition;
pub use error::ConditionError;
pub use laws::{
    integers_come_back, octets_come_back, plain_names_come_back, sids_come_back,
    words_leave_a_condition,
};
