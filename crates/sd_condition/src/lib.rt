//! The conditions of callback entries, as values and as an entry's application data: [MS-DTYP] 2.4.4.17.
//!
//! Parses untrusted bytes, and writes one form: each condition has one data, and what isn't exactly that is no
//! condition here, so an entry that has it keeps its bytes. A condition's tokens are in postfix order. Each operator
//! finds its operands, and one condition is left, so a stack machine that evaluates them ([MS-DTYP] 2.5.3.1.5) never
//! lacks an operand, and their order is that of a tree. No length makes a parse allocate more than the data has.
//!
//! ```text
//! if let Some(condition) = read_condition(alloc, bytes)? {
//!     let tokens = condition.tokens();
//!     let written = condition.write(alloc)?; // the bytes, in data_len() of them
//! }
//! ```
#![tactic(auto)]

mod attribute;
mod condition;
mod integer;
mod laws;
mod list;
mod operator;
mod stack;
mod token;
mod value;

pub use attribute::{Attribute, Scope};
pub use condition::{Condition, MAX_CONDITION_BYTES, read_condition};
pub use integer::{Base, Integer, Sign, Width};
pub use laws::{conditions_come_back, data_comes_back, parsed_is_a_condition};
pub use list::ValueList;
pub use operator::Operator;
pub use token::Token;
pub use value::Value;
