//! Whether a condition holds for who asks: [MS-DTYP] 2.5.3.1.5 over the conditions of 2.4.4.17.
//!
//! A condition is true, false or unknown. An allow entry applies only where it is true, a deny entry unless it is
//! false. The rules are in specs/Evaluation.antt, over the condition's tree, and in words in docs/CHECK.md. There is no
//! recursion, so no condition runs out of stack, and the one allocation is for its operands. Nothing is copied.
//!
//! ```text
//! let facts = Facts { token, device_groups, local, user, device, resource };
//! let truth = evaluate(alloc, &facts, AceKind::Allow, Pass::First, &condition)?;
//! if applies(truth, AceKind::Allow) { .. }
//! ```
#![tactic(auto)]

mod attribute;
mod comparison;
mod condition;
mod datum;
mod facts;
mod member;
mod operand;
mod part;
mod text;
mod truth;

pub use condition::evaluate;
pub use facts::Facts;
pub use truth::{Truth, applies};
