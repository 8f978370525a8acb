//! People: an answer about all tokens, and after it what it means for each user of the accounts that may log on.
//!
//! `who` is answered of each user as `why` is, with the groups that it really has: what is granted to it makes its
//! lines, with the way by which it belongs to the group; who is granted nothing has none. `compare` is answered by what
//! each user gains and loses. Names stand in the place of SIDs, or beside them, where masks are spelled by names too.
//!
//! ```text
//! let text = Some("D:(A;;0x1;;;S-1-5-21-1-2-3-1200)");
//! let question = TextCommand::Descriptor(DescriptorCommand::Who);
//! let asked = PeopleQuestion { accounts: &accounts, settings, question, text, arguments: &["0x1"], style };
//! let answer = by_people(alloc, asked, plain)?;
//! // 0x1 to S-1-5-21-1-2-3-1200
//! // granted 0x1 by entry 1 (A;;0x1;;;S-1-5-21-1-2-3-1200) as S-1-5-21-1-2-3-1200 to S-1-5-21-1-2-3-1104 alice
//! ```
#![tactic(auto)]

mod asking;
mod change;
mod forms;
mod granted;
mod names;
mod naming;
mod people;
mod reading;
mod sids;
mod wanted;
mod way;

pub use asking::{PeopleQuestion, by_people};
pub use forms::{BY_PERSON, BY_WAY_OF, GAINED_BY, LOST_BY, NAMES, PERSON};
