//! Accounts: the names of SIDs, and the groups that a user really has.
//!
//! An accounts file has a row a line. Its rows give users and groups names, say who is a member of which group, which
//! group is a user's primary group, and which account is disabled. It is parsed once; the questions are then answered
//! from memory, the groups of a user and the ways to them by one walk over an index of the direct memberships. A
//! `Search` has of many users, one after another, the groups of each who has one of the wanted SIDs.
//!
//! ```text
//! let accounts = Accounts::read(alloc, text)?;
//! let user = accounts.sid_named("anna")?;
//! let member = accounts.membership(alloc, &[user])?; // its groups, and those of its groups
//! let way = member.way_to(alloc, &member.groups()[0])?; // by which groups
//! ```
#![tactic(auto)]

mod accounts;
mod facts;
mod fault;
mod groups;
mod index;
mod laws;
mod membership;
mod names;
mod naming;
mod read;
mod row;
mod search;
mod searching;
#[cfg(test)]
mod tests;
mod users;
mod walk;
mod way;
mod words;

pub use accounts::Accounts;
pub use fault::{AccountsError, AccountsFault};
pub use laws::{one_belongs_by_a_way, order_of_rows_does_not_matter, rows_have_no_fault};
pub use membership::Membership;
pub use names::NameError;
pub use search::Search;
