//! Changes of whole security descriptors: SIDs are replaced, the entries of one go, inheritance begins or ends
//! ([MS-DTYP] 2.4.6).
//!
//! A change makes another descriptor, of the owner, the group, and the entries of every type in SACL and DACL; nothing
//! else moves. SIDs in the data of an entry, as in a condition or a claim, stay as they are: `first_inside` names the
//! first entry that has one there.
//!
//! ```text
//! let change = Change::Replace { old, new };
//! if change.concerns(&descriptor) {
//!     let changed = change.apply(alloc, &descriptor)?;
//! }
//! ```
#![tactic(auto)]

mod change;
mod entry;
mod inside;
mod laws;
mod occurrence;

pub use change::{Change, ChangeError, Inherited};
pub use inside::{EntryPlace, first_inside};
pub use laws::{
    no_entry_is_left_of_a_removed_sid, nothing_is_left_of_a_replaced_sid, replacing_back_undoes_it,
    what_is_not_concerned_stays,
};
pub use occurrence::{is_trustee, occurs};
