//! Access analysis: who is granted a right by a descriptor at all, who gains or loses one by a change, and which risks
//! are in it.
//!
//! An analysis is about every token that has a base: groups that all tokens in question have. It answers by SIDs. The
//! rules of the check are those of `sd_check` (specs/Check.antt there).
//!
//! ```text
//! let base = Base { groups: &[] };
//! for access in &who(alloc, descriptor.owner, dacl, &GenericMapping::file(), &base, Mask(0x0012_0089))? {
//!     for alternative in &access.alternatives {
//!         // alternative.holder has access.mask, unless one of access.denied[..alternative.unless] is in the token
//!     }
//! }
//! let comparison = compare(alloc, &old, &new, &GenericMapping::file(), &base)?;
//! for change in &comparison.gained {
//!     // change.witness is a token that is granted change.mask by `new`, and none of it by `old`
//! }
//! ```
#![tactic(auto)]

mod base;
mod compare_gains;
mod compare_report;
mod compare_search;
mod compare_sides;
mod compare_table;
mod concern;
mod descendants;
mod descendants_compare;
mod descendants_who;
mod effect;
mod laws;
mod places;
mod redundancy;
mod risks;
mod trial;
mod who_case;
mod who_has;
mod who_walk;
mod witness;

pub use base::Base;
pub use compare_gains::{Comparison, compare};
pub use compare_report::Change;
pub use compare_sides::DescriptorRef;
pub use descendants::{Descendant, descendants_of, inherited_list};
pub use descendants_compare::{DescendantChange, compare_descendants, descendant_ref};
pub use descendants_who::{DescendantAccess, who_descendants};
pub use effect::has_effect;
pub use laws::{
    below_is_as_in_it, bit_is_its_check, creators_stand_for_all, unnamed_users_are_alike,
};
pub use redundancy::redundant;
pub use risks::{Right, Risk, risks_in};
pub use who_has::{Access, Alternative, Holder, who};
pub use witness::{PassSids, Witness, two_sids_per_pass_suffice};
