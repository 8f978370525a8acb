//! What the entries of a list become.

ghost use Rattle.sd_specialize.specs.Entry.{GivesEntry};
ghost use Rattle.sd_specialize.specs.Rule.{rule_of};

use crate::context::Context;
use crate::entry::ace_for;
use crate::fault::EntryError;
use crate::marked::{Marks, marked_entry};
use sd_acl::Ace;
use sd_whole::WholeAce;
use std::alloc::Global;

/// What the entries of a list become.
#[derive(Clone, Copy)]
pub(crate) enum Rule<'a> {
    /// What each is for one question.
    Asked(&'a Context<'a>),
    /// What each is for all tokens, by markers.
    Marked(Marks<'a>),
}

impl Rule<'_> {
    #[tactic(auto, unfolding(crate::specs::Rule::rule_of))]
    pub(crate) fn entry(self, alloc: Global, entry: &WholeAce) -> Result<Ace, EntryError>
        ensures { GivesEntry result (rule_of self.entry entry.now) }
    {
        match self {
            Rule::Asked(context) => ace_for(alloc, context, entry),
            Rule::Marked(marks) => marked_entry(alloc, marks, entry),
        }
    }
}
