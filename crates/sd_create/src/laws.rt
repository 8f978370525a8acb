//! What follows from the rules. Each law is the contract of a function that does nothing.

ghost use Rattle.sd_create.specs.Laws.{CreatedStays, InheritedFollowsTheParent, PlainIsAsInATree, ProtectedStays};
ghost use Rattle.sd_create.specs.Laws.{ProtectedTakesNothing, TwiceIsOnce, WithoutAListTheParentDecides};

/// A law: of allows and denies an object inherits what a child in a tree does ([MS-DTYP] 2.5.3.4).
#[tactic(auto, using(crate::proofs::LawProofs::plain_is_as_in_a_tree))]
pub fn plain_is_as_in_a_tree()
    ensures { PlainIsAsInATree }
{}

/// A law: the inherited entries of an object with a list of its own are all that its parent's list passes on, or none.
#[tactic(auto, using(crate::proofs::LawProofs::inherited_follows_the_parent))]
pub fn inherited_follows_the_parent()
    ensures { InheritedFollowsTheParent }
{}

/// A law: an object without a list has what its parent's list passes on, if that passes on anything.
#[tactic(auto, using(crate::proofs::LawProofs::without_a_list_the_parent_decides))]
pub fn without_a_list_the_parent_decides()
    ensures { WithoutAListTheParentDecides }
{}

/// A law: a protected list takes nothing from the parent, unless it counts only for lack of entries to inherit.
#[tactic(auto, using(crate::proofs::LawProofs::protected_takes_nothing))]
pub fn protected_takes_nothing()
    ensures { ProtectedTakesNothing }
{}

/// A law: to inherit twice is to inherit once.
#[tactic(auto, using(crate::proofs::PropagationProofs::twice_is_once))]
pub fn inheriting_twice_is_once()
    ensures { TwiceIsOnce }
{}

/// A law: what a new object got by DACL_AUTO_INHERIT or SACL_AUTO_INHERIT is what it inherits of the same parent.
#[tactic(auto, using(crate::proofs::PropagationProofs::created_stays))]
pub fn what_was_created_stays()
    ensures { CreatedStays }
{}

/// A law: a protected list inherits nothing, and loses nothing.
#[tactic(auto, using(crate::proofs::PropagationProofs::protected_stays))]
pub fn protected_stays()
    ensures { ProtectedStays }
{}
