//! What follows from the rules. Each law is the contract of a function that does nothing.

ghost use Rattle.sd_access.specs.Laws.{PlainIsCheckedAsBefore};

/// A law: where the DACL has allows and denies alone, none of them for a PRINCIPAL SELF that the question names, and
/// the client's level isn't below the object's, the verdict is that of the check on the plain part.
#[tactic(auto, using(crate::proofs::PlainIsChecked::plain_is_checked_as_before))]
pub fn plain_is_checked_as_before()
    ensures { PlainIsCheckedAsBefore }
{}
