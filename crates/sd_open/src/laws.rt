//! What follows from the rules. Each law is the contract of a function that does nothing.

ghost use Rattle.sd_open.specs.Laws.{DeletionIsGrantedByEither, OpenWithoutParentIsACheck, ParentTakesNothing};

/// A law: an open of a file without a parent, as of a volume's root, is the check of its descriptor.
#[tactic(auto, using(crate::proofs::LawProofs::open_without_parent_is_a_check))]
pub fn open_without_parent_is_a_check()
    ensures { OpenWithoutParentIsACheck }
{}

/// A law: what a file's descriptor grants no parent takes away.
#[tactic(auto, using(crate::proofs::LawProofs::parent_takes_nothing))]
pub fn parent_takes_nothing()
    ensures { ParentTakesNothing }
{}

/// A law: an open for DELETE is granted exactly if the file's descriptor grants DELETE or its parent's
/// FILE_DELETE_CHILD ([MS-FSA] 2.1.5.1.2.1).
#[tactic(auto, using(crate::proofs::LawProofs::deletion_is_granted_by_either))]
pub fn deletion_is_granted_by_either()
    ensures { DeletionIsGrantedByEither }
{}
