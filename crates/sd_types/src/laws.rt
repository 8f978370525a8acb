//! What follows from the rules. Each law is the contract of a function that does nothing.

ghost use Rattle.sd_types.specs.Laws.{EachListIsGoneThrough, NodeIsGrantedWhatItsLeavesAre};
ghost use Rattle.sd_types.specs.Laws.{PropagationGivesTheVerdicts, PropagationGrantsTheSame};

/// A law: the entries of a DACL, gone through in order, with what each says handed down and up, grant a right to just
/// those nodes of which each leaf is granted it by its chain ([MS-DTYP] 2.5.3.2, ObjectTypeList).
#[tactic(auto, using(crate::proofs::Same::propagation_grants_the_same))]
pub fn propagation_grants_the_same()
    ensures { PropagationGrantsTheSame }
{}

/// A law: each list of entries can be gone through so.
#[tactic(auto, using(crate::proofs::Propagation::each_list_is_gone_through))]
pub fn each_list_is_gone_through()
    ensures { EachListIsGoneThrough }
{}

/// A law: the verdict on a node is that of a check that grants a right exactly if it is granted on each of its leaves.
#[tactic(auto, using(crate::proofs::Nodes::node_is_granted_what_its_leaves_are))]
pub fn node_is_granted_what_its_leaves_are()
    ensures { NodeIsGrantedWhatItsLeavesAre }
{}

/// A law: gone through in each pass for each right, with what each says handed down and up, the entries of a DACL leave
/// at each node just what the verdict on it is ([MS-DTYP] 2.5.3.2, ObjectTypeList).
#[tactic(auto, using(crate::proofs::Remaining::propagation_gives_the_verdicts))]
pub fn propagation_gives_the_verdicts()
    ensures { PropagationGivesTheVerdicts }
{}
