//! What a comparison without a line says.
ghost use Rattle.sd_review.specs.Laws.{SilentContainerPassesDownTheSame, SilentNodeGrantsTheSame};

/// Where a comparison has no line, each token is granted the same before and after ([MS-DTYP] 2.5.3.2): of the node,
/// and if it is a container of all that is made in it without entries of its own (2.5.3.4).
#[tactic(auto, using(crate::proofs::Silence::silence))]
pub fn silent_changes_grant_the_same()
    ensures node { SilentNodeGrantsTheSame }
    ensures container { SilentContainerPassesDownTheSame }
{}
