//! Laws of a claim's two forms: each function has an empty body, and its contract is the law.

ghost use Rattle.sd_claim.specs.Laws.{ClaimsComeBack, ClaimsFitTheirData};
ghost use Rattle.sd_claim.specs.WorkedClaims.{WorkedClaimsAreWritten};

/// A law: `read_claim` parses the data that `write` returned, and gets the same claim.
#[tactic(auto, using(crate::proofs::ClaimsComeBack::claims_come_back))]
pub fn claims_come_back()
    ensures { ClaimsComeBack }
{}

/// A law: a claim that was parsed takes no more bytes than its data has, even where parts of the data overlap.
#[tactic(auto, using(crate::proofs::ClaimsFit::claims_fit_their_data))]
pub fn claims_fit_their_data()
    ensures { ClaimsFitTheirData }
{}

/// A law: worked claims are written as the data that Samba 4.22 writes.
#[tactic(auto, using(crate::proofs::WorkedClaims::worked_claims_are_written))]
pub fn worked_claims_are_written()
    ensures { WorkedClaimsAreWritten }
{}
