//! Laws of clients: each function has an empty body, and its contract is the law.

ghost use Rattle.sd_client.specs.Laws.{ClaimsCompareAsWritten, ClientsOfTokens};

/// A law: words that are all of a token make a client with that token ([MS-DTYP] 2.5.2), without claims and groups of a
/// device.
pub fn clients_of_tokens()
    ensures { ClientsOfTokens }
{}

/// A law: the value of a claim that a word says compares as the literal that the word has ([MS-DTYP] 2.5.3.1.5).
#[tactic(auto, using(crate::proofs::Compared::claims_compare_as_written))]
pub fn claims_compare_as_written()
    ensures { ClaimsCompareAsWritten }
{}
