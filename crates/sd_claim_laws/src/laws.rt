//! Laws of claims' texts.

ghost use Rattle.sd_claim_laws.specs.Laws.{ClaimTextsComeBack, ParsedIsAClaim};

/// A law, the round trip: the text that `print_claim` of `sd_claim_text` prints of a claim, with anything after it, is
/// parsed as that claim, whichever aliases a text may have ([MS-DTYP] 2.5.1.1, attribute-data).
#[tactic(auto, using(crate::proofs::Claims::texts_come_back))]
pub fn claim_texts_come_back()
    ensures { ClaimTextsComeBack }
{}

/// A law: what `read_claim` of `sd_claim` parses of bytes is a claim whose numbers have the bits that they may have, as
/// the round trip asks ([MS-DTYP] 2.4.10.1).
pub fn parsed_is_a_claim()
    ensures { ParsedIsAClaim }
{}
