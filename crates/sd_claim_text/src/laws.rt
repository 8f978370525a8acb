//! Laws of a claim's text: each function has an empty body, and its contract is the law.

ghost use Rattle.sd_claim_text.specs.Laws.{NamesComeBack};

/// A law: the name that is printed of a claim is parsed as the same name, whatever follows.
#[tactic(auto, using(crate::proofs::PrintedNames::names_come_back))]
pub fn names_come_back()
    ensures { NamesComeBack }
{}
