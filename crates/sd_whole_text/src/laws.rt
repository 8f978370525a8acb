//! Laws of whole descriptors as text: each function has an empty body, and its contract is the law.

ghost use Rattle.sd_whole_text.specs.Laws.{PlainTextsStay};

/// A law: what `print_whole` prints of a plain descriptor is what `print_sddl_in` of `sd_text` prints, byte for byte,
/// if no entry has a flag outside the seven named ones.
#[tactic(auto, using(crate::proofs::PlainTexts::plain_texts_stay))]
pub fn plain_texts_stay()
    ensures { PlainTextsStay }
{}
