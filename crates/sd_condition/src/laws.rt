//! Laws of a condition's two forms: each function has an empty body, and its contract is the law.

ghost use Rattle.sd_condition.specs.Laws.{ConditionsComeBack, DataComesBack, ParsedIsACondition};

/// A law, the round trip: `read_condition` parses what `write` returns ([MS-DTYP] 2.4.4.17.4), as the same tokens.
#[tactic(auto, using(crate::proofs::ConditionsComeBack::conditions_come_back))]
pub fn conditions_come_back()
    ensures { ConditionsComeBack }
{}

/// A law: `write` returns the data ([MS-DTYP] 2.4.4.17.4) that `read_condition` parsed, so each condition has one data.
#[tactic(auto, using(crate::proofs::DataComesBack::data_comes_back))]
pub fn data_comes_back()
    ensures { DataComesBack }
{}

/// A law: what `read_condition` parses is a condition ([MS-DTYP] 2.4.4.17), and its numbers have the bits that the
/// types of tokens have. So the round trip holds of it.
pub fn parsed_is_a_condition()
    ensures { ParsedIsACondition }
{}
