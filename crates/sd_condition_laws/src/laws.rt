//! What a condition's text says.

ghost use Rattle.sd_condition_laws.specs.Laws.{ConditionsComeBack};

/// A law: a condition's text ([MS-DTYP] 2.5.1.1, cond-expr), as `print_condition` prints it, is parsed as the tokens of
/// that condition, whatever follows it and whichever aliases the text may have.
#[tactic(auto, using(crate::proofs::Whole::conditions_come_back))]
pub fn conditions_come_back()
    ensures { ConditionsComeBack }
{}
