//! Laws of a condition's tree: each function has an empty body, and its contract is the law.

ghost use Rattle.sd_condition_text.specs.Laws.{ConditionsHaveATree, TreesSayTheTokens};

/// A law: each condition ([MS-DTYP] 2.4.4.17.4) has a tree.
#[tactic(auto, using(crate::proofs::Trees::conditions_have_a_tree))]
pub fn conditions_have_a_tree()
    ensures { ConditionsHaveATree }
{}

/// A law: the tokens are those of their tree in postfix order ([MS-DTYP] 2.4.4.17.4), so the tree says all of them.
#[tactic(auto, using(crate::proofs::Trees::trees_say_the_tokens))]
pub fn trees_say_the_tokens()
    ensures { TreesSayTheTokens }
{}
