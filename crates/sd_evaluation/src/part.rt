//! The parts of a condition.

ghost use Rattle.std.specs.Prelude.{◌≡◌};
ghost use Rattle.std.specs.Option.{option_map};
ghost use Rattle.sd_evaluation.specs.Evaluation.{one_truth, over_one, over_two, part_membership, part_operand};
ghost use Rattle.sd_evaluation.specs.Evaluation.{part_truth, truth_alone, two_truth, value_truth};
ghost use Rattle.sd_evaluation.specs.Seen.{seen_operand, seen_part, seen_values};

use crate::comparison::comparison;
use crate::datum::Datum;
use crate::facts::Facts;
use crate::member::{literals_of, membership};
use crate::operand::{Operand, Values, operand_of};
use crate::truth::Truth;
use sd_acl::AceKind;
use sd_check::Pass;
use sd_condition::{Operator, Token};

/// What a part of a condition is to the operator over it.
#[derive(Clone, Copy)]
pub(crate) enum Part<'a> {
    /// An operand.
    Leaf(&'a Token),
    /// What an operator left.
    Evaluated(Truth),
}

/// The truth of values that stand alone.
fn value_truth(values: &Values<'_>) -> Truth
    ensures { result ≡ value_truth (seen_values values.now) }
{
    match values {
        Values::One(Datum::Number(number)) => Truth::of(*number != 0),
        Values::One(Datum::Text(text)) => Truth::of(!text.is_empty()),
        _ => Truth::Unknown,
    }
}

/// The truth of an attribute that stands alone ([MS-DTYP] 2.4.4.17.7).
fn truth_alone(operand: &Option<Operand<'_>>) -> Truth
    ensures { result ≡ truth_alone (option_map seen_operand operand.now) }
{
    match operand {
        Some(operand) => value_truth(&operand.values),
        None => Truth::Unknown,
    }
}

impl<'a> Part<'a> {
    /// The part's truth.
    pub(crate) fn truth(&self, facts: &Facts<'a>, kind: AceKind) -> Truth
        ensures { result ≡ part_truth facts.now kind (seen_part self.now) }
    {
        match self {
            Part::Leaf(token) => truth_alone(&operand_of(facts, kind, token)),
            Part::Evaluated(truth) => *truth,
        }
    }

    /// The operand that the part is.
    fn operand(&self, facts: &Facts<'a>, kind: AceKind) -> Option<Operand<'a>>
        ensures { option_map seen_operand result ≡ part_operand facts.now kind (seen_part self.now) }
    {
        match self {
            Part::Leaf(token) => operand_of(facts, kind, token),
            Part::Evaluated(_) => None,
        }
    }

    /// What Member_of or one of its family leaves of the part.
    fn membership(&self, facts: &Facts<'a>, kind: AceKind, pass: Pass, operator: Operator) -> Truth
        ensures { result ≡ part_membership facts.now kind pass operator (seen_part self.now) }
    {
        match self {
            Part::Leaf(token) => membership(facts, kind, pass, operator, literals_of(token)),
            Part::Evaluated(_) => Truth::Unknown,
        }
    }
}

/// What an operator leaves of one part.
pub(crate) fn over_one<'a>(
    facts: &Facts<'a>,
    kind: AceKind,
    pass: Pass,
    operator: Operator,
    part: &Part<'a>,
) -> Part<'a>
    ensures { seen_part result ≡ over_one facts.now kind pass operator (seen_part part.now) }
{
    Part::Evaluated(match operator {
        Operator::Not => part.truth(facts, kind).not(),
        Operator::Exists => Truth::of(part.operand(facts, kind).is_some()),
        Operator::NotExists => Truth::of(part.operand(facts, kind).is_none()),
        _ => part.membership(facts, kind, pass, operator),
    })
}

/// What an operator leaves of two parts.
pub(crate) fn over_two<'a>(
    facts: &Facts<'a>,
    kind: AceKind,
    operator: Operator,
    left: &Part<'a>,
    right: &Part<'a>,
) -> Part<'a>
    ensures { seen_part result ≡ over_two facts.now kind operator (seen_part left.now) (seen_part right.now) }
{
    Part::Evaluated(match operator {
        Operator::And => left.truth(facts, kind).and(right.truth(facts, kind)),
        Operator::Or => left.truth(facts, kind).or(right.truth(facts, kind)),
        _ => comparison(
            operator,
            &left.operand(facts, kind),
            &right.operand(facts, kind),
        ),
    })
}
