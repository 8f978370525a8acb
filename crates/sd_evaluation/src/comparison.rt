//! Comparisons.

ghost use Rattle.std.specs.Prelude.{◌≡◌, Some};
ghost use Rattle.std.specs.Option.{option_map};
ghost use Rattle.sd_evaluation.specs.Compare.{any_of, compared, compares_with, comparison, contains, equals, has_each};
ghost use Rattle.sd_evaluation.specs.Compare.{has_some, is_among, is_greater, is_less, is_same, ordered, relation_of};
ghost use Rattle.sd_evaluation.specs.Compare.{same_or_different};
ghost use Rattle.sd_evaluation.specs.Seen.{seen, seen_operand, seen_values};
ghost use Rattle.sd_evaluation.specs.Value.{listed};

use crate::datum::Datum;
use crate::operand::{Operand, Values};
use crate::text::text_order;
use crate::truth::Truth;
use sd_condition::Operator;
use std::cmp::Ordering;

/// How a value stands to another.
#[derive(Clone, Copy, Debug, PartialEq, Eq)]
pub(crate) enum Relation {
    Less,
    Equal,
    Greater,
    /// They are the same, and have no order.
    Same,
    /// They differ, and have no order.
    Different,
    /// Their types are unlike.
    Unlike,
}

impl Relation {
    /// The relation of values that have an order.
    fn ordered(order: Ordering) -> Relation
        ensures { result ≡ ordered order }
    {
        match order {
            Ordering::Less => Relation::Less,
            Ordering::Equal => Relation::Equal,
            Ordering::Greater => Relation::Greater,
        }
    }

    /// The relation of values that have none.
    fn same_or_different(same: bool) -> Relation
        ensures { result ≡ same_or_different same }
    {
        if same {
            Relation::Same
        } else {
            Relation::Different
        }
    }

    fn is_same(self) -> Truth
        ensures { result ≡ is_same self }
    {
        match self {
            Relation::Equal | Relation::Same => Truth::True,
            Relation::Less | Relation::Greater | Relation::Different => Truth::False,
            Relation::Unlike => Truth::Unknown,
        }
    }

    fn is_less(self) -> Truth
        ensures { result ≡ is_less self }
    {
        match self {
            Relation::Less => Truth::True,
            Relation::Equal | Relation::Greater => Truth::False,
            Relation::Same | Relation::Different | Relation::Unlike => Truth::Unknown,
        }
    }

    fn is_greater(self) -> Truth
        ensures { result ≡ is_greater self }
    {
        match self {
            Relation::Greater => Truth::True,
            Relation::Less | Relation::Equal => Truth::False,
            Relation::Same | Relation::Different | Relation::Unlike => Truth::Unknown,
        }
    }
}

/// How a value stands to another: numbers by value, texts and octets from the first unit that differs on.
fn relation_of(with_case: bool, a: &Datum<'_>, b: &Datum<'_>) -> Relation
    ensures { result ≡ relation_of with_case (seen a.now) (seen b.now) }
{
    match (a, b) {
        (Datum::Number(a), Datum::Number(b)) => Relation::ordered(a.cmp(b)),
        (Datum::Text(a), Datum::Text(b)) => Relation::ordered(text_order(with_case, a, b)),
        (Datum::Octets(a), Datum::Octets(b)) => Relation::ordered(a.cmp(b)),
        (Datum::Sid(a), Datum::Sid(b)) => Relation::same_or_different(a.is(b)),
        _ => Relation::Unlike,
    }
}

/// Whether the value is one of these.
#[tactic(auto, using(crate::proofs::Kleene::or_false, crate::proofs::Kleene::or_assoc))]
fn is_among(with_case: bool, these: &Values<'_>, value: &Datum<'_>) -> Truth
    ensures { result ≡ is_among with_case (listed (seen_values these.now)) (seen value.now) }
{
    let mut found = Truth::False;
    'these: for i in 0..these.len() {
        found = found.or(relation_of(with_case, &these.at(i), value).is_same());
    }
    found
}

/// Whether each of the others is one of these.
#[tactic(auto, using(crate::proofs::Kleene::and_true, crate::proofs::Kleene::and_assoc))]
fn has_each(with_case: bool, these: &Values<'_>, others: &Values<'_>) -> Truth
    ensures { result ≡ has_each with_case (listed (seen_values these.now)) (listed (seen_values others.now)) }
{
    let mut all = Truth::True;
    'others: for i in 0..others.len() {
        all = all.and(is_among(with_case, these, &others.at(i)));
    }
    all
}

/// Whether one of the others is one of these.
#[tactic(auto, using(crate::proofs::Kleene::or_false, crate::proofs::Kleene::or_assoc))]
fn has_some(with_case: bool, these: &Values<'_>, others: &Values<'_>) -> Truth
    ensures { result ≡ has_some with_case (listed (seen_values these.now)) (listed (seen_values others.now)) }
{
    let mut found = Truth::False;
    'others: for i in 0..others.len() {
        found = found.or(is_among(with_case, these, &others.at(i)));
    }
    found
}

/// Whether both are one value, or lists in which are the same values.
fn equals(with_case: bool, left: &Values<'_>, right: &Values<'_>) -> Truth
    ensures { result ≡ equals with_case (seen_values left.now) (seen_values right.now) }
{
    match (left, right) {
        (Values::One(a), Values::One(b)) => relation_of(with_case, a, b).is_same(),
        (Values::One(_), _) | (_, Values::One(_)) => Truth::Unknown,
        _ => has_each(with_case, left, right).and(has_each(with_case, right, left)),
    }
}

/// How the left value stands to the right one, if each is one value.
fn compares_with(with_case: bool, left: &Values<'_>, right: &Values<'_>) -> Relation
    ensures { result ≡ compares_with with_case (seen_values left.now) (seen_values right.now) }
{
    match (left, right) {
        (Values::One(a), Values::One(b)) => relation_of(with_case, a, b),
        _ => Relation::Unlike,
    }
}

/// Whether each value on the right is one on the left.
fn contains(with_case: bool, left: &Values<'_>, right: &Values<'_>) -> Truth
    ensures { result ≡ contains with_case (seen_values left.now) (seen_values right.now) }
{
    if right.len() == 0 {
        return Truth::Unknown;
    }
    has_each(with_case, left, right)
}

/// What an operator leaves of two operands that are there.
fn compared(operator: Operator, with_case: bool, left: &Values<'_>, right: &Values<'_>) -> Truth
    ensures { result ≡ compared operator with_case (seen_values left.now) (seen_values right.now) }
{
    match operator {
        Operator::Equal => equals(with_case, left, right),
        Operator::NotEqual => equals(with_case, left, right).not(),
        Operator::Less => compares_with(with_case, left, right).is_less(),
        Operator::LessOrEqual => compares_with(with_case, left, right).is_greater().not(),
        Operator::Greater => compares_with(with_case, left, right).is_greater(),
        Operator::GreaterOrEqual => compares_with(with_case, left, right).is_less().not(),
        Operator::Contains => contains(with_case, left, right),
        Operator::NotContains => contains(with_case, left, right).not(),
        Operator::AnyOf => has_some(with_case, left, right),
        Operator::NotAnyOf => has_some(with_case, left, right).not(),
        _ => Truth::Unknown,
    }
}

/// What an operator leaves of two operands ([MS-DTYP] 2.4.4.17.6).
pub(crate) fn comparison(
    operator: Operator,
    left: &Option<Operand<'_>>,
    right: &Option<Operand<'_>>,
) -> Truth
    ensures { result ≡ comparison operator (option_map seen_operand left.now) (option_map seen_operand right.now) }
{
    match (left, right) {
        (Some(left), Some(right)) => compared(
            operator,
            left.with_case || right.with_case,
            &left.values,
            &right.values,
        ),
        _ => Truth::Unknown,
    }
}
