//! Operands of comparisons.

ghost use Rattle.std.specs.Prelude.{◌≡◌, ◌<◌, ◌+◌, ◌∷◌, length, drop, map};
ghost use Rattle.std.specs.Option.{option_map};
ghost use Rattle.sd_evaluation.specs.Seen.{seen, seen_operand, seen_values};
ghost use Rattle.sd_evaluation.specs.Value.{claim_datum, claim_operand, claim_values, listed};
ghost use Rattle.sd_evaluation.specs.Value.{literal_datum, operand_of};

use crate::attribute::{attribute_claim, is_case_sensitive};
use crate::datum::{Datum, claim_datum, literal_datum};
use crate::facts::Facts;
use sd_acl::AceKind;
use sd_claim::{Claim, Value as InClaim};
use sd_condition::{Token, Value};

/// The values of an operand: one, or a list.
#[derive(Clone, Copy)]
pub(crate) enum Values<'a> {
    One(Datum<'a>),
    Literals(&'a [Value]),
    OfClaim(&'a [InClaim]),
}

/// An operand of a comparison.
#[derive(Clone, Copy)]
pub(crate) struct Operand<'a> {
    pub(crate) values: Values<'a>,
    /// Whether its texts compare with case.
    pub(crate) with_case: bool,
}

/// The literal at a place.
#[tactic(auto, using(crate::proofs::Listed::mapped_at))]
fn literal_at(values: &[Value], i: usize) -> Datum<'_>
    requires { i < length values.now }
    ensures { drop i (map literal_datum values.now) ≡ seen result ∷ drop (i + 1) (map literal_datum values.now) }
{
    literal_datum(&values[i])
}

/// The value of a claim at a place.
#[tactic(auto, using(crate::proofs::Listed::mapped_at))]
fn claim_at(values: &[InClaim], i: usize) -> Datum<'_>
    requires { i < length values.now }
    ensures { drop i (map claim_datum values.now) ≡ seen result ∷ drop (i + 1) (map claim_datum values.now) }
{
    claim_datum(&values[i])
}

impl<'a> Values<'a> {
    /// How many values there are.
    pub(crate) fn len(&self) -> usize
        ensures { result ≡ length (listed (seen_values self.now)) }
    {
        match self {
            Values::One(_) => 1,
            Values::Literals(values) => values.len(),
            Values::OfClaim(values) => values.len(),
        }
    }

    /// The value at a place.
    #[tactic(auto, using(crate::proofs::Listed::mapped_length))]
    pub(crate) fn at(&self, i: usize) -> Datum<'a>
        requires { i < length (listed (seen_values self.now)) }
        ensures { drop i (listed (seen_values self.now))
            ≡ seen result ∷ drop (i + 1) (listed (seen_values self.now)) }
    {
        match self {
            Values::One(datum) => datum.copied(),
            Values::Literals(values) => literal_at(values, i),
            Values::OfClaim(values) => claim_at(values, i),
        }
    }
}

/// The values of a claim: one, or a list.
fn claim_values(values: &[InClaim]) -> Values<'_>
    ensures { seen_values result ≡ claim_values values.now }
{
    match values {
        [value] => Values::One(claim_datum(value)),
        _ => Values::OfClaim(values),
    }
}

/// The operand that a claim is.
fn claim_operand(claim: &Claim) -> Operand<'_>
    ensures { seen_operand result ≡ claim_operand claim.now }
{
    Operand {
        values: claim_values(claim.values()),
        with_case: is_case_sensitive(claim),
    }
}

/// The operand that a token is: a literal as it stands, an attribute as its claim, if that is there.
pub(crate) fn operand_of<'a>(
    facts: &Facts<'a>,
    kind: AceKind,
    token: &'a Token,
) -> Option<Operand<'a>>
    ensures { option_map seen_operand result ≡ operand_of facts.now kind token.now }
{
    let values = match token {
        Token::Value(value) => Values::One(literal_datum(value)),
        Token::List(list) => Values::Literals(list.values()),
        Token::Attribute(attribute) => {
            let claim = attribute_claim(facts, kind, attribute)?;
            return Some(claim_operand(claim));
        }
        Token::Operator(_) => return None,
    };
    Some(Operand {
        values,
        with_case: false,
    })
}
