//! Claims, as conditions write them.

ghost use Rattle.std.specs.Prelude.{◌≡◌, IfOk, map, option_map, string_bytes};
ghost use Rattle.sd_client.specs.Claim.{as_condition, attribute_in, claim_in, claim_said, claim_with, halves};
ghost use Rattle.sd_client.specs.Claim.{holder_of, in_claim, is_equal, literals};
ghost use Rattle.sd_client.specs.Whole.{all_of};
ghost use Rattle.sd_condition_parse.specs.Condition.{condition_found};

use crate::word::Holder;
use sd_claim::{Claim, Value as InClaim};
use sd_condition::{Attribute, Condition, Operator, Scope, Token, Value};
use sd_condition_parse::{ConditionError, parse_condition};
use sd_data::{Octets, Utf16, read_octets};
use sd_sid::sid_bytes;
use sd_text::{Aliases, Cursor};
use std::alloc::{AllocError, Global};

/// The claim that the text is ([MS-DTYP] 2.4.10.1), and whose: a name, `=`, and a value or a list of values of one
/// type, as a condition writes them ([MS-DTYP] 2.5.1.1). `None`: it is no claim. The only error is out of memory.
pub(crate) fn read_claim(
    alloc: Global,
    known: Aliases,
    text: &str,
) -> Result<Option<(Holder, Claim)>, AllocError>
    ensures { IfOk result (λ claim. claim ≡ claim_said known text.now) }
{
    let Some((name, literal)) = halves(text) else {
        return Ok(None);
    };
    let condition = condition_text(alloc, name, literal)?;
    match parse_whole(alloc, known, condition.as_str())? {
        Some(condition) => claim_in(alloc, condition.tokens()),
        None => Ok(None),
    }
}

/// What is before the first `=` of the text, and what is after it.
fn halves(text: &str) -> Option<(&str, &str)>
    ensures { option_map (λ parts. (parts.0.now, parts.1.now)) result ≡ halves text.now }
{
    text.split_once('=')
}

/// The text of the condition that compares the two.
fn condition_text(alloc: Global, name: &str, literal: &str) -> Result<String, AllocError>
    ensures { IfOk result (λ text. string_bytes text ≡ as_condition name.now literal.now) }
{
    let mut text = String::from_str(alloc, "(")?;
    text.push_str(name)?;
    text.push_str("==")?;
    text.push_str(literal)?;
    text.push_str(")")?;
    Ok(text)
}

/// The condition that all of the text is.
fn parse_whole(alloc: Global, known: Aliases, text: &str) -> Result<Option<Condition>, AllocError>
    ensures { IfOk result (λ condition. condition ≡ all_of (condition_found known text.now)) }
{
    let mut cursor = Cursor::new(text);
    match parse_condition(alloc, &mut cursor, known) {
        Ok(condition) => Ok(if cursor.rest.is_empty() {
            Some(condition)
        } else {
            None
        }),
        Err(ConditionError::Fault(_)) => Ok(None),
        Err(ConditionError::Memory) => Err(AllocError),
    }
}

/// The claim that a condition compares with what it says, and whose.
fn claim_in(alloc: Global, tokens: &[Token]) -> Result<Option<(Holder, Claim)>, AllocError>
    ensures { IfOk result (λ claim. claim ≡ claim_in tokens.now) }
{
    let [left, right, operator] = tokens else {
        return Ok(None);
    };
    if !is_equal(operator) {
        return Ok(None);
    }
    let Some(attribute) = attribute_in(left) else {
        return Ok(None);
    };
    let Some(holder) = holder_of(attribute.scope) else {
        return Ok(None);
    };
    let Some(values) = claim_values(alloc, right)? else {
        return Ok(None);
    };
    let name = Utf16::new(Vec::from_slice(alloc, attribute.name.units())?);
    match claim_with(name, values) {
        Some(claim) => Ok(Some((holder, claim))),
        None => Ok(None),
    }
}

/// Whether the token is `==`.
fn is_equal(token: &Token) -> bool
    ensures { result ≡ is_equal token.now }
{
    matches!(token, Token::Operator(Operator::Equal))
}

/// The attribute that the token is.
fn attribute_in(token: &Token) -> Option<&Attribute>
    ensures { option_map (λ a. a.now) result ≡ attribute_in token.now }
{
    match token {
        Token::Attribute(attribute) => Some(attribute),
        _ => None,
    }
}

/// Whose claim an attribute of the scope is. A resource's is nobody's who asks.
fn holder_of(scope: Scope) -> Option<Holder>
    ensures { result ≡ holder_of scope }
{
    match scope {
        Scope::Local => Some(Holder::Local),
        Scope::User => Some(Holder::User),
        Scope::Device => Some(Holder::Device),
        Scope::Resource => None,
    }
}

/// The values of a claim that the token is: a literal, or a list of literals.
fn claim_values(alloc: Global, token: &Token) -> Result<Option<Vec<InClaim>>, AllocError>
    ensures { IfOk result (λ values. option_map (λ v. v.items) values
        ≡ option_map (map in_claim) (literals token.now)) }
{
    match token {
        Token::Value(value) => {
            let mut values = Vec::new(alloc);
            values.push(in_claim(alloc, value)?)?;
            Ok(Some(values))
        }
        Token::List(list) => Ok(Some(all_in_claim(alloc, list.values())?)),
        _ => Ok(None),
    }
}

/// The literals, as values of a claim.
fn all_in_claim(alloc: Global, literals: &[Value]) -> Result<Vec<InClaim>, AllocError>
    ensures { IfOk result (λ values. values.items ≡ map in_claim literals.now) }
{
    let mut values = Vec::new(alloc);
    for literal in literals {
        values.push(in_claim(alloc, literal)?)?;
    }
    Ok(values)
}

/// The literal, as a value of a claim ([MS-DTYP] 2.4.10.1): a SID in its binary form.
fn in_claim(alloc: Global, literal: &Value) -> Result<InClaim, AllocError>
    ensures { IfOk result (λ value. value ≡ in_claim literal.now) }
{
    match literal {
        Value::Integer(integer) => Ok(InClaim::Integer(integer.value)),
        Value::Text(text) => Ok(InClaim::Text(Utf16::new(Vec::from_slice(alloc, text.units())?))),
        Value::Octets(octets) => Ok(InClaim::Octets(read_octets(alloc, octets.octets())?)),
        Value::Sid(sid) => Ok(InClaim::Sid(Octets::new(sid_bytes(alloc, sid)?))),
    }
}

/// The claim of a name and values, of which there is at least one, all of the first one's type. It has no flags.
fn claim_with(name: Utf16, values: Vec<InClaim>) -> Option<Claim>
    ensures { result ≡ claim_with name values.items }
{
    let value_type = values.first()?.value_type();
    Claim::new(name, 0, value_type, values)
}
