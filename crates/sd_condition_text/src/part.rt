//! Parts of a condition, as text.

ghost use Rattle.std.specs.Prelude.{◌≡◌, ◌++◌, Some, IfOk, codes, string_bytes};
ghost use Rattle.std.specs.Fmt.{◌++?◌};
ghost use Rattle.std.specs.Option.{option_map};
ghost use Rattle.sd_condition_text.specs.Text.{is_local_attribute, on_the_right, one_part, operand_part};
ghost use Rattle.sd_condition_text.specs.Text.{operand_text, parenthesized, two_part};

use crate::attribute::print_attribute;
use crate::growing::Growing;
use crate::operator::{Form, word};
use crate::value::{print_list, print_value};
use sd_condition::{Operator, Scope, Token};
use std::alloc::{AllocError, Global};
use std::marker::Model;

/// What a part of a condition is to the operator that has it as an operand.
#[derive(Debug, Drop)]
pub(crate) struct Part {
    text: Option<Growing>,
    is_local: bool,
}

impl Model for Part {
    ghost use Rattle.sd_condition_text.specs.Text.{PartValue};

    ghost Value = { PartValue };

    ghost view = { λ p. record { text = p.text; is_local = p.is_local } };
}

impl Part {
    /// The text in parentheses.
    pub(crate) fn print(self, alloc: Global) -> Result<Option<String>, AllocError>
        ensures { IfOk result (λ text. option_map string_bytes text ≡ parenthesized self.text) }
    {
        match parenthesize(self.text)? {
            Some(text) => {
                let whole = text.finish(alloc)?;
                Ok(Some(whole))
            }
            None => Ok(None),
        }
    }

    /// The text on the right of a comparison, where no attribute without a prefix stands.
    fn on_the_right(self) -> Option<Growing>
        ensures { result ≡ on_the_right self }
    {
        if self.is_local { None } else { self.text }
    }
}

/// An operand.
pub(crate) fn print_operand(alloc: Global, token: &Token) -> Result<Part, AllocError>
    ensures { IfOk result (λ part. part ≡ operand_part token.now) }
{
    let text = match operand_text(alloc, token)? {
        Some(text) => Some(Growing::new(alloc, text)),
        None => None,
    };
    Ok(Part {
        text,
        is_local: is_local_attribute(token),
    })
}

#[tactic(auto, unfolding(crate::specs::Text::operand_text))]
fn operand_text(alloc: Global, token: &Token) -> Result<Option<String>, AllocError>
    ensures { IfOk result (λ text. option_map string_bytes text ≡ operand_text token.now) }
{
    match token {
        Token::Value(value) => print_value(alloc, value),
        Token::List(list) => print_list(alloc, list.values()),
        Token::Attribute(attribute) => print_attribute(alloc, attribute),
        Token::Operator(_) => Ok(None),
    }
}

/// Whether it is an attribute without a prefix.
fn is_local_attribute(token: &Token) -> bool
    ensures { result ≡ is_local_attribute token.now }
{
    match token {
        Token::Attribute(attribute) => matches!(attribute.scope, Scope::Local),
        _ => false,
    }
}

/// An operator of one operand.
pub(crate) fn print_one(operator: Operator, operand: Part) -> Result<Part, AllocError>
    ensures { IfOk result (λ part. part ≡ one_part operator operand) }
{
    let text = match Form::of(operator) {
        Form::Before => put_before(word(operator), " ", operand.text)?,
        Form::Negating => put_before(word(operator), "", parenthesize(operand.text)?)?,
        _ => None,
    };
    Ok(Part {
        text,
        is_local: false,
    })
}

/// An operator of two operands.
pub(crate) fn print_two(operator: Operator, left: Part, right: Part) -> Result<Part, AllocError>
    ensures { IfOk result (λ part. part ≡ two_part operator left right) }
{
    let text = match Form::of(operator) {
        Form::Between => put_between(left.text, word(operator), right.on_the_right())?,
        Form::Joining => {
            put_between(
                parenthesize(left.text)?,
                word(operator),
                parenthesize(right.text)?,
            )?
        }
        _ => None,
    };
    Ok(Part {
        text,
        is_local: false,
    })
}

/// A text in parentheses.
fn parenthesize(text: Option<Growing>) -> Result<Option<Growing>, AllocError>
    ensures { IfOk result (λ whole. whole ≡ parenthesized text) }
{
    let Some(inner) = text else {
        return Ok(None);
    };
    let mut whole = inner;
    whole.put_before("(")?;
    whole.push_str(")")?;
    Ok(Some(whole))
}

/// A word and a space before a text.
fn put_before(
    word: &'static str,
    space: &'static str,
    text: Option<Growing>,
) -> Result<Option<Growing>, AllocError>
    ensures { IfOk result (λ whole. whole ≡ Some (word.now ++ space.now) ++? text) }
{
    let Some(inner) = text else {
        return Ok(None);
    };
    let mut whole = inner;
    whole.put_before(space)?;
    whole.put_before(word)?;
    Ok(Some(whole))
}

/// A word between two texts.
fn put_between(
    left: Option<Growing>,
    word: &str,
    right: Option<Growing>,
) -> Result<Option<Growing>, AllocError>
    ensures { IfOk result (λ whole. whole ≡ left ++? Some (codes " " ++ word.now ++ codes " ") ++? right) }
{
    let (Some(left), Some(right)) = (left, right) else {
        return Ok(None);
    };
    let mut whole = left;
    whole.push_str(" ")?;
    whole.push_str(word)?;
    whole.push_str(" ")?;
    whole.append(right)?;
    Ok(Some(whole))
}
