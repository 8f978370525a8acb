//! Tokens.

ghost use Rattle.std.specs.Prelude.{◌≡◌, ◌^◌, ◌<◌, ◌≤◌, ◌++◌, length, IfOk, OnOk, SomeIff};
ghost use Rattle.std.specs.List.{flat_map};
ghost use Rattle.sd_data.specs.Outcome.{Gives};
ghost use Rattle.sd_condition.specs.Reading.{token_read};
ghost use Rattle.sd_condition.specs.Writing.{token_bytes};

use crate::attribute::{Attribute, read_attribute};
use crate::list::{ValueList, push_values, read_list, values_len};
use crate::operator::Operator;
use crate::value::{
    LENGTH_BYTES, Value, push_head, push_value, read_content_len, read_value, value_len,
};
use sd_data::{Refusal, push_text, text_len};
use std::alloc::{AllocError, Global};

/// The byte of a list ([MS-DTYP] 2.4.4.17.5, composite).
const LIST: u8 = 0x50;

/// The first of the bytes of operators ([MS-DTYP] 2.4.4.17.6).
const OPERATORS: u8 = 0x80;

/// The first of the bytes of attributes ([MS-DTYP] 2.4.4.17.8).
const ATTRIBUTES: u8 = 0xf8;

/// A token of a condition ([MS-DTYP] 2.4.4.17.4).
#[derive(Debug, Drop)]
pub enum Token {
    Value(Value),
    List(ValueList),
    Attribute(Attribute),
    Operator(Operator),
}

/// The token at the front of the bytes, and how many it takes.
#[tactic(auto, unfolding(crate::specs::Reading::token_read))]
pub(crate) fn read_token(alloc: Global, bytes: &[u8]) -> Result<(Token, usize), Refusal>
    requires { 0 < length bytes.now }
    ensures read { Gives result (token_read bytes.now) }
    ensures size { IfOk result (λ x. (0 < x.1) × (x.1 ≤ length bytes.now)) }
{
    let first = bytes[0];
    if first >= ATTRIBUTES {
        let len = read_content_len(bytes)?;
        let attribute = read_attribute(alloc, first, &bytes[LENGTH_BYTES..LENGTH_BYTES + len])?;
        return Ok((Token::Attribute(attribute), LENGTH_BYTES + len));
    }
    if first >= OPERATORS {
        let operator = Operator::of_byte(first).ok_or(Refusal::Malformed)?;
        return Ok((Token::Operator(operator), 1));
    }
    if first == LIST {
        let len = read_content_len(bytes)?;
        let list = read_list(alloc, &bytes[LENGTH_BYTES..LENGTH_BYTES + len])?;
        return Ok((Token::List(list), LENGTH_BYTES + len));
    }
    let (value, size) = read_value(alloc, bytes)?;
    Ok((Token::Value(value), size))
}

/// How many bytes a token takes, if a number of bytes can be so large.
#[tactic(auto, unfolding(crate::specs::Writing::token_bytes))]
pub(crate) fn token_len(token: &Token) -> Option<usize>
    ensures { SomeIff result (length (token_bytes token.now) < 2 ^ 64) (length (token_bytes token.now)) }
{
    match token {
        Token::Value(value) => Some(value_len(value)),
        Token::List(list) => LENGTH_BYTES.checked_add(values_len(list.values())?),
        Token::Attribute(attribute) => Some(LENGTH_BYTES + text_len(&attribute.name)),
        Token::Operator(_) => Some(1),
    }
}

/// How many bytes tokens take, one after the other, if a number of bytes can be so large.
pub(crate) fn tokens_len(tokens: &[Token]) -> Option<usize>
    ensures { SomeIff result (length (flat_map token_bytes tokens.now) < 2 ^ 64)
        (length (flat_map token_bytes tokens.now)) }
{
    let mut total: usize = 0;
    for token in tokens {
        total = total.checked_add(token_len(token)?)?;
    }
    Some(total)
}

/// Appends a token.
#[tactic(auto, unfolding(crate::specs::Writing::token_bytes))]
fn push_token(bytes: &mut Vec<u8>, token: &Token) -> Result<(), AllocError>
    requires { length (token_bytes token.now) ≤ 65535 }
    ensures { OnOk result (bytes.new.items ≡ bytes.old.items ++ token_bytes token.now) }
{
    match token {
        Token::Value(value) => push_value(bytes, value),
        Token::List(list) => {
            let values = list.values();
            // The tokens' bytes are at most 65,535, so their number is known.
            push_head(bytes, LIST, values_len(values).unwrap())?;
            push_values(bytes, values)
        }
        Token::Attribute(attribute) => {
            push_head(bytes, attribute.scope.byte(), text_len(&attribute.name))?;
            push_text(bytes, &attribute.name)
        }
        Token::Operator(operator) => {
            bytes.push(operator.byte())?;
            Ok(())
        }
    }
}

/// Appends tokens, one after the other.
pub(crate) fn push_tokens(bytes: &mut Vec<u8>, tokens: &[Token]) -> Result<(), AllocError>
    requires { length (flat_map token_bytes tokens.now) ≤ 65535 }
    ensures { OnOk result (bytes.new.items ≡ bytes.old.items ++ flat_map token_bytes tokens.now) }
{
    for token in tokens {
        push_token(bytes, token)?;
    }
    Ok(())
}
