//! Terms.

ghost use Rattle.std.specs.Prelude.{◌≡◌, ◌≤◌, ◌<◌, length, OnOk};
ghost use Rattle.sd_condition_parse.specs.Outcome.{Gives, GivesAs, adds};
ghost use Rattle.sd_condition_parse.specs.Term.{attribute_term, exists_term, member_term, right_operand, sids};
ghost use Rattle.sd_condition_parse.specs.Term.{term};

use crate::attribute::{parse_attribute, parse_prefixed};
use crate::error::ConditionError;
use crate::operator::{eat_comparison, eat_exists_word, eat_member_word};
use crate::run::skip_space;
use crate::value::{Item, parse_list, parse_sid, parse_value};
use sd_condition::{Attribute, Operator, Token, Value};
use sd_text::{Aliases, Cursor};
use std::alloc::Global;

/// A term ([MS-DTYP] 2.5.1.1, term), whose tokens are appended in postfix order.
#[tactic(auto, unfolding(crate::specs::Term::term))]
pub(crate) fn parse_term(
    alloc: Global,
    cursor: &mut Cursor<'_>,
    known: Aliases,
    tokens: &mut Vec<Token>,
) -> Result<(), ConditionError>
    ensures term { GivesAs (λ _. tokens.new.items) result cursor.new.rest.now
        (adds tokens.old.items (term known) cursor.old.rest.now) }
    ensures shorter { OnOk result (length cursor.new.rest.now < length cursor.old.rest.now) }
{
    if let Some(operator) = eat_exists_word(cursor) {
        return parse_exists(alloc, cursor, operator, tokens);
    }
    if let Some(operator) = eat_member_word(cursor) {
        return parse_member(alloc, cursor, known, operator, tokens);
    }
    let left = parse_attribute(alloc, cursor)?;
    parse_comparison(alloc, cursor, known, left, tokens)
}

/// What follows an attribute: an operator and what the attribute is compared with, or neither.
#[tactic(auto, unfolding(crate::specs::Term::attribute_term))]
fn parse_comparison(
    alloc: Global,
    cursor: &mut Cursor<'_>,
    known: Aliases,
    left: Attribute,
    tokens: &mut Vec<Token>,
) -> Result<(), ConditionError>
    ensures term { GivesAs (λ _. tokens.new.items) result cursor.new.rest.now
        (adds tokens.old.items (attribute_term known left) cursor.old.rest.now) }
    ensures within { OnOk result (length cursor.new.rest.now ≤ length cursor.old.rest.now) }
{
    skip_space(cursor);
    tokens.push(Token::Attribute(left))?;
    let Some(operator) = eat_comparison(cursor) else {
        return Ok(());
    };
    skip_space(cursor);
    let right = parse_right(alloc, cursor, known)?;
    tokens.push(right)?;
    tokens.push(Token::Operator(operator))?;
    Ok(())
}

/// What an attribute is compared with: a list, an attribute with a prefix, or a value.
#[tactic(auto, unfolding(crate::specs::Term::right_operand))]
fn parse_right(
    alloc: Global,
    cursor: &mut Cursor<'_>,
    known: Aliases,
) -> Result<Token, ConditionError>
    ensures right { Gives result cursor.new.rest.now (right_operand known cursor.old.rest.now) }
    ensures within { OnOk result (length cursor.new.rest.now ≤ length cursor.old.rest.now) }
{
    if cursor.begins(b"{") {
        let list = parse_list(alloc, cursor, Item::Any, known)?;
        return Ok(Token::List(list));
    }
    if cursor.begins(b"@") {
        let attribute = parse_prefixed(alloc, cursor)?;
        return Ok(Token::Attribute(attribute));
    }
    let value = parse_value(alloc, cursor, known)?;
    Ok(Token::Value(value))
}

/// The attribute after a word as `Exists` ([MS-DTYP] 2.5.1.1, exists-op).
#[tactic(auto, unfolding(crate::specs::Term::exists_term))]
fn parse_exists(
    alloc: Global,
    cursor: &mut Cursor<'_>,
    operator: Operator,
    tokens: &mut Vec<Token>,
) -> Result<(), ConditionError>
    ensures term { GivesAs (λ _. tokens.new.items) result cursor.new.rest.now
        (adds tokens.old.items (exists_term operator) cursor.old.rest.now) }
    ensures within { OnOk result (length cursor.new.rest.now ≤ length cursor.old.rest.now) }
{
    skip_space(cursor);
    let attribute = parse_attribute(alloc, cursor)?;
    tokens.push(Token::Attribute(attribute))?;
    tokens.push(Token::Operator(operator))?;
    Ok(())
}

/// The SIDs after a word as `Member_of` ([MS-DTYP] 2.5.1.1, memberof-op).
#[tactic(auto, unfolding(crate::specs::Term::member_term))]
fn parse_member(
    alloc: Global,
    cursor: &mut Cursor<'_>,
    known: Aliases,
    operator: Operator,
    tokens: &mut Vec<Token>,
) -> Result<(), ConditionError>
    ensures term { GivesAs (λ _. tokens.new.items) result cursor.new.rest.now
        (adds tokens.old.items (member_term known operator) cursor.old.rest.now) }
    ensures within { OnOk result (length cursor.new.rest.now ≤ length cursor.old.rest.now) }
{
    skip_space(cursor);
    let sids = parse_sids(alloc, cursor, known)?;
    tokens.push(sids)?;
    tokens.push(Token::Operator(operator))?;
    Ok(())
}

/// A SID, or a list of SIDs ([MS-DTYP] 2.5.1.1, sid-array).
#[tactic(auto, unfolding(crate::specs::Term::sids))]
fn parse_sids(
    alloc: Global,
    cursor: &mut Cursor<'_>,
    known: Aliases,
) -> Result<Token, ConditionError>
    ensures sids { Gives result cursor.new.rest.now (sids known cursor.old.rest.now) }
    ensures within { OnOk result (length cursor.new.rest.now ≤ length cursor.old.rest.now) }
{
    if cursor.begins(b"{") {
        let list = parse_list(alloc, cursor, Item::OnlySid, known)?;
        return Ok(Token::List(list));
    }
    let sid = parse_sid(cursor, known)?;
    Ok(Token::Value(Value::Sid(sid)))
}
