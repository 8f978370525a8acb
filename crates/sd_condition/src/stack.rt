//! Which tokens are a condition: what a stack machine would find on its stack.

ghost use Rattle.std.specs.Prelude.{◌≡◌, ◌<◌, [], ◌∷◌, length, Some, true, false, IfErr, IfOk, IsErrOf, OnOk};
ghost use Rattle.std.specs.List.{list_all};
ghost use Rattle.sd_data.specs.Outcome.{Fails, Gives};
ghost use Rattle.sd_condition.specs.Stack.{after_operator, after_token, after_tokens, is_attribute};
ghost use Rattle.sd_condition.specs.Stack.{is_comparable, is_sid, is_sids, is_truth, outcome, values_operand};
ghost use Rattle.sd_data.specs.declared.refusal.Refusal.TheVariants.{Malformed};

use crate::operator::Takes;
use crate::token::Token;
use crate::value::Value;
use sd_data::Refusal;
use std::alloc::Global;
use std::collections::VecDeque;

/// What an operand of an operator is, whatever its value ([MS-DTYP] 2.4.4.17.6, 2.4.4.17.7).
#[derive(Clone, Copy, Debug, PartialEq, Eq)]
pub(crate) enum Operand {
    /// A value, or a list of values, which are not all SIDs.
    Value,
    /// A SID, or a list of SIDs.
    Sids,
    Attribute,
    /// What an operator leaves: true, false or unknown.
    Condition,
}

impl Operand {
    fn is_sids(self) -> bool
        ensures { result ≡ is_sids self }
    {
        matches!(self, Operand::Sids)
    }

    fn is_attribute(self) -> bool
        ensures { result ≡ is_attribute self }
    {
        matches!(self, Operand::Attribute)
    }

    /// Whether it may stand on the right of a comparison.
    fn is_comparable(self) -> bool
        ensures { result ≡ is_comparable self }
    {
        !matches!(self, Operand::Condition)
    }

    /// Whether it is true, false or unknown: a condition, or an attribute alone.
    fn is_truth(self) -> bool
        ensures { result ≡ is_truth self }
    {
        matches!(self, Operand::Attribute | Operand::Condition)
    }
}

/// The operand that a value or a list is, whose values are all SIDs or not. An empty list is one of SIDs.
fn values_operand(are_sids: bool) -> Operand
    ensures { result ≡ values_operand are_sids }
{
    if are_sids {
        Operand::Sids
    } else {
        Operand::Value
    }
}

fn is_sid(value: &Value) -> bool
    ensures { result ≡ is_sid value.now }
{
    matches!(value, Value::Sid(_))
}

fn are_sids(values: &[Value]) -> bool
    ensures { result ≡ list_all is_sid values.now }
{
    values.iter().all(|value| is_sid(value))
}

/// The uppermost operand, which leaves the stack.
// The uppermost is the first of the deque, as in the definition: so contracts speak of one list.
fn pop(stack: &mut VecDeque<Operand>) -> Result<Operand, Refusal>
    ensures top { IfOk result (λ top. stack.old.items ≡ top ∷ stack.new.items) }
    ensures empty { IfErr result (λ e. (e ≡ Malformed) × (stack.old.items ≡ [])) }
{
    stack.pop_front().ok_or(Refusal::Malformed)
}

/// Leaves a condition, if the operands fit.
fn leave_condition(stack: &mut VecDeque<Operand>, fits: bool) -> Result<(), Refusal>
    ensures ok { OnOk result ((fits ≡ true) × (stack.new.items ≡ Operand.Condition ∷ stack.old.items)) }
    ensures err { IfErr result (λ e. e ≡ Malformed → fits ≡ false) }
{
    if !fits {
        return Err(Refusal::Malformed);
    }
    stack.push_front(Operand::Condition)?;
    Ok(())
}

/// An operator takes its operands, and leaves a condition.
fn apply(stack: &mut VecDeque<Operand>, takes: Takes) -> Result<(), Refusal>
    ensures ok { OnOk result (after_operator takes stack.old.items ≡ Some stack.new.items) }
    ensures err { IfErr result (λ e. Fails e (after_operator takes stack.old.items)) }
{
    match takes {
        Takes::Comparison => {
            let right = pop(stack)?;
            let left = pop(stack)?;
            leave_condition(stack, right.is_comparable() && left.is_attribute())
        }
        Takes::Attribute => {
            let operand = pop(stack)?;
            leave_condition(stack, operand.is_attribute())
        }
        Takes::Sids => {
            let operand = pop(stack)?;
            leave_condition(stack, operand.is_sids())
        }
        Takes::TwoConditions => {
            let right = pop(stack)?;
            let left = pop(stack)?;
            leave_condition(stack, right.is_truth() && left.is_truth())
        }
        Takes::Condition => {
            let operand = pop(stack)?;
            leave_condition(stack, operand.is_truth())
        }
    }
}

/// A token puts an operand on the stack, or takes its operands from there.
fn step(stack: &mut VecDeque<Operand>, token: &Token) -> Result<(), Refusal>
    ensures ok { OnOk result (after_token token.now stack.old.items ≡ Some stack.new.items) }
    ensures err { IfErr result (λ e. Fails e (after_token token.now stack.old.items)) }
{
    match token {
        Token::Value(value) => {
            stack.push_front(values_operand(is_sid(value)))?;
            Ok(())
        }
        Token::List(list) => {
            stack.push_front(values_operand(are_sids(list.values())))?;
            Ok(())
        }
        Token::Attribute(_) => {
            stack.push_front(Operand::Attribute)?;
            Ok(())
        }
        Token::Operator(operator) => apply(stack, Takes::of(*operator)),
    }
}

/// The operand that the tokens leave: one alone, which is a condition or an attribute.
#[tactic(auto, unfolding(crate::specs::Stack::outcome))]
pub(crate) fn find_outcome(alloc: Global, tokens: &[Token]) -> Result<Operand, Refusal>
    ensures left { Gives result (outcome tokens.now) }
    ensures memory { IsErrOf result Refusal.Memory → 0 < length tokens.now }
{
    let mut stack = VecDeque::new(alloc);
    run(&mut stack, tokens)?;
    let operand = pop(&mut stack)?;
    if !stack.is_empty() || !operand.is_truth() {
        return Err(Refusal::Malformed);
    }
    Ok(operand)
}

/// The tokens, one after the other.
fn run(stack: &mut VecDeque<Operand>, tokens: &[Token]) -> Result<(), Refusal>
    ensures ok { OnOk result (after_tokens tokens.now stack.old.items ≡ Some stack.new.items) }
    ensures err { IfErr result (λ e. Fails e (after_tokens tokens.now stack.old.items)) }
    ensures memory { IsErrOf result Refusal.Memory → 0 < length tokens.now }
{
    for token in tokens {
        step(stack, token)?;
    }
    Ok(())
}
