//! Conditions, as text.

ghost use Rattle.std.specs.Prelude.{◌≡◌, Some, None, IfOk, string_bytes, if◌then◌else◌};
ghost use Rattle.std.specs.Option.{option_map};
ghost use Rattle.sd_condition_text.specs.Operator.{form};
ghost use Rattle.sd_condition_text.specs.Stack.{after_operator, after_token, after_tokens, left_by};
ghost use Rattle.sd_condition_text.specs.Text.{condition_text, one_part, operand_part, two_part};

use crate::operator::Form;
use crate::part::{Part, print_one, print_operand, print_two};
use sd_condition::{Condition, Operator, Token};
use std::alloc::{AllocError, Global};
use std::collections::VecDeque;

/// The text of a condition ([MS-DTYP] 2.5.1.1, cond-expr), in parentheses and in one line; `None` if no such text is
/// parsed as just its tokens. These have none: an integer that isn't of 64 bits, or whose sign and value disagree; a
/// text or a name with a zero unit or an unpaired surrogate; a text with a quote or a control character; an empty name;
/// a name without a prefix that has a unit but letters, digits and `:./_`, that is a word as `Exists`, or that stands
/// on the right of a comparison. The only error is out of memory.
#[tactic(auto, unfolding(crate::specs::Text::condition_text), using(crate::proofs::Parts::part_is_of_the_tree))]
pub fn print_condition(alloc: Global, condition: &Condition) -> Result<Option<String>, AllocError>
    ensures { IfOk result (λ text. option_map string_bytes text ≡ condition_text condition.now) }
{
    match print_part(alloc, condition.tokens())? {
        Some(part) => part.print(alloc),
        None => Ok(None),
    }
}

/// What the tokens leave.
fn print_part(alloc: Global, tokens: &[Token]) -> Result<Option<Part>, AllocError>
    ensures { IfOk result (λ part. part ≡ left_by operand_part one_part two_part tokens.now) }
{
    // The uppermost part is the first of the deque, as in the definition: so contracts speak of one list.
    let mut stack = VecDeque::new(alloc);
    if !run(alloc, &mut stack, tokens)? {
        return Ok(None);
    }
    let part = stack.pop_front();
    if !stack.is_empty() {
        return Ok(None);
    }
    Ok(part)
}

/// The tokens, one after the other; whether each found its operands.
fn run(alloc: Global, stack: &mut VecDeque<Part>, tokens: &[Token]) -> Result<bool, AllocError>
    ensures { IfOk result (λ found. (if found then Some stack.new.items else None)
        ≡ after_tokens operand_part one_part two_part tokens.now stack.old.items) }
{
    for token in tokens {
        if !step(alloc, stack, token)? {
            return Ok(false);
        }
    }
    Ok(true)
}

/// A token puts a part on the stack, or takes its operands from there; whether it found them.
fn step(alloc: Global, stack: &mut VecDeque<Part>, token: &Token) -> Result<bool, AllocError>
    ensures { IfOk result (λ found. (if found then Some stack.new.items else None)
        ≡ after_token operand_part one_part two_part token.now stack.old.items) }
{
    match token {
        Token::Operator(operator) => apply(stack, *operator),
        _ => {
            let part = print_operand(alloc, token)?;
            stack.push_front(part)?;
            Ok(true)
        }
    }
}

/// An operator takes its operands; whether it found them.
fn apply(stack: &mut VecDeque<Part>, operator: Operator) -> Result<bool, AllocError>
    ensures { IfOk result (λ found. (if found then Some stack.new.items else None)
        ≡ after_operator (one_part operator) (two_part operator) (form operator) stack.old.items) }
{
    match Form::of(operator) {
        Form::Before | Form::Negating => {
            let Some(operand) = stack.pop_front() else {
                return Ok(false);
            };
            let part = print_one(operator, operand)?;
            stack.push_front(part)?;
            Ok(true)
        }
        Form::Between | Form::Joining => {
            let (Some(right), Some(left)) = (stack.pop_front(), stack.pop_front()) else {
                return Ok(false);
            };
            let part = print_two(operator, left, right)?;
            stack.push_front(part)?;
            Ok(true)
        }
    }
}
