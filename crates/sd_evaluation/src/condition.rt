//! Conditions.

ghost use Rattle.std.specs.Prelude.{◌≡◌, ◌<◌, length, map, Some, None, IfOk, IsErr, if◌then◌else◌};
ghost use Rattle.std.specs.Option.{option_map};
ghost use Rattle.sd_condition.specs.declared.token.Token.TheVariants as tokens;
ghost use Rattle.sd_condition_text.specs.Stack.{after_token, after_tokens, left_by};
ghost use Rattle.sd_evaluation.specs.Evaluation.{Leaf, condition_truth, over_one, over_two};
ghost use Rattle.sd_evaluation.specs.Form.{is_over_one};
ghost use Rattle.sd_evaluation.specs.Seen.{seen_part};

use crate::facts::Facts;
use crate::part::{Part, over_one, over_two};
use crate::truth::Truth;
use sd_acl::AceKind;
use sd_check::Pass;
use sd_condition::{Condition, Operator, Token};
use std::alloc::{AllocError, Global};
use std::collections::VecDeque;

/// What the condition of an entry of the kind is for who asks, in a pass ([MS-DTYP] 2.5.3.1.5). The one allocation is
/// for the operands, of which there are no more than tokens. The only error is out of memory.
pub fn evaluate(
    alloc: Global,
    facts: &Facts<'_>,
    kind: AceKind,
    pass: Pass,
    condition: &Condition,
) -> Result<Truth, AllocError>
    ensures exact { IfOk result (λ truth. condition_truth facts.now kind pass condition.now ≡ Some truth) }
    ensures memory { IsErr result → 0 < length condition.now }
{
    match left_by(alloc, facts, kind, pass, condition.tokens())? {
        Some(part) => Ok(part.truth(facts, kind)),
        // Each condition has a tree, so something is left.
        None => unreachable!(),
    }
}

/// What the tokens leave.
fn left_by<'a>(
    alloc: Global,
    facts: &Facts<'a>,
    kind: AceKind,
    pass: Pass,
    tokens: &'a [Token],
) -> Result<Option<Part<'a>>, AllocError>
    ensures exact { IfOk result (λ part. option_map seen_part part
        ≡ left_by Leaf (over_one facts.now kind pass) (over_two facts.now kind) tokens.now) }
    ensures memory { IsErr result → 0 < length tokens.now }
{
    // The uppermost part is the first of the deque, as in the definition: so contracts speak of one list.
    let mut stack = VecDeque::with_capacity(alloc, tokens.len())?;
    if !run(facts, kind, pass, &mut stack, tokens)? {
        return Ok(None);
    }
    let part = stack.pop_front();
    if !stack.is_empty() {
        return Ok(None);
    }
    Ok(part)
}

/// The tokens, one after the other; whether each found its operands.
fn run<'a>(
    facts: &Facts<'a>,
    kind: AceKind,
    pass: Pass,
    stack: &mut VecDeque<Part<'a>>,
    tokens: &'a [Token],
) -> Result<bool, AllocError>
    ensures exact { IfOk result (λ found. (if found then Some (map seen_part stack.new.items) else None)
        ≡ after_tokens Leaf (over_one facts.now kind pass) (over_two facts.now kind) tokens.now
        (map seen_part stack.old.items)) }
    ensures memory { IsErr result → 0 < length tokens.now }
{
    for token in tokens {
        if !step(facts, kind, pass, stack, token)? {
            return Ok(false);
        }
    }
    Ok(true)
}

/// A token puts a part on the stack, or takes its operands from there; whether it found them.
fn step<'a>(
    facts: &Facts<'a>,
    kind: AceKind,
    pass: Pass,
    stack: &mut VecDeque<Part<'a>>,
    token: &'a Token,
) -> Result<bool, AllocError>
    ensures { IfOk result (λ found. (if found then Some (map seen_part stack.new.items) else None)
        ≡ after_token Leaf (over_one facts.now kind pass) (over_two facts.now kind) token.now
        (map seen_part stack.old.items)) }
{
    match token {
        Token::Operator(operator) => apply(facts, kind, pass, stack, *operator),
        _ => {
            stack.push_front(Part::Leaf(token))?;
            Ok(true)
        }
    }
}

/// Whether the operator has one operand.
fn is_over_one(operator: Operator) -> bool
    ensures { result ≡ is_over_one operator }
{
    match operator {
        Operator::Exists | Operator::NotExists | Operator::Not => true,
        Operator::MemberOf | Operator::DeviceMemberOf => true,
        Operator::MemberOfAny | Operator::DeviceMemberOfAny => true,
        Operator::NotMemberOf | Operator::NotDeviceMemberOf => true,
        Operator::NotMemberOfAny | Operator::NotDeviceMemberOfAny => true,
        _ => false,
    }
}

/// An operator takes its operands; whether it found them.
#[tactic(auto, using(crate::proofs::Forms::over_one_part, crate::proofs::Forms::over_two_parts))]
fn apply<'a>(
    facts: &Facts<'a>,
    kind: AceKind,
    pass: Pass,
    stack: &mut VecDeque<Part<'a>>,
    operator: Operator,
) -> Result<bool, AllocError>
    ensures { IfOk result (λ found. (if found then Some (map seen_part stack.new.items) else None)
        ≡ after_token Leaf (over_one facts.now kind pass) (over_two facts.now kind) (tokens.Operator operator)
        (map seen_part stack.old.items)) }
{
    if is_over_one(operator) {
        let Some(part) = stack.pop_front() else {
            return Ok(false);
        };
        stack.push_front(over_one(facts, kind, pass, operator, &part))?;
        return Ok(true);
    }
    let (Some(right), Some(left)) = (stack.pop_front(), stack.pop_front()) else {
        return Ok(false);
    };
    stack.push_front(over_two(facts, kind, operator, &left, &right))?;
    Ok(true)
}
