//! What the conditions of entries come to.

ghost use Rattle.std.specs.Prelude.{◌≡◌, IfOk};
ghost use Rattle.sd_evaluation.specs.Truth.{applies};
ghost use Rattle.sd_condition.specs.Reading.{condition_read};
ghost use Rattle.sd_specialize.specs.Context.{context_of, truth_of};

use crate::context::{Conditions, Context};
use sd_acl::AceKind;
use sd_check::Pass;
use sd_condition::read_condition;
use sd_evaluation::{Facts, Truth, applies, evaluate};
use std::alloc::{AllocError, Global};

/// Whether the condition in the application data lets an entry of the kind apply in the pass ([MS-DTYP] 2.5.3.1.5).
pub(crate) fn condition_applies(
    alloc: Global,
    context: &Context<'_>,
    pass: Pass,
    kind: AceKind,
    bytes: &[u8],
) -> Result<bool, AllocError>
    ensures { IfOk result (λ answer. answer ≡ applies ((context_of context.now).truth pass kind bytes.now) kind) }
{
    let truth = truth_in(alloc, context, pass, kind, bytes)?;
    Ok(applies(truth, kind))
}

/// What the condition is in the pass.
fn truth_in(
    alloc: Global,
    context: &Context<'_>,
    pass: Pass,
    kind: AceKind,
    bytes: &[u8],
) -> Result<Truth, AllocError>
    ensures { IfOk result (λ truth. truth ≡ (context_of context.now).truth pass kind bytes.now) }
{
    match context.conditions {
        Conditions::Evaluated(facts) => truth_of(alloc, facts, pass, kind, bytes),
        Conditions::Unknown => Ok(Truth::Unknown),
    }
}

/// What the condition is by these facts; data that isn't a condition is neither true nor false.
fn truth_of(
    alloc: Global,
    facts: &Facts<'_>,
    pass: Pass,
    kind: AceKind,
    bytes: &[u8],
) -> Result<Truth, AllocError>
    ensures { IfOk result (λ truth. truth ≡ truth_of facts.now pass kind (condition_read bytes.now)) }
{
    match read_condition(alloc, bytes)? {
        None => Ok(Truth::Unknown),
        Some(condition) => evaluate(alloc, facts, kind, pass, &condition),
    }
}
