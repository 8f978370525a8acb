//! Conditions.

ghost use Rattle.std.specs.Prelude.{◌<◌, length, OnOk};
ghost use Rattle.sd_condition_parse.specs.Condition.{condition_found, words};
ghost use Rattle.sd_condition_parse.specs.Outcome.{Gives};

use crate::error::ConditionError;
use crate::state::State;
use sd_condition::Condition;
use sd_text::{Aliases, Cursor, TextFault};
use std::alloc::Global;

/// Parses the condition in parentheses at the cursor ([MS-DTYP] 2.5.1.1, cond-expr), with the aliases of SIDs that it
/// may have. The cursor is left after the closing parenthesis, or at the fault: `AclTooLarge` at the start of a
/// condition whose data has more than 65,535 bytes, so that no entry holds it; `Range` at an integer of more than 64
/// bits, after its sign, or at a number of a SID; `UnknownAlias` or `DomainAlias` at an alias; else `Syntax`. Out of
/// memory may come in place of any of these.
#[tactic(auto, unfolding(crate::specs::Condition::condition_found))]
pub fn parse_condition(
    alloc: Global,
    cursor: &mut Cursor<'_>,
    known: Aliases,
) -> Result<Condition, ConditionError>
    ensures found { Gives result cursor.new.rest.now (condition_found known cursor.old.rest.now) }
    ensures shorter { OnOk result (length cursor.new.rest.now < length cursor.old.rest.now) }
{
    let start = cursor.rest;
    let state = parse_words(alloc, cursor, known)?;
    match Condition::new(alloc, state.tokens)? {
        Some(condition) => Ok(condition),
        None => {
            cursor.rest = start;
            Err(ConditionError::Fault(TextFault::AclTooLarge))
        }
    }
}

/// The tokens of the condition.
#[tactic(auto, unfolding(crate::specs::Condition::words))]
fn parse_words(
    alloc: Global,
    cursor: &mut Cursor<'_>,
    known: Aliases,
) -> Result<State, ConditionError>
    ensures words { Gives result cursor.new.rest.now (words known cursor.old.rest.now) }
    ensures shorter { OnOk result (length cursor.new.rest.now < length cursor.old.rest.now) }
{
    cursor.word(b"(")?;
    let mut state = State::start(alloc);
    'words: while state.step(alloc, cursor, known)? {}
    Ok(state)
}
