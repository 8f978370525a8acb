//! What is known between two words of a condition, and what a word makes of it.

ghost use Rattle.std.specs.Prelude.{◌≡◌, ◌<◌, length, IfOk, OnOk};
ghost use Rattle.sd_condition_parse.specs.Condition.{close, enter, join_and, join_or, opened, operand_step};
ghost use Rattle.sd_condition_parse.specs.Condition.{operator_step, start, step, where_set, with_tokens};
ghost use Rattle.sd_condition_parse.specs.Outcome.{GivesAs};

use crate::error::ConditionError;
use crate::run::skip_space;
use crate::term::parse_term;
use sd_condition::{Operator, Token};
use sd_text::{Aliases, Cursor};
use std::alloc::{AllocError, Global};
use std::collections::VecDeque;
use std::marker::Model;

/// A level of parentheses.
#[derive(Clone, Copy)]
pub(crate) struct Level {
    /// Whether a `!` precedes it.
    negated: bool,
    /// Whether an `||` in it waits for its right operand.
    or_waits: bool,
    /// Whether an `&&` in it, after that, waits for its right operand.
    and_waits: bool,
}

impl Level {
    /// A level that was just opened.
    fn opened(negated: bool) -> Level
        ensures { result ≡ opened negated }
    {
        Level {
            negated,
            or_waits: false,
            and_waits: false,
        }
    }
}

/// What is known between two words of a condition.
#[derive(Drop)]
pub(crate) struct State {
    /// The tokens so far.
    pub(crate) tokens: Vec<Token>,
    /// The innermost level.
    level: Level,
    /// Those around it, the innermost of them first.
    outer: VecDeque<Level>,
    /// Whether an operand precedes.
    has_operand: bool,
}

impl Model for State {
    ghost use Rattle.sd_condition_parse.specs.Condition.{StateValue};

    ghost Value = { StateValue };

    ghost view = { λ s. record {
      tokens = s.tokens.items;
      level = s.level;
      outer = s.outer.items;
      has_operand = s.has_operand;
    } };
}

impl State {
    /// The state after the first parenthesis. Allocates nothing.
    pub(crate) fn start(alloc: Global) -> State
        ensures { result ≡ start }
    {
        State {
            tokens: Vec::new(alloc),
            level: Level::opened(false),
            outer: VecDeque::new(alloc),
            has_operand: false,
        }
    }

    /// The next word. Returns whether the condition goes on.
    #[tactic(auto, unfolding(crate::specs::Condition::step))]
    pub(crate) fn step(
        &mut self,
        alloc: Global,
        cursor: &mut Cursor<'_>,
        known: Aliases,
    ) -> Result<bool, ConditionError>
        ensures step { GivesAs (λ more. (more, self.new)) result cursor.new.rest.now
            (step known self.old cursor.old.rest.now) }
        ensures shorter { OnOk result (length cursor.new.rest.now < length cursor.old.rest.now) }
    {
        skip_space(cursor);
        if self.has_operand {
            self.operator_step(cursor)
        } else {
            self.operand_step(alloc, cursor, known)
        }
    }

    /// The next word where an operand is due.
    #[tactic(auto, unfolding(crate::specs::Condition::operand_step))]
    fn operand_step(
        &mut self,
        alloc: Global,
        cursor: &mut Cursor<'_>,
        known: Aliases,
    ) -> Result<bool, ConditionError>
        ensures step { GivesAs (λ more. (more, self.new)) result cursor.new.rest.now
            (operand_step known self.old cursor.old.rest.now) }
        ensures shorter { OnOk result (length cursor.new.rest.now < length cursor.old.rest.now) }
    {
        if cursor.eat(b"(") {
            self.enter(false)?;
        } else if cursor.eat(b"!") {
            skip_space(cursor);
            cursor.word(b"(")?;
            self.enter(true)?;
        } else {
            parse_term(alloc, cursor, known, &mut self.tokens)?;
            self.has_operand = true;
        }
        Ok(true)
    }

    /// The next word after an operand.
    #[tactic(auto, unfolding(crate::specs::Condition::operator_step))]
    fn operator_step(&mut self, cursor: &mut Cursor<'_>) -> Result<bool, ConditionError>
        ensures step { GivesAs (λ more. (more, self.new)) result cursor.new.rest.now
            (operator_step self.old cursor.old.rest.now) }
        ensures shorter { OnOk result (length cursor.new.rest.now < length cursor.old.rest.now) }
    {
        if cursor.eat(b"&&") {
            self.join_and()?;
            return Ok(true);
        }
        if cursor.eat(b"||") {
            self.join_or()?;
            return Ok(true);
        }
        cursor.word(b")")?;
        let more = self.close()?;
        Ok(more)
    }

    /// A parenthesis opens.
    fn enter(&mut self, negated: bool) -> Result<(), AllocError>
        ensures { OnOk result (self.new ≡ enter negated self.old) }
    {
        self.outer.push_front(self.level)?;
        self.level = Level::opened(negated);
        Ok(())
    }

    /// `&&`: an `&&` that waits has both operands now.
    fn join_and(&mut self) -> Result<(), AllocError>
        ensures { OnOk result (self.new ≡ join_and self.old) }
    {
        self.push_where(self.level.and_waits, Operator::And)?;
        self.level.and_waits = true;
        self.has_operand = false;
        Ok(())
    }

    /// `||`: so has each operator that waits.
    fn join_or(&mut self) -> Result<(), AllocError>
        ensures { OnOk result (self.new ≡ join_or self.old) }
    {
        self.push_where(self.level.and_waits, Operator::And)?;
        self.push_where(self.level.or_waits, Operator::Or)?;
        self.level.and_waits = false;
        self.level.or_waits = true;
        self.has_operand = false;
        Ok(())
    }

    /// `)`: the level is an operand of the one around it. Returns false if there is none.
    fn close(&mut self) -> Result<bool, AllocError>
        ensures { IfOk result (λ more. (more, self.new) ≡ close self.old) }
    {
        self.push_where(self.level.and_waits, Operator::And)?;
        self.push_where(self.level.or_waits, Operator::Or)?;
        self.push_where(self.level.negated, Operator::Not)?;
        match self.outer.pop_front() {
            Some(level) => {
                self.level = level;
                Ok(true)
            }
            None => Ok(false),
        }
    }

    /// Appends the operator, if it is there.
    fn push_where(&mut self, there: bool, operator: Operator) -> Result<(), AllocError>
        ensures { OnOk result (self.new ≡ with_tokens (where_set there operator) self.old) }
    {
        if there {
            self.tokens.push(Token::Operator(operator))?;
        }
        Ok(())
    }
}
