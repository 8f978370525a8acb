//! The lines of a text, and their answers.

ghost use Rattle.std.specs.Prelude.{◌≡◌, ◌⊎◌, ◌++◌, ℕ, List, [], true, IfOk, OnOk};
ghost use Rattle.std.specs.Fn.{FnReturnsAt};
ghost use Rattle.sd_lines.specs.Answers.{AreAnswered, of_form};
ghost use Rattle.sd_lines.specs.Lines.{lines_in};

use crate::answers::AnswersLines;
use crate::ending::first_line;
use crate::form::Form;
use std::alloc::{AllocError, Global};

/// Appends the answers to all lines of a text, of which the last may lack its end. Fails only where memory is refused.
pub fn answer_text<A: AnswersLines>(
    alloc: Global,
    answers: &A,
    state: &mut A::State,
    form: Form,
    text: &[u8],
    printed: &mut Vec<u8>,
) -> Result<(), AllocError>
    ensures { OnOk result ((added : List ℕ) × (printed.new.items ≡ printed.old.items ++ added)
        × AreAnswered (of_form form (A.answers answers.now)) state.old
        (lines_in form.ending text.now) added state.new) }
{
    answer_until(alloc, answers, state, form, text, printed, |_| false)?;
    Ok(())
}

/// Appends the answers to the lines of a text up to the one that leaves a state in which they are over, or to all, of
/// which the last may lack its end; returns the text after them. Fails only where memory is refused.
pub fn answer_until<'t, A: AnswersLines, F: Fn(&A::State) -> bool>(
    alloc: Global,
    answers: &A,
    state: &mut A::State,
    form: Form,
    text: &'t [u8],
    printed: &mut Vec<u8>,
    are_over: F,
) -> Result<&'t [u8], AllocError>
    requires { F.IsAlwaysCallable are_over }
    ensures answered { IfOk result (λ left. (lines : List (List ℕ)) × (added : List ℕ)
        × (lines_in form.ending text.now ≡ lines ++ lines_in form.ending left.now)
        × (printed.new.items ≡ printed.old.items ++ added)
        × AreAnswered (of_form form (A.answers answers.now)) state.old lines added state.new) }
    ensures over { IfOk result (λ left. (left.now ≡ []) ⊎ FnReturnsAt F.Fn are_over state.new true) }
{
    let mut rest = text;
    while !rest.is_empty() && !are_over(state) {
        let (line, after) = first_line(form.ending, rest);
        answers.answer(alloc, state, form.asked(line), printed)?;
        rest = after;
    }
    Ok(rest)
}
