//! The lines that end in a part of an input.

ghost use Rattle.std.specs.Prelude.{◌≡◌, ◌||◌, ◌<◌, ℕ, List, [], false, Option, IfOk, IfErr, OnOk, length};
ghost use Rattle.sd_lines.specs.Watched.{inner_of, has_failed};
ghost use Rattle.sd_lines.specs.Streams.{is_read_error, is_write_error};
ghost use Rattle.sd_lines.specs.Steps.{Continues, Stops, ends_run};

use crate::answers::AnswersLines;
use crate::form::{Form, keep};
use crate::{RunError, Watched, write_whole};
use std::alloc::{AllocError, Global};
use std::io::Write;

/// Writes the answers to the lines that end in the bytes. `line` is what is kept of the line that has begun.
pub(crate) fn answer_parts<A: AnswersLines, W: Write>(
    alloc: Global,
    answers: &A,
    state: &mut A::State,
    form: Form,
    line: &mut Vec<u8>,
    bytes: &[u8],
    text: &mut Vec<u8>,
    writer: &mut Watched<W>,
) -> Result<(), RunError>
    requires { ends_run form line.old.items ≡ false }
    ensures ok { OnOk result (Continues form (A.answers answers.now)
        state.old line.old.items [] (W.contents (inner_of writer.old)) bytes.now
        state.new line.new.items [] (W.contents (inner_of writer.new)) []) }
    ensures err { IfErr result (Stops form (A.answers answers.now)
        state.old line.old.items (W.contents (inner_of writer.old)) bytes.now (W.contents (inner_of writer.new))) }
    ensures only { is_read_error result ≡ false }
    ensures goes_on { OnOk result (ends_run form line.new.items ≡ false) }
    ensures failed { has_failed writer.new ≡ (has_failed writer.old || is_write_error result) }
{
    let mut rest = bytes;
    while !rest.is_empty() {
        text.clear();
        rest = append_answers(alloc, answers, state, form, line, rest, text)?;
        write_whole(writer, text)?;
        if form.ends_run(line) {
            return Err(RunError::TooLong);
        }
    }
    Ok(())
}

/// Appends the answers that are written together, to lines that end in the bytes, and returns the bytes after them.
fn append_answers<'a, A: AnswersLines>(
    alloc: Global,
    answers: &A,
    state: &mut A::State,
    form: Form,
    line: &mut Vec<u8>,
    bytes: &'a [u8],
    text: &mut Vec<u8>,
) -> Result<&'a [u8], AllocError>
    ensures takes { IfOk result (λ left. (now : Option (List ℕ)) → Continues form (A.answers answers.now)
        state.old line.old.items text.old.items now bytes.now
        state.new line.new.items text.new.items now left.now) }
    ensures less { IfOk result (λ left. ends_run form line.new.items ≡ false → 0 < length bytes.now
        → length left.now < length bytes.now) }
{
    let mut rest = bytes;
    // (line by line until one is answered)
    'lines: while !form.line_by_line || rest.len() == bytes.len() {
        let (part, left) = form.ending.split(rest);
        keep(line, part)?;
        if left.is_empty() || form.ends_run(line) {
            return Ok(left);
        }
        answers.answer(alloc, state, form.asked(form.ending.line(line)), text)?;
        line.clear();
        rest = &left[1..];
    }
    Ok(rest)
}
