//! What each line of a script is answered by.
ghost use Rattle.std.specs.Prelude.{◌≡◌, ◌⊎◌, ◌++◌, List, false, true, IfOk, OnErr, OnOk};
ghost use Rattle.sd_line.specs.Line.{LineOf};
ghost use Rattle.sd_line.specs.Printed.{printed, tag_of};
ghost use Rattle.sd_script.specs.Expect.{last_after};
ghost use Rattle.sd_script.specs.Output.{IsAnswered, IsAnsweredAfter, IsDone, IsMade, IsNext, IsTold, IsUnanswered};
ghost use Rattle.sd_script.specs.Output.{IsUntold, opens};
ghost use Rattle.sd_script.specs.declared.session.Session.TheVariants.{Opened};

use crate::answer::Answer;
use crate::expect::{LastAnswer, expect_line, expects};
use crate::fault::{LineStop, line_of_fault};
use crate::importing::import_answer;
use crate::line::read_line;
use crate::line_request::LineRequest;
use crate::lines::{is_silent, wants_lines};
use crate::moving::moved;
use crate::reply::{alone, opened_line, reply_line, start_error_line, trimmed_line};
use crate::script_options::Notation;
use crate::script_state::ScriptState;
use crate::session::Session;
use crate::view::view_answer;
use sd_line::{Line, Style, Tag, push_printed};
use sd_versions::{Desk, Request};
use std::alloc::{AllocError, Global};

/// Adds what a line, without its end, is answered by, each line of it after a tag: a line, or several, an empty one the
/// last, or nothing where it is empty or begins with `#`. A line that expects an answer is answered by `ok`, or by
/// `fault expect` if the last answer is another. The line is counted. The only error is out of memory: then nothing has
/// changed, or what the line asks for is done, without an answer.
pub fn push_answer(
    alloc: Global,
    state: &mut ScriptState,
    style: Style,
    tag: Tag<'_>,
    line: &[u8],
    out: &mut Vec<u8>,
) -> Result<(), AllocError>
    ensures answered { OnOk result ((answer : List LineOf) × IsNext state.old line.now answer state.new
        × (out.new.items ≡ out.old.items ++ printed style (tag_of tag.entry) answer)) }
    ensures failed { OnErr result (IsUnanswered state.old line.now state.new) }
{
    if expects(line) {
        let spelling = state.session.options().notation.spelling;
        let is_met = state.last.meets(alloc, spelling, line)?;
        let answer = alone(alloc, expect_line(alloc, is_met)?)?;
        push_printed(alloc, out, style, tag, &answer)?;
        state.counts = state.counts.with(line, &answer);
        return Ok(());
    }
    let answer = answered(alloc, &mut state.session, line)?;
    answer.push_printed(alloc, style, tag, out)?;
    state.counts = answer.counted(state.counts, line);
    if !is_silent(line) {
        state.last = LastAnswer::of(answer);
    }
    Ok(())
}

/// What a line that expects no answer is answered by where this stands.
fn answered(alloc: Global, session: &mut Session, line: &[u8]) -> Result<Answer, AllocError>
    ensures answered { IfOk result (λ answer. IsAnswered session.old line.now answer session.new) }
    ensures failed { OnErr result (IsUntold session.old line.now session.new) }
{
    if is_silent(line) {
        return Ok(Answer::of(alloc, Vec::new(alloc)));
    }
    let mut answer = told(alloc, session, line)?;
    if wants_lines(line) {
        answer.end(alloc)?;
    }
    Ok(answer)
}

/// What a line that isn't silent is answered by: what it asks for, or its fault.
fn told(alloc: Global, session: &mut Session, line: &[u8]) -> Result<Answer, AllocError>
    ensures told { IfOk result (λ answer. IsTold session.old line.now answer session.new) }
    ensures failed { OnErr result (IsUntold session.old line.now session.new) }
{
    match read_line(alloc, session.options().notation, session.is_open(), line) {
        Ok(asked) => match session {
            Session::Closed(_) => Ok(Answer::of(alloc, open_store(alloc, session, asked)?)),
            Session::Opened(notation, desk) => done(alloc, *notation, desk, asked),
        },
        Err(LineStop::Fault(fault)) => Answer::alone(alloc, line_of_fault(alloc, fault)?),
        Err(LineStop::Memory) => Err(AllocError),
    }
}

/// Opens a store, where none is open.
fn open_store(
    alloc: Global,
    session: &mut Session,
    asked: LineRequest,
) -> Result<Vec<Line>, AllocError>
    requires { opens asked ≡ true }
    ensures done { IfOk result (λ answer. IsDone session.old asked answer.items session.new) }
    ensures failed { OnErr result (session.new ≡ session.old) }
{
    let LineRequest::Opening {
        readers,
        root,
        is_all,
    } = asked
    else {
        unreachable!()
    };
    let options = session.options();
    match Desk::start_within(alloc, &options.mapping, &root, options.limits, readers) {
        Ok(desk) => {
            let answer = alone(alloc, opened_line(alloc, is_all, readers)?)?;
            *session = Session::Opened(options.notation, desk);
            Ok(answer)
        }
        Err(error) => {
            let answer = alone(alloc, start_error_line(alloc, error)?)?;
            *session = Session::Closed(options);
            Ok(answer)
        }
    }
}

/// Does what is asked of the store that is open. The answers to an import and to a move compare the node's entries with
/// those that it had elsewhere; that to any other edit by a text says whether something of the text was left out.
fn done(
    alloc: Global,
    notation: Notation,
    desk: &mut Desk,
    asked: LineRequest,
) -> Result<Answer, AllocError>
    requires { opens asked ≡ false }
    ensures done { IfOk result
        (λ answer. IsDone (Opened notation desk.old) asked answer (Opened notation desk.new)) }
    ensures failed { OnErr result ((desk.new ≡ desk.old)
        ⊎ IsMade (Opened notation desk.old) asked (Opened notation desk.new)) }
{
    match asked {
        LineRequest::Opening { .. } => unreachable!(),
        LineRequest::Asking(request) => {
            let reply = desk.step(request.as_request());
            Answer::alone(alloc, reply_line(alloc, reply)?)
        }
        LineRequest::Trimming { edit } => {
            let reply = desk.step(&Request::Edit(edit));
            Answer::alone(alloc, trimmed_line(alloc, reply)?)
        }
        LineRequest::AskingNode {
            reader,
            path,
            question,
        } => question.answer(alloc, notation, desk, reader, path),
        LineRequest::Viewing(view) => view_answer(alloc, notation, desk, view),
        LineRequest::Importing { edit, path, given } => {
            let reply = desk.step(&Request::Edit(edit));
            let lines = import_answer(alloc, desk.draft(), &path, &given, reply)?;
            Ok(Answer::of(alloc, lines))
        }
        LineRequest::Moving {
            edit,
            source,
            target,
        } => Ok(Answer::of(alloc, moved(alloc, desk, edit, &source, &target)?)),
    }
}
