//! The lines of an audit after the one that opened its store: their answers, and the queries among them.

ghost use Rattle.std.specs.Prelude.{◌≡◌, ℕ, false, IfOk, IfSome};
ghost use Rattle.sd_edit.specs.Machine.{Steps};
ghost use Rattle.sd_edit.specs.declared.request.Reply.{Reply as Replies};
ghost use Rattle.sd_edit.specs.declared.request.Request.TheVariants as asked;
ghost use Rattle.sd_script.specs.Importing.{entries_at};
ghost use Rattle.sd_script.specs.Moving.{IsMoved};
ghost use Rattle.sd_script.specs.Output.{opens};
ghost use Rattle.sd_script.specs.Printed.{style_in};
ghost use Rattle.sd_script.specs.declared.line_request.LineRequest.TheVariants.{Asking};
ghost use Rattle.sd_script_audit.specs.Audit.{IsDoneInAudit, PrintsNextInAudit};
ghost use Rattle.sd_script_audit.specs.Parts.{IsDoneOrTold, audited, machine_of, progress};

use crate::line::{asked_or_told, only_in_scripts};
use sd_line::{Line, Tag, push_printed};
use sd_lines::AnswersLines;
use sd_script::{
    LineRequest, Notation, ScriptCounts, alone, entries_at, import_answer, move_answer, reply_line,
    trimmed_line,
};
use sd_store::{EditError, PublishError, Query, StoreId, StoreWriter};
use sd_tree::{Edit, Path};
use sd_versions::{Reply, Request};
use std::alloc::{AllocError, Global};
use std::marker::PhantomData;
use std::sync::Wait;

/// How the lines after the one that opens the store are answered.
#[derive(Drop)]
pub(crate) struct Queries<'a, J, T> {
    pub(crate) rt: &'a T,
    pub(crate) workers: u64,
    pub(crate) notation: Notation,
    pub(crate) of: PhantomData<J>,
}

/// What is kept between two lines once the store is open.
pub(crate) struct Open<J: StoreId> {
    /// The writer of the store.
    pub(crate) writer: StoreWriter<J>,
    /// What is asked at the end.
    pub(crate) queries: Vec<Query>,
    /// What is counted of the lines before.
    pub(crate) counts: ScriptCounts,
}

impl<J: StoreId, T: Wait> AnswersLines for Queries<'_, J, T> {
    type State = Open<J>;

    ghost answers = { λ by old line text new. IfSome line (λ bytes. PrintsNextInAudit
        (style_in by.notation) by.workers
        (audited by.notation J.opening by.workers old.writer old.queries.items old.counts) bytes text
        (audited by.notation J.opening by.workers new.writer new.queries.items new.counts)) };

    fn answer(
        &self,
        alloc: Global,
        open: &mut Open<J>,
        line: Option<&[u8]>,
        text: &mut Vec<u8>,
    ) -> Result<(), AllocError> {
        let Some(line) = line else {
            // (no line is too long)
            return Err(AllocError);
        };
        let found = asked_or_told(alloc, self.notation, true, line);
        let answer = self.done(alloc, &mut open.writer, &mut open.queries, found)?;
        open.counts = open.counts.with(line, &answer);
        push_printed(alloc, text, self.notation.style(), Tag::None, &answer)
    }
}

impl<J: StoreId, T: Wait> Queries<'_, J, T> {
    /// What is asked is done, and answered by this, or the line has an answer without that. What only a script does is
    /// a fault. After an import or a move the node is compared in the tree of all accepted edits.
    fn done(
        &self,
        alloc: Global,
        writer: &mut StoreWriter<J>,
        queries: &mut Vec<Query>,
        found: Result<LineRequest, Option<Vec<Line>>>,
    ) -> Result<Vec<Line>, AllocError>
        requires { IfOk found (λ asked. opens asked ≡ false) }
        ensures { IfOk result (λ answer. IsDoneOrTold self.now.workers
            (progress self.now.notation J.opening self.now.workers writer.old queries.old.items) found
            answer.items
            (progress self.now.notation J.opening self.now.workers writer.new queries.new.items)) }
    {
        match found {
            Ok(LineRequest::Asking(asked)) => {
                self.asked_of_store(alloc, writer, queries, asked.into_request())
            }
            Ok(LineRequest::Trimming { edit }) => {
                alone(alloc, trimmed_line(alloc, edit_reply(writer, &edit))?)
            }
            Ok(LineRequest::Importing { edit, path, given }) => {
                let reply = edit_reply(writer, &edit);
                import_answer(alloc, writer.draft(), &path, &given, reply)
            }
            Ok(
                LineRequest::Moving {
                    edit,
                    source,
                    target,
                },
            ) => moved(alloc, writer, &edit, &source, &target),
            Ok(LineRequest::Opening { .. }) => unreachable!(),
            Ok(_) => only_in_scripts(alloc),
            Err(told) => told.ok_or(AllocError),
        }
    }

    /// What is asked of the store is done, and answered by this. A check is kept, and what only a script does is a
    /// fault.
    fn asked_of_store(
        &self,
        alloc: Global,
        writer: &mut StoreWriter<J>,
        queries: &mut Vec<Query>,
        request: Request,
    ) -> Result<Vec<Line>, AllocError>
        ensures { IfOk result (λ answer. IsDoneInAudit self.now.workers
            (progress self.now.notation J.opening self.now.workers writer.old queries.old.items)
            (Asking request) answer.items
            (progress self.now.notation J.opening self.now.workers writer.new queries.new.items)) }
    {
        match request {
            Request::Edit(edit) => alone(alloc, reply_line(alloc, edit_reply(writer, &edit))?),
            Request::Publish => alone(alloc, reply_line(alloc, publish_reply(self.rt, writer))?),
            Request::Check {
                reader: _,
                path,
                token,
                asked,
            } => {
                queries.push(Query { path, token, asked })?;
                Ok(Vec::new(alloc))
            }
            _ => only_in_scripts(alloc),
        }
    }
}

/// Moves a node, and compares its entries in the tree of all accepted edits.
fn moved<J: StoreId>(
    alloc: Global,
    writer: &mut StoreWriter<J>,
    edit: &Edit,
    source: &Path,
    target: &Path,
) -> Result<Vec<Line>, AllocError>
    ensures { (readers : ℕ) → let old = machine_of J.opening readers writer.old in
        let new = machine_of J.opening readers writer.new in
        IfOk result (λ answer. (reply : Replies) × Steps old (asked.Edit edit.now) reply new
        × IsMoved (entries_at old source.now) new target.now reply answer.items) }
{
    let before = entries_at(alloc, writer.draft(), source)?;
    let reply = edit_reply(writer, edit);
    move_answer(alloc, &before, writer.draft(), target, reply)
}

/// The reply to an edit.
fn edit_reply<J: StoreId>(writer: &mut StoreWriter<J>, edit: &Edit) -> Reply
    ensures { (readers : ℕ) → Steps (machine_of J.opening readers writer.old) (asked.Edit edit.now) result
        (machine_of J.opening readers writer.new) }
{
    match writer.edit(edit) {
        Ok(()) => Reply::Edited,
        Err(EditError::Refused(refusal)) => Reply::Refused(refusal),
        Err(EditError::Memory) => Reply::Memory,
    }
}

/// The reply to a publish.
fn publish_reply<J: StoreId, T: Wait>(rt: &T, writer: &mut StoreWriter<J>) -> Reply
    ensures { (readers : ℕ) → Steps (machine_of J.opening readers writer.old) asked.Publish result
        (machine_of J.opening readers writer.new) }
{
    match writer.publish(rt) {
        Ok(length) => Reply::Published(length),
        Err(PublishError::Memory) => Reply::Memory,
    }
}
