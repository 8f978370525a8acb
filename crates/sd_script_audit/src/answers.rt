//! The end of an audit: a last publish, and the answers to its queries.

ghost use Rattle.std.specs.Prelude.{◌≡◌, ◌⊎◌, ◌∷◌, ◌++◌, ◌<◌, ◌≤◌, ℕ, [], None, length, IfErr, IfOk, OnOk};
ghost use Rattle.sd_answer.specs.declared.forms.TheConstants.{TOLD};
ghost use Rattle.sd_line.specs.Line.{form};
ghost use Rattle.sd_line.specs.Printed.{printed};
ghost use Rattle.sd_script.specs.Printed.{style_in};
ghost use Rattle.sd_script.specs.Reply.{counted_line};
ghost use Rattle.sd_script.specs.declared.session.Session.TheVariants.{Opened};
ghost use Rattle.sd_script_audit.specs.Audit.{end_of, last_publish};
ghost use Rattle.sd_script_audit.specs.Parts.{machine_of};

use crate::queries::Queries;
use sd_answer::{PUBLISHED, TOLD};
use sd_line::{Line, Style, Tag, push_printed};
use sd_lines::RunError;
use sd_script::{counted_line, reply_line};
use sd_store::{AuditError, Checker, Gate, Notice, Query, StoreId, StoreWriter, audit};
use sd_versions::Reply;
use std::alloc::{AllocError, Global};
use std::sync::Wait;
use std::thread::Threads;

impl<J: StoreId + Send + Sync, T: Threads + Wait + Sync> Queries<'_, J, T> {
    /// Publishes the pending edits, prints the journal's length, and answers the queries by it.
    pub(crate) fn publish_and_answer<G: Gate + Sync>(
        &self,
        alloc: Global,
        writer: &mut StoreWriter<J>,
        checkers: &mut [Checker<J>],
        queries: &[Query],
        gate: &G,
        out: &mut Vec<u8>,
    ) -> Result<(), RunError>
        requires some { (0 < length checkers.old) × (length checkers.old ≤ 64) }
        ensures end { (readers : ℕ) → OnOk result (out.new.items ≡ out.old.items
            ++ printed (style_in self.now.notation) None
            (end_of (Opened self.now.notation (machine_of J.opening readers writer.old)) queries.now)) }
        ensures failed { IfErr result (λ e. (e ≡ RunError.Memory) ⊎ (e ≡ RunError.Thread)) }
    {
        let style = self.notation.style();
        let mut notice = publish_and_tell(self.rt, alloc, writer, style, out)?;
        let answers = match audit(self.rt, alloc, checkers, &mut notice, queries, gate) {
            Ok(answers) => answers,
            Err(AuditError::Memory) => return Err(RunError::Memory),
            Err(AuditError::Gate | AuditError::Gone) => return Err(RunError::Thread),
        };
        let seen = notice.length();
        for answer in &answers {
            if answer.seen != seen {
                return Err(RunError::Thread);
            }
            let line = reply_line(alloc, Reply::Answered(*answer))?;
            push_line(alloc, out, style, line)?;
        }
        Ok(())
    }
}

/// Publishes the pending edits, where there are some, and prints the journal's length.
fn publish_and_tell<J: StoreId, T: Wait>(
    rt: &T,
    alloc: Global,
    writer: &mut StoreWriter<J>,
    style: Style,
    out: &mut Vec<u8>,
) -> Result<Notice<J>, AllocError>
    ensures journal { IfOk result (λ notice. notice.journal ≡ writer.old.journal ++ writer.old.pending) }
    ensures printed { OnOk result (out.new.items ≡ out.old.items ++ printed style None
        (last_publish writer.old.pending (length (writer.old.journal ++ writer.old.pending))
        ++ counted_line (form TOLD) (length (writer.old.journal ++ writer.old.pending)) ∷ [])) }
{
    if writer.pending_len() > 0 {
        let Ok(length) = writer.publish(rt) else {
            return Err(AllocError);
        };
        let line = counted_line(alloc, PUBLISHED, length)?;
        push_line(alloc, out, style, line)?;
    }
    let notice = writer.tell();
    let line = counted_line(alloc, TOLD, notice.length())?;
    push_line(alloc, out, style, line)?;
    Ok(notice)
}

/// Prints a line. Those of the end are printed one by one, so that they aren't all kept at once.
fn push_line(alloc: Global, out: &mut Vec<u8>, style: Style, line: Line) -> Result<(), AllocError>
    ensures { OnOk result (out.new.items ≡ out.old.items ++ printed style None (line ∷ [])) }
{
    push_printed(alloc, out, style, Tag::None, &[line])
}
