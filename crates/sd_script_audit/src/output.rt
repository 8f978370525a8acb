//! The whole output of an audit.

ghost use Rattle.std.specs.Prelude.{◌≡◌, ◌⊎◌, ◌++◌, ◌<◌, ◌≤◌, ℕ, List, length, Some, IfErr, IfOk, OnOk, is_some};
ghost use Rattle.std.specs.Str.Lines.{lines};
ghost use Rattle.sd_script.specs.Output.{opening_in};
ghost use Rattle.sd_script.specs.Printed.{style_in};
ghost use Rattle.sd_script_audit.specs.Audit.{AreAnsweredInAudit, PrintsAuditAndCounts};
ghost use Rattle.sd_script_audit.specs.Parts.{audited, before_queries};

use crate::opening::{Openings, Unopened};
use crate::queries::{Open, Queries};
use sd_history::Opened;
use sd_lines::{RunError, answer_text, answer_until};
use sd_script::{LINES, ScriptCounts, ScriptOptions};
use sd_store::{Checker, Gate, StoreId, start_within};
use sd_tree::{Edit, RootSpec};
use sd_versions::StartError;
use std::alloc::Global;
use std::marker::{Brand, PhantomData};
use std::sync::Wait;
use std::thread::Threads;

/// The whole output of an audit by so many workers that is carried out and printed in this manner, and what is counted
/// of its lines. The errors are out of memory and `Thread`, as of `run_audit`.
pub(crate) fn audit_output<T: Threads + Wait + Sync, G: Gate + Sync>(
    rt: &T,
    alloc: Global,
    workers: u64,
    options: &ScriptOptions,
    text: &[u8],
    gate: &G,
) -> Result<(Vec<u8>, ScriptCounts), RunError>
    ensures printed { IfOk result
        (λ output. PrintsAuditAndCounts options.now workers text.now output.0.items output.1) }
    ensures failed { IfErr result (λ e. (e ≡ RunError.Memory) ⊎ (e ≡ RunError.Thread)) }
{
    let mut printed = Vec::new(alloc);
    let openings = Openings {
        options: *options,
        workers,
    };
    let mut unopened = Unopened {
        root: None,
        counts: ScriptCounts::of_no_lines(),
    };
    let after = answer_until(
        alloc,
        &openings,
        &mut unopened,
        LINES,
        text,
        &mut printed,
        |unopened: &Unopened|
            ensures { result ≡ is_some unopened.now.root }
        { unopened.root.is_some() },
    )?;
    let Unopened { root, counts } = unopened;
    let Some(root) = root else {
        return Ok((printed, counts));
    };
    let counts = open_and_audit::<Brand, T, G>(
        rt,
        alloc,
        openings,
        Opened::new(),
        &root,
        after,
        counts,
        gate,
        &mut printed,
    )?;
    Ok((printed, counts))
}

/// Opens a store of this history with this root, answers the lines after its opening, to the end of the audit, and
/// returns what is then counted.
fn open_and_audit<J: StoreId + Send + Sync, T: Threads + Wait + Sync, G: Gate + Sync>(
    rt: &T,
    alloc: Global,
    openings: Openings,
    history: Opened<Edit>,
    root: &RootSpec,
    text: &[u8],
    counts: ScriptCounts,
    gate: &G,
    printed: &mut Vec<u8>,
) -> Result<ScriptCounts, RunError>
    requires history { (history.book ≡ J.book) × (history.first ≡ J.first) }
    requires opening { opening_in openings.options root.now ≡ J.opening }
    ensures audited { IfOk result (λ last. (added : List ℕ) × (printed.new.items ≡ printed.old.items ++ added)
        × AreAnsweredInAudit (style_in openings.options.notation) openings.workers
        (before_queries openings.options openings.workers (Some root.now) counts) (lines text.now) added last) }
    ensures failed { IfErr result (λ e. (e ≡ RunError.Memory) ⊎ (e ≡ RunError.Thread)) }
{
    let Openings { options, workers } = openings;
    let ScriptOptions {
        mapping,
        limits,
        notation,
    } = options;
    match start_within::<J, T>(rt, alloc, history, &mapping, root, limits, workers) {
        Ok((writer, mut checkers)) => {
            let queries = Queries {
                rt,
                workers,
                notation,
                of: PhantomData,
            };
            let mut open = Open {
                writer,
                queries: Vec::new(alloc),
                counts,
            };
            let answered = queries.answered(alloc, &mut open, text, &mut checkers, gate, printed);
            let Open {
                writer,
                queries: _,
                counts,
            } = open;
            writer.end(rt);
            answered?;
            Ok(counts)
        }
        Err(StartError::Memory) => Err(RunError::Memory),
        Err(_) => Err(RunError::Thread),
    }
}

impl<J: StoreId + Send + Sync, T: Threads + Wait + Sync> Queries<'_, J, T> {
    /// Answers the lines after an opening and the end of the audit.
    fn answered<G: Gate + Sync>(
        &self,
        alloc: Global,
        open: &mut Open<J>,
        text: &[u8],
        checkers: &mut [Checker<J>],
        gate: &G,
        printed: &mut Vec<u8>,
    ) -> Result<(), RunError>
        requires each { length checkers.old ≡ self.now.workers }
        requires some { (0 < length checkers.old) × (length checkers.old ≤ 64) }
        ensures audited { OnOk result ((added : List ℕ) × (printed.new.items ≡ printed.old.items ++ added)
            × AreAnsweredInAudit (style_in self.now.notation) self.now.workers
            (audited self.now.notation J.opening self.now.workers
            open.old.writer open.old.queries.items open.old.counts) (lines text.now) added open.new.counts) }
        ensures failed { IfErr result (λ e. (e ≡ RunError.Memory) ⊎ (e ≡ RunError.Thread)) }
    {
        answer_text(alloc, self, open, LINES, text, printed)?;
        self.publish_and_answer(
            alloc,
            &mut open.writer,
            checkers,
            &open.queries,
            gate,
            printed,
        )
    }
}
