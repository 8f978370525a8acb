//! The lines of an audit up to the one that opens its store.

ghost use Rattle.std.specs.Prelude.{◌≡◌, None, true, IfOk, IfSome};
ghost use Rattle.sd_script.specs.Output.{opens};
ghost use Rattle.sd_script.specs.Printed.{style_in};
ghost use Rattle.sd_script_audit.specs.Audit.{PrintsNextInAudit, unopened};
ghost use Rattle.sd_script_audit.specs.Parts.{IsDoneOrTold, before_queries, without_queries};

use crate::line::asked_or_told;
use sd_line::{Line, Tag, push_printed};
use sd_lines::AnswersLines;
use sd_script::{LineRequest, ScriptCounts, ScriptOptions, alone, opened_line, start_error_line};
use sd_tree::RootSpec;
use sd_versions::Desk;
use std::alloc::{AllocError, Global};

/// How the lines up to the one that opens the store are answered.
#[derive(Clone, Copy)]
pub(crate) struct Openings {
    pub(crate) options: ScriptOptions,
    pub(crate) workers: u64,
}

/// What is kept between two lines before the store is open.
#[derive(Drop)]
pub(crate) struct Unopened {
    /// The root of the store, where the last line opens it.
    pub(crate) root: Option<RootSpec>,
    /// What is counted of the lines so far.
    pub(crate) counts: ScriptCounts,
}

impl AnswersLines for Openings {
    type State = Unopened;

    ghost answers = { λ by old line text new. IfSome line (λ bytes. PrintsNextInAudit
        (style_in by.options.notation) by.workers
        (before_queries by.options by.workers old.root old.counts) bytes text
        (before_queries by.options by.workers new.root new.counts)) };

    fn answer(
        &self,
        alloc: Global,
        unopened: &mut Unopened,
        line: Option<&[u8]>,
        text: &mut Vec<u8>,
    ) -> Result<(), AllocError> {
        let (Some(line), None) = (line, &unopened.root) else {
            // (no line is too long, and those after the opening are left)
            return Err(AllocError);
        };
        let notation = self.options.notation;
        let found = asked_or_told(alloc, notation, false, line);
        let answer = self.open(alloc, &mut unopened.root, found)?;
        unopened.counts = unopened.counts.with(line, &answer);
        push_printed(alloc, text, notation.style(), Tag::None, &answer)
    }
}

impl Openings {
    /// What an opening is answered by, or the answer that a line has without one. Whether the store is refused a store
    /// of one thread says.
    fn open(
        &self,
        alloc: Global,
        opened: &mut Option<RootSpec>,
        found: Result<LineRequest, Option<Vec<Line>>>,
    ) -> Result<Vec<Line>, AllocError>
        requires opening { IfOk found (λ asked. opens asked ≡ true) }
        requires closed { opened.old ≡ None }
        ensures { IfOk result (λ answer. IsDoneOrTold self.now.workers (unopened self.now.options) found
            answer.items (without_queries self.now.options self.now.workers opened.new)) }
    {
        let (root, is_all) = match found {
            Ok(LineRequest::Opening { root, is_all, .. }) => (root, is_all),
            Ok(_) => unreachable!(),
            Err(told) => return told.ok_or(AllocError),
        };
        let ScriptOptions {
            mapping,
            limits,
            ..
        } = self.options;
        match Desk::start_within(alloc, &mapping, &root, limits, self.workers) {
            Ok(_) => {
                *opened = Some(root);
                alone(alloc, opened_line(alloc, is_all, self.workers)?)
            }
            Err(error) => alone(alloc, start_error_line(alloc, error)?),
        }
    }
}
