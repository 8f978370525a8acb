//! The answer to `lint` under `--whole` and `--object`: what stands in a whole DACL that its author may not have meant.
ghost use Rattle.std.specs.Prelude.{IfOk};
ghost use Rattle.sd_acl.specs.Descriptor.{descriptor_of};
ghost use Rattle.sd_line.specs.Spelling.{right_names_of};
ghost use Rattle.sd_whole_lint.specs.Findings.{AreWholeFindings};
ghost use Rattle.sd_commands.specs.Answer.{answer_of};
ghost use Rattle.sd_commands.specs.Chain.{types_of};
ghost use Rattle.sd_commands.specs.CommandAnswer.{AnswersLintOfWhole, AnswersOfBase, AnswersUnhidden};
ghost use Rattle.sd_commands.specs.WholeLint.{AnswersWholeFindings, PrintsWholeFindings};
ghost use Rattle.sd_specialize.specs.Marked.{conditionals};

use crate::command_answer::{Answered, found};
use crate::conditions::hides;
use crate::descriptor::{ALL_LEFT_OUT, note_left_out_sacl, note_object};
use crate::for_everyone::{ForEveryone, PlainForEveryone, has_sacl};
use crate::object::{leaves_out, looked_at};
use crate::object_types::{has_types, note_types, types_left_out};
use crate::settings::CommandContext;
use sd_acl::Descriptor;
use sd_analysis::Base;
use sd_answer::{CLEAN, TokenError, read_base};
use sd_check::GroupState;
use sd_line::Line;
use sd_sid::Sid;
use sd_specialize::{SpecializeError, conditionals};
use sd_whole::{WholeAcl, WholeDescriptor};
use sd_whole_lint::{WholeView, whole_lint_lines};
use std::alloc::AllocError;

impl CommandContext<'_> {
    /// The findings in all that the text is ([MS-DTYP] 2.5.1.1), but its SACL, for the object types asked about and
    /// whoever asks, or `clean`, where each token has the base that the words are; or the first fault.
    pub(crate) fn whole_lint(&self, sddl: &str, words: &[&str]) -> Answered
        ensures { IfOk result (λ answer. AnswersLintOfWhole self.now.settings.now sddl.now words.now
            (answer_of answer)) }
    {
        let before = WholeAcl::Absent;
        let plain = match self.of_everyone("SDDL", ALL_LEFT_OUT, &before, sddl)? {
            ForEveryone::Plain(plain) => plain,
            ForEveryone::Refused(answer) => return Ok(answer),
        };
        let is_there = has_sacl(&plain.whole);
        let depends = has_types(false, &plain.whole.dacl);
        let left_out = types_left_out(self.alloc, self.settings, depends)?;
        let answer = self.whole_lint_of_base(plain, left_out, words)?;
        let answer = note_types(self.alloc, self.settings, depends, answer)?;
        note_left_out_sacl(self.alloc, "SDDL", is_there, answer)
    }

    /// The findings for the base that the words are; or the fault of the first word that is invalid.
    fn whole_lint_of_base(
        &self,
        plain: PlainForEveryone,
        left_out: Vec<Line>,
        words: &[&str],
    ) -> Answered
        ensures { IfOk result (λ answer. AnswersOfBase self.now.settings.now words.now
            (λ base. AnswersUnhidden (conditionals plain.whole.dacl) base (AnswersWholeFindings self.now.settings.now
            plain.whole left_out.items (descriptor_of plain.descriptor) base)) (answer_of answer)) }
    {
        match read_base(self.alloc, self.settings.aliases, words) {
            Ok(groups) => self.unhidden_findings(plain, left_out, &groups),
            Err(TokenError::NoWord { place }) => self.group_fault(words, place),
            Err(TokenError::Memory) => Err(AllocError),
        }
    }

    /// The findings, unless a SID of the base is a marker.
    fn unhidden_findings(
        &self,
        plain: PlainForEveryone,
        left_out: Vec<Line>,
        groups: &[(Sid, GroupState)],
    ) -> Answered
        ensures { IfOk result (λ answer. AnswersUnhidden (conditionals plain.whole.dacl) groups.now
            (AnswersWholeFindings self.now.settings.now plain.whole left_out.items (descriptor_of plain.descriptor)
            groups.now) (answer_of answer)) }
    {
        let (plain, whole) = (plain.descriptor, plain.whole);
        let marks = conditionals(self.alloc, &whole.dacl)?;
        if hides(&marks, groups) {
            return self.hidden();
        }
        self.whole_findings_seen(&whole, plain, left_out, groups)
    }

    /// The findings in the descriptor as it is looked at, and that something was left out of it, where it was.
    fn whole_findings_seen(
        &self,
        whole: &WholeDescriptor,
        plain: Descriptor,
        left_out: Vec<Line>,
        groups: &[(Sid, GroupState)],
    ) -> Answered
        ensures { IfOk result (λ answer. AnswersWholeFindings self.now.settings.now whole.now left_out.items
            (descriptor_of plain) groups.now (answer_of answer)) }
    {
        let (alloc, is_object) = (self.alloc, self.settings.object);
        let passed_on = leaves_out(is_object, &plain);
        let seen = looked_at(alloc, is_object, plain)?;
        let answer = self.whole_findings(whole, &seen, left_out, groups)?;
        note_object(alloc, passed_on, answer)
    }

    fn whole_findings(
        &self,
        whole: &WholeDescriptor,
        plain: &Descriptor,
        mut left_out: Vec<Line>,
        groups: &[(Sid, GroupState)],
    ) -> Answered
        ensures { IfOk result (λ answer. PrintsWholeFindings self.now.settings.now whole.now left_out.items
            (descriptor_of plain.now) groups.now (answer_of answer)) }
    {
        let base = Base { groups };
        let mut lines = self.lines_of_whole(whole, plain, &base)?;
        match self.whole_risks(whole, plain, &base) {
            Ok(mut risks) => {
                lines.append(&mut risks)?;
                lines.append(&mut left_out)?;
                found(self.alloc, lines, CLEAN)
            }
            Err(SpecializeError::Fault(fault)) => self.undecided("SDDL", fault),
            Err(SpecializeError::Memory) => Err(AllocError),
        }
    }

    fn lines_of_whole(
        &self,
        whole: &WholeDescriptor,
        plain: &Descriptor,
        base: &Base<'_>,
    ) -> Result<Vec<Line>, AllocError>
        ensures { let settings = self.now.settings.now in IfOk result (λ lines. AreWholeFindings
            (right_names_of settings.spelling) (types_of settings.chain) settings.mapping base.now whole.now.dacl
            (descriptor_of plain.now) lines.items) }
    {
        let view = WholeView {
            names: self.settings.spelling.right_names(),
            chain: self.settings.chain.types(),
            mapping: &self.settings.mapping,
        };
        whole_lint_lines(self.alloc, view, base, &whole.dacl, plain)
    }
}
