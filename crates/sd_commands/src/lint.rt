//! The answer to `lint`: what stands in a descriptor that its author may not have meant.
ghost use Rattle.std.specs.Prelude.{IfOk};
ghost use Rattle.sd_acl.specs.Descriptor.{descriptor_of};
ghost use Rattle.sd_commands.specs.Answer.{answer_of};
ghost use Rattle.sd_commands.specs.CommandAnswer.{AnswersOfBase};
ghost use Rattle.sd_commands.specs.Findings.{AnswersFindings, PrintsFindings};

use crate::command_answer::{Answered, found};
use crate::descriptor::note_object;
use crate::object::{leaves_out, looked_at};
use crate::risks::push_risks;
use crate::settings::CommandContext;
use sd_acl::Descriptor;
use sd_analysis::Base;
use sd_answer::{CLEAN, TokenError, lint_lines, read_base};
use sd_check::GroupState;
use sd_sid::Sid;
use std::alloc::AllocError;

impl CommandContext<'_> {
    /// The findings in a descriptor, or `clean`, where each token has the base that the words are; or the fault of the
    /// first word that is invalid.
    #[inline(never)]
    pub(crate) fn lint(&self, descriptor: Descriptor, words: &[&str]) -> Answered
        ensures { IfOk result (λ answer. AnswersOfBase self.now.settings.now words.now
            (AnswersFindings self.now.settings.now (descriptor_of descriptor)) (answer_of answer)) }
    {
        match read_base(self.alloc, self.settings.aliases, words) {
            Ok(groups) => self.findings_seen(descriptor, &groups),
            Err(TokenError::NoWord { place }) => self.group_fault(words, place),
            Err(TokenError::Memory) => Err(AllocError),
        }
    }

    /// The findings in the descriptor as it is looked at, and that something was left out of it, where it was.
    fn findings_seen(&self, descriptor: Descriptor, groups: &[(Sid, GroupState)]) -> Answered
        ensures { IfOk result (λ answer. AnswersFindings self.now.settings.now (descriptor_of descriptor) groups.now
            (answer_of answer)) }
    {
        let (alloc, is_object) = (self.alloc, self.settings.object);
        let left_out = leaves_out(is_object, &descriptor);
        let seen = looked_at(alloc, is_object, descriptor)?;
        let answer = self.findings(&seen, groups)?;
        note_object(alloc, left_out, answer)
    }

    fn findings(&self, descriptor: &Descriptor, groups: &[(Sid, GroupState)]) -> Answered
        ensures { IfOk result (λ answer. PrintsFindings self.now.settings.now (descriptor_of descriptor.now) groups.now
            (answer_of answer)) }
    {
        let base = Base { groups };
        let mut lines = lint_lines(self.alloc, &self.settings.mapping, &base, descriptor)?;
        push_risks(self.alloc, &mut lines, self.settings, descriptor, &base)?;
        found(self.alloc, lines, CLEAN)
    }
}
