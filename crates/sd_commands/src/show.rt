//! The answers to `show` and `diff`: whole descriptors in words.
ghost use Rattle.std.specs.Prelude.{IfOk};
ghost use Rattle.sd_commands.specs.Answer.{AreDone, answer_of};
ghost use Rattle.sd_commands.specs.CommandAnswer.{AnswersDiff, AnswersDiffFrom, AnswersShow, PrintsDiff};
ghost use Rattle.sd_show.specs.Show.{shown};

use crate::command_answer::{Answer, Answered, found};
use crate::settings::CommandContext;
use sd_answer::SAME;
use sd_show::{diff_lines, show_lines};
use sd_text::TextError;
use sd_whole::WholeDescriptor;
use sd_whole_parse::read_whole_sddl;
use std::alloc::AllocError;

impl CommandContext<'_> {
    /// All that the descriptor has that the text is ([MS-DTYP] 2.5.1.1).
    pub(crate) fn show(&self, sddl: &str) -> Answered
        ensures { IfOk result (λ answer. AnswersShow self.now.settings.now sddl.now (answer_of answer)) }
    {
        match read_whole_sddl(self.alloc, self.settings.aliases, sddl) {
            Ok(descriptor) => self.show_all(&descriptor),
            Err(TextError::Fault { fault, place }) => self.sddl_fault("SDDL", sddl, fault, place),
            Err(TextError::Memory) => Err(AllocError),
        }
    }

    fn show_all(&self, descriptor: &WholeDescriptor) -> Answered
        ensures { IfOk result (λ answer. AreDone (shown descriptor.now) (answer_of answer)) }
    {
        let lines = show_lines(self.alloc, descriptor)?;
        Ok(Answer::done(self.alloc, lines))
    }

    /// What differs between the descriptors that two texts are ([MS-DTYP] 2.5.1.1).
    pub(crate) fn diff(&self, old: &str, new: &str) -> Answered
        ensures { IfOk result (λ answer. AnswersDiff self.now.settings.now old.now new.now (answer_of answer)) }
    {
        match read_whole_sddl(self.alloc, self.settings.aliases, old) {
            Ok(descriptor) => self.diff_from(&descriptor, new),
            Err(TextError::Fault { fault, place }) => self.sddl_fault("OLD", old, fault, place),
            Err(TextError::Memory) => Err(AllocError),
        }
    }

    fn diff_from(&self, old: &WholeDescriptor, new: &str) -> Answered
        ensures { IfOk result (λ answer. AnswersDiffFrom self.now.settings.now old.now new.now (answer_of answer)) }
    {
        match read_whole_sddl(self.alloc, self.settings.aliases, new) {
            Ok(descriptor) => self.diff_between(old, &descriptor),
            Err(TextError::Fault { fault, place }) => self.sddl_fault("NEW", new, fault, place),
            Err(TextError::Memory) => Err(AllocError),
        }
    }

    pub(crate) fn diff_between(&self, old: &WholeDescriptor, new: &WholeDescriptor) -> Answered
        ensures { IfOk result (λ answer. PrintsDiff old.now new.now (answer_of answer)) }
    {
        let lines = diff_lines(self.alloc, old, new)?;
        found(self.alloc, lines, SAME)
    }
}
