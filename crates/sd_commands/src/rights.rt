//! The answer to `rights`: a mask by the names of its rights.
ghost use Rattle.std.specs.Prelude.{IfOk};
ghost use Rattle.sd_commands.specs.Answer.{answer_of};
ghost use Rattle.sd_commands.specs.CommandAnswer.{AnswersRights};

use crate::command_answer::{Answer, Answered};
use crate::settings::CommandContext;
use sd_line::{read_mask_in, rights_line};

impl CommandContext<'_> {
    /// The mask, the permission that it is, and its rights by kind of object ([MS-DTYP] 2.4.3), as
    /// `0x10001: FILE_READ_DATA+DELETE`.
    pub(crate) fn rights(&self, mask: &str) -> Answered
        ensures { IfOk result (λ answer. AnswersRights self.now.settings.now mask.now (answer_of answer)) }
    {
        match read_mask_in(self.settings.spelling, mask) {
            Ok(mask) => {
                let line = rights_line(self.alloc, self.settings.kind, mask)?;
                Answer::line(self.alloc, line)
            }
            Err(error) => self.text_fault("mask", "MASK", mask, error),
        }
    }
}
