//! The answers to `who` and `compare` under `--whole`: whom rights are granted to by a whole descriptor, and what a
//! change of one grants and takes, whoever asks.
ghost use Rattle.std.specs.Prelude.{IfOk};
ghost use Rattle.sd_acl.specs.Descriptor.{descriptor_of};
ghost use Rattle.sd_commands.specs.Answer.{answer_of};
ghost use Rattle.sd_commands.specs.CommandAnswer.{AnswersCompareOfBoth, AnswersCompareOfWhole, AnswersCompareTo};
ghost use Rattle.sd_commands.specs.CommandAnswer.{AnswersCompareMarked, AnswersWhoOfWhole, AreLastLines};

use crate::command_answer::Answered;
use crate::descriptor::{ALL_BUT_LABEL, ALL_LEFT_OUT, note_left_out_sacl, note_sacl};
use crate::for_everyone::{ForEveryone, PlainForEveryone, has_sacl};
use crate::handed::{children_are_left_out, children_left_out};
use crate::labels::label_changes;
use crate::limits::{change_has_limits, sacl_left_out};
use crate::object_types::{change_has_types, note_types, types_left_out, who_has_types};
use crate::settings::CommandContext;
use crate::words::{argument, items_from};
use sd_line::Line;
use sd_specialize::{conditional_fault, conditionals};
use sd_whole::{WholeAcl, WholeDescriptor};
use std::alloc::AllocError;

impl CommandContext<'_> {
    /// Whom rights are granted to by all that the text is ([MS-DTYP] 2.5.1.1), but its SACL: where an entry has a
    /// condition, if that is met.
    pub(crate) fn whole_who(&self, sddl: &str, arguments: &[&str]) -> Answered
        ensures { IfOk result (λ answer. AnswersWhoOfWhole self.now.settings.now sddl.now arguments.now
            (answer_of answer)) }
    {
        let before = WholeAcl::Absent;
        let plain = match self.of_everyone("SDDL", ALL_LEFT_OUT, &before, sddl)? {
            ForEveryone::Plain(plain) => plain,
            ForEveryone::Refused(answer) => return Ok(answer),
        };
        let depends = who_has_types(self.settings, &plain.whole);
        let left_out = types_left_out(self.alloc, self.settings, depends)?;
        let marks = conditionals(self.alloc, &plain.whole.dacl)?;
        let answer = self.who(&plain.descriptor, &marks, left_out, arguments)?;
        let answer = note_types(self.alloc, self.settings, depends, answer)?;
        note_left_out_sacl(self.alloc, "SDDL", has_sacl(&plain.whole), answer)
    }

    /// What tokens gain and lose where all that the first of the arguments is ([MS-DTYP] 2.5.1.1), but for its SACL,
    /// takes the place of all that the text is, and whether the label is another and more of the SACL may deny; or the
    /// fault of the first from the left that is invalid.
    pub(crate) fn whole_compare(&self, sddl: &str, arguments: &[&str]) -> Answered
        ensures { IfOk result (λ answer. AnswersCompareOfWhole self.now.settings.now sddl.now arguments.now
            (answer_of answer)) }
    {
        let before = WholeAcl::Absent;
        let old = match self.of_everyone("OLD", ALL_BUT_LABEL, &before, sddl)? {
            ForEveryone::Plain(plain) => plain,
            ForEveryone::Refused(answer) => return Ok(answer),
        };
        let is_there = has_sacl(&old.whole);
        let answer = self.compare_to(old, arguments)?;
        note_sacl(self.alloc, "OLD", ALL_BUT_LABEL, is_there, answer)
    }

    fn compare_to(&self, old: PlainForEveryone, arguments: &[&str]) -> Answered
        ensures { IfOk result (λ answer. AnswersCompareTo self.now.settings.now old.whole (descriptor_of old.descriptor)
            arguments.now (answer_of answer)) }
    {
        let text = argument(arguments, 0);
        let new = match self.of_everyone("NEW", ALL_BUT_LABEL, &old.whole.dacl, text)? {
            ForEveryone::Plain(plain) => plain,
            ForEveryone::Refused(answer) => return Ok(answer),
        };
        let is_there = has_sacl(&new.whole);
        let answer = self.compare_both(old, new, items_from(arguments, 1))?;
        note_sacl(self.alloc, "NEW", ALL_BUT_LABEL, is_there, answer)
    }

    /// The comparison, unless a SID of one is a marker of conditions of the other.
    fn compare_both(&self, old: PlainForEveryone, new: PlainForEveryone, words: &[&str]) -> Answered
        ensures { IfOk result (λ answer. AnswersCompareOfBoth self.now.settings.now
            old.whole (descriptor_of old.descriptor) new.whole (descriptor_of new.descriptor)
            words.now (answer_of answer)) }
    {
        if let Some(place) = self.unmarked_place(&old.whole, &new.whole) {
            return self.undecided("NEW", conditional_fault(place));
        }
        if let Some(place) = self.unmarked_place(&new.whole, &old.whole) {
            return self.undecided("OLD", conditional_fault(place));
        }
        self.compare_marked(old, new, words)
    }

    fn compare_marked(
        &self,
        old: PlainForEveryone,
        new: PlainForEveryone,
        words: &[&str],
    ) -> Answered
        ensures { IfOk result (λ answer. AnswersCompareMarked self.now.settings.now
            old.whole (descriptor_of old.descriptor) new.whole (descriptor_of new.descriptor)
            words.now (answer_of answer)) }
    {
        let (plain_old, plain_new) = (old.descriptor, new.descriptor);
        let (old, new) = (old.whole, new.whole);
        let depends = change_has_types(!self.settings.object, &old, &new);
        let is_left = children_are_left_out(&old.dacl, &new.dacl);
        let last = self.last_lines(&old, &new, depends, is_left)?;
        let marks = self.marks_of(&old.dacl, &new.dacl)?;
        let plain_old = self.with_copies(&marks, plain_old)?;
        let plain_new = self.with_copies(&marks, plain_new)?;
        let handed = self.handed_in(is_left, &old.dacl, &new.dacl)?;
        let handed = handed.as_ref();
        let answer = self.compare_with_base(plain_old, plain_new, &marks, handed, last, words)?;
        note_types(self.alloc, self.settings, depends, answer)
    }

    /// Whether the label is another, and what of the SACLs, of types and of children is left out.
    fn last_lines(
        &self,
        old: &WholeDescriptor,
        new: &WholeDescriptor,
        depends: bool,
        is_left: bool,
    ) -> Result<Vec<Line>, AllocError>
        ensures { IfOk result (λ lines. AreLastLines self.now.settings.now depends is_left old.now new.now
            lines.items) }
    {
        let (alloc, settings) = (self.alloc, self.settings);
        let limited = change_has_limits(alloc, !settings.object, old, new)?;
        let mut last = label_changes(alloc, old, new)?;
        let mut limits = sacl_left_out(alloc, limited)?;
        let mut types = types_left_out(alloc, settings, depends)?;
        let mut children = children_left_out(alloc, !settings.object && is_left)?;
        last.append(&mut limits)?;
        last.append(&mut types)?;
        last.append(&mut children)?;
        Ok(last)
    }
}
