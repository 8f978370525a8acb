//! The answers to `who` and `compare`: whom rights are granted to, and what a change of a descriptor grants and takes.
ghost use Rattle.std.specs.Prelude.{◌≡◌, ◌<◌, IfOk, length};
ghost use Rattle.sd_acl.specs.Descriptor.{descriptor_of};
ghost use Rattle.sd_answer.specs.Word.{IsFirstNoGroup, texts};
ghost use Rattle.sd_commands.specs.Analysis.{AreBelowLines, AreWhoLines};
ghost use Rattle.sd_commands.specs.Answer.{answer_of};
ghost use Rattle.sd_commands.specs.CommandAnswer.{AnswersComparison, AnswersOfBase, AnswersOn, IsHidden};
ghost use Rattle.sd_specialize.specs.Marked.{lent_marks};
ghost use Rattle.sd_commands.specs.CommandAnswer.{AnswersWho, AreOwnChanges, IsGroupFault, PrintsSeen, PrintsWho};
ghost use Rattle.sd_commands.specs.Handed.{lent_handed};

use crate::command_answer::{Answer, Answered, found};
use crate::conditions::hides;
use crate::descriptor::{Given, note_left_out_sacl, note_object};
use crate::handed::{Handed, marks_in};
use crate::object::{either_leaves_out, looked_at};
use crate::settings::CommandContext;
use crate::words::{argument, items_from};
use sd_acl::Descriptor;
use sd_analysis::{Base, compare, who, who_descendants};
use sd_answer::{
    SAME, TokenError, dacl_ref, descriptor_ref, entries_in, push_descendants_who,
    push_gains_and_losses, push_inheritance, read_base, rights_asked, who_lines,
};
use sd_check::GroupState;
use sd_line::{Line, read_mask_in};
use sd_sid::{Mask, Sid};
use sd_usage::DescriptorCommand;
use sd_whole::{PlainPart, TypedAce};
use std::alloc::AllocError;

impl CommandContext<'_> {
    /// Whom rights are granted to by a descriptor, in which markers stand for these conditions, and what is left out of
    /// that, where the mask and the base are the arguments; or the fault of the first from the left that is invalid.
    #[inline(never)]
    pub(crate) fn who(
        &self,
        descriptor: &Descriptor,
        marks: &[&TypedAce],
        left_out: Vec<Line>,
        arguments: &[&str],
    ) -> Answered
        ensures { IfOk result (λ answer. AnswersWho self.now.settings.now (lent_marks marks.now) left_out.items
            arguments.now (descriptor_of descriptor.now) (answer_of answer)) }
    {
        let mask = argument(arguments, 0);
        let asked = match read_mask_in(self.settings.spelling, mask) {
            Ok(asked) => asked,
            Err(error) => return self.text_fault("mask", "MASK", mask, error),
        };
        let words = items_from(arguments, 1);
        match read_base(self.alloc, self.settings.aliases, words) {
            Ok(groups) => self.who_has(descriptor, marks, left_out, asked, &groups),
            Err(TokenError::NoWord { place }) => self.group_fault(words, place),
            Err(TokenError::Memory) => Err(AllocError),
        }
    }

    fn who_has(
        &self,
        descriptor: &Descriptor,
        marks: &[&TypedAce],
        left_out: Vec<Line>,
        asked: Mask,
        groups: &[(Sid, GroupState)],
    ) -> Answered
        ensures { IfOk result (λ answer. PrintsWho self.now.settings.now (lent_marks marks.now) left_out.items asked
            (descriptor_of descriptor.now) groups.now (answer_of answer)) }
    {
        if hides(marks, groups) {
            return self.hidden();
        }
        let lines = self.lines_of_who(descriptor, asked, groups)?;
        let lines = self.shown_by(marks, lines)?;
        Answer::done_but(self.alloc, left_out, lines)
    }

    /// The answer to a base of which a SID is a marker.
    pub(crate) fn hidden(&self) -> Answered
        ensures { IfOk result (λ answer. IsHidden (answer_of answer)) }
    {
        self.fault("token", "GROUP", "its authority is that of conditions")
    }

    fn lines_of_who(
        &self,
        descriptor: &Descriptor,
        asked: Mask,
        groups: &[(Sid, GroupState)],
    ) -> Result<Vec<Line>, AllocError>
        ensures { IfOk result (λ lines. AreWhoLines self.now.settings.now asked (descriptor_of descriptor.now)
            groups.now lines.items) }
    {
        let (owner, dacl) = (descriptor.owner, dacl_ref(&descriptor.dacl));
        let (base, mapping) = (Base { groups }, &self.settings.mapping);
        let rights = rights_asked(mapping, asked);
        let accesses = who(self.alloc, owner, dacl, mapping, &base, rights)?;
        let mut lines = who_lines(self.alloc, &accesses)?;
        let mut below = self.below_lines(descriptor, &base, rights)?;
        if !lines.is_empty() {
            lines.append(&mut below)?;
        }
        Ok(lines)
    }

    /// Whom they are granted to of all that is made in it, if it is a container and that is asked for.
    fn below_lines(
        &self,
        descriptor: &Descriptor,
        base: &Base<'_>,
        rights: Mask,
    ) -> Result<Vec<Line>, AllocError>
        ensures { IfOk result (λ lines. AreBelowLines self.now.settings.now (descriptor_of descriptor.now) base.now
            rights lines.items) }
    {
        let mut lines = Vec::new(self.alloc);
        if !self.settings.below {
            return Ok(lines);
        }
        let entries = entries_in(&descriptor.dacl);
        let all = who_descendants(self.alloc, entries, &self.settings.mapping, base, rights)?;
        push_descendants_who(self.alloc, &mut lines, &all)?;
        Ok(lines)
    }

    /// The answer to words of which the one at the place is the first that is no group.
    pub(crate) fn group_fault(&self, words: &[&str], place: usize) -> Answered
        requires first { IsFirstNoGroup self.now.settings.now.aliases (texts words.now) place }
        requires within { place < length words.now }
        ensures { IfOk result (λ answer. IsGroupFault self.now.settings.now words.now (answer_of answer)) }
    {
        let word = argument(words, place);
        let reason = self.state_reason(word)?;
        self.token_fault(place, word, reason.as_str())
    }

    /// What tokens gain and lose where the new descriptor takes the place of the old one, where the new one and the
    /// base are the arguments; or the fault of the first from the left that is invalid.
    #[inline(never)]
    pub(crate) fn compare(&self, old: Descriptor, arguments: &[&str]) -> Answered
        ensures { IfOk result (λ answer. AnswersOn self.now.settings.now DescriptorCommand.Compare arguments.now
            (descriptor_of old) (answer_of answer)) }
    {
        let part = match self.read_argument("NEW", argument(arguments, 0))? {
            Given::Descriptor(part) => part,
            Given::Refused(answer) => return Ok(answer),
        };
        let PlainPart {
            descriptor,
            left_out,
        } = part;
        let words = items_from(arguments, 1);
        let last = Vec::new(self.alloc);
        let answer = self.compare_with_base(old, descriptor, &[], None, last, words)?;
        Ok(note_left_out_sacl(self.alloc, "NEW", left_out, answer)?)
    }

    /// The comparison for the base that the words are, where markers stand for these conditions, what is made in a
    /// container inherits from these entries, and these lines are at its end; or the fault of the first word that is no
    /// group.
    pub(crate) fn compare_with_base(
        &self,
        old: Descriptor,
        new: Descriptor,
        marks: &[&TypedAce],
        handed: Option<&Handed<'_>>,
        last: Vec<Line>,
        words: &[&str],
    ) -> Answered
        ensures { IfOk result (λ answer. AnswersOfBase self.now.settings.now words.now
            (AnswersComparison self.now.settings.now (lent_marks marks.now) (lent_handed handed.entry) last.items
            (descriptor_of old) (descriptor_of new)) (answer_of answer)) }
    {
        match read_base(self.alloc, self.settings.aliases, words) {
            Ok(groups) => self.comparison_seen(old, new, marks, handed, last, &groups),
            Err(TokenError::NoWord { place }) => self.group_fault(words, place),
            Err(TokenError::Memory) => Err(AllocError),
        }
    }

    /// What tokens gain and lose by the descriptors as they are looked at, and that something was left out of them,
    /// where it was; or that a SID of the base is a marker.
    fn comparison_seen(
        &self,
        old: Descriptor,
        new: Descriptor,
        marks: &[&TypedAce],
        handed: Option<&Handed<'_>>,
        last: Vec<Line>,
        groups: &[(Sid, GroupState)],
    ) -> Answered
        ensures { IfOk result (λ answer. AnswersComparison self.now.settings.now (lent_marks marks.now)
            (lent_handed handed.entry) last.items (descriptor_of old) (descriptor_of new) groups.now
            (answer_of answer)) }
    {
        if hides(marks_in(handed, marks), groups) {
            return self.hidden();
        }
        let (alloc, is_object) = (self.alloc, self.settings.object);
        let left_out = either_leaves_out(is_object, &old, &new);
        let old = looked_at(alloc, is_object, old)?;
        let new = looked_at(alloc, is_object, new)?;
        let answer = self.comparison(&old, &new, marks, handed, last, groups)?;
        note_object(alloc, left_out, answer)
    }

    fn comparison(
        &self,
        old: &Descriptor,
        new: &Descriptor,
        marks: &[&TypedAce],
        handed: Option<&Handed<'_>>,
        mut last: Vec<Line>,
        groups: &[(Sid, GroupState)],
    ) -> Answered
        ensures { IfOk result (λ answer. PrintsSeen self.now.settings.now (lent_marks marks.now)
            (lent_handed handed.entry) last.items (descriptor_of old.now) (descriptor_of new.now) groups.now
            (answer_of answer)) }
    {
        let base = Base { groups };
        let own = self.own_changes(old, new, &base)?;
        let mut lines = self.shown_by(marks, own)?;
        let mut below = self.changes_below(old, new, marks, handed, &base)?;
        lines.append(&mut below)?;
        push_inheritance(self.alloc, &mut lines, old.protected, new.protected)?;
        lines.append(&mut last)?;
        found(self.alloc, lines, SAME)
    }

    /// What tokens gain and lose of the object itself.
    fn own_changes(
        &self,
        old: &Descriptor,
        new: &Descriptor,
        base: &Base<'_>,
    ) -> Result<Vec<Line>, AllocError>
        ensures { IfOk result (λ lines. AreOwnChanges self.now.settings.now (descriptor_of old.now)
            (descriptor_of new.now) base.now lines.items) }
    {
        let (old, new) = (descriptor_ref(old), descriptor_ref(new));
        let comparison = compare(self.alloc, &old, &new, &self.settings.mapping, base)?;
        let mut lines = Vec::new(self.alloc);
        push_gains_and_losses(self.alloc, &mut lines, None, &old, &new, &comparison)?;
        Ok(lines)
    }
}
