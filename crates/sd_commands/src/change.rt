//! The answers to `replace`, `remove`, `protect` and `unprotect`: whole descriptors after a change.
ghost use Rattle.std.specs.Prelude.{◌≡◌, IfOk, string_bytes};
ghost use Rattle.sd_commands.specs.Answer.{answer_of};
ghost use Rattle.sd_commands.specs.Change.{AnswersAfter, AnswersAsGiven, AnswersChange, AnswersChangeOf};
ghost use Rattle.sd_commands.specs.Change.{AnswersChanged, AnswersConcerned, inside_reason, place_left, room_reason};
ghost use Rattle.sd_commands.specs.Change.{AnswersRemoval, AnswersReplacement, AnswersReplacementOf, stays_note};
ghost use Rattle.sd_commands.specs.Change.{trustees_note};

use crate::command_answer::{Answer, Answered};
use crate::descriptor::missing_dacl;
use crate::diagnostic::told_line;
use crate::settings::CommandContext;
use crate::whole::{acl_name, entry_place, told_before};
use crate::words::argument;
use sd_change::{Change, ChangeError, EntryPlace, Inherited, first_inside, is_trustee};
use sd_line::Line;
use sd_sid::Sid;
use sd_text::{TextError, read_sid_text_in};
use sd_usage::ChangeCommand;
use sd_whole::WholeDescriptor;
use sd_whole_parse::read_whole_sddl;
use sd_whole_text::AclKind;
use std::alloc::{AllocError, Global};

impl CommandContext<'_> {
    /// The descriptor that the text is, after the change that the command and the arguments name ([MS-DTYP] 2.5.1.1).
    pub(crate) fn change(&self, question: ChangeCommand, sddl: &str, arguments: &[&str]) -> Answered
        ensures { IfOk result (λ answer. AnswersChange self.now.settings.now question sddl.now arguments.now
            (answer_of answer)) }
    {
        match read_whole_sddl(self.alloc, self.settings.aliases, sddl) {
            Ok(descriptor) => self.change_of(question, sddl, arguments, &descriptor),
            Err(TextError::Fault { fault, place }) => self.sddl_fault("SDDL", sddl, fault, place),
            Err(TextError::Memory) => Err(AllocError),
        }
    }

    fn change_of(
        &self,
        question: ChangeCommand,
        sddl: &str,
        arguments: &[&str],
        descriptor: &WholeDescriptor,
    ) -> Answered
        ensures { IfOk result (λ answer. AnswersChangeOf self.now.settings.now question sddl.now arguments.now
            descriptor.now (answer_of answer)) }
    {
        match question {
            ChangeCommand::Replace => self.replace(sddl, arguments, descriptor),
            ChangeCommand::Remove => self.remove(sddl, arguments, descriptor),
            ChangeCommand::Protect => {
                self.changed(sddl, descriptor, &Change::Protect(Inherited::Kept))
            }
            ChangeCommand::Unprotect => self.changed(sddl, descriptor, &Change::Unprotect),
        }
    }

    /// The arguments are the SID that is replaced, and the one in its place.
    fn replace(&self, sddl: &str, arguments: &[&str], descriptor: &WholeDescriptor) -> Answered
        ensures { IfOk result (λ answer. AnswersReplacement self.now.settings.now sddl.now arguments.now
            descriptor.now (answer_of answer)) }
    {
        let old = argument(arguments, 0);
        match read_sid_text_in(self.settings.aliases, old) {
            Ok(sid) => self.replace_sid(sddl, arguments, descriptor, sid),
            Err(error) => self.text_fault("sid", "OLD", old, error),
        }
    }

    fn replace_sid(
        &self,
        sddl: &str,
        arguments: &[&str],
        descriptor: &WholeDescriptor,
        old: Sid,
    ) -> Answered
        ensures { IfOk result (λ answer. AnswersReplacementOf self.now.settings.now sddl.now arguments.now
            descriptor.now old (answer_of answer)) }
    {
        let text = argument(arguments, 1);
        match read_sid_text_in(self.settings.aliases, text) {
            Ok(new) => self.changed(sddl, descriptor, &Change::Replace { old, new }),
            Err(error) => self.text_fault("sid", "NEW", text, error),
        }
    }

    /// The argument is the SID whose entries go.
    fn remove(&self, sddl: &str, arguments: &[&str], descriptor: &WholeDescriptor) -> Answered
        ensures { IfOk result (λ answer. AnswersRemoval self.now.settings.now sddl.now arguments.now
            descriptor.now (answer_of answer)) }
    {
        let text = argument(arguments, 0);
        match read_sid_text_in(self.settings.aliases, text) {
            Ok(sid) => self.changed(sddl, descriptor, &Change::Remove { sid }),
            Err(error) => self.text_fault("sid", "SID", text, error),
        }
    }

    /// The descriptor after the change, unless that leaves the SID in the data of an entry.
    fn changed(&self, sddl: &str, descriptor: &WholeDescriptor, change: &Change) -> Answered
        ensures { IfOk result (λ answer. AnswersChanged self.now.settings.now sddl.now descriptor.now change.now
            (answer_of answer)) }
    {
        match place_left(change, descriptor) {
            Some(place) => {
                let reason = inside_reason(self.alloc, place)?;
                self.fault("inside", "SDDL", reason.as_str())
            }
            None => {
                let note = trustees_note(self.alloc, change, descriptor)?;
                let answer = self.changed_or_given(sddl, descriptor, change)?;
                told_before(note, answer)
            }
        }
    }

    /// The text of the descriptor after the change, or this one where it stays as it is.
    fn changed_or_given(
        &self,
        sddl: &str,
        descriptor: &WholeDescriptor,
        change: &Change,
    ) -> Answered
        ensures { IfOk result (λ answer. AnswersConcerned self.now.settings.now sddl.now change.now descriptor.now
            (answer_of answer)) }
    {
        if change.concerns(descriptor) {
            self.after(descriptor, change)
        } else {
            self.as_given(sddl, descriptor)
        }
    }

    fn after(&self, descriptor: &WholeDescriptor, change: &Change) -> Answered
        ensures { IfOk result (λ answer. AnswersAfter self.now.settings.now change.now descriptor.now
            (answer_of answer)) }
    {
        match change.apply(self.alloc, descriptor) {
            Ok(after) => self.print_all("SDDL", &after),
            Err(ChangeError::TooLarge(kind)) => {
                let reason = room_reason(self.alloc, kind)?;
                self.fault("noroom", "SDDL", reason.as_str())
            }
            Err(ChangeError::Memory) => Err(AllocError),
        }
    }

    /// The text as it is, if its descriptor has the list that is required.
    fn as_given(&self, sddl: &str, descriptor: &WholeDescriptor) -> Answered
        ensures { IfOk result (λ answer. AnswersAsGiven self.now.settings.now sddl.now descriptor.now
            (answer_of answer)) }
    {
        match missing_dacl(self.settings, &descriptor.dacl) {
            None => {
                let text = String::from_str(self.alloc, sddl)?;
                Answer::line(self.alloc, Line::text(self.alloc, text)?)
            }
            Some(missing) => self.fault("nodacl", "SDDL", missing),
        }
    }
}

/// The first entry that has in its data the SID that the change takes away.
fn place_left(change: &Change, descriptor: &WholeDescriptor) -> Option<EntryPlace>
    ensures { result ≡ place_left change.now descriptor.now }
{
    match change {
        Change::Replace { old, .. } => first_inside(old, descriptor),
        Change::Remove { sid } => first_inside(sid, descriptor),
        Change::Protect(_) | Change::Unprotect => None,
    }
}

fn inside_reason(alloc: Global, place: EntryPlace) -> Result<String, AllocError>
    ensures { IfOk result (λ reason. string_bytes reason ≡ inside_reason place) }
{
    let place = entry_place(alloc, place.acl, place.entry)?;
    let place = place.as_str();
    format!(in alloc; "the SID is in the condition, the claim or the bytes of an entry{place}")
}

fn room_reason(alloc: Global, kind: AclKind) -> Result<String, AllocError>
    ensures { IfOk result (λ reason. string_bytes reason ≡ room_reason kind) }
{
    let acl = acl_name(kind);
    format!(in alloc; "the {acl} would take more than 65535 bytes")
}

/// That a removed SID stays the owner or the group.
fn trustees_note(
    alloc: Global,
    change: &Change,
    descriptor: &WholeDescriptor,
) -> Result<String, AllocError>
    ensures { IfOk result (λ note. string_bytes note ≡ trustees_note change.now descriptor.now) }
{
    let Change::Remove { sid } = change else {
        return Ok(String::new(alloc));
    };
    let mut note = stays_note(alloc, "owner", is_trustee(sid, &descriptor.owner))?;
    let of_group = stays_note(alloc, "group", is_trustee(sid, &descriptor.group))?;
    note.push_str(of_group.as_str())?;
    Ok(note)
}

fn stays_note(alloc: Global, who: &str, stays: bool) -> Result<String, AllocError>
    ensures { IfOk result (λ note. string_bytes note ≡ stays_note who.now stays) }
{
    if !stays {
        return Ok(String::new(alloc));
    }
    let what = format!(in alloc; "the SID stays the {who}")?;
    told_line(alloc, "SDDL", what.as_str())
}
