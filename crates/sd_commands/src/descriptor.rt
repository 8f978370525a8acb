//! The descriptor that an argument's text is, or the plain part of it where whole descriptors are taken.
ghost use Rattle.std.specs.Prelude.{◌≡◌, IfOk, option_map, string_bytes};
ghost use Rattle.sd_commands.specs.Required.{missing_dacl};
ghost use Rattle.sd_commands.specs.Answer.{IsTold, answer_of};
ghost use Rattle.sd_commands.specs.CommandAnswer.{IsGiven};
ghost use Rattle.sd_commands.specs.Diagnostic.{all_left_out, object_note, sacl_note, told_line};
ghost use Rattle.sd_commands.specs.Whole.{IsEntryFault, told_odd};

use crate::command_answer::{Answer, Answered, fault_told};
use crate::diagnostic::told_line;
use crate::settings::{CommandContext, Settings};
use crate::whole::{entry_place, told_before};
use sd_acl::DaclOf;
use sd_answer::entry_fault_line;
use sd_whole::{OddEntry, PlainPart};
use sd_whole_parse::{PartError, read_sddl_part};
use sd_whole_text::AclKind;
use std::alloc::{AllocError, Global};

/// What an argument is.
#[derive(Drop)]
pub(crate) enum Given {
    Descriptor(PlainPart),
    /// None that is taken, and this is the answer.
    Refused(Answer),
}

impl CommandContext<'_> {
    /// What the argument of this name is ([MS-DTYP] 2.5.1.1).
    pub(crate) fn read_argument(&self, name: &str, sddl: &str) -> Result<Given, AllocError>
        ensures { IfOk result (IsGiven name.now self.now.settings.now sddl.now) }
    {
        let (known, whole) = (self.settings.aliases, self.settings.whole);
        let part = match read_sddl_part(self.alloc, known, whole, sddl) {
            Ok(part) => part,
            Err(PartError::Fault { fault, place }) => {
                return Ok(Given::Refused(self.sddl_fault(name, sddl, fault, place)?));
            }
            Err(PartError::Odd(odd)) => return Ok(Given::Refused(self.entry_fault(name, odd)?)),
            Err(PartError::Memory) => return Err(AllocError),
        };
        match missing_dacl(self.settings, &part.descriptor.dacl) {
            None => Ok(Given::Descriptor(part)),
            Some(missing) => {
                let answer = self.fault("nodacl", name, missing)?;
                let answer = note_left_out_sacl(self.alloc, name, part.left_out, answer)?;
                Ok(Given::Refused(answer))
            }
        }
    }

    /// The answer to a descriptor, the argument of this name, with an entry that no question takes.
    pub(crate) fn entry_fault(&self, name: &str, odd: OddEntry) -> Answered
        ensures { IfOk result (λ answer. IsEntryFault name.now odd (answer_of answer)) }
    {
        let what = odd_reason(self.alloc, odd)?;
        let told = told_line(self.alloc, name, what.as_str())?;
        let line = entry_fault_line(self.alloc, odd.entry as u64, odd.kind.name())?;
        fault_told(self.alloc, line, told)
    }
}

/// What an entry is that no question takes, by number and name, and which one it is.
fn odd_reason(alloc: Global, odd: OddEntry) -> Result<String, AllocError>
    ensures { IfOk result (λ text. string_bytes text ≡ told_odd odd) }
{
    let place = entry_place(alloc, AclKind::Dacl, odd.entry)?;
    let number = odd.kind.number();
    let name = odd.kind.name();
    let reason = format!(in alloc; "{number} {name}{place}")?;
    Ok(reason)
}

/// What the DACL is in place of a list, where a list is required ([MS-DTYP] 2.5.3.2: without one everything is
/// granted).
pub(crate) fn missing_dacl<L>(settings: &Settings, dacl: &DaclOf<L>) -> Option<&'static str>
    ensures { option_map (λ text. text.now) result ≡ missing_dacl settings.now.require_dacl dacl.now }
{
    match dacl {
        DaclOf::Absent if settings.require_dacl => Some("no DACL"),
        DaclOf::Null if settings.require_dacl => Some("a null DACL"),
        _ => None,
    }
}

/// What of a SACL a question leaves out: all of it, or all but the label.
pub(crate) const ALL_LEFT_OUT: &str = "the SACL is left out";

pub(crate) const ALL_BUT_LABEL: &str = "of the SACL only the label is looked at";

/// The answer, and before what else standard error says, that a SACL was left out of the argument, where one was.
#[inline(always)]
pub(crate) fn note_left_out_sacl(
    alloc: Global,
    name: &str,
    left_out: bool,
    answer: Answer,
) -> Answered
    ensures { IfOk result
        (λ noted. IsTold (sacl_note name.now all_left_out left_out) (answer_of answer) (answer_of noted)) }
{
    note_sacl(alloc, name, ALL_LEFT_OUT, left_out, answer)
}

/// The answer, and before what else standard error says, what was left out of the argument's SACL, where there is one.
#[inline(always)]
#[tactic(auto, unfolding(crate::specs::Answer::IsTold))]
pub(crate) fn note_sacl(
    alloc: Global,
    name: &str,
    what: &str,
    is_there: bool,
    answer: Answer,
) -> Answered
    ensures { IfOk result
        (λ noted. IsTold (sacl_note name.now what.now is_there) (answer_of answer) (answer_of noted)) }
{
    if is_there {
        note_before(alloc, name, what, answer)
    } else {
        Ok(answer)
    }
}

/// The answer, and before what else standard error says, this of the argument.
fn note_before(alloc: Global, name: &str, what: &str, answer: Answer) -> Answered
    ensures { IfOk result
        (λ noted. IsTold (told_line name.now what.now) (answer_of answer) (answer_of noted)) }
{
    told_before(told_line(alloc, name, what)?, answer)
}

/// The answer, and before what else standard error says, that OI or CI of entries were left out, where they were.
#[tactic(auto, unfolding(crate::specs::Answer::IsTold))]
pub(crate) fn note_object(alloc: Global, left_out: bool, answer: Answer) -> Answered
    ensures { IfOk result (λ noted. IsTold (object_note left_out) (answer_of answer) (answer_of noted)) }
{
    if !left_out {
        return Ok(answer);
    }
    let what = "what entries pass on to what is made in a container is left out";
    note_before(alloc, "--object", what, answer)
}
