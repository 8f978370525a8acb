//! The answers of `--whole`: descriptors with a SACL, and with entries of every type ([MS-DTYP] 2.4.4 to 2.4.6).
ghost use Rattle.std.specs.Prelude.{◌≡◌, IfOk, string_bytes};
ghost use Rattle.sd_line.specs.Spelling.{right_names_of};
ghost use Rattle.sd_whole_text.specs.Descriptor.{whole_text};
ghost use Rattle.sd_commands.specs.Answer.{IsTold, answer_of};
ghost use Rattle.sd_commands.specs.FromBinary.{AnswersWhole};
ghost use Rattle.sd_commands.specs.Whole.{AnswersHeader, left_out_names, left_out_note};
ghost use Rattle.sd_commands.specs.Whole.{AnswersText, PrintsWhole, WritesWhole};
ghost use Rattle.sd_commands.specs.Whole.{acl_name, entry_place, no_text_line, no_text_place};
ghost use Rattle.sd_commands.specs.Whole.{takes_whole, told_no_text};
ghost use Rattle.sd_commands.specs.WholeText.{AnswersWholeOn, AnswersWholeText};

use crate::command_answer::{Answer, Answered, fault_told};
use crate::convert::wire_fault;
use crate::descriptor::missing_dacl;
use crate::diagnostic::told_line;
use crate::settings::CommandContext;
use sd_answer::FAULT_NAMED;
use sd_line::{Line, Value};
use sd_text::{TextError, write_where};
use sd_usage::DescriptorCommand;
use sd_whole::{WholeDescriptor, read_whole, write_whole};
use sd_whole_parse::read_whole_sddl;
use sd_whole_text::{AclKind, NoText, WholeTextError, print_whole};
use sd_wire::{WireError, has_bits};
use std::alloc::{AllocError, Global};

/// The control bits that a word of SDDL says: P, AR and AI of both lists ([MS-DTYP] 2.4.6).
pub(crate) const WORDED_BITS: u16 = 0xbf14;

impl CommandContext<'_> {
    /// All that the bytes hold ([MS-DTYP] 2.4.6), if it has the list that is required.
    pub(crate) fn answer_whole(&self, bytes: &[u8]) -> Answered
        ensures { IfOk result (λ answer. AnswersWhole self.now.settings.now bytes.now (answer_of answer)) }
    {
        match read_whole(self.alloc, bytes) {
            Ok(descriptor) => self.print_held(descriptor),
            Err(WireError::Fault(fault)) => wire_fault(self.alloc, bytes, fault),
            Err(WireError::Memory) => Err(AllocError),
        }
    }

    /// The text of the descriptor that bytes held; `--without-bits` leaves out what of its header has none.
    fn print_held(&self, mut descriptor: WholeDescriptor) -> Answered
        ensures { IfOk result (λ answer. AnswersHeader self.now.settings.now descriptor (answer_of answer)) }
    {
        if !self.settings.without_bits {
            return self.print_all("BYTES", &descriptor);
        }
        let names = left_out_names(self.alloc, &descriptor)?;
        let note = left_out_note(self.alloc, names.as_str())?;
        descriptor.control &= WORDED_BITS;
        descriptor.resource_manager = 0;
        let answer = self.print_all("BYTES", &descriptor)?;
        told_before(note, answer)
    }

    /// The answer of `print` or `tobin` to a text, with all that it says ([MS-DTYP] 2.5.1.1).
    pub(crate) fn answer_whole_text(&self, question: DescriptorCommand, sddl: &str) -> Answered
        ensures { IfOk result (λ answer. AnswersWholeText self.now.settings.now question sddl.now (answer_of answer)) }
    {
        match read_whole_sddl(self.alloc, self.settings.aliases, sddl) {
            Ok(descriptor) => self.answer_all(question, descriptor),
            Err(TextError::Fault { fault, place }) => self.sddl_fault("SDDL", sddl, fault, place),
            Err(TextError::Memory) => Err(AllocError),
        }
    }

    fn answer_all(&self, question: DescriptorCommand, descriptor: WholeDescriptor) -> Answered
        ensures { IfOk result (λ answer. AnswersWholeOn self.now.settings.now question descriptor (answer_of answer)) }
    {
        match question {
            DescriptorCommand::ToBinary => self.write_all("SDDL", &descriptor),
            DescriptorCommand::Sort => self.sort_all(descriptor),
            _ => self.print_all("SDDL", &descriptor),
        }
    }

    /// The self-relative form in hexadecimal of the descriptor, which is the argument of this name, if it has the list
    /// that is required.
    fn write_all(&self, name: &str, descriptor: &WholeDescriptor) -> Answered
        ensures { IfOk result (λ answer. WritesWhole name.now self.now.settings.now descriptor.now (answer_of answer)) }
    {
        match missing_dacl(self.settings, &descriptor.dacl) {
            None => {
                let bytes = write_whole(self.alloc, descriptor)?;
                let text = hex::encode(self.alloc, bytes.as_slice())?;
                Answer::line(self.alloc, Line::text(self.alloc, text)?)
            }
            Some(missing) => self.fault("nodacl", name, missing),
        }
    }

    /// The text of the descriptor, which is the argument of this name, if it has the list that is required.
    pub(crate) fn print_all(&self, name: &str, descriptor: &WholeDescriptor) -> Answered
        ensures { IfOk result (λ answer. PrintsWhole name.now self.now.settings.now descriptor.now (answer_of answer)) }
    {
        match missing_dacl(self.settings, &descriptor.dacl) {
            None => self.whole_text(name, descriptor),
            Some(missing) => self.fault("nodacl", name, missing),
        }
    }

    /// The text of the descriptor, or the first part that has none.
    fn whole_text(&self, name: &str, descriptor: &WholeDescriptor) -> Answered
        ensures { IfOk result (λ answer. AnswersText name.now
            (whole_text (right_names_of self.now.settings.now.spelling) descriptor.now) (answer_of answer)) }
    {
        let names = self.settings.spelling.right_names();
        match print_whole(self.alloc, names, descriptor) {
            Ok(text) => Answer::line(self.alloc, Line::text(self.alloc, text)?),
            Err(WholeTextError::NoText(why)) => {
                let reason = no_text_reason(self.alloc, why)?;
                let told = told_line(self.alloc, name, reason.as_str())?;
                fault_told(self.alloc, no_text_line(self.alloc, why)?, told)
            }
            Err(WholeTextError::Memory) => Err(AllocError),
        }
    }
}

/// What of the header SDDL has no word for: control bits, and the resource manager's byte ([MS-DTYP] 2.4.6).
fn left_out_names(alloc: Global, d: &WholeDescriptor) -> Result<String, AllocError>
    ensures { IfOk result (λ names. string_bytes names ≡ left_out_names d.now) }
{
    let mut names = String::new(alloc);
    write_where(&mut names, has_bits(d.control, 0x0001), " OD")?;
    write_where(&mut names, has_bits(d.control, 0x0002), " GD")?;
    write_where(&mut names, has_bits(d.control, 0x0008), " DD")?;
    write_where(&mut names, has_bits(d.control, 0x0020), " SD")?;
    write_where(&mut names, has_bits(d.control, 0x0040), " SS")?;
    write_where(&mut names, has_bits(d.control, 0x0080), " DT")?;
    write_where(&mut names, has_bits(d.control, 0x4000), " RM")?;
    write_where(&mut names, d.resource_manager != 0, " Sbz1")?;
    Ok(names)
}

/// What standard error says of them.
fn left_out_note(alloc: Global, names: &str) -> Result<String, AllocError>
    ensures { IfOk result (λ note. string_bytes note ≡ left_out_note names.now) }
{
    if names.is_empty() {
        return Ok(String::new(alloc));
    }
    let what = format!(in alloc; "left out:{names}")?;
    told_line(alloc, "BYTES", what.as_str())
}

/// The answer, and before what else standard error says, this note.
#[tactic(auto, unfolding(crate::specs::Answer::IsTold))]
pub(crate) fn told_before(mut note: String, mut answer: Answer) -> Answered
    ensures { IfOk result (λ told. IsTold (string_bytes note) (answer_of answer) (answer_of told)) }
{
    note.push_str(answer.told.as_str())?;
    answer.told = note;
    Ok(answer)
}

/// Whether the command looks at all that a whole descriptor has ([MS-DTYP] 2.5.1.1): it gives a verdict, compares two,
/// prints to whom rights are granted, but not of what is made below the object, or of an object and no container what
/// is doubtful, or prints, sorts or writes the descriptor.
pub fn takes_whole(below: bool, object: bool, question: DescriptorCommand) -> bool
    ensures { result ≡ takes_whole below object question }
{
    match question {
        DescriptorCommand::Who => !below,
        DescriptorCommand::Lint => object,
        _ => true,
    }
}

fn no_text_line(alloc: Global, why: NoText) -> Result<Line, AllocError>
    ensures { IfOk result (λ line. line ≡ no_text_line why) }
{
    let of = Value::word(alloc, "notext")?;
    let number = Value::Number(why.number() as u64);
    let name = Value::word(alloc, why.name())?;
    Line::new(alloc, FAULT_NAMED, vec![in alloc; of, number, name]?)
}

/// What has no text, and which part of the descriptor it is.
fn no_text_reason(alloc: Global, why: NoText) -> Result<String, AllocError>
    ensures { IfOk result (λ text. string_bytes text ≡ told_no_text why) }
{
    let place = no_text_place(alloc, why)?;
    let number = why.number();
    let name = why.name();
    let reason = format!(in alloc; "{number} {name}{place}")?;
    Ok(reason)
}

fn no_text_place(alloc: Global, why: NoText) -> Result<String, AllocError>
    ensures { IfOk result (λ text. string_bytes text ≡ no_text_place why) }
{
    match why {
        NoText::ResourceManager | NoText::Control => Ok(String::new(alloc)),
        NoText::Keywords(acl) => {
            let acl = acl_name(acl);
            format!(in alloc; " (the {acl})")
        }
        NoText::Opaque(acl, entry) | NoText::Kind(acl, entry) | NoText::Data(acl, entry) => {
            entry_place(alloc, acl, entry)
        }
    }
}

pub(crate) fn entry_place(alloc: Global, acl: AclKind, entry: usize) -> Result<String, AllocError>
    ensures { IfOk result (λ text. string_bytes text ≡ entry_place acl entry) }
{
    let acl = acl_name(acl);
    let place = format!(in alloc; " (entry {entry} of the {acl})")?;
    Ok(place)
}

pub(crate) fn acl_name(acl: AclKind) -> &'static str
    ensures { result.now ≡ acl_name acl }
{
    match acl {
        AclKind::Dacl => "DACL",
        AclKind::Sacl => "SACL",
    }
}
