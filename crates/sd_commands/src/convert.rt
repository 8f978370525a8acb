//! The answers to `print`, `tobin`, `frombin` and `sid`: a descriptor or a SID in another form.
ghost use Rattle.std.specs.Prelude.{◌≡◌, IfOk, codes, string_bytes};
ghost use Rattle.sd_acl.specs.Descriptor.{descriptor_of};
ghost use Rattle.hex.specs.Hex.{encode_lower};
ghost use Rattle.sd_wire.specs.Writing.{wire_of};
ghost use Rattle.sd_line.specs.Line.{text_line};
ghost use Rattle.sd_commands.specs.Diagnostic.{told_line, told_wire_fault};
ghost use Rattle.sd_commands.specs.Answer.{IsDone, IsFault, answer_of, descriptor_line, value_line, wire_fault_line};
ghost use Rattle.sd_commands.specs.CommandAnswer.{AnswersSid};
ghost use Rattle.sd_commands.specs.FromBinary.{AnswersBytes, AnswersFromBinary, AnswersHeld};

use crate::bytes::{BytesError, read_bytes};
use crate::command_answer::{Answer, Answered, fault_told, value_line};
use crate::descriptor::missing_dacl;
use crate::diagnostic::{text_at_byte, told_line};
use crate::kinds::wire_kind_note;
use crate::settings::CommandContext;
use sd_acl::Descriptor;
use sd_answer::FAULT_NAMED;
use sd_line::{Line, Value};
use sd_text::read_sid_text_in;
use sd_wire::{WireError, WireFault, read_descriptor, write_descriptor};
use std::alloc::{AllocError, Global};

impl CommandContext<'_> {
    /// A descriptor.
    #[inline(always)]
    pub(crate) fn print(&self, descriptor: Descriptor) -> Answered
        ensures { IfOk result (λ answer. IsDone (descriptor_line (descriptor_of descriptor)) (answer_of answer)) }
    {
        self.value(Value::descriptor(descriptor))
    }

    /// The answer that is this value.
    #[inline(always)]
    fn value(&self, value: Value) -> Answered
        ensures { IfOk result (λ answer. IsDone (value_line value) (answer_of answer)) }
    {
        Answer::line(self.alloc, value_line(self.alloc, value)?)
    }

    /// The self-relative form of a descriptor, in hexadecimal.
    #[inline(never)]
    pub(crate) fn to_binary(&self, descriptor: &Descriptor) -> Answered
        ensures { IfOk result (λ answer. IsDone (text_line (encode_lower (wire_of (descriptor_of descriptor.now))))
            (answer_of answer)) }
    {
        let bytes = write_descriptor(self.alloc, descriptor)?;
        let text = hex::encode(self.alloc, bytes.as_slice())?;
        Answer::line(self.alloc, Line::text(self.alloc, text)?)
    }

    /// The descriptor whose self-relative form the text spells in bytes.
    pub(crate) fn from_binary(&self, text: &str) -> Answered
        ensures { IfOk result (λ answer. AnswersFromBinary self.now.settings.now text.now (answer_of answer)) }
    {
        match read_bytes(self.alloc, self.settings.bytes, text) {
            Ok(bytes) => self.answer_bytes(bytes),
            Err(BytesError::NoBytes { what, place }) => {
                let reason = text_at_byte(self.alloc, self.settings.points, text, what, place)?;
                self.fault(self.settings.bytes.name(), "BYTES", reason.as_str())
            }
            Err(BytesError::Memory) => Err(AllocError),
        }
    }

    /// The descriptor whose self-relative form the bytes are ([MS-DTYP] 2.4.6): `--whole` takes all that it has.
    fn answer_bytes(&self, bytes: Vec<u8>) -> Answered
        ensures { IfOk result (λ answer. AnswersBytes self.now.settings.now bytes.items (answer_of answer)) }
    {
        if self.settings.whole {
            return self.answer_whole(&bytes);
        }
        self.answer_held(&bytes)
    }

    /// The descriptor that the bytes hold, if it has the list that is required.
    fn answer_held(&self, bytes: &[u8]) -> Answered
        ensures { IfOk result (λ answer. AnswersHeld self.now.settings.now bytes.now (answer_of answer)) }
    {
        match read_descriptor(self.alloc, bytes) {
            Ok(descriptor) => match missing_dacl(self.settings, &descriptor.dacl) {
                None => self.print(descriptor),
                Some(missing) => self.fault("nodacl", "BYTES", missing),
            },
            Err(WireError::Fault(fault)) => wire_fault(self.alloc, bytes, fault),
            Err(WireError::Memory) => Err(AllocError),
        }
    }

    /// The SID that a text in full or an alias spells ([MS-DTYP] 2.4.2.1).
    pub(crate) fn sid(&self, text: &str) -> Answered
        ensures { IfOk result (λ answer. AnswersSid self.now.settings.now text.now (answer_of answer)) }
    {
        match read_sid_text_in(self.settings.aliases, text) {
            Ok(sid) => self.value(Value::Sid(sid)),
            Err(error) => self.text_fault("sid", "SID", text, error),
        }
    }
}

/// The answer to bytes that hold no descriptor.
pub(crate) fn wire_fault(alloc: Global, bytes: &[u8], fault: WireFault) -> Answered
    ensures { IfOk result
        (λ answer. IsFault (wire_fault_line fault) (told_line (codes "BYTES") (told_wire_fault bytes.now fault))
        (answer_of answer)) }
{
    let what = wire_reason(alloc, bytes, fault)?;
    let told = told_line(alloc, "BYTES", what.as_str())?;
    fault_told(alloc, wire_fault_line(alloc, fault)?, told)
}

fn wire_fault_line(alloc: Global, fault: WireFault) -> Result<Line, AllocError>
    ensures { IfOk result (λ line. line ≡ wire_fault_line fault) }
{
    let of = Value::word(alloc, "wire")?;
    let number = Value::Number(fault.number() as u64);
    let name = Value::word(alloc, fault.name())?;
    Line::new(alloc, FAULT_NAMED, vec![in alloc; of, number, name]?)
}

/// The first test that the bytes don't pass, and which entry and which kind it is that isn't taken.
fn wire_reason(alloc: Global, bytes: &[u8], fault: WireFault) -> Result<String, AllocError>
    ensures { IfOk result (λ what. string_bytes what ≡ told_wire_fault bytes.now fault) }
{
    let note = wire_kind_note(alloc, bytes, fault)?;
    let number = fault.number();
    let name = fault.name();
    let what = format!(in alloc; "{number} {name}{note}")?;
    Ok(what)
}
