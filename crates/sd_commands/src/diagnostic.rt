//! What standard error says beside an answer: which argument isn't read, and why.
ghost use Rattle.std.specs.Prelude.{◌≡◌, ◌<◌, ◌^◌, ◌++◌, IfOk, string_bytes};
ghost use Rattle.sd_commands.specs.Pointer.{pointed};
ghost use Rattle.sd_commands.specs.Diagnostic.{IsSidReason, IsStateReason, IsWordReason, at_byte};
ghost use Rattle.sd_commands.specs.Diagnostic.{fault_name, fault_text, sddl_fault_text, sid_of, told_line};
ghost use Rattle.sd_commands.specs.Diagnostic.{word_argument};

use crate::escaped::escaped_word;
use crate::kinds::kind_note;
use crate::pointer::with_pointer;
use crate::settings::CommandContext;
use sd_text::{Aliases, TextError, TextFault, read_sid_text_in};
use std::alloc::{AllocError, Global};

/// The line that tells what is wrong with an argument, as `sdstore: MASK: 1 Syntax at 2`. The only error is out of
/// memory.
pub fn told_line(alloc: Global, argument: &str, what: &str) -> Result<String, AllocError>
    ensures { IfOk result (λ text. string_bytes text ≡ told_line argument.now what.now) }
{
    let text = format!(in alloc; "sdstore: {argument}: {what}\n")?;
    Ok(text)
}

/// A fault by number and name, and its byte.
fn fault_name(alloc: Global, fault: TextFault, place: u64) -> Result<String, AllocError>
    ensures { IfOk result (λ text. string_bytes text ≡ fault_name fault place) }
{
    let number = fault.number();
    let name = fault.name();
    let text = format!(in alloc; "{number} {name} at {place}")?;
    Ok(text)
}

/// A text's fault by number and name, and its offset in bytes; with `points` two more lines show the text there.
pub(crate) fn fault_text(
    alloc: Global,
    points: bool,
    text: &str,
    fault: TextFault,
    place: u64,
) -> Result<String, AllocError>
    ensures { IfOk result (λ what. string_bytes what ≡ fault_text points text.now fault place) }
{
    let what = fault_name(alloc, fault, place)?;
    with_pointer(alloc, points, text, place as usize, what)
}

/// A fault of an SDDL text: number, name, offset in bytes, the kind of an entry that isn't supported, and with `points`
/// two more lines that show the text there.
pub(crate) fn sddl_fault_text(
    alloc: Global,
    points: bool,
    sddl: &str,
    fault: TextFault,
    place: u64,
) -> Result<String, AllocError>
    ensures { IfOk result (λ what. string_bytes what ≡ sddl_fault_text points sddl.now fault place) }
{
    let mut what = fault_name(alloc, fault, place)?;
    let note = kind_note(alloc, sddl, fault, place)?;
    what.push_str(note.as_str())?;
    with_pointer(alloc, points, sddl, place as usize, what)
}

/// What is wrong with a text and at which byte, and where that is asked for, the text there.
pub(crate) fn text_at_byte(
    alloc: Global,
    points: bool,
    text: &str,
    what: &str,
    place: usize,
) -> Result<String, AllocError>
    ensures { IfOk result
        (λ said. string_bytes said ≡ at_byte what.now place ++ pointed points text.now place) }
{
    let said = at_byte(alloc, what, place)?;
    with_pointer(alloc, points, text, place, said)
}

fn at_byte(alloc: Global, what: &str, place: usize) -> Result<String, AllocError>
    ensures { IfOk result (λ said. string_bytes said ≡ at_byte what.now place) }
{
    let said = format!(in alloc; "{what} at {place}")?;
    Ok(said)
}

/// Why a text isn't what it should be: the first fault of its SID ([MS-DTYP] 2.4.2.1), or where it is one, that it
/// isn't a fit one. With `points`, the text stands below its fault. The only error is out of memory.
pub fn sid_reason(
    alloc: Global,
    points: bool,
    known: Aliases,
    unfit: &str,
    text: &str,
) -> Result<String, AllocError>
    ensures { IfOk result (λ reason. IsSidReason points known unfit.now text.now (string_bytes reason)) }
{
    match read_sid_text_in(known, text) {
        Ok(_) => String::from_str(alloc, unfit),
        Err(TextError::Fault { fault, place }) => fault_text(alloc, points, text, fault, place),
        Err(TextError::Memory) => Err(AllocError),
    }
}

impl CommandContext<'_> {
    /// Why a text is no word.
    pub(crate) fn word_reason(&self, word: &str) -> Result<String, AllocError>
        ensures { IfOk result (λ reason. IsWordReason self.now.settings.now.points self.now.settings.now.aliases
            word.now (string_bytes reason)) }
    {
        if matches!(word.as_bytes(), [b'+', ..]) {
            return String::from_str(self.alloc, "no such privilege");
        }
        self.state_reason(word)
    }

    /// Why a text is no SID with a state.
    pub(crate) fn state_reason(&self, word: &str) -> Result<String, AllocError>
        ensures { IfOk result (λ reason. IsStateReason self.now.settings.now.points self.now.settings.now.aliases
            word.now (string_bytes reason)) }
    {
        let (points, known) = (self.settings.points, self.settings.aliases);
        sid_reason(self.alloc, points, known, "no such state", sid_of(word))
    }
}

fn sid_of(word: &str) -> &str
    ensures { result.now ≡ sid_of word.now }
{
    match word.split_once('=') {
        Some((sid, _)) => sid,
        None => word,
    }
}

/// Which WORD it is, at this place counted from 0, and what it says.
pub(crate) fn word_argument(alloc: Global, place: usize, word: &str) -> Result<String, AllocError>
    requires { place < 2 ^ 63 }
    ensures { IfOk result (λ text. string_bytes text ≡ word_argument place word.now) }
{
    let number = place + 1;
    let shown = escaped_word(alloc, word)?;
    let shown = shown.as_str();
    let text = format!(in alloc; "WORD {number}, \"{shown}\"")?;
    Ok(text)
}
