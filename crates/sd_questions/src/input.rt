//! The answer to the one text that an input is, in UTF-8, or in UTF-16 after a byte order mark.
ghost use Rattle.std.specs.Prelude.{◌≡◌, IfOk};
ghost use Rattle.sd_commands.specs.Answer.{answer_of};
ghost use Rattle.sd_lines.specs.Decoder.{decoded};
ghost use Rattle.sd_questions.specs.TextAnswer.{AnswersInput, IsInputFault};
ghost use Rattle.sd_arguments.specs.CommandLine.{request_of};
ghost use Rattle.sd_questions.specs.Input.{is_blank, is_utf16, without_end};

use crate::advised::advised;
use sd_arguments::TextRequest;
use sd_commands::{Answer, Settings, fault, told_line};
use sd_lines::{Decoder, without_return};
use std::alloc::{AllocError, Global};
use std::str::from_utf8;

/// The answer of a command to the text that the input is: one line end at its end is no part of it, and a blank text is
/// a fault. The only error is out of memory.
pub(crate) fn answer_input(
    alloc: Global,
    settings: &Settings,
    request: TextRequest<'_>,
    input: &[u8],
) -> Result<Answer, AllocError>
    ensures { IfOk result
        (λ answer. AnswersInput settings.now (request_of request.entry) input.now (answer_of answer)) }
{
    let bytes = decoded(alloc, input)?;
    match from_utf8(without_end(&bytes)) {
        Ok(text) if is_blank(text.as_bytes()) => input_fault(alloc, "blank", "blank"),
        Ok(text) => advised(alloc, settings, request, text),
        Err(_) if is_utf16(input) => input_fault(alloc, "utf16", "not UTF-16"),
        Err(_) => input_fault(alloc, "utf8", "not UTF-8"),
    }
}

/// The text of the input, and what is no character in it.
fn decoded(alloc: Global, input: &[u8]) -> Result<Vec<u8>, AllocError>
    ensures { IfOk result (λ text. text.items ≡ decoded input.now) }
{
    let mut decoder = Decoder::new(alloc);
    let mut text = Vec::new(alloc);
    decoder.decode(alloc, input, &mut text)?;
    decoder.end(&mut text)?;
    Ok(text)
}

/// The answer to an input that is no text for a command.
fn input_fault(alloc: Global, name: &str, reason: &str) -> Result<Answer, AllocError>
    ensures { IfOk result (λ answer. IsInputFault name.now reason.now (answer_of answer)) }
{
    fault(alloc, name, told_line(alloc, "standard input", reason)?)
}

/// Whether a byte order mark says UTF-16 (RFC 2781, section 3.2).
fn is_utf16(input: &[u8]) -> bool
    ensures { result ≡ is_utf16 input.now }
{
    matches!(input, [0xff, 0xfe, ..] | [0xfe, 0xff, ..])
}

/// The text without one line feed at its end, and one carriage return before that.
fn without_end(text: &[u8]) -> &[u8]
    ensures { result.now ≡ without_end text.now }
{
    match text {
        [front @ .., b'\n'] => without_return(front),
        _ => text,
    }
}

/// Whether the text has nothing but white space.
pub(crate) fn is_blank(text: &[u8]) -> bool
    ensures { result ≡ is_blank text.now }
{
    text.iter()
        .all(|byte| matches!(byte, b'\t' | b'\n' | b'\r' | b' '))
}
