//! The answer of a command to a text, where what is asked can be answered at all.
ghost use Rattle.std.specs.Prelude.{◌≡◌, ◌==◌, ◌&&◌, IfOk, length, option_map};
ghost use Rattle.sd_commands.specs.Answer.{answer_of};
ghost use Rattle.sd_commands.specs.CommandAnswer.{argument};
ghost use Rattle.sd_questions.specs.TextAnswer.{AnswersText, IsSaid, asks_who, blank_name, blank_of};
ghost use Rattle.sd_arguments.specs.CommandLine.{request_of};

use crate::input::is_blank;
use sd_arguments::TextRequest;
use sd_commands::{Answer, Settings, answer_question, fault, told_line};
use sd_usage::{DescriptorCommand, HeirCommand, TextCommand};
use std::alloc::{AllocError, Global};

/// The answer of a command to a text: a fault where one of two descriptors is blank, and where `who` is asked for no
/// right. The only error is out of memory.
pub(crate) fn answer_text(
    alloc: Global,
    settings: &Settings,
    request: TextRequest<'_>,
    text: &str,
) -> Result<Answer, AllocError>
    ensures { IfOk result
        (λ answer. AnswersText settings.now (request_of request.entry) text.now (answer_of answer)) }
{
    let (question, arguments) = (request.question, request.arguments);
    if let Some(name) = blank_name(question, text, arguments) {
        return fault(alloc, "blank", told_line(alloc, name, "blank")?);
    }
    let answer = answer_question(alloc, settings, question, text, arguments)?;
    said(alloc, question, answer)
}

/// The answer, or a fault where it would have no line.
fn said(alloc: Global, question: TextCommand, answer: Answer) -> Result<Answer, AllocError>
    ensures { let plain = answer_of answer in
        IfOk result (λ said. IsSaid (asks_who question && length plain.lines == 0) plain (answer_of said)) }
{
    if asks_who(question) && answer.lines.is_empty() {
        let told = told_line(alloc, "MASK", "no right is asked for")?;
        return fault(alloc, "mask", told);
    }
    Ok(answer)
}

/// Which of the descriptors is blank, of a command that needs them.
fn blank_name(question: TextCommand, text: &str, arguments: &[&str]) -> Option<&'static str>
    ensures { option_map (λ name. name.now) result ≡ blank_name question text.now arguments.now }
{
    match question {
        TextCommand::Diff | TextCommand::Descriptor(DescriptorCommand::Compare) => {
            blank_of(("OLD", text), ("NEW", first(arguments)))
        }
        TextCommand::Heir(HeirCommand::Create) if is_blank(text.as_bytes()) => Some("PARENT"),
        TextCommand::Heir(HeirCommand::Create) => None,
        TextCommand::Heir(_) => blank_of(("CHILD", text), ("PARENT", first(arguments))),
        _ => None,
    }
}

/// The name of the first of two texts that is blank.
fn blank_of(one: (&'static str, &str), other: (&'static str, &str)) -> Option<&'static str>
    ensures { option_map (λ name. name.now) result
        ≡ blank_of one.entry.0.now one.entry.1.now other.entry.0.now other.entry.1.now }
{
    if is_blank(one.1.as_bytes()) {
        Some(one.0)
    } else if is_blank(other.1.as_bytes()) {
        Some(other.0)
    } else {
        None
    }
}

/// The first argument, empty where there is none.
fn first<'a>(arguments: &'a [&'a str]) -> &'a str
    ensures { result.now ≡ argument arguments.entry.now 0 }
{
    arguments.get(0).copied().unwrap_or("")
}

pub(crate) fn asks_who(question: TextCommand) -> bool
    ensures { result ≡ asks_who question }
{
    matches!(question, TextCommand::Descriptor(DescriptorCommand::Who))
}
