//! The answer to a command about a descriptor: its lines, and whether they are what was asked for.
ghost use Rattle.std.specs.Prelude.{◌≡◌, ◌⊎◌, ◌≤◌, ◌<◌, ◌^◌, [], IfOk, string_bytes};
ghost use Rattle.sd_line.specs.Line.{form_of, line_of};
ghost use Rattle.sd_answer.specs.VerdictLines.{fault_line, sddl_fault_line};
ghost use Rattle.sd_acl.specs.Descriptor.{descriptor_of};
ghost use Rattle.sd_commands.specs.Answer.{AreDone, AreDoneBut, IsAnswer, IsDone, IsFault, IsFaultOf, IsFound};
ghost use Rattle.sd_commands.specs.Answer.{answer_of, or_worse, outcome_status, value_line};
ghost use Rattle.sd_commands.specs.CommandAnswer.{AnswersDescriptor, AnswersOn, AnswersPlainly, AnswersQuestion};
ghost use Rattle.sd_commands.specs.CommandAnswer.{AnswersWholly, IsTokenFault, descriptor_name};
ghost use Rattle.sd_commands.specs.Diagnostic.{sddl_fault_text, told_line};

use crate::descriptor::{Given, note_left_out_sacl};
use crate::diagnostic::{fault_text, sddl_fault_text, told_line, word_argument};
use crate::settings::{CommandContext, Settings};
use crate::verdict::{Form, Subject};
use crate::whole::takes_whole;
use crate::words::argument;
use sd_acl::Descriptor;
use sd_answer::{fault_line, sddl_fault_line};
use sd_line::{Line, LineForm, Value};
use sd_text::{TextError, TextFault};
use sd_usage::{DescriptorCommand, TextCommand};
use sd_whole::PlainPart;
use std::alloc::{AllocError, Global};

/// How a command ended, from best to worst.
#[derive(Clone, Copy, PartialEq, Eq)]
pub enum Outcome {
    /// What was asked for was done, or the right granted.
    Done,
    /// The answer is a verdict other than granted, a difference or a finding.
    Refused,
    /// The answer is a fault: an argument or an input can't be parsed.
    Fault,
}

impl Outcome {
    /// The status with which the program ends: that of a fault is one of its own where `is_strict`.
    pub fn status(self, is_strict: bool) -> u8
        ensures status { result ≡ outcome_status is_strict self }
        ensures within { (result ≤ 1) ⊎ (result ≡ 4) }
    {
        match self {
            Outcome::Done => 0,
            Outcome::Refused => 1,
            Outcome::Fault if is_strict => 4,
            Outcome::Fault => 1,
        }
    }

    /// The worse of the two: a fault is worse than a refusal.
    pub fn or_worse(self, other: Outcome) -> Outcome
        ensures { result ≡ or_worse self other }
    {
        match (self, other) {
            (Outcome::Fault, _) | (_, Outcome::Fault) => Outcome::Fault,
            (Outcome::Refused, _) | (_, Outcome::Refused) => Outcome::Refused,
            _ => Outcome::Done,
        }
    }
}

/// The lines of an answer, what standard error says beside them, and the outcome.
#[derive(Drop)]
pub struct Answer {
    pub lines: Vec<Line>,
    /// Whole lines, or nothing.
    pub told: String,
    pub outcome: Outcome,
}

impl Answer {
    /// What was asked for was done, and standard error says nothing.
    #[inline(always)]
    pub fn done(alloc: Global, lines: Vec<Line>) -> Answer
        ensures { AreDone lines.items (answer_of result) }
    {
        Answer::of(alloc, lines, Outcome::Done)
    }

    /// What was asked for was done, of which this is the one line, and standard error says nothing.
    #[inline(always)]
    pub(crate) fn line(alloc: Global, line: Line) -> Answered
        ensures { IfOk result (λ answer. IsDone line (answer_of answer)) }
    {
        let lines = vec![in alloc; line]?;
        Ok(Answer::done(alloc, lines))
    }

    /// These are the lines, and after them what is left out: nothing, or not all that was asked for was done.
    #[inline(always)]
    pub(crate) fn done_but(alloc: Global, mut left_out: Vec<Line>, mut lines: Vec<Line>) -> Answered
        ensures { IfOk result (λ answer. AreDoneBut left_out.items lines.items (answer_of answer)) }
    {
        if left_out.is_empty() {
            return Ok(Answer::done(alloc, lines));
        }
        lines.append(&mut left_out)?;
        Ok(Answer::of(alloc, lines, Outcome::Refused))
    }

    /// Standard error says nothing beside the lines.
    #[inline(always)]
    pub(crate) fn of(alloc: Global, lines: Vec<Line>, outcome: Outcome) -> Answer
        ensures { IsAnswer lines.items [] outcome (answer_of result) }
    {
        let told = String::new(alloc);
        Answer {
            lines,
            told,
            outcome,
        }
    }
}

/// What a command answers. The only error is out of memory.
pub(crate) type Answered = Result<Answer, AllocError>;

/// The answer of a command to a text and the arguments after it. The only error is out of memory.
pub fn answer_question(
    alloc: Global,
    settings: &Settings,
    question: TextCommand,
    text: &str,
    arguments: &[&str],
) -> Result<Answer, AllocError>
    ensures { IfOk result (λ answer. AnswersQuestion settings.now question text.now arguments.now (answer_of answer)) }
{
    let command = CommandContext { alloc, settings };
    match question {
        TextCommand::Descriptor(question) => command.answer_descriptor(question, text, arguments),
        TextCommand::FromBinary => command.from_binary(text),
        TextCommand::Show => command.show(text),
        TextCommand::Diff => command.diff(text, argument(arguments, 0)),
        TextCommand::Types => command.types(text, arguments),
        TextCommand::Change(question) => command.change(question, text, arguments),
        TextCommand::Heir(question) => command.heir(question, text, arguments),
        TextCommand::Rights => command.rights(text),
        TextCommand::Sid => command.sid(text),
    }
}

/// The name of the argument that a command's descriptor is.
fn descriptor_name(question: DescriptorCommand) -> &'static str
    ensures { result.now ≡ descriptor_name question }
{
    match question {
        DescriptorCommand::Compare => "OLD",
        _ => "SDDL",
    }
}

/// The answer to an argument that is invalid: what it should have been, and what standard error says of it. The only
/// error is out of memory.
pub fn fault(alloc: Global, what: &str, told: String) -> Result<Answer, AllocError>
    ensures { IfOk result (λ answer. IsFault (fault_line what.now) (string_bytes told) (answer_of answer)) }
{
    let line = fault_line(alloc, what)?;
    fault_told(alloc, line, told)
}

/// The answer that is this line of a fault, and what standard error says of it.
pub(crate) fn fault_told(alloc: Global, line: Line, told: String) -> Answered
    ensures { IfOk result (λ answer. IsFault line (string_bytes told) (answer_of answer)) }
{
    Ok(Answer {
        lines: vec![in alloc; line]?,
        told,
        outcome: Outcome::Fault,
    })
}

/// A value alone, in a line of no kind.
#[inline(always)]
pub(crate) fn value_line(alloc: Global, value: Value) -> Result<Line, AllocError>
    ensures { IfOk result (λ line. line ≡ value_line value) }
{
    Line::new(alloc, ("", "{text}"), vec![in alloc; value]?)
}

/// The lines of what was found, or one of this form where nothing was.
pub(crate) fn found(alloc: Global, lines: Vec<Line>, nothing: LineForm) -> Answered
    ensures { IfOk result
        (λ answer. IsFound (line_of (form_of nothing.entry) []) lines.items (answer_of answer)) }
{
    if lines.is_empty() {
        Answer::line(alloc, Line::new(alloc, nothing, Vec::new(alloc))?)
    } else {
        Ok(Answer::of(alloc, lines, Outcome::Refused))
    }
}

impl CommandContext<'_> {
    /// The answer to a question about the descriptor that the text is: under `--whole`, where the command looks at it,
    /// with all that it says.
    fn answer_descriptor(
        &self,
        question: DescriptorCommand,
        sddl: &str,
        arguments: &[&str],
    ) -> Answered
        ensures { IfOk result (λ answer. AnswersDescriptor self.now.settings.now question sddl.now arguments.now
            (answer_of answer)) }
    {
        let (below, object) = (self.settings.below, self.settings.object);
        let looks_at_all = takes_whole(below, object, question);
        if self.settings.whole && looks_at_all {
            return self.answer_wholly(question, sddl, arguments);
        }
        self.answer(question, sddl, arguments)
    }

    /// The answer to a question about all that the text is.
    fn answer_wholly(&self, question: DescriptorCommand, sddl: &str, arguments: &[&str]) -> Answered
        ensures { IfOk result (λ answer. AnswersWholly self.now.settings.now question sddl.now arguments.now
            (answer_of answer)) }
    {
        match question {
            DescriptorCommand::Verdict => self.whole_verdict(Form::Short, sddl, arguments),
            DescriptorCommand::Why => self.whole_verdict(Form::Explained, sddl, arguments),
            DescriptorCommand::Who => self.whole_who(sddl, arguments),
            DescriptorCommand::Compare => self.whole_compare(sddl, arguments),
            DescriptorCommand::Lint => self.whole_lint(sddl, arguments),
            _ => self.answer_whole_text(question, sddl),
        }
    }

    /// The answer to a question about the plain descriptor that the text is, or the first fault of this argument and of
    /// those after it.
    fn answer(&self, question: DescriptorCommand, sddl: &str, arguments: &[&str]) -> Answered
        ensures { IfOk result (λ answer. AnswersPlainly self.now.settings.now question sddl.now arguments.now
            (answer_of answer)) }
    {
        let name = descriptor_name(question);
        let part = match self.read_argument(name, sddl)? {
            Given::Descriptor(part) => part,
            Given::Refused(answer) => return Ok(answer),
        };
        let PlainPart {
            descriptor,
            left_out,
        } = part;
        let answer = self.answer_on(question, descriptor, arguments)?;
        Ok(note_left_out_sacl(self.alloc, name, left_out, answer)?)
    }

    // (What few ask of each of many lines isn't inlined, so that `print` and verdicts stay short.)
    fn answer_on(&self, question: DescriptorCommand, on: Descriptor, arguments: &[&str]) -> Answered
        ensures { IfOk result (λ answer. AnswersOn self.now.settings.now question arguments.now (descriptor_of on)
            (answer_of answer)) }
    {
        match question {
            DescriptorCommand::Verdict => {
                self.verdict(Form::Short, Subject::Plain(&on), arguments)
            }
            DescriptorCommand::Why => {
                self.verdict(Form::Explained, Subject::Plain(&on), arguments)
            }
            DescriptorCommand::Who => self.who(&on, &[], Vec::new(self.alloc), arguments),
            DescriptorCommand::Compare => self.compare(on, arguments),
            DescriptorCommand::Lint => self.lint(on, arguments),
            DescriptorCommand::Print => self.print(on),
            DescriptorCommand::Sort => self.sort(&on),
            DescriptorCommand::ToBinary => self.to_binary(&on),
        }
    }

    /// The answer to the argument of this name: what it should have been, and why it isn't.
    pub(crate) fn fault(&self, what: &str, name: &str, reason: &str) -> Answered
        ensures { IfOk result
            (λ answer. IsFault (fault_line what.now) (told_line name.now reason.now) (answer_of answer)) }
    {
        fault(self.alloc, what, told_line(self.alloc, name, reason)?)
    }

    /// The answer to words of which the one at the place is the first that is none, for this reason.
    pub(crate) fn token_fault(&self, place: usize, word: &str, reason: &str) -> Answered
        requires { place < 2 ^ 63 }
        ensures { IfOk result (λ answer. IsTokenFault place word.now reason.now (answer_of answer)) }
    {
        let argument = word_argument(self.alloc, place, word)?;
        self.fault("token", argument.as_str(), reason)
    }

    /// The answer to an argument whose text has this error first.
    pub(crate) fn text_fault(
        &self,
        what: &str,
        name: &str,
        text: &str,
        error: TextError,
    ) -> Answered
        ensures { IfOk result
            (λ answer. IsFaultOf self.now.settings.now what.now name.now text.now error (answer_of answer)) }
    {
        match error {
            TextError::Fault { fault, place } => {
                let reason = fault_text(self.alloc, self.settings.points, text, fault, place)?;
                self.fault(what, name, reason.as_str())
            }
            TextError::Memory => Err(AllocError),
        }
    }

    /// The answer to a descriptor's text with a fault, which is the argument of this name.
    pub(crate) fn sddl_fault(
        &self,
        name: &str,
        sddl: &str,
        fault: TextFault,
        place: u64,
    ) -> Answered
        ensures { IfOk result
            (λ answer. IsFault (sddl_fault_line fault place)
            (told_line name.now (sddl_fault_text self.now.settings.now.points sddl.now fault place))
            (answer_of answer)) }
    {
        let what = sddl_fault_text(self.alloc, self.settings.points, sddl, fault, place)?;
        let told = told_line(self.alloc, name, what.as_str())?;
        fault_told(self.alloc, sddl_fault_line(self.alloc, fault, place)?, told)
    }
}
