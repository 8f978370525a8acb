//! The answers of one command to each line of an input.
ghost use Rattle.std.specs.Prelude.{◌≡◌, ◌≢◌, ◌≤◌, ◌⊎◌, ◌||◌, ◌∷◌, ◌++◌, true, false, IfErr, IfNone, IfOk, IfSome};
ghost use Rattle.std.specs.Prelude.{OnOk, length, option_map, string_bytes};
ghost use Rattle.std.specs.Io.KnownBytes.{Keeps};
ghost use Rattle.sd_lines.specs.Watched.{has_failed, inner_of};
ghost use Rattle.sd_lines.specs.Streams.{is_read_error, is_write_error};
ghost use Rattle.sd_commands.specs.Answer.{answer_of, outcome_status};
ghost use Rattle.sd_line.specs.Printed.{tag_of};
ghost use Rattle.sd_answer.specs.Word.{texts};
ghost use Rattle.sd_questions.specs.TextAnswer.{AnswersEach, AnswersLine, AnswersLineIn, AnswersNext};
ghost use Rattle.sd_questions.specs.TextAnswer.{AnswersOne, AnswersPair, AnswersTold, after_answer, form_of};
ghost use Rattle.sd_arguments.specs.CommandLine.{request_of};
ghost use Rattle.sd_questions.specs.Each.{after_tab, before_tab, has_key, no_line_note, tab_place};
ghost use Rattle.sd_questions.specs.Each.{told_of_lines, with_line};
ghost use Rattle.sd_arguments.specs.Options.{has, options_of};
ghost use Rattle.sd_questions.specs.Output.{AppendsWhole, LeavesEach};

use crate::advised::advice_on_each;
use crate::input::is_blank;
use crate::spoken::answer_text;
use crate::text_answer::bad_value;
use sd_arguments::{BadValue, GivenFlags, Options, TextRequest};
use sd_commands::{Answer, Outcome, Settings, fault, told_line};
use sd_line::{Line, Style, Tag, push_printed};
use sd_lines::{AnswersLines, Ending, Form, RunError, Watched, answer_lines};
use sd_usage::{DescriptorCommand, HeirCommand, OptionName, TextCommand};
use std::alloc::{AllocError, Global};
use std::io::{Read, Write};
use std::str::from_utf8;

/// The outcome of a run, and what standard error says beside its output.
#[derive(Drop)]
pub struct Ended {
    /// Whole lines, or nothing.
    pub told: String,
    pub outcome: Outcome,
}

/// The lines of the answer to a line, and what came of it.
#[derive(Drop)]
struct Answered {
    lines: Vec<Line>,
    outcome: Outcome,
}

/// A command with its arguments, under its options, that is asked of each line.
#[derive(Clone, Copy)]
struct LineQuestion<'a> {
    /// What parts each line has.
    given: GivenFlags,
    /// How each answer is printed.
    style: Style,
    /// What its options say, or which of their values isn't read.
    settings: Result<Settings, BadValue<'a>>,
    request: TextRequest<'a>,
}

impl AnswersLines for LineQuestion<'_> {
    /// The worst outcome of the lines so far, if there was one.
    type State = Option<Outcome>;

    ghost answers = { λ question before told printed after. AnswersNext question.given question.style
        question.settings (request_of question.request) before told printed after };

    fn answer(
        &self,
        alloc: Global,
        lines: &mut Option<Outcome>,
        line: Option<&[u8]>,
        text: &mut Vec<u8>,
    ) -> Result<(), AllocError> {
        let (tag, answered) = match self.answer_in(alloc, line) {
            Ok(parts) => parts,
            Err(error) => return Err(error),
        };
        push_printed(alloc, text, self.style, tag, &answered.lines)?;
        *lines = with_line(*lines, answered.outcome);
        Ok(())
    }
}

impl LineQuestion<'_> {
    /// The answer to a line, and its tag: where lines have keys and it is a key, a tab and a text, the text's, and the
    /// key. One without a key is a fault.
    fn answer_in<'b>(
        &self,
        alloc: Global,
        line: Option<&'b [u8]>,
    ) -> Result<(Tag<'b>, Answered), AllocError>
        ensures { IfOk result (λ answered. AnswersLineIn self.now.given.key self.now.given.pairs self.now.settings
            (request_of self.now.request) (option_map (λ bytes. bytes.now) line.entry)
            (tag_of answered.0) answered.1.lines.items answered.1.outcome) }
    {
        if !self.given.key {
            return Ok((Tag::None, self.answer_line(alloc, line)?));
        }
        let Some(bytes) = line else {
            return Ok((Tag::None, self.answer_line(alloc, None)?));
        };
        let Some((key, text)) = parted(bytes) else {
            let answer = fault(alloc, "key", String::new(alloc))?;
            return Ok((Tag::None, self.ended(alloc, answer)?));
        };
        Ok((Tag::Key(key), self.answer_line(alloc, Some(text))?))
    }

    /// The answer to a line, and what follows it.
    fn answer_line(&self, alloc: Global, line: Option<&[u8]>) -> Result<Answered, AllocError>
        ensures { IfOk result (λ answered. AnswersLine self.now.given.pairs self.now.settings
            (request_of self.now.request) (option_map (λ bytes. bytes.now) line.entry) answered.lines.items
            answered.outcome) }
    {
        self.ended(alloc, self.answer_told(alloc, line)?)
    }

    /// An answer, and what follows it.
    #[inline(always)]
    fn ended(&self, alloc: Global, answer: Answer) -> Result<Answered, AllocError>
        ensures { IfOk result (λ ended. (ended.lines.items
            ≡ (answer_of answer).lines ++ after_answer self.now.request.question)
            × (ended.outcome ≡ answer.outcome)) }
    {
        let Answer {
            mut lines,
            outcome,
            ..
        } = answer;
        push_after_answer(alloc, &mut lines, self.request.question)?;
        Ok(Answered { lines, outcome })
    }

    /// The answer to a line, of which there is no text where it is too long.
    fn answer_told(&self, alloc: Global, line: Option<&[u8]>) -> Result<Answer, AllocError>
        ensures { IfOk result (λ answer. AnswersTold self.now.given.pairs self.now.settings
            (request_of self.now.request) (option_map (λ bytes. bytes.now) line.entry) (answer_of answer)) }
    {
        let Some(bytes) = line else {
            return fault(alloc, "long", String::new(alloc));
        };
        let Ok(text) = from_utf8(bytes) else {
            return fault(alloc, "utf8", String::new(alloc));
        };
        if self.given.pairs {
            return self.answer_pair(alloc, text);
        }
        self.answer_one(alloc, self.request.arguments, text)
    }

    /// The answer to OLD, a tab and NEW.
    fn answer_pair(&self, alloc: Global, text: &str) -> Result<Answer, AllocError>
        ensures { IfOk result (λ answer. AnswersPair self.now.settings (request_of self.now.request) text.now
            (answer_of answer)) }
    {
        let Some((old, new)) = text.split_once('\t') else {
            return fault(alloc, "pair", String::new(alloc));
        };
        let arguments = with_new(alloc, new, self.request.arguments)?;
        self.answer_one(alloc, &arguments, old)
    }

    /// The answer to a text, with these arguments after it.
    fn answer_one(
        &self,
        alloc: Global,
        arguments: &[&str],
        text: &str,
    ) -> Result<Answer, AllocError>
        ensures { IfOk result (λ answer. AnswersOne self.now.settings
            (record { question = self.now.request.question; arguments = arguments.now }) text.now
            (answer_of answer)) }
    {
        if is_blank(text.as_bytes()) {
            return fault(alloc, "blank", String::new(alloc));
        }
        let request = TextRequest {
            question: self.request.question,
            arguments,
        };
        match &self.settings {
            Ok(settings) => answer_text(alloc, settings, request, text),
            Err(bad) => bad_value(alloc, *bad),
        }
    }
}

/// The arguments behind NEW.
fn with_new<'x>(
    alloc: Global,
    new: &'x str,
    arguments: &[&'x str],
) -> Result<Vec<&'x str>, AllocError>
    ensures { IfOk result (λ all. texts all.items ≡ new.entry.now ∷ texts arguments.entry.now) }
{
    let mut all = vec![in alloc; new]?;
    all.extend_from_slice(arguments)?;
    Ok(all)
}

/// The key of a line, and the text after its tab. `None`: no tab is there, or a line feed before it.
fn parted(line: &[u8]) -> Option<(&[u8], &[u8])>
    ensures some { IfSome result (λ parts. (has_key line.now ≡ true) × (parts.0.now ≡ before_tab line.now)
        × (parts.1.now ≡ after_tab line.now)) }
    ensures none { IfNone result (has_key line.now ≡ false) }
{
    let len = tab_place(line);
    if len < line.len() && !line[..len].contains(&b'\n') {
        Some((&line[..len], &line[len + 1..]))
    } else {
        None
    }
}

/// The place of the first tab, or the end.
fn tab_place(line: &[u8]) -> usize
    ensures place { result ≡ tab_place line.now }
    ensures within { result ≤ length line.now }
{
    let place = line.iter().position(|byte| *byte == b'\t');
    place.unwrap_or(line.len())
}

/// Adds what follows each answer: an empty line, where an answer may have several lines.
fn push_after_answer(
    alloc: Global,
    lines: &mut Vec<Line>,
    question: TextCommand,
) -> Result<(), AllocError>
    ensures { OnOk result (lines.new.items ≡ lines.old.items ++ after_answer question) }
{
    match question {
        TextCommand::Types
        | TextCommand::Show
        | TextCommand::Diff
        | TextCommand::Heir(HeirCommand::Stale)
        | TextCommand::Descriptor(
            DescriptorCommand::Why
            | DescriptorCommand::Who
            | DescriptorCommand::Compare
            | DescriptorCommand::Lint,
        ) => {
            lines.push(Line::text(alloc, String::new(alloc))?)?;
            Ok(())
        }
        _ => Ok(()),
    }
}

/// The worst outcome of the lines, if there was one, and of one line more.
fn with_line(lines: Option<Outcome>, outcome: Outcome) -> Option<Outcome>
    ensures { result ≡ with_line lines outcome }
{
    match lines {
        Some(lines) => Some(lines.or_worse(outcome)),
        None => Some(outcome),
    }
}

/// What standard error is told of the lines: this note, where there was none, or else the advice.
fn told_of_lines(lines: Option<Outcome>, note: String, advice: String) -> String
    requires { string_bytes note ≡ no_line_note }
    ensures { string_bytes result ≡ told_of_lines lines (string_bytes advice) }
{
    match lines {
        None => note,
        Some(_) => advice,
    }
}

/// The lines of an input, each of which a zero byte or a line feed ends. One that is too long is answered too.
fn form_of(zero: bool) -> Form
    ensures { result ≡ form_of zero }
{
    Form {
        ending: if zero { Ending::Zero } else { Ending::Feed },
        skips_mark: true,
        stops_at_long: false,
        line_by_line: false,
    }
}

/// Answers each line of the input.
pub fn answer_each<R: Read, W: Write>(
    alloc: Global,
    options: Options<'_>,
    given: GivenFlags,
    request: TextRequest<'_>,
    reader: &mut Watched<R>,
    writer: &mut Watched<W>,
) -> Result<Ended, RunError>
    ensures ok { IfOk result (λ ended. AppendsWhole (has (options_of options.entry) OptionName.StrictStatus)
        (AnswersEach (options_of options.entry) given (request_of request.entry) (R.remaining (inner_of reader.old)))
        (W.contents (inner_of writer.old)) (W.contents (inner_of writer.new)) (string_bytes ended.told)
        (outcome_status (has (options_of options.entry) OptionName.StrictStatus) ended.outcome)) }
    ensures err { IfErr result (λ error. ((error ≡ RunError.Memory)
        × Keeps (W.contents (inner_of writer.old)) (W.contents (inner_of writer.new)))
        ⊎ LeavesEach (options_of options.entry) given (request_of request.entry) (R.remaining (inner_of reader.old))
        (R.remaining (inner_of reader.new))
        (W.contents (inner_of writer.old)) (W.contents (inner_of writer.new)) error) }
    ensures read { has_failed reader.new ≡ (has_failed reader.old || is_read_error result) }
    ensures write { has_failed writer.new ≡ (has_failed writer.old || is_write_error result) }
    ensures only { IfErr result (λ error. (error ≢ RunError.TooLong) × (error ≢ RunError.Thread)) }
{
    let note = told_line(alloc, "standard input", "no line")?;
    let advice = advice_on_each(alloc, options, request)?;
    let question = LineQuestion {
        given,
        style: options.style(),
        settings: options.settings(),
        request,
    };
    let mut lines = None;
    let form = form_of(given.zero);
    answer_lines(alloc, &question, &mut lines, form, reader, writer)?;
    Ok(Ended {
        told: told_of_lines(lines, note, advice),
        outcome: lines.unwrap_or(Outcome::Fault),
    })
}
