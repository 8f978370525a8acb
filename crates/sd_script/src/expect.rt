//! Lines that expect an answer.
ghost use Rattle.std.specs.Prelude.{◌≡◌, ◌++◌, Some, None, IfOk, OnOk};
ghost use Rattle.sd_script.specs.Expect.{expect_line, expects, is_expectation, is_met, lines_of, spelled};
ghost use Rattle.sd_script.specs.Expect.{spelled_byte, without_feed};

use crate::answer::Answer;
use crate::lines::{head_len, word_len};
use crate::reply::ok_line;
use sd_answer::fault_line;
use sd_line::{Line, Output, Spelling, Style, Tag};
use std::alloc::{AllocError, Global};
use std::marker::Model;

/// The last answer, if any line was answered. Contracts see its lines.
#[derive(Drop)]
pub struct LastAnswer {
    answer: Option<Answer>,
}

impl Model for LastAnswer {
    ghost use Rattle.std.specs.Prelude.{List, Option};
    ghost use Rattle.sd_line.specs.Line.{LineOf};

    ghost Value = { Option (List LineOf) };

    ghost view = { λ a. a.answer };
}

impl LastAnswer {
    /// No line was answered yet.
    pub(crate) fn none() -> LastAnswer
        ensures { result ≡ None }
    {
        LastAnswer { answer: None }
    }

    /// This whole answer, with all its lines.
    pub(crate) fn of(answer: Answer) -> LastAnswer
        ensures { result ≡ Some answer }
    {
        LastAnswer {
            answer: Some(answer),
        }
    }

    /// Whether all that comes after the first word and a space of a line spells this answer, with masks in this
    /// spelling. The only error is out of memory.
    pub(crate) fn meets(
        &self,
        alloc: Global,
        spelling: Spelling,
        line: &[u8],
    ) -> Result<bool, AllocError>
        ensures { IfOk result (λ met. met ≡ is_met spelling self.now line.now) }
    {
        match &self.answer {
            Some(answer) => {
                let style = Style {
                    spelling,
                    output: Output::Text,
                };
                let mut text = Vec::new(alloc);
                answer.push_printed(alloc, style, Tag::None, &mut text)?;
                let text = spelled(alloc, &text)?;
                Ok(text.as_slice() == &line[head_len(line)..])
            }
            None => Ok(false),
        }
    }
}

/// How the text of an answer is expected: all its lines in one, joined by `\n`.
fn spelled(alloc: Global, text: &[u8]) -> Result<Vec<u8>, AllocError>
    ensures { IfOk result (λ one. one.items ≡ spelled text.now) }
{
    let mut one = Vec::new(alloc);
    for byte in lines_of(text) {
        push_spelled(&mut one, *byte)?;
    }
    Ok(one)
}

fn push_spelled(text: &mut Vec<u8>, byte: u8) -> Result<(), AllocError>
    ensures { OnOk result (text.new.items ≡ text.old.items ++ spelled_byte byte) }
{
    match byte {
        b'\n' => text.extend_from_slice(b"\\n"),
        b'\\' => text.extend_from_slice(b"\\\\"),
        _ => Ok(text.push(byte)?),
    }
}

/// The text of an answer without the end of its last line, and without the empty line that ends several.
fn lines_of(text: &[u8]) -> &[u8]
    ensures { result.now ≡ lines_of text.now }
{
    without_feed(without_feed(text))
}

fn without_feed(text: &[u8]) -> &[u8]
    ensures { result.now ≡ without_feed text.now }
{
    match text {
        [front @ .., b'\n'] => front,
        _ => text,
    }
}

/// What a line is answered by whose expectation is met, or isn't. The only error is out of memory.
pub(crate) fn expect_line(alloc: Global, is_met: bool) -> Result<Line, AllocError>
    ensures { IfOk result (λ line. line ≡ expect_line is_met) }
{
    if is_met {
        ok_line(alloc, &[])
    } else {
        fault_line(alloc, "expect")
    }
}

/// Whether a line expects the last answer, by its first word.
pub fn expects(line: &[u8]) -> bool
    ensures { result ≡ expects line.now }
{
    &line[..word_len(line)] == b"expect".as_slice()
}

/// Whether a line expects the last answer, or whom a node grants rights.
pub(crate) fn is_expectation(line: &[u8]) -> bool
    ensures { result ≡ is_expectation line.now }
{
    expects(line) || &line[..word_len(line)] == b"expect-only".as_slice()
}
