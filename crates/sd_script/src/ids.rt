//! How each line of a script is answered; with ids, each line of its answer has the line's id.

ghost use Rattle.std.specs.Prelude.{◌≡◌, ◌≤◌, true, length, IfSome};
ghost use Rattle.sd_line.specs.Printed.{tag_of};
ghost use Rattle.sd_script.specs.Ids.{has_id, tag_len};
ghost use Rattle.sd_script.specs.Printed.{IsNextServed, asked_in, tag_in};

use crate::lines::{head_len, is_silent, word_len};
use crate::script::push_answer;
use crate::script_state::ScriptState;
use sd_line::{Style, Tag};
use sd_lines::{AnswersLines, Ending, Form};
use std::alloc::{AllocError, Global};

/// The lines of a script. One that is too long ends it, and each answer is written before the next line is answered.
pub const LINES: Form = Form {
    ending: Ending::Feed,
    skips_mark: false,
    stops_at_long: true,
    line_by_line: true,
};

/// A script, as its lines are answered.
#[derive(Clone, Copy, Debug)]
pub(crate) struct Script {
    /// Whether its lines begin with ids: `serve` has more on them.
    pub(crate) has_ids: bool,
    /// How each answer is printed.
    pub(crate) style: Style,
}

impl AnswersLines for Script {
    type State = ScriptState;

    ghost answers = { λ script old line printed new. IfSome line
        (λ text. IsNextServed script.has_ids script.style old text printed new) };

    fn answer(
        &self,
        alloc: Global,
        state: &mut ScriptState,
        line: Option<&[u8]>,
        text: &mut Vec<u8>,
    ) -> Result<(), AllocError> {
        let Some(line) = line else {
            // (a line that is too long has ended the script)
            return Ok(());
        };
        let (tag, asked) = (tag_in(self.has_ids, line), asked_in(self.has_ids, line));
        push_answer(alloc, state, self.style, tag, asked, text)
    }
}

/// What each line of the answer to a line begins with.
fn tag_in(has_ids: bool, line: &[u8]) -> Tag<'_>
    ensures { tag_of result ≡ tag_in has_ids line.now }
{
    if has_ids && has_id(line) {
        Tag::Id(&line[..word_len(line)])
    } else {
        Tag::None
    }
}

/// What a line asks: with ids what comes after its id.
fn asked_in(has_ids: bool, line: &[u8]) -> &[u8]
    ensures { result.now ≡ asked_in has_ids line.now }
{
    if has_ids {
        &line[tag_len(line)..]
    } else {
        line
    }
}

/// The bytes of a line's id and of the space after it: none where its first word is no id.
fn tag_len(line: &[u8]) -> usize
    ensures len { result ≡ tag_len line.now }
    ensures within { result ≤ length line.now }
{
    if has_id(line) { head_len(line) } else { 0 }
}

/// Whether the first word of a line is an id: it isn't empty, doesn't begin with `#`, and has printable ASCII
/// characters alone.
fn has_id(line: &[u8]) -> bool
    ensures { result ≡ has_id line.now }
{
    let word = &line[..word_len(line)];
    !is_silent(word) && word.iter().all(|b| b.is_ascii_graphic())
}
