//! What is counted of a script's lines, beside what they are answered by.
ghost use Rattle.std.specs.Prelude.{◌≡◌};
ghost use Rattle.sd_script.specs.ScriptCounts.{alternates_with_zero, begins, has_mark, has_utf16_mark, is_carried_out};
ghost use Rattle.sd_script.specs.ScriptCounts.{is_unmet, is_utf16, no_lines, one_more_where, tallied, tells_fault};
ghost use Rattle.sd_script.specs.ScriptCounts.{is_ok_and};

use crate::expect::is_expectation;
use crate::lines::is_silent;
use sd_line::Line;

/// What is counted of a script beside its output. Lines are counted from 1, as far as 64 bits count.
#[derive(Clone, Copy, Debug, PartialEq, Eq)]
pub struct ScriptCounts {
    /// How many lines were answered.
    pub lines: u64,
    /// How many of these were carried out: not empty, no comment, no fault and not refused.
    pub carried_out: u64,
    /// The first line that had a fault or was refused.
    pub first_fault: Option<u64>,
    /// The first line whose node differs from the text of its descriptor: something of it was left out, or the node
    /// was imported, and inherits otherwise than it did.
    pub first_difference: Option<u64>,
    /// The first line by which a node was imported whose own entries were put in another order.
    pub first_reordered: Option<u64>,
    /// How many lines expected an answer.
    pub expected: u64,
    /// How many of the expected answers weren't given.
    pub unmet: u64,
    /// The first line whose expected answer wasn't given.
    pub first_unmet: Option<u64>,
    /// Whether the first line begins with UTF-8's byte order mark.
    pub begins_with_mark: bool,
    /// Whether the first line is UTF-16.
    pub begins_as_utf16: bool,
}

impl ScriptCounts {
    /// The tally before the first line.
    pub fn of_no_lines() -> ScriptCounts
        ensures { result ≡ no_lines }
    {
        ScriptCounts {
            lines: 0,
            carried_out: 0,
            first_fault: None,
            first_difference: None,
            first_reordered: None,
            expected: 0,
            unmet: 0,
            first_unmet: None,
            begins_with_mark: false,
            begins_as_utf16: false,
        }
    }

    /// With one line more, and what it is answered by.
    pub fn with(self, line: &[u8], answer: &[Line]) -> ScriptCounts
        ensures { result ≡ tallied line.now answer.now self }
    {
        let number = self.lines.saturating_add(1);
        let is_unmet = is_unmet(line, answer);
        ScriptCounts {
            lines: number,
            carried_out: one_more_where(is_carried_out(line, answer), self.carried_out),
            first_fault: self.first_fault.or(tells_fault(answer).then_some(number)),
            first_difference: self
                .first_difference
                .or(is_ok_and("differs", answer).then_some(number)),
            first_reordered: self
                .first_reordered
                .or(is_ok_and("reordered", answer).then_some(number)),
            expected: one_more_where(is_expectation(line), self.expected),
            unmet: one_more_where(is_unmet, self.unmet),
            first_unmet: self.first_unmet.or(is_unmet.then_some(number)),
            begins_with_mark: self.begins(self.begins_with_mark, has_mark(line)),
            begins_as_utf16: self.begins(self.begins_as_utf16, is_utf16(line)),
        }
    }

    /// Whether this holds of the first line: of one before, or of this one where there was none.
    fn begins(self, before: bool, holds: bool) -> bool
        ensures { result ≡ begins self before holds }
    {
        before || (self.lines == 0 && holds)
    }
}

/// One more where this holds, as far as 64 bits count.
fn one_more_where(holds: bool, count: u64) -> u64
    ensures { result ≡ one_more_where holds count }
{
    if holds {
        count.saturating_add(1)
    } else {
        count
    }
}

/// Whether the answer is a fault or a refusal.
fn tells_fault(answer: &[Line]) -> bool
    ensures { result ≡ tells_fault answer.now }
{
    match answer {
        [first, ..] => first.is_of("fault") || first.is_of("refused"),
        [] => false,
    }
}

/// Whether a line was carried out: it asks for something, which is neither a fault nor refused.
fn is_carried_out(line: &[u8], answer: &[Line]) -> bool
    ensures { result ≡ is_carried_out line.now answer.now }
{
    !is_silent(line) && !tells_fault(answer)
}

/// Whether a line expects an answer, and isn't answered by it.
fn is_unmet(line: &[u8], answer: &[Line]) -> bool
    ensures { result ≡ is_unmet line.now answer.now }
{
    is_expectation(line) && tells_fault(answer)
}

/// Whether the answer is `ok` or `opened` with this word.
fn is_ok_and(word: &str, answer: &[Line]) -> bool
    ensures { result ≡ is_ok_and word.now answer.now }
{
    match answer {
        [first, ..] => (first.is_of("ok") || first.is_of("opened")) && first.says(word),
        [] => false,
    }
}

fn has_mark(line: &[u8]) -> bool
    ensures { result ≡ has_mark line.now }
{
    line.starts_with(b"\xEF\xBB\xBF")
}

/// Whether a line begins as UTF-16 does: with its byte order mark (RFC 2781), or with two characters, each of which has
/// a zero byte.
fn is_utf16(line: &[u8]) -> bool
    ensures { result ≡ is_utf16 line.now }
{
    has_utf16_mark(line) || alternates_with_zero(line)
}

fn has_utf16_mark(line: &[u8]) -> bool
    ensures { result ≡ has_utf16_mark line.now }
{
    matches!(line, [0xff, 0xfe, ..] | [0xfe, 0xff, ..])
}

fn alternates_with_zero(line: &[u8]) -> bool
    ensures { result ≡ alternates_with_zero line.now }
{
    matches!(line, [0, _, 0, _, ..] | [_, 0, _, 0, ..])
}
