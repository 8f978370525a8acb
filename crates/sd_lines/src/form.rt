//! What lines are, and when their answers are written.

ghost use Rattle.std.specs.Prelude.{◌≡◌, ◌++◌, ◌-◌, ℕ, List, OnOk, length, option_map, take};
ghost use Rattle.sd_lines.specs.Decoder.{text_after};
ghost use Rattle.sd_lines.specs.Lines.{asked_of, text_of};
ghost use Rattle.sd_lines.specs.Steps.{ends_run};

use crate::ending::Ending;
use crate::{Decoder, MAX_INPUT_BYTES};
use std::alloc::{AllocError, Global};

/// The most bytes of a line that are kept: one more than the longest line and a carriage return have.
pub(crate) const KEPT_BYTES: usize = MAX_INPUT_BYTES + 2;

/// What the lines of an input are, and when their answers are written.
#[derive(Clone, Copy, Debug, PartialEq, Eq)]
pub struct Form {
    /// What ends a line.
    pub ending: Ending,
    /// Whether a byte order mark at the front is no part of the first line, and says how the input is encoded. If not,
    /// the lines are of its bytes as they are.
    pub skips_mark: bool,
    /// Whether a line of more than 16,777,216 bytes ends the run. If not, it is answered without its text.
    pub stops_at_long: bool,
    /// Whether each answer is written before the next line is answered. If not, the answers to all lines that end in
    /// the bytes of one read are written together.
    pub line_by_line: bool,
}

impl Form {
    /// An input of which nothing has come.
    pub(crate) fn decoder(self, alloc: Global) -> Decoder
        ensures { (input : List ℕ) → text_after result input ≡ text_of self input }
    {
        if self.skips_mark {
            Decoder::new(alloc)
        } else {
            Decoder::utf8(alloc)
        }
    }

    /// What is asked of a line: its text, or `None` where it is too long and that doesn't end the run.
    pub(crate) fn asked(self, line: &[u8]) -> Option<&[u8]>
        ensures { option_map (λ bytes. bytes.now) result ≡ asked_of self line.now }
    {
        (self.stops_at_long || line.len() <= MAX_INPUT_BYTES).then_some(line)
    }

    /// Whether a line is too long, and that ends the run.
    pub(crate) fn ends_run(self, line: &[u8]) -> bool
        ensures { result ≡ ends_run self line.now }
    {
        self.stops_at_long && line.len() > MAX_INPUT_BYTES
    }
}

/// Appends a part of a line to what is kept of it.
pub(crate) fn keep(line: &mut Vec<u8>, part: &[u8]) -> Result<(), AllocError>
    ensures { OnOk result (line.new.items
        ≡ line.old.items ++ take (KEPT_BYTES - length line.old.items) part.now) }
{
    let room = KEPT_BYTES.saturating_sub(line.len());
    line.extend_from_slice(&part[..room.min(part.len())])
}
