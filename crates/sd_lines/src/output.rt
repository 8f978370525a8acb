//! The writing of a whole output.

ghost use Rattle.std.specs.Prelude.{◌≡◌, ◌||◌, IfErr, OnErr, OnOk, is_err};
ghost use Rattle.std.specs.Io.KnownBytes.{Appends};
ghost use Rattle.sd_lines.specs.Watched.{inner_of, has_failed};
ghost use Rattle.sd_lines.specs.Streams.{AppendsBeginning};

use crate::error::RunError;
use crate::watched::Watched;
use std::io::Write;

/// Writes the whole text and flushes. The one error is `Write`: the writer failed, which an
/// interruption is too, and so is a write that takes nothing. Then a prefix of the text was
/// written.
pub fn write_whole<W: Write>(writer: &mut Watched<W>, text: &[u8]) -> Result<(), RunError>
    ensures ok { OnOk result (Appends
        (W.contents (inner_of writer.old)) (W.contents (inner_of writer.new)) text.now) }
    ensures err { OnErr result (AppendsBeginning
        (W.contents (inner_of writer.old)) (W.contents (inner_of writer.new)) text.now) }
    ensures only { IfErr result (λ error. error ≡ RunError.Write) }
    ensures failed { has_failed writer.new ≡ (has_failed writer.old || is_err result) }
{
    let mut rest = text;
    while !rest.is_empty() {
        match writer.write(rest) {
            Ok(0) | Err(_) => return Err(RunError::Write),
            Ok(taken) => rest = &rest[taken..],
        }
    }
    writer.flush().map_err(|_| RunError::Write)
}
