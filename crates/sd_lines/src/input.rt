//! The reading of a whole input.

ghost use Rattle.std.specs.Prelude.{◌≡◌, ◌||◌, ◌<◌, ◌≤◌, IfOk, IfErr, OnOk, IfSome, length, vec_len};
ghost use Rattle.std.specs.Io.KnownBytes.{IsAtEnd};
ghost use Rattle.sd_lines.specs.Watched.{inner_of, has_failed};
ghost use Rattle.sd_lines.specs.Streams.{is_read_error, ReadsPart};

use crate::error::RunError;
use crate::watched::Watched;
use std::alloc::Global;
use std::io::Read;

/// The most bytes that an input has: enough for a script of a hundred thousand lines, and a bound on
/// the memory that an input can take.
pub const MAX_INPUT_BYTES: usize = 0x100_0000;

/// The bytes that one read is asked for.
const BUFFER_BYTES: usize = 8192;

/// The reader's bytes up to its end, by at most 16,777,217 reads, of which none follows an error.
///
/// - `Read`: the reader failed, which an interruption is too.
/// - `TooLong`: more than 16,777,216 bytes were read.
/// - `Memory`: out of memory.
pub fn read_whole<R: Read>(alloc: Global, reader: &mut Watched<R>) -> Result<Vec<u8>, RunError>
    ensures whole { IfOk result (λ text. IfSome (R.remaining (inner_of reader.old))
        (λ bytes. text.items ≡ bytes)) }
    ensures end { OnOk result (IsAtEnd (R.remaining (inner_of reader.new))) }
    ensures within { IfOk result (λ text. vec_len text ≤ MAX_INPUT_BYTES) }
    ensures err { IfErr result (λ error. ReadsPart
        (R.remaining (inner_of reader.old)) (R.remaining (inner_of reader.new)) error) }
    ensures failed { has_failed reader.new ≡ (has_failed reader.old || is_read_error result) }
{
    let mut text = Vec::new(alloc);
    let mut buffer = [0u8; BUFFER_BYTES];
    'reads: loop {
        match reader.read(&mut buffer) {
            Err(_) => return Err(RunError::Read),
            Ok(0) => return Ok(text),
            Ok(count) if count > MAX_INPUT_BYTES - text.len() => return Err(RunError::TooLong),
            Ok(count) => text.extend_from_slice(&buffer[..count])?,
        }
    }
}
