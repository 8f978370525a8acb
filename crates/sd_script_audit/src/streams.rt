//! An audit over streams.

ghost use Rattle.std.specs.Prelude.{◌≡◌, ◌||◌, Err, IfErr, IfOk};
ghost use Rattle.sd_lines.specs.Watched.{inner_of, has_failed};
ghost use Rattle.sd_lines.specs.Streams.{is_read_error, is_write_error, ReadsPart};
ghost use Rattle.sd_script_audit.specs.Audit.{PrintsAudit, PrintsAuditAndCounts};
ghost use Rattle.sd_lines.specs.Output.{AppendsOutput, LeavesOutput};

use crate::output::audit_output;
use sd_lines::{RunError, Watched, read_whole, write_whole};
use sd_script::{ScriptCounts, ScriptOptions};
use sd_store::Gate;
use std::alloc::Global;
use std::io::{Read, Write};
use std::sync::Wait;
use std::thread::Threads;

/// Reads a whole script, writes its whole output as an audit's in this manner, each line as an object of JSON where
/// that is asked for, and returns what is counted of its lines. Its checks are answered at the end, by all that was
/// published, dealt among so many workers, 1 to 64. `OpenGate` lets each check through.
///
/// - `Read`: the reader failed; nothing was written.
/// - `TooLong`: more than 16,777,216 bytes were read; nothing was written.
/// - `Write`: the writer failed; a prefix of the output was written.
/// - `Memory`: out of memory; nothing was written.
/// - `Thread`: the gate was closed, or the store that the workers share gave no place or nothing to read; nothing was
///   written.
pub fn run_audit<T: Threads + Wait + Sync, R: Read, W: Write, G: Gate + Sync>(
    rt: &T,
    alloc: Global,
    workers: u64,
    options: &ScriptOptions,
    reader: &mut Watched<R>,
    writer: &mut Watched<W>,
    gate: &G,
) -> Result<ScriptCounts, RunError>
    ensures ok { IfOk result (λ counts. AppendsOutput
        (λ text printed. PrintsAuditAndCounts options.now workers text printed counts)
        (R.remaining (inner_of reader.old))
        (W.contents (inner_of writer.old)) (W.contents (inner_of writer.new))) }
    ensures err { IfErr result (LeavesOutput (PrintsAudit options.now workers)
        (R.remaining (inner_of reader.old))
        (W.contents (inner_of writer.old)) (W.contents (inner_of writer.new))) }
    ensures too_long { result ≡ Err RunError.TooLong
        → ReadsPart (R.remaining (inner_of reader.old)) (R.remaining (inner_of reader.new)) RunError.TooLong }
    ensures read { has_failed reader.new ≡ (has_failed reader.old || is_read_error result) }
    ensures write { has_failed writer.new ≡ (has_failed writer.old || is_write_error result) }
{
    let text = read_whole(alloc, reader)?;
    let (printed, counts) = audit_output(rt, alloc, workers, options, &text, gate)?;
    write_whole(writer, &printed)?;
    Ok(counts)
}
