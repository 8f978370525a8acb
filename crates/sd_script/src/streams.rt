//! A script over streams.

ghost use Rattle.std.specs.Prelude.{◌≡◌, ◌≢◌, ◌||◌, Err, IfErr, IfOk, false};
ghost use Rattle.sd_lines.specs.Watched.{inner_of, has_failed};
ghost use Rattle.sd_lines.specs.Streams.{is_read_error, is_write_error, ReadsPart};
ghost use Rattle.sd_script.specs.Printed.{PrintsAndCountsServed, PrintsServed};
ghost use Rattle.sd_lines.specs.Output.{AppendsOutput, LeavesAnswers, LeavesOutput};
ghost use Rattle.sd_script.specs.declared.ids.TheConstants.{LINES};
ghost use Rattle.sd_script.specs.declared.script_counts.ScriptCounts.{ScriptCounts};

use crate::ids::{LINES, Script};
use crate::script_counts::ScriptCounts;
use crate::script_options::ScriptOptions;
use crate::script_state::ScriptState;
use sd_lines::{RunError, Watched, answer_lines, answer_text, read_whole, write_whole};
use std::alloc::{AllocError, Global};
use std::io::{Read, Write};

/// Reads a whole script, writes its whole output in this manner, each line as an object of JSON where that is asked
/// for, and returns what is counted of its lines.
///
/// Each line is answered by one line, and a question that has several by them, an empty one the last; an empty line,
/// and one that begins with `#`, by none. A line that can't be carried out is answered by its first fault, and the
/// script goes on.
///
/// - `Read`: the reader failed; nothing was written.
/// - `TooLong`: more than 16,777,216 bytes were read; nothing was written.
/// - `Write`: the writer failed; a prefix of the output was written.
/// - `Memory`: out of memory; nothing was written.
pub fn run<R: Read, W: Write>(
    alloc: Global,
    options: &ScriptOptions,
    reader: &mut Watched<R>,
    writer: &mut Watched<W>,
) -> Result<ScriptCounts, RunError>
    ensures ok { IfOk result (λ counts. AppendsOutput
        (λ text printed. PrintsAndCountsServed false options.now text printed counts)
        (R.remaining (inner_of reader.old))
        (W.contents (inner_of writer.old)) (W.contents (inner_of writer.new))) }
    ensures err { IfErr result (LeavesOutput (λ text printed. (counts : ScriptCounts)
        × PrintsAndCountsServed false options.now text printed counts)
        (R.remaining (inner_of reader.old))
        (W.contents (inner_of writer.old)) (W.contents (inner_of writer.new))) }
    ensures too_long { result ≡ Err RunError.TooLong
        → ReadsPart (R.remaining (inner_of reader.old)) (R.remaining (inner_of reader.new)) RunError.TooLong }
    ensures no_thread { result ≢ Err RunError.Thread }
    ensures read { has_failed reader.new ≡ (has_failed reader.old || is_read_error result) }
    ensures write { has_failed writer.new ≡ (has_failed writer.old || is_write_error result) }
{
    let text = read_whole(alloc, reader)?;
    let (printed, counts) = script_output(alloc, options, &text)?;
    write_whole(writer, &printed)?;
    Ok(counts)
}

/// Reads a script line by line, and writes and flushes the answer to each in this manner before more is read; and
/// returns what is counted of its lines. The last line may lack its line feed; it is answered at the end. There is no
/// limit on the number of lines.
///
/// Where lines have ids, the first word of a line is its id, printable ASCII that doesn't begin with `#`. The rest of
/// the line is answered, and each line of its answer begins with the id and a space, or is an object of JSON that has
/// the id. A line without an id is answered as it is, which changes nothing: `no_command_without_an_id`.
///
/// - `Read`: the reader failed; the lines that had ended are answered.
/// - `TooLong`: a line has more than 16,777,216 bytes; those before it are answered.
/// - `Write`: the writer failed; a prefix of the answers to what was read was written.
/// - `Memory`: out of memory; the lines before one that had ended are answered.
pub fn serve<R: Read, W: Write>(
    alloc: Global,
    options: &ScriptOptions,
    has_ids: bool,
    reader: &mut Watched<R>,
    writer: &mut Watched<W>,
) -> Result<ScriptCounts, RunError>
    ensures ok { IfOk result (λ counts. AppendsOutput
        (λ text printed. PrintsAndCountsServed has_ids options.now text printed counts)
        (R.remaining (inner_of reader.old))
        (W.contents (inner_of writer.old)) (W.contents (inner_of writer.new))) }
    ensures err { IfErr result (LeavesAnswers LINES (PrintsServed has_ids options.now)
        (R.remaining (inner_of reader.old)) (R.remaining (inner_of reader.new))
        (W.contents (inner_of writer.old)) (W.contents (inner_of writer.new))) }
    ensures read { has_failed reader.new ≡ (has_failed reader.old || is_read_error result) }
    ensures write { has_failed writer.new ≡ (has_failed writer.old || is_write_error result) }
{
    let script = Script {
        has_ids,
        style: options.notation.style(),
    };
    let mut state = ScriptState::before_first_line(options);
    answer_lines(alloc, &script, &mut state, LINES, reader, writer)?;
    Ok(state.counts)
}

/// The whole output of a script that is carried out in this manner, and what is counted of its lines. The only error is
/// out of memory.
fn script_output(
    alloc: Global,
    options: &ScriptOptions,
    text: &[u8],
) -> Result<(Vec<u8>, ScriptCounts), AllocError>
    ensures { IfOk result (λ output. PrintsAndCountsServed false options.now text.now output.0.items output.1) }
{
    let script = Script {
        has_ids: false,
        style: options.notation.style(),
    };
    let mut state = ScriptState::before_first_line(options);
    let mut printed = Vec::new(alloc);
    answer_text(alloc, &script, &mut state, LINES, text, &mut printed)?;
    Ok((printed, state.counts))
}
