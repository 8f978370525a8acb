//! The lines of one stream, and their answers in another.

ghost use Rattle.std.specs.Prelude.{◌≡◌, ◌||◌, false, IfErr, OnOk};
ghost use Rattle.sd_lines.specs.Watched.{inner_of, has_failed};
ghost use Rattle.sd_lines.specs.Streams.{is_read_error, is_write_error};
ghost use Rattle.sd_lines.specs.Answers.{Prints, PrintsAndLeaves};
ghost use Rattle.sd_lines.specs.Output.{AppendsOutput, LeavesAnswers};
ghost use Rattle.sd_lines.specs.Steps.{EndsWith, ends_run};

use crate::answers::AnswersLines;
use crate::form::Form;
use crate::part::answer_parts;
use crate::{RunError, Watched, write_whole};
use std::alloc::Global;
use std::io::{Read, Write};

/// The bytes that one read is asked for: as many as a pipe holds.
const BUFFER_BYTES: usize = 65536;

/// Reads an input to its end, and writes the answer to each of its lines. The lines that end in the bytes of one read
/// are answered, and the answers flushed, before more is read. The last line may lack its end. There is no limit on the
/// number of lines.
///
/// - `Read`: the reader failed; the lines that had ended are answered.
/// - `TooLong`: a line is too long, and `Form` says that this ends the run; the lines before it are answered.
/// - `Write`: the writer failed; a prefix of the answers to what was read was written.
/// - `Memory`: out of memory; the lines that ended in the reads before are answered, and line by line all before the
///   one whose answer failed.
pub fn answer_lines<A: AnswersLines, R: Read, W: Write>(
    alloc: Global,
    answers: &A,
    state: &mut A::State,
    form: Form,
    reader: &mut Watched<R>,
    writer: &mut Watched<W>,
) -> Result<(), RunError>
    ensures ok { OnOk result (AppendsOutput
        (λ text printed. PrintsAndLeaves form (A.answers answers.now) state.old text printed state.new)
        (R.remaining (inner_of reader.old))
        (W.contents (inner_of writer.old)) (W.contents (inner_of writer.new))) }
    ensures err { IfErr result (LeavesAnswers form (Prints form (A.answers answers.now) state.old)
        (R.remaining (inner_of reader.old)) (R.remaining (inner_of reader.new))
        (W.contents (inner_of writer.old)) (W.contents (inner_of writer.new))) }
    ensures read { has_failed reader.new ≡ (has_failed reader.old || is_read_error result) }
    ensures write { has_failed writer.new ≡ (has_failed writer.old || is_write_error result) }
{
    let mut decoder = form.decoder(alloc);
    let mut decoded = Vec::new(alloc);
    let mut line = Vec::new(alloc);
    let mut text = Vec::new(alloc);
    let mut buffer = [0u8; BUFFER_BYTES];
    for _ in 0..u64::MAX {
        decoded.clear();
        match reader.read(&mut buffer) {
            Err(_) => return Err(RunError::Read),
            Ok(0) => {
                decoder.end(&mut decoded)?;
                return answer_end(
                    alloc, answers, state, form, &mut line, &decoded, &mut text, writer,
                );
            }
            Ok(count) => {
                decoder.decode(alloc, &buffer[..count], &mut decoded)?;
                answer_parts(
                    alloc, answers, state, form, &mut line, &decoded, &mut text, writer,
                )?;
            }
        }
    }
    // (no run gets here)
    Err(RunError::Memory)
}

/// Writes the answers to the lines in the bytes with which an input ends. The last line may lack its end.
fn answer_end<A: AnswersLines, W: Write>(
    alloc: Global,
    answers: &A,
    state: &mut A::State,
    form: Form,
    line: &mut Vec<u8>,
    bytes: &[u8],
    text: &mut Vec<u8>,
    writer: &mut Watched<W>,
) -> Result<(), RunError>
    requires { ends_run form line.old.items ≡ false }
    ensures ok { OnOk result (EndsWith form (A.answers answers.now)
        state.old line.old.items (W.contents (inner_of writer.old)) bytes.now
        (λ old start input left. AppendsOutput
        (λ text printed. PrintsAndLeaves form (A.answers answers.now) old text printed state.new)
        input start (W.contents (inner_of writer.new)))) }
    ensures err { IfErr result (λ error. EndsWith form (A.answers answers.now)
        state.old line.old.items (W.contents (inner_of writer.old)) bytes.now
        (λ old start input left. LeavesAnswers form (Prints form (A.answers answers.now) old)
        input left start (W.contents (inner_of writer.new)) error)) }
    ensures only { is_read_error result ≡ false }
    ensures failed { has_failed writer.new ≡ (has_failed writer.old || is_write_error result) }
{
    answer_parts(alloc, answers, state, form, line, bytes, text, writer)?;
    if line.is_empty() {
        return Ok(());
    }
    text.clear();
    answers.answer(alloc, state, form.asked(line), text)?;
    write_whole(writer, text)?;
    Ok(())
}
