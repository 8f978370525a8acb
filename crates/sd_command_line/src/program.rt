//! The program over any words and streams: words in, an answer and a status out.
ghost use Rattle.std.specs.Prelude.{◌≡◌, ◌≤◌, ◌⊎◌, ℕ, List, false};
ghost use Rattle.std.specs.Io.KnownBytes.{Keeps};
ghost use Rattle.sd_lines.specs.Watched.{has_failed, inner_of};
ghost use Rattle.sd_lines.specs.Streams.{AppendsBeginning};
ghost use Rattle.sd_commands.specs.Answer.{outcome_status};
ghost use Rattle.sd_arguments.specs.CommandLine.{IsUnread, asks_input, command_line_of};
ghost use Rattle.sd_arguments.specs.UsageError.{IsMessage};
ghost use Rattle.sd_command_line.specs.Output.{AppendsAnswer, IsDue, LeavesOf, error_line};
ghost use Rattle.sd_command_line.specs.Output.{tells_faults};

use crate::perform::perform;
use sd_arguments::{CommandLine, ProgramRequest, message, read_command_line};
use sd_commands::Outcome;
use sd_lines::{RunError, Watched, write_whole};
use sd_questions::Ended;
use sd_usage::OptionName;
use std::alloc::Global;
use std::io::{Read, Write};
use std::sync::Wait;
use std::thread::Threads;

/// Does what the program does with these words, of which the first is its name, and with these
/// streams, and answers the status with which it ends. Only `script`, `serve`, `audit`, `each` and a command after
/// `--stdin` use `reader`, and only `audit` starts threads and waits for them.
///
/// - 0: the text was printed, or the right granted, or the script carried out to its end, some line of it at least.
///   Help and the version are such texts.
/// - 1: a verdict other than granted was printed, a difference or a finding; without `--strict-status` also a fault,
///   or no line of a script was carried out.
/// - 2: the words aren't a command line, and `errors` has a message about one of them.
/// - 3: memory was wanting, a stream failed, the script was too long, or an audit's workers got no
///   answers: `errors` has `sdstore: memory`, `sdstore: read`, `sdstore: write`,
///   `sdstore: too long` or `sdstore: thread`.
/// - 4: with `--strict-status`, a fault was printed: an argument or an input can't be parsed; or no line of a script
///   was carried out.
pub fn drive<T: Threads + Wait + Sync, R: Read, W: Write, E: Write>(
    rt: &T,
    alloc: Global,
    words: &[&str],
    reader: &mut Watched<R>,
    writer: &mut Watched<W>,
    errors: &mut Watched<E>,
) -> u8
    ensures statuses { result ≤ 4 }
    ensures answered { result ≤ 1 → (told : List ℕ)
        × AppendsAnswer words.now (R.remaining (inner_of reader.old))
        (W.contents (inner_of writer.old)) (W.contents (inner_of writer.new)) told result
        × AppendsBeginning (E.contents (inner_of errors.old)) (E.contents (inner_of errors.new)) told }
    ensures faulty { result ≡ 4 → (told : List ℕ)
        × AppendsAnswer words.now (R.remaining (inner_of reader.old))
        (W.contents (inner_of writer.old)) (W.contents (inner_of writer.new)) told result
        × AppendsBeginning (E.contents (inner_of errors.old)) (E.contents (inner_of errors.new)) told }
    ensures unread { result ≡ 2 → IsUnread words.now
        × Keeps (W.contents (inner_of writer.old)) (W.contents (inner_of writer.new)) }
    ensures mistaken { result ≡ 2 → (message : List ℕ) × IsMessage words.now message
        × AppendsBeginning (E.contents (inner_of errors.old)) (E.contents (inner_of errors.new)) message }
    ensures refused { IsUnread words.now → (2 ≤ result)
        × Keeps (W.contents (inner_of writer.old)) (W.contents (inner_of writer.new)) }
    ensures failed { result ≡ 3 → (error : RunError)
        × IsDue words.now (has_failed reader.old) (has_failed reader.new)
        (has_failed writer.old) (has_failed writer.new)
        (R.remaining (inner_of reader.old)) (R.remaining (inner_of reader.new)) error
        × LeavesOf words.now (R.remaining (inner_of reader.old)) (R.remaining (inner_of reader.new))
        (W.contents (inner_of writer.old)) (W.contents (inner_of writer.new)) error
        × AppendsBeginning (E.contents (inner_of errors.old)) (E.contents (inner_of errors.new)) (error_line error) }
    ensures sound { result ≤ 2 → (has_failed reader.new ≡ has_failed reader.old)
        × (has_failed writer.new ≡ has_failed writer.old) }
    ensures sound_fault { result ≡ 4 → (has_failed reader.new ≡ has_failed reader.old)
        × (has_failed writer.new ≡ has_failed writer.old) }
    ensures unused { asks_input words.now ≡ false → reader.new ≡ reader.old }
{
    match read_command_line(words) {
        Ok(line) => match perform(rt, alloc, line, reader, writer) {
            Ok(Ended { told, outcome }) => {
                tell(errors, told.as_str());
                status_of(line, outcome)
            }
            Err(error) => {
                tell(errors, error_line(error));
                3
            }
        },
        Err(usage_error) => match message(alloc, words, usage_error) {
            Ok(text) => {
                tell(errors, text.as_str());
                2
            }
            Err(_) => {
                tell(errors, error_line(RunError::Memory));
                3
            }
        },
    }
}

/// The status of what came of a command line: that of a fault is one of its own where that is asked for.
pub(crate) fn status_of(line: CommandLine<'_>, outcome: Outcome) -> u8
    ensures status { result ≡ outcome_status (tells_faults (command_line_of line.entry)) outcome }
    ensures within { (result ≤ 1) ⊎ (result ≡ 4) }
{
    match line.asked {
        ProgramRequest::Runs(_) => outcome.status(line.options.has(OptionName::StrictStatus)),
        _ => outcome.status(false),
    }
}

/// Tells standard error. What stands, stands also where the errors can't be written.
pub(crate) fn tell<E: Write>(errors: &mut Watched<E>, text: &str)
    ensures { AppendsBeginning (E.contents (inner_of errors.old)) (E.contents (inner_of errors.new)) text.now }
{
    let _ = write_whole(errors, text.as_bytes());
}

pub(crate) fn error_line(error: RunError) -> &'static str
    ensures { result.now ≡ error_line error }
{
    match error {
        RunError::Read => "sdstore: read\n",
        RunError::TooLong => "sdstore: too long\n",
        RunError::Write => "sdstore: write\n",
        RunError::Memory => "sdstore: memory\n",
        RunError::Thread => "sdstore: thread\n",
    }
}
