//! A command line, carried out over streams.
ghost use Rattle.std.specs.Prelude.{◌≡◌, ◌≢◌, ◌||◌, ℕ, List, [], Option, None, false, Err, IfErr, IfOk, string_bytes};
ghost use Rattle.std.specs.Io.KnownBytes.{Appends};
ghost use Rattle.sd_line.specs.Printed.{printed};
ghost use Rattle.sd_lines.specs.Watched.{has_failed, inner_of};
ghost use Rattle.sd_lines.specs.Streams.{ReadsPart, is_read_error, is_write_error};
ghost use Rattle.sd_commands.specs.Answer.{answer_of, outcome_status};
ghost use Rattle.sd_command_line.specs.Answer.{Answers};
ghost use Rattle.sd_questions.specs.TextAnswer.{printed_as};
ghost use Rattle.sd_commands.specs.declared.command_answer.Outcome.TheVariants.{Done};
ghost use Rattle.sd_arguments.specs.CommandLine.{CommandLineValue, IsAudit, Runs, Script, command_line_of};
ghost use Rattle.sd_arguments.specs.CommandLine.{uses_input};
ghost use Rattle.sd_arguments.specs.Options.{has, options_of};
ghost use Rattle.sd_command_line.specs.Output.{AppendsAnswerTo, LeavesAfter, tells_faults};

use crate::scripts::end_of_script;
use sd_arguments::{CommandLine, Invocation, Options, ProgramRequest, ScriptRun, version_text};
use sd_commands::{Answer, Outcome};
use sd_line::{Style, Tag, push_printed};
use sd_lines::{RunError, Watched, write_whole};
use sd_questions::{Ended, answer_each, answer_to, bad_value};
use sd_script::{run, serve};
use sd_script_audit::run_audit;
use sd_store::OpenGate;
use sd_usage::{OptionName, help};
use std::alloc::Global;
use std::io::{Read, Write};
use std::sync::Wait;
use std::thread::Threads;

/// Carries out a command line. Only what is answered from the input uses `reader`.
pub(crate) fn perform<T: Threads + Wait + Sync, R: Read, W: Write>(
    rt: &T,
    alloc: Global,
    line: CommandLine<'_>,
    reader: &mut Watched<R>,
    writer: &mut Watched<W>,
) -> Result<Ended, RunError>
    ensures ok { IfOk result (λ ended. AppendsAnswerTo (command_line_of line.entry) (R.remaining (inner_of reader.old))
        (W.contents (inner_of writer.old)) (W.contents (inner_of writer.new)) (string_bytes ended.told)
        (outcome_status (tells_faults (command_line_of line.entry)) ended.outcome)) }
    ensures err { IfErr result (LeavesAfter (command_line_of line.entry) (R.remaining (inner_of reader.old))
        (R.remaining (inner_of reader.new))
        (W.contents (inner_of writer.old)) (W.contents (inner_of writer.new))) }
    ensures read { has_failed reader.new ≡ (has_failed reader.old || is_read_error result) }
    ensures write { has_failed writer.new ≡ (has_failed writer.old || is_write_error result) }
    ensures too_long { result ≡ Err RunError.TooLong
        → ReadsPart (R.remaining (inner_of reader.old)) (R.remaining (inner_of reader.new)) RunError.TooLong }
    ensures thread { result ≡ Err RunError.Thread → IsAudit (command_line_of line.entry) }
    ensures unused { uses_input (command_line_of line.entry) ≡ false → reader.new ≡ reader.old }
{
    let options = line.options;
    match line.asked {
        ProgramRequest::Help { command } => { print_text(alloc, help(alloc, command)?, writer) }
        ProgramRequest::Version => { print_text(alloc, version_text(alloc)?, writer) }
        ProgramRequest::Runs(Invocation::Ask { text, request }) => {
            let answer = answer_to(alloc, options, text, request, reader)?;
            print(alloc, options.style(), answer, writer)
        }
        ProgramRequest::Runs(Invocation::Each { given, request }) => {
            answer_each(alloc, options, given, request, reader, writer)
        }
        ProgramRequest::Runs(Invocation::Script(run)) => {
            perform_script(rt, alloc, options, run, reader, writer)
        }
    }
}

/// Carries out a script.
fn perform_script<T: Threads + Wait + Sync, R: Read, W: Write>(
    rt: &T,
    alloc: Global,
    options: Options<'_>,
    script_run: ScriptRun,
    reader: &mut Watched<R>,
    writer: &mut Watched<W>,
) -> Result<Ended, RunError>
    ensures ok { IfOk result (λ ended. AppendsAnswerTo (Runs (options_of options.entry) (Script script_run))
        (R.remaining (inner_of reader.old))
        (W.contents (inner_of writer.old)) (W.contents (inner_of writer.new)) (string_bytes ended.told)
        (outcome_status (has (options_of options.entry) OptionName.StrictStatus) ended.outcome)) }
    ensures err { IfErr result (LeavesAfter (Runs (options_of options.entry) (Script script_run))
        (R.remaining (inner_of reader.old)) (R.remaining (inner_of reader.new))
        (W.contents (inner_of writer.old)) (W.contents (inner_of writer.new))) }
    ensures read { has_failed reader.new ≡ (has_failed reader.old || is_read_error result) }
    ensures write { has_failed writer.new ≡ (has_failed writer.old || is_write_error result) }
    ensures too_long { result ≡ Err RunError.TooLong
        → ReadsPart (R.remaining (inner_of reader.old)) (R.remaining (inner_of reader.new)) RunError.TooLong }
    ensures thread { result ≡ Err RunError.Thread → IsAudit (Runs (options_of options.entry) (Script script_run)) }
{
    let is_strict = options.has(OptionName::Strict) || options.has(OptionName::StrictStatus);
    let run_options = match options.script_options() {
        Ok(run_options) => run_options,
        Err(bad) => {
            let answer = bad_value(alloc, bad)?;
            return print(alloc, options.style(), answer, writer);
        }
    };
    match script_run {
        ScriptRun::AtOnce => {
            let counts = run(alloc, &run_options, reader, writer)?;
            Ok(end_of_script(alloc, is_strict, &counts))
        }
        ScriptRun::LineByLine { has_ids } => {
            let counts = serve(alloc, &run_options, has_ids, reader, writer)?;
            Ok(end_of_script(alloc, is_strict, &counts))
        }
        ScriptRun::Audit { workers } => {
            let counts = run_audit(rt, alloc, workers, &run_options, reader, writer, &OpenGate)?;
            Ok(end_of_script(alloc, is_strict, &counts))
        }
    }
}

/// Prints an answer, or an object for each of its lines. It is the whole answer to each line that it answers so.
pub(crate) fn print<W: Write>(
    alloc: Global,
    style: Style,
    answer: Answer,
    writer: &mut Watched<W>,
) -> Result<Ended, RunError>
    ensures ok { (line : CommandLineValue) → (input : Option (List ℕ))
        → Answers input line (printed_as style (answer_of answer))
        → IfOk result (λ ended. AppendsAnswerTo line input
        (W.contents (inner_of writer.old)) (W.contents (inner_of writer.new)) (string_bytes ended.told)
        (outcome_status (tells_faults line) ended.outcome)) }
    ensures whole { IfOk result (λ ended. Appends (W.contents (inner_of writer.old)) (W.contents (inner_of writer.new))
        (printed style None answer.lines.items) × (string_bytes ended.told ≡ string_bytes answer.told)
        × (ended.outcome ≡ answer.outcome)) }
    ensures err { (line : CommandLineValue) → (input left : Option (List ℕ))
        → Answers input line (printed_as style (answer_of answer))
        → IfErr result (LeavesAfter line input left
        (W.contents (inner_of writer.old)) (W.contents (inner_of writer.new))) }
    ensures only { IfErr result (λ error. (error ≢ RunError.Read) × (error ≢ RunError.TooLong)
        × (error ≢ RunError.Thread)) }
    ensures write { has_failed writer.new ≡ (has_failed writer.old || is_write_error result) }
{
    let Answer {
        lines,
        told,
        outcome,
    } = answer;
    let mut printed = Vec::new(alloc);
    push_printed(alloc, &mut printed, style, Tag::None, &lines)?;
    write_whole(writer, &printed)?;
    Ok(Ended { told, outcome })
}

/// Prints a text, which is the whole answer to each line that it answers so.
fn print_text<W: Write>(
    alloc: Global,
    text: String,
    writer: &mut Watched<W>,
) -> Result<Ended, RunError>
    ensures ok { (line : CommandLineValue) → (input : Option (List ℕ))
        → Answers input line (record { printed = string_bytes text; told = []; outcome = Done })
        → IfOk result (λ ended. AppendsAnswerTo line input
        (W.contents (inner_of writer.old)) (W.contents (inner_of writer.new)) (string_bytes ended.told)
        (outcome_status (tells_faults line) ended.outcome)) }
    ensures err { (line : CommandLineValue) → (input left : Option (List ℕ))
        → Answers input line (record { printed = string_bytes text; told = []; outcome = Done })
        → IfErr result (LeavesAfter line input left
        (W.contents (inner_of writer.old)) (W.contents (inner_of writer.new))) }
    ensures only { IfErr result (λ error. (error ≢ RunError.Read) × (error ≢ RunError.TooLong)
        × (error ≢ RunError.Thread)) }
    ensures write { has_failed writer.new ≡ (has_failed writer.old || is_write_error result) }
{
    write_whole(writer, text.as_bytes())?;
    Ok(Ended {
        told: String::new(alloc),
        outcome: Outcome::Done,
    })
}
