//! The one answer of a command to a text.
ghost use Rattle.std.specs.Prelude.{◌≡◌, ◌≢◌, ◌||◌, ◌++◌, true, Err, IfErr, IfOk, codes, is_some, option_map};
ghost use Rattle.sd_lines.specs.Watched.{has_failed, inner_of};
ghost use Rattle.sd_lines.specs.Streams.{ReadsPart, is_read_error};
ghost use Rattle.sd_commands.specs.Answer.{answer_of};
ghost use Rattle.sd_commands.specs.Escaped.{escaped};
ghost use Rattle.sd_questions.specs.TextAnswer.{Advising, AnswersOnce, IsBadOption, IsBadValue};
ghost use Rattle.sd_arguments.specs.CommandLine.{request_of};
ghost use Rattle.sd_arguments.specs.Options.{options_of};

use crate::advised::{advised, with_advice};
use crate::found::found_in_concern;
use crate::input::answer_input;
use crate::remedies::row_line;
use sd_arguments::{BadValue, Options, TextRequest};
use sd_commands::{Answer, concern_reason, escaped_word, fault, sid_reason, told_line};
use sd_lines::{RunError, Watched, read_whole};
use sd_text::Aliases;
use std::alloc::{AllocError, Global};
use std::io::Read;

const NO_MAPPING: &str =
    "no such mapping: file, folder, share, ds, key, service, scm, printer, process, section, token, or R,W,X,A";

/// The answer to a text, or without one to the input. Only without one it uses `reader`.
pub fn answer_to<R: Read>(
    alloc: Global,
    options: Options<'_>,
    text: Option<&str>,
    request: TextRequest<'_>,
    reader: &mut Watched<R>,
) -> Result<Answer, RunError>
    ensures ok { IfOk result (λ answer. AnswersOnce (R.remaining (inner_of reader.old)) (options_of options.entry)
        (option_map (λ text. text.now) text.entry) (request_of request.entry) (answer_of answer)) }
    ensures err { IfErr result (λ error. (error ≢ RunError.Write) × (error ≢ RunError.Thread)) }
    ensures read { has_failed reader.new ≡ (has_failed reader.old || is_read_error result) }
    ensures too_long { result ≡ Err RunError.TooLong
        → ReadsPart (R.remaining (inner_of reader.old)) (R.remaining (inner_of reader.new)) RunError.TooLong }
    ensures unused { is_some text.entry ≡ true → reader.new ≡ reader.old }
{
    let settings = &match options.settings() {
        Ok(settings) => settings,
        Err(bad) => return Ok(advised_value(alloc, bad)?),
    };
    match text {
        Some(text) => Ok(advised(alloc, settings, request, text)?),
        None => {
            let input = read_whole(alloc, reader)?;
            Ok(answer_input(alloc, settings, request, &input)?)
        }
    }
}

/// The answer to an option whose value isn't read, and what mends it.
fn advised_value(alloc: Global, bad: BadValue<'_>) -> Result<Answer, AllocError>
    ensures { IfOk result (λ answer. Advising (IsBadValue bad.entry) (answer_of answer)) }
{
    let answer = bad_value(alloc, bad)?;
    let advice = value_advice(alloc, bad)?;
    with_advice(answer, advice.as_str())
}

/// What mends the value of an option, or nothing.
fn value_advice(alloc: Global, bad: BadValue<'_>) -> Result<String, AllocError> {
    let row = match bad {
        BadValue::NoConcern { text, known, .. } => found_in_concern(known, text),
        _ => None,
    };
    match row {
        Some(row) => row_line(alloc, row),
        None => Ok(String::new(alloc)),
    }
}

/// The answer to an option whose value isn't read. The only error is out of memory.
pub fn bad_value(alloc: Global, bad: BadValue<'_>) -> Result<Answer, AllocError>
    ensures { IfOk result (λ answer. IsBadValue bad.entry (answer_of answer)) }
{
    match bad {
        BadValue::NoDomain { text, points } => {
            let known = Aliases {
                domain: None,
                later: false,
            };
            let unfit = "no domain: S-1-5-21 and three numbers, as S-1-5-21-1-2-3";
            let reason = sid_reason(alloc, points, known, unfit, text)?;
            bad_option(alloc, "domain", reason.as_str())
        }
        BadValue::NoAccounts => bad_option(alloc, "accounts", "the file isn't read here"),
        BadValue::NoMapping => bad_option(alloc, "mapping", NO_MAPPING),
        BadValue::NoLogon => {
            let reason = "no such logon: interactive, network, batch, service, anonymous";
            bad_option(alloc, "logon", reason)
        }
        BadValue::NoConcern {
            text,
            known,
            points,
        } => {
            let reason = concern_reason(alloc, points, known, text)?;
            bad_concern(alloc, text, reason.as_str())
        }
        BadValue::NoType { text } => bad_type(alloc, text),
        BadValue::NoSelf {
            text,
            known,
            points,
        } => {
            let reason = sid_reason(alloc, points, known, "no SID", text)?;
            bad_option(alloc, "self", reason.as_str())
        }
        BadValue::NoNodes => bad_option(alloc, "nodes", "no number of nodes, 1 to 16777216"),
        BadValue::NoEdits => bad_option(alloc, "edits", "no number of edits, 0 to 4294967296"),
    }
}

/// The answer to an object type that this text isn't.
fn bad_type(alloc: Global, text: &str) -> Result<Answer, AllocError>
    ensures { IfOk result (λ answer. IsBadOption (codes "type") (codes "\"" ++ escaped text.now
        ++ codes "\": no object type: a GUID, as bf9679c0-0de6-11d0-a285-00aa003049e2") (answer_of answer)) }
{
    let shown = escaped_word(alloc, text)?;
    let shown = shown.as_str();
    let what = "no object type: a GUID, as bf9679c0-0de6-11d0-a285-00aa003049e2";
    let reason = format!(in alloc; "\"{shown}\": {what}")?;
    bad_option(alloc, "type", reason.as_str())
}

/// The answer to SIDs of concern of which this text isn't taken for this reason.
fn bad_concern(alloc: Global, text: &str, reason: &str) -> Result<Answer, AllocError>
    ensures { IfOk result (λ answer. IsBadOption (codes "concern")
        (codes "\"" ++ escaped text.now ++ codes "\": " ++ reason.now) (answer_of answer)) }
{
    let shown = escaped_word(alloc, text)?;
    let shown = shown.as_str();
    let reason = format!(in alloc; "\"{shown}\": {reason}")?;
    bad_option(alloc, "concern", reason.as_str())
}

/// The answer to the option of this name, whose value isn't read for this reason.
fn bad_option(alloc: Global, name: &str, reason: &str) -> Result<Answer, AllocError>
    ensures { IfOk result (λ answer. IsBadOption name.now reason.now (answer_of answer)) }
{
    let option = format!(in alloc; "--{name}")?;
    let told = told_line(alloc, option.as_str(), reason)?;
    fault(alloc, name, told)
}
