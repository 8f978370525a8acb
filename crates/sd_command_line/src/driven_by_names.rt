//! The program over words that name accounts.
ghost use Rattle.std.specs.Prelude.{◌≡◌, ◌≢◌, ◌≤◌, ℕ, List, IfNone, IfOk, IfSome, Err, option_map, string_bytes};
ghost use Rattle.sd_lines.specs.Streams.{AppendsBeginning};
ghost use Rattle.sd_lines.specs.Watched.{inner_of};
ghost use Rattle.sd_accounts.specs.Accounts.{rows_of};
ghost use Rattle.sd_named.specs.File.{AreAccounts};
ghost use Rattle.sd_named.specs.declared.arguments.NamedError.{NamedError};
ghost use Rattle.sd_named_questions.specs.Answer.{AnswersNamed};
ghost use Rattle.sd_named_questions.specs.declared.answer.NamedRunError.TheVariants.{Named, Run};
ghost use Rattle.sd_commands.specs.Answer.{answer_of, outcome_status};
ghost use Rattle.sd_arguments.specs.CommandLine.{command_line_of, request_of};
ghost use Rattle.sd_arguments.specs.Options.{has, options_of};
ghost use Rattle.sd_questions.specs.Output.{AppendsWhole};
ghost use Rattle.sd_command_line.specs.Answer.{IsPrinted};
ghost use Rattle.sd_command_line.specs.ByName.{AppendsByName, AppendsFault, EndsByName, IsFaultAlone};
ghost use Rattle.sd_command_line.specs.Names.{request_in};
ghost use Rattle.sd_command_line.specs.Output.{tells_faults};
ghost use Rattle.sd_command_line.specs.declared.driven_by_names.NamesFault.TheVariants.{Memory};

use crate::names::{asked_options, without_accounts};
use crate::perform::print;
use crate::program::{drive, error_line, status_of, tell};
use sd_accounts::{Accounts, AccountsFault, NameError};
use sd_arguments::{
    CommandLine, Invocation, Options, ProgramRequest, TextRequest, read_command_line,
};
use sd_commands::{Answer, fault, told_line};
use sd_line::Style;
use sd_lines::{RunError, Watched};
use sd_named::{FileError, NamedError, accounts_of};
use sd_named_questions::{NamedRunError, answer_each_named, answer_named};
use sd_questions::Ended;
use sd_usage::OptionName;
use std::alloc::{AllocError, Global};
use std::io::{Read, Write};
use std::sync::Wait;
use std::thread::Threads;

/// Why words that name accounts aren't answered.
#[derive(Clone, Copy)]
enum NamesFault {
    /// The accounts file isn't UTF-8.
    Utf8,
    /// This line of it is no row.
    Row { line: u64, kind: AccountsFault },
    /// A name is nobody's, or may be that of two; or the user can't log on.
    Named(NamedError),
    Memory,
}

impl From<AllocError> for NamesFault {
    ghost from_gives = { λ _ e. e ≡ Memory };

    fn from(_error: AllocError) -> NamesFault {
        NamesFault::Memory
    }
}

/// Does what `drive` does with words that name accounts of this text of an accounts file: with SIDs in the place of the
/// names, and with the groups that a user has. The answer to a question about a text is told by people. Where a line of
/// the file is no row, or a name isn't one account's, that fault is the answer, with its status.
pub fn drive_named<T: Threads + Wait + Sync, R: Read, W: Write, E: Write>(
    rt: &T,
    alloc: Global,
    words: &[&str],
    text: &[u8],
    reader: &mut Watched<R>,
    writer: &mut Watched<W>,
    errors: &mut Watched<E>,
) -> u8
    ensures statuses { result ≤ 4 }
    ensures answered { result ≤ 1 → (told : List ℕ)
        × EndsByName text.now words.now (R.remaining (inner_of reader.old))
        (W.contents (inner_of writer.old)) (W.contents (inner_of writer.new)) told result
        × AppendsBeginning (E.contents (inner_of errors.old)) (E.contents (inner_of errors.new)) told }
    ensures faulty { result ≡ 4 → (told : List ℕ)
        × EndsByName text.now words.now (R.remaining (inner_of reader.old))
        (W.contents (inner_of writer.old)) (W.contents (inner_of writer.new)) told result
        × AppendsBeginning (E.contents (inner_of errors.old)) (E.contents (inner_of errors.new)) told }
{
    let accounts = match accounts_in(alloc, text) {
        Ok(accounts) => accounts,
        Err(names_fault) => {
            return tell_fault(alloc, asked_options(words), names_fault, writer, errors);
        }
    };
    let own = match without_accounts(alloc, words) {
        Ok(own) => own,
        Err(_) => return failed(errors, RunError::Memory),
    };
    match read_command_line(&own) {
        Ok(line) => match perform_named(alloc, &accounts, line, reader, writer) {
            Some(ran) => end_named(alloc, line, ran, writer, errors),
            None => drive(rt, alloc, &own, reader, writer, errors),
        },
        Err(_) => drive(rt, alloc, &own, reader, writer, errors),
    }
}

/// Carries out a command line about a text or about each line.
fn perform_named<R: Read, W: Write>(
    alloc: Global,
    accounts: &Accounts,
    line: CommandLine<'_>,
    reader: &mut Watched<R>,
    writer: &mut Watched<W>,
) -> Option<Result<Ended, NamedRunError>>
    ensures ok { IfSome result (λ ran. IfOk ran (λ ended.
        AppendsByName (rows_of accounts.now) (command_line_of line.entry) (R.remaining (inner_of reader.old))
        (W.contents (inner_of writer.old)) (W.contents (inner_of writer.new)) (string_bytes ended.told)
        (outcome_status (tells_faults (command_line_of line.entry)) ended.outcome))) }
    ensures unwritten { IfSome result (λ ran. (error : NamedError) → ran ≡ Err (Named error)
        → writer.new ≡ writer.old) }
    ensures none { IfNone result ((request_in (command_line_of line.entry) ≡ None)
        × (reader.new ≡ reader.old) × (writer.new ≡ writer.old)) }
{
    let options = line.options;
    match line.asked {
        ProgramRequest::Runs(Invocation::Ask { text, request }) => {
            Some(ask_named(alloc, accounts, options, text, request, reader, writer))
        }
        ProgramRequest::Runs(Invocation::Each { given, request }) => Some(answer_each_named(
            alloc, accounts, options, given, request, reader, writer,
        )),
        _ => None,
    }
}

/// Prints the answer by people to a question about a text.
fn ask_named<R: Read, W: Write>(
    alloc: Global,
    accounts: &Accounts,
    options: Options<'_>,
    text: Option<&str>,
    request: TextRequest<'_>,
    reader: &mut Watched<R>,
    writer: &mut Watched<W>,
) -> Result<Ended, NamedRunError>
    ensures ok { IfOk result (λ ended. AppendsWhole (has (options_of options.entry) OptionName.StrictStatus)
        (IsPrinted (options_of options.entry) (AnswersNamed (rows_of accounts.now) (options_of options.entry)
        (option_map (λ text. text.now) text.entry) (request_of request.entry) (R.remaining (inner_of reader.old))))
        (W.contents (inner_of writer.old)) (W.contents (inner_of writer.new)) (string_bytes ended.told)
        (outcome_status (has (options_of options.entry) OptionName.StrictStatus) ended.outcome)) }
    ensures unwritten { (error : NamedError) → result ≡ Err (Named error) → writer.new ≡ writer.old }
{
    let answer = answer_named(alloc, accounts, options, text, request, reader)?;
    Ok(print(alloc, options.style(), answer, writer)?)
}

/// How a command line that was carried out ends.
fn end_named<W: Write, E: Write>(
    alloc: Global,
    line: CommandLine<'_>,
    ran: Result<Ended, NamedRunError>,
    writer: &mut Watched<W>,
    errors: &mut Watched<E>,
) -> u8
    ensures within { result ≤ 4 }
    ensures ok { IfOk ran (λ ended. (result ≡ outcome_status (tells_faults (command_line_of line.entry)) ended.outcome)
        × (writer.new ≡ writer.old)
        × AppendsBeginning (E.contents (inner_of errors.old)) (E.contents (inner_of errors.new))
        (string_bytes ended.told)) }
    ensures named { (error : NamedError) → ran ≡ Err (Named error) → result ≢ 3
        → AppendsFault (W.contents (inner_of writer.old)) (W.contents (inner_of writer.new)) result
        × ((told : List ℕ) × AppendsBeginning (E.contents (inner_of errors.old)) (E.contents (inner_of errors.new))
        told) }
    ensures failed { (error : RunError) → ran ≡ Err (Run error) → result ≡ 3 }
{
    match ran {
        Ok(Ended { told, outcome }) => {
            tell(errors, told.as_str());
            status_of(line, outcome)
        }
        Err(NamedRunError::Named(error)) => {
            let asked = (
                line.options.style(),
                line.options.has(OptionName::StrictStatus),
            );
            tell_fault(alloc, asked, NamesFault::Named(error), writer, errors)
        }
        Err(NamedRunError::Run(error)) => failed(errors, error),
    }
}

/// The accounts of a file's text, and those that need no file.
fn accounts_in(alloc: Global, text: &[u8]) -> Result<Accounts, NamesFault>
    ensures { IfOk result (λ accounts. AreAccounts text.now (rows_of accounts)) }
{
    match accounts_of(alloc, text) {
        Ok(accounts) => Ok(accounts),
        Err(FileError::Utf8 { .. }) => Err(NamesFault::Utf8),
        Err(FileError::Row { line, kind }) => Err(NamesFault::Row { line, kind }),
        Err(FileError::Memory) => Err(NamesFault::Memory),
    }
}

/// The status after an error, which standard error is told.
pub(crate) fn failed<E: Write>(errors: &mut Watched<E>, error: RunError) -> u8
    ensures { result ≡ 3 }
{
    tell(errors, error_line(error));
    3
}

/// Prints why words that name accounts aren't answered; the status is that of a fault.
fn tell_fault<W: Write, E: Write>(
    alloc: Global,
    asked: (Style, bool),
    names_fault: NamesFault,
    writer: &mut Watched<W>,
    errors: &mut Watched<E>,
) -> u8
    ensures within { result ≤ 4 }
    ensures fault { result ≢ 3 → AppendsFault (W.contents (inner_of writer.old)) (W.contents (inner_of writer.new))
        result × ((told : List ℕ)
        × AppendsBeginning (E.contents (inner_of errors.old)) (E.contents (inner_of errors.new)) told) }
{
    match fault_answer(alloc, names_fault) {
        Ok(answer) => print_fault(alloc, asked, answer, writer, errors),
        Err(_) => failed(errors, RunError::Memory),
    }
}

/// Prints a fault in the style, and what standard error says of it; the status is that of one, which is one of its own
/// where that is asked for.
pub(crate) fn print_fault<W: Write, E: Write>(
    alloc: Global,
    asked: (Style, bool),
    answer: Answer,
    writer: &mut Watched<W>,
    errors: &mut Watched<E>,
) -> u8
    requires { IsFaultAlone (answer_of answer) }
    ensures within { result ≤ 4 }
    ensures fault { result ≢ 3 → AppendsFault (W.contents (inner_of writer.old)) (W.contents (inner_of writer.new))
        result × ((told : List ℕ)
        × AppendsBeginning (E.contents (inner_of errors.old)) (E.contents (inner_of errors.new)) told) }
{
    let (style, is_strict) = asked;
    match print(alloc, style, answer, writer) {
        Ok(Ended { told, .. }) => {
            tell(errors, told.as_str());
            if is_strict { 4 } else { 1 }
        }
        Err(error) => failed(errors, error),
    }
}

/// The answer that is this fault.
fn fault_answer(alloc: Global, names_fault: NamesFault) -> Result<Answer, AllocError>
    ensures { IfOk result (λ answer. IsFaultAlone (answer_of answer)) }
{
    match names_fault {
        NamesFault::Utf8 => accounts_fault(alloc, "not UTF-8"),
        NamesFault::Row { line, kind } => {
            let reason = row_reason(kind);
            let reason = format!(in alloc; "line {line}: {reason}")?;
            accounts_fault(alloc, reason.as_str())
        }
        NamesFault::Named(NamedError::Word { place, error }) => {
            let number = (place as u64).saturating_add(1);
            let name = format!(in alloc; "WORD {number}")?;
            fault(
                alloc,
                "token",
                told_line(alloc, name.as_str(), name_reason(error))?,
            )
        }
        NamesFault::Named(error) => fault(
            alloc,
            "sid",
            told_line(alloc, "USER", user_reason(error))?,
        ),
        NamesFault::Memory => Err(AllocError),
    }
}

fn accounts_fault(alloc: Global, reason: &str) -> Result<Answer, AllocError>
    ensures { IfOk result (λ answer. IsFaultAlone (answer_of answer)) }
{
    fault(alloc, "accounts", told_line(alloc, "--accounts", reason)?)
}

/// Why a line is no row, by number and name, and what mends it.
fn row_reason(kind: AccountsFault) -> &'static str {
    match kind {
        AccountsFault::Keyword =>
            "1 Keyword: a line begins with user, group, member, primary, disabled or #",
        AccountsFault::Sid => "2 Sid: a SID is missing, or not as S-1-5-21-1-2-3-1104",
        AccountsFault::Name =>
            "3 Name: a name is missing after the SID, or has a control character",
        AccountsFault::Surplus => "4 Surplus: something follows the last SID",
        AccountsFault::Incomplete =>
            "5 Incomplete: rows are missing, by which a user may be denied; without this line the others are used",
    }
}

/// Why a text is nobody's, by number and name, and what mends it.
fn name_reason(error: NameError) -> &'static str {
    match error {
        NameError::Unknown =>
            "1 Unknown: neither a SID nor the name of an account, as EXAMPLE\\alice",
        NameError::Ambiguous =>
            "2 Ambiguous: two accounts may be meant: add the domain, or give the SID",
    }
}

fn user_reason(error: NamedError) -> &'static str {
    match error {
        NamedError::User(error) => name_reason(error),
        NamedError::Disabled =>
            "4 Disabled: the account can't log on; without its line 'disabled' it is asked about",
        _ => "3 NoUser: the accounts have no line 'user SID NAME' with this SID",
    }
}
