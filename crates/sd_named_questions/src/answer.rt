//! The answer to a question whose words name accounts.
ghost use Rattle.std.specs.Prelude.{◌≡◌, Err, IfOk, option_map, string_bytes};
ghost use Rattle.sd_lines.specs.Watched.{inner_of};
ghost use Rattle.sd_lines.specs.declared.error.RunError.TheVariants.{Memory};
ghost use Rattle.sd_accounts.specs.Accounts.{rows_of};
ghost use Rattle.sd_named.specs.declared.arguments.NamedError.{NamedError};
ghost use Rattle.sd_commands.specs.Answer.{answer_of, outcome_status};
ghost use Rattle.sd_arguments.specs.CommandLine.{request_of};
ghost use Rattle.sd_arguments.specs.Options.{has, options_of};
ghost use Rattle.sd_named_questions.specs.Answer.{AnswersNamed, AppendsEachNamed};
ghost use Rattle.sd_named_questions.specs.Error.{error_of};
ghost use Rattle.sd_named_questions.specs.declared.answer.NamedRunError.TheVariants.{Named, Run};

use crate::request::named_request;
use sd_accounts::Accounts;
use sd_arguments::{GivenFlags, Options, TextRequest};
use sd_commands::{Answer, Settings};
use sd_lines::{RunError, Watched};
use sd_named::{NamedError, lent};
use sd_people::{PeopleQuestion, by_people};
use sd_questions::{Ended, answer_each, answer_to};
use sd_usage::OptionName;
use std::alloc::{AllocError, Global};
use std::io::{Read, Write};

/// Why a question whose words name accounts isn't answered.
#[derive(Clone, Copy, Debug, PartialEq, Eq)]
pub enum NamedRunError {
    /// A name is nobody's, or may be that of two; or the user can't log on.
    Named(NamedError),
    /// Memory was refused, or a stream failed.
    Run(RunError),
}

impl From<NamedError> for NamedRunError {
    ghost from_gives = { λ error e. e ≡ error_of error };

    fn from(error: NamedError) -> NamedRunError {
        match error {
            NamedError::Memory => NamedRunError::Run(RunError::Memory),
            _ => NamedRunError::Named(error),
        }
    }
}

impl From<RunError> for NamedRunError {
    ghost from_gives = { λ error e. e ≡ Run error };

    fn from(error: RunError) -> NamedRunError {
        NamedRunError::Run(error)
    }
}

impl From<AllocError> for NamedRunError {
    ghost from_gives = { λ _ e. e ≡ Run Memory };

    fn from(_error: AllocError) -> NamedRunError {
        NamedRunError::Run(RunError::Memory)
    }
}

/// The answer to a question about a text, or without one about the input, by people: SIDs stand in the place of names
/// in the text and in the arguments, and a user has the groups that it really has ([MS-DTYP] 2.4.2). Only without a
/// text it uses `reader`. The errors are those of a name, a stream that fails, and out of memory.
pub fn answer_named<R: Read>(
    alloc: Global,
    accounts: &Accounts,
    options: Options<'_>,
    text: Option<&str>,
    request: TextRequest<'_>,
    reader: &mut Watched<R>,
) -> Result<Answer, NamedRunError>
    ensures { IfOk result (λ answer. AnswersNamed (rows_of accounts.now) (options_of options.entry)
        (option_map (λ text. text.now) text.entry) (request_of request.entry) (R.remaining (inner_of reader.old))
        (answer_of answer)) }
{
    let settings = match options.settings() {
        Ok(settings) => settings,
        Err(_) => return Ok(answer_to(alloc, options, text, request, reader)?),
    };
    let own = named_request(alloc, accounts, &settings, text, false, request)?;
    let arguments = lent(alloc, &own.arguments)?;
    let question = PeopleQuestion {
        accounts,
        settings: &settings,
        question: request.question,
        text: own.text(),
        arguments: &arguments,
        style: options.style(),
    };
    let request = TextRequest {
        question: request.question,
        arguments: &arguments,
    };
    let plain = answer_to(alloc, options, question.text, request, reader)?;
    Ok(by_people(alloc, question, plain)?)
}

/// Answers each line of the input, with SIDs in the place of names in the arguments. In the answers SIDs stand, and
/// nothing is told of people. The errors are those of a name, a stream that fails, and out of memory.
pub fn answer_each_named<R: Read, W: Write>(
    alloc: Global,
    accounts: &Accounts,
    options: Options<'_>,
    given: GivenFlags,
    request: TextRequest<'_>,
    reader: &mut Watched<R>,
    writer: &mut Watched<W>,
) -> Result<Ended, NamedRunError>
    ensures ok { IfOk result (λ ended. AppendsEachNamed (rows_of accounts.now) (options_of options.entry) given
        (request_of request.entry) (R.remaining (inner_of reader.old))
        (W.contents (inner_of writer.old)) (W.contents (inner_of writer.new)) (string_bytes ended.told)
        (outcome_status (has (options_of options.entry) OptionName.StrictStatus) ended.outcome)) }
    ensures unwritten { (error : NamedError) → result ≡ Err (Named error) → writer.new ≡ writer.old }
{
    let settings = match options.settings() {
        Ok(settings) => settings,
        Err(_) => return Ok(answer_each(alloc, options, given, request, reader, writer)?),
    };
    let own = named_request(alloc, accounts, &settings, None, given.pairs, request)?;
    let arguments = lent(alloc, &own.arguments)?;
    let request = TextRequest {
        question: request.question,
        arguments: &arguments,
    };
    Ok(answer_each(alloc, options, given, request, reader, writer)?)
}
