//! A question with SIDs in the place of the names of accounts.
ghost use Rattle.std.specs.Prelude.{◌≡◌, IfOk, ◌∷◌, map, option_map, string_bytes};
ghost use Rattle.sd_answer.specs.Word.{texts};
ghost use Rattle.sd_accounts.specs.Accounts.{rows_of};
ghost use Rattle.sd_arguments.specs.CommandLine.{request_of};
ghost use Rattle.sd_named_questions.specs.Request.{AreNamed, AreOfCompare, AreOfRest, AreOfTypes, AreOfVerdict};
ghost use Rattle.sd_named_questions.specs.Request.{IsGiven, IsText, has_sddl};

use sd_accounts::Accounts;
use sd_arguments::TextRequest;
use sd_commands::{Logon, Settings, words_for};
use sd_named::{NamedError, Naming, named_sddl};
use sd_usage::{DescriptorCommand, TextCommand};
use std::alloc::{AllocError, Global};

/// A command's text, if it has one, and its arguments.
#[derive(Drop)]
pub(crate) struct OwnRequest {
    text: Option<String>,
    pub(crate) arguments: Vec<String>,
}

impl OwnRequest {
    pub(crate) fn text(&self) -> Option<&str>
        ensures { option_map (λ text. text.now) result ≡ option_map string_bytes self.now.text }
    {
        match &self.text {
            Some(text) => Some(text.as_str()),
            None => None,
        }
    }
}

/// The text and the arguments after it, or with `pairs` after it and another one, with SIDs in the place of names. The
/// errors are those of a name, and out of memory.
pub(crate) fn named_request(
    alloc: Global,
    accounts: &Accounts,
    settings: &Settings,
    text: Option<&str>,
    pairs: bool,
    request: TextRequest<'_>,
) -> Result<OwnRequest, NamedError>
    ensures text { IfOk result (λ own. IsGiven (rows_of accounts.now) settings.now.aliases request.entry.question
        (option_map (λ text. text.now) text.entry) (option_map string_bytes own.text)) }
    ensures arguments { IfOk result (λ own. AreNamed (rows_of accounts.now) settings.now.aliases settings.now.logon
        pairs request.entry.question (texts request.entry.arguments.now) (map string_bytes own.arguments.items)) }
{
    let naming = Naming {
        alloc,
        accounts,
        known: settings.aliases,
    };
    let text = given(naming, request.question, text)?;
    let arguments = named_arguments(naming, settings.logon, pairs, request)?;
    Ok(OwnRequest { text, arguments })
}

/// A command's text, if it has one, with SIDs in the place of names. The only error is out of memory.
fn given(
    naming: Naming<'_>,
    question: TextCommand,
    text: Option<&str>,
) -> Result<Option<String>, AllocError>
    ensures { IfOk result (λ own. IsGiven (rows_of naming.entry.accounts.now) naming.entry.known question
        (option_map (λ text. text.now) text.entry) (option_map string_bytes own)) }
{
    match text {
        Some(text) => Ok(Some(own_text(naming, has_sddl(question), text)?)),
        None => Ok(None),
    }
}

/// Whether the command's text is a descriptor's.
fn has_sddl(question: TextCommand) -> bool
    ensures { result ≡ has_sddl question }
{
    matches!(question, TextCommand::Descriptor(_) | TextCommand::Types)
}

/// A text, with SIDs in the place of names if it is a descriptor's. The only error is out of memory.
fn own_text(naming: Naming<'_>, is_sddl: bool, text: &str) -> Result<String, AllocError>
    ensures { IfOk result (λ own. IsText (rows_of naming.entry.accounts.now) naming.entry.known is_sddl text.now
        (string_bytes own)) }
{
    if is_sddl {
        named_sddl(naming.alloc, naming.accounts, naming.known, text)
    } else {
        String::from_str(naming.alloc, text)
    }
}

/// The arguments after a command's text, or with `pairs` after its two, with SIDs in the place of names.
fn named_arguments(
    naming: Naming<'_>,
    logon: Option<Logon>,
    pairs: bool,
    request: TextRequest<'_>,
) -> Result<Vec<String>, NamedError>
    ensures { IfOk result (λ named. AreNamed (rows_of naming.entry.accounts.now) naming.entry.known logon
        pairs request.entry.question (texts request.entry.arguments.now) (map string_bytes named.items)) }
{
    let arguments = request.arguments;
    match request.question {
        TextCommand::Descriptor(DescriptorCommand::Verdict | DescriptorCommand::Why) => {
            of_verdict(naming, logon, arguments)
        }
        TextCommand::Types => of_types(naming, logon, arguments),
        TextCommand::Descriptor(DescriptorCommand::Who) => of_rest(naming, false, arguments),
        TextCommand::Descriptor(DescriptorCommand::Compare) => of_compare(naming, pairs, arguments),
        TextCommand::Descriptor(DescriptorCommand::Lint) => naming.of_words(arguments),
        _ => Ok(copies(naming.alloc, arguments)?),
    }
}

/// The arguments `USER MASK WORD..`.
fn of_verdict(
    naming: Naming<'_>,
    logon: Option<Logon>,
    arguments: &[&str],
) -> Result<Vec<String>, NamedError>
    ensures { IfOk result (λ named. AreOfVerdict (rows_of naming.entry.accounts.now) naming.entry.known logon
        (texts arguments.now) (map string_bytes named.items)) }
{
    let [user, mask, words @ ..] = arguments else {
        return Ok(copies(naming.alloc, arguments)?);
    };
    let words = words_for(naming.alloc, logon, words)?;
    naming.of_user(logon.is_some(), user, mask, &words)
}

/// The arguments `TREE USER MASK WORD..`.
fn of_types(
    naming: Naming<'_>,
    logon: Option<Logon>,
    arguments: &[&str],
) -> Result<Vec<String>, NamedError>
    ensures { IfOk result (λ named. AreOfTypes (rows_of naming.entry.accounts.now) naming.entry.known logon
        (texts arguments.now) (map string_bytes named.items)) }
{
    let alloc = naming.alloc;
    let [tree, asked @ ..] = arguments else {
        return Ok(Vec::new(alloc));
    };
    let mut rest = of_verdict(naming, logon, asked)?;
    let mut named = vec![in alloc; String::from_str(alloc, tree)?]?;
    named.append(&mut rest)?;
    Ok(named)
}

/// The arguments `NEW WORD..`, or with `pairs` the words alone.
fn of_compare(
    naming: Naming<'_>,
    pairs: bool,
    arguments: &[&str],
) -> Result<Vec<String>, NamedError>
    ensures { IfOk result (λ named. AreOfCompare (rows_of naming.entry.accounts.now) naming.entry.known pairs
        (texts arguments.now) (map string_bytes named.items)) }
{
    if pairs {
        naming.of_words(arguments)
    } else {
        of_rest(naming, true, arguments)
    }
}

/// An argument, which may be a descriptor's text, and words.
fn of_rest(naming: Naming<'_>, is_sddl: bool, arguments: &[&str]) -> Result<Vec<String>, NamedError>
    ensures { IfOk result (λ named. AreOfRest (rows_of naming.entry.accounts.now) naming.entry.known is_sddl
        (texts arguments.now) (map string_bytes named.items)) }
{
    let alloc = naming.alloc;
    let [first, words @ ..] = arguments else {
        return Ok(copies(alloc, arguments)?);
    };
    let mut rest = naming.of_words(words)?;
    let mut named = vec![in alloc; own_text(naming, is_sddl, first)?]?;
    named.append(&mut rest)?;
    Ok(named)
}

/// The words as they stand.
fn copies(alloc: Global, words: &[&str]) -> Result<Vec<String>, AllocError>
    ensures { IfOk result (λ copies. map string_bytes copies.items ≡ texts words.now) }
{
    let mut copies = Vec::with_capacity(alloc, words.len())?;
    for word in words {
        copies.push(String::from_str(alloc, word)?)?;
    }
    Ok(copies)
}
