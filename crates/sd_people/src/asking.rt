//! An answer by people.
ghost use Rattle.std.specs.Prelude.{◌≡◌, ◌++◌, IfOk, OnOk, option_map};
ghost use Rattle.sd_answer.specs.Word.{texts};
ghost use Rattle.sd_accounts.specs.Accounts.{rows_of};
ghost use Rattle.sd_commands.specs.Answer.{answer_of};
ghost use Rattle.sd_people.specs.Asked.{asked_by, asked_of, asked_of_each, text_of, words_asked};
ghost use Rattle.sd_people.specs.Lines.{left_out};
ghost use Rattle.sd_people.specs.Names.{AreNames, names_in};
ghost use Rattle.sd_people.specs.Naming.{sids_named};
ghost use Rattle.sd_people.specs.People.{AnswersByPeople, AnswersWith, AreShown, IsOfPeople, Said, outcome_with};
ghost use Rattle.sd_people.specs.People.{people_of};

use crate::granted::leaves_out;
use crate::names::{Names, names_of};
use crate::naming::{has_names, named_lines, named_people};
use crate::people::{People, Told, people_asked};
use crate::sids::{push_sids_of_lines, push_sids_of_people};
use sd_accounts::Accounts;
use sd_answer::LABEL_ALONE;
use sd_commands::{Answer, Outcome, Settings};
use sd_line::{Line, Style};
use sd_named::NamedError;
use sd_usage::{DescriptorCommand, TextCommand};
use std::alloc::{AllocError, Global};

/// What is answered by people.
#[derive(Clone, Copy)]
pub struct PeopleQuestion<'a> {
    pub accounts: &'a Accounts,
    pub settings: &'a Settings,
    pub question: TextCommand,
    /// The text of the descriptor, with SIDs in the place of names; none where it is read from the input.
    pub text: Option<&'a str>,
    /// The arguments after it, with SIDs in the place of names.
    pub arguments: &'a [&'a str],
    pub style: Style,
}

/// What is asked of each user.
#[derive(Clone, Copy)]
pub(crate) enum OfEach<'a> {
    /// What of a mask a descriptor grants it.
    Granted { text: &'a str, mask: &'a str },
    /// What it gains and loses where one descriptor takes the place of another.
    Changed { old: &'a str, new: &'a str },
}

/// The answer, and after its lines those about each user that may log on, in the file's order, with names in the place
/// of SIDs or beside them where the style has names. `who` of a text adds what each is granted, as `granted 0x1 by
/// entry 1 (A;;0x1;;;BU) as S-1-5-32-545 by way of S-1-5-21-1-2-3-1200 to S-1-5-21-1-2-3-1104 alice`: the lines that
/// `why` has for the user with the groups that it really has ([MS-DTYP] 2.5.3.2). `compare` of two texts adds what each
/// gains and loses. An answer that is a fault stays as it is, and where that to `why` is one, it is the answer. The
/// errors are those of a word, and out of memory.
pub fn by_people(
    alloc: Global,
    question: PeopleQuestion<'_>,
    plain: Answer,
) -> Result<Answer, NamedError>
    ensures { IfOk result (λ answer. AnswersByPeople (asked_of question.entry) (answer_of plain) (answer_of answer)) }
{
    if matches!(plain.outcome, Outcome::Fault) {
        return Ok(plain);
    }
    match people_in(alloc, &question)? {
        People::Fault(answer) => Ok(answer),
        People::Told { told, left } => Ok(with_people(alloc, &question, plain, told, left)?),
    }
}

/// What is said about people.
fn people_in(alloc: Global, question: &PeopleQuestion<'_>) -> Result<People, NamedError>
    ensures { IfOk result (λ people. IsOfPeople (rows_of question.now.accounts.now) question.now.settings.now
        (asked_of_each (asked_of question.now)) (people_of people)) }
{
    match asked_by(question.text, question.arguments, question.question) {
        Some((each, words)) => {
            people_asked(alloc, question.accounts, question.settings, each, words)
        }
        None => Ok(People::Told {
            told: Vec::new(alloc),
            left: false,
        }),
    }
}

/// What is asked of each user, and with which words beside its own groups; none where nobody is asked.
fn asked_by<'a>(
    text: Option<&'a str>,
    arguments: &'a [&'a str],
    question: TextCommand,
) -> Option<(OfEach<'a>, &'a [&'a str])>
    ensures { option_map words_asked result ≡ asked_by (text_of text.entry) (texts arguments.entry.now) question }
{
    let text = text?;
    let [first, words @ ..] = arguments else {
        return None;
    };
    match question {
        TextCommand::Descriptor(DescriptorCommand::Who) => {
            Some((OfEach::Granted { text, mask: first }, words))
        }
        TextCommand::Descriptor(DescriptorCommand::Compare) => {
            let (old, new) = (text, *first);
            Some((OfEach::Changed { old, new }, words))
        }
        _ => None,
    }
}

/// The answer with the lines about people, and with names.
fn with_people(
    alloc: Global,
    question: &PeopleQuestion<'_>,
    plain: Answer,
    people: Vec<Told>,
    left: bool,
) -> Result<Answer, AllocError>
    ensures { IfOk result (λ answer. AnswersWith (asked_of question.now) (answer_of plain) (Said people.items left)
        (answer_of answer)) }
{
    let Answer {
        lines,
        told,
        outcome,
    } = plain;
    let says = left && !leaves_out(&lines);
    let mut lines = shown(alloc, question, lines, people)?;
    push_left_out(alloc, &mut lines, says)?;
    let outcome = outcome_with(left, outcome);
    Ok(Answer {
        lines,
        told,
        outcome,
    })
}

fn push_left_out(alloc: Global, lines: &mut Vec<Line>, says: bool) -> Result<(), AllocError>
    ensures { OnOk result (lines.new.items ≡ lines.old.items ++ left_out says) }
{
    if says {
        lines.push(Line::new(alloc, LABEL_ALONE, Vec::new(alloc))?)?;
    }
    Ok(())
}

fn outcome_with(left: bool, outcome: Outcome) -> Outcome
    ensures { result ≡ outcome_with left outcome }
{
    if left {
        outcome.or_worse(Outcome::Refused)
    } else {
        outcome
    }
}

/// The lines and those about people, with names.
fn shown(
    alloc: Global,
    question: &PeopleQuestion<'_>,
    lines: Vec<Line>,
    people: Vec<Told>,
) -> Result<Vec<Line>, AllocError>
    ensures { IfOk result (λ all. AreShown (asked_of question.now) lines.items people.items all.items) }
{
    let names = names_for(alloc, question, &lines, &people)?;
    let mut all = named_lines(alloc, question.style, &names, lines)?;
    all.append(&mut named_people(alloc, question.style, &names, people)?)?;
    Ok(all)
}

/// The names of the SIDs in the lines; none where the style has no names.
fn names_for(
    alloc: Global,
    question: &PeopleQuestion<'_>,
    lines: &[Line],
    people: &[Told],
) -> Result<Names, AllocError>
    ensures { IfOk result (λ names. AreNames (rows_of question.now.accounts.now) question.now.settings.now.aliases
        (names_in names) (sids_named question.now.style lines.now people.now)) }
{
    let mut sids = Vec::new(alloc);
    if has_names(question.style.spelling) {
        push_sids_of_lines(&mut sids, lines)?;
        push_sids_of_people(&mut sids, people)?;
    }
    let known = question.settings.aliases;
    names_of(alloc, question.accounts, known, &sids)
}
