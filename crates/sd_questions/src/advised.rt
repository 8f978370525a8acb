//! An answer, and after what standard error is told otherwise the advice on it.
ghost use Rattle.std.specs.Prelude.{◌≡◌, ◌++◌, IfOk, string_bytes};
ghost use Rattle.sd_commands.specs.Answer.{answer_of};
ghost use Rattle.sd_questions.specs.TextAnswer.{Advising, AnswersText};
ghost use Rattle.sd_arguments.specs.CommandLine.{request_of};

use crate::found::{
    found_in_descriptor, found_in_group, found_in_mask, found_in_sids, found_in_user,
    found_in_whole, found_in_word,
};
use crate::notes::notes_on;
use crate::remedies::{
    ALL_BUT_LABELS, CHILDREN, EACH, HEX, NO_BITS, NO_CHILDREN, OBJECT_ENTRY, ODD_ENTRY, OTHER_USER,
    POLICIES, RemedyRow, SACLS, WHOLE_BITS, WHOLE_ENTRY, WHOLE_SACL, row_line,
};
use crate::spoken::{answer_text, asks_who};
use sd_answer::{TokenError, read_base, read_token};
use sd_arguments::{Options, TextRequest};
use sd_client::read_client;
use sd_commands::{
    Answer, ByteForm, Outcome, Settings, fits_logon, takes_whole, told_line, types_text,
};
use sd_line::{Value, read_mask_in};
use sd_sid::Sid;
use sd_text::{TextError, TextFault, read_sddl_in, read_sid_text_in};
use sd_usage::{DescriptorCommand, OptionName, TextCommand};
use sd_whole::{OddEntry, OddKind};
use sd_whole_parse::{PartError, read_sddl_part, read_whole_sddl};
use sd_whole_text::NoText;
use sd_wire::WireFault;
use std::alloc::{AllocError, Global};

/// The answer of a command to a text, and advice on it. The only error is out of memory.
pub(crate) fn advised(
    alloc: Global,
    settings: &Settings,
    request: TextRequest<'_>,
    text: &str,
) -> Result<Answer, AllocError>
    ensures { IfOk result (λ answer. Advising (AnswersText settings.now (request_of request.entry) text.now)
        (answer_of answer)) }
{
    let answer = answer_text(alloc, settings, request, text)?;
    let advice = advice_on(alloc, settings, &request, text, &answer)?;
    with_advice(answer, advice.as_str())
}

/// What mends a fault, or the notes on another answer.
fn advice_on(
    alloc: Global,
    settings: &Settings,
    request: &TextRequest<'_>,
    text: &str,
    answer: &Answer,
) -> Result<String, AllocError> {
    match answer.outcome {
        Outcome::Fault => remedy(alloc, settings, request, text, answer),
        _ => notes_on(alloc, settings, request, text),
    }
}

/// The answer, and this after what standard error is told otherwise.
pub(crate) fn with_advice(answer: Answer, advice: &str) -> Result<Answer, AllocError>
    ensures { IfOk result (λ advised. answer_of advised
        ≡ record (answer_of answer) { told = string_bytes answer.told ++ advice.now }) }
{
    let Answer {
        lines,
        mut told,
        outcome,
    } = answer;
    told.push_str(advice)?;
    Ok(Answer {
        lines,
        told,
        outcome,
    })
}

/// The advice on a question that is asked of each line, whatever the lines are.
pub(crate) fn advice_on_each(
    alloc: Global,
    options: Options<'_>,
    request: TextRequest<'_>,
) -> Result<String, AllocError> {
    let mut advice = misplaced_line(alloc, request)?;
    if options.has(OptionName::Whole) {
        push_left_out(alloc, options, request.question, &mut advice)?;
        push_types(alloc, options, request.question, &mut advice)?;
    }
    if asks_who(request.question) && !options.has(OptionName::Below) {
        let note = told_line(alloc, "SDDL", CHILDREN)?;
        advice.push_str(note.as_str())?;
    }
    if options.has(OptionName::WithoutBits) {
        let note = told_line(alloc, "--without-bits", NO_BITS)?;
        advice.push_str(note.as_str())?;
    }
    if options.has(OptionName::Object) && !matches!(request.question, TextCommand::Heir(_)) {
        let note = told_line(alloc, "--object", NO_CHILDREN)?;
        advice.push_str(note.as_str())?;
    }
    Ok(advice)
}

/// Notes what of whole descriptors the command doesn't look at.
fn push_left_out(
    alloc: Global,
    options: Options<'_>,
    question: TextCommand,
    advice: &mut String,
) -> Result<(), AllocError> {
    let what = match question {
        TextCommand::Types
        | TextCommand::Descriptor(DescriptorCommand::Verdict | DescriptorCommand::Why) => POLICIES,
        TextCommand::Descriptor(DescriptorCommand::Compare) => ALL_BUT_LABELS,
        TextCommand::Descriptor(DescriptorCommand::Who | DescriptorCommand::Lint) => SACLS,
        _ => return Ok(()),
    };
    let note = told_line(alloc, "SDDL", what)?;
    advice.push_str(note.as_str())
}

/// Notes which object types the answers of a command that looks at them are about.
fn push_types(
    alloc: Global,
    options: Options<'_>,
    question: TextCommand,
    advice: &mut String,
) -> Result<(), AllocError> {
    let is_of_whole = !options.has(OptionName::Type);
    let depends = match question {
        TextCommand::Descriptor(DescriptorCommand::Who) => {
            is_of_whole && !options.has(OptionName::Below)
        }
        TextCommand::Descriptor(DescriptorCommand::Compare) => true,
        TextCommand::Descriptor(DescriptorCommand::Lint) => options.has(OptionName::Object),
        _ => false,
    };
    if depends {
        let note = told_line(alloc, "--type", types_text(is_of_whole))?;
        advice.push_str(note.as_str())?;
    }
    Ok(())
}

/// The line of a descriptor that stands where USER does.
fn misplaced_line(alloc: Global, request: TextRequest<'_>) -> Result<String, AllocError> {
    match (request.question, request.arguments) {
        (TextCommand::Descriptor(DescriptorCommand::Verdict | DescriptorCommand::Why), [user, ..])
            if is_descriptor(user) => row_line(alloc, EACH),
        _ => Ok(String::new(alloc)),
    }
}

fn is_descriptor(text: &str) -> bool {
    matches!(
        text.as_bytes(),
        [b'O' | b'G' | b'D' | b'o' | b'g' | b'd', b':', ..]
    )
}

/// The line of the first argument from the left that can't be parsed, or nothing.
fn remedy(
    alloc: Global,
    settings: &Settings,
    request: &TextRequest<'_>,
    text: &str,
    answer: &Answer,
) -> Result<String, AllocError> {
    let row = match request.question {
        TextCommand::Descriptor(question) => {
            match text_row(alloc, settings, question, text) {
                Some(row) => Some(row),
                None => match argument_row(alloc, settings, question, request.arguments) {
                    Some(row) => Some(row),
                    None => undecided_row(question, answer),
                },
            }
        }
        TextCommand::FromBinary => match hex_row(settings.bytes, text) {
            Some(row) => Some(row),
            None => held_row(answer),
        },
        TextCommand::Types => types_row(alloc, settings, request, text, answer),
        TextCommand::Show => whole_row(alloc, settings, text),
        TextCommand::Diff => diff_row(alloc, settings, text, request.arguments),
        TextCommand::Change(_) => match whole_row(alloc, settings, text) {
            Some(row) => Some(row),
            None => found_in_sids(settings.aliases, request.arguments),
        },
        TextCommand::Heir(_) => heir_row(alloc, settings, text, request.arguments),
        TextCommand::Rights => found_in_mask(settings, text),
        TextCommand::Sid => found_in_user(settings.aliases, text),
    };
    match row {
        Some(row) => row_line(alloc, row),
        None => Ok(String::new(alloc)),
    }
}

/// The row of advice for the text of a command about a descriptor.
fn text_row(
    alloc: Global,
    settings: &Settings,
    question: DescriptorCommand,
    text: &str,
) -> Option<RemedyRow> {
    if !takes_whole(settings.below, settings.object, question) {
        return part_row(alloc, settings, question, text);
    }
    if settings.whole {
        return whole_row(alloc, settings, text);
    }
    match read_sddl_in(alloc, settings.aliases, text).err()? {
        TextError::Fault { fault, place } => match fault {
            TextFault::HasSacl => Some(WHOLE_SACL),
            TextFault::EntryKind | TextFault::ObjectGuid
                if read_whole_sddl(alloc, settings.aliases, text).is_ok() => { Some(WHOLE_ENTRY) }
            _ => found_in_descriptor(text, fault, place),
        },
        TextError::Memory => None,
    }
}

/// The row of advice for the text of a whole descriptor.
fn whole_row(alloc: Global, settings: &Settings, text: &str) -> Option<RemedyRow> {
    match read_whole_sddl(alloc, settings.aliases, text).err()? {
        TextError::Fault { fault, place } => found_in_whole(text, fault, place),
        TextError::Memory => None,
    }
}

/// The row of advice for the texts of a question about a tree of object types: nothing where the tree is none.
fn types_row(
    alloc: Global,
    settings: &Settings,
    request: &TextRequest<'_>,
    text: &str,
    answer: &Answer,
) -> Option<RemedyRow> {
    if let Some(row) = whole_row(alloc, settings, text) {
        return Some(row);
    }
    match (answer.lines.first()?.value(b"of")?, request.arguments) {
        (Value::Text(of), [_tree, asked @ ..]) if of.as_str() != "tree" => argument_row(
            alloc,
            settings,
            DescriptorCommand::Verdict,
            asked,
        ),
        _ => None,
    }
}

/// The row of advice for the first of two whole descriptors whose text has a fault.
fn diff_row(
    alloc: Global,
    settings: &Settings,
    old: &str,
    arguments: &[&str],
) -> Option<RemedyRow> {
    match whole_row(alloc, settings, old) {
        Some(row) => Some(row),
        None => whole_row(alloc, settings, arguments.first()?),
    }
}

/// The row of advice for the first of two whole descriptors, or of the SIDs after them, whose text has a fault.
fn heir_row(
    alloc: Global,
    settings: &Settings,
    text: &str,
    arguments: &[&str],
) -> Option<RemedyRow> {
    match diff_row(alloc, settings, text, arguments) {
        Some(row) => Some(row),
        None => found_in_sids(settings.aliases, arguments.get(1..)?),
    }
}

/// The row of advice for the text of a descriptor of which the plain part is asked about.
fn part_row(
    alloc: Global,
    settings: &Settings,
    question: DescriptorCommand,
    text: &str,
) -> Option<RemedyRow> {
    match read_sddl_part(alloc, settings.aliases, settings.whole, text) {
        Err(PartError::Fault { fault, place }) if settings.whole => found_in_whole(
            text, fault, place,
        ),
        Err(PartError::Fault { fault, place }) => found_in_descriptor(text, fault, place),
        Err(PartError::Odd(odd)) => Some(odd_row(question, odd)),
        _ => None,
    }
}

/// The row of advice for an entry that is no allow and no deny.
fn odd_row(question: DescriptorCommand, odd: OddEntry) -> RemedyRow {
    match (question, odd.kind) {
        (DescriptorCommand::Lint, OddKind::ObjectAce | OddKind::ConditionalAce) => OBJECT_ENTRY,
        _ => ODD_ENTRY,
    }
}

/// The row of advice for an entry that depends on who asks, where that isn't known.
fn undecided_row(question: DescriptorCommand, answer: &Answer) -> Option<RemedyRow> {
    answer.lines.first()?.value(b"entry")?;
    match question {
        DescriptorCommand::Who | DescriptorCommand::Compare | DescriptorCommand::Lint => {
            Some(ODD_ENTRY)
        }
        _ => None,
    }
}

/// The row of advice for a text in which a byte is no hexadecimal digit.
fn hex_row(form: ByteForm, text: &str) -> Option<RemedyRow> {
    if form == ByteForm::Hex && text.bytes().any(|byte| !byte.is_ascii_hexdigit()) {
        Some(HEX)
    } else {
        None
    }
}

/// The row of advice for bytes that hold more than a plain descriptor.
fn held_row(answer: &Answer) -> Option<RemedyRow> {
    match answer.lines.first()?.value(b"name")? {
        Value::Text(name) if name.as_str() == WireFault::HasSacl.name() => Some(WHOLE_SACL),
        Value::Text(name) if name.as_str() == WireFault::EntryKind.name() => Some(WHOLE_ENTRY),
        Value::Text(name) if name.as_str() == NoText::Control.name() => Some(WHOLE_BITS),
        Value::Text(name) if name.as_str() == NoText::ResourceManager.name() => Some(WHOLE_BITS),
        _ => None,
    }
}

/// The row of advice for the first argument after the descriptor that can't be parsed.
fn argument_row(
    alloc: Global,
    settings: &Settings,
    question: DescriptorCommand,
    arguments: &[&str],
) -> Option<RemedyRow> {
    match (question, arguments) {
        (DescriptorCommand::Verdict | DescriptorCommand::Why, [user, mask, words @ ..]) => {
            let Ok(sid) = read_sid_text_in(settings.aliases, user) else {
                return found_in_user(settings.aliases, user);
            };
            if !fits_logon(settings.logon, &sid) {
                return Some(OTHER_USER);
            }
            if read_mask_in(settings.spelling, mask).is_err() {
                return found_in_mask(settings, mask);
            }
            match first_no_word(alloc, settings, sid, words) {
                Some(place) => found_in_word(settings.whole, settings.aliases, words.get(place)?),
                None => None,
            }
        }
        (DescriptorCommand::Who, [mask, words @ ..]) => {
            if read_mask_in(settings.spelling, mask).is_err() {
                return found_in_mask(settings, mask);
            }
            group_row(alloc, settings, words)
        }
        (DescriptorCommand::Compare, [new, words @ ..]) => {
            match text_row(alloc, settings, question, new) {
                Some(row) => Some(row),
                None => group_row(alloc, settings, words),
            }
        }
        (DescriptorCommand::Lint, words) => group_row(alloc, settings, words),
        _ => None,
    }
}

fn group_row(alloc: Global, settings: &Settings, words: &[&str]) -> Option<RemedyRow> {
    match read_base(alloc, settings.aliases, words) {
        Err(TokenError::NoWord { place }) => found_in_group(settings.aliases, words.get(place)?),
        _ => None,
    }
}

/// The place of the first of the words of a verdict that is none.
fn first_no_word(alloc: Global, settings: &Settings, user: Sid, words: &[&str]) -> Option<usize> {
    let error = if settings.whole {
        read_client(alloc, settings.aliases, user, words).err()?
    } else {
        read_token(alloc, settings.aliases, user, words).err()?
    };
    match error {
        TokenError::NoWord { place } => Some(place),
        TokenError::Memory => None,
    }
}
