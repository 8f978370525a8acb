//! What standard error notes of who asks: a token that lacks what most have, a claim that is given twice. It is for
//! people: rows of tests show each text, and no definition says one.

use sd_access::{Question, check_whole};
use sd_answer::{read_token, verdict_line};
use sd_check::{Verdict, check};
use sd_claim::Claim;
use sd_client::read_client;
use sd_commands::{Settings, answer_question, told_line};
use sd_line::{Output, Style, Tag, push_printed_line, read_mask_in, requested};
use sd_sid::{Mask, Sid};
use sd_text::{Aliases, read_sddl_in, read_sid_text_in};
use sd_usage::TextCommand;
use sd_whole_parse::read_whole_sddl;
use std::alloc::{AllocError, Global};

/// What the note begins with.
const LACKING: &str =
    "the token lacks WD or AU, Everyone or Authenticated Users, which most have; with both ";

/// Notes that the token lacks Everyone and Authenticated Users, with which the verdict is another.
pub(crate) fn push_lacking(
    alloc: Global,
    settings: &Settings,
    text: &str,
    arguments: &[&str],
    notes: &mut String,
) -> Result<(), AllocError> {
    let [user, mask, words @ ..] = arguments else {
        return Ok(());
    };
    let known = settings.aliases;
    let (Some(sid), Ok(asked)) = (
        logged_on(settings, user),
        read_mask_in(settings.spelling, mask),
    ) else {
        return Ok(());
    };
    let asked = requested(settings.kind, asked);
    let fuller = with_everyone(alloc, known, words)?;
    let (Some(verdict), Some(other)) = (
        verdict_in(alloc, settings, text, sid, asked, words),
        verdict_in(alloc, settings, text, sid, asked, &fuller),
    ) else {
        return Ok(());
    };
    if verdict == other {
        return Ok(());
    }
    let line = verdict_text(alloc, settings, other)?;
    let note = format!(in alloc; "sdstore: WORD: {LACKING}{line}")?;
    notes.push_str(note.as_str())
}

/// Notes that the token lacks them, where with both a node of the tree has another verdict.
pub(crate) fn push_lacking_of_nodes(
    alloc: Global,
    settings: &Settings,
    text: &str,
    arguments: &[&str],
    notes: &mut String,
) -> Result<(), AllocError> {
    let [_tree, user, _mask, words @ ..] = arguments else {
        return Ok(());
    };
    if logged_on(settings, user).is_none() {
        return Ok(());
    }
    let mut fuller = Vec::from_slice(alloc, &arguments[..3])?;
    fuller.append(&mut with_everyone(alloc, settings.aliases, words)?)?;
    if node_lines(alloc, settings, text, arguments)?
        == node_lines(alloc, settings, text, &fuller)?
    {
        return Ok(());
    }
    let note = format!(in alloc; "sdstore: WORD: {LACKING}nodes have another verdict\n")?;
    notes.push_str(note.as_str())
}

/// The lines of the verdicts on nodes.
fn node_lines(
    alloc: Global,
    settings: &Settings,
    text: &str,
    arguments: &[&str],
) -> Result<Vec<u8>, AllocError> {
    let answer = answer_question(alloc, settings, TextCommand::Types, text, arguments)?;
    let mut printed = Vec::new(alloc);
    for line in &answer.lines {
        push_printed_line(alloc, &mut printed, plain_style(settings), Tag::None, line)?;
    }
    Ok(printed)
}

/// The SID of a user that logs on, and for whom no kind of logon adds the groups.
fn logged_on(settings: &Settings, user: &str) -> Option<Sid> {
    let sid = read_sid_text_in(settings.aliases, user).ok()?;
    if settings.logon.is_some() || is_well_known(&sid, 5, 7) {
        return None;
    }
    Some(sid)
}

/// The verdict for the user and these words, if there is one.
fn verdict_in(
    alloc: Global,
    settings: &Settings,
    text: &str,
    user: Sid,
    asked: Mask,
    words: &[&str],
) -> Option<Verdict> {
    let (known, mapping) = (settings.aliases, &settings.mapping);
    if settings.whole {
        let descriptor = read_whole_sddl(alloc, known, text).ok()?;
        let client = read_client(alloc, known, user, words).ok()?;
        let question = Question {
            client: &client,
            chain: settings.chain.types(),
            principal_self: settings.principal_self,
            mapping,
            asked,
        };
        return check_whole(alloc, &question, &descriptor).ok();
    }
    let descriptor = read_sddl_in(alloc, known, text).ok()?;
    let token = read_token(alloc, known, user, words).ok()?;
    Some(check(&descriptor, mapping, &token, asked))
}

/// Notes a claim that a WORD before says too: a condition finds the first of two with one name.
pub(crate) fn push_repeated(
    alloc: Global,
    settings: &Settings,
    arguments: &[&str],
    notes: &mut String,
) -> Result<(), AllocError> {
    let ([user, _mask, words @ ..], true) = (arguments, settings.whole) else {
        return Ok(());
    };
    let known = settings.aliases;
    let Ok(sid) = read_sid_text_in(known, user) else {
        return Ok(());
    };
    let Ok(client) = read_client(alloc, known, sid, words) else {
        return Ok(());
    };
    if has_repeated(&client.local) || has_repeated(&client.user) || has_repeated(&client.device) {
        let what = "a claim is given twice, and the first counts";
        let note = told_line(alloc, "WORD", what)?;
        notes.push_str(note.as_str())?;
    }
    Ok(())
}

/// Whether two of the claims have one name, without regard to the case of ASCII letters.
fn has_repeated(claims: &[Claim]) -> bool {
    for place in 0..claims.len() {
        let claim = &claims[place];
        if claims[..place].iter().any(|other| same_name(claim, other)) {
            return true;
        }
    }
    false
}

fn same_name(claim: &Claim, other: &Claim) -> bool {
    let (name, other) = (claim.name().units(), other.name().units());
    name.len() == other.len()
        && name
            .iter()
            .zip(other.iter())
            .all(|(unit, other)| upper(*unit) == upper(*other))
}

fn upper(unit: u16) -> u16 {
    match unit {
        0x61..=0x7A => unit - 0x20,
        _ => unit,
    }
}

/// The line of a verdict, with its end.
fn verdict_text(
    alloc: Global,
    settings: &Settings,
    verdict: Verdict,
) -> Result<String, AllocError> {
    let line = verdict_line(alloc, verdict)?;
    let mut printed = Vec::new(alloc);
    push_printed_line(alloc, &mut printed, plain_style(settings), Tag::None, &line)?;
    // It is ASCII: words of ours and a mask.
    Ok(String::from_utf8(printed).unwrap_or(String::new(alloc)))
}

fn plain_style(settings: &Settings) -> Style {
    Style {
        spelling: settings.spelling,
        output: Output::Text,
    }
}

/// The words, and Everyone and Authenticated Users where none of them names these.
fn with_everyone<'a>(
    alloc: Global,
    known: Aliases,
    words: &[&'a str],
) -> Result<Vec<&'a str>, AllocError> {
    let mut fuller = Vec::new(alloc);
    fuller.extend_from_slice(words)?;
    if !name(known, words, 1, 0) {
        fuller.push("S-1-1-0")?;
    }
    if !name(known, words, 5, 11) {
        fuller.push("S-1-5-11")?;
    }
    Ok(fuller)
}

/// Whether one of the words names the SID of this authority and this one sub-authority.
fn name(known: Aliases, words: &[&str], authority: u64, sub: u32) -> bool {
    words.iter().any(|word| names(known, word, authority, sub))
}

fn names(known: Aliases, word: &str, authority: u64, sub: u32) -> bool {
    let text = match word.split_once('=') {
        Some((text, _)) => text,
        None => word,
    };
    match read_sid_text_in(known, text) {
        Ok(sid) => is_well_known(&sid, authority, sub),
        Err(_) => false,
    }
}

fn is_well_known(sid: &Sid, authority: u64, sub: u32) -> bool {
    sid.authority() == authority && sid.subs() == [sub].as_slice()
}
