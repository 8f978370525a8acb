//! Lines with names in the place of SIDs, or beside them.
ghost use Rattle.std.specs.Prelude.{◌≡◌, IfOk, map, option_map, string_bytes};
ghost use Rattle.std.specs.List.{filter_map};
ghost use Rattle.sd_people.specs.Names.{names_in};
ghost use Rattle.sd_people.specs.Naming.{has_names, name_word, named_line, named_object, named_told, sid_and_name};
ghost use Rattle.sd_people.specs.Naming.{texts_of, with_words};

use crate::forms::NAMES;
use crate::names::{Names, has_byte};
use crate::people::Told;
use crate::sids::{once, push_sids_of_line};
use sd_commands::{SidTexts, shown_line, words_value};
use sd_line::{Line, Output, Part, SidMark, Spelling, Style};
use sd_sid::Sid;
use sd_text::print_full_sid;
use std::alloc::{AllocError, Global};

impl SidTexts for Names {
    ghost texts = { λ it. texts_of (names_in it) };

    fn has_text(&self, sid: &Sid) -> bool {
        self.of(sid).is_some()
    }

    fn text_for(
        &self,
        alloc: Global,
        sid: &Sid,
        state: SidMark,
    ) -> Result<Option<String>, AllocError> {
        let Some(name) = self.of(sid) else {
            return Ok(None);
        };
        let mut text = name_word(alloc, name)?;
        text.push_str(state.text())?;
        Ok(Some(text))
    }
}

/// Whether names are asked for, as masks are by theirs.
pub(crate) fn has_names(spelling: Spelling) -> bool
    ensures { result ≡ has_names spelling }
{
    matches!(spelling, Spelling::Names(_))
}

/// The lines with names.
pub(crate) fn named_lines(
    alloc: Global,
    style: Style,
    names: &Names,
    lines: Vec<Line>,
) -> Result<Vec<Line>, AllocError>
    ensures { IfOk result (λ named. named.items ≡ map (named_line style (names_in names.now)) lines.items) }
{
    let mut named = Vec::with_capacity(alloc, lines.len())?;
    for line in lines {
        named.push(named_line(alloc, style, names, line)?)?;
    }
    Ok(named)
}

/// The lines about people with names, each with its person after them.
pub(crate) fn named_people(
    alloc: Global,
    style: Style,
    names: &Names,
    people: Vec<Told>,
) -> Result<Vec<Line>, AllocError>
    ensures { IfOk result (λ named. named.items ≡ map (named_told style (names_in names.now)) people.items) }
{
    let mut named = Vec::with_capacity(alloc, people.len())?;
    for told in people {
        named.push(named_told(alloc, style, names, told)?)?;
    }
    Ok(named)
}

fn named_told(alloc: Global, style: Style, names: &Names, told: Told) -> Result<Line, AllocError>
    ensures { IfOk result (λ line. line ≡ named_told style (names_in names.now) told) }
{
    let (line, person) = told;
    named_line(alloc, style, names, line)?.with_tail(person)
}

/// The line with names, if the style has names.
fn named_line(alloc: Global, style: Style, names: &Names, line: Line) -> Result<Line, AllocError>
    ensures { IfOk result (λ named. named ≡ named_line style (names_in names.now) line) }
{
    if !has_names(style.spelling) {
        return Ok(line);
    }
    match style.output {
        Output::Json => named_object(alloc, names, line),
        Output::Text | Output::Coloured => shown_line(alloc, names, line),
    }
}

/// The name, between quotation marks where it has a blank.
fn name_word(alloc: Global, name: &str) -> Result<String, AllocError>
    ensures { IfOk result (λ word. string_bytes word ≡ name_word name.now) }
{
    if !has_byte(name, b' ') {
        return String::from_str(alloc, name);
    }
    let mut word = String::from_str(alloc, "\"")?;
    word.push_str(name)?;
    word.push_str("\"")?;
    Ok(word)
}

/// The line with the names of its SIDs behind it.
fn named_object(alloc: Global, names: &Names, line: Line) -> Result<Line, AllocError>
    ensures { IfOk result (λ named. named ≡ named_object (names_in names.now) line) }
{
    let mut sids = Vec::new(alloc);
    push_sids_of_line(&mut sids, &line)?;
    let words = sids_and_names(alloc, names, &once(alloc, &sids)?)?;
    with_words(alloc, line, &words)
}

fn with_words(alloc: Global, line: Line, words: &[String]) -> Result<Line, AllocError>
    ensures { IfOk result (λ shown. shown ≡ with_words (map string_bytes words.now) line) }
{
    if words.is_empty() {
        return Ok(line);
    }
    let words = words_value(alloc, words)?;
    line.with_tail(Part::new(NAMES, vec![in alloc; words]?))
}

/// The SIDs that have names, each with its name.
fn sids_and_names(alloc: Global, names: &Names, sids: &[Sid]) -> Result<Vec<String>, AllocError>
    ensures { IfOk result (λ words. map string_bytes words.items
        ≡ filter_map (sid_and_name (names_in names.now)) sids.now) }
{
    let mut words = Vec::new(alloc);
    for sid in sids {
        if let Some(word) = sid_and_name(alloc, names, sid)? {
            words.push(word)?;
        }
    }
    Ok(words)
}

fn sid_and_name(alloc: Global, names: &Names, sid: &Sid) -> Result<Option<String>, AllocError>
    ensures { IfOk result
        (λ word. option_map string_bytes word ≡ sid_and_name (names_in names.now) sid.now) }
{
    let Some(name) = names.of(sid) else {
        return Ok(None);
    };
    let mut word = print_full_sid(alloc, sid)?;
    word.push_str(" ")?;
    word.push_str(name)?;
    Ok(Some(word))
}
