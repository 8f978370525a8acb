//! Lines with texts in the place of SIDs.
ghost use Rattle.std.specs.Prelude.{◌≡◌, IfOk, map, option_map, string_bytes};
ghost use Rattle.sd_commands.specs.SidTexts.{TextsOf, has_text, shown_line, shown_part, shown_sid, shown_value};
ghost use Rattle.sd_commands.specs.SidTexts.{sid_value, sids_value};
ghost use Rattle.sd_line.specs.Printed.{marked_text};
ghost use Rattle.sd_line.specs.declared.line.SidMark.TheVariants as states;
ghost use Rattle.sd_line.specs.declared.line.Value.TheVariants as values;

use sd_line::{Line, Part, SidMark, Sids, Value};
use sd_sid::Sid;
use sd_text::print_full_sid;
use std::alloc::{AllocError, Global};

/// What stands in the place of SIDs.
pub trait SidTexts {
    /// The texts that it has.
    ghost texts: { Self → TextsOf };

    /// Whether SIDs among which this one is become words.
    fn has_text(&self, sid: &Sid) -> bool
        ensures { result ≡ (texts self.now).has sid.now };

    /// The text in the place of the SID in this state, if it has one. The only error is out of memory.
    fn text_for(
        &self,
        alloc: Global,
        sid: &Sid,
        state: SidMark,
    ) -> Result<Option<String>, AllocError>
        ensures { IfOk result
            (λ text. option_map string_bytes text ≡ (texts self.now).text sid.now state) };
}

/// The lines, with these texts. The only error is out of memory.
pub(crate) fn shown_lines<T: SidTexts>(
    alloc: Global,
    texts: &T,
    lines: Vec<Line>,
) -> Result<Vec<Line>, AllocError>
    ensures { IfOk result (λ shown. shown.items ≡ map (shown_line (T.texts texts.now)) lines.items) }
{
    let mut shown = Vec::with_capacity(alloc, lines.len())?;
    for line in lines {
        shown.push(shown_line(alloc, texts, line)?)?;
    }
    Ok(shown)
}

/// The line, with these texts. The only error is out of memory.
pub fn shown_line<T: SidTexts>(alloc: Global, texts: &T, line: Line) -> Result<Line, AllocError>
    ensures { IfOk result (λ shown. shown ≡ shown_line (T.texts texts.now) line) }
{
    let (kind, parts) = line.into_parts()?;
    Ok(Line::of(kind, shown_parts(alloc, texts, parts)?))
}

fn shown_parts<T: SidTexts>(
    alloc: Global,
    texts: &T,
    parts: Vec<Part>,
) -> Result<Vec<Part>, AllocError>
    ensures { IfOk result (λ shown. shown.items ≡ map (shown_part (T.texts texts.now)) parts.items) }
{
    let mut shown = Vec::with_capacity(alloc, parts.len())?;
    for part in parts {
        let (form, values) = part.into_values();
        shown.push(Part::new(form, shown_values(alloc, texts, values)?))?;
    }
    Ok(shown)
}

fn shown_values<T: SidTexts>(
    alloc: Global,
    texts: &T,
    values: Vec<Value>,
) -> Result<Vec<Value>, AllocError>
    ensures { IfOk result (λ shown. shown.items ≡ map (shown_value (T.texts texts.now)) values.items) }
{
    let mut shown = Vec::with_capacity(alloc, values.len())?;
    for value in values {
        shown.push(shown_value(alloc, texts, value)?)?;
    }
    Ok(shown)
}

fn shown_value<T: SidTexts>(alloc: Global, texts: &T, value: Value) -> Result<Value, AllocError>
    ensures { IfOk result (λ shown. shown ≡ shown_value (T.texts texts.now) value) }
{
    match value {
        Value::Sid(sid) => sid_value(alloc, texts, sid),
        Value::Sids(sids) => sids_value(alloc, texts, sids),
        other => Ok(other),
    }
}

fn sid_value<T: SidTexts>(alloc: Global, texts: &T, sid: Sid) -> Result<Value, AllocError>
    ensures { IfOk result
        (λ shown. shown ≡ sid_value sid ((T.texts texts.now).text sid states.Plain)) }
{
    match texts.text_for(alloc, &sid, SidMark::Plain)? {
        Some(text) => Ok(Value::text(text)),
        None => Ok(Value::Sid(sid)),
    }
}

fn sids_value<T: SidTexts>(alloc: Global, texts: &T, sids: Sids) -> Result<Value, AllocError>
    ensures { IfOk result (λ shown. shown ≡ sids_value (T.texts texts.now) sids) }
{
    if !has_text(texts, sids.as_slice()) {
        return Ok(Value::Sids(sids));
    }
    let words = shown_sids(alloc, texts, sids.as_slice())?;
    words_value(alloc, &words)
}

fn has_text<T: SidTexts>(texts: &T, sids: &[(Sid, SidMark)]) -> bool
    ensures { result ≡ has_text (T.texts texts.now) sids.now }
{
    sids.iter().any(|one| texts.has_text(&one.0))
}

fn shown_sids<T: SidTexts>(
    alloc: Global,
    texts: &T,
    sids: &[(Sid, SidMark)],
) -> Result<Vec<String>, AllocError>
    ensures { IfOk result
        (λ words. map string_bytes words.items ≡ map (shown_sid (T.texts texts.now)) sids.now) }
{
    let mut words = Vec::with_capacity(alloc, sids.len())?;
    for one in sids {
        words.push(shown_sid(alloc, texts, &one.0, one.1)?)?;
    }
    Ok(words)
}

fn shown_sid<T: SidTexts>(
    alloc: Global,
    texts: &T,
    sid: &Sid,
    state: SidMark,
) -> Result<String, AllocError>
    ensures { IfOk result
        (λ word. string_bytes word ≡ shown_sid (T.texts texts.now) (sid.now, state)) }
{
    match texts.text_for(alloc, sid, state)? {
        Some(text) => Ok(text),
        None => marked_sid(alloc, sid, state),
    }
}

/// The SID in full, with its state.
pub(crate) fn marked_sid(alloc: Global, sid: &Sid, state: SidMark) -> Result<String, AllocError>
    ensures { IfOk result (λ text. string_bytes text ≡ marked_text (sid.now, state)) }
{
    let mut text = print_full_sid(alloc, sid)?;
    text.push_str(state.text())?;
    Ok(text)
}

/// Words as a value. The only error is out of memory.
pub fn words_value(alloc: Global, words: &[String]) -> Result<Value, AllocError>
    ensures { IfOk result (λ value. value ≡ values.Words (map string_bytes words.now)) }
{
    let mut lent = Vec::with_capacity(alloc, words.len())?;
    for word in words {
        lent.push(word.as_str())?;
    }
    Value::words(alloc, &lent)
}
