//! A line as a text.

ghost use Rattle.std.specs.Prelude.{◌≡◌, ◌++◌, IfOk, OnOk, flat_map, map, option_map, string_bytes};
ghost use Rattle.sd_line.specs.Fields.{fields_in};
ghost use Rattle.sd_line.specs.Printed.{coloured_part, coloured_text, coloured_words, colour_of, field_text, line_text};
ghost use Rattle.sd_line.specs.Printed.{marked_text, part_text, spaced, value_text};

use crate::fields::Fields;
use crate::line::{Line, Part, SidMark, Text, Value};
use crate::spelling::{Spelling, spell};
use sd_sid::Sid;
use sd_text::{print_entry_in, print_full_sid, print_sddl_in};
use std::alloc::{AllocError, Global};

/// How values are printed.
#[derive(Clone, Copy)]
pub(crate) struct Printer {
    pub(crate) alloc: Global,
    pub(crate) spelling: Spelling,
}

/// Ends a colour on a terminal.
const PLAIN: &[u8] = b"\x1b[0m";

impl Printer {
    /// Adds the text of a line, without its end. The only error is out of memory.
    pub(crate) fn push_text(&self, out: &mut Vec<u8>, line: &Line) -> Result<(), AllocError>
        ensures { OnOk result (out.new.items ≡ out.old.items ++ line_text self.now.spelling line.now) }
    {
        let (first, rest) = line.parts();
        if let Some(part) = first {
            self.push_part(out, part)?;
        }
        self.push_parts(out, rest)
    }

    fn push_parts(&self, out: &mut Vec<u8>, parts: &[Part]) -> Result<(), AllocError>
        ensures { OnOk result (out.new.items ≡ out.old.items ++ flat_map (part_text self.now.spelling) parts.now) }
    {
        for part in parts {
            self.push_part(out, part)?;
        }
        Ok(())
    }

    fn push_part(&self, out: &mut Vec<u8>, part: &Part) -> Result<(), AllocError>
        ensures { OnOk result (out.new.items ≡ out.old.items ++ part_text self.now.spelling part.now) }
    {
        let (words, fields) = Fields::of(part);
        out.extend_from_slice(words)?;
        self.push_fields(out, fields)
    }

    /// Adds the text of a line, without its end, in which a verdict's word has its colour. The only error is out of
    /// memory.
    pub(crate) fn push_coloured(&self, out: &mut Vec<u8>, line: &Line) -> Result<(), AllocError>
        ensures { OnOk result (out.new.items ≡ out.old.items ++ coloured_text self.now.spelling line.now) }
    {
        let (first, rest) = line.parts();
        if let Some(part) = first {
            self.push_coloured_part(out, line.kind(), part)?;
        }
        self.push_coloured_parts(out, line.kind(), rest)
    }

    fn push_coloured_parts(
        &self,
        out: &mut Vec<u8>,
        kind: &str,
        parts: &[Part],
    ) -> Result<(), AllocError>
        ensures { OnOk result (out.new.items
            ≡ out.old.items ++ flat_map (coloured_part self.now.spelling kind.now) parts.now) }
    {
        for part in parts {
            self.push_coloured_part(out, kind, part)?;
        }
        Ok(())
    }

    fn push_coloured_part(
        &self,
        out: &mut Vec<u8>,
        kind: &str,
        part: &Part,
    ) -> Result<(), AllocError>
        ensures { OnOk result (out.new.items ≡ out.old.items ++ coloured_part self.now.spelling kind.now part.now) }
    {
        let (words, fields) = Fields::of(part);
        push_coloured_words(out, kind.as_bytes(), words)?;
        self.push_fields(out, fields)
    }

    /// Adds the values in turn, each with the words after its name.
    fn push_fields(&self, out: &mut Vec<u8>, fields: Fields<'_>) -> Result<(), AllocError>
        ensures { OnOk result (out.new.items ≡ out.old.items
            ++ flat_map (field_text self.now.spelling) (fields_in fields.entry)) }
    {
        let Some((field, fields)) = fields.first() else {
            return Ok(());
        };
        self.push_value(out, field.value)?;
        out.extend_from_slice(field.words)?;
        self.push_fields(out, fields)
    }

    fn push_value(&self, out: &mut Vec<u8>, value: &Value) -> Result<(), AllocError>
        ensures { OnOk result (out.new.items ≡ out.old.items ++ value_text self.now.spelling value.now) }
    {
        if let Value::Text(text) = value {
            return out.extend_from_slice(text.as_str().as_bytes());
        }
        let text = self.value_text(value)?;
        out.extend_from_slice(text.as_bytes())
    }

    pub(crate) fn value_text(&self, value: &Value) -> Result<String, AllocError>
        ensures { IfOk result (λ text. string_bytes text ≡ value_text self.now.spelling value.now) }
    {
        match value {
            Value::Mask(mask) => spell(self.alloc, self.spelling, *mask),
            Value::Number(number) => format!(in self.alloc; "{number}"),
            Value::Sid(sid) => print_full_sid(self.alloc, sid),
            Value::Entry(entry) => print_entry_in(self.alloc, self.spelling.right_names(), entry),
            Value::Descriptor(shown) => {
                let names = self.spelling.right_names();
                print_sddl_in(self.alloc, names, shown.descriptor())
            }
            Value::Text(text) => String::from_str(self.alloc, text.as_str()),
            Value::Sids(sids) => self.spaced(&self.sid_texts(sids.as_slice())?),
            Value::Words(words) => self.spaced(&self.word_texts(words.as_slice())?),
        }
    }

    /// Texts, each after a space.
    fn spaced(&self, texts: &[String]) -> Result<String, AllocError>
        ensures { IfOk result (λ text. string_bytes text ≡ spaced (map string_bytes texts.now)) }
    {
        let mut text = String::new(self.alloc);
        for one in texts {
            text.push_str(" ")?;
            text.push_str(one.as_str())?;
        }
        Ok(text)
    }

    pub(crate) fn word_texts(&self, words: &[Text]) -> Result<Vec<String>, AllocError>
        ensures { IfOk result (λ texts. map string_bytes texts.items ≡ words.now) }
    {
        let mut texts = Vec::new(self.alloc);
        for word in words {
            texts.push(String::from_str(self.alloc, word.as_str())?)?;
        }
        Ok(texts)
    }

    pub(crate) fn sid_texts(&self, sids: &[(Sid, SidMark)]) -> Result<Vec<String>, AllocError>
        ensures { IfOk result (λ texts. map string_bytes texts.items ≡ map marked_text sids.now) }
    {
        let mut texts = Vec::new(self.alloc);
        for one in sids {
            texts.push(self.marked_text(one)?)?;
        }
        Ok(texts)
    }

    /// A SID with what it is in a token.
    fn marked_text(&self, one: &(Sid, SidMark)) -> Result<String, AllocError>
        ensures { IfOk result (λ text. string_bytes text ≡ marked_text one.now) }
    {
        let mut text = print_full_sid(self.alloc, &one.0)?;
        text.push_str(one.1.text())?;
        Ok(text)
    }
}

/// Adds words in which the kind of a verdict's line, where they begin with it, has its colour.
fn push_coloured_words(out: &mut Vec<u8>, kind: &[u8], words: &[u8]) -> Result<(), AllocError>
    ensures { OnOk result (out.new.items ≡ out.old.items ++ coloured_words kind.now words.now) }
{
    match colour_of(kind) {
        Some(colour) if words.starts_with(kind) => {
            out.extend_from_slice(colour)?;
            out.extend_from_slice(kind)?;
            out.extend_from_slice(PLAIN)?;
            out.extend_from_slice(&words[kind.len()..])
        }
        _ => out.extend_from_slice(words),
    }
}

/// What begins the colour of a verdict's word on a terminal: green for `granted`, red for `denied`.
fn colour_of(kind: &[u8]) -> Option<&'static [u8]>
    ensures { option_map (λ colour. colour.now) result ≡ colour_of kind.now }
{
    if kind == b"granted".as_slice() {
        Some(b"\x1b[32m")
    } else if kind == b"denied".as_slice() {
        Some(b"\x1b[31m")
    } else {
        None
    }
}
