//! The values of a line, each by the name in whose place it stands.

ghost use Rattle.std.specs.Prelude.{◌≡◌, ◌∷◌, [], IfNone, IfSome, option_map};
ghost use Rattle.sd_line.specs.Fields.{field_in, fields_in};
ghost use Rattle.sd_line.specs.Form.{pieces_of};
ghost use Rattle.sd_line.specs.Line.{fields_of, named_among, named_in, value_named};
ghost use Rattle.sd_line.specs.Printed.{first_words};

use crate::form::{first_words, name_and_words};
use crate::line::{Line, Part, Value};

/// A value, its name, and the words that follow it.
#[derive(Clone, Copy)]
pub(crate) struct Field<'a> {
    pub(crate) name: &'a [u8],
    pub(crate) value: &'a Value,
    pub(crate) words: &'a [u8],
}

/// Fields of a part, in their order.
#[derive(Clone, Copy)]
pub(crate) struct Fields<'a> {
    /// The form from the next name on, if there is one.
    pieces: Option<&'a [u8]>,
    values: &'a [Value],
}

impl<'a> Fields<'a> {
    /// The words before the first one, and the fields.
    pub(crate) fn of(part: &'a Part) -> (&'a [u8], Fields<'a>)
        ensures words { result.0.now ≡ first_words (pieces_of part.entry.now.form) }
        ensures fields { fields_in result.1 ≡ fields_of part.entry.now }
    {
        let (words, pieces) = first_words(part.form().as_bytes());
        let values = part.values();
        (words, Fields { pieces, values })
    }

    /// The first one, and those after it.
    pub(crate) fn first(self) -> Option<(Field<'a>, Fields<'a>)>
        ensures some { IfSome result (λ found. fields_in self.entry ≡ field_in found.0 ∷ fields_in found.1) }
        ensures none { IfNone result (fields_in self.entry ≡ []) }
    {
        let [value, values @ ..] = self.values else {
            return None;
        };
        let (piece, pieces) = first_words(self.pieces?);
        let (name, words) = name_and_words(piece);
        Some((Field { name, value, words }, Fields { pieces, values }))
    }

    fn value(self, name: &[u8]) -> Option<&'a Value>
        ensures { option_map (λ value. value.now) result ≡ named_among name.now (fields_in self.entry) }
    {
        let (field, fields) = self.first()?;
        if field.name == name {
            return Some(field.value);
        }
        fields.value(name)
    }
}

impl Line {
    /// The value of this name, as JSON has it; of several the first.
    pub fn value(&self, name: &[u8]) -> Option<&Value>
        ensures { option_map (λ value. value.now) result ≡ value_named name.now self.now }
    {
        let (first, rest) = self.parts();
        let Some(part) = first else {
            return value_in(rest, name);
        };
        match value_of(part, name) {
            Some(value) => Some(value),
            None => value_in(rest, name),
        }
    }
}

fn value_of<'a>(part: &'a Part, name: &[u8]) -> Option<&'a Value>
    ensures { option_map (λ value. value.now) result ≡ named_among name.now (fields_of part.entry.now) }
{
    let (_, fields) = Fields::of(part);
    fields.value(name)
}

fn value_in<'a>(parts: &'a [Part], name: &[u8]) -> Option<&'a Value>
    ensures { option_map (λ value. value.now) result ≡ named_in name.now parts.entry.now }
{
    let [part, parts @ ..] = parts else {
        return None;
    };
    match value_of(part, name) {
        Some(value) => Some(value),
        None => value_in(parts, name),
    }
}
