//! Lines of answers, before anything of them is spelled.

ghost use Rattle.std.specs.Prelude.{◌≡◌, IfOk, bytes_eq, map, option_map, string_bytes};
ghost use Rattle.std.specs.List.{list_any};
ghost use Rattle.sd_acl.specs.Descriptor.{descriptor_of};
ghost use Rattle.sd_line.specs.declared.line.Value.TheVariants as values;
ghost use Rattle.sd_line.specs.Line.{form_of, is_of, line_of, line_with, part_of, part_says, parts_from, says};
ghost use Rattle.sd_line.specs.Line.{text_line, value_says, with_head, with_tail, word_part};
ghost use Rattle.sd_line.specs.Printed.{mark_text};

use sd_acl::{Ace, Descriptor};
use sd_sid::{Mask, Sid};
use std::alloc::{AllocError, Global};
use std::marker::Model;

/// What a SID is in a token, where a line lists those of one.
#[derive(Clone, Copy, Debug, PartialEq, Eq)]
pub enum SidMark {
    /// One that the token has.
    Plain,
    /// A group for denies alone, `=deny`.
    Deny,
    /// A restricting SID, `=restrict`.
    Restrict,
}

impl SidMark {
    /// What follows the SID in a text.
    pub fn text(self) -> &'static str
        ensures { result.now ≡ mark_text self }
    {
        match self {
            SidMark::Plain => "",
            SidMark::Deny => "=deny",
            SidMark::Restrict => "=restrict",
        }
    }
}

/// A kind of line, and the words of its first part, in which each `{name}` stands for a value.
pub type LineForm = (&'static str, &'static str);

/// A text in a line. Contracts see its bytes.
#[derive(Drop)]
pub struct Text {
    text: String,
}

impl Model for Text {
    ghost use Rattle.std.specs.Prelude.{ℕ, List, string_bytes};

    ghost Value = { List ℕ };

    ghost view = { λ t. string_bytes t.text };
}

impl Text {
    pub fn as_str(&self) -> &str
        ensures { result.now ≡ self.now }
    {
        self.text.as_str()
    }
}

/// SIDs in a line, of which it may have none. Contracts see the list.
#[derive(Drop)]
pub struct Sids {
    sids: Vec<(Sid, SidMark)>,
}

impl Model for Sids {
    ghost use Rattle.std.specs.Prelude.{List};
    ghost use Rattle.sd_sid.specs.Sid.{SidValue};
    ghost use Rattle.sd_line.specs.declared.line.SidMark.{SidMark};

    ghost Value = { List (SidValue × SidMark) };

    ghost view = { λ s. s.sids.items };
}

impl Sids {
    pub fn as_slice(&self) -> &[(Sid, SidMark)]
        ensures { result.now ≡ self.now }
    {
        &self.sids
    }
}

/// Words of ours in a line, of which it may have none. Contracts see the list.
#[derive(Drop)]
pub struct Words {
    words: Vec<Text>,
}

impl Model for Words {
    ghost use Rattle.std.specs.Prelude.{ℕ, List};

    ghost Value = { List (List ℕ) };

    ghost view = { λ w. w.words.items };
}

impl Words {
    fn has(&self, word: &str) -> bool
        ensures { result ≡ list_any (bytes_eq word.now) self.now }
    {
        self.words
            .iter()
            .any(|text| word.as_bytes() == text.as_str().as_bytes())
    }

    pub fn as_slice(&self) -> &[Text]
        ensures { result.now ≡ self.now }
    {
        &self.words
    }
}

/// A descriptor in a line. Contracts see its value.
#[derive(Drop)]
pub struct Shown {
    descriptor: Descriptor,
}

impl Model for Shown {
    ghost use Rattle.sd_acl.specs.Descriptor.{DescriptorValue, descriptor_of};

    ghost Value = { DescriptorValue };

    ghost view = { λ s. descriptor_of s.descriptor };
}

impl Shown {
    pub(crate) fn descriptor(&self) -> &Descriptor
        ensures { descriptor_of result.now ≡ self.now }
    {
        &self.descriptor
    }
}

/// What a line says, by its names: nothing of it is spelled yet.
#[derive(Drop)]
pub enum Value {
    Mask(Mask),
    Number(u64),
    Sid(Sid),
    Entry(Ace),
    Descriptor(Shown),
    Text(Text),
    Sids(Sids),
    Words(Words),
}

impl Value {
    pub fn text(text: String) -> Value
        ensures { result ≡ values.Text (string_bytes text) }
    {
        Value::Text(Text { text })
    }

    /// A word of ours. The only error is out of memory.
    pub fn word(alloc: Global, word: &str) -> Result<Value, AllocError>
        ensures { IfOk result (λ value. value ≡ values.Text word.now) }
    {
        let word = String::from_str(alloc, word)?;
        Ok(Value::text(word))
    }

    pub fn sids(sids: Vec<(Sid, SidMark)>) -> Value
        ensures { result ≡ values.Sids sids.items }
    {
        Value::Sids(Sids { sids })
    }

    /// Words of ours, one after the other. The only error is out of memory.
    pub fn words(alloc: Global, words: &[&str]) -> Result<Value, AllocError>
        ensures { IfOk result (λ value. value ≡ values.Words (map (λ word. word.now) words.now)) }
    {
        let mut texts = Vec::new(alloc);
        for word in words {
            let text = String::from_str(alloc, word)?;
            texts.push(Text { text })?;
        }
        Ok(Value::Words(Words { words: texts }))
    }

    /// Whether it is words of which one is this.
    fn says(&self, word: &str) -> bool
        ensures { result ≡ value_says word.now self.now }
    {
        match self {
            Value::Words(words) => words.has(word),
            _ => false,
        }
    }

    pub fn descriptor(descriptor: Descriptor) -> Value
        ensures { result ≡ values.Descriptor (descriptor_of descriptor) }
    {
        Value::Descriptor(Shown { descriptor })
    }
}

/// Words in which each `{name}` stands for the next of the values.
#[derive(Drop)]
pub struct Part {
    form: &'static str,
    values: Vec<Value>,
}

impl Model for Part {
    ghost use Rattle.sd_line.specs.Line.{PartOf};

    ghost Value = { PartOf };

    ghost view = { λ p. record { form = p.form.now; values = p.values.items } };
}

impl Part {
    /// Words with values: one for each `{name}`.
    pub fn new(form: &'static str, values: Vec<Value>) -> Part
        ensures { result ≡ part_of form.now values.items }
    {
        Part { form, values }
    }

    /// Words with one value, a word of ours. The only error is out of memory.
    pub fn word(alloc: Global, form: &'static str, word: &str) -> Result<Part, AllocError>
        ensures { IfOk result (λ part. part ≡ word_part form.now word.now) }
    {
        let word = Value::word(alloc, word)?;
        let mut values = Vec::new(alloc);
        values.push(word)?;
        Ok(Part { form, values })
    }

    pub(crate) fn form(&self) -> &'static str
        ensures { result.now ≡ self.now.form }
    {
        self.form
    }

    /// The words, and the values for which names stand in them.
    pub fn into_values(self) -> (&'static str, Vec<Value>)
        ensures form { result.0.now ≡ self.form }
        ensures values { result.1.items ≡ self.values }
    {
        (self.form, self.values)
    }

    /// Whether one of its words is this.
    fn says(&self, word: &str) -> bool
        ensures { result ≡ part_says word.now self.now }
    {
        self.values.iter().any(|value| value.says(word))
    }

    /// The values for which names stand in the words.
    pub fn values(&self) -> &[Value]
        ensures { result.now ≡ self.now.values }
    {
        &self.values
    }
}

/// A line of an answer: what kind of line it is, and its parts. Most lines have one, for which no list is allocated.
#[derive(Drop)]
pub struct Line {
    kind: &'static str,
    first: Option<Part>,
    rest: Vec<Part>,
}

impl Model for Line {
    ghost use Rattle.sd_line.specs.Line.{LineOf, parts_from};

    ghost Value = { LineOf };

    ghost view = { λ l. record { kind = l.kind.now; parts = parts_from l.first l.rest.items } };
}

impl Line {
    /// A text of no kind, as the SDDL of a descriptor. The only error is out of memory.
    pub fn text(alloc: Global, text: String) -> Result<Line, AllocError>
        ensures { IfOk result (λ line. line ≡ text_line (string_bytes text)) }
    {
        let mut values = Vec::new(alloc);
        values.push(Value::text(text))?;
        Line::new(alloc, ("", "{text}"), values)
    }

    /// A line of one part. The only error is out of memory.
    pub fn new(alloc: Global, form: LineForm, values: Vec<Value>) -> Result<Line, AllocError>
        ensures { IfOk result (λ line. line ≡ line_of (form_of form.entry) values.items) }
    {
        Ok(Line {
            kind: form.0,
            first: Some(Part::new(form.1, values)),
            rest: Vec::new(alloc),
        })
    }

    /// A line of these parts.
    pub fn of(kind: &'static str, parts: Vec<Part>) -> Line
        ensures { result ≡ line_with kind.now parts.items }
    {
        Line {
            kind,
            first: None,
            rest: parts,
        }
    }

    /// The line with a part more before it. The only error is out of memory.
    pub fn with_head(self, head: Part) -> Result<Line, AllocError>
        ensures { IfOk result (λ line. line ≡ with_head head self) }
    {
        let (kind, rest) = self.into_parts()?;
        Ok(Line {
            kind,
            first: Some(head),
            rest,
        })
    }

    /// The line with a part more behind it. The only error is out of memory.
    pub fn with_tail(self, tail: Part) -> Result<Line, AllocError>
        ensures { IfOk result (λ line. line ≡ with_tail tail self) }
    {
        let Line {
            kind,
            first,
            mut rest,
        } = self;
        rest.push(tail)?;
        Ok(Line { kind, first, rest })
    }

    /// What kind of line it is, and its parts. The only error is out of memory.
    pub fn into_parts(self) -> Result<(&'static str, Vec<Part>), AllocError>
        ensures { IfOk result (λ own. (own.0.now ≡ self.kind) × (own.1.items ≡ self.parts)) }
    {
        let Line {
            kind,
            first,
            mut rest,
        } = self;
        if let Some(part) = first {
            rest.insert(0, part)?;
        }
        Ok((kind, rest))
    }

    /// Whether the line is of this kind.
    pub fn is_of(&self, kind: &str) -> bool
        ensures { result ≡ is_of kind.now self.now }
    {
        self.kind.as_bytes() == kind.as_bytes()
    }

    /// Whether one of the line's words is this.
    pub fn says(&self, word: &str) -> bool
        ensures { result ≡ says word.now self.now }
    {
        let (first, rest) = self.parts();
        match first {
            Some(part) if part.says(word) => true,
            _ => any_says(rest, word),
        }
    }

    /// What kind of line it is; no text where it is of none.
    pub fn kind(&self) -> &'static str
        ensures { result.now ≡ self.now.kind }
    {
        self.kind
    }

    /// The first part, and those after it. Without a first one the others are all.
    pub fn parts(&self) -> (Option<&Part>, &[Part])
        ensures { parts_from (option_map (λ part. part.now) result.0) result.1.now ≡ self.now.parts }
    {
        (self.first.as_ref(), &self.rest)
    }
}

fn any_says(parts: &[Part], word: &str) -> bool
    ensures { result ≡ list_any (part_says word.now) parts.now }
{
    parts.iter().any(|part| part.says(word))
}
