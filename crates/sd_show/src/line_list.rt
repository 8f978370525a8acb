//! Lines, and the parts of one, as they are added one after the other.

ghost use Rattle.std.specs.Prelude.{◌≡◌, ◌∷◌, [], ◌++◌, OnOk, map, string_bytes};
ghost use Rattle.sd_line.specs.Line.{form_of, line_of, line_with, part_of, word_part};
ghost use Rattle.sd_line.specs.declared.line.Value.TheVariants as values;

use sd_line::{Line, LineForm, Part, Value};
use std::alloc::{AllocError, Global};
use std::marker::Model;

/// Lines. Contracts see the list.
#[derive(Drop)]
pub(crate) struct Lines {
    pub(crate) alloc: Global,
    pub(crate) items: Vec<Line>,
}

impl Model for Lines {
    ghost use Rattle.std.specs.Prelude.{List};
    ghost use Rattle.sd_line.specs.Line.{LineOf};

    ghost Value = { List LineOf };

    ghost view = { λ l. l.items.items };
}

impl Lines {
    pub(crate) fn new(alloc: Global) -> Lines
        ensures { result ≡ [] }
    {
        let items = Vec::new(alloc);
        Lines { alloc, items }
    }

    /// Adds a line of one part.
    pub(crate) fn push(&mut self, form: LineForm, values: Vec<Value>) -> Result<(), AllocError>
        ensures { OnOk result (self.new ≡ self.old ++ line_of (form_of form.entry) values.items ∷ []) }
    {
        let line = Line::new(self.alloc, form, values)?;
        self.items.push(line)?;
        Ok(())
    }

    /// Adds a line of these parts.
    pub(crate) fn push_parts(&mut self, kind: &'static str, parts: Parts) -> Result<(), AllocError>
        ensures { OnOk result (self.new ≡ self.old ++ line_with kind.now parts ∷ []) }
    {
        self.items.push(Line::of(kind, parts.items))?;
        Ok(())
    }
}

/// The parts of a line. Contracts see the list.
#[derive(Drop)]
pub(crate) struct Parts {
    pub(crate) alloc: Global,
    pub(crate) items: Vec<Part>,
}

impl Model for Parts {
    ghost use Rattle.std.specs.Prelude.{List};
    ghost use Rattle.sd_line.specs.Line.{PartOf};

    ghost Value = { List PartOf };

    ghost view = { λ p. p.items.items };
}

impl Parts {
    pub(crate) fn new(alloc: Global) -> Parts
        ensures { result ≡ [] }
    {
        let items = Vec::new(alloc);
        Parts { alloc, items }
    }

    pub(crate) fn push(&mut self, form: &'static str, values: Vec<Value>) -> Result<(), AllocError>
        ensures { OnOk result (self.new ≡ self.old ++ part_of form.now values.items ∷ []) }
    {
        self.items.push(Part::new(form, values))?;
        Ok(())
    }

    /// Adds words with one value, a text.
    pub(crate) fn push_text(&mut self, form: &'static str, text: String) -> Result<(), AllocError>
        ensures { OnOk result (self.new ≡ self.old ++ word_part form.now (string_bytes text) ∷ []) }
    {
        let values = vec![in self.alloc; Value::text(text)]?;
        self.push(form, values)
    }

    /// Adds words with one value, a word of ours.
    pub(crate) fn push_word(&mut self, form: &'static str, word: &str) -> Result<(), AllocError>
        ensures { OnOk result (self.new ≡ self.old ++ word_part form.now word.now ∷ []) }
    {
        let part = Part::word(self.alloc, form, word)?;
        self.items.push(part)?;
        Ok(())
    }
}
