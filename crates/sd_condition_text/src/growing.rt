//! Texts that grow at both ends.

ghost use Rattle.std.specs.Prelude.{◌≡◌, ◌++◌, IfOk, OnOk, string_bytes};
ghost use Rattle.sd_condition_text.specs.Growing.{words_text};

use std::alloc::{AllocError, Global};
use std::marker::Model;

/// A text before which words are put. Contracts see the bytes.
#[derive(Debug, Drop)]
pub(crate) struct Growing {
    /// The words before the rest, of which the last is the first of the text: so no word moves the text.
    front: Vec<&'static str>,
    rest: String,
}

impl Model for Growing {
    ghost use Rattle.std.specs.Prelude.{◌++◌, ℕ, List, string_bytes};
    ghost use Rattle.sd_condition_text.specs.Growing.{words_text};

    ghost Value = { List ℕ };

    ghost view = { λ g. words_text g.front.items ++ string_bytes g.rest };
}

impl Growing {
    /// The text, which grows from now on. Allocates nothing.
    pub(crate) fn new(alloc: Global, text: String) -> Growing
        ensures { result ≡ string_bytes text }
    {
        Growing {
            front: Vec::new(alloc),
            rest: text,
        }
    }

    /// Puts a word before the text.
    #[tactic(auto, using(crate::proofs::Words::word_before))]
    pub(crate) fn put_before(&mut self, word: &'static str) -> Result<(), AllocError>
        ensures { OnOk result (self.new ≡ word.now ++ self.old) }
    {
        self.front.push(word)?;
        Ok(())
    }

    /// Appends a text.
    pub(crate) fn push_str(&mut self, text: &str) -> Result<(), AllocError>
        ensures { OnOk result (self.new ≡ self.old ++ text.now) }
    {
        self.rest.push_str(text)
    }

    /// Appends another text.
    pub(crate) fn append(&mut self, other: Growing) -> Result<(), AllocError>
        ensures { OnOk result (self.new ≡ self.old ++ other) }
    {
        push_words(&mut self.rest, other.front)?;
        self.rest.push_str(other.rest.as_str())
    }

    /// The whole text.
    pub(crate) fn finish(self, alloc: Global) -> Result<String, AllocError>
        ensures { IfOk result (λ text. string_bytes text ≡ self) }
    {
        let mut text = String::new(alloc);
        push_words(&mut text, self.front)?;
        text.push_str(self.rest.as_str())?;
        Ok(text)
    }
}

/// Appends words, the last of them first.
fn push_words(out: &mut String, words: Vec<&'static str>) -> Result<(), AllocError>
    ensures { OnOk result (string_bytes out.new ≡ string_bytes out.old ++ words_text words.entry.items) }
{
    let mut left = words;
    while let Some(word) = left.pop() {
        out.push_str(word)?;
    }
    Ok(())
}
