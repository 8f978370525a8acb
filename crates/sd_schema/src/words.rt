//! The words of a command line that name object types, with GUIDs in the place of names.

ghost use Rattle.std.specs.Prelude.{◌≡◌, ◌++◌, ◌∷◌, [], Ok, IfErr, IfOk, map, string_bytes};
ghost use Rattle.sd_answer.specs.Word.{texts};
ghost use Rattle.sd_schema.specs.Kept.{rows_of};
ghost use Rattle.sd_schema.specs.Words.{IsWordError, awaited_by, option_words, tree_words, with_guids, with_value};
ghost use Rattle.sd_schema.specs.Words.{words_from};
ghost use Rattle.sd_schema.specs.declared.words.WordError.TheVariants as word_error;

use crate::names::TypeNameFault;
use crate::schema::Schema;
use crate::texts::{NodeError, TypeTextError};
use sd_usage::{OptionName, ProgramOption, option_named};
use std::alloc::{AllocError, AllocFailed, Global};

/// Why words that name object types aren't those of GUIDs.
#[derive(Clone, Copy, Debug, PartialEq, Eq)]
pub enum WordError {
    /// The word at this place, a value of `--type`, names no object type, or two.
    Type { place: usize, fault: TypeNameFault },
    /// The node of TREE at this place, counted from 0, names none, or two.
    Node { place: usize, fault: TypeNameFault },
    /// Out of memory.
    Memory,
}

impl From<AllocError> for WordError {
    ghost from_gives = { λ _ e. e ≡ word_error.Memory };

    fn from(_error: AllocError) -> WordError {
        WordError::Memory
    }
}

impl<T: Drop> From<AllocFailed<T>> for WordError {
    ghost from_gives = { λ _ e. e ≡ word_error.Memory };

    fn from(_error: AllocFailed<T>) -> WordError {
        WordError::Memory
    }
}

impl Schema {
    /// The words of a command line, of which the first is the program's name, with GUIDs ([MS-DTYP] 2.3.4.3) in the
    /// place of names: the values of `--type`, and TREE, which is the word at the place `tree`, if one is.
    pub fn with_guids(
        &self,
        alloc: Global,
        words: &[&str],
        tree: usize,
    ) -> Result<Vec<String>, WordError>
        ensures words { IfOk result (λ own.
            with_guids (rows_of self.now) tree (texts words.now) ≡ Ok (map string_bytes own.items)) }
        ensures none { IfErr result (IsWordError (with_guids (rows_of self.now) tree (texts words.now))) }
    {
        let tree = tree.min(words.len());
        match self.option_words(alloc, &words[..tree]) {
            Ok(begun) => self.tree_words(alloc, begun, &words[tree..]),
            Err(error) => Err(error),
        }
    }

    /// The words up to TREE.
    fn option_words(&self, alloc: Global, words: &[&str]) -> Result<Vec<String>, WordError>
        ensures words { IfOk result (λ own.
            option_words (rows_of self.now) (texts words.now) ≡ Ok (map string_bytes own.items)) }
        ensures none { IfErr result (IsWordError (option_words (rows_of self.now) (texts words.now))) }
    {
        let [name, after @ ..] = words else {
            return Ok(Vec::new(alloc));
        };
        let begun = with_copy(alloc, Vec::new(alloc), name)?;
        self.words_from(alloc, None, begun, after)
    }

    /// These words, and those that follow them, of which the first is the value of an option that awaits one.
    fn words_from(
        &self,
        alloc: Global,
        awaited: Option<OptionName>,
        begun: Vec<String>,
        words: &[&str],
    ) -> Result<Vec<String>, WordError>
        ensures words { IfOk result (λ own.
            words_from (rows_of self.now) awaited (map string_bytes begun.items) (texts words.entry.now)
            ≡ Ok (map string_bytes own.items)) }
        ensures none { IfErr result (IsWordError
            (words_from (rows_of self.now) awaited (map string_bytes begun.items) (texts words.entry.now))) }
    {
        let [word, after @ ..] = words else {
            return Ok(begun);
        };
        if let Some(option) = awaited {
            return match self.with_value(alloc, begun, option, word) {
                Ok(more) => self.words_from(alloc, None, more, after),
                Err(error) => Err(error),
            };
        }
        match option_named(word) {
            Some(option) => match with_copy(alloc, begun, word) {
                Ok(more) => self.words_from(alloc, awaited_by(option), more, after),
                Err(error) => Err(error),
            },
            None => with_copies(alloc, begun, words),
        }
    }

    /// These words, and the value of an option, with a GUID in the place of a name if it is `--type`'s.
    fn with_value(
        &self,
        alloc: Global,
        begun: Vec<String>,
        option: OptionName,
        value: &str,
    ) -> Result<Vec<String>, WordError>
        ensures words { IfOk result (λ own.
            with_value (rows_of self.now) (map string_bytes begun.items) option value.now
            ≡ Ok (map string_bytes own.items)) }
        ensures none { IfErr result (IsWordError
            (with_value (rows_of self.now) (map string_bytes begun.items) option value.now)) }
    {
        if !matches!(option, OptionName::Type) {
            return with_copy(alloc, begun, value);
        }
        let place = begun.len();
        match self.type_text(alloc, value) {
            Ok(own) => with_word(begun, own),
            Err(TypeTextError::Name(fault)) => Err(WordError::Type { place, fault }),
            Err(TypeTextError::Memory) => Err(WordError::Memory),
        }
    }

    /// These words, and TREE and what follows it.
    fn tree_words(
        &self,
        alloc: Global,
        begun: Vec<String>,
        words: &[&str],
    ) -> Result<Vec<String>, WordError>
        ensures words { IfOk result (λ own.
            tree_words (rows_of self.now) (map string_bytes begun.items) (texts words.now)
            ≡ Ok (map string_bytes own.items)) }
        ensures none { IfErr result (IsWordError
            (tree_words (rows_of self.now) (map string_bytes begun.items) (texts words.now))) }
    {
        let [tree, after @ ..] = words else {
            return Ok(begun);
        };
        match self.tree_text(alloc, tree) {
            Ok(own) => match with_word(begun, own) {
                Ok(more) => with_copies(alloc, more, after),
                Err(error) => Err(error),
            },
            Err(NodeError::Name { place, fault }) => Err(WordError::Node { place, fault }),
            Err(NodeError::Memory) => Err(WordError::Memory),
        }
    }
}

/// The option, if it awaits a value.
fn awaited_by(option: ProgramOption) -> Option<OptionName>
    ensures { result ≡ awaited_by option }
{
    match option.value {
        Some(_) => Some(option.name),
        None => None,
    }
}

/// These words and one more. The only error is out of memory.
fn with_word(begun: Vec<String>, word: String) -> Result<Vec<String>, WordError>
    ensures words { IfOk result (λ own.
        map string_bytes own.items ≡ map string_bytes begun.items ++ string_bytes word ∷ []) }
    ensures none { IfErr result (λ e. e ≡ word_error.Memory) }
{
    let mut own = begun;
    own.push(word)?;
    Ok(own)
}

/// These words and one more as it stands. The only error is out of memory.
fn with_copy(alloc: Global, begun: Vec<String>, word: &str) -> Result<Vec<String>, WordError>
    ensures words { IfOk result (λ own.
        map string_bytes own.items ≡ map string_bytes begun.items ++ word.now ∷ []) }
    ensures none { IfErr result (λ e. e ≡ word_error.Memory) }
{
    with_word(begun, String::from_str(alloc, word)?)
}

/// These words, and those that follow them as they stand. The only error is out of memory.
fn with_copies(alloc: Global, begun: Vec<String>, words: &[&str]) -> Result<Vec<String>, WordError>
    ensures words { IfOk result (λ own.
        map string_bytes own.items ≡ map string_bytes begun.items ++ texts words.now) }
    ensures none { IfErr result (λ e. e ≡ word_error.Memory) }
{
    let mut own = begun;
    for word in words {
        own.push(String::from_str(alloc, word)?)?;
    }
    Ok(own)
}
