//! Paths in lines: how a word spells one.
ghost use Rattle.std.specs.Prelude.{◌≡◌, IfOk, string_bytes};
ghost use Rattle.sd_line.specs.declared.line.Value.TheVariants.{Text};
ghost use Rattle.sd_script.specs.Argument.{path};
ghost use Rattle.sd_script.specs.Fault.{UnlessMemory};
ghost use Rattle.sd_script.specs.Paths.{is_split, path_word};
ghost use Rattle.sd_script.specs.declared.paths.PathSpelling.TheVariants.{Percent, Plain};

use crate::fault::{LineFault, LineStop};
use percent_encoding::{
    AsciiSet, CONTROLS, DecodeError, ascii_set, percent_decode, utf8_percent_encode,
};
use sd_line::Value;
use sd_tree::{Path, PathError};
use std::alloc::{AllocError, Global};

/// How a word spells a path.
#[derive(Clone, Copy, Debug, PartialEq, Eq)]
pub enum PathSpelling {
    /// Byte for byte.
    Plain,
    /// As in a URL: `%` and two hexadecimal digits stand for a byte, which isn't `/`.
    Percent,
}

/// What `%` spells, beside all that isn't ASCII: what would end a word or a line, other controls, and `%` itself.
pub(crate) const SPELLED: AsciiSet = ascii_set!(CONTROLS.add(b' ').add(b'%'));

/// The path that a word spells.
pub(crate) fn path_in(alloc: Global, paths: PathSpelling, word: &str) -> Result<Path, LineStop>
    ensures { UnlessMemory (path paths word.now) result }
{
    match paths {
        PathSpelling::Plain => plain_path(alloc, word),
        PathSpelling::Percent => percent_path(alloc, word),
    }
}

fn plain_path(alloc: Global, word: &str) -> Result<Path, LineStop>
    ensures { UnlessMemory (path Plain word.now) result }
{
    match Path::read(alloc, word) {
        Ok(path) => Ok(path),
        Err(PathError::Memory) => Err(LineStop::Memory),
        Err(_) => Err(LineStop::Fault(LineFault::Path)),
    }
}

/// A name has no `/`, so that none is spelled by `%`: what is a part of a name never parts two.
#[tactic(auto, using(std::proofs::lemmas::Str::Pattern::contains_text))]
fn percent_path(alloc: Global, word: &str) -> Result<Path, LineStop>
    ensures { UnlessMemory (path Percent word.now) result }
{
    if word.contains("%2F") || word.contains("%2f") {
        return Err(LineStop::Fault(LineFault::Path));
    }
    match percent_decode(word.as_bytes()).decode_utf8(alloc) {
        Ok(spelled) => plain_path(alloc, &spelled),
        Err(DecodeError::Utf8(_)) => Err(LineStop::Fault(LineFault::Path)),
        Err(DecodeError::OutOfMemory) => Err(LineStop::Memory),
    }
}

/// The word that spells the path.
pub(crate) fn path_word(
    alloc: Global,
    paths: PathSpelling,
    path: &Path,
) -> Result<String, AllocError>
    ensures { IfOk result (λ word. string_bytes word ≡ path_word paths path.now) }
{
    let text = format!(in alloc; "{path}")?;
    match paths {
        PathSpelling::Plain => Ok(text),
        PathSpelling::Percent => {
            let mut word = String::new(alloc);
            utf8_percent_encode(&text, SPELLED).append_to(&mut word)?;
            Ok(word)
        }
    }
}

/// A path as a value of a line.
pub(crate) fn path_value(
    alloc: Global,
    paths: PathSpelling,
    path: &Path,
) -> Result<Value, AllocError>
    ensures { IfOk result (λ value. value ≡ Text (path_word paths path.now)) }
{
    Ok(Value::text(path_word(alloc, paths, path)?))
}

/// Whether the path's text, as it is, would be more than one word of a line.
pub(crate) fn is_split(alloc: Global, path: &Path) -> Result<bool, AllocError>
    ensures { IfOk result (λ is. is ≡ is_split path.now) }
{
    let text = format!(in alloc; "{path}")?;
    Ok(text.bytes().any(|b| b == b' ' || b == b'\n'))
}
