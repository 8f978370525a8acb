//! Lines that ask for nothing, and the words of a line.
ghost use Rattle.std.specs.Prelude.{◌≡◌, ◌≤◌, ◌==◌, length, IfOk};
ghost use Rattle.std.specs.List.{position_or_len};
ghost use Rattle.sd_script.specs.Expect.{head_len};
ghost use Rattle.sd_script.specs.Lines.{is_silent, wants_lines, word_len, words_of};
ghost use Rattle.sd_answer.specs.Word.{texts};

use std::alloc::{AllocError, Global};

/// Whether a line asks for nothing: it is empty, or begins with `#`.
pub fn is_silent(line: &[u8]) -> bool
    ensures { result ≡ is_silent line.now }
{
    matches!(line, [] | [b'#', ..])
}

/// Whether a line is answered by several, by its first word.
pub(crate) fn wants_lines(line: &[u8]) -> bool
    ensures { result ≡ wants_lines line.now }
{
    let word = &line[..word_len(line)];
    matches!(
        word,
        b"why" | b"find" | b"list" | b"dump" | b"who" | b"review"
    )
}

/// The bytes before the first space.
pub(crate) fn word_len(line: &[u8]) -> usize
    ensures len { result ≡ word_len line.now }
    ensures within { result ≤ length line.now }
{
    len_before(b' ', line)
}

/// The bytes of the first word and of the space after it.
pub(crate) fn head_len(line: &[u8]) -> usize
    ensures len { result ≡ head_len line.now }
    ensures within { result ≤ length line.now }
{
    line.len().min(word_len(line) + 1)
}

/// The bytes before the first one with this value, or all if there is none.
pub(crate) fn len_before(end: u8, bytes: &[u8]) -> usize
    ensures len { result ≡ position_or_len (λ b. b == end) bytes.now }
    ensures within { result ≤ length bytes.now }
{
    bytes.iter().position(|b| *b == end).unwrap_or(bytes.len())
}

/// The words of a line, parted by single spaces.
pub(crate) fn words_of<'a>(alloc: Global, line: &'a str) -> Result<Vec<&'a str>, AllocError>
    ensures { IfOk result (λ words. texts words.items ≡ words_of line.entry.now) }
{
    line.split(' ').collect(alloc)
}
