//! Paths from texts.

ghost use Rattle.std.specs.Prelude.{◌≡◌, ◌||◌, ◌==◌, ℕ, length, Option, Some, None, MatchResult, IfOk};
ghost use Rattle.std.specs.List.{before_first, position_or_len, prefix_len};
ghost use Rattle.sd_path.specs.Names.{ended, is_name_byte};
ghost use Rattle.sd_path.specs.PathText.{between_slashes, name_fault, fault_of, path_of, IsReadAs};

use crate::error::PathError;
use crate::path::Path;
use std::alloc::{AllocError, Global};

/// The most names of a path.
pub const MAX_NAMES: u8 = 128;

/// The most bytes of a name.
pub(crate) const MAX_NAME_BYTES: usize = 255;

impl Path {
    /// Parses a path: `/` is the root, else each name follows a `/`. Names are tested from the left; returns the first
    /// fault. There is one allocation, after the last name, and none for the root.
    pub fn read(alloc: Global, text: &str) -> Result<Path, PathError>
        ensures { IsReadAs (path_of text.now) result }
    {
        let Some((first, names)) = text.as_bytes().split_first() else {
            return Err(PathError::Syntax);
        };
        if *first != b'/' {
            return Err(PathError::Syntax);
        }
        if names.is_empty() {
            return Ok(Path {
                bytes: Vec::new(alloc),
                count: 0,
            });
        }
        let count = count_names(names)?;
        let bytes = ended_names(alloc, names)?;
        Ok(Path { bytes, count })
    }
}

/// The number of names, if each is valid.
fn count_names(names: &[u8]) -> Result<u8, PathError>
    ensures { MatchResult result
        (λ count. (fault_of 128 (between_slashes names.now) ≡ None) × (count ≡ length (between_slashes names.now)))
        (λ fault. fault_of 128 (between_slashes names.now) ≡ Some fault) }
{
    let mut rest = names;
    for before in 0..MAX_NAMES {
        let len = first_name(rest)?;
        if len == rest.len() {
            return Ok(before + 1);
        }
        let (_, behind) = rest.split_at(len + 1);
        rest = behind;
    }
    Err(PathError::TooManyNames)
}

/// The length of the first name: the bytes before the first `/`, or all of them.
fn first_name(text: &[u8]) -> Result<usize, PathError>
    ensures { MatchResult result
        (λ len. (len ≡ position_or_len (λ b. b == 0x2F) text.now)
        × (name_fault (before_first (λ b. b == 0x2F) text.now) ≡ None))
        (λ fault. name_fault (before_first (λ b. b == 0x2F) text.now) ≡ Some fault) }
{
    let len = name_len(text);
    if len < text.len() && text[len] == 0 {
        return Err(PathError::Syntax);
    }
    if len == 0 {
        Err(PathError::Syntax)
    } else if len > MAX_NAME_BYTES {
        Err(PathError::NameTooLong)
    } else {
        Ok(len)
    }
}

/// How many bytes at the front may be in a name.
pub(crate) fn name_len(text: &[u8]) -> usize
    ensures { result ≡ prefix_len is_name_byte text.now }
{
    for (i, b) in text.iter().enumerate() {
        if *b == b'/' || *b == 0 {
            return i;
        }
    }
    text.len()
}

/// The names, a zero byte after each.
fn ended_names(alloc: Global, names: &[u8]) -> Result<Vec<u8>, AllocError>
    ensures { IfOk result (λ bytes. bytes.items ≡ ended (between_slashes names.now)) }
{
    let mut bytes = Vec::with_capacity(alloc, names.len() + 1)?;
    for b in names {
        bytes.push(if *b == b'/' { 0 } else { *b })?;
    }
    bytes.push(0)?;
    Ok(bytes)
}
