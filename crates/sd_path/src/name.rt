//! Names.

ghost use Rattle.std.specs.Prelude.{◌≡◌, true, None, Some, MatchResult};
ghost use Rattle.sd_path.specs.Names.{is_name};
ghost use Rattle.sd_path.specs.PathText.{name_fault};

use crate::error::PathError;
use crate::read::{MAX_NAME_BYTES, name_len};
use std::marker::Model;

/// A name of a path, borrowed from its text: 1 to 255 bytes of UTF-8, without `/` and without a zero byte. Contracts
/// see its bytes.
#[derive(Debug, Drop)]
pub struct Name<'a> {
    text: &'a str,
}

impl<'a> Model for Name<'a> {
    ghost use Rattle.std.specs.Prelude.{◌≡◌, ℕ, List, true};
    ghost use Rattle.sd_path.specs.Names.{is_name};

    ghost Value = { List ℕ };

    ghost view = { λ n. n.text.now };

    ghost invariant = { λ n. is_name n.text.now ≡ true };
}

impl<'a> Name<'a> {
    /// Parses a name. `Syntax` if the text is empty or has a `/` or a zero byte, else `NameTooLong` if it has more than
    /// 255 bytes. Allocates nothing.
    pub fn read(text: &'a str) -> Result<Name<'a>, PathError>
        ensures { MatchResult result
            (λ name. (name ≡ text.entry.now) × (name_fault text.entry.now ≡ None))
            (λ fault. name_fault text.entry.now ≡ Some fault) }
    {
        let len = name_len(text.as_bytes());
        if len < text.len() {
            return Err(PathError::Syntax);
        }
        if len == 0 {
            return Err(PathError::Syntax);
        }
        if len > MAX_NAME_BYTES {
            return Err(PathError::NameTooLong);
        }
        Ok(Name { text })
    }

    /// The name's text.
    pub fn as_str(&self) -> &'a str
        ensures text { result.now ≡ self.now }
        ensures name { is_name self.now ≡ true }
    {
        self.text
    }
}
