//! Words, lent.
ghost use Rattle.std.specs.Prelude.{◌≡◌, IfOk, map, string_bytes};
ghost use Rattle.sd_answer.specs.Word.{texts};

use std::alloc::{AllocError, Global};

/// The texts of words, lent, as arguments take them.
pub fn lent<'a>(alloc: Global, words: &'a [String]) -> Result<Vec<&'a str>, AllocError>
    ensures { IfOk result (λ lent. texts lent.items ≡ map string_bytes words.now) }
{
    let mut lent = Vec::with_capacity(alloc, words.len())?;
    for word in words {
        lent.push(word.as_str())?;
    }
    Ok(lent)
}
