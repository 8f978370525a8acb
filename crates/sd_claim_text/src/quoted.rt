//! Texts between quotes.

ghost use Rattle.std.specs.Prelude.{◌≡◌, ◌≤◌, length};
ghost use Rattle.std.specs.List.{position_or_len};
ghost use Rattle.sd_claim_text.specs.Outcome.{GivesOrMemory};
ghost use Rattle.sd_claim_text.specs.Value.{ends_text, quoted_found};

use crate::error::ClaimError;
use crate::utf16::parse_utf16;
use sd_data::Utf16;
use sd_text::Cursor;
use std::alloc::Global;

/// A text between quotes.
#[tactic(auto, unfolding(crate::specs::Value::quoted_found, crate::specs::Utf16::utf16_found))]
pub(crate) fn parse_quoted(alloc: Global, cursor: &mut Cursor<'_>) -> Result<Utf16, ClaimError>
    ensures found { GivesOrMemory (λ text. text) result cursor.new.rest.now (quoted_found cursor.old.rest.now) }
    ensures within { length cursor.new.rest.now ≤ length cursor.old.rest.now }
{
    cursor.word(b"\"")?;
    let len = text_len(cursor.rest);
    let mut units = Vec::new(alloc);
    parse_utf16(cursor, len, &mut units)?;
    cursor.word(b"\"")?;
    Ok(Utf16::new(units))
}

/// How many bytes precede the next quote, or zero.
fn text_len(text: &[u8]) -> usize
    ensures exact { result ≡ position_or_len ends_text text.now }
    ensures within { result ≤ length text.now }
{
    let end = text.iter().position(|byte| *byte == b'"' || *byte == 0);
    end.unwrap_or(text.len())
}
