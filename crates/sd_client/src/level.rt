//! Integrity levels, by name or number.

ghost use Rattle.std.specs.Prelude.{◌≡◌};
ghost use Rattle.sd_condition_parse.specs.Outcome.{Names};
ghost use Rattle.sd_text.specs.Finding.{Gives, find};
ghost use Rattle.sd_text.specs.Grammar.{named};
ghost use Rattle.sd_client.specs.Level.{level_names, level_number, level_text};
ghost use Rattle.sd_client.specs.Whole.{all_of};

use sd_text::{Cursor, TextFault};

/// A level is below this: it has 32 bits, as a sub-authority of S-1-16-LEVEL ([MS-DTYP] 2.4.2.2).
const LEVEL_LIMIT: u64 = 0x1_0000_0000;

/// The level that all of the text is: a name, of either case, or a number, hexadecimal after `0x`.
pub(crate) fn read_level(text: &[u8]) -> Option<u32>
    ensures { result ≡ all_of (find level_text text.now) }
{
    let mut cursor = Cursor { rest: text };
    let level = level_at(&mut cursor).ok()?;
    if !cursor.rest.is_empty() {
        return None;
    }
    Some(level)
}

/// The level at the cursor.
fn level_at(cursor: &mut Cursor<'_>) -> Result<u32, TextFault>
    ensures { Gives (λ n. n) result cursor.new.rest.now (find level_text cursor.old.rest.now) }
{
    match eat_name(cursor) {
        Some(level) => Ok(level),
        None => number_at(cursor),
    }
}

/// Consumes the name of a level, of either case, and returns the level; or consumes nothing.
fn eat_name(cursor: &mut Cursor<'_>) -> Option<u32>
    ensures { Names result cursor.old.rest.now cursor.new.rest.now (named level_names cursor.old.rest.now) }
{
    if cursor.eat(b"untrusted") {
        return Some(0);
    }
    if cursor.eat(b"low") {
        return Some(0x1000);
    }
    if cursor.eat(b"mediumplus") {
        return Some(0x2100);
    }
    if cursor.eat(b"medium") {
        return Some(0x2000);
    }
    if cursor.eat(b"high") {
        return Some(0x3000);
    }
    if cursor.eat(b"system") {
        return Some(0x4000);
    }
    None
}

/// The number at the cursor.
fn number_at(cursor: &mut Cursor<'_>) -> Result<u32, TextFault>
    ensures { Gives (λ n. n) result cursor.new.rest.now (find level_number cursor.old.rest.now) }
{
    if cursor.begins(b"0X") {
        return Ok(cursor.number(2, 16, LEVEL_LIMIT)? as u32);
    }
    Ok(cursor.number(0, 10, LEVEL_LIMIT)? as u32)
}
