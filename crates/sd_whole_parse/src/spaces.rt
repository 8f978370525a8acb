//! Spaces before an entry: the grammar of [MS-DTYP] 2.5.1.1 has none, but the schema of a directory has.

ghost use Rattle.std.specs.Prelude.{◌≡◌, ◌≤◌, length};
ghost use Rattle.sd_whole_parse.specs.Spaces.{after_spaces, at_entry, space_len};

use sd_text::Cursor;

/// Passes over the spaces before an entry. Nothing is consumed if none follows them.
pub(crate) fn skip_to_entry(cursor: &mut Cursor<'_>)
    ensures rest { cursor.new.rest.now ≡ at_entry cursor.old.rest.now }
    ensures within { length cursor.new.rest.now ≤ length cursor.old.rest.now }
{
    let ahead = Cursor {
        rest: after_spaces(cursor.rest),
    };
    if ahead.begins(b"(") {
        cursor.rest = ahead.rest;
    }
}

/// The text without the spaces that it begins with.
fn after_spaces(text: &[u8]) -> &[u8]
    ensures rest { result.now ≡ after_spaces text.now }
    ensures within { length result.now ≤ length text.now }
{
    &text[space_len(text)..]
}

/// How many spaces the text begins with.
fn space_len(text: &[u8]) -> usize
    ensures len { result ≡ space_len text.now }
    ensures within { result ≤ length text.now }
{
    let end = text.iter().position(|byte| *byte != b' ');
    end.unwrap_or(text.len())
}
