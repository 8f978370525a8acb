//! White space of a claim's text.

ghost use Rattle.std.specs.Prelude.{◌≡◌, ◌≤◌, length};
ghost use Rattle.sd_claim_text.specs.Value.{after_space, is_space};

use sd_text::Cursor;

/// Consumes all white space here ([MS-DTYP] 2.5.1.1, wspace).
pub(crate) fn skip_space(cursor: &mut Cursor<'_>)
    ensures rest { cursor.new.rest.now ≡ after_space cursor.old.rest.now }
    ensures within { length cursor.new.rest.now ≤ length cursor.old.rest.now }
{
    'bytes: while let [byte, rest @ ..] = cursor.rest {
        if !is_space(*byte) {
            return;
        }
        cursor.rest = rest;
    }
}

fn is_space(byte: u8) -> bool
    ensures { result ≡ is_space byte }
{
    (9 <= byte && byte <= 13) || byte == b' '
}
