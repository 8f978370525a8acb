//! The words of a form, in which each `{name}` stands for a value.

ghost use Rattle.std.specs.Prelude.{◌≡◌, ◌∷◌, ◌==◌, ◌≤◌, length, option_map};
ghost use Rattle.std.specs.List.{position_or_len};
ghost use Rattle.sd_line.specs.Form.{name_in, pieces_after, pieces_of, words_in};

/// The words before the first name, and what is after the brace that opens it, if there is one.
pub(crate) fn first_words(form: &[u8]) -> (&[u8], Option<&[u8]>)
    ensures { pieces_of form.now ≡ result.0.now ∷ pieces_after (option_map (λ after. after.now) result.1) }
{
    let len = len_before(b'{', form);
    if len < form.len() {
        (&form[..len], Some(&form[len + 1..]))
    } else {
        (form, None)
    }
}

/// A name, and the words after the brace that closes it.
pub(crate) fn name_and_words(piece: &[u8]) -> (&[u8], &[u8])
    ensures name { result.0.now ≡ name_in piece.now }
    ensures words { result.1.now ≡ words_in piece.now }
{
    let len = len_before(b'}', piece);
    if len < piece.len() {
        (&piece[..len], &piece[len + 1..])
    } else {
        (piece, b"")
    }
}

/// The bytes before the first brace like this, or all if there is none.
fn len_before(brace: u8, text: &[u8]) -> usize
    ensures len { result ≡ position_or_len (λ b. b == brace) text.now }
    ensures within { result ≤ length text.now }
{
    text.iter()
        .position(|byte| *byte == brace)
        .unwrap_or(text.len())
}
