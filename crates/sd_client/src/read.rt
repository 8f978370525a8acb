//! A question's WORDs, to who asks.

ghost use Rattle.std.specs.Prelude.{◌≡◌, ◌<◌, ℕ, Err, IfOk, length};
ghost use Rattle.sd_answer.specs.Word.{AreEach, texts as texts_of};
ghost use Rattle.sd_client.specs.Word.{IsClient, IsClientWord, IsFirstNoClientWord};

use crate::client::{Client, client_of};
use crate::word::{ClientWord, read_client_word};
use sd_answer::TokenError;
use sd_sid::Sid;
use sd_text::Aliases;
use std::alloc::Global;

/// Who asks, of a user and of these words ([MS-DTYP] 2.5.2), whose SIDs may have these aliases. A word is the first of
/// these that fits: one of a token, as `read_token` of `sd_answer` parses; `SID=device`, an enabled group of a device;
/// `level=NAME` or `level=N`, an integrity level, by its name (untrusted, low, medium, mediumplus, high, system) or its
/// number, hexadecimal after `0x`, below 2^32; or a claim, `NAME=LITERAL`, `@User.NAME=LITERAL` or
/// `@Device.NAME=LITERAL`, where LITERAL is a value or a list of values of one type, as conditions write them. A group
/// S-1-16-N is a level too. The client's level is the lowest of all, or Medium, 8192, where there is none. `NoWord` has
/// the position of the first text that is none of these. Memory may run out in place of any answer.
pub fn read_client(
    alloc: Global,
    known: Aliases,
    user: Sid,
    texts: &[&str],
) -> Result<Client, TokenError>
    ensures client { IfOk result (IsClient known user (texts_of texts.now)) }
    ensures first { (place : ℕ) → result ≡ Err (TokenError.NoWord place)
        → IsFirstNoClientWord known (texts_of texts.now) place }
    ensures within { (place : ℕ) → result ≡ Err (TokenError.NoWord place) → place < length texts.now }
{
    let words = read_words(alloc, known, texts)?;
    let client = client_of(alloc, user, words)?;
    Ok(client)
}

/// The words that the texts are.
fn read_words(alloc: Global, known: Aliases, texts: &[&str]) -> Result<Vec<ClientWord>, TokenError>
    ensures words { IfOk result (λ words. AreEach (IsClientWord known) (texts_of texts.now) words.items) }
    ensures first { (place : ℕ) → result ≡ Err (TokenError.NoWord place)
        → IsFirstNoClientWord known (texts_of texts.now) place }
    ensures within { (place : ℕ) → result ≡ Err (TokenError.NoWord place) → place < length texts.now }
{
    let mut words = Vec::new(alloc);
    for place in 0..texts.len() {
        let found = read_client_word(alloc, known, texts[place])?;
        let Some(word) = found else {
            return Err(TokenError::NoWord { place });
        };
        words.push(word)?;
    }
    Ok(words)
}
