//! The words that say who asks.

ghost use Rattle.std.specs.Prelude.{◌≡◌, codes, IfNone, IfOk, IfSome};
ghost use Rattle.sd_sid.specs.Sid.{SidValue};
ghost use Rattle.sd_answer.specs.Word.{IsSidBefore};
ghost use Rattle.sd_client.specs.Word.{IsClientWord, said};

use crate::claim::read_claim;
use crate::level::read_level;
use sd_answer::{Word, read_word};
use sd_claim::Claim;
use sd_sid::Sid;
use sd_text::{Aliases, Cursor, read_sid_text_in};
use std::alloc::{AllocError, Global};

/// Whose claim it is ([MS-DTYP] 2.5.2): one that a condition asks for by a plain name, the user's, or the device's.
#[derive(Clone, Copy, Debug, PartialEq, Eq)]
pub(crate) enum Holder {
    Local,
    User,
    Device,
}

/// What a word says of who asks ([MS-DTYP] 2.5.2).
#[derive(Debug, Drop)]
pub(crate) enum ClientWord {
    /// A word of a token, as `BU=deny`.
    Token(Word),
    /// `SID=device`: an enabled group of the device that is asked from.
    DeviceGroup(Sid),
    /// `level=high`: an integrity level.
    Level(u32),
    /// `@User.Project="VP"`: a claim.
    Claim { holder: Holder, claim: Claim },
}

/// The SID that precedes `=device` in the text.
fn device_group(known: Aliases, text: &str) -> Option<Sid>
    ensures found { IfSome result (IsSidBefore known text.now (codes "=device")) }
    ensures none { IfNone result ((sid : SidValue) → IsSidBefore known text.now (codes "=device") sid → ⊥) }
{
    let front = text.strip_suffix("=device")?;
    match read_sid_text_in(known, front) {
        Ok(sid) => Some(sid),
        Err(_) => None,
    }
}

/// The level or the claim that the text is. A text that begins with `level=` is no claim.
fn read_said(alloc: Global, known: Aliases, text: &str) -> Result<Option<ClientWord>, AllocError>
    ensures { IfOk result (λ word. word ≡ said known text.now) }
{
    let mut cursor = Cursor::new(text);
    if cursor.eat(b"level=") {
        return Ok(match read_level(cursor.rest) {
            Some(level) => Some(ClientWord::Level(level)),
            None => None,
        });
    }
    match read_claim(alloc, known, text)? {
        Some((holder, claim)) => Ok(Some(ClientWord::Claim { holder, claim })),
        None => Ok(None),
    }
}

/// The word that the text is, whose SIDs may have these aliases ([MS-DTYP] 2.5.2): one of a token, a group of the
/// device, a level or a claim. `None`: it is none of these. The only error is out of memory.
pub(crate) fn read_client_word(
    alloc: Global,
    known: Aliases,
    text: &str,
) -> Result<Option<ClientWord>, AllocError>
    ensures word { IfOk result (λ found. IfSome found (IsClientWord known text.now)) }
    ensures none { IfOk result (λ found. IfNone found ((word : ClientWord) → IsClientWord known text.now word → ⊥)) }
{
    if let Some(word) = read_word(known, text) {
        return Ok(Some(ClientWord::Token(word)));
    }
    if let Some(sid) = device_group(known, text) {
        return Ok(Some(ClientWord::DeviceGroup(sid)));
    }
    read_said(alloc, known, text)
}
