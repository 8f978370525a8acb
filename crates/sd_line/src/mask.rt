//! The mask that a question asks for ([MS-DTYP] 2.4.3): a rights field of SDDL, or words joined by `+`.
ghost use Rattle.std.specs.Prelude.{◌≡◌, ◌+◌, ◌<◌, ◌^◌, ◌∷◌, [], ℕ, IfErr, IfNone, IfOk, IfSome, IsErrOf, Ok, length};
ghost use Rattle.sd_text.specs.declared.fault.TextError.TheVariants.{Memory};
ghost use Rattle.sd_line.specs.Mask.{AreJoined, IsErrorFrom, IsMaskErrorIn, IsMaskIn, IsWordErrorAt, IsWordMask};
ghost use Rattle.sd_line.specs.Mask.{between_pluses};

use crate::names::{ObjectKind, mask_named};
use crate::spelling::Spelling;
use sd_sid::Mask;
use sd_text::{TextError, TextFault, read_mask};

/// Parses a mask: as a number it is a rights field ([MS-DTYP] 2.5.1.1, ace-rights); by names it is words joined by `+`,
/// each a name of the kind of object in any case, as `Full control`, or else a rights field that isn't
/// empty. Allocates nothing: an error is the text's first fault from the left, with its offset in bytes.
#[tactic(auto, using(crate::proofs::WordsLeft::joined_only, crate::proofs::WordsLeft::never_memory))]
pub fn read_mask_in(spelling: Spelling, text: &str) -> Result<Mask, TextError>
    ensures value { IfOk result (λ mask. IsMaskIn spelling text.now mask) }
    ensures fault { IfErr result (IsMaskErrorIn spelling text.now) }
    ensures spelled { (mask : ℕ) → IsMaskIn spelling text.now mask → result ≡ Ok mask }
    ensures no_memory { ¬ IsErrOf result TextError.Memory }
{
    match spelling {
        Spelling::Names(kind) if !text.is_empty() => words_mask(kind, text),
        Spelling::Names(_) => Ok(Mask(0)),
        Spelling::Number => read_mask(text),
    }
}

/// The mask of words joined by `+`.
fn words_mask(kind: Option<ObjectKind>, text: &str) -> Result<Mask, TextError>
    ensures value { IfOk result (AreJoined kind 0 (between_pluses text.now)) }
    ensures fault { IfErr result (IsErrorFrom kind 0 (between_pluses text.now)) }
{
    let mut bits = 0;
    let mut start = 0;
    let mut rest = text;
    'words: loop {
        match cut(rest) {
            Some((word, behind)) => {
                bits |= word_mask(kind, start, word)?;
                start += word.len() as u64 + 1;
                rest = behind;
            }
            None => return Ok(Mask(bits | word_mask(kind, start, rest)?)),
        }
    }
}

/// The text before the first `+`, and that after it.
fn cut(text: &str) -> Option<(&str, &str)>
    ensures cut { IfSome result (λ parts. between_pluses text.now ≡ parts.0.now ∷ between_pluses parts.1.now) }
    ensures length { IfSome result (λ parts. length parts.0.now + 1 + length parts.1.now ≡ length text.now) }
    ensures whole { IfNone result (between_pluses text.now ≡ text.now ∷ []) }
{
    text.split_once('+')
}

/// The mask of a word that begins at this offset.
fn word_mask(kind: Option<ObjectKind>, start: u64, word: &str) -> Result<u32, TextError>
    requires { start + length word.now < 2 ^ 64 }
    ensures value { IfOk result (IsWordMask kind word.now) }
    ensures fault { IfErr result (IsWordErrorAt kind start word.now) }
{
    if let Some(mask) = mask_named(kind, word) {
        return Ok(mask);
    }
    if word.is_empty() {
        return Err(TextError::Fault {
            fault: TextFault::Syntax,
            place: start,
        });
    }
    match read_mask(word) {
        Ok(mask) => Ok(mask.bits()),
        Err(TextError::Fault { fault, place }) => Err(TextError::Fault {
            fault,
            place: start + place,
        }),
        Err(TextError::Memory) => unreachable!(),
    }
}
