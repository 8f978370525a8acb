//! The values of `--type`: the chain of object types that a question is about.
ghost use Rattle.std.specs.Prelude.{◌≡◌, ◌++◌, ◌∷◌, [], IfErr, IfNone, IfOk, IfSome, List, length};
ghost use Rattle.sd_answer.specs.Word.{AreEach, texts as texts_of};
ghost use Rattle.sd_commands.specs.Chain.{IsFirstUnfit, IsType, types_of};
ghost use Rattle.sd_whole.specs.declared.types.Guid.{Guid};

use sd_whole::{GUID_BYTES, Guid};
use sd_whole_parse::read_guid_text;

/// The most object types: in the list of a question they have the levels 0 to 4 ([MS-DTYP] 2.5.3.2, ObjectTypeList).
pub const MAX_TYPES: usize = 5;

/// Object types, from the class on: as many of the first as `count` says.
#[derive(Clone, Copy)]
pub struct Chain {
    guids: [Guid; MAX_TYPES],
    count: usize,
}

impl Chain {
    /// No object type.
    pub(crate) fn none() -> Chain
        ensures { types_of result ≡ [] }
    {
        let nothing = Guid {
            bytes: [0; GUID_BYTES],
        };
        Chain {
            guids: [nothing; MAX_TYPES],
            count: 0,
        }
    }

    /// The object types, in order.
    pub fn types(&self) -> &[Guid]
        ensures { result.now ≡ types_of self.now }
    {
        &self.guids[..self.count.min(MAX_TYPES)]
    }

    /// These and one more, if there are fewer than five.
    fn with(self, guid: Guid) -> Option<Chain>
        ensures some { IfSome result (λ more. types_of more ≡ types_of self ++ guid ∷ []) }
        ensures none { IfNone result (length (types_of self) ≡ 5) }
    {
        if self.count >= MAX_TYPES {
            return None;
        }
        let mut guids = self.guids;
        guids[self.count] = guid;
        Some(Chain {
            guids,
            count: self.count + 1,
        })
    }

    /// These and those that the texts are, or of the texts the first that is none, or one too many.
    fn with_texts<'a>(self, texts: &[&'a str]) -> Result<Chain, &'a str>
        ensures all { IfOk result (λ all. (more : List Guid) × (types_of all ≡ types_of self ++ more)
            × AreEach IsType (texts_of texts.now) more) }
        ensures unfit { IfErr result (λ text. IsFirstUnfit (types_of self) (texts_of texts.now) text.now) }
    {
        let [text, after @ ..] = texts else {
            return Ok(self);
        };
        let Some(guid) = read_guid_text(text) else {
            return Err(text);
        };
        match self.with(guid) {
            Some(more) => more.with_texts(after),
            None => Err(text),
        }
    }
}

/// The object types that the values of `--type` are, in order ([MS-DTYP] 2.3.4.3); or of these texts the first that is
/// no GUID, or one more than five.
pub fn chain_given<'a>(texts: &[&'a str]) -> Result<Chain, &'a str>
    ensures given { IfOk result (λ chain. AreEach IsType (texts_of texts.now) (types_of chain)) }
    ensures unfit { IfErr result (λ text. IsFirstUnfit [] (texts_of texts.now) text.now) }
{
    Chain::none().with_texts(texts)
}
