//! The text of an input that comes in pieces, by its byte order mark.

ghost use Rattle.std.specs.Prelude.{◌≡◌, ◌≤◌, ◌++◌, ℕ, List, [], All, IfOk, OnOk};
ghost use Rattle.sd_lines.specs.Decoder.{IsPartOfMark, decoded, text_after, text_by, text_in};
ghost use Rattle.sd_lines.specs.declared.decoder.Coding.TheVariants.{Unknown};

use crate::utf16::ByteOrder;
use std::alloc::{AllocError, Global};

/// How an input is encoded.
#[derive(Clone, Copy, Debug)]
enum Coding {
    /// The bytes so far may be the beginning of a byte order mark.
    Unknown,
    Utf8,
    Utf16(ByteOrder),
}

impl Coding {
    /// How an input is encoded that is left with these bytes, and those after its mark (RFC 2781, section 3.2).
    fn settled(self, bytes: &[u8]) -> (Coding, &[u8])
        ensures text { (more : List ℕ) → text_by self (bytes.now ++ more) ≡ text_by result.0 (result.1.now ++ more) }
        ensures unknown { result.0 ≡ Unknown → IsPartOfMark result.1.now }
    {
        let Coding::Unknown = self else {
            return (self, bytes);
        };
        match bytes {
            [0xff, 0xfe, text @ ..] => (Coding::Utf16(ByteOrder::Little), text),
            [0xfe, 0xff, text @ ..] => (Coding::Utf16(ByteOrder::Big), text),
            [0xef, 0xbb, 0xbf, text @ ..] => (Coding::Utf8, text),
            [] | [0xff] | [0xfe] | [0xef] | [0xef, 0xbb] => (Coding::Unknown, bytes),
            _ => (Coding::Utf8, bytes),
        }
    }

    /// Appends the text of the bytes up to where a mark or a character is incomplete, and returns the bytes from there
    /// on.
    fn decode<'a>(self, bytes: &'a [u8], text: &mut Vec<u8>) -> Result<&'a [u8], AllocError>
        requires { self ≡ Unknown → IsPartOfMark bytes.now }
        ensures text { IfOk result (λ left. (added : List ℕ) × (text.new.items ≡ text.old.items ++ added)
            × ((more : List ℕ) → text_by self (bytes.now ++ more) ≡ added ++ text_in self left.now more)) }
        ensures left { IfOk result (λ left. All (λ b. 128 ≤ b) (text_in self left.now [])) }
    {
        match self {
            Coding::Unknown => Ok(bytes),
            Coding::Utf8 => {
                text.extend_from_slice(bytes)?;
                Ok(&bytes[bytes.len()..])
            }
            Coding::Utf16(order) => order.decode(bytes, text),
        }
    }

    /// Appends the text of the bytes, which are the last.
    fn decode_last(self, bytes: &[u8], text: &mut Vec<u8>) -> Result<(), AllocError>
        requires { self ≡ Unknown → IsPartOfMark bytes.now }
        ensures { OnOk result (text.new.items ≡ text.old.items ++ text_by self bytes.now) }
    {
        match self {
            Coding::Unknown | Coding::Utf8 => text.extend_from_slice(bytes),
            Coding::Utf16(order) => order.decode_last(bytes, text),
        }
    }
}

/// An input that comes in pieces, of which a beginning has come.
#[derive(Debug, Drop)]
pub struct Decoder {
    coding: Coding,
    /// The bytes so far whose text isn't known yet: a part of a mark or of a character.
    held: Vec<u8>,
}

impl Decoder {
    /// An input of which nothing has come. It is in UTF-8, or in UTF-16 after a byte order mark; a mark is no part of
    /// its text.
    pub fn new(alloc: Global) -> Decoder
        ensures { (more : List ℕ) → text_after result more ≡ decoded more }
    {
        Decoder {
            coding: Coding::Unknown,
            held: Vec::new(alloc),
        }
    }

    /// An input of which nothing has come, and whose bytes are its text.
    pub fn utf8(alloc: Global) -> Decoder
        ensures { (more : List ℕ) → text_after result more ≡ more }
    {
        Decoder {
            coding: Coding::Utf8,
            held: Vec::new(alloc),
        }
    }

    /// Appends the text of the next bytes, up to where a mark or a character is incomplete.
    pub fn decode(
        &mut self,
        alloc: Global,
        bytes: &[u8],
        text: &mut Vec<u8>,
    ) -> Result<(), AllocError>
        ensures text { OnOk result ((added : List ℕ) × (text.new.items ≡ text.old.items ++ added)
            × ((more : List ℕ) → text_after self.old (bytes.now ++ more) ≡ added ++ text_after self.new more)) }
        ensures left { OnOk result (All (λ b. 128 ≤ b) (text_after self.new [])) }
    {
        if let Coding::Utf8 = self.coding {
            return text.extend_from_slice(bytes);
        }
        self.held.extend_from_slice(bytes)?;
        let (coding, bytes) = self.coding.settled(&self.held);
        let mut left = Vec::new(alloc);
        left.extend_from_slice(coding.decode(bytes, text)?)?;
        self.coding = coding;
        self.held = left;
        Ok(())
    }

    /// Appends the text of what is left at the end of the input.
    pub fn end(&self, text: &mut Vec<u8>) -> Result<(), AllocError>
        ensures { OnOk result (text.new.items ≡ text.old.items ++ text_after self.now []) }
    {
        if let Coding::Utf8 = self.coding {
            return Ok(());
        }
        let (coding, bytes) = self.coding.settled(&self.held);
        coding.decode_last(bytes, text)
    }
}
