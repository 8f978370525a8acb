//! The arguments of a line, each parsed.
ghost use Rattle.std.specs.Prelude.{◌≡◌, [], Err, IfErr, IfOk, Ok};
ghost use Rattle.sd_acl.specs.Descriptor.{descriptor_of};
ghost use Rattle.sd_script.specs.Argument.{base, dacl, descriptor, list, mask, node, number, path};
ghost use Rattle.sd_script.specs.Argument.{request_in, sid, token};
ghost use Rattle.sd_script.specs.Fault.{UnlessMemory};
ghost use Rattle.sd_answer.specs.Word.{texts};

use crate::fault::{LineFault, LineStop};
use crate::paths::path_in;
use crate::script_options::Notation;
use crate::view::Groups;
use sd_acl::{AceList, Dacl, Descriptor};
use sd_answer::{TokenError, read_base, read_token};
use sd_check::Token;
use sd_line::{read_mask_in, requested};
use sd_sid::{Mask, Sid};
use sd_text::read_sid_text_in;
use sd_tree::{NodeDacl, Path, RootSpec};
use sd_whole_parse::{PartError, TextPart, read_text_part};
use std::alloc::Global;

/// A run of decimal digits with a value below 2^64.
pub fn number_in(word: &str) -> Result<u64, LineFault>
    ensures { number word.now result }
{
    if word.starts_with('+') {
        return Err(LineFault::Number);
    }
    word.parse::<u64>().map_err(|_| LineFault::Number)
}

/// What parses the arguments of a command, written in this notation.
#[derive(Clone, Copy)]
pub(crate) struct Parser {
    pub(crate) alloc: Global,
    pub(crate) notation: Notation,
}

impl Parser {
    /// The text of a SID ([MS-DTYP] 2.4.2.1).
    pub(crate) fn sid(self, word: &str) -> Result<Sid, LineFault>
        ensures { sid self.notation word.now result }
    {
        match read_sid_text_in(self.notation.aliases, word) {
            Ok(sid) => Ok(sid),
            Err(_) => Err(LineFault::Sid),
        }
    }

    /// A mask ([MS-DTYP] 2.4.3): a rights field, or names.
    pub(crate) fn mask(self, word: &str) -> Result<Mask, LineFault>
        ensures { mask self.notation word.now result }
    {
        read_mask_in(self.notation.spelling, word).map_err(|_| LineFault::Mask)
    }

    /// The rights that a mask asks for.
    pub(crate) fn request(self, word: &str) -> Result<Mask, LineFault>
        ensures { request_in self.notation word.now result }
    {
        Ok(requested(self.notation.kind, self.mask(word)?))
    }

    /// The token of a user and of words.
    pub(crate) fn token(self, user: Sid, words: &[&str]) -> Result<Token, LineStop>
        ensures { UnlessMemory (token self.notation user (texts words.now)) result }
    {
        match read_token(self.alloc, self.notation.aliases, user, words) {
            Ok(token) => Ok(token),
            Err(TokenError::NoWord { place: _ }) => Err(LineStop::Fault(LineFault::Token)),
            Err(TokenError::Memory) => Err(LineStop::Memory),
        }
    }

    /// The groups that words are.
    pub(crate) fn base(self, words: &[&str]) -> Result<Groups, LineStop>
        ensures { UnlessMemory (base self.notation (texts words.now)) result }
    {
        match read_base(self.alloc, self.notation.aliases, words) {
            Ok(groups) => Ok(Groups::new(groups)),
            Err(TokenError::NoWord { place: _ }) => Err(LineStop::Fault(LineFault::Token)),
            Err(TokenError::Memory) => Err(LineStop::Memory),
        }
    }

    /// A path, as a word spells it.
    pub(crate) fn path(self, word: &str) -> Result<Path, LineStop>
        ensures { UnlessMemory (path self.notation.paths word.now) result }
    {
        path_in(self.alloc, self.notation.paths, word)
    }

    /// The text of a descriptor ([MS-DTYP] 2.5.1), or the plain part of it, and what was left out.
    pub(crate) fn descriptor(self, word: &str) -> Result<TextPart, LineStop>
        ensures read { IfOk result
            (λ part. descriptor self.notation word.now (Ok (descriptor_of part.descriptor, part.left_out))) }
        ensures stop { IfErr result (λ stop. UnlessMemory (descriptor self.notation word.now) (Err stop)) }
    {
        match read_text_part(self.alloc, self.notation.aliases, self.notation.whole, word) {
            Ok(part) => Ok(part),
            Err(PartError::Fault { fault, place }) => {
                Err(LineStop::Fault(LineFault::Sddl { fault, place }))
            }
            Err(PartError::Odd(odd)) => Err(LineStop::Fault(LineFault::Entry(odd))),
            Err(PartError::Memory) => Err(LineStop::Memory),
        }
    }

    /// The text of a descriptor with an owner and a group: what it gives a node, and whether that is all that it says.
    pub(crate) fn node(self, word: &str) -> Result<(RootSpec, bool), LineStop>
        ensures { UnlessMemory (node self.notation word.now) result }
    {
        let TextPart {
            descriptor,
            left_out,
        } = self.descriptor(word)?;
        let (Some(owner), Some(group)) = (descriptor.owner, descriptor.group) else {
            return Err(LineStop::Fault(LineFault::Parts));
        };
        let dacl = NodeDacl::of_descriptor(self.alloc, &descriptor)?;
        Ok((RootSpec { owner, group, dacl }, left_out.is_nothing()))
    }

    /// The text of a descriptor with neither: the DACL, and whether it is all that the text says.
    pub(crate) fn dacl(self, word: &str) -> Result<(NodeDacl, bool), LineStop>
        ensures { UnlessMemory (dacl self.notation word.now) result }
    {
        let TextPart {
            descriptor,
            left_out,
        } = self.descriptor(word)?;
        let (None, None) = (descriptor.owner, descriptor.group) else {
            return Err(LineStop::Fault(LineFault::Parts));
        };
        let dacl = NodeDacl::of_descriptor(self.alloc, &descriptor)?;
        Ok((dacl, left_out.is_nothing()))
    }

    /// The text of a list that isn't protected, with neither: its entries, and whether they are all that the text says.
    pub(crate) fn list(self, word: &str) -> Result<(AceList, bool), LineStop>
        ensures { UnlessMemory (list self.notation word.now) result }
    {
        let TextPart {
            descriptor,
            left_out,
        } = self.descriptor(word)?;
        let Descriptor {
            owner,
            group,
            dacl,
            protected,
            ..
        } = descriptor;
        match (owner, group, protected, dacl) {
            (None, None, false, Dacl::List(list)) => Ok((list, left_out.is_nothing())),
            _ => Err(LineStop::Fault(LineFault::Parts)),
        }
    }
}
