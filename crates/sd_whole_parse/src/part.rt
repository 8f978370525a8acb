//! The plain part of a text: of a plain descriptor all of it, of a whole one owner, group and DACL; and what it lacks.

ghost use Rattle.std.specs.Prelude.{◌≡◌, IfOk, IfErr, true};
ghost use Rattle.std.specs.List.{list_any};
ghost use Rattle.sd_acl.specs.Descriptor.{descriptor_of};
ghost use Rattle.sd_whole_parse.specs.Part.{IsNoPart, IsPart, IsTextPart, are_trimmed, is_nothing, is_trimmed};
ghost use Rattle.sd_whole_parse.specs.Part.{left_out_of, part_error};

use crate::descriptor::read_whole_sddl;
use bitflags::Flags;
use sd_acl::{AceFlags, Descriptor};
use sd_text::{Aliases, TextError, TextFault, read_sddl_in};
use sd_whole::{OddEntry, PlainError, PlainPart, WholeAce, WholeAcl, WholeDescriptor};
use std::alloc::Global;

/// Why a text has no plain part.
#[derive(Clone, Copy, Debug, PartialEq, Eq)]
pub enum PartError {
    /// The text's first fault, and its offset in bytes.
    Fault { fault: TextFault, place: u64 },
    /// The first entry of the DACL that is no allow and no deny of a plain list.
    Odd(OddEntry),
    /// Memory was refused.
    Memory,
}

impl From<TextError> for PartError {
    ghost from_gives = { λ error e. e ≡ part_error error };

    fn from(error: TextError) -> PartError {
        match error {
            TextError::Fault { fault, place } => PartError::Fault { fault, place },
            TextError::Memory => PartError::Memory,
        }
    }
}

/// What of a text its plain part lacks ([MS-DTYP] 2.4.6).
#[derive(Clone, Copy, Debug, PartialEq, Eq)]
pub struct LeftOut {
    /// The SACL, if only a null one.
    pub sacl: bool,
    /// Of an entry of the DACL a flag that isn't one of the seven with names, as `CR`, or bytes after its SID
    /// ([MS-DTYP] 2.4.4.1).
    pub of_entries: bool,
}

impl LeftOut {
    /// What a text of which all is taken lacks.
    pub const NOTHING: LeftOut = LeftOut {
        sacl: false,
        of_entries: false,
    };

    /// Whether nothing was left out.
    pub fn is_nothing(self) -> bool
        ensures { result ≡ is_nothing self }
    {
        !self.sacl && !self.of_entries
    }

    fn of(descriptor: &WholeDescriptor) -> LeftOut
        ensures { result ≡ left_out_of descriptor.now }
    {
        LeftOut {
            sacl: !matches!(descriptor.sacl, WholeAcl::Absent),
            of_entries: are_trimmed(&descriptor.dacl),
        }
    }
}

/// The plain part of a text, and what it lacks of it.
#[derive(Drop)]
pub struct TextPart {
    pub descriptor: Descriptor,
    pub left_out: LeftOut,
}

/// Parses the text of a descriptor ([MS-DTYP] 2.5.1.1) for what takes its owner, its group and its DACL. Under `whole`
/// the text may have a SACL and flags without effect, which are left out, and named, and entries of every type, of
/// which the first in the DACL that is no allow and no deny is an error; otherwise each is a fault of the text. A fault
/// is the first from the left, with its offset in bytes. `Memory` comes only for a valid text, and under `whole` for
/// one with a `(`.
pub fn read_text_part(
    alloc: Global,
    known: Aliases,
    whole: bool,
    text: &str,
) -> Result<TextPart, PartError>
    ensures part { IfOk result (λ part. IsTextPart known whole text.now (descriptor_of part.descriptor) part.left_out) }
    ensures none { IfErr result (IsNoPart known whole text.now) }
{
    if whole {
        return read_whole_part(alloc, known, text);
    }
    let descriptor = read_sddl_in(alloc, known, text)?;
    Ok(TextPart {
        descriptor,
        left_out: LeftOut::NOTHING,
    })
}

/// Parses the text of a descriptor as `read_text_part` does ([MS-DTYP] 2.5.1.1), for a question that a SACL alone could
/// concern: says of what was left out whether there was one.
#[tactic(auto, using(crate::proofs::Parts::part_of_text))]
pub fn read_sddl_part(
    alloc: Global,
    known: Aliases,
    whole: bool,
    text: &str,
) -> Result<PlainPart, PartError>
    ensures part { IfOk result (λ part. IsPart known whole text.now (descriptor_of part.descriptor) part.left_out) }
    ensures none { IfErr result (IsNoPart known whole text.now) }
{
    let part = read_text_part(alloc, known, whole, text)?;
    Ok(PlainPart {
        descriptor: part.descriptor,
        left_out: part.left_out.sacl,
    })
}

fn read_whole_part(alloc: Global, known: Aliases, text: &str) -> Result<TextPart, PartError>
    ensures part { IfOk result (λ part. IsTextPart known true text.now (descriptor_of part.descriptor) part.left_out) }
    ensures none { IfErr result (IsNoPart known true text.now) }
{
    let descriptor = read_whole_sddl(alloc, known, text)?;
    match descriptor.plain_part(alloc) {
        Ok(part) => Ok(TextPart {
            descriptor: part.descriptor,
            left_out: LeftOut::of(&descriptor),
        }),
        Err(PlainError::Odd(odd)) => Err(PartError::Odd(odd)),
        Err(PlainError::Memory) => Err(PartError::Memory),
    }
}

/// Whether an entry of the DACL has more than its plain form.
fn are_trimmed(dacl: &WholeAcl) -> bool
    ensures { result ≡ are_trimmed dacl.now }
{
    match dacl {
        WholeAcl::List(list) => any_trimmed(list.entries()),
        _ => false,
    }
}

fn any_trimmed(entries: &[WholeAce]) -> bool
    ensures { result ≡ list_any is_trimmed entries.now }
{
    entries.iter().any(is_trimmed)
}

/// Whether an entry has more than its plain form: a flag without a name, or bytes after its SID.
fn is_trimmed(entry: &WholeAce) -> bool
    ensures { result ≡ is_trimmed entry.now }
{
    match entry {
        WholeAce::Plain(ace) => ace.flags.bits() & AceFlags::NAMED_BITS != ace.flags.bits(),
        WholeAce::Typed(_) | WholeAce::Opaque(_) => true,
    }
}
