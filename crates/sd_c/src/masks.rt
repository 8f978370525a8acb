//! Masks: in words, by the names of a kind of object; and mapped.

ghost use Rattle.std.specs.Prelude.{◌≡◌, IfErr, IfOk, None, Some, string_bytes};
ghost use Rattle.sd_line.specs.Mask.{IsMaskIn};
ghost use Rattle.sd_line.specs.Spelling.{spelled};
ghost use Rattle.sd_line.specs.declared.spelling.Spelling.{Spelling};
ghost use Rattle.sd_c.specs.Masks.{AnswersMask, IsNamesOf, RefusesMask, RefusesNames, mask_given, mask_mapped};
ghost use Rattle.sd_c.specs.Masks.{names_of, no_mask};
ghost use Rattle.sd_c.specs.Request.{mapping_read};
ghost use Rattle.sd_c.specs.Written.{Answers};
ghost use Rattle.sd_c.specs.declared.refusal.Refusal.TheVariants.{NoKind};

use crate::call_answer::{CheckAnswer, OK, Written, not_read, refused, write};
use crate::mapping::Mapping;
use crate::refusal::Refusal;
use crate::request::mapping_of;
use crate::text::{refusal_of, utf8_of};
use sd_line::{ObjectKind, Spelling, read_mask_in, spell};
use sd_sid::Mask;
use std::alloc::Global;

/// The answer of `hudarin_mask_from_text`.
#[repr(C)]
#[derive(Clone, Copy, Debug, PartialEq, Eq)]
pub struct MaskAnswer {
    pub status: u32,
    /// The fault's number, 0 where there is none.
    pub fault: u32,
    /// The byte offset of a fault in the text.
    pub place: u64,
    pub mask: u32,
}

/// The mask that the text is ([MS-DTYP] 2.4.3): words joined by `+`, each a name of the kind of object in any case, or
/// else a rights field of SDDL (2.5.1.1) that isn't empty; an empty text is the mask 0. The kind is 0 for the names
/// that every object has, 1 a file's, 2 a registry key's, 3 a service's, 4 a process'. Refused, in this order, if there
/// is no such kind, if the text isn't UTF-8, or has a fault. Takes no memory.
#[unsafe(no_mangle)]
pub extern "C" fn hudarin_mask_from_text(text: &[u8], kind: u32) -> MaskAnswer
    ensures { AnswersMask kind text.now result }
{
    match mask_of(text, kind) {
        Ok(mask) => mask_given(mask),
        Err(why) => no_mask(why),
    }
}

/// Writes the mask by the names of the kind of object, as `FR+WD` of a file, into the buffer: `hudarin_mask_from_text`
/// with the same kind returns this mask for it (the law `masks_come_back` of `sd_line`). Refused if there is no such
/// kind, or out of memory.
#[unsafe(no_mangle)]
pub extern "C" fn hudarin_mask_to_text(
    alloc: Global,
    mask: u32,
    kind: u32,
    room: &mut [u8],
) -> Written
    ensures { Answers (IsNamesOf kind mask) (RefusesNames kind) room.old room.new result }
{
    match text_of(alloc, Mask(mask), kind) {
        Ok(text) => write(text.as_bytes(), room),
        Err(why) => refused(why),
    }
}

/// The mask with its generic rights replaced by the mapping's masks for them ([MS-DTYP] 2.4.3), as each check maps its
/// request and the entries. Refused if a mask of the mapping has a bit beyond 0x001FFFFF. Takes no memory.
#[unsafe(no_mangle)]
pub extern "C" fn hudarin_map_mask(mask: u32, mapping: Mapping) -> MaskAnswer
    ensures { result ≡ mask_mapped (mapping_read mapping) mask }
{
    match mapping_of(mapping) {
        Ok(mapping) => mask_given(mapping.map(Mask(mask))),
        Err(why) => unmapped(not_read(why)),
    }
}

fn mask_of(text: &[u8], kind: u32) -> Result<Mask, Refusal>
    ensures ok { IfOk result (λ mask. (names : Spelling) × (names_of kind ≡ Some names)
        × IsMaskIn names text.now mask) }
    ensures err { IfErr result (RefusesMask (names_of kind) text.now) }
{
    let names = names_of(kind)?;
    match utf8_of(text) {
        Ok(text) => match read_mask_in(names, text) {
            Ok(mask) => Ok(mask),
            Err(e) => Err(refusal_of(e)),
        },
        Err(place) => Err(Refusal::Utf8 { place }),
    }
}

fn text_of(alloc: Global, mask: Mask, kind: u32) -> Result<String, Refusal>
    ensures ok { IfOk result (λ text. IsNamesOf kind mask (string_bytes text)) }
    ensures err { IfErr result (RefusesNames kind) }
{
    let names = names_of(kind)?;
    Ok(spell(alloc, names, mask)?)
}

/// The names of the kind of object with this number.
fn names_of(kind: u32) -> Result<Spelling, Refusal>
    ensures ok { IfOk result (λ names. names_of kind ≡ Some names) }
    ensures none { IfErr result (λ _. names_of kind ≡ None) }
    ensures why { IfErr result (λ why. why ≡ NoKind) }
{
    match kind {
        0 => Ok(Spelling::Names(None)),
        1 => Ok(Spelling::Names(Some(ObjectKind::File))),
        2 => Ok(Spelling::Names(Some(ObjectKind::Key))),
        3 => Ok(Spelling::Names(Some(ObjectKind::Service))),
        4 => Ok(Spelling::Names(Some(ObjectKind::Process))),
        5 => Ok(Spelling::Names(Some(ObjectKind::Folder))),
        6 => Ok(Spelling::Names(Some(ObjectKind::Directory))),
        7 => Ok(Spelling::Names(Some(ObjectKind::Printer))),
        8 => Ok(Spelling::Names(Some(ObjectKind::Section))),
        9 => Ok(Spelling::Names(Some(ObjectKind::Token))),
        10 => Ok(Spelling::Names(Some(ObjectKind::Manager))),
        _ => Err(Refusal::NoKind),
    }
}

/// The answer that is this mask.
fn mask_given(mask: Mask) -> MaskAnswer
    ensures { result ≡ mask_given mask }
{
    MaskAnswer {
        status: OK,
        fault: 0,
        place: 0,
        mask: mask.bits(),
    }
}

/// The answer that says why no mask is mapped.
fn unmapped(told: CheckAnswer) -> MaskAnswer
    ensures { result ≡ record { status = told.status; fault = 0; place = 0; mask = 0 } }
{
    MaskAnswer {
        status: told.status,
        fault: 0,
        place: 0,
        mask: 0,
    }
}

/// The answer that says why there is no mask.
fn no_mask(why: Refusal) -> MaskAnswer
    ensures { result ≡ no_mask why }
{
    let told = refused(why);
    MaskAnswer {
        status: told.status,
        fault: told.fault,
        place: told.place,
        mask: 0,
    }
}
