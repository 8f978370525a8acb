//! The calls that leave parts of a whole descriptor out: its text, and its plain part.

ghost use Rattle.std.specs.Prelude.{◌≡◌, ◌≤◌, IfErr, IfOk, Ok, string_bytes};
ghost use Rattle.sd_acl.specs.Descriptor.{DescriptorValue, descriptor_of};
ghost use Rattle.sd_text.specs.declared.right_names.RightNames.TheVariants.{All};
ghost use Rattle.sd_whole.specs.Plain.{plain_part};
ghost use Rattle.sd_wire.specs.Writing.{wire_of};
ghost use Rattle.sd_whole.specs.Reading.{whole_read};
ghost use Rattle.sd_whole_text.specs.Descriptor.{whole_text};
ghost use Rattle.sd_c.specs.Plain.{Prints, RefusesPlain, RefusesPrinting, WritesPlain, acl_number, bits_left_out};
ghost use Rattle.sd_c.specs.Plain.{bits_not_plain, left_out_of_plain, left_out_of_text, list_of, list_of_reason};
ghost use Rattle.sd_c.specs.Plain.{IsNotPlain, manager_left_out, not_trimmed, printed_as, sacl_left_out};

use crate::call_answer::{Written, refused, write};
use crate::refusal::Refusal;
use crate::whole::whole_in;
use sd_acl::Descriptor;
use sd_text::RightNames;
use sd_whole::{PlainError, WholeAcl, WholeDescriptor};
use sd_whole_text::{AclKind, NoText, WholeTextError, print_whole};
use sd_wire::{has_bits, write_descriptor};
use std::alloc::Global;

/// The control bits that no text says: OD, GD, DD, SD, SS, DT and RM ([MS-DTYP] 2.4.6).
const BITS_WITHOUT_KEYWORD: u16 = 0x40EB;

/// All control bits but those of a plain DACL: PD, DC and DI ([MS-DTYP] 2.4.6).
const BITS_NOT_PLAIN: u16 = 0xEAFF;

/// The answer of a call that leaves parts of a whole descriptor out.
#[repr(C)]
#[derive(Clone, Copy, Debug, PartialEq, Eq)]
pub struct Trimmed {
    /// In `place` the index, from 0, of an entry that has no text or isn't plain.
    pub written: Written,
    /// 0x1 if a SACL is left out, joined with 0x2 if the resource manager's byte is, with 0x4 if control bits are.
    pub left_out: u32,
    /// 1 for the DACL and 2 for the SACL where a list or its entry has no text or isn't plain, else 0.
    pub list: u32,
}

/// Writes the text ([MS-DTYP] 2.5.1) of the whole descriptor that the bytes hold ([MS-DTYP] 2.4.6) into the buffer. If
/// `leaves_bits` isn't 0, control bits and the resource manager's byte that no text says are left out, else they are
/// refused. Refused also if the bytes hold none, if an entry has no text, or out of memory; then, and if the buffer is
/// too small, nothing is written.
#[unsafe(no_mangle)]
pub extern "C" fn hudarin_whole_to_sddl(
    alloc: Global,
    bytes: &[u8],
    leaves_bits: u32,
    room: &mut [u8],
) -> Trimmed
    ensures { Prints bytes.now leaves_bits room.old room.new result }
{
    match text_of(alloc, bytes, leaves_bits) {
        Ok((text, left_out)) => Trimmed {
            written: write(text.as_bytes(), room),
            left_out,
            list: 0,
        },
        Err(why) => not_trimmed(why),
    }
}

/// Writes the self-relative form ([MS-DTYP] 2.4.6) of the plain part of the whole descriptor that the bytes hold into
/// the buffer: owner, group, and a DACL of allows and denies. Refused if the bytes hold none, if an entry of the DACL
/// is neither, or out of memory; then, and if the buffer is too small, nothing is written.
#[unsafe(no_mangle)]
pub extern "C" fn hudarin_whole_plain(alloc: Global, bytes: &[u8], room: &mut [u8]) -> Trimmed
    ensures { WritesPlain bytes.now room.old room.new result }
{
    match plain_of(alloc, bytes) {
        Ok((form, left_out)) => Trimmed {
            written: write(&form, room),
            left_out,
            list: 0,
        },
        Err(why) => not_trimmed(why),
    }
}

/// The answer that says why nothing is written.
fn not_trimmed(why: Refusal) -> Trimmed
    ensures { result ≡ not_trimmed why }
{
    Trimmed {
        written: refused(why),
        left_out: 0,
        list: list_of(why),
    }
}

/// The number of the list of which a refusal speaks.
fn list_of(why: Refusal) -> u32
    ensures { result ≡ list_of why }
{
    match why {
        Refusal::NoText(why) => list_of_reason(why),
        Refusal::NotPlain(_) => acl_number(AclKind::Dacl),
        _ => 0,
    }
}

fn list_of_reason(why: NoText) -> u32
    ensures { result ≡ list_of_reason why }
{
    match why {
        NoText::ResourceManager | NoText::Control => 0,
        NoText::Keywords(acl)
        | NoText::Opaque(acl, _)
        | NoText::Kind(acl, _)
        | NoText::Data(acl, _) => acl_number(acl),
    }
}

fn acl_number(acl: AclKind) -> u32
    ensures { result ≡ acl_number acl }
{
    match acl {
        AclKind::Dacl => 1,
        AclKind::Sacl => 2,
    }
}

/// The text, and what it leaves out.
fn text_of(alloc: Global, bytes: &[u8], leaves: u32) -> Result<(String, u32), Refusal>
    ensures ok { IfOk result (λ made. (w : WholeDescriptor) × (whole_read bytes.now ≡ Ok w)
        × (whole_text All (printed_as leaves w) ≡ Ok (string_bytes made.0)) × (made.1 ≡ left_out_of_text leaves w)) }
    ensures err { IfErr result (λ why. RefusesPrinting bytes.now leaves why) }
{
    let descriptor = whole_in(alloc, bytes)?;
    let left_out = left_out_of_text(leaves, &descriptor);
    let printed = printed_as(leaves, descriptor);
    match print_whole(alloc, RightNames::All, &printed) {
        Ok(text) => Ok((text, left_out)),
        Err(WholeTextError::NoText(why)) => Err(Refusal::NoText(why)),
        Err(WholeTextError::Memory) => Err(Refusal::Memory),
    }
}

/// The descriptor without the control bits and the byte that no text says, if they are to be left out.
fn printed_as(leaves: u32, mut descriptor: WholeDescriptor) -> WholeDescriptor
    ensures { result ≡ printed_as leaves descriptor }
{
    if leaves != 0 {
        descriptor.control &= !BITS_WITHOUT_KEYWORD;
        descriptor.resource_manager = 0;
    }
    descriptor
}

fn left_out_of_text(leaves: u32, descriptor: &WholeDescriptor) -> u32
    ensures { result ≡ left_out_of_text leaves descriptor.now }
{
    if leaves == 0 {
        return 0;
    }
    manager_left_out(descriptor) + bits_left_out(BITS_WITHOUT_KEYWORD, descriptor)
}

/// The form of the plain part, and what it leaves out.
fn plain_of(alloc: Global, bytes: &[u8]) -> Result<(Vec<u8>, u32), Refusal>
    ensures ok { IfOk result (λ made. (w : WholeDescriptor) × (d : DescriptorValue) × (whole_read bytes.now ≡ Ok w)
        × (plain_part w ≡ Ok d) × (made.0.items ≡ wire_of d) × (made.1 ≡ left_out_of_plain w)) }
    ensures err { IfErr result (λ why. RefusesPlain bytes.now why) }
{
    let descriptor = whole_in(alloc, bytes)?;
    let plain = plain_part_of(alloc, &descriptor)?;
    let form = write_descriptor(alloc, &plain)?;
    Ok((form, left_out_of_plain(&descriptor)))
}

fn plain_part_of(alloc: Global, descriptor: &WholeDescriptor) -> Result<Descriptor, Refusal>
    ensures ok { IfOk result (λ d. plain_part descriptor.now ≡ Ok (descriptor_of d)) }
    ensures err { IfErr result (λ why. IsNotPlain descriptor.now why) }
{
    match descriptor.plain_part(alloc) {
        Ok(part) => Ok(part.descriptor),
        Err(PlainError::Odd(odd)) => Err(Refusal::NotPlain(odd)),
        Err(PlainError::Memory) => Err(Refusal::Memory),
    }
}

fn left_out_of_plain(descriptor: &WholeDescriptor) -> u32
    ensures { result ≡ left_out_of_plain descriptor.now }
{
    let bits = bits_left_out(bits_not_plain(descriptor), descriptor);
    sacl_left_out(descriptor) + manager_left_out(descriptor) + bits
}

/// The control bits that the plain part doesn't have.
fn bits_not_plain(descriptor: &WholeDescriptor) -> u16
    ensures { result ≡ bits_not_plain descriptor.now }
{
    match descriptor.dacl {
        WholeAcl::Absent => u16::MAX,
        _ => BITS_NOT_PLAIN,
    }
}

fn sacl_left_out(descriptor: &WholeDescriptor) -> u32
    ensures value { result ≡ sacl_left_out descriptor.now }
    ensures most { result ≤ 1 }
{
    match descriptor.sacl {
        WholeAcl::Absent => 0,
        _ => 1,
    }
}

fn manager_left_out(descriptor: &WholeDescriptor) -> u32
    ensures value { result ≡ manager_left_out descriptor.now }
    ensures most { result ≤ 2 }
{
    if descriptor.resource_manager == 0 {
        0
    } else {
        2
    }
}

fn bits_left_out(bits: u16, descriptor: &WholeDescriptor) -> u32
    ensures value { result ≡ bits_left_out bits descriptor.now }
    ensures most { result ≤ 4 }
{
    if has_bits(descriptor.control, bits) {
        4
    } else {
        0
    }
}
