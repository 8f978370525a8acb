//! The printed text of each value: [MS-DTYP] 2.5.1.

ghost use Rattle.std.specs.Prelude.{◌≡◌, ◌<◌, ◌≤◌, ◌++◌, ◌==◌, length, OnErr, OnOk, IfOk, string_bytes};
ghost use Rattle.sd_acl.specs.Descriptor.{descriptor_of};
ghost use Rattle.sd_text.specs.Canon.{authority_canon, full_canon, sid_canon, rights_canon_in, flags_canon};
ghost use Rattle.sd_text.specs.Canon.{entry_canon, entry_canon_in, where_set, words_canon, section_canon, dacl_canon};
ghost use Rattle.sd_text.specs.Canon.{canon, canon_in};
ghost use Rattle.sd_text.specs.declared.right_names.RightNames.{RightNames};

use crate::alias::alias_text;
use crate::entry::flag_names;
use crate::number::push_decimal;
use crate::right_names::RightNames;
use bitflags::Flags;
use sd_acl::{Ace, AceFlags, AceKind, Dacl, Descriptor};
use sd_sid::{Mask, Sid};
use std::alloc::{AllocError, Global};

/// An authority below this is printed in decimal ([MS-DTYP] 2.4.2.1).
const DECIMAL_LIMIT: u64 = 0x1_0000_0000;

/// So many bytes of unused capacity stay with a text.
const LITTLE_ROOM: usize = 256;

/// The canonical text of a descriptor ([MS-DTYP] 2.5.1). The only error is out of memory. `read_sddl` parses the text
/// as the same descriptor, if no entry has a flag outside the seven named ones.
pub fn print_sddl(alloc: Global, descriptor: &Descriptor) -> Result<String, AllocError>
    ensures text { IfOk result (λ text. string_bytes text ≡ canon (descriptor_of descriptor.now)) }
    ensures memory { OnErr result (0 < length (canon (descriptor_of descriptor.now))) }
{
    print_sddl_in(alloc, RightNames::All, descriptor)
}

/// The text of a descriptor in which rights have these names ([MS-DTYP] 2.5.1). The only error is out of memory.
/// `read_sddl` parses the text as the same descriptor, if no entry has a flag outside the seven named ones.
pub fn print_sddl_in(
    alloc: Global,
    names: RightNames,
    descriptor: &Descriptor,
) -> Result<String, AllocError>
    ensures text { IfOk result (λ text. string_bytes text ≡ canon_in names (descriptor_of descriptor.now)) }
    ensures memory { OnErr result (0 < length (canon_in names (descriptor_of descriptor.now))) }
{
    if is_empty(descriptor) {
        return Ok(String::new(alloc));
    }
    let mut text = String::with_capacity(alloc, sddl_room(descriptor))?;
    write_sddl(&mut text, names, descriptor)?;
    give_back_room(&mut text);
    Ok(text)
}

/// The canonical text of a SID: its alias, or else in full ([MS-DTYP] 2.4.2.1). The only error is out of memory.
pub fn print_sid(alloc: Global, sid: &Sid) -> Result<String, AllocError>
    ensures { IfOk result (λ text. string_bytes text ≡ sid_canon sid.now) }
{
    let mut text = String::with_capacity(alloc, sid_room(sid))?;
    write_sid(&mut text, sid)?;
    give_back_room(&mut text);
    Ok(text)
}

/// The SID in full, even if it has an alias ([MS-DTYP] 2.4.2.1). The only error is out of memory.
pub fn print_full_sid(alloc: Global, sid: &Sid) -> Result<String, AllocError>
    ensures { IfOk result (λ text. string_bytes text ≡ full_canon sid.now) }
{
    let mut text = String::with_capacity(alloc, sid_room(sid))?;
    write_full_sid(&mut text, sid)?;
    give_back_room(&mut text);
    Ok(text)
}

/// An entry as in the canonical text of a descriptor ([MS-DTYP] 2.5.1.1). The only error is out of memory.
pub fn print_entry(alloc: Global, entry: &Ace) -> Result<String, AllocError>
    ensures { IfOk result (λ text. string_bytes text ≡ entry_canon entry.now) }
{
    print_entry_in(alloc, RightNames::All, entry)
}

/// An entry in whose text rights have these names ([MS-DTYP] 2.5.1.1). The only error is out of memory.
pub fn print_entry_in(alloc: Global, names: RightNames, entry: &Ace) -> Result<String, AllocError>
    ensures { IfOk result (λ text. string_bytes text ≡ entry_canon_in names entry.now) }
{
    let mut text = String::with_capacity(alloc, entry_room(entry))?;
    write_entry(&mut text, names, entry)?;
    give_back_room(&mut text);
    Ok(text)
}

/// Frees unused capacity. Only for speed a little stays: it costs less than moving a small text.
fn give_back_room(text: &mut String)
    ensures { string_bytes text.new ≡ string_bytes text.old }
{
    if text.capacity().saturating_sub(text.len()) > LITTLE_ROOM {
        text.shrink_to_fit();
    }
}

/// Whether the text of the descriptor is empty.
#[tactic(auto, unfolding(crate::specs::Canon::canon_in))]
fn is_empty(d: &Descriptor) -> bool
    ensures { (names : RightNames) → result ≡ (length (canon_in names (descriptor_of d.now)) == 0) }
{
    matches!((&d.owner, &d.group, &d.dacl), (None, None, Dacl::Absent))
}

/// Room for the text of a descriptor. Only for speed: a text with room for all grows no further.
fn sddl_room(d: &Descriptor) -> usize {
    let mut room = section_room(&d.owner) + section_room(&d.group) + 24;
    if let Dacl::List(list) = &d.dacl {
        for entry in list.entries() {
            room = room.saturating_add(entry_room(entry));
        }
    }
    room
}

fn section_room(sid: &Option<Sid>) -> usize
    ensures { result ≤ 185 }
{
    match sid {
        Some(sid) => 2 + sid_room(sid),
        None => 0,
    }
}

/// Room for an entry: 32 letters and its SID.
fn entry_room(entry: &Ace) -> usize {
    32 + sid_room(&entry.sid)
}

/// Room for a SID: `S-1-`, 14 letters of an authority, and a dash and ten digits for each sub-authority.
fn sid_room(sid: &Sid) -> usize
    ensures { result ≤ 183 }
{
    18 + 11 * sid.subs().len()
}

#[tactic(auto, unfolding(crate::specs::Canon::canon_in))]
fn write_sddl(out: &mut String, names: RightNames, d: &Descriptor) -> Result<(), AllocError>
    ensures { OnOk result (string_bytes out.new
        ≡ string_bytes out.old ++ canon_in names (descriptor_of d.now)) }
{
    write_section(out, "O:", &d.owner)?;
    write_section(out, "G:", &d.group)?;
    write_dacl(out, names, d)
}

/// Appends a section of one SID, if there is one ([MS-DTYP] 2.5.1.1, owner and group). The only error is out of memory.
pub fn write_section(out: &mut String, head: &str, sid: &Option<Sid>) -> Result<(), AllocError>
    ensures { OnOk result (string_bytes out.new ≡ string_bytes out.old ++ section_canon head.now sid.now) }
{
    match sid {
        Some(sid) => {
            out.push_str(head)?;
            write_sid(out, sid)
        }
        None => Ok(()),
    }
}

/// Appends a SID by its alias, or else in full ([MS-DTYP] 2.4.2.1). The only error is out of memory.
#[tactic(auto, unfolding(crate::specs::Canon::sid_canon))]
pub fn write_sid(out: &mut String, sid: &Sid) -> Result<(), AllocError>
    ensures { OnOk result (string_bytes out.new ≡ string_bytes out.old ++ sid_canon sid.now) }
{
    match alias_text(sid) {
        Some(letters) => out.push_str(letters),
        None => write_full_sid(out, sid),
    }
}

#[tactic(auto, unfolding(crate::specs::Canon::full_canon))]
fn write_full_sid(out: &mut String, sid: &Sid) -> Result<(), AllocError>
    ensures { OnOk result (string_bytes out.new ≡ string_bytes out.old ++ full_canon sid.now) }
{
    out.push_str("S-1-")?;
    write_authority(out, sid.authority())?;
    for sub in sid.subs() {
        out.push_str("-")?;
        push_decimal(out, *sub)?;
    }
    Ok(())
}

/// In decimal if the authority has 32 bits, else in 12 hexadecimal digits.
#[tactic(auto, using(crate::proofs::Numbers::twelve_digits), unfolding(crate::specs::Canon::authority_canon))]
fn write_authority(out: &mut String, authority: u64) -> Result<(), AllocError>
    ensures { OnOk result (string_bytes out.new ≡ string_bytes out.old ++ authority_canon authority) }
{
    if authority < DECIMAL_LIMIT {
        push_decimal(out, authority as u32)
    } else {
        write!(out, "0x{authority:012x}")
    }
}

fn write_dacl(out: &mut String, names: RightNames, d: &Descriptor) -> Result<(), AllocError>
    ensures { OnOk result (string_bytes out.new
        ≡ string_bytes out.old ++ dacl_canon names (words_canon (descriptor_of d.now)) d.now.dacl) }
{
    match &d.dacl {
        Dacl::Absent => Ok(()),
        Dacl::Null => {
            out.push_str("D:")?;
            write_words(out, d)?;
            out.push_str("NO_ACCESS_CONTROL")
        }
        Dacl::List(list) => {
            out.push_str("D:")?;
            write_words(out, d)?;
            for entry in list.entries() {
                write_entry(out, names, entry)?;
            }
            Ok(())
        }
    }
}

#[tactic(auto, unfolding(crate::specs::Canon::words_canon))]
fn write_words(out: &mut String, d: &Descriptor) -> Result<(), AllocError>
    ensures { OnOk result (string_bytes out.new ≡ string_bytes out.old ++ words_canon (descriptor_of d.now)) }
{
    write_where(out, d.protected, "P")?;
    write_where(out, d.auto_req, "AR")?;
    write_where(out, d.auto_inherited, "AI")
}

/// Appends the letters, if the test holds. The only error is out of memory.
pub fn write_where(out: &mut String, test: bool, letters: &str) -> Result<(), AllocError>
    ensures { OnOk result (string_bytes out.new ≡ string_bytes out.old ++ where_set test letters.now) }
{
    if test { out.push_str(letters) } else { Ok(()) }
}

#[tactic(auto, unfolding(crate::specs::Canon::entry_canon_in))]
fn write_entry(out: &mut String, names: RightNames, entry: &Ace) -> Result<(), AllocError>
    ensures { OnOk result (string_bytes out.new ≡ string_bytes out.old ++ entry_canon_in names entry.now) }
{
    out.push_str(match entry.kind {
        AceKind::Allow => "(A;",
        AceKind::Deny => "(D;",
    })?;
    write_flags(out, entry.flags)?;
    out.push_str(";")?;
    write_rights(out, names, entry.mask)?;
    out.push_str(";;;")?;
    write_sid(out, &entry.sid)?;
    out.push_str(")")
}

/// Appends the seven flags that have names in every version ([MS-DTYP] 2.4.4.1, AceFlags). The only error is out of
/// memory.
#[tactic(auto, unfolding(crate::specs::Canon::flags_canon))]
pub fn write_flags(out: &mut String, flags: AceFlags) -> Result<(), AllocError>
    ensures { OnOk result (string_bytes out.new ≡ string_bytes out.old ++ flags_canon flags.0) }
{
    let bits = u32::from(flags.bits());
    if bits == 0 {
        return Ok(());
    }
    for (letters, flag) in flag_names() {
        write_where(out, bits & flag != 0, letters)?;
    }
    Ok(())
}

/// Appends a mask by its name, or else in hexadecimal ([MS-DTYP] 2.5.1.1, ace-rights). The only error is out of memory.
#[tactic(auto, unfolding(crate::specs::Canon::rights_canon_in))]
pub fn write_rights(out: &mut String, names: RightNames, mask: Mask) -> Result<(), AllocError>
    ensures { OnOk result (string_bytes out.new ≡ string_bytes out.old ++ rights_canon_in names mask) }
{
    let bits = mask.bits();
    match names.name_of(bits) {
        Some(letters) => out.push_str(letters),
        None => write!(out, "0x{bits:x}"),
    }
}
