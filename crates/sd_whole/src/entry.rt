//! Entries as bytes: a header, and a body by its type.

ghost use Rattle.std.specs.Prelude.{◌≡◌, ◌+◌, ◌*◌, ◌≤◌, ◌∷◌, ◌++◌, length, vec_len, vec_capacity};
ghost use Rattle.std.specs.Prelude.{IfOk, IsErrOf};
ghost use Rattle.std.specs.Int.{w16, w32, to_le_bytes};
ghost use Rattle.sd_sid.specs.SidBytes.{bytes_of_sid};
ghost use Rattle.sd_acl.specs.Ace.{ace_size};
ghost use Rattle.sd_wire.specs.Reading.{Gives};
ghost use Rattle.sd_whole.specs.Entry.{body_of, plain_body, typed_body, typed_size_of};
ghost use Rattle.sd_whole.specs.Entry.{whole_ace_size, whole_entry_bytes};
ghost use Rattle.sd_whole.specs.Reading.{body_read, misfit, of_layout, opaque, whole_entry_read};

use crate::ace::{ACE_HEADER_BYTES, OpaqueAce, TypedAce, WholeAce};
use crate::data::AceData;
use crate::kind::WholeKind;
use crate::layout::{Layout, read_layout};
use crate::types::push_types;
use bitflags::Flags;
use sd_acl::{Ace, AceFlags};
use sd_sid::{Mask, Sid, push_sid};
use sd_wire::{WireError, WireFault, read_u16};
use std::alloc::{AllocError, Global};

/// The length of the shortest body of an allow or a deny: a mask, and the first 8 bytes of a SID.
const MIN_PLAIN_BODY_BYTES: usize = 12;

/// Parses the entry at the front of the bytes. Returns it with its AceSize in bytes ([MS-DTYP] 2.4.4). `EntrySize` if
/// that is below 4, not a multiple of 4, or more than there are bytes, or if an allow or a deny is too short for a SID;
/// `BadSid` if an allow or a deny has none. All flags are kept.
pub fn read_whole_entry(alloc: Global, bytes: &[u8]) -> Result<(WholeAce, usize), WireError>
    ensures read { Gives (λ x. x) result (whole_entry_read bytes.now) }
    ensures size { IfOk result (λ x. (whole_ace_size x.0 ≡ x.1) × (x.1 ≤ length bytes.now)) }
    ensures memory { IsErrOf result WireError.Memory → 4 ≤ length bytes.now }
{
    read_entry(alloc, bytes)
}

/// Parses the entry at the front of the bytes: its header, then its body.
#[tactic(auto, unfolding(crate::specs::Reading::whole_entry_read))]
fn read_entry(alloc: Global, bytes: &[u8]) -> Result<(WholeAce, usize), WireError>
    ensures read { Gives (λ x. x) result (whole_entry_read bytes.now) }
    ensures memory { IsErrOf result WireError.Memory → 4 ≤ length bytes.now }
{
    if bytes.len() < ACE_HEADER_BYTES {
        return Err(WireError::Fault(WireFault::EntrySize));
    }
    let size = read_u16(bytes, 2) as usize;
    if size < ACE_HEADER_BYTES || !size.is_multiple_of(4) || bytes.len() < size {
        return Err(WireError::Fault(WireFault::EntrySize));
    }
    let flags = AceFlags::from_bits_retain(bytes[1]);
    let entry = read_body(alloc, bytes[0], flags, &bytes[ACE_HEADER_BYTES..size])?;
    Ok((entry, size))
}

/// The entry of a type, flags and a body, or what is wrong with an allow or a deny.
#[tactic(auto, unfolding(crate::specs::Reading::body_read))]
fn read_body(alloc: Global, number: u8, flags: AceFlags, body: &[u8]) -> Result<WholeAce, WireError>
    requires { length body.now ≤ 65535 }
    ensures { Gives (λ e. e) result (body_read number flags.0 body.now) }
{
    match WholeKind::of(number) {
        Some(kind) => match read_layout(kind.has_object_types(), body) {
            Some(layout) => {
                let entry = laid_out(alloc, kind, flags, body, &layout)?;
                Ok(entry)
            }
            None => unlike_its_layout(alloc, number, flags, body),
        },
        None => {
            let entry = kept(alloc, number, flags, body)?;
            Ok(entry)
        }
    }
}

/// The entry whose body has the layout of its kind: plain if it is an allow or a deny with nothing after its SID.
fn laid_out(
    alloc: Global,
    kind: WholeKind,
    flags: AceFlags,
    body: &[u8],
    layout: &Layout,
) -> Result<WholeAce, AllocError>
    requires few { length body.now ≤ 65535 }
    requires place { layout.now.place ≤ length body.now }
    ensures { IfOk result (λ e. e ≡ of_layout kind flags.0 body.now layout.now) }
{
    let data = &body[layout.place..];
    if data.is_empty() {
        if let Some(plain) = kind.plain() {
            return Ok(WholeAce::Plain(Ace {
                kind: plain,
                flags,
                mask: layout.mask,
                sid: layout.sid,
            }));
        }
    }
    let trailing = AceData::copied(alloc, data)?;
    Ok(WholeAce::Typed(TypedAce {
        kind,
        flags,
        mask: layout.mask,
        types: layout.types,
        sid: layout.sid,
        trailing,
    }))
}

/// The entry whose body doesn't have the layout of its type: an allow or a deny has a fault, the others are opaque.
fn unlike_its_layout(
    alloc: Global,
    number: u8,
    flags: AceFlags,
    body: &[u8],
) -> Result<WholeAce, WireError>
    requires { length body.now ≤ 65535 }
    ensures { Gives (λ e. e) result (misfit number flags.0 body.now) }
{
    if number > 1 {
        let entry = kept(alloc, number, flags, body)?;
        return Ok(entry);
    }
    if body.len() < MIN_PLAIN_BODY_BYTES {
        return Err(WireError::Fault(WireFault::EntrySize));
    }
    Err(WireError::Fault(WireFault::BadSid))
}

/// The opaque entry of a type, flags and a body.
fn kept(alloc: Global, number: u8, flags: AceFlags, body: &[u8]) -> Result<WholeAce, AllocError>
    requires { length body.now ≤ 65535 }
    ensures { IfOk result (λ e. e ≡ opaque number flags.0 body.now) }
{
    let body = AceData::copied(alloc, body)?;
    Ok(WholeAce::Opaque(OpaqueAce {
        kind: number,
        flags,
        body,
    }))
}

/// Appends an entry with all bits of its flags ([MS-DTYP] 2.4.4). The capacity must suffice, and AceSize its 16 bits.
pub(crate) fn push_whole_entry(bytes: &mut Vec<u8>, entry: &WholeAce)
    requires room { vec_len bytes.old + whole_ace_size entry.now ≤ vec_capacity bytes.old }
    requires small { whole_ace_size entry.now ≤ 65535 }
    ensures items { bytes.new.items ≡ bytes.old.items ++ whole_entry_bytes entry.now }
    ensures capacity { vec_capacity bytes.old ≤ vec_capacity bytes.new }
{
    push_header(bytes, entry.number(), entry.flags(), entry.size() as u16);
    push_body(bytes, entry);
}

/// Appends the header of an entry: type, flags, AceSize.
fn push_header(bytes: &mut Vec<u8>, kind: u8, flags: AceFlags, size: u16)
    requires { vec_len bytes.old + 4 ≤ vec_capacity bytes.old }
    ensures items { bytes.new.items ≡ bytes.old.items ++ kind ∷ flags.0 ∷ to_le_bytes w16 size }
    ensures capacity { vec_capacity bytes.old ≤ vec_capacity bytes.new }
{
    bytes.push(kind).unwrap();
    bytes.push(flags.bits()).unwrap();
    bytes.extend_from_slice(&size.to_le_bytes()).unwrap();
}

/// Appends the body of an entry.
#[tactic(auto, using(crate::proofs::Lengths::length_of_plain, crate::proofs::Lengths::length_of_typed))]
fn push_body(bytes: &mut Vec<u8>, entry: &WholeAce)
    requires { vec_len bytes.old + whole_ace_size entry.now ≤ vec_capacity bytes.old + 4 }
    ensures items { bytes.new.items ≡ bytes.old.items ++ body_of entry.now }
    ensures capacity { vec_capacity bytes.old ≤ vec_capacity bytes.new }
{
    match entry {
        WholeAce::Plain(ace) => push_plain_body(bytes, ace),
        WholeAce::Typed(ace) => push_typed_body(bytes, ace),
        WholeAce::Opaque(ace) => bytes.extend_from_slice(ace.body.as_slice()).unwrap(),
    }
}

/// Appends the body of an allow or a deny: mask, SID.
fn push_plain_body(bytes: &mut Vec<u8>, ace: &Ace)
    requires { vec_len bytes.old + ace_size ace.now ≤ vec_capacity bytes.old + 4 }
    ensures items { bytes.new.items ≡ bytes.old.items ++ plain_body ace.now }
    ensures capacity { vec_capacity bytes.old ≤ vec_capacity bytes.new }
{
    push_mask(bytes, ace.mask);
    push_reserved_sid(bytes, &ace.sid);
}

/// Appends the body of an entry with a layout: mask, object types, SID, and the bytes after it.
fn push_typed_body(bytes: &mut Vec<u8>, ace: &TypedAce)
    requires { vec_len bytes.old + typed_size_of ace.now ≤ vec_capacity bytes.old + 4 }
    ensures items { bytes.new.items ≡ bytes.old.items ++ typed_body ace.now }
    ensures capacity { vec_capacity bytes.old ≤ vec_capacity bytes.new }
{
    push_mask(bytes, ace.mask);
    push_types(bytes, ace.kind.has_object_types(), &ace.types);
    push_reserved_sid(bytes, &ace.sid);
    bytes.extend_from_slice(ace.trailing.as_slice()).unwrap();
}

/// Appends a mask. The capacity must suffice.
fn push_mask(bytes: &mut Vec<u8>, mask: Mask)
    requires { vec_len bytes.old + 4 ≤ vec_capacity bytes.old }
    ensures items { bytes.new.items ≡ bytes.old.items ++ to_le_bytes w32 mask }
    ensures capacity { vec_capacity bytes.old ≤ vec_capacity bytes.new }
{
    bytes.extend_from_slice(&mask.bits().to_le_bytes()).unwrap();
}

/// Appends a SID. The capacity must suffice.
fn push_reserved_sid(bytes: &mut Vec<u8>, sid: &Sid)
    requires { vec_len bytes.old + (8 + 4 * length sid.now.subs) ≤ vec_capacity bytes.old }
    ensures items { bytes.new.items ≡ bytes.old.items ++ bytes_of_sid sid.now }
    ensures capacity { vec_capacity bytes.old ≤ vec_capacity bytes.new }
{
    push_sid(bytes, sid).unwrap();
}
