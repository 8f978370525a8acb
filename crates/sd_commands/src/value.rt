//! The value of a descriptor as it stands in a file of another tool.
ghost use Rattle.std.specs.Prelude.{◌≡◌, ◌≤◌, ◌<◌, ◌+◌, ◌^◌, ◌==◌, ◌++◌, IfOk, IfSome, codes, drop, length, take};
ghost use Rattle.sd_commands.specs.Value.{after_mark, after_name, begins_by, descriptor_in, first, head_len};
ghost use Rattle.sd_commands.specs.Value.{ntacl_place, place_of, value_in};

use crate::words::items_from;
use std::alloc::{AllocError, Global};

/// How a value's bytes are spelled, and at which byte of the text they begin.
#[derive(Clone, Copy)]
pub(crate) enum Value {
    /// In hexadecimal, with signs between bytes.
    Hex(usize),
    Base64(usize),
}

/// The value of a text: that of a .reg file, of an attribute of LDIF (RFC 2849) or of getfattr, or the text itself.
/// `None`: it is in another form.
pub(crate) fn value_in(text: &[u8]) -> Option<Value>
    ensures value { result ≡ value_in text.now }
    ensures within { IfSome result (λ value. place_of value ≤ length text.now) }
{
    match head_len(text) {
        Some(len) => Some(Value::Hex(len)),
        None => after_mark(text, first(b':', text).min(first(b'=', text))),
    }
}

/// How long the `hex:` or `hex(N):` is that the text begins with.
fn head_len(text: &[u8]) -> Option<usize>
    ensures len { result ≡ head_len text.now }
    ensures within { IfSome result (λ len. len ≤ length text.now) }
{
    if text.starts_with(b"hex:") {
        return Some(4);
    }
    let end = first(b')', text);
    if text.starts_with(b"hex(") && text[end..].starts_with(b"):") {
        Some(end + 2)
    } else {
        None
    }
}

/// How many bytes stand before the first such byte, or all where there is none.
fn first(byte: u8, text: &[u8]) -> usize
    ensures place { result ≡ first byte text.now }
    ensures within { result ≤ length text.now }
{
    let end = text.iter().position(|b| *b == byte);
    end.unwrap_or(text.len())
}

/// The value after the first mark.
fn after_mark(text: &[u8], place: usize) -> Option<Value>
    requires { place ≤ length text.now }
    ensures value { result ≡ after_mark text.now place }
    ensures within { IfSome result (λ value. place_of value ≤ length text.now) }
{
    if text.len() <= place {
        return Some(Value::Hex(0));
    }
    let after = &text[place + 1..];
    if text[place] == b'=' {
        Some(after_name(after, place + 1))
    } else if after.starts_with(b":") {
        Some(Value::Base64(place + 2))
    } else {
        None
    }
}

/// The value that begins at this byte of the text, behind a name and its `=`.
fn after_name(text: &[u8], place: usize) -> Value
    requires { place + length text.now < 2 ^ 63 }
    ensures value { result ≡ after_name place (head_len text.now) (begins_by text.now (codes "0s")) }
    ensures within { place_of result ≤ place + length text.now }
{
    match head_len(text) {
        Some(len) => Value::Hex(place + len),
        None if text.starts_with(b"0s") => Value::Base64(place + 2),
        None => Value::Hex(place),
    }
}

/// The descriptor in the bytes: that of an attribute security.NTACL of Samba, or else the bytes as they are.
pub(crate) fn descriptor_in(alloc: Global, bytes: Vec<u8>) -> Result<Vec<u8>, AllocError>
    ensures { IfOk result (λ held. held.items ≡ descriptor_in bytes.items) }
{
    match ntacl_place(&bytes) {
        Some(place) if place + 20 <= bytes.len() => with_header(alloc, &bytes, place),
        _ => Ok(bytes),
    }
}

/// The bytes with the header at this place instead of their first 20.
fn with_header(alloc: Global, bytes: &[u8], place: usize) -> Result<Vec<u8>, AllocError>
    requires { place + 20 ≤ length bytes.now }
    ensures { IfOk result (λ held. held.items ≡ take 20 (drop place bytes.now) ++ drop 20 bytes.now) }
{
    let mut held = Vec::new(alloc);
    held.extend_from_slice(&bytes[place..place + 20])?;
    held.extend_from_slice(&bytes[20..])?;
    Ok(held)
}

/// Where the descriptor's header is in an xattr_NTACL in NDR, of which there are four versions.
fn ntacl_place(bytes: &[u8]) -> Option<usize>
    ensures place { result ≡ ntacl_place bytes.now }
    ensures low { IfSome result (λ place. place ≤ length bytes.now + 1000) }
{
    if bytes.starts_with(&[1, 0, 1, 0]) {
        Some(8)
    } else if bytes.starts_with(&[2, 0, 2, 0]) {
        Some(28)
    } else if bytes.starts_with(&[3, 0, 3, 0]) {
        Some(80)
    } else if bytes.starts_with(&[4, 0, 4, 0]) {
        Some((78 + first(0, items_from(bytes, 78)) + 4) / 4 * 4 + 72)
    } else {
        None
    }
}
