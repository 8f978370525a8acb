//! Bytes as other tools write them: a value of one of their files, or hexadecimal with `0x`, spaces, commas,
//! backslashes and line ends between bytes.
ghost use Rattle.std.specs.Prelude.{◌≡◌, ◌<◌, ◌≤◌, ◌+◌, ◌-◌, ℕ, Ok, Err, Some, IfErr, IfOk, filter, length, not};
ghost use Rattle.std.specs.List.{slice_split};
ghost use Rattle.sd_commands.specs.Bytes.{IsBytesError, digits_of, is_between, is_blank_byte, joined};
ghost use Rattle.sd_commands.specs.Bytes.{part_read, parts_read, value_read};
ghost use Rattle.sd_commands.specs.Value.{value_in};
ghost use Rattle.sd_commands.specs.declared.value.Value.TheVariants as values;

use crate::bytes::{BytesError, no_bytes};
use crate::value::{Value, value_in};
use base64::DecodeAllocError;
use base64::engine::general_purpose::STANDARD;
use hex::FromHexError;
use std::alloc::{AllocError, Global};

/// The bytes of the value that the text has.
pub(crate) fn loose_bytes(alloc: Global, text: &[u8]) -> Result<Vec<u8>, BytesError>
    ensures ok { IfOk result (λ bytes. value_read text.now (value_in text.now) ≡ Ok bytes.items) }
    ensures err { IfErr result (IsBytesError (value_read text.now (value_in text.now))) }
{
    match value_in(text) {
        Some(Value::Hex(place)) => hex_value(alloc, text, place),
        Some(Value::Base64(place)) => base64_value(alloc, text, place),
        None => Err(no_bytes("no bytes", 0)),
    }
}

/// The bytes that the text spells in base64 from this place on, where ends of lines, tabs and spaces don't count.
fn base64_value(alloc: Global, text: &[u8], place: usize) -> Result<Vec<u8>, BytesError>
    requires { place ≤ length text.now }
    ensures ok { IfOk result (λ bytes. value_read text.now (Some (values.Base64 place)) ≡ Ok bytes.items) }
    ensures err { IfErr result (IsBytesError (value_read text.now (Some (values.Base64 place)))) }
{
    let digits = filled(alloc, &text[place..])?;
    match STANDARD.decode(alloc, digits.as_slice()) {
        Ok(bytes) => Ok(bytes),
        Err(DecodeAllocError::OutOfMemory) => Err(BytesError::Memory),
        Err(DecodeAllocError::DecodeError(_)) => Err(no_bytes("no bytes", place)),
    }
}

/// The text without ends of lines, tabs and spaces.
fn filled(alloc: Global, text: &[u8]) -> Result<Vec<u8>, AllocError>
    ensures { IfOk result (λ digits. digits.items ≡ filter (λ b. not (is_blank_byte b)) text.now) }
{
    let mut digits = Vec::new(alloc);
    for byte in text {
        if !is_blank_byte(*byte) {
            digits.push(*byte)?;
        }
    }
    Ok(digits)
}

fn is_blank_byte(b: u8) -> bool
    ensures { result ≡ is_blank_byte b }
{
    matches!(b, b'\t' | b'\n' | b'\r' | b' ')
}

/// The bytes that the text spells in hexadecimal from this place on, with signs between them.
fn hex_value(alloc: Global, text: &[u8], place: usize) -> Result<Vec<u8>, BytesError>
    requires { place ≤ length text.now }
    ensures ok { IfOk result (λ bytes. value_read text.now (Some (values.Hex place)) ≡ Ok bytes.items) }
    ensures err { IfErr result (IsBytesError (value_read text.now (Some (values.Hex place)))) }
{
    let mut bytes = Vec::new(alloc);
    let mut rest = &text[place..];
    while !rest.is_empty() {
        let (part, behind) = first_part(rest);
        let more = part_bytes(alloc, text.len() - rest.len(), part)?;
        bytes.extend_from_slice(&more)?;
        rest = behind;
    }
    Ok(bytes)
}

/// What stands before the first sign between bytes, and what behind it.
fn first_part(text: &[u8]) -> (&[u8], &[u8])
    requires { 0 < length text.now }
    ensures parts { (place : ℕ) → parts_read place (slice_split is_between text.now)
        ≡ joined (part_read place result.0.now)
        (parts_read ((place + length text.now) - length result.1.now) (slice_split is_between result.1.now)) }
    ensures less { length result.1.now < length text.now }
{
    match text.iter().position(|b| is_between(*b)) {
        Some(end) => (&text[..end], &text[end + 1..]),
        None => (text, &[]),
    }
}

fn is_between(b: u8) -> bool
    ensures { result ≡ is_between b }
{
    matches!(b, b'\t' | b'\n' | b'\r' | b' ' | b',' | b'\\')
}

/// The bytes of a part, which begins at this byte of the text.
fn part_bytes(alloc: Global, place: usize, part: &[u8]) -> Result<Vec<u8>, BytesError>
    ensures ok { IfOk result (λ bytes. part_read place part.now ≡ Ok bytes.items) }
    ensures err { IfErr result (IsBytesError (part_read place part.now)) }
{
    match hex::decode(alloc, digits(part)) {
        Ok(bytes) => Ok(bytes),
        Err(FromHexError::OutOfMemory) => Err(BytesError::Memory),
        Err(_) => Err(no_bytes("no bytes", place)),
    }
}

/// A part without one `0x` at its front.
fn digits(part: &[u8]) -> &[u8]
    ensures { result.now ≡ digits_of part.now }
{
    match part {
        [a, b, digits @ ..] if *a == b'0' && (*b == b'x' || *b == b'X') => digits,
        _ => part,
    }
}
