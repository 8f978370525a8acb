//! The name of a claim, as text.

ghost use Rattle.std.specs.Prelude.{◌≡◌, ◌<◌, ◌≤◌, ◌/◌, ◌%◌, [], ◌∷◌, ◌++◌, Some, None, IfOk, IfSome, OnOk};
ghost use Rattle.std.specs.Prelude.{length, nat_lt, string_bytes, if◌then◌else◌};
ghost use Rattle.std.specs.Char.Utf16.{has_unpaired_surrogate};
ghost use Rattle.std.specs.Fmt.{◌++?◌};
ghost use Rattle.std.specs.List.{position_or_len};
ghost use Rattle.sd_text.specs.Finding.{Gives};
ghost use Rattle.sd_claim_text.specs.Name.{escape_found, escaped_unit, hex_digit, is_name};
ghost use Rattle.sd_claim_text.specs.Name.{is_within, name_found, name_text, part_found, units_found};
ghost use Rattle.sd_claim_text.specs.Outcome.{GivesOrMemory};
ghost use Rattle.sd_claim_text.specs.Parser.{mapped};

use crate::error::ClaimError;
use crate::utf16::parse_utf16;
use sd_condition_text::{is_literal, push_escaped};
use sd_data::Utf16;
use sd_text::{Cursor, TextFault};
use std::alloc::{AllocError, Global};

/// The length of an escape: a percent sign and four hexadecimal digits ([MS-DTYP] 2.5.1.1, lit-char).
const ESCAPE_BYTES: usize = 5;

/// Appends a name between quotes. Returns false if no text is parsed as the name.
#[tactic(auto, unfolding(crate::specs::Name::name_text))]
pub(crate) fn write_name(alloc: Global, out: &mut String, name: &[u16]) -> Result<bool, AllocError>
    ensures { IfOk result (λ written. (if written then Some (string_bytes out.new) else None)
        ≡ Some (string_bytes out.old) ++? name_text name.now) }
{
    if !is_name(alloc, name)? {
        return Ok(false);
    }
    out.push_str("\"")?;
    push_escaped(out, name)?;
    out.push_str("\"")?;
    Ok(true)
}

/// Whether a name isn't empty, and is UTF-16.
fn is_name(alloc: Global, name: &[u16]) -> Result<bool, AllocError>
    ensures { IfOk result (λ is. is ≡ is_name name.now) }
{
    if name.is_empty() {
        return Ok(false);
    }
    let read = String::from_utf16(alloc, name)?;
    Ok(read.is_ok())
}

/// A name between quotes.
#[tactic(auto, unfolding(crate::specs::Name::name_found))]
pub(crate) fn parse_name(alloc: Global, cursor: &mut Cursor<'_>) -> Result<Utf16, ClaimError>
    ensures found { GivesOrMemory (λ name. name) result cursor.new.rest.now (name_found cursor.old.rest.now) }
    ensures within { length cursor.new.rest.now ≤ length cursor.old.rest.now }
{
    cursor.word(b"\"")?;
    let units = parse_units(alloc, cursor)?;
    if !is_name(alloc, &units)? {
        return Err(ClaimError::Fault(TextFault::Syntax));
    }
    cursor.word(b"\"")?;
    Ok(Utf16::new(units))
}

/// The units of a name.
fn parse_units(alloc: Global, cursor: &mut Cursor<'_>) -> Result<Vec<u16>, ClaimError>
    ensures found { GivesOrMemory (λ units. units.items) result cursor.new.rest.now
        (units_found cursor.old.rest.now) }
    ensures within { length cursor.new.rest.now ≤ length cursor.old.rest.now }
{
    let mut units = Vec::new(alloc);
    'parts: while is_within(cursor) {
        parse_part(cursor, &mut units)?;
    }
    Ok(units)
}

/// Whether neither the quote that ends the name is here, nor the end of the text.
fn is_within(cursor: &Cursor<'_>) -> bool
    ensures { result ≡ is_within cursor.now.rest.now }
{
    !cursor.rest.is_empty() && !cursor.begins(b"\"")
}

/// Appends the units of a part of a name: a character of ASCII, an escape, or characters beyond ASCII.
#[tactic(auto, unfolding(crate::specs::Name::part_found, crate::specs::Utf16::utf16_found))]
fn parse_part(cursor: &mut Cursor<'_>, units: &mut Vec<u16>) -> Result<(), ClaimError>
    ensures found { GivesOrMemory (λ _. units.new.items) result cursor.new.rest.now
        (mapped (λ more. units.old.items ++ more) (part_found cursor.old.rest.now)) }
    ensures within { length cursor.new.rest.now ≤ length cursor.old.rest.now }
    ensures less { OnOk result (length cursor.new.rest.now < length cursor.old.rest.now) }
{
    let text = cursor.rest;
    let [byte, rest @ ..] = text else {
        return Err(ClaimError::Fault(TextFault::Syntax));
    };
    if is_literal(u16::from(*byte)) {
        units.push(u16::from(*byte))?;
        cursor.rest = rest;
        return Ok(());
    }
    if *byte == b'%' {
        let unit = parse_escape(cursor)?;
        units.push(unit)?;
        return Ok(());
    }
    if *byte < 0x80 {
        return Err(ClaimError::Fault(TextFault::Syntax));
    }
    parse_utf16(cursor, beyond_ascii_len(text), units)
}

/// How many bytes precede the next one of ASCII.
fn beyond_ascii_len(text: &[u8]) -> usize
    ensures exact { result ≡ position_or_len (λ byte. nat_lt byte 0x80) text.now }
    ensures within { result ≤ length text.now }
{
    let end = text.iter().position(|byte| *byte < 0x80);
    end.unwrap_or(text.len())
}

/// The unit of an escape, which isn't zero.
fn parse_escape(cursor: &mut Cursor<'_>) -> Result<u16, TextFault>
    ensures found { Gives (λ unit. unit ∷ []) result cursor.new.rest.now (escape_found cursor.old.rest.now) }
    ensures within { length cursor.new.rest.now ≤ length cursor.old.rest.now }
    ensures less { OnOk result (length cursor.new.rest.now < length cursor.old.rest.now) }
{
    if cursor.rest.len() < ESCAPE_BYTES {
        return Err(TextFault::Syntax);
    }
    let (escape, rest) = cursor.rest.split_at(ESCAPE_BYTES);
    let Some(unit) = escaped_unit(&escape[1..]) else {
        return Err(TextFault::Syntax);
    };
    cursor.rest = rest;
    Ok(unit)
}

/// The unit of four hexadecimal digits, unless it is zero.
fn escaped_unit(digits: &[u8]) -> Option<u16>
    ensures { result ≡ escaped_unit digits.now }
{
    let [a, b, c, d] = digits else {
        return None;
    };
    let (a, b, c, d) = (
        hex_digit(*a)?,
        hex_digit(*b)?,
        hex_digit(*c)?,
        hex_digit(*d)?,
    );
    let unit = a * 0x1000 + b * 0x100 + c * 0x10 + d;
    if unit == 0 { None } else { Some(unit) }
}

fn hex_digit(byte: u8) -> Option<u16>
    ensures value { result ≡ hex_digit byte }
    ensures low { IfSome result (λ digit. digit < 16) }
{
    match char::from(byte).to_digit(16) {
        Some(digit) => Some(digit as u16),
        None => None,
    }
}
