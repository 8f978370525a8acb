//! The names of attributes, as text.

ghost use Rattle.std.specs.Prelude.{◌≡◌, ◌<◌, [], ◌∷◌, ◌++◌, true, not, ◌==◌, IfOk, OnOk};
ghost use Rattle.std.specs.Prelude.{string_bytes};
ghost use Rattle.std.specs.Char.{digit_char};
ghost use Rattle.std.specs.List.{flat_map, list_all};
ghost use Rattle.std.specs.Option.{option_map};
ghost use Rattle.std.specs.Str.{str_eq_ignore_ascii_case};
ghost use Rattle.sd_condition_text.specs.Attribute.{attribute_text, escape, is_between, is_literal};
ghost use Rattle.sd_condition_text.specs.Attribute.{is_opening_word, is_plain, is_text, plain_name, prefixed_name};
ghost use Rattle.sd_condition_text.specs.Attribute.{unit_text};

use sd_condition::{Attribute, Scope};
use sd_data::has_no_zero;
use std::alloc::{AllocError, Global};

/// The marks that may stand in a name without a prefix: `:./_` ([MS-DTYP] 2.5.1.1, attr-char1).
const PLAIN_MARKS: [u16; 4] = [0x3a, 0x2e, 0x2f, 0x5f];

/// The marks that stand in a name only as an escape: `!"%&()<=>|` ([MS-DTYP] 2.5.1.1, attr-char2).
const ESCAPED_MARKS: [u16; 10] = [0x21, 0x22, 0x25, 0x26, 0x28, 0x29, 0x3c, 0x3d, 0x3e, 0x7c];

/// An attribute by its name.
pub(crate) fn print_attribute(
    alloc: Global,
    attribute: &Attribute,
) -> Result<Option<String>, AllocError>
    ensures { IfOk result (λ text. option_map string_bytes text ≡ attribute_text attribute.now) }
{
    let name = attribute.name.units();
    match attribute.scope {
        Scope::Local => print_plain(alloc, name),
        Scope::User => print_prefixed(alloc, "@USER.", name),
        Scope::Resource => print_prefixed(alloc, "@RESOURCE.", name),
        Scope::Device => print_prefixed(alloc, "@DEVICE.", name),
    }
}

/// A name without a prefix.
#[tactic(auto, unfolding(crate::specs::Attribute::plain_name))]
fn print_plain(alloc: Global, name: &[u16]) -> Result<Option<String>, AllocError>
    ensures { IfOk result (λ text. option_map string_bytes text ≡ plain_name name.now) }
{
    if name.is_empty() || !are_plain(name) {
        return Ok(None);
    }
    let mut text = String::with_capacity(alloc, name.len())?;
    push_plain(&mut text, name)?;
    if is_opening_word(text.as_str()) {
        return Ok(None);
    }
    Ok(Some(text))
}

/// A name after a prefix.
#[tactic(auto, unfolding(crate::specs::Attribute::prefixed_name))]
fn print_prefixed(alloc: Global, prefix: &str, name: &[u16]) -> Result<Option<String>, AllocError>
    ensures { IfOk result (λ text. option_map string_bytes text ≡ prefixed_name prefix.now name.now) }
{
    if name.is_empty() || !is_text(alloc, name)? {
        return Ok(None);
    }
    let mut text = String::from_str(alloc, prefix)?;
    push_escaped(&mut text, name)?;
    Ok(Some(text))
}

/// Whether the units are UTF-16, of which none is zero ([MS-DTYP] 2.5.1.1, attr-char2).
pub fn is_text(alloc: Global, units: &[u16]) -> Result<bool, AllocError>
    ensures { IfOk result (λ is. is ≡ is_text units.now) }
{
    match String::from_utf16(alloc, units)? {
        Ok(_) => Ok(has_no_zero(units)),
        Err(_) => Ok(false),
    }
}

fn are_plain(name: &[u16]) -> bool
    ensures { result ≡ list_all is_plain name.now }
{
    name.iter().all(|unit| is_plain(*unit))
}

/// Whether it is a digit, a letter, or one of `:./_`.
fn is_plain(unit: u16) -> bool
    ensures { result ≡ is_plain unit }
{
    is_between(0x30, 0x39, unit)
        || is_between(0x41, 0x5a, unit)
        || is_between(0x61, 0x7a, unit)
        || PLAIN_MARKS.contains(&unit)
}

/// Whether it is a visible character of ASCII, and needs no escape ([MS-DTYP] 2.5.1.1, attr-char2).
pub fn is_literal(unit: u16) -> bool
    ensures { result ≡ is_literal unit }
{
    is_between(0x21, 0x7e, unit) && !ESCAPED_MARKS.contains(&unit)
}

fn is_between(low: u16, high: u16, unit: u16) -> bool
    ensures { result ≡ is_between low high unit }
{
    low <= unit && unit <= high
}

/// Whether it is a word that begins a condition, in any case ([MS-DTYP] 2.5.1.1, memberof-op and exists-op).
fn is_opening_word(name: &str) -> bool
    ensures { result ≡ is_opening_word name.now }
{
    is_word(name, "Exists")
        || is_word(name, "Not_Exists")
        || is_word(name, "Member_of")
        || is_word(name, "Device_Member_of")
        || is_word(name, "Member_of_Any")
        || is_word(name, "Device_Member_of_Any")
        || is_word(name, "Not_Member_of")
        || is_word(name, "Not_Device_Member_of")
        || is_word(name, "Not_Member_of_Any")
        || is_word(name, "Not_Device_Member_of_Any")
}

fn is_word(name: &str, word: &str) -> bool
    ensures { result ≡ str_eq_ignore_ascii_case name.now word.now }
{
    name.eq_ignore_ascii_case(word)
}

/// Appends the units of a name without a prefix.
fn push_plain(out: &mut String, name: &[u16]) -> Result<(), AllocError>
    requires { list_all is_plain name.now ≡ true }
    ensures { OnOk result (string_bytes out.new ≡ string_bytes out.old ++ name.now) }
{
    for unit in name {
        push_ascii(out, *unit)?;
    }
    Ok(())
}

/// Appends a character of ASCII.
fn push_ascii(out: &mut String, unit: u16) -> Result<(), AllocError>
    requires { unit < 128 }
    ensures { OnOk result (string_bytes out.new ≡ string_bytes out.old ++ unit ∷ []) }
{
    out.push(char::from(unit as u8))
}

/// Appends the units of a name of an attribute or a claim, each as it is or by its escape ([MS-DTYP] 2.5.1.1,
/// attr-char2, lit-char).
pub fn push_escaped(out: &mut String, name: &[u16]) -> Result<(), AllocError>
    ensures { OnOk result (string_bytes out.new ≡ string_bytes out.old ++ flat_map unit_text name.now) }
{
    for unit in name {
        push_unit(out, *unit)?;
    }
    Ok(())
}

/// Appends a unit, as it is or by its escape.
fn push_unit(out: &mut String, unit: u16) -> Result<(), AllocError>
    ensures { OnOk result (string_bytes out.new ≡ string_bytes out.old ++ unit_text unit) }
{
    if is_literal(unit) {
        push_ascii(out, unit)
    } else {
        push_escape(out, unit)
    }
}

/// Appends a percent sign and four hexadecimal digits ([MS-DTYP] 2.5.1.1, lit-char).
fn push_escape(out: &mut String, unit: u16) -> Result<(), AllocError>
    ensures { OnOk result (string_bytes out.new ≡ string_bytes out.old ++ escape unit) }
{
    out.push('%')?;
    push_hex_digit(out, unit / 0x1000 % 16)?;
    push_hex_digit(out, unit / 0x100 % 16)?;
    push_hex_digit(out, unit / 0x10 % 16)?;
    push_hex_digit(out, unit % 16)
}

fn push_hex_digit(out: &mut String, digit: u16) -> Result<(), AllocError>
    requires { digit < 16 }
    ensures { OnOk result (string_bytes out.new ≡ string_bytes out.old ++ digit_char digit ∷ []) }
{
    out.push(char::from_digit(u32::from(digit), 16).unwrap())
}
