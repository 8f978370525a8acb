//! Values and lists, as text.

ghost use Rattle.std.specs.Prelude.{◌≡◌, ◌++◌, Some, IfOk, OnOk, string_bytes};
ghost use Rattle.std.specs.Fmt.{◌++?◌};
ghost use Rattle.std.specs.List.{flat_map, list_any};
ghost use Rattle.std.specs.Option.{option_map};
ghost use Rattle.sd_condition_text.specs.Value.{further_values, integer_text, is_control, is_unquotable, is_widest};
ghost use Rattle.sd_condition_text.specs.Value.{list_text, number_text};
ghost use Rattle.sd_condition_text.specs.Value.{octet_text, octets_text, quoted_text, sid_text, sign_fits, sign_text};
ghost use Rattle.sd_condition_text.specs.Value.{value_text, values_text};

use sd_condition::{Base, Integer, Sign, Value, Width};
use sd_sid::Sid;
use sd_text::print_sid;
use std::alloc::{AllocError, Global};

/// The quotes round a text, which is no part of one ([MS-DTYP] 2.5.1.1, string-value).
const QUOTE: u16 = 0x22;

/// A value.
#[tactic(auto, unfolding(crate::specs::Value::value_text))]
pub(crate) fn print_value(alloc: Global, value: &Value) -> Result<Option<String>, AllocError>
    ensures { IfOk result (λ text. option_map string_bytes text ≡ value_text value.now) }
{
    match value {
        Value::Integer(integer) => print_integer(alloc, *integer),
        Value::Text(text) => print_quoted(alloc, text.units()),
        Value::Octets(octets) => {
            let text = print_octets(alloc, octets.octets())?;
            Ok(Some(text))
        }
        Value::Sid(sid) => {
            let text = print_literal_sid(alloc, sid)?;
            Ok(Some(text))
        }
    }
}

/// An integer.
#[tactic(auto, unfolding(crate::specs::Value::integer_text))]
fn print_integer(alloc: Global, integer: Integer) -> Result<Option<String>, AllocError>
    ensures { IfOk result (λ text. option_map string_bytes text ≡ integer_text integer) }
{
    if !is_widest(integer.width) || !sign_fits(integer.sign, integer.value) {
        return Ok(None);
    }
    let mut text = String::from_str(alloc, sign_text(integer.sign))?;
    push_number(&mut text, integer.base, integer.value.unsigned_abs())?;
    Ok(Some(text))
}

/// Whether it is the width that an integer of a text has.
fn is_widest(width: Width) -> bool
    ensures { result ≡ is_widest width }
{
    matches!(width, Width::Int64)
}

/// Whether a number with this sign has this value.
fn sign_fits(sign: Sign, value: i64) -> bool
    ensures { result ≡ sign_fits sign value }
{
    match sign {
        Sign::Plus => 0 <= value,
        Sign::Minus => value <= 0,
        Sign::Omitted => 0 <= value,
    }
}

fn sign_text(sign: Sign) -> &'static str
    ensures { result.now ≡ sign_text sign }
{
    match sign {
        Sign::Plus => "+",
        Sign::Minus => "-",
        Sign::Omitted => "",
    }
}

/// Appends a number in its base.
fn push_number(out: &mut String, base: Base, number: u64) -> Result<(), AllocError>
    ensures { OnOk result (string_bytes out.new ≡ string_bytes out.old ++ number_text base number) }
{
    match base {
        Base::Octal => write!(out, "0{number:o}"),
        Base::Decimal => write!(out, "{number}"),
        Base::Hexadecimal => write!(out, "0x{number:x}"),
    }
}

/// A text of a condition or a claim between quotes ([MS-DTYP] 2.5.1.1, string-value, char-string). `None`: it isn't
/// UTF-16, or has what can't stand there.
#[tactic(auto, unfolding(crate::specs::Value::quoted_text))]
pub fn print_quoted(alloc: Global, units: &[u16]) -> Result<Option<String>, AllocError>
    ensures { IfOk result (λ text. option_map string_bytes text ≡ quoted_text units.now) }
{
    if has_unquotable(units) {
        return Ok(None);
    }
    let Ok(decoded) = String::from_utf16(alloc, units)? else {
        return Ok(None);
    };
    let mut text = String::from_str(alloc, "\"")?;
    text.push_str(decoded.as_str())?;
    text.push_str("\"")?;
    Ok(Some(text))
}

/// Whether one of the units can't stand in a printed text between quotes.
fn has_unquotable(units: &[u16]) -> bool
    ensures { result ≡ list_any is_unquotable units.now }
{
    units.iter().any(|unit| is_unquotable(*unit))
}

/// Whether a text between quotes can't have the unit: a quote, or what doesn't stay in a line.
fn is_unquotable(unit: u16) -> bool
    ensures { result ≡ is_unquotable unit }
{
    unit == QUOTE || is_control(unit)
}

/// Whether the unit is a control character, or a separator of lines or of paragraphs.
fn is_control(unit: u16) -> bool
    ensures { result ≡ is_control unit }
{
    matches!(unit, 0..=0x1f | 0x7f..=0x9f | 0x2028..=0x2029)
}

/// Octets, in hexadecimal digits.
fn print_octets(alloc: Global, octets: &[u8]) -> Result<String, AllocError>
    ensures { IfOk result (λ text. string_bytes text ≡ octets_text octets.now) }
{
    let mut text = String::from_str(alloc, "#")?;
    push_octets(&mut text, octets)?;
    Ok(text)
}

/// Appends octets, two digits each.
fn push_octets(out: &mut String, octets: &[u8]) -> Result<(), AllocError>
    ensures { OnOk result (string_bytes out.new ≡ string_bytes out.old ++ flat_map octet_text octets.now) }
{
    for octet in octets {
        push_octet(out, *octet)?;
    }
    Ok(())
}

#[tactic(auto, using(crate::proofs::Digits::two_digits))]
fn push_octet(out: &mut String, octet: u8) -> Result<(), AllocError>
    ensures { OnOk result (string_bytes out.new ≡ string_bytes out.old ++ octet_text octet) }
{
    write!(out, "{octet:02X}")
}

/// A SID, by its alias or in full.
fn print_literal_sid(alloc: Global, sid: &Sid) -> Result<String, AllocError>
    ensures { IfOk result (λ text. string_bytes text ≡ sid_text sid.now) }
{
    let printed = print_sid(alloc, sid)?;
    let mut text = String::from_str(alloc, "SID(")?;
    text.push_str(printed.as_str())?;
    text.push_str(")")?;
    Ok(text)
}

/// A list of values, between braces.
#[tactic(auto, unfolding(crate::specs::Value::list_text))]
pub(crate) fn print_list(alloc: Global, values: &[Value]) -> Result<Option<String>, AllocError>
    ensures { IfOk result (λ text. option_map string_bytes text ≡ list_text values.now) }
{
    let Some(list) = print_values(alloc, values)? else {
        return Ok(None);
    };
    let mut text = String::from_str(alloc, "{")?;
    text.push_str(list.as_str())?;
    text.push_str("}")?;
    Ok(Some(text))
}

/// Values, with a comma between any two.
fn print_values(alloc: Global, values: &[Value]) -> Result<Option<String>, AllocError>
    ensures { IfOk result (λ text. option_map string_bytes text ≡ values_text values.now) }
{
    let Some((first, others)) = values.split_first() else {
        return Ok(Some(String::new(alloc)));
    };
    let Some(text) = print_value(alloc, first)? else {
        return Ok(None);
    };
    append_further(alloc, text, others)
}

/// The text, and further values, each after a comma.
fn append_further(
    alloc: Global,
    before: String,
    values: &[Value],
) -> Result<Option<String>, AllocError>
    ensures { IfOk result (λ text. option_map string_bytes text
        ≡ Some (string_bytes before) ++? further_values values.now) }
{
    let mut text = before;
    for value in values {
        let Some(printed) = print_value(alloc, value)? else {
            return Ok(None);
        };
        text.push_str(", ")?;
        text.push_str(printed.as_str())?;
    }
    Ok(Some(text))
}
