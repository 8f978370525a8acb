//! Strings of JSON (RFC 8259, section 7).

ghost use Rattle.std.specs.Prelude.{◌≡◌, ◌++◌, ◌<◌, OnOk, flat_map};
ghost use Rattle.std.specs.Str.{is_utf8};
ghost use Rattle.sd_line.specs.Json.{escaped, hex_digit, hex_digits, json_string};

use std::alloc::AllocError;
use std::str::from_utf8;

/// Appends a text as a string. Bytes from 0x80 on stay, or where the text isn't UTF-8 each is the surrogate U+DC80 to
/// U+DCFF, as Python's `surrogateescape` has it.
#[tactic(auto, unfolding(crate::specs::Json::json_string))]
pub(crate) fn push_string(out: &mut Vec<u8>, text: &[u8]) -> Result<(), AllocError>
    ensures { OnOk result (out.new.items ≡ out.old.items ++ json_string text.now) }
{
    let utf8 = is_utf8(text);
    out.push(b'"')?;
    push_escaped(out, utf8, text)?;
    out.push(b'"')?;
    Ok(())
}

fn is_utf8(text: &[u8]) -> bool
    ensures { result ≡ is_utf8 text.now }
{
    match from_utf8(text) {
        Ok(_) => true,
        Err(_) => false,
    }
}

fn push_escaped(out: &mut Vec<u8>, utf8: bool, text: &[u8]) -> Result<(), AllocError>
    ensures { OnOk result (out.new.items ≡ out.old.items ++ flat_map (escaped utf8) text.now) }
{
    for byte in text {
        push_byte(out, utf8, *byte)?;
    }
    Ok(())
}

fn push_byte(out: &mut Vec<u8>, utf8: bool, byte: u8) -> Result<(), AllocError>
    ensures { OnOk result (out.new.items ≡ out.old.items ++ escaped utf8 byte) }
{
    if byte == b'"' {
        out.extend_from_slice(b"\\\"")
    } else if byte == b'\\' {
        out.extend_from_slice(b"\\\\")
    } else if byte < 32 {
        out.extend_from_slice(b"\\u00")?;
        push_hex(out, byte)
    } else if byte >= 128 && !utf8 {
        out.extend_from_slice(b"\\udc")?;
        push_hex(out, byte)
    } else {
        out.push(byte)?;
        Ok(())
    }
}

fn push_hex(out: &mut Vec<u8>, byte: u8) -> Result<(), AllocError>
    ensures { OnOk result (out.new.items ≡ out.old.items ++ hex_digits byte) }
{
    out.push(hex_digit(byte / 16))?;
    out.push(hex_digit(byte % 16))?;
    Ok(())
}

fn hex_digit(value: u8) -> u8
    requires { value < 16 }
    ensures { result ≡ hex_digit value }
{
    if value < 10 { 48 + value } else { 87 + value }
}
