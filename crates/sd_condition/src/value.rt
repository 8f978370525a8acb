//! Values: integers, texts, octets and SIDs.

ghost use Rattle.std.specs.Prelude.{◌≡◌, ◌+◌, ◌*◌, ◌^◌, ◌<◌, ◌≤◌, ◌∷◌, ◌++◌, length, IfOk, OnOk};
ghost use Rattle.std.specs.Int.{w32, to_le_bytes};
ghost use Rattle.sd_sid.specs.SidBytes.{bytes_of_sid};
ghost use Rattle.sd_data.specs.Outcome.{Gives};
ghost use Rattle.sd_condition.specs.Reading.{content_len, literal_read, sid_read, value_read};
ghost use Rattle.sd_condition.specs.Writing.{value_bytes};

use crate::integer::{INTEGER_BYTES, Integer, Width, push_integer, read_integer};
use sd_data::{
    Octets, Refusal, Utf16, push_text, push_u32, read_octets, read_text, read_u32, text_len,
};
use sd_sid::{SID_HEADER_BYTES, Sid, push_sid, read_sid};
use std::alloc::{AllocError, Global};

/// The byte of a text ([MS-DTYP] 2.4.4.17.5).
const TEXT: u8 = 0x10;

/// The byte of an octet string ([MS-DTYP] 2.4.4.17.5).
const OCTETS: u8 = 0x18;

/// The byte of a SID ([MS-DTYP] 2.4.4.17.5).
const SID: u8 = 0x51;

/// The length of what precedes a token's content: its byte, and four bytes of length ([MS-DTYP] 2.4.4.17.4).
pub(crate) const LENGTH_BYTES: usize = 5;

/// A literal value ([MS-DTYP] 2.4.4.17.5).
#[derive(Debug, Drop)]
pub enum Value {
    Integer(Integer),
    Text(Utf16),
    Octets(Octets),
    Sid(Sid),
}

/// The length of the content of the token at the front of the bytes, if it doesn't pass their end.
#[tactic(auto, unfolding(crate::specs::Reading::content_len))]
pub(crate) fn read_content_len(bytes: &[u8]) -> Result<usize, Refusal>
    ensures read { Gives result (content_len bytes.now) }
    ensures within { IfOk result (λ n. 5 + n ≤ length bytes.now) }
{
    if bytes.len() < LENGTH_BYTES {
        return Err(Refusal::Malformed);
    }
    let len = read_u32(bytes, 1) as usize;
    if bytes.len() < LENGTH_BYTES + len {
        return Err(Refusal::Malformed);
    }
    Ok(len)
}

/// The value at the front of the bytes, and how many it takes.
#[tactic(auto, unfolding(crate::specs::Reading::value_read))]
pub(crate) fn read_value(alloc: Global, bytes: &[u8]) -> Result<(Value, usize), Refusal>
    requires { 0 < length bytes.now }
    ensures read { Gives result (value_read bytes.now) }
    ensures size { IfOk result (λ x. (0 < x.1) × (x.1 ≤ length bytes.now)) }
{
    if bytes[0] <= Width::Int64.byte() {
        let integer = read_integer(bytes)?;
        return Ok((Value::Integer(integer), INTEGER_BYTES));
    }
    let len = read_content_len(bytes)?;
    let content = &bytes[LENGTH_BYTES..LENGTH_BYTES + len];
    let value = read_literal(alloc, bytes[0], content)?;
    Ok((value, LENGTH_BYTES + len))
}

/// The value of a token's byte and content.
#[tactic(auto, unfolding(crate::specs::Reading::literal_read))]
fn read_literal(alloc: Global, byte: u8, content: &[u8]) -> Result<Value, Refusal>
    ensures { Gives result (literal_read byte content.now) }
{
    match byte {
        TEXT => {
            let text = read_text(alloc, content)?;
            Ok(Value::Text(text))
        }
        OCTETS => {
            let octets = read_octets(alloc, content)?;
            Ok(Value::Octets(octets))
        }
        SID => {
            let sid = read_whole_sid(content)?;
            Ok(Value::Sid(sid))
        }
        _ => Err(Refusal::Malformed),
    }
}

/// The SID in the bytes, which takes them all.
fn read_whole_sid(bytes: &[u8]) -> Result<Sid, Refusal>
    ensures { Gives result (sid_read bytes.now) }
{
    match read_sid(bytes) {
        Ok((sid, size)) => {
            if size != bytes.len() as u64 {
                return Err(Refusal::Malformed);
            }
            Ok(sid)
        }
        Err(_) => Err(Refusal::Malformed),
    }
}

/// How many bytes a value takes.
#[tactic(auto, unfolding(crate::specs::Writing::value_bytes))]
pub(crate) fn value_len(value: &Value) -> usize
    ensures exact { result ≡ length (value_bytes value.now) }
    ensures most { result < 2 ^ 63 + 5 }
{
    match value {
        Value::Integer(_) => INTEGER_BYTES,
        Value::Text(text) => LENGTH_BYTES + text_len(text),
        Value::Octets(octets) => LENGTH_BYTES + octets.octets().len(),
        Value::Sid(sid) => LENGTH_BYTES + sid_len(sid),
    }
}

/// How many bytes a SID takes.
#[tactic(auto, using(sd_sid::proofs::SidLaws::length_of_sid))]
fn sid_len(sid: &Sid) -> usize
    ensures exact { result ≡ length (bytes_of_sid sid.now) }
    ensures most { result ≤ 68 }
{
    SID_HEADER_BYTES + 4 * sid.subs().len()
}

/// Appends a token's byte, and the length of its content.
pub(crate) fn push_head(bytes: &mut Vec<u8>, byte: u8, len: usize) -> Result<(), AllocError>
    requires { len < 2 ^ 32 }
    ensures { OnOk result (bytes.new.items ≡ bytes.old.items ++ byte ∷ to_le_bytes w32 len) }
{
    bytes.push(byte)?;
    push_u32(bytes, len as u32)
}

/// Appends a value's token.
#[tactic(auto, unfolding(crate::specs::Writing::value_bytes))]
pub(crate) fn push_value(bytes: &mut Vec<u8>, value: &Value) -> Result<(), AllocError>
    requires { length (value_bytes value.now) ≤ 65535 }
    ensures { OnOk result (bytes.new.items ≡ bytes.old.items ++ value_bytes value.now) }
{
    match value {
        Value::Integer(integer) => push_integer(bytes, *integer),
        Value::Text(text) => {
            push_head(bytes, TEXT, text_len(text))?;
            push_text(bytes, text)
        }
        Value::Octets(octets) => {
            push_head(bytes, OCTETS, octets.octets().len())?;
            bytes.extend_from_slice(octets.octets())
        }
        Value::Sid(sid) => {
            push_head(bytes, SID, sid_len(sid))?;
            push_sid(bytes, sid)
        }
    }
}
