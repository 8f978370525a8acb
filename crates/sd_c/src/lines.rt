//! The calls over the lines of an answer, which a handle keeps.

ghost use Rattle.std.specs.Prelude.{◌≡◌, [], IfErr, IfOk, Some};
ghost use Rattle.sd_c.specs.Kept.{Stays, lines_in};
ghost use Rattle.sd_c.specs.Lines.{AreKept, IsLacking, LacksIn, PrintsLine, ReturnsValue, TellsCount, count_in};
ghost use Rattle.sd_c.specs.Lines.{kind_at, line_printed, line_value, mark_number, marked_parts, no_value, one_value};
ghost use Rattle.sd_c.specs.Lines.{parts, printed_in, value_at, value_in, word_parts};

use crate::call_answer::{Written, length_told, write};
use crate::entries::{NoPart, no_part};
use crate::handle::{Handle, Kept};
use sd_line::{Line, Output, SidMark, Spelling, Style, Tag, Value, push_printed_line, value_text};
use sd_sid::{Sid, sid_bytes};
use std::alloc::{AllocError, Global};
use std::marker::Model;

/// The kinds of values.
const MASK: u32 = 1;

const NUMBER: u32 = 2;

const SID: u32 = 3;

const TEXT: u32 = 4;

/// The answer of `hudarin_line_value`: all but `written` is 0 where there is no value.
#[repr(C)]
#[derive(Clone, Copy, Debug, PartialEq, Eq)]
pub struct ValueAnswer {
    pub written: Written,
    /// 1 for a mask, 2 for a number, 3 for a SID, 4 for a text.
    pub kind: u32,
    /// The mask or the number; of a SID 1 where it is a group for denies alone, 2 where it restricts.
    pub number: u64,
}

/// A value of a line, as C has it. Contracts see its bytes as a list.
#[derive(Drop)]
pub(crate) struct ValueParts {
    kind: u32,
    number: u64,
    bytes: Vec<u8>,
}

impl Model for ValueParts {
    ghost use Rattle.sd_c.specs.Lines.{ValueOf, parts};

    ghost Value = { ValueOf };

    ghost view = { λ p. parts p.kind p.number p.bytes.items };
}

/// The lines, for one handle.
pub(crate) fn kept_lines(alloc: Global, lines: Vec<Line>) -> Result<Box<Kept>, AllocError>
    ensures { IfOk result (λ kept. lines_in kept.value ≡ Some lines.items) }
{
    Ok(Box::new(alloc, Kept::Lines(lines))?)
}

/// The number of lines that a handle keeps. Refused if it keeps none. Takes no memory.
#[unsafe(no_mangle)]
pub extern "C" fn hudarin_lines_count(alloc: Global, lines: &mut Handle) -> Written
    ensures count { TellsCount lines.old result }
    ensures lines { Stays lines.old lines.new }
{
    let Some(kept) = lines.take(alloc) else {
        return no_part(NoPart::Handle);
    };
    let answer = count_in(&kept);
    lines.put(kept);
    answer
}

fn count_in(kept: &Kept) -> Written
    ensures { result ≡ count_in kept.now }
{
    match kept {
        Kept::Lines(lines) => length_told(lines.len() as u64),
        _ => no_part(NoPart::Handle),
    }
}

/// Writes the line at the index, from 0, with its end into the buffer: as a text, or as an object of JSON if `is_json`
/// isn't 0. Refused if the handle keeps no lines, after the last one, or out of memory; then, and if the buffer is too
/// small, nothing is written.
#[unsafe(no_mangle)]
pub extern "C" fn hudarin_line_print(
    alloc: Global,
    lines: &mut Handle,
    index: u64,
    is_json: u32,
    room: &mut [u8],
) -> Written
    ensures answer { PrintsLine index is_json lines.old room.old room.new result }
    ensures lines { Stays lines.old lines.new }
{
    let Some(kept) = lines.take(alloc) else {
        return no_part(NoPart::Handle);
    };
    let answer = match printed_in(alloc, &kept, index, is_json) {
        Ok(bytes) => write(&bytes, room),
        Err(why) => no_part(why),
    };
    lines.put(kept);
    answer
}

fn printed_in(alloc: Global, kept: &Kept, index: u64, is_json: u32) -> Result<Vec<u8>, NoPart>
    ensures ok { IfOk result (λ bytes. AreKept (λ ls. printed_in index is_json ls ≡ Some bytes.items) kept.now) }
    ensures err { IfErr result (λ why. LacksIn (printed_in index is_json) kept.now why) }
{
    let Kept::Lines(lines) = kept else {
        return Err(NoPart::Handle);
    };
    match lines.get(index as usize) {
        Some(line) => Ok(line_printed(alloc, line, is_json)?),
        None => Err(NoPart::Absent),
    }
}

fn line_printed(alloc: Global, line: &Line, is_json: u32) -> Result<Vec<u8>, AllocError>
    ensures { IfOk result (λ bytes. bytes.items ≡ line_printed is_json line.now) }
{
    let style = Style {
        spelling: Spelling::Number,
        output: if is_json == 0 {
            Output::Text
        } else {
            Output::Json
        },
    };
    let mut bytes = Vec::new(alloc);
    push_printed_line(alloc, &mut bytes, style, Tag::None, line)?;
    Ok(bytes)
}

/// The value of a name, as JSON has it, in the line at the index, from 0; the line's kind is `answer`. Of SIDs and of
/// words it is the one at the place, from 0; of all else the place is 0. The bytes of a SID ([MS-DTYP] 2.4.2.2) or of
/// a text are written into the buffer. Refused if the handle keeps no lines, if there is no such value, or out of
/// memory; then, and if the buffer is too small, nothing is written.
#[unsafe(no_mangle)]
pub extern "C" fn hudarin_line_value(
    alloc: Global,
    lines: &mut Handle,
    index: u64,
    name: &[u8],
    place: u64,
    room: &mut [u8],
) -> ValueAnswer
    ensures answer { ReturnsValue index name.now place lines.old room.old room.new result }
    ensures lines { Stays lines.old lines.new }
{
    let Some(kept) = lines.take(alloc) else {
        return no_value(NoPart::Handle);
    };
    let answer = match value_in(alloc, &kept, index, name, place) {
        Ok(found) => ValueAnswer {
            written: write(&found.bytes, room),
            kind: found.kind,
            number: found.number,
        },
        Err(why) => no_value(why),
    };
    lines.put(kept);
    answer
}

fn no_value(why: NoPart) -> ValueAnswer
    ensures { result ≡ no_value why }
{
    ValueAnswer {
        written: no_part(why),
        kind: 0,
        number: 0,
    }
}

fn value_in(
    alloc: Global,
    kept: &Kept,
    index: u64,
    name: &[u8],
    place: u64,
) -> Result<ValueParts, NoPart>
    ensures ok { IfOk result (λ found. AreKept (λ ls. value_in index name.now place ls ≡ Some found) kept.now) }
    ensures err { IfErr result (λ why. LacksIn (value_in index name.now place) kept.now why) }
{
    let Kept::Lines(lines) = kept else {
        return Err(NoPart::Handle);
    };
    match lines.get(index as usize) {
        Some(line) => line_value(alloc, line, name, place),
        None => Err(NoPart::Absent),
    }
}

fn line_value(alloc: Global, line: &Line, name: &[u8], place: u64) -> Result<ValueParts, NoPart>
    ensures ok { IfOk result (λ found. line_value name.now place line.now ≡ Some found) }
    ensures err { IfErr result (IsLacking (line_value name.now place line.now)) }
{
    if name == "answer".as_bytes() {
        return kind_at(alloc, line, place);
    }
    match line.value(name) {
        Some(value) => value_at(alloc, value, place),
        None => Err(NoPart::Absent),
    }
}

fn kind_at(alloc: Global, line: &Line, place: u64) -> Result<ValueParts, NoPart>
    ensures ok { IfOk result (λ found. kind_at place line.now ≡ Some found) }
    ensures err { IfErr result (IsLacking (kind_at place line.now)) }
{
    if place == 0 {
        Ok(word_parts(alloc, line.kind())?)
    } else {
        Err(NoPart::Absent)
    }
}

fn value_at(alloc: Global, value: &Value, place: u64) -> Result<ValueParts, NoPart>
    ensures ok { IfOk result (λ found. value_at place value.now ≡ Some found) }
    ensures err { IfErr result (IsLacking (value_at place value.now)) }
{
    match value {
        Value::Sids(sids) => match sids.as_slice().get(place as usize) {
            Some(one) => Ok(marked_parts(alloc, one)?),
            None => Err(NoPart::Absent),
        },
        Value::Words(words) => match words.as_slice().get(place as usize) {
            Some(word) => Ok(word_parts(alloc, word.as_str())?),
            None => Err(NoPart::Absent),
        },
        _ if place == 0 => Ok(one_value(alloc, value)?),
        _ => Err(NoPart::Absent),
    }
}

fn marked_parts(alloc: Global, one: &(Sid, SidMark)) -> Result<ValueParts, AllocError>
    ensures { IfOk result (λ found. found ≡ marked_parts one.now) }
{
    Ok(ValueParts {
        kind: SID,
        number: mark_number(one.1),
        bytes: sid_bytes(alloc, &one.0)?,
    })
}

fn mark_number(mark: SidMark) -> u64
    ensures { result ≡ mark_number mark }
{
    match mark {
        SidMark::Plain => 0,
        SidMark::Deny => 1,
        SidMark::Restrict => 2,
    }
}

fn word_parts(alloc: Global, word: &str) -> Result<ValueParts, AllocError>
    ensures { IfOk result (λ found. found ≡ word_parts word.now) }
{
    let mut bytes = Vec::new(alloc);
    bytes.extend_from_slice(word.as_bytes())?;
    Ok(ValueParts {
        kind: TEXT,
        number: 0,
        bytes,
    })
}

/// A value that is one, and not several.
fn one_value(alloc: Global, value: &Value) -> Result<ValueParts, AllocError>
    ensures { IfOk result (λ found. found ≡ one_value value.now) }
{
    match value {
        Value::Mask(mask) => Ok(number_parts(alloc, MASK, u64::from(mask.bits()))),
        Value::Number(number) => Ok(number_parts(alloc, NUMBER, *number)),
        Value::Sid(sid) => Ok(ValueParts {
            kind: SID,
            number: 0,
            bytes: sid_bytes(alloc, sid)?,
        }),
        _ => word_parts(alloc, value_text(alloc, Spelling::Number, value)?.as_str()),
    }
}

fn number_parts(alloc: Global, kind: u32, number: u64) -> ValueParts
    ensures { result ≡ parts kind number [] }
{
    ValueParts {
        kind,
        number,
        bytes: Vec::new(alloc),
    }
}
