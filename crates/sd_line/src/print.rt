//! Answers as they are printed: each line a text, or an object of JSON (JSON Lines).

ghost use Rattle.std.specs.Prelude.{◌≡◌, ◌++◌, IfOk, OnOk, codes, string_bytes};
ghost use Rattle.sd_line.specs.Json.{json_string};
ghost use Rattle.sd_line.specs.Printed.{head_text, object, printed, printed_line, tag_members, tag_of, value_text};

use crate::line::{Line, Value};
use crate::printer::Printer;
use crate::spelling::Spelling;
use crate::string::push_string;
use std::alloc::{AllocError, Global};

/// What each line of an answer begins with.
#[derive(Clone, Copy)]
pub enum Tag<'a> {
    /// Nothing.
    None,
    /// A key, and a tab.
    Key(&'a [u8]),
    /// An id, and a space.
    Id(&'a [u8]),
}

/// What each line of an answer is printed as.
#[derive(Clone, Copy, Debug, PartialEq, Eq)]
pub enum Output {
    /// A text.
    Text,
    /// A text in which a verdict's word has a colour on a terminal: `granted` is green, and `denied` red.
    Coloured,
    /// An object of JSON.
    Json,
}

/// How an answer is printed.
#[derive(Clone, Copy, Debug, PartialEq, Eq)]
pub struct Style {
    /// How masks are spelled.
    pub spelling: Spelling,
    /// What each line is printed as.
    pub output: Output,
}

/// The text of a value alone. The only error is out of memory.
pub fn value_text(alloc: Global, spelling: Spelling, value: &Value) -> Result<String, AllocError>
    ensures { IfOk result (λ text. string_bytes text ≡ value_text spelling value.now) }
{
    let printer = Printer { alloc, spelling };
    printer.value_text(value)
}

/// Adds lines as they are printed, each after a tag. The only error is out of memory.
pub fn push_printed(
    alloc: Global,
    out: &mut Vec<u8>,
    style: Style,
    tag: Tag<'_>,
    lines: &[Line],
) -> Result<(), AllocError>
    ensures { OnOk result (out.new.items ≡ out.old.items ++ printed style (tag_of tag.entry) lines.now) }
{
    for line in lines {
        push_printed_line(alloc, out, style, tag, line)?;
    }
    Ok(())
}

/// Adds a line as it is printed, after a tag. The only error is out of memory.
pub fn push_printed_line(
    alloc: Global,
    out: &mut Vec<u8>,
    style: Style,
    tag: Tag<'_>,
    line: &Line,
) -> Result<(), AllocError>
    ensures { OnOk result (out.new.items ≡ out.old.items ++ printed_line style (tag_of tag.entry) line.now) }
{
    let printer = Printer {
        alloc,
        spelling: style.spelling,
    };
    match style.output {
        Output::Text => {
            push_head(out, tag)?;
            printer.push_text(out, line)?;
        }
        Output::Coloured => {
            push_head(out, tag)?;
            printer.push_coloured(out, line)?;
        }
        Output::Json => printer.push_object(out, tag, line)?,
    }
    out.push(b'\n')?;
    Ok(())
}

/// Adds the tag of a text.
fn push_head(out: &mut Vec<u8>, tag: Tag<'_>) -> Result<(), AllocError>
    ensures { OnOk result (out.new.items ≡ out.old.items ++ head_text (tag_of tag.entry)) }
{
    match tag {
        Tag::None => Ok(()),
        Tag::Key(key) => {
            out.extend_from_slice(key)?;
            out.push(b'\t')?;
            Ok(())
        }
        Tag::Id(id) => {
            out.extend_from_slice(id)?;
            out.push(b' ')?;
            Ok(())
        }
    }
}

/// Adds the tag of an object, its first member.
fn push_tag(out: &mut Vec<u8>, tag: Tag<'_>) -> Result<(), AllocError>
    ensures { OnOk result (out.new.items ≡ out.old.items ++ tag_members (tag_of tag.entry)) }
{
    match tag {
        Tag::None => Ok(()),
        Tag::Key(key) => push_tag_member(out, b"\"key\":", key),
        Tag::Id(id) => push_tag_member(out, b"\"id\":", id),
    }
}

fn push_tag_member(out: &mut Vec<u8>, name: &[u8], tag: &[u8]) -> Result<(), AllocError>
    ensures { OnOk result (out.new.items ≡ out.old.items ++ name.now ++ json_string tag.now ++ codes ",") }
{
    out.extend_from_slice(name)?;
    push_string(out, tag)?;
    out.push(b',')?;
    Ok(())
}

impl Printer {
    fn push_object(&self, out: &mut Vec<u8>, tag: Tag<'_>, line: &Line) -> Result<(), AllocError>
        ensures { OnOk result (out.new.items ≡ out.old.items ++ object self.now.spelling (tag_of tag.entry) line.now) }
    {
        out.push(b'{')?;
        push_tag(out, tag)?;
        self.push_members(out, line)?;
        out.push(b'}')?;
        Ok(())
    }
}
