//! A line as an object of JSON.

ghost use Rattle.std.specs.Prelude.{◌≡◌, ◌++◌, ℕ, List, OnOk, codes, flat_map, map, string_bytes};
ghost use Rattle.sd_line.specs.Fields.{fields_in};
ghost use Rattle.sd_line.specs.Json.{json_string, named, strings, then_named};
ghost use Rattle.sd_line.specs.Printed.{field_member, line_members, line_text, list_member, member, part_members};
ghost use Rattle.sd_line.specs.Printed.{value_text};

use crate::fields::Fields;
use crate::line::{Line, Part, Value};
use crate::printer::Printer;
use crate::string::push_string;
use std::alloc::AllocError;

impl Printer {
    /// Adds the members of a line's object: its kind, and its values by their names; or where it has no kind its text.
    /// The only error is out of memory.
    pub(crate) fn push_members(&self, out: &mut Vec<u8>, line: &Line) -> Result<(), AllocError>
        ensures { OnOk result (out.new.items ≡ out.old.items ++ line_members self.now.spelling line.now) }
    {
        if line.kind().is_empty() {
            return self.push_text_member(out, line);
        }
        out.extend_from_slice(b"\"answer\":\"")?;
        out.extend_from_slice(line.kind().as_bytes())?;
        out.push(b'"')?;
        let (first, rest) = line.parts();
        if let Some(part) = first {
            self.push_part_members(out, part)?;
        }
        self.push_parts_members(out, rest)
    }

    fn push_text_member(&self, out: &mut Vec<u8>, line: &Line) -> Result<(), AllocError>
        ensures { OnOk result (out.new.items ≡ out.old.items
            ++ named (codes "text") (json_string (line_text self.now.spelling line.now))) }
    {
        let mut text = Vec::new(self.alloc);
        self.push_text(&mut text, line)?;
        out.extend_from_slice(b"\"text\":")?;
        push_string(out, &text)
    }

    fn push_parts_members(&self, out: &mut Vec<u8>, parts: &[Part]) -> Result<(), AllocError>
        ensures { OnOk result (out.new.items ≡ out.old.items
            ++ flat_map (part_members self.now.spelling) parts.now) }
    {
        for part in parts {
            self.push_part_members(out, part)?;
        }
        Ok(())
    }

    fn push_part_members(&self, out: &mut Vec<u8>, part: &Part) -> Result<(), AllocError>
        ensures { OnOk result (out.new.items ≡ out.old.items ++ part_members self.now.spelling part.now) }
    {
        let (_, fields) = Fields::of(part);
        self.push_fields_members(out, fields)
    }

    /// Adds the values in turn, each by its name.
    fn push_fields_members(&self, out: &mut Vec<u8>, fields: Fields<'_>) -> Result<(), AllocError>
        ensures { OnOk result (out.new.items ≡ out.old.items
            ++ flat_map (field_member self.now.spelling) (fields_in fields.entry)) }
    {
        let Some((field, fields)) = fields.first() else {
            return Ok(());
        };
        self.push_member(out, field.name, field.value)?;
        self.push_fields_members(out, fields)
    }

    /// Adds a value by this name.
    fn push_member(&self, out: &mut Vec<u8>, name: &[u8], value: &Value) -> Result<(), AllocError>
        ensures { OnOk result (out.new.items ≡ out.old.items ++ member self.now.spelling name.now value.now) }
    {
        match value {
            Value::Number(_) => {
                let text = self.value_text(value)?;
                push_name(out, name)?;
                out.extend_from_slice(text.as_bytes())
            }
            Value::Sids(sids) => push_list(out, name, &self.sid_texts(sids.as_slice())?),
            Value::Words(words) => push_list(out, name, &self.word_texts(words.as_slice())?),
            _ => self.push_text_value(out, name, value),
        }
    }

    fn push_text_value(
        &self,
        out: &mut Vec<u8>,
        name: &[u8],
        value: &Value,
    ) -> Result<(), AllocError>
        ensures { OnOk result (out.new.items ≡ out.old.items
            ++ then_named name.now (json_string (value_text self.now.spelling value.now))) }
    {
        let text = self.value_text(value)?;
        push_name(out, name)?;
        push_string(out, text.as_bytes())
    }
}

/// Adds an array of strings by this name, where there are some.
fn push_list(out: &mut Vec<u8>, name: &[u8], texts: &[String]) -> Result<(), AllocError>
    ensures { OnOk result (out.new.items ≡ out.old.items ++ list_member name.now (map string_bytes texts.now)) }
{
    if texts.is_empty() {
        return Ok(());
    }
    push_name(out, name)?;
    out.push(b'[')?;
    push_strings(out, texts)?;
    out.push(b']')?;
    Ok(())
}

/// Adds strings, parted by commas.
fn push_strings(out: &mut Vec<u8>, texts: &[String]) -> Result<(), AllocError>
    ensures { OnOk result (out.new.items ≡ out.old.items ++ strings (map string_bytes texts.now)) }
{
    match texts {
        [] => Ok(()),
        [last] => push_string(out, last.as_bytes()),
        [text, texts @ ..] => {
            push_string(out, text.as_bytes())?;
            out.push(b',')?;
            push_strings(out, texts)
        }
    }
}

/// A comma, and the name of a member with its colon.
fn push_name(out: &mut Vec<u8>, name: &[u8]) -> Result<(), AllocError>
    ensures { (value : List ℕ) → OnOk result (out.new.items ++ value ≡ out.old.items ++ then_named name.now value) }
{
    out.extend_from_slice(b",\"")?;
    out.extend_from_slice(name)?;
    out.extend_from_slice(b"\":")
}
