//! A command line whose object types have names: GUIDs in the place of the names that a schema file gives.
ghost use Rattle.std.specs.Prelude.{◌≡◌, ◌≢◌, ◌≤◌, ℕ, List, IfErr, IfOk, Ok, length, map, string_bytes};
ghost use Rattle.sd_lines.specs.Streams.{AppendsBeginning};
ghost use Rattle.sd_lines.specs.Watched.{inner_of};
ghost use Rattle.sd_commands.specs.Answer.{answer_of};
ghost use Rattle.sd_schema.specs.Kept.{rows_of};
ghost use Rattle.sd_schema.specs.Row.{rows_in};
ghost use Rattle.sd_command_line.specs.ByName.{AppendsFault, IsFaultAlone};
ghost use Rattle.sd_command_line.specs.Types.{AreWithGuids, IsSchemaFault, IsTypesFault, tree_place};

use crate::driven_by_names::{failed, print_fault};
use crate::names::{asked_options, request_in};
use sd_arguments::{TextRequest, read_command_line};
use sd_commands::{Answer, escaped_word, fault, told_line};
use sd_lines::{RunError, Watched};
use sd_schema::{Schema, SchemaError, SchemaFault, TypeNameFault, WordError};
use sd_usage::TextCommand;
use std::alloc::{AllocError, Global};
use std::io::Write;

/// Why words that name object types aren't those of GUIDs.
#[derive(Clone, Copy, Debug, PartialEq, Eq)]
pub enum TypesFault {
    /// The line of this number of the schema file, counted from 1, is the first that is no row.
    Row { line: u64, kind: SchemaFault },
    /// The word at this place, a value of `--type`, names no object type, or two.
    Type { place: usize, fault: TypeNameFault },
    /// The node of TREE at this place, counted from 0, names none, or two.
    Node { place: usize, fault: TypeNameFault },
    /// Out of memory.
    Memory,
}

/// The words, of which the first is the program's name, with GUIDs ([MS-DTYP] 2.3.4.3) in the place of names of object
/// types, which the text of a schema file gives: the values of `--type` and the types of TREE. The errors are the first
/// line that is no row, a name of no object type or of two, and out of memory.
pub fn with_guids(alloc: Global, words: &[&str], text: &[u8]) -> Result<Vec<String>, TypesFault>
    ensures words { IfOk result (λ own. AreWithGuids text.now words.now (map string_bytes own.items)) }
    ensures none { IfErr result (IsTypesFault text.now words.now) }
{
    let schema = schema_in(alloc, text)?;
    match schema.with_guids(alloc, words, tree_place(words)) {
        Ok(own) => Ok(own),
        Err(WordError::Type { place, fault }) => Err(TypesFault::Type { place, fault }),
        Err(WordError::Node { place, fault }) => Err(TypesFault::Node { place, fault }),
        Err(WordError::Memory) => Err(TypesFault::Memory),
    }
}

/// The schema that the text of a file is.
fn schema_in(alloc: Global, text: &[u8]) -> Result<Schema, TypesFault>
    ensures schema { IfOk result (λ schema. rows_in text.now ≡ Ok (rows_of schema)) }
    ensures none { IfErr result (IsSchemaFault text.now) }
{
    match Schema::read(alloc, text) {
        Ok(schema) => Ok(schema),
        Err(SchemaError::Fault { line, kind }) => Err(TypesFault::Row { line, kind }),
        Err(SchemaError::Memory) => Err(TypesFault::Memory),
    }
}

/// The place of TREE among the words, or the end.
fn tree_place(words: &[&str]) -> usize
    ensures place { result ≡ tree_place words.now }
    ensures within { result ≤ length words.now }
{
    let asked = match read_command_line(words) {
        Ok(line) => request_in(line),
        Err(_) => None,
    };
    match asked {
        Some(
            (
                _,
                TextRequest {
                    question: TextCommand::Types,
                    arguments,
                },
            ),
        ) => { words.len().saturating_sub(arguments.len()) }
        _ => words.len(),
    }
}

/// Prints why words that name object types aren't those of GUIDs, and tells standard error; the status is that of a
/// fault.
pub fn tell_types_fault<W: Write, E: Write>(
    alloc: Global,
    words: &[&str],
    types_fault: TypesFault,
    writer: &mut Watched<W>,
    errors: &mut Watched<E>,
) -> u8
    ensures within { result ≤ 4 }
    ensures fault { result ≢ 3 → AppendsFault (W.contents (inner_of writer.old)) (W.contents (inner_of writer.new))
        result × ((told : List ℕ)
        × AppendsBeginning (E.contents (inner_of errors.old)) (E.contents (inner_of errors.new)) told) }
{
    match types_answer(alloc, words, types_fault) {
        Ok(answer) => print_fault(alloc, asked_options(words), answer, writer, errors),
        Err(_) => failed(errors, RunError::Memory),
    }
}

/// The answer that is this fault.
fn types_answer(
    alloc: Global,
    words: &[&str],
    types_fault: TypesFault,
) -> Result<Answer, AllocError>
    ensures { IfOk result (λ answer. IsFaultAlone (answer_of answer)) }
{
    match types_fault {
        TypesFault::Row { line, kind } => {
            let reason = row_reason(kind);
            let reason = format!(in alloc; "line {line}: {reason}")?;
            fault(
                alloc,
                "schema",
                told_line(alloc, "--schema", reason.as_str())?,
            )
        }
        TypesFault::Type {
            place,
            fault: name_fault,
        } => {
            let word = words.get(place).copied().unwrap_or("");
            let reason = type_reason(alloc, word, name_fault)?;
            fault(alloc, "type", told_line(alloc, "--type", reason.as_str())?)
        }
        TypesFault::Node {
            place,
            fault: name_fault,
        } => {
            let number = (place as u64).saturating_add(1);
            let reason = name_reason(name_fault);
            let reason = format!(in alloc; "node {number}: {reason}")?;
            fault(alloc, "type", told_line(alloc, "TREE", reason.as_str())?)
        }
        TypesFault::Memory => Err(AllocError),
    }
}

/// Why a value of `--type` names no object type, and which value.
fn type_reason(alloc: Global, word: &str, name_fault: TypeNameFault) -> Result<String, AllocError> {
    let shown = escaped_word(alloc, word)?;
    let shown = shown.as_str();
    let reason = name_reason(name_fault);
    let reason = format!(in alloc; "\"{shown}\": {reason}")?;
    Ok(reason)
}

/// Why a line is no row, by number and name, and what mends it.
fn row_reason(kind: SchemaFault) -> &'static str {
    match kind {
        SchemaFault::Keyword => "1 Keyword: a line begins with class, attribute, set, right or #",
        SchemaFault::Guid =>
            "2 Guid: a GUID is missing, or not as bf9679c0-0de6-11d0-a285-00aa003049e2",
        SchemaFault::Name => "3 Name: a name is missing after the GUID, or has a control character",
        SchemaFault::Utf8 => "4 Utf8: the line isn't UTF-8",
    }
}

/// Why a text names no object type, by number and name, and what mends it.
fn name_reason(name_fault: TypeNameFault) -> &'static str {
    match name_fault {
        TypeNameFault::Unknown => "1 Unknown: neither a GUID nor a name in the schema file",
        TypeNameFault::Ambiguous =>
            "2 Ambiguous: the schema file gives this name to two GUIDs: give the GUID",
    }
}
