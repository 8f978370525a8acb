//! Reading a line: what it asks for.
ghost use Rattle.sd_script.specs.Command.{line_asks};
ghost use Rattle.sd_script.specs.Fault.{UnlessMemory};

use crate::argument::Parser;
use crate::command::command_of;
use crate::fault::{LineFault, LineStop};
use crate::line_request::LineRequest;
use crate::lines::words_of;
use crate::script_options::Notation;
use std::alloc::Global;
use std::str::from_utf8;

/// What a line that isn't silent asks for, in this notation, where a store is open or none is; or its first fault.
pub fn read_line(
    alloc: Global,
    notation: Notation,
    is_open: bool,
    line: &[u8],
) -> Result<LineRequest, LineStop>
    ensures { UnlessMemory (line_asks notation is_open line.now) result }
{
    let Ok(text) = from_utf8(line) else {
        return Err(LineStop::Fault(LineFault::Utf8));
    };
    let words = words_of(alloc, text)?;
    let Some(command) = command_of(&words) else {
        return Err(LineStop::Fault(LineFault::Words));
    };
    let Some(asked) = Parser { alloc, notation }.asked(command).transpose() else {
        return Err(LineStop::Fault(LineFault::Words));
    };
    if command.name.is_untimely(is_open) {
        return Err(LineStop::Fault(LineFault::Open));
    }
    asked
}
