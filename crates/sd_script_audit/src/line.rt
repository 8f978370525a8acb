//! What a line of an audit asks for.

ghost use Rattle.std.specs.Prelude.{◌≡◌, ◌∷◌, [], IfErr, IfOk, IfSome, codes};
ghost use Rattle.sd_answer.specs.VerdictLines.{fault_line};
ghost use Rattle.sd_script.specs.Fault.{line_of_fault};
ghost use Rattle.sd_script_audit.specs.Audit.{AsksInAudit, IsToldInAudit};

use sd_answer::fault_line;
use sd_line::Line;
use sd_script::{
    LineFault, LineRequest, LineStop, Notation, alone, expects, is_silent, line_of_fault, read_line,
};
use std::alloc::{AllocError, Global};

/// What a line asks for, or else its answer: none if it is silent, and a fault if it expects an answer, which scripts
/// alone do, or has one. Without an answer it is out of memory.
pub(crate) fn asked_or_told(
    alloc: Global,
    notation: Notation,
    is_open: bool,
    line: &[u8],
) -> Result<LineRequest, Option<Vec<Line>>>
    ensures asks { IfOk result (λ asked. AsksInAudit notation is_open line.now asked) }
    ensures told { IfErr result (λ told. IfSome told
        (λ lines. IsToldInAudit notation is_open line.now lines.items)) }
{
    if is_silent(line) {
        return Err(Some(Vec::new(alloc)));
    }
    if expects(line) {
        return Err(only_in_scripts(alloc).ok());
    }
    match read_line(alloc, notation, is_open, line) {
        Ok(asked) => Ok(asked),
        Err(LineStop::Fault(fault)) => Err(told_fault(alloc, fault).ok()),
        Err(LineStop::Memory) => Err(None),
    }
}

/// The answer to a command that only a script carries out.
pub(crate) fn only_in_scripts(alloc: Global) -> Result<Vec<Line>, AllocError>
    ensures { IfOk result (λ lines. lines.items ≡ fault_line (codes "audit") ∷ []) }
{
    alone(alloc, fault_line(alloc, "audit")?)
}

/// The answer to a line with a fault.
fn told_fault(alloc: Global, fault: LineFault) -> Result<Vec<Line>, AllocError>
    ensures { IfOk result (λ lines. lines.items ≡ line_of_fault fault ∷ []) }
{
    alone(alloc, line_of_fault(alloc, fault)?)
}
