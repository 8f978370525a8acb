//! The lines of verdicts and of invalid arguments.
ghost use Rattle.std.specs.Prelude.{◌≡◌, IfOk};
ghost use Rattle.sd_answer.specs.VerdictLines.{entry_fault_line, fault_line, sddl_fault_line, verdict_line};

use crate::forms::{DENIED, EMPTY, FAULT, FAULT_AT, FAULT_ENTRY, GRANTED, RESERVED};
use sd_check::Verdict;
use sd_line::{Line, Value};
use sd_text::TextFault;
use std::alloc::{AllocError, Global};

/// The line of a verdict ([MS-DTYP] 2.5.3.2): as `granted 0x1`, `denied 0x2`, `reserved 0x200000` or `empty`.
pub fn verdict_line(alloc: Global, verdict: Verdict) -> Result<Line, AllocError>
    ensures { IfOk result (λ line. line ≡ verdict_line verdict) }
{
    let (form, mask) = match verdict {
        Verdict::Granted(mask) => (GRANTED, mask),
        Verdict::Denied { missing } => (DENIED, missing),
        Verdict::Reserved(mask) => (RESERVED, mask),
        Verdict::EmptyRequest => return Line::new(alloc, EMPTY, Vec::new(alloc)),
    };
    Line::new(alloc, form, vec![in alloc; Value::Mask(mask)]?)
}

/// The line of an invalid argument: what it should have been, as `fault sid`.
pub fn fault_line(alloc: Global, what: &str) -> Result<Line, AllocError>
    ensures { IfOk result (λ line. line ≡ fault_line what.now) }
{
    let what = Value::word(alloc, what)?;
    Line::new(alloc, FAULT, vec![in alloc; what]?)
}

/// The line of a descriptor's text with a fault: its number, its name and its offset in bytes, as
/// `fault sddl 6 DomainAlias at 2`.
pub fn sddl_fault_line(alloc: Global, fault: TextFault, place: u64) -> Result<Line, AllocError>
    ensures { IfOk result (λ line. line ≡ sddl_fault_line fault place) }
{
    let of = Value::word(alloc, "sddl")?;
    let number = Value::Number(fault.number() as u64);
    let name = Value::word(alloc, fault.name())?;
    let at = Value::Number(place);
    Line::new(alloc, FAULT_AT, vec![in alloc; of, number, name, at]?)
}

/// The line of a descriptor's entry that a question doesn't take: its number, from 1 on, and what it is, as
/// `fault entry 3 ConditionalAce`.
pub fn entry_fault_line(alloc: Global, entry: u64, name: &str) -> Result<Line, AllocError>
    ensures { IfOk result (λ line. line ≡ entry_fault_line entry name.now) }
{
    let of = Value::word(alloc, "entry")?;
    let entry = Value::Number(entry);
    let name = Value::word(alloc, name)?;
    Line::new(alloc, FAULT_ENTRY, vec![in alloc; of, entry, name]?)
}
