//! What is wrong with a line.
ghost use Rattle.std.specs.Prelude.{◌≡◌, IfOk};
ghost use Rattle.sd_script.specs.Fault.{line_of_fault};
ghost use Rattle.sd_script.specs.declared.fault.LineStop.TheVariants as stops;

use sd_answer::{entry_fault_line, fault_line, sddl_fault_line};
use sd_line::Line;
use sd_text::TextFault;
use sd_whole::OddEntry;
use std::alloc::{AllocError, Global};

/// The first thing that is wrong with a line: of the line as a whole, and then of its arguments from the left.
#[derive(Clone, Copy, Debug, PartialEq, Eq)]
pub enum LineFault {
    /// The line isn't UTF-8.
    Utf8,
    /// There is no such command, it takes another number of words, or a word is empty.
    Words,
    /// No store is open; or one is, and the line would open one.
    Open,
    /// The word isn't a run of decimal digits with a value below 2^64.
    Number,
    /// The word isn't a path.
    Path,
    /// The word isn't the text of a SID.
    Sid,
    /// The word isn't the text of a descriptor.
    Sddl { fault: TextFault, place: u64 },
    /// An entry of the descriptor's DACL is no allow and no deny.
    Entry(OddEntry),
    /// The descriptor lacks an owner or a group, or has one where it may not.
    Parts,
    /// The word isn't a rights field.
    Mask,
    /// The word is no group and no privilege.
    Token,
}

/// Why a line isn't parsed.
#[derive(Clone, Copy, Debug, PartialEq, Eq)]
pub enum LineStop {
    /// The line's first fault.
    Fault(LineFault),
    /// Out of memory.
    Memory,
}

impl From<LineFault> for LineStop {
    ghost from_gives = { λ fault stop. stop ≡ stops.Fault fault };

    fn from(fault: LineFault) -> LineStop {
        LineStop::Fault(fault)
    }
}

impl From<AllocError> for LineStop {
    ghost from_gives = { λ _ stop. stop ≡ stops.Memory };

    fn from(_error: AllocError) -> LineStop {
        LineStop::Memory
    }
}

/// The line of the fault, as `fault words`. The only error is out of memory.
pub fn line_of_fault(alloc: Global, fault: LineFault) -> Result<Line, AllocError>
    ensures { IfOk result (λ line. line ≡ line_of_fault fault) }
{
    match fault {
        LineFault::Utf8 => fault_line(alloc, "utf8"),
        LineFault::Words => fault_line(alloc, "words"),
        LineFault::Open => fault_line(alloc, "open"),
        LineFault::Number => fault_line(alloc, "number"),
        LineFault::Path => fault_line(alloc, "path"),
        LineFault::Sid => fault_line(alloc, "sid"),
        LineFault::Sddl { fault, place } => sddl_fault_line(alloc, fault, place),
        LineFault::Entry(odd) => entry_fault_line(alloc, odd.entry as u64, odd.kind.name()),
        LineFault::Parts => fault_line(alloc, "parts"),
        LineFault::Mask => fault_line(alloc, "mask"),
        LineFault::Token => fault_line(alloc, "token"),
    }
}
