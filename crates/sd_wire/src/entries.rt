//! The entries of a list, one after another, of any type that can be in one.

ghost use Rattle.std.specs.Prelude.{◌≡◌, ◌/◌, ◌<◌, ◌≤◌, ℕ, List, Result, min, length, sum_by, vec_capacity};
ghost use Rattle.std.specs.Prelude.{IfOk, IsErrOf};
ghost use Rattle.sd_wire.specs.Reading.{Gives, entries_of};
ghost use Rattle.sd_wire.specs.declared.fault.WireFault.{WireFault};

use crate::fault::WireError;
use std::alloc::Global;

/// A type of entries that a list can have ([MS-DTYP] 2.4.4).
pub trait ListEntry: Sized + Drop {
    /// How an entry is read at the front of bytes, with its AceSize.
    ghost reading: { List ℕ → Result (Self × ℕ) WireFault };

    /// The bytes that it takes.
    ghost taken: { Self → ℕ };

    /// The fewest bytes that one takes.
    ghost least: { ℕ };

    /// Parses the entry at the front of the bytes, and returns it with its AceSize, or the first test that it fails
    /// ([MS-DTYP] 2.4.4).
    fn read(alloc: Global, bytes: &[u8]) -> Result<(Self, usize), WireError>
        ensures read { Gives (λ x. x) result (reading bytes.now) }
        ensures size { IfOk result (λ x. (least ≤ taken x.0) × (taken x.0 ≤ x.1) × (x.1 ≤ length bytes.now)) }
        ensures memory { IsErrOf result WireError.Memory → least ≤ length bytes.now };
}

/// Parses so many entries at the front of the bytes ([MS-DTYP] 2.4.5). There is one allocation for the list, of no more
/// entries than can fit, each of at least `least` bytes.
pub fn read_entries<E: ListEntry>(
    alloc: Global,
    bytes: &[u8],
    count: usize,
    least: usize,
) -> Result<Vec<E>, WireError>
    requires some { 0 < least }
    requires least { least ≡ E.least }
    ensures read { Gives (λ entries. entries.items) result (entries_of E.reading bytes.now count) }
    ensures size { IfOk result (λ entries. sum_by E.taken entries.items ≤ length bytes.now) }
    ensures capacity { IfOk result (λ entries. vec_capacity entries ≡ min count (length bytes.now / least)) }
    ensures memory { IsErrOf result WireError.Memory → (0 < count) × (least ≤ length bytes.now) }
{
    let room = bytes.len() / least;
    let mut entries = Vec::with_capacity(alloc, count.min(room))?;
    let mut rest = bytes;
    for _ in 0..count {
        let (entry, size) = E::read(alloc, rest)?;
        // A parsed entry has at least so many bytes, so the allocated capacity suffices.
        entries.push_reserved(entry);
        rest = &rest[size..];
    }
    Ok(entries)
}
