//! The order of a list: explicit entries before inherited ones, and denies before allows among the explicit.

ghost use Rattle.std.specs.Prelude.{◌≡◌, not, IfOk};
ghost use Rattle.sd_acl.specs.Canonical.{is_inherited, is_canonical, deny_behind_allow, explicit_behind_inherited};
ghost use Rattle.sd_acl.specs.Canonical.{canonical_order, explicit_entry, explicit_entries};

use crate::ace::Ace;
use crate::flags::AceFlags;
use bitflags::Flags;
use std::alloc::{AllocError, Global};

impl Ace {
    /// Whether the entry was inherited ([MS-DTYP] 2.4.4.1, INHERITED_ACE).
    pub fn is_inherited(&self) -> bool
        ensures { result ≡ is_inherited self.now }
    {
        self.flags.contains(AceFlags::ID)
    }
}

/// The entry as one that wasn't inherited: its flag ID is cleared.
fn explicit_entry(entry: &Ace) -> Ace
    ensures { result ≡ explicit_entry entry.now }
{
    Ace {
        flags: AceFlags::from_bits_retain(entry.flags.bits() & 0xEF),
        ..*entry
    }
}

/// Whether no deny comes after an allow, inherited or not ([MS-DTYP] 2.4.5). Takes no memory.
pub fn denies_stand_first(entries: &[Ace]) -> bool
    ensures { result ≡ not (deny_behind_allow entries.now) }
{
    entries
        .iter()
        .skip_while(|entry| !entry.kind.is_allow())
        .all(|entry| entry.kind.is_allow())
}

/// Whether no explicit entry comes after an inherited one.
fn explicit_stand_first(entries: &[Ace]) -> bool
    ensures { result ≡ not (explicit_behind_inherited entries.now) }
{
    entries
        .iter()
        .skip_while(|entry| !entry.is_inherited())
        .all(|entry| entry.is_inherited())
}

/// Whether the list is in canonical order: the explicit entries before the inherited ones, and among the explicit
/// ones the denies before the allows ([MS-DTYP] 2.4.5). Takes no memory.
pub fn is_canonical(entries: &[Ace]) -> bool
    ensures { result ≡ is_canonical entries.now }
{
    let explicit = entries.iter().filter(|entry| !entry.is_inherited());
    explicit_stand_first(entries)
        && explicit
            .skip_while(|entry| !entry.kind.is_allow())
            .all(|entry| entry.kind.is_allow())
}

/// The entries with the denies first, in their order, and then the allows in theirs ([MS-DTYP] 2.4.5). Fails only
/// where memory for them is refused.
pub fn canonicalize(alloc: Global, entries: &[Ace]) -> Result<Vec<Ace>, AllocError>
    ensures { IfOk result (λ ordered. ordered.items ≡ canonical_order entries.now) }
{
    let mut ordered = Vec::with_capacity(alloc, entries.len())?;
    ordered.extend(
        entries
            .iter()
            .filter(|entry| !entry.kind.is_allow())
            .copied(),
    )?;
    ordered.extend(
        entries
            .iter()
            .filter(|entry| entry.kind.is_allow())
            .copied(),
    )?;
    Ok(ordered)
}

/// The entries in their order, each without INHERITED_ACE ([MS-DTYP] 2.4.4.1). The only error is out of memory.
pub fn explicit_of(alloc: Global, entries: &[Ace]) -> Result<Vec<Ace>, AllocError>
    ensures { IfOk result (λ explicit. explicit.items ≡ explicit_entries entries.now) }
{
    entries.iter().map(explicit_entry).collect(alloc)
}
