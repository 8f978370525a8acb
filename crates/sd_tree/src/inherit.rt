//! What a node inherits ([MS-DTYP] 2.5.3.4).

ghost use Rattle.std.specs.Prelude.{◌≡◌, [], IfOk, map};
ghost use Rattle.sd_edit.specs.Inheritance.{dacl_of_row, handed_to, inherited_entry, still_offers};
ghost use Rattle.sd_inheritance.specs.Inheritance.{creator_group, creator_owner};
ghost use Rattle.sd_tree.specs.Node.{joined, whole_with};

use crate::node::RowRef;
use crate::shared::Shared;
use bitflags::Flags;
use sd_acl::{Ace, AceFlags, canonicalize, same_entries};
use sd_edit::{Entries, NodeDacl};
use sd_inheritance::{Heir, NodeKind, hand_on};
use sd_sid::{GenericMapping, Sid};
use std::alloc::{AllocError, Global};

/// A DACL in two parts, own entries and inherited ones; `None` is a null one.
pub(crate) type DaclParts<'a> = Option<(&'a [Ace], &'a [Ace])>;

/// No inherited entries.
fn nothing(alloc: Global) -> Result<Shared<Entries>, AllocError>
    ensures { IfOk result (λ inherited. inherited ≡ []) }
{
    Shared::new(alloc, Entries::new(Vec::new(alloc)))
}

/// What a parent with this DACL hands on to a child.
fn handed_to(
    alloc: Global,
    mapping: &GenericMapping,
    heir: &Heir<'_>,
    above: DaclParts<'_>,
) -> Result<Vec<Ace>, AllocError>
    ensures { IfOk result (λ handed. handed.items
        ≡ handed_to mapping.now heir.now.kind heir.now.owner.now heir.now.group.now (joined above.entry)) }
{
    let mut handed = Vec::new(alloc);
    if let Some((own, inherited)) = above {
        hand_on(&mut handed, mapping, heir, own)?;
        hand_on(&mut handed, mapping, heir, inherited)?;
    }
    Ok(handed)
}

/// CREATOR OWNER ([MS-DTYP] 2.4.2.4).
fn creator_owner() -> Sid
    ensures { result ≡ creator_owner }
{
    match Sid::new(3, &[0]) {
        Ok(sid) => sid,
        Err(_) => unreachable!(),
    }
}

/// CREATOR GROUP ([MS-DTYP] 2.4.2.4).
fn creator_group() -> Sid
    ensures { result ≡ creator_group }
{
    match Sid::new(3, &[1]) {
        Ok(sid) => sid,
        Err(_) => unreachable!(),
    }
}

/// Whether a parent with this DACL offers children of the kind what was offered to a node that was stored.
fn still_offers(
    alloc: Global,
    mapping: &GenericMapping,
    kind: NodeKind,
    above: DaclParts<'_>,
    offer: &[Ace],
) -> Result<bool, AllocError>
    ensures { IfOk result (λ offers. offers ≡ still_offers mapping.now kind (joined above.entry) offer.now) }
{
    let (owner, group) = (creator_owner(), creator_group());
    let heir = Heir {
        kind,
        owner: &owner,
        group: &group,
    };
    let offered = handed_to(alloc, mapping, &heir, above)?;
    let offered = canonicalize(alloc, &offered)?;
    let offer = canonicalize(alloc, offer)?;
    Ok(same_entries(&offered, &offer))
}

/// The entry with INHERITED_ACE ([MS-DTYP] 2.4.4.1).
fn inherited_entry(entry: &Ace) -> Ace
    ensures { result ≡ inherited_entry entry.now }
{
    Ace {
        flags: AceFlags::from_bits_retain(entry.flags.bits() | 0x10),
        ..*entry
    }
}

/// The entries in their order, each with INHERITED_ACE ([MS-DTYP] 2.4.4.1). The only error is out of memory.
pub fn inherited_entries(alloc: Global, entries: &[Ace]) -> Result<Vec<Ace>, AllocError>
    ensures { IfOk result (λ inherited. inherited.items ≡ map inherited_entry entries.now) }
{
    entries.iter().map(inherited_entry).collect(alloc)
}

/// What a node inherits below a parent with this DACL: nothing where its own DACL is protected or a null one, and of
/// one that was stored what it had inherited elsewhere, while it is offered what it was offered there.
pub(crate) fn inherited_below(
    alloc: Global,
    mapping: &GenericMapping,
    row: &RowRef<'_>,
    above: DaclParts<'_>,
) -> Result<Shared<Entries>, AllocError>
    ensures { IfOk result (λ inherited. whole_with row.now inherited
        ≡ dacl_of_row mapping.now row.now (joined above.entry)) }
{
    match row.dacl {
        NodeDacl::Null
        | NodeDacl::List {
            protected: true,
            ..
        } => return nothing(alloc),
        NodeDacl::List { .. } => {}
        NodeDacl::Stored {
            inherited,
            offer,
            ..
        } => {
            if still_offers(alloc, mapping, row.kind, above, offer.entries())? {
                let kept = inherited_entries(alloc, inherited.entries())?;
                return Shared::new(alloc, Entries::new(kept));
            }
        }
    }
    let heir = Heir {
        kind: row.kind,
        owner: row.owner,
        group: row.group,
    };
    let handed = handed_to(alloc, mapping, &heir, above)?;
    Shared::new(alloc, Entries::new(handed))
}
