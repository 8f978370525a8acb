//! What is made in a container, and the lists that the container's entries give it.

ghost use Rattle.std.specs.Prelude.{◌≡◌, ◌||◌, IfOk};
ghost use Rattle.sd_inheritance.specs.Inheritance.{no_propagate};
ghost use Rattle.sd_analysis.specs.Descendants.{descendants_of, inherited_entries, list_of, stops_somewhere};

use crate::compare_sides::sid_from_parts;
use bitflags::Flags;
use sd_acl::{Ace, AceFlags};
use sd_inheritance::{Heir, NodeKind, hand_on};
use sd_sid::GenericMapping;
use std::alloc::{AllocError, Global};

/// What is made in a container, or below a container that is made in it.
#[derive(Clone, Copy, Debug, PartialEq, Eq)]
pub enum Descendant {
    /// A new object in it.
    Object,
    /// A new container in it.
    Container,
    /// A new object below a new container, at any depth.
    ObjectBelow,
    /// A new container below a new container, at any depth.
    ContainerBelow,
}

static CHILDREN: [Descendant; 2] = [Descendant::Object, Descendant::Container];

static ALL: [Descendant; 4] = [
    Descendant::Object,
    Descendant::Container,
    Descendant::ObjectBelow,
    Descendant::ContainerBelow,
];

/// The DACL of a descendant without entries of its own: what the entries of the container hand on to it ([MS-DTYP]
/// 2.5.3.4). CREATOR OWNER and CREATOR GROUP stand for its owner and its group. Fails only where an allocation fails.
pub fn inherited_list(
    alloc: Global,
    mapping: &GenericMapping,
    descendant: Descendant,
    entries: &[Ace],
) -> Result<Vec<Ace>, AllocError>
    ensures { IfOk result (λ list. list.items ≡ list_of mapping.now descendant entries.now) }
{
    match descendant {
        Descendant::Object => inherited_entries(alloc, mapping, NodeKind::Object, entries),
        Descendant::Container => inherited_entries(alloc, mapping, NodeKind::Container, entries),
        Descendant::ObjectBelow => {
            let above = inherited_entries(alloc, mapping, NodeKind::Container, entries)?;
            inherited_entries(alloc, mapping, NodeKind::Object, &above)
        }
        Descendant::ContainerBelow => {
            let above = inherited_entries(alloc, mapping, NodeKind::Container, entries)?;
            inherited_entries(alloc, mapping, NodeKind::Container, &above)
        }
    }
}

/// What the entries hand on to a child of the kind.
fn inherited_entries(
    alloc: Global,
    mapping: &GenericMapping,
    kind: NodeKind,
    entries: &[Ace],
) -> Result<Vec<Ace>, AllocError>
    ensures { IfOk result (λ list. list.items ≡ inherited_entries mapping.now kind entries.now) }
{
    let (owner, group) = (sid_from_parts(3, &[0]), sid_from_parts(3, &[1]));
    let heir = Heir {
        kind,
        owner: &owner,
        group: &group,
    };
    let mut list = Vec::new(alloc);
    hand_on(&mut list, mapping, &heir, entries)?;
    Ok(list)
}

/// Which descendants two lists decide about, each by a list of its own. Those below new containers are decided about
/// like those in the container, unless an entry has NO_PROPAGATE_INHERIT ([MS-DTYP] 2.4.4.1).
pub fn descendants_of(old: &[Ace], new: &[Ace]) -> &'static [Descendant]
    ensures { result.now ≡ descendants_of (stops_somewhere old.now || stops_somewhere new.now) }
{
    if stops_somewhere(old) || stops_somewhere(new) {
        &ALL
    } else {
        &CHILDREN
    }
}

fn stops_somewhere(entries: &[Ace]) -> bool
    ensures { result ≡ stops_somewhere entries.now }
{
    entries.iter().any(stops)
}

fn stops(entry: &Ace) -> bool
    ensures { result ≡ no_propagate entry.now }
{
    entry.flags.contains(AceFlags::NP)
}
