//! Copies of entries for the markers of their SIDs, in a plain list in which markers stand for conditions.

ghost use Rattle.std.specs.Prelude.{◌≡◌, ◌++◌, IfOk, OnOk};
ghost use Rattle.std.specs.List.{filter_map};
ghost use Rattle.std.specs.Option.{option_to_list};
ghost use Rattle.sd_acl.specs.Descriptor.{descriptor_of};
ghost use Rattle.sd_specialize.specs.Context.{context_of};
ghost use Rattle.sd_specialize.specs.Copies.{all_with_copies, copy_for, dacl_with_copies, list_with_copies, marker_of};
ghost use Rattle.sd_specialize.specs.Copies.{markers_of, speaks_of, with_copies, with_its_copies};
ghost use Rattle.sd_specialize.specs.Marked.{lent_marks};

use crate::context::Context;
use crate::marked::{is_deny, mark_place, marker};
use sd_acl::{Ace, AceList, Dacl, Descriptor};
use sd_sid::Sid;
use sd_whole::TypedAce;
use std::alloc::{AllocError, Global};

/// A marker of an entry with a condition.
#[derive(Clone, Copy)]
pub(crate) struct MarkerOf {
    pub(crate) marker: Sid,
    /// The SID that the entry is for.
    pub(crate) sid: Sid,
    pub(crate) denies: bool,
}

/// A plain descriptor in which markers stand for these entries with a condition ([MS-DTYP] 2.4.4.17), with a copy of
/// each entry behind it for each marker of its SID: whoever has the marker has the SID. Of an allow there is none for
/// the marker of a deny, since that may be of who has the SID for denies alone. A list that would take more than 65,535
/// bytes has no copies. The law `copies_change_nothing` says what it grants. The only error is out of memory.
pub fn with_copies(
    alloc: Global,
    context: &Context<'_>,
    marks: &[&TypedAce],
    descriptor: Descriptor,
) -> Result<Descriptor, AllocError>
    ensures { IfOk result (λ more. descriptor_of more
        ≡ with_copies (context_of context.now) (lent_marks marks.now) (descriptor_of descriptor)) }
{
    let markers = markers_of(alloc, context, marks)?;
    Ok(Descriptor {
        owner: descriptor.owner,
        group: descriptor.group,
        dacl: dacl_with_copies(alloc, &markers, descriptor.dacl)?,
        protected: descriptor.protected,
        auto_req: descriptor.auto_req,
        auto_inherited: descriptor.auto_inherited,
    })
}

/// Whose the markers are.
fn markers_of(
    alloc: Global,
    context: &Context<'_>,
    marks: &[&TypedAce],
) -> Result<Vec<MarkerOf>, AllocError>
    ensures { IfOk result (λ markers. markers.items ≡ markers_of (context_of context.now) (lent_marks marks.now)) }
{
    let mut markers = Vec::new(alloc);
    for (i, mark) in marks.iter().enumerate() {
        if mark_place(marks, mark) == i {
            markers.push(marker_of(context, i, mark))?;
        }
    }
    Ok(markers)
}

fn marker_of(context: &Context<'_>, number: usize, ace: &TypedAce) -> MarkerOf
    ensures { result ≡ marker_of (context_of context.now) number ace.now }
{
    MarkerOf {
        marker: marker(number),
        sid: context.trustee(ace.sid),
        denies: is_deny(ace.kind),
    }
}

fn dacl_with_copies(alloc: Global, markers: &[MarkerOf], dacl: Dacl) -> Result<Dacl, AllocError>
    ensures { IfOk result (λ more. more ≡ dacl_with_copies markers.now dacl) }
{
    match dacl {
        Dacl::Absent => Ok(Dacl::Absent),
        Dacl::Null => Ok(Dacl::Null),
        Dacl::List(list) => Ok(Dacl::List(list_with_copies(alloc, markers, list)?)),
    }
}

fn list_with_copies(
    alloc: Global,
    markers: &[MarkerOf],
    list: AceList,
) -> Result<AceList, AllocError>
    ensures { IfOk result (λ more. more ≡ list_with_copies markers.now list) }
{
    match AceList::new(all_with_copies(alloc, markers, list.entries())?) {
        Ok(more) => Ok(more),
        Err(_) => Ok(list),
    }
}

fn all_with_copies(
    alloc: Global,
    markers: &[MarkerOf],
    entries: &[Ace],
) -> Result<Vec<Ace>, AllocError>
    ensures { IfOk result (λ all. all.items ≡ all_with_copies markers.now entries.now) }
{
    let mut all = Vec::new(alloc);
    for entry in entries {
        push_with_copies(&mut all, markers, entry)?;
    }
    Ok(all)
}

fn push_with_copies(all: &mut Vec<Ace>, markers: &[MarkerOf], entry: &Ace) -> Result<(), AllocError>
    ensures { OnOk result (all.new.items ≡ all.old.items ++ with_its_copies markers.now entry.now) }
{
    all.push(*entry)?;
    push_copies(all, markers, entry)
}

fn push_copies(all: &mut Vec<Ace>, markers: &[MarkerOf], entry: &Ace) -> Result<(), AllocError>
    ensures { OnOk result (all.new.items ≡ all.old.items ++ filter_map (copy_for entry.now) markers.now) }
{
    for marker in markers {
        push_copy(all, marker, entry)?;
    }
    Ok(())
}

fn push_copy(all: &mut Vec<Ace>, marker: &MarkerOf, entry: &Ace) -> Result<(), AllocError>
    ensures { OnOk result (all.new.items ≡ all.old.items ++ option_to_list (copy_for entry.now marker.now)) }
{
    if speaks_of(entry, marker) {
        all.push(Ace {
            sid: marker.marker,
            ..*entry
        })?;
    }
    Ok(())
}

/// Whether whoever has the marker has the SID of the entry, also for an allow.
fn speaks_of(entry: &Ace, marker: &MarkerOf) -> bool
    ensures { result ≡ speaks_of entry.now marker.now }
{
    entry.sid.is(&marker.sid) && !(entry.kind.is_allow() && marker.denies)
}
