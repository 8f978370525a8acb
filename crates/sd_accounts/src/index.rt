//! The index of the direct memberships: the groups of each member, by their numbers.

ghost use Rattle.std.specs.Prelude.{◌≡◌, ◌++◌, ◌<◌, ◌≤◌, OnOk, IfNone, IfOk, IfSome, Some, length, slice_get};
ghost use Rattle.std.specs.Option.{option_to_list};
ghost use Rattle.indexmap.specs.IndexMap.{keys};
ghost use Rattle.sd_sid.specs.Sid.{SidValue};
ghost use Rattle.sd_accounts.specs.Kept.{all_rows, row_of};
ghost use Rattle.sd_accounts.specs.Index.{Grows, IsIndexOf, IsSound, group_in, groups_at, numbers_at, sid_at};
ghost use Rattle.sd_accounts.specs.Row.{Member};

use crate::row::Row;
use indexmap::IndexMap;
use sd_sid::Sid;
use std::alloc::{AllocError, Global};

/// The groups in which each SID directly is, by their numbers: a SID's number is its place among the keys. A walk goes
/// by numbers, since a SID is long to hash and to compare.
pub(crate) type Index = IndexMap<Sid, Vec<usize>>;

/// The index of the rows. The only error is out of memory.
pub(crate) fn index_rows(alloc: Global, rows: &[Row]) -> Result<Index, AllocError>
    ensures { IfOk result (λ index. IsIndexOf index (all_rows rows.now)) }
{
    let mut index = IndexMap::new(alloc);
    for row in rows {
        add_row(alloc, &mut index, row)?;
    }
    Ok(index)
}

/// Adds the group in which the row says that one is, if it says so.
fn add_row(alloc: Global, index: &mut Index, row: &Row) -> Result<(), AllocError>
    requires { IsSound index.old }
    ensures groups { OnOk result ((m : SidValue)
        → groups_at index.new m ≡ groups_at index.old m ++ option_to_list (group_in m (row_of row.now))) }
    ensures sound { OnOk result (IsSound index.new) }
{
    match row {
        Row::Member { group, member } => add_group(alloc, index, *member, *group),
        Row::Primary { user, group } => add_group(alloc, index, *user, *group),
        _ => Ok(()),
    }
}

/// Adds a group in which the member directly is.
fn add_group(alloc: Global, index: &mut Index, member: Sid, group: Sid) -> Result<(), AllocError>
    requires { IsSound index.old }
    ensures groups { OnOk result ((m : SidValue)
        → groups_at index.new m ≡ groups_at index.old m ++ option_to_list (group_in m (Member group member))) }
    ensures sound { OnOk result (IsSound index.new) }
{
    let none = Vec::new(alloc);
    let mut groups = index.insert(member, none)?.unwrap_or(Vec::new(alloc));
    let number = number_of(alloc, index, group)?;
    groups.push(number)?;
    index.insert(member, groups)?;
    Ok(())
}

/// The group's number: where it has none it gets the next, and is in no group.
fn number_of(alloc: Global, index: &mut Index, group: Sid) -> Result<usize, AllocError>
    ensures group { IfOk result (λ number. (number < length (keys index.new))
        × (sid_at (keys index.new) number ≡ group)) }
    ensures keys { OnOk result (Grows (keys index.old) (keys index.new)) }
    ensures groups { OnOk result ((m : SidValue) → numbers_at index.new m ≡ numbers_at index.old m) }
{
    if let Some(number) = index.get_index_of(&group) {
        return Ok(number);
    }
    let (number, _) = index.insert_full(group, Vec::new(alloc))?;
    Ok(number)
}

/// The numbers of the groups in which the SID directly is.
pub(crate) fn groups_in<'a>(index: &'a Index, member: &Sid) -> &'a [usize]
    ensures { result.now ≡ numbers_at index.now member.now }
{
    match index.get(member) {
        Some(groups) => groups,
        None => &[],
    }
}

/// The SID of this number, and the numbers of the groups in which it directly is.
pub(crate) fn numbered(index: &Index, number: usize) -> Option<(&Sid, &[usize])>
    ensures sid { IfSome result (λ found. slice_get (keys index.now) number ≡ Some found.0.now) }
    ensures groups { IfSome result (λ found. found.1.now ≡ numbers_at index.now found.0.now) }
    ensures none { IfNone result (length (keys index.now) ≤ number) }
{
    let (sid, groups) = index.get_index(number)?;
    Some((sid, groups))
}
