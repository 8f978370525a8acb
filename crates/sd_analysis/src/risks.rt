//! The risks in a descriptor.

ghost use Rattle.std.specs.Prelude.{◌≡◌, ◌&&◌, ◌==◌, ◌++◌, not, IfOk, OnOk, None, length};
ghost use Rattle.std.specs.List.{flat_map, list_any};
ghost use Rattle.sd_acl.specs.Descriptor.{descriptor_of};
ghost use Rattle.sd_analysis.specs.Descendants.{descendants_of, stops_somewhere};
ghost use Rattle.sd_analysis.specs.Risks.{cannot_read, dacl_risks, entry_risks, grants_in, grants_to, has_all};
ghost use Rattle.sd_analysis.specs.Risks.{has_delete, has_delete_child, has_full_control, has_permissions, has_write};
ghost use Rattle.sd_analysis.specs.Risks.{is_known, is_of_kind, known_kinds, list_risks, owner_risks, rights_of};
ghost use Rattle.sd_analysis.specs.Risks.{risk_if, risks_of, unknown_if_any, writing};
ghost use Rattle.sd_analysis.specs.declared.risks.Risk.TheVariants.{UnknownGroup, UnknownOwner};

use crate::base::Base;
use crate::compare_sides::sid_from_parts;
use crate::concern::{groups_beside, sids_of_concern};
use crate::descendants::{Descendant, descendants_of, inherited_list};
use crate::trial::granted_by;
use crate::who_case::Case;
use sd_acl::{Ace, Dacl, Descriptor};
use sd_check::{DaclRef, MAXIMUM_ALLOWED, Privileges, Token, check_parts};
use sd_sid::{GenericMapping, Mask, Sid};
use std::alloc::{AllocError, Global};

const GENERIC_ALL: Mask = Mask(0x1000_0000);

const GENERIC_WRITE: Mask = Mask(0x4000_0000);

const GENERIC_READ: Mask = Mask(0x8000_0000);

const GENERIC_READ_EXECUTE: Mask = Mask(0xA000_0000);

const GENERIC_READ_WRITE_EXECUTE: Mask = Mask(0xE000_0000);

/// Places of bits ([MS-DTYP] 2.4.3): FILE_DELETE_CHILD, DELETE, WRITE_DAC and WRITE_OWNER.
const DELETE_CHILD: u32 = 6;

const DELETE: u32 = 16;

const WRITE_DAC: u32 = 18;

const WRITE_OWNER: u32 = 19;

/// A right to change an object.
#[derive(Clone, Copy, Debug, PartialEq, Eq)]
pub enum Right {
    /// All that GENERIC_ALL stands for.
    FullControl,
    /// A bit for which GENERIC_WRITE stands, and neither GENERIC_READ nor GENERIC_EXECUTE.
    Write,
    /// DELETE, or of files FILE_DELETE_CHILD.
    Delete,
    /// WRITE_DAC or WRITE_OWNER.
    ChangePermissions,
}

/// A risk in a descriptor.
#[derive(Clone, Copy, Debug, PartialEq, Eq)]
pub enum Risk {
    /// The list has no entry.
    EmptyList,
    /// This owner is granted neither all that GENERIC_READ stands for nor WRITE_DAC.
    OwnerCannotRead(Sid),
    /// A SID of concern has the right: of the object, or of a descendant if it is a container.
    Grants(Option<Descendant>, Sid, Right),
    /// The entry, counted from 1, is for a SID of no known kind.
    UnknownEntry(usize, Ace),
    /// The owner's SID is of no known kind.
    UnknownOwner(Sid),
    /// The group's SID is of no known kind.
    UnknownGroup(Sid),
}

/// A kind of SIDs: the authority, and the lowest and the highest first sub-authority.
type Kind = (u64, u32, u32);

/// The known kinds ([MS-DTYP] 2.4.1.1 and 2.4.2.4; from 80 to 111 SECURITY_MIN_BASE_RID to SECURITY_MAX_BASE_RID of
/// winnt.h).
static KNOWN_KINDS: [Kind; 16] = [
    (0, 0, 0),
    (1, 0, 0),
    (2, 0, 1),
    (3, 0, 4),
    (4, 0, u32::MAX),
    (5, 1, 15),
    (5, 17, 21),
    (5, 32, 33),
    (5, 64, 65),
    (5, 80, 111),
    (5, 113, 114),
    (5, 1000, 1000),
    (15, 2, 3),
    (16, 0, u32::MAX),
    (17, 0, u32::MAX),
    (18, 1, 6),
];

/// The risks in a descriptor, each where it stands and no other: of its list, entry by entry last, then of its owner's
/// and its group's SID. What a list grants is what a token with the SID and the base is granted ([MS-DTYP] 2.5.3.2); of
/// Anonymous with the base's Everyone alone. The SIDs of `given` are of concern too. What is made in it if it is a
/// container is looked at too, where it inherits an entry (2.5.3.4). An absent and a null DACL have no risk of a list,
/// since they grant everything to everybody. Fails only where an allocation fails.
pub fn risks_in(
    alloc: Global,
    descriptor: &Descriptor,
    mapping: &GenericMapping,
    base: &Base<'_>,
    given: &[Sid],
) -> Result<Vec<Risk>, AllocError>
    ensures { IfOk result
        (λ found. found.items ≡ risks_of mapping.now base.now given.now (descriptor_of descriptor.now)) }
{
    let mut found = dacl_risks(alloc, descriptor, mapping, base, given)?;
    if let Some(owner) = &descriptor.owner {
        push_if(&mut found, !is_known(owner), Risk::UnknownOwner(*owner))?;
    }
    if let Some(group) = &descriptor.group {
        push_if(&mut found, !is_known(group), Risk::UnknownGroup(*group))?;
    }
    Ok(found)
}

fn dacl_risks(
    alloc: Global,
    descriptor: &Descriptor,
    mapping: &GenericMapping,
    base: &Base<'_>,
    given: &[Sid],
) -> Result<Vec<Risk>, AllocError>
    ensures { let d = descriptor_of descriptor.now in
        IfOk result (λ found. found.items ≡ dacl_risks d.owner d.dacl mapping.now base.now given.now) }
{
    match &descriptor.dacl {
        Dacl::Absent => Ok(Vec::new(alloc)),
        Dacl::Null => Ok(Vec::new(alloc)),
        Dacl::List(list) => {
            let case = Case {
                owner: &descriptor.owner,
                entries: list.entries(),
                mapping,
                base,
            };
            list_risks(alloc, &case, given)
        }
    }
}

#[tactic(auto, unfolding(crate::specs::Risks::list_risks))]
fn list_risks(alloc: Global, case: &Case<'_>, given: &[Sid]) -> Result<Vec<Risk>, AllocError>
    ensures { let case = case.now in IfOk result (λ found. found.items
        ≡ list_risks case.owner.now case.entries.now case.mapping.now case.base.now given.now) }
{
    let mut found = Vec::new(alloc);
    push_if(&mut found, case.entries.is_empty(), Risk::EmptyList)?;
    add_owner_risks(alloc, &mut found, case)?;
    let sids = sids_of_concern(alloc, given, case.entries)?;
    add_grants(alloc, &mut found, case, None, &sids)?;
    add_grants_below(alloc, &mut found, case, &sids)?;
    let of_entries = entry_risks(alloc, case.entries)?;
    found.extend_from_slice(&of_entries)?;
    Ok(found)
}

/// Adds the risk if the test holds.
fn push_if(found: &mut Vec<Risk>, test: bool, risk: Risk) -> Result<(), AllocError>
    ensures { OnOk result (found.new.items ≡ found.old.items ++ risk_if test risk) }
{
    if test {
        found.push(risk)?;
    }
    Ok(())
}

/// Adds that the owner cannot read, if so.
fn add_owner_risks(alloc: Global, found: &mut Vec<Risk>, case: &Case<'_>) -> Result<(), AllocError>
    ensures { let case = case.now in OnOk result (found.new.items ≡ found.old.items
        ++ owner_risks case.owner.now case.entries.now case.mapping.now case.base.now) }
{
    if let Some(owner) = case.owner {
        let granted = rights_of(alloc, case, *owner)?;
        let risk = Risk::OwnerCannotRead(*owner);
        push_if(found, cannot_read(case.mapping, granted), risk)?;
    }
    Ok(())
}

/// Adds which rights to change the object, or the descendant, each of the SIDs has.
fn add_grants(
    alloc: Global,
    found: &mut Vec<Risk>,
    case: &Case<'_>,
    whose: Option<Descendant>,
    sids: &[Sid],
) -> Result<(), AllocError>
    ensures { let case = case.now in OnOk result (found.new.items ≡ found.old.items
        ++ flat_map (grants_to whose case.owner.now case.entries.now case.mapping.now case.base.now) sids.now) }
{
    for sid in sids {
        add_grants_to(alloc, found, case, whose, *sid)?;
    }
    Ok(())
}

fn add_grants_to(
    alloc: Global,
    found: &mut Vec<Risk>,
    case: &Case<'_>,
    whose: Option<Descendant>,
    sid: Sid,
) -> Result<(), AllocError>
    ensures { let case = case.now in OnOk result (found.new.items ≡ found.old.items
        ++ grants_to whose case.owner.now case.entries.now case.mapping.now case.base.now sid) }
{
    let granted = rights_of(alloc, case, sid)?;
    if has_full_control(case.mapping, granted) {
        found.push(Risk::Grants(whose, sid, Right::FullControl))?;
        return Ok(());
    }
    let write = Risk::Grants(whose, sid, Right::Write);
    push_if(found, has_write(case.mapping, granted), write)?;
    let delete = Risk::Grants(whose, sid, Right::Delete);
    push_if(found, has_delete(case.mapping, granted), delete)?;
    let change = Risk::Grants(whose, sid, Right::ChangePermissions);
    push_if(found, has_permissions(granted), change)
}

/// Adds which rights to change what is made in a container each of the SIDs has.
fn add_grants_below(
    alloc: Global,
    found: &mut Vec<Risk>,
    case: &Case<'_>,
    sids: &[Sid],
) -> Result<(), AllocError>
    ensures { let case = case.now in OnOk result (found.new.items ≡ found.old.items
        ++ flat_map (grants_in case.entries.now case.mapping.now case.base.now sids.now)
        (descendants_of (stops_somewhere case.entries.now))) }
{
    for descendant in descendants_of(&[], case.entries) {
        add_grants_in(alloc, found, case, *descendant, sids)?;
    }
    Ok(())
}

fn add_grants_in(
    alloc: Global,
    found: &mut Vec<Risk>,
    case: &Case<'_>,
    descendant: Descendant,
    sids: &[Sid],
) -> Result<(), AllocError>
    ensures { let case = case.now in OnOk result (found.new.items ≡ found.old.items
        ++ grants_in case.entries.now case.mapping.now case.base.now sids.now descendant) }
{
    let list = inherited_list(alloc, case.mapping, descendant, case.entries)?;
    if list.is_empty() {
        return Ok(());
    }
    let owner = Some(sid_from_parts(3, &[0]));
    let inheriting = Case {
        owner: &owner,
        entries: &list,
        mapping: case.mapping,
        base: case.base,
    };
    add_grants(alloc, found, &inheriting, Some(descendant), sids)
}

/// The entries for SIDs of no known kind.
fn entry_risks(alloc: Global, entries: &[Ace]) -> Result<Vec<Risk>, AllocError>
    ensures { IfOk result (λ found. found.items ≡ entry_risks entries.now (length entries.now)) }
{
    let mut found = Vec::new(alloc);
    for place in 0..entries.len() {
        let entry = entries[place];
        let risk = Risk::UnknownEntry(place + 1, entry);
        push_if(&mut found, !is_known(&entry.sid), risk)?;
    }
    Ok(found)
}

/// What a token is granted whose user has the SID, with the base, of which Anonymous is in Everyone alone.
fn rights_of(alloc: Global, case: &Case<'_>, sid: Sid) -> Result<Mask, AllocError>
    ensures { let case = case.now in IfOk result (λ granted.
        granted ≡ rights_of case.owner.now case.entries.now case.mapping.now case.base.now sid) }
{
    let groups = groups_beside(alloc, case.base, &sid)?;
    let token = Token::new(sid, groups, Privileges::default());
    let list = DaclRef::List(case.entries);
    let verdict = check_parts(*case.owner, list, case.mapping, &token, MAXIMUM_ALLOWED);
    Ok(granted_by(verdict))
}

fn has_all(granted: Mask, rights: Mask) -> bool
    ensures { result ≡ has_all granted rights }
{
    rights.minus(granted).is_empty()
}

fn has_full_control(mapping: &GenericMapping, granted: Mask) -> bool
    ensures { result ≡ has_full_control mapping.now granted }
{
    let all = mapping.map(GENERIC_ALL);
    !all.is_empty() && has_all(granted, all)
}

fn has_write(mapping: &GenericMapping, granted: Mask) -> bool
    ensures { result ≡ has_write mapping.now granted }
{
    !granted.common(writing(mapping)).is_empty()
}

/// The bits with which an object is written.
fn writing(mapping: &GenericMapping) -> Mask
    ensures { result ≡ writing mapping.now }
{
    let others = mapping.map(GENERIC_READ_EXECUTE);
    mapping.map(GENERIC_WRITE).minus(others)
}

fn has_delete(mapping: &GenericMapping, granted: Mask) -> bool
    ensures { result ≡ has_delete mapping.now granted }
{
    granted.holds(DELETE) || (granted.holds(DELETE_CHILD) && has_delete_child(mapping))
}

/// Whether the objects of the mapping have FILE_DELETE_CHILD.
fn has_delete_child(mapping: &GenericMapping) -> bool
    ensures { result ≡ has_delete_child mapping.now }
{
    mapping.map(GENERIC_ALL).holds(DELETE_CHILD)
        && !mapping.map(GENERIC_READ_WRITE_EXECUTE).holds(DELETE_CHILD)
}

fn has_permissions(granted: Mask) -> bool
    ensures { result ≡ has_permissions granted }
{
    granted.holds(WRITE_DAC) || granted.holds(WRITE_OWNER)
}

fn cannot_read(mapping: &GenericMapping, granted: Mask) -> bool
    ensures { result ≡ cannot_read mapping.now granted }
{
    !has_all(granted, mapping.map(GENERIC_READ)) && !granted.holds(WRITE_DAC)
}

/// Whether the SID is of a known kind.
fn is_known(sid: &Sid) -> bool
    ensures { result ≡ is_known sid.now.authority sid.now.subs }
{
    match sid.subs() {
        [] => false,
        [first, _subs @ ..] => is_of_a_kind(sid.authority(), *first),
    }
}

fn is_of_a_kind(authority: u64, first: u32) -> bool
    ensures { result ≡ list_any (is_of_kind authority first) known_kinds }
{
    known_kinds()
        .iter()
        .any(|kind| is_of_kind(authority, first, kind))
}

fn is_of_kind(authority: u64, first: u32, kind: &Kind) -> bool
    ensures { result ≡ is_of_kind authority first kind.now }
{
    kind.0 == authority && kind.1 <= first && first <= kind.2
}

#[tactic(auto, unfolding(crate::specs::Risks::known_kinds))]
fn known_kinds() -> &'static [Kind]
    ensures { result.now ≡ known_kinds }
{
    &KNOWN_KINDS
}
