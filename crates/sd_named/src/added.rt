//! The groups that are added to words, as words.
ghost use Rattle.std.specs.Prelude.{◌≡◌, IfOk, map, string_bytes};
ghost use Rattle.std.specs.List.{list_any};
ghost use Rattle.sd_sid.specs.Sid.{same_sid};
ghost use Rattle.sd_named.specs.Arguments.{added, added_texts, are_alike, decides, is_of, is_said, sid_as};
ghost use Rattle.sd_named.specs.Arguments.{sids_as, starts};

use crate::logon::logon_groups;
use crate::word::{NamedWord, Role};
use sd_sid::Sid;
use sd_text::print_full_sid;
use std::alloc::{AllocError, Global};

/// The SIDs by which the user belongs to groups.
pub(crate) fn starts(
    alloc: Global,
    has_logon: bool,
    user: Sid,
    ones: &[NamedWord],
) -> Result<Vec<Sid>, AllocError>
    ensures { IfOk result (λ all. all.items ≡ starts has_logon user ones.now) }
{
    let mut all = vec![in alloc; user]?;
    all.append(&mut logon_groups(alloc, has_logon, &user)?)?;
    all.append(&mut sids_as(alloc, Role::Enabled, ones)?)?;
    Ok(all)
}

/// The SIDs that the words give in the role.
pub(crate) fn sids_as(alloc: Global, role: Role, ones: &[NamedWord]) -> Result<Vec<Sid>, AllocError>
    ensures { IfOk result (λ sids. sids.items ≡ sids_as role ones.now) }
{
    let mut sids = Vec::new(alloc);
    for one in ones {
        if let Some(sid) = sid_as(role, one) {
            sids.push(sid)?;
        }
    }
    Ok(sids)
}

fn sid_as(role: Role, one: &NamedWord) -> Option<Sid>
    ensures { result ≡ sid_as role one.now }
{
    if are_alike(role, one.role) {
        one.sid
    } else {
        None
    }
}

fn are_alike(one: Role, other: Role) -> bool
    ensures { result ≡ are_alike one other }
{
    matches!(
        (one, other),
        (Role::Enabled, Role::Enabled)
            | (Role::DenyOnly, Role::DenyOnly)
            | (Role::Device, Role::Device)
    )
}

/// The words, in the role, of those of the groups of which no word speaks, and that aren't among the others.
pub(crate) fn added_texts(
    alloc: Global,
    role: Role,
    ones: &[NamedWord],
    groups: &[Sid],
    others: &[Sid],
) -> Result<Vec<String>, AllocError>
    ensures { IfOk result (λ named. map string_bytes named.items
        ≡ added_texts role ones.now groups.now others.now) }
{
    let sids = added(alloc, role, ones, groups, others)?;
    let mut named = Vec::with_capacity(alloc, sids.len())?;
    for sid in &sids {
        let mut text = print_full_sid(alloc, sid)?;
        text.push_str(role.ending())?;
        named.push(text)?;
    }
    Ok(named)
}

/// The groups that are added: those of which no word speaks, and that aren't among the others.
pub(crate) fn added(
    alloc: Global,
    role: Role,
    ones: &[NamedWord],
    groups: &[Sid],
    others: &[Sid],
) -> Result<Vec<Sid>, AllocError>
    ensures { IfOk result (λ all. all.items ≡ added role ones.now groups.now others.now) }
{
    groups
        .iter()
        .filter(|sid| !(is_said(role, ones, sid) || has_sid(others, sid)))
        .copied()
        .collect(alloc)
}

fn has_sid(sids: &[Sid], sid: &Sid) -> bool
    ensures { result ≡ list_any (same_sid sid.now) sids.now }
{
    sids.iter().any(|other| sid.is(other))
}

/// Whether a word says how the token or the device has this SID.
fn is_said(role: Role, ones: &[NamedWord], sid: &Sid) -> bool
    ensures { result ≡ is_said role ones.now sid.now }
{
    ones.iter()
        .any(|one| decides(role, one.role) && is_of(sid, one))
}

fn decides(added: Role, role: Role) -> bool
    ensures { result ≡ decides added role }
{
    match (added, role) {
        (Role::Device, _) => are_alike(Role::Device, role),
        (_, Role::Restricting | Role::Device) => false,
        _ => true,
    }
}

fn is_of(sid: &Sid, one: &NamedWord) -> bool
    ensures { result ≡ is_of sid.now one.now }
{
    match one.sid {
        Some(own) => own.is(sid),
        None => false,
    }
}
