//! SIDs of concern, to which a list should grant little: tokens of anybody have them, or of nearly everybody.

ghost use Rattle.std.specs.Prelude.{◌≡◌, ◌++◌, ◌&&◌, ◌==◌, IfOk, OnOk, fold};
ghost use Rattle.std.specs.List.{flat_map};
ghost use Rattle.sd_sid.specs.Sid.{same_sid};
ghost use Rattle.sd_analysis.specs.Risks.{common_sids, groups_beside, is_wide_in_domain, sids_of_concern};
ghost use Rattle.sd_analysis.specs.Risks.{where_everyone, wide_sids, with_sid, with_sid_of};
ghost use Rattle.sd_analysis.specs.Sufficient.{is_among};

use crate::base::Base;
use crate::compare_sides::sid_from_parts;
use sd_acl::Ace;
use sd_check::GroupState;
use sd_sid::Sid;
use std::alloc::{AllocError, Global};

/// The SIDs of concern ([MS-DTYP] 2.4.2.4): of every list, of any domain those that the entries name, and those that
/// are given, each once.
pub(crate) fn sids_of_concern(
    alloc: Global,
    given: &[Sid],
    entries: &[Ace],
) -> Result<Vec<Sid>, AllocError>
    ensures { IfOk result (λ sids. sids.items ≡ sids_of_concern given.now entries.now) }
{
    let mut sids = common_sids(alloc, entries)?;
    for sid in given {
        add_sid(&mut sids, sid)?;
    }
    Ok(sids)
}

/// The SIDs of concern of every list, and of any domain those that the entries name.
fn common_sids(alloc: Global, entries: &[Ace]) -> Result<Vec<Sid>, AllocError>
    ensures { IfOk result (λ sids. sids.items ≡ common_sids entries.now) }
{
    let mut sids = wide_sids(alloc)?;
    for entry in entries {
        add_sid_of(&mut sids, entry)?;
    }
    Ok(sids)
}

/// Everyone, Anonymous, Authenticated Users, Users, Guests, INTERACTIVE, NETWORK and This Organization.
fn wide_sids(alloc: Global) -> Result<Vec<Sid>, AllocError>
    ensures { IfOk result (λ sids. sids.items ≡ wide_sids) }
{
    let sids = [
        sid_from_parts(1, &[0]),
        sid_from_parts(5, &[7]),
        sid_from_parts(5, &[11]),
        sid_from_parts(5, &[32, 545]),
        sid_from_parts(5, &[32, 546]),
        sid_from_parts(5, &[4]),
        sid_from_parts(5, &[2]),
        sid_from_parts(5, &[15]),
    ];
    Vec::from_slice(alloc, &sids)
}

fn add_sid_of(sids: &mut Vec<Sid>, entry: &Ace) -> Result<(), AllocError>
    ensures { OnOk result (sids.new.items ≡ with_sid_of sids.old.items entry.now) }
{
    if is_wide_in_domain(&entry.sid) {
        add_sid(sids, &entry.sid)?;
    }
    Ok(())
}

fn add_sid(sids: &mut Vec<Sid>, sid: &Sid) -> Result<(), AllocError>
    ensures { OnOk result (sids.new.items ≡ with_sid sids.old.items sid.now) }
{
    if !is_among(sids, sid) {
        sids.push(*sid)?;
    }
    Ok(())
}

fn is_among(sids: &[Sid], sid: &Sid) -> bool
    ensures { result ≡ is_among sids.now sid.now }
{
    sids.iter().any(|one| one.is(sid))
}

/// Whether it is Domain Users, Domain Guests or Domain Computers.
fn is_wide_in_domain(sid: &Sid) -> bool
    ensures { result ≡ (sid.now.authority == 5 && is_wide_in_domain sid.now.subs) }
{
    sid.authority() == 5
        && match sid.subs() {
            [21, _, _, _, rid] => 513 <= *rid && *rid <= 515,
            _ => false,
        }
}

/// The groups of a token whose user has the SID: the base, of which Anonymous is in Everyone alone.
pub(crate) fn groups_beside(
    alloc: Global,
    base: &Base<'_>,
    sid: &Sid,
) -> Result<Vec<(Sid, GroupState)>, AllocError>
    ensures { IfOk result (λ groups. groups.items ≡ groups_beside base.now sid.now) }
{
    if sid.is(&sid_from_parts(5, &[7])) {
        everyone_of(alloc, base)
    } else {
        Vec::from_slice(alloc, base.groups)
    }
}

fn everyone_of(alloc: Global, base: &Base<'_>) -> Result<Vec<(Sid, GroupState)>, AllocError>
    ensures { IfOk result (λ groups. groups.items ≡ flat_map where_everyone base.now) }
{
    let mut groups = Vec::new(alloc);
    for group in base.groups {
        add_everyone(&mut groups, *group)?;
    }
    Ok(groups)
}

fn add_everyone(
    groups: &mut Vec<(Sid, GroupState)>,
    group: (Sid, GroupState),
) -> Result<(), AllocError>
    ensures { OnOk result (groups.new.items ≡ groups.old.items ++ where_everyone group) }
{
    if group.0.is(&sid_from_parts(1, &[0])) {
        groups.push(group)?;
    }
    Ok(())
}
