//! A descriptor that is compared: whom it speaks of, and what its owner is granted in a pass.

ghost use Rattle.std.specs.Prelude.{◌≡◌, ◌&&◌, ◌||◌, ◌<◌, ◌≤◌, ◌++◌, ◌^◌, ℕ, Some, IfOk, OnOk, false, length, not};
ghost use Rattle.std.specs.List.{filter_map, list_any};
ghost use Rattle.std.specs.Option.{is_some, option_to_list};
ghost use Rattle.sd_sid.specs.Mask.{holds};
ghost use Rattle.sd_sid.specs.Sid.{same_sid};
ghost use Rattle.sd_acl.specs.declared.ace.Ace.{Ace};
ghost use Rattle.sd_acl.specs.declared.ace.AceKind.{AceKind};
ghost use Rattle.sd_check.specs.Check.{entries_of, is_limit, limits_owner};
ghost use Rattle.sd_analysis.specs.Sufficient.{allowed_sids, entries_or_none, has_sid, is_named, parts_of};
ghost use Rattle.sd_analysis.specs.Sufficient.{subject_if, subjects_in};
ghost use Rattle.sd_analysis.specs.Passes.{about, numbered, owns, sids_stand};
ghost use Rattle.sd_analysis.specs.Report.{IsNeverMet};

use crate::compare_search::Case;
use crate::witness::PassSids;
use sd_acl::{Ace, AceKind};
use sd_check::{DaclRef, Pass, subject_of};
use sd_sid::{Mask, Sid};
use std::alloc::{AllocError, Global};

/// READ_CONTROL and WRITE_DAC, which are the owner's ([MS-DTYP] 2.5.3.2).
pub(crate) const OWNERS_RIGHTS: Mask = Mask(0x0006_0000);

/// A descriptor that is borrowed for a comparison, as far as a check looks at it: its owner, and its DACL.
#[derive(Clone, Copy)]
pub struct DescriptorRef<'a> {
    pub owner: Option<Sid>,
    pub dacl: DaclRef<'a>,
}

impl DescriptorRef<'_> {
    pub(crate) fn entries(&self) -> &[Ace]
        ensures { result.now ≡ entries_or_none (entries_of self.now.dacl) }
    {
        match self.dacl {
            DaclRef::Absent => &[],
            DaclRef::Null => &[],
            DaclRef::List(entries) => entries,
        }
    }

    /// Whether there is a list at all.
    pub(crate) fn has_list(&self) -> bool
        ensures { result ≡ is_some (entries_of self.now.dacl) }
    {
        match self.dacl {
            DaclRef::Absent => false,
            DaclRef::Null => false,
            DaclRef::List(_) => true,
        }
    }

    /// Whether an effective entry for OWNER RIGHTS is in the DACL ([MS-DTYP] 2.5.3.2).
    fn limits_owner(&self) -> bool
        ensures { result ≡ limits_owner (entries_of self.now.dacl) }
    {
        limits_owner(self.entries())
    }

    /// Whether READ_CONTROL and WRITE_DAC are the SID's, as the owner's ([MS-DTYP] 2.5.3.2).
    fn is_owned_by(&self, sid: &Sid) -> bool
        ensures { result ≡ (has_sid self.now.owner sid.now && not (limits_owner (entries_of self.now.dacl))) }
    {
        has_sid(&self.owner, sid) && !self.limits_owner()
    }

    /// Whether the SID is the owner's, or that of an entry.
    pub fn names(&self, sid: &Sid) -> bool
        ensures { result ≡ is_named (parts_of self.now) sid.now }
    {
        has_sid(&self.owner, sid) || has_entry(self.entries(), sid)
    }

    /// Whom its effective allows, or its denies, speak of.
    pub(crate) fn subjects(&self, alloc: Global, allows: bool) -> Result<Vec<Sid>, AllocError>
        ensures { IfOk result (λ sids. sids.items ≡ subjects_in allows (parts_of self.now)) }
    {
        self.entries()
            .iter()
            .filter_map(|entry| subject_if(allows, &self.owner, entry))
            .collect(alloc)
    }

    /// Whom it may grant a bit through, with a SID that nobody names.
    pub(crate) fn allowed(&self, alloc: Global, other: Sid) -> Result<Vec<Sid>, AllocError>
        ensures { IfOk result (λ sids. sids.items ≡ allowed_sids other (parts_of self.now)) }
    {
        let mut sids = Vec::new(alloc);
        sids.push(other)?;
        push_some(&mut sids, &self.owner)?;
        let subjects = self.subjects(alloc, true)?;
        sids.extend_from_slice(&subjects)?;
        Ok(sids)
    }
}

/// A SID that neither descriptor names: S-1-0-0, which is nobody's, where it can be.
pub(crate) fn unnamed(old: &DescriptorRef<'_>, new: &DescriptorRef<'_>) -> Sid
    ensures old { is_named (parts_of old.now) result ≡ false }
    ensures new { is_named (parts_of new.now) result ≡ false }
{
    let nobody = sid_from_parts(0, &[0]);
    if !either_names(old, new, &nobody) {
        return nobody;
    }
    let more = old.entries().len() + new.entries().len() + 3;
    for n in 0..more {
        let sid = numbered(n as u64);
        if !either_names(old, new, &sid) {
            return sid;
        }
    }
    unreachable!()
}

fn either_names(old: &DescriptorRef<'_>, new: &DescriptorRef<'_>, sid: &Sid) -> bool
    ensures { result ≡ (is_named (parts_of old.now) sid.now || is_named (parts_of new.now) sid.now) }
{
    old.names(sid) || new.names(sid)
}

/// S-1-0-H-L, where the number is H * 2^32 + L.
fn numbered(n: u64) -> Sid
    ensures { result ≡ numbered n }
{
    sid_from_parts(0, &[(n / 0x1_0000_0000) as u32, (n % 0x1_0000_0000) as u32])
}

/// The SID of these parts.
#[tactic(auto, using(crate::proofs::Unnamed::sid_made, crate::proofs::Unnamed::the_sid))]
pub(crate) fn sid_from_parts(authority: u64, subs: &[u32]) -> Sid
    requires authority { authority < 2 ^ 48 }
    requires some { 0 < length subs.now }
    requires few { length subs.now ≤ 15 }
    ensures { result ≡ record { authority = authority; subs = subs.now } }
{
    Sid::new(authority, subs).unwrap()
}

fn push_some(sids: &mut Vec<Sid>, sid: &Option<Sid>) -> Result<(), AllocError>
    ensures { OnOk result (sids.new.items ≡ sids.old.items ++ option_to_list sid.now) }
{
    if let Some(sid) = sid {
        sids.push(*sid)?;
    }
    Ok(())
}

/// Whether an effective entry for OWNER RIGHTS limits the owner ([MS-DTYP] 2.5.3.2).
pub(crate) fn limits_owner(entries: &[Ace]) -> bool
    ensures { result ≡ limits_owner (Some entries.now) }
{
    entries.iter().any(|entry| !entry.is_inherit_only() && entry.sid.is_owner_rights())
}

fn has_entry(entries: &[Ace], sid: &Sid) -> bool
    ensures { result ≡ list_any (λ (e : Ace). same_sid e.sid sid.now) entries.now }
{
    entries.iter().any(|entry| entry.sid.is(sid))
}

fn has_sid(one: &Option<Sid>, sid: &Sid) -> bool
    ensures { result ≡ has_sid one.now sid.now }
{
    one.as_ref().is_some_and(|one| one.is(sid))
}

/// Whom an entry speaks of, where it is effective, and allows or denies as said.
fn subject_if(allows: bool, owner: &Option<Sid>, entry: &Ace) -> Option<Sid>
    ensures { result ≡ subject_if allows owner.now entry.now }
{
    if entry.is_inherit_only() || entry.kind.is_allow() != allows {
        return None;
    }
    subject_of(owner, &entry.sid).copied()
}

impl Case<'_> {
    /// The bits that it grants as the owner's.
    pub(crate) fn owned(&self, side: &DescriptorRef<'_>, pass: Pass, sids: &PassSids) -> Mask
        ensures { (b : ℕ) → b < 21
            → holds result b ≡ owns (parts_of side.now) (sids_stand pass self.now.base.now sids.now) b }
    {
        if !self.is_owner(side, pass, sids) {
            return Mask(0);
        }
        OWNERS_RIGHTS.only_if(!side.limits_owner())
    }

    /// Whether a token may be granted a bit by an entry of the new descriptor, or as its owner's, that the old one
    /// doesn't grant as the owner's.
    pub(crate) fn may_gain(&self, by_owner: bool) -> bool
        ensures { result ≡ false → IsNeverMet self.now by_owner }
    {
        if !by_owner {
            return true;
        }
        match &self.new.owner {
            None => false,
            Some(owner) => !self.old.is_owned_by(owner),
        }
    }

    fn is_owner(&self, side: &DescriptorRef<'_>, pass: Pass, sids: &PassSids) -> bool
        ensures { result ≡ about (sids_stand pass self.now.base.now sids.now) AceKind.Allow side.now.owner }
    {
        match &side.owner {
            None => false,
            Some(owner) => self.stands(pass, sids, AceKind::Allow, owner),
        }
    }

    /// Whether the base with the SIDs stands for the subject, in entries of the kind.
    fn stands(&self, pass: Pass, sids: &PassSids, kind: AceKind, subject: &Sid) -> bool
        ensures { result ≡ sids_stand pass self.now.base.now sids.now kind subject.now }
    {
        if sids.allowed.is(subject) {
            return true;
        }
        match pass {
            Pass::First => {
                (has_sid(&sids.denied, subject) && !kind.is_allow())
                    || self.base.stands_for(kind, subject)
            }
            Pass::Second => has_sid(&sids.denied, subject),
        }
    }
}
