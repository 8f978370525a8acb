//! The walk over the entries that decide one right.

ghost use Rattle.std.specs.Prelude.{◌≡◌, Bool, true, false, not, ◌&&◌, ◌||◌, Option, IfOk, OnOk};
ghost use Rattle.std.specs.List.{list_any};
ghost use Rattle.sd_sid.specs.Sid.{SidValue, same_sid};
ghost use Rattle.sd_acl.specs.Ace.{is_allow};
ghost use Rattle.sd_acl.specs.declared.ace.AceKind.{AceKind};
ghost use Rattle.sd_check.specs.Check.{stands_for_subject};
ghost use Rattle.sd_check.specs.Token.{TokenValue, stands_for};
ghost use Rattle.sd_analysis.specs.WhoWalk.{IsWalk, holder_of, is_of};

use crate::base::Base;
use crate::who_has::{Alternative, Holder};
use sd_acl::AceKind;
use sd_sid::Sid;
use std::alloc::{AllocError, Global};

/// What the entries so far have come to.
#[derive(Drop)]
pub(crate) struct Walk {
    /// The SIDs of the deny entries, each once.
    pub(crate) denied: Vec<Sid>,
    pub(crate) alternatives: Vec<Alternative>,
    /// Whether no later entry counts for any token with the base: one of these decides for all.
    pub(crate) is_closed: bool,
}

impl Walk {
    /// What no entry comes to: the right is the holder's, if there is one.
    pub(crate) fn begin(
        alloc: Global,
        base: &Base<'_>,
        implied: Option<Sid>,
    ) -> Result<Walk, AllocError>
        ensures { IfOk result (IsWalk base.now (λ t. stands_for_subject t AceKind.Allow implied) (λ t. true)) }
    {
        let mut walk = Walk {
            denied: Vec::new(alloc),
            alternatives: Vec::new(alloc),
            is_closed: false,
        };
        match implied {
            None => Ok(walk),
            Some(owner) => {
                walk.add(base, &owner, true)?;
                Ok(walk)
            }
        }
    }

    /// What they come to with one more entry, of this kind and for this SID ([MS-DTYP] 2.5.3.2).
    pub(crate) fn step(
        &mut self,
        base: &Base<'_>,
        kind: AceKind,
        sid: &Sid,
    ) -> Result<(), AllocError>
        ensures { OnOk result ((granted undecided : TokenValue → Bool) → IsWalk base.now granted undecided self.old
            → IsWalk base.now (λ t. granted t || ((undecided t && stands_for t kind sid.now) && is_allow kind))
            (λ t. undecided t && not (stands_for t kind sid.now)) self.new) }
    {
        if self.is_closed {
            return Ok(());
        }
        match kind {
            AceKind::Allow => self.allow(base, sid),
            AceKind::Deny => self.deny(base, sid),
        }
    }

    /// An allow is an alternative, unless its SID was denied before or has one that asks for less.
    fn allow(&mut self, base: &Base<'_>, sid: &Sid) -> Result<(), AllocError>
        requires { self.old.is_closed ≡ false }
        ensures { OnOk result ((granted undecided : TokenValue → Bool) → IsWalk base.now granted undecided self.old
            → IsWalk base.now (λ t. granted t || (undecided t && stands_for t AceKind.Allow sid.now))
            (λ t. undecided t && not (stands_for t AceKind.Allow sid.now)) self.new) }
    {
        if self.is_denied(sid) || self.has_alternative(sid) {
            return Ok(());
        }
        self.add(base, sid, false)
    }

    /// A deny for a SID of the base decides for everybody; any other holds against the alternatives after it.
    fn deny(&mut self, base: &Base<'_>, sid: &Sid) -> Result<(), AllocError>
        requires { self.old.is_closed ≡ false }
        ensures { OnOk result ((granted undecided : TokenValue → Bool) → IsWalk base.now granted undecided self.old
            → IsWalk base.now granted (λ t. undecided t && not (stands_for t AceKind.Deny sid.now)) self.new) }
    {
        if base.stands_for(AceKind::Deny, sid) {
            self.is_closed = true;
        } else if !self.is_denied(sid) {
            self.denied.push(*sid)?;
        }
        Ok(())
    }

    /// One alternative more, for the SID; for everyone, where the base has it enabled.
    fn add(&mut self, base: &Base<'_>, sid: &Sid, is_owner: bool) -> Result<(), AllocError>
        requires { self.old.is_closed ≡ false }
        ensures { OnOk result ((granted undecided : TokenValue → Bool) → IsWalk base.now granted undecided self.old
            → IsWalk base.now (λ t. granted t || (undecided t && stands_for t AceKind.Allow sid.now))
            (λ t. undecided t && not (stands_for t AceKind.Allow sid.now)) self.new) }
    {
        let unless = self.denied.len();
        let is_closed = base.stands_for(AceKind::Allow, sid);
        let holder = holder_of(is_closed, is_owner, sid);
        self.alternatives.push(Alternative { holder, unless })?;
        self.is_closed = is_closed;
        Ok(())
    }

    fn is_denied(&self, sid: &Sid) -> bool
        ensures { result ≡ list_any (λ one. same_sid one sid.now) self.now.denied.items }
    {
        self.denied.iter().any(|one| one.is(sid))
    }

    fn has_alternative(&self, sid: &Sid) -> bool
        ensures { result ≡ list_any (λ a. is_of sid.now a.holder) self.now.alternatives.items }
    {
        self.alternatives
            .iter()
            .any(|alternative| is_of(sid, &alternative.holder))
    }
}

/// The holder that the SID is: everyone, where all have it.
fn holder_of(all_have_it: bool, is_owner: bool, sid: &Sid) -> Holder
    ensures { result ≡ holder_of all_have_it is_owner sid.now }
{
    if all_have_it {
        return Holder::Everyone;
    }
    if is_owner {
        Holder::Owner(*sid)
    } else {
        Holder::Sid(*sid)
    }
}

/// Whether the holder is the SID.
fn is_of(sid: &Sid, holder: &Holder) -> bool
    ensures { result ≡ is_of sid.now holder.now }
{
    match holder {
        Holder::Everyone => false,
        Holder::Sid(one) => one.is(sid),
        Holder::Owner(one) => one.is(sid),
    }
}
