//! Entries whose SIDs stay in their bytes.

ghost use Rattle.std.specs.Prelude.{◌≡◌};
ghost use Rattle.sd_acl.specs.Ace.{is_inherit_only};

use crate::ace::{Ace, AceKind};
use crate::flags::AceFlags;
use bitflags::Flags;
use sd_sid::{Mask, SidRef};
use std::marker::Model;

/// An entry whose SID is borrowed from its bytes, not copied ([MS-DTYP] 2.4.4). Contracts see it as the entry.
#[derive(Drop)]
pub struct AceRef<'a> {
    kind: AceKind,
    flags: AceFlags,
    mask: Mask,
    sid: SidRef<'a>,
}

impl<'a> Model for AceRef<'a> {
    ghost use Rattle.sd_acl.specs.declared.ace.Ace.{Ace};

    ghost Value = { Ace };

    ghost view = { λ e. record { kind = e.kind; flags = e.flags; mask = e.mask; sid = e.sid } };
}

impl<'a> AceRef<'a> {
    /// The entry of its parts.
    #[inline(always)]
    pub fn new(kind: AceKind, flags: AceFlags, mask: Mask, sid: SidRef<'a>) -> AceRef<'a>
        ensures { result ≡ record { kind = kind; flags = flags; mask = mask; sid = sid.entry } }
    {
        AceRef {
            kind,
            flags,
            mask,
            sid,
        }
    }

    /// Whether it allows or denies.
    #[inline(always)]
    pub fn kind(&self) -> AceKind
        ensures { result ≡ self.now.kind }
    {
        self.kind
    }

    /// What it allows or denies, unmapped.
    #[inline(always)]
    pub fn mask(&self) -> Mask
        ensures { result ≡ self.now.mask }
    {
        self.mask
    }

    /// Whom it is for.
    #[inline(always)]
    pub fn sid(&self) -> &SidRef<'a>
        ensures { result.now ≡ self.now.sid }
    {
        &self.sid
    }

    /// Whether the entry is there to be inherited only, and has no part in a check ([MS-DTYP] 2.4.4.1,
    /// INHERIT_ONLY_ACE).
    #[inline(always)]
    pub fn is_inherit_only(&self) -> bool
        ensures { result ≡ is_inherit_only self.now }
    {
        self.flags.contains(AceFlags::IO)
    }

    /// The entry, with its SID copied out of its bytes.
    #[inline(always)]
    pub fn copied(&self) -> Ace
        ensures { result ≡ self.now }
    {
        Ace {
            kind: self.kind,
            flags: self.flags,
            mask: self.mask,
            sid: self.sid.copied(),
        }
    }
}
