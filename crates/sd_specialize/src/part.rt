//! The part that an entry has in a question.

ghost use Rattle.std.specs.Prelude.{◌≡◌, ◌≤◌};
ghost use Rattle.sd_acl.specs.Ace.{ace_size};

use sd_acl::{Ace, AceFlags, AceKind};
use sd_check::Entry;
use sd_sid::{Mask, Sid};
use sd_whole::for_children_alone;
use std::marker::Model;

/// An allow or a deny whose SID stays where it is stored. Contracts see the entry.
#[derive(Drop)]
pub struct Part<'a> {
    pub(crate) kind: AceKind,
    pub(crate) flags: AceFlags,
    pub(crate) mask: Mask,
    pub(crate) sid: &'a Sid,
}

impl<'a> Model for Part<'a> {
    ghost use Rattle.sd_acl.specs.declared.ace.Ace.{Ace};

    ghost Value = { Ace };

    ghost view = { λ p. record { kind = p.kind; flags = p.flags; mask = p.mask; sid = p.sid.now } };
}

impl Part<'_> {
    /// The entry, with a SID of its own ([MS-DTYP] 2.4.4.1).
    pub fn ace(&self) -> Ace
        ensures { result ≡ self.now }
    {
        Ace {
            kind: self.kind,
            flags: self.flags,
            mask: self.mask,
            sid: *self.sid,
        }
    }

    /// The bytes that it takes in a list ([MS-DTYP] 2.4.4.1, AceSize).
    #[inline(always)]
    pub fn size(&self) -> u64
        ensures size { result ≡ ace_size self.now }
        ensures most { result ≤ 76 }
    {
        16 + 4 * self.sid.subs().len() as u64
    }
}

impl<'a> Entry for Part<'a> {
    type Who = Sid;

    ghost ace = { λ e. e };

    #[inline(always)]
    fn kind(&self) -> AceKind {
        self.kind
    }

    #[inline(always)]
    fn mask(&self) -> Mask {
        self.mask
    }

    #[inline(always)]
    fn is_inherit_only(&self) -> bool {
        for_children_alone(self.flags)
    }

    #[inline(always)]
    fn trustee(&self) -> &Sid {
        self.sid
    }
}
