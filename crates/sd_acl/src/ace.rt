//! Access control entries.

ghost use Rattle.std.specs.Prelude.{◌≡◌, ◌≤◌};
ghost use Rattle.std.specs.Bool.{Decides};
ghost use Rattle.sd_acl.specs.Ace.{ace_size, is_allow, is_inherit_only, same_ace};

use crate::flags::AceFlags;
use bitflags::Flags;
use sd_sid::{Mask, Sid};

/// Whether an entry allows or denies ([MS-DTYP] 2.4.4.1, AceType).
#[derive(Clone, Copy, Debug, PartialEq, Eq, Hash)]
pub enum AceKind {
    /// ACCESS_ALLOWED_ACE_TYPE, 0x00.
    Allow,
    /// ACCESS_DENIED_ACE_TYPE, 0x01.
    Deny,
}

impl AceKind {
    /// Whether entries of this kind allow.
    pub fn is_allow(self) -> bool
        ensures { result ≡ is_allow self }
    {
        match self {
            AceKind::Allow => true,
            AceKind::Deny => false,
        }
    }
}

/// An access control entry ([MS-DTYP] 2.4.4.2 and 2.4.4.4): what the trustee with this SID is allowed or denied.
#[derive(Clone, Copy, Debug, PartialEq, Eq, Hash)]
pub struct Ace {
    pub kind: AceKind,
    pub flags: AceFlags,
    pub mask: Mask,
    pub sid: Sid,
}

impl Ace {
    /// Whether the entry is there to be inherited only, and has no part in a check ([MS-DTYP] 2.4.4.1,
    /// INHERIT_ONLY_ACE).
    pub fn is_inherit_only(&self) -> bool
        ensures { result ≡ is_inherit_only self.now }
    {
        self.flags.contains(AceFlags::IO)
    }

    /// Whether both are equal in all that they have ([MS-DTYP] 2.4.4.1): type, flags, mask and SID. (`==` tells
    /// contracts nothing of the SIDs' values.)
    #[tactic(auto, using(crate::proofs::SameAces::ace_decides))]
    pub fn is(&self, other: &Ace) -> bool
        ensures test { result ≡ same_ace self.now other.now }
        ensures one { Decides result (self.now ≡ other.now) }
    {
        self.kind.is_allow() == other.kind.is_allow()
            && self.flags.bits() == other.flags.bits()
            && self.mask.bits() == other.mask.bits()
            && self.sid.is(&other.sid)
    }

    /// The bytes that the entry takes in a list ([MS-DTYP] 2.4.4.1, AceSize): 16, and 4 for each
    /// sub-authority of its SID.
    pub fn size(&self) -> u64
        ensures size { result ≡ ace_size self.now }
        ensures most { result ≤ 76 }
    {
        16 + 4 * self.sid.subs().len() as u64
    }
}
