//! Reasons: why a bit is granted or denied.

ghost use Rattle.std.specs.Prelude.{◌≡◌};
ghost use Rattle.sd_explain.specs.Reasons.{is_allowed, grants, belongs};

/// What a pass over the list finds for a bit ([MS-DTYP] 2.5.3.2): the first entry that decides it, by its place in the
/// list, counted from 0.
#[derive(Clone, Copy, Debug, PartialEq, Eq)]
pub enum Finding {
    // (first, so that an array without any is zeros)
    /// No entry decides the bit.
    NoEntry,
    /// An allow entry.
    Allowed(usize),
    /// A deny entry.
    Denied(usize),
}

/// Why a bit is granted or denied ([MS-DTYP] 2.5.3.2).
#[derive(Clone, Copy, Debug, PartialEq, Eq)]
pub enum Cause {
    /// The DACL is absent or null: it grants the object's own rights and the standard ones.
    NoList,
    /// By the one pass of a token that nothing restricts.
    Listed(Finding),
    /// By the two passes of a restricted token: the first is of the user and the groups, the second of the restricting
    /// SIDs. Both have to allow.
    Restricted(Finding, Finding),
    /// READ_CONTROL or WRITE_DAC, granted to the owner.
    Owner,
    /// WRITE_OWNER, granted by SeTakeOwnershipPrivilege.
    TakeOwnership,
    /// ACCESS_SYSTEM_SECURITY, granted by SeSecurityPrivilege.
    Security,
    /// ACCESS_SYSTEM_SECURITY, denied without SeSecurityPrivilege.
    NoSecurity,
    /// MAXIMUM_ALLOWED takes in no more than GENERIC_ALL where there is no list, and this is beyond it.
    BeyondAll,
    /// The bit is reserved: no check answers it.
    Reserved,
    /// Taken by the object's integrity label, whatever the DACL and the privileges say ([MS-DTYP] 2.5.3.3).
    Label,
}

/// Why a bit is part of an answer.
#[derive(Clone, Copy, Debug, PartialEq, Eq)]
pub struct Reason {
    /// The request names the bit, by itself or by a generic right; else MAXIMUM_ALLOWED alone asks for it.
    pub named: bool,
    pub cause: Cause,
}

/// A set of the bits that have a reason.
#[derive(Clone, Copy, Debug, PartialEq, Eq)]
pub enum Share {
    /// The reserved bits.
    Reserved,
    /// The bits that the request names and that aren't granted.
    Missing,
    /// The granted bits.
    Granted,
    /// The bits that MAXIMUM_ALLOWED alone asks for.
    Unnamed,
    /// The bits with this cause.
    Because(Cause),
}

impl Finding {
    /// Whether the pass allows the bit.
    #[inline(always)]
    pub fn is_allowed(self) -> bool
        ensures { result ≡ is_allowed self }
    {
        match self {
            Finding::Allowed(_) => true,
            Finding::Denied(_) => false,
            Finding::NoEntry => false,
        }
    }
}

impl Cause {
    /// Whether a bit of this cause is granted.
    #[inline(always)]
    pub fn grants(self) -> bool
        ensures { result ≡ grants self }
    {
        match self {
            Cause::NoList => true,
            Cause::Listed(finding) => finding.is_allowed(),
            Cause::Restricted(first, second) => first.is_allowed() && second.is_allowed(),
            Cause::Owner => true,
            Cause::TakeOwnership => true,
            Cause::Security => true,
            Cause::NoSecurity => false,
            Cause::BeyondAll => false,
            Cause::Reserved => false,
            Cause::Label => false,
        }
    }
}

impl Reason {
    /// Whether a bit with this reason is of the share.
    #[inline(always)]
    pub fn belongs(self, share: Share) -> bool
        ensures { result ≡ belongs share self }
    {
        match share {
            Share::Reserved => self.cause == Cause::Reserved,
            Share::Missing => self.named && !self.cause.grants(),
            Share::Granted => self.cause.grants(),
            Share::Unnamed => !self.named,
            Share::Because(cause) => self.cause == cause,
        }
    }
}
