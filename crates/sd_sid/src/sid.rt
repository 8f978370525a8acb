//! Security identifiers.

ghost use Rattle.std.specs.Prelude.{◌≡◌, ◌==◌, ◌<◌, ◌≤◌, ◌-◌, ◌^◌, true, IsTrue, ◌↔◌, take, drop, replicate, length};
ghost use Rattle.std.specs.List.{All};
ghost use Rattle.sd_sid.specs.Sid.{SidValue, sid_of, sid_error_number, sid_error_name, same_sid, owner_rights, sid_cmp};
ghost use Rattle.sd_sid.specs.Sid.{IsSid};

use std::error::Error;
use std::fmt;
use std::hash::{Hash, Hasher};
use std::marker::Model;

/// The most sub-authorities that a SID has ([MS-DTYP] 2.4.2.2, SubAuthorityCount).
pub const MAX_SUBS: usize = 15;

/// So many sub-authorities has a domain's account ([MS-DTYP] 2.4.2.4, S-1-5-21-..), and few SIDs have more.
const ACCOUNT_SUBS: usize = 5;

/// An identifier authority is below this: it has six bytes ([MS-DTYP] 2.4.2.2, IdentifierAuthority).
pub const AUTHORITY_LIMIT: u64 = 0x1_0000_0000_0000;

/// A security identifier ([MS-DTYP] 2.4.2): an authority below 2^48, and 1 to 15 sub-authorities of 32 bits.
/// Contracts see it as that pair. It is a plain value: two are compared whole, without a test of the number of
/// sub-authorities, since the unused ones are zeros.
#[derive(Clone, Copy, Debug, PartialEq, Eq, PartialOrd, Ord)]
pub struct Sid {
    authority: u64,
    subs: [u32; MAX_SUBS],
    count: usize,
}

impl Model for Sid {
    ghost use Rattle.std.specs.Prelude.{◌-◌, ◌++◌, length, take, replicate};
    ghost use Rattle.sd_sid.specs.Sid.{SidValue, IsPadded};

    ghost Value = { SidValue };

    ghost view = { λ s. record { authority = s.authority; subs = take s.count s.subs } };

    ghost invariant = { λ s. IsPadded s.authority s.subs s.count };

    ghost inverse = { λ v. record {
      authority = v.authority;
      subs = v.subs ++ replicate (15 - length v.subs) 0;
      count = length v.subs;
    } };

    ghost use Rattle.sd_sid.specs.SidParts.{parts_come_back};

    ghost inverse_ok = { parts_come_back };
}

impl Hash for Sid {
    ghost use Rattle.sd_sid.specs.SidParts.{alike, hash_input};

    ghost hash_input = { hash_input };

    ghost respects_eq = { alike };

    // (without the zeros behind the sub-authorities: a hash costs a third)
    fn hash<H: Hasher>(&self, state: &mut H) {
        self.authority.hash(state);
        self.subs().hash(state);
    }
}

/// Why parts or bytes are no SID.
#[derive(Clone, Copy, Debug, PartialEq, Eq)]
pub enum SidError {
    /// The first byte isn't 1.
    Revision,
    /// There are no sub-authorities, or more than 15.
    Count,
    /// The bytes end before the SID does.
    Short,
    /// The authority is 2^48 or more.
    Authority,
}

impl SidError {
    /// The error's number.
    pub fn number(self) -> u8
        ensures { result ≡ sid_error_number self }
    {
        match self {
            SidError::Revision => 1,
            SidError::Count => 2,
            SidError::Short => 3,
            SidError::Authority => 4,
        }
    }

    /// The error's name.
    pub fn name(self) -> &'static str
        ensures { result.now ≡ sid_error_name self }
    {
        match self {
            SidError::Revision => "Revision",
            SidError::Count => "Count",
            SidError::Short => "Short",
            SidError::Authority => "Authority",
        }
    }
}

impl fmt::Display for SidError {
    ghost use Rattle.std.specs.Prelude.{Some};
    ghost use Rattle.std.specs.Fmt.{padded};

    ghost output = { λ e. Some (sid_error_name e) };

    ghost styled_output = { λ e spec. Some (padded spec (sid_error_name e)) };

    fn fmt<W: fmt::Write>(&self, f: &mut fmt::Formatter<W>) -> fmt::Result {
        f.pad(self.name())
    }
}

impl Error for SidError {}

impl Sid {
    /// The SID of an authority and its sub-authorities: `Count` unless there are 1 to 15 of them, else
    /// `Authority` unless the authority is below 2^48 ([MS-DTYP] 2.4.2).
    pub fn new(authority: u64, subs: &[u32]) -> Result<Sid, SidError>
        ensures { result ≡ sid_of authority subs.now }
    {
        if subs.is_empty() || subs.len() > MAX_SUBS {
            return Err(SidError::Count);
        }
        if authority >= AUTHORITY_LIMIT {
            return Err(SidError::Authority);
        }
        let mut padded = [0; MAX_SUBS];
        padded[..subs.len()].copy_from_slice(subs);
        Ok(Sid {
            authority,
            subs: padded,
            count: subs.len(),
        })
    }

    /// The SID of an authority and of sub-authorities that are padded with zeros already.
    #[inline(always)]
    pub(crate) fn of_padded(authority: u64, subs: [u32; MAX_SUBS], count: usize) -> Sid
        requires authority { authority < 2 ^ 48 }
        requires some { 0 < count }
        requires few { count ≤ 15 }
        requires room { length subs ≡ 15 }
        requires padding { drop count subs ≡ replicate (15 - count) 0 }
        requires words { All (λ sub. sub < 2 ^ 32) subs }
        ensures { result ≡ record { authority = authority; subs = take count subs } }
    {
        Sid {
            authority,
            subs,
            count,
        }
    }

    /// The identifier authority, below 2^48.
    pub fn authority(&self) -> u64
        ensures authority { result ≡ self.now.authority }
        ensures known { IsSid self.now }
    {
        self.authority
    }

    /// The 1 to 15 sub-authorities, in order.
    pub fn subs(&self) -> &[u32]
        ensures subs { result.now ≡ self.now.subs }
        ensures known { IsSid self.now }
    {
        &self.subs[..self.count]
    }

    /// Whether both are the same SID: as `==`, for callers whose contracts speak of values.
    #[inline]
    #[tactic(auto, using(crate::proofs::Compared::equal_by_value))]
    pub fn is(&self, other: &Sid) -> bool
        ensures { result ≡ same_sid self.now other.now }
    {
        // (the two calls give contracts the value of each SID)
        let _known = (self.authority(), other.authority());
        self.begins_as(other) && (self.count <= ACCOUNT_SUBS || self == other)
    }

    /// Whether the first five numbers are the same, and the rest of both but further numbers. SIDs of a domain's
    /// accounts differ in the fifth, the relative identifier.
    #[inline]
    fn begins_as(&self, other: &Sid) -> bool
        ensures same { same_sid self.now other.now ≡ true → result ≡ true }
        ensures few { result ≡ true → length self.now.subs ≤ 5 → same_sid self.now other.now ≡ true }
    {
        let (one, two) = (&self.subs, &other.subs);
        if one[4] != two[4] {
            return false;
        }
        if one[0] != two[0] || one[1] != two[1] || one[2] != two[2] || one[3] != two[3] {
            return false;
        }
        self.count == other.count && self.authority == other.authority
    }

    /// Whether this is OWNER RIGHTS, S-1-3-4 ([MS-DTYP] 2.4.2.4).
    pub fn is_owner_rights(&self) -> bool
        ensures { result ≡ same_sid self.now owner_rights }
    {
        matches!(
            self,
            Sid {
                authority: 3,
                count: 1,
                subs: [4, ..]
            }
        )
    }
}

/// A law: `==` and `cmp` of SIDs, which compare their fields, agree with those of their values. Two SIDs are equal if
/// they have the same authority and the same sub-authorities; they are ordered by the authority, then by the list of
/// sub-authorities ([MS-DTYP] 2.4.2).
pub fn sids_compare_by_value()
    ensures equal { (a b : SidValue) → IsSid a → IsSid b → ⟦<Sid as PartialEq>⟧.eq a b ≡ same_sid a b }
    ensures same { (a b : SidValue) → IsTrue (same_sid a b) ↔ (a ≡ b) }
    ensures ordered { (a b : SidValue) → IsSid a → IsSid b → ⟦<Sid as Ord>⟧.cmp a b ≡ sid_cmp a b }
{}
