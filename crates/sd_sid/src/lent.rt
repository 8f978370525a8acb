//! SIDs borrowed from their bytes.

ghost use Rattle.std.specs.Prelude.{◌≡◌, ◌+◌, ◌-◌, ◌*◌, ◌≤◌, length, slice_index, IfOk};
ghost use Rattle.sd_sid.specs.Sid.{same_sid, owner_rights};
ghost use Rattle.sd_sid.specs.SidBytes.{sid_reading};

use crate::bytes::{SID_HEADER_BYTES, authority_in, sub_at, subs_of};
use crate::sid::{MAX_SUBS, Sid, SidError};
use std::marker::Model;

/// The only revision of a SID ([MS-DTYP] 2.4.2.2, Revision).
pub(crate) const REVISION: u8 = 1;

/// A SID borrowed from bytes that passed the tests of `read_sid`; nothing is copied ([MS-DTYP] 2.4.2.2). Contracts see
/// it as the SID.
#[derive(Drop)]
pub struct SidRef<'a> {
    bytes: &'a [u8],
    count: usize,
}

impl<'a> Model for SidRef<'a> {
    ghost use Rattle.std.specs.Prelude.{◌+◌, ◌*◌, ◌<◌, ◌≤◌, length};
    ghost use Rattle.sd_sid.specs.Sid.{SidValue};
    ghost use Rattle.sd_sid.specs.SidBytes.{authority_of, u32s_at};

    ghost Value = { SidValue };

    ghost view = { λ s. record { authority = authority_of s.bytes.now; subs = u32s_at s.bytes.now 8 s.count } };

    ghost invariant = { λ s. (0 < s.count) × (s.count ≤ 15) × (8 + 4 * s.count ≤ length s.bytes.now) };
}

impl<'a> SidRef<'a> {
    /// Parses the SID at the front of the bytes. Returns it and its length, or the error that `read_sid` returns.
    #[inline(always)]
    #[tactic(auto, unfolding(crate::specs::SidBytes::sid_reading))]
    pub fn read(bytes: &'a [u8]) -> Result<(SidRef<'a>, u64), SidError>
        ensures read { result ≡ sid_reading bytes.now }
        ensures size { IfOk result (λ x. (x.1 ≡ 8 + 4 * length x.0.subs) × (x.1 ≤ length bytes.now)) }
    {
        if bytes.len() < SID_HEADER_BYTES {
            return Err(SidError::Short);
        }
        if bytes[0] != REVISION {
            return Err(SidError::Revision);
        }
        let count = bytes[1] as usize;
        if count == 0 || count > MAX_SUBS {
            return Err(SidError::Count);
        }
        let size = SID_HEADER_BYTES + 4 * count;
        if bytes.len() < size {
            return Err(SidError::Short);
        }
        Ok((SidRef { bytes, count }, size as u64))
    }

    /// A copy of the SID.
    #[inline(always)]
    pub fn copied(&self) -> Sid
        ensures { result ≡ self.now }
    {
        Sid::of_padded(
            authority_in(self.bytes),
            subs_of(self.bytes, self.count),
            self.count,
        )
    }

    /// A copy of the SID, if there is one.
    #[inline(always)]
    pub fn copied_from(lent: &Option<SidRef<'_>>) -> Option<Sid>
        ensures { result ≡ lent.now }
    {
        match lent {
            Some(sid) => Some(sid.copied()),
            None => None,
        }
    }

    /// Whether this is OWNER RIGHTS, S-1-3-4 ([MS-DTYP] 2.4.2.4).
    #[inline(always)]
    pub fn is_owner_rights(&self) -> bool
        ensures { result ≡ same_sid self.now owner_rights }
    {
        if self.count != 1 {
            return false;
        }
        self.copied().is_owner_rights()
    }

    /// The last sub-authority: the relative identifier of an account in a domain ([MS-DTYP] 2.4.2).
    #[inline(always)]
    pub fn last_sub(&self) -> u32
        ensures { result ≡ slice_index self.now.subs (length self.now.subs - 1) }
    {
        sub_at(self.bytes, SID_HEADER_BYTES + 4 * (self.count - 1))
    }
}
