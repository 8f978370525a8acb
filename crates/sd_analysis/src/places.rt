//! The places of SIDs in a list of them.

ghost use Rattle.std.specs.Prelude.{◌≡◌, IfOk, map};
ghost use Rattle.sd_sid.specs.Sid.{same_sid};
ghost use Rattle.sd_analysis.specs.Table.{last_sub, place_in};

use sd_sid::Sid;
use std::alloc::{AllocError, Global};

/// For each of the SIDs the place of the first that is the same.
pub(crate) fn places_of(alloc: Global, sids: &[Sid]) -> Result<Vec<usize>, AllocError>
    ensures { IfOk result (λ places. places.items ≡ map (place_in sids.now) sids.now) }
{
    sids.iter().map(|sid| place_of(sids, sid)).collect(alloc)
}

/// The place of the first that is the same, or their number.
pub(crate) fn place_of(sids: &[Sid], sid: &Sid) -> usize
    ensures { result ≡ place_in sids.now sid.now }
{
    let last = last_sub(sid);
    for (place, one) in sids.iter().enumerate() {
        if is_same(one, sid, last) {
            return place;
        }
    }
    sids.len()
}

/// Whether both are the same SID, where the last sub-authority of the second one is this.
#[inline(always)]
fn is_same(one: &Sid, sid: &Sid, last: u32) -> bool
    requires { last ≡ last_sub sid.now }
    ensures { result ≡ same_sid one.now sid.now }
{
    let its_last = last_sub(one);
    if its_last != last {
        return false;
    }
    one.is(sid)
}

/// The SID's last sub-authority, in which SIDs differ most.
#[inline(always)]
fn last_sub(sid: &Sid) -> u32
    ensures { result ≡ last_sub sid.now }
{
    let subs = sid.subs();
    subs[subs.len() - 1]
}
