//! The row that a name of two letters can have in its table. Only for speed: a call that looks at that row alone is
//! proved to find what a search of the whole table finds.

ghost use Rattle.std.specs.Prelude.{◌≡◌, ◌<◌};
ghost use Rattle.sd_text.specs.Places.{slot, sid_slot};

use sd_sid::Sid;

/// How many numbers two letters can have: small, but no two names of a table share one.
pub(crate) const SLOTS: usize = 109;

/// The row of each number of two letters, 99 if there is none.
pub(crate) type Places = [u8; SLOTS];

/// For the names of rights.
pub(crate) static RIGHT_PLACES: Places = [
    99, 99, 99, 99, 13, 6, 2, 20, 99, 99, 24, 99, 99, 99, 99, 99, 14, 99, 99, 99, 10, 16, 99, 99,
    99, 99, 99, 99, 99, 99, 99, 99, 9, 99, 99, 99, 99, 99, 19, 99, 99, 99, 99, 18, 99, 15, 99, 99,
    7, 0, 99, 99, 99, 11, 99, 99, 99, 99, 99, 99, 99, 99, 99, 99, 99, 99, 99, 99, 17, 99, 99, 99,
    99, 99, 99, 99, 99, 99, 99, 4, 3, 99, 99, 99, 8, 99, 99, 99, 99, 99, 99, 99, 99, 99, 99, 99,
    99, 99, 23, 22, 99, 99, 99, 5, 1, 99, 99, 21, 12,
];

/// For the names of flags.
pub(crate) static FLAG_PLACES: Places = [
    99, 99, 99, 99, 99, 99, 4, 99, 99, 99, 99, 99, 99, 99, 99, 99, 99, 99, 3, 99, 99, 99, 99, 99,
    99, 99, 99, 99, 99, 99, 99, 99, 99, 99, 2, 99, 99, 99, 99, 99, 99, 99, 99, 99, 99, 99, 99, 99,
    99, 99, 99, 99, 99, 99, 99, 1, 99, 99, 99, 99, 99, 99, 99, 99, 99, 99, 99, 0, 99, 99, 99, 99,
    99, 99, 99, 99, 99, 99, 99, 6, 99, 99, 99, 99, 99, 99, 99, 99, 99, 99, 99, 99, 5, 99, 99, 99,
    99, 99, 99, 99, 99, 99, 99, 99, 99, 99, 99, 99, 99,
];

/// For the aliases that need no domain.
pub(crate) static ALIAS_PLACES: Places = [
    33, 99, 8, 3, 11, 99, 99, 99, 99, 99, 20, 23, 1, 31, 99, 26, 99, 99, 99, 99, 0, 99, 99, 27, 99,
    22, 24, 99, 21, 12, 99, 99, 18, 2, 99, 99, 99, 99, 99, 99, 99, 99, 99, 99, 99, 99, 99, 32, 99,
    99, 99, 99, 99, 99, 99, 99, 99, 99, 99, 99, 99, 99, 30, 99, 99, 13, 99, 14, 99, 9, 99, 99, 99,
    99, 99, 16, 10, 17, 99, 99, 99, 99, 99, 99, 5, 99, 99, 29, 28, 4, 99, 19, 99, 25, 6, 99, 15,
    99, 99, 99, 99, 99, 99, 99, 99, 99, 99, 99, 7,
];

/// How many numbers SIDs can have.
const SID_SLOTS: usize = 58;

/// The row of each number of a SID, 99 if there is none.
pub(crate) type SidPlaces = [u8; SID_SLOTS];

/// For the SIDs that have an alias.
pub(crate) static SID_PLACES: SidPlaces = [
    99, 99, 0, 32, 33, 99, 1, 2, 99, 99, 3, 99, 4, 99, 5, 99, 6, 7, 99, 8, 9, 10, 11, 99, 99, 99,
    99, 99, 12, 13, 14, 15, 16, 17, 18, 19, 20, 21, 22, 23, 24, 99, 25, 26, 27, 99, 28, 29, 99, 99,
    99, 99, 99, 99, 99, 99, 30, 31,
];

/// The number of two letters, of either case.
pub(crate) fn slot(first: u8, second: u8) -> usize
    ensures number { result ≡ slot first second }
    ensures within { result < 109 }
{
    let first = usize::from(first.to_ascii_lowercase());
    let second = usize::from(second.to_ascii_lowercase());
    (first + 11 * second) % SLOTS
}

/// The number of a SID, by its authority and its last sub-authority.
pub(crate) fn sid_slot(sid: &Sid) -> usize
    ensures number { result ≡ sid_slot sid.now }
    ensures within { result < 58 }
{
    let subs = sid.subs();
    let last = u64::from(subs[subs.len() - 1]);
    ((2 * sid.authority() + last) % SID_SLOTS as u64) as usize
}
