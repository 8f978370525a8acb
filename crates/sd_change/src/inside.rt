//! SIDs within the data of entries, which no change reaches: in conditions, claims, and bodies without a layout.

ghost use Rattle.std.specs.Prelude.{◌≡◌, ◌<◌, ◌^◌, IfSome, None, position};
ghost use Rattle.sd_change.specs.Inside.{begins_with, first_inside, has_inside, is_found, is_read, is_within, place_in};
ghost use Rattle.sd_sid.specs.SidBytes.{sid_reading};
ghost use Rattle.sd_text.specs.Alias.{in_domain};
ghost use Rattle.sd_text.specs.Finding.{find};
ghost use Rattle.sd_text.specs.Sid.{sid as sid_text};

use sd_sid::{Sid, read_sid};
use sd_text::{Aliases, Cursor};
use sd_whole::{WholeAce, WholeAcl, WholeDescriptor};
use sd_whole_text::AclKind;

/// An entry of a descriptor.
#[derive(Clone, Copy, Debug, PartialEq, Eq)]
pub struct EntryPlace {
    pub acl: AclKind,
    /// The entry's number in its list, from 1 on.
    pub entry: usize,
}

/// The first entry, of the SACL and then of the DACL, that has the SID in its data: after its own SID, or anywhere in a
/// body without a layout, in binary form or as its text in full ([MS-DTYP] 2.4.2.1, 2.4.2.2). `None`: none has. A text
/// of a condition or a claim, which is in UTF-16, is no SID, whatever it spells.
pub fn first_inside(sid: &Sid, descriptor: &WholeDescriptor) -> Option<EntryPlace>
    ensures { result ≡ first_inside sid.now descriptor.now }
{
    match place_in(AclKind::Sacl, sid, &descriptor.sacl) {
        Some(place) => Some(place),
        None => place_in(AclKind::Dacl, sid, &descriptor.dacl),
    }
}

/// The first entry of the list that has the SID in its data.
fn place_in(kind: AclKind, sid: &Sid, acl: &WholeAcl) -> Option<EntryPlace>
    ensures { result ≡ place_in kind sid.now acl.now }
{
    let WholeAcl::List(list) = acl else {
        return None;
    };
    let place = first_in(sid, list.entries())?;
    Some(EntryPlace {
        acl: kind,
        entry: place + 1,
    })
}

fn first_in(sid: &Sid, entries: &[WholeAce]) -> Option<usize>
    ensures first { result ≡ position (has_inside sid.now) entries.now }
    ensures within { IfSome result (λ place. place < 2 ^ 63) }
{
    entries.iter().position(|entry| has_inside(sid, entry))
}

#[tactic(auto, unfolding(crate::specs::Inside::is_within))]
fn has_inside(sid: &Sid, entry: &WholeAce) -> bool
    ensures { result ≡ has_inside sid.now entry.now }
{
    match entry {
        WholeAce::Plain(_) => false,
        WholeAce::Typed(ace) => is_within(sid, ace.trailing.as_slice()),
        WholeAce::Opaque(ace) => is_within(sid, ace.body.as_slice()),
    }
}

/// Whether the SID is in the bytes, at any place.
#[tactic(auto, unfolding(crate::specs::Inside::is_within))]
fn is_within(sid: &Sid, bytes: &[u8]) -> bool
    ensures { result ≡ is_within sid.now bytes.now }
{
    for place in 0..bytes.len() {
        if begins_with(sid, &bytes[place..]) {
            return true;
        }
    }
    false
}

/// Whether the bytes begin with the SID: with its text in full, as a claim has it, or with its binary form ([MS-DTYP]
/// 2.4.2.1, 2.4.2.2).
fn begins_with(sid: &Sid, bytes: &[u8]) -> bool
    ensures { result ≡ begins_with sid.now bytes.now }
{
    if (Cursor { rest: bytes }).begins(b"S-1-") {
        begins_with_text(sid, bytes)
    } else {
        begins_with_bytes(sid, bytes)
    }
}

fn begins_with_text(sid: &Sid, bytes: &[u8]) -> bool
    ensures { result ≡ is_found sid.now (find (sid_text (in_domain None)) bytes.now) }
{
    let mut cursor = Cursor { rest: bytes };
    match cursor.sid(Aliases::in_domain(None)) {
        Ok(other) => sid.is(&other),
        Err(_) => false,
    }
}

fn begins_with_bytes(sid: &Sid, bytes: &[u8]) -> bool
    ensures { result ≡ is_read sid.now (sid_reading bytes.now) }
{
    match read_sid(bytes) {
        Ok((other, _)) => sid.is(&other),
        Err(_) => false,
    }
}
