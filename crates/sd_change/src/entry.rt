//! What becomes of an entry.

ghost use Rattle.std.specs.Prelude.{◌≡◌, IfOk};
ghost use Rattle.sd_whole.specs.Entry.{flags_of};
ghost use Rattle.sd_change.specs.Change.{entry_after, flags_after, is_inherited, own_flags, sid_after, takes};
ghost use Rattle.sd_change.specs.Occurrence.{is_for};

use crate::change::{Change, Inherited};
use bitflags::Flags;
use sd_acl::{Ace, AceFlags};
use sd_sid::Sid;
use sd_whole::{AceData, OpaqueAce, TypedAce, WholeAce};
use sd_whole_text::AclKind;
use sd_wire::has_bits;
use std::alloc::{AllocError, Global};

/// The flag of an inherited entry ([MS-DTYP] 2.4.4.1, INHERITED_ACE).
const INHERITED: u8 = 0x10;

/// Whether the entry is inherited.
pub(crate) fn is_inherited(entry: &WholeAce) -> bool
    ensures { result ≡ is_inherited entry.now }
{
    has_bits(u16::from(entry.flags().bits()), u16::from(INHERITED))
}

/// The flags without that of an inherited entry.
fn own_flags(flags: AceFlags) -> AceFlags
    ensures { result.0 ≡ own_flags flags.0 }
{
    if has_bits(u16::from(flags.bits()), u16::from(INHERITED)) {
        AceFlags::from_bits_retain(flags.bits() & !INHERITED)
    } else {
        flags
    }
}

/// Whether the entry is for the SID. An entry that is kept as bytes is for none.
pub(crate) fn is_for(sid: &Sid, entry: &WholeAce) -> bool
    ensures { result ≡ is_for sid.now entry.now }
{
    match entry {
        WholeAce::Plain(ace) => sid.is(&ace.sid),
        WholeAce::Typed(ace) => sid.is(&ace.sid),
        WholeAce::Opaque(_) => false,
    }
}

impl Change {
    /// Whether the entry of a list goes.
    pub(crate) fn takes(&self, kind: AclKind, entry: &WholeAce) -> bool
        ensures { result ≡ takes self.now kind entry.now }
    {
        match (self, kind) {
            (Change::Remove { sid }, _) => is_for(sid, entry),
            (Change::Protect(Inherited::Dropped), AclKind::Dacl) => is_inherited(entry),
            _ => false,
        }
    }

    /// The SID in the place of one.
    pub(crate) fn sid_after(&self, sid: &Sid) -> Sid
        ensures { result ≡ sid_after self.now sid.now }
    {
        match self {
            Change::Replace { old, new } if old.is(sid) => *new,
            _ => *sid,
        }
    }

    /// The flags of an entry that stays: one of a protected DACL is no longer inherited.
    fn flags_after(&self, kind: AclKind, flags: AceFlags) -> AceFlags
        ensures { result.0 ≡ flags_after self.now kind flags.0 }
    {
        match (self, kind) {
            (Change::Protect(_), AclKind::Dacl) => own_flags(flags),
            _ => flags,
        }
    }

    /// An entry that stays, with its SID and its flags after the change.
    pub(crate) fn entry_after(
        &self,
        alloc: Global,
        kind: AclKind,
        entry: &WholeAce,
    ) -> Result<WholeAce, AllocError>
        ensures { IfOk result (λ after. after ≡ entry_after self.now kind entry.now) }
    {
        match entry {
            WholeAce::Plain(ace) => Ok(WholeAce::Plain(Ace {
                kind: ace.kind,
                flags: self.flags_after(kind, ace.flags),
                mask: ace.mask,
                sid: self.sid_after(&ace.sid),
            })),
            WholeAce::Typed(ace) => Ok(WholeAce::Typed(TypedAce {
                kind: ace.kind,
                flags: self.flags_after(kind, ace.flags),
                mask: ace.mask,
                types: ace.types,
                sid: self.sid_after(&ace.sid),
                trailing: AceData::copied(alloc, ace.trailing.as_slice())?,
            })),
            WholeAce::Opaque(ace) => Ok(WholeAce::Opaque(OpaqueAce {
                kind: ace.kind,
                flags: self.flags_after(kind, ace.flags),
                body: AceData::copied(alloc, ace.body.as_slice())?,
            })),
        }
    }
}
