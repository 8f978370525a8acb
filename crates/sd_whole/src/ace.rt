//! Entries of every type.

ghost use Rattle.std.specs.Prelude.{◌≡◌, ◌≤◌};
ghost use Rattle.sd_wire.specs.Writing.{kind_byte};
ghost use Rattle.sd_whole.specs.Entry.{flags_of, for_children_alone, type_of, typed_size_of, whole_ace_size};

use crate::data::AceData;
use crate::kind::WholeKind;
use crate::types::{ObjectTypes, types_len};
use bitflags::Flags;
use sd_acl::{Ace, AceFlags, AceKind};
use sd_sid::{Mask, SID_HEADER_BYTES, Sid};

/// The length of an entry's header: type, flags, AceSize ([MS-DTYP] 2.4.4.1).
pub(crate) const ACE_HEADER_BYTES: usize = 4;

/// The length of a mask ([MS-DTYP] 2.4.3).
pub(crate) const MASK_BYTES: usize = 4;

/// An entry whose body has the layout of its type ([MS-DTYP] 2.4.4.2 to 2.4.4.16).
#[derive(Debug, Drop)]
pub struct TypedAce {
    pub kind: WholeKind,
    pub flags: AceFlags,
    pub mask: Mask,
    /// None for a kind without object types.
    pub types: ObjectTypes,
    pub sid: Sid,
    /// The bytes after the SID: application data, a claim, or none.
    pub trailing: AceData,
}

/// An entry whose type has no layout, or whose body doesn't have the layout of its type ([MS-DTYP] 2.4.4.1).
#[derive(Debug, Drop)]
pub struct OpaqueAce {
    /// AceType.
    pub kind: u8,
    pub flags: AceFlags,
    /// The bytes after the header.
    pub body: AceData,
}

/// An entry of any type ([MS-DTYP] 2.4.4).
#[derive(Debug, Drop)]
pub enum WholeAce {
    /// An allow or a deny with nothing after its SID.
    Plain(Ace),
    /// An entry of a type that has a layout.
    Typed(TypedAce),
    /// Any other entry, as its bytes.
    Opaque(OpaqueAce),
}

impl WholeAce {
    /// AceType ([MS-DTYP] 2.4.4.1).
    pub fn number(&self) -> u8
        ensures { result ≡ type_of self.now }
    {
        match self {
            WholeAce::Plain(ace) => plain_number(ace.kind),
            WholeAce::Typed(ace) => ace.kind.number(),
            WholeAce::Opaque(ace) => ace.kind,
        }
    }

    /// AceFlags, with every bit ([MS-DTYP] 2.4.4.1).
    pub fn flags(&self) -> AceFlags
        ensures { result.0 ≡ flags_of self.now }
    {
        match self {
            WholeAce::Plain(ace) => ace.flags,
            WholeAce::Typed(ace) => ace.flags,
            WholeAce::Opaque(ace) => ace.flags,
        }
    }

    /// The bytes that the entry takes in a list ([MS-DTYP] 2.4.4.1, AceSize).
    #[tactic(auto, using(crate::proofs::Lengths::length_of_plain, crate::proofs::Lengths::length_of_typed))]
    pub fn size(&self) -> u64
        ensures size { result ≡ whole_ace_size self.now }
        ensures most { result ≤ 65647 }
    {
        match self {
            WholeAce::Plain(ace) => ace.size(),
            WholeAce::Typed(ace) => typed_size(ace),
            WholeAce::Opaque(ace) => (ACE_HEADER_BYTES + ace.body.as_slice().len()) as u64,
        }
    }
}

/// Whether an entry with these flags is inherit-only: it is for children alone ([MS-DTYP] 2.4.4.1, INHERIT_ONLY_ACE).
pub fn for_children_alone(flags: AceFlags) -> bool
    ensures { result ≡ for_children_alone flags.0 }
{
    flags.contains(AceFlags::IO)
}

/// The bytes that an entry with a layout takes.
fn typed_size(ace: &TypedAce) -> u64
    ensures size { result ≡ typed_size_of ace.now }
    ensures most { result ≤ 65647 }
{
    let types = types_len(ace.kind.has_object_types(), &ace.types);
    let sid = SID_HEADER_BYTES + 4 * ace.sid.subs().len();
    (ACE_HEADER_BYTES + MASK_BYTES + types + sid + ace.trailing.as_slice().len()) as u64
}

/// The AceType of an allow or a deny.
fn plain_number(kind: AceKind) -> u8
    ensures { result ≡ kind_byte kind }
{
    match kind {
        AceKind::Allow => WholeKind::Allow.number(),
        AceKind::Deny => WholeKind::Deny.number(),
    }
}
