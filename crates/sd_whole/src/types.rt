//! The types of objects that an entry is for.

ghost use Rattle.std.specs.Prelude.{◌≡◌, ◌+◌, ◌≤◌, ◌++◌, length, vec_len, vec_capacity, IfSome};
ghost use Rattle.sd_whole.specs.Entry.{guid_part, types_part, types_word};
ghost use Rattle.sd_whole.specs.Layout.{guid_read, types_read};

use sd_wire::{bits_when, has_bits, read_u32};

/// The length of a GUID ([MS-DTYP] 2.3.4.2).
pub const GUID_BYTES: usize = 16;

/// The length of the flags before the GUIDs ([MS-DTYP] 2.4.4.3, Flags).
const WORD_BYTES: usize = 4;

/// The flag of the first GUID ([MS-DTYP] 2.4.4.3, ACE_OBJECT_TYPE_PRESENT).
const OBJECT_TYPE_PRESENT: u16 = 1;

/// The flag of the second GUID ([MS-DTYP] 2.4.4.3, ACE_INHERITED_OBJECT_TYPE_PRESENT).
const INHERITED_OBJECT_TYPE_PRESENT: u16 = 2;

/// Both flags.
const NAMED_BITS: u32 = 3;

/// A GUID as it is in an entry ([MS-DTYP] 2.3.4.2): its first three parts are little-endian.
#[derive(Clone, Copy, Debug, PartialEq, Eq, Hash)]
pub struct Guid {
    pub bytes: [u8; GUID_BYTES],
}

impl Guid {
    /// The bytes, in order.
    pub fn as_slice(&self) -> &[u8]
        ensures bytes { result.now ≡ self.now.bytes }
        ensures size { length self.now.bytes ≡ 16 }
    {
        &self.bytes
    }
}

/// The types of objects that an entry is for ([MS-DTYP] 2.4.4.3).
#[derive(Clone, Copy, Debug, PartialEq, Eq, Hash)]
pub struct ObjectTypes {
    /// ObjectType: the class, property set, property or extended right that the entry speaks of.
    pub object: Option<Guid>,
    /// InheritedObjectType: the class of the children that inherit the entry.
    pub inherited: Option<Guid>,
}

impl ObjectTypes {
    /// No object types.
    pub const NONE: ObjectTypes = ObjectTypes {
        object: None,
        inherited: None,
    };
}

/// Parses the flags and the GUIDs at the front of the bytes, where the kind has them. Returns them with their length in
/// bytes ([MS-DTYP] 2.4.4.3); `None`: a flag has no name, or the bytes are too few.
#[tactic(auto, unfolding(crate::specs::Layout::types_read))]
pub(crate) fn read_types(has: bool, bytes: &[u8]) -> Option<(ObjectTypes, usize)>
    ensures read { result ≡ types_read has bytes.now }
    ensures size { IfSome result (λ x. x.1 ≤ length bytes.now) }
{
    if !has {
        return Some((ObjectTypes::NONE, 0));
    }
    if bytes.len() < WORD_BYTES {
        return None;
    }
    let word = read_u32(bytes, 0);
    if word > NAMED_BITS {
        return None;
    }
    let flags = word as u16;
    let rest = &bytes[WORD_BYTES..];
    let (object, object_size) = read_guid(has_bits(flags, OBJECT_TYPE_PRESENT), rest)?;
    let rest = &rest[object_size..];
    let (inherited, inherited_size) = read_guid(
        has_bits(flags, INHERITED_OBJECT_TYPE_PRESENT),
        rest,
    )?;
    Some((
        ObjectTypes { object, inherited },
        WORD_BYTES + object_size + inherited_size,
    ))
}

/// Parses the GUID at the front of the bytes, if there must be one. Returns it with its length in bytes; `None`: the
/// bytes are too few ([MS-DTYP] 2.3.4.2).
fn read_guid(is_there: bool, bytes: &[u8]) -> Option<(Option<Guid>, usize)>
    ensures read { result ≡ guid_read is_there bytes.now }
    ensures size { IfSome result (λ x. x.1 ≤ length bytes.now) }
{
    if !is_there {
        return Some((None, 0));
    }
    if bytes.len() < GUID_BYTES {
        return None;
    }
    let mut guid = [0; GUID_BYTES];
    guid.copy_from_slice(&bytes[..GUID_BYTES]);
    Some((Some(Guid { bytes: guid }), GUID_BYTES))
}

/// The length of the flags and the GUIDs, where the kind has them.
pub(crate) fn types_len(has: bool, types: &ObjectTypes) -> usize
    ensures size { result ≡ length (types_part has types.now) }
    ensures most { result ≤ 36 }
{
    if !has {
        return 0;
    }
    WORD_BYTES + guid_len(&types.object) + guid_len(&types.inherited)
}

/// The length of a GUID, if there is one.
fn guid_len(guid: &Option<Guid>) -> usize
    ensures size { result ≡ length (guid_part guid.now) }
    ensures most { result ≤ 16 }
{
    match guid {
        Some(guid) => guid.as_slice().len(),
        None => 0,
    }
}

/// Appends the flags and the GUIDs, where the kind has them. The capacity must suffice.
pub(crate) fn push_types(bytes: &mut Vec<u8>, has: bool, types: &ObjectTypes)
    requires { vec_len bytes.old + length (types_part has types.now) ≤ vec_capacity bytes.old }
    ensures items { bytes.new.items ≡ bytes.old.items ++ types_part has types.now }
    ensures capacity { vec_capacity bytes.old ≤ vec_capacity bytes.new }
{
    if has {
        let word = bits_when(types.object.is_some(), OBJECT_TYPE_PRESENT)
            + bits_when(types.inherited.is_some(), INHERITED_OBJECT_TYPE_PRESENT);
        bytes
            .extend_from_slice(&(word as u32).to_le_bytes())
            .unwrap();
        push_guid(bytes, &types.object);
        push_guid(bytes, &types.inherited);
    }
}

/// Appends a GUID, if there is one. The capacity must suffice.
fn push_guid(bytes: &mut Vec<u8>, guid: &Option<Guid>)
    requires { vec_len bytes.old + length (guid_part guid.now) ≤ vec_capacity bytes.old }
    ensures items { bytes.new.items ≡ bytes.old.items ++ guid_part guid.now }
    ensures capacity { vec_capacity bytes.old ≤ vec_capacity bytes.new }
{
    if let Some(guid) = guid {
        bytes.extend_from_slice(guid.as_slice()).unwrap();
    }
}
