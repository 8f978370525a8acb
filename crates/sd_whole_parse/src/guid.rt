//! The fields of an entry's GUIDs: [MS-DTYP] 2.5.1.1, object-guid and inherit-object-guid.

ghost use Rattle.std.specs.Prelude.{◌≡◌, ◌<◌, IfOk, IfSome};
ghost use Rattle.sd_text.specs.Entry.{guid as no_guid};
ghost use Rattle.sd_text.specs.Finding.{Gives, find};
ghost use Rattle.sd_whole.specs.Whole.{AreTypes, IsGuid};
ghost use Rattle.sd_whole_parse.specs.Guid.{byte, guid, guid_field, guid_in, hex_digit, pair, types_of};

use sd_text::{Cursor, TextFault};
use sd_whole::{Guid, ObjectTypes};

/// The hexadecimal digits.
static HEX_DIGITS: [(&str, u8); 16] = [
    ("0", 0),
    ("1", 1),
    ("2", 2),
    ("3", 3),
    ("4", 4),
    ("5", 5),
    ("6", 6),
    ("7", 7),
    ("8", 8),
    ("9", 9),
    ("A", 10),
    ("B", 11),
    ("C", 12),
    ("D", 13),
    ("E", 14),
    ("F", 15),
];

/// The GUID that all of the text is, 8-4-4-4-12 hexadecimal digits ([MS-DTYP] 2.3.4.3). `None`: the text is none.
pub fn read_guid_text(text: &str) -> Option<Guid>
    ensures { result ≡ guid_in text.now }
{
    let mut cursor = Cursor::new(text);
    match read_guid(&mut cursor) {
        Ok(guid) if cursor.rest.is_empty() => Some(guid),
        _ => None,
    }
}

/// The fields of both GUIDs, each with its `;`. They are empty in an entry without object types.
#[tactic(auto, unfolding(crate::specs::Guid::types_of))]
pub(crate) fn read_types(cursor: &mut Cursor<'_>, has: bool) -> Result<ObjectTypes, TextFault>
    ensures found { Gives (λ types. types) result cursor.new.rest.now (find (types_of has) cursor.old.rest.now) }
    ensures whole { IfOk result (λ types. AreTypes has types) }
{
    if !has {
        read_no_guid(cursor)?;
        read_no_guid(cursor)?;
        return Ok(ObjectTypes::NONE);
    }
    let object = read_field(cursor)?;
    let inherited = read_field(cursor)?;
    Ok(ObjectTypes { object, inherited })
}

/// An empty field of a GUID.
#[tactic(auto, unfolding(sd_text::specs::Entry::guid))]
fn read_no_guid(cursor: &mut Cursor<'_>) -> Result<(), TextFault>
    ensures { Gives (λ _. tt) result cursor.new.rest.now (find no_guid cursor.old.rest.now) }
{
    if cursor.eat(b";") {
        Ok(())
    } else if cursor.rest.is_empty() {
        Err(TextFault::Syntax)
    } else {
        Err(TextFault::ObjectGuid)
    }
}

/// A field of a GUID, perhaps empty.
#[tactic(auto, unfolding(crate::specs::Guid::guid_field))]
fn read_field(cursor: &mut Cursor<'_>) -> Result<Option<Guid>, TextFault>
    ensures found { Gives (λ guid. guid) result cursor.new.rest.now (find guid_field cursor.old.rest.now) }
    ensures whole { IfOk result (λ guid. IfSome guid IsGuid) }
{
    if cursor.eat(b";") {
        return Ok(None);
    }
    let guid = read_guid(cursor)?;
    cursor.word(b";")?;
    Ok(Some(guid))
}

/// A GUID, 8-4-4-4-12 digits ([MS-DTYP] 2.3.4.3). The first three groups are little-endian in the bytes.
#[tactic(auto, unfolding(crate::specs::Guid::guid))]
fn read_guid(cursor: &mut Cursor<'_>) -> Result<Guid, TextFault>
    ensures found { Gives (λ guid. guid) result cursor.new.rest.now (find guid cursor.old.rest.now) }
    ensures whole { IfOk result IsGuid }
{
    let a = read_pair(cursor)?;
    let b = read_pair(cursor)?;
    cursor.word(b"-")?;
    let c = read_pair(cursor)?;
    cursor.word(b"-")?;
    let d = read_pair(cursor)?;
    cursor.word(b"-")?;
    let e = read_pair(cursor)?;
    cursor.word(b"-")?;
    let f = read_pair(cursor)?;
    let g = read_pair(cursor)?;
    let h = read_pair(cursor)?;
    Ok(Guid {
        bytes: [
            b.1, b.0, a.1, a.0, c.1, c.0, d.1, d.0, e.0, e.1, f.0, f.1, g.0, g.1, h.0, h.1,
        ],
    })
}

/// Two bytes.
#[tactic(auto, unfolding(crate::specs::Guid::pair))]
fn read_pair(cursor: &mut Cursor<'_>) -> Result<(u8, u8), TextFault>
    ensures { Gives (λ pair. pair) result cursor.new.rest.now (find pair cursor.old.rest.now) }
{
    let first = read_byte(cursor)?;
    let second = read_byte(cursor)?;
    Ok((first, second))
}

/// A byte in two digits.
#[tactic(auto, unfolding(crate::specs::Guid::byte))]
fn read_byte(cursor: &mut Cursor<'_>) -> Result<u8, TextFault>
    ensures { Gives (λ byte. byte) result cursor.new.rest.now (find byte cursor.old.rest.now) }
{
    let high = read_digit(cursor)?;
    let low = read_digit(cursor)?;
    Ok(16 * high + low)
}

/// A digit.
#[tactic(auto, unfolding(crate::specs::Guid::hex_digit))]
fn read_digit(cursor: &mut Cursor<'_>) -> Result<u8, TextFault>
    ensures digit { Gives (λ digit. digit) result cursor.new.rest.now (find hex_digit cursor.old.rest.now) }
    ensures bound { IfOk result (λ digit. digit < 16) }
{
    match cursor.name(&HEX_DIGITS) {
        Some(digit) => Ok(digit),
        None => Err(TextFault::Syntax),
    }
}
