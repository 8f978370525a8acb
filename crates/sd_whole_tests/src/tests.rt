//! Whole descriptors, their entries, conditions and claims.

use crate::rows::{BY_HAND, CLAIMS, CONDITIONS, OBJECT, PLAIN, WITHOUT_TEXT};
use bitflags::Flags;
use sd_acl::AceFlags;
use sd_claim::read_claim;
use sd_condition::read_condition;
use sd_text::RightNames;
use sd_whole::{
    AceData, Guid, ListRevision, OpaqueAce, WholeAce, WholeAcl, WholeDescriptor, WholeKind,
    WholeList, WholeListTooLarge, read_whole, read_whole_entry, whole_len, write_whole,
};
use sd_whole_text::{NoText, WholeTextError, print_guid, print_whole};
use std::alloc::{AllocError, Global};
use std::test::Fail;

/// Application data as Samba 4.22 writes it of the conditions `(@USER.a == "x")` and `(Member_of SID(BA))`.
const CONDITION_DATA: [&str; 2] = [
    "61727478f9020000006100100200000078008000",
    "61727478511000000001020000000000052000000020020000890000",
];

/// Application data as Samba 4.22 writes it of the claims `("a",TS,0x0,"b")` and `("Level",TI,0x2,-5,7)`.
const CLAIM_DATA: [&str; 2] = [
    "14000000030000000000000001000000180000006100000062000000",
    "18000000010000000200000002000000240000002c0000004c006500760065006c000000fbffffffffffffff0700000000000000",
];

/// An object allow with an ObjectType, and two bytes of another entry after it.
const OBJECT_ENTRY: &str =
    "050028000000008001000000867a96bfe60dd011a28500aa003049e201010000000000050b0000000000";

/// The descriptor in hexadecimal digits.
fn parsed(alloc: Global, digits: &str) -> Option<WholeDescriptor> {
    let bytes = hex::decode(alloc, digits).ok()?;
    read_whole(alloc, bytes.as_slice()).ok()
}

/// Whether this is the text of the descriptor.
fn is_printed(alloc: Global, wanted: &str, digits: &str) -> bool {
    let Some(descriptor) = parsed(alloc, digits) else {
        return false;
    };
    match print_whole(alloc, RightNames::All, &descriptor) {
        Ok(text) => text.as_str() == wanted,
        Err(_) => false,
    }
}

/// Whether the descriptor has no text, for this reason.
fn has_no_text(alloc: Global, why: NoText, digits: &str) -> bool {
    let Some(descriptor) = parsed(alloc, digits) else {
        return false;
    };
    match print_whole(alloc, RightNames::All, &descriptor) {
        Ok(_) => false,
        Err(error) => error == WholeTextError::NoText(why),
    }
}

/// Whether the descriptor is written as the bytes that it was parsed from.
fn comes_back(alloc: Global, digits: &str) -> Result<bool, AllocError> {
    let Some(descriptor) = parsed(alloc, digits) else {
        return Ok(false);
    };
    let bytes = write_whole(alloc, &descriptor)?;
    let size = bytes.len() as u64;
    let written = hex::encode(alloc, bytes)?;
    Ok(whole_len(&descriptor) == size && written.as_str() == digits)
}

/// The object entry, and its size.
fn object_entry(alloc: Global) -> Option<(WholeAce, usize)> {
    let bytes = hex::decode(alloc, OBJECT_ENTRY).ok()?;
    read_whole_entry(alloc, bytes.as_slice()).ok()
}

/// The descriptor in hexadecimal digits whose DACL has this entry alone.
fn written_alone(alloc: Global, entry: WholeAce) -> Result<String, AllocError> {
    let mut entries = Vec::new(alloc);
    entries.push(entry)?;
    let dacl = match WholeList::new(ListRevision::DirectoryService, entries) {
        Ok(list) => WholeAcl::List(list),
        Err(_) => WholeAcl::Absent,
    };
    let descriptor = WholeDescriptor {
        resource_manager: 0,
        control: 0,
        owner: None,
        group: None,
        sacl: WholeAcl::Absent,
        dacl,
    };
    let bytes = write_whole(alloc, &descriptor)?;
    hex::encode(alloc, bytes)
}

/// The list of one entry that is kept as bytes, and has this body.
fn made_of(
    alloc: Global,
    body: AceData,
) -> Result<Result<WholeList, WholeListTooLarge>, AllocError> {
    let mut entries = Vec::new(alloc);
    entries.push(WholeAce::Opaque(OpaqueAce {
        kind: 4,
        flags: AceFlags::empty(),
        body,
    }))?;
    Ok(WholeList::new(ListRevision::Standard, entries))
}

/// Whether the data is a condition, and is written again.
fn is_condition(alloc: Global, digits: &str) -> Result<bool, AllocError> {
    let Ok(bytes) = hex::decode(alloc, digits) else {
        return Ok(false);
    };
    let Some(condition) = read_condition(alloc, bytes.as_slice())? else {
        return Ok(false);
    };
    let written = condition.write(alloc)?;
    Ok(written.as_slice() == bytes.as_slice())
}

/// Whether the data is a claim, and is written again.
fn is_claim(alloc: Global, digits: &str) -> Result<bool, AllocError> {
    let Ok(bytes) = hex::decode(alloc, digits) else {
        return Ok(false);
    };
    let Some(claim) = read_claim(alloc, bytes.as_slice())? else {
        return Ok(false);
    };
    let written = claim.write(alloc)?;
    Ok(written.as_slice() == bytes.as_slice())
}

#[test]
fn prints_plain_entries_as_samba_prints_them(rt: HostRuntime) -> Result<(), Fail> {
    let alloc = rt.alloc();
    for (wanted, digits) in PLAIN {
        assert!(rt; is_printed(alloc, wanted, digits), "{wanted}");
        assert!(rt; comes_back(alloc, digits)?, "{wanted}");
    }
    Ok(())
}

#[test]
fn prints_object_entries_as_samba_prints_them(rt: HostRuntime) -> Result<(), Fail> {
    let alloc = rt.alloc();
    for (wanted, digits) in OBJECT {
        assert!(rt; is_printed(alloc, wanted, digits), "{wanted}");
        assert!(rt; comes_back(alloc, digits)?, "{wanted}");
    }
    Ok(())
}

#[test]
fn prints_conditions_as_samba_prints_them(rt: HostRuntime) -> Result<(), Fail> {
    let alloc = rt.alloc();
    for (wanted, digits) in CONDITIONS {
        assert!(rt; is_printed(alloc, wanted, digits), "{wanted}");
        assert!(rt; comes_back(alloc, digits)?, "{wanted}");
    }
    Ok(())
}

#[test]
fn prints_claims_as_samba_prints_them(rt: HostRuntime) -> Result<(), Fail> {
    let alloc = rt.alloc();
    for (wanted, digits) in CLAIMS {
        assert!(rt; is_printed(alloc, wanted, digits), "{wanted}");
        assert!(rt; comes_back(alloc, digits)?, "{wanted}");
    }
    Ok(())
}

#[test]
fn prints_what_was_written_by_hand(rt: HostRuntime) -> Result<(), Fail> {
    let alloc = rt.alloc();
    for (wanted, digits) in BY_HAND {
        assert!(rt; is_printed(alloc, wanted, digits), "{wanted}");
        assert!(rt; comes_back(alloc, digits)?, "{wanted}");
    }
    Ok(())
}

#[test]
fn prints_nothing_that_has_no_text(rt: HostRuntime) -> Result<(), Fail> {
    let alloc = rt.alloc();
    for (why, digits) in WITHOUT_TEXT {
        assert!(rt; has_no_text(alloc, why, digits), "{why} {digits}");
        assert!(rt; comes_back(alloc, digits)?, "{why} {digits}");
    }
    Ok(())
}

#[test]
fn prints_a_guid(rt: HostRuntime) -> Result<(), Fail> {
    let alloc = rt.alloc();
    let guid = Guid {
        bytes: [
            0x86, 0x7a, 0x96, 0xbf, 0xe6, 0x0d, 0xd0, 0x11, 0xa2, 0x85, 0, 0xaa, 0, 0x30, 0x49,
            0xe2,
        ],
    };
    let text = print_guid(alloc, &guid)?;
    assert!(rt; text.as_str() == "bf967a86-0de6-11d0-a285-00aa003049e2");
    Ok(())
}

#[test]
fn entries_are_parsed_one_by_one(rt: HostRuntime) -> Result<(), Fail> {
    let alloc = rt.alloc();
    let found = object_entry(alloc);
    assert!(rt; found.is_some());
    if let Some((entry, size)) = found {
        assert!(rt; size == 40 && entry.size() == 40);
        assert!(rt; entry.number() == 5 && entry.flags().bits() == 0);
        let written = written_alone(alloc, entry)?;
        let (_, digits) = OBJECT[0];
        assert!(rt; written.as_str() == digits);
    }
    Ok(())
}

#[test]
fn conditions_and_claims_come_back(rt: HostRuntime) -> Result<(), Fail> {
    let alloc = rt.alloc();
    for digits in CONDITION_DATA {
        assert!(rt; is_condition(alloc, digits)?, "{digits}");
    }
    for digits in CLAIM_DATA {
        assert!(rt; is_claim(alloc, digits)?, "{digits}");
    }
    Ok(())
}

#[test]
fn kinds_have_their_numbers(rt: HostRuntime) -> Result<(), Fail> {
    for number in 0..0x16_u8 {
        match WholeKind::of(number) {
            Some(kind) => {
                assert!(rt; kind.number() == number, "{number}");
                assert!(rt; kind.plain().is_some() == (number < 2), "{number}");
                let is_object = matches!(number, 5 | 6 | 7 | 8 | 0x0b | 0x0c | 0x0f);
                assert!(rt; kind.has_object_types() == is_object, "{number}");
            }
            None => assert!(rt; matches!(number, 4 | 0x0e | 0x10), "{number}"),
        }
    }
    Ok(())
}

#[test]
fn lists_have_no_more_than_65535_bytes(rt: HostRuntime) -> Result<(), Fail> {
    let alloc = rt.alloc();
    let bytes = [0; 65524];
    let fits = made_of(alloc, AceData::copied(alloc, &bytes[..65520])?)?;
    assert!(rt; fits.is_ok());
    let too_large = made_of(alloc, AceData::copied(alloc, &bytes)?)?;
    if let Err(error) = &too_large {
        assert!(rt; error.number() == 1 && error.name() == "WholeListTooLarge");
    }
    assert!(rt; too_large.is_err());
    Ok(())
}
