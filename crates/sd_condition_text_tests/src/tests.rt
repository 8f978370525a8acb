//! Conditions as text, beside what Samba 4.22 prints.

use sd_condition::read_condition;
use sd_condition_text::print_condition;
use std::alloc::{AllocError, Global};
use std::test::Fail;

/// Values as Samba 4.22 prints them, and their data in hexadecimal digits, which it parses from these texts.
const VALUES: [(&str, &str); 13] = [
    (
        "(a == -1)",
        "61727478f802000000610004ffffffffffffffff02028000",
    ),
    (
        "(a == +010)",
        "61727478f802000000610004080000000000000001018000",
    ),
    (
        "(a == -0)",
        "61727478f802000000610004000000000000000002028000",
    ),
    (
        "(a == 0xabcdef)",
        "61727478f802000000610004efcdab000000000003038000",
    ),
    (
        "(a == -9223372036854775808)",
        "61727478f802000000610004000000000000008002028000",
    ),
    ("(a == #0A0B)", "61727478f802000000610018020000000a0b8000"),
    ("(a == \"x\")", "61727478f8020000006100100200000078008000"),
    (
        "(a == \"höß€😀\")",
        "61727478f8020000006100100c0000006800f600df00ac203dd800de80000000",
    ),
    (
        "(a == {1})",
        "61727478f8020000006100500b000000040100000000000000030280",
    ),
    (
        "(a Not_Any_of {\"a\", \"b\"})",
        "61727478f8020000006100500e00000010020000006100100200000062008f00",
    ),
    (
        "(a == SID(BA))",
        "61727478f802000000610051100000000102000000000005200000002002000080000000",
    ),
    (
        "(a == SID(S-1-5-32-999))",
        "61727478f80200000061005110000000010200000000000520000000e703000080000000",
    ),
    (
        "(a Not_Any_of {})",
        "61727478f802000000610050000000008f000000",
    ),
];

/// Attributes as Samba 4.22 prints them, and their data in hexadecimal digits, which it parses from these texts.
const NAMES: [(&str, &str); 10] = [
    ("(a)", "61727478f802000000610000"),
    (
        "(a:./_b == 1)",
        "61727478f80c00000061003a002e002f005f006200040100000000000000030280000000",
    ),
    (
        "(@USER.a == @DEVICE.b)",
        "61727478f9020000006100fb0200000062008000",
    ),
    ("(Not_Exists @RESOURCE.a)", "61727478fa0200000061008d"),
    ("(@USER.@a)", "61727478f90400000040006100000000"),
    ("(@USER.a%0025b)", "61727478f90600000061002500620000"),
    ("(@USER.a%0020b)", "61727478f90600000061002000620000"),
    ("(@USER.%d83d%de00)", "61727478f9040000003dd800de000000"),
    ("(@USER.{a,b})", "61727478f90a0000007b0061002c0062007d0000"),
    (
        "(Contains Contains 1)",
        "61727478f81000000043006f006e007400610069006e007300040100000000000000030286000000",
    ),
];

/// Operators as Samba 4.22 prints them, and their data in hexadecimal digits, which it parses from these texts.
const OPERATORS: [(&str, &str); 11] = [
    (
        "(a != 1)",
        "61727478f802000000610004010000000000000003028100",
    ),
    (
        "(a >= 1)",
        "61727478f802000000610004010000000000000003028500",
    ),
    ("(Exists a)", "61727478f802000000610087"),
    (
        "(Member_of SID(BA))",
        "61727478511000000001020000000000052000000020020000890000",
    ),
    (
        "(Member_of_any {SID(BA)})",
        "6172747850150000005110000000010200000000000520000000200200008b00",
    ),
    (
        "(Not_Device_Member_of_Any {SID(BA)})",
        "6172747850150000005110000000010200000000000520000000200200009300",
    ),
    ("(!(a))", "61727478f8020000006100a2"),
    (
        "((a) && (!(b)))",
        "61727478f8020000006100f8020000006200a2a0",
    ),
    (
        "((!((a) || (b))) && (c))",
        "61727478f8020000006100f8020000006200a1a2f8020000006300a0",
    ),
    ("(!(!(a)))", "61727478f8020000006100a2a2000000"),
    (
        "(((a) || (b)) && ((c) || (d)))",
        "61727478f8020000006100f8020000006200a1f8020000006300f8020000006400a1a000",
    ),
];

/// Data that has no text, and why. Samba 4.22 prints none of these either, or parses other data from what it prints.
const WITHOUT_TEXT: [(&str, &str); 13] = [
    (
        "an integer of 8 bits",
        "61727478f802000000610001050000000000000003028000",
    ),
    (
        "a minus before 5",
        "61727478f802000000610004050000000000000002028000",
    ),
    (
        "a plus before -5",
        "61727478f802000000610004fbffffffffffffff01028000",
    ),
    (
        "-5 without a sign",
        "61727478f802000000610004fbffffffffffffff03028000",
    ),
    (
        "a quote",
        "61727478f802000000610010060000007800220079008000",
    ),
    (
        "an unpaired surrogate",
        "61727478f8020000006100100400000078003dd880000000",
    ),
    (
        "a zero unit",
        "61727478f802000000610010060000007800000079008000",
    ),
    ("an empty name", "61727478f800000000000000"),
    (
        "a name with an unpaired surrogate",
        "61727478f9020000003dd800",
    ),
    (
        "a name with a zero unit",
        "61727478f90600000061000000620000",
    ),
    (
        "a space in a plain name",
        "61727478f80600000061002000620000",
    ),
    (
        "a plain name of a word",
        "61727478f80c000000650078006900730074007300000000",
    ),
    (
        "a plain name on the right",
        "61727478f8020000006100f80200000062008000",
    ),
];

/// The text of data in hexadecimal digits; the outer `None` if it is no condition.
fn printed(alloc: Global, digits: &str) -> Result<Option<Option<String>>, AllocError> {
    let Ok(bytes) = hex::decode(alloc, digits) else {
        return Ok(None);
    };
    match read_condition(alloc, bytes.as_slice())? {
        Some(condition) => {
            let text = print_condition(alloc, &condition)?;
            Ok(Some(text))
        }
        None => Ok(None),
    }
}

/// Whether this is the text of the data.
fn is_printed(alloc: Global, wanted: &str, digits: &str) -> Result<bool, AllocError> {
    match printed(alloc, digits)? {
        Some(Some(text)) => Ok(text.as_str() == wanted),
        _ => Ok(false),
    }
}

#[test]
fn prints_values_as_samba_prints_them(rt: HostRuntime) -> Result<(), Fail> {
    let alloc = rt.alloc();
    for (wanted, digits) in VALUES {
        assert!(rt; is_printed(alloc, wanted, digits)?, "{wanted}");
    }
    Ok(())
}

#[test]
fn prints_attributes_as_samba_prints_them(rt: HostRuntime) -> Result<(), Fail> {
    let alloc = rt.alloc();
    for (wanted, digits) in NAMES {
        assert!(rt; is_printed(alloc, wanted, digits)?, "{wanted}");
    }
    Ok(())
}

#[test]
fn prints_operators_as_samba_prints_them(rt: HostRuntime) -> Result<(), Fail> {
    let alloc = rt.alloc();
    for (wanted, digits) in OPERATORS {
        assert!(rt; is_printed(alloc, wanted, digits)?, "{wanted}");
    }
    Ok(())
}

#[test]
fn prints_nothing_that_has_no_text(rt: HostRuntime) -> Result<(), Fail> {
    let alloc = rt.alloc();
    for (what, digits) in WITHOUT_TEXT {
        let text = printed(alloc, digits)?;
        assert!(rt; matches!(text, Some(None)), "{what}");
    }
    Ok(())
}
