//! Claims as text, beside what Samba 4.22 parses and prints.

use crate::{ClaimError, parse_claim, print_claim};
use sd_claim::read_claim;
use sd_text::{Aliases, Cursor, TextFault};
use std::alloc::{AllocError, Global};
use std::test::Fail;

/// Texts, their data in hexadecimal digits, and how these claims are printed: as by Samba 4.22, but for the plus sign
/// that it prints before unsigned numbers.
const PARSED: [(&str, &str, &str); 28] = [
    (
        "(\"Pro\",TS,0,\"Win\",\"SQL\")",
        "180000000300000000000000020000002000000028000000500072006f000000570069006e000000530051004c000000",
        "(\"Pro\",TS,0x0,\"Win\",\"SQL\")",
    ),
    (
        "(\"n\",TS,0x2,\"\")",
        "14000000030000000200000001000000180000006e00000000000000",
        "(\"n\",TS,0x2,\"\")",
    ),
    (
        "(\"n\",TS,02,\"a\")",
        "14000000030000000200000001000000180000006e00000061000000",
        "(\"n\",TS,0x2,\"a\")",
    ),
    (
        "(\"n\",TS,0x10002,\"a\")",
        "14000000030000000200010001000000180000006e00000061000000",
        "(\"n\",TS,0x10002,\"a\")",
    ),
    (
        "(\"n\",TS,+1,\"a\")",
        "14000000030000000100000001000000180000006e00000061000000",
        "(\"n\",TS,0x1,\"a\")",
    ),
    (
        "(\"n\",TS,0,\"a%0041b;(c)\")",
        "14000000030000000000000001000000180000006e00000061002500300030003400310062003b002800630029000000",
        "(\"n\",TS,0x0,\"a%0041b;(c)\")",
    ),
    (
        "(\"n\",TS,0, \"a\" ,\t\"b\" )",
        "180000000300000000000000020000001c000000200000006e0000006100000062000000",
        "(\"n\",TS,0x0,\"a\",\"b\")",
    ),
    (
        "(\"n\",TS,0,\"höß€😀\")",
        "14000000030000000000000001000000180000006e0000006800f600df00ac203dd800de00000000",
        "(\"n\",TS,0x0,\"höß€😀\")",
    ),
    (
        "(\"höß€😀\",TS,0,\"a\")",
        "14000000030000000000000001000000220000006800f600df00ac203dd800de0000610000000000",
        "(\"h%00f6%00df%20ac%d83d%de00\",TS,0x0,\"a\")",
    ),
    (
        "(\"n%0022%0020\",TS,0,\"a\")",
        "140000000300000000000000010000001c0000006e0022002000000061000000",
        "(\"n%0022%0020\",TS,0x0,\"a\")",
    ),
    (
        "(\"%D83D%DE00\",TS,0,\"a\")",
        "140000000300000000000000010000001a0000003dd800de0000610000000000",
        "(\"%d83d%de00\",TS,0x0,\"a\")",
    ),
    (
        "(\"a'b,{}[]@#$\",TS,0,\"a\")",
        "140000000300000000000000010000002c0000006100270062002c007b007d005b005d00400023002400000061000000",
        "(\"a'b,{}[]@#$\",TS,0x0,\"a\")",
    ),
    (
        "(\"^*~`?;\\:./_-+\",TS,0,\"a\")",
        "14000000030000000000000001000000300000005e002a007e0060003f003b005c003a002e002f005f002d002b00000061000000",
        "(\"^*~`?;\\:./_-+\",TS,0x0,\"a\")",
    ),
    (
        "(\"n\",TI,0,-2,+3)",
        "180000000100000000000000020000001c000000240000006e000000feffffffffffffff0300000000000000",
        "(\"n\",TI,0x0,-2,3)",
    ),
    (
        "(\"n\",TI,0,-9223372036854775808)",
        "14000000010000000000000001000000180000006e0000000000000000000080",
        "(\"n\",TI,0x0,-9223372036854775808)",
    ),
    (
        "(\"n\",TI,0,-1,9223372036854775807)",
        "180000000100000000000000020000001c000000240000006e000000ffffffffffffffffffffffffffffff7f",
        "(\"n\",TI,0x0,-1,9223372036854775807)",
    ),
    (
        "(\"n\",TI,0,-0x10,-010)",
        "180000000100000000000000020000001c000000240000006e000000f0fffffffffffffff8ffffffffffffff",
        "(\"n\",TI,0x0,-16,-8)",
    ),
    (
        "(\"n\",TI,0,-1,-0)",
        "180000000100000000000000020000001c000000240000006e000000ffffffffffffffff0000000000000000",
        "(\"n\",TI,0x0,-1,0)",
    ),
    (
        "(\"n\",TI,0,-1,00)",
        "180000000100000000000000020000001c000000240000006e000000ffffffffffffffff0000000000000000",
        "(\"n\",TI,0x0,-1,0)",
    ),
    (
        "(\"n\",TU,0,+3,0x1F)",
        "180000000200000000000000020000001c000000240000006e00000003000000000000001f00000000000000",
        "(\"n\",TU,0x0,3,31)",
    ),
    (
        "(\"n\",TU,0,010,-0)",
        "180000000200000000000000020000001c000000240000006e00000008000000000000000000000000000000",
        "(\"n\",TU,0x0,8,0)",
    ),
    (
        "(\"n\",TU,0,9223372036854775807)",
        "14000000020000000000000001000000180000006e000000ffffffffffffff7f",
        "(\"n\",TU,0x0,9223372036854775807)",
    ),
    (
        "(\"n\",TD,0,BA)",
        "14000000050000000000000001000000180000006e0000000c000000532d312d352d33322d353434",
        "(\"n\",TD,0x0,BA)",
    ),
    (
        "(\"n\",TD,0, s-1-5-32-544 )",
        "14000000050000000000000001000000180000006e0000000c000000532d312d352d33322d353434",
        "(\"n\",TD,0x0,BA)",
    ),
    (
        "(\"n\",TD,0,WD,SY)",
        "180000000500000000000000020000001c000000270000006e00000007000000532d312d312d3008000000532d312d352d313800",
        "(\"n\",TD,0x0,WD,SY)",
    ),
    (
        "(\"n\",TD,0,S-1-5-21-1-2-3-1001)",
        "14000000050000000000000001000000180000006e00000013000000532d312d352d32312d312d322d332d3130303100",
        "(\"n\",TD,0x0,S-1-5-21-1-2-3-1001)",
    ),
    (
        "(\"n\",TD,0,S-1-0x100000000000-1)",
        "14000000050000000000000001000000180000006e00000014000000532d312d30783130303030303030303030302d31",
        "(\"n\",TD,0x0,S-1-0x100000000000-1)",
    ),
    (
        "(\"n\",TX,0,0a0B,00)",
        "180000001000000000000000020000001c000000220000006e000000020000000a0b010000000000",
        "(\"n\",TX,0x0,0A0B,00)",
    ),
];

/// Texts of claims that Samba 4.22 parses as others or not at all, and their data.
const OWN: [(&str, &str); 6] = [
    (
        "(\"n\",TI,0x0,5)",
        "14000000010000000000000001000000180000006e0000000500000000000000",
    ),
    (
        "(\"n\",TU,0x0,18446744073709551615)",
        "14000000020000000000000001000000180000006e000000ffffffffffffffff",
    ),
    (
        "(\"n\",TB,0x0,0,1)",
        "180000000600000000000000020000001c000000240000006e00000000000000000000000100000000000000",
    ),
    (
        "(\"n\",TS,0xffffffff,\"a\")",
        "1400000003000000ffffffff01000000180000006e00000061000000",
    ),
    ("(\"n\",TS,0x0)", "100000000300000000000000000000006e000000"),
    (
        "(\"n\",TX,0x0,#)",
        "14000000100000000000000001000000180000006e00000000000000",
    ),
];

/// Data that has no text, and why. Samba 4.22 prints none of these either, or parses other data from what it prints.
const WITHOUT_TEXT: [(&str, &str); 11] = [
    (
        "an empty name",
        "14000000030000000000000001000000160000000000610000000000",
    ),
    (
        "a name with an unpaired surrogate",
        "14000000030000000000000001000000180000003dd8000061000000",
    ),
    (
        "a text with an unpaired surrogate",
        "14000000030000000000000001000000180000006e0000003dd80000",
    ),
    (
        "a text with a quote",
        "14000000030000000000000001000000180000006e0000006100220062000000",
    ),
    (
        "a boolean that is 2",
        "14000000060000000000000001000000180000006e0000000200000000000000",
    ),
    (
        "a SID in its binary form",
        "14000000050000000000000001000000180000006e0000001000000001020000000000052000000020020000",
    ),
    (
        "a SID's alias",
        "14000000050000000000000001000000180000006e0000000200000042410000",
    ),
    (
        "a SID in lower case",
        "14000000050000000000000001000000180000006e0000000c000000732d312d352d33322d353434",
    ),
    (
        "a SID with a zero after it",
        "14000000050000000000000001000000180000006e0000000d000000532d312d352d33322d35343400000000",
    ),
    (
        "a SID without a sub-authority",
        "14000000050000000000000001000000180000006e00000005000000532d312d35000000",
    ),
    (
        "no octets of a SID",
        "14000000050000000000000001000000180000006e00000000000000",
    ),
];

/// Texts that are no claim, their first fault, and its offset.
const FAULTS: [(&str, TextFault, u64); 40] = [
    ("", TextFault::Syntax, 0),
    ("(\"n\",TS,0,\"a\"", TextFault::Syntax, 13),
    ("(\"n\",TS,0,\"a", TextFault::Syntax, 12),
    ("(\"n", TextFault::Syntax, 3),
    ("( \"n\",TS,0,\"a\")", TextFault::Syntax, 1),
    ("(\"n\" ,TS,0,\"a\")", TextFault::Syntax, 4),
    ("(\"n\", TS,0,\"a\")", TextFault::Syntax, 5),
    ("(\"n\",TS,0 ,\"a\")", TextFault::Syntax, 9),
    ("(\"\",TS,0,\"a\")", TextFault::Syntax, 2),
    ("(\"a b\",TS,0,\"a\")", TextFault::Syntax, 3),
    ("(\"é(b\",TS,0,\"a\")", TextFault::Syntax, 4),
    ("(\"n%004\",TS,0,\"a\")", TextFault::Syntax, 3),
    ("(\"n%0000\",TS,0,\"a\")", TextFault::Syntax, 3),
    ("(\"%d83d\",TS,0,\"a\")", TextFault::Syntax, 7),
    ("(\"n\",TQ,0,\"a\")", TextFault::Syntax, 5),
    ("(\"n\",TS,,\"a\")", TextFault::Syntax, 8),
    ("(\"n\",TS,0x,\"a\")", TextFault::Syntax, 10),
    ("(\"n\",TS,08,\"a\")", TextFault::Syntax, 9),
    ("(\"n\",TS,0,)", TextFault::Syntax, 10),
    ("(\"n\",TS,0,\"a\"\"b\")", TextFault::Syntax, 13),
    ("(\"n\",TS,0,1)", TextFault::Syntax, 10),
    ("(\"n\",TI,0,\"1\")", TextFault::Syntax, 10),
    ("(\"n\",TI,0,--2)", TextFault::Syntax, 11),
    ("(\"n\",TI,0,1a)", TextFault::Syntax, 11),
    ("(\"n\",TX,0,0a0)", TextFault::Syntax, 13),
    ("(\"n\",TX,0,)", TextFault::Syntax, 10),
    ("(\"n\",TX,0,#0a#0b)", TextFault::Syntax, 13),
    ("(\"n\",TD,0,BAx)", TextFault::Syntax, 12),
    ("(\"n\",TD,0,SID(BA))", TextFault::UnknownAlias, 10),
    ("(\"n\",TD,0,WD, QQ)", TextFault::UnknownAlias, 14),
    ("(\"n\",TD,0,DA)", TextFault::DomainAlias, 10),
    ("(\"n\",TS,0x100000000,\"a\")", TextFault::Range, 8),
    ("(\"n\",TS,-1,\"a\")", TextFault::Range, 8),
    ("(\"n\",TI,0,9223372036854775808)", TextFault::Range, 10),
    ("(\"n\",TI,0,1, -9223372036854775809)", TextFault::Range, 13),
    ("(\"n\",TI,0,0x10000000000000000)", TextFault::Range, 10),
    ("(\"n\",TU,0,-1)", TextFault::Range, 10),
    ("(\"n\",TU,0,18446744073709551616)", TextFault::Range, 10),
    ("(\"n\",TB,0,1,2)", TextFault::Range, 12),
    ("(\"n\",TD,0,S-1-5-4294967296)", TextFault::Range, 16),
];

/// The data of the claim that the text is, in hexadecimal digits, `None` if more follows.
fn data_of(alloc: Global, text: &str) -> Result<Option<String>, ClaimError> {
    let mut cursor = Cursor::new(text);
    let claim = parse_claim(alloc, &mut cursor, Aliases::in_domain(None))?;
    if cursor.end().is_err() {
        return Ok(None);
    }
    let data = claim.write(alloc)?;
    let digits = hex::encode(alloc, data.as_slice())?;
    Ok(Some(digits))
}

fn is_parsed(alloc: Global, text: &str, digits: &str) -> Result<bool, ClaimError> {
    match data_of(alloc, text)? {
        Some(data) => Ok(data.as_str() == digits),
        None => Ok(false),
    }
}

/// The text of data in hexadecimal digits; the outer `None` if it is no claim.
fn printed(alloc: Global, digits: &str) -> Result<Option<Option<String>>, AllocError> {
    let Ok(bytes) = hex::decode(alloc, digits) else {
        return Ok(None);
    };
    match read_claim(alloc, bytes.as_slice())? {
        Some(claim) => {
            let text = print_claim(alloc, &claim)?;
            Ok(Some(text))
        }
        None => Ok(None),
    }
}

fn is_printed(alloc: Global, wanted: &str, digits: &str) -> Result<bool, AllocError> {
    match printed(alloc, digits)? {
        Some(Some(text)) => Ok(text.as_str() == wanted),
        _ => Ok(false),
    }
}

/// The fault of a text, and its offset.
fn fault_of(alloc: Global, text: &str) -> Option<(TextFault, u64)> {
    let mut cursor = Cursor::new(text);
    match parse_claim(alloc, &mut cursor, Aliases::in_domain(None)) {
        Err(ClaimError::Fault(fault)) => Some((fault, cursor.place(text))),
        _ => None,
    }
}

#[test]
fn parses_and_prints_as_samba(rt: HostRuntime) -> Result<(), Fail> {
    let alloc = rt.alloc();
    for (text, digits, wanted) in PARSED {
        assert!(rt; is_parsed(alloc, text, digits)?, "{text}");
        assert!(rt; is_printed(alloc, wanted, digits)?, "{wanted}");
    }
    Ok(())
}

#[test]
fn parses_and_prints_claims_of_its_own(rt: HostRuntime) -> Result<(), Fail> {
    let alloc = rt.alloc();
    for (text, digits) in OWN {
        assert!(rt; is_parsed(alloc, text, digits)?, "{text}");
        assert!(rt; is_printed(alloc, text, digits)?, "{text}");
    }
    Ok(())
}

#[test]
fn prints_nothing_that_has_no_text(rt: HostRuntime) -> Result<(), Fail> {
    let alloc = rt.alloc();
    for (what, digits) in WITHOUT_TEXT {
        let text = printed(alloc, digits)?;
        assert!(rt; matches!(text, Some(None)), "{what}");
    }
    Ok(())
}

#[test]
fn finds_the_first_fault(rt: HostRuntime) -> Result<(), Fail> {
    let alloc = rt.alloc();
    for (text, fault, place) in FAULTS {
        assert!(rt; fault_of(alloc, text) == Some((fault, place)), "{text}");
    }
    Ok(())
}

#[test]
fn finds_a_claim_too_large(rt: HostRuntime) -> Result<(), Fail> {
    let alloc = rt.alloc();
    let mut text = String::from_str(alloc, "(\"n\",TI,0")?;
    for _ in 0..5500 {
        text.push_str(",1")?;
    }
    let place = text.len() as u64;
    text.push_str(")")?;
    assert!(rt; fault_of(alloc, text.as_str()) == Some((TextFault::AclTooLarge, place)));
    Ok(())
}

#[test]
fn parses_words_in_any_case(rt: HostRuntime) -> Result<(), Fail> {
    let alloc = rt.alloc();
    let digits = "14000000030000000000000001000000180000006e00000061000000";
    assert!(rt; is_parsed(alloc, "(\"n\",ts,0X0,\"a\")", digits)?);
    Ok(())
}
