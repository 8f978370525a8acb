//! Whole descriptors parsed from text, beside what Samba 4.22 parses.

use sd_text::{Aliases, TextError, TextFault};
use sd_whole::write_whole;
use sd_whole_parse::read_whole_sddl;
use std::alloc::{AllocError, Global};
use std::test::Fail;

/// Texts, and the self-relative form in hexadecimal digits in which Samba 4.22 packs what it parses from them; but
/// AclRevision, always 4 there, is 2 here in a list without an object entry.
const PEER: [(&str, &str); 19] = [
    ("", "0100008000000000000000000000000000000000"),
    (
        "O:SYG:BAD:(A;;FA;;;WD)S:(AU;SAFA;FA;;;WD)",
        "\
         010014801400000020000000300000004c000000010100000000000512000000010200000000000520000000200200000200\
         1c000100000002c01400ff011f0001010000000000010000000002001c000100000000001400ff011f000101000000000001\
         00000000",
    ),
    (
        "D:PARAIS:PARAI",
        "010014bf0000000000000000140000001c00000002000800000000000200080000000000",
    ),
    (
        "D:P",
        "01000490000000000000000000000000140000000200080000000000",
    ),
    (
        "S:AI(AL;FA;WP;;;AU)",
        "\
         010010880000000000000000140000000000000002001c0001000000038014002000000001010000000000050b000000",
    ),
    (
        "D:(OA;;RP;bf967a86-0de6-11d0-a285-00aa003049e2;;AU)",
        "\
         01000480000000000000000000000000140000000400300001000000050028001000000001000000867a96bfe60dd011a285\
         00aa003049e201010000000000050b000000",
    ),
    (
        "D:(OA;;RP;;bf967a86-0de6-11d0-a285-00aa003049e2;AU)",
        "\
         01000480000000000000000000000000140000000400300001000000050028001000000002000000867a96bfe60dd011a285\
         00aa003049e201010000000000050b000000",
    ),
    (
        "D:(OA;;RP;;;AU)",
        "\
         0100048000000000000000000000000014000000040020000100000005001800100000000000000001010000000000050b00\
         0000",
    ),
    (
        "\
         D:(OD;CIIO;0x30;BF967A86-0DE6-11D0-A285-00AA003049E2;00112233-44\
         55-6677-8899-aabbccddeeff;S-1-5-21-1-2-3-1104)",
        "\
         01000480000000000000000000000000140000000400500001000000060a48003000000003000000867a96bfe60dd011a285\
         00aa003049e233221100554477668899aabbccddeeff01050000000000051500000001000000020000000300000050040000",
    ),
    (
        "\
         D:(A;OICI;FA;;;SY)(OA;;CR;00112233-4455-6677-8899-aabbccddeeff;;\
         PS)S:(OU;SA;WP;bf967a86-0de6-11d0-a285-00aa003049e2;;AU)(OL;FA;W\
         P;bf967a86-0de6-11d0-a285-00aa003049e2;;AU)",
        "\
         010014800000000000000000140000006c0000000400580002000000074028002000000001000000867a96bfe60dd011a285\
         00aa003049e201010000000000050b000000088028002000000001000000867a96bfe60dd011a28500aa003049e201010000\
         000000050b000000040044000200000000031400ff011f000101000000000005120000000500280000010000010000003322\
         1100554477668899aabbccddeeff01010000000000050a000000",
    ),
    (
        "D:(AU;SA;FA;;;WD)S:(A;;FA;;;WD)",
        "\
         010014800000000000000000140000003000000002001c000100000000001400ff011f000101000000000001000000000200\
         1c000100000002401400ff011f00010100000000000100000000",
    ),
    (
        "D:(A;;;;;WD)(D;;07;;;WD)",
        "\
         0100048000000000000000000000000014000000020030000200000000001400000000000101000000000001000000000100\
         140007000000010100000000000100000000",
    ),
    (
        "D:(XA;;FX;;;WD;(@User.Project Any_of @Resource.Project))",
        "\
         0100048000000000000000000000000014000000020048000100000009004000a00012000101000000000001000000006172\
         7478f90e000000500072006f006a00650063007400fa0e000000500072006f006a006500630074008800",
    ),
    (
        "D:(XD;;FX;;;WD;(a))",
        "\
         010004800000000000000000000000001400000002002800010000000a002000a00012000101000000000001000000006172\
         7478f802000000610000",
    ),
    (
        "D:(ZA;;RP;bf967a86-0de6-11d0-a285-00aa003049e2;;AU;(a))",
        "\
         010004800000000000000000000000001400000004003c00010000000b0034001000000001000000867a96bfe60dd011a285\
         00aa003049e201010000000000050b00000061727478f802000000610000",
    ),
    (
        "S:(XU;SAFA;FA;;;WD;(a == \"x\"))",
        "\
         010010800000000000000000140000000000000002003000010000000dc02800ff011f000101000000000001000000006172\
         7478f8020000006100100200000078008000",
    ),
    (
        "D:(A;;FA;;;SY)(XA;;FR;;;AU;(Not_Member_of SID(BA)))(D;;FX;;;BG)",
        "\
         0100048000000000000000000000000014000000020064000300000000001400ff011f000101000000000005120000000900\
         30008900120001010000000000050b0000006172747851100000000102000000000005200000002002000090000001001800\
         a000120001020000000000052000000022020000",
    ),
    (
        "S:(RA;;;;;WD;(\"Project\",TS,0,\"Windows\",\"SQL\"))",
        "\
         010010800000000000000000140000000000000002005c000100000012005400000000000101000000000001000000001800\
         00000300000000000000020000002800000038000000500072006f006a006500630074000000570069006e0064006f007700\
         73000000530051004c000000",
    ),
    (
        "S:(RA;;;;;WD;(\"Level\",TI,0x0,-5,7))(AU;SA;FA;;;WD)",
        "\
         0100108000000000000000001400000000000000020064000200000012004800000000000101000000000001000000001800\
         0000010000000000000002000000240000002c0000004c006500760065006c000000fbffffffffffffff0700000000000000\
         02401400ff011f00010100000000000100000000",
    ),
];

/// Texts that Samba 4.22 refuses, and the self-relative form by [MS-DTYP] 2.4.4 to 2.4.6.
const OWN: [(&str, &str); 9] = [
    (
        "S:(ML;;NWNX;;;S-1-16-8192)",
        "\
         010010800000000000000000140000000000000002001c00010000001100140005000000010100000000001000200000",
    ),
    (
        "S: (ML;OI;0x10003;;;lw)",
        "\
         010010800000000000000000140000000000000002001c00010000001101140003000100010100000000001000100000",
    ),
    (
        "S:(SP;;;;;S-1-17-1)",
        "\
         010010800000000000000000140000000000000002001c00010000001300140000000000010100000000001101000000",
    ),
    (
        "S:(TL;;0x1;;;S-1-19-512-4096)",
        "\
         0100108000000000000000001400000000000000020020000100000014001800010000000102000000000013000200000010\
         0000",
    ),
    (
        "D:NO_ACCESS_CONTROL",
        "0100048000000000000000000000000000000000",
    ),
    (
        "S:PNO_ACCESS_CONTROLAI",
        "010010a800000000000000000000000000000000",
    ),
    (
        "S:(FL;TPCI;0x1;;;WD;(a))",
        "\
         0100108000000000000000001400000000000000020028000100000015422000010000000101000000000001000000006172\
         7478f802000000610000",
    ),
    (
        "D:(A;CRCI;FA;;;WD)",
        "\
         010004800000000000000000000000001400000002001c000100000000221400ff011f00010100000000000100000000",
    ),
    (
        "o:syg:bad:p(a;oici;fa;;;wd)s:ar(Au;sa;0X7;;;wd)",
        "\
         010014921400000020000000300000004c000000010100000000000512000000010200000000000520000000200200000200\
         1c0001000000024014000700000001010000000000010000000002001c000100000000031400ff011f000101000000000001\
         00000000",
    ),
];

/// Texts with a fault, and its offset.
const FAULTS: [(&str, TextFault, u64); 31] = [
    ("X", TextFault::Syntax, 0),
    ("O:", TextFault::Syntax, 2),
    ("O:XX", TextFault::UnknownAlias, 2),
    ("O:DA", TextFault::DomainAlias, 2),
    ("G:SYO:SY", TextFault::Syntax, 4),
    ("S:(AU;SA;FA;;;WD)D:(A;;FA;;;WD)", TextFault::Syntax, 17),
    ("D:(XX;;FA;;;WD)", TextFault::EntryKind, 3),
    ("D:(AUX;;FA;;;WD)", TextFault::EntryKind, 3),
    ("D:(;;FA;;;WD)", TextFault::Syntax, 3),
    ("D:(A;XX;FA;;;WD)", TextFault::Syntax, 5),
    ("D:(A;TP;FA;;;WD)", TextFault::Syntax, 5),
    ("D:(A;;0x100000000;;;WD)", TextFault::Range, 6),
    ("D:(A;;NW;;;WD)", TextFault::Syntax, 6),
    ("S:(ML;;NWFA;;;WD)", TextFault::Syntax, 9),
    (
        "D:(A;;RP;bf967a86-0de6-11d0-a285-00aa003049e2;;WD)",
        TextFault::ObjectGuid,
        9,
    ),
    (
        "D:(OA;;RP;{bf967a86-0de6-11d0-a285-00aa003049e2};;AU)",
        TextFault::Syntax,
        10,
    ),
    (
        "D:(OA;;RP;bf967a86-0de6-11d0-a285-00aa003049e;;AU)",
        TextFault::Syntax,
        45,
    ),
    (
        "D:(OA;;RP;bf967a860de611d0a28500aa003049e2;;AU)",
        TextFault::Syntax,
        18,
    ),
    (
        "D:(OA;;RP;;bf967a86-0de6-11d0-a285-00aa003049e22;AU)",
        TextFault::Syntax,
        47,
    ),
    ("D:(A;;FX;;;WD;(a))", TextFault::Syntax, 13),
    ("D:(XA;;FX;;;WD)", TextFault::Syntax, 14),
    ("S:(RA;;;;;WD)", TextFault::Syntax, 12),
    ("D:(A;;FA;;;WD", TextFault::Syntax, 13),
    ("D:(A;;FA;;;WD) ", TextFault::Syntax, 14),
    ("D:(XA;;FX;;;WD;(a)", TextFault::Syntax, 18),
    ("D:(XA;;FX;;;WD;(a ==))", TextFault::Syntax, 20),
    ("D:(XA;;FX;;;WD;())", TextFault::Syntax, 16),
    (
        "D:(XA;;FX;;;WD;(Member_of SID(DA)))",
        TextFault::DomainAlias,
        30,
    ),
    ("D:(XA;;FX;;;WD;(a) )", TextFault::Syntax, 18),
    ("S:(RA;;;;;WD;(a))", TextFault::Syntax, 14),
    ("S:(RA;;;;;WD;(\"a\",TI,0,x))", TextFault::Syntax, 23),
];

/// Whether the text is parsed as the descriptor that has this self-relative form, in hexadecimal digits.
fn is_read(alloc: Global, text: &str, digits: &str) -> Result<bool, AllocError> {
    let Ok(wanted) = hex::decode(alloc, digits) else {
        return Ok(false);
    };
    match read_whole_sddl(alloc, Aliases::in_domain(None), text) {
        Ok(descriptor) => {
            let bytes = write_whole(alloc, &descriptor)?;
            Ok(bytes.as_slice() == wanted.as_slice())
        }
        Err(_) => Ok(false),
    }
}

/// Whether the text has this fault at this offset.
fn has_fault(alloc: Global, text: &str, wanted: TextFault, offset: u64) -> bool {
    match read_whole_sddl(alloc, Aliases::in_domain(None), text) {
        Err(TextError::Fault { fault, place }) => fault == wanted && place == offset,
        _ => false,
    }
}

/// A DACL of so many entries of 36 bytes.
fn list_of(alloc: Global, count: usize) -> Result<String, AllocError> {
    let mut text = String::new(alloc);
    text.push_str("D:")?;
    for _ in 0..count {
        text.push_str("(A;;FA;;;S-1-5-21-1-2-3-4)")?;
    }
    Ok(text)
}

#[test]
fn reads_what_samba_reads(rt: HostRuntime) -> Result<(), Fail> {
    let alloc = rt.alloc();
    for (text, digits) in PEER {
        assert!(rt; is_read(alloc, text, digits)?, "{text}");
    }
    Ok(())
}

#[test]
fn reads_what_samba_refuses(rt: HostRuntime) -> Result<(), Fail> {
    let alloc = rt.alloc();
    for (text, digits) in OWN {
        assert!(rt; is_read(alloc, text, digits)?, "{text}");
    }
    Ok(())
}

#[test]
fn reports_the_first_fault(rt: HostRuntime) -> Result<(), Fail> {
    let alloc = rt.alloc();
    for (text, fault, place) in FAULTS {
        assert!(rt; has_fault(alloc, text, fault, place), "{text}");
    }
    Ok(())
}

#[test]
fn refuses_a_list_that_is_too_large(rt: HostRuntime) -> Result<(), Fail> {
    let alloc = rt.alloc();
    let most = list_of(alloc, 1820)?;
    let read = read_whole_sddl(alloc, Aliases::in_domain(None), most.as_str());
    assert!(rt; read.is_ok());
    let more = list_of(alloc, 1821)?;
    let last = more.len().saturating_sub(1) as u64;
    assert!(rt; has_fault(alloc, more.as_str(), TextFault::AclTooLarge, last));
    Ok(())
}
