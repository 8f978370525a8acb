//! Lines of `show` and of `diff`, by [MS-DTYP] 2.4.4 to 2.4.6 and by what 2.5.1.1 says of a text's letters.

use sd_line::{Line, Output, Spelling, Style, Tag, push_printed};
use sd_show::{diff_lines, show_lines};
use sd_text::Aliases;
use sd_whole::{WholeDescriptor, read_whole};
use sd_whole_parse::read_whole_sddl;
use std::alloc::Global;
use std::process::Abort;
use std::test::Fail;

/// Texts, and the lines of their descriptors.
const SHOWN: [(&str, &str); 6] = [
    (
        "",
        "\
owner absent
group absent
dacl absent: everyone is granted everything
sacl absent
",
    ),
    (
        "O:BAG:SYD:S:",
        "\
owner S-1-5-32-544
group S-1-5-18
dacl empty: nothing is granted but what ownership and privileges give
sacl
",
    ),
    (
        "D:PNO_ACCESS_CONTROLS:NO_ACCESS_CONTROL",
        "\
owner absent
group absent
dacl null protected: everyone is granted everything
sacl null
",
    ),
    (
        "O:BAG:SYD:PAI(D;;FW;;;BG)(A;OICIID;FA;;;BA)(XA;;FR;;;AU;(@User.Level >= 3))",
        "\
owner S-1-5-32-544
group S-1-5-18
dacl protected auto-inherited
dacl entry 1 denies 0x120116 to S-1-5-32-546 on this object
dacl entry 2 allows 0x1f01ff to S-1-5-32-544 on this object, containers and objects below, inherited
dacl entry 3 allows 0x120089 to S-1-5-11 on this object if (@USER.Level >= 3)
sacl absent
",
    ),
    (
        "D:PARAIS:PARAI(AU;SAFA;FA;;;WD)(ML;;NWNR;;;HI)",
        "\
owner absent
group absent
dacl empty protected auto-inherit-required auto-inherited: nothing is granted but what ownership and privileges give
sacl protected auto-inherit-required auto-inherited
sacl entry 1 audits success and failure of 0x1f01ff by S-1-1-0 on this object
sacl entry 2 integrity label S-1-16-12288 no-write-up no-read-up on this object
",
    ),
    (
        "D:(OA;;CR;00299570-246d-11d0-a768-00aa006e0529;;AU)(A;;FA;;;SY)",
        "\
owner absent
group absent
dacl revision-4
dacl entry 1 allows 0x100 to S-1-5-11 on this object for object type 00299570-246d-11d0-a768-00aa006e0529
dacl entry 2 allows 0x1f01ff to S-1-5-18 on this object
sacl absent
",
    ),
];

/// Entries of a DACL, and their lines without the number.
const ENTRIES: [(&str, &str); 25] = [
    ("(A;;FR;;;WD)", "allows 0x120089 to S-1-1-0 on this object"),
    (
        "(D;OI;FR;;;WD)",
        "denies 0x120089 to S-1-1-0 on this object and objects below",
    ),
    (
        "(A;CI;FR;;;WD)",
        "allows 0x120089 to S-1-1-0 on this object and containers below",
    ),
    ("(A;IO;FR;;;WD)", "allows 0x120089 to S-1-1-0 on nothing"),
    (
        "(A;OIIO;FR;;;WD)",
        "allows 0x120089 to S-1-1-0 on objects below",
    ),
    (
        "(A;CIIO;FR;;;WD)",
        "allows 0x120089 to S-1-1-0 on containers below",
    ),
    (
        "(A;OICINPIOID;FR;;;WD)",
        "allows 0x120089 to S-1-1-0 on containers and objects below, inherited one-level-only",
    ),
    (
        "(A;NP;FR;;;WD)",
        "allows 0x120089 to S-1-1-0 on this object, one-level-only",
    ),
    (
        "(A;SA;FR;;;WD)",
        "allows 0x120089 to S-1-1-0 on this object, success",
    ),
    (
        "(D;CRFA;FR;;;WD)",
        "denies 0x120089 to S-1-1-0 on this object, critical failure",
    ),
    (
        "(OD;;RP;;;WD)",
        "denies 0x10 to S-1-1-0 on this object for object type any",
    ),
    (
        "(OA;;RP;;bf967a86-0de6-11d0-a285-00aa003049e2;WD)",
        "allows 0x10 to S-1-1-0 on this object for object type any \
         inherited by object type bf967a86-0de6-11d0-a285-00aa003049e2",
    ),
    (
        "(ZA;CI;RP;bf967a86-0de6-11d0-a285-00aa003049e2;;WD;(a))",
        "allows 0x10 to S-1-1-0 on this object and containers below \
         for object type bf967a86-0de6-11d0-a285-00aa003049e2 if (a)",
    ),
    (
        "(XD;;FX;;;WD;(@User.Project Any_of @Resource.Project))",
        "denies 0x1200a0 to S-1-1-0 on this object if (@USER.Project Any_of @RESOURCE.Project)",
    ),
    (
        "(AU;SA;FR;;;WD)",
        "audits success of 0x120089 by S-1-1-0 on this object",
    ),
    (
        "(AU;;FR;;;WD)",
        "audits nothing of 0x120089 by S-1-1-0 on this object",
    ),
    (
        "(AL;IDFA;FR;;;WD)",
        "raises alarms on failure of 0x120089 by S-1-1-0 on this object, inherited",
    ),
    (
        "(XU;FA;FR;;;WD;(a))",
        "audits failure of 0x120089 by S-1-1-0 on this object if (a)",
    ),
    (
        "(OU;SA;WP;bf967a86-0de6-11d0-a285-00aa003049e2;;WD)",
        "audits success of 0x20 by S-1-1-0 on this object \
         for object type bf967a86-0de6-11d0-a285-00aa003049e2",
    ),
    (
        "(ML;;NX;;;ME)",
        "integrity label S-1-16-8192 no-execute-up on this object",
    ),
    (
        "(ML;;0x9;;;ME)",
        "integrity label S-1-16-8192 no-write-up, mask 0x9 on this object",
    ),
    (
        "(RA;;;;;WD;(\"Project\",TS,0,\"Windows\",\"SQL\"))",
        "resource attribute for S-1-1-0 on this object (\"Project\",TS,0x0,\"Windows\",\"SQL\")",
    ),
    (
        "(SP;OICI;;;;S-1-17-1)",
        "central policy S-1-17-1 on this object, containers and objects below",
    ),
    (
        "(TL;;0x2;;;S-1-19-512-4096)",
        "process trust label 0x2 for S-1-19-512-4096 on this object",
    ),
    (
        "(FL;TP;0x1;;;WD;(a))",
        "access filter 0x1 for S-1-1-0 on this object if (a), trust-protected",
    ),
];

/// Self-relative forms, and the lines of their descriptors.
const FROM_BYTES: [(&str, &str); 5] = [
    (
        "0107ebff00000000000000000000000000000000",
        "\
owner absent defaulted
group absent defaulted
resource manager 7 valid
dacl absent protected auto-inherit-required auto-inherited defaulted trusted server-security: \
         everyone is granted everything
sacl absent protected auto-inherit-required auto-inherited defaulted
",
    ),
    (
        "010004800000000000000000000000001400000002001000010000000413080001000000",
        "\
owner absent
group absent
dacl
dacl entry 1 of type 4 on this object, containers and objects below with data 01000000, inherited
sacl absent
",
    ),
    (
        "010004800000000000000000000000001400000002002000010000000000180089001200010100000000000100000000aabbccdd",
        "\
owner absent
group absent
dacl
dacl entry 1 allows 0x120089 to S-1-1-0 on this object with data aabbccdd
sacl absent
",
    ),
    (
        "01000480000000000000000000000000140000000200200001000000090018008900120001010000000000010000000000000000",
        "\
owner absent
group absent
dacl
dacl entry 1 allows 0x120089 to S-1-1-0 on this object if an unknown condition (00000000) holds
sacl absent
",
    ),
    (
        "010304800000000000000000000000001400000004000c0001000000050c0400",
        "\
owner absent
group absent
resource manager 3
dacl revision-4
dacl entry 1 of type 5 on nothing, one-level-only
sacl absent
",
    ),
];

/// An old text and a new one, and the lines of what differs.
const CHANGED: [(&str, &str, &str); 18] = [
    ("O:BAG:SYD:P(A;;FA;;;BA)S:", "O:BAG:SYD:P(A;;FA;;;BA)S:", ""),
    (
        "O:BAG:SY",
        "O:SYG:SY",
        "owner was S-1-5-32-544, is S-1-5-18\n",
    ),
    (
        "O:BAG:SY",
        "G:BA",
        "owner was S-1-5-32-544, is absent\ngroup was S-1-5-18, is S-1-5-32-544\n",
    ),
    (
        "D:",
        "O:BA",
        "owner was absent, is S-1-5-32-544\ndacl was a list, is absent\n",
    ),
    (
        "D:NO_ACCESS_CONTROL",
        "D:S:",
        "dacl was null, is a list\nsacl was absent, is a list\n",
    ),
    (
        "D:P",
        "D:AI",
        "dacl was protected, is not\ndacl is auto-inherited, was not\n",
    ),
    (
        "S:ARAI",
        "S:P",
        "\
sacl is protected, was not
sacl was auto-inherit-required, is not
sacl was auto-inherited, is not
",
    ),
    (
        "D:(A;;FR;;;WD)(A;;FA;;;BA)",
        "D:(D;;FW;;;BG)(A;;FA;;;BA)",
        "\
removed dacl entry 1: allows 0x120089 to S-1-1-0 on this object
added dacl entry 1: denies 0x120116 to S-1-5-32-546 on this object
",
    ),
    (
        "D:(A;;FR;;;WD)(A;;FA;;;BA)",
        "D:(A;;FA;;;BA)(A;;FR;;;WD)",
        "\
moved dacl entry 1, was 2: allows 0x1f01ff to S-1-5-32-544 on this object
moved dacl entry 2, was 1: allows 0x120089 to S-1-1-0 on this object
",
    ),
    (
        "D:(A;;FR;;;WD)(A;;FA;;;BA)(A;;FR;;;WD)",
        "D:(A;;FR;;;WD)(A;;FA;;;BA)",
        "removed dacl entry 3: allows 0x120089 to S-1-1-0 on this object\n",
    ),
    (
        "D:(A;;FA;;;BA)(A;;FX;;;BU)",
        "D:(A;;FR;;;WD)(A;;FA;;;BA)(A;;FX;;;BU)",
        "added dacl entry 1: allows 0x120089 to S-1-1-0 on this object\n",
    ),
    (
        "D:(A;;FA;;;BA)(A;;FR;;;WD)(A;;FX;;;BU)",
        "D:(A;;FX;;;BU)(A;;FA;;;BA)",
        "\
removed dacl entry 2: allows 0x120089 to S-1-1-0 on this object
moved dacl entry 1, was 3: allows 0x1200a0 to S-1-5-32-545 on this object
moved dacl entry 2, was 1: allows 0x1f01ff to S-1-5-32-544 on this object
",
    ),
    (
        "D:(A;;FA;;;BA)",
        "D:(A;ID;FA;;;BA)",
        "\
removed dacl entry 1: allows 0x1f01ff to S-1-5-32-544 on this object
added dacl entry 1: allows 0x1f01ff to S-1-5-32-544 on this object, inherited
",
    ),
    (
        "D:(OA;;RP;;;AU)",
        "D:(A;;RP;;;AU)",
        "\
dacl was revision-4, is not
removed dacl entry 1: allows 0x10 to S-1-5-11 on this object for object type any
added dacl entry 1: allows 0x10 to S-1-5-11 on this object
",
    ),
    (
        "D:(XA;;FR;;;AU;(a))",
        "D:(XA;;FR;;;AU;(b))",
        "\
removed dacl entry 1: allows 0x120089 to S-1-5-11 on this object if (a)
added dacl entry 1: allows 0x120089 to S-1-5-11 on this object if (b)
",
    ),
    (
        "D:(OA;;RP;bf967a86-0de6-11d0-a285-00aa003049e2;;AU)",
        "D:(OA;;RP;;bf967a86-0de6-11d0-a285-00aa003049e2;AU)",
        "\
removed dacl entry 1: allows 0x10 to S-1-5-11 on this object \
         for object type bf967a86-0de6-11d0-a285-00aa003049e2
added dacl entry 1: allows 0x10 to S-1-5-11 on this object for object type any \
         inherited by object type bf967a86-0de6-11d0-a285-00aa003049e2
",
    ),
    (
        "S:(AU;SA;FA;;;WD)",
        "S:(AU;FA;FA;;;WD)",
        "\
removed sacl entry 1: audits success of 0x1f01ff by S-1-1-0 on this object
added sacl entry 1: audits failure of 0x1f01ff by S-1-1-0 on this object
",
    ),
    (
        "D:(A;;FA;;;BA)S:(ML;;NW;;;HI)",
        "D:(A;;FA;;;BA)",
        "\
sacl was a list, is absent
removed sacl entry 1: integrity label S-1-16-12288 no-write-up on this object
",
    ),
];

/// Lines in an output, with masks as numbers.
fn printed(rt: &(impl Abort + AllocGlobal), output: Output, lines: &[Line]) -> String {
    let alloc = rt.alloc();
    let style = Style {
        spelling: Spelling::Number,
        output,
    };
    let mut out = Vec::new(alloc);
    push_printed(alloc, &mut out, style, Tag::None, lines).expect(rt, "memory");
    String::from_utf8(out).expect(rt, "text")
}

fn parsed(rt: &impl Abort, alloc: Global, text: &str) -> WholeDescriptor {
    match read_whole_sddl(alloc, Aliases::in_domain(None), text) {
        Ok(descriptor) => descriptor,
        Err(_) => rt.abort(),
    }
}

fn from_digits(rt: &impl Abort, alloc: Global, digits: &str) -> WholeDescriptor {
    let Ok(bytes) = hex::decode(alloc, digits) else {
        rt.abort()
    };
    match read_whole(alloc, &bytes) {
        Ok(descriptor) => descriptor,
        Err(_) => rt.abort(),
    }
}

fn shown(rt: &(impl Abort + AllocGlobal), descriptor: &WholeDescriptor) -> String {
    let lines = show_lines(rt.alloc(), descriptor).expect(rt, "memory");
    printed(rt, Output::Text, &lines)
}

fn changed(
    rt: &(impl Abort + AllocGlobal),
    old: &WholeDescriptor,
    new: &WholeDescriptor,
) -> String {
    let lines = diff_lines(rt.alloc(), old, new).expect(rt, "memory");
    printed(rt, Output::Text, &lines)
}

#[test]
fn shows_descriptors(rt: HostRuntime) -> Result<(), Fail> {
    for (text, lines) in SHOWN {
        let found = shown(&rt, &parsed(&rt, rt.alloc(), text));
        assert!(rt; found.as_str() == lines, "{text}: {found}");
    }
    Ok(())
}

#[test]
fn shows_entries_of_each_type(rt: HostRuntime) -> Result<(), Fail> {
    let alloc = rt.alloc();
    for (entry, line) in ENTRIES {
        let text = format!(in alloc; "D:{entry}")?;
        let found = shown(&rt, &parsed(&rt, alloc, text.as_str()));
        let wanted = format!(in alloc; "\ndacl entry 1 {line}\nsacl absent\n")?;
        assert!(rt;
            found.as_str().ends_with(wanted.as_str()),
            "{entry}: {found}"
        );
    }
    Ok(())
}

#[test]
fn shows_what_has_no_text(rt: HostRuntime) -> Result<(), Fail> {
    for (digits, lines) in FROM_BYTES {
        let found = shown(&rt, &from_digits(&rt, rt.alloc(), digits));
        assert!(rt; found.as_str() == lines, "{digits}: {found}");
    }
    Ok(())
}

#[test]
fn tells_what_differs(rt: HostRuntime) -> Result<(), Fail> {
    let alloc = rt.alloc();
    for (old, new, lines) in CHANGED {
        let found = changed(&rt, &parsed(&rt, alloc, old), &parsed(&rt, alloc, new));
        assert!(rt; found.as_str() == lines, "{old} {new}: {found}");
        let none = changed(&rt, &parsed(&rt, alloc, new), &parsed(&rt, alloc, new));
        assert!(rt; none.is_empty(), "{new}: {none}");
    }
    Ok(())
}

#[test]
fn tells_what_differs_without_a_text(rt: HostRuntime) -> Result<(), Fail> {
    let alloc = rt.alloc();
    let old = from_digits(&rt, alloc, "010701c000000000000000000000000000000000");
    let new = from_digits(&rt, alloc, "0100028000000000000000000000000000000000");
    let found = changed(&rt, &old, &new);
    let lines = "\
owner was defaulted, is not
group is defaulted, was not
resource manager was 7, is 0
resource manager was valid, is not
";
    assert!(rt; found.as_str() == lines, "{found}");
    Ok(())
}

#[test]
fn names_values_in_json(rt: HostRuntime) -> Result<(), Fail> {
    let alloc = rt.alloc();
    let descriptor = parsed(&rt, alloc, "O:BAD:P(A;OIID;FR;;;WD)");
    let lines = show_lines(alloc, &descriptor)?;
    let found = printed(&rt, Output::Json, &lines);
    let objects = "\
{\"answer\":\"owner\",\"sid\":\"S-1-5-32-544\"}
{\"answer\":\"group absent\"}
{\"answer\":\"dacl\",\"control\":[\"protected\"]}
{\"answer\":\"entry\",\"acl\":\"dacl\",\"entry\":1,\"does\":\"allows\",\"mask\":\"0x120089\",\"sid\":\"S-1-1-0\",\
         \"on\":\"this object and objects below\",\"flags\":[\"inherited\"]}
{\"answer\":\"sacl absent\"}
";
    assert!(rt; found.as_str() == objects, "{found}");
    Ok(())
}
