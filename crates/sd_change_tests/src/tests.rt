//! Changes of descriptors, as their texts ([MS-DTYP] 2.5.1.1) say them before and after.

use sd_change::{Change, EntryPlace, Inherited, first_inside};
use sd_sid::Sid;
use sd_text::{Aliases, RightNames, read_sid_text};
use sd_whole::WholeDescriptor;
use sd_whole_parse::read_whole_sddl;
use sd_whole_text::{AclKind, print_whole};
use std::alloc::Global;
use std::process::Abort;
use std::test::Fail;

/// A text, a SID, the one in its place, and the text after that.
const REPLACED: [(&str, &str, &str, &str); 11] = [
    ("", "BA", "SY", ""),
    ("D:", "BA", "SY", "D:"),
    ("D:NO_ACCESS_CONTROL", "BA", "SY", "D:NO_ACCESS_CONTROL"),
    (
        "O:BAG:BAD:(A;;FA;;;BA)S:(AU;SA;FA;;;BA)",
        "BA",
        "SY",
        "O:SYG:SYD:(A;;FA;;;SY)S:(AU;SA;FA;;;SY)",
    ),
    (
        "O:BAG:SYD:(A;;FA;;;BU)",
        "BU",
        "BU",
        "O:BAG:SYD:(A;;FA;;;BU)",
    ),
    // Each entry, and its flags and its place stay.
    (
        "D:PAI(D;OICI;FW;;;BU)(A;ID;FR;;;WD)(A;CIIOID;FA;;;BU)",
        "BU",
        "S-1-5-21-1-2-3-1001",
        "D:PAI(D;OICI;FW;;;S-1-5-21-1-2-3-1001)(A;ID;FR;;;WD)(A;CIIOID;FA;;;S-1-5-21-1-2-3-1001)",
    ),
    // Object entries, conditional ones, and the data of these.
    (
        "D:(OA;CI;CR;00299570-246d-11d0-a768-00aa006e0529;;AU)(XA;;FR;;;AU;(@User.Level >= 3))",
        "AU",
        "BU",
        "D:(OA;CI;CR;00299570-246d-11d0-a768-00aa006e0529;;BU)(XA;;FR;;;BU;(@User.Level >= 3))",
    ),
    // A label, a claim and a policy are entries for their SIDs too.
    (
        "S:(ML;;NW;;;ME)(RA;;;;;WD;(\"Secrecy\",TU,0,3))(SP;;;;;S-1-17-1)",
        "S-1-16-8192",
        "S-1-16-12288",
        "S:(ML;;NW;;;HI)(RA;;;;;WD;(\"Secrecy\",TU,0,3))(SP;;;;;S-1-17-1)",
    ),
    // A SID that begins as another one, or ends before it, is another one.
    (
        "O:S-1-5-21-1-2-3-10D:(A;;FA;;;S-1-5-21-1-2-3-100)(A;;FA;;;S-1-5-21-1-2-3)(A;;FA;;;S-1-5-21-1-2-3-10-1)",
        "S-1-5-21-1-2-3-10",
        "SY",
        "O:SYD:(A;;FA;;;S-1-5-21-1-2-3-100)(A;;FA;;;S-1-5-21-1-2-3)(A;;FA;;;S-1-5-21-1-2-3-10-1)",
    ),
    // Of many sub-authorities the last decides.
    (
        "D:(A;;FA;;;S-1-5-1-2-3-4-5-6-7-8)(A;;FA;;;S-1-5-1-2-3-4-5-6-7-9)",
        "S-1-5-1-2-3-4-5-6-7-9",
        "BA",
        "D:(A;;FA;;;S-1-5-1-2-3-4-5-6-7-8)(A;;FA;;;BA)",
    ),
    // What a condition names stays.
    (
        "D:(XA;;FR;;;BU;(Member_of {SID(BU)}))",
        "BU",
        "BG",
        "D:(XA;;FR;;;BG;(Member_of {SID(BU)}))",
    ),
];

/// A text, a SID, and the text without entries for it.
const REMOVED: [(&str, &str, &str); 6] = [
    ("D:NO_ACCESS_CONTROL", "BA", "D:NO_ACCESS_CONTROL"),
    ("D:(A;;FA;;;BA)", "BA", "D:"),
    (
        "O:BAG:BAD:PAI(A;;FA;;;BA)(A;ID;FA;;;BA)S:(AU;SA;FA;;;BA)",
        "BA",
        "O:BAG:BAD:PAIS:",
    ),
    (
        "D:(D;;FW;;;BG)(A;;FA;;;BU)(A;CI;FR;;;WD)(A;;FR;;;BU)",
        "BU",
        "D:(D;;FW;;;BG)(A;CI;FR;;;WD)",
    ),
    (
        "D:(OA;;CR;00299570-246d-11d0-a768-00aa006e0529;;AU)(XA;;FR;;;WD;(Member_of {SID(AU)}))",
        "AU",
        "D:(XA;;FR;;;WD;(Member_of {SID(AU)}))",
    ),
    (
        "D:(A;;FA;;;S-1-5-21-1-2-3-10)(A;;FA;;;S-1-5-21-1-2-3-100)",
        "S-1-5-21-1-2-3-1",
        "D:(A;;FA;;;S-1-5-21-1-2-3-10)(A;;FA;;;S-1-5-21-1-2-3-100)",
    ),
];

/// A text, and the texts of its descriptor protected: what was inherited is kept, or dropped.
const PROTECTED: [(&str, &str, &str); 5] = [
    ("D:", "D:P", "D:P"),
    (
        "D:NO_ACCESS_CONTROL",
        "D:PNO_ACCESS_CONTROL",
        "D:PNO_ACCESS_CONTROL",
    ),
    ("D:P(A;;FA;;;BA)", "D:P(A;;FA;;;BA)", "D:P(A;;FA;;;BA)"),
    (
        "O:BAD:AI(D;;FW;;;BG)(A;OICIID;FA;;;BA)(A;CIIOID;FR;;;WD)S:AI(AU;SAID;FA;;;WD)",
        "O:BAD:PAI(D;;FW;;;BG)(A;OICI;FA;;;BA)(A;CIIO;FR;;;WD)S:AI(AU;SAID;FA;;;WD)",
        "O:BAD:PAI(D;;FW;;;BG)S:AI(AU;SAID;FA;;;WD)",
    ),
    (
        "D:(OA;CIID;CR;00299570-246d-11d0-a768-00aa006e0529;;AU)(XA;ID;FR;;;AU;(@User.Level >= 3))",
        "D:P(OA;CI;CR;00299570-246d-11d0-a768-00aa006e0529;;AU)(XA;;FR;;;AU;(@User.Level >= 3))",
        "D:P",
    ),
];

/// A text, and that of its descriptor without protection.
const UNPROTECTED: [(&str, &str); 4] = [
    ("", ""),
    ("D:AI(A;ID;FA;;;BA)", "D:AI(A;ID;FA;;;BA)"),
    (
        "D:PAI(A;;FA;;;BA)S:P(AU;SA;FA;;;WD)",
        "D:AI(A;;FA;;;BA)S:P(AU;SA;FA;;;WD)",
    ),
    ("D:PNO_ACCESS_CONTROL", "D:NO_ACCESS_CONTROL"),
];

/// A text, a SID, and the first entry that has it in its data: none is 0.
const INSIDE: [(&str, &str, AclKind, usize); 7] = [
    ("O:BAG:BAD:(A;;FA;;;BA)", "BA", AclKind::Dacl, 0),
    (
        "D:(A;;FA;;;BA)(XA;;FR;;;BA;(Member_of {SID(BU), SID(BA)}))",
        "BA",
        AclKind::Dacl,
        2,
    ),
    (
        "D:(XA;;FR;;;BA;(Member_of {SID(BU)}))",
        "BA",
        AclKind::Dacl,
        0,
    ),
    (
        "D:(XA;;FR;;;WD;(@User.Manager == SID(BA)))S:(ML;;NW;;;ME)",
        "BA",
        AclKind::Dacl,
        1,
    ),
    // A text that spells a SID is none.
    (
        "D:(XA;;FR;;;WD;(@User.Manager == \"S-1-5-32-544\"))",
        "BA",
        AclKind::Dacl,
        0,
    ),
    (
        "D:(XA;;FR;;;WD;(Member_of {SID(BA)}))S:(AU;SA;FA;;;BA)(RA;;;;;WD;(\"Owners\",TD,0,BU,BA))",
        "BA",
        AclKind::Sacl,
        2,
    ),
    (
        "D:(XA;;FR;;;WD;(Member_of {SID(S-1-5-21-1-2-3-100)}))",
        "S-1-5-21-1-2-3",
        AclKind::Dacl,
        0,
    ),
];

fn parsed(rt: &impl Abort, alloc: Global, text: &str) -> WholeDescriptor {
    match read_whole_sddl(alloc, Aliases::in_domain(None), text) {
        Ok(descriptor) => descriptor,
        Err(_) => rt.abort(),
    }
}

fn sid(rt: &impl Abort, text: &str) -> Sid {
    match read_sid_text(text) {
        Ok(sid) => sid,
        Err(_) => rt.abort(),
    }
}

fn text_of(rt: &(impl Abort + AllocGlobal), descriptor: &WholeDescriptor) -> String {
    match print_whole(rt.alloc(), RightNames::All, descriptor) {
        Ok(text) => text,
        Err(_) => rt.abort(),
    }
}

/// Whether the change makes the descriptor of one text that of the other, and concerns it where these differ.
fn makes(rt: &(impl Abort + AllocGlobal), change: &Change, given: &str, wanted: &str) -> bool {
    let alloc = rt.alloc();
    let (before, wanted) = (parsed(rt, alloc, given), parsed(rt, alloc, wanted));
    let after = match change.apply(alloc, &before) {
        Ok(after) => after,
        Err(_) => rt.abort(),
    };
    let (before_text, wanted) = (text_of(rt, &before), text_of(rt, &wanted));
    let differs = before_text.as_str() != wanted.as_str();
    text_of(rt, &after).as_str() == wanted.as_str() && change.concerns(&before) == differs
}

#[test]
fn replaces_each_of_a_sid(rt: HostRuntime) -> Result<(), Fail> {
    for (given, old, new, wanted) in REPLACED {
        let change = Change::Replace {
            old: sid(&rt, old),
            new: sid(&rt, new),
        };
        assert!(rt; makes(&rt, &change, given, wanted), "{given} {old} {new}");
    }
    Ok(())
}

#[test]
fn removes_the_entries_for_a_sid(rt: HostRuntime) -> Result<(), Fail> {
    for (given, of, wanted) in REMOVED {
        let change = Change::Remove { sid: sid(&rt, of) };
        assert!(rt; makes(&rt, &change, given, wanted), "{given} {of}");
    }
    Ok(())
}

#[test]
fn protects_and_unprotects(rt: HostRuntime) -> Result<(), Fail> {
    for (given, kept, dropped) in PROTECTED {
        let keeping = Change::Protect(Inherited::Kept);
        assert!(rt; makes(&rt, &keeping, given, kept), "{given}");
        let dropping = Change::Protect(Inherited::Dropped);
        assert!(rt; makes(&rt, &dropping, given, dropped), "{given}");
    }
    for (given, wanted) in UNPROTECTED {
        assert!(rt; makes(&rt, &Change::Unprotect, given, wanted), "{given}");
    }
    Ok(())
}

#[test]
fn finds_sids_in_the_data_of_entries(rt: HostRuntime) -> Result<(), Fail> {
    let alloc = rt.alloc();
    for (given, of, acl, entry) in INSIDE {
        let found = first_inside(&sid(&rt, of), &parsed(&rt, alloc, given));
        let wanted = if entry == 0 {
            None
        } else {
            Some(EntryPlace { acl, entry })
        };
        assert!(rt; found == wanted, "{given} {of}");
    }
    Ok(())
}
