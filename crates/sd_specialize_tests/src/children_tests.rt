//! What children inherit of whole DACLs, as plain entries with markers.

use crate::tests::{chain_of, column, spelled, whole_of};
use sd_acl::{AceList, Dacl, Descriptor};
use sd_specialize::{
    Conditions, Context, handed_classes, handed_conditionals, handed_entries, hands_on_conditions,
    leaves_out_children,
};
use sd_text::print_sddl;
use sd_whole::{Guid, WholeAcl};
use std::alloc::{AllocError, Global};
use std::process::Abort;
use std::test::Fail;

/// Each DACL; the class of a child; the object types that it is asked about; the plain entries by the markers of the
/// conditions that are handed on; and whether those are left out beside an empty DACL. Signs are those of rows.rt.
const ROWS: &str = "\
flags and masks stay, also of inherit-only entries
D:(A;OICI;FR;;;BU)(D;CIIO;FA;;;WD) | - | - | D:(A;OICI;FR;;;BU)(D;CIIO;FA;;;WD) | no
D:(OA;OI;FR;;;BU)(OD;OINPIO;FR;;;BG) | ~ | - | D:(A;OI;FR;;;BU)(D;OINPIO;FR;;;BG) | no
a marker for each condition that is handed on
D:(XA;OICIIO;FA;;;BU;(a))(XD;CI;FR;;;BU;(a)) | - | - | D:(A;OICIIO;FA;;;`0)(D;CI;FR;;;`1) | no
D:(XA;OI;FR;;;BU;(a))(XA;CI;FW;;;BU;(a))(XA;CI;FW;;;BU;(b)) | - | - | D:(A;OI;FR;;;`0)(A;CI;FW;;;`0)(A;CI;FW;;;`2) | no
D:(ZA;OINP;GA;;;CO;(a)) | - | - | D:(A;OINP;GA;;;`0) | no
PRINCIPAL SELF is each child's own
D:(A;OI;FR;;;PS) | - | - | D:(A;OI;FR;;;PS) | no
an entry for a class counts in children of that class alone, and limits no owner of others
D:(OA;CIIO;FR;;~;BU)(OD;CI;FR;;#;BU) | ~ | - | D:(A;CIIO;FR;;;BU)(A;CI;0x0;;;S-1-0-0) | no
D:(OA;CIIO;FR;;~;BU)(OD;CI;FR;;#;BU) | # | - | D:(A;CIIO;0x0;;;S-1-0-0)(D;CI;FR;;;BU) | no
D:(OA;CIIO;FR;;~;BU)(OD;CI;FR;;#;BU) | - | - | D:(A;CIIO;0x0;;;S-1-0-0)(A;CI;0x0;;;S-1-0-0) | no
D:(OA;CIIO;RC;;~;OW)(A;CI;FR;;;BU) | # | - | D:(A;CIIO;0x0;;;S-1-0-0)(A;CI;FR;;;BU) | no
D:(ZA;CIIO;FR;;~;BU;(a)) | ~ | - | D:(A;CIIO;FR;;;`0) | no
D:(ZA;CIIO;FR;;~;BU;(a)) | # | - | D:(A;CIIO;0x0;;;S-1-0-0) | no
one with an ObjectType counts where that is asked about, and a deny for the whole child too
D:(OA;CIIO;FR;$;~;BU) | ~ | ~ ^ $ | D:(A;CIIO;FR;;;BU) | no
D:(OA;CIIO;FR;$;~;BU) | ~ | ~ # | D:(A;CIIO;0x0;;;BU) | no
D:(OA;CIIO;FR;$;~;BU) | # | # $ | D:(A;CIIO;0x0;;;S-1-0-0) | no
D:(OA;CI;FR;$;;BU)(OD;CI;FR;$;;BU) | - | - | D:(A;CI;0x0;;;BU)(D;CI;FR;;;BU) | no
D:(OA;CI;FR;$;;BU)(OD;CI;FR;$;;BU) | - | # | D:(A;CI;0x0;;;BU)(A;CI;0x0;;;BU) | no
D:(OA;CI;FR;$;;BU)(OD;CI;FR;$;;BU) | - | $ | D:(A;CI;FR;;;BU)(D;CI;FR;;;BU) | no
D:(ZA;CI;FR;$;;BU;(a)) | - | $ | D:(A;CI;FR;;;`0) | no
D:(ZA;CI;FR;$;;BU;(a)) | - | # | D:(A;CI;0x0;;;BU) | no
one for OWNER RIGHTS limits the owner, whatever is asked about
D:(OA;CI;RC;$;;OW) | - | # | D:(A;CI;0x0;;;OW) | no
an entry of a SACL
D:(AU;CISA;FR;;;BU) | - | - | D:(A;CISA;0x0;;;BU) | yes
D:(AU;SA;FR;;;BU) | - | - | D:(A;SA;0x0;;;BU) | no
where no marker can stand for a condition that is handed on
D:(XA;OIIO;FR;;;OW;(a)) | - | - | D:(A;OIIO;FR;;;`0) | yes
D:(XA;OIIO;FR;;;BU;(a))(A;CI;FR;;;`7) | - | - | D:(A;OIIO;FR;;;`0)(A;CI;FR;;;`7) | yes
D:(XA;OIIO;FR;;;BU;(a))(A;;FR;;;`7) | - | - | D:(A;OIIO;FR;;;`0)(A;;FR;;;`7) | no
D:(A;OICI;FR;;;OW)(A;CI;FR;;;`7) | - | - | D:(A;OICI;FR;;;OW)(A;CI;FR;;;`7) | no";

#[test]
fn children_inherit_plain_entries(rt: HostRuntime) -> Result<(), Fail> {
    let alloc = rt.alloc();
    let mut count: u32 = 0;
    for row in ROWS.split('\n') {
        if !row.contains(" | ") {
            continue;
        }
        let (text, rest) = column(&rt, row);
        let (class, rest) = column(&rt, rest);
        let (asked, rest) = column(&rt, rest);
        let (wanted, left_out) = column(&rt, rest);
        let dacl = whole_of(&rt, alloc, text)?.dacl;
        let class = chain_of(&rt, alloc, class)?.first().copied();
        let found = handed_text(&rt, alloc, class, &chain_of(&rt, alloc, asked)?, &dacl)?;
        let wanted = spelled(alloc, wanted)?;
        assert!(rt; found.as_str() == wanted.as_str(), "{row}: {found}");
        assert!(rt;
            leaves_out_children(&dacl, &WholeAcl::Null) == (left_out == "yes"),
            "{row}"
        );
        assert!(rt;
            leaves_out_children(&WholeAcl::Absent, &dacl) == (left_out == "yes"),
            "{row}"
        );
        count = count.saturating_add(1);
    }
    assert!(rt; count == 27, "{count}");
    Ok(())
}

fn handed_text(
    rt: &impl Abort,
    alloc: Global,
    class: Option<Guid>,
    chain: &[Guid],
    dacl: &WholeAcl,
) -> Result<String, AllocError> {
    let marks = handed_conditionals(alloc, dacl)?;
    assert!(rt; hands_on_conditions(dacl) != marks.is_empty());
    let context = Context {
        conditions: Conditions::Unknown,
        chain,
        principal_self: None,
    };
    let entries = handed_entries(alloc, class, &context, &marks, dacl)?;
    let plain = Descriptor {
        owner: None,
        group: None,
        dacl: Dacl::List(AceList::new(entries).expect(rt, "a list")),
        protected: false,
        auto_req: false,
        auto_inherited: false,
    };
    print_sddl(alloc, &plain)
}

/// Two DACLs, and the classes of children that their entries name.
const CLASSES: &str = "\
D:(OA;CIIO;FR;;~;BU)(OA;CI;FR;;#;BU)(OD;OI;FR;$;~;BG) | D: | ~ #
D:(OA;CIIO;FR;;#;BU) | D:(OA;OI;FR;;~;BU)(OA;CI;FR;;#;BU) | # ~
D:(OA;;FR;;~;BU)(OA;CI;FR;#;;BU)(A;CI;FR;;;BU) | D:NO_ACCESS_CONTROL | -
D:(OA;;FR;;~;BU) | D:(ZA;CIIO;FR;;~;BU;(a)) | ~";

#[test]
fn entries_name_classes_of_children(rt: HostRuntime) -> Result<(), Fail> {
    let alloc = rt.alloc();
    for row in CLASSES.split('\n') {
        let (one, rest) = column(&rt, row);
        let (other, wanted) = column(&rt, rest);
        let (one, other) = (whole_of(&rt, alloc, one)?, whole_of(&rt, alloc, other)?);
        let found = handed_classes(alloc, &one.dacl, &other.dacl)?;
        let wanted = chain_of(&rt, alloc, if wanted == "-" { "" } else { wanted })?;
        assert!(rt; found.as_slice() == wanted.as_slice(), "{row}");
    }
    Ok(())
}
