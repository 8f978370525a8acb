//! What whole DACLs are for all tokens, where markers stand for conditions.

use crate::tests::{asked_by, fault_text, spelled, whole_of};
use sd_specialize::{
    Conditions, Context, SpecializeError, conditional_place, conditionals, marked_for_everyone,
    with_copies,
};
use sd_text::print_sddl;
use std::alloc::{AllocError, Global};
use std::process::Abort;
use std::test::Fail;

/// Each question, as the rows of questions have it, and then the plain descriptor that the markers of its own
/// conditions make of it.
const ROWS: &str = "\
entries without a condition are what they are for every question, also for a SID that is a marker's
D:(D;;FW;;;BG)(A;;FA;;;BU) | - | - | - | D:(D;;FW;;;BG)(A;;FA;;;BU)
D:(A;;FA;;;`0) | - | - | - | D:(A;;FA;;;`0)
D:NO_ACCESS_CONTROL | - | - | - | D:NO_ACCESS_CONTROL
O:BA | - | - | - | O:BA
a marker for each condition of an allow or a deny, and for each SID; those that say the same have one
D:(XA;;FR;;;BU;(@User.Grade >= 5)) | - | - | - | D:(A;;FR;;;`0)
D:(XD;;FR;;;BU;(a))(A;;FA;;;WD)(XA;;FR;;;BU;(a)) | - | - | - | D:(D;;FR;;;`0)(A;;FA;;;WD)(A;;FR;;;`1)
D:(XA;;FR;;;BU;(a))(XA;;FW;;;BU;(a))(XA;;FR;;;BG;(a)) | - | - | - | D:(A;;FR;;;`0)(A;;FW;;;`0)(A;;FR;;;`2)
D:(XA;;FR;;;BU;(a))(XA;;FR;;;BU;(b)) | - | - | - | D:(A;;FR;;;`0)(A;;FR;;;`1)
for children alone: no part
D:(XA;CIIO;FR;;;BU;(a)) | - | - | - | D:(A;CIIO;0x0;;;BU)
D:(XD;OIIO;FR;;;BG;(a)) | - | - | - | D:(A;OIIO;0x0;;;BG)
with an object type: that asked about, another one, and none asked about
D:(ZA;;FR;$;;BU;(a)) | ~ ^ $ | - | - | D:(A;;FR;;;`0)
D:(ZA;;FR;$;;BU;(a)) | ~ # | - | - | D:(A;;0x0;;;BU)
D:(ZA;;FR;$;;BU;(a)) | - | - | - | D:(A;;0x0;;;BU)
D:(OA;;FR;$;;BU)(XA;;FR;;;BG;(a)) | $ | - | - | D:(A;;FR;;;BU)(A;;FR;;;`0)
PRINCIPAL SELF
D:(XA;;FR;;;PS;(a))(A;;FW;;;PS) | - | % | - | D:(A;;FR;;;`0)(A;;FW;;;%)
where no marker can stand for a condition: OWNER RIGHTS, which limits the owner anyway, and the SID of a marker
D:(A;;FA;;;BA)(XA;;FR;;;OW;(a)) | - | - | - | 2 2 ConditionalAce
D:(XA;CIIO;FR;;;OW;(a)) | - | - | - | D:(A;CIIO;0x0;;;OW)
D:(XA;;FR;;;BU;(a))(A;;FA;;;`7) | - | - | - | 1 2 ConditionalAce
O:`7D:(XA;;FR;;;BU;(a)) | - | - | - | 1 2 ConditionalAce
an entry of a SACL can't be decided
D:(XA;;FR;;;BU;(a))(AU;SA;FA;;;WD) | - | - | - | 2 3 SystemAce";

#[test]
fn markers_stand_for_conditions(rt: HostRuntime) -> Result<(), Fail> {
    let alloc = rt.alloc();
    let mut count: u32 = 0;
    for row in ROWS.split('\n') {
        if !row.contains(" | ") {
            continue;
        }
        let wanted = spelled(alloc, asked_by(&rt, alloc, row)?.rest)?;
        let found = marked_text(&rt, alloc, row)?;
        assert!(rt; found.as_str() == wanted.as_str(), "{row}: {found}");
        count = count.saturating_add(1);
    }
    assert!(rt; count == 20, "{count}");
    Ok(())
}

/// The descriptor with markers as a text, or the fault.
fn marked_text(rt: &impl Abort, alloc: Global, row: &str) -> Result<String, AllocError> {
    let asked = asked_by(rt, alloc, row)?;
    let marks = conditionals(alloc, &asked.whole.dacl)?;
    match marked_for_everyone(
        alloc,
        &asked.chain,
        asked.principal_self,
        &marks,
        &asked.whole,
    ) {
        Ok(plain) => print_sddl(alloc, &plain),
        Err(SpecializeError::Fault(fault)) => fault_text(alloc, fault),
        Err(SpecializeError::Memory) => Err(AllocError),
    }
}

/// Each question, and then the descriptor with copies of its entries for the markers of their SIDs.
const COPY_ROWS: &str = "\
an allow has a copy for the marker of an allow of its SID, before and behind it, and of no other
D:(A;;FA;;;BU)(A;;FR;;;BG)(XA;;FR;;;BU;(a)) | - | - | - | D:(A;;FA;;;BU)(A;;FA;;;`0)(A;;FR;;;BG)(A;;FR;;;`0)
D:(XA;;FR;;;BU;(a))(A;CI;FA;;;BU) | - | - | - | D:(A;;FR;;;`0)(A;CI;FA;;;BU)(A;CI;FA;;;`0)
none for that of a deny; a deny has one for each
D:(XD;;FR;;;BU;(a))(A;;FA;;;BU) | - | - | - | D:(D;;FR;;;`0)(A;;FA;;;BU)
D:(D;;FW;;;BU)(XD;;FR;;;BU;(a)) | - | - | - | D:(D;;FW;;;BU)(D;;FW;;;`0)(D;;FR;;;`0)
D:(D;;FW;;;BU)(XA;;FA;;;BU;(a)) | - | - | - | D:(D;;FW;;;BU)(D;;FW;;;`0)(A;;FA;;;`0)
one for entries that say the same
D:(XA;;FR;;;BU;(a))(XA;;FW;;;BU;(a))(A;;FX;;;BU) | - | - | - | D:(A;;FR;;;`0)(A;;FW;;;`0)(A;;FX;;;BU)(A;;FX;;;`0)
PRINCIPAL SELF, and entries without a condition alone
D:(XA;;FR;;;PS;(a))(A;;FW;;;%) | - | % | - | D:(A;;FR;;;`0)(A;;FW;;;%)(A;;FW;;;`0)
D:(D;;FW;;;BG)(A;;FA;;;BU) | - | - | - | D:(D;;FW;;;BG)(A;;FA;;;BU)
D:NO_ACCESS_CONTROL | - | - | - | D:NO_ACCESS_CONTROL
O:BA | - | - | - | O:BA";

#[test]
fn entries_have_copies_for_markers(rt: HostRuntime) -> Result<(), Fail> {
    let alloc = rt.alloc();
    let mut count: u32 = 0;
    for row in COPY_ROWS.split('\n') {
        if !row.contains(" | ") {
            continue;
        }
        let wanted = spelled(alloc, asked_by(&rt, alloc, row)?.rest)?;
        let found = copied_text(&rt, alloc, row)?;
        assert!(rt; found.as_str() == wanted.as_str(), "{row}: {found}");
        count = count.saturating_add(1);
    }
    assert!(rt; count == 10, "{count}");
    Ok(())
}

/// The descriptor with markers and copies as a text, or the fault.
fn copied_text(rt: &impl Abort, alloc: Global, row: &str) -> Result<String, AllocError> {
    let asked = asked_by(rt, alloc, row)?;
    let marks = conditionals(alloc, &asked.whole.dacl)?;
    let context = Context {
        conditions: Conditions::Unknown,
        chain: &asked.chain,
        principal_self: asked.principal_self,
    };
    match marked_for_everyone(
        alloc,
        &asked.chain,
        asked.principal_self,
        &marks,
        &asked.whole,
    ) {
        Ok(plain) => print_sddl(alloc, &with_copies(alloc, &context, &marks, plain)?),
        Err(SpecializeError::Fault(fault)) => fault_text(alloc, fault),
        Err(SpecializeError::Memory) => Err(AllocError),
    }
}

#[test]
fn finds_the_first_condition(rt: HostRuntime) -> Result<(), Fail> {
    let alloc = rt.alloc();
    let whole = whole_of(
        &rt,
        alloc,
        "D:(A;;FR;;;WD)(XA;IO;FR;;;BU;(a))(XD;;FR;;;BG;(a))",
    )?;
    assert!(rt; conditional_place(&whole.dacl) == Some(2));
    let whole = whole_of(&rt, alloc, "D:(A;;FR;;;WD)(XA;IO;FR;;;BU;(a))")?;
    assert!(rt; conditional_place(&whole.dacl) == None);
    Ok(())
}
