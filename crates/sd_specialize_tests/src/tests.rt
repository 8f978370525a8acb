//! Whole DACLs for one question: the plain ones, and the verdicts.

use crate::rows::{LABELS, REFUSED, ROWS, UNDER};
use bitflags::Flags;
use sd_acl::{AceFlags, DaclOf, Descriptor};
use sd_check::{GroupState, Privileges, Token, Verdict, check};
use sd_claim::{Claim, read_claim};
use sd_evaluation::Facts;
use sd_explain::{Cause, Share};
use sd_label::{Label, explain_under, verdict_under};
use sd_sid::{GenericMapping, Sid};
use sd_specialize::{Conditions, Context, SpecializeError, SpecializeFault, specialized};
use sd_text::{Aliases, print_sddl, read_mask, read_sid_text};
use sd_whole::{AceData, Guid, ListRevision, OpaqueAce, WholeAce, WholeDescriptor, WholeList};
use sd_whole_parse::read_whole_sddl;
use std::alloc::{AllocError, Global};
use std::process::Abort;
use std::test::Fail;

/// Who asks.
const USER: &str = "S-1-5-21-1-2-3-1001";

/// The text with the meanings of its signs.
pub(crate) fn spelled(alloc: Global, text: &str) -> Result<String, AllocError> {
    let mut out = String::new(alloc);
    for c in text.chars() {
        match c {
            '%' => out.push_str(USER)?,
            '~' => out.push_str("bf967aba-0de6-11d0-a285-00aa003049e2")?,
            '^' => out.push_str("77b5b886-944a-11d1-aebd-0000f80367c1")?,
            '$' => out.push_str("bf967a49-0de6-11d0-a285-00aa003049e2")?,
            '`' => out.push_str("S-1-0xffffffffffff-0-")?,
            '#' => out.push_str("bf967950-0de6-11d0-a285-00aa003049e2")?,
            _ => out.push(c)?,
        }
    }
    Ok(out)
}

/// What a row says of a question.
#[derive(Drop)]
pub(crate) struct Asked<'a> {
    pub(crate) whole: WholeDescriptor,
    pub(crate) chain: Vec<Guid>,
    pub(crate) principal_self: Option<Sid>,
    pub(crate) token: Token,
    /// The columns after these.
    pub(crate) rest: &'a str,
}

/// The first column of the text, and the others; of a column `-` nothing.
pub(crate) fn column<'a>(rt: &impl Abort, text: &'a str) -> (&'a str, &'a str) {
    let (first, rest) = text.split_once(" | ").expect(rt, "another column");
    (if first == "-" { "" } else { first }, rest)
}

/// The SID of a text, in which % is the user.
fn sid_of(rt: &impl Abort, text: &str) -> Sid {
    let full = if text == "%" { USER } else { text };
    read_sid_text(full).expect(rt, "a SID")
}

/// The descriptor of a text, in which % is the user.
pub(crate) fn whole_of(
    rt: &impl Abort,
    alloc: Global,
    text: &str,
) -> Result<WholeDescriptor, AllocError> {
    let text = spelled(alloc, text)?;
    Ok(read_whole_sddl(alloc, Aliases::in_domain(None), text.as_str()).expect(rt, "a descriptor"))
}

/// The object types of a text: each is read as that of an entry.
pub(crate) fn chain_of(
    rt: &impl Abort,
    alloc: Global,
    text: &str,
) -> Result<Vec<Guid>, AllocError> {
    let mut chain = Vec::new(alloc);
    for sign in text.split_whitespace() {
        let entry = format!(in alloc; "D:(OA;;GA;{sign};;WD)")?;
        let whole = whole_of(rt, alloc, entry.as_str())?;
        if let DaclOf::List(list) = &whole.dacl {
            if let [WholeAce::Typed(ace)] = list.entries() {
                chain.push(ace.types.object.expect(rt, "an object type"))?;
            }
        }
    }
    Ok(chain)
}

/// The token of the user with the groups of a text.
pub(crate) fn token_of(rt: &impl Abort, alloc: Global, text: &str) -> Result<Token, AllocError> {
    let mut groups = Vec::new(alloc);
    let mut restricting = Vec::new(alloc);
    for word in text.split_whitespace() {
        if let Some(sid) = word.strip_suffix("=restrict") {
            restricting.push(sid_of(rt, sid))?;
        } else if let Some(sid) = word.strip_suffix("=deny") {
            groups.push((sid_of(rt, sid), GroupState::DenyOnly))?;
        } else {
            groups.push((sid_of(rt, word), GroupState::Enabled))?;
        }
    }
    let user = sid_of(rt, "%");
    Ok(Token::restricted(user, groups, restricting, Privileges::default()))
}

/// The claims of who asks: Grade is 5.
pub(crate) fn claims(rt: &impl Abort, alloc: Global) -> Result<Vec<Claim>, AllocError> {
    let mut claims = Vec::new(alloc);
    let whole = whole_of(rt, alloc, "S:(RA;;;;;WD;(\"Grade\",TI,0,5))")?;
    if let DaclOf::List(list) = &whole.sacl {
        if let [WholeAce::Typed(ace)] = list.entries() {
            let claim = read_claim(alloc, ace.trailing.as_slice())?;
            claims.push(claim.expect(rt, "a claim"))?;
        }
    }
    Ok(claims)
}

/// What conditions can ask about.
fn facts<'a>(token: &'a Token, claims: &'a [Claim]) -> Facts<'a> {
    Facts {
        token,
        device_groups: &[],
        local: &[],
        user: claims,
        device: &[],
        resource: &[],
    }
}

/// The question of a row.
pub(crate) fn asked_by<'a>(
    rt: &impl Abort,
    alloc: Global,
    row: &'a str,
) -> Result<Asked<'a>, AllocError> {
    let (whole, rest) = column(rt, row);
    let (chain, rest) = column(rt, rest);
    let (named, rest) = column(rt, rest);
    let (groups, rest) = column(rt, rest);
    Ok(Asked {
        whole: whole_of(rt, alloc, whole)?,
        chain: chain_of(rt, alloc, chain)?,
        principal_self: if named.is_empty() {
            None
        } else {
            Some(sid_of(rt, named))
        },
        token: token_of(rt, alloc, groups)?,
        rest,
    })
}

impl Asked<'_> {
    /// The plain descriptor for the question.
    fn plain(&self, alloc: Global, claims: &[Claim]) -> Result<Descriptor, SpecializeError> {
        let facts = facts(&self.token, claims);
        let context = Context {
            conditions: Conditions::Evaluated(&facts),
            chain: &self.chain,
            principal_self: self.principal_self,
        };
        specialized(alloc, &context, &self.whole)
    }
}

/// A verdict as a text.
pub(crate) fn verdict_text(alloc: Global, verdict: Verdict) -> Result<String, AllocError> {
    match verdict {
        Verdict::Granted(mask) => format!(in alloc; "granted {:#x}", mask.bits()),
        Verdict::Denied { missing } => format!(in alloc; "denied {:#x}", missing.bits()),
        Verdict::Reserved(mask) => format!(in alloc; "reserved {:#x}", mask.bits()),
        Verdict::EmptyRequest => format!(in alloc; "empty"),
    }
}

#[test]
fn answers_each_question(rt: HostRuntime) -> Result<(), Fail> {
    let alloc = rt.alloc();
    let claims = claims(&rt, alloc)?;
    let mut count: u32 = 0;
    for row in ROWS.split('\n') {
        if !row.contains(" | ") {
            continue;
        }
        let asked = asked_by(&rt, alloc, row)?;
        let (mask, rest) = column(&rt, asked.rest);
        let (plain, verdict) = column(&rt, rest);
        let found = asked
            .plain(alloc, &claims)
            .expect(&rt, "a plain descriptor");
        let text = print_sddl(alloc, &found)?;
        let wanted = spelled(alloc, plain)?;
        assert!(rt; text.as_str() == wanted.as_str(), "{row}: {text}");
        let mask = read_mask(mask).expect(&rt, "a mask");
        let answer = check(&found, &GenericMapping::file(), &asked.token, mask);
        let answer = verdict_text(alloc, answer)?;
        assert!(rt; answer.as_str() == verdict, "{row}: {answer}");
        count = count.saturating_add(1);
    }
    assert!(rt; count == 70, "{count}");
    Ok(())
}

#[test]
fn refuses_what_it_cannot_answer(rt: HostRuntime) -> Result<(), Fail> {
    let alloc = rt.alloc();
    let claims = claims(&rt, alloc)?;
    for row in REFUSED.split('\n') {
        if !row.contains(" | ") {
            continue;
        }
        let asked = asked_by(&rt, alloc, row)?;
        let found = match asked.plain(alloc, &claims) {
            Err(SpecializeError::Fault(fault)) => fault_text(alloc, fault)?,
            _ => format!(in alloc; "none")?,
        };
        assert!(rt; found.as_str() == asked.rest, "{row}: {found}");
    }
    Ok(())
}

/// A fault as a text: the entry, the number, the name.
pub(crate) fn fault_text(alloc: Global, fault: SpecializeFault) -> Result<String, AllocError> {
    let (number, name) = (fault.number(), fault.name());
    match fault {
        SpecializeFault::Refused(refused) => {
            format!(in alloc; "{} {number} {name}", refused.entry)
        }
        SpecializeFault::TooLarge => format!(in alloc; "{number} {name}"),
    }
}

/// A descriptor whose DACL is an entry of a type without a layout, with these flags.
fn opaque(rt: &impl Abort, alloc: Global, flags: AceFlags) -> Result<WholeDescriptor, AllocError> {
    let entry = WholeAce::Opaque(OpaqueAce {
        kind: 0x10,
        flags,
        body: AceData::copied(alloc, &[1, 2, 3, 4])?,
    });
    let mut entries = Vec::new(alloc);
    entries.push(entry)?;
    let mut whole = whole_of(rt, alloc, "D:")?;
    whole.dacl = DaclOf::List(WholeList::new(ListRevision::Standard, entries).expect(rt, "a list"));
    Ok(whole)
}

/// What becomes of a descriptor where nothing is asked about.
fn outcome(rt: &impl Abort, alloc: Global, whole: &WholeDescriptor) -> Result<String, AllocError> {
    let token = token_of(rt, alloc, "BU")?;
    let facts = facts(&token, &[]);
    let context = Context {
        conditions: Conditions::Evaluated(&facts),
        chain: &[],
        principal_self: Some(sid_of(rt, "%")),
    };
    match specialized(alloc, &context, whole) {
        Ok(plain) => print_sddl(alloc, &plain),
        Err(SpecializeError::Fault(fault)) => fault_text(alloc, fault),
        Err(SpecializeError::Memory) => Err(AllocError),
    }
}

#[test]
fn refuses_entries_without_a_layout(rt: HostRuntime) -> Result<(), Fail> {
    let alloc = rt.alloc();
    let refused = outcome(&rt, alloc, &opaque(&rt, alloc, AceFlags::empty())?)?;
    assert!(rt; refused.as_str() == "1 4 OpaqueAce", "{refused}");
    let inherit_only = opaque(&rt, alloc, AceFlags::IO.union(AceFlags::CI))?;
    let kept = outcome(&rt, alloc, &inherit_only)?;
    assert!(rt; kept.as_str() == "D:(A;CIIO;0x0;;;S-1-0-0)", "{kept}");
    Ok(())
}

/// A DACL of so many entries for PRINCIPAL SELF, of 20 bytes each: with the user's SID each takes 36.
fn for_self(alloc: Global, count: usize) -> Result<String, AllocError> {
    let mut text = String::new(alloc);
    text.push_str("D:")?;
    for _ in 0..count {
        text.push_str("(A;;FR;;;PS)")?;
    }
    Ok(text)
}

#[test]
fn refuses_a_list_that_grows_too_large(rt: HostRuntime) -> Result<(), Fail> {
    let alloc = rt.alloc();
    let most = for_self(alloc, 1820)?;
    let found = outcome(&rt, alloc, &whole_of(&rt, alloc, most.as_str())?)?;
    assert!(rt; found.starts_with("D:(A;;FR;;;S-1-5-21-1-2-3-1001)"));
    let more = for_self(alloc, 1821)?;
    let found = outcome(&rt, alloc, &whole_of(&rt, alloc, more.as_str())?)?;
    assert!(rt; found.as_str() == "6 TooLarge", "{found}");
    Ok(())
}

#[test]
fn takes_what_a_label_takes(rt: HostRuntime) -> Result<(), Fail> {
    let alloc = rt.alloc();
    for row in LABELS.split('\n') {
        if !row.contains(" | ") {
            continue;
        }
        let (whole, rest) = column(&rt, row);
        let (level, mask) = column(&rt, rest);
        let whole = whole_of(&rt, alloc, whole)?;
        let level = level.parse::<u32>().expect(&rt, "a level");
        let taken = Label::of_object(&whole.sacl).taken(level, &GenericMapping::file());
        let wanted = read_mask(mask).expect(&rt, "a mask");
        assert!(rt; taken == wanted, "{row}: {:#x}", taken.bits());
    }
    Ok(())
}

#[test]
fn answers_under_a_label(rt: HostRuntime) -> Result<(), Fail> {
    let alloc = rt.alloc();
    let mapping = GenericMapping::file();
    let token = token_of(&rt, alloc, "BU")?;
    for row in UNDER.split('\n') {
        if !row.contains(" | ") {
            continue;
        }
        let (whole, rest) = column(&rt, row);
        let (level, rest) = column(&rt, rest);
        let (mask, rest) = column(&rt, rest);
        let (verdict, by_label) = column(&rt, rest);
        let whole = whole_of(&rt, alloc, whole)?;
        let level = level.parse::<u32>().expect(&rt, "a level");
        let taken = Label::of_object(&whole.sacl).taken(level, &mapping);
        let plain = plain_of(&rt, alloc, &token, &whole);
        let mask = read_mask(mask).expect(&rt, "a mask");
        let unlabelled = check(&plain, &mapping, &token, mask);
        let answer = verdict_text(alloc, verdict_under(taken, &mapping, mask, unlabelled))?;
        assert!(rt; answer.as_str() == verdict, "{row}: {answer}");
        let reasons = explain_under(taken, &plain, &mapping, &token, mask);
        let told = verdict_text(alloc, reasons.verdict())?;
        assert!(rt; told.as_str() == verdict, "{row}: {told}");
        let labelled = reasons.bits(Share::Because(Cause::Label));
        let wanted = read_mask(by_label).expect(&rt, "a mask");
        assert!(rt; labelled == wanted, "{row}: {:#x}", labelled.bits());
    }
    Ok(())
}

/// The plain descriptor, where the question is about the whole object and names nobody.
fn plain_of(rt: &impl Abort, alloc: Global, token: &Token, whole: &WholeDescriptor) -> Descriptor {
    let facts = facts(token, &[]);
    let context = Context {
        conditions: Conditions::Evaluated(&facts),
        chain: &[],
        principal_self: None,
    };
    specialized(alloc, &context, whole).expect(rt, "a plain descriptor")
}
