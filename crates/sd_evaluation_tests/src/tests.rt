//! Conditions and claims from text, and what the conditions are.

use crate::rows::{DEVICE, LOCAL, RESOURCE, ROWS, USER};
use sd_acl::AceKind;
use sd_check::{GroupState, Pass, Privileges, Token};
use sd_claim::{Claim, Value, ValueType};
use sd_claim_text::{ClaimError, parse_claim};
use sd_condition::Condition;
use sd_condition_parse::{ConditionError, parse_condition};
use sd_data::{Octets, Utf16};
use sd_evaluation::{Facts, Truth, applies, evaluate};
use sd_sid::Sid;
use sd_text::{Aliases, Cursor};
use std::alloc::{AllocError, Global};
use std::test::Fail;

/// The kind of an entry, and the pass.
#[derive(Clone, Copy, Debug, PartialEq, Eq)]
pub enum Asked {
    Allow,
    Deny,
    /// An allow entry in the second pass.
    Again,
}

impl Asked {
    fn kind(self) -> AceKind {
        match self {
            Asked::Allow | Asked::Again => AceKind::Allow,
            Asked::Deny => AceKind::Deny,
        }
    }

    fn pass(self) -> Pass {
        match self {
            Asked::Allow | Asked::Deny => Pass::First,
            Asked::Again => Pass::Second,
        }
    }
}

/// The claims of these texts, as far as they are claims.
fn parse_claims(alloc: Global, texts: &[&str]) -> Result<Vec<Claim>, AllocError> {
    let mut claims = Vec::new(alloc);
    for text in texts {
        let mut cursor = Cursor::new(text);
        match parse_claim(alloc, &mut cursor, Aliases::in_domain(None)) {
            Ok(claim) => claims.push(claim)?,
            Err(ClaimError::Memory) => return Err(AllocError),
            Err(ClaimError::Fault(_)) => {}
        }
    }
    Ok(claims)
}

/// The condition of a text, if it is one.
fn condition_of(alloc: Global, text: &str) -> Result<Option<Condition>, AllocError> {
    let mut cursor = Cursor::new(text);
    match parse_condition(alloc, &mut cursor, Aliases::in_domain(None)) {
        Ok(condition) => Ok(Some(condition)),
        Err(ConditionError::Memory) => Err(AllocError),
        Err(ConditionError::Fault(_)) => Ok(None),
    }
}

/// A group by the last number of its SID below S-1-5-32.
fn group(relative: u32, state: GroupState) -> Option<(Sid, GroupState)> {
    let sid = Sid::new(5, &[32, relative]).ok()?;
    Some((sid, state))
}

/// The token: a user, Administrators, Users for deny entries alone, and Power Users disabled; restricted to
/// Authenticated Users.
fn token(alloc: Global) -> Result<Option<Token>, AllocError> {
    let (Ok(user), Ok(restricting)) = (Sid::new(5, &[21, 1, 2, 3, 1000]), Sid::new(5, &[11])) else {
        return Ok(None);
    };
    let mut groups = Vec::new(alloc);
    let mut all = true;
    for (relative, state) in [
        (544, GroupState::Enabled),
        (545, GroupState::DenyOnly),
        (547, GroupState::Disabled),
    ] {
        match group(relative, state) {
            Some(one) => groups.push(one)?,
            None => all = false,
        }
    }
    let mut sids = Vec::new(alloc);
    sids.push(restricting)?;
    let token = Token::restricted(user, groups, sids, Privileges::default());
    Ok(if all { Some(token) } else { None })
}

/// The groups of the device: Backup Operators, and Print Operators for deny entries alone.
fn device_groups(alloc: Global) -> Result<Vec<(Sid, GroupState)>, AllocError> {
    let mut groups = Vec::new(alloc);
    for (relative, state) in [(551, GroupState::Enabled), (550, GroupState::DenyOnly)] {
        if let Some(one) = group(relative, state) {
            groups.push(one)?;
        }
    }
    Ok(groups)
}

/// The claims of each scope.
#[derive(Drop)]
struct Claims {
    local: Vec<Claim>,
    user: Vec<Claim>,
    device: Vec<Claim>,
    resource: Vec<Claim>,
}

fn all_claims(alloc: Global) -> Result<Claims, AllocError> {
    Ok(Claims {
        local: parse_claims(alloc, &LOCAL)?,
        user: parse_claims(alloc, &USER)?,
        device: parse_claims(alloc, &DEVICE)?,
        resource: parse_claims(alloc, &RESOURCE)?,
    })
}

/// What the condition of the text is, if it is one.
fn truth_of(
    alloc: Global,
    facts: &Facts<'_>,
    text: &str,
    asked: Asked,
) -> Result<Option<Truth>, AllocError> {
    match condition_of(alloc, text)? {
        Some(condition) => {
            let truth = evaluate(alloc, facts, asked.kind(), asked.pass(), &condition)?;
            Ok(Some(truth))
        }
        None => Ok(None),
    }
}

/// The text of the first row whose condition isn't what the row says.
fn first_failed(
    alloc: Global,
    facts: &Facts<'_>,
    rows: &[(&'static str, Asked, Truth)],
) -> Result<Option<&'static str>, AllocError> {
    for (text, asked, wanted) in rows {
        if truth_of(alloc, facts, text, *asked)? != Some(*wanted) {
            return Ok(Some(text));
        }
    }
    Ok(None)
}

#[test]
fn evaluates_conditions(rt: HostRuntime) -> Result<(), Fail> {
    let alloc = rt.alloc();
    let token = token(alloc)?.expect(&rt, "the SIDs are SIDs");
    let device_groups = device_groups(alloc)?;
    let claims = all_claims(alloc)?;
    assert!(rt; claims.user.len() == USER.len() && claims.resource.len() == RESOURCE.len());
    let facts = Facts {
        token: &token,
        device_groups: &device_groups,
        local: &claims.local,
        user: &claims.user,
        device: &claims.device,
        resource: &claims.resource,
    };
    let failed = first_failed(alloc, &facts, &ROWS)?;
    assert!(rt; failed.is_none(), "{failed:?}");
    Ok(())
}

/// A claim `g` of a SID in these octets.
fn sid_claim(alloc: Global, octets: &[u8]) -> Result<Vec<Claim>, AllocError> {
    let name = Vec::from_slice(alloc, &[0x67])?;
    let mut values = Vec::new(alloc);
    values.push(Value::Sid(Octets::new(Vec::from_slice(alloc, octets)?)))?;
    let mut claims = Vec::new(alloc);
    if let Some(claim) = Claim::new(Utf16::new(name), 0, ValueType::Sid, values) {
        claims.push(claim)?;
    }
    Ok(claims)
}

/// What the condition of the text is for the token, and a user with these claims.
fn truth_with(alloc: Global, user: &[Claim], text: &str) -> Result<Option<Truth>, AllocError> {
    let Some(token) = token(alloc)? else {
        return Ok(None);
    };
    let facts = Facts {
        token: &token,
        device_groups: &[],
        local: &[],
        user,
        device: &[],
        resource: &[],
    };
    truth_of(alloc, &facts, text, Asked::Allow)
}

/// Whether a claim of a SID in these octets is Administrators.
fn is_administrators(alloc: Global, octets: &[u8]) -> Result<Option<Truth>, AllocError> {
    let user = sid_claim(alloc, octets)?;
    truth_with(alloc, &user, "(@USER.g == SID(BA))")
}

#[test]
fn reads_sids_of_claims(rt: HostRuntime) -> Result<(), Fail> {
    let alloc = rt.alloc();
    let bytes = b"\x01\x02\0\0\0\0\0\x05\x20\0\0\0\x20\x02\0\0";
    assert!(rt; is_administrators(alloc, b"S-1-5-32-544")? == Some(Truth::True));
    assert!(rt; is_administrators(alloc, b"S-1-5-32-544\0")? == Some(Truth::True));
    assert!(rt; is_administrators(alloc, bytes)? == Some(Truth::True));
    assert!(rt; is_administrators(alloc, b"S-1-5-32-545")? == Some(Truth::False));
    assert!(rt; is_administrators(alloc, b"BA")? == Some(Truth::Unknown));
    assert!(rt; is_administrators(alloc, b"")? == Some(Truth::Unknown));
    Ok(())
}

/// A condition with so many `!` before it.
fn deep_text(alloc: Global, depth: usize) -> Result<String, AllocError> {
    let mut text = String::from_str(alloc, "(")?;
    for _ in 0..depth {
        text.push_str("!(")?;
    }
    text.push_str("Member_of SID(BA)")?;
    for _ in 0..depth {
        text.push(')')?;
    }
    text.push(')')?;
    Ok(text)
}

#[test]
fn evaluates_deep_conditions(rt: HostRuntime) -> Result<(), Fail> {
    let alloc = rt.alloc();
    let even = deep_text(alloc, 50_000)?;
    let odd = deep_text(alloc, 50_001)?;
    assert!(rt; truth_with(alloc, &[], even.as_str())? == Some(Truth::True));
    assert!(rt; truth_with(alloc, &[], odd.as_str())? == Some(Truth::False));
    Ok(())
}

#[test]
fn entries_apply(rt: HostRuntime) {
    for (truth, allow, deny) in [
        (Truth::True, true, true),
        (Truth::False, false, false),
        (Truth::Unknown, false, true),
    ] {
        assert!(rt; applies(truth, AceKind::Allow) == allow);
        assert!(rt; applies(truth, AceKind::Deny) == deny);
    }
}
