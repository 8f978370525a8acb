//! Accounts of small files.

use super::*;
use sd_sid::Sid;
use sd_text::read_sid_text;
use std::alloc::{AllocError, Global};
use std::process::Abort;
use std::test::Fail;

/// Anna is in the staff, by that in the house, and her primary group is the domain's users. Two are called lab.
const FILE: &str = "# a school
user S-1-5-21-1-2-3-1001 SCHOOL\\anna
user S-1-5-21-1-2-3-1002 SCHOOL\\lab\r
group S-1-5-21-1-2-3-513 Domain Users
group S-1-5-21-1-2-3-2001 lab

primary S-1-5-21-1-2-3-1001 S-1-5-21-1-2-3-513
member S-1-5-21-1-2-3-2001 S-1-5-21-1-2-3-1001
member BU S-1-5-21-1-2-3-2001
member S-1-5-21-1-2-3-2001 BU
disabled S-1-5-21-1-2-3-1002
";

fn sid(rt: &impl Abort, text: &str) -> Sid {
    read_sid_text(text).ok().expect(rt, "a SID")
}

fn accounts(rt: &impl Abort, alloc: Global, text: &str) -> Accounts {
    Accounts::read(alloc, text).ok().expect(rt, "accounts")
}

#[test]
fn groups_are_followed_through_a_cycle(rt: HostRuntime) -> Result<(), Fail> {
    let accounts = accounts(&rt, rt.alloc(), FILE);
    let anna = accounts.sid_named("ANNA").ok().expect(&rt, "anna");
    let groups = accounts.groups_of(rt.alloc(), &[anna])?;
    assert_eq!(rt; groups.len(), 3);
    assert_eq!(rt; groups[0], sid(&rt, "S-1-5-21-1-2-3-513"));
    assert_eq!(rt; groups[1], sid(&rt, "S-1-5-21-1-2-3-2001"));
    assert_eq!(rt; groups[2], sid(&rt, "BU"));
    let builtin = accounts.groups_of(rt.alloc(), &[sid(&rt, "BU")])?;
    assert_eq!(rt; builtin.len(), 2);
    Ok(())
}

#[test]
fn a_bare_name_of_two_is_ambiguous(rt: HostRuntime) {
    let accounts = accounts(&rt, rt.alloc(), FILE);
    assert_eq!(rt; accounts.sid_named("lab"), Err(NameError::Ambiguous));
    assert_eq!(rt; accounts.sid_named("nobody"), Err(NameError::Unknown));
    let user = sid(&rt, "S-1-5-21-1-2-3-1002");
    assert_eq!(rt; accounts.sid_named("school\\LAB"), Ok(user));
    assert_eq!(rt; accounts.name_of(&user), Some("SCHOOL\\lab"));
    assert!(rt; accounts.is_user(&user) && accounts.is_disabled(&user));
}

#[test]
fn the_first_fault_is_reported(rt: HostRuntime) {
    for (text, line, kind) in [
        ("usr S-1-1-0 a", 1, AccountsFault::Keyword),
        ("\n#\nuser S-1-1 a", 3, AccountsFault::Sid),
        ("user S-1-1-0 ", 1, AccountsFault::Name),
        ("member BU BA\nmember BU BA BG", 2, AccountsFault::Surplus),
        ("#\nincomplete 3 unknown", 2, AccountsFault::Incomplete),
    ] {
        let error = Accounts::read(rt.alloc(), text)
            .err()
            .expect(&rt, "a fault");
        assert_eq!(rt; error, AccountsError::Fault { line, kind });
    }
}

/// Anna and Ben have two names each; Cora and Dora are disabled, Dora by a row before her own.
const PEOPLE: &str = "user S-1-5-21-1-2-3-1001 SCHOOL\\anna
user S-1-5-21-1-2-3-1001 anna@school.test
group S-1-5-21-1-2-3-513 Domain Users
user S-1-5-21-1-2-3-1003 SCHOOL\\cora
user S-1-5-21-1-2-3-1002 SCHOOL\\ben
disabled S-1-5-21-1-2-3-1003
member S-1-5-21-1-2-3-513 S-1-5-21-1-2-3-1002
user S-1-5-21-1-2-3-1002 ben@school.test
disabled S-1-5-21-1-2-3-1004
user S-1-5-21-1-2-3-1004 SCHOOL\\dora
user S-1-5-21-1-2-3-1005 SCHOOL\\emil
";

#[test]
fn users_that_may_log_on_are_listed_once(rt: HostRuntime) -> Result<(), Fail> {
    let accounts = accounts(&rt, rt.alloc(), PEOPLE);
    let users = accounts.users(rt.alloc())?;
    assert_eq!(rt; users.len(), 3);
    for (place, account, name) in [
        (0, "S-1-5-21-1-2-3-1001", "SCHOOL\\anna"),
        (1, "S-1-5-21-1-2-3-1002", "SCHOOL\\ben"),
        (2, "S-1-5-21-1-2-3-1005", "SCHOOL\\emil"),
    ] {
        assert_eq!(rt; users[place].0, sid(&rt, account));
        assert_eq!(rt; users[place].1, name);
    }
    Ok(())
}

/// Anna is in the guests, these are in the power users, and these in the backup operators, which are in the guests. The
/// account operators and the replicators have themselves as members.
const WAYS: &str = "member BG S-1-5-21-1-2-3-1001
primary S-1-5-21-1-2-3-1001 S-1-5-21-1-2-3-513
member PU BG
member BO PU
member BG BO
member BA BO
member BA PU
member AO AO
member AO S-1-5-21-1-2-3-1001
member RE RE
";

fn sids(rt: &impl Abort, alloc: Global, texts: &str) -> Result<Vec<Sid>, AllocError> {
    let mut sids = Vec::new(alloc);
    for text in texts.split(' ') {
        sids.push(sid(rt, text))?;
    }
    Ok(sids)
}

#[test]
fn a_way_to_a_group_is_a_shortest_one(rt: HostRuntime) -> Result<(), Fail> {
    let accounts = accounts(&rt, rt.alloc(), WAYS);
    for (starts, group, way) in [
        ("S-1-5-21-1-2-3-1001", "BG", "BG"),
        (
            "S-1-5-21-1-2-3-1001",
            "S-1-5-21-1-2-3-513",
            "S-1-5-21-1-2-3-513",
        ),
        ("S-1-5-21-1-2-3-1001", "BO", "BG PU BO"),
        ("S-1-5-21-1-2-3-1001", "BA", "BG PU BA"),
        ("S-1-5-21-1-2-3-1001", "AO", "AO"),
        ("S-1-5-21-1-2-3-1001 BO", "BA", "BA"),
        ("BG", "BG", "PU BO BG"),
        ("RE", "RE", "RE"),
    ] {
        let starts = sids(&rt, rt.alloc(), starts)?;
        let member = accounts.membership(rt.alloc(), &starts)?;
        let found = member.way_to(rt.alloc(), &sid(&rt, group))?;
        let found = found.expect(&rt, "a way");
        assert_eq!(rt; found, sids(&rt, rt.alloc(), way)?);
    }
    Ok(())
}

#[test]
fn no_way_leads_to_a_group_of_others(rt: HostRuntime) -> Result<(), Fail> {
    let accounts = accounts(&rt, rt.alloc(), WAYS);
    for (starts, group) in [
        ("S-1-5-21-1-2-3-1001", "RE"),
        ("S-1-5-21-1-2-3-1001", "S-1-5-21-1-2-3-1001"),
        ("S-1-5-21-1-2-3-1002", "BG"),
        ("BA", "PU"),
        ("RE AO", "BG"),
    ] {
        let starts = sids(&rt, rt.alloc(), starts)?;
        let member = accounts.membership(rt.alloc(), &starts)?;
        let found = member.way_to(rt.alloc(), &sid(&rt, group))?;
        assert!(rt; found.is_none(), "{group}");
    }
    let nobody = accounts.membership(rt.alloc(), &[])?;
    let found = nobody.way_to(rt.alloc(), &sid(&rt, "BG"))?;
    assert!(rt; found.is_none());
    Ok(())
}
