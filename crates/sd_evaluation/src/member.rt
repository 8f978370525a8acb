//! Member_of and its family.

ghost use Rattle.std.specs.Prelude.{◌≡◌, ◌&&◌};
ghost use Rattle.std.specs.List.{list_all, list_any};
ghost use Rattle.sd_check.specs.Token.{a_group_stands_for, counts};
ghost use Rattle.sd_sid.specs.Sid.{same_sid};
ghost use Rattle.sd_evaluation.specs.Member.{has, has_all, has_any, is_of, literals_of, membership};

use crate::facts::Facts;
use crate::truth::Truth;
use sd_acl::AceKind;
use sd_check::{GroupState, Pass, Trustee};
use sd_condition::{Operator, Token, Value};
use sd_sid::Sid;
use std::slice;

/// Whose SIDs are asked for.
#[derive(Clone, Copy, Debug, PartialEq, Eq)]
pub(crate) enum Subject {
    /// Who asks, in a pass.
    User(Pass),
    Device,
}

/// Whether a group in this state counts for an entry of the kind.
fn counts(kind: AceKind, state: GroupState) -> bool
    ensures { result ≡ counts kind state }
{
    match state {
        GroupState::Enabled => true,
        GroupState::DenyOnly => kind == AceKind::Deny,
        GroupState::Disabled => false,
    }
}

/// Whether a group counts that has the SID.
fn has_group(groups: &[(Sid, GroupState)], kind: AceKind, sid: &Sid) -> bool
    ensures { result ≡ a_group_stands_for groups.now kind sid.now }
{
    groups
        .iter()
        .any(|group| group.0.is(sid) && counts(kind, group.1))
}

/// Whether the subject has the SID.
fn has(facts: &Facts<'_>, kind: AceKind, subject: Subject, sid: &Sid) -> bool
    ensures { result ≡ has facts.now kind subject sid.now }
{
    match subject {
        Subject::User(Pass::First) => sid.is_of(kind, facts.token),
        Subject::User(Pass::Second) => sid.restricts(facts.token),
        Subject::Device => has_group(facts.device_groups, kind, sid),
    }
}

/// Whether the value is a SID that the subject has.
fn is_of(facts: &Facts<'_>, kind: AceKind, subject: Subject, value: &Value) -> bool
    ensures { result ≡ is_of facts.now kind subject value.now }
{
    match value {
        Value::Sid(sid) => has(facts, kind, subject, sid),
        _ => false,
    }
}

/// Whether the subject has all of the SIDs.
fn has_all(facts: &Facts<'_>, kind: AceKind, subject: Subject, values: &[Value]) -> Truth
    ensures { result ≡ has_all facts.now kind subject values.now }
{
    if values.is_empty() {
        return Truth::Unknown;
    }
    Truth::of(are_all_of(facts, kind, subject, values))
}

fn are_all_of(facts: &Facts<'_>, kind: AceKind, subject: Subject, values: &[Value]) -> bool
    ensures { result ≡ list_all (is_of facts.now kind subject) values.now }
{
    values
        .iter()
        .all(|value| is_of(facts, kind, subject, value))
}

/// Whether the subject has one of the SIDs.
fn has_any(facts: &Facts<'_>, kind: AceKind, subject: Subject, values: &[Value]) -> Truth
    ensures { result ≡ has_any facts.now kind subject values.now }
{
    if values.is_empty() {
        return Truth::Unknown;
    }
    Truth::of(is_any_of(facts, kind, subject, values))
}

fn is_any_of(facts: &Facts<'_>, kind: AceKind, subject: Subject, values: &[Value]) -> bool
    ensures { result ≡ list_any (is_of facts.now kind subject) values.now }
{
    values
        .iter()
        .any(|value| is_of(facts, kind, subject, value))
}

/// The values of a literal.
pub(crate) fn literals_of(token: &Token) -> &[Value]
    ensures { result.now ≡ literals_of token.now }
{
    match token {
        Token::Value(value) => slice::from_ref(value),
        Token::List(list) => list.values(),
        Token::Attribute(_) | Token::Operator(_) => &[],
    }
}

/// What an operator leaves of SIDs ([MS-DTYP] 2.4.4.17.6).
pub(crate) fn membership(
    facts: &Facts<'_>,
    kind: AceKind,
    pass: Pass,
    operator: Operator,
    values: &[Value],
) -> Truth
    ensures { result ≡ membership facts.now kind pass operator values.now }
{
    let user = Subject::User(pass);
    let device = Subject::Device;
    match operator {
        Operator::MemberOf => has_all(facts, kind, user, values),
        Operator::MemberOfAny => has_any(facts, kind, user, values),
        Operator::NotMemberOf => has_all(facts, kind, user, values).not(),
        Operator::NotMemberOfAny => has_any(facts, kind, user, values).not(),
        Operator::DeviceMemberOf => has_all(facts, kind, device, values),
        Operator::DeviceMemberOfAny => has_any(facts, kind, device, values),
        Operator::NotDeviceMemberOf => has_all(facts, kind, device, values).not(),
        Operator::NotDeviceMemberOfAny => has_any(facts, kind, device, values).not(),
        _ => Truth::Unknown,
    }
}
