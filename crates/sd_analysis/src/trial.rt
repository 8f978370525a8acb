//! Tokens by which an entry's effect shows at once. Most entries of a long list have one that shows so, and it costs
//! two checks in place of a comparison.

ghost use Rattle.std.specs.Prelude.{◌≡◌, ◌<◌, true, IfOk, None, Some, length, remove};
ghost use Rattle.sd_check.specs.Check.{verdict};
ghost use Rattle.sd_analysis.specs.Effect.{Differ, granted_by};
ghost use Rattle.sd_analysis.specs.Sufficient.{token_of, with_denied};

use crate::base::Base;
use crate::who_case::Case;
use sd_acl::{Ace, AceKind};
use sd_check::{
    DaclRef, GroupState, MAXIMUM_ALLOWED, Privileges, Token, Verdict, check_joined, check_parts,
    subject_of,
};
use sd_sid::{Mask, Sid};
use std::alloc::{AllocError, Global};

/// Whether a token shows the effect of the entry at the place: of an allow the token whose user it speaks of; of a deny
/// the token for which it denies what the next allow that names one of its bits grants. An effect that only other
/// tokens show is not found.
pub(crate) fn shows_effect(alloc: Global, case: &Case<'_>, place: usize) -> Result<bool, AllocError>
    requires { place < length case.now.entries.now }
    ensures { let case = case.now in IfOk result (λ shows. shows ≡ true
        → Differ case.owner.now case.mapping.now case.base.now case.entries.now
        (remove case.entries.now place)) }
{
    let entry = &case.entries[place];
    let subject = match subject_of(case.owner, &entry.sid) {
        None => return Ok(false),
        Some(subject) => *subject,
    };
    if entry.kind.is_allow() {
        return is_shown(alloc, case, place, subject, &None);
    }
    match next_allowed(case, &case.entries[place + 1..], entry.mask) {
        None => Ok(false),
        Some(user) => is_shown(alloc, case, place, user, &Some(subject)),
    }
}

/// Whom the first effective allow that names one of the bits speaks of. No answer would be wrong: `is_shown` tests it.
fn next_allowed(case: &Case<'_>, entries: &[Ace], mask: Mask) -> Option<Sid> {
    let bits = case.mapping.map(mask);
    let next = entries.iter().find(|entry| {
        entry.kind.is_allow()
            && !entry.is_inherit_only()
            && !case.mapping.map(entry.mask).common(bits).is_empty()
    })?;
    subject_of(case.owner, &next.sid).copied()
}

/// Whether the token with the base shows the effect whose user is this, with one more group for denies alone.
fn is_shown(
    alloc: Global,
    case: &Case<'_>,
    place: usize,
    user: Sid,
    denied: &Option<Sid>,
) -> Result<bool, AllocError>
    requires { place < length case.now.entries.now }
    ensures { let case = case.now in IfOk result (λ shows. shows ≡ true
        → Differ case.owner.now case.mapping.now case.base.now case.entries.now
        (remove case.entries.now place)) }
{
    let groups = groups_with(alloc, case.base, denied)?;
    let token = Token::new(user, groups, Privileges::default());
    Ok(differs(case, place, &token))
}

/// The base, and one more group for denies alone.
fn groups_with(
    alloc: Global,
    base: &Base<'_>,
    denied: &Option<Sid>,
) -> Result<Vec<(Sid, GroupState)>, AllocError>
    ensures { IfOk result (λ groups. groups.items ≡ with_denied base.now denied.now) }
{
    match denied {
        None => Vec::from_slice(alloc, base.groups),
        Some(sid) => {
            let mut groups = Vec::new(alloc);
            groups.push((*sid, GroupState::DenyOnly))?;
            groups.extend_from_slice(base.groups)?;
            Ok(groups)
        }
    }
}

/// Whether the list grants the token something else without the entry.
fn differs(case: &Case<'_>, place: usize, token: &Token) -> bool
    requires { place < length case.now.entries.now }
    ensures { let case = case.now in result ≡ true
        → verdict case.owner.now (Some (remove case.entries.now place)) case.mapping.now token.now 0x02000000
        ≡ verdict case.owner.now (Some case.entries.now) case.mapping.now token.now 0x02000000
        → ⊥ }
{
    let whole = check_parts(
        *case.owner,
        DaclRef::List(case.entries),
        case.mapping,
        token,
        MAXIMUM_ALLOWED,
    );
    let front = &case.entries[..place];
    let back = &case.entries[place + 1..];
    let others = check_joined(
        *case.owner,
        front,
        back,
        case.mapping,
        token,
        MAXIMUM_ALLOWED,
    );
    let before = granted_by(whole).bits();
    let after = granted_by(others).bits();
    before != after
}

/// The bits that the verdict grants.
pub(crate) fn granted_by(verdict: Verdict) -> Mask
    ensures { result ≡ granted_by verdict }
{
    match verdict {
        Verdict::Granted(mask) => mask,
        Verdict::Denied { missing: _ } => Mask(0),
        Verdict::Reserved(_) => Mask(0),
        Verdict::EmptyRequest => Mask(0),
    }
}
