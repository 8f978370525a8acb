//! Who is granted a right by a descriptor.

ghost use Rattle.std.specs.Prelude.{◌≡◌, ℕ, ◌<◌, cond, List, count_by, IfOk};
ghost use Rattle.std.specs.List.{list_any};
ghost use Rattle.sd_sid.specs.Mask.{holds};
ghost use Rattle.sd_sid.specs.Sid.{SidValue};
ghost use Rattle.sd_check.specs.Check.{entries_of};
ghost use Rattle.sd_check.specs.declared.token.GroupState.{GroupState};
ghost use Rattle.sd_check.specs.Token.{TokenValue};
ghost use Rattle.sd_analysis.specs.Who.{AllBeyond, HasEachOnce, IsMost, IsWho, has_right};

use crate::base::Base;
use crate::who_case::Case;
use sd_acl::Ace;
use sd_check::DaclRef;
use sd_sid::{GenericMapping, Mask, OBJECT_RIGHTS, Sid};
use std::alloc::{AllocError, Global};

/// Whom an alternative is for.
#[derive(Clone, Copy, Debug, PartialEq, Eq)]
pub enum Holder {
    /// Every token with the base.
    Everyone,
    /// A token that has the SID as its user or an enabled group.
    Sid(Sid),
    /// A token that has this SID, the descriptor's owner, as its user or an enabled group. It needs no entry.
    Owner(Sid),
}

/// A way to be granted a right: by a holder, in a token that has none of the denied SIDs that came before.
#[derive(Clone, Copy, Debug, PartialEq, Eq)]
pub struct Alternative {
    pub holder: Holder,
    /// How many of the denied SIDs of its `Access`, from the first on, must not be in the token, neither enabled nor
    /// for denies alone.
    pub unless: usize,
}

/// Rights that the same entries decide, and who is granted them: nobody where there is no alternative.
#[derive(Debug, Drop)]
pub struct Access {
    /// The rights.
    pub mask: Mask,
    /// The SIDs of the deny entries, in their order.
    pub denied: Vec<Sid>,
    pub alternatives: Vec<Alternative>,
}

/// Who is granted which of the rights, for those below place 21, by a descriptor with this owner and DACL: for each
/// right the alternatives, in the order of the entries. A check grants the right to a token with the base, which
/// nothing restricts and without privileges, if and only if one of them holds for it; to a restricted one only if. Each
/// right is in the mask of one `Access` ([MS-DTYP] 2.5.3.2). Fails only where an allocation fails.
pub fn who(
    alloc: Global,
    owner: Option<Sid>,
    dacl: DaclRef<'_>,
    mapping: &GenericMapping,
    base: &Base<'_>,
    rights: Mask,
) -> Result<Vec<Access>, AllocError>
    ensures exact { IfOk result (λ all. IsWho owner (entries_of dacl.entry) mapping.now base.now rights all.items) }
    ensures most { IfOk result (λ all. IsMost owner (entries_of dacl.entry) mapping.now base.now rights all.items) }
    ensures each { IfOk result (λ all. HasEachOnce rights all.items) }
    ensures beyond { IfOk result (λ all. AllBeyond base.now all.items) }
{
    let rights = rights.common(OBJECT_RIGHTS);
    let DaclRef::List(entries) = dacl else {
        return everyone(alloc, rights);
    };
    let case = Case {
        owner: &owner,
        entries,
        mapping,
        base,
    };
    case.accesses(alloc, rights)
}

/// That everybody is granted these rights.
fn everyone(alloc: Global, rights: Mask) -> Result<Vec<Access>, AllocError>
    ensures each { IfOk result (λ all. (b : ℕ) → b < 32
        → count_by (λ one. holds one.mask b) all.items ≡ cond (holds rights b) 1 0) }
    ensures everyone { IfOk result (λ all. (t : TokenValue) (b : ℕ) → b < 32
        → list_any (has_right t b) all.items ≡ holds rights b) }
    ensures beyond { IfOk result (λ all. (base : List (SidValue × GroupState)) → AllBeyond base all.items) }
{
    let mut alternatives = Vec::new(alloc);
    alternatives.push(Alternative {
        holder: Holder::Everyone,
        unless: 0,
    })?;
    let mut accesses = Vec::new(alloc);
    accesses.push(Access {
        mask: rights,
        denied: Vec::new(alloc),
        alternatives,
    })?;
    Ok(accesses)
}
