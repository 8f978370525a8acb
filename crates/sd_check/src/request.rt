//! The answer to a request.

ghost use Rattle.std.specs.Prelude.{◌≡◌, ◌++◌, Some};
ghost use Rattle.sd_check.specs.Check.{dacl_entries, entries_of, verdict};

use crate::question::Question;
use crate::token::Token;
use crate::verdict::Verdict;
use sd_acl::{Ace, Dacl, DaclOf, Descriptor};
use sd_sid::{GenericMapping, Mask, Sid};

/// A DACL that is borrowed for a check ([MS-DTYP] 2.4.6).
pub type DaclRef<'a> = DaclOf<&'a [Ace]>;

/// The verdict on a request, for a descriptor ([MS-DTYP] 2.5.3.2). Takes no memory.
#[tactic(auto, using(crate::proofs::Owned::owned_list))]
pub fn check(
    descriptor: &Descriptor,
    mapping: &GenericMapping,
    token: &Token,
    asked: Mask,
) -> Verdict
    ensures { result ≡ verdict descriptor.now.owner (dacl_entries descriptor.now.dacl) mapping.now token.now asked }
{
    let question = Question {
        owner: &descriptor.owner,
        mapping,
        token,
        asked,
    };
    match &descriptor.dacl {
        Dacl::Absent => question.verdict_without_a_list(),
        Dacl::Null => question.verdict_without_a_list(),
        Dacl::List(list) => question.judge(list.entries(), &[]),
    }
}

/// The verdict on a request, for an owner and a DACL ([MS-DTYP] 2.5.3.2). Takes no memory.
#[tactic(auto, using(crate::proofs::Owned::owned_list))]
pub fn check_parts(
    owner: Option<Sid>,
    dacl: DaclRef<'_>,
    mapping: &GenericMapping,
    token: &Token,
    asked: Mask,
) -> Verdict
    ensures { result ≡ verdict owner (entries_of dacl.entry) mapping.now token.now asked }
{
    let question = Question {
        owner: &owner,
        mapping,
        token,
        asked,
    };
    match dacl {
        DaclRef::Absent => question.verdict_without_a_list(),
        DaclRef::Null => question.verdict_without_a_list(),
        DaclRef::List(entries) => question.judge(entries, &[]),
    }
}

/// The verdict on a request, for an owner and a DACL in two parts, as a node's own entries and those that it inherits:
/// `front` before `back`, neither copied ([MS-DTYP] 2.5.3.2). Takes no memory.
#[tactic(auto, using(crate::proofs::Owned::owned_lists))]
pub fn check_joined(
    owner: Option<Sid>,
    front: &[Ace],
    back: &[Ace],
    mapping: &GenericMapping,
    token: &Token,
    asked: Mask,
) -> Verdict
    ensures { result ≡ verdict owner (Some (front.now ++ back.now)) mapping.now token.now asked }
{
    let question = Question {
        owner: &owner,
        mapping,
        token,
        asked,
    };
    question.judge(front, back)
}
