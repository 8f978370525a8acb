//! Why a check answers as it does, for C: the parts of a request by value, and as numbers.

ghost use Rattle.std.specs.Prelude.{◌≡◌, Ok, Err, IfErr, IfOk};
ghost use Rattle.sd_c.specs.Explaining.{explained, parts_of, part_told, cause_number, findings_of, finding_told};
ghost use Rattle.sd_c.specs.Explaining.{reasons_on, unexplained};
ghost use Rattle.sd_c.specs.Kept.{Stays, asked_of, kept_request};
ghost use Rattle.sd_c.specs.Request.{RequestValue, verdict_of};
ghost use Rattle.sd_explain.specs.Parts.{reason_in, told_verdict};

use crate::call_answer::{CheckAnswer, not_read, verdict_given};
use crate::handle::{Handle, Kept};
use crate::mapping::Mapping;
use crate::request::mapping_of;
use crate::stop::NotRead;
use sd_explain::{Cause, Explanation, Finding, PLACES, Part, explain_descriptor};
use sd_sid::Mask;
use std::alloc::Global;

/// What a pass over the list found for the bits of a part.
#[repr(C)]
#[derive(Clone, Copy, Debug, PartialEq, Eq)]
pub struct FindingAnswer {
    /// The entry's index, from 0; 0 where there is none.
    pub entry: u64,
    /// 0 without such a pass, else 1 an allow entry, 2 a deny entry, 3 no entry.
    pub kind: u32,
}

/// Bits with one cause ([MS-DTYP] 2.5.3.2). Without a bit there is no part, and all is 0.
#[repr(C)]
#[derive(Clone, Copy, Debug, PartialEq, Eq)]
pub struct PartAnswer {
    pub mask: u32,
    /// The cause's number, and whether it grants: 1 or 0.
    pub cause: u32,
    pub granted: u32,
    /// What the pass of the user and the groups found, and that of the restricting SIDs.
    pub first: FindingAnswer,
    pub second: FindingAnswer,
}

/// The answer of an explanation: that of the check, and at each index from 0 to 31 the part whose lowest bit it is.
#[repr(C)]
#[derive(Clone, Copy, Debug, PartialEq, Eq)]
pub struct Explained {
    pub answer: CheckAnswer,
    pub parts: [PartAnswer; 32],
}

/// What is reported of a pass that wasn't made.
const NO_PASS: FindingAnswer = FindingAnswer { entry: 0, kind: 0 };

/// What is reported at an index where no part has its lowest bit.
const NO_PART: PartAnswer = PartAnswer {
    mask: 0,
    cause: 0,
    granted: 0,
    first: NO_PASS,
    second: NO_PASS,
};

/// Why the verdict on a request is what it is ([MS-DTYP] 2.5.3.2), for a kept descriptor and a kept token: the verdict
/// of `hudarin_check_kept`, and the request's parts. Takes no memory.
#[unsafe(no_mangle)]
#[tactic(auto, unfolding(crate::specs::Kept::kept_request))]
pub extern "C" fn hudarin_explain(
    alloc: Global,
    descriptor: &mut Handle,
    token: &mut Handle,
    mapping: Mapping,
    asked: u32,
) -> Explained
    ensures answer { result ≡ explained (kept_request descriptor.old token.old mapping) asked }
    ensures descriptor { Stays descriptor.old descriptor.new }
    ensures token { Stays token.old token.new }
{
    let Some(first) = descriptor.take(alloc) else {
        return unexplained(not_read(NotRead::DescriptorHandle));
    };
    let Some(second) = token.take(alloc) else {
        descriptor.put(first);
        return unexplained(not_read(NotRead::TokenHandle));
    };
    let answer = explained_of(&first, &second, mapping, asked);
    descriptor.put(first);
    token.put(second);
    answer
}

fn explained_of(first: &Kept, second: &Kept, mapping: Mapping, asked: u32) -> Explained
    ensures { result ≡ explained (asked_of first.now second.now mapping) asked }
{
    match explanation_of(first, second, mapping, asked) {
        Ok(explanation) => Explained {
            answer: verdict_given(explanation.verdict()),
            parts: parts_of(&explanation),
        },
        Err(why) => unexplained(not_read(why)),
    }
}

/// The answer without parts.
pub(crate) fn unexplained(told: CheckAnswer) -> Explained
    ensures { result ≡ unexplained told }
{
    Explained {
        answer: told,
        parts: [NO_PART; 32],
    }
}

#[tactic(auto, unfolding(crate::specs::Kept::asked_of))]
fn explanation_of(
    first: &Kept,
    second: &Kept,
    mapping: Mapping,
    asked: u32,
) -> Result<Explanation, NotRead>
    ensures ok { IfOk result (λ explanation. (r : RequestValue) × (asked_of first.now second.now mapping ≡ Ok r)
        × (explanation.reasons ≡ reasons_on r asked)
        × (told_verdict (reason_in explanation.reasons) ≡ verdict_of r asked)) }
    ensures err { IfErr result (λ why. asked_of first.now second.now mapping ≡ Err why) }
{
    let Kept::Descriptor(descriptor) = first else {
        return Err(NotRead::DescriptorHandle);
    };
    let Kept::Token(token) = second else {
        return Err(NotRead::TokenHandle);
    };
    let mapping = mapping_of(mapping)?;
    Ok(explain_descriptor(descriptor, &mapping, token, Mask(asked)))
}

/// The parts of an explanation, at the indices of their lowest bits.
pub(crate) fn parts_of(explanation: &Explanation) -> [PartAnswer; 32]
    ensures { result ≡ parts_of (reason_in explanation.now.reasons) }
{
    let mut parts = [NO_PART; 32];
    for place in 0..PLACES {
        parts[place as usize] = part_told(explanation.part(place));
    }
    parts
}

fn part_told(part: Option<Part>) -> PartAnswer
    ensures { result ≡ part_told part }
{
    let Some(Part { mask, cause }) = part else {
        return NO_PART;
    };
    let (first, second) = findings_of(cause);
    PartAnswer {
        mask: mask.bits(),
        cause: cause_number(cause),
        granted: u32::from(cause.grants()),
        first,
        second,
    }
}

fn cause_number(cause: Cause) -> u32
    ensures { result ≡ cause_number cause }
{
    match cause {
        Cause::NoList => 1,
        Cause::Listed(_) | Cause::Restricted(_, _) => 2,
        Cause::Owner => 3,
        Cause::TakeOwnership => 4,
        Cause::Security => 5,
        Cause::NoSecurity => 6,
        Cause::BeyondAll => 7,
        Cause::Reserved => 8,
        Cause::Label => 9,
    }
}

/// What the passes found, where the list is the cause.
fn findings_of(cause: Cause) -> (FindingAnswer, FindingAnswer)
    ensures { result ≡ findings_of cause }
{
    match cause {
        Cause::Listed(finding) => (finding_told(finding), NO_PASS),
        Cause::Restricted(first, second) => (finding_told(first), finding_told(second)),
        _ => (NO_PASS, NO_PASS),
    }
}

fn finding_told(finding: Finding) -> FindingAnswer
    ensures { result ≡ finding_told finding }
{
    match finding {
        Finding::Allowed(place) => FindingAnswer {
            entry: place as u64,
            kind: 1,
        },
        Finding::Denied(place) => FindingAnswer {
            entry: place as u64,
            kind: 2,
        },
        Finding::NoEntry => FindingAnswer { entry: 0, kind: 3 },
    }
}
