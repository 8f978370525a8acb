//! Who is granted rights by a kept descriptor at all, what is doubtful in it, and what a change of a descriptor grants
//! and takes away.

ghost use Rattle.std.specs.Prelude.{◌≡◌, IfErr, IfOk};
ghost use Rattle.sd_acl.specs.Descriptor.{descriptor_of};
ghost use Rattle.sd_c.specs.Analysis.{AnswersCompare, AnswersLines, AreCompareLines, AreLinesOf, AreLintLines};
ghost use Rattle.sd_c.specs.Analysis.{AreWhoLines, Stops, bits_of, both_kept, descriptors_in, kept_in};
ghost use Rattle.sd_c.specs.Analysis.{no_comparison};
ghost use Rattle.sd_c.specs.Kept.{Stays, descriptor_in};
ghost use Rattle.sd_c.specs.Lines.{AreKept};

use crate::call_answer::{CheckAnswer, OK, lines_in_use, not_read, unread, why_not};
use crate::handle::{Handle, Kept};
use crate::lines::kept_lines;
use crate::mapping::Mapping;
use crate::request::{groups_of, mapping_of};
use crate::stop::{NotRead, Stop};
use sd_acl::Descriptor;
use sd_analysis::{Base, Change, compare, compare_descendants, who};
use sd_answer::{
    dacl_ref, descriptor_ref, entries_in, lint_lines, push_descendants, push_gains_and_losses,
    push_inheritance, rights_asked, who_lines,
};
use sd_check::GroupState;
use sd_sid::{GenericMapping, Mask, Sid};
use std::alloc::{AllocError, Global};

/// The answer of `hudarin_compare`.
#[repr(C)]
#[derive(Clone, Copy, Debug, PartialEq, Eq)]
pub struct CompareAnswer {
    pub answer: CheckAnswer,
    /// The bits that some token gains of the object itself; 0 without a comparison.
    pub gained: u32,
    /// The bits that some token loses of the object itself; 0 without a comparison.
    pub lost: u32,
}

/// Keeps the lines of whom a kept descriptor grants which of the rights, of all tokens that have the groups ([MS-DTYP]
/// 2.5.3.2): one for each alternative, as `0x1 to S-1-5-32-545 unless S-1-5-32-546`. Refused if `lines` is in use, if
/// the other handle keeps no descriptor, if the groups or the mapping are invalid, or out of memory; then nothing is
/// kept.
#[unsafe(no_mangle)]
#[tactic(auto, unfolding(crate::specs::Analysis::kept_in))]
pub extern "C" fn hudarin_who(
    alloc: Global,
    descriptor: &mut Handle,
    groups: &[u8],
    states: &[u32],
    mapping: Mapping,
    asked: u32,
    lines: &mut Handle,
) -> CheckAnswer
    ensures answer { AnswersLines (AreWhoLines asked) (kept_in descriptor.old) groups.now states.now mapping
        lines.old lines.new result }
    ensures descriptor { Stays descriptor.old descriptor.new }
{
    if lines.is_there == 1 {
        return lines_in_use();
    }
    let Some(kept) = descriptor.take(alloc) else {
        return not_read(NotRead::DescriptorHandle);
    };
    let answer = match who_of(alloc, &kept, groups, states, mapping, Mask(asked)) {
        Ok(made) => {
            lines.put(made);
            unread(OK, 0, 0, 0)
        }
        Err(stop) => why_not(stop),
    };
    descriptor.put(kept);
    answer
}

/// Keeps the lines of what is doubtful in a kept descriptor, where all tokens have the groups ([MS-DTYP] 2.5.3.2,
/// 2.5.3.4): one for each finding, as `entry 2 (A;;FR;;;BU) has no effect`. Refused as `hudarin_who` is.
#[unsafe(no_mangle)]
#[tactic(auto, unfolding(crate::specs::Analysis::kept_in))]
pub extern "C" fn hudarin_lint(
    alloc: Global,
    descriptor: &mut Handle,
    groups: &[u8],
    states: &[u32],
    mapping: Mapping,
    lines: &mut Handle,
) -> CheckAnswer
    ensures answer { AnswersLines AreLintLines (kept_in descriptor.old) groups.now states.now mapping
        lines.old lines.new result }
    ensures descriptor { Stays descriptor.old descriptor.new }
{
    if lines.is_there == 1 {
        return lines_in_use();
    }
    let Some(kept) = descriptor.take(alloc) else {
        return not_read(NotRead::DescriptorHandle);
    };
    let answer = match lint_of(alloc, &kept, groups, states, mapping) {
        Ok(made) => {
            lines.put(made);
            unread(OK, 0, 0, 0)
        }
        Err(stop) => why_not(stop),
    };
    descriptor.put(kept);
    answer
}

/// Keeps the lines of what tokens that have the groups gain and lose where the new descriptor takes the place of the
/// old one ([MS-DTYP] 2.5.3.2), also of what is made in it if it is a container (2.5.3.4): one for each token that
/// shows it, as `gained 0x2 by S-1-5-32-545` and `new objects: lost 0x1 by everyone`; none where nothing changes.
/// Refused as `hudarin_who` is.
#[unsafe(no_mangle)]
#[tactic(auto, unfolding(crate::specs::Analysis::both_kept))]
pub extern "C" fn hudarin_compare(
    alloc: Global,
    old: &mut Handle,
    new: &mut Handle,
    groups: &[u8],
    states: &[u32],
    mapping: Mapping,
    lines: &mut Handle,
) -> CompareAnswer
    ensures answer { AnswersCompare (both_kept old.old new.old) groups.now states.now mapping
        lines.old lines.new result }
    ensures old { Stays old.old old.new }
    ensures new { Stays new.old new.new }
{
    if lines.is_there == 1 {
        return no_comparison(lines_in_use());
    }
    let Some(first) = old.take(alloc) else {
        return no_comparison(not_read(NotRead::DescriptorHandle));
    };
    let Some(second) = new.take(alloc) else {
        old.put(first);
        return no_comparison(not_read(NotRead::NewHandle));
    };
    let answer = match compare_of(alloc, &first, &second, groups, states, mapping) {
        Ok(compared) => {
            lines.put(compared.lines);
            CompareAnswer {
                answer: unread(OK, 0, 0, 0),
                gained: compared.gained.bits(),
                lost: compared.lost.bits(),
            }
        }
        Err(stop) => no_comparison(why_not(stop)),
    };
    old.put(first);
    new.put(second);
    answer
}

fn no_comparison(answer: CheckAnswer) -> CompareAnswer
    ensures { result ≡ no_comparison answer }
{
    CompareAnswer {
        answer,
        gained: 0,
        lost: 0,
    }
}

/// The lines of what is kept.
#[tactic(auto, unfolding(crate::specs::Analysis::asked_over, crate::specs::Analysis::base_read))]
fn who_of(
    alloc: Global,
    kept: &Kept,
    groups: &[u8],
    states: &[u32],
    mapping: Mapping,
    asked: Mask,
) -> Result<Box<Kept>, Stop>
    ensures ok { IfOk result (λ made. AreKept (AreLinesOf (AreWhoLines asked) (descriptor_in kept.now) groups.now
        states.now mapping) made.value) }
    ensures err { IfErr result (λ stop. Stops (descriptor_in kept.now) groups.now states.now mapping stop) }
{
    let Kept::Descriptor(descriptor) = kept else {
        return Err(Stop::NotRead(NotRead::DescriptorHandle));
    };
    let groups = groups_of(alloc, groups, states)?;
    let mapping = mapping_of(mapping)?;
    Ok(kept_who(alloc, descriptor, &groups, &mapping, asked)?)
}

fn kept_who(
    alloc: Global,
    descriptor: &Descriptor,
    groups: &[(Sid, GroupState)],
    mapping: &GenericMapping,
    asked: Mask,
) -> Result<Box<Kept>, AllocError>
    ensures { IfOk result (λ made. AreKept (AreWhoLines asked (descriptor_of descriptor.now)
        (record { groups = groups.now; mapping = mapping.now })) made.value) }
{
    let base = Base { groups };
    let dacl = dacl_ref(&descriptor.dacl);
    let rights = rights_asked(mapping, asked);
    let accesses = who(alloc, descriptor.owner, dacl, mapping, &base, rights)?;
    kept_lines(alloc, who_lines(alloc, &accesses)?)
}

/// The findings in what is kept.
#[tactic(auto, unfolding(crate::specs::Analysis::asked_over, crate::specs::Analysis::base_read))]
fn lint_of(
    alloc: Global,
    kept: &Kept,
    groups: &[u8],
    states: &[u32],
    mapping: Mapping,
) -> Result<Box<Kept>, Stop>
    ensures ok { IfOk result (λ made. AreKept (AreLinesOf AreLintLines (descriptor_in kept.now) groups.now
        states.now mapping) made.value) }
    ensures err { IfErr result (λ stop. Stops (descriptor_in kept.now) groups.now states.now mapping stop) }
{
    let Kept::Descriptor(descriptor) = kept else {
        return Err(Stop::NotRead(NotRead::DescriptorHandle));
    };
    let groups = groups_of(alloc, groups, states)?;
    let mapping = mapping_of(mapping)?;
    Ok(kept_findings(alloc, descriptor, &groups, &mapping)?)
}

fn kept_findings(
    alloc: Global,
    descriptor: &Descriptor,
    groups: &[(Sid, GroupState)],
    mapping: &GenericMapping,
) -> Result<Box<Kept>, AllocError>
    ensures { IfOk result (λ made. AreKept (AreLintLines (descriptor_of descriptor.now)
        (record { groups = groups.now; mapping = mapping.now })) made.value) }
{
    let base = Base { groups };
    kept_lines(alloc, lint_lines(alloc, mapping, &base, descriptor)?)
}

/// The lines of a comparison, and the bits of its changes.
#[derive(Drop)]
struct Compared {
    lines: Box<Kept>,
    gained: Mask,
    lost: Mask,
}

/// The comparison of what is kept.
#[tactic(auto, unfolding(crate::specs::Analysis::asked_over, crate::specs::Analysis::base_read, crate::specs::Analysis::descriptors_in))]
fn compare_of(
    alloc: Global,
    first: &Kept,
    second: &Kept,
    groups: &[u8],
    states: &[u32],
    mapping: Mapping,
) -> Result<Compared, Stop>
    ensures ok { IfOk result (λ made. AreKept (AreLinesOf
        (λ ds base ls. AreCompareLines ds base made.gained made.lost ls)
        (descriptors_in first.now second.now) groups.now states.now mapping) made.lines.value) }
    ensures err { IfErr result
        (λ stop. Stops (descriptors_in first.now second.now) groups.now states.now mapping stop) }
{
    let Kept::Descriptor(old) = first else {
        return Err(Stop::NotRead(NotRead::DescriptorHandle));
    };
    let Kept::Descriptor(new) = second else {
        return Err(Stop::NotRead(NotRead::NewHandle));
    };
    let groups = groups_of(alloc, groups, states)?;
    let mapping = mapping_of(mapping)?;
    Ok(comparison_of(alloc, old, new, &groups, &mapping)?)
}

fn comparison_of(
    alloc: Global,
    old: &Descriptor,
    new: &Descriptor,
    groups: &[(Sid, GroupState)],
    mapping: &GenericMapping,
) -> Result<Compared, AllocError>
    ensures { IfOk result (λ made. AreKept (AreCompareLines (descriptor_of old.now, descriptor_of new.now)
        (record { groups = groups.now; mapping = mapping.now }) made.gained made.lost) made.lines.value) }
{
    let (first, second, base) = (descriptor_ref(old), descriptor_ref(new), Base { groups });
    let comparison = compare(alloc, &first, &second, mapping, &base)?;
    let mut lines = Vec::new(alloc);
    push_gains_and_losses(alloc, &mut lines, None, &first, &second, &comparison)?;
    let (first, second) = (entries_in(&old.dacl), entries_in(&new.dacl));
    let below = compare_descendants(alloc, first, second, mapping, &base)?;
    push_descendants(alloc, &mut lines, &below)?;
    push_inheritance(alloc, &mut lines, old.protected, new.protected)?;
    Ok(Compared {
        lines: kept_lines(alloc, lines)?,
        gained: bits_of(&comparison.gained),
        lost: bits_of(&comparison.lost),
    })
}

/// The bits of all changes.
pub(crate) fn bits_of(changes: &[Change]) -> Mask
    ensures { result ≡ bits_of changes.now }
{
    let mut bits = Mask(0);
    for change in changes {
        bits = bits.union(change.mask);
    }
    bits
}
