//! The verdict on each node of a tree of object types.

ghost use Rattle.std.specs.Prelude.{◌≡◌, map};
ghost use Rattle.sd_specialize.specs.Specialize.{Gives};
ghost use Rattle.sd_types.specs.Tree.{leaves_under};
ghost use Rattle.sd_types.specs.Verdicts.{both, each_verdict, granted_on_both, node_verdict, part_verdict};
ghost use Rattle.sd_types.specs.Verdicts.{tree_verdicts, with_parts};

use crate::question::TreeQuestion;
use crate::tree::{is_leaf, is_under};
use sd_access::{Question, check_whole};
use sd_check::{MAXIMUM_ALLOWED, Verdict};
use sd_sid::Mask;
use sd_specialize::SpecializeError;
use sd_whole::{Guid, WholeDescriptor};
use std::alloc::Global;

/// The verdict on each node of the question's tree, in its order ([MS-DTYP] 2.5.3.2, ObjectTypeList): on a leaf that of
/// `check_whole` about its chain, and on a node with others below it what is granted on all its leaves, or else what is
/// missing on one. A fault is that of the first leaf that has one: then no node has a verdict. There are allocations
/// for the list and those of `check_whole`, for each leaf once for each node of its chain, at most five times; besides,
/// the time grows as the square of the number of nodes.
pub fn check_types(
    alloc: Global,
    question: &TreeQuestion<'_>,
    descriptor: &WholeDescriptor,
) -> Result<Vec<Verdict>, SpecializeError>
    ensures { Gives (λ verdicts. verdicts.items) result (tree_verdicts question.now descriptor.now) }
{
    each_verdict(alloc, question, descriptor, &question.types.chains)
}

/// The verdict on the node of each of the chains.
fn each_verdict(
    alloc: Global,
    question: &TreeQuestion<'_>,
    descriptor: &WholeDescriptor,
    chains: &[Vec<Guid>],
) -> Result<Vec<Verdict>, SpecializeError>
    ensures { Gives (λ verdicts. verdicts.items) result
        (each_verdict (node_verdict question.now descriptor.now) (map (λ chain. chain.items) chains.now)) }
{
    let mut verdicts = Vec::new(alloc);
    for chain in chains {
        verdicts.push(node_verdict(alloc, question, descriptor, chain)?)?;
    }
    Ok(verdicts)
}

/// The verdict on the node of the chain.
fn node_verdict(
    alloc: Global,
    question: &TreeQuestion<'_>,
    descriptor: &WholeDescriptor,
    chain: &[Guid],
) -> Result<Verdict, SpecializeError>
    ensures { Gives (λ verdict. verdict) result (node_verdict question.now descriptor.now chain.now) }
{
    leaves_verdict(alloc, question, descriptor, &question.types.chains, chain)
}

/// The verdict on all leaves, of these chains, under the node of the last.
fn leaves_verdict(
    alloc: Global,
    question: &TreeQuestion<'_>,
    descriptor: &WholeDescriptor,
    chains: &[Vec<Guid>],
    chain: &[Guid],
) -> Result<Verdict, SpecializeError>
    ensures { Gives (λ verdict. verdict) result (with_parts (part_verdict question.now descriptor.now)
        Verdict.EmptyRequest (leaves_under (map (λ other. other.items) chains.now) chain.now)) }
{
    let mut verdict = Verdict::EmptyRequest;
    for leaf in chains {
        if is_under(chain, leaf) && is_leaf(chains, leaf) {
            verdict = both(verdict, part_verdict(alloc, question, descriptor, leaf)?);
        }
    }
    Ok(verdict)
}

/// The verdict on the part with the chain.
fn part_verdict(
    alloc: Global,
    question: &TreeQuestion<'_>,
    descriptor: &WholeDescriptor,
    chain: &[Guid],
) -> Result<Verdict, SpecializeError>
    ensures { Gives (λ verdict. verdict) result (part_verdict question.now descriptor.now chain.now) }
{
    let about = Question {
        client: question.client,
        chain,
        principal_self: question.principal_self,
        mapping: question.mapping,
        asked: question.asked,
    };
    check_whole(alloc, &about, descriptor)
}

/// The verdict on two parts, from that on each.
fn both(one: Verdict, other: Verdict) -> Verdict
    ensures { result ≡ both one other }
{
    match one {
        Verdict::EmptyRequest => other,
        Verdict::Reserved(mask) => Verdict::Reserved(mask),
        Verdict::Granted(mask) => both_with_granted(mask, other),
        Verdict::Denied { missing } => both_with_missing(missing, other),
    }
}

/// That where one part is granted these rights.
fn both_with_granted(granted: Mask, other: Verdict) -> Verdict
    ensures { result ≡ both (Verdict.Granted granted) other }
{
    match other {
        Verdict::EmptyRequest => Verdict::Granted(granted),
        Verdict::Reserved(mask) => Verdict::Reserved(mask),
        Verdict::Granted(mask) => granted_on_both(granted.common(mask)),
        Verdict::Denied { missing } => Verdict::Denied { missing },
    }
}

/// That where one part lacks these rights.
fn both_with_missing(missing: Mask, other: Verdict) -> Verdict
    ensures { result ≡ both (Verdict.Denied missing) other }
{
    match other {
        Verdict::EmptyRequest | Verdict::Granted(_) => Verdict::Denied { missing },
        Verdict::Reserved(mask) => Verdict::Reserved(mask),
        Verdict::Denied { missing: more } => Verdict::Denied {
            missing: missing.union(more),
        },
    }
}

/// What is granted on both; where that is nothing, MAXIMUM_ALLOWED itself is missing.
fn granted_on_both(mask: Mask) -> Verdict
    ensures { result ≡ granted_on_both mask }
{
    if mask.is_empty() {
        return Verdict::Denied {
            missing: MAXIMUM_ALLOWED,
        };
    }
    Verdict::Granted(mask)
}
