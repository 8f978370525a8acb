//! The check of each node of a tree of object types, by a kept client.

ghost use Rattle.std.specs.Prelude.{◌≡◌, IfOk, IsErrOf, IsOk, Ok};
ghost use Rattle.std.specs.List.{list_any};
ghost use Rattle.sd_access.specs.Limits.{may_be_denied};
ghost use Rattle.sd_types.specs.Tree.{chains_in};
ghost use Rattle.sd_c.specs.Kept.{Stays, client_in};
ghost use Rattle.sd_c.specs.Request.{Gives};
ghost use Rattle.sd_c.specs.WholeTypes.{AnswersTypes, array_answer, told_of, told_unless_denied};
ghost use Rattle.sd_c.specs.WholeTypes.{kept_client, tree_question_by, tree_question_read, tree_read, type_nodes_of};
ghost use Rattle.sd_c.specs.WholeTypes.{verdicts_over};
ghost use Rattle.sd_c.specs.Written.{room_with};

use crate::call_answer::{CheckAnswer, OK, ROOM, not_read, unread, verdict_given, why_not};
use crate::handle::{Handle, Kept};
use crate::mapping::Mapping;
use crate::question::{Terms, whole_of};
use crate::stop::{NotRead, Stop};
use sd_access::may_be_denied;
use sd_check::Verdict;
use sd_specialize::SpecializeError;
use sd_types::{TreeError, TreeQuestion, TypeNode, TypeTree, check_types};
use sd_whole::{GUID_BYTES, Guid, WholeDescriptor};
use std::alloc::{AllocError, Global};

/// The number of the argument that is the array for verdicts.
const VERDICTS: u32 = 26;

/// A node of a tree of object types ([MS-DTYP] 2.5.3.2, ObjectTypeList).
#[repr(C)]
#[derive(Clone, Copy, Debug, PartialEq, Eq)]
pub struct TreeNode {
    /// How many nodes are above it: 0 of the class.
    pub level: u32,
    /// Its type, as an entry has it ([MS-DTYP] 2.3.4.2).
    pub guid: [u8; GUID_BYTES],
}

/// The verdict on a node.
#[repr(C)]
#[derive(Clone, Copy, Debug, PartialEq, Eq)]
pub struct TypeVerdict {
    /// The verdict's number, as of `CheckAnswer`.
    pub kind: u32,
    pub mask: u32,
}

/// Writes the verdict on each node of a tree of object types ([MS-DTYP] 2.5.3.2, ObjectTypeList) to the front of the
/// array, for the whole descriptor in the bytes and a kept client, as `check_types` gives it: on a node what is granted
/// on all the leaves at it and below it, or what is missing on one. PRINCIPAL SELF is as in `hudarin_check_whole`. The
/// client's handle is tested first, then the nodes, then the SID, then the mapping, then the bytes; then whether the
/// DACL can be decided, and whether an entry of the SACL may deny what it grants on some node ([MS-DTYP] 2.5.3.3); last
/// is whether the array has an element for each node. Else it is unchanged. There are allocations for the nodes, the
/// descriptor and the verdicts, and those of `TypeTree::new` and `check_types`.
#[unsafe(no_mangle)]
#[tactic(auto, unfolding(crate::specs::WholeTypes::kept_client, crate::specs::WholeTypes::tree_question_read))]
pub extern "C" fn hudarin_check_types(
    alloc: Global,
    descriptor: &[u8],
    client: &mut Handle,
    nodes: &[TreeNode],
    principal_self: &[u8],
    mapping: Mapping,
    asked: u32,
    verdicts: &mut [TypeVerdict],
) -> CheckAnswer
    ensures answer { AnswersTypes (kept_client client.old) (verdicts_over descriptor.now
        (tree_question_read client.old nodes.now principal_self.now mapping asked))
        verdicts.old verdicts.new result }
    ensures client { Stays client.old client.new }
{
    let Some(kept) = client.take(alloc) else {
        return not_read(NotRead::ClientHandle);
    };
    let answer = answer_by(
        alloc,
        descriptor,
        &kept,
        nodes,
        principal_self,
        mapping,
        asked,
        verdicts,
    );
    client.put(kept);
    answer
}

fn answer_by(
    alloc: Global,
    descriptor: &[u8],
    kept: &Kept,
    nodes: &[TreeNode],
    principal_self: &[u8],
    mapping: Mapping,
    asked: u32,
    array: &mut [TypeVerdict],
) -> CheckAnswer
    ensures { AnswersTypes (client_in kept.now) (verdicts_over descriptor.now
        (tree_question_by kept.now nodes.now principal_self.now mapping asked)) array.old array.new result }
{
    match verdicts_by(
        alloc,
        descriptor,
        kept,
        nodes,
        principal_self,
        mapping,
        asked,
    ) {
        Ok(told) => put(&told, array),
        Err(why) => why_not(why),
    }
}

/// Puts the verdicts to the front of the array, if they fit.
fn put(told: &[TypeVerdict], array: &mut [TypeVerdict]) -> CheckAnswer
    ensures answer { result ≡ array_answer told.now array.old }
    ensures array { array.new ≡ room_with told.now array.old }
{
    if array.len() < told.len() {
        return unread(ROOM, VERDICTS, 0, told.len() as u64);
    }
    array[..told.len()].copy_from_slice(told);
    unread(OK, 0, 0, 0)
}

#[tactic(auto, unfolding(crate::specs::WholeTypes::tree_question_by))]
fn verdicts_by(
    alloc: Global,
    descriptor: &[u8],
    kept: &Kept,
    nodes: &[TreeNode],
    principal_self: &[u8],
    mapping: Mapping,
    asked: u32,
) -> Result<Vec<TypeVerdict>, Stop>
    ensures read { Gives (λ told. told.items) result (verdicts_over descriptor.now
        (tree_question_by kept.now nodes.now principal_self.now mapping asked)) }
    ensures memory { IsErrOf result Stop.Memory → IsOk (client_in kept.now) }
{
    let Kept::Client(client) = kept else {
        return Err(Stop::NotRead(NotRead::ClientHandle));
    };
    let tree = tree_of(alloc, nodes)?;
    let terms = Terms::read(principal_self, mapping)?;
    verdicts_on(
        alloc,
        descriptor,
        &terms.tree_question(client, &tree, asked),
    )
}

/// The tree of the nodes.
fn tree_of(alloc: Global, nodes: &[TreeNode]) -> Result<TypeTree, Stop>
    ensures { Gives chains_in result (tree_read nodes.now) }
{
    let types = type_nodes_of(alloc, nodes)?;
    match TypeTree::new(alloc, &types) {
        Ok(tree) => Ok(tree),
        Err(TreeError::Fault(fault)) => Err(Stop::NotRead(NotRead::Tree(fault))),
        Err(TreeError::Memory) => Err(Stop::Memory),
    }
}

/// Each node with its level and its type.
fn type_nodes_of(alloc: Global, nodes: &[TreeNode]) -> Result<Vec<TypeNode>, AllocError>
    ensures { IfOk result (λ types. types.items ≡ type_nodes_of nodes.now) }
{
    let mut types = Vec::new(alloc);
    for node in nodes {
        types.push(TypeNode {
            level: node.level as usize,
            guid: Guid { bytes: node.guid },
        })?;
    }
    Ok(types)
}

/// The verdict on each node of the question's tree, for the descriptor that the bytes hold.
fn verdicts_on(
    alloc: Global,
    bytes: &[u8],
    question: &TreeQuestion<'_>,
) -> Result<Vec<TypeVerdict>, Stop>
    ensures { Gives (λ told. told.items) result (verdicts_over bytes.now (Ok question.now)) }
{
    let descriptor = whole_of(alloc, bytes)?;
    match check_types(alloc, question, &descriptor) {
        Ok(verdicts) => told_unless_denied(alloc, &descriptor, &verdicts),
        Err(SpecializeError::Fault(fault)) => Err(Stop::NotRead(NotRead::Undecided(fault))),
        Err(SpecializeError::Memory) => Err(Stop::Memory),
    }
}

/// The verdicts, unless an entry of the SACL may deny what one of them grants.
fn told_unless_denied(
    alloc: Global,
    descriptor: &WholeDescriptor,
    verdicts: &[Verdict],
) -> Result<Vec<TypeVerdict>, Stop>
    ensures { Gives (λ told. told.items) result (told_unless_denied descriptor.now verdicts.now) }
{
    if some_may_be_denied(descriptor, verdicts) {
        return Err(Stop::NotRead(NotRead::MayBeDenied));
    }
    Ok(told_of(alloc, verdicts)?)
}

fn some_may_be_denied(descriptor: &WholeDescriptor, verdicts: &[Verdict]) -> bool
    ensures { result ≡ list_any (λ verdict. may_be_denied verdict descriptor.now) verdicts.now }
{
    verdicts
        .iter()
        .any(|verdict| may_be_denied(verdict, descriptor))
}

/// The verdicts as the array has them.
fn told_of(alloc: Global, verdicts: &[Verdict]) -> Result<Vec<TypeVerdict>, AllocError>
    ensures { IfOk result (λ told. told.items ≡ told_of verdicts.now) }
{
    let mut told = Vec::new(alloc);
    for verdict in verdicts {
        let answer = verdict_given(*verdict);
        told.push(TypeVerdict {
            kind: answer.kind,
            mask: answer.mask,
        })?;
    }
    Ok(told)
}
