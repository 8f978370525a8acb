//! The answer to `types`: the verdict on each node of a tree of object types ([MS-DTYP] 2.5.3.2, ObjectTypeList).
ghost use Rattle.std.specs.Prelude.{◌≡◌, ◌++◌, ◌∷◌, [], IfOk, OnOk, codes, drop};
ghost use Rattle.std.specs.List.{list_all};
ghost use Rattle.sd_commands.specs.Answer.{AnswersFit, answer_of};
ghost use Rattle.sd_commands.specs.CommandAnswer.{AnswersTypes, AnswersTypesOn, argument};
ghost use Rattle.sd_commands.specs.Nodes.{tree_in};
ghost use Rattle.sd_commands.specs.Required.{missing_dacl};
ghost use Rattle.sd_commands.specs.Types.{AnswersNodes, IsTreeFault, is_granted, node_line, node_lines};
ghost use Rattle.sd_commands.specs.Types.{nodes_fault_line};
ghost use Rattle.sd_commands.specs.Types.{nodes_outcome, some_may_be_denied};
ghost use Rattle.sd_types.specs.Verdicts.{tree_verdicts};

use crate::command_answer::{Answer, Answered, Outcome, fault_told};
use crate::descriptor::missing_dacl;
use crate::diagnostic::told_line;
use crate::forms::AT_NODE;
use crate::limits::sacl_left_out;
use crate::nodes::{NodesError, NodesFault, nodes_reason, read_tree};
use crate::settings::CommandContext;
use crate::verdict::{Form, Subject};
use crate::words::{argument, items_from};
use sd_access::may_be_denied;
use sd_answer::{FAULT_NAMED, verdict_line};
use sd_check::Verdict;
use sd_line::{Line, Part, Value};
use sd_specialize::SpecializeError;
use sd_text::TextError;
use sd_types::{TreeQuestion, TypeNode, check_types};
use sd_whole::WholeDescriptor;
use sd_whole_parse::read_whole_sddl;
use sd_whole_text::print_guid;
use std::alloc::{AllocError, Global};

impl CommandContext<'_> {
    /// The verdict on each node for all that the text is ([MS-DTYP] 2.5.1.1), where the tree, the user, the mask and
    /// words are the arguments.
    pub(crate) fn types(&self, sddl: &str, arguments: &[&str]) -> Answered
        ensures { IfOk result (λ answer. AnswersTypes self.now.settings.now sddl.now arguments.now
            (answer_of answer)) }
    {
        match read_whole_sddl(self.alloc, self.settings.aliases, sddl) {
            Ok(descriptor) => self.types_on_whole(&descriptor, arguments),
            Err(TextError::Fault { fault, place }) => self.sddl_fault("SDDL", sddl, fault, place),
            Err(TextError::Memory) => Err(AllocError),
        }
    }

    /// That for the descriptor, if it has the list that is required.
    fn types_on_whole(&self, descriptor: &WholeDescriptor, arguments: &[&str]) -> Answered
        ensures { IfOk result (λ answer. AnswersFit (codes "SDDL")
            (missing_dacl self.now.settings.now.require_dacl descriptor.now.dacl)
            (AnswersTypesOn self.now.settings.now arguments.now descriptor.now) (answer_of answer)) }
    {
        match missing_dacl(self.settings, &descriptor.dacl) {
            None => self.types_on_tree(descriptor, arguments),
            Some(missing) => self.fault("nodacl", "SDDL", missing),
        }
    }

    /// That for the tree that the first argument is.
    fn types_on_tree(&self, descriptor: &WholeDescriptor, arguments: &[&str]) -> Answered
        ensures { IfOk result (λ answer. AnswersTypesOn self.now.settings.now arguments.now descriptor.now
            (answer_of answer)) }
    {
        let tree = argument(&*arguments, 0);
        match read_tree(self.alloc, tree) {
            Ok(asked) => {
                let on = Subject::Nodes(&*descriptor, &asked);
                self.verdict(Form::Short, on, items_from(arguments, 1))
            }
            Err(NodesError::Fault(fault)) => self.tree_fault(fault),
            Err(NodesError::Memory) => Err(AllocError),
        }
    }

    /// The answer to TREE where it has this fault.
    fn tree_fault(&self, fault: NodesFault) -> Answered
        ensures { IfOk result (λ answer. IsTreeFault fault (answer_of answer)) }
    {
        let reason = nodes_reason(self.alloc, fault)?;
        let told = told_line(self.alloc, "TREE", reason.as_str())?;
        fault_told(self.alloc, nodes_fault_line(self.alloc, fault)?, told)
    }

    /// The verdicts on the nodes, which are those of the question's tree.
    pub(crate) fn nodes_answer(
        &self,
        question: &TreeQuestion<'_>,
        nodes: &[TypeNode],
        descriptor: &WholeDescriptor,
    ) -> Answered
        ensures { IfOk result (λ answer. AnswersNodes descriptor.now nodes.now
            (tree_verdicts question.now descriptor.now) (answer_of answer)) }
    {
        match check_types(self.alloc, question, descriptor) {
            Ok(verdicts) => {
                let is_left = some_may_be_denied(descriptor, &verdicts);
                let mut lines = Vec::new(self.alloc);
                push_node_lines(self.alloc, &mut lines, &verdicts, nodes)?;
                lines.append(&mut sacl_left_out(self.alloc, is_left)?)?;
                Ok(Answer::of(self.alloc, lines, nodes_outcome(descriptor, &verdicts)))
            }
            Err(SpecializeError::Fault(fault)) => self.undecided("SDDL", fault),
            Err(SpecializeError::Memory) => Err(AllocError),
        }
    }
}

/// Adds a line for each verdict, on the node in its place.
fn push_node_lines(
    alloc: Global,
    lines: &mut Vec<Line>,
    verdicts: &[Verdict],
    nodes: &[TypeNode],
) -> Result<(), AllocError>
    ensures { OnOk result (lines.new.items ≡ lines.old.items ++ node_lines verdicts.now nodes.now) }
{
    let [verdict, verdicts @ ..] = verdicts else {
        return Ok(());
    };
    let [node, nodes @ ..] = nodes else {
        return Ok(());
    };
    lines.push(node_line(alloc, *verdict, node)?)?;
    push_node_lines(alloc, lines, verdicts, nodes)
}

/// The line of a verdict on a node.
fn node_line(alloc: Global, verdict: Verdict, node: &TypeNode) -> Result<Line, AllocError>
    ensures { IfOk result (λ line. line ≡ node_line verdict node.now) }
{
    let level = Value::Number(node.level as u64);
    let guid = Value::text(print_guid(alloc, &node.guid)?);
    let at = Part::new(AT_NODE, vec![in alloc; level, guid]?);
    verdict_line(alloc, verdict)?.with_tail(at)
}

/// Whether the rest of the SACL may deny what is granted on a node.
fn some_may_be_denied(descriptor: &WholeDescriptor, verdicts: &[Verdict]) -> bool
    ensures { result ≡ some_may_be_denied descriptor.now verdicts.now }
{
    verdicts
        .iter()
        .any(|verdict| may_be_denied(verdict, descriptor))
}

/// Whether what was asked for is granted on each node, and nothing may deny it.
fn nodes_outcome(descriptor: &WholeDescriptor, verdicts: &[Verdict]) -> Outcome
    ensures { result ≡ nodes_outcome descriptor.now verdicts.now }
{
    if !are_granted(verdicts) || some_may_be_denied(descriptor, verdicts) {
        Outcome::Refused
    } else {
        Outcome::Done
    }
}

fn are_granted(verdicts: &[Verdict]) -> bool
    ensures { result ≡ list_all is_granted verdicts.now }
{
    verdicts.iter().all(is_granted)
}

fn is_granted(verdict: &Verdict) -> bool
    ensures { result ≡ is_granted verdict.now }
{
    matches!(verdict, Verdict::Granted(_))
}

fn nodes_fault_line(alloc: Global, fault: NodesFault) -> Result<Line, AllocError>
    ensures { IfOk result (λ line. line ≡ nodes_fault_line fault) }
{
    let of = Value::word(alloc, "tree")?;
    let number = Value::Number(fault.number() as u64);
    let name = Value::word(alloc, fault.name())?;
    Line::new(alloc, FAULT_NAMED, vec![in alloc; of, number, name]?)
}
