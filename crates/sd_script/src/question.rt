//! What a reader asks about the node of a path, beside a check and its descriptor.
ghost use Rattle.std.specs.Prelude.{◌≡◌, ◌⊎◌, List, IfOk, OnErr, option_map};
ghost use Rattle.sd_acl.specs.Descriptor.{descriptor_of};
ghost use Rattle.sd_edit.specs.Answers.{descriptor_at};
ghost use Rattle.sd_edit.specs.Journal.{replay};
ghost use Rattle.sd_edit.specs.Machine.{Steps};
ghost use Rattle.sd_edit.specs.declared.request.Request.TheVariants.{Show};
ghost use Rattle.sd_line.specs.Line.{LineOf};
ghost use Rattle.sd_script.specs.Question.{IsSeen, question_lines};
ghost use Rattle.sd_script.specs.Reply.{node_why_lines, seen_lines};
ghost use Rattle.sd_script.specs.declared.session.Session.TheVariants.{Opened};

use crate::answer::Answer;
use crate::boxed::BoxedToken;
use crate::deletion::{DELETE, deletion_line, parent_grants};
use crate::listing::{NodeFilter, Nodes};
use crate::reply::{alone, plain_line, reply_line, seen_line};
use crate::script_options::Notation;
use sd_acl::Descriptor;
use sd_answer::{FOUND, NO_NODE, why_lines};
use sd_check::Token;
use sd_line::Line;
use sd_sid::{GenericMapping, Mask};
use sd_tree::Path;
use sd_versions::{Desk, Reply, Request};
use std::alloc::{AllocError, Global};

/// What a reader asks about the node of a path.
#[derive(Debug, Drop)]
pub enum NodeQuestion {
    /// Why a check is answered as it is ([MS-DTYP] 2.5.3.2).
    Why { token: BoxedToken, asked: Mask },
    /// Which nodes at and below the path there are.
    Find(NodeFilter),
    /// Whether the token's user may delete the node ([MS-FSA] 2.1.5.1.2.1).
    Delete { token: BoxedToken },
}

impl NodeQuestion {
    /// Has a reader see the published tree, and answers the question by that; or as the reply to any other request is
    /// answered. The reader asks for the node's descriptor, and the reasons are that descriptor's.
    pub(crate) fn answer(
        self,
        alloc: Global,
        notation: Notation,
        desk: &mut Desk,
        reader: u64,
        path: Path,
    ) -> Result<Answer, AllocError>
        ensures done { IfOk result
            (λ answer. IsSeen notation desk.old reader path self answer (Opened notation desk.new)) }
        ensures failed { OnErr result ((desk.new ≡ desk.old) ⊎ ((answer : List LineOf)
            × IsSeen notation desk.old reader path self answer (Opened notation desk.new))) }
    {
        match shown(alloc, desk, reader, &path)? {
            Reply::Shown { descriptor, .. } => {
                self.seen(alloc, notation, desk, path, &descriptor)
            }
            reply => Answer::alone(alloc, reply_line(alloc, reply)?),
        }
    }

    /// The answer to a reader that is there, by the descriptor of the node.
    fn seen(
        self,
        alloc: Global,
        notation: Notation,
        desk: &Desk,
        path: Path,
        descriptor: &Option<Descriptor>,
    ) -> Result<Answer, AllocError>
        requires { option_map descriptor_of descriptor.now ≡ descriptor_at desk.now.opening.mapping
            (replay desk.now.opening desk.now.published) path }
        ensures { IfOk result (λ answer. answer ≡ question_lines notation desk.now path self) }
    {
        let tree = desk.published();
        match self {
            NodeQuestion::Why { token, asked } => {
                let token = token.as_token();
                let lines = node_why_lines(alloc, tree.mapping(), token, asked, descriptor)?;
                Ok(Answer::of(alloc, seen_lines(alloc, tree.len(), lines)?))
            }
            NodeQuestion::Find(which) => {
                let no_node = seen_line(alloc, tree.len(), plain_line(alloc, NO_NODE)?)?;
                let found = seen_line(alloc, tree.len(), plain_line(alloc, FOUND)?)?;
                let nodes = Nodes {
                    tree: desk.snapshot()?,
                    paths: notation.paths,
                    top: path,
                    which,
                };
                nodes.answer(alloc, no_node, alone(alloc, found)?)
            }
            NodeQuestion::Delete { token } => {
                let token = token.as_token();
                let by_parent = parent_grants(alloc, tree, &path, token)?;
                let what = deletion_line(alloc, tree.check(&path, token, DELETE), by_parent)?;
                Answer::alone(alloc, seen_line(alloc, tree.len(), what)?)
            }
        }
    }
}

/// The reply to a reader that asks for the descriptor of the node of a path. The only error is out of memory: then
/// nothing has changed.
fn shown(alloc: Global, desk: &mut Desk, reader: u64, path: &Path) -> Result<Reply, AllocError>
    ensures shown { IfOk result (λ reply. Steps desk.old (Show reader path.now) reply desk.new) }
    ensures failed { OnErr result (desk.new ≡ desk.old) }
{
    let path = path.copy(alloc)?;
    Ok(desk.step(&Request::Show { reader, path }))
}

/// The explanation by the descriptor of a node, where there is one ([MS-DTYP] 2.5.3.2).
fn node_why_lines(
    alloc: Global,
    mapping: &GenericMapping,
    token: &Token,
    asked: Mask,
    descriptor: &Option<Descriptor>,
) -> Result<Vec<Line>, AllocError>
    ensures { IfOk result (λ lines. lines.items
        ≡ node_why_lines mapping.now token.now asked (option_map descriptor_of descriptor.now)) }
{
    match descriptor {
        Some(descriptor) => why_lines(alloc, mapping, descriptor, token, asked),
        None => alone(alloc, plain_line(alloc, NO_NODE)?),
    }
}

/// Lines of which the first says by how long a journal they are.
fn seen_lines(alloc: Global, seen: u64, lines: Vec<Line>) -> Result<Vec<Line>, AllocError>
    ensures { IfOk result (λ answer. answer.items ≡ seen_lines seen lines.items) }
{
    let mut lines = lines;
    if lines.is_empty() {
        return Ok(lines);
    }
    let first = lines.remove(0);
    lines.insert(0, seen_line(alloc, seen, first)?)?;
    Ok(lines)
}
