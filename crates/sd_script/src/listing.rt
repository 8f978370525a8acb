//! The nodes of a published tree, a line for each.
ghost use Rattle.std.specs.Prelude.{◌≡◌, ◌++◌, IfOk, OnOk};
ghost use Rattle.sd_edit.specs.Journal.{replay};
ghost use Rattle.sd_tree.specs.Listing.{listed};
ghost use Rattle.sd_line.specs.Line.{form_of};
ghost use Rattle.sd_line.specs.Printed.{printed, tag_of};
ghost use Rattle.sd_script.specs.Listing.{grants, is_split_below, kind_form, lacks_words, lines_below, nodes_below};
ghost use Rattle.sd_script.specs.Listing.{nodes_lines};

use crate::answer::{Answer, Made};
use crate::boxed::BoxedToken;
use crate::paths::{PathSpelling, is_split, path_value, path_word};
use crate::reply::alone;
use sd_answer::{CONTAINER, OBJECT, fault_line};
use sd_check::Verdict;
use sd_line::{Line, LineForm, Style, Tag, Value, push_printed};
use sd_sid::Mask;
use sd_tree::{CheckReply, NodeKind, NodeRef, Path, Shared, Tree};
use std::alloc::{AllocError, Global};

/// Which nodes have a line.
#[derive(Debug, Drop)]
pub enum NodeFilter {
    /// All nodes, each with its descriptor.
    All,
    /// The nodes that grant a token what is asked for ([MS-DTYP] 2.5.3.2), each by its path.
    Granting { token: BoxedToken, asked: Mask },
}

/// Nodes of a tree whose lines are made as they are printed: those at and below a path, as far as they have one.
#[derive(Drop)]
pub(crate) struct Nodes {
    pub(crate) tree: Shared<Tree>,
    pub(crate) paths: PathSpelling,
    pub(crate) top: Path,
    pub(crate) which: NodeFilter,
}

impl Nodes {
    /// The lines of the nodes, in the order of their paths, after a title; one line where none stands at the path, and
    /// `fault name` where the path of one would be more than one word.
    pub(crate) fn answer(
        self,
        alloc: Global,
        no_node: Line,
        title: Vec<Line>,
    ) -> Result<Answer, AllocError>
        ensures { IfOk result (λ answer. answer ≡ nodes_lines self.paths self.tree.opening self.tree.journal self.top
            self.which no_node title.items) }
    {
        if self.tree.get().lookup(&self.top).is_none() {
            return Answer::alone(alloc, no_node);
        }
        if lacks_words(alloc, self.paths, self.tree.get(), &self.top)? {
            return Answer::alone(alloc, fault_line(alloc, "name")?);
        }
        let nodes = Box::new(alloc, self)?;
        Ok(Answer::made(alloc, title, Made::Nodes(nodes)))
    }

    /// Adds the lines as they are printed, each after a tag. The only error is out of memory.
    pub(crate) fn push_printed(
        &self,
        alloc: Global,
        style: Style,
        tag: Tag<'_>,
        out: &mut Vec<u8>,
    ) -> Result<(), AllocError>
        ensures { OnOk result (out.new.items ≡ out.old.items ++ printed style (tag_of tag.entry)
            (nodes_below self.now.paths self.now.tree.opening self.now.tree.journal self.now.top self.now.which)) }
    {
        let tree = self.tree.get();
        for index in 0..tree.node_count() {
            let Some(node) = tree.node(index) else {
                unreachable!()
            };
            let lines = self.lines_of(alloc, &node)?;
            push_printed(alloc, out, style, tag, &lines)?;
        }
        Ok(())
    }

    /// The line of a node, where it stands at or below the path, and else nothing.
    fn lines_of(&self, alloc: Global, node: &NodeRef<'_>) -> Result<Vec<Line>, AllocError>
        ensures { IfOk result (λ lines. lines.items ≡ lines_below self.now.paths self.now.tree.opening.mapping
            (replay self.now.tree.opening self.now.tree.journal) self.now.top self.now.which (listed node.now)) }
    {
        if !node.path.as_path_ref().is_within(&self.top.as_path_ref()) {
            return Ok(Vec::new(alloc));
        }
        let tree = self.tree.get();
        match &self.which {
            NodeFilter::All => {
                let Some(descriptor) = tree.descriptor(node.path)? else {
                    return Ok(Vec::new(alloc));
                };
                let path = path_value(alloc, self.paths, node.path)?;
                let values = vec![in alloc; path, Value::descriptor(descriptor)]?;
                alone(alloc, Line::new(alloc, kind_form(node.kind), values)?)
            }
            NodeFilter::Granting { token, asked }
                if grants(tree.check(node.path, token.as_token(), *asked)) => {
                let path = path_word(alloc, self.paths, node.path)?;
                alone(alloc, Line::text(alloc, path)?)
            }
            NodeFilter::Granting { .. } => Ok(Vec::new(alloc)),
        }
    }
}

fn is_split_below(alloc: Global, top: &Path, node: &NodeRef<'_>) -> Result<bool, AllocError>
    ensures { IfOk result (λ is. is ≡ is_split_below top.now (listed node.now)) }
{
    Ok(node.path.as_path_ref().is_within(&top.as_path_ref()) && is_split(alloc, node.path)?)
}

/// Whether the path of some node at or below this one can't be printed.
pub(crate) fn lacks_words(
    alloc: Global,
    paths: PathSpelling,
    tree: &Tree,
    top: &Path,
) -> Result<bool, AllocError>
    ensures { IfOk result
        (λ lacks. lacks ≡ lacks_words paths (replay tree.now.opening tree.now.journal) top.now) }
{
    match paths {
        PathSpelling::Percent => Ok(false),
        PathSpelling::Plain => {
            for index in 0..tree.node_count() {
                let Some(node) = tree.node(index) else {
                    unreachable!()
                };
                if is_split_below(alloc, top, &node)? {
                    return Ok(true);
                }
            }
            Ok(false)
        }
    }
}

/// Whether a check is granted.
pub(crate) fn grants(reply: CheckReply) -> bool
    ensures { result ≡ grants reply }
{
    matches!(reply, CheckReply::Verdict(Verdict::Granted(_)))
}

fn kind_form(kind: NodeKind) -> LineForm
    ensures { form_of result ≡ kind_form kind }
{
    match kind {
        NodeKind::Container => CONTAINER,
        NodeKind::Object => OBJECT,
    }
}
