//! A published tree as lines of a script.
ghost use Rattle.std.specs.Prelude.{◌≡◌, ◌++◌, IfOk, OnOk, Some, option_map};
ghost use Rattle.std.specs.Bool.{Decides};
ghost use Rattle.sd_edit.specs.Journal.{replay};
ghost use Rattle.sd_tree.specs.Listing.{listed};
ghost use Rattle.sd_edit.specs.Plain.{row_at};
ghost use Rattle.sd_line.specs.Line.{form_of};
ghost use Rattle.sd_line.specs.Printed.{printed, tag_of};
ghost use Rattle.sd_script.specs.Dump.{IsAskedBy, IsDumpOf, IsReadBack, adding_form, dump_lines, dump_text};
ghost use Rattle.sd_script.specs.Dump.{adding_line, descriptor_of_list, making_line, storing_form, wanted};
ghost use Rattle.sd_script.specs.Paths.{path_word};
ghost use Rattle.sd_edit.specs.Descriptors.{own_descriptor_of_row};
ghost use Rattle.sd_line.specs.declared.line.Value.TheVariants.{Descriptor, Text};

use crate::answer::{Answer, Made};
use crate::fault::LineStop;
use crate::forms::{ADD_STORED_CONTAINER, ADD_STORED_OBJECT};
use crate::line::read_line;
use crate::lines::is_silent;
use crate::paths::path_value;
use crate::reply::plain_line;
use crate::same::is_wanted;
use crate::script_options::{Notation, text_style};
use sd_acl::{AceList, Dacl};
use sd_answer::{ADD_CONTAINER, ADD_OBJECT, OPEN, PUBLISH, fault_line};
use sd_line::{Line, LineForm, Style, Tag, Value, push_printed_line};
use sd_lines::{Ending, first_line};
use sd_tree::{NodeDacl, NodeKind, NodeRef, Shared, Tree};
use std::alloc::{AllocError, Global};

/// The lines that make a tree, with their text, which was read back.
#[derive(Drop)]
pub(crate) struct Dump {
    tree: Shared<Tree>,
    notation: Notation,
    readers: u64,
    text: Vec<u8>,
    ghost text_is: { text.items ≡ dump_text notation readers (replay tree.opening tree.journal) },
}

impl Dump {
    /// Adds the lines as they are printed, each after a tag: their text where that is it, and else they are made once
    /// more. The only error is out of memory.
    pub(crate) fn push_printed(
        &self,
        alloc: Global,
        style: Style,
        tag: Tag<'_>,
        out: &mut Vec<u8>,
    ) -> Result<(), AllocError>
        ensures { OnOk result (out.new.items ≡ out.old.items ++ printed style (tag_of tag.entry) (dump_lines
            self.now.notation.paths self.now.readers (replay self.now.tree.opening self.now.tree.journal))) }
    {
        if matches!(tag, Tag::None) && style == text_style(self.notation.spelling) {
            return out.extend_from_slice(&self.text);
        }
        let dumper = Dumper {
            alloc,
            notation: self.notation,
            readers: self.readers,
            tree: self.tree.get(),
        };
        dumper.push_lines(style, tag, out)
    }
}

/// The lines that make the tree: an opening for so many readers, an addition for each other node, a parent before what
/// it holds, and `publish`. `fault name` where the text of one of them isn't parsed to what makes its node.
pub(crate) fn dump_answer(
    alloc: Global,
    notation: Notation,
    readers: u64,
    tree: Shared<Tree>,
) -> Result<Answer, AllocError>
    ensures { IfOk result (λ answer. IsDumpOf notation readers (replay tree.opening tree.journal) answer) }
{
    let dumper = Dumper {
        alloc,
        notation,
        readers,
        tree: tree.get(),
    };
    let mut text = Vec::new(alloc);
    dumper.push_lines(text_style(notation.spelling), Tag::None, &mut text)?;
    if dumper.is_read_back(&text)? {
        let dump = Dump {
            tree,
            notation,
            readers,
            text,
        };
        let dump = Box::new(alloc, dump)?;
        Ok(Answer::made(alloc, Vec::new(alloc), Made::Dump(dump)))
    } else {
        Answer::alone(alloc, fault_line(alloc, "name")?)
    }
}

/// What dumps a tree for so many readers.
#[derive(Clone, Copy)]
struct Dumper<'a> {
    alloc: Global,
    notation: Notation,
    readers: u64,
    tree: &'a Tree,
}

impl Dumper<'_> {
    /// Adds the lines that make the tree as they are printed, each after a tag.
    fn push_lines(&self, style: Style, tag: Tag<'_>, out: &mut Vec<u8>) -> Result<(), AllocError>
        ensures { OnOk result (out.new.items ≡ out.old.items ++ printed style (tag_of tag.entry) (dump_lines
            self.now.notation.paths self.now.readers
            (replay self.now.tree.now.opening self.now.tree.now.journal))) }
    {
        for index in 0..self.tree.node_count() {
            let Some(node) = self.tree.node(index) else {
                unreachable!()
            };
            let line = self.making_line(&node)?;
            push_printed_line(self.alloc, out, style, tag, &line)?;
        }
        let publish = plain_line(self.alloc, PUBLISH)?;
        push_printed_line(self.alloc, out, style, tag, &publish)?;
        Ok(())
    }

    /// The line that makes a node of the tree: an opening for the root, and else an addition.
    fn making_line(&self, node: &NodeRef<'_>) -> Result<Line, AllocError>
        requires { row_at (replay self.now.tree.now.opening self.now.tree.now.journal) (listed node.now).0
            ≡ Some (listed node.now).1 }
        ensures { IfOk result (λ line. line ≡ making_line self.now.notation.paths self.now.readers (listed node.now)) }
    {
        let Some((_, given)) = self.tree.given(node.path)? else {
            unreachable!()
        };
        let given = Value::descriptor(given);
        if node.path.as_path_ref().is_root() {
            let readers = Value::Number(self.readers);
            return Line::new(self.alloc, OPEN, vec![in self.alloc; readers, given]?);
        }
        let path = path_value(self.alloc, self.notation.paths, node.path)?;
        self.adding_line(node, path, given)
    }

    /// The line that adds a node with this path and this descriptor.
    fn adding_line(&self, node: &NodeRef<'_>, path: Value, given: Value) -> Result<Line, AllocError>
        requires path { path ≡ Text (path_word self.now.notation.paths (listed node.now).0) }
        requires given { given ≡ Descriptor (own_descriptor_of_row (listed node.now).1) }
        ensures { IfOk result
            (λ line. line ≡ adding_line self.now.notation.paths (listed node.now) node.now.dacl.now) }
    {
        let alloc = self.alloc;
        match node.dacl {
            NodeDacl::Stored {
                inherited,
                offer,
                ..
            } => {
                let inherited = list_value(alloc, inherited)?;
                let offer = list_value(alloc, offer)?;
                let values = vec![in alloc; path, given, inherited, offer]?;
                Line::new(alloc, storing_form(node.kind), values)
            }
            _ => Line::new(alloc, adding_form(node.kind), vec![in alloc; path, given]?),
        }
    }

    /// Whether the text is parsed to what makes the tree, line by line, and a publish. Only for the first line no store
    /// is open.
    fn is_read_back(&self, text: &[u8]) -> Result<bool, AllocError>
        ensures { IfOk result (λ is. Decides is (IsReadBack self.now.notation self.now.readers
            (replay self.now.tree.now.opening self.now.tree.now.journal) text.now)) }
    {
        let mut rest = text;
        for index in 0..=self.tree.node_count() {
            if rest.is_empty() {
                return Ok(false);
            }
            let (line, after) = first_line(Ending::Feed, rest);
            let node = self.tree.node(index);
            if !self.is_read_as(index > 0, line, &node)? {
                return Ok(false);
            }
            rest = after;
        }
        Ok(rest.is_empty())
    }

    /// Whether a line is parsed to what makes the node, or to a publish after the last one.
    fn is_read_as(
        &self,
        is_open: bool,
        line: &[u8],
        node: &Option<NodeRef<'_>>,
    ) -> Result<bool, AllocError>
        ensures { IfOk result (λ is. Decides is
            (IsAskedBy self.now.notation is_open line.now (wanted self.now.readers (option_map listed node.now)))) }
    {
        if is_silent(line) {
            return Ok(false);
        }
        match read_line(self.alloc, self.notation, is_open, line) {
            Ok(asked) => is_wanted(self.alloc, &asked, self.readers, node),
            Err(LineStop::Fault(_)) => Ok(false),
            Err(LineStop::Memory) => Err(AllocError),
        }
    }
}

fn adding_form(kind: NodeKind) -> LineForm
    ensures { form_of result ≡ adding_form kind }
{
    match kind {
        NodeKind::Container => ADD_CONTAINER,
        NodeKind::Object => ADD_OBJECT,
    }
}

fn storing_form(kind: NodeKind) -> LineForm
    ensures { form_of result ≡ storing_form kind }
{
    match kind {
        NodeKind::Container => ADD_STORED_CONTAINER,
        NodeKind::Object => ADD_STORED_OBJECT,
    }
}

/// A list, as a descriptor.
fn list_value(alloc: Global, list: &AceList) -> Result<Value, AllocError>
    ensures { IfOk result (λ value. value ≡ Descriptor (descriptor_of_list list.now)) }
{
    Ok(Value::descriptor(sd_acl::Descriptor {
        owner: None,
        group: None,
        dacl: Dacl::List(list.copy(alloc)?),
        protected: false,
        auto_req: false,
        auto_inherited: false,
    }))
}
