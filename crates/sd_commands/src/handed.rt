//! From which entries what is made in a container inherits, as `compare` looks at it, and what changes of it.
ghost use Rattle.std.specs.Prelude.{◌≡◌, IfOk, map, option_map};
ghost use Rattle.sd_acl.specs.Descriptor.{DescriptorValue, descriptor_of};
ghost use Rattle.sd_commands.specs.Chain.{types_of};
ghost use Rattle.sd_commands.specs.Conditions.{shown_by};
ghost use Rattle.sd_commands.specs.Handed.{AreChildLines, AreDescendantLines, AreLinesOfEach, ChildrenAreLeftOut};
ghost use Rattle.sd_commands.specs.Handed.{child_context, children_left_out, children_of, class_of, handed_below};
ghost use Rattle.sd_commands.specs.Handed.{handed_in, handed_of, handed_or, handed_to, handed_to_of, headed};
ghost use Rattle.sd_commands.specs.Handed.{lent_handed, lists_below, marks_below, of_child, types_below};
ghost use Rattle.sd_commands.specs.declared.handed.Children.TheVariants.{OfClass};
ghost use Rattle.sd_specialize.specs.Children.{handed_entries};
ghost use Rattle.sd_specialize.specs.Marked.{lent_marks};

use crate::forms::{OBJECT_ALONE, OF_CLASS, OF_OTHERS};
use crate::settings::{CommandContext, Settings};
use sd_acl::{Ace, Descriptor};
use sd_analysis::{Base, compare_descendants};
use sd_answer::{entries_in, push_descendants};
use sd_line::{Line, Part, Value};
use sd_show::same_acl;
use sd_specialize::{
    Conditions, Context, handed_classes, handed_conditionals, handed_entries, leaves_out_children,
};
use sd_whole::{Guid, TypedAce, WholeAcl};
use sd_whole_text::print_guid;
use std::alloc::{AllocError, Global};

/// What is made in a container, by its class ([MS-DTYP] 2.4.4.3).
#[derive(Clone, Copy)]
pub(crate) enum Children {
    /// No entry names a class.
    All,
    /// A class that an entry names.
    OfClass(Guid),
    /// The classes that none names.
    OfOthers,
}

/// The entries of OLD and of NEW from which these children inherit ([MS-DTYP] 2.5.3.4).
#[derive(Drop)]
pub(crate) struct HandedTo {
    pub(crate) children: Children,
    pub(crate) old: Vec<Ace>,
    pub(crate) new: Vec<Ace>,
}

/// The entries from which what is made in a container inherits, and the conditions for which markers stand in them.
#[derive(Drop)]
pub(crate) struct Handed<'a> {
    pub(crate) lists: Vec<HandedTo>,
    pub(crate) marks: Vec<&'a TypedAce>,
}

impl CommandContext<'_> {
    /// What children inherit from two DACLs; an object has no children.
    pub(crate) fn handed_in<'a>(
        &self,
        is_left: bool,
        old: &'a WholeAcl,
        new: &'a WholeAcl,
    ) -> Result<Option<Handed<'a>>, AllocError>
        ensures { IfOk result (λ handed. option_map handed_of handed
            ≡ handed_in self.now.settings.now is_left old.now new.now) }
    {
        if self.settings.object {
            return Ok(None);
        }
        Ok(Some(self.handed_below(is_left, old, new)?))
    }

    fn handed_below<'a>(
        &self,
        is_left: bool,
        old: &'a WholeAcl,
        new: &'a WholeAcl,
    ) -> Result<Handed<'a>, AllocError>
        ensures { IfOk result (λ handed. handed_of handed
            ≡ handed_below self.now.settings.now is_left old.now new.now) }
    {
        let marks = self.marks_below(old, new)?;
        if is_left {
            let lists = Vec::new(self.alloc);
            return Ok(Handed { lists, marks });
        }
        let lists = self.lists_below(&marks, old, new)?;
        Ok(Handed { lists, marks })
    }

    /// The entries with a condition of two lists, and then those that are passed on, for each of which stands a marker.
    fn marks_below<'a>(
        &self,
        old: &'a WholeAcl,
        new: &'a WholeAcl,
    ) -> Result<Vec<&'a TypedAce>, AllocError>
        ensures { IfOk result (λ marks. lent_marks marks.items ≡ marks_below old.now new.now) }
    {
        let mut marks = self.marks_of(old, new)?;
        let mut handed = handed_conditionals(self.alloc, old)?;
        let mut others = handed_conditionals(self.alloc, new)?;
        handed.append(&mut others)?;
        marks.append(&mut handed)?;
        Ok(marks)
    }

    /// What children of each class inherit.
    fn lists_below(
        &self,
        marks: &[&TypedAce],
        old: &WholeAcl,
        new: &WholeAcl,
    ) -> Result<Vec<HandedTo>, AllocError>
        ensures { IfOk result (λ lists. map handed_to_of lists.items
            ≡ lists_below self.now.settings.now (lent_marks marks.now) old.now new.now) }
    {
        let classes = handed_classes(self.alloc, old, new)?;
        let all = children_of(self.alloc, &classes)?;
        let mut lists = Vec::with_capacity(self.alloc, all.len())?;
        for children in &all {
            lists.push(self.handed_to(*children, marks, old, new)?)?;
        }
        Ok(lists)
    }

    fn handed_to(
        &self,
        children: Children,
        marks: &[&TypedAce],
        old: &WholeAcl,
        new: &WholeAcl,
    ) -> Result<HandedTo, AllocError>
        ensures { IfOk result (λ handed. handed_to_of handed
            ≡ handed_to self.now.settings.now (lent_marks marks.now) old.now new.now children) }
    {
        let old = self.handed_entries(children, marks, old)?;
        let new = self.handed_entries(children, marks, new)?;
        Ok(HandedTo { children, old, new })
    }

    /// The entries of a DACL for these children, by the object types asked about of them.
    fn handed_entries(
        &self,
        children: Children,
        marks: &[&TypedAce],
        acl: &WholeAcl,
    ) -> Result<Vec<Ace>, AllocError>
        ensures { IfOk result (λ entries. entries.items ≡ handed_entries (class_of children)
            (child_context self.now.settings.now children) (lent_marks marks.now) acl.now) }
    {
        let class = children.class();
        let chain = self.types_below(class)?;
        let context = Context {
            conditions: Conditions::Unknown,
            chain: &chain,
            principal_self: self.settings.principal_self,
        };
        handed_entries(self.alloc, class, &context, marks, acl)
    }

    /// The object types that a child is asked about ([MS-DTYP] 2.5.3.2).
    fn types_below(&self, class: Option<Guid>) -> Result<Vec<Guid>, AllocError>
        ensures { IfOk result
            (λ types. types.items ≡ types_below class (types_of self.now.settings.now.chain)) }
    {
        let asked = self.settings.chain.types();
        let mut types = Vec::new(self.alloc);
        if asked.is_empty() {
            return Ok(types);
        }
        if let Some(class) = class {
            types.push(class)?;
        }
        types.extend_from_slice(asked)?;
        Ok(types)
    }

    /// What they gain and lose of all that is made in it, if it is a container.
    pub(crate) fn changes_below(
        &self,
        old: &Descriptor,
        new: &Descriptor,
        marks: &[&TypedAce],
        handed: Option<&Handed<'_>>,
        base: &Base<'_>,
    ) -> Result<Vec<Line>, AllocError>
        ensures { IfOk result (λ lines. AreDescendantLines self.now.settings.now
            (handed_or (lent_handed handed.entry) (lent_marks marks.now) (descriptor_of old.now)
            (descriptor_of new.now)) base.now lines.items) }
    {
        match handed {
            Some(handed) => self.changes_of_each(&handed.lists, &handed.marks, base),
            None => self.child_changes(
                Children::All,
                entries_in(&old.dacl),
                entries_in(&new.dacl),
                marks,
                base,
            ),
        }
    }

    /// What they gain and lose of children of each class.
    fn changes_of_each(
        &self,
        lists: &[HandedTo],
        marks: &[&TypedAce],
        base: &Base<'_>,
    ) -> Result<Vec<Line>, AllocError>
        ensures { IfOk result (λ lines. AreLinesOfEach self.now.settings.now (lent_marks marks.now)
            (map handed_to_of lists.now) base.now lines.items) }
    {
        let [handed, more @ ..] = lists else {
            return Ok(Vec::new(self.alloc));
        };
        let (old, new) = (&handed.old, &handed.new);
        let mut lines = self.child_changes(handed.children, old, new, marks, base)?;
        let mut others = self.changes_of_each(more, marks, base)?;
        lines.append(&mut others)?;
        Ok(lines)
    }

    fn child_changes(
        &self,
        children: Children,
        old: &[Ace],
        new: &[Ace],
        marks: &[&TypedAce],
        base: &Base<'_>,
    ) -> Result<Vec<Line>, AllocError>
        ensures { IfOk result (λ lines. AreChildLines self.now.settings.now (lent_marks marks.now)
            (record { children = children; old = old.now; new = new.now }) base.now lines.items) }
    {
        let changes = compare_descendants(self.alloc, old, new, &self.settings.mapping, base)?;
        let mut lines = Vec::new(self.alloc);
        push_descendants(self.alloc, &mut lines, &changes)?;
        let lines = self.shown_of_child(marks, lines)?;
        children.head_lines(self.alloc, lines)
    }

    /// The lines of a child, with these conditions in the place of their markers: PRINCIPAL SELF is the child's own.
    fn shown_of_child(&self, marks: &[&TypedAce], lines: Vec<Line>) -> Result<Vec<Line>, AllocError>
        ensures { IfOk result (λ shown. shown.items
            ≡ shown_by (of_child self.now.settings.now) (lent_marks marks.now) lines.items) }
    {
        let settings = Settings {
            principal_self: None,
            ..*self.settings
        };
        let of_child = CommandContext {
            alloc: self.alloc,
            settings: &settings,
        };
        of_child.shown_by(marks, lines)
    }
}

/// What is made in a container, where entries name these classes.
fn children_of(alloc: Global, classes: &[Guid]) -> Result<Vec<Children>, AllocError>
    ensures { IfOk result (λ all. all.items ≡ children_of classes.now) }
{
    if classes.is_empty() {
        return Ok(vec![in alloc; Children::All]?);
    }
    let mut all = of_classes(alloc, classes)?;
    all.push(Children::OfOthers)?;
    Ok(all)
}

fn of_classes(alloc: Global, classes: &[Guid]) -> Result<Vec<Children>, AllocError>
    ensures { IfOk result (λ all. all.items ≡ map OfClass classes.now) }
{
    classes.iter().map(of_class).collect(alloc)
}

fn of_class(class: &Guid) -> Children
    ensures { result ≡ OfClass class.now }
{
    Children::OfClass(*class)
}

impl Children {
    fn class(self) -> Option<Guid>
        ensures { result ≡ class_of self }
    {
        match self {
            Children::OfClass(class) => Some(class),
            Children::All | Children::OfOthers => None,
        }
    }

    /// The lines, each of which says which children they are, where entries name classes.
    pub(crate) fn head_lines(self, alloc: Global, lines: Vec<Line>) -> Result<Vec<Line>, AllocError>
        ensures { IfOk result (λ all. all.items ≡ map (headed self) lines.items) }
    {
        let mut all = Vec::with_capacity(alloc, lines.len())?;
        for line in lines {
            all.push(self.head_line(alloc, line)?)?;
        }
        Ok(all)
    }

    fn head_line(self, alloc: Global, line: Line) -> Result<Line, AllocError>
        ensures { IfOk result (λ more. more ≡ headed self line) }
    {
        match self {
            Children::All => Ok(line),
            Children::OfClass(class) => {
                let class = Value::text(print_guid(alloc, &class)?);
                line.with_head(Part::new(OF_CLASS, vec![in alloc; class]?))
            }
            Children::OfOthers => line.with_head(Part::word(alloc, OF_OTHERS, "other")?),
        }
    }
}

/// Whether what children inherit is left out: it doesn't follow from plain entries ([MS-DTYP] 2.5.3.4), and the DACLs
/// aren't one.
pub(crate) fn children_are_left_out(old: &WholeAcl, new: &WholeAcl) -> bool
    ensures { ChildrenAreLeftOut result old.now new.now }
{
    let same = same_acl(old, new);
    leaves_out_children(old, new) && !same
}

/// The line of an answer that leaves it out.
pub(crate) fn children_left_out(alloc: Global, is_left: bool) -> Result<Vec<Line>, AllocError>
    ensures { IfOk result (λ lines. lines.items ≡ children_left_out is_left) }
{
    if !is_left {
        return Ok(Vec::new(alloc));
    }
    let line = Line::new(alloc, OBJECT_ALONE, Vec::new(alloc))?;
    Ok(vec![in alloc; line]?)
}

/// The conditions for which markers stand: those of what is made in a container, where these are given.
pub(crate) fn marks_in<'a>(
    handed: Option<&'a Handed<'a>>,
    marks: &'a [&'a TypedAce],
) -> &'a [&'a TypedAce]
    ensures { (old new : DescriptorValue) → lent_marks result.now
        ≡ (handed_or (lent_handed handed.entry) (lent_marks marks.now) old new).marks }
{
    match handed {
        Some(handed) => &handed.marks,
        None => marks,
    }
}
