//! The lines of `lint`: what stands in a descriptor that its author may not have meant.
ghost use Rattle.std.specs.Prelude.{◌≡◌, ◌<◌, ◌^◌, ◌++◌, ◌∷◌, [], IfOk, IfSome, OnOk, length, position};
ghost use Rattle.sd_acl.specs.Ace.{same_ace};
ghost use Rattle.sd_acl.specs.Descriptor.{descriptor_of};
ghost use Rattle.sd_line.specs.Line.{form_of, line_of};
ghost use Rattle.sd_answer.specs.Lint.{AreFindings, entry_lines, entry_values, is_misplaced};
ghost use Rattle.sd_answer.specs.Lint.{is_stranded, list_lines, where_behind, where_so};

use crate::forms::{
    LIMITS_OWNER, NO_DACL, NO_EFFECT, NO_RIGHT, NOT_INHERITED, NULL_DACL, OUT_OF_ORDER, REPEATED,
};
use sd_acl::{Ace, Dacl, Descriptor};
use sd_analysis::{Base, redundant};
use sd_line::{Line, LineForm, Value};
use sd_sid::GenericMapping;
use std::alloc::{AllocError, Global};

/// What is doubtful in a descriptor's DACL, entry by entry, a line for each finding, as `entry 2 (A;;FR;;;BU) has no
/// effect`: no check of a token with the base changes without all entries so reported, of the object and of what is
/// made in it if it is a container ([MS-DTYP] 2.5.3.2, 2.5.3.4). No line where nothing is found. The only error is out
/// of memory.
pub fn lint_lines(
    alloc: Global,
    mapping: &GenericMapping,
    base: &Base<'_>,
    descriptor: &Descriptor,
) -> Result<Vec<Line>, AllocError>
    ensures { IfOk result (λ lines. AreFindings mapping.now base.now (descriptor_of descriptor.now) lines.items) }
{
    match &descriptor.dacl {
        Dacl::Absent => dacl_line(alloc, NO_DACL),
        Dacl::Null => dacl_line(alloc, NULL_DACL),
        Dacl::List(list) => {
            let marks = redundant(alloc, descriptor.owner, list.entries(), mapping, base)?;
            list_lines(alloc, list.entries(), &marks)
        }
    }
}

fn dacl_line(alloc: Global, form: LineForm) -> Result<Vec<Line>, AllocError>
    ensures { IfOk result (λ lines. lines.items ≡ line_of (form_of form.entry) [] ∷ []) }
{
    let line = Line::new(alloc, form, Vec::new(alloc))?;
    let mut lines = Vec::new(alloc);
    lines.push(line)?;
    Ok(lines)
}

/// The lines of these entries, of which the marks say which are redundant.
#[tactic(auto, unfolding(crate::specs::Lint::list_lines))]
fn list_lines(alloc: Global, entries: &[Ace], marks: &[bool]) -> Result<Vec<Line>, AllocError>
    requires { length marks.now ≡ length entries.now }
    ensures { IfOk result (λ lines. lines.items ≡ list_lines entries.now marks.now (length entries.now)) }
{
    let mut lines = Vec::new(alloc);
    for place in 0..entries.len() {
        let (before, entry) = (&entries[..place], &entries[place]);
        push_entry(alloc, &mut lines, before, entry, marks[place])?;
    }
    Ok(lines)
}

/// Adds the findings of the entry that these are before.
#[tactic(auto, unfolding(crate::specs::Lint::entry_lines), using(std::proofs::Common::append_assoc))]
fn push_entry(
    alloc: Global,
    lines: &mut Vec<Line>,
    before: &[Ace],
    entry: &Ace,
    mark: bool,
) -> Result<(), AllocError>
    ensures { OnOk result (lines.new.items ≡ lines.old.items ++ entry_lines before.now entry.now mark) }
{
    let of = Noted {
        alloc,
        place: before.len(),
        entry,
    };
    of.push_behind(lines, first_misplaced(before, entry), OUT_OF_ORDER)?;
    of.push_where(lines, entry.mask.is_empty(), NO_RIGHT)?;
    let stranded = is_stranded(entry);
    of.push_where(lines, stranded, NOT_INHERITED)?;
    of.push_behind(lines, first_repeated(before, entry), REPEATED)?;
    of.push_where(lines, mark && !stranded, NO_EFFECT)?;
    let limits = !entry.is_inherit_only() && entry.sid.is_owner_rights();
    of.push_where(lines, limits, LIMITS_OWNER)
}

/// An entry that lines are about, and how many are before it.
#[derive(Clone, Copy)]
struct Noted<'a> {
    alloc: Global,
    place: usize,
    entry: &'a Ace,
}

impl Noted<'_> {
    /// Which entry it is, counted from 1.
    fn values(&self) -> Result<Vec<Value>, AllocError>
        requires { self.now.place < 2 ^ 63 }
        ensures { IfOk result (λ values. values.items ≡ entry_values self.now.place self.now.entry.now) }
    {
        let number = Value::Number(self.place as u64 + 1);
        Ok(vec![in self.alloc; number, Value::Entry(*self.entry)]?)
    }

    /// Adds the line of what is so of the entry, where it is.
    fn push_where(
        &self,
        lines: &mut Vec<Line>,
        test: bool,
        form: LineForm,
    ) -> Result<(), AllocError>
        requires { self.now.place < 2 ^ 63 }
        ensures { OnOk result (lines.new.items
            ≡ lines.old.items ++ where_so test self.now.place self.now.entry.now (form_of form.entry)) }
    {
        if test {
            let values = self.values()?;
            lines.push(Line::new(self.alloc, form, values)?)?;
        }
        Ok(())
    }

    /// Adds the line of what the entry is to an earlier one, where there is one.
    fn push_behind(
        &self,
        lines: &mut Vec<Line>,
        earlier: Option<usize>,
        form: LineForm,
    ) -> Result<(), AllocError>
        requires place { self.now.place < 2 ^ 63 }
        requires earlier { IfSome earlier (λ place. place < 2 ^ 63) }
        ensures { OnOk result (lines.new.items
            ≡ lines.old.items ++ where_behind earlier self.now.place self.now.entry.now (form_of form.entry)) }
    {
        if let Some(earlier) = earlier {
            let mut values = self.values()?;
            values.push(Value::Number(earlier as u64 + 1))?;
            lines.push(Line::new(self.alloc, form, values)?)?;
        }
        Ok(())
    }
}

/// The first of the entries before this one behind which it is out of canonical order ([MS-DTYP] 2.4.5).
pub fn first_misplaced(before: &[Ace], entry: &Ace) -> Option<usize>
    ensures first { result ≡ position (is_misplaced entry.now) before.now }
    ensures low { IfSome result (λ place. place < 2 ^ 63) }
{
    before.iter().position(|earlier| {
        !entry.is_inherited()
            && (earlier.is_inherited() || (earlier.kind.is_allow() && !entry.kind.is_allow()))
    })
}

/// The first entry that this one repeats.
fn first_repeated(before: &[Ace], entry: &Ace) -> Option<usize>
    ensures first { result ≡ position (same_ace entry.now) before.now }
    ensures low { IfSome result (λ place. place < 2 ^ 63) }
{
    before.iter().position(|earlier| entry.is(earlier))
}

/// Whether the entry waits to be inherited, and nothing inherits it ([MS-DTYP] 2.4.4.1).
fn is_stranded(entry: &Ace) -> bool
    ensures { result ≡ is_stranded entry.now }
{
    entry.is_inherit_only() && !entry.flags.pass_on()
}
