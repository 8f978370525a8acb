//! The findings in a whole DACL.

ghost use Rattle.std.specs.Prelude.{◌≡◌, ◌<◌, ◌^◌, ◌++◌, ◌∷◌, [], IfOk, IfSome, OnOk, Some, length, position};
ghost use Rattle.std.specs.Prelude.{slice_get};
ghost use Rattle.sd_acl.specs.Descriptor.{descriptor_of};
ghost use Rattle.sd_line.specs.Line.{form_of, line_of};
ghost use Rattle.sd_show.specs.Same.{same_entry};
ghost use Rattle.sd_answer.specs.Lint.{is_stranded};
ghost use Rattle.sd_check.specs.Check.{is_limit};
ghost use Rattle.sd_specialize.specs.Entry.{allows_type, is_asked};
ghost use Rattle.std.specs.Str.{bytes_eq};
ghost use Rattle.sd_whole_lint.specs.Findings.{AreWholeFindings, belongs_before, entry_lines, entry_values, has_part};
ghost use Rattle.sd_whole_lint.specs.Findings.{is_asked_about, is_lost, is_useless, lines_at, list_lines};
ghost use Rattle.sd_whole_lint.specs.Findings.{names_no_right, where_behind, where_so, whole_entries};

use crate::entry_text::entry_value;
use crate::forms::{
    LIMITS_OWNER, NO_DACL, NO_EFFECT, NO_RIGHT, NOT_INHERITED, NULL_DACL, OUT_OF_ORDER, REPEATED,
};
use sd_acl::{Ace, Dacl, Descriptor};
use sd_analysis::{Base, redundant};
use sd_line::{Line, LineForm, Value};
use sd_show::same_entry;
use sd_sid::GenericMapping;
use sd_text::RightNames;
use sd_whole::{Guid, TypedAce, WholeAce, WholeAcl, WholeKind};
use std::alloc::{AllocError, Global};

/// How a whole list is looked at.
#[derive(Clone, Copy)]
pub struct WholeView<'a> {
    /// The names of rights in its entries.
    pub names: RightNames,
    /// The object types asked about, from the class on. Empty: the question is about the whole object.
    pub chain: &'a [Guid],
    /// What the generic rights stand for.
    pub mapping: &'a GenericMapping,
}

/// What is doubtful in a whole DACL ([MS-DTYP] 2.4.5), entry by entry, a line for each finding, as
/// `entry 2 (OA;;CR;;;BU) has no effect`. The descriptor is the plain one that it is whoever asks (2.5.3.2), with
/// markers for conditions: without all entries that have none, no check of a token with the base changes. No line
/// where nothing is found. The only error is out of memory.
pub fn whole_lint_lines(
    alloc: Global,
    view: WholeView<'_>,
    base: &Base<'_>,
    whole: &WholeAcl,
    descriptor: &Descriptor,
) -> Result<Vec<Line>, AllocError>
    ensures { IfOk result (λ lines. AreWholeFindings view.entry.names view.entry.chain.now view.entry.mapping.now
        base.now whole.now (descriptor_of descriptor.now) lines.items) }
{
    match &descriptor.dacl {
        Dacl::Absent => dacl_line(alloc, NO_DACL),
        Dacl::Null => dacl_line(alloc, NULL_DACL),
        Dacl::List(list) => {
            let (owner, entries) = (descriptor.owner, list.entries());
            let marks = redundant(alloc, owner, entries, view.mapping, base)?;
            list_lines(alloc, view, whole_entries(whole), entries, &marks)
        }
    }
}

fn dacl_line(alloc: Global, form: LineForm) -> Result<Vec<Line>, AllocError>
    ensures { IfOk result (λ lines. lines.items ≡ line_of (form_of form.entry) [] ∷ []) }
{
    let line = Line::new(alloc, form, Vec::new(alloc))?;
    Ok(vec![in alloc; line]?)
}

/// The entries of a list; none where there is no list ([MS-DTYP] 2.4.5).
pub fn whole_entries(acl: &WholeAcl) -> &[WholeAce]
    ensures { result.now ≡ whole_entries acl.now }
{
    match acl {
        WholeAcl::Absent | WholeAcl::Null => &[],
        WholeAcl::List(list) => list.entries(),
    }
}

/// The lines of these entries, of whose plain ones the marks say which are redundant.
#[tactic(auto, unfolding(crate::specs::Findings::list_lines))]
fn list_lines(
    alloc: Global,
    view: WholeView<'_>,
    wholes: &[WholeAce],
    entries: &[Ace],
    marks: &[bool],
) -> Result<Vec<Line>, AllocError>
    requires { length marks.now ≡ length entries.now }
    ensures { IfOk result (λ lines. lines.items ≡ list_lines view.entry.names view.entry.chain.now wholes.now
        entries.now marks.now (length entries.now)) }
{
    let mut lines = Vec::new(alloc);
    for place in 0..entries.len() {
        push_at(
            alloc,
            &mut lines,
            view,
            wholes,
            place,
            &entries[place],
            marks[place],
        )?;
    }
    Ok(lines)
}

/// Adds the findings of the entry at the place, if there is one.
fn push_at(
    alloc: Global,
    lines: &mut Vec<Line>,
    view: WholeView<'_>,
    wholes: &[WholeAce],
    place: usize,
    entry: &Ace,
    mark: bool,
) -> Result<(), AllocError>
    ensures { OnOk result (lines.new.items ≡ lines.old.items ++ lines_at view.entry.names view.entry.chain.now
        wholes.now place (slice_get wholes.now place) (Some entry.now) mark) }
{
    match wholes.get(place) {
        Some(whole) => push_entry(alloc, lines, view, &wholes[..place], whole, entry, mark),
        None => Ok(()),
    }
}

/// Adds the findings of the entry that these are before, by the plain one that it is.
#[tactic(auto, unfolding(crate::specs::Findings::entry_lines), using(std::proofs::Common::append_assoc))]
fn push_entry(
    alloc: Global,
    lines: &mut Vec<Line>,
    view: WholeView<'_>,
    before: &[WholeAce],
    whole: &WholeAce,
    entry: &Ace,
    mark: bool,
) -> Result<(), AllocError>
    ensures { OnOk result (lines.new.items ≡ lines.old.items
        ++ entry_lines view.entry.names view.entry.chain.now before.now whole.now entry.now mark) }
{
    let of = Noted {
        alloc,
        names: view.names,
        place: before.len(),
        entry: whole,
    };
    let lost = is_lost(view.chain, whole, entry);
    let useless = is_useless(view.chain, whole, entry, mark);
    of.push_behind(lines, first_behind(before, whole), OUT_OF_ORDER)?;
    of.push_where(lines, names_no_right(whole), NO_RIGHT)?;
    of.push_where(lines, lost, NOT_INHERITED)?;
    of.push_behind(lines, first_repeated(before, whole), REPEATED)?;
    of.push_where(lines, useless, NO_EFFECT)?;
    of.push_where(lines, is_limit(entry), LIMITS_OWNER)
}

/// An entry that lines are about, and how many are before it.
#[derive(Clone, Copy)]
struct Noted<'a> {
    alloc: Global,
    names: RightNames,
    place: usize,
    entry: &'a WholeAce,
}

impl Noted<'_> {
    /// Which entry it is, counted from 1.
    fn values(&self) -> Result<Vec<Value>, AllocError>
        requires { self.now.place < 2 ^ 63 }
        ensures { IfOk result
            (λ values. values.items ≡ entry_values self.now.names self.now.place self.now.entry.now) }
    {
        let number = Value::Number(self.place as u64 + 1);
        let entry = entry_value(self.alloc, self.names, self.entry)?;
        Ok(vec![in self.alloc; number, entry]?)
    }

    /// Adds the line of what is so of the entry, where it is.
    fn push_where(
        &self,
        lines: &mut Vec<Line>,
        test: bool,
        form: LineForm,
    ) -> Result<(), AllocError>
        requires { self.now.place < 2 ^ 63 }
        ensures { OnOk result (lines.new.items ≡ lines.old.items
            ++ where_so self.now.names test self.now.place self.now.entry.now (form_of form.entry)) }
    {
        if test {
            let values = self.values()?;
            lines.push(Line::new(self.alloc, form, values)?)?;
        }
        Ok(())
    }

    /// Adds the line of what the entry is to an earlier one, where there is one.
    fn push_behind(
        &self,
        lines: &mut Vec<Line>,
        earlier: Option<usize>,
        form: LineForm,
    ) -> Result<(), AllocError>
        requires place { self.now.place < 2 ^ 63 }
        requires earlier { IfSome earlier (λ place. place < 2 ^ 63) }
        ensures { OnOk result (lines.new.items ≡ lines.old.items
            ++ where_behind self.now.names earlier self.now.place self.now.entry.now (form_of form.entry)) }
    {
        if let Some(earlier) = earlier {
            let mut values = self.values()?;
            values.push(Value::Number(earlier as u64 + 1))?;
            lines.push(Line::new(self.alloc, form, values)?)?;
        }
        Ok(())
    }
}

// ---- of the whole entries themselves

/// The first of the entries before this one behind which it is out of canonical order ([MS-DTYP] 2.4.5).
fn first_behind(before: &[WholeAce], entry: &WholeAce) -> Option<usize>
    ensures first { result ≡ position (belongs_before entry.now) before.now }
    ensures low { IfSome result (λ place. place < 2 ^ 63) }
{
    let own = entry.rank();
    before.iter().position(|earlier| own < earlier.rank())
}

/// The first entry that this one repeats.
fn first_repeated(before: &[WholeAce], entry: &WholeAce) -> Option<usize>
    ensures first { result ≡ position (same_entry entry.now) before.now }
    ensures low { IfSome result (λ place. place < 2 ^ 63) }
{
    before.iter().position(|earlier| same_entry(entry, earlier))
}

fn names_no_right(entry: &WholeAce) -> bool
    ensures { result ≡ names_no_right entry.now }
{
    match entry {
        WholeAce::Plain(ace) => ace.mask.is_empty(),
        WholeAce::Typed(ace) => ace.mask.is_empty(),
        WholeAce::Opaque(_) => false,
    }
}

// ---- for the question

/// Whether the entry waits to be inherited, and nothing inherits it ([MS-DTYP] 2.4.4.1), not even for another object
/// type.
fn is_lost(chain: &[Guid], whole: &WholeAce, entry: &Ace) -> bool
    ensures { result ≡ is_lost chain.now whole.now entry.now }
{
    has_part(chain, whole) && is_stranded(entry)
}

/// Whether the entry is redundant, as its mark says, and not because nothing inherits it, nor for its object type
/// alone.
fn is_useless(chain: &[Guid], whole: &WholeAce, entry: &Ace, mark: bool) -> bool
    ensures { result ≡ is_useless chain.now whole.now entry.now mark }
{
    mark && !is_stranded(entry) && has_part(chain, whole)
}

fn is_stranded(entry: &Ace) -> bool
    ensures { result ≡ is_stranded entry.now }
{
    entry.is_inherit_only() && !entry.flags.pass_on()
}

fn is_limit(entry: &Ace) -> bool
    ensures { result ≡ is_limit entry.now }
{
    !entry.is_inherit_only() && entry.sid.is_owner_rights()
}

/// Whether the entry isn't for another object type ([MS-DTYP] 2.5.3.2).
fn has_part(chain: &[Guid], entry: &WholeAce) -> bool
    ensures { result ≡ has_part chain.now entry.now }
{
    match entry {
        WholeAce::Typed(ace) => is_asked_about(chain, ace),
        WholeAce::Plain(_) | WholeAce::Opaque(_) => true,
    }
}

fn is_asked_about(chain: &[Guid], ace: &TypedAce) -> bool
    ensures { result ≡ is_asked_about ace.now.kind chain.now ace.now }
{
    match ace.kind {
        WholeKind::ObjectAllow | WholeKind::CallbackObjectAllow => {
            is_of(chain, ace.types.object)
        }
        WholeKind::ObjectDeny | WholeKind::CallbackObjectDeny => {
            chain.is_empty() || is_of(chain, ace.types.object)
        }
        _ => true,
    }
}

/// Whether the object type, if there is one, is one of those asked about.
fn is_of(chain: &[Guid], object: Option<Guid>) -> bool
    ensures { result ≡ allows_type chain.now object }
{
    match object {
        None => true,
        Some(object) => is_asked(chain, object),
    }
}

fn is_asked(chain: &[Guid], object: Guid) -> bool
    ensures { result ≡ is_asked chain.now object }
{
    chain.iter().any(|asked| same_guid(asked, &object))
}

fn same_guid(one: &Guid, other: &Guid) -> bool
    ensures { result ≡ bytes_eq one.now.bytes other.now.bytes }
{
    one.as_slice() == other.as_slice()
}
