//! Lines of bits: those of which the same is said are in one, and the lines are in the order of their lowest bits.
ghost use Rattle.std.specs.Prelude.{◌≡◌, ◌++◌, IfOk, OnOk};
ghost use Rattle.std.specs.List.{position};
ghost use Rattle.sd_answer.specs.Lines.{bits_form, bits_line, bits_lines, joined, lines_at, made_part};
ghost use Rattle.sd_answer.specs.Lines.{made_parts};
ghost use Rattle.sd_answer.specs.Lines.{owner_parts, same_saying, same_sids, same_whom, sids_parts, value_of, values};
ghost use Rattle.sd_answer.specs.Lines.{whom_value};

use crate::forms::{AS_THE, BELOW_NEW, BitsForm, NEW};
use sd_analysis::Descendant;
use sd_line::{Line, Part, SidMark, Value};
use sd_sid::{Mask, Sid};
use std::alloc::{AllocError, Global};
use std::marker::Model;

/// The places of a mask's bits ([MS-DTYP] 2.4.3).
const PLACES: u32 = 32;

/// Whom something is said of.
#[derive(Clone, Copy)]
pub(crate) enum Whom {
    Everyone,
    Nobody,
    Sid(Sid),
    /// The owner, who needs no entry.
    Owner(Sid),
}

/// What a line says of its bits. Contracts see the two.
#[derive(Drop)]
pub(crate) struct Saying {
    whom: Whom,
    sids: Vec<(Sid, SidMark)>,
}

impl Model for Saying {
    ghost use Rattle.std.specs.Prelude.{List};
    ghost use Rattle.sd_sid.specs.Sid.{SidValue};
    ghost use Rattle.sd_line.specs.declared.line.SidMark.{SidMark};
    ghost use Rattle.sd_answer.specs.declared.lines.Whom.{Whom};

    ghost Value = { Whom × List (SidValue × SidMark) };

    ghost view = { λ s. (s.whom, s.sids.items) };
}

impl Saying {
    pub(crate) fn new(whom: Whom, sids: Vec<(Sid, SidMark)>) -> Saying
        ensures { result ≡ (whom, sids.items) }
    {
        Saying { whom, sids }
    }

    /// Whether both say the same.
    fn is(&self, other: &Saying) -> bool
        ensures { result ≡ same_saying self.now other.now }
    {
        same_whom(&self.whom, &other.whom) && same_sids(&self.sids, &other.sids)
    }
}

fn same_whom(one: &Whom, other: &Whom) -> bool
    ensures { result ≡ same_whom one.now other.now }
{
    match (one, other) {
        (Whom::Everyone, Whom::Everyone) | (Whom::Nobody, Whom::Nobody) => true,
        (Whom::Sid(one), Whom::Sid(other)) | (Whom::Owner(one), Whom::Owner(other)) => {
            one.is(other)
        }
        _ => false,
    }
}

fn same_sids(some: &[(Sid, SidMark)], others: &[(Sid, SidMark)]) -> bool
    ensures { result ≡ same_sids some.now others.now }
{
    let [one, some @ ..] = some else {
        return others.is_empty();
    };
    let [other, others @ ..] = others else {
        return false;
    };
    one.0.is(&other.0) && one.1 == other.1 && same_sids(some, others)
}

/// Bits, and what their line says of them.
#[derive(Drop)]
pub(crate) struct BitsLine {
    pub(crate) mask: Mask,
    pub(crate) said: Saying,
}

/// Adds bits, to those of which the same is said, if there are any.
pub(crate) fn join(lines: &mut Vec<BitsLine>, mask: Mask, said: Saying) -> Result<(), AllocError>
    ensures { OnOk result (values lines.new.items ≡ joined (values lines.old.items) mask said) }
{
    match place_of(lines, &said) {
        Some(place) => {
            let mask = lines[place].mask.union(mask);
            lines[place] = BitsLine { mask, said };
        }
        None => lines.push(BitsLine { mask, said })?,
    }
    Ok(())
}

/// The line that says this, if there is one.
fn place_of(lines: &[BitsLine], said: &Saying) -> Option<usize>
    ensures { result ≡ position (λ (one : BitsLine). same_saying one.said said.now) lines.now }
{
    lines.iter().position(|one| one.said.is(said))
}

/// How lines of bits are written.
#[derive(Clone, Copy)]
pub(crate) struct BitsWriter {
    pub(crate) alloc: Global,
    pub(crate) form: BitsForm,
    /// What is made in a container, where the lines are about that.
    pub(crate) made: Option<Descendant>,
}

impl BitsWriter {
    /// Adds the lines.
    #[tactic(auto, unfolding(crate::specs::Lines::lines_below), using(std::proofs::Common::append_assoc))]
    pub(crate) fn push_lines(
        &self,
        out: &mut Vec<Line>,
        lines: &[BitsLine],
    ) -> Result<(), AllocError>
        ensures { OnOk result (out.new.items
            ≡ out.old.items ++ bits_lines (bits_form self.now.form) self.now.made (values lines.now)) }
    {
        for place in 0..PLACES {
            self.push_lines_at(out, lines, place)?;
        }
        Ok(())
    }

    /// Adds those whose lowest bit is at the place.
    fn push_lines_at(
        &self,
        out: &mut Vec<Line>,
        lines: &[BitsLine],
        place: u32,
    ) -> Result<(), AllocError>
        ensures { OnOk result (out.new.items
            ≡ out.old.items ++ lines_at (bits_form self.now.form) self.now.made (values lines.now) place) }
    {
        for line in lines {
            if line.mask.bits().trailing_zeros() == place {
                out.push(self.line(line)?)?;
            }
        }
        Ok(())
    }

    fn line(&self, line: &BitsLine) -> Result<Line, AllocError>
        ensures { IfOk result
            (λ line'. line' ≡ bits_line (bits_form self.now.form) self.now.made (value_of line.now)) }
    {
        let (kind, kind_below, words, list) = self.form;
        let mut parts = Vec::new(self.alloc);
        push_made(self.alloc, &mut parts, self.made)?;
        let whom = whom_value(self.alloc, &line.said.whom)?;
        let values = vec![in self.alloc; Value::Mask(line.mask), whom]?;
        parts.push(Part::new(words, values))?;
        self.push_owner(&mut parts, &line.said.whom)?;
        self.push_sids(&mut parts, list, &line.said.sids)?;
        let kind = if self.made.is_some() {
            kind_below
        } else {
            kind
        };
        Ok(Line::of(kind, parts))
    }

    /// Adds that it is the owner.
    fn push_owner(&self, parts: &mut Vec<Part>, whom: &Whom) -> Result<(), AllocError>
        ensures { OnOk result (parts.new.items ≡ parts.old.items ++ owner_parts whom.now) }
    {
        if let Whom::Owner(_) = whom {
            parts.push(Part::word(self.alloc, AS_THE, "owner")?)?;
        }
        Ok(())
    }

    /// Adds the SIDs, where there are some.
    fn push_sids(
        &self,
        parts: &mut Vec<Part>,
        form: &'static str,
        sids: &[(Sid, SidMark)],
    ) -> Result<(), AllocError>
        ensures { OnOk result (parts.new.items ≡ parts.old.items ++ sids_parts form.now sids.now) }
    {
        if !sids.is_empty() {
            let sids = Value::sids(Vec::from_slice(self.alloc, sids)?);
            parts.push(Part::new(form, vec![in self.alloc; sids]?))?;
        }
        Ok(())
    }
}

fn whom_value(alloc: Global, whom: &Whom) -> Result<Value, AllocError>
    ensures { IfOk result (λ value. value ≡ whom_value whom.now) }
{
    match whom {
        Whom::Everyone => Value::word(alloc, "everyone"),
        Whom::Nobody => Value::word(alloc, "nobody"),
        Whom::Sid(sid) | Whom::Owner(sid) => Ok(Value::Sid(*sid)),
    }
}

/// Adds what is made in a container, where the line is about that. The only error is out of memory.
pub fn push_made(
    alloc: Global,
    parts: &mut Vec<Part>,
    made: Option<Descendant>,
) -> Result<(), AllocError>
    ensures { OnOk result (parts.new.items ≡ parts.old.items ++ made_parts made) }
{
    if let Some(made) = made {
        parts.push(made_part(alloc, made)?)?;
    }
    Ok(())
}

fn made_part(alloc: Global, made: Descendant) -> Result<Part, AllocError>
    ensures { IfOk result (λ part. part ≡ made_part made) }
{
    match made {
        Descendant::Object => Part::word(alloc, NEW, "objects"),
        Descendant::Container => Part::word(alloc, NEW, "containers"),
        Descendant::ObjectBelow => Part::word(alloc, BELOW_NEW, "objects"),
        Descendant::ContainerBelow => Part::word(alloc, BELOW_NEW, "containers"),
    }
}
