//! The edits that a tree accepted, in their order.

ghost use Rattle.std.specs.Prelude.{◌≡◌, ◌<◌, ◌≤◌, [], length, IfOk, OnOk, slice_get, vec_len, vec_capacity};
ghost use Rattle.std.specs.Option.{option_copied};
ghost use Rattle.sd_tree.specs.Stored.{edits_in};

use crate::shared::Shared;
use sd_blocks::Blocks;
use sd_edit::Edit;
use std::alloc::{AllocError, Global};
use std::marker::Model;

/// So many edits gather in the vector before they go to the blocks: as many as a block has.
const MAX_LAST: usize = 128;

/// Edits in their order: the last few in a vector, where room for one is made before it is accepted, and all before
/// them in blocks, which copies share.
#[derive(Drop)]
pub(crate) struct Edits {
    pub kept: Blocks<Shared<Edit>>,
    pub last: Vec<Shared<Edit>>,
}

impl Edits {
    /// No edit.
    pub(crate) fn new(alloc: Global) -> Edits
        ensures { edits_in result ≡ [] }
    {
        Edits {
            kept: Blocks::new(alloc),
            last: Vec::new(alloc),
        }
    }

    /// How many there are.
    pub(crate) fn len(&self) -> usize
        requires { length (edits_in self.now) ≤ 4294967296 }
        ensures { result ≡ length (edits_in self.now) }
    {
        self.kept.len() + self.last.len()
    }

    /// A copy of the edits, which shares their blocks.
    pub(crate) fn copy(&self, alloc: Global) -> Result<Edits, AllocError>
        ensures { IfOk result (λ copy. edits_in copy ≡ edits_in self.now) }
    {
        let last = share_edits(alloc, &self.last)?;
        let kept = self.kept.copy(alloc)?;
        Ok(Edits { kept, last })
    }

    /// Makes room for one more.
    pub(crate) fn make_room(&mut self, alloc: Global) -> Result<(), AllocError>
        ensures same { edits_in self.new ≡ edits_in self.old }
        ensures room { OnOk result (vec_len self.new.last < vec_capacity self.new.last) }
    {
        if self.last.len() >= MAX_LAST {
            let run = share_edits(alloc, &self.last)?;
            let last = Vec::with_capacity(alloc, MAX_LAST)?;
            let end = self.kept.len();
            self.kept.insert_run(alloc, end, run)?;
            self.last = last;
        }
        self.last.reserve(1)
    }
}

/// The journal of a tree, lent by it. Contracts see the list of its edits.
#[derive(Drop)]
pub struct Journal<'a> {
    edits: &'a Edits,
}

impl<'a> Model for Journal<'a> {
    ghost use Rattle.std.specs.Prelude.{List};
    ghost use Rattle.sd_tree.specs.Stored.{edits_in};
    ghost use Rattle.sd_edit.specs.declared.edit.Edit.{Edit};

    ghost Value = { List Edit };

    ghost view = { λ j. edits_in j.edits.now };
}

impl<'a> Journal<'a> {
    pub(crate) fn new(edits: &'a Edits) -> Journal<'a>
        ensures { result ≡ edits_in edits.now }
    {
        Journal { edits }
    }

    /// The edit at a place, if there is one: the first one is at 0.
    pub fn get(&self, at: usize) -> Option<&'a Shared<Edit>>
        ensures { option_copied result ≡ slice_get self.now at }
    {
        let Edits { kept, last } = self.edits;
        if at < kept.len() {
            return kept.get(at);
        }
        last.get(at - kept.len())
    }
}

/// The edits in a new vector, each with one holder more.
fn share_edits(alloc: Global, edits: &[Shared<Edit>]) -> Result<Vec<Shared<Edit>>, AllocError>
    ensures { IfOk result (λ shared. shared.items ≡ edits.now) }
{
    let mut shared = Vec::with_capacity(alloc, edits.len())?;
    for edit in edits {
        shared.push(edit.share()?)?;
    }
    Ok(shared)
}
