//! What the pending edits change at a node.
ghost use Rattle.std.specs.Prelude.{◌≡◌, IfOk, OnOk};
ghost use Rattle.std.specs.Option.{ForSome};
ghost use Rattle.sd_review.specs.Compared.{IsComparedAt, IsRight};
ghost use Rattle.sd_review.specs.Review.{former, stands_in, trees_of};

use crate::compared::Compared;
use crate::comparing::compare_next;
use crate::origin::origin;
use crate::pending::Review;
use sd_inheritance::NodeKind;
use sd_path::Path;
use sd_tree::Tree;
use std::alloc::{AllocError, Global};

/// What stood for a node of the new tree in the old one.
#[derive(Drop)]
pub enum Former {
    /// The node at its path.
    Same,
    /// The node at this path, which was moved to its path.
    Moved(Path),
    /// None: it was added.
    New,
}

impl<'a> Review<'a> {
    /// The review of a published tree and one with edits after its own. Both are trees of one store.
    pub fn of(old: &'a Tree, new: &'a Tree) -> Review<'a>
        requires { old.now.opening ≡ new.now.opening }
        ensures old { result.old.now ≡ old.now }
        ensures new { result.new.now ≡ new.now }
    {
        Review { old, new }
    }

    /// Whether a node stands at the path in one of the trees.
    pub fn has(&self, path: &Path) -> bool
        ensures { result ≡ stands_in (trees_of self.now) path.now }
    {
        self.old.lookup(path).is_some() || self.new.lookup(path).is_some()
    }

    /// What stood for the node of a path in the old tree. Fails only out of memory.
    pub fn former(&self, alloc: Global, path: &Path) -> Result<Former, AllocError>
        ensures { IfOk result (λ found. found ≡ former (trees_of self.now) path.now) }
    {
        if self.old.lookup(path).is_some() {
            return Ok(Former::Same);
        }
        match origin(alloc, self.new, self.old.len() as usize, path)? {
            Some(before) if self.old.lookup(&before).is_some() => Ok(Former::Moved(before)),
            _ => Ok(Former::New),
        }
    }

    /// Leaves in `last` what tokens gain and lose where the node of a path takes the place of the one of a path of the
    /// old tree ([MS-DTYP] 2.5.3.2), and of what is made in it if it is a container (2.5.3.4); nothing where one of
    /// them isn't there. What `last` has, a comparison by the trees' mapping, serves again for the same owners, lists
    /// and kind. Fails only out of memory.
    pub fn compare(
        &self,
        alloc: Global,
        last: &mut Option<Compared>,
        before: &Path,
        path: &Path,
    ) -> Result<(), AllocError>
        requires { ForSome last.old (IsRight self.now.old.now.opening.mapping) }
        ensures compared { OnOk result (IsComparedAt (trees_of self.now) before.now path.now last.new) }
        ensures right { OnOk result (ForSome last.new (IsRight self.now.old.now.opening.mapping)) }
    {
        let old = self.old.descriptor(before)?;
        let new = self.new.descriptor(path)?;
        let (Some(old), Some(new)) = (old, new) else {
            *last = None;
            return Ok(());
        };
        let is_container = matches!(self.new.lookup(path), Some(NodeKind::Container));
        compare_next(alloc, last, self.old.mapping(), is_container, old, new)
    }
}
