//! The published tree beside the one with all pending edits.
ghost use Rattle.std.specs.Prelude.{◌≡◌};

use sd_tree::Tree;

/// The published tree, and the one with all pending edits: what a review compares.
#[derive(Clone, Copy, Drop)]
pub struct Review<'a> {
    pub old: &'a Tree,
    pub new: &'a Tree,
    ghost one_opening: { old.now.opening ≡ new.now.opening },
}
