//! What a publish is made of.

use sd_history::Front;
use sd_tree::{Edit, Opening, Shared, Tree};
use std::collections::LinkedList;

/// One operation on what is published: readers get a tree. The pending ones are one publish: mostly one, and more where
/// publishes failed.
#[derive(Drop)]
pub(crate) struct Operation {
    pub tree: Shared<Tree>,
    /// The front of the history that its journal is.
    pub front: Front<Edit>,
    /// Whether it is the first of its publish, which makes the mark.
    pub opens: bool,
}

/// What the two copies of what is published have in common. No value of it is made.
pub(crate) struct Facts {
    pub opening: Opening,
    pub journal: LinkedList<Edit>,
    pub marks: LinkedList<u64>,
    pub seen: Front<Edit>,
}
