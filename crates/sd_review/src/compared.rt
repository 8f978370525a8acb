//! Two descriptors that were compared.

use sd_acl::Descriptor;
use sd_analysis::{Comparison, DescendantChange};

/// Two descriptors of a node that were compared, and what all tokens gain and lose where the second takes the place of
/// the first.
#[derive(Drop)]
pub struct Compared {
    pub before: Descriptor,
    pub after: Descriptor,
    /// Whether nodes are made in the node.
    pub is_container: bool,
    /// Of the node itself.
    pub comparison: Comparison,
    /// Of what is made in it; empty where that inherits the same before and after.
    pub below: Vec<DescendantChange>,
}
