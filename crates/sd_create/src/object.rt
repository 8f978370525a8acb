//! A new object, as far as its entries depend on it.

use sd_inheritance::NodeKind;
use sd_sid::{GenericMapping, Sid};
use sd_whole::Guid;

/// A new object: its kind and classes, the owner and group that take the places of CREATOR OWNER and CREATOR GROUP, and
/// what generic rights are for it.
#[derive(Drop)]
pub(crate) struct NewObject<'a> {
    pub(crate) kind: NodeKind,
    pub(crate) types: &'a [Guid],
    pub(crate) owner: Sid,
    pub(crate) group: Sid,
    pub(crate) mapping: &'a GenericMapping,
}
