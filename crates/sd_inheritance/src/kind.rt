//! What inherits.

use sd_sid::Sid;

/// What a node is to inheritance ([MS-DTYP] 2.5.3.4): only a container has nodes below it.
#[derive(Clone, Copy, Debug, PartialEq, Eq)]
pub enum NodeKind {
    /// A folder, a registry key: it holds nodes.
    Container,
    /// A file, a registry value: it holds none.
    Object,
}

/// A child that inherits: its kind, and the owner and group that take the places of CREATOR OWNER and CREATOR GROUP.
#[derive(Drop)]
pub struct Heir<'a> {
    pub kind: NodeKind,
    pub owner: &'a Sid,
    pub group: &'a Sid,
}
