//! How large a tree may grow.

ghost use Rattle.std.specs.Prelude.{◌≡◌};
ghost use Rattle.sd_edit.specs.Limits.{IsLimits, limits_of, standard_limits, limits_error_number, limits_error_name};

use std::marker::Model;
use thiserror::Error;

/// The most nodes that limits allow, a choice of this profile: it bounds how many DACLs one edit builds.
const MAX_NODES: u64 = 0x100_0000;

/// The most edits that limits allow, a choice of this profile: it bounds what a replay goes through.
const MAX_EDITS: u64 = 0x1_0000_0000;

/// How large a tree may grow: the most nodes, the root counted, and the most edits of its journal.
#[derive(Clone, Copy, Debug, PartialEq, Eq)]
pub struct Limits {
    nodes: u64,
    edits: u64,
}

impl Model for Limits {
    ghost use Rattle.sd_edit.specs.Limits.{LimitsValue, IsLimits};

    ghost Value = { LimitsValue };

    ghost view = { λ l. record { nodes = l.nodes; edits = l.edits } };

    ghost invariant = { λ l. IsLimits (record { nodes = l.nodes; edits = l.edits }) };

    ghost inverse = { λ v. record { nodes = v.nodes; edits = v.edits } };
}

/// Why two numbers aren't limits.
#[derive(Clone, Copy, Debug, PartialEq, Eq, Error)]
pub enum LimitsError {
    /// Not even the root would fit.
    #[error("a tree has at least its root: limits allow 1 node or more")]
    NoNodes,
    /// More than 2^24 nodes.
    #[error("limits allow at most 16777216 nodes")]
    TooManyNodes,
    /// More than 2^32 edits.
    #[error("limits allow at most 4294967296 edits")]
    TooManyEdits,
}

impl LimitsError {
    /// The error's number.
    pub fn number(self) -> u8
        ensures { result ≡ limits_error_number self }
    {
        match self {
            LimitsError::NoNodes => 1,
            LimitsError::TooManyNodes => 2,
            LimitsError::TooManyEdits => 3,
        }
    }

    /// The error's name.
    pub fn name(self) -> &'static str
        ensures { result.now ≡ limits_error_name self }
    {
        match self {
            LimitsError::NoNodes => "NoNodes",
            LimitsError::TooManyNodes => "TooManyNodes",
            LimitsError::TooManyEdits => "TooManyEdits",
        }
    }
}

impl Limits {
    /// Limits of so many nodes, the root counted, and so many edits; or the first error that fits: `NoNodes`,
    /// `TooManyNodes`, `TooManyEdits`.
    pub fn new(nodes: u64, edits: u64) -> Result<Limits, LimitsError>
        ensures { result ≡ limits_of nodes edits }
    {
        if nodes == 0 {
            return Err(LimitsError::NoNodes);
        }
        if nodes > MAX_NODES {
            return Err(LimitsError::TooManyNodes);
        }
        if edits > MAX_EDITS {
            return Err(LimitsError::TooManyEdits);
        }
        Ok(Limits { nodes, edits })
    }

    /// The limits where no others are asked for: 65,536 nodes and 1,048,576 edits.
    pub fn standard() -> Limits
        ensures { result ≡ standard_limits }
    {
        Limits {
            nodes: 0x1_0000,
            edits: 0x10_0000,
        }
    }

    /// The most nodes, the root counted.
    pub fn nodes(&self) -> u64
        ensures nodes { result ≡ self.now.nodes }
        ensures known { IsLimits self.now }
    {
        self.nodes
    }

    /// The most edits.
    pub fn edits(&self) -> u64
        ensures edits { result ≡ self.now.edits }
        ensures known { IsLimits self.now }
    {
        self.edits
    }
}
