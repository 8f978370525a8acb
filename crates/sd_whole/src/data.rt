//! Bytes of an entry that are kept as they are.

ghost use Rattle.std.specs.Prelude.{◌≡◌, ◌≤◌, length, IfOk};

use std::alloc::{AllocError, Global};
use std::marker::Model;

/// The most bytes that an entry keeps: AceSize is 16 bits wide ([MS-DTYP] 2.4.4.1).
pub const MAX_DATA_BYTES: usize = 0xFFFF;

/// Bytes of an entry that are kept as they are, at most 65,535: application data, a claim, or a body without a layout
/// ([MS-DTYP] 2.4.4). Contracts see them as the list.
#[derive(Debug, Drop)]
pub struct AceData {
    bytes: Vec<u8>,
}

impl Model for AceData {
    ghost use Rattle.std.specs.Prelude.{ℕ, List, ◌≤◌, length};

    ghost Value = { List ℕ };

    ghost view = { λ d. d.bytes.items };

    ghost invariant = { λ d. length d.bytes.items ≤ 65535 };
}

impl AceData {
    /// A copy of the bytes, at most `MAX_DATA_BYTES`.
    pub fn copied(alloc: Global, bytes: &[u8]) -> Result<AceData, AllocError>
        requires { length bytes.now ≤ 65535 }
        ensures { IfOk result (λ kept. kept ≡ bytes.now) }
    {
        let bytes = Vec::from_slice(alloc, bytes)?;
        Ok(AceData { bytes })
    }

    /// The bytes, in order.
    pub fn as_slice(&self) -> &[u8]
        ensures bytes { result.now ≡ self.now }
        ensures few { length self.now ≤ 65535 }
    {
        &self.bytes
    }
}
