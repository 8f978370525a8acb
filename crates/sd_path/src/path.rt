//! Paths.

ghost use Rattle.std.specs.Prelude.{◌≡◌, ◌≤◌, true, [], ◌∷◌, ◌++◌, length, IfOk};
ghost use Rattle.sd_path.specs.Names.{is_within, moved_path};
ghost use Rattle.sd_path.specs.PathText.{IsChildOf};

use crate::error::PathError;
use crate::lent::PathRef;
use crate::name::Name;
use crate::read::MAX_NAMES;
use std::alloc::{AllocError, Global};
use std::marker::Model;

/// A path: at most 128 names, from the root down. Contracts see it as the list of its names.
#[derive(Debug, Drop)]
pub struct Path {
    /// A zero byte ends each name, so that paths compare as their bytes do.
    pub(crate) bytes: Vec<u8>,
    /// The number of names.
    pub(crate) count: u8,
}

impl Model for Path {
    ghost use Rattle.std.specs.Prelude.{ℕ, List};
    ghost use Rattle.sd_path.specs.Names.{names_of, Keeps};

    ghost Value = { List (List ℕ) };

    ghost view = { λ p. names_of p.bytes.items };

    ghost invariant = { λ p. Keeps p.bytes.items p.count };
}

impl Path {
    /// The root's path. Allocates nothing.
    pub fn root(alloc: Global) -> Path
        ensures { result ≡ [] }
    {
        Path {
            bytes: Vec::new(alloc),
            count: 0,
        }
    }

    /// The path, borrowed.
    pub fn as_path_ref(&self) -> PathRef<'_>
        ensures { result ≡ self.now }
    {
        PathRef {
            bytes: &self.bytes,
            count: self.count,
        }
    }

    /// The path of a child with this name. `TooManyNames` if the path has 128 names already.
    pub fn child(&self, alloc: Global, name: &Name) -> Result<Path, PathError>
        ensures { IsChildOf self.now name.now result }
    {
        if self.count >= MAX_NAMES {
            return Err(PathError::TooManyNames);
        }
        let bytes = with_name(alloc, &self.bytes, name.as_str().as_bytes())?;
        Ok(Path {
            bytes,
            count: self.count + 1,
        })
    }

    /// The path with its prefix, the source, replaced by the target. The result must have at most 128 names.
    pub fn moved(
        &self,
        alloc: Global,
        source: &PathRef<'_>,
        target: &PathRef<'_>,
    ) -> Result<Path, AllocError>
        requires within { is_within source.now self.now ≡ true }
        requires fits { length (moved_path source.now target.now self.now) ≤ 128 }
        ensures { IfOk result (λ path. path ≡ moved_path source.now target.now self.now) }
    {
        let (_, rest) = self.bytes.split_at(source.bytes.len());
        let bytes = joined(alloc, target.bytes, rest)?;
        let below = self.count - source.count;
        Ok(Path {
            bytes,
            count: target.count + below,
        })
    }

    /// An equal path.
    pub fn copy(&self, alloc: Global) -> Result<Path, AllocError>
        ensures { IfOk result (λ path. path ≡ self.now) }
    {
        let bytes = Vec::from_slice(alloc, self.bytes.as_slice())?;
        Ok(Path {
            bytes,
            count: self.count,
        })
    }
}

/// The bytes of a path with one more name and the zero byte that ends it.
fn with_name(alloc: Global, above: &[u8], name: &[u8]) -> Result<Vec<u8>, AllocError>
    ensures { IfOk result (λ bytes. bytes.items ≡ above.now ++ name.now ++ 0 ∷ []) }
{
    let mut bytes = Vec::with_capacity(alloc, above.len() + name.len() + 1)?;
    bytes.extend_from_slice(above)?;
    bytes.extend_from_slice(name)?;
    bytes.push(0)?;
    Ok(bytes)
}

/// The bytes of two slices, one after the other.
fn joined(alloc: Global, front: &[u8], back: &[u8]) -> Result<Vec<u8>, AllocError>
    ensures { IfOk result (λ bytes. bytes.items ≡ front.now ++ back.now) }
{
    let mut bytes = Vec::with_capacity(alloc, front.len() + back.len())?;
    bytes.extend_from_slice(front)?;
    bytes.extend_from_slice(back)?;
    Ok(bytes)
}
