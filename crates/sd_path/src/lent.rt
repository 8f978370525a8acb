//! Borrowed paths, so that a tree is searched without an allocation.

ghost use Rattle.std.specs.Prelude.{◌≡◌, ◌≤◌, ◌-◌, [], ◌∷◌, ◌++◌, length, take, MatchOption};
ghost use Rattle.sd_path.specs.Names.{names_cmp, up, is_root, is_within, ended, names_of, Keeps};

use std::cmp::Ordering;
use std::marker::Model;

/// A borrowed path. Contracts see it as the list of its names.
#[derive(Drop)]
pub struct PathRef<'a> {
    pub(crate) bytes: &'a [u8],
    pub(crate) count: u8,
}

impl<'a> Model for PathRef<'a> {
    ghost use Rattle.std.specs.Prelude.{ℕ, List};
    ghost use Rattle.sd_path.specs.Names.{names_of, Keeps};

    ghost Value = { List (List ℕ) };

    ghost view = { λ p. names_of p.bytes.now };

    ghost invariant = { λ p. Keeps p.bytes.now p.count };
}

impl<'a> PathRef<'a> {
    /// The number of names.
    pub fn depth(&self) -> u64
        ensures { result ≡ length self.now }
    {
        u64::from(self.count)
    }

    /// Whether it is the root.
    pub fn is_root(&self) -> bool
        ensures { result ≡ is_root self.now }
    {
        self.count == 0
    }

    /// The parent's path; the root's is the root.
    pub fn parent(&self) -> PathRef<'a>
        ensures { result ≡ up self.now }
    {
        PathRef {
            bytes: &self.bytes[..parent_len(self.bytes)],
            count: self.count.saturating_sub(1),
        }
    }

    /// The bytes of the last name; the root has none.
    pub fn last_name(&self) -> Option<&'a [u8]>
        ensures { MatchOption result (self.now ≡ []) (λ name. self.now ≡ up self.now ++ name.now ∷ []) }
    {
        if self.count == 0 {
            return None;
        }
        let end = self.bytes.len() - 1;
        Some(&self.bytes[parent_len(self.bytes)..end])
    }

    /// The order of the two paths.
    pub fn compare(&self, other: &PathRef) -> Ordering
        ensures { result ≡ names_cmp self.now other.now }
    {
        self.bytes.cmp(other.bytes)
    }

    /// Whether it is the top or is below it.
    pub fn is_within(&self, top: &PathRef) -> bool
        ensures { result ≡ is_within top.now self.now }
    {
        self.bytes.starts_with(top.bytes)
    }
}

/// How many of the bytes are the parent's path.
fn parent_len(bytes: &[u8]) -> usize
    requires { Keeps bytes.now (length (names_of bytes.now)) }
    ensures front { take result bytes.now ≡ ended (up (names_of bytes.now)) }
    ensures within { result ≤ length bytes.now - 1 }
{
    let mut end = bytes.len().saturating_sub(1);
    while end > 0 && bytes[end - 1] != 0 {
        end -= 1;
    }
    end
}
