//! What a list consists of.

ghost use Rattle.std.specs.Prelude.{◌≡◌, ◌+◌, ◌<◌, ◌≤◌, [], ◌∷◌, length, IfOk, IfSome, OnOk, OnErr, slice_set};
ghost use Rattle.std.specs.Prelude.{slice_index_or};
ghost use Rattle.std.specs.List.{insert, remove};
ghost use Rattle.std.specs.List.Sorted.{IsSearchInRange, IsBinarySearchResult};
ghost use Rattle.sd_blocks.specs.Runs.{IsRunAt, AreParts, written};

use crate::search::Sought;
use std::alloc::{AllocError, Global};

/// A run of elements, in memory that other lists may share. A write to memory that is shared copies it first; where
/// memory for that copy is out, the run is as it was.
pub trait Run<T>: Sized + Drop {
    ghost use Rattle.std.specs.Prelude.{List};

    ghost elements: { Self → List T };

    /// A run of one element.
    fn single(alloc: Global, item: T) -> Result<Self, AllocError>
        ensures { IfOk result (λ run. elements run ≡ item ∷ []) };

    /// How many elements there are.
    fn count(&self) -> usize
        ensures { result ≡ length (elements self.now) };

    /// The element at a position.
    fn get(&self, at: usize) -> &T
        requires { at < length (elements self.now) }
        ensures { result.now ≡ slice_index_or (elements self.now) at result.now };

    /// The first element, which is found in fewer steps than another.
    fn first(&self) -> &T
        requires { 0 < length (elements self.now) }
        ensures { result.now ≡ slice_index_or (elements self.now) 0 result.now };

    /// Some elements from a position on, at least one, side by side in memory.
    fn run_from(&self, at: usize) -> &[T]
        requires { at < length (elements self.now) }
        ensures { IsRunAt (elements self.now) at result.now };

    /// The position of what is sought among sorted elements, or where it belongs.
    fn search<S: Sought<T>>(&self, sought: &S) -> Result<usize, usize>
        ensures bound { IsSearchInRange result (length (elements self.now)) }
        ensures position { IsBinarySearchResult (S.ord sought.now) (elements self.now) result };

    /// A run that shares this one's elements and memory.
    fn share(&self) -> Result<Self, AllocError>
        ensures { IfOk result (λ run. elements run ≡ elements self.now) };

    /// Writes one element.
    fn set(&mut self, alloc: Global, at: usize, item: T) -> Result<(), AllocError>
        requires { at < length (elements self.old) }
        ensures len { length (elements self.new) ≡ length (elements self.old) }
        ensures done { OnOk result (elements self.new ≡ slice_set (elements self.old) at item) }
        ensures refused { OnErr result (elements self.new ≡ elements self.old) };

    /// Writes elements from a position on. After an error some are written.
    fn write(&mut self, alloc: Global, at: usize, items: Vec<T>) -> Result<(), AllocError>
        requires { at + length items.items ≤ length (elements self.old) }
        ensures len { length (elements self.new) ≡ length (elements self.old) }
        ensures done { OnOk result (elements self.new ≡ written at items.items (elements self.old)) };

    /// Inserts an element before a position.
    fn insert(&mut self, alloc: Global, at: usize, item: T) -> Result<(), AllocError>
        requires { at ≤ length (elements self.old) }
        ensures done { OnOk result (elements self.new ≡ insert (elements self.old) at item) }
        ensures refused { OnErr result (elements self.new ≡ elements self.old) };

    /// Removes the element at a position.
    fn remove(&mut self, alloc: Global, at: usize) -> Result<T, AllocError>
        requires { at < length (elements self.old) }
        ensures value { IfOk result (λ item. item ≡ slice_index_or (elements self.old) at item) }
        ensures done { OnOk result (elements self.new ≡ remove (elements self.old) at) }
        ensures refused { OnErr result (elements self.new ≡ elements self.old) };

    /// The element at the one position gives way to the item, which goes to the other, counted among those that stay.
    fn exchange(&mut self, alloc: Global, from: usize, to: usize, item: T) -> Result<(), AllocError>
        requires from { from < length (elements self.old) }
        requires to { to < length (elements self.old) }
        ensures len { length (elements self.new) ≡ length (elements self.old) }
        ensures done { OnOk result (elements self.new ≡ insert (remove (elements self.old) from) to item) }
        ensures refused { OnErr result (elements self.new ≡ elements self.old) };

    /// The run as two, where it is so long that the next insertion should find a shorter one.
    fn split(&self, alloc: Global) -> Result<Option<(Self, Self)>, AllocError>
        ensures { IfOk result (λ parts. IfSome parts
            (λ p. AreParts (elements self.now) (elements p.0) (elements p.1))) };
}
