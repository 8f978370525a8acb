//! What is sought in a sorted list.

ghost use Rattle.std.specs.Prelude.{◌≡◌, length};
ghost use Rattle.std.specs.List.Sorted.{IsSearchInRange, IsBinarySearchResult};

use std::cmp::Ordering;

/// What is sought in a sorted list: how each element compares with it.
pub trait Sought<T> {
    ghost use Rattle.std.specs.declared.cmp.Ordering.{Ordering};

    ghost ord: { Self → T → Ordering };

    /// How the element compares with what is sought: `Less` where it precedes it.
    fn compare(&self, item: &T) -> Ordering
        ensures { result ≡ ord self.now item.now };
}

/// The position of what is sought among these elements, or where it belongs.
pub(crate) fn search_items<T, S: Sought<T>>(items: &[T], sought: &S) -> Result<usize, usize>
    ensures bound { IsSearchInRange result (length items.now) }
    ensures position { IsBinarySearchResult (S.ord sought.now) items.now result }
{
    items.binary_search_by(
        |item: &T| -> Ordering
            ensures { result ≡ S.ord sought.entry.now item.now }
        { sought.compare(item) },
    )
}
