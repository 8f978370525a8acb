//! A run in one vector.

ghost use Rattle.std.specs.Prelude.{◌≡◌, ◌+◌, ◌<◌, ◌≤◌, [], ◌∷◌, length, IfOk, OnOk, OnErr};
ghost use Rattle.std.specs.List.{insert, remove};
ghost use Rattle.std.specs.Arc.{arc_value};
ghost use Rattle.sd_blocks.specs.Runs.{written};

use crate::run::Run;
use crate::search::{Sought, search_items};
use crate::try_copy::TryCopy;
use std::alloc::{AllocError, Global};
use std::marker::Model;
use std::sync::Arc;

/// A run that has this many elements is split before the next one is inserted.
const MAX_ITEMS: usize = 128;

/// A run in one vector.
#[derive(Drop)]
pub struct Leaf<T> {
    items: Arc<Vec<T>>,
}

impl<T> Model for Leaf<T> {
    ghost use Rattle.std.specs.Prelude.{List};
    ghost use Rattle.std.specs.Arc.{arc_value};

    ghost Value = { List T };

    ghost view = { λ l. (arc_value l.items).items };
}

impl<T: TryCopy> Run<T> for Leaf<T> {
    ghost elements = { λ l. l };

    fn single(alloc: Global, item: T) -> Result<Leaf<T>, AllocError> {
        let mut items = Vec::new(alloc);
        items.push(item)?;
        make_leaf(alloc, items)
    }

    fn count(&self) -> usize {
        self.items.len()
    }

    fn get(&self, at: usize) -> &T {
        &self.items[at]
    }

    fn first(&self) -> &T {
        &self.items[0]
    }

    fn run_from(&self, at: usize) -> &[T] {
        &self.items[at..]
    }

    fn search<S: Sought<T>>(&self, sought: &S) -> Result<usize, usize> {
        search_items(self.items.as_slice(), sought)
    }

    fn share(&self) -> Result<Leaf<T>, AllocError> {
        let items = Arc::try_clone(&self.items)?;
        Ok(Leaf { items })
    }

    fn set(&mut self, alloc: Global, at: usize, item: T) -> Result<(), AllocError> {
        own(alloc, &mut self.items)?;
        match Arc::get_mut(&mut self.items) {
            Some(items) => {
                items[at] = item;
                Ok(())
            }
            None => Err(AllocError),
        }
    }

    fn write(&mut self, alloc: Global, at: usize, items: Vec<T>) -> Result<(), AllocError>
        requires { at + length items.items ≤ length self.old }
        ensures len { length self.new ≡ length self.old }
        ensures done { OnOk result (self.new ≡ written at items.items self.old) }
    {
        if items.len() == self.items.len() {
            self.items = Arc::new(alloc, items)?;
            return Ok(());
        }
        own(alloc, &mut self.items)?;
        match Arc::get_mut(&mut self.items) {
            Some(old) => {
                put_over(old, at, items);
                Ok(())
            }
            None => Err(AllocError),
        }
    }

    fn insert(&mut self, alloc: Global, at: usize, item: T) -> Result<(), AllocError> {
        own(alloc, &mut self.items)?;
        match Arc::get_mut(&mut self.items) {
            Some(items) => {
                items.insert(at, item)?;
                Ok(())
            }
            None => Err(AllocError),
        }
    }

    fn remove(&mut self, alloc: Global, at: usize) -> Result<T, AllocError> {
        own(alloc, &mut self.items)?;
        match Arc::get_mut(&mut self.items) {
            Some(items) => Ok(items.remove(at)),
            None => Err(AllocError),
        }
    }

    fn exchange(
        &mut self,
        alloc: Global,
        from: usize,
        to: usize,
        item: T,
    ) -> Result<(), AllocError> {
        own(alloc, &mut self.items)?;
        match Arc::get_mut(&mut self.items) {
            Some(items) => exchange(items, from, to, item),
            None => Err(AllocError),
        }
    }

    fn split(&self, alloc: Global) -> Result<Option<(Leaf<T>, Leaf<T>)>, AllocError> {
        let items = self.items.as_slice();
        if items.len() < MAX_ITEMS {
            return Ok(None);
        }
        let half = items.len() / 2;
        let low = copy_items(alloc, &items[..half])?;
        let high = copy_items(alloc, &items[half..])?;
        Ok(Some((make_leaf(alloc, low)?, make_leaf(alloc, high)?)))
    }
}

fn make_leaf<T: Drop>(alloc: Global, items: Vec<T>) -> Result<Leaf<T>, AllocError>
    ensures { IfOk result (λ leaf. leaf ≡ items.items) }
{
    let items = Arc::new(alloc, items)?;
    Ok(Leaf { items })
}

/// Puts elements from a position on in place of as many.
fn put_over<T: Drop>(old: &mut Vec<T>, at: usize, mut items: Vec<T>)
    requires { at + length items.items ≤ length old.old.items }
    ensures { old.new.items ≡ written at items.items old.old.items }
{
    let end = at + items.len();
    old[at..end].swap_with_slice(items.as_mut_slice());
}

/// The element at the one position gives way to the item, which goes to the other, counted among those that stay. The
/// item comes in first, since only that may fail.
fn exchange<T: Drop>(items: &mut Vec<T>, from: usize, to: usize, item: T) -> Result<(), AllocError>
    requires from { from < length items.old.items }
    requires to { to < length items.old.items }
    ensures len { length items.new.items ≡ length items.old.items }
    ensures done { OnOk result (items.new.items ≡ insert (remove items.old.items from) to item) }
    ensures refused { OnErr result (items.new.items ≡ items.old.items) }
{
    if from < to {
        items.insert(to + 1, item)?;
        let _gone = items.remove(from);
    } else {
        items.insert(to, item)?;
        let _gone = items.remove(from + 1);
    }
    Ok(())
}

/// Replaces the vector by a copy where another list shares it.
fn own<T: TryCopy>(alloc: Global, shared: &mut Arc<Vec<T>>) -> Result<(), AllocError>
    ensures { (arc_value shared.new).items ≡ (arc_value shared.old).items }
{
    if Arc::strong_count(shared) != 1 {
        let copy = copy_items(alloc, shared)?;
        *shared = Arc::new(alloc, copy)?;
    }
    Ok(())
}

/// The elements, in a new vector.
fn copy_items<T: TryCopy>(alloc: Global, items: &[T]) -> Result<Vec<T>, AllocError>
    ensures { IfOk result (λ copy. copy.items ≡ items.now) }
{
    let mut copy = Vec::with_capacity(alloc, items.len())?;
    for item in items {
        copy.push(item.try_copy()?)?;
    }
    Ok(copy)
}
