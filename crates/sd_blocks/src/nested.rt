//! A run that is a list in blocks.

ghost use Rattle.std.specs.Prelude.{◌≡◌, ◌+◌, ◌≤◌, length, IfOk, OnOk};
ghost use Rattle.std.specs.Arc.{arc_value};
ghost use Rattle.sd_blocks.specs.Runs.{written};

use crate::level::Level;
use crate::run::Run;
use crate::search::Sought;
use std::alloc::{AllocError, Global};
use std::marker::Model;
use std::sync::Arc;

/// A list as a run of a larger one.
#[derive(Drop)]
pub struct Nested<T, R: Run<T>> {
    list: Arc<Level<T, R>>,
}

impl<T, R: Run<T>> Model for Nested<T, R> {
    ghost use Rattle.std.specs.Prelude.{List};
    ghost use Rattle.std.specs.Arc.{arc_value};

    ghost Value = { List T };

    ghost view = { λ n. arc_value n.list };
}

impl<T: Drop, R: Run<T>> Run<T> for Nested<T, R> {
    ghost elements = { λ n. n };

    fn single(alloc: Global, item: T) -> Result<Nested<T, R>, AllocError> {
        make_nested(alloc, Level::single(alloc, item)?)
    }

    fn count(&self) -> usize {
        self.list.len()
    }

    fn get(&self, at: usize) -> &T {
        match self.list.get(at) {
            Some(item) => item,
            None => unreachable!(),
        }
    }

    fn first(&self) -> &T {
        self.list.first()
    }

    fn run_from(&self, at: usize) -> &[T] {
        self.list.run_from(at)
    }

    fn search<S: Sought<T>>(&self, sought: &S) -> Result<usize, usize> {
        self.list.search(sought)
    }

    fn share(&self) -> Result<Nested<T, R>, AllocError> {
        let list = Arc::try_clone(&self.list)?;
        Ok(Nested { list })
    }

    fn set(&mut self, alloc: Global, at: usize, item: T) -> Result<(), AllocError> {
        own(alloc, &mut self.list)?;
        match Arc::get_mut(&mut self.list) {
            Some(list) => list.set(alloc, at, item),
            None => Err(AllocError),
        }
    }

    fn write(&mut self, alloc: Global, at: usize, items: Vec<T>) -> Result<(), AllocError>
        requires { at + length items.items ≤ length self.old }
        ensures len { length self.new ≡ length self.old }
        ensures done { OnOk result (self.new ≡ written at items.items self.old) }
    {
        own(alloc, &mut self.list)?;
        match Arc::get_mut(&mut self.list) {
            Some(list) => list.write(alloc, at, items),
            None => Err(AllocError),
        }
    }

    fn insert(&mut self, alloc: Global, at: usize, item: T) -> Result<(), AllocError> {
        own(alloc, &mut self.list)?;
        match Arc::get_mut(&mut self.list) {
            Some(list) => list.insert(alloc, at, item),
            None => Err(AllocError),
        }
    }

    fn remove(&mut self, alloc: Global, at: usize) -> Result<T, AllocError> {
        own(alloc, &mut self.list)?;
        match Arc::get_mut(&mut self.list) {
            Some(list) => list.remove(alloc, at),
            None => Err(AllocError),
        }
    }

    fn exchange(
        &mut self,
        alloc: Global,
        from: usize,
        to: usize,
        item: T,
    ) -> Result<(), AllocError> {
        own(alloc, &mut self.list)?;
        match Arc::get_mut(&mut self.list) {
            Some(list) => list.exchange(alloc, from, to, item),
            None => Err(AllocError),
        }
    }

    fn split(&self, alloc: Global) -> Result<Option<(Nested<T, R>, Nested<T, R>)>, AllocError> {
        match self.list.split(alloc)? {
            None => Ok(None),
            Some((low, high)) => Ok(Some((make_nested(alloc, low)?, make_nested(alloc, high)?))),
        }
    }
}

fn make_nested<T: Drop, R: Run<T>>(
    alloc: Global,
    list: Level<T, R>,
) -> Result<Nested<T, R>, AllocError>
    ensures { IfOk result (λ nested. nested ≡ list) }
{
    let list = Arc::new(alloc, list)?;
    Ok(Nested { list })
}

/// Replaces the list by a copy where a larger one shares it.
fn own<T: Drop, R: Run<T>>(alloc: Global, shared: &mut Arc<Level<T, R>>) -> Result<(), AllocError>
    ensures { arc_value shared.new ≡ arc_value shared.old }
{
    if Arc::strong_count(shared) != 1 {
        let copy = shared.copy(alloc)?;
        *shared = Arc::new(alloc, copy)?;
    }
    Ok(())
}
