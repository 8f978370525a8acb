//! Runs of a list that are inserted, and exchanged for others.

ghost use Rattle.std.specs.Prelude.{◌≡◌, ◌+◌, ◌<◌, ◌≤◌, length, OnOk, OnErr};
ghost use Rattle.std.specs.List.{insert, remove};
ghost use Rattle.sd_blocks.specs.Runs.{exchanged, with_run, without_run};

use crate::level::Level;
use crate::locate::locate;
use crate::run::Run;
use std::alloc::{AllocError, Global};

impl<T: Drop, R: Run<T>> Level<T, R> {
    /// Inserts elements before a position. It fails only when memory is out, and then the list is as it was.
    pub(crate) fn insert_run(
        &mut self,
        alloc: Global,
        at: usize,
        run: Vec<T>,
    ) -> Result<(), AllocError>
        requires { at ≤ length self.old }
        ensures done { OnOk result (self.new ≡ with_run at run.items self.old) }
        ensures refused { OnErr result (self.new ≡ self.old) }
    {
        let mut changed = self.copy(alloc)?;
        changed.put_run(alloc, at, run)?;
        *self = changed;
        Ok(())
    }

    /// Removes as many elements from `from` on as the run has, and inserts the run at `to`, counted without them. The
    /// only error is out of memory; then the list is as it was.
    pub(crate) fn exchange_run(
        &mut self,
        alloc: Global,
        from: usize,
        to: usize,
        mut run: Vec<T>,
    ) -> Result<(), AllocError>
        requires from { from + length run.items ≤ length self.old }
        requires to { to + length run.items ≤ length self.old }
        ensures done { OnOk result (self.new ≡ exchanged from (length run.items) to run.items self.old) }
        ensures refused { OnErr result (self.new ≡ self.old) }
    {
        if run.len() == 1 {
            if let Some(item) = run.pop() {
                return self.exchange(alloc, from, to, item);
            }
        }
        let mut changed = self.copy(alloc)?;
        changed.exchange_each(alloc, from, to, run)?;
        *self = changed;
        Ok(())
    }

    /// Removes as many elements from `from` on as the run has, and inserts the run at `to`, counted without them. After
    /// an error some elements may be gone or there.
    fn exchange_each(
        &mut self,
        alloc: Global,
        from: usize,
        to: usize,
        run: Vec<T>,
    ) -> Result<(), AllocError>
        requires from { from + length run.items ≤ length self.old }
        requires to { to + length run.items ≤ length self.old }
        ensures { OnOk result (self.new ≡ exchanged from (length run.items) to run.items self.old) }
    {
        if from == to {
            return self.write(alloc, to, run);
        }
        self.drop_run(alloc, from, run.len())?;
        self.put_run(alloc, to, run)
    }

    /// The element at the one position gives way to the item, which goes to the other, counted among those that stay.
    pub(crate) fn exchange(
        &mut self,
        alloc: Global,
        from: usize,
        to: usize,
        item: T,
    ) -> Result<(), AllocError>
        requires from { from < length self.old }
        requires to { to < length self.old }
        ensures len { length self.new ≡ length self.old }
        ensures done { OnOk result (self.new ≡ insert (remove self.old from) to item) }
        ensures refused { OnErr result (self.new ≡ self.old) }
    {
        let k = locate(self.blocks.as_slice(), from);
        if locate(self.blocks.as_slice(), to) != k {
            return self.exchange_in_copy(alloc, from, to, item);
        }
        let block = &mut self.blocks[k];
        let start = block.start();
        block.exchange(alloc, from - start, to - start, item)
    }

    /// Removes the element at `from` and inserts the item at `to`, counted without it, wherever these are: on a copy,
    /// since two blocks change.
    fn exchange_in_copy(
        &mut self,
        alloc: Global,
        from: usize,
        to: usize,
        item: T,
    ) -> Result<(), AllocError>
        requires from { from < length self.old }
        requires to { to < length self.old }
        ensures len { length self.new ≡ length self.old }
        ensures done { OnOk result (self.new ≡ insert (remove self.old from) to item) }
        ensures refused { OnErr result (self.new ≡ self.old) }
    {
        let mut changed = self.copy(alloc)?;
        let _gone = changed.remove(alloc, from)?;
        changed.insert(alloc, to, item)?;
        *self = changed;
        Ok(())
    }

    /// Removes so many elements from a position on, one by one. After an error some are gone.
    fn drop_run(&mut self, alloc: Global, from: usize, count: usize) -> Result<(), AllocError>
        requires { from + count ≤ length self.old }
        ensures { OnOk result (self.new ≡ without_run from count self.old) }
    {
        for _ in 0..count {
            let _gone = self.remove(alloc, from)?;
        }
        Ok(())
    }

    /// Inserts elements before a position, the last one first. After an error some are there.
    fn put_run(&mut self, alloc: Global, at: usize, mut run: Vec<T>) -> Result<(), AllocError>
        requires { at ≤ length self.old }
        ensures { OnOk result (self.new ≡ with_run at run.items self.old) }
    {
        while let Some(item) = run.pop() {
            self.insert(alloc, at, item)?;
        }
        Ok(())
    }
}
