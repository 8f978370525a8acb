//! A run that is written over as many elements, block by block.

ghost use Rattle.std.specs.Prelude.{◌≡◌, ◌+◌, ◌<◌, ◌≤◌, length, OnOk};
ghost use Rattle.sd_blocks.specs.Runs.{written};

use crate::level::Level;
use crate::locate::locate;
use crate::run::Run;
use std::alloc::{AllocError, Global};

impl<T: Drop, R: Run<T>> Level<T, R> {
    /// Writes elements from a position on. After an error some are written.
    pub(crate) fn write(
        &mut self,
        alloc: Global,
        at: usize,
        mut run: Vec<T>,
    ) -> Result<(), AllocError>
        requires { at + length run.items ≤ length self.old }
        ensures len { length self.new ≡ length self.old }
        ensures done { OnOk result (self.new ≡ written at run.items self.old) }
    {
        'left: while !run.is_empty() {
            self.write_last(alloc, at, &mut run)?;
        }
        Ok(())
    }

    /// Writes those of the elements that go to the last of their blocks, and leaves the others.
    fn write_last(&mut self, alloc: Global, at: usize, run: &mut Vec<T>) -> Result<(), AllocError>
        requires some { 0 < length run.old.items }
        requires fits { at + length run.old.items ≤ length self.old }
        ensures len { length self.new ≡ length self.old }
        ensures fewer { OnOk result (length run.new.items < length run.old.items) }
        ensures done { OnOk result (written at run.new.items self.new ≡ written at run.old.items self.old) }
    {
        // That the length fits a usize.
        let _len = self.len;
        let last = at + (run.len() - 1);
        let k = locate(self.blocks.as_slice(), last);
        let block = &mut self.blocks[k];
        let start = block.start();
        let before = start.saturating_sub(at);
        let items = run.split_off(before)?;
        block.write(alloc, at + before - start, items)
    }
}
