//! The lines of what a change comes to.
ghost use Rattle.std.specs.Prelude.{◌≡◌, IfOk};
ghost use Rattle.sd_review.specs.Lines.{lines, with_path};

use crate::compared::Compared;
use sd_answer::{PATH, descriptor_ref, push_descendants, push_gains_and_losses, push_inheritance};
use sd_line::{Line, Part};
use std::alloc::{AllocError, Global};

impl Compared {
    /// The lines of `compare` ([MS-DTYP] 2.5.3.2): none where no token gains or loses a right, of the node or of what
    /// is made in it, and the list isn't protected otherwise. Fails only out of memory.
    pub fn lines(&self, alloc: Global) -> Result<Vec<Line>, AllocError>
        ensures { IfOk result (λ made. made.items ≡ lines self.now) }
    {
        let old = descriptor_ref(&self.before);
        let new = descriptor_ref(&self.after);
        let mut lines = Vec::new(alloc);
        push_gains_and_losses(alloc, &mut lines, None, &old, &new, &self.comparison)?;
        push_descendants(alloc, &mut lines, &self.below)?;
        push_inheritance(
            alloc,
            &mut lines,
            self.before.protected,
            self.after.protected,
        )?;
        Ok(lines)
    }
}

/// The lines, each with the path of the node that it is about before it. Fails only out of memory.
pub fn with_path(alloc: Global, path: &str, lines: Vec<Line>) -> Result<Vec<Line>, AllocError>
    ensures { IfOk result (λ made. made.items ≡ with_path path.now lines.items) }
{
    let mut headed = Vec::new(alloc);
    for line in lines {
        let head = Part::word(alloc, PATH, path)?;
        headed.push(line.with_head(head)?)?;
    }
    Ok(headed)
}
