//! What the pending edits change, node by node, for all tokens.
ghost use Rattle.std.specs.Prelude.{◌≡◌, IfOk, OnOk, length};
ghost use Rattle.std.specs.FinMap.{entries};
ghost use Rattle.std.specs.List.{flat_map};
ghost use Rattle.std.specs.Option.{ForSome};
ghost use Rattle.sd_tree.specs.Listing.{listed};
ghost use Rattle.sd_review.specs.Compared.{IsRight};
ghost use Rattle.sd_review.specs.Review.{stands_in, trees_of};
ghost use Rattle.sd_script.specs.Review.{AreTold, IsCompared, IsNodeReview, IsReview, IsReviewOf, gone_lines};
ghost use Rattle.sd_script.specs.Review.{has_no_words, moved_line, new_line, reviewed_line};

use crate::listing::lacks_words;
use crate::paths::{PathSpelling, path_word};
use crate::reply::{alone, plain_line};
use sd_answer::{GONE, MOVED, NEW_NODE, NO_NODE, REVIEWED, fault_line};
use sd_line::{Line, Value};
use sd_review::{Compared, Former, Review, with_path};
use sd_tree::{NodeRef, Path};
use sd_versions::Desk;
use std::alloc::{AllocError, Global};

/// The lines of the nodes at and below a path that the pending edits change ([MS-DTYP] 2.5.3.2), and the line of the
/// two journals' lengths; `nonode` if no node stands at the path in either tree, and `fault name` if a name can't be
/// printed.
pub(crate) fn review_lines(
    alloc: Global,
    paths: PathSpelling,
    desk: &Desk,
    top: &Path,
) -> Result<Vec<Line>, AllocError>
    ensures { IfOk result (λ lines. IsReview paths desk.now top.now lines.items) }
{
    let old = desk.published();
    let new = desk.draft();
    let review = ReviewLines {
        alloc,
        paths,
        review: Review::of(old, new),
    };
    review.lines(top)
}

/// A review whose paths are written so.
#[derive(Drop)]
pub(crate) struct ReviewLines<'a> {
    alloc: Global,
    paths: PathSpelling,
    review: Review<'a>,
}

impl ReviewLines<'_> {
    /// The lines, and the last one.
    fn lines(&self, top: &Path) -> Result<Vec<Line>, AllocError>
        ensures { IfOk result (λ lines. IsReviewOf self.now.paths (trees_of self.now.review) top.now
            (reviewed_line (length self.now.review.old.now.journal) (length self.now.review.new.now.journal))
            (stands_in (trees_of self.now.review) top.now)
            (has_no_words self.now.paths (trees_of self.now.review)) lines.items) }
    {
        if !self.review.has(top) {
            return alone(self.alloc, plain_line(self.alloc, NO_NODE)?);
        }
        let root = Path::root(self.alloc);
        if lacks_words(self.alloc, self.paths, self.review.old, &root)?
            || lacks_words(self.alloc, self.paths, self.review.new, &root)?
        {
            return alone(self.alloc, fault_line(self.alloc, "name")?);
        }
        let mut lines = self.changes(top)?;
        let mut gone = self.gone(top)?;
        lines.append(&mut gone)?;
        lines.push(self.reviewed_line()?)?;
        Ok(lines)
    }

    /// The last line: the lengths of the journals that were compared.
    fn reviewed_line(&self) -> Result<Line, AllocError>
        ensures { IfOk result (λ line. line ≡ reviewed_line (length self.now.review.old.now.journal)
            (length self.now.review.new.now.journal)) }
    {
        let old = Value::Number(self.review.old.len());
        let new = Value::Number(self.review.new.len());
        Line::new(self.alloc, REVIEWED, vec![in self.alloc; old, new]?)
    }

    /// The lines of the nodes of the new tree.
    fn changes(&self, top: &Path) -> Result<Vec<Line>, AllocError>
        ensures { IfOk result (λ lines. AreTold (IsNodeReview self.now.paths (trees_of self.now.review) top.now)
            (entries (trees_of self.now.review).new) lines.items) }
    {
        let mut lines = Vec::new(self.alloc);
        let mut last = None;
        for index in 0..self.review.new.node_count() {
            let Some(node) = self.review.new.node(index) else {
                unreachable!()
            };
            let mut changes = self.changes_at(&mut last, top, &node)?;
            lines.append(&mut changes)?;
        }
        Ok(lines)
    }

    /// The lines of one node of the new tree.
    fn changes_at(
        &self,
        last: &mut Option<Compared>,
        top: &Path,
        node: &NodeRef<'_>,
    ) -> Result<Vec<Line>, AllocError>
        requires { ForSome last.old (IsRight self.now.review.old.now.opening.mapping) }
        ensures lines { IfOk result (λ lines. IsNodeReview self.now.paths (trees_of self.now.review) top.now
            (listed node.now) lines.items) }
        ensures right { OnOk result (ForSome last.new (IsRight self.now.review.old.now.opening.mapping)) }
    {
        if !node.path.as_path_ref().is_within(&top.as_path_ref()) {
            return Ok(Vec::new(self.alloc));
        }
        match self.review.former(self.alloc, node.path)? {
            Former::Same => self.compared(last, node.path, node.path),
            Former::Moved(before) => {
                let mut lines = self.compared(last, &before, node.path)?;
                lines.insert(0, self.moved_line(&before, node.path)?)?;
                Ok(lines)
            }
            Former::New => alone(self.alloc, self.new_line(node.path)?),
        }
    }

    fn new_line(&self, path: &Path) -> Result<Line, AllocError>
        ensures { IfOk result (λ line. line ≡ new_line self.now.paths path.now) }
    {
        let path = Value::text(path_word(self.alloc, self.paths, path)?);
        Line::new(self.alloc, NEW_NODE, vec![in self.alloc; path]?)
    }

    fn moved_line(&self, before: &Path, path: &Path) -> Result<Line, AllocError>
        ensures { IfOk result (λ line. line ≡ moved_line self.now.paths before.now path.now) }
    {
        let before = Value::text(path_word(self.alloc, self.paths, before)?);
        let path = Value::text(path_word(self.alloc, self.paths, path)?);
        Line::new(self.alloc, MOVED, vec![in self.alloc; before, path]?)
    }

    /// What the node of a path changes beside the one of a path of the old tree.
    fn compared(
        &self,
        last: &mut Option<Compared>,
        before: &Path,
        path: &Path,
    ) -> Result<Vec<Line>, AllocError>
        requires { ForSome last.old (IsRight self.now.review.old.now.opening.mapping) }
        ensures lines { IfOk result (λ lines. IsCompared self.now.paths (trees_of self.now.review) before.now path.now
            lines.items) }
        ensures right { OnOk result (ForSome last.new (IsRight self.now.review.old.now.opening.mapping)) }
    {
        self.review.compare(self.alloc, last, before, path)?;
        let Some(compared) = &*last else {
            return Ok(Vec::new(self.alloc));
        };
        let path = path_word(self.alloc, self.paths, path)?;
        let changes = compared.lines(self.alloc)?;
        let lines = with_path(self.alloc, path.as_str(), changes)?;
        Ok(lines)
    }

    /// The lines of the nodes of the old tree where none stands in the new one.
    fn gone(&self, top: &Path) -> Result<Vec<Line>, AllocError>
        ensures { IfOk result (λ lines. lines.items ≡ flat_map (gone_lines self.now.paths (trees_of self.now.review)
            top.now) (entries (trees_of self.now.review).old)) }
    {
        let mut lines = Vec::new(self.alloc);
        for index in 0..self.review.old.node_count() {
            let Some(node) = self.review.old.node(index) else {
                unreachable!()
            };
            let mut gone = self.gone_lines(top, &node)?;
            lines.append(&mut gone)?;
        }
        Ok(lines)
    }

    /// The line of a node of the old tree, if none stands at its path in the new one.
    fn gone_lines(&self, top: &Path, node: &NodeRef<'_>) -> Result<Vec<Line>, AllocError>
        ensures { IfOk result (λ lines. lines.items
            ≡ gone_lines self.now.paths (trees_of self.now.review) top.now (listed node.now)) }
    {
        if !node.path.as_path_ref().is_within(&top.as_path_ref())
            || self.review.new.lookup(node.path).is_some()
        {
            return Ok(Vec::new(self.alloc));
        }
        let path = Value::text(path_word(self.alloc, self.paths, node.path)?);
        alone(
            self.alloc,
            Line::new(self.alloc, GONE, vec![in self.alloc; path]?)?,
        )
    }
}
