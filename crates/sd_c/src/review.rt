//! What a publish would change, one node at a time, for all tokens.

ghost use Rattle.std.specs.Prelude.{◌≡◌, [], IfErr, IfOk, Some, string_bytes};
ghost use Rattle.sd_path.specs.PathText.{text_of};
ghost use Rattle.sd_review.specs.Review.{trees_of};
ghost use Rattle.sd_c.specs.Kept.{Stays};
ghost use Rattle.sd_c.specs.Review.{AreChangesAt, AreChangesOf, AreNone, IsMadeOf, IsNoReviewAt, IsNodeReview};
ghost use Rattle.sd_c.specs.Review.{IsNotReviewed, IsPublishedReview, IsReviewAt, IsReviewed, KeepsWritten, Reviews};
ghost use Rattle.sd_c.specs.Review.{same_or_changed, unreviewed, with_written};
ghost use Rattle.sd_c.specs.Written.{Writes};
ghost use Rattle.sd_c.specs.declared.review.NodeReview.{NodeReview};

use crate::analysis::bits_of;
use crate::call_answer::{HANDLE, OK, Written, length_told, not_written, write};
use crate::handle::{Handle, Kept};
use crate::lines::kept_lines;
use crate::not_done::NotDone;
use crate::views::not_told;
use sd_line::Line;
use sd_path::Path;
use sd_review::{Compared, Former, Review};
use sd_sid::Mask;
use std::alloc::{AllocError, Global};

/// The numbers by which an answer says what happened to a node.
const SAME: u32 = 1;

const CHANGED: u32 = 2;

const NEW: u32 = 3;

const MOVED: u32 = 4;

const GONE: u32 = 5;

const STANDS: u32 = 6;

/// The answer of `hudarin_store_review`.
#[repr(C)]
#[derive(Clone, Copy, Debug, PartialEq, Eq)]
pub struct ReviewAnswer {
    pub written: Written,
    /// What happened to the node; 0 without one.
    pub what: u32,
    /// The bits that some token gains of the node itself.
    pub gained: u32,
    /// The bits that some token loses of the node itself.
    pub lost: u32,
    /// The number of bytes of the node's path, at the front of what is written.
    pub path: u64,
    /// The number of bytes after it that are the path from which the node was moved.
    pub before: u64,
}

/// What happened to a node.
#[derive(Drop)]
pub(crate) struct NodeReview {
    path: String,
    before: String,
    what: u32,
    changes: Changes,
}

/// What tokens gain and lose: the lines of `compare`, and the bits of the node itself.
#[derive(Drop)]
pub(crate) struct Changes {
    lines: Vec<Line>,
    gained: Mask,
    lost: Mask,
}

/// What a publish would change, for all tokens ([MS-DTYP] 2.5.3.2), at the node of a place: writes its path, and the
/// path from which a moved one was moved, into the buffer, and keeps the lines of `hudarin_compare`. The places are
/// first those of the store's tree in path order, then those of the tree as it was last published. Refused if `lines`
/// is in use, if the other handle keeps no store, after the last place, or out of memory; then, and if the buffer is
/// too small, nothing is written or kept.
#[unsafe(no_mangle)]
pub extern "C" fn hudarin_store_review(
    alloc: Global,
    store: &mut Handle,
    place: u64,
    room: &mut [u8],
    lines: &mut Handle,
) -> ReviewAnswer
    ensures answer { Reviews store.old place room.old room.new lines.old lines.new result }
    ensures store { Stays store.old store.new }
{
    if lines.is_there == 1 {
        return unreviewed(not_written(HANDLE, 0, 0));
    }
    let Some(kept) = store.take(alloc) else {
        return unreviewed(not_told(NotDone::StoreHandle));
    };
    let answer = match reviewed(alloc, &kept, place) {
        Ok(made) => told(made, room, lines),
        Err(why) => unreviewed(not_told(why)),
    };
    store.put(kept);
    answer
}

/// A review as it is answered: all but what is written, the text that is, and the lines in their box.
#[derive(Drop)]
struct MadeReview {
    answer: ReviewAnswer,
    text: String,
    lines: Box<Kept>,
}

/// Writes the text, and puts the lines into the handle, which keeps nothing yet, if that fits.
fn told(made: MadeReview, room: &mut [u8], lines: &mut Handle) -> ReviewAnswer
    requires { lines.old.is_there ≡ 0 }
    ensures written { Writes (string_bytes made.text) room.old room.new result.written }
    ensures kept { KeepsWritten result.written made.lines.value lines.old lines.new }
    ensures told { result ≡ with_written made.answer result.written }
{
    let MadeReview {
        answer,
        text,
        lines: kept,
    } = made;
    let written = write(text.as_bytes(), room);
    if written.status == OK {
        lines.put(kept);
    }
    ReviewAnswer { written, ..answer }
}

fn unreviewed(written: Written) -> ReviewAnswer
    ensures { result ≡ unreviewed written }
{
    ReviewAnswer {
        written,
        what: 0,
        gained: 0,
        lost: 0,
        path: 0,
        before: 0,
    }
}

/// The review of a place.
fn reviewed(alloc: Global, kept: &Kept, place: u64) -> Result<MadeReview, NotDone>
    ensures ok { IfOk result (λ made. IsReviewed kept.now place made) }
    ensures err { IfErr result (λ why. IsNotReviewed kept.now place why) }
{
    let Kept::Store(store) = kept else {
        return Err(NotDone::StoreHandle);
    };
    let review = Review::of(store.published(), store.draft());
    let made = review_at(alloc, &review, place)?;
    Ok(made)
}

fn review_at(alloc: Global, review: &Review<'_>, place: u64) -> Result<MadeReview, NotDone>
    ensures ok { IfOk result (λ made. (r : NodeReview) × IsReviewAt (trees_of review.now) place r × IsMadeOf r made) }
    ensures err { IfErr result (λ why. IsNoReviewAt (trees_of review.now) place why) }
{
    let place = place as usize;
    if let Some(node) = review.new.node(place) {
        let made = node_review(alloc, review, node.path)?;
        return Ok(made_of(alloc, made)?);
    }
    let index = place.saturating_sub(review.new.node_count());
    match review.old.node(index) {
        Some(node) => {
            let made = published_review(alloc, review, node.path)?;
            Ok(made_of(alloc, made)?)
        }
        None => Err(NotDone::NoNode),
    }
}

fn made_of(alloc: Global, review: NodeReview) -> Result<MadeReview, AllocError>
    ensures { IfOk result (IsMadeOf review) }
{
    let (path, before) = (review.path.as_str(), review.before.as_str());
    let text = format!(in alloc; "{path}{before}")?;
    let answer = ReviewAnswer {
        written: length_told(0),
        what: review.what,
        gained: review.changes.gained.bits(),
        lost: review.changes.lost.bits(),
        path: path.len() as u64,
        before: before.len() as u64,
    };
    let lines = kept_lines(alloc, review.changes.lines)?;
    Ok(MadeReview {
        answer,
        text,
        lines,
    })
}

/// The review of a node of the store's tree.
fn node_review(alloc: Global, review: &Review<'_>, path: &Path) -> Result<NodeReview, AllocError>
    ensures { IfOk result (λ made. IsNodeReview (trees_of review.now) path.now made) }
{
    match review.former(alloc, path)? {
        Former::Same => same_review(alloc, review, path),
        Former::Moved(before) => moved_review(alloc, review, &before, path),
        Former::New => without_changes(alloc, NEW, path),
    }
}

fn same_review(alloc: Global, review: &Review<'_>, path: &Path) -> Result<NodeReview, AllocError>
    ensures path { IfOk result (λ made. string_bytes made.path ≡ text_of path.now) }
    ensures before { IfOk result (λ made. string_bytes made.before ≡ []) }
    ensures changes { IfOk result (λ made. AreChangesAt (trees_of review.now) path.now path.now made.changes) }
    ensures what { IfOk result (λ made. made.what ≡ same_or_changed made.changes) }
{
    let changes = changes_at(alloc, review, path, path)?;
    let what = same_or_changed(&changes);
    Ok(NodeReview {
        path: format!(in alloc; "{path}")?,
        before: String::new(alloc),
        what,
        changes,
    })
}

fn same_or_changed(changes: &Changes) -> u32
    ensures { result ≡ same_or_changed changes.now }
{
    if changes.lines.is_empty() {
        SAME
    } else {
        CHANGED
    }
}

fn moved_review(
    alloc: Global,
    review: &Review<'_>,
    before: &Path,
    path: &Path,
) -> Result<NodeReview, AllocError>
    ensures path { IfOk result (λ made. string_bytes made.path ≡ text_of path.now) }
    ensures before { IfOk result (λ made. string_bytes made.before ≡ text_of before.now) }
    ensures changes { IfOk result (λ made. AreChangesAt (trees_of review.now) before.now path.now made.changes) }
    ensures what { IfOk result (λ made. made.what ≡ 4) }
{
    let changes = changes_at(alloc, review, before, path)?;
    Ok(NodeReview {
        path: format!(in alloc; "{path}")?,
        before: format!(in alloc; "{before}")?,
        what: MOVED,
        changes,
    })
}

/// The review of a node of the published tree.
fn published_review(
    alloc: Global,
    review: &Review<'_>,
    path: &Path,
) -> Result<NodeReview, AllocError>
    ensures { IfOk result (λ made. IsPublishedReview (trees_of review.now) path.now made) }
{
    if review.new.lookup(path).is_some() {
        return without_changes(alloc, STANDS, path);
    }
    without_changes(alloc, GONE, path)
}

/// The review of a node of which nothing is compared.
fn without_changes(alloc: Global, what: u32, path: &Path) -> Result<NodeReview, AllocError>
    ensures path { IfOk result (λ made. string_bytes made.path ≡ text_of path.now) }
    ensures before { IfOk result (λ made. string_bytes made.before ≡ []) }
    ensures changes { IfOk result (λ made. AreNone made.changes) }
    ensures what { IfOk result (λ made. made.what ≡ what) }
{
    Ok(NodeReview {
        path: format!(in alloc; "{path}")?,
        before: String::new(alloc),
        what,
        changes: no_changes(alloc),
    })
}

fn no_changes(alloc: Global) -> Changes
    ensures { AreNone result }
{
    Changes {
        lines: Vec::new(alloc),
        gained: Mask(0),
        lost: Mask(0),
    }
}

/// What changes at the node of a path beside the one of a path of the published tree.
fn changes_at(
    alloc: Global,
    review: &Review<'_>,
    before: &Path,
    path: &Path,
) -> Result<Changes, AllocError>
    ensures { IfOk result (λ changes. AreChangesAt (trees_of review.now) before.now path.now changes) }
{
    let mut last = None;
    review.compare(alloc, &mut last, before, path)?;
    match &last {
        Some(compared) => changes_of(alloc, compared),
        None => Ok(no_changes(alloc)),
    }
}

fn changes_of(alloc: Global, compared: &Compared) -> Result<Changes, AllocError>
    ensures { IfOk result (AreChangesOf (Some compared.now)) }
{
    let lines = compared.lines(alloc)?;
    let gained = bits_of(&compared.comparison.gained);
    let lost = bits_of(&compared.comparison.lost);
    Ok(Changes {
        lines,
        gained,
        lost,
    })
}
