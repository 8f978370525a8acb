//! Where a node of the pending tree was in the published one.
ghost use Rattle.std.specs.Prelude.{◌≡◌, ◌<◌, IfOk, Some, drop, length, slice_get, true};
ghost use Rattle.sd_path.specs.Names.{is_within, moved_path};
ghost use Rattle.sd_review.specs.Origin.{origin, path_or_none, place_before, unless_same};

use sd_path::{MAX_NAMES, Path};
use sd_tree::{Edit, Journal, Tree};
use std::alloc::{AllocError, Global};

/// Where the node that stands at the path stood before the tree's edits from a place on, if they didn't add it.
pub(crate) fn origin(
    alloc: Global,
    tree: &Tree,
    from: usize,
    path: &Path,
) -> Result<Option<Path>, AllocError>
    ensures { IfOk result (λ found. found ≡ origin (drop from tree.now.journal) path.now) }
{
    let journal = tree.journal();
    let mut place = path.copy(alloc)?;
    let mut at = tree.len() as usize;
    while at > from {
        at -= 1;
        let edit = edit_at(&journal, at);
        match place_before(alloc, edit, place)? {
            Some(before) => place = before,
            None => return Ok(None),
        }
    }
    Ok(Some(place))
}

/// The edit at a place of the journal.
fn edit_at<'a>(journal: &Journal<'a>, at: usize) -> &'a Edit
    requires { at < length journal.now }
    ensures { Some result.now ≡ slice_get journal.now at }
{
    match journal.get(at) {
        Some(edit) => edit.get(),
        None => unreachable!(),
    }
}

/// Where it stood before one edit.
fn place_before(alloc: Global, edit: &Edit, path: Path) -> Result<Option<Path>, AllocError>
    ensures { IfOk result (λ found. found ≡ place_before edit.now path) }
{
    match edit {
        Edit::AddContainer { path: added, .. } => Ok(unless_same(added, path)),
        Edit::AddObject { path: added, .. } => Ok(unless_same(added, path)),
        Edit::Move { source, target } => place_before_move(alloc, source, target, path),
        Edit::SetOwner { .. } => Ok(Some(path)),
        Edit::SetGroup { .. } => Ok(Some(path)),
        Edit::SetDacl { .. } => Ok(Some(path)),
        Edit::Remove { .. } => Ok(Some(path)),
        Edit::ProtectKeeping { .. } => Ok(Some(path)),
    }
}

fn unless_same(added: &Path, path: Path) -> Option<Path>
    ensures { result ≡ unless_same added.now path }
{
    if path == *added { None } else { Some(path) }
}

fn place_before_move(
    alloc: Global,
    source: &Path,
    target: &Path,
    path: Path,
) -> Result<Option<Path>, AllocError>
    ensures { IfOk result (λ found. found ≡ place_before (Edit.Move source.now target.now) path) }
{
    if !path.as_path_ref().is_within(&target.as_path_ref()) {
        return Ok(Some(path));
    }
    moved_back(alloc, source, target, &path)
}

/// The path with its prefix, the target of a move, replaced by the move's source.
fn moved_back(
    alloc: Global,
    source: &Path,
    target: &Path,
    path: &Path,
) -> Result<Option<Path>, AllocError>
    requires { is_within target.now path.now ≡ true }
    ensures { IfOk result (λ found. found ≡ path_or_none (moved_path target.now source.now path.now)) }
{
    let (source, target) = (source.as_path_ref(), target.as_path_ref());
    let below = path.as_path_ref().depth().saturating_sub(target.depth());
    if source.depth().saturating_add(below) > u64::from(MAX_NAMES) {
        return Ok(None);
    }
    Ok(Some(path.moved(alloc, &target, &source)?))
}
