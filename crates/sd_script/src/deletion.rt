//! Whether a user may delete a node, as NTFS judges it.
ghost use Rattle.std.specs.Prelude.{◌≡◌, IfOk};
ghost use Rattle.sd_script.specs.Deletion.{deletion_line, granted_by, parent_grants, parent_of};

use crate::listing::grants;
use crate::reply::plain_line;
use sd_answer::{DENIED_ALL, GRANTED_BY, NO_NODE};
use sd_check::Token;
use sd_line::{Line, Value};
use sd_path::MAX_NAMES;
use sd_sid::Mask;
use sd_tree::{CheckReply, Path, Tree};
use std::alloc::{AllocError, Global};

/// DELETE, of all objects ([MS-DTYP] 2.4.3).
pub(crate) const DELETE: Mask = Mask(0x0001_0000);

/// FILE_DELETE_CHILD of folders (winnt.h).
const FILE_DELETE_CHILD: Mask = Mask(0x40);

/// Whether the node's parent grants the token to delete what is in it ([MS-FSA] 2.1.5.1.2.1).
pub(crate) fn parent_grants(
    alloc: Global,
    tree: &Tree,
    path: &Path,
    token: &Token,
) -> Result<bool, AllocError>
    ensures { IfOk result
        (λ granted. granted ≡ parent_grants tree.now.opening tree.now.journal path.now token.now) }
{
    match parent_of(alloc, path)? {
        Some(parent) => Ok(grants(tree.check(&parent, token, FILE_DELETE_CHILD))),
        None => Ok(false),
    }
}

/// The parent's path. The root has none.
fn parent_of(alloc: Global, path: &Path) -> Result<Option<Path>, AllocError>
    ensures { IfOk result (λ found. found ≡ parent_of path.now) }
{
    let place = path.as_path_ref();
    if place.is_root() || place.depth() > u64::from(MAX_NAMES) {
        return Ok(None);
    }
    let parent = path.moved(alloc, &place, &place.parent())?;
    Ok(Some(parent))
}

/// Which descriptor grants the deletion: the node's own first. The only error is out of memory.
pub(crate) fn deletion_line(
    alloc: Global,
    reply: CheckReply,
    by_parent: bool,
) -> Result<Line, AllocError>
    ensures { IfOk result (λ line. line ≡ deletion_line reply by_parent) }
{
    match reply {
        CheckReply::NoNode => plain_line(alloc, NO_NODE),
        CheckReply::Verdict(_) if grants(reply) => granted_by(alloc, "node"),
        CheckReply::Verdict(_) if by_parent => granted_by(alloc, "parent"),
        CheckReply::Verdict(_) => plain_line(alloc, DENIED_ALL),
    }
}

fn granted_by(alloc: Global, whom: &str) -> Result<Line, AllocError>
    ensures { IfOk result (λ line. line ≡ granted_by whom.now) }
{
    let whom = Value::word(alloc, whom)?;
    Line::new(alloc, GRANTED_BY, vec![in alloc; whom]?)
}
