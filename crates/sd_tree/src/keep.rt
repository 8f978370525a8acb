//! What a node keeps when it is protected.

ghost use Rattle.std.specs.Prelude.{◌≡◌, IfOk, MatchOption, option_map};
ghost use Rattle.sd_edit.specs.Edits.{kept_dacl, keeping};
ghost use Rattle.sd_edit.specs.declared.node.NodeRow.{NodeRow};

use crate::node::Node;
use sd_acl::{canonicalize, explicit_of};
use sd_edit::{Entries, NodeDacl};
use std::alloc::{AllocError, Global};

/// The DACL that a node gets as its own when it is protected and keeps what it had inherited:
/// all entries as explicit ones, in canonical order ([MS-DTYP] 2.4.6, control bit PD). `None` where it is a null one,
/// which stays.
pub(crate) fn kept_dacl(alloc: Global, node: &Node) -> Result<Option<NodeDacl>, AllocError>
    ensures kept { IfOk result (λ kept. kept ≡ option_map kept_dacl node.now.whole) }
    ensures keeping { IfOk result (λ kept. MatchOption kept
        ((row : NodeRow) → keeping node.now.whole row ≡ row)
        (λ dacl. (row : NodeRow) → keeping node.now.whole row ≡ record row { dacl = dacl })) }
{
    let Some(whole) = node.whole(alloc)? else {
        return Ok(None);
    };
    let explicit = explicit_of(alloc, &whole)?;
    let ordered = canonicalize(alloc, &explicit)?;
    Ok(Some(NodeDacl::List {
        protected: true,
        entries: Entries::new(ordered),
    }))
}
