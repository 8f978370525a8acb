//! Whether a list may be given to a node.

ghost use Rattle.std.specs.Prelude.{◌≡◌};
ghost use Rattle.std.specs.List.{list_any};
ghost use Rattle.sd_acl.specs.Canonical.{is_inherited};
ghost use Rattle.sd_edit.specs.Refusals.{first_fit, list_tests};

use sd_acl::{Ace, denies_stand_first};
use sd_edit::{EditRefusal, NodeDacl};

/// Why the DACL can't be given to a node, if it can't: an entry of its list is marked as inherited, or else a deny
/// stands behind an allow ([MS-DTYP] 2.4.4.1, INHERITED_ACE, and 2.4.5). Takes no memory.
#[tactic(auto, using(crate::proofs::TwoTests::neither_fits, crate::proofs::TwoTests::second_fits))]
pub(crate) fn list_refusal(dacl: &NodeDacl) -> Option<EditRefusal>
    ensures { result ≡ first_fit (list_tests dacl.now) }
{
    let (NodeDacl::List { entries, .. } | NodeDacl::Stored { entries, .. }) = dacl else {
        return None;
    };
    let entries = entries.as_slice();
    if has_inherited(entries) {
        Some(EditRefusal::InheritedEntry)
    } else if denies_stand_first(entries) {
        None
    } else {
        Some(EditRefusal::NotCanonical)
    }
}

/// Whether some entry was inherited.
fn has_inherited(entries: &[Ace]) -> bool
    ensures { result ≡ list_any is_inherited entries.now }
{
    entries.iter().any(Ace::is_inherited)
}
