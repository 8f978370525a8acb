//! Whether what a line asks for is what makes a node, or a publish.
ghost use Rattle.std.specs.Prelude.{◌≡◌, true, IfOk, option_map};
ghost use Rattle.std.specs.Bool.{Decides};
ghost use Rattle.sd_edit.specs.Additions.{addition_of, root_of};
ghost use Rattle.sd_tree.specs.Listing.{listed};
ghost use Rattle.sd_edit.specs.declared.request.Request.TheVariants as requests;
ghost use Rattle.sd_script.specs.Dump.{making, wanted};
ghost use Rattle.sd_script.specs.declared.line_request.LineRequest.TheVariants.{Asking, Importing, Opening};

use crate::importing::Given;
use crate::line_request::LineRequest;
use crate::storing::given_with;
use sd_acl::same_entries;
use sd_tree::{Edit, NodeDacl, NodeKind, NodeRef, Path, RootSpec};
use sd_versions::Request;
use std::alloc::{AllocError, Global};

/// Whether this makes the node, whose tree is opened for so many readers; or is a publish, where there is none.
pub(crate) fn is_wanted(
    alloc: Global,
    asked: &LineRequest,
    readers: u64,
    node: &Option<NodeRef<'_>>,
) -> Result<bool, AllocError>
    ensures { IfOk result (λ is. Decides is (asked.now ≡ wanted readers (option_map listed node.now))) }
{
    match node {
        Some(node) => is_making(alloc, asked, readers, node),
        None => Ok(is_publish(asked)),
    }
}

fn is_publish(asked: &LineRequest) -> bool
    ensures { Decides result (asked.now ≡ Asking requests.Publish) }
{
    match asked {
        LineRequest::Asking(asked) => matches!(asked.as_request(), Request::Publish),
        _ => false,
    }
}

/// Whether this makes the node.
fn is_making(
    alloc: Global,
    asked: &LineRequest,
    readers: u64,
    node: &NodeRef<'_>,
) -> Result<bool, AllocError>
    ensures { IfOk result
        (λ is. Decides is (asked.now ≡ making readers (listed node.now).0 (listed node.now).1)) }
{
    if node.path.as_path_ref().is_root() {
        return Ok(is_opening(asked, readers, node));
    }
    match node.dacl {
        NodeDacl::Stored {
            entries,
            inherited,
            ..
        } => {
            let given = given_with(alloc, entries.as_slice(), inherited.entries(), true)?;
            Ok(is_importing(asked, node, &given))
        }
        _ => Ok(is_adding(asked, node)),
    }
}

/// Whether this opens a store for so many readers with the node as its root.
fn is_opening(asked: &LineRequest, readers: u64, node: &NodeRef<'_>) -> bool
    ensures { Decides result (asked.now ≡ Opening readers (root_of (listed node.now).1) true) }
{
    match asked {
        LineRequest::Opening {
            readers: some,
            root,
            is_all,
        } => *some == readers && *is_all && is_root_of(root, node),
        _ => false,
    }
}

/// Whether this adds the node.
fn is_adding(asked: &LineRequest, node: &NodeRef<'_>) -> bool
    ensures { Decides result (asked.now ≡ Asking (requests.Edit
        (addition_of (listed node.now).1.kind (listed node.now).0 (listed node.now).1))) }
{
    match asked {
        LineRequest::Asking(asked) => match asked.as_request() {
            Request::Edit(edit) => is_addition(edit, node),
            _ => false,
        },
        _ => false,
    }
}

/// Whether this adds the node, which had this elsewhere.
fn is_importing(asked: &LineRequest, node: &NodeRef<'_>, had: &Given) -> bool
    ensures { Decides result (asked.now ≡ Importing
        (addition_of (listed node.now).1.kind (listed node.now).0 (listed node.now).1) (listed node.now).0 had.now) }
{
    match asked {
        LineRequest::Importing { edit, path, given } => {
            is_addition(edit, node) && same_path(path, node.path) && same_given(given, had)
        }
        _ => false,
    }
}

fn same_given(one: &Given, other: &Given) -> bool
    ensures { Decides result (one.now ≡ other.now) }
{
    one.is_all == other.is_all
        && match (&one.entries, &other.entries) {
            (None, None) => true,
            (Some(one), Some(other)) => same_entries(one.as_slice(), other.as_slice()),
            _ => false,
        }
}

/// Whether the root is given what the node has of its own.
fn is_root_of(root: &RootSpec, node: &NodeRef<'_>) -> bool
    ensures { Decides result (root.now ≡ root_of (listed node.now).1) }
{
    root.owner.is(&node.owner) && root.group.is(&node.group) && same_dacl(&root.dacl, node.dacl)
}

/// Whether the edit adds the node.
fn is_addition(edit: &Edit, node: &NodeRef<'_>) -> bool
    ensures { Decides result (edit.now ≡ addition_of (listed node.now).1.kind (listed node.now).0 (listed node.now).1) }
{
    match (edit, node.kind) {
        (
            Edit::AddContainer {
                path,
                owner,
                group,
                dacl,
            },
            NodeKind::Container,
        )
        | (
            Edit::AddObject {
                path,
                owner,
                group,
                dacl,
            },
            NodeKind::Object,
        ) => {
            same_path(path, node.path)
                && owner.is(&node.owner)
                && group.is(&node.group)
                && same_dacl(dacl, node.dacl)
        }
        _ => false,
    }
}

#[tactic(auto, using(crate::proofs::Dumping::path_decides))]
fn same_path(one: &Path, other: &Path) -> bool
    ensures { Decides result (one.now ≡ other.now) }
{
    one == other
}

fn same_dacl(one: &NodeDacl, other: &NodeDacl) -> bool
    ensures { Decides result (one.now ≡ other.now) }
{
    match (one, other) {
        (NodeDacl::Null, NodeDacl::Null) => true,
        (
            NodeDacl::List { protected, entries },
            NodeDacl::List {
                protected: too,
                entries: others,
            },
        ) => *protected == *too && same_entries(entries.as_slice(), others.as_slice()),
        (
            NodeDacl::Stored {
                entries,
                inherited,
                offer,
            },
            NodeDacl::Stored {
                entries: own,
                inherited: behind,
                offer: offered,
            },
        ) => {
            same_entries(entries.as_slice(), own.as_slice())
                && same_entries(inherited.entries(), behind.entries())
                && same_entries(offer.entries(), offered.entries())
        }
        _ => false,
    }
}
