//! Who is granted which rights by a node of the published tree.
ghost use Rattle.std.specs.Prelude.{◌≡◌, ◌∷◌, [], IfOk};
ghost use Rattle.sd_analysis.specs.Who.{is_in_base};
ghost use Rattle.sd_edit.specs.Answers.{descriptor_at};
ghost use Rattle.sd_edit.specs.Journal.{replay};
ghost use Rattle.sd_script.specs.Who.{IsOnly, IsWhoAnswer, are_for, asks_no_right, is_for, or_empty};

use crate::expect::expect_line;
use crate::reply::{alone, plain_line};
use crate::view::Groups;
use sd_acl::AceKind;
use sd_analysis::{Access, Base, Holder, who};
use sd_answer::{EMPTY, NO_NODE, dacl_ref, rights_asked, who_lines};
use sd_line::Line;
use sd_sid::{Mask, OBJECT_RIGHTS};
use sd_tree::{Path, Tree};
use std::alloc::{AllocError, Global};

/// The lines of the node of a path: whom its descriptor grants which of the rights, of the tokens that have these
/// groups ([MS-DTYP] 2.5.3.2). `nonode` where none stands there, and `empty` where no right is asked about.
pub(crate) fn node_who_lines(
    alloc: Global,
    tree: &Tree,
    path: &Path,
    groups: &Groups,
    asked: Mask,
) -> Result<Vec<Line>, AllocError>
    ensures { IfOk result (λ lines. IsWhoAnswer tree.now.opening.mapping
        (descriptor_at tree.now.opening.mapping (replay tree.now.opening tree.now.journal) path.now)
        asked groups.now lines.items) }
{
    let Some(descriptor) = tree.descriptor(path)? else {
        return alone(alloc, plain_line(alloc, NO_NODE)?);
    };
    let base = Base {
        groups: groups.as_slice(),
    };
    let dacl = dacl_ref(&descriptor.dacl);
    let rights = rights_asked(tree.mapping(), asked);
    let accesses = who(alloc, descriptor.owner, dacl, tree.mapping(), &base, rights)?;
    or_empty(alloc, who_lines(alloc, &accesses)?)
}

/// The lines, or `empty` where there is none: where no right was asked about.
fn or_empty(alloc: Global, lines: Vec<Line>) -> Result<Vec<Line>, AllocError>
    ensures { IfOk result (λ answer. answer.items ≡ or_empty lines.items) }
{
    if lines.is_empty() {
        alone(alloc, plain_line(alloc, EMPTY)?)
    } else {
        Ok(lines)
    }
}

/// What a line is answered by that expects the node of a path to grant rights to nobody but tokens with one of these
/// groups ([MS-DTYP] 2.5.3.2). Where no node stands there, or no right is asked about, its expectation isn't met.
pub(crate) fn only_line(
    alloc: Global,
    tree: &Tree,
    path: &Path,
    groups: &Groups,
    asked: Mask,
) -> Result<Line, AllocError>
    ensures { IfOk result (λ line. IsOnly tree.now.opening.mapping
        (descriptor_at tree.now.opening.mapping (replay tree.now.opening tree.now.journal) path.now)
        asked groups.now (line ∷ [])) }
{
    let Some(descriptor) = tree.descriptor(path)? else {
        return expect_line(alloc, false);
    };
    let everyone = Base { groups: &[] };
    let dacl = dacl_ref(&descriptor.dacl);
    let rights = rights_asked(tree.mapping(), asked);
    let accesses = who(
        alloc,
        descriptor.owner,
        dacl,
        tree.mapping(),
        &everyone,
        rights,
    )?;
    let groups = Base {
        groups: groups.as_slice(),
    };
    let is_met = !asks_no_right(rights) && are_for(&groups, &accesses);
    expect_line(alloc, is_met)
}

/// Whether no right of objects is among these, below bit 21.
fn asks_no_right(rights: Mask) -> bool
    ensures { result ≡ asks_no_right rights }
{
    rights.common(OBJECT_RIGHTS).is_empty()
}

/// Whether all accesses are for these groups alone.
fn are_for(groups: &Base<'_>, accesses: &[Access]) -> bool
    ensures { result ≡ are_for groups.now accesses.now }
{
    accesses.iter().all(|access| is_for(groups, access))
}

/// Whether each alternative of an access is for one of the groups, whatever else it is unless.
fn is_for(groups: &Base<'_>, access: &Access) -> bool
    ensures { result ≡ is_for groups.now access.now }
{
    access
        .alternatives
        .iter()
        .all(|alternative| is_among(groups, &alternative.holder))
}

/// Whether the holder is one of the groups, which is enabled.
fn is_among(groups: &Base<'_>, holder: &Holder) -> bool
    ensures { result ≡ is_in_base groups.now holder.now }
{
    match holder {
        Holder::Everyone => false,
        Holder::Sid(sid) | Holder::Owner(sid) => groups.stands_for(AceKind::Allow, sid),
    }
}
