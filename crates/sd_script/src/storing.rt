//! What gives a node the descriptor of a text, of which something may be left out ([MS-DTYP] 2.5.1).
ghost use Rattle.std.specs.Prelude.{◌≡◌, ◌&&◌, IfOk, Some};
ghost use Rattle.sd_script.specs.Argument.{given_with};
ghost use Rattle.sd_script.specs.Command.{Parses, adds, begins_list, keeps, keeps_lists, opens_with, sets_dacl};
ghost use Rattle.sd_script.specs.Command.{stored};
ghost use Rattle.sd_edit.specs.Refusals.{own_entries};

use crate::argument::{Parser, number_in};
use crate::importing::Given;
use crate::line_request::{LineRequest, Parsed};
use sd_acl::{Ace, AceList};
use sd_tree::{Edit, Entries, NodeDacl, NodeKind, RootSpec, inherited_entries};
use std::alloc::{AllocError, Global};

impl Parser {
    /// A store for so many readers with the descriptor of a text.
    pub(crate) fn opening(self, readers: &str, sddl: &str) -> Parsed
        ensures { Parses self.notation (Some (opens_with readers.now sddl.now)) result }
    {
        let readers = number_in(readers)?;
        let (root, is_all) = self.node(sddl)?;
        Ok(Some(LineRequest::Opening {
            readers,
            root,
            is_all,
        }))
    }

    /// A node of this kind with the descriptor of a text.
    pub(crate) fn adding(self, kind: NodeKind, path: &str, sddl: &str) -> Parsed
        ensures { Parses self.notation (Some (adds kind path.now sddl.now)) result }
    {
        let path = self.path(path)?;
        let (node, is_all) = self.node(sddl)?;
        let edit = Edit::addition(kind, path, node);
        Ok(Some(self.stored(edit, is_all)?))
    }

    /// A node of this kind with what it had inherited and been offered elsewhere, where these texts begin as lists do.
    pub(crate) fn keeping_lists(
        self,
        kind: NodeKind,
        path: &str,
        sddl: &str,
        inherited: &str,
        offer: &str,
    ) -> Parsed
        ensures { Parses self.notation (keeps_lists kind path.now sddl.now inherited.now offer.now) result }
    {
        if begins_list(inherited) && begins_list(offer) {
            self.keeping(kind, path, sddl, inherited, offer)
        } else {
            Ok(None)
        }
    }

    /// A node of this kind with the descriptor of a text, which keeps what it had inherited elsewhere while its
    /// container offers what was offered there.
    fn keeping(self, kind: NodeKind, path: &str, sddl: &str, inherited: &str, offer: &str) -> Parsed
        ensures { Parses self.notation (Some (keeps kind path.now sddl.now inherited.now offer.now)) result }
    {
        let path = self.path(path)?;
        let (RootSpec { owner, group, dacl }, is_all) = self.node(sddl)?;
        let (inherited, has_all) = self.list(inherited)?;
        let (offer, offers_all) = self.list(offer)?;
        let is_all = are_all(is_all, has_all, offers_all);
        let given = given_with(self.alloc, own_entries(&dacl), inherited.entries(), is_all)?;
        let dacl = dacl.stored(inherited, offer);
        let added = path.copy(self.alloc)?;
        Ok(Some(LineRequest::Importing {
            edit: Edit::addition(kind, added, RootSpec { owner, group, dacl }),
            path,
            given,
        }))
    }

    /// The DACL of a text, as a node's own.
    pub(crate) fn setting_dacl(self, path: &str, sddl: &str) -> Parsed
        ensures { Parses self.notation (Some (sets_dacl path.now sddl.now)) result }
    {
        let path = self.path(path)?;
        let (dacl, is_all) = self.dacl(sddl)?;
        let edit = Edit::SetDacl { path, dacl };
        Ok(Some(self.stored(edit, is_all)?))
    }

    /// An edit by the descriptor of a text, which has all that the text says or not. The only error is out of memory.
    fn stored(self, edit: Edit, is_all: bool) -> Result<LineRequest, AllocError>
        ensures { IfOk result (λ asks. asks ≡ stored is_all edit) }
    {
        if is_all {
            self.edit(edit)
        } else {
            Ok(LineRequest::Trimming { edit })
        }
    }
}

/// The entries that a node has of its own.
fn own_entries(dacl: &NodeDacl) -> &[Ace]
    ensures { result.now ≡ own_entries dacl.now }
{
    match dacl {
        NodeDacl::Null => &[],
        NodeDacl::List { entries, .. } | NodeDacl::Stored { entries, .. } => entries.as_slice(),
    }
}

/// What a node had elsewhere: its own entries, and those that it had inherited. The only error is out of memory.
pub(crate) fn given_with(
    alloc: Global,
    own: &[Ace],
    inherited: &[Ace],
    is_all: bool,
) -> Result<Given, AllocError>
    ensures { IfOk result (λ given. given ≡ given_with own.now inherited.now is_all) }
{
    let mut entries = Vec::from_slice(alloc, own)?;
    let mut inherited = inherited_entries(alloc, inherited)?;
    entries.append(&mut inherited)?;
    Ok(Given {
        entries: Some(Entries::new(entries)),
        is_all,
    })
}

/// Whether nothing of the three texts of a node was left out.
fn are_all(descriptor: bool, inherited: bool, offer: bool) -> bool
    ensures { result ≡ (descriptor && inherited && offer) }
{
    descriptor && inherited && offer
}

/// Whether a text begins as that of a list does. (A blank in a descriptor makes two words of it.)
fn begins_list(word: &str) -> bool
    ensures { result ≡ begins_list word.now }
{
    word.as_bytes().starts_with(b"D:")
}
