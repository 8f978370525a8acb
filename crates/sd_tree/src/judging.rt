//! Whether an edit is refused.

ghost use Rattle.std.specs.Prelude.{◌≡◌, ◌<◌, length, false, None, ◌++◌, ◌∷◌, [], nat_lt, nat_le, IfOk, IfErr};
ghost use Rattle.std.specs.List.{HoldsAt};
ghost use Rattle.std.specs.FinMap.{len};
ghost use Rattle.sd_edit.specs.Answers.{kind_at, IsError};
ghost use Rattle.sd_edit.specs.Edits.{edited};
ghost use Rattle.sd_path.specs.Names.{is_root};
ghost use Rattle.sd_tree.specs.Plans.{IsPlan};
ghost use Rattle.sd_edit.specs.Refusals.{early_refusal, first_fit, place_tests, addition_tests, move_tests};
ghost use Rattle.sd_edit.specs.Refusals.{moves_too_deep, node_tests, room_tests, has_child, refusal_in};
ghost use Rattle.sd_tree.specs.Stored.{path_of_node};
ghost use Rattle.sd_tree.specs.View.{IsView, tree_in};
ghost use Rattle.sd_edit.specs.declared.refusal.EditRefusal.TheVariants.{NotEmpty, IsRoot, TooDeep, NodesFull};
ghost use Rattle.sd_edit.specs.declared.refusal.EditRefusal.TheVariants.{JournalFull};

use crate::list_refusal::list_refusal;
use crate::nodes::{locate, node_at};
use crate::plan::Plan;
use crate::shared::Shared;
use crate::tree_view::TreeView;
use sd_edit::{Edit, EditRefusal, Limits, NodeDacl, TreeError};
use sd_inheritance::NodeKind;
use sd_path::{Path, PathRef};
use std::alloc::{AllocError, Global};

/// The most names of a node's path, a choice of this profile: it bounds how many levels down an edit reaches.
pub(crate) const MAX_DEPTH: u64 = 64;

impl TreeView<'_> {
    /// The kind of the node of a path.
    pub(crate) fn kind_at(&self, path: &PathRef<'_>) -> Option<NodeKind>
        requires { IsView self.now }
        ensures { result ≡ kind_at (tree_in self.now) path.now }
    {
        match node_at(self.nodes, path) {
            Some(node) => Some(node.row().kind),
            None => None,
        }
    }

    /// Why no node may come to the path.
    fn place_refusal(&self, path: &Path) -> Option<EditRefusal>
        requires { IsView self.now }
        ensures { result ≡ first_fit (place_tests (tree_in self.now) path.now) }
    {
        let path = path.as_path_ref();
        if !path.is_root() {
            match self.kind_at(&path.parent()) {
                None => return Some(EditRefusal::NoParent),
                Some(NodeKind::Object) => return Some(EditRefusal::ParentIsObject),
                Some(NodeKind::Container) => {}
            }
        }
        match self.kind_at(&path) {
            Some(_) => Some(EditRefusal::Exists),
            None => None,
        }
    }

    /// Why no node may be added at the path with this DACL.
    fn addition_refusal(&self, path: &Path, dacl: &NodeDacl) -> Option<EditRefusal>
        requires { IsView self.now }
        ensures { result ≡ first_fit (addition_tests (tree_in self.now) path.now dacl.now) }
    {
        match self.place_refusal(path) {
            Some(refusal) => Some(refusal),
            None => list_refusal(dacl),
        }
    }

    /// Why the node of the path can't be changed: none is there.
    fn absence(&self, path: &Path) -> Option<EditRefusal>
        requires { IsView self.now }
        ensures { result ≡ first_fit (node_tests (tree_in self.now) path.now) }
    {
        match self.kind_at(&path.as_path_ref()) {
            Some(_) => None,
            None => Some(EditRefusal::NoNode),
        }
    }

    /// Whether a node stands right below the one at a place: then the next in order does.
    pub(crate) fn has_child(&self, path: &PathRef<'_>, at: usize) -> bool
        requires standing { IsView self.now }
        requires within { at < length self.now.nodes.now }
        requires stands { HoldsAt (λ b. path_of_node b ≡ path.now) self.now.nodes.now at }
        ensures { result ≡ has_child (tree_in self.now) path.now }
    {
        let count = self.nodes.len();
        if at + 1 == count {
            return false;
        }
        self.node(at + 1).path().is_within(path)
    }

    /// Why the node of the path can't go.
    fn removal_refusal(&self, path: &Path) -> Option<EditRefusal>
        requires { IsView self.now }
        ensures { result ≡ first_fit (node_tests (tree_in self.now) path.now ++
            (has_child (tree_in self.now) path.now, NotEmpty) ∷ (is_root path.now, IsRoot) ∷ []) }
    {
        let path = path.as_path_ref();
        match locate(self.nodes, &path) {
            Err(_) => Some(EditRefusal::NoNode),
            Ok(at) => {
                if self.has_child(&path, at) {
                    return Some(EditRefusal::NotEmpty);
                }
                if path.is_root() {
                    return Some(EditRefusal::IsRoot);
                }
                None
            }
        }
    }

    /// Why the node of the source can't go to the target.
    fn move_refusal(&self, source: &Path, target: &Path) -> Option<EditRefusal>
        requires { IsView self.now }
        ensures { result ≡ first_fit (move_tests (tree_in self.now) source.now target.now) }
    {
        if let Some(refusal) = self.place_refusal(target) {
            return Some(refusal);
        }
        if let Some(refusal) = self.absence(source) {
            return Some(refusal);
        }
        let source = source.as_path_ref();
        if source.is_root() {
            return Some(EditRefusal::IsRoot);
        }
        if target.as_path_ref().is_within(&source) {
            return Some(EditRefusal::IntoItself);
        }
        None
    }

    /// Why an edit is refused by the tests that take no memory.
    fn early_refusal(&self, edit: &Edit) -> Option<EditRefusal>
        requires { IsView self.now }
        ensures { result ≡ early_refusal (tree_in self.now) edit.now }
    {
        match edit {
            Edit::AddContainer { path, dacl, .. } => self.addition_refusal(path, dacl),
            Edit::AddObject { path, dacl, .. } => self.addition_refusal(path, dacl),
            Edit::SetOwner { path, .. } => self.absence(path),
            Edit::SetGroup { path, .. } => self.absence(path),
            Edit::SetDacl { path, dacl } => match self.absence(path) {
                Some(refusal) => Some(refusal),
                None => list_refusal(dacl),
            },
            Edit::Remove { path } => self.removal_refusal(path),
            Edit::ProtectKeeping { path } => self.absence(path),
            Edit::Move { source, target } => self.move_refusal(source, target),
        }
    }

    /// Why one more node can't be had at the path, in a tree of so many nodes at most.
    fn room_refusal(&self, path: &Path, most: u64) -> Option<EditRefusal>
        requires { IsView self.now }
        ensures { result ≡ first_fit ((nat_lt 64 (length path.now), TooDeep) ∷
            (nat_le most (len (tree_in self.now)), NodesFull) ∷ []) }
    {
        if path.as_path_ref().depth() > MAX_DEPTH {
            return Some(EditRefusal::TooDeep);
        }
        if self.nodes.len() as u64 >= most {
            return Some(EditRefusal::NodesFull);
        }
        None
    }

    /// Why an edit is refused by the limits, after so many edits; a move that goes too deep has no plan.
    fn limit_refusal(&self, edit: &Edit, edits: u64, limits: Limits) -> Option<EditRefusal>
        requires standing { IsView self.now }
        requires shallow { moves_too_deep (tree_in self.now) edit.now ≡ false }
        ensures { result ≡ first_fit (room_tests limits (tree_in self.now) edit.now
            ++ (nat_le limits.edits edits, JournalFull) ∷ []) }
    {
        let room = match edit {
            Edit::AddContainer { path, .. } => self.room_refusal(path, limits.nodes()),
            Edit::AddObject { path, .. } => self.room_refusal(path, limits.nodes()),
            _ => None,
        };
        match room {
            Some(refusal) => Some(refusal),
            None if edits >= limits.edits() => Some(EditRefusal::JournalFull),
            None => None,
        }
    }

    /// An edit after so many edits, as the journal is to keep it, and its plan; or why it is refused within these
    /// limits.
    pub(crate) fn plan_or_refusal(
        &self,
        edit: &Edit,
        edits: u64,
        limits: Limits,
    ) -> Result<(Shared<Edit>, Plan), TreeError>
        requires { IsView self.now }
        ensures edit { IfOk result (λ planned. planned.0 ≡ edit.now) }
        ensures plan { IfOk result (λ planned. IsPlan self.now.mapping.now (tree_in self.now)
            (edited self.now.mapping.now (tree_in self.now) edit.now) planned.1) }
        ensures accepted { IfOk result (λ _.
            refusal_in limits self.now.mapping.now (tree_in self.now) edits edit.now ≡ None) }
        ensures refused { IfErr result (λ e. IsError e
            (refusal_in limits self.now.mapping.now (tree_in self.now) edits edit.now)) }
    {
        if let Some(refusal) = self.early_refusal(edit) {
            return Err(TreeError::Refused(refusal));
        }
        let edit = shared_edit(self.alloc, edit)?;
        let plan = self.plan(&edit)?;
        match self.limit_refusal(edit.get(), edits, limits) {
            Some(refusal) => Err(TreeError::Refused(refusal)),
            None => Ok((edit, plan)),
        }
    }
}

/// An equal edit, for its first holder.
fn shared_edit(alloc: Global, edit: &Edit) -> Result<Shared<Edit>, AllocError>
    ensures { IfOk result (λ shared. shared ≡ edit.now) }
{
    Shared::new(alloc, edit.copy(alloc)?)
}
