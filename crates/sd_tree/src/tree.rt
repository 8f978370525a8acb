//! A tree that is the replay of its journal.

ghost use Rattle.std.specs.Prelude.{◌≡◌, ◌≤◌, [], ◌∷◌, ◌++◌, length, None, false, OnOk, OnErr, IfOk, IfErr, IsSome};
ghost use Rattle.std.specs.Prelude.{MatchResult, option_map};
ghost use Rattle.sd_acl.specs.Descriptor.{descriptor_of};
ghost use Rattle.sd_edit.specs.Answers.{answer, kind_at, descriptor_at, IsError};
ghost use Rattle.sd_edit.specs.Journal.{opening_of, opening_within, root_row, replay, refusal, root_refusal, IsLawful};
ghost use Rattle.sd_edit.specs.Plain.{row_at};
ghost use Rattle.sd_tree.specs.Plans.{IsPlanned};
ghost use Rattle.sd_edit.specs.Refusals.{is_early, dacl_size};
ghost use Rattle.sd_edit.specs.Inheritance.{dacl_of_row};
ghost use Rattle.sd_tree.specs.Sizes.{IsSizeError};
ghost use Rattle.sd_tree.specs.View.{IsView, tree_in};

use crate::addition::Addition;
use crate::describe::descriptor_of_node;
use crate::inherit::inherited_below;
use crate::journal::{Edits, Journal};
use crate::list_refusal::list_refusal;
use crate::node::Node;
use crate::nodes::node_at;
use crate::plan::{Plan, carry_out};
use crate::shared::Shared;
use crate::tree_view::TreeView;
use sd_acl::Descriptor;
use sd_blocks::Blocks;
use sd_check::{DaclRef, Token, Verdict, check_joined, check_parts};
use sd_edit::{CheckReply, Edit, EditRefusal, Limits, NodeRow, Opening, RootSpec, TreeError};
use sd_inheritance::NodeKind;
use sd_path::Path;
use sd_sid::{GenericMapping, Mask};
use std::alloc::{AllocError, Global};
use std::marker::Model;

/// A tree of securable nodes: its opening, the journal of the edits that it accepted, and what they make of it.
/// Contracts see the opening and the journal.
#[derive(Drop)]
pub struct Tree {
    pub(crate) alloc: Global,
    pub(crate) opening: Opening,
    journal: Edits,
    pub(crate) nodes: Blocks<Node>,
}

impl Model for Tree {
    ghost use Rattle.sd_edit.specs.Journal.{TreeValue};
    ghost use Rattle.sd_tree.specs.Stored.{IsStored, edits_in};

    ghost Value = { TreeValue };

    ghost view = { λ t. record { opening = t.opening; journal = edits_in t.journal } };

    ghost invariant = { λ t. IsStored t.opening (edits_in t.journal) t.nodes };
}

impl Tree {
    /// The tree of the root alone, which is a container; or the first refusal of the root: `InheritedEntry`,
    /// `NotCanonical`, `AclTooLarge`.
    pub fn opening(
        alloc: Global,
        mapping: &GenericMapping,
        root: &RootSpec,
    ) -> Result<Tree, TreeError>
        ensures opening { IfOk result (λ t. t.opening ≡ opening_of mapping.now root.now) }
        ensures journal { IfOk result (λ t. t.journal ≡ []) }
        ensures accepted { IfOk result (λ _. root_refusal (opening_of mapping.now root.now) ≡ None) }
        ensures refused { IfErr result (λ e. IsError e (root_refusal (opening_of mapping.now root.now))) }
    {
        Tree::opening_within(alloc, mapping, root, Limits::standard())
    }

    /// The tree of the root alone, which is a container, within these limits; or the first refusal of the root:
    /// `InheritedEntry`, `NotCanonical`, `AclTooLarge`.
    pub fn opening_within(
        alloc: Global,
        mapping: &GenericMapping,
        root: &RootSpec,
        limits: Limits,
    ) -> Result<Tree, TreeError>
        ensures opening { IfOk result (λ t. t.opening ≡ opening_within mapping.now root.now limits) }
        ensures journal { IfOk result (λ t. t.journal ≡ []) }
        ensures accepted { IfOk result (λ _. root_refusal (opening_within mapping.now root.now limits) ≡ None) }
        ensures refused { IfErr result (λ e. IsError e (root_refusal (opening_within mapping.now root.now limits))) }
    {
        if let Some(refusal) = list_refusal(&root.dacl) {
            return Err(TreeError::Refused(refusal));
        }
        let node = root_node(alloc, mapping, root)?;
        let opening = Opening {
            mapping: *mapping,
            root: root.copy(alloc)?,
            limits,
        };
        let nodes = Blocks::single(alloc, node)?;
        Ok(Tree {
            alloc,
            opening,
            journal: Edits::new(alloc),
            nodes,
        })
    }

    /// An edit joins the journal, or the first refusal that fits is answered and the tree stays; want of memory only
    /// where none is due that is found without it.
    pub fn apply(&mut self, edit: &Edit) -> Result<(), TreeError>
        ensures opening { self.new.opening ≡ self.old.opening }
        ensures journal { MatchResult result (λ _. self.new.journal ≡ self.old.journal ++ edit.now ∷ [])
            (λ _. self.new.journal ≡ self.old.journal) }
        ensures accepted { OnOk result (refusal self.old.opening self.old.journal edit.now ≡ None) }
        ensures refused { IfErr result (λ e. IsError e (refusal self.old.opening self.old.journal edit.now)) }
    {
        let (edit, plan) = self.plan_or_refusal(edit)?;
        self.accept(edit, plan)?;
        Ok(())
    }

    /// The edits that were accepted, in their order.
    pub fn journal(&self) -> Journal<'_>
        ensures journal { result ≡ self.now.journal }
        ensures accepted { root_refusal self.now.opening ≡ None }
        ensures lawful { IsLawful self.now.opening self.now.journal }
    {
        Journal::new(&self.journal)
    }

    /// How many edits were accepted.
    pub fn len(&self) -> u64
        ensures length { result ≡ length self.now.journal }
        ensures accepted { root_refusal self.now.opening ≡ None }
        ensures lawful { IsLawful self.now.opening self.now.journal }
    {
        // Limits allow at most 2^32 edits, so that they can be counted.
        let _ = self.opening.limits.edits();
        self.journal.len() as u64
    }

    /// How large it may grow.
    pub fn limits(&self) -> Limits
        ensures { result ≡ self.now.opening.limits }
    {
        self.opening.limits
    }

    /// The kind of the node of a path, if there is one. Takes no memory.
    pub fn lookup(&self, path: &Path) -> Option<NodeKind>
        ensures { result ≡ kind_at (replay self.now.opening self.now.journal) path.now }
    {
        self.view().kind_at(&path.as_path_ref())
    }

    /// The verdict on a request for the node of a path ([MS-DTYP] 2.5.3.2). Takes no memory.
    pub fn check(&self, path: &Path, token: &Token, asked: Mask) -> CheckReply
        ensures { result ≡ answer self.now.opening self.now.journal path.now token.now asked }
    {
        match node_at(&self.nodes, &path.as_path_ref()) {
            None => CheckReply::NoNode,
            Some(node) => {
                let owner = Some(*node.row().owner);
                let mapping = &self.opening.mapping;
                CheckReply::Verdict(match node.parts() {
                    None => check_parts(owner, DaclRef::Null, mapping, token, asked),
                    Some((own, inherited)) => {
                        check_joined(owner, own, inherited, mapping, token, asked)
                    }
                })
            }
        }
    }

    /// The descriptor of the node of a path, if there is one ([MS-DTYP] 2.4.6). `AllocError` only where there is one.
    pub fn descriptor(&self, path: &Path) -> Result<Option<Descriptor>, AllocError>
        ensures descriptor { IfOk result (λ found. option_map descriptor_of found
            ≡ descriptor_at self.now.opening.mapping (replay self.now.opening self.now.journal) path.now) }
        ensures memory { IfErr result (λ _. IsSome (row_at (replay self.now.opening self.now.journal) path.now)) }
    {
        match node_at(&self.nodes, &path.as_path_ref()) {
            None => Ok(None),
            Some(node) => Ok(Some(descriptor_of_node(self.alloc, node)?)),
        }
    }

    /// Why an edit is refused, if it is: the first refusal that fits. `AllocError` only where none is due that is found
    /// without memory. The tree stays.
    pub fn judge(&self, edit: &Edit) -> Result<Option<EditRefusal>, AllocError>
        ensures due { IfOk result (λ due. due ≡ refusal self.now.opening self.now.journal edit.now) }
        ensures memory { IfErr result (λ _. is_early (refusal self.now.opening self.now.journal edit.now) ≡ false) }
    {
        match self.plan_or_refusal(edit) {
            Ok(_) => Ok(None),
            Err(TreeError::Refused(refusal)) => Ok(Some(refusal)),
            Err(TreeError::Memory) => Err(AllocError),
        }
    }

    /// A tree of the same opening and the same journal, with all that follows from them.
    pub fn copy(&self) -> Result<Tree, AllocError>
        ensures opening { IfOk result (λ t. t.opening ≡ self.now.opening) }
        ensures journal { IfOk result (λ t. t.journal ≡ self.now.journal) }
    {
        let opening = self.opening.copy(self.alloc)?;
        let journal = self.journal.copy(self.alloc)?;
        let nodes = self.nodes.copy(self.alloc)?;
        Ok(Tree {
            alloc: self.alloc,
            opening,
            journal,
            nodes,
        })
    }

    /// The edit joins the journal, and its plan is carried out. Room in the journal is made first: after an error the
    /// tree is as it was.
    fn accept(&mut self, edit: Shared<Edit>, plan: Plan) -> Result<(), AllocError>
        requires { IsPlanned self.old.opening self.old.journal edit plan }
        ensures opening { self.new.opening ≡ self.old.opening }
        ensures journal { MatchResult result (λ _. self.new.journal ≡ self.old.journal ++ edit ∷ [])
            (λ _. self.new.journal ≡ self.old.journal) }
    {
        self.journal.make_room(self.alloc)?;
        carry_out(self.alloc, &mut self.nodes, plan)?;
        self.journal.last.push_reserved(edit);
        Ok(())
    }

    /// An edit, as the journal is to keep it, and its plan; or why it is refused.
    fn plan_or_refusal(&self, edit: &Edit) -> Result<(Shared<Edit>, Plan), TreeError>
        ensures edit { IfOk result (λ planned. planned.0 ≡ edit.now) }
        ensures plan { IfOk result (λ planned.
            IsPlanned self.now.opening self.now.journal edit.now planned.1) }
        ensures refused { IfErr result (λ e.
            IsError e (refusal self.now.opening self.now.journal edit.now)) }
    {
        self.view()
            .plan_or_refusal(edit, self.len(), self.opening.limits)
    }

    /// The nodes as they stand.
    pub(crate) fn view(&self) -> TreeView<'_>
        ensures standing { IsView result }
        ensures mapping { result.mapping.now ≡ self.now.opening.mapping }
        ensures tree { tree_in result ≡ replay self.now.opening self.now.journal }
    {
        TreeView {
            alloc: self.alloc,
            mapping: &self.opening.mapping,
            nodes: &self.nodes,
        }
    }
}

/// The node of the root.
fn root_node(alloc: Global, mapping: &GenericMapping, root: &RootSpec) -> Result<Node, TreeError>
    ensures path { IfOk result (λ n. n.path ≡ []) }
    ensures row { IfOk result (λ n. n.row ≡ root_row root.now) }
    ensures whole { IfOk result (λ n. n.whole ≡ dacl_of_row mapping.now (root_row root.now) None) }
    ensures fits { IfOk result (λ n. dacl_size n.whole ≤ 65535) }
    ensures refused { IfErr result (λ e. IsSizeError e (dacl_of_row mapping.now (root_row root.now) None)) }
{
    let row = NodeRow {
        kind: NodeKind::Container,
        owner: root.owner,
        group: root.group,
        dacl: root.dacl.copy(alloc)?,
    };
    let addition = Addition::new(alloc, Path::root(alloc), row)?;
    let inherited = inherited_below(alloc, mapping, &addition.row(), None)?;
    Node::new(addition, inherited)
}
