//! The two versions of a store's tree.

ghost use Rattle.std.specs.Prelude.{◌≡◌, [], ◌∷◌, ◌++◌, IfErr, IfOk, MatchResult, None, OnOk};
ghost use Rattle.sd_edit.specs.Answers.{IsError};
ghost use Rattle.sd_edit.specs.Journal.{opening_within, refusal, root_refusal};
ghost use Rattle.sd_versions.specs.Versions.{accepted};

use sd_sid::GenericMapping;
use sd_tree::{Edit, Limits, RootSpec, Shared, Tree, TreeError};
use std::alloc::{AllocError, Global};
use std::marker::Model;

/// A tree as it is published, and the draft with all edits that were accepted. Contracts see the opening, the published
/// edits, and those that are pending.
#[derive(Drop)]
pub struct Versions {
    alloc: Global,
    published: Shared<Tree>,
    /// None where no edit is pending.
    draft: Option<Shared<Tree>>,
}

impl Model for Versions {
    ghost use Rattle.std.specs.Option.{ForSome};
    ghost use Rattle.sd_versions.specs.Kept.{versions_of, IsDraftOf};
    ghost use Rattle.sd_versions.specs.Versions.{VersionsValue};

    ghost Value = { VersionsValue };

    ghost view = { λ v. versions_of v.published v.draft };

    ghost invariant = { λ v. ForSome v.draft (λ draft. IsDraftOf v.published draft) };
}

impl Versions {
    /// The tree of the root alone, or the root's first refusal, as `Tree::opening_within`.
    pub fn opening(
        alloc: Global,
        mapping: &GenericMapping,
        root: &RootSpec,
        limits: Limits,
    ) -> Result<Versions, TreeError>
        ensures opening { IfOk result (λ v. v.opening ≡ opening_within mapping.now root.now limits) }
        ensures journal { IfOk result (λ v. (v.published ≡ []) × (v.pending ≡ [])) }
        ensures accepted { IfOk result (λ _. root_refusal (opening_within mapping.now root.now limits) ≡ None) }
        ensures refused { IfErr result (λ e. IsError e (root_refusal (opening_within mapping.now root.now limits))) }
    {
        let tree = Tree::opening_within(alloc, mapping, root, limits)?;
        match Shared::try_new(alloc, tree) {
            Ok(tree) => Ok(Versions::of(alloc, tree)),
            Err(_) => Err(TreeError::Memory),
        }
    }

    /// The tree, all of whose edits are published.
    pub fn of(alloc: Global, tree: Shared<Tree>) -> Versions
        ensures { result ≡ record { opening = tree.opening; published = tree.journal; pending = [] } }
    {
        Versions {
            alloc,
            published: tree,
            draft: None,
        }
    }

    /// The edit becomes pending, or the first refusal that fits is answered and nothing changes; out of memory only
    /// where none is due that is found without it. No snapshot changes.
    pub fn edit(&mut self, edit: &Edit) -> Result<(), TreeError>
        ensures published { (self.new.opening ≡ self.old.opening) × (self.new.published ≡ self.old.published) }
        ensures pending { MatchResult result (λ _. self.new.pending ≡ self.old.pending ++ edit.now ∷ [])
            (λ _. self.new.pending ≡ self.old.pending) }
        ensures accepted { OnOk result (refusal self.old.opening (accepted self.old) edit.now ≡ None) }
        ensures refused { IfErr result (λ e. IsError e (refusal self.old.opening (accepted self.old) edit.now)) }
    {
        match &mut self.draft {
            Some(draft) => edit_draft(self.alloc, draft, edit),
            None => {
                self.draft = Some(edited(self.alloc, self.published.get(), edit)?);
                Ok(())
            }
        }
    }

    /// All pending edits are published. Takes no memory.
    pub fn publish(&mut self)
        ensures opening { self.new.opening ≡ self.old.opening }
        ensures published { self.new.published ≡ accepted self.old }
        ensures pending { self.new.pending ≡ [] }
    {
        if let Some(draft) = self.draft.take() {
            self.published = draft;
        }
    }

    /// The published tree.
    pub fn published(&self) -> &Tree
        ensures opening { result.now.opening ≡ self.now.opening }
        ensures journal { result.now.journal ≡ self.now.published }
    {
        self.published.get()
    }

    /// The tree with all edits that were accepted: those that are published, and then those that are pending.
    pub fn draft(&self) -> &Tree
        ensures opening { result.now.opening ≡ self.now.opening }
        ensures journal { result.now.journal ≡ accepted self.now }
    {
        self.latest().get()
    }

    /// The published tree, for one holder more, which stays as it is. `AllocError` only where its count of holders is
    /// full.
    pub fn snapshot(&self) -> Result<Shared<Tree>, AllocError>
        ensures opening { IfOk result (λ tree. tree.opening ≡ self.now.opening) }
        ensures journal { IfOk result (λ tree. tree.journal ≡ self.now.published) }
    {
        self.published.share()
    }

    /// The tree with all edits that were accepted, as `snapshot`. The next edit is made in a copy while it is held.
    pub fn draft_snapshot(&self) -> Result<Shared<Tree>, AllocError>
        ensures opening { IfOk result (λ tree. tree.opening ≡ self.now.opening) }
        ensures journal { IfOk result (λ tree. tree.journal ≡ accepted self.now) }
    {
        self.latest().share()
    }

    fn latest(&self) -> &Shared<Tree>
        ensures opening { result.now.opening ≡ self.now.opening }
        ensures journal { result.now.journal ≡ accepted self.now }
    {
        match &self.draft {
            Some(draft) => draft,
            None => &self.published,
        }
    }
}

/// The edit joins the journal, or the first refusal that fits is answered and the journal stays; out of memory only
/// where none is due that is found without it. For other holders of the tree it stays as it is.
fn edit_draft(alloc: Global, draft: &mut Shared<Tree>, edit: &Edit) -> Result<(), TreeError>
    ensures opening { draft.new.opening ≡ draft.old.opening }
    ensures journal { MatchResult result (λ _. draft.new.journal ≡ draft.old.journal ++ edit.now ∷ [])
        (λ _. draft.new.journal ≡ draft.old.journal) }
    ensures accepted { OnOk result (refusal draft.old.opening draft.old.journal edit.now ≡ None) }
    ensures refused { IfErr result (λ e. IsError e (refusal draft.old.opening draft.old.journal edit.now)) }
{
    match draft.get_mut() {
        Some(tree) => tree.apply(edit),
        None => {
            *draft = edited(alloc, draft.get(), edit)?;
            Ok(())
        }
    }
}

/// The tree with one edit more, which shares what the edit doesn't change; or the first refusal that fits, and out of
/// memory only where none is due that is found without it.
fn edited(alloc: Global, tree: &Tree, edit: &Edit) -> Result<Shared<Tree>, TreeError>
    ensures opening { IfOk result (λ t. t.opening ≡ tree.now.opening) }
    ensures journal { IfOk result (λ t. t.journal ≡ tree.now.journal ++ edit.now ∷ []) }
    ensures accepted { OnOk result (refusal tree.now.opening tree.now.journal edit.now ≡ None) }
    ensures refused { IfErr result (λ e. IsError e (refusal tree.now.opening tree.now.journal edit.now)) }
{
    let Ok(mut copy) = tree.copy() else {
        // Without memory for a copy, the tree itself judges.
        return Err(match tree.judge(edit) {
            Ok(Some(refusal)) => TreeError::Refused(refusal),
            Ok(None) | Err(_) => TreeError::Memory,
        });
    };
    copy.apply(edit)?;
    Shared::try_new(alloc, copy).map_err(|_| TreeError::Memory)
}
