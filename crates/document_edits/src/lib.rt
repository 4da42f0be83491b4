//! Edits of a document alone, by labels: what a change of the labelled nested list that a contract
//! sees of an arena tells one who keeps the document without the loose trees.
//!
//! What holds of the edits is stated here as the contracts of functions that do nothing.
#![tactic(auto)]

ghost use Rattle.std.specs.Prelude.{◌≡◌, ℕ, Bool, List, ◌++◌};
ghost use Rattle.forest_changes.specs.DomModel.declared.Content.{Content};
ghost use Rattle.forest_changes.specs.DomModel.Forest.{Forest, tree_of};
ghost use Rattle.forest_changes.specs.DomModel.Pruned.{pruned};
ghost use Rattle.forest_changes.specs.UndoLog.Turning.{forth, FitsForth};
ghost use Rattle.forest_changes.specs.Change.{Change, Fits, applied, whole, wholes};
ghost use Rattle.forest_changes.specs.Named.{named, named_in, Each};
ghost use Rattle.forest_changes.specs.Down.{Prunes, IsLeft};
ghost use Rattle.document_edits.specs.Flat.{flat, grown};
ghost use Rattle.document_edits.specs.Told.{told, told_all, told_back};
ghost use Rattle.document_edits.specs.Followed.{followed};

mod edit;
mod replacing;

pub use edit::{DocumentEdit, TreeNode};
pub use forest_changes::{dom, history};
pub use point_order as boundary;
pub use replacing::replaced;

/// What a change of the forest is told as leads from the document before it to the document after
/// it. So do changes one after another, and what takes them back leads back.
pub fn edits_lead()
    ensures change { (x : Change) (f : Forest Content) → Fits x f
        → forth followed (told x f) (tree_of f 0) ≡ tree_of (applied x f) 0 }
    ensures changes { (xs : List Change) (f : Forest Content) → FitsForth applied Fits xs f
        → forth followed (told_all xs f) (tree_of f 0) ≡ tree_of (forth applied xs f) 0 }
    ensures back { (xs : List Change) (f : Forest Content) → FitsForth applied Fits xs f
        → forth followed (told_back xs f) (tree_of (forth applied xs f) 0) ≡ tree_of f 0 }
{}

/// Where trees are pruned that no change names, the changes are told as the same edits, and so is
/// what takes them back.
pub fn edits_go_down()
    ensures change { (k : ℕ → Bool) (x : Change) (f : Forest Content) → Prunes k f → Fits x f
        → Each (IsLeft k f) (named x) → told x (pruned k f) ≡ told x f }
    ensures changes { (k : ℕ → Bool) (xs : List Change) (f : Forest Content) → Prunes k f
        → FitsForth applied Fits xs f → Each (IsLeft k f) (named_in xs)
        → told_all xs (pruned k f) ≡ told_all xs f }
    ensures back { (k : ℕ → Bool) (xs : List Change) (f : Forest Content) → Prunes k f
        → FitsForth applied Fits xs f → Each (IsLeft k f) (named_in xs)
        → told_back xs (pruned k f) ≡ told_back xs f }
{}

/// Changes with the whole contents afterwards are told as the same edits, and so is what takes them
/// back.
pub fn wholes_are_told_alike()
    ensures change { (x : Change) (f : Forest Content) → Fits x f → told (whole x f) f ≡ told x f }
    ensures changes { (xs : List Change) (f : Forest Content) → FitsForth applied Fits xs f
        → told_all (wholes xs f) f ≡ told_all xs f }
    ensures back { (xs : List Change) (f : Forest Content) → FitsForth applied Fits xs f
        → told_back (wholes xs f) f ≡ told_back xs f }
{}

/// Changes after others are told as edits after theirs.
pub fn edits_join()
    ensures { (xs ys : List Change) (f : Forest Content)
        → told_all (xs ++ ys) f ≡ told_all xs f ++ told_all ys (forth applied xs f) }
{}

/// A forest grows again from the list of its nodes, and so no other forest has the same list.
pub fn trees_grow()
    ensures { (f : Forest Content) → grown (flat 0 f) ≡ f }
{}
