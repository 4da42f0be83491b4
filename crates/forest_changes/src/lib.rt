//! Changes of the labelled nested list that a contract sees of an arena: what an undo log keeps of
//! an edit.
//!
//! Each change is taken back by the change that it turns into. What holds of changes beside other
//! trees, and of changes one after another, is stated here as the contracts of functions that do
//! nothing.
#![tactic(auto)]

ghost use Rattle.std.specs.Prelude.{◌≡◌, ◌≢◌, ◌<◌, ◌==◌, ℕ, Bool, false, true, Option, Some, None, IfSome, List, ◌++◌, length};
ghost use Rattle.dom_model.specs.declared.Content.{Content};
ghost use Rattle.dom_model.specs.Contents.{is_parent_at};
ghost use Rattle.dom_model.specs.Forest.{Forest, count_of, parent_of, without, with_leaf, IsWithin};
ghost use Rattle.dom_model.specs.Pruned.{pruned, IsWhole};
ghost use Rattle.dom_model.specs.ArenaState.{ArenaState, IsValid};
ghost use Rattle.undo_log.specs.Turning.{forth, FitsBack, FitsForth, TurnsBack, TurnsForth};
ghost use Rattle.forest_changes.specs.Change.{Change, Move, IsForest, Fits, Turns, applied, inverse, whole, wholes};
ghost use Rattle.forest_changes.specs.Named.{named, named_in, Each};
ghost use Rattle.forest_changes.specs.Down.{Prunes, IsLeft, GoesDown, GoBackDown, GoForthDown};
ghost use Rattle.forest_changes.specs.Leaves.{IsBelow, EachMade, BackBeside, ForthBeside, HasMade};

/// The trees of every arena are a forest that changes can be made of, and a change keeps it one,
/// with the same labels.
pub fn are_forests()
    ensures arena { (s : ArenaState) → IsValid s → IsForest s.trees }
    ensures change { (x : Change) (f : Forest Content) → Fits x f → IsForest (applied x f) }
    ensures labels { (x : Change) (f : Forest Content) → Fits x f → (l : ℕ)
        → count_of (applied x f) l ≡ count_of f l }
{}

/// A child can be moved under the Document or an element that doesn't stand in its tree, before a
/// child other than itself or to the end.
pub fn can_move()
    ensures { (f : Forest Content) (n p q : ℕ) (b : Option ℕ) → IsForest f → parent_of f n ≡ Some p
        → is_parent_at f q ≡ true → (IsWithin f n q → ⊥) →
        IfSome b (λ m. (parent_of f m ≡ Some q) × (m ≢ n)) → Fits (Move n q b) f }
{}

/// A change made and taken back leaves the forest and the change as they were, and so do changes
/// one after another.
pub fn turn_back()
    ensures change { (x : Change) (f : Forest Content) → Fits x f → Turns x f }
    ensures back { (xs : List Change) (f : Forest Content) → FitsBack applied Fits xs f
        → TurnsBack applied inverse Fits xs f }
    ensures forth { (xs : List Change) (f : Forest Content) → FitsForth applied Fits xs f
        → TurnsForth applied inverse Fits xs f }
{}

/// A change with the whole contents afterwards is made where the change is, makes the same of the
/// forest, names the same labels, and is taken back by the same with whole contents. So it is of
/// changes one after another. Where trees are pruned that changes don't name, they have the same
/// whole contents.
pub fn wholes_are_changes()
    ensures fits { (x : Change) (f : Forest Content) → Fits x f → Fits (whole x f) f }
    ensures same { (x : Change) (f : Forest Content) → applied (whole x f) f ≡ applied x f }
    ensures names { (x : Change) (f : Forest Content) → named (whole x f) ≡ named x }
    ensures back { (x : Change) (f : Forest Content) → Fits x f → inverse (whole x f) f
        ≡ whole (inverse x f) (applied x f) }
    ensures all_fit { (xs : List Change) (f : Forest Content) → FitsForth applied Fits xs f
        → FitsForth applied Fits (wholes xs f) f }
    ensures all_same { (xs : List Change) (f : Forest Content) → forth applied (wholes xs f) f
        ≡ forth applied xs f }
    ensures all_names { (xs : List Change) (f : Forest Content) → named_in (wholes xs f)
        ≡ named_in xs }
    ensures count { (xs : List Change) (f : Forest Content) → length (wholes xs f) ≡ length xs }
    ensures join { (xs ys : List Change) (f : Forest Content) → wholes (xs ++ ys) f
        ≡ wholes xs f ++ wholes ys (forth applied xs f) }
    ensures pruned { (k : ℕ → Bool) (xs : List Change) (f : Forest Content) → Prunes k f
        → FitsForth applied Fits xs f → Each (IsLeft k f) (named_in xs)
        → wholes xs (pruned k f) ≡ wholes xs f }
{}

/// Which labels can be those of trees that are pruned: those of whole trees, or of roots alone,
/// without the Document's. Where one root's label is pruned, its tree is given up.
pub fn can_be_pruned()
    ensures whole { (k : ℕ → Bool) (f : Forest Content) → IsForest f → k 0 ≡ false → IsWhole k f
        → Prunes k f }
    ensures roots { (k : ℕ → Bool) (f : Forest Content) → IsForest f → k 0 ≡ false
        → ((l : ℕ) → k l ≡ true → parent_of f l ≡ None) → Prunes k f }
    ensures tree { (n : ℕ) (f : Forest Content) → IsForest f → 0 < count_of f n → parent_of f n
        ≡ None
        → pruned (λ l. l == n) f ≡ without f n }
{}

/// Changes that name only what is left of a forest are the same changes of what is left.
pub fn go_down()
    ensures change { (k : ℕ → Bool) (x : Change) (f : Forest Content) → Prunes k f → Fits x f
        → Each (IsLeft k f) (named x) → GoesDown k x f }
    ensures back { (k : ℕ → Bool) (xs : List Change) (f : Forest Content) → Prunes k f
        → FitsBack applied Fits xs f → Each (IsLeft k f) (named_in xs) → GoBackDown k xs f }
    ensures forth { (k : ℕ → Bool) (xs : List Change) (f : Forest Content) → Prunes k f
        → FitsForth applied Fits xs f → Each (IsLeft k f) (named_in xs) → GoForthDown k xs f }
{}

/// Changes of what is left of a forest are changes of the whole, and name only what is left.
pub fn go_up()
    ensures change { (k : ℕ → Bool) (x : Change) (f : Forest Content) → Prunes k f → IsForest f
        → Fits x (pruned k f) → Fits x f × Each (IsLeft k f) (named x) }
    ensures back { (k : ℕ → Bool) (xs : List Change) (f : Forest Content) → Prunes k f → IsForest f
        → FitsBack applied Fits xs (pruned k f) → FitsBack applied Fits xs f
        × Each (IsLeft k f) (named_in xs) }
    ensures forth { (k : ℕ → Bool) (xs : List Change) (f : Forest Content) → Prunes k f → IsForest f
        → FitsForth applied Fits xs (pruned k f) → FitsForth applied Fits xs f
        × Each (IsLeft k f) (named_in xs) }
{}

/// Nodes that were made since stay out of the way of changes, alone in their trees: changes that
/// fit without them fit with them, and leave them as they are. Where other trees are pruned, such a
/// node stays.
pub fn stay_beside()
    ensures back { (l : ℕ) (cs : List Content) (xs : List Change) (f : Forest Content) → IsBelow f l
        → EachMade cs → FitsBack applied Fits xs f → BackBeside l cs xs f }
    ensures forth { (l : ℕ) (cs : List Content) (xs : List Change) (f : Forest Content)
        → IsBelow f l
        → EachMade cs → FitsForth applied Fits xs f → ForthBeside l cs xs f }
    ensures pruned { (k : ℕ → Bool) (l : ℕ) (c : Content) (f : Forest Content) → k l ≡ false
        → pruned k (with_leaf f l c) ≡ with_leaf (pruned k f) l c }
    ensures prunes { (k : ℕ → Bool) (l : ℕ) (c : Content) (f : Forest Content) → k l ≡ false
        → IsBelow f l
        → Prunes k f → Prunes k (with_leaf f l c) }
{}

/// A forest with nodes that were made since is one, their labels are those of whole trees, and
/// without them it is what it was.
pub fn have_made()
    ensures { (l : ℕ) (cs : List Content) (f : Forest Content) → IsForest f → IsBelow f l
        → EachMade cs
        → HasMade l cs f }
{}

pub use dom_model as dom;
pub use undo_log as history;
