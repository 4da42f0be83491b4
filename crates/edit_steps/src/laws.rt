//! That steps are changes of the forest of an arena (crate `forest_changes`, which says what
//! changes do). Each law is the contract of a function that does nothing.

ghost use Rattle.std.specs.Prelude.{◌≡◌, ℕ, List, map};
ghost use Rattle.forest_changes.specs.DomModel.ArenaState.{ArenaState, IsSlotted};
ghost use Rattle.node_arena.specs.declared.NodeRef.{NodeRef};
ghost use Rattle.node_arena.specs.Held.{Holds};
ghost use Rattle.forest_changes.specs.UndoLog.Turning.{FitsBack, FitsForth};
ghost use Rattle.forest_changes.specs.Change.{Fits, applied, inverse};
ghost use Rattle.forest_changes.specs.Named.{named, Each};
ghost use Rattle.edit_steps.specs.Step.{change_of, changes_of, step_applied, step_inverse, nodes_of, nodes_in, StepFits, GoBack, GoForth};

use crate::step::Step;

/// A step is a change of the labels of the nodes that it names, and so is the step that takes it
/// back.
pub fn steps_are_changes()
    ensures inverse { (x : Step) (a : ArenaState) → change_of (step_inverse x a)
        ≡ inverse (change_of x) a.trees }
    ensures named { (x : Step) → map (λ (r : NodeRef). r.label) (nodes_of x) ≡ named (change_of x) }
{}

/// Steps one after another change the forest alone, and what they become names held nodes.
pub fn steps_go_on()
    ensures back { (xs : List Step) (a : ArenaState) → FitsBack step_applied StepFits xs a
        → GoBack xs a }
    ensures forth { (xs : List Step) (a : ArenaState) → FitsForth step_applied StepFits xs a
        → GoForth xs a }
{}

/// Steps fit an arena where their changes fit its forest and it holds the nodes that they name.
pub fn steps_fit()
    ensures back { (xs : List Step) (a : ArenaState) → IsSlotted a → Each (Holds a) (nodes_in xs)
        → FitsBack applied Fits (changes_of xs) a.trees → FitsBack step_applied StepFits xs a }
    ensures forth { (xs : List Step) (a : ArenaState) → IsSlotted a → Each (Holds a) (nodes_in xs)
        → FitsForth applied Fits (changes_of xs) a.trees → FitsForth step_applied StepFits xs a }
{}
