//! What holds of step lines and of lists of them. Each law is the contract of a function that does
//! nothing.

ghost use Rattle.std.specs.Prelude.{◌≡◌, ◌+◌, ◌<◌, ◌≤◌, ◌↔◌, ℕ, List, ◌∷◌, ◌++◌, length, true, Some, Ok};
ghost use Rattle.page_grammar.specs.DomModel.Document.{page_depth};
ghost use Rattle.page_grammar.specs.DomModel.Forest.{with_leaf};
ghost use Rattle.edit_steps.specs.ForestChanges.Change.{Change, Fits, IsForest, applied};
ghost use Rattle.step_text.specs.declared.line.Made.{Made};
ghost use Rattle.step_text.specs.declared.line.StepFault.TheVariants.{TooDeep};
ghost use Rattle.step_text.specs.declared.line.StepLine.{StepLine};
ghost use Rattle.step_text.specs.declared.line.StepLine.TheVariants.{Entry, Make};
ghost use Rattle.step_text.specs.Applying.{Labelled, fault_of, has_labels, has_place, made_content, replayed_from, trees_after};
ghost use Rattle.step_text.specs.Replaying.{CanSay, LeadsTo, line_of};
ghost use Rattle.step_text.specs.StepLine.{IsStepLine, line_text};
ghost use Rattle.step_text.specs.StepReading.{step_in};

/// The line of a change that fits the trees is applied and makes that change, where the document
/// then isn't too deep. A line that makes a node is applied where its label can be drawn.
pub fn lines_make_changes()
    ensures change { (x : Change) (name : List ℕ) (d : Labelled) →
        Fits x d.trees → CanSay x name d.trees → page_depth (applied x d.trees) ≤ 1000 →
        LeadsTo (line_of x name) d (record d { trees = applied x d.trees }) }
    ensures make { (l : ℕ) (made : Made) (d : Labelled) → d.next ≤ l → l < d.cap →
        LeadsTo (Make l made) d (record d {
          trees = with_leaf d.trees l (made_content made);
          next = l + 1;
        }) }
    ensures entry { (d : Labelled) → LeadsTo Entry d d }
{}

/// While the document isn't too deep, a line that would else fit is refused exactly where it would
/// make it so.
pub fn depth_is_bounded()
    ensures { (x : StepLine) (d : Labelled) →
        IsForest d.trees → page_depth d.trees ≤ 1000 → has_labels x d ≡ true → has_place x d.trees
        ≡ true →
        (fault_of x d ≡ Some TooDeep) ↔ (1000 < page_depth (trees_after x d.trees)) }
{}

/// Lists of lines are replayed line by line, and one after another.
pub fn lines_go_on()
    ensures one { (number : ℕ) (x : StepLine) (xs : List StepLine) (d e : Labelled) →
        LeadsTo x d e → replayed_from number (x ∷ xs) d ≡ replayed_from (number + 1) xs e }
    ensures many { (number : ℕ) (xs ys : List StepLine) (d e : Labelled) →
        replayed_from number xs d ≡ Ok e → replayed_from number (xs ++ ys) d
        ≡ replayed_from (number + length xs) ys e }
{}

/// A line stands for one step: two steps that lines stand for have different lines.
pub fn lines_have_one_step()
    ensures { (a b : StepLine) → IsStepLine a → IsStepLine b → line_text a ≡ line_text b → a ≡ b }
{}

/// A line is read as the step that has it: the one step, of those that lines stand for, that is
/// printed so.
pub fn lines_are_read()
    ensures { (line : List ℕ) (step : StepLine) →
        (step_in line ≡ Some step) ↔ (IsStepLine step × (line_text step ≡ line)) }
{}
