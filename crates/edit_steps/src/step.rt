//! The steps of the log.

ghost use Rattle.std.specs.Prelude.{◌≡◌, ◌<◌};
ghost use Rattle.edit_steps.specs.Step.{StepFits, step_applied, step_inverse};

use crate::splice::Splice;
use forest_changes::history::Invertible;
use node_arena::stepping::Steps;
use node_arena::{Arena, Attributes, Chars, NodeRef};
use std::marker::Brand;
use std::sync::ledger::{Blank, Ledger};

/// An edit of an arena that takes another one back. Remove becomes Insert and the reverse; Move
/// exchanges the place of the node with the one that it has, SetText and SetAttributes exchange the
/// contents, and Splice exchanges what it takes with what it puts.
#[derive(Drop)]
pub enum Step {
    /// Makes the tree of a node loose.
    Remove {
        node: NodeRef,
    },
    /// Inserts a loose tree under a parent, before one of its children or at the end.
    Insert {
        node: NodeRef,
        parent: NodeRef,
        before: Option<NodeRef>,
    },
    /// Moves the tree of a node to another place.
    Move {
        node: NodeRef,
        parent: NodeRef,
        before: Option<NodeRef>,
    },
    /// Gives a Text or Comment node other characters.
    SetText {
        node: NodeRef,
        words: Chars,
    },
    /// Replaces characters of a Text or Comment node in place.
    Splice(Splice),
    /// Gives an element another attribute list.
    SetAttributes {
        node: NodeRef,
        list: Attributes,
    },
}

impl Invertible<Arena> for Step {
    ghost use Rattle.edit_steps.specs.StepLaws.{step_fits_again, step_state_again, step_step_again};

    ghost fits = { StepFits };

    ghost applied = { step_applied };

    ghost inverse = { step_inverse };

    ghost fits_again = { step_fits_again };

    ghost state_again = { step_state_again };

    ghost step_again = { step_step_again };

    #[tactic(auto, unfolding(crate::specs::Step::step_applied, crate::specs::Step::step_inverse, forest_changes::specs::Change::applied))]
    fn apply(&mut self, arena: &mut Arena) {
        match self {
            Step::Remove { node } => *self = removed::<Brand>(arena, *node, Blank::new(1)),
            Step::Insert {
                node,
                parent,
                before,
            } => *self = inserted::<Brand>(arena, *node, *parent, *before, Blank::new(1)),
            Step::Move {
                node,
                parent,
                before,
            } => *self = moved::<Brand>(arena, *node, *parent, *before, Blank::new(1)),
            Step::SetText { node, words } => arena.swap_words(*node, words),
            Step::Splice(splice) => splice.apply(arena),
            Step::SetAttributes { node, list } => arena.swap_attributes(*node, list),
        }
    }
}

// Makes the tree of a node loose, and tells how to link it where it was.
#[tactic(auto, unfolding(crate::specs::Step::step_applied, crate::specs::Step::step_inverse, forest_changes::specs::Change::applied))]
fn removed<L: Ledger>(arena: &mut Arena, node: NodeRef, blank: Blank) -> Step
    requires name { blank.name ≡ L.name }
    requires parts { blank.parts ≡ L.parts }
    requires some { 0 < blank.parts }
    requires fits { StepFits (Step.Remove node) arena.old }
    ensures arena { arena.new ≡ step_applied (Step.Remove node) arena.old }
    ensures step { result ≡ step_inverse (Step.Remove node) arena.old }
{
    let mut steps = Steps::<L>::open(blank);
    let parent = arena.parent(node).unwrap();
    let before = arena.next(node);
    arena.unlink(node, &mut steps);
    Step::Insert {
        node,
        parent,
        before,
    }
}

// Links a loose tree, and tells how to make it loose again.
#[tactic(auto, unfolding(crate::specs::Step::step_applied, crate::specs::Step::step_inverse, forest_changes::specs::Change::applied))]
fn inserted<L: Ledger>(
    arena: &mut Arena,
    node: NodeRef,
    parent: NodeRef,
    before: Option<NodeRef>,
    blank: Blank,
) -> Step
    requires name { blank.name ≡ L.name }
    requires parts { blank.parts ≡ L.parts }
    requires some { 0 < blank.parts }
    requires fits { StepFits (Step.Insert node parent before) arena.old }
    ensures arena { arena.new ≡ step_applied (Step.Insert node parent before) arena.old }
    ensures step { result ≡ step_inverse (Step.Insert node parent before) arena.old }
{
    let mut steps = Steps::<L>::open(blank);
    arena.link(parent, before, node, &mut steps);
    Step::Remove { node }
}

// Moves the tree of a node, and tells how to move it back.
#[tactic(auto, unfolding(crate::specs::Step::step_applied, crate::specs::Step::step_inverse, forest_changes::specs::Change::applied))]
fn moved<L: Ledger>(
    arena: &mut Arena,
    node: NodeRef,
    parent: NodeRef,
    before: Option<NodeRef>,
    blank: Blank,
) -> Step
    requires name { blank.name ≡ L.name }
    requires parts { blank.parts ≡ L.parts }
    requires some { 0 < blank.parts }
    requires fits { StepFits (Step.Move node parent before) arena.old }
    ensures arena { arena.new ≡ step_applied (Step.Move node parent before) arena.old }
    ensures step { result ≡ step_inverse (Step.Move node parent before) arena.old }
{
    let mut steps = Steps::<L>::open(blank);
    let old_parent = arena.parent(node).unwrap();
    let old_before = arena.next(node);
    arena.unlink(node, &mut steps);
    arena.link(parent, before, node, &mut steps);
    Step::Move {
        node,
        parent: old_parent,
        before: old_before,
    }
}
