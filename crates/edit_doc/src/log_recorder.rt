//! One who looks on as the steps of an entry are made, and keeps its edits as a log has them.

ghost use Rattle.std.specs.Prelude.{◌≡◌, [], ◌∷◌, ◌++◌, Some, true, IfOk, OnOk};
ghost use Rattle.edit_model.specs.DomModel.Change as change;
ghost use Rattle.edit_model.specs.DomModel.Forest.{content_of};
ghost use Rattle.edit_model.specs.Gives.{label_of};
ghost use Rattle.step_edits.specs.EditSteps.Step.{StepFits, change_of};
ghost use Rattle.step_edits.specs.EditSteps.declared.step.Step.TheVariants as step;
ghost use Rattle.edit_doc.specs.Logged.{element_name};
ghost use Rattle.edit_doc.specs.Logging.{Recording, Records, logged_at};

use crate::logged::LoggedEdit;
use crate::{Arena, Name, NodeRef};
use edit_model::arena::Content;
use std::alloc::{AllocError, Global};
use std::marker::Model;
use step_edits::history::Watch;
use step_edits::spliced_words;
use step_edits::steps::{Splice, Step};

// The edits of steps, in their order, kept by one who looks on as they are made: so the whole
// contents can be told that a step gives. They are complete as long as memory suffices.
#[derive(Drop)]
pub(crate) struct LogRecorder {
    alloc: Global,
    edits: Vec<LoggedEdit>,
    complete: bool,
}

impl Model for LogRecorder {
    ghost use Rattle.edit_doc.specs.Logging.{Recording};

    ghost Value = { Recording };

    ghost view = { λ r. record { edits = r.edits.items; complete = r.complete } };
}

impl LogRecorder {
    // A recorder without edits.
    pub(crate) fn new(alloc: Global) -> LogRecorder
        ensures { result ≡ record { edits = []; complete = true } }
    {
        LogRecorder {
            alloc,
            edits: Vec::new(alloc),
            complete: true,
        }
    }

    // The edits, if memory sufficed.
    pub(crate) fn into_edits(self) -> Result<Vec<LoggedEdit>, AllocError>
        ensures { IfOk result (λ edits. (self.complete ≡ true) × (edits.items ≡ self.edits)) }
    {
        let LogRecorder {
            alloc: _,
            edits,
            complete,
        } = self;
        if complete { Ok(edits) } else { Err(AllocError) }
    }
}

impl Watch<Step, Arena> for LogRecorder {
    ghost seen = { Records };

    fn see(&mut self, step: &Step, arena: &Arena) {
        self.complete = self.complete
            && push_edit(self.alloc, &mut self.edits, arena, step).is_ok();
    }
}

// Appends the edit that a step makes.
fn push_edit(
    alloc: Global,
    edits: &mut Vec<LoggedEdit>,
    arena: &Arena,
    step: &Step,
) -> Result<(), AllocError>
    requires { StepFits step.now arena.now }
    ensures { OnOk result (edits.new.items
        ≡ edits.old.items ++ logged_at (change_of step.now) arena.now.trees ∷ []) }
{
    edits.push(read_edit(alloc, arena, step)?)?;
    Ok(())
}

fn read_edit(alloc: Global, arena: &Arena, step: &Step) -> Result<LoggedEdit, AllocError>
    requires { StepFits step.now arena.now }
    ensures { IfOk result (λ edit. edit ≡ logged_at (change_of step.now) arena.now.trees) }
{
    Ok(match step {
        Step::Remove { node } => LoggedEdit::Remove { node: node.label },
        Step::Insert {
            node,
            parent,
            before,
        } => LoggedEdit::Insert {
            node: node.label,
            parent: parent.label,
            before: label_of(*before),
        },
        Step::Move {
            node,
            parent,
            before,
        } => LoggedEdit::Move {
            node: node.label,
            parent: parent.label,
            before: label_of(*before),
        },
        Step::SetText { node, words } => LoggedEdit::SetText {
            node: node.label,
            words: words.clone()?,
        },
        Step::Splice(splice) => read_splice(alloc, arena, splice)?,
        Step::SetAttributes { node, list } => LoggedEdit::SetAttributes {
            node: node.label,
            name: copy_name(alloc, arena.content(*node))?,
            attributes: list.copy()?,
        },
    })
}

// Characters of a node that give way to others, as the whole contents.
fn read_splice(alloc: Global, arena: &Arena, splice: &Splice) -> Result<LoggedEdit, AllocError>
    requires { StepFits (step.Splice splice.now) arena.now }
    ensures { IfOk result (λ edit. edit
        ≡ logged_at (change_of (step.Splice splice.now)) arena.now.trees) }
{
    let node = splice.node();
    let words = spliced_words(alloc, arena.words(node).as_slice(), splice)?;
    Ok(LoggedEdit::SetText {
        node: node.label,
        words,
    })
}

fn label_of(node: Option<NodeRef>) -> Option<u32>
    ensures { result ≡ label_of node }
{
    match node {
        Some(node) => Some(node.label),
        None => None,
    }
}

// The name of an element; no other node has attributes.
fn copy_name(alloc: Global, content: &Content) -> Result<Name, AllocError>
    ensures { IfOk result (λ name. name ≡ element_name (Some content.now)) }
{
    match content {
        Content::Element { name, .. } => name.clone(),
        _ => Ok(Name::from_vec(Vec::new(alloc))),
    }
}
