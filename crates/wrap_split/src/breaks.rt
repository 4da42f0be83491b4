//! Removing line breaks. The steps are those of docs/ALGORITHMS.md.

ghost use Rattle.std.specs.Prelude.{◌≡◌};
ghost use Rattle.edit_model.specs.Gives.{Gives, label_of};
ghost use Rattle.edit_actions.specs.EditDoc.Whole.{IsOpen};
ghost use Rattle.edit_actions.specs.EditDoc.Held.{Holds, Finds, Keeps};
ghost use Rattle.wrap_split.specs.Breaks.{last_below, back_step, back, up_step, top_hidden, breaks_before, breaks_at_end, breaks_from};

use crate::walks::{preceding, turn_bound};
use edit_actions::doc::{Doc, EditFault, NodeRef};
use edit_actions::is_same;
use edit_actions::questions::{is_extraneous_break, is_visible};

/// The last node below a node, in tree order: down from it by last children.
#[tactic(auto, using(crate::proofs::Turns::walks), unfolding(crate::specs::Breaks::last_below))]
pub fn last_below(doc: &Doc, node: NodeRef) -> NodeRef
    requires { Holds doc.now node }
    ensures gives { result.label ≡ last_below doc.now.state node.label }
    ensures held { Holds doc.now result }
{
    let mut at = node;
    let mut turns = turn_bound(doc);
    while turns > 0 {
        let Some(next) = doc.last_child(at) else {
            return at;
        };
        at = next;
        turns -= 1;
    }
    at
}

// Back in tree order, from a node that is invisible, no extraneous line break, and not where to
// stop: one turn.
#[tactic(auto, unfolding(crate::specs::Breaks::back_step))]
fn back_step(doc: &Doc, stop: Option<NodeRef>, node: NodeRef) -> Option<NodeRef>
    requires { Holds doc.now node }
    ensures { Finds doc.now result (back_step doc.now.state (label_of stop) node.label) }
{
    if !is_visible(doc, node) && !is_extraneous_break(doc, node) && !is_same(stop, node) {
        preceding(doc, node)
    } else {
        None
    }
}

// Remove line breaks before, step 3, and at the end, step 2.
#[tactic(auto, using(crate::proofs::Turns::walks), unfolding(crate::specs::Breaks::back))]
fn back(doc: &Doc, stop: Option<NodeRef>, node: NodeRef) -> NodeRef
    requires { Holds doc.now node }
    ensures gives { result.label ≡ back doc.now.state (label_of stop) node.label }
    ensures held { Holds doc.now result }
{
    let mut at = node;
    let mut turns = turn_bound(doc);
    while turns > 0 {
        let Some(next) = back_step(doc, stop, at) else {
            return at;
        };
        at = next;
        turns -= 1;
    }
    at
}

// Up from a node whose parent is editable and invisible: one turn.
#[tactic(auto, unfolding(crate::specs::Breaks::up_step))]
fn up_step(doc: &Doc, node: NodeRef) -> Option<NodeRef>
    requires { Holds doc.now node }
    ensures { Finds doc.now result (up_step doc.now.state node.label) }
{
    let parent = doc.parent(node)?;
    if doc.is_editable_for(parent) && !is_visible(doc, parent) {
        Some(parent)
    } else {
        None
    }
}

// Remove line breaks at the end, step 4.
#[tactic(auto, using(crate::proofs::Turns::walks), unfolding(crate::specs::Breaks::top_hidden))]
fn top_hidden(doc: &Doc, node: NodeRef) -> NodeRef
    requires { Holds doc.now node }
    ensures gives { result.label ≡ top_hidden doc.now.state node.label }
    ensures held { Holds doc.now result }
{
    let mut at = node;
    let mut turns = turn_bound(doc);
    while turns > 0 {
        let Some(next) = up_step(doc, at) else {
            return at;
        };
        at = next;
        turns -= 1;
    }
    at
}

/// Removes the extraneous line break that stands before a node, if there is one.
#[tactic(auto, using(edit_model::proofs::Steps::steps, edit_model::proofs::Steps::exits), unfolding(crate::specs::Breaks::breaks_before))]
pub fn breaks_before(doc: &mut Doc, node: NodeRef) -> Result<(), EditFault>
    requires open { IsOpen doc.old }
    requires node_held { Holds doc.old node }
    ensures gives { Gives result doc.old.state doc.new.state (breaks_before node.label) }
    ensures keeps { Keeps doc.old doc.new }
{
    // step 1
    let Some(prev) = doc.prev(node) else {
        return Ok(());
    };
    // steps 2 and 3
    let end = back(doc, doc.parent(node), last_below(doc, prev));
    // step 4
    if doc.is_editable_for(end) && is_extraneous_break(doc, end) {
        doc.remove(end)?;
    }
    Ok(())
}

/// Removes the extraneous line break that stands at the end of a node, if there is one, with the
/// editable invisible nodes round it.
#[tactic(auto, using(edit_model::proofs::Steps::steps, edit_model::proofs::Steps::exits), unfolding(crate::specs::Breaks::breaks_at_end))]
pub fn breaks_at_end(doc: &mut Doc, node: NodeRef) -> Result<(), EditFault>
    requires open { IsOpen doc.old }
    requires node_held { Holds doc.old node }
    ensures gives { Gives result doc.old.state doc.new.state (breaks_at_end node.label) }
    ensures keeps { Keeps doc.old doc.new }
{
    // steps 1 and 2
    let end = back(doc, Some(node), last_below(doc, node));
    // steps 3 to 5
    if doc.is_editable_for(end) && is_extraneous_break(doc, end) {
        let top = top_hidden(doc, end);
        doc.remove(top)?;
    }
    Ok(())
}

/// Removes the extraneous line breaks before a node and at its end.
#[tactic(auto, using(edit_model::proofs::Steps::steps, edit_model::proofs::Steps::exits), unfolding(crate::specs::Breaks::breaks_from))]
pub fn breaks_from(doc: &mut Doc, node: NodeRef) -> Result<(), EditFault>
    requires open { IsOpen doc.old }
    requires node_held { Holds doc.old node }
    ensures gives { Gives result doc.old.state doc.new.state (breaks_from node.label) }
    ensures keeps { Keeps doc.old doc.new }
{
    breaks_before(doc, node)?;
    breaks_at_end(doc, node)
}
