//! Reordering modifiable descendants. The steps are those of docs/ALGORITHMS.md.

ghost use Rattle.std.specs.Prelude.{◌≡◌, Some};
ghost use Rattle.wrap_split.specs.CommandValue.Equivalence.{equivalent};
ghost use Rattle.wrap_split.specs.CommandValue.SpecifiedValues.{specified};
ghost use Rattle.edit_model.specs.Gives.{Gives};
ghost use Rattle.wrap_split.specs.EditDoc.Whole.{IsOpen};
ghost use Rattle.wrap_split.specs.EditDoc.Held.{Holds, Finds, Keeps};
ghost use Rattle.inline_value.specs.Reordering as spec;

use edit_model::element_names::Command;
use std::alloc::Global;
use wrap_split::actions::{insert_after, move_all_before};
use wrap_split::doc::{Doc, EditFault, NodeRef};
use wrap_split::turn_bound;
use wrap_split::values::{
    is_modifiable_element, is_simple_modifiable_element, meets_value, specifies, specifies_other,
};

// Whether the specified value of a node is equivalent to a text.
#[tactic(auto, unfolding(crate::specs::Below::specifies_other, crate::specs::Below::equivalent))]
fn has_equivalent(doc: &Doc, node: NodeRef, value: &[char], command: Command) -> bool
    requires { Holds doc.now node }
    ensures { result
        ≡ equivalent command (specified doc.now.state.trees node.label command) (Some value.now) }
{
    specifies(doc, node, command) && !specifies_other(doc, node, command, Some(value))
}

// Whether a node is a simple modifiable element whose specified value is equivalent to the value.
#[tactic(auto, unfolding(crate::specs::Reordering::gives_value))]
fn gives_value(doc: &Doc, node: NodeRef, value: &[char], command: Command) -> bool
    requires { Holds doc.now node }
    ensures { result ≡ spec.gives_value doc.now.state.trees node.label command value.now }
{
    is_simple_modifiable_element(doc, node) && has_equivalent(doc, node, value, command)
}

// The first child of a node, where it is the only one and modifiable.
fn sole_child(doc: &Doc, node: NodeRef) -> Option<NodeRef>
    requires { Holds doc.now node }
    ensures { Finds doc.now result (spec.sole_child doc.now.state.trees node.label) }
{
    let child = doc.first_child(node)?;
    if doc.next(child).is_none() && is_modifiable_element(doc, child) {
        Some(child)
    } else {
        None
    }
}

// Reorder, step 2: the node that a node gives way to.
#[tactic(auto, unfolding(crate::specs::Reordering::reorder_step))]
fn reorder_step(doc: &Doc, node: NodeRef, value: &[char], command: Command) -> Option<NodeRef>
    requires { Holds doc.now node }
    ensures { Finds doc.now result
        (spec.reorder_step doc.now.state.trees command value.now node.label) }
{
    if is_modifiable_element(doc, node) && !gives_value(doc, node, value, command) {
        sole_child(doc, node)
    } else {
        None
    }
}

// Reorder, steps 1 and 2.
#[tactic(auto, using(wrap_split::proofs::Turns::walks), unfolding(crate::specs::Reordering::reordered))]
fn reordered(doc: &Doc, node: NodeRef, value: &[char], command: Command) -> NodeRef
    requires { Holds doc.now node }
    ensures label { result.label ≡ spec.reordered doc.now.state command value.now node.label }
    ensures held { Holds doc.now result }
{
    let mut at = node;
    let mut left = turn_bound(doc);
    'walk: while left > 0 {
        match reorder_step(doc, at, value, command) {
            Some(child) => at = child,
            None => return at,
        }
        left -= 1;
    }
    at
}

// Reorder, steps 4 to 6: the node comes to stand in the inner one, and that where the node stood.
#[tactic(auto, using(edit_model::proofs::Steps::steps, edit_model::proofs::Steps::exits), unfolding(crate::specs::Reordering::swapped))]
fn swap(doc: &mut Doc, node: NodeRef, inner: NodeRef) -> Result<(), EditFault>
    requires open { IsOpen doc.old }
    requires node_held { Holds doc.old node }
    requires inner_held { Holds doc.old inner }
    ensures gives { Gives result doc.old.state doc.new.state (spec.swapped node.label inner.label) }
    ensures keeps { Keeps doc.old doc.new }
{
    let children = doc.children_of(inner)?;
    move_all_before(doc, &children, inner)?; // step 4
    doc.remove(inner)?; // step 5
    insert_after(doc, node, inner)?;
    doc.move_keeping(node, inner, None)?; // step 6
    Ok(())
}

/// Where a chain of only children leads from a node to a simple modifiable element that gives the
/// value, makes that element the outer one (HTML Editing APIs, "reorder modifiable descendants").
#[tactic(auto, using(edit_model::proofs::Steps::steps, edit_model::proofs::Steps::exits), unfolding(crate::specs::Reordering::reorder, crate::specs::Reordering::reorder_with))]
pub fn reorder(
    doc: &mut Doc,
    node: NodeRef,
    value: &[char],
    command: Command,
) -> Result<(), EditFault>
    requires open { IsOpen doc.old }
    requires node_held { Holds doc.old node }
    ensures gives { Gives result doc.old.state doc.new.state
        (spec.reorder command value.now node.label) }
    ensures keeps { Keeps doc.old doc.new }
{
    let inner = reordered(doc, node, value, command);
    if inner.label == node.label || !meets_value(doc, inner, command, value) {
        return Ok(());
    }
    swap(doc, node, inner)
}
