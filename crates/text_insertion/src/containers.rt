//! Insert a paragraph, step 3: the single-line container of a line. The steps are those of
//! docs/ALGORITHMS.md.

ghost use Rattle.std.specs.Prelude.{◌≡◌, true, IfSome};
ghost use Rattle.edit_model.specs.Confined.{is_editable_for, is_inside};
ghost use Rattle.edit_model.specs.Gives.{label_of};
ghost use Rattle.inline_value.specs.EditDoc.Held.{Holds, IfHeld, Finds};
ghost use Rattle.text_insertion.specs.Containers as containers;

use crate::entries::is_entry;
use inline_value::doc::{Doc, NodeRef};
use inline_value::query::is_editable_inside;
use inline_value::questions::{has_name, is_single_line};
use inline_value::wrap::turn_bound;

// A node, if there is one, that is editable.
fn if_editable(doc: &Doc, inside: bool, node: Option<NodeRef>) -> Option<NodeRef>
    requires held { IfHeld doc.now node }
    requires known { inside ≡ true → IfSome node (λ r. is_inside doc.now.state r.label ≡ true) }
    ensures { Finds doc.now result (containers.if_editable doc.now.state (label_of node)) }
{
    let node = node?;
    if is_editable_inside(doc, inside, node) {
        Some(node)
    } else {
        None
    }
}

// One turn up to a single-line container.
#[tactic(auto, unfolding(crate::specs::Containers::up_to_container))]
fn up_to_container(doc: &Doc, editable: bool, node: NodeRef) -> Option<NodeRef>
    requires held { Holds doc.now node }
    requires known { editable ≡ true → is_editable_for doc.now.state node.label ≡ true }
    ensures { Finds doc.now result (containers.up_to_container doc.now.state node.label) }
{
    doc.valid();
    if is_single_line(doc, node) {
        None
    } else {
        if_editable(doc, editable, doc.parent(node))
    }
}

// Step 3: up to a single-line container, as far as it goes.
#[tactic(auto, using(crate::proofs::Below::walks, crate::proofs::Upward::container_editable), unfolding(crate::specs::Containers::nearest_container))]
fn nearest_container(doc: &Doc, node: NodeRef) -> NodeRef
    requires { Holds doc.now node }
    ensures gives { result.label ≡ containers.nearest_container doc.now.state node.label }
    ensures held { Holds doc.now result }
{
    let mut at = node;
    let mut editable = false;
    let mut turns = turn_bound(doc);
    while turns > 0 {
        let Some(next) = up_to_container(doc, editable, at) else {
            return at;
        };
        at = next;
        editable = true;
        turns -= 1;
    }
    at
}

// One turn up to an entry.
#[tactic(auto, unfolding(crate::specs::Containers::up_to_entry))]
fn up_to_entry(doc: &Doc, editable: bool, node: NodeRef) -> Option<NodeRef>
    requires held { Holds doc.now node }
    requires known { editable ≡ true → is_editable_for doc.now.state node.label ≡ true }
    ensures { Finds doc.now result (containers.up_to_entry doc.now.state node.label) }
{
    doc.valid();
    if is_entry(doc, node) {
        None
    } else {
        if_editable(doc, editable, doc.parent(node))
    }
}

// Step 3: up to an entry of a list, as far as it goes.
#[tactic(auto, using(crate::proofs::Below::walks, crate::proofs::Upward::entry_editable), unfolding(crate::specs::Containers::nearest_entry))]
fn nearest_entry(doc: &Doc, node: NodeRef) -> NodeRef
    requires { Holds doc.now node }
    ensures gives { result.label ≡ containers.nearest_entry doc.now.state node.label }
    ensures held { Holds doc.now result }
{
    let mut at = node;
    let mut editable = false;
    let mut turns = turn_bound(doc);
    while turns > 0 {
        let Some(next) = up_to_entry(doc, editable, at) else {
            return at;
        };
        at = next;
        editable = true;
        turns -= 1;
    }
    at
}

// Whether a node is an editable p or div.
#[tactic(auto, unfolding(crate::specs::Containers::is_plain_block))]
fn is_plain_block(doc: &Doc, node: NodeRef) -> bool
    requires { Holds doc.now node }
    ensures { result ≡ containers.is_plain_block doc.now.state node.label }
{
    doc.is_editable_for(node) && (has_name(doc, node, b"p") || has_name(doc, node, b"div"))
}

// Step 3: in place of a p or div, the entry in which it stands.
#[tactic(auto, unfolding(crate::specs::Containers::entry_over))]
fn entry_over(doc: &Doc, node: NodeRef) -> NodeRef
    requires { Holds doc.now node }
    ensures gives { result.label ≡ containers.entry_over doc.now.state node.label }
    ensures held { Holds doc.now result }
{
    if !is_plain_block(doc, node) {
        return node;
    }
    let entry = nearest_entry(doc, node);
    if is_entry(doc, entry) { entry } else { node }
}

/// Step 3: the container in which a node stands, or the topmost editable node above it where that
/// is none.
#[tactic(auto, unfolding(crate::specs::Containers::container_of))]
pub(crate) fn container_of(doc: &Doc, node: NodeRef) -> NodeRef
    requires { Holds doc.now node }
    ensures gives { result.label ≡ containers.container_of doc.now.state node.label }
    ensures held { Holds doc.now result }
{
    entry_over(doc, nearest_container(doc, node))
}
