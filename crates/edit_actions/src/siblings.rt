//! Lists of siblings.

ghost use Rattle.std.specs.Prelude.{◌≡◌, IfOk};
ghost use Rattle.edit_model.specs.DomModel.Forest.{is_label, children_of};
ghost use Rattle.edit_model.specs.Gives.{label_of, labels_of};
ghost use Rattle.edit_doc.specs.Held.{Holds, Finds, EachHeld};
ghost use Rattle.edit_actions.specs.Siblings.{first_parent, members, until, is_among, starts_in, ends_in};

use edit_doc::{Doc, NodeRef};
use std::alloc::{AllocError, Global};

/// Whether the node is the one that may be there.
pub fn is_same(at: Option<NodeRef>, node: NodeRef) -> bool
    ensures { result ≡ is_label (label_of at) node.label }
{
    match at {
        Some(other) => other.label == node.label,
        None => false,
    }
}

/// The children of a node before one of them, in order; all, where that isn't one.
pub fn children_before(
    alloc: Global,
    doc: &Doc,
    node: NodeRef,
    end: NodeRef,
) -> Result<Vec<NodeRef>, AllocError>
    requires { Holds doc.now node }
    ensures held { IfOk result (λ list. EachHeld doc.now list.items) }
    ensures children { IfOk result (λ list. labels_of list.items
        ≡ until end.label (children_of doc.now.state.trees node.label)) }
{
    doc.valid();
    let mut list = Vec::new(alloc);
    let mut at = doc.first_child(node);
    while let Some(child) = at {
        if child.label == end.label {
            return Ok(list);
        }
        list.push(child)?;
        at = doc.next(child);
    }
    Ok(list)
}

/// Whether a node is in a list.
#[tactic(auto, using(edit_model::proofs::Steps::labels_of_drop, edit_model::proofs::Steps::labels_of_end))]
pub fn is_among(list: &[NodeRef], node: NodeRef) -> bool
    ensures { result ≡ is_among node.label (labels_of list.now) }
{
    for member in list {
        if node.label == member.label {
            return true;
        }
    }
    false
}

/// The parent of the first member of a list that has one.
#[tactic(auto, using(edit_model::proofs::Steps::labels_of_drop, edit_model::proofs::Steps::labels_of_end), unfolding(crate::specs::Siblings::first_parent))]
pub fn first_parent(doc: &Doc, list: &[NodeRef]) -> Option<NodeRef>
    requires { EachHeld doc.now list.now }
    ensures { Finds doc.now result (first_parent doc.now.state (labels_of list.now)) }
{
    for member in list {
        if let Some(parent) = doc.parent(*member) {
            return Some(parent);
        }
    }
    None
}

/// The members of a list whose parent is the given node, in the order of the list.
#[tactic(auto, using(edit_model::proofs::Steps::labels_of_drop, edit_model::proofs::Steps::labels_of_end, edit_model::proofs::Steps::labels_of_push), unfolding(crate::specs::Siblings::members))]
pub fn members(
    alloc: Global,
    doc: &Doc,
    parent: NodeRef,
    list: &[NodeRef],
) -> Result<Vec<NodeRef>, AllocError>
    requires { EachHeld doc.now list.now }
    ensures held { IfOk result (λ kept. EachHeld doc.now kept.items) }
    ensures gives { IfOk result (λ kept. labels_of kept.items
        ≡ members doc.now.state parent.label (labels_of list.now)) }
{
    let mut kept = Vec::new(alloc);
    for member in list {
        if is_same(doc.parent(*member), parent) {
            kept.push(*member)?;
        }
    }
    Ok(kept)
}

/// Whether the first child of a node is in the list.
#[tactic(auto, unfolding(crate::specs::Siblings::starts_in))]
pub fn starts_in(doc: &Doc, node: NodeRef, list: &[NodeRef]) -> bool
    requires { Holds doc.now node }
    ensures { result ≡ starts_in doc.now.state node.label (labels_of list.now) }
{
    match doc.first_child(node) {
        Some(child) => is_among(list, child),
        None => false,
    }
}

/// Whether the last child of a node is in the list.
#[tactic(auto, unfolding(crate::specs::Siblings::ends_in))]
pub fn ends_in(doc: &Doc, node: NodeRef, list: &[NodeRef]) -> bool
    requires { Holds doc.now node }
    ensures { result ≡ ends_in doc.now.state node.label (labels_of list.now) }
{
    match doc.last_child(node) {
        Some(child) => is_among(list, child),
        None => false,
    }
}
