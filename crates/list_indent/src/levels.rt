//! Outdent a node, step 7: the siblings on the way to the indentation element are indented in its
//! place.

ghost use Rattle.std.specs.Prelude.{◌≡◌, ◌≤◌, ◌==◌, ◌||◌, IfOk, length, drop, take, reverse};
ghost use Rattle.edit_model.specs.DomModel.Forest.{first_in, is_label};
ghost use Rattle.edit_model.specs.Gives.{Gives, label_of, labels_of};
ghost use Rattle.inline_value.specs.EditDoc.Whole.{IsOpen};
ghost use Rattle.inline_value.specs.EditDoc.Held.{Holds, EachHeld, Finds, Keeps};
ghost use Rattle.list_indent.specs.Outdenting.{child_on_way, rest_after, siblings_after, part_level, part_levels};

use crate::indenting::indent_list;
use inline_value::actions::{children_before, is_same};
use inline_value::doc::{Doc, EditFault, NodeList, NodeRef};
use inline_value::wrap::break_next;
use std::alloc::{AllocError, Global};

// Whether a child is the node, or the one that may be there.
fn is_on_way(node: NodeRef, below: Option<NodeRef>, child: NodeRef) -> bool
    ensures { result ≡ (child.label == node.label || is_label (label_of below) child.label) }
{
    child.label == node.label || is_same(below, child)
}

// The child of an element that is the node or the ancestor below the element.
fn child_on_way(
    doc: &Doc,
    element: NodeRef,
    node: NodeRef,
    below: Option<NodeRef>,
) -> Option<NodeRef>
    requires { Holds doc.now element }
    ensures { Finds doc.now result
        (child_on_way doc.now.state element.label node.label (label_of below)) }
{
    doc.valid();
    let mut at = doc.first_child(element);
    while let Some(child) = at {
        if is_on_way(node, below, child) {
            return Some(child);
        }
        at = doc.next(child);
    }
    None
}

// The place in a list after a node; its end, where the node isn't in it.
#[tactic(auto, using(edit_model::proofs::Steps::labels_of_drop, edit_model::proofs::Steps::labels_of_end))]
fn place_after(list: &[NodeRef], node: NodeRef) -> usize
    ensures within { result ≤ length list.now }
    ensures rest { labels_of (drop result list.now) ≡ rest_after node.label (labels_of list.now) }
{
    let mut at = 0;
    while at < list.len() {
        if list[at].label == node.label {
            return at + 1;
        }
        at += 1;
    }
    at
}

// The siblings after a node.
#[tactic(auto, unfolding(crate::specs::Outdenting::siblings_after))]
fn siblings_after(alloc: Global, doc: &Doc, node: NodeRef) -> Result<NodeList, AllocError>
    requires { Holds doc.now node }
    ensures held { IfOk result (λ list. EachHeld doc.now list) }
    ensures siblings { IfOk result (λ list. labels_of list
        ≡ siblings_after doc.now.state node.label) }
{
    let Some(parent) = doc.parent(node) else {
        return Ok(NodeList::from_vec(Vec::new(alloc)));
    };
    let children = doc.children_of(parent)?;
    let at = place_after(&children, node);
    NodeList::from_slice(alloc, &children[at..])
}

// One turn, with the member of A and the one before it: the br after the child on the way goes, and
// the siblings on either side of the child are indented.
#[tactic(auto, using(edit_model::proofs::Steps::steps, edit_model::proofs::Steps::exits), unfolding(crate::specs::Outdenting::part_around, crate::specs::Outdenting::part_level))]
fn part_level(
    alloc: Global,
    doc: &mut Doc,
    node: NodeRef,
    below: Option<NodeRef>,
    element: NodeRef,
) -> Result<(), EditFault>
    requires open { IsOpen doc.old }
    requires element_held { Holds doc.old element }
    ensures gives { Gives result doc.old.state doc.new.state
        (part_level node.label (label_of below) element.label) }
    ensures keeps { Keeps doc.old doc.new }
{
    let Some(child) = child_on_way(doc, element, node, below) else {
        return Ok(());
    };
    if let Some(next) = break_next(doc, child) {
        doc.remove(next)?;
    }
    let before = children_before(alloc, doc, element, child)?;
    indent_list(alloc, doc, NodeList::from_vec(before))?;
    let after = siblings_after(alloc, doc, child)?;
    indent_list(alloc, doc, after)
}

// The member before an index.
#[tactic(auto, using(crate::proofs::Downward::befores))]
fn member_before(list: &[NodeRef], index: usize) -> Option<NodeRef>
    requires { index ≤ length list.now }
    ensures { label_of result ≡ first_in (reverse (labels_of (take index list.now))) }
{
    if index == 0 {
        None
    } else {
        Some(list[index - 1])
    }
}

/// Step 7: parts each of the members of A, of which the last one is the outermost.
#[tactic(auto, using(crate::proofs::Downward::levels, edit_model::proofs::Steps::exits))]
pub(crate) fn part_levels(
    alloc: Global,
    doc: &mut Doc,
    node: NodeRef,
    way: &[NodeRef],
) -> Result<(), EditFault>
    requires open { IsOpen doc.old }
    requires way_held { EachHeld doc.old way.now }
    ensures gives { Gives result doc.old.state doc.new.state
        (part_levels node.label (reverse (labels_of way.now))) }
    ensures keeps { Keeps doc.old doc.new }
{
    let mut left = way.len();
    while left > 0 {
        left -= 1;
        let below = member_before(way, left);
        part_level(alloc, doc, node, below, way[left])?;
    }
    Ok(())
}
