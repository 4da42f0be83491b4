//! The list that is wrapped: siblings, with a br after them and the invisible nodes on both sides.

ghost use Rattle.std.specs.Prelude.{◌≡◌, ◌++◌, IfOk, reverse};
ghost use Rattle.edit_model.specs.Gives.{label_of, labels_of};
ghost use Rattle.edit_actions.specs.EditDoc.Held.{Holds, IfHeld, EachHeld, Finds};
ghost use Rattle.wrap_split.specs.Walks.{turn_bound};
ghost use Rattle.wrap_split.specs.Wrap.{all_hidden, first_visible, last_visible, break_next, if_hidden, with_break, extended, hidden_after, extended_back, widened};

use crate::walks::turn_bound;
use edit_actions::doc::{Doc, NodeRef};
use edit_actions::questions::{is_block, is_break, is_visible};
use std::alloc::AllocError;

// Wrap, step 2: whether every member is invisible, and none is a br.
#[tactic(auto, using(edit_model::proofs::Steps::labels_of_drop, edit_model::proofs::Steps::labels_of_end), unfolding(crate::specs::Wrap::all_hidden))]
pub(crate) fn all_hidden(doc: &Doc, list: &[NodeRef]) -> bool
    requires { EachHeld doc.now list.now }
    ensures { result ≡ all_hidden doc.now.state (labels_of list.now) }
{
    for member in list {
        if is_visible(doc, *member) || is_break(doc, *member) {
            return false;
        }
    }
    true
}

/// The first visible node of a list.
#[tactic(auto, using(edit_model::proofs::Steps::labels_of_drop, edit_model::proofs::Steps::labels_of_end), unfolding(crate::specs::Wrap::first_visible))]
pub fn first_visible(doc: &Doc, list: &[NodeRef]) -> Option<NodeRef>
    requires { EachHeld doc.now list.now }
    ensures { Finds doc.now result (first_visible doc.now.state (labels_of list.now)) }
{
    for member in list {
        if is_visible(doc, *member) {
            return Some(*member);
        }
    }
    None
}

#[tactic(auto, using(edit_model::proofs::Steps::labels_of_drop, edit_model::proofs::Steps::labels_of_end), unfolding(crate::specs::Wrap::last_visible))]
pub(crate) fn last_visible(doc: &Doc, list: &[NodeRef]) -> Option<NodeRef>
    requires { EachHeld doc.now list.now }
    ensures { Finds doc.now result (last_visible doc.now.state (labels_of list.now)) }
{
    let mut found = None;
    for member in list {
        if is_visible(doc, *member) {
            found = Some(*member);
        }
    }
    found
}

/// The br after an inline node that is no br.
#[tactic(auto, unfolding(crate::specs::Wrap::break_next))]
pub fn break_next(doc: &Doc, node: NodeRef) -> Option<NodeRef>
    requires { Holds doc.now node }
    ensures { Finds doc.now result (break_next doc.now.state node.label) }
{
    if is_block(doc, node) || is_break(doc, node) {
        return None;
    }
    let next = doc.next(node)?;
    if is_break(doc, next) {
        Some(next)
    } else {
        None
    }
}

fn if_hidden(doc: &Doc, node: Option<NodeRef>) -> Option<NodeRef>
    requires { IfHeld doc.now node }
    ensures { Finds doc.now result (if_hidden doc.now.state (label_of node)) }
{
    let node = node?;
    if is_visible(doc, node) {
        None
    } else {
        Some(node)
    }
}

// Wrap, step 3: the list with the br after its last member.
#[tactic(auto, using(edit_model::proofs::Steps::labels_of_push_end, edit_model::proofs::Steps::append_none), unfolding(crate::specs::Wrap::with_break))]
fn with_break(doc: &Doc, list: Vec<NodeRef>, last: NodeRef) -> Result<Vec<NodeRef>, AllocError>
    requires list_held { EachHeld doc.now list.items }
    requires last_held { Holds doc.now last }
    ensures gives { IfOk result (λ v. labels_of v.items
        ≡ with_break doc.now.state (labels_of list.items) last.label) }
    ensures held { IfOk result (λ v. EachHeld doc.now v.items) }
{
    let mut list = list;
    if let Some(next) = break_next(doc, last) {
        list.push(next)?;
    }
    Ok(list)
}

// Wrap, step 4: a list in reverse order with the invisible nodes before a node.
#[tactic(auto, using(crate::proofs::Extending::fronts, crate::proofs::Extending::labels_of_front), unfolding(crate::specs::Wrap::extended))]
fn with_hidden_before(
    doc: &Doc,
    reversed: Vec<NodeRef>,
    first: NodeRef,
) -> Result<Vec<NodeRef>, AllocError>
    requires list_held { EachHeld doc.now reversed.items }
    requires first_held { Holds doc.now first }
    ensures gives { IfOk result
        (λ v. labels_of (reverse v.items)
        ≡ extended doc.now.state (labels_of (reverse reversed.items)) first.label) }
    ensures held { IfOk result (λ v. EachHeld doc.now v.items) }
{
    let mut reversed = reversed;
    let mut at = first;
    let mut turns = turn_bound(doc);
    while turns > 0 {
        let Some(prev) = if_hidden(doc, doc.prev(at)) else {
            return Ok(reversed);
        };
        reversed.push(prev)?;
        at = prev;
        turns -= 1;
    }
    Ok(reversed)
}

// Wrap, step 4: the list with the invisible nodes before it.
#[tactic(auto, using(crate::proofs::Extending::reversed_held, crate::proofs::Extending::reversed_twice))]
fn extended(doc: &Doc, list: Vec<NodeRef>, first: NodeRef) -> Result<Vec<NodeRef>, AllocError>
    requires list_held { EachHeld doc.now list.items }
    requires first_held { Holds doc.now first }
    ensures gives { IfOk result (λ v. labels_of v.items
        ≡ extended doc.now.state (labels_of list.items) first.label) }
    ensures held { IfOk result (λ v. EachHeld doc.now v.items) }
{
    let mut list = list;
    list.reverse();
    let mut list = with_hidden_before(doc, list, first)?;
    list.reverse();
    Ok(list)
}

// Wrap, step 4: the list with the invisible nodes after a node.
#[tactic(auto, using(crate::proofs::Extending::ends, edit_model::proofs::Steps::labels_of_push, edit_model::proofs::Steps::append_none))]
fn with_hidden_after(
    doc: &Doc,
    list: Vec<NodeRef>,
    last: NodeRef,
) -> Result<Vec<NodeRef>, AllocError>
    requires list_held { EachHeld doc.now list.items }
    requires last_held { Holds doc.now last }
    ensures gives { IfOk result (λ v. labels_of v.items
        ≡ labels_of list.items
        ++ hidden_after doc.now.state (turn_bound doc.now.state) last.label) }
    ensures held { IfOk result (λ v. EachHeld doc.now v.items) }
{
    let mut list = list;
    let mut at = last;
    let mut turns = turn_bound(doc);
    while turns > 0 {
        let Some(next) = if_hidden(doc, doc.next(at)) else {
            return Ok(list);
        };
        list.push(next)?;
        at = next;
        turns -= 1;
    }
    Ok(list)
}

// Wrap, step 4: the list with the invisible nodes after its last member.
#[tactic(auto, using(edit_model::proofs::Steps::ends), unfolding(crate::specs::Wrap::extended_back))]
fn extended_back(doc: &Doc, list: Vec<NodeRef>) -> Result<Vec<NodeRef>, AllocError>
    requires { EachHeld doc.now list.items }
    ensures gives { IfOk result (λ v. labels_of v.items
        ≡ extended_back doc.now.state (labels_of list.items)) }
    ensures held { IfOk result (λ v. EachHeld doc.now v.items) }
{
    if list.len() == 0 {
        return Ok(list);
    }
    let last = list[list.len() - 1];
    with_hidden_after(doc, list, last)
}

// Wrap, steps 3 and 4: the list with the br after it, and the invisible nodes on both sides.
#[tactic(auto, unfolding(crate::specs::Wrap::widened))]
pub(crate) fn widened(
    doc: &Doc,
    list: Vec<NodeRef>,
    first: NodeRef,
    last: NodeRef,
) -> Result<Vec<NodeRef>, AllocError>
    requires list_held { EachHeld doc.now list.items }
    requires first_held { Holds doc.now first }
    requires last_held { Holds doc.now last }
    ensures gives { IfOk result
        (λ v. labels_of v.items
        ≡ widened doc.now.state (labels_of list.items) first.label last.label) }
    ensures held { IfOk result (λ v. EachHeld doc.now v.items) }
{
    let list = with_break(doc, list, last)?;
    let list = extended(doc, list, first)?;
    extended_back(doc, list)
}
