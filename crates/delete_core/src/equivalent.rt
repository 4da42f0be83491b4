//! Equivalent points. The steps are those of docs/ALGORITHMS.md.

ghost use Rattle.std.specs.Prelude.{◌≡◌};
ghost use Rattle.edit_model.specs.Gives.{label_of};
ghost use Rattle.inline_value.specs.EditDoc.Held.{Holds, IfHeld, Finds};
ghost use Rattle.delete_core.specs.Equivalent.{if_enterable, into_after, into_before, out_after, out_before, next_point, previous_point, last_equivalent, first_equivalent};

use crate::places::{after_node, before_node, child_at, child_before, end_in, start_in};
use inline_value::doc::{Doc, NodeRef, Point};
use inline_value::questions::is_block;
use inline_value::wrap::turn_bound;

// Next, step 3, and previous, step 3: an inline node whose length isn't 0.
fn if_enterable(doc: &Doc, node: Option<NodeRef>) -> Option<NodeRef>
    requires { IfHeld doc.now node }
    ensures { Finds doc.now result (if_enterable doc.now.state.trees (label_of node)) }
{
    let node = node?;
    if is_block(doc, node) || doc.length(node) == 0 {
        None
    } else {
        Some(node)
    }
}

// Next, step 3.
#[tactic(auto, unfolding(crate::specs::Equivalent::into_after))]
fn into_after(doc: &Doc, node: NodeRef, at: Point) -> Option<Point>
    requires held { Holds doc.now node }
    requires label { at.label ≡ node.label }
    ensures { result ≡ into_after doc.now.state.trees at }
{
    let child = if_enterable(doc, child_at(doc, node, at.offset))?;
    Some(start_in(child))
}

// Previous, step 3.
#[tactic(auto, unfolding(crate::specs::Equivalent::into_before))]
fn into_before(doc: &Doc, node: NodeRef, at: Point) -> Option<Point>
    requires held { Holds doc.now node }
    requires label { at.label ≡ node.label }
    ensures { result ≡ into_before doc.now.state.trees at }
{
    let child = if_enterable(doc, child_before(doc, node, at.offset))?;
    Some(end_in(doc, child))
}

// Next, step 2.
#[tactic(auto, unfolding(crate::specs::Equivalent::out_after))]
fn out_after(doc: &Doc, node: NodeRef) -> Option<Point>
    requires { Holds doc.now node }
    ensures { result ≡ out_after doc.now.state.trees node.label }
{
    if is_block(doc, node) {
        None
    } else {
        after_node(doc, node)
    }
}

// Previous, step 2.
#[tactic(auto, unfolding(crate::specs::Equivalent::out_before))]
fn out_before(doc: &Doc, node: NodeRef) -> Option<Point>
    requires { Holds doc.now node }
    ensures { result ≡ out_before doc.now.state.trees node.label }
{
    if is_block(doc, node) {
        None
    } else {
        before_node(doc, node)
    }
}

// The next equivalent point.
#[tactic(auto, using(crate::proofs::Absent::absent), unfolding(crate::specs::Equivalent::next_point))]
fn next_point(doc: &Doc, at: Point) -> Option<Point>
    ensures { result ≡ next_point doc.now.state.trees at }
{
    let node = doc.find(at.label)?;
    let length = doc.length(node);
    if length == 0 {
        return None;
    }
    if at.offset == length {
        out_after(doc, node)
    } else {
        into_after(doc, node, at)
    }
}

// The previous equivalent point.
#[tactic(auto, using(crate::proofs::Absent::absent), unfolding(crate::specs::Equivalent::previous_point))]
fn previous_point(doc: &Doc, at: Point) -> Option<Point>
    ensures { result ≡ previous_point doc.now.state.trees at }
{
    let node = doc.find(at.label)?;
    if doc.length(node) == 0 {
        return None;
    }
    if at.offset == 0 {
        out_before(doc, node)
    } else {
        into_before(doc, node, at)
    }
}

/// The last of the points after a point that are equivalent to it: between them stand only edges of
/// inline nodes. From the end of an inline node it goes out, and from before one that isn't empty
/// it goes in.
#[tactic(auto, using(crate::proofs::Turns::point_walks), unfolding(crate::specs::Equivalent::last_equivalent))]
pub fn last_equivalent(doc: &Doc, at: Point) -> Point
    ensures { result ≡ last_equivalent doc.now.state.trees at }
{
    let mut at = at;
    let mut turns = turn_bound(doc);
    while turns > 0 {
        let Some(next) = next_point(doc, at) else {
            return at;
        };
        at = next;
        turns -= 1;
    }
    at
}

/// The first of the points before a point that are equivalent to it.
#[tactic(auto, using(crate::proofs::Turns::point_walks), unfolding(crate::specs::Equivalent::first_equivalent))]
pub fn first_equivalent(doc: &Doc, at: Point) -> Point
    ensures { result ≡ first_equivalent doc.now.state.trees at }
{
    let mut at = at;
    let mut turns = turn_bound(doc);
    while turns > 0 {
        let Some(previous) = previous_point(doc, at) else {
            return at;
        };
        at = previous;
        turns -= 1;
    }
    at
}
