//! Delete, steps 3 and 7: the ways back from a caret. The steps are those of docs/ALGORITHMS.md.

ghost use Rattle.std.specs.Prelude.{◌≡◌, ◌<◌, IfOk, IfSome};
ghost use Rattle.edit_model.specs.DomModel.Forest.{count_of};
ghost use Rattle.edit_model.specs.Gives.{Gives, label_of};
ghost use Rattle.inline_value.specs.EditDoc.Whole.{IsOpen};
ghost use Rattle.inline_value.specs.EditDoc.Held.{Holds, IfHeld, Finds, Keeps};
ghost use Rattle.text_deletion.specs.Approach as back;

use crate::places::{is_affected_host, one_before};
use delete_core::{before_node, child_before, end_in};
use edit_model::boundary::node_of;
use inline_value::doc::{Doc, EditFault, NodeRef, Point};
use inline_value::questions::{has_name, is_block, is_break, is_image, is_visible};
use inline_value::wrap::{remove_keeping_children, turn_bound};
use std::alloc::Global;

/// How far a way back from a caret has come.
#[derive(Clone, Copy)]
pub(crate) struct Approach {
    /// Where it stands.
    pub at: Point,
    /// It goes on.
    pub going: bool,
    /// An a gave way to its children, and with that the command is done.
    pub unlinked: bool,
}

// A node, if there is one, that is editable and shows nothing.
fn if_hidden(doc: &Doc, node: Option<NodeRef>) -> Option<NodeRef>
    requires { IfHeld doc.now node }
    ensures { Finds doc.now result (back.if_hidden doc.now.state (label_of node)) }
{
    let node = node?;
    if doc.is_editable_for(node) && !is_visible(doc, node) {
        Some(node)
    } else {
        None
    }
}

// Steps 3 b and 7: the child before a point that shows nothing.
#[tactic(auto, unfolding(crate::specs::Approach::hidden_child))]
fn hidden_child(doc: &Doc, node: NodeRef, at: Point) -> Option<NodeRef>
    requires held { Holds doc.now node }
    requires label { at.label ≡ node.label }
    ensures { Finds doc.now result (back.hidden_child doc.now.state at) }
{
    if_hidden(doc, child_before(doc, node, at.offset))
}

// Steps 3 b and 7: it goes.
#[tactic(auto, using(edit_model::proofs::Steps::steps, edit_model::proofs::Steps::exits), unfolding(crate::specs::Approach::drop_child))]
fn drop_child(
    doc: &mut Doc,
    node: NodeRef,
    way: Approach,
    child: NodeRef,
) -> Result<Approach, EditFault>
    requires open { IsOpen doc.old }
    requires node_held { Holds doc.old node }
    requires label { way.at.label ≡ node.label }
    requires child_held { Holds doc.old child }
    ensures gives { Gives result doc.old.state doc.new.state (back.drop_child way child.label) }
    ensures there { IfOk result (λ next. 0 < count_of doc.new.state.trees next.at.label) }
    ensures keeps { Keeps doc.old doc.new }
{
    doc.remove(child)?;
    Ok(Approach {
        at: one_before(way.at),
        ..way
    })
}

// Step 3 a: the sibling before the node of a point that shows nothing.
#[tactic(auto, unfolding(crate::specs::Approach::hidden_prev))]
fn hidden_prev(doc: &Doc, node: NodeRef, at: Point) -> Option<NodeRef>
    requires held { Holds doc.now node }
    requires label { at.label ≡ node.label }
    ensures { Finds doc.now result (back.hidden_prev doc.now.state at) }
{
    if !is_affected_host(doc, node) && at.offset == 0 {
        if_hidden(doc, doc.prev(node))
    } else {
        None
    }
}

// Step 3 c: out of an inline node at its start, and out of a node that shows nothing.
#[tactic(auto, unfolding(crate::specs::Approach::out_of_node))]
fn out_of_node(doc: &Doc, node: NodeRef, at: Point) -> Option<Point>
    requires held { Holds doc.now node }
    requires label { at.label ≡ node.label }
    ensures gives { result ≡ back.out_of_node doc.now.state at }
    ensures there { IfSome result (λ next. 0 < count_of doc.now.state.trees next.label) }
{
    if !is_affected_host(doc, node)
        && ((at.offset == 0 && !is_block(doc, node)) || !is_visible(doc, node))
    {
        before_node(doc, node)
    } else {
        None
    }
}

// Step 3 d: an editable a before a point.
#[tactic(auto, unfolding(crate::specs::Approach::link_before))]
fn link_before(doc: &Doc, node: NodeRef, at: Point) -> Option<NodeRef>
    requires held { Holds doc.now node }
    requires label { at.label ≡ node.label }
    ensures { Finds doc.now result (back.link_before doc.now.state at) }
{
    let child = child_before(doc, node, at.offset)?;
    if doc.is_editable_for(child) && has_name(doc, child, b"a") {
        Some(child)
    } else {
        None
    }
}

// Step 3 e: the end of a child before a point that is no block, br or img.
#[tactic(auto, unfolding(crate::specs::Approach::into_child))]
fn into_child(doc: &Doc, node: NodeRef, at: Point) -> Option<Point>
    requires held { Holds doc.now node }
    requires label { at.label ≡ node.label }
    ensures gives { result ≡ back.into_child doc.now.state at }
    ensures there { IfSome result (λ next. 0 < count_of doc.now.state.trees next.label) }
{
    let child = child_before(doc, node, at.offset)?;
    if is_block(doc, child) || is_break(doc, child) || is_image(doc, child) {
        None
    } else {
        Some(end_in(doc, child))
    }
}

// Step 3: one turn, in which the first line that applies is done.
#[tactic(auto, using(edit_model::proofs::Steps::steps, edit_model::proofs::Steps::exits), unfolding(crate::specs::Approach::back_turn))]
fn back_turn(alloc: Global, doc: &mut Doc, way: Approach) -> Result<Approach, EditFault>
    requires open { IsOpen doc.old }
    requires here { 0 < count_of doc.old.state.trees way.at.label }
    ensures gives { Gives result doc.old.state doc.new.state (back.back_turn way) }
    ensures there { IfOk result (λ next. 0 < count_of doc.new.state.trees next.at.label) }
    ensures keeps { Keeps doc.old doc.new }
{
    let node = node_of(doc, way.at);
    // a
    if let Some(prev) = hidden_prev(doc, node, way.at) {
        doc.remove(prev)?;
        return Ok(way);
    }
    // b
    if let Some(child) = hidden_child(doc, node, way.at) {
        return drop_child(doc, node, way, child);
    }
    // c
    if let Some(at) = out_of_node(doc, node, way.at) {
        return Ok(Approach { at, ..way });
    }
    // d
    if let Some(link) = link_before(doc, node, way.at) {
        remove_keeping_children(alloc, doc, link)?;
        return Ok(Approach {
            going: false,
            unlinked: true,
            ..way
        });
    }
    // e, and otherwise f
    match into_child(doc, node, way.at) {
        Some(at) => Ok(Approach { at, ..way }),
        None => Ok(Approach {
            going: false,
            ..way
        }),
    }
}

fn begun_at(at: Point) -> Approach
    ensures { result ≡ back.begun_at at }
{
    Approach {
        at,
        going: true,
        unlinked: false,
    }
}

/// Step 3: back from the caret to what is deleted. Nodes on the way that show nothing go, and a
/// link before it gives way to its children.
#[tactic(auto, using(edit_model::proofs::Steps::whiles, edit_model::proofs::Steps::exits), unfolding(crate::specs::Approach::go_back))]
pub(crate) fn go_back(alloc: Global, doc: &mut Doc, caret: Point) -> Result<Approach, EditFault>
    requires open { IsOpen doc.old }
    requires here { 0 < count_of doc.old.state.trees caret.label }
    ensures gives { Gives result doc.old.state doc.new.state (back.go_back caret) }
    ensures there { IfOk result (λ way. 0 < count_of doc.new.state.trees way.at.label) }
    ensures keeps { Keeps doc.old doc.new }
{
    let mut turns = turn_bound(doc);
    let mut way = begun_at(caret);
    while turns > 0 {
        if !way.going {
            return Ok(way);
        }
        way = back_turn(alloc, doc, way)?;
        turns -= 1;
    }
    Ok(way)
}

// Step 7: out of a node at its start, up to the affected host.
#[tactic(auto, unfolding(crate::specs::Approach::out_of_start))]
fn out_of_start(doc: &Doc, node: NodeRef, at: Point) -> Option<Point>
    requires held { Holds doc.now node }
    requires label { at.label ≡ node.label }
    ensures gives { result ≡ back.out_of_start doc.now.state at }
    ensures there { IfSome result (λ next. 0 < count_of doc.now.state.trees next.label) }
{
    if at.offset == 0 && !is_affected_host(doc, node) {
        before_node(doc, node)
    } else {
        None
    }
}

// Step 7: one turn.
#[tactic(auto, using(edit_model::proofs::Steps::steps, edit_model::proofs::Steps::exits), unfolding(crate::specs::Approach::climb_turn))]
fn climb_turn(doc: &mut Doc, way: Approach) -> Result<Approach, EditFault>
    requires open { IsOpen doc.old }
    requires here { 0 < count_of doc.old.state.trees way.at.label }
    ensures gives { Gives result doc.old.state doc.new.state (back.climb_turn way) }
    ensures there { IfOk result (λ next. 0 < count_of doc.new.state.trees next.at.label) }
    ensures keeps { Keeps doc.old doc.new }
{
    let node = node_of(doc, way.at);
    if let Some(at) = out_of_start(doc, node, way.at) {
        return Ok(Approach { at, ..way });
    }
    match hidden_child(doc, node, way.at) {
        Some(child) => drop_child(doc, node, way, child),
        None => Ok(Approach {
            going: false,
            ..way
        }),
    }
}

/// Step 7: out from the start of a node to where something stands before the point. What shows
/// nothing there goes.
#[tactic(auto, using(edit_model::proofs::Steps::whiles, edit_model::proofs::Steps::exits), unfolding(crate::specs::Approach::climb))]
pub(crate) fn climb(doc: &mut Doc, start: Point) -> Result<Approach, EditFault>
    requires open { IsOpen doc.old }
    requires here { 0 < count_of doc.old.state.trees start.label }
    ensures gives { Gives result doc.old.state doc.new.state (back.climb start) }
    ensures there { IfOk result (λ way. 0 < count_of doc.new.state.trees way.at.label) }
    ensures keeps { Keeps doc.old doc.new }
{
    let mut turns = turn_bound(doc);
    let mut way = begun_at(start);
    while turns > 0 {
        if !way.going {
            return Ok(way);
        }
        way = climb_turn(doc, way)?;
        turns -= 1;
    }
    Ok(way)
}
