//! Steps of canonicalizing whitespace from point to point, in which nothing is edited. The steps
//! are those of docs/ALGORITHMS.md.

ghost use Rattle.std.specs.Prelude.{◌≡◌, IfSome, false, not, true};
ghost use Rattle.std.specs.Option.{option_map};
ghost use Rattle.edit_model.specs.DomModel.Contents.{length_of};
ghost use Rattle.delete_core.specs.InLine.{FollowsNone, PrecedesNone};
ghost use Rattle.delete_core.specs.Places as places;
ghost use Rattle.delete_core.specs.Whitespace.{into_child_before, into_child_at, out_to_start, out_to_end, out_back, over_blank, back_step, start_of_blanks, out_on, on_step, out_front, trim_step};
ghost use Rattle.inline_value.specs.EditDoc.Held.{Holds, Finds};
ghost use Rattle.inline_value.specs.NodeTests.BlockPoints as points;
ghost use Rattle.inline_value.specs.NodeTests.LineBreaks as line_breaks;
ghost use Rattle.inline_value.specs.NodeTests.Visible as visible;

use crate::blanks::blank_before;
use crate::places::{after_in, before_in, child_at, child_before, end_in, if_inside, start_in};
use edit_model::arena::Nodes;
use inline_value::doc::{Doc, NodeRef, Point};
use inline_value::questions::{follows_break, is_visible, precedes_break};
use inline_value::wrap::turn_bound;

/// Where a walk stands.
#[derive(Clone, Copy)]
pub(crate) struct Stand {
    /// The point.
    pub at: Point,
    /// Something visible is known to come before a line break on the way, so that this need not be
    /// asked of each node of a run that shows nothing.
    pub in_line: bool,
}

// Whether what is known where a walk stands holds in a child too: it shows nothing and has one
// place.
fn stays_in_line(doc: &Doc, in_line: bool, child: NodeRef) -> bool
    requires { Holds doc.now child }
    ensures known { result ≡ true → in_line ≡ true }
    ensures hidden { result ≡ true → visible.is_visible doc.now.state.trees child.label ≡ false }
    ensures empty { result ≡ true → length_of doc.now.state.trees child.label ≡ 0 }
{
    in_line && doc.length(child) == 0 && !is_visible(doc, child)
}

// The child before a point, where it is inside.
#[tactic(auto, using(crate::proofs::Absent::absent))]
fn inner_before(doc: &Doc, at: Point) -> Option<NodeRef>
    ensures { Finds doc.now result (places.if_inside doc.now.state
        (points.child_before doc.now.state.trees at.label at.offset)) }
{
    let node = doc.find(at.label)?;
    if_inside(doc, child_before(doc, node, at.offset))
}

// The child at a point, where it is inside.
#[tactic(auto, using(crate::proofs::Absent::absent))]
fn inner_at(doc: &Doc, at: Point) -> Option<NodeRef>
    ensures { Finds doc.now result (places.if_inside doc.now.state
        (points.child_at doc.now.state.trees at.label at.offset)) }
{
    let node = doc.find(at.label)?;
    if_inside(doc, child_at(doc, node, at.offset))
}

// Into the child before a point, to its end, where it is inside.
#[tactic(auto, unfolding(crate::specs::Whitespace::into_child_before))]
fn into_child_before(doc: &Doc, stand: Stand) -> Option<Stand>
    requires { stand.in_line ≡ true → FollowsNone doc.now.state.trees stand.at }
    ensures gives { option_map (λ next. next.at) result ≡ into_child_before doc.now.state stand.at }
    ensures knows { IfSome result
        (λ next. next.in_line ≡ true → FollowsNone doc.now.state.trees next.at) }
{
    let child = inner_before(doc, stand.at)?;
    Some(Stand {
        at: end_in(doc, child),
        in_line: stays_in_line(doc, stand.in_line, child),
    })
}

// Into the child at a point, to its start, where it is inside.
#[tactic(auto, unfolding(crate::specs::Whitespace::into_child_at))]
fn into_child_at(doc: &Doc, stand: Stand) -> Option<Stand>
    requires { stand.in_line ≡ true → PrecedesNone doc.now.state.trees stand.at }
    ensures gives { option_map (λ next. next.at) result ≡ into_child_at doc.now.state stand.at }
    ensures knows { IfSome result
        (λ next. next.in_line ≡ true → PrecedesNone doc.now.state.trees next.at) }
{
    Nodes::valid(doc);
    let child = inner_at(doc, stand.at)?;
    Some(Stand {
        at: start_in(child),
        in_line: stays_in_line(doc, stand.in_line, child),
    })
}

// To just before a node, where its parent is inside.
#[tactic(auto, unfolding(crate::specs::Whitespace::out_to_start))]
fn out_to_start(doc: &Doc, node: NodeRef) -> Option<Point>
    requires { Holds doc.now node }
    ensures { result ≡ out_to_start doc.now.state node.label }
{
    before_in(doc, node, if_inside(doc, doc.parent(node)))
}

// To just after a node, where its parent is inside.
#[tactic(auto, unfolding(crate::specs::Whitespace::out_to_end))]
fn out_to_end(doc: &Doc, node: NodeRef) -> Option<Point>
    requires { Holds doc.now node }
    ensures { result ≡ out_to_end doc.now.state node.label }
{
    after_in(doc, node, if_inside(doc, doc.parent(node)))
}

// Whether a node at whose start a walk stands follows no line break.
fn has_line_before(doc: &Doc, node: NodeRef, in_line: bool) -> bool
    requires held { Holds doc.now node }
    requires knows { in_line ≡ true → FollowsNone doc.now.state.trees (places.start_in node.label) }
    ensures { result ≡ not (line_breaks.follows_break doc.now.state.trees node.label) }
{
    in_line || !follows_break(doc, node)
}

// Step 2, second line.
#[tactic(auto, using(crate::proofs::Absent::absent), unfolding(crate::specs::Whitespace::out_back, crate::specs::Whitespace::out_to_start))]
fn out_back(doc: &Doc, stand: Stand) -> Option<Stand>
    requires { stand.in_line ≡ true → FollowsNone doc.now.state.trees stand.at }
    ensures gives { option_map (λ next. next.at) result ≡ out_back doc.now.state stand.at }
    ensures knows { IfSome result
        (λ next. next.in_line ≡ true → FollowsNone doc.now.state.trees next.at) }
{
    let node = doc.find(stand.at.label)?;
    if stand.at.offset == 0 && has_line_before(doc, node, stand.in_line) {
        let at = out_to_start(doc, node)?;
        Some(Stand { at, in_line: true })
    } else {
        None
    }
}

// Step 2, third line.
#[tactic(auto, unfolding(crate::specs::Whitespace::over_blank))]
fn over_blank(doc: &Doc, at: Point) -> Option<Point>
    ensures { result ≡ over_blank doc.now.state at }
{
    blank_before(doc, at)?;
    Some(Point {
        label: at.label,
        offset: at.offset - 1,
    })
}

// Step 2: one turn.
#[tactic(auto, unfolding(crate::specs::Whitespace::back_step))]
fn back_step(doc: &Doc, stand: Stand) -> Option<Stand>
    requires { stand.in_line ≡ true → FollowsNone doc.now.state.trees stand.at }
    ensures gives { option_map (λ next. next.at) result ≡ back_step doc.now.state stand.at }
    ensures knows { IfSome result
        (λ next. next.in_line ≡ true → FollowsNone doc.now.state.trees next.at) }
{
    if let Some(inner) = into_child_before(doc, stand) {
        return Some(inner);
    }
    if let Some(outer) = out_back(doc, stand) {
        return Some(outer);
    }
    let at = over_blank(doc, stand.at)?;
    Some(Stand { at, in_line: false })
}

/// Canonicalize whitespace, step 2: where the blanks before a point begin.
#[tactic(auto, using(crate::proofs::Turns::point_walks), unfolding(crate::specs::Whitespace::start_of_blanks))]
pub(crate) fn start_of_blanks(doc: &Doc, at: Point) -> Point
    ensures { result ≡ start_of_blanks doc.now.state at }
{
    let mut stand = Stand { at, in_line: false };
    let mut turns = turn_bound(doc);
    while turns > 0 {
        let Some(next) = back_step(doc, stand) else {
            return stand.at;
        };
        stand = next;
        turns -= 1;
    }
    stand.at
}

// Whether a node at whose end a walk stands precedes no line break.
fn has_line_after(doc: &Doc, node: NodeRef, in_line: bool) -> bool
    requires held { Holds doc.now node }
    requires knows { in_line ≡ true
        → PrecedesNone doc.now.state.trees (places.end_in doc.now.state.trees node.label) }
    ensures { result ≡ not (line_breaks.precedes_break doc.now.state.trees node.label) }
{
    Nodes::valid(doc);
    in_line || !precedes_break(doc, node)
}

// Step 4, second line.
#[tactic(auto, using(crate::proofs::Absent::absent), unfolding(crate::specs::Whitespace::out_on, crate::specs::Whitespace::out_to_end))]
fn out_on(doc: &Doc, stand: Stand) -> Option<Stand>
    requires { stand.in_line ≡ true → PrecedesNone doc.now.state.trees stand.at }
    ensures gives { option_map (λ next. next.at) result ≡ out_on doc.now.state stand.at }
    ensures knows { IfSome result
        (λ next. next.in_line ≡ true → PrecedesNone doc.now.state.trees next.at) }
{
    let node = doc.find(stand.at.label)?;
    if stand.at.offset == doc.length(node) && has_line_after(doc, node, stand.in_line) {
        let at = out_to_end(doc, node)?;
        Some(Stand { at, in_line: true })
    } else {
        None
    }
}

/// Step 4, first and second line: one turn of the walk on, but over a blank.
#[tactic(auto, unfolding(crate::specs::Whitespace::on_step))]
pub(crate) fn on_step(doc: &Doc, stand: Stand) -> Option<Stand>
    requires { stand.in_line ≡ true → PrecedesNone doc.now.state.trees stand.at }
    ensures gives { option_map (λ next. next.at) result ≡ on_step doc.now.state stand.at }
    ensures knows { IfSome result
        (λ next. next.in_line ≡ true → PrecedesNone doc.now.state.trees next.at) }
{
    if let Some(inner) = into_child_at(doc, stand) {
        return Some(inner);
    }
    out_on(doc, stand)
}

// Step 5, second line.
#[tactic(auto, using(crate::proofs::Absent::absent), unfolding(crate::specs::Whitespace::out_front, crate::specs::Whitespace::out_to_start))]
fn out_front(doc: &Doc, at: Point) -> Option<Point>
    ensures { result ≡ out_front doc.now.state at }
{
    let node = doc.find(at.label)?;
    if at.offset == 0 {
        out_to_start(doc, node)
    } else {
        None
    }
}

/// Step 5, first and second line: one turn of the walk back, but over a blank.
#[tactic(auto, unfolding(crate::specs::Whitespace::trim_step, crate::specs::Whitespace::into_child_before))]
pub(crate) fn trim_step(doc: &Doc, at: Point) -> Option<Point>
    ensures { result ≡ trim_step doc.now.state at }
{
    if let Some(child) = inner_before(doc, at) {
        return Some(end_in(doc, child));
    }
    out_front(doc, at)
}
