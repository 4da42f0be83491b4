//! Points by the nodes beside them.

ghost use Rattle.std.specs.Prelude.{◌≡◌, ◌<◌, IfSome, true};
ghost use Rattle.edit_model.specs.DomModel.Forest.{count_of};
ghost use Rattle.edit_model.specs.Gives.{label_of};
ghost use Rattle.inline_value.specs.EditDoc.Held.{Holds, IfHeld, Finds};
ghost use Rattle.inline_value.specs.NodeTests.BlockPoints as points;
ghost use Rattle.delete_core.specs.Places.{start_in, end_in, before_in, after_in, before_node, after_node, if_inside, comes_before};

use edit_model::arena::Nodes;
use inline_value::doc::{Doc, NodeRef, Point};

/// A node, if there is one, that is inside.
pub(crate) fn if_inside(doc: &Doc, node: Option<NodeRef>) -> Option<NodeRef>
    requires { IfHeld doc.now node }
    ensures { Finds doc.now result (if_inside doc.now.state (label_of node)) }
{
    let node = node?;
    if doc.is_inside(node) {
        Some(node)
    } else {
        None
    }
}

/// The child at an offset. It counts the children before it.
#[tactic(auto, using(crate::proofs::Below::finds_named))]
pub fn child_at(doc: &Doc, node: NodeRef, offset: u32) -> Option<NodeRef>
    requires { Holds doc.now node }
    ensures { Finds doc.now result (points.child_at doc.now.state.trees node.label offset) }
{
    inline_value::questions::child_at(doc, node, offset)
}

/// The child before an offset.
#[tactic(auto, using(crate::proofs::Below::finds_named))]
pub fn child_before(doc: &Doc, node: NodeRef, offset: u32) -> Option<NodeRef>
    requires { Holds doc.now node }
    ensures { Finds doc.now result (points.child_before doc.now.state.trees node.label offset) }
{
    inline_value::questions::child_before(doc, node, offset)
}

/// The start of a node.
pub fn start_in(node: NodeRef) -> Point
    ensures { result ≡ start_in node.label }
{
    Point {
        label: node.label,
        offset: 0,
    }
}

/// The end of a node.
pub fn end_in(doc: &Doc, node: NodeRef) -> Point
    requires { Holds doc.now node }
    ensures { result ≡ end_in doc.now.state.trees node.label }
{
    Point {
        label: node.label,
        offset: doc.length(node),
    }
}

/// The point just before a node in a parent, if that is there.
pub(crate) fn before_in(doc: &Doc, node: NodeRef, parent: Option<NodeRef>) -> Option<Point>
    requires held { Holds doc.now node }
    requires parent_held { IfHeld doc.now parent }
    ensures gives { result ≡ before_in doc.now.state.trees node.label (label_of parent) }
    ensures there { IfSome result (λ at. 0 < count_of doc.now.state.trees at.label) }
{
    let parent = parent?;
    Some(Point {
        label: parent.label,
        offset: doc.index(node),
    })
}

/// The point just after a node in a parent, if that is there.
pub(crate) fn after_in(doc: &Doc, node: NodeRef, parent: Option<NodeRef>) -> Option<Point>
    requires held { Holds doc.now node }
    requires parent_held { IfHeld doc.now parent }
    ensures gives { result ≡ after_in doc.now.state.trees node.label (label_of parent) }
    ensures there { IfSome result (λ at. 0 < count_of doc.now.state.trees at.label) }
{
    Nodes::valid(doc);
    let parent = parent?;
    Some(Point {
        label: parent.label,
        offset: doc.index(node) + 1,
    })
}

/// The point just before a node; the root of a tree has none.
#[tactic(auto, unfolding(crate::specs::Places::before_node))]
pub fn before_node(doc: &Doc, node: NodeRef) -> Option<Point>
    requires { Holds doc.now node }
    ensures gives { result ≡ before_node doc.now.state.trees node.label }
    ensures there { IfSome result (λ at. 0 < count_of doc.now.state.trees at.label) }
{
    before_in(doc, node, doc.parent(node))
}

/// The point just after a node; the root of a tree has none.
#[tactic(auto, unfolding(crate::specs::Places::after_node))]
pub fn after_node(doc: &Doc, node: NodeRef) -> Option<Point>
    requires { Holds doc.now node }
    ensures gives { result ≡ after_node doc.now.state.trees node.label }
    ensures there { IfSome result (λ at. 0 < count_of doc.now.state.trees at.label) }
{
    after_in(doc, node, doc.parent(node))
}

/// The point just after the node of a point; there is none where the node isn't there or is the
/// root of a tree.
#[tactic(auto, using(crate::proofs::Absent::absent), unfolding(crate::specs::Places::after_node))]
pub(crate) fn after_there(doc: &Doc, at: Point) -> Option<Point>
    ensures { result ≡ after_node doc.now.state.trees at.label }
{
    let node = doc.find(at.label)?;
    after_in(doc, node, doc.parent(node))
}

/// Whether both nodes are there, and the first point comes before the other.
#[tactic(auto, unfolding(crate::specs::Places::comes_before))]
pub(crate) fn comes_before(doc: &Doc, point: Point, other: Point) -> bool
    ensures gives { result ≡ comes_before doc.now.state.trees point other }
    ensures point_there { result ≡ true → 0 < count_of doc.now.state.trees point.label }
    ensures other_there { result ≡ true → 0 < count_of doc.now.state.trees other.label }
{
    doc.find(point.label).is_some()
        && doc.find(other.label).is_some()
        && edit_model::boundary::comes_before(doc, point, other)
}
