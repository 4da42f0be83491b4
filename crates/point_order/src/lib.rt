//! The order of points in a tree, and whether a point stands in the document.
//!
//! A point is a node, named by its label, and an offset in it. Which of two comes first is the DOM
//! Standard's position of one boundary point relative to another.
#![tactic(auto)]

ghost use Rattle.std.specs.Prelude.{◌≡◌, ◌<◌, None, length, nat_le};
ghost use Rattle.node_arena.specs.DomModel.Contents.{length_of};
ghost use Rattle.node_arena.specs.DomModel.Forest.{IsWithin, children_of, count_of, parent_of};
ghost use Rattle.node_arena.specs.Reads.{Names};
ghost use Rattle.point_order.specs.PointOrder.{child_toward, is_ancestor, is_before, is_earlier, is_in_document, is_placed, is_within};

pub use live_range as dom_ranges;
use live_range::Point;
pub use node_arena as arena;
use node_arena::{Content, NodeRef, Nodes};
pub use node_arena::{dom, stepping};

/// The child of `top` that the node is, or stands below; `None` where the node is `top` or isn't in
/// its tree.
pub fn child_toward<N: Nodes>(nodes: &N, top: NodeRef, node: NodeRef) -> Option<NodeRef>
    requires top_held { N.holds nodes.now top }
    requires node_held { N.holds nodes.now node }
    ensures { Names (N.holds nodes.now) result
        (child_toward (N.trees nodes.now) top.label node.label) }
{
    nodes.valid();
    let mut at = node;
    while let Some(parent) = nodes.parent(at) {
        if parent.label == top.label {
            return Some(at);
        }
        at = parent;
    }
    None
}

/// Whether a node is `top` or stands below it.
pub fn is_within<N: Nodes>(nodes: &N, top: NodeRef, node: NodeRef) -> bool
    requires top_held { N.holds nodes.now top }
    requires node_held { N.holds nodes.now node }
    ensures { result ≡ is_within (N.trees nodes.now) top.label node.label }
{
    nodes.is_within(top, node)
}

/// Whether a node stands below `top`.
pub fn is_ancestor<N: Nodes>(nodes: &N, top: NodeRef, node: NodeRef) -> bool
    requires top_held { N.holds nodes.now top }
    requires node_held { N.holds nodes.now node }
    ensures { result ≡ is_ancestor (N.trees nodes.now) top.label node.label }
{
    top.label != node.label && is_within(nodes, top, node)
}

/// Whether a node comes before another one in tree order. `false` where they are in different
/// trees.
pub fn is_earlier<N: Nodes>(nodes: &N, node: NodeRef, other: NodeRef) -> bool
    requires node_held { N.holds nodes.now node }
    requires other_held { N.holds nodes.now other }
    ensures { result ≡ is_earlier (N.trees nodes.now) node.label other.label }
{
    match nodes.before(node, other) {
        Some(first) => first.label == node.label,
        None => false,
    }
}

/// The node of a point, which is there.
pub fn node_of<N: Nodes>(nodes: &N, point: Point) -> NodeRef
    requires { 0 < count_of (N.trees nodes.now) point.label }
    ensures held { N.holds nodes.now result }
    ensures label { result.label ≡ point.label }
{
    match nodes.find(point.label) {
        Some(node) => node,
        None => unreachable!(),
    }
}

/// Whether a point comes before another one. Their nodes are there.
pub fn comes_before<N: Nodes>(nodes: &N, point: Point, other: Point) -> bool
    requires point_there { 0 < count_of (N.trees nodes.now) point.label }
    requires other_there { 0 < count_of (N.trees nodes.now) other.label }
    ensures { result ≡ is_before (N.trees nodes.now) point other }
{
    if point.label == other.label {
        return point.offset < other.offset;
    }
    let node = node_of(nodes, point);
    let other_node = node_of(nodes, other);
    if let Some(child) = child_toward(nodes, node, other_node) {
        return point.offset <= nodes.index(child);
    }
    if let Some(child) = child_toward(nodes, other_node, node) {
        return nodes.index(child) < other.offset;
    }
    is_earlier(nodes, node, other_node)
}

/// Whether the node of a label is in the document.
pub fn is_in_document<N: Nodes>(nodes: &N, label: u32) -> bool
    ensures { result ≡ is_in_document (N.trees nodes.now) label }
{
    nodes.valid();
    match nodes.find(label) {
        Some(node) => nodes.is_within(nodes.document(), node),
        None => false,
    }
}

/// The root of the tree in which a node is.
pub fn root_of<N: Nodes>(nodes: &N, node: NodeRef) -> NodeRef
    requires { N.holds nodes.now node }
    ensures held { N.holds nodes.now result }
    ensures root { parent_of (N.trees nodes.now) result.label ≡ None }
    ensures within { IsWithin (N.trees nodes.now) result.label node.label }
{
    nodes.valid();
    let mut at = node;
    while let Some(parent) = nodes.parent(at) {
        at = parent;
    }
    at
}

// Whether a node has at least this many children. It takes a step for each, and none for those
// after them.
fn has_children<N: Nodes>(nodes: &N, node: NodeRef, count: u32) -> bool
    requires { N.holds nodes.now node }
    ensures { result ≡ nat_le count (length (children_of (N.trees nodes.now) node.label)) }
{
    nodes.valid();
    let mut child = nodes.first_child(node);
    let mut left = count;
    while left > 0 {
        match child {
            Some(at) => child = nodes.next(at),
            None => return false,
        }
        left -= 1;
    }
    true
}

// Whether an offset is at most the length of a node.
fn has_place<N: Nodes>(nodes: &N, node: NodeRef, offset: u32) -> bool
    requires { N.holds nodes.now node }
    ensures { result ≡ nat_le offset (length_of (N.trees nodes.now) node.label) }
{
    match nodes.content(node) {
        Content::Words(_) | Content::Remark(_) => offset <= nodes.length(node),
        _ => has_children(nodes, node, offset),
    }
}

/// Whether a point stands in the document, at an offset of its node.
pub fn is_placed<N: Nodes>(nodes: &N, point: Point) -> bool
    ensures { result ≡ is_placed (N.trees nodes.now) point }
{
    nodes.valid();
    match nodes.find(point.label) {
        Some(node) => {
            nodes.is_within(nodes.document(), node) && has_place(nodes, node, point.offset)
        }
        None => false,
    }
}
