//! Places in a tree, told by the children beside them, and the steps from one to the next.

ghost use Rattle.std.specs.Prelude.{◌≡◌, ◌<◌, ◌+◌, ◌-◌, ◌↔◌, IfSome, IsTrue, None};
ghost use Rattle.node_paths.specs.DomModel.Contents.{length_of};
ghost use Rattle.node_paths.specs.DomModel.Places.{index_of};
ghost use Rattle.node_tests.specs.BlockPoints as points;
ghost use Rattle.block_extend.specs.BlockExtend as extend;
ghost use Rattle.block_extend.specs.Gaps as gaps;
ghost use Rattle.block_extend.specs.Gaps.{Leads, Stands};

use node_paths::arena::{Content, NodeRef, Nodes};
use node_tests::dom_ranges::Point;
use node_tests::{child_at, child_before, ends_before, is_root, starts_after};

/// A place in a node, with the children beside it.
#[derive(Clone, Copy)]
pub(crate) struct Place {
    pub node: NodeRef,
    pub offset: u32,
    pub before: Option<NodeRef>,
    pub after: Option<NodeRef>,
}

/// How a walk goes: to the place before or after, or only out of nodes from their start or their
/// end.
#[derive(Clone, Copy)]
pub(crate) enum Way {
    Back,
    OutBefore,
    Forth,
    OutAfter,
}

/// The point of a place.
pub(crate) fn point_of(at: Place) -> Point
    ensures { result ≡ gaps.point_of at }
{
    Point {
        label: at.node.label,
        offset: at.offset,
    }
}

/// The place at an offset. It counts the children before it.
pub(crate) fn place_at<N: Nodes>(nodes: &N, node: NodeRef, offset: u32) -> Place
    requires { N.holds nodes.now node }
    ensures stands { Stands (N.holds nodes.now) (N.trees nodes.now) result }
    ensures node { result.node ≡ node }
    ensures offset { result.offset ≡ offset }
{
    Place {
        node,
        offset,
        before: child_before(nodes, node, offset),
        after: child_at(nodes, node, offset),
    }
}

/// The place before a node, in its parent.
pub(crate) fn place_before<N: Nodes>(nodes: &N, node: NodeRef) -> Option<Place>
    requires { N.holds nodes.now node }
    ensures { Leads (N.holds nodes.now) (N.trees nodes.now) result
        (extend.out_of (N.trees nodes.now) node.label 0) }
{
    nodes.valid();
    match nodes.parent(node) {
        Some(parent) => Some(Place {
            node: parent,
            offset: nodes.index(node),
            before: nodes.prev(node),
            after: Some(node),
        }),
        None => None,
    }
}

// The index of a node: that of a known place, where the node stands after it, or else counted.
fn index_from<N: Nodes>(nodes: &N, node: NodeRef, known: Option<Place>) -> u32
    requires held { N.holds nodes.now node }
    requires known { IfSome known (Stands (N.holds nodes.now) (N.trees nodes.now)) }
    ensures { result ≡ index_of (N.trees nodes.now) node.label }
{
    nodes.valid();
    if let Some(at) = known {
        if let Some(child) = at.after {
            if child.label == node.label {
                return at.offset;
            }
        }
    }
    nodes.index(node)
}

/// The place after a node, in its parent. The children before the node aren't counted, where it
/// stands after a known place.
pub(crate) fn place_after<N: Nodes>(nodes: &N, node: NodeRef, known: Option<Place>) -> Option<Place>
    requires held { N.holds nodes.now node }
    requires known { IfSome known (Stands (N.holds nodes.now) (N.trees nodes.now)) }
    ensures { Leads (N.holds nodes.now) (N.trees nodes.now) result
        (extend.out_of (N.trees nodes.now) node.label 1) }
{
    nodes.valid();
    match nodes.parent(node) {
        Some(parent) => Some(Place {
            node: parent,
            offset: index_from(nodes, node, known) + 1,
            before: Some(node),
            after: nodes.next(node),
        }),
        None => None,
    }
}

// The place one offset before.
fn one_back<N: Nodes>(nodes: &N, at: Place) -> Place
    requires stands { Stands (N.holds nodes.now) (N.trees nodes.now) at }
    requires some { 0 < at.offset }
    ensures stands { Stands (N.holds nodes.now) (N.trees nodes.now) result }
    ensures node { result.node ≡ at.node }
    ensures offset { result.offset ≡ at.offset - 1 }
{
    nodes.valid();
    match at.before {
        Some(child) => Place {
            node: at.node,
            offset: at.offset - 1,
            before: nodes.prev(child),
            after: Some(child),
        },
        None => place_at(nodes, at.node, at.offset - 1),
    }
}

// The place one offset after.
fn one_forth<N: Nodes>(nodes: &N, at: Place) -> Place
    requires stands { Stands (N.holds nodes.now) (N.trees nodes.now) at }
    requires some { at.offset < length_of (N.trees nodes.now) at.node.label }
    ensures stands { Stands (N.holds nodes.now) (N.trees nodes.now) result }
    ensures node { result.node ≡ at.node }
    ensures offset { result.offset ≡ at.offset + 1 }
{
    nodes.valid();
    match at.after {
        Some(child) => Place {
            node: at.node,
            offset: at.offset + 1,
            before: Some(child),
            after: nodes.next(child),
        },
        None => {
            let _length = nodes.length(at.node);
            place_at(nodes, at.node, at.offset + 1)
        }
    }
}

// Whether a place with no child after it stands before the end of its node: only among characters. It
// counts no children.
fn is_amid_characters<N: Nodes>(nodes: &N, at: Place) -> bool
    requires stands { Stands (N.holds nodes.now) (N.trees nodes.now) at }
    requires none { at.after ≡ None }
    ensures { IsTrue result ↔ (at.offset < length_of (N.trees nodes.now) at.node.label) }
{
    match nodes.content(at.node) {
        Content::Words(_) | Content::Remark(_) => at.offset < nodes.length(at.node),
        _ => false,
    }
}

// Whether a place stands before the end of its node. It counts no children.
fn is_before_end<N: Nodes>(nodes: &N, at: Place) -> bool
    requires { Stands (N.holds nodes.now) (N.trees nodes.now) at }
    ensures { IsTrue result ↔ (at.offset < length_of (N.trees nodes.now) at.node.label) }
{
    nodes.valid();
    match at.after {
        Some(_) => true,
        None => is_amid_characters(nodes, at),
    }
}

// The place before: at the start of a node, that before the node.
#[tactic(auto, unfolding(crate::specs::BlockExtend::back))]
fn back<N: Nodes>(nodes: &N, at: Place) -> Option<Place>
    requires { Stands (N.holds nodes.now) (N.trees nodes.now) at }
    ensures { Leads (N.holds nodes.now) (N.trees nodes.now) result
        (extend.back (N.trees nodes.now) (gaps.point_of at)) }
{
    if at.offset == 0 {
        place_before(nodes, at.node)
    } else {
        Some(one_back(nodes, at))
    }
}

// The place after: at the end of a node, that after the node.
#[tactic(auto, unfolding(crate::specs::BlockExtend::forth))]
fn forth<N: Nodes>(nodes: &N, at: Place, known: Option<Place>) -> Option<Place>
    requires stands { Stands (N.holds nodes.now) (N.trees nodes.now) at }
    requires known { IfSome known (Stands (N.holds nodes.now) (N.trees nodes.now)) }
    ensures { Leads (N.holds nodes.now) (N.trees nodes.now) result
        (extend.forth (N.trees nodes.now) (gaps.point_of at)) }
{
    if is_before_end(nodes, at) {
        Some(one_forth(nodes, at))
    } else {
        place_after(nodes, at.node, known)
    }
}

// Out of a node, from its start alone.
#[tactic(auto, unfolding(crate::specs::BlockExtend::out_before))]
fn out_before<N: Nodes>(nodes: &N, at: Place) -> Option<Place>
    requires { Stands (N.holds nodes.now) (N.trees nodes.now) at }
    ensures { Leads (N.holds nodes.now) (N.trees nodes.now) result
        (extend.out_before (N.trees nodes.now) (gaps.point_of at)) }
{
    if at.offset == 0 {
        place_before(nodes, at.node)
    } else {
        None
    }
}

// Out of a node, from its end alone.
#[tactic(auto, unfolding(crate::specs::BlockExtend::out_after))]
fn out_after<N: Nodes>(nodes: &N, at: Place, known: Option<Place>) -> Option<Place>
    requires stands { Stands (N.holds nodes.now) (N.trees nodes.now) at }
    requires known { IfSome known (Stands (N.holds nodes.now) (N.trees nodes.now)) }
    ensures { Leads (N.holds nodes.now) (N.trees nodes.now) result
        (extend.out_after (N.trees nodes.now) (gaps.point_of at)) }
{
    if is_before_end(nodes, at) {
        None
    } else {
        place_after(nodes, at.node, known)
    }
}

/// A step of a walk. A place that is known saves the steps forth and out to count the children before
/// the one after it.
pub(crate) fn step<N: Nodes>(nodes: &N, way: Way, at: Place, known: Option<Place>) -> Option<Place>
    requires stands { Stands (N.holds nodes.now) (N.trees nodes.now) at }
    requires known { IfSome known (Stands (N.holds nodes.now) (N.trees nodes.now)) }
    ensures { Leads (N.holds nodes.now) (N.trees nodes.now) result
        (gaps.step way (N.trees nodes.now) (gaps.point_of at)) }
{
    match way {
        Way::Back => back(nodes, at),
        Way::OutBefore => out_before(nodes, at),
        Way::Forth => forth(nodes, at, known),
        Way::OutAfter => out_after(nodes, at, known),
    }
}

/// Whether a place is a block start point.
#[tactic(auto, unfolding(node_tests::specs::BlockPoints::is_block_start))]
pub(crate) fn is_start<N: Nodes>(nodes: &N, at: Place) -> bool
    requires { Stands (N.holds nodes.now) (N.trees nodes.now) at }
    ensures { result ≡ points.is_block_start (N.trees nodes.now) at.node.label at.offset }
{
    (at.offset == 0 && is_root(nodes, at.node)) || starts_after(nodes, at.before)
}

/// Whether a place is a block end point.
#[tactic(auto, unfolding(node_tests::specs::BlockPoints::is_block_end))]
pub(crate) fn is_end<N: Nodes>(nodes: &N, at: Place) -> bool
    requires { Stands (N.holds nodes.now) (N.trees nodes.now) at }
    ensures { result ≡ points.is_block_end (N.trees nodes.now) at.node.label at.offset }
{
    (is_root(nodes, at.node) && at.offset == nodes.length(at.node)) || ends_before(nodes, at.after)
}

// Whether a place is either.
#[tactic(auto, unfolding(node_tests::specs::BlockPoints::is_block_boundary))]
fn is_boundary<N: Nodes>(nodes: &N, at: Place) -> bool
    requires { Stands (N.holds nodes.now) (N.trees nodes.now) at }
    ensures { result ≡ points.is_block_boundary (N.trees nodes.now) at.node.label at.offset }
{
    is_start(nodes, at) || is_end(nodes, at)
}

/// Whether a walk stops where it comes to a place.
pub(crate) fn stops<N: Nodes>(nodes: &N, way: Way, at: Place) -> bool
    requires { Stands (N.holds nodes.now) (N.trees nodes.now) at }
    ensures { result ≡ gaps.stops way (N.trees nodes.now) (gaps.point_of at) }
{
    match way {
        Way::Back | Way::Forth => is_boundary(nodes, at),
        Way::OutBefore | Way::OutAfter => false,
    }
}
