//! Places where a block starts or ends.

ghost use Rattle.std.specs.Prelude.{◌≡◌, ◌<◌, IfSome, is_none};
ghost use Rattle.node_styles.specs.DomModel.Forest.{count_of, parent_of};
ghost use Rattle.node_styles.specs.NodeArena.Held.{label};
ghost use Rattle.node_styles.specs.NodeArena.Reads.{Names};
ghost use Rattle.node_tests.specs.BlockPoints as points;

use crate::neighbours::is_nothing;
use crate::sides::Side;
use crate::visible::is_visible;
use node_styles::arena::{NodeRef, Nodes, is_break};
use node_styles::is_block;
use point_order::dom_ranges::Point;

/// The child at an offset.
pub fn child_at<N: Nodes>(nodes: &N, node: NodeRef, offset: u32) -> Option<NodeRef>
    requires { N.holds nodes.now node }
    ensures { Names (N.holds nodes.now) result
        (points.child_at (N.trees nodes.now) node.label offset) }
{
    nodes.valid();
    let mut child = nodes.first_child(node);
    let mut left = offset;
    while left > 0 {
        match child {
            Some(at) => child = nodes.next(at),
            None => return None,
        }
        left -= 1;
    }
    child
}

/// The child before an offset.
pub fn child_before<N: Nodes>(nodes: &N, node: NodeRef, offset: u32) -> Option<NodeRef>
    requires { N.holds nodes.now node }
    ensures { Names (N.holds nodes.now) result
        (points.child_before (N.trees nodes.now) node.label offset) }
{
    if offset == 0 {
        None
    } else {
        child_at(nodes, node, offset - 1)
    }
}

/// Whether a block or a line starts after this node, if there is one.
#[tactic(auto, unfolding(crate::specs::BlockPoints::starts_after))]
pub fn starts_after<N: Nodes>(nodes: &N, node: Option<NodeRef>) -> bool
    requires { IfSome node (N.holds nodes.now) }
    ensures { result ≡ points.starts_after (N.trees nodes.now) (label node) }
{
    match node {
        Some(node) => {
            (is_block(nodes, node) || is_break(nodes, node)) && is_visible(nodes, node)
        }
        None => false,
    }
}

/// Whether a block ends before this node, if there is one.
#[tactic(auto, unfolding(crate::specs::BlockPoints::ends_before))]
pub fn ends_before<N: Nodes>(nodes: &N, node: Option<NodeRef>) -> bool
    requires { IfSome node (N.holds nodes.now) }
    ensures { result ≡ points.ends_before (N.trees nodes.now) (label node) }
{
    match node {
        Some(node) => is_block(nodes, node) && is_visible(nodes, node),
        None => false,
    }
}

/// Whether a node has no parent.
pub fn is_root<N: Nodes>(nodes: &N, node: NodeRef) -> bool
    requires { N.holds nodes.now node }
    ensures { result ≡ is_none (parent_of (N.trees nodes.now) node.label) }
{
    is_nothing(nodes.parent(node))
}

// The offset at an end of a node.
fn edge<N: Nodes>(nodes: &N, node: NodeRef, side: Side) -> u32
    requires { N.holds nodes.now node }
    ensures { result ≡ points.edge side (N.trees nodes.now) node.label }
{
    match side {
        Side::Before => 0,
        Side::After => nodes.length(node),
    }
}

// Whether an offset is after a visible block or a visible br, or on the other side before a
// visible block.
fn is_bounded<N: Nodes>(nodes: &N, node: NodeRef, offset: u32, side: Side) -> bool
    requires { N.holds nodes.now node }
    ensures { result ≡ points.is_bounded side (N.trees nodes.now) node.label offset }
{
    match side {
        Side::Before => starts_after(nodes, child_before(nodes, node, offset)),
        Side::After => ends_before(nodes, child_at(nodes, node, offset)),
    }
}

// Whether a point is a block start point, or on the other side a block end point.
fn is_block_point<N: Nodes>(nodes: &N, at: Point, side: Side) -> bool
    requires { 0 < count_of (N.trees nodes.now) at.label }
    ensures { result ≡ points.is_block_point side (N.trees nodes.now) at.label at.offset }
{
    match nodes.find(at.label) {
        Some(node) => {
            (is_root(nodes, node) && at.offset == edge(nodes, node, side))
                || is_bounded(nodes, node, at.offset, side)
        }
        None => unreachable!(),
    }
}

/// Whether a point is a block start point: the start of a tree, or after a visible block node or a
/// visible br.
#[tactic(auto, unfolding(crate::specs::BlockPoints::is_block_start))]
pub fn is_block_start<N: Nodes>(nodes: &N, at: Point) -> bool
    requires { 0 < count_of (N.trees nodes.now) at.label }
    ensures { result ≡ points.is_block_start (N.trees nodes.now) at.label at.offset }
{
    is_block_point(nodes, at, Side::Before)
}

/// Whether a point is a block end point: the end of a tree, or before a visible block node.
#[tactic(auto, unfolding(crate::specs::BlockPoints::is_block_end))]
pub fn is_block_end<N: Nodes>(nodes: &N, at: Point) -> bool
    requires { 0 < count_of (N.trees nodes.now) at.label }
    ensures { result ≡ points.is_block_end (N.trees nodes.now) at.label at.offset }
{
    is_block_point(nodes, at, Side::After)
}

/// Whether a point is a block start point or a block end point.
#[tactic(auto, unfolding(crate::specs::BlockPoints::is_block_boundary))]
pub fn is_block_boundary<N: Nodes>(nodes: &N, at: Point) -> bool
    requires { 0 < count_of (N.trees nodes.now) at.label }
    ensures { result ≡ points.is_block_boundary (N.trees nodes.now) at.label at.offset }
{
    is_block_start(nodes, at) || is_block_end(nodes, at)
}
