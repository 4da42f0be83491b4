//! The two ways that a walk may go.

ghost use Rattle.std.specs.Prelude.{◌≡◌};
ghost use Rattle.node_styles.specs.NodeArena.Reads.{Names};
ghost use Rattle.node_tests.specs.Sides as sides;

use node_styles::arena::{NodeRef, Nodes};

/// A side of a node, to which a walk goes.
#[derive(Clone, Copy)]
pub(crate) enum Side {
    Before,
    After,
}

/// The side that a walk comes from.
pub(crate) fn other(side: Side) -> Side
    ensures { result ≡ sides.other side }
{
    match side {
        Side::Before => Side::After,
        Side::After => Side::Before,
    }
}

/// The sibling on a side.
pub(crate) fn sibling<N: Nodes>(nodes: &N, node: NodeRef, side: Side) -> Option<NodeRef>
    requires { N.holds nodes.now node }
    ensures { Names (N.holds nodes.now) result (sides.sibling side (N.trees nodes.now) node.label) }
{
    match side {
        Side::Before => nodes.prev(node),
        Side::After => nodes.next(node),
    }
}

// The child that a walk to a side comes to first.
fn near_child<N: Nodes>(nodes: &N, node: NodeRef, side: Side) -> Option<NodeRef>
    requires { N.holds nodes.now node }
    ensures { Names (N.holds nodes.now) result
        (sides.near_child side (N.trees nodes.now) node.label) }
{
    match side {
        Side::Before => nodes.last_child(node),
        Side::After => nodes.first_child(node),
    }
}

/// Where a walk to a side goes on from a node without going up: to a child, or else to the sibling.
pub(crate) fn inward<N: Nodes>(nodes: &N, node: NodeRef, side: Side) -> Option<NodeRef>
    requires { N.holds nodes.now node }
    ensures { Names (N.holds nodes.now) result (sides.inward side (N.trees nodes.now) node.label) }
{
    match near_child(nodes, node, side) {
        Some(child) => Some(child),
        None => sibling(nodes, node, side),
    }
}
