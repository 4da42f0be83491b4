//! Whether a node follows or precedes a line break.

ghost use Rattle.std.specs.Prelude.{◌≡◌, ◌||◌, ◌&&◌, ◌+◌, ◌*◌, is_none, IfSome};
ghost use Rattle.node_styles.specs.DomModel.Forest.{parent_of};
ghost use Rattle.node_styles.specs.NodeArena.Held.{label};
ghost use Rattle.node_tests.specs.Gaps as gaps;
ghost use Rattle.node_tests.specs.LineBreaks as line_breaks;
ghost use Rattle.node_tests.specs.declared.sides.Side as sides;
ghost use Rattle.node_tests.specs.Gaps.{HoldsGap, StandsAt, Comes, meets_boundary};

use crate::block_points::{ends_before, is_root, starts_after};
use crate::neighbours::is_nothing;
use crate::sides::{Side, other};
use crate::visible::is_visible;
use node_styles::arena::{NodeRef, Nodes};
use node_styles::turn_bound;

// A place in a node, by the children beside it.
#[derive(Clone, Copy)]
struct Gap {
    node: NodeRef,
    before: Option<NodeRef>,
    after: Option<NodeRef>,
}

// What a turn of a walk comes to: the answer, or where to go on.
#[derive(Clone, Copy)]
enum Turn {
    Answer(bool),
    GoOn(Gap),
}

// The place at an end of a node.
fn end_of<N: Nodes>(nodes: &N, node: NodeRef, side: Side) -> Gap
    requires { N.holds nodes.now node }
    ensures held { HoldsGap (N.holds nodes.now) result }
    ensures place { StandsAt (N.trees nodes.now) result
        (line_breaks.end_of side (N.trees nodes.now) node.label) }
{
    nodes.valid();
    match side {
        Side::Before => Gap {
            node,
            before: None,
            after: nodes.first_child(node),
        },
        Side::After => Gap {
            node,
            before: nodes.last_child(node),
            after: None,
        },
    }
}

// Out of a node, to the place beside it.
fn out_of<N: Nodes>(nodes: &N, node: NodeRef, side: Side) -> Turn
    requires { N.holds nodes.now node }
    ensures { Comes (N.holds nodes.now) (N.trees nodes.now) result
        (line_breaks.out_of side (N.trees nodes.now) node.label) }
{
    nodes.valid();
    match nodes.parent(node) {
        Some(parent) => match side {
            Side::Before => Turn::GoOn(Gap {
                node: parent,
                before: nodes.prev(node),
                after: Some(node),
            }),
            Side::After => Turn::GoOn(Gap {
                node: parent,
                before: Some(node),
                after: nodes.next(node),
            }),
        },
        None => Turn::Answer(true),
    }
}

// The child beside a place.
fn beside(at: Gap, side: Side) -> Option<NodeRef>
    ensures { result ≡ gaps.beside side at }
{
    match side {
        Side::Before => at.before,
        Side::After => at.after,
    }
}

// Whether a place is at an end of a tree.
fn is_tree_end<N: Nodes>(nodes: &N, at: Gap) -> bool
    requires { HoldsGap (N.holds nodes.now) at }
    ensures { result ≡ (is_none (parent_of (N.trees nodes.now) at.node.label)
        && (is_none (label at.before) || is_none (label at.after))) }
{
    is_root(nodes, at.node) && (is_nothing(at.before) || is_nothing(at.after))
}

// Whether a place is at an end of a tree, or beside a visible block or after a visible br.
fn is_boundary<N: Nodes>(nodes: &N, at: Gap) -> bool
    requires { HoldsGap (N.holds nodes.now) at }
    ensures { result ≡ meets_boundary (N.trees nodes.now) at }
{
    is_tree_end(nodes, at) || starts_after(nodes, at.before) || ends_before(nodes, at.after)
}

// A turn of the walk to a side.
fn turn_to<N: Nodes>(nodes: &N, at: Gap, side: Side) -> Turn
    requires { HoldsGap (N.holds nodes.now) at }
    ensures { (place : line_breaks.Place) → StandsAt (N.trees nodes.now) at place
        → Comes (N.holds nodes.now) (N.trees nodes.now) result
        (line_breaks.turn_to side (N.trees nodes.now) place) }
{
    if is_boundary(nodes, at) {
        return Turn::Answer(true);
    }
    match beside(at, side) {
        Some(child) if is_visible(nodes, child) => Turn::Answer(false),
        Some(child) => Turn::GoOn(end_of(nodes, child, other(side))),
        None => out_of(nodes, at.node, side),
    }
}

// So many turns that a walk from a node which takes more is cut short. In the document a walk
// passes the start or the end of a node at each turn, so it ends by itself; only outside it do the
// nodes and characters of the document have to be counted.
fn turns<N: Nodes>(nodes: &N, node: NodeRef) -> u128
    requires { N.holds nodes.now node }
    ensures { (side : sides.Side)
        → line_breaks.walk (line_breaks.turn_to side (N.trees nodes.now)) result
        (line_breaks.end_of side (N.trees nodes.now) node.label)
        ≡ line_breaks.meets_break side (N.trees nodes.now) node.label }
{
    nodes.valid();
    if nodes.is_within(nodes.document(), node) {
        2 * nodes.next_label() as u128 + 2
    } else {
        turn_bound(nodes)
    }
}

// Whether a block boundary comes before anything visible, from an end of a node on out.
fn meets_break<N: Nodes>(nodes: &N, node: NodeRef, side: Side) -> bool
    requires { N.holds nodes.now node }
    ensures { result ≡ line_breaks.meets_break side (N.trees nodes.now) node.label }
{
    let mut left = turns(nodes, node);
    let mut at = end_of(nodes, node, side);
    'walk: while left > 0 {
        match turn_to(nodes, at, side) {
            Turn::Answer(answer) => return answer,
            Turn::GoOn(next) => at = next,
        }
        left -= 1;
    }
    true
}

/// Whether a node follows a line break: from its start back, a block boundary comes before anything
/// visible.
#[tactic(auto, unfolding(crate::specs::LineBreaks::follows_break))]
pub fn follows_break<N: Nodes>(nodes: &N, node: NodeRef) -> bool
    requires { N.holds nodes.now node }
    ensures { result ≡ line_breaks.follows_break (N.trees nodes.now) node.label }
{
    meets_break(nodes, node, Side::Before)
}

/// Whether a node precedes a line break: from its end on, a block boundary comes before anything
/// visible.
#[tactic(auto, unfolding(crate::specs::LineBreaks::precedes_break))]
pub fn precedes_break<N: Nodes>(nodes: &N, node: NodeRef) -> bool
    requires { N.holds nodes.now node }
    ensures { result ≡ line_breaks.precedes_break (N.trees nodes.now) node.label }
{
    meets_break(nodes, node, Side::After)
}
