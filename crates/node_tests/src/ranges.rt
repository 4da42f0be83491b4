//! Which nodes a range contains, and which it contains in effect.

ghost use Rattle.std.specs.Prelude.{◌≡◌, ◌<◌, Bool};
ghost use Rattle.node_styles.specs.DomModel.Forest.{count_of, tree_of};
ghost use Rattle.point_order.specs.PointOrder.{is_before};
ghost use Rattle.node_tests.specs.Ranges as ranges;

use crate::neighbours::is_words;
use node_styles::arena::{NodeRef, Nodes};
use point_order::dom_ranges::Point;
use point_order::{comes_before, is_within, node_of};

/// Whether a range contains a node: the node begins after the start and ends before the end.
#[tactic(auto, unfolding(crate::specs::Ranges::is_contained))]
pub fn is_contained<N: Nodes>(nodes: &N, node: NodeRef, range: (Point, Point)) -> bool
    requires node_held { N.holds nodes.now node }
    requires start_held { 0 < count_of (N.trees nodes.now) range.0.label }
    requires end_held { 0 < count_of (N.trees nodes.now) range.1.label }
    ensures { result ≡ ranges.is_contained (N.trees nodes.now) range.0 range.1 node.label }
{
    nodes.valid();
    let front = Point {
        label: node.label,
        offset: 0,
    };
    let back = Point {
        label: node.label,
        offset: nodes.length(node),
    };
    comes_before(nodes, range.0, front) && comes_before(nodes, back, range.1)
}

// Whether a node is Words at an end of the range, of which a part lies in the range.
#[tactic(auto, unfolding(crate::specs::Ranges::is_partial))]
pub(crate) fn is_partial<N: Nodes>(nodes: &N, node: NodeRef, range: (Point, Point)) -> bool
    requires { N.holds nodes.now node }
    ensures { result ≡ ranges.is_partial (N.trees nodes.now) range.0 range.1 node.label }
{
    let (start, end) = range;
    is_words(nodes, node)
        && ((node.label == start.label && start.offset != nodes.length(node))
            || (node.label == end.label && end.offset != 0))
}

// Whether the start of a range cuts Words below a node.
#[tactic(auto, unfolding(crate::specs::Ranges::start_cuts))]
pub(crate) fn start_cuts<N: Nodes>(nodes: &N, start: Point, node: NodeRef) -> bool
    requires node_held { N.holds nodes.now node }
    requires start_held { 0 < count_of (N.trees nodes.now) start.label }
    ensures { result ≡ ranges.start_cuts (N.trees nodes.now) start node.label }
{
    let inner = node_of(nodes, start);
    is_words(nodes, inner) && is_within(nodes, node, inner) && start.offset != 0
}

// The same of its end.
#[tactic(auto, unfolding(crate::specs::Ranges::end_cuts))]
pub(crate) fn end_cuts<N: Nodes>(nodes: &N, end: Point, node: NodeRef) -> bool
    requires node_held { N.holds nodes.now node }
    requires end_held { 0 < count_of (N.trees nodes.now) end.label }
    ensures { result ≡ ranges.end_cuts (N.trees nodes.now) end node.label }
{
    let inner = node_of(nodes, end);
    is_words(nodes, inner) && is_within(nodes, node, inner) && end.offset != nodes.length(inner)
}

#[tactic(auto, unfolding(crate::specs::Ranges::is_cut))]
fn is_cut<N: Nodes>(nodes: &N, node: NodeRef, range: (Point, Point)) -> bool
    requires node_held { N.holds nodes.now node }
    requires start_held { 0 < count_of (N.trees nodes.now) range.0.label }
    requires end_held { 0 < count_of (N.trees nodes.now) range.1.label }
    ensures { result ≡ ranges.is_cut (N.trees nodes.now) range.0 range.1 node.label }
{
    start_cuts(nodes, range.0, node) || end_cuts(nodes, range.1, node)
}

#[tactic(auto, unfolding(crate::specs::Ranges::is_touched))]
fn is_touched<N: Nodes>(nodes: &N, node: NodeRef, range: (Point, Point)) -> bool
    requires node_held { N.holds nodes.now node }
    requires start_held { 0 < count_of (N.trees nodes.now) range.0.label }
    requires end_held { 0 < count_of (N.trees nodes.now) range.1.label }
    ensures { result ≡ ranges.is_touched (N.trees nodes.now) range.0 range.1 node.label }
{
    is_contained(nodes, node, range) || is_partial(nodes, node, range)
}

// Whether a range that isn't collapsed effectively contains a node. Where it does so with the first
// child and the last, all children between them lie in the range, so these two tell.
fn is_effective<N: Nodes>(nodes: &N, node: NodeRef, range: (Point, Point)) -> bool
    requires node_held { N.holds nodes.now node }
    requires start_held { 0 < count_of (N.trees nodes.now) range.0.label }
    requires end_held { 0 < count_of (N.trees nodes.now) range.1.label }
    requires ordered { is_before (N.trees nodes.now) range.0 range.1 ≡ Bool.true }
    ensures { result ≡ ranges.all_effective (N.trees nodes.now) range.0 range.1
        (tree_of (N.trees nodes.now) node.label) }
{
    nodes.valid();
    if is_touched(nodes, node, range) {
        return true;
    }
    if is_cut(nodes, node, range) {
        return false;
    }
    let Some(first) = nodes.first_child(node) else {
        return false;
    };
    if !is_effective(nodes, first, range) {
        return false;
    }
    match nodes.last_child(node) {
        Some(last) if last.label != first.label => is_effective(nodes, last, range),
        _ => true,
    }
}

/// Whether a range effectively contains a node: it contains it, or the node is Words of which a
/// part lies in the range, or the node has children that are all effectively contained while no end
/// of the range cuts Words below it. A collapsed range does so with no node.
#[tactic(auto, unfolding(crate::specs::Ranges::is_effectively_contained))]
pub fn is_effectively_contained<N: Nodes>(nodes: &N, node: NodeRef, range: (Point, Point)) -> bool
    requires node_held { N.holds nodes.now node }
    requires start_held { 0 < count_of (N.trees nodes.now) range.0.label }
    requires end_held { 0 < count_of (N.trees nodes.now) range.1.label }
    ensures { result
        ≡ ranges.is_effectively_contained (N.trees nodes.now) range.0 range.1 node.label }
{
    comes_before(nodes, range.0, range.1) && is_effective(nodes, node, range)
}
