//! The block-extended range.

ghost use Rattle.std.specs.Prelude.{◌≡◌, ◌<◌, IfSome, codes};
ghost use Rattle.node_paths.specs.DomModel.Forest.{count_of};
ghost use Rattle.node_paths.specs.NodeArena.Reads.{Names};
ghost use Rattle.node_tests.specs.NodeStyles.Lineage.{nearest_label};
ghost use Rattle.node_tests.specs.NodeStyles.OwnStyles.{is_named};
ghost use Rattle.node_tests.specs.NodeStyles.TurnBound.{turn_bound};
ghost use Rattle.block_extend.specs.BlockExtend as extend;
ghost use Rattle.block_extend.specs.Gaps as gaps;
ghost use Rattle.block_extend.specs.Gaps.{Stands};

use crate::places::{
    Place, Way, is_end, is_start, place_after, place_at, place_before, point_of, step, stops,
};
use node_paths::arena::{Content, NodeRef, Nodes};
use node_tests::boundary::node_of;
use node_tests::dom_ranges::Point;
use node_tests::styles::{Test, is_element_named, nearest, turn_bound};

// An li.
#[derive(Clone, Copy)]
struct ItemTest;

impl Test for ItemTest {
    ghost use Rattle.std.specs.Prelude.{codes};
    ghost use Rattle.node_tests.specs.NodeStyles.OwnStyles.{is_named};

    ghost test = { λ s. is_named (codes "li") };

    fn passes(&self, content: &Content) -> bool {
        is_element_named(content, b"li")
    }
}

// Step after step, until a place where the steps stop. Only the characters of Words count in the
// bound, so a walk inside a comment may come to it.
fn walk<N: Nodes>(nodes: &N, way: Way, start: Place, known: Option<Place>) -> Place
    requires stands { Stands (N.holds nodes.now) (N.trees nodes.now) start }
    requires known { IfSome known (Stands (N.holds nodes.now) (N.trees nodes.now)) }
    ensures stands { Stands (N.holds nodes.now) (N.trees nodes.now) result }
    ensures place { gaps.point_of result
        ≡ extend.walk (gaps.step way (N.trees nodes.now)) (gaps.stops way (N.trees nodes.now))
        (turn_bound (N.trees nodes.now)) (gaps.point_of start) }
{
    let mut left = turn_bound(nodes);
    let mut at = start;
    'walk: while left > 0 {
        match step(nodes, way, at, known) {
            Some(next) => at = next,
            None => return at,
        }
        if stops(nodes, way, at) {
            return at;
        }
        left -= 1;
    }
    at
}

// Steps 1 and 4: the innermost li that the node is or is in.
fn item_of<N: Nodes>(nodes: &N, node: NodeRef) -> Option<NodeRef>
    requires { N.holds nodes.now node }
    ensures { Names (N.holds nodes.now) result
        (nearest_label (is_named (codes "li")) (N.trees nodes.now) node.label) }
{
    nearest(nodes, node, &ItemTest)
}

// Step 1: the place of a point, or that before the innermost li around it.
#[tactic(auto, unfolding(crate::specs::BlockExtend::out_of_item))]
fn before_item<N: Nodes>(nodes: &N, point: Point) -> Place
    requires { 0 < count_of (N.trees nodes.now) point.label }
    ensures stands { Stands (N.holds nodes.now) (N.trees nodes.now) result }
    ensures place { gaps.point_of result ≡ extend.out_of_item (N.trees nodes.now) 0 point }
{
    let node = node_of(nodes, point);
    if let Some(item) = item_of(nodes, node) {
        if let Some(place) = place_before(nodes, item) {
            return place;
        }
    }
    place_at(nodes, node, point.offset)
}

// Step 4: the place of a point, or that after the innermost li around it.
#[tactic(auto, unfolding(crate::specs::BlockExtend::out_of_item))]
fn after_item<N: Nodes>(nodes: &N, point: Point, known: Place) -> Place
    requires here { 0 < count_of (N.trees nodes.now) point.label }
    requires known { Stands (N.holds nodes.now) (N.trees nodes.now) known }
    ensures stands { Stands (N.holds nodes.now) (N.trees nodes.now) result }
    ensures place { gaps.point_of result ≡ extend.out_of_item (N.trees nodes.now) 1 point }
{
    let node = node_of(nodes, point);
    if let Some(item) = item_of(nodes, node) {
        if let Some(place) = place_after(nodes, item, Some(known)) {
            return place;
        }
    }
    place_at(nodes, node, point.offset)
}

// Step 2: back to a block boundary point, but from a block start point.
#[tactic(auto, unfolding(crate::specs::BlockExtend::to_block_start))]
fn to_block_start<N: Nodes>(nodes: &N, at: Place) -> Place
    requires { Stands (N.holds nodes.now) (N.trees nodes.now) at }
    ensures stands { Stands (N.holds nodes.now) (N.trees nodes.now) result }
    ensures place { gaps.point_of result
        ≡ extend.to_block_start (N.trees nodes.now) (gaps.point_of at) }
{
    if is_start(nodes, at) {
        at
    } else {
        walk(nodes, Way::Back, at, None)
    }
}

// Step 5: on to a block boundary point, but from a block end point.
#[tactic(auto, unfolding(crate::specs::BlockExtend::to_block_end))]
fn to_block_end<N: Nodes>(nodes: &N, at: Place, known: Place) -> Place
    requires stands { Stands (N.holds nodes.now) (N.trees nodes.now) at }
    requires known { Stands (N.holds nodes.now) (N.trees nodes.now) known }
    ensures stands { Stands (N.holds nodes.now) (N.trees nodes.now) result }
    ensures place { gaps.point_of result
        ≡ extend.to_block_end (N.trees nodes.now) (gaps.point_of at) }
{
    if is_end(nodes, at) {
        at
    } else {
        walk(nodes, Way::Forth, at, Some(known))
    }
}

// Steps 1 to 3.
#[tactic(auto, unfolding(crate::specs::BlockExtend::extended_start, crate::specs::BlockExtend::to_outer_start))]
fn extended_start<N: Nodes>(nodes: &N, point: Point) -> Place
    requires { 0 < count_of (N.trees nodes.now) point.label }
    ensures stands { Stands (N.holds nodes.now) (N.trees nodes.now) result }
    ensures place { gaps.point_of result ≡ extend.extended_start (N.trees nodes.now) point }
{
    let start = to_block_start(nodes, before_item(nodes, point));
    walk(nodes, Way::OutBefore, start, None)
}

// Steps 4 to 6. The end of a block is one place after its start, which is known.
#[tactic(auto, unfolding(crate::specs::BlockExtend::extended_end, crate::specs::BlockExtend::to_outer_end))]
fn extended_end<N: Nodes>(nodes: &N, point: Point, known: Place) -> Place
    requires here { 0 < count_of (N.trees nodes.now) point.label }
    requires known { Stands (N.holds nodes.now) (N.trees nodes.now) known }
    ensures stands { Stands (N.holds nodes.now) (N.trees nodes.now) result }
    ensures place { gaps.point_of result ≡ extend.extended_end (N.trees nodes.now) point }
{
    let end = to_block_end(nodes, after_item(nodes, point, known), known);
    walk(nodes, Way::OutAfter, end, Some(known))
}

/// The block-extended range: its start and its end, taken out to where lines of blocks start and
/// end. A walk goes over the children and ancestors on its way by links; only the place where it
/// begins, and that of the block, are found by counting children.
#[tactic(auto, unfolding(crate::specs::BlockExtend::block_extend))]
pub fn block_extend<N: Nodes>(nodes: &N, range: (Point, Point)) -> (Point, Point)
    requires start { 0 < count_of (N.trees nodes.now) range.0.label }
    requires end { 0 < count_of (N.trees nodes.now) range.1.label }
    ensures range { result ≡ extend.block_extend (N.trees nodes.now) range.0 range.1 }
    ensures start_here { 0 < count_of (N.trees nodes.now) result.0.label }
    ensures end_here { 0 < count_of (N.trees nodes.now) result.1.label }
{
    nodes.valid();
    let start = extended_start(nodes, range.0);
    let end = extended_end(nodes, range.1, start);
    (point_of(start), point_of(end))
}
