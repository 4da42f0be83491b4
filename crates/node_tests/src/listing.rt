//! The nodes that a range contains, and those that it contains in effect, in tree order.

ghost use Rattle.std.specs.Prelude.{◌≡◌, ◌≢◌, ◌<◌, ◌≤◌, ◌-◌, ℕ, length, not, ◌&&◌, ◌||◌, ◌++◌, Bool, Some, None, OnOk, IfOk, map};
ghost use Rattle.std.specs.List.{All, filter, insert, slice_get};
ghost use Rattle.node_styles.specs.DomModel.Forest.{count_of, first_of, parent_of, preorder, tree_of, IsWithin};
ghost use Rattle.node_styles.specs.NodeArena.Held.{label};
ghost use Rattle.point_order.specs.PointOrder.{is_before};
ghost use Rattle.node_tests.specs.BlockPoints.{child_at};
ghost use Rattle.node_tests.specs.Listing.{is_at, is_listed, is_wanted, siblings, Leads, Lies, LiesAfter, LiesBefore, Lined, Reaches, Ends};
ghost use Rattle.node_tests.specs.Ranges as ranges;

use crate::block_points::child_at;
use crate::neighbours::is_nothing;
use crate::ranges::{end_cuts, is_partial, start_cuts};
use node_styles::arena::{NodeList, NodeRef, Nodes};
use point_order::dom_ranges::Point;
use point_order::{comes_before, node_of, root_of};
use std::alloc::{AllocError, Global};

/// Which nodes of a range are listed.
#[derive(Clone, Copy)]
enum Wanted {
    Contained,
    Effective,
}

/// Where a point stands among the children of a node: those before the child lie before the point,
/// and those after it lie after the point. The child has the point in its own tree, or lies after
/// it too. With no child, all lie before the point.
#[derive(Clone, Copy)]
struct Reach {
    child: Option<NodeRef>,
    holds: bool,
}

/// What is found once of the ends of a range: the nodes on the way up from each to a child of the
/// root, and whether it cuts Words.
#[derive(Drop)]
struct Lines {
    start: Vec<NodeRef>,
    end: Vec<NodeRef>,
    start_cuts: bool,
    end_cuts: bool,
}

/// Whether a tree lies after the start of a range, and before its end. Where it doesn't, that point
/// stands in the tree, and so many nodes of the line to it stand below the root of the tree.
#[derive(Clone, Copy)]
struct Sides {
    after: bool,
    before: bool,
    start_left: usize,
    end_left: usize,
}

fn lies_between(sides: Sides) -> bool
    ensures { result ≡ (sides.after && sides.before) }
{
    sides.after && sides.before
}

// Whether a child is this node.
fn is_at(child: Option<NodeRef>, node: NodeRef) -> bool
    ensures { result ≡ is_at (label child) node.label }
{
    match child {
        Some(at) => at.label == node.label,
        None => false,
    }
}

// Whether two children are the same one, or there is neither.
fn is_same(child: Option<NodeRef>, other: Option<NodeRef>) -> bool
    ensures same { result ≡ Bool.true → label child ≡ label other }
    ensures other { result ≡ Bool.false → label child ≢ label other }
{
    match (child, other) {
        (Some(one), Some(two)) => one.label == two.label,
        (None, None) => true,
        _ => false,
    }
}

// The last of so many nodes of a line.
fn last_of(line: &[NodeRef], left: usize) -> Option<NodeRef>
    requires { 0 < left }
    ensures { result ≡ slice_get line.now (left - 1) }
{
    line.get(left - 1).copied()
}

// Where a point in the tree of a node stands among the node's children.
fn reach_of<N: Nodes>(
    nodes: &N,
    node: NodeRef,
    point: Point,
    line: &[NodeRef],
    left: usize,
) -> Reach
    requires node_held { N.holds nodes.now node }
    requires inside { IsWithin (N.trees nodes.now) node.label point.label }
    requires leads { Leads (N.holds nodes.now) (N.trees nodes.now) line.now point.label left
        node.label }
    ensures reaches { Reaches (N.holds nodes.now) (N.trees nodes.now) point node.label result }
    ensures own { point.label ≡ node.label → label result.child
        ≡ child_at (N.trees nodes.now) node.label point.offset }
    ensures leads { (m : ℕ) → result.holds ≡ Bool.true → label result.child ≡ Some m
        → Leads (N.holds nodes.now) (N.trees nodes.now) line.now point.label (left - 1) m }
{
    nodes.valid();
    if left == 0 {
        return Reach {
            child: child_at(nodes, node, point.offset),
            holds: false,
        };
    }
    Reach {
        child: last_of(line, left),
        holds: true,
    }
}

// Where the start of a range stands among the children of a node.
fn start_reach<N: Nodes>(
    nodes: &N,
    node: NodeRef,
    start: Point,
    sides: Sides,
    line: &[NodeRef],
) -> Reach
    requires node_held { N.holds nodes.now node }
    requires after { sides.after ≡ Bool.true → LiesAfter (N.trees nodes.now) start node.label }
    requires inside { sides.after ≡ Bool.false
        → IsWithin (N.trees nodes.now) node.label start.label }
    requires leads { sides.after ≡ Bool.false
        → Leads (N.holds nodes.now) (N.trees nodes.now) line.now
        start.label sides.start_left node.label }
    ensures reaches { Reaches (N.holds nodes.now) (N.trees nodes.now) start node.label result }
    ensures first { sides.after ≡ Bool.true → label result.child
        ≡ first_of (N.trees nodes.now) node.label }
    ensures leads { (m : ℕ) → result.holds ≡ Bool.true → label result.child ≡ Some m
        → Leads (N.holds nodes.now) (N.trees nodes.now) line.now start.label (sides.start_left - 1)
        m }
{
    nodes.valid();
    if sides.after {
        return Reach {
            child: nodes.first_child(node),
            holds: false,
        };
    }
    reach_of(nodes, node, start, line, sides.start_left)
}

// Where the end of a range stands among them.
fn end_reach<N: Nodes>(
    nodes: &N,
    node: NodeRef,
    end: Point,
    sides: Sides,
    line: &[NodeRef],
) -> Reach
    requires node_held { N.holds nodes.now node }
    requires before { sides.before ≡ Bool.true → LiesBefore (N.trees nodes.now) end node.label }
    requires inside { sides.before ≡ Bool.false
        → IsWithin (N.trees nodes.now) node.label end.label }
    requires leads { sides.before ≡ Bool.false
        → Leads (N.holds nodes.now) (N.trees nodes.now) line.now
        end.label sides.end_left node.label }
    ensures reaches { Reaches (N.holds nodes.now) (N.trees nodes.now) end node.label result }
    ensures own { sides.before ≡ Bool.false → end.label ≡ node.label → label result.child
        ≡ child_at (N.trees nodes.now) node.label end.offset }
    ensures leads { (m : ℕ) → result.holds ≡ Bool.true → label result.child ≡ Some m
        → Leads (N.holds nodes.now) (N.trees nodes.now) line.now end.label (sides.end_left - 1) m }
{
    nodes.valid();
    if sides.before {
        return Reach {
            child: None,
            holds: false,
        };
    }
    reach_of(nodes, node, end, line, sides.end_left)
}

// The first child that lies after the point.
fn first_after<N: Nodes>(nodes: &N, point: Point, top: NodeRef, reach: Reach) -> Option<NodeRef>
    requires { Reaches (N.holds nodes.now) (N.trees nodes.now) point top.label reach }
    ensures { Ends (N.holds nodes.now) (N.trees nodes.now) point top.label reach result }
{
    nodes.valid();
    match reach.child {
        Some(child) if reach.holds => nodes.next(child),
        child => child,
    }
}

// What is known of the tree of a child.
fn inner_sides(sides: Sides, start: Reach, end: Reach, node: NodeRef) -> Sides
    ensures after { result.after ≡ not (start.holds && is_at (label start.child) node.label) }
    ensures before { result.before ≡ not (end.holds && is_at (label end.child) node.label) }
    ensures start_left { result.start_left ≡ sides.start_left - 1 }
    ensures end_left { result.end_left ≡ sides.end_left - 1 }
{
    Sides {
        after: !(start.holds && is_at(start.child, node)),
        before: !(end.holds && is_at(end.child, node)),
        start_left: sides.start_left.saturating_sub(1),
        end_left: sides.end_left.saturating_sub(1),
    }
}

// Whether an end of the range cuts Words in a tree.
fn is_cut_within(lines: &Lines, sides: Sides) -> bool
    ensures { result
        ≡ ((not sides.after && lines.now.start_cuts) || (not sides.before && lines.now.end_cuts)) }
{
    (!sides.after && lines.start_cuts) || (!sides.before && lines.end_cuts)
}

// Whether a range contains a node in whose tree an end of it stands: only where the end is past the
// end of the node.
fn is_contained_above<N: Nodes>(
    nodes: &N,
    node: NodeRef,
    range: (Point, Point),
    sides: Sides,
    next: Option<NodeRef>,
) -> bool
    requires node_held { N.holds nodes.now node }
    requires sides { Lies (N.trees nodes.now) range.0 range.1 sides node.label }
    requires above { sides.after ≡ Bool.true → sides.before ≡ Bool.false }
    requires next { sides.before ≡ Bool.false → range.1.label ≡ node.label → label next
        ≡ child_at (N.trees nodes.now) node.label range.1.offset }
    ensures { result ≡ ranges.is_contained (N.trees nodes.now) range.0 range.1 node.label }
{
    nodes.valid();
    if !sides.after {
        return false;
    }
    if range.1.label != node.label {
        return false;
    }
    if !is_nothing(next) {
        return false;
    }
    nodes.length(node) < range.1.offset
}

// Whether a range effectively contains such a node, by whether it contains it and effectively
// contains all children.
#[tactic(auto, unfolding(crate::specs::Ranges::is_touched))]
fn is_effective_above<N: Nodes>(
    nodes: &N,
    node: NodeRef,
    range: (Point, Point),
    contained: bool,
    cut: bool,
    first: Option<NodeRef>,
    whole: bool,
) -> bool
    requires node_held { N.holds nodes.now node }
    requires contained { contained
        ≡ ranges.is_contained (N.trees nodes.now) range.0 range.1 node.label }
    requires cut { cut ≡ ranges.is_cut (N.trees nodes.now) range.0 range.1 node.label }
    requires first { label first ≡ first_of (N.trees nodes.now) node.label }
    requires whole { whole ≡ ranges.all_effective (N.trees nodes.now) range.0 range.1
        (siblings (N.trees nodes.now) (label first)) }
    ensures { result ≡ ranges.all_effective (N.trees nodes.now) range.0 range.1
        (tree_of (N.trees nodes.now) node.label) }
{
    nodes.valid();
    if contained {
        return true;
    }
    if is_partial(nodes, node, range) {
        return true;
    }
    if cut {
        return false;
    }
    if is_nothing(first) {
        return false;
    }
    whole
}

// Whether such a node is listed.
fn is_listed(wanted: Wanted, contained: bool, effective: bool) -> bool
    ensures { result ≡ is_listed wanted contained effective }
{
    match wanted {
        Wanted::Contained => contained,
        Wanted::Effective => effective,
    }
}

fn count(found: &Vec<NodeRef>) -> usize
    ensures { result ≡ length found.now.items }
{
    found.len()
}

// Puts a node before those from a place on.
fn put_at(found: &mut Vec<NodeRef>, place: usize, node: NodeRef) -> Result<(), AllocError>
    requires { place ≤ length found.old.items }
    ensures { OnOk result (found.new.items ≡ insert found.old.items place node) }
{
    found.insert(place, node)?;
    Ok(())
}

// Puts all nodes of the tree of a node behind those found before.
fn push_all<N: Nodes>(nodes: &N, node: NodeRef, found: &mut Vec<NodeRef>) -> Result<(), AllocError>
    requires node_held { N.holds nodes.now node }
    requires found_held { All (N.holds nodes.now) found.old.items }
    ensures nodes { OnOk result (map (λ r. r.label) found.new.items
        ≡ map (λ r. r.label) found.old.items
        ++ preorder (tree_of (N.trees nodes.now) node.label)) }
    ensures held { OnOk result (All (N.holds nodes.now) found.new.items) }
{
    nodes.valid();
    found.push(node)?;
    let mut child = nodes.first_child(node);
    while let Some(at) = child {
        push_all(nodes, at, found)?;
        child = nodes.next(at);
    }
    Ok(())
}

// Puts the wanted nodes of the tree of a node behind those found before, and answers whether the
// range effectively contains the node. It looks at no child that lies before the range or after it,
// and tests no node that lies between its ends.
fn push_tree<N: Nodes>(
    nodes: &N,
    node: NodeRef,
    range: (Point, Point),
    sides: Sides,
    lines: &Lines,
    wanted: Wanted,
    found: &mut Vec<NodeRef>,
) -> Result<bool, AllocError>
    requires node_held { N.holds nodes.now node }
    requires start_held { 0 < count_of (N.trees nodes.now) range.0.label }
    requires end_held { 0 < count_of (N.trees nodes.now) range.1.label }
    requires sides { Lies (N.trees nodes.now) range.0 range.1 sides node.label }
    requires lined { Lined (N.holds nodes.now) (N.trees nodes.now) range.0 range.1 lines.now sides
        node.label }
    requires start_cuts { lines.now.start_cuts
        ≡ ranges.start_cuts (N.trees nodes.now) range.0 range.0.label }
    requires end_cuts { lines.now.end_cuts
        ≡ ranges.end_cuts (N.trees nodes.now) range.1 range.1.label }
    requires ordered { is_before (N.trees nodes.now) range.0 range.1 ≡ Bool.true }
    requires found_held { All (N.holds nodes.now) found.old.items }
    ensures nodes { OnOk result (map (λ r. r.label) found.new.items
        ≡ map (λ r. r.label) found.old.items
        ++ filter (is_wanted wanted (N.trees nodes.now) range.0 range.1)
        (preorder (tree_of (N.trees nodes.now) node.label))) }
    ensures held { OnOk result (All (N.holds nodes.now) found.new.items) }
    ensures effective { IfOk result (λ e. e
        ≡ ranges.all_effective (N.trees nodes.now) range.0 range.1
        (tree_of (N.trees nodes.now) node.label)) }
{
    nodes.valid();
    if lies_between(sides) {
        push_all(nodes, node, found)?;
        return Ok(true);
    }
    let place = count(found);
    let start = start_reach(nodes, node, range.0, sides, &lines.start);
    let end = end_reach(nodes, node, range.1, sides, &lines.end);
    let stop = first_after(nodes, range.1, node, end);
    let first = nodes.first_child(node);
    let mut whole = is_same(first, start.child);
    let mut child = start.child;
    while let Some(at) = child {
        if is_at(stop, at) {
            whole = false;
            child = None;
        } else {
            let inner = inner_sides(sides, start, end, at);
            let is_effective = push_tree(nodes, at, range, inner, lines, wanted, found)?;
            whole &= is_effective;
            child = nodes.next(at);
        }
    }
    let contained = is_contained_above(nodes, node, range, sides, end.child);
    let cut = is_cut_within(lines, sides);
    let effective = is_effective_above(nodes, node, range, contained, cut, first, whole);
    if is_listed(wanted, contained, effective) {
        put_at(found, place, node)?;
    }
    Ok(effective)
}

// Both ends stand in the tree of the root.
fn root_sides(lines: &Lines) -> Sides
    ensures after { result.after ≡ Bool.false }
    ensures before { result.before ≡ Bool.false }
    ensures start_left { result.start_left ≡ length lines.now.start.items }
    ensures end_left { result.end_left ≡ length lines.now.end.items }
{
    Sides {
        after: false,
        before: false,
        start_left: lines.start.len(),
        end_left: lines.end.len(),
    }
}

// The nodes on the way up from a node to a child of one above it.
fn line_to<N: Nodes>(
    alloc: Global,
    nodes: &N,
    top: NodeRef,
    node: NodeRef,
) -> Result<Vec<NodeRef>, AllocError>
    requires top_held { N.holds nodes.now top }
    requires node_held { N.holds nodes.now node }
    requires inside { IsWithin (N.trees nodes.now) top.label node.label }
    ensures { IfOk result (λ line.
        Leads (N.holds nodes.now) (N.trees nodes.now) line.items node.label
        (length line.items) top.label) }
{
    nodes.valid();
    let mut line = Vec::new(alloc);
    let mut at = node;
    while at.label != top.label {
        line.push(at)?;
        match nodes.parent(at) {
            Some(parent) => at = parent,
            None => unreachable!(),
        }
    }
    Ok(line)
}

// The wanted nodes of a range.
fn wanted_nodes<N: Nodes>(
    alloc: Global,
    nodes: &N,
    range: (Point, Point),
    wanted: Wanted,
) -> Result<NodeList, AllocError>
    requires start_held { 0 < count_of (N.trees nodes.now) range.0.label }
    requires end_held { 0 < count_of (N.trees nodes.now) range.1.label }
    ensures nodes { IfOk result (λ list. map (λ r. r.label) list
        ≡ filter (is_wanted wanted (N.trees nodes.now) range.0 range.1)
        (preorder (N.trees nodes.now))) }
    ensures held { IfOk result (λ list. All (N.holds nodes.now) list) }
{
    nodes.valid();
    let mut found = Vec::new(alloc);
    if !comes_before(nodes, range.0, range.1) {
        return Ok(NodeList::from_vec(found));
    }
    let start = node_of(nodes, range.0);
    let end = node_of(nodes, range.1);
    let root = root_of(nodes, start);
    let lines = Lines {
        start: line_to(alloc, nodes, root, start)?,
        end: line_to(alloc, nodes, root, end)?,
        start_cuts: start_cuts(nodes, range.0, start),
        end_cuts: end_cuts(nodes, range.1, end),
    };
    let sides = root_sides(&lines);
    push_tree(nodes, root, range, sides, &lines, wanted, &mut found)?;
    Ok(NodeList::from_vec(found))
}

/// The nodes that a range contains, in tree order. It looks at the nodes from the start to the end
/// of the range and those above them, and at the children before an end only where that end is a
/// place among them.
#[tactic(auto, unfolding(crate::specs::Listing::is_wanted, crate::specs::Ranges::contained_nodes))]
pub fn contained_nodes<N: Nodes>(
    alloc: Global,
    nodes: &N,
    range: (Point, Point),
) -> Result<NodeList, AllocError>
    requires start_held { 0 < count_of (N.trees nodes.now) range.0.label }
    requires end_held { 0 < count_of (N.trees nodes.now) range.1.label }
    ensures nodes { IfOk result (λ list. map (λ r. r.label) list
        ≡ ranges.contained_nodes (N.trees nodes.now) range.0 range.1) }
    ensures held { IfOk result (λ list. All (N.holds nodes.now) list) }
{
    wanted_nodes(alloc, nodes, range, Wanted::Contained)
}

/// The nodes that a range effectively contains, in tree order. It looks at the nodes from the start
/// to the end of the range and those above them, and at the children before an end only where that
/// end is a place among them.
#[tactic(auto, unfolding(crate::specs::Listing::is_wanted, crate::specs::Ranges::effective_nodes))]
pub fn effective_nodes<N: Nodes>(
    alloc: Global,
    nodes: &N,
    range: (Point, Point),
) -> Result<NodeList, AllocError>
    requires start_held { 0 < count_of (N.trees nodes.now) range.0.label }
    requires end_held { 0 < count_of (N.trees nodes.now) range.1.label }
    ensures nodes { IfOk result (λ list. map (λ r. r.label) list
        ≡ ranges.effective_nodes (N.trees nodes.now) range.0 range.1) }
    ensures held { IfOk result (λ list. All (N.holds nodes.now) list) }
{
    wanted_nodes(alloc, nodes, range, Wanted::Effective)
}
