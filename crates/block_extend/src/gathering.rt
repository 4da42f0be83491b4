//! The outermost nodes of a list.

ghost use Rattle.std.specs.Prelude.{◌≡◌, ◌<◌, IfOk, IfSome, filter, map};
ghost use Rattle.std.specs.List.{All};
ghost use Rattle.std.specs.Option.{option_map};
ghost use Rattle.node_paths.specs.DomModel.Forest.{count_of, is_label, IsWithin};
ghost use Rattle.node_paths.specs.NodeArena.Held.{label};
ghost use Rattle.node_tests.specs.PointOrder.PointOrder.{is_ancestor};
ghost use Rattle.block_extend.specs.Gaps.{is_below, top_of, IsTaken};
ghost use Rattle.block_extend.specs.Gather.{gather, gathered};
ghost use Rattle.block_extend.specs.Order.{IsInOrder};

use node_paths::arena::{NodeList, NodeRef, Nodes};
use node_tests::boundary::is_ancestor;
use node_tests::contained_nodes;
use node_tests::dom_ranges::Point;
use std::alloc::{AllocError, Global};

/// A test of the nodes that are to be gathered.
pub trait Choice<N: Nodes> {
    ghost use Rattle.std.specs.Prelude.{ℕ, Bool};
    ghost use Rattle.node_paths.specs.NodeArena.declared.NodeRef.{NodeRef};

    // which nodes pass, by their labels
    ghost chosen: { Self → N → ℕ → Bool };

    // what is known of the node that is kept from one test to the next
    ghost knows: { Self → N → NodeRef → Type 0 } = { λ _ _ _. Unit {0} };

    /// Whether a node passes.
    fn chooses(&self, nodes: &N, node: NodeRef) -> bool
        requires { N.holds nodes.now node }
        ensures { result ≡ chosen self.now nodes.now node.label };

    /// Whether a node passes, where nodes are tested in tree order. What was found of the node in
    /// `known` may spare a walk, and another node may be put there.
    fn chooses_next(&self, nodes: &N, node: NodeRef, known: &mut Option<NodeRef>) -> bool
        requires held { N.holds nodes.now node }
        requires known { IfSome known.old (knows self.now nodes.now) }
        ensures chosen { result ≡ chosen self.now nodes.now node.label }
        ensures known { IfSome known.new (knows self.now nodes.now) }
    {
        self.chooses(nodes, node)
    }
}

// Whether a node is the one that may be there.
fn is_at(at: Option<NodeRef>, node: NodeRef) -> bool
    ensures { result ≡ is_label (label at) node.label }
{
    match at {
        Some(other) => other.label == node.label,
        None => false,
    }
}

// Whether a node stands below `top`. Where its parent is a node of that tree that is known, or is
// the parent of `top` too, no other ancestor is looked at.
fn is_below_top<N: Nodes>(nodes: &N, top: NodeRef, inside: NodeRef, node: NodeRef) -> bool
    requires top_held { N.holds nodes.now top }
    requires inside { IsWithin (N.trees nodes.now) top.label inside.label }
    requires node_held { N.holds nodes.now node }
    ensures { result ≡ is_ancestor (N.trees nodes.now) top.label node.label }
{
    nodes.valid();
    if let Some(parent) = nodes.parent(node) {
        if parent.label == inside.label {
            return true;
        }
        if is_at(nodes.parent(top), parent) {
            return false;
        }
    }
    is_ancestor(nodes, top, node)
}

// The node that was taken last, and the last member of the list so far that is it or stands below
// it.
#[derive(Clone, Copy)]
struct Taken {
    top: NodeRef,
    inside: NodeRef,
}

// Whether a node stands below the one that was taken last.
fn is_below<N: Nodes>(nodes: &N, last: Option<Taken>, node: NodeRef) -> bool
    requires last { IsTaken (N.holds nodes.now) (N.trees nodes.now) last }
    requires node_held { N.holds nodes.now node }
    ensures { result ≡ is_below (N.trees nodes.now) (top_of last) node.label }
{
    match last {
        Some(taken) => is_below_top(nodes, taken.top, taken.inside, node),
        None => false,
    }
}

// What was taken last, where a node below it was come to.
fn with_inside(last: Option<Taken>, node: NodeRef) -> Option<Taken>
    ensures { result ≡ option_map (λ t. record { top = t.top; inside = node }) last }
{
    match last {
        Some(taken) => Some(Taken {
            top: taken.top,
            inside: node,
        }),
        None => None,
    }
}

// The members of a list that pass a test, without those that have an ancestor among them. They are
// in tree order, so only the member that was taken last can be an ancestor of the next one.
fn gather<N: Nodes, C: Choice<N>>(
    alloc: Global,
    nodes: &N,
    list: &[NodeRef],
    choice: &C,
) -> Result<NodeList, AllocError>
    requires held { All (N.holds nodes.now) list.now }
    requires order { IsInOrder (N.trees nodes.now) (filter (C.chosen choice.now nodes.now)
        (map (λ r. r.label) list.now)) }
    ensures nodes { IfOk result (λ kept. map (λ r. r.label) kept
        ≡ gather (N.trees nodes.now)
        (filter (C.chosen choice.now nodes.now) (map (λ r. r.label) list.now))) }
    ensures held { IfOk result (λ kept. All (N.holds nodes.now) kept) }
{
    nodes.valid();
    let mut kept = Vec::new(alloc);
    let mut last = None;
    let mut known = None;
    for node in list {
        if is_below(nodes, last, *node) {
            last = with_inside(last, *node);
        } else if choice.chooses_next(nodes, *node, &mut known) {
            kept.push(*node)?;
            last = Some(Taken {
                top: *node,
                inside: *node,
            });
        }
    }
    Ok(NodeList::from_vec(kept))
}

/// The nodes that a range contains and that pass a test, in tree order, without those that have an
/// ancestor among them. Nodes below one of them aren't tested.
#[tactic(auto, unfolding(crate::specs::Gather::gathered))]
pub fn gather_in<N: Nodes, C: Choice<N>>(
    alloc: Global,
    nodes: &N,
    range: (Point, Point),
    choice: &C,
) -> Result<NodeList, AllocError>
    requires start { 0 < count_of (N.trees nodes.now) range.0.label }
    requires end { 0 < count_of (N.trees nodes.now) range.1.label }
    ensures nodes { IfOk result (λ list. map (λ r. r.label) list
        ≡ gathered (C.chosen choice.now nodes.now) (N.trees nodes.now) range.0 range.1) }
    ensures held { IfOk result (λ list. All (N.holds nodes.now) list) }
{
    let contained = contained_nodes(alloc, nodes, range)?;
    gather(alloc, nodes, contained.as_slice(), choice)
}
