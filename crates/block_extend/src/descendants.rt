//! A search below a node.

ghost use Rattle.std.specs.Prelude.{◌≡◌, IfSome, true, false};
ghost use Rattle.std.specs.Option.{option_map_or};
ghost use Rattle.node_paths.specs.DomModel.Forest.{first_of};
ghost use Rattle.node_paths.specs.NodeArena.Held.{label};
ghost use Rattle.node_paths.specs.Onward.{onward_at, IsInner};
ghost use Rattle.block_extend.specs.Descendants.{has_in, has_descendant};

use crate::gathering::Choice;
use node_paths::arena::{NodeRef, Nodes};

// Whether a node that passes stands in the tree of a node or of a later sibling.
fn has_onward<N: Nodes, C: Choice<N>>(nodes: &N, first: Option<NodeRef>, choice: &C) -> bool
    requires held { IfSome first (N.holds nodes.now) }
    requires inner { IsInner (N.trees nodes.now) (label first) }
    ensures { result
        ≡ has_in (C.chosen choice.now nodes.now) (onward_at (N.trees nodes.now) (label first)) }
{
    nodes.valid();
    let mut at = first;
    while let Some(node) = at {
        if choice.chooses(nodes, node) {
            return true;
        }
        if has_onward(nodes, nodes.first_child(node), choice) {
            return true;
        }
        at = nodes.next(node);
    }
    false
}

/// Whether a descendant of a node passes a test. It walks what stands below the node, as far as the
/// first.
#[tactic(auto, unfolding(crate::specs::Descendants::has_descendant))]
pub fn has_descendant<N: Nodes, C: Choice<N>>(nodes: &N, node: NodeRef, choice: &C) -> bool
    requires { N.holds nodes.now node }
    ensures { result
        ≡ has_descendant (C.chosen choice.now nodes.now) (N.trees nodes.now) node.label }
{
    nodes.valid();
    has_onward(nodes, nodes.first_child(node), choice)
}

/// Whether the first child of a node passes a test, so that a descendant passes. `known` is that of
/// [`Choice::chooses_next`].
#[tactic(auto, unfolding(crate::specs::Descendants::has_descendant))]
pub fn begins_with<N: Nodes, C: Choice<N>>(
    nodes: &N,
    node: NodeRef,
    choice: &C,
    known: &mut Option<NodeRef>,
) -> bool
    requires held { N.holds nodes.now node }
    requires known { IfSome known.old (C.knows choice.now nodes.now) }
    ensures first { result ≡ option_map_or (C.chosen choice.now nodes.now)
        (first_of (N.trees nodes.now) node.label) false }
    ensures below { result ≡ true
        → has_descendant (C.chosen choice.now nodes.now) (N.trees nodes.now) node.label ≡ true }
    ensures known { IfSome known.new (C.knows choice.now nodes.now) }
{
    nodes.valid();
    match nodes.first_child(node) {
        Some(child) => choice.chooses_next(nodes, child, known),
        None => false,
    }
}
