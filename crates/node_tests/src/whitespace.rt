//! Collapsed whitespace.

ghost use Rattle.std.specs.Prelude.{◌≡◌, None};
ghost use Rattle.node_styles.specs.DomModel.Forest.{first_of};
ghost use Rattle.node_tests.specs.CollapsedWhitespace as whitespace;
ghost use Rattle.node_tests.specs.Surroundings as before;

use crate::neighbours::{is_solid_neighbour, met_at, neighbour_on};
use crate::sides::Side;
use node_styles::arena::{Content, NodeRef, Nodes};
use node_styles::{is_hidden, is_whitespace};

// Whether whitespace collapses at what stands before it: at the first node on the way back that
// decides. A node is met after what it holds.
fn collapses_before<N: Nodes>(nodes: &N, node: NodeRef) -> bool
    requires { N.holds nodes.now node }
    ensures { result ≡ whitespace.collapses_at (N.trees nodes.now)
        (before.nodes_before (N.trees nodes.now) node.label) }
{
    nodes.valid();
    let mut at = node;
    let mut tree = nodes.prev(node);
    'walk: loop {
        if let Some(inner) = tree {
            if let Some(last) = nodes.last_child(inner) {
                tree = Some(last);
            } else {
                if let Some(met) = met_at(nodes, inner) {
                    return !is_solid_neighbour(met);
                }
                at = inner;
                tree = nodes.prev(inner);
            }
        } else {
            match nodes.parent(at) {
                None => return true,
                Some(parent) => {
                    if let Some(met) = met_at(nodes, parent) {
                        return !is_solid_neighbour(met);
                    }
                    at = parent;
                    tree = nodes.prev(parent);
                }
            }
        }
    }
}

// The same of what stands after it, for a node without children.
fn collapses_after<N: Nodes>(nodes: &N, node: NodeRef) -> bool
    requires held { N.holds nodes.now node }
    requires leaf { first_of (N.trees nodes.now) node.label ≡ None }
    ensures { result
        ≡ whitespace.collapses_at (N.trees nodes.now)
        (before.nodes_after (N.trees nodes.now) node.label) }
{
    nodes.valid();
    !is_solid_neighbour(neighbour_on(nodes, node, Side::After))
}

fn is_empty_words(content: &Content) -> bool
    ensures { result ≡ whitespace.is_empty_words content.now }
{
    match content {
        Content::Words(chars) => chars.as_slice().is_empty(),
        _ => false,
    }
}

/// Whether a node is a collapsed whitespace node: a whitespace node that is empty or hidden by
/// `display: none`, or beside which no text or image of its block stands on one side.
#[tactic(auto, unfolding(crate::specs::CollapsedWhitespace::is_collapsed_whitespace))]
pub fn is_collapsed_whitespace<N: Nodes>(nodes: &N, node: NodeRef) -> bool
    requires { N.holds nodes.now node }
    ensures { result ≡ whitespace.is_collapsed_whitespace (N.trees nodes.now) node.label }
{
    nodes.valid();
    is_whitespace(nodes, node)
        && (is_empty_words(nodes.content(node))
            || is_hidden(nodes, node)
            || collapses_before(nodes, node)
            || collapses_after(nodes, node))
}
