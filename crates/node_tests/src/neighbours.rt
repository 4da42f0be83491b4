//! The solid neighbours of a br, and which brs break no line.

ghost use Rattle.std.specs.Prelude.{◌≡◌, ◌&&◌, is_none};
ghost use Rattle.node_styles.specs.DomModel.Forest.{tree_of, prev_of, next_of};
ghost use Rattle.node_styles.specs.NodeArena.Held.{label};
ghost use Rattle.node_tests.specs.CollapsedWhitespace as whitespace;
ghost use Rattle.node_tests.specs.SolidNeighbours as neighbours;

use crate::sides::{Side, inward, sibling};
use node_styles::arena::{Content, NodeRef, Nodes, has_name, is_break, is_image};
use node_styles::{is_block, is_whitespace};

/// What is met first beside a br in its nearest block.
#[derive(Clone, Copy)]
pub(crate) enum Neighbour {
    /// The start or the end of a block.
    BlockEdge,
    LineBreak,
    /// Words that isn't whitespace, or an image.
    Solid,
}

/// Whether a node is Words.
#[tactic(auto, unfolding(crate::specs::CollapsedWhitespace::is_words))]
pub fn is_words<N: Nodes>(nodes: &N, node: NodeRef) -> bool
    requires { N.holds nodes.now node }
    ensures { result ≡ whitespace.is_words (N.trees nodes.now) node.label }
{
    matches!(nodes.content(node), Content::Words(_))
}

// Whether a node is Words that isn't whitespace, or an image.
#[tactic(auto, unfolding(crate::specs::CollapsedWhitespace::is_solid))]
fn is_solid<N: Nodes>(nodes: &N, node: NodeRef) -> bool
    requires { N.holds nodes.now node }
    ensures { result ≡ whitespace.is_solid (N.trees nodes.now) node.label }
{
    is_image(nodes, node) || (is_words(nodes, node) && !is_whitespace(nodes, node))
}

/// What a walk meets at a node, without looking inside.
#[tactic(auto, unfolding(crate::specs::SolidNeighbours::met))]
pub(crate) fn met_at<N: Nodes>(nodes: &N, node: NodeRef) -> Option<Neighbour>
    requires { N.holds nodes.now node }
    ensures { result ≡ neighbours.met (N.trees nodes.now) node.label }
{
    if is_block(nodes, node) {
        Some(Neighbour::BlockEdge)
    } else if is_break(nodes, node) {
        Some(Neighbour::LineBreak)
    } else if is_solid(nodes, node) {
        Some(Neighbour::Solid)
    } else {
        None
    }
}

/// What is met first on a side of the tree of a node in its nearest block. A block is met before
/// what it holds.
pub(crate) fn neighbour_on<N: Nodes>(nodes: &N, node: NodeRef, side: Side) -> Neighbour
    requires { N.holds nodes.now node }
    ensures { result ≡ neighbours.neighbour_on side (N.trees nodes.now) node.label }
{
    nodes.valid();
    let mut at = node;
    let mut next = sibling(nodes, node, side);
    'walk: loop {
        if let Some(inner) = next {
            if let Some(met) = met_at(nodes, inner) {
                return met;
            }
            at = inner;
            next = inward(nodes, inner, side);
        } else {
            match nodes.parent(at) {
                Some(parent) if !is_block(nodes, parent) => {
                    at = parent;
                    next = sibling(nodes, parent, side);
                }
                _ => return Neighbour::BlockEdge,
            }
        }
    }
}

/// Whether it is Words that isn't whitespace, or an image.
pub(crate) fn is_solid_neighbour(met: Neighbour) -> bool
    ensures { result ≡ neighbours.is_solid_neighbour met }
{
    matches!(met, Neighbour::Solid)
}

fn is_block_edge(met: Neighbour) -> bool
    ensures { result ≡ neighbours.is_block_edge met }
{
    matches!(met, Neighbour::BlockEdge)
}

// Whether a node has no siblings.
fn is_alone<N: Nodes>(nodes: &N, node: NodeRef) -> bool
    requires { N.holds nodes.now node }
    ensures { result ≡ (is_none (prev_of (N.trees nodes.now) node.label)
        && is_none (next_of (N.trees nodes.now) node.label)) }
{
    is_nothing(nodes.prev(node)) && is_nothing(nodes.next(node))
}

/// Whether there is no node.
pub(crate) fn is_nothing(node: Option<NodeRef>) -> bool
    ensures { result ≡ is_none (label node) }
{
    node.is_none()
}

// Whether a node is the only child of an li.
fn is_sole_in_item<N: Nodes>(nodes: &N, node: NodeRef) -> bool
    requires { N.holds nodes.now node }
    ensures { result ≡ neighbours.is_sole_in_item (N.trees nodes.now) node.label }
{
    nodes.valid();
    match nodes.parent(node) {
        Some(parent) => has_name(nodes, parent, b"li") && is_alone(nodes, node),
        None => false,
    }
}

/// Whether a node is an extraneous line break: a br after Words or an image and before the edge of
/// a block, other than the sole child of an li.
#[tactic(auto, unfolding(crate::specs::SolidNeighbours::is_extraneous_break))]
pub fn is_extraneous_break<N: Nodes>(nodes: &N, node: NodeRef) -> bool
    requires { N.holds nodes.now node }
    ensures { result ≡ neighbours.is_extraneous_break (N.trees nodes.now) node.label }
{
    is_break(nodes, node)
        && is_block_edge(neighbour_on(nodes, node, Side::After))
        && is_solid_neighbour(neighbour_on(nodes, node, Side::Before))
        && !is_sole_in_item(nodes, node)
}

/// Whether a node is a collapsed line break: a br after the edge of a block or a br, and before the
/// edge of a block.
#[tactic(auto, unfolding(crate::specs::SolidNeighbours::is_collapsed_break))]
pub fn is_collapsed_break<N: Nodes>(nodes: &N, node: NodeRef) -> bool
    requires { N.holds nodes.now node }
    ensures { result ≡ neighbours.is_collapsed_break (N.trees nodes.now) node.label }
{
    is_break(nodes, node)
        && !is_solid_neighbour(neighbour_on(nodes, node, Side::Before))
        && is_block_edge(neighbour_on(nodes, node, Side::After))
}
