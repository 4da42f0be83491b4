//! Visible and formattable nodes.

ghost use Rattle.std.specs.Prelude.{◌≡◌};
ghost use Rattle.node_styles.specs.DomModel.Forest.{tree_of};
ghost use Rattle.node_styles.specs.Blocks.{is_no_box};
ghost use Rattle.node_tests.specs.Visible as visible;

use crate::neighbours::{is_extraneous_break, is_words};
use crate::whitespace::is_collapsed_whitespace;
use node_styles::arena::{NodeRef, Nodes, is_break, is_image};
use node_styles::css::Display;
use node_styles::{display, is_block, is_editable, is_hidden};

// Whether a node itself is seen, where no display none hides it.
#[tactic(auto, unfolding(crate::specs::Visible::shows))]
fn shows<N: Nodes>(nodes: &N, node: NodeRef) -> bool
    requires { N.holds nodes.now node }
    ensures { result ≡ visible.shows (N.trees nodes.now) node.label }
{
    is_block(nodes, node)
        || (is_words(nodes, node) && !is_collapsed_whitespace(nodes, node))
        || is_image(nodes, node)
        || (is_break(nodes, node) && !is_extraneous_break(nodes, node))
}

// Whether something shows in the tree of a node, where no ancestor of it hides that.
fn shows_inside<N: Nodes>(nodes: &N, node: NodeRef) -> bool
    requires { N.holds nodes.now node }
    ensures { result
        ≡ visible.shows_in (N.trees nodes.now) (tree_of (N.trees nodes.now) node.label) }
{
    nodes.valid();
    if has_no_box(nodes, node) {
        return false;
    }
    if shows(nodes, node) {
        return true;
    }
    let mut child = nodes.first_child(node);
    while let Some(at) = child {
        if shows_inside(nodes, at) {
            return true;
        }
        child = nodes.next(at);
    }
    false
}

fn is_no_box(display: Display) -> bool
    ensures { result ≡ is_no_box display }
{
    matches!(display, Display::NoBox)
}

// Whether a node has `display: none` itself.
#[tactic(auto, unfolding(crate::specs::Visible::is_boxless))]
fn has_no_box<N: Nodes>(nodes: &N, node: NodeRef) -> bool
    requires { N.holds nodes.now node }
    ensures { result ≡ visible.is_boxless (N.trees nodes.now) node.label }
{
    is_no_box(display(nodes, node))
}

/// Whether a node is visible: it or a node below it is a block node, Words that is no collapsed
/// whitespace, an image or a br that isn't extraneous, and no `display: none` hides that.
#[tactic(auto, unfolding(crate::specs::Visible::is_visible))]
pub fn is_visible<N: Nodes>(nodes: &N, node: NodeRef) -> bool
    requires { N.holds nodes.now node }
    ensures { result ≡ visible.is_visible (N.trees nodes.now) node.label }
{
    !is_hidden(nodes, node) && shows_inside(nodes, node)
}

/// Whether a node is formattable: editable with `host` as its editing host, visible, and Words, an
/// img or a br.
#[tactic(auto, unfolding(crate::specs::Visible::is_formattable))]
pub fn is_formattable<N: Nodes>(nodes: &N, host: NodeRef, node: NodeRef) -> bool
    requires host_held { N.holds nodes.now host }
    requires node_held { N.holds nodes.now node }
    ensures { result ≡ visible.is_formattable (N.trees nodes.now) host.label node.label }
{
    is_editable(nodes, host, node)
        && (is_words(nodes, node) || is_image(nodes, node) || is_break(nodes, node))
        && is_visible(nodes, node)
}
