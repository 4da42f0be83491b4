//! Collapsed block props.

ghost use Rattle.std.specs.Prelude.{◌≡◌, ◌||◌};
ghost use Rattle.node_tests.specs.BlockProps as props;

use crate::neighbours::{is_collapsed_break, is_extraneous_break};
use crate::visible::is_visible;
use node_styles::arena::{NodeRef, Nodes};
use node_styles::{is_block, is_element};

// Whether a node is a collapsed line break that isn't extraneous.
#[tactic(auto, unfolding(crate::specs::BlockProps::is_break_prop))]
fn is_break_prop<N: Nodes>(nodes: &N, node: NodeRef) -> bool
    requires { N.holds nodes.now node }
    ensures { result ≡ props.is_break_prop (N.trees nodes.now) node.label }
{
    is_collapsed_break(nodes, node) && !is_extraneous_break(nodes, node)
}

#[tactic(auto, unfolding(crate::specs::BlockProps::is_inline_element))]
fn is_inline_element<N: Nodes>(nodes: &N, node: NodeRef) -> bool
    requires { N.holds nodes.now node }
    ensures { result ≡ props.is_inline_element (N.trees nodes.now) node.label }
{
    is_element(nodes, node) && !is_block(nodes, node)
}

fn either(a: bool, b: bool) -> bool
    ensures { result ≡ (a || b) }
{
    a || b
}

/// Whether a node is a collapsed block prop: a collapsed line break that isn't extraneous, or an
/// inline element whose children are all invisible or collapsed block props, with at least one such
/// prop.
pub fn is_block_prop<N: Nodes>(nodes: &N, node: NodeRef) -> bool
    requires { N.holds nodes.now node }
    ensures { result ≡ props.is_block_prop (N.trees nodes.now) node.label }
{
    nodes.valid();
    if is_break_prop(nodes, node) {
        return true;
    }
    if !is_inline_element(nodes, node) {
        return false;
    }
    let mut found = false;
    let mut child = nodes.first_child(node);
    while let Some(at) = child {
        let prop = is_block_prop(nodes, at);
        if !prop {
            if is_visible(nodes, at) {
                return false;
            }
        }
        found = either(found, prop);
        child = nodes.next(at);
    }
    found
}
