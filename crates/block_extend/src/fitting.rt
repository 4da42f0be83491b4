//! Whether a node may stand in a div, in an item of a list, or in a span.
//!
//! Most blocks are paragraphs, of which one comparison tells it. The tables of names take a
//! hundred.

ghost use Rattle.std.specs.Prelude.{◌≡◌, codes};
ghost use Rattle.node_tests.specs.NodeStyles.Allowed.{allowed_in_name};

use node_paths::arena::{NodeRef, Nodes, has_name};
use node_tests::allowed_in_name;

/// Whether a node is an allowed child of a div.
pub fn allowed_in_div<N: Nodes>(nodes: &N, node: NodeRef) -> bool
    requires { N.holds nodes.now node }
    ensures { result ≡ allowed_in_name (N.trees nodes.now) node.label (codes "div") }
{
    if has_name(nodes, node, b"p") {
        return true;
    }
    allowed_in_name(nodes, node, b"div")
}

/// Whether a node is an allowed child of an item of a list.
pub fn allowed_in_item<N: Nodes>(nodes: &N, node: NodeRef) -> bool
    requires { N.holds nodes.now node }
    ensures { result ≡ allowed_in_name (N.trees nodes.now) node.label (codes "li") }
{
    if has_name(nodes, node, b"p") {
        return true;
    }
    allowed_in_name(nodes, node, b"li")
}

/// Whether a node is an allowed child of a span.
pub fn allowed_in_span<N: Nodes>(nodes: &N, node: NodeRef) -> bool
    requires { N.holds nodes.now node }
    ensures { result ≡ allowed_in_name (N.trees nodes.now) node.label (codes "span") }
{
    if has_name(nodes, node, b"p") {
        return false;
    }
    allowed_in_name(nodes, node, b"span")
}
