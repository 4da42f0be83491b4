//! What a single element is.

ghost use Rattle.std.specs.Prelude.{◌≡◌};
ghost use Rattle.dom_model.specs.Contents.{has_name, is_break, is_image};

use crate::{Content, NodeRef, Nodes};

/// Whether a node is an element of this name.
pub fn has_name<N: Nodes>(nodes: &N, node: NodeRef, name: &[u8]) -> bool
    requires { N.holds nodes.now node }
    ensures { result ≡ has_name (N.trees nodes.now) node.label name.now }
{
    match nodes.content(node) {
        Content::Element {
            name: own,
            attributes: _,
        } => own.as_slice() == name,
        _ => false,
    }
}

/// Whether a node is a br.
pub fn is_break<N: Nodes>(nodes: &N, node: NodeRef) -> bool
    requires { N.holds nodes.now node }
    ensures { result ≡ is_break (N.trees nodes.now) node.label }
{
    has_name(nodes, node, b"br")
}

/// Whether a node is an img.
pub fn is_image<N: Nodes>(nodes: &N, node: NodeRef) -> bool
    requires { N.holds nodes.now node }
    ensures { result ≡ is_image (N.trees nodes.now) node.label }
{
    has_name(nodes, node, b"img")
}
