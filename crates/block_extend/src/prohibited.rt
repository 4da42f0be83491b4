//! Prohibited paragraph children below a node.

ghost use Rattle.std.specs.Prelude.{◌≡◌};
ghost use Rattle.block_extend.specs.Prohibited.{is_prohibited, is_above_prohibited};

use crate::descendants::has_descendant;
use crate::gathering::Choice;
use node_paths::arena::{Content, NodeRef, Nodes};
use node_tests::element_names::is_prohibited_child;

/// Whether a node is an element that may not stand in a paragraph.
pub fn is_prohibited<N: Nodes>(nodes: &N, node: NodeRef) -> bool
    requires { N.holds nodes.now node }
    ensures { result ≡ is_prohibited (N.trees nodes.now) node.label }
{
    match nodes.content(node) {
        Content::Element { name, .. } => is_prohibited_child(name.as_slice()),
        _ => false,
    }
}

#[derive(Clone, Copy)]
struct Prohibited;

impl<N: Nodes> Choice<N> for Prohibited {
    ghost use Rattle.block_extend.specs.Prohibited.{is_prohibited};

    ghost chosen = { λ s d l. is_prohibited (N.trees d) l };

    fn chooses(&self, nodes: &N, node: NodeRef) -> bool {
        is_prohibited(nodes, node)
    }
}

/// Whether a prohibited paragraph child stands below a node. It walks what stands below the node,
/// as far as the first.
#[tactic(auto, unfolding(crate::specs::Prohibited::is_above_prohibited))]
pub fn is_above_prohibited<N: Nodes>(nodes: &N, node: NodeRef) -> bool
    requires { N.holds nodes.now node }
    ensures { result ≡ is_above_prohibited (N.trees nodes.now) node.label }
{
    has_descendant(nodes, node, &Prohibited)
}
