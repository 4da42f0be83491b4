//! The path to a node.

ghost use Rattle.std.specs.Prelude.{◌≡◌, IfOk, Some};
ghost use Rattle.node_styles.specs.DomModel.Forest.{IsWithin};
ghost use Rattle.page_write.specs.NodePaths.Paths.{path_of, label_at};

use node_styles::arena::{NodeRef, Nodes};
use std::alloc::{AllocError, Global};

/// The path to a node of the document: the index of a child in each node on the way.
pub fn path_of<N: Nodes>(alloc: Global, nodes: &N, node: NodeRef) -> Result<Vec<u32>, AllocError>
    requires held { N.holds nodes.now node }
    requires inner { IsWithin (N.trees nodes.now) 0 node.label }
    ensures path { IfOk result (λ path. path_of (N.trees nodes.now) node.label ≡ Some path.items) }
    ensures leads { IfOk result (λ path. label_at (N.trees nodes.now) path.items
        ≡ Some node.label) }
{
    nodes.valid();
    let mut path = Vec::new(alloc);
    let mut at = node;
    while let Some(parent) = nodes.parent(at) {
        path.push(nodes.index(at))?;
        at = parent;
    }
    path.reverse();
    Ok(path)
}
