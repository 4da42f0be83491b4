//! A walk over trees in tree order.

ghost use Rattle.std.specs.Prelude.{◌≡◌, ◌<◌, ◌^◌, OnOk, IfSome};
ghost use Rattle.node_styles.specs.DomModel.Contents.{char_length};
ghost use Rattle.node_styles.specs.DomModel.Forest.{tree_of};
ghost use Rattle.node_styles.specs.NodeArena.Held.{label};
ghost use Rattle.page_write.specs.NodePaths.Onward.{onward_at, IsInner};
ghost use Rattle.node_texts.specs.Walk.{walked};

use node_styles::arena::{Content, NodeRef, Nodes};
use std::alloc::AllocError;

/// One to whom the nodes of trees are shown: each before its children, and again after them.
pub(crate) trait Visitor {
    ghost use Rattle.std.specs.Prelude.{ℕ};
    ghost use Rattle.node_styles.specs.DomModel.declared.Content.{Content};

    // what it is after it has entered a node, and after it has left one
    ghost entered: { Self → ℕ → Content → Self };

    ghost left: { Self → ℕ → Content → Self };

    /// Shows a node whose children come next.
    fn enter(&mut self, label: u32, content: &Content) -> Result<(), AllocError>
        requires short { char_length content.now < 2 ^ 32 }
        ensures ok { OnOk result (self.new ≡ entered self.old label content.now) };

    /// Shows a node whose children have been shown.
    fn leave(&mut self, label: u32, content: &Content) -> Result<(), AllocError>
        ensures ok { OnOk result (self.new ≡ left self.old label content.now) };
}

// Shows the trees from a node on: its own and those of its later siblings.
fn walk_from<N: Nodes, V: Visitor>(
    nodes: &N,
    first: Option<NodeRef>,
    visitor: &mut V,
) -> Result<(), AllocError>
    requires held { IfSome first (λ r. N.holds nodes.now r) }
    requires inner { IsInner (N.trees nodes.now) (label first) }
    ensures ok { OnOk result (visitor.new
        ≡ walked V.entered V.left (onward_at (N.trees nodes.now) (label first)) visitor.old) }
{
    nodes.valid();
    let mut at = first;
    while let Some(node) = at {
        let content = nodes.content(node);
        visitor.enter(node.label, content)?;
        walk_from(nodes, nodes.first_child(node), visitor)?;
        visitor.leave(node.label, content)?;
        at = nodes.next(node);
    }
    Ok(())
}

/// Shows a node and all that stands below it. Its calls go as deep as the tree.
pub(crate) fn walk<N: Nodes, V: Visitor>(
    nodes: &N,
    node: NodeRef,
    visitor: &mut V,
) -> Result<(), AllocError>
    requires { N.holds nodes.now node }
    ensures ok { OnOk result (visitor.new
        ≡ walked V.entered V.left (tree_of (N.trees nodes.now) node.label) visitor.old) }
{
    nodes.valid();
    let content = nodes.content(node);
    visitor.enter(node.label, content)?;
    walk_from(nodes, nodes.first_child(node), visitor)?;
    visitor.leave(node.label, content)?;
    Ok(())
}
