//! The nodes of a tree as one list.

ghost use Rattle.std.specs.Prelude.{◌≡◌, ◌+◌, ◌<◌, ◌^◌, [], ◌∷◌, ◌++◌, OnOk, IfOk, IfSome};
ghost use Rattle.document_edits.specs.DomModel.Forest.{content_of, total, tree_of};
ghost use Rattle.node_paths.specs.NodeArena.Held.{Holds, label};
ghost use Rattle.node_paths.specs.Onward.{onward_at, IsInner};
ghost use Rattle.document_edits.specs.Flat.{flat};

use document_edits::TreeNode;
use document_edits::dom::{Content, Items};
use node_paths::arena::{Arena, NodeRef};
use std::alloc::{AllocError, Global};

/// A copy of what a node is, with its name and attributes, or its characters.
pub fn copy_content(content: &Content) -> Result<Content, AllocError>
    ensures { IfOk result (λ copied. copied ≡ content.now) }
{
    Ok(match content {
        Content::Document => Content::Document,
        Content::Element { name, attributes } => Content::Element {
            name: name.clone()?,
            attributes: attributes.copy()?,
        },
        Content::Words(words) => Content::Words(words.clone()?),
        Content::Remark(words) => Content::Remark(words.clone()?),
    })
}

// Appends a node. It has a frame of its own, and so that of `push_trees`, of which there is one for
// each level, is small.
#[inline(never)]
fn push_node(
    nodes: &mut Vec<TreeNode>,
    level: u32,
    label: u32,
    content: &Content,
) -> Result<(), AllocError>
    ensures ok { OnOk result (nodes.new.items ≡ nodes.old.items ++ record {
      level = level;
      label = label;
      content = content.now;
    } ∷ []) }
{
    nodes.push(TreeNode {
        level,
        label,
        content: copy_content(content)?,
    })?;
    Ok(())
}

// Appends the nodes of the trees from a node on: its own and those of its later siblings.
fn push_trees(
    nodes: &mut Vec<TreeNode>,
    arena: &Arena,
    first: Option<NodeRef>,
    level: u32,
) -> Result<(), AllocError>
    requires held { IfSome first (λ r. Holds arena.now r) }
    requires inner { IsInner arena.now.trees (label first) }
    requires room { level + total (λ _ _. 1) (onward_at arena.now.trees (label first)) < 2 ^ 32 }
    ensures ok { OnOk result (nodes.new.items ≡ nodes.old.items
        ++ flat level (onward_at arena.now.trees (label first))) }
{
    arena.valid();
    let mut at = first;
    while let Some(node) = at {
        push_node(nodes, level, node.label, arena.content(node))?;
        push_trees(nodes, arena, arena.first_child(node), level + 1)?;
        at = arena.next(node);
    }
    Ok(())
}

// The nodes of the tree of a node, in tree order. Its calls go as deep as the tree.
pub(crate) fn tree_nodes(
    alloc: Global,
    arena: &Arena,
    node: NodeRef,
) -> Result<Items<TreeNode>, AllocError>
    requires { Holds arena.now node }
    ensures { IfOk result (λ nodes. nodes ≡ flat 0 (tree_of arena.now.trees node.label)) }
{
    arena.valid();
    let mut nodes = Vec::new(alloc);
    push_node(&mut nodes, 0, node.label, arena.content(node))?;
    push_trees(&mut nodes, arena, arena.first_child(node), 1)?;
    Ok(Items::from_vec(nodes))
}
