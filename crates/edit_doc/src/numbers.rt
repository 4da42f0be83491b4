//! The numbers of the document after a tree comes into it, moves in it or leaves it, or a text of
//! it changes.

ghost use Rattle.std.specs.Prelude.{◌≡◌, ◌+◌, ◌<◌, ◌≤◌, ◌^◌, max, min, Some, true};
ghost use Rattle.edit_model.specs.DomModel.Contents.{words_length};
ghost use Rattle.edit_model.specs.DomModel.Document.{node_count, char_count};
ghost use Rattle.edit_model.specs.DomModel.Forest.{content_of, depth_of, parent_of, total, tree_of, unlink};
ghost use Rattle.edit_model.specs.DomModel.Places.{levels};
ghost use Rattle.edit_model.specs.DomModel.Revised.{revised};
ghost use Rattle.edit_model.specs.Confined.{may_change};
ghost use Rattle.edit_model.specs.Edit.{with_replaced};
ghost use Rattle.edit_model.specs.NodeArena.Held.{Holds};
ghost use Rattle.edit_model.specs.PointOrder.PointOrder.{is_in_document};
ghost use Rattle.edit_doc.specs.Fields.{IsRaised, comes_in, with_more};

use crate::Counts;
use edit_model::arena::{Arena, NodeRef};
use edit_parts::{add_counts, is_in_document, tree_counts};

// Up to this depth a move further down adds how far it goes; beyond, the moved tree is walked for
// its height.
const DEPTH_WITHOUT_WALK: u32 = 250;

// How deep the document may be once a tree of this height comes to stand under a parent in it.
fn depth_under(arena: &Arena, depth: u32, parent: NodeRef, height: u32) -> u32
    requires { Holds arena.now parent }
    ensures { result
        ≡ max depth (min (depth_of arena.now.trees parent.label + (height + 1)) 4294967295) }
{
    let below = height.saturating_add(1);
    depth.max(arena.depth(parent).saturating_add(below))
}

// The numbers of the document, with those of a tree if that comes into it.
pub(crate) fn counts_with(
    arena: &Arena,
    counts: Counts,
    node: NodeRef,
    parent: NodeRef,
    enters: bool,
) -> Counts
    requires held { Holds arena.now node }
    requires parent_held { Holds arena.now parent }
    requires nodes { with_more enters counts.nodes
        (total (λ _ _. 1) (tree_of arena.now.trees node.label)) < 2 ^ 32 }
    requires chars { with_more enters counts.chars (total (λ _ c. words_length c)
        (tree_of arena.now.trees node.label)) < 2 ^ 64 }
    ensures nodes { result.nodes ≡ with_more enters counts.nodes
        (total (λ _ _. 1) (tree_of arena.now.trees node.label)) }
    ensures chars { result.chars ≡ with_more enters counts.chars
        (total (λ _ c. words_length c) (tree_of arena.now.trees node.label)) }
    ensures depth { IsRaised arena.now.trees parent.label node.label enters counts.depth
        result.depth }
{
    let mut counts = counts;
    if enters {
        let tree = tree_counts(arena, node);
        add_counts(&mut counts, tree);
        counts.depth = depth_under(arena, counts.depth, parent, tree.depth);
    }
    counts
}

// How deep the document may be once the tree of a node moves in it, to another parent.
fn depth_moved(arena: &Arena, depth: u32, node: NodeRef, parent: NodeRef) -> u32
    requires node_held { Holds arena.now node }
    requires parent_held { Holds arena.now parent }
    requires stands { levels (tree_of arena.now.trees node.label) + depth_of arena.now.trees
        node.label ≤ depth + 1 }
    ensures { IsRaised arena.now.trees parent.label node.label true depth result }
{
    let from = arena.depth(node);
    let to = arena.depth(parent);
    if to < from {
        return depth;
    }
    let lower = depth.saturating_add(to - from).saturating_add(1);
    if lower <= DEPTH_WITHOUT_WALK {
        return lower;
    }
    depth_under(arena, depth, parent, tree_counts(arena, node).depth)
}

// The numbers of the document once the tree of a node moves to another parent.
pub(crate) fn counts_moved(arena: &Arena, counts: Counts, node: NodeRef, parent: NodeRef) -> Counts
    requires node_held { Holds arena.now node }
    requires parent_held { Holds arena.now parent }
    requires nodes { with_more (comes_in arena.now.trees node.label parent.label) counts.nodes
        (total (λ _ _. 1) (tree_of arena.now.trees node.label)) < 2 ^ 32 }
    requires chars { with_more (comes_in arena.now.trees node.label parent.label) counts.chars
        (total (λ _ c. words_length c) (tree_of arena.now.trees node.label)) < 2 ^ 64 }
    requires stands { is_in_document arena.now.trees node.label ≡ true
        → levels (tree_of arena.now.trees node.label) + depth_of arena.now.trees node.label
        ≤ counts.depth + 1 }
    ensures nodes { result.nodes
        ≡ with_more (comes_in arena.now.trees node.label parent.label) counts.nodes
        (total (λ _ _. 1) (tree_of arena.now.trees node.label)) }
    ensures chars { result.chars
        ≡ with_more (comes_in arena.now.trees node.label parent.label) counts.chars
        (total (λ _ c. words_length c) (tree_of arena.now.trees node.label)) }
    ensures depth { IsRaised arena.now.trees parent.label node.label
        (is_in_document arena.now.trees parent.label) counts.depth result.depth }
{
    if !is_in_document(arena, node) {
        let enters = is_in_document(arena, parent);
        return counts_with(arena, counts, node, parent, enters);
    }
    Counts {
        depth: depth_moved(arena, counts.depth, node, parent),
        ..counts
    }
}

// The numbers of the document once the tree of a node leaves its parent.
pub(crate) fn counts_without(
    arena: &Arena,
    counts: Counts,
    node: NodeRef,
    parent: NodeRef,
) -> Counts
    requires held { Holds arena.now node }
    requires child { parent_of arena.now.trees node.label ≡ Some parent.label }
    requires nodes { counts.nodes ≡ node_count arena.now.trees }
    requires chars { counts.chars ≡ char_count arena.now.trees }
    ensures nodes { result.nodes ≡ node_count (unlink arena.now.trees node.label) }
    ensures chars { result.chars ≡ char_count (unlink arena.now.trees node.label) }
    ensures depth { result.depth ≡ counts.depth }
{
    arena.valid();
    if !is_in_document(arena, node) {
        return counts;
    }
    let less = tree_counts(arena, node);
    Counts {
        nodes: counts.nodes - less.nodes,
        chars: counts.chars - less.chars,
        depth: counts.depth,
    }
}

// The number of characters of the document once characters of a text are replaced.
pub(crate) fn chars_replaced(
    arena: &Arena,
    chars: u64,
    node: NodeRef,
    at: u32,
    count: u32,
    put: &[char],
) -> u64
    requires held { Holds arena.now node }
    requires is { chars ≡ char_count arena.now.trees }
    requires may { may_change (content_of arena.now.trees node.label) at count put.now ≡ true }
    ensures { result
        ≡ char_count (revised arena.now.trees node.label (with_replaced at count put.now)) }
{
    arena.valid();
    if !is_in_document(arena, node) {
        return chars;
    }
    chars - count as u64 + put.len() as u64
}
