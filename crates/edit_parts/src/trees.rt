//! The tree of a node: its numbers, and whether it bears what commands keep.

ghost use Rattle.std.specs.Prelude.{◌≡◌, ◌+◌, ℕ, not, None, filter, IfSome};
ghost use Rattle.std.specs.List.{list_all};
ghost use Rattle.edit_model.specs.DomModel.declared.Content.{Content};
ghost use Rattle.edit_model.specs.DomModel.Contents.{words_length};
ghost use Rattle.edit_model.specs.DomModel.Forest.{total, tree_of, parent_of, IsWithin};
ghost use Rattle.edit_model.specs.DomModel.Places.{levels};
ghost use Rattle.edit_model.specs.DomModel.TreeOrder.{total_from, total_after};
ghost use Rattle.edit_model.specs.Kept.{has_no_kept_leaves, borne_by, is_blank, is_empty, is_kept, is_thing};
ghost use Rattle.edit_parts.specs.Walk.{IsIn, Goes, Stops};
ghost use Rattle.edit_model.specs.NodeArena.Held.{Holds};
ghost use Rattle.edit_model.specs.PointOrder.PointOrder.{is_in_document};

use crate::Counts;
use edit_model::arena::{Arena, Content, NodeRef};

// A node of the tree of another, and how deep it is below that.
#[derive(Clone, Copy)]
pub(crate) struct Place {
    node: NodeRef,
    depth: u32,
}

// The first place in tree order after the tree of a place, in the tree of `top`.
fn after(arena: &Arena, top: NodeRef, place: Place) -> Option<Place>
    requires top_held { Holds arena.now top }
    requires inside { IsIn arena.now top place }
    ensures found { IfSome result (λ next. IsIn arena.now top next
        × ((w : ℕ → Content → ℕ) → total_after w arena.now.trees place.node.label
        ≡ total_from w arena.now.trees next.node.label)) }
    ensures none { (result ≡ None) → (w : ℕ → Content → ℕ)
        → total_after w arena.now.trees place.node.label
        ≡ total_after w arena.now.trees top.label }
{
    arena.valid();
    let mut at = place;
    while at.node.label != top.label {
        if let Some(next) = arena.next(at.node) {
            return Some(Place {
                node: next,
                depth: at.depth,
            });
        }
        match arena.parent(at.node) {
            Some(parent) => {
                at = Place {
                    node: parent,
                    depth: at.depth - 1,
                }
            }
            None => return None,
        }
    }
    None
}

// The next place in tree order in the tree of `top`.
fn following(arena: &Arena, top: NodeRef, place: Place) -> Option<Place>
    requires top_held { Holds arena.now top }
    requires inside { IsIn arena.now top place }
    ensures found { IfSome result (Goes arena.now top place) }
    ensures none { (result ≡ None) → Stops arena.now top place }
{
    arena.valid();
    match arena.first_child(place.node) {
        Some(child) => Some(Place {
            node: child,
            depth: place.depth + 1,
        }),
        None => after(arena, top, place),
    }
}

/// Whether a node is in the document and not in a loose tree.
pub fn is_in_document(arena: &Arena, node: NodeRef) -> bool
    requires { Holds arena.now node }
    ensures { result ≡ is_in_document arena.now.trees node.label }
{
    arena.is_within(arena.document(), node)
}

fn char_count(content: &Content) -> u64
    ensures { result ≡ words_length content.now }
{
    match content {
        Content::Words(chars) => chars.len() as u64,
        _ => 0,
    }
}

/// How many nodes the tree of a node has, how many characters its texts have, and how high it is.
pub fn tree_counts(arena: &Arena, top: NodeRef) -> Counts
    requires { Holds arena.now top }
    ensures nodes { result.nodes ≡ total (λ _ _. 1) (tree_of arena.now.trees top.label) }
    ensures chars { result.chars
        ≡ total (λ _ c. words_length c) (tree_of arena.now.trees top.label) }
    ensures depth { levels (tree_of arena.now.trees top.label) ≡ result.depth + 1 }
{
    arena.valid();
    let mut at = Place {
        node: top,
        depth: 0,
    };
    let mut nodes = 1;
    let mut chars = char_count(arena.content(top));
    let mut depth: u32 = 0;
    while let Some(next) = following(arena, top, at) {
        at = next;
        nodes += 1;
        chars += char_count(arena.content(at.node));
        depth = depth.max(at.depth);
    }
    Counts {
        nodes,
        chars,
        depth,
    }
}

fn is_blank(c: char) -> bool
    ensures { result ≡ is_blank c }
{
    matches!(c, '\t' | '\n' | '\r' | ' ')
}

fn is_all_blank(chars: &[char]) -> bool
    ensures { result ≡ list_all is_blank chars.now }
{
    for c in chars {
        if !is_blank(*c) {
            return false;
        }
    }
    true
}

fn is_thing(name: &[u8]) -> bool
    ensures { result ≡ is_thing name.now }
{
    name == b"img".as_slice() || name == b"hr".as_slice()
}

// Whether a node is an image, a rule, or a text with a character that isn't blank.
fn bears(content: &Content) -> bool
    ensures { (l : ℕ) → result ≡ not (is_empty (filter is_kept (borne_by l content.now))) }
{
    match content {
        Content::Element { name, .. } => is_thing(name.as_slice()),
        Content::Words(chars) => !is_all_blank(chars.as_slice()),
        _ => false,
    }
}

/// Whether the tree of a node has no image, no rule, and no characters but tab, LF, CR and space.
pub fn has_no_kept_leaves(arena: &Arena, top: NodeRef) -> bool
    requires { Holds arena.now top }
    ensures { result ≡ has_no_kept_leaves (tree_of arena.now.trees top.label) }
{
    arena.valid();
    let mut at = Place {
        node: top,
        depth: 0,
    };
    if bears(arena.content(top)) {
        return false;
    }
    while let Some(next) = following(arena, top, at) {
        at = next;
        if bears(arena.content(at.node)) {
            return false;
        }
    }
    true
}
