//! Walks over the document in tree order.

ghost use Rattle.std.specs.Prelude.{◌≡◌, ℕ, ◌+◌, None, IfSome};
ghost use Rattle.dom_model.specs.Forest.{IsWithin, depth_of};
ghost use Rattle.dom_model.specs.Contents.{words_length};
ghost use Rattle.dom_model.specs.Document.{node_count, char_count, page_depth};
ghost use Rattle.dom_model.specs.TreeOrder.{total_from, total_after};
ghost use Rattle.node_arena.specs.Held.{Holds};
ghost use Rattle.node_arena.specs.Walk.{IsPlace, Goes, Stops};

use crate::{Arena, Content, NodeRef};

// A node of the document, and how deep it is.
#[derive(Clone, Copy)]
pub(crate) struct Place {
    node: NodeRef,
    depth: u32,
}

impl Arena {
    fn document_place(&self) -> Place
        ensures place { IsPlace self.now result }
        ensures label { result.node.label ≡ 0 }
        ensures depth { result.depth ≡ 0 }
    {
        self.valid();
        Place {
            node: self.document(),
            depth: 0,
        }
    }

    // The first place in tree order that is not in the tree of a node.
    fn after(&self, place: Place) -> Option<Place>
        requires { IsPlace self.now place }
        ensures found { IfSome result (λ next. IsPlace self.now next
            × ((w : ℕ → Content → ℕ) → total_after w self.now.trees place.node.label
            ≡ total_from w self.now.trees next.node.label)) }
        ensures none { (result ≡ None) → (w : ℕ → Content → ℕ)
            → total_after w self.now.trees place.node.label
            ≡ total_after w self.now.trees 0 }
    {
        self.valid();
        let mut at = place;
        while let Some(parent) = self.parent(at.node) {
            if let Some(next) = self.next(at.node) {
                return Some(Place {
                    node: next,
                    depth: at.depth,
                });
            }
            at = Place {
                node: parent,
                depth: at.depth - 1,
            };
        }
        None
    }

    // The next place in tree order.
    fn following(&self, place: Place) -> Option<Place>
        requires { IsPlace self.now place }
        ensures found { IfSome result (Goes self.now place) }
        ensures none { (result ≡ None) → Stops self.now place }
    {
        self.valid();
        match self.first_child(place.node) {
            Some(child) => Some(Place {
                node: child,
                depth: place.depth + 1,
            }),
            None => self.after(place),
        }
    }

    /// How many nodes the document has, itself among them. The loose trees don't count. It walks
    /// the document.
    pub fn node_count(&self) -> u32
        ensures { result ≡ node_count self.now.trees }
    {
        self.valid();
        let mut at = self.document_place();
        let mut count = 1;
        while let Some(next) = self.following(at) {
            at = next;
            count += 1;
        }
        count
    }

    /// How many characters the Words of the document have. It walks the document.
    pub fn char_count(&self) -> u64
        ensures { result ≡ char_count self.now.trees }
    {
        self.valid();
        let mut at = self.document_place();
        let mut count = words_length(self.content(at.node));
        while let Some(next) = self.following(at) {
            at = next;
            count += words_length(self.content(at.node));
        }
        count
    }

    /// How deep the deepest node of the document is. It walks the document.
    pub fn page_depth(&self) -> u32
        ensures { result ≡ page_depth self.now.trees }
    {
        self.valid();
        let mut at = self.document_place();
        let mut deepest: u32 = 0;
        while let Some(next) = self.following(at) {
            at = next;
            deepest = deepest.max(at.depth);
        }
        deepest
    }
}

// How many characters a Text node has.
fn words_length(content: &Content) -> u64
    ensures { result ≡ words_length content.now }
{
    match content {
        Content::Words(chars) => chars.len() as u64,
        _ => 0,
    }
}
