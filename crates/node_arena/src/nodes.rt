//! Nodes that can be read. Tests of nodes are written once, over a bound `N: Nodes`.

ghost use Rattle.std.specs.Prelude.{◌≡◌, ℕ, ◌+◌, ◌*◌, ◌↔◌, IsTrue, IfSome, Some, None};
ghost use Rattle.dom_model.specs.Forest.{parent_of, first_of, last_of, prev_of, next_of, content_of, count_of, IsWithin};
ghost use Rattle.dom_model.specs.Contents.{length_of};
ghost use Rattle.dom_model.specs.Places.{index_of, first_of_two};
ghost use Rattle.dom_model.specs.Document.{node_count, char_count};
ghost use Rattle.dom_model.specs.Editing as editing;
ghost use Rattle.node_arena.specs.Kinds.{kind_of};
ghost use Rattle.node_arena.specs.Reads.{IsValid, Names};

use crate::{Arena, Content, Kind, NodeRef};

/// The nodes of a document and of loose trees, to be read.
pub trait Nodes {
    ghost use Rattle.dom_model.specs.declared.Content.{Content};
    ghost use Rattle.dom_model.specs.Forest.{Forest};
    ghost use Rattle.node_arena.specs.declared.NodeRef.{NodeRef};

    // the nodes, which references name one, and the label that the next node gets
    ghost trees: { Self → Forest Content };

    ghost holds: { Self → NodeRef → Type 0 };

    ghost next_label: { Self → ℕ };

    /// What holds of all of them, for proofs. It does nothing.
    fn valid(&self)
        ensures { IsValid (holds self.now) (trees self.now) (next_label self.now) };

    /// The label that the next node gets.
    fn next_label(&self) -> u32
        ensures { result ≡ next_label self.now };

    /// The document.
    fn document(&self) -> NodeRef
        ensures label { result.label ≡ 0 }
        ensures held { holds self.now result };

    /// The node of a label, if there is one.
    fn find(&self, label: u32) -> Option<NodeRef>
        ensures found { IfSome result (λ r. (r.label ≡ label) × holds self.now r) }
        ensures absent { (result ≡ None) ↔ (count_of (trees self.now) label ≡ 0) };

    /// What a node is, with its name and attributes or its characters.
    fn content(&self, node: NodeRef) -> &Content
        requires { holds self.now node }
        ensures { content_of (trees self.now) node.label ≡ Some result.now };

    /// What a node is.
    fn kind(&self, node: NodeRef) -> Kind
        requires { holds self.now node }
        ensures { kind_of (trees self.now) node.label ≡ Some result };

    /// The parent of a node.
    fn parent(&self, node: NodeRef) -> Option<NodeRef>
        requires { holds self.now node }
        ensures { Names (holds self.now) result (parent_of (trees self.now) node.label) };

    /// The first child of a node.
    fn first_child(&self, node: NodeRef) -> Option<NodeRef>
        requires { holds self.now node }
        ensures { Names (holds self.now) result (first_of (trees self.now) node.label) };

    /// The last child of a node.
    fn last_child(&self, node: NodeRef) -> Option<NodeRef>
        requires { holds self.now node }
        ensures { Names (holds self.now) result (last_of (trees self.now) node.label) };

    /// The sibling before a node.
    fn prev(&self, node: NodeRef) -> Option<NodeRef>
        requires { holds self.now node }
        ensures { Names (holds self.now) result (prev_of (trees self.now) node.label) };

    /// The sibling after a node.
    fn next(&self, node: NodeRef) -> Option<NodeRef>
        requires { holds self.now node }
        ensures { Names (holds self.now) result (next_of (trees self.now) node.label) };

    /// How many siblings stand before a node.
    fn index(&self, node: NodeRef) -> u32
        requires { holds self.now node }
        ensures { result ≡ index_of (trees self.now) node.label };

    /// The length of a node: the count of its characters for Words and a Remark, else that of its
    /// children.
    fn length(&self, node: NodeRef) -> u32
        requires { holds self.now node }
        ensures { result ≡ length_of (trees self.now) node.label };

    /// Whether a node is `top` or stands below it.
    fn is_within(&self, top: NodeRef, node: NodeRef) -> bool
        requires top_held { holds self.now top }
        requires node_held { holds self.now node }
        ensures { IsTrue result ↔ IsWithin (trees self.now) top.label node.label };

    /// Of two nodes the one that comes first in tree order; `None` where they are in different
    /// trees.
    fn before(&self, a: NodeRef, b: NodeRef) -> Option<NodeRef>
        requires first_held { holds self.now a }
        requires second_held { holds self.now b }
        ensures { Names (holds self.now) result (first_of_two (trees self.now) a.label b.label) };

    /// Whether a node is an editing host.
    fn is_host(&self, node: NodeRef) -> bool
        requires { holds self.now node }
        ensures { result ≡ editing.is_host (trees self.now) node.label };

    /// Whether a node is editable with `host` as its editing host.
    fn is_editable(&self, host: NodeRef, node: NodeRef) -> bool
        requires host_held { holds self.now host }
        requires node_held { holds self.now node }
        ensures { result ≡ editing.is_editable (trees self.now) host.label node.label };

    /// How many nodes the document has.
    fn node_count(&self) -> u32
        ensures { result ≡ node_count (trees self.now) };

    /// How many characters the Words of the document have.
    fn char_count(&self) -> u64
        ensures { result ≡ char_count (trees self.now) };
}

impl Nodes for Arena {
    ghost use Rattle.node_arena.specs.Held.{Holds};

    ghost trees = { λ s. s.trees };

    ghost holds = { λ s r. Holds s r };

    ghost next_label = { λ s. s.next };

    fn valid(&self) {
        Arena::valid(self)
    }

    fn next_label(&self) -> u32 {
        Arena::next_label(self)
    }

    fn document(&self) -> NodeRef {
        Arena::document(self)
    }

    fn find(&self, label: u32) -> Option<NodeRef> {
        Arena::find(self, label)
    }

    fn content(&self, node: NodeRef) -> &Content {
        Arena::content(self, node)
    }

    fn kind(&self, node: NodeRef) -> Kind {
        Arena::kind(self, node)
    }

    fn parent(&self, node: NodeRef) -> Option<NodeRef> {
        Arena::parent(self, node)
    }

    fn first_child(&self, node: NodeRef) -> Option<NodeRef> {
        Arena::first_child(self, node)
    }

    fn last_child(&self, node: NodeRef) -> Option<NodeRef> {
        Arena::last_child(self, node)
    }

    fn prev(&self, node: NodeRef) -> Option<NodeRef> {
        Arena::prev(self, node)
    }

    fn next(&self, node: NodeRef) -> Option<NodeRef> {
        Arena::next(self, node)
    }

    fn index(&self, node: NodeRef) -> u32 {
        Arena::index(self, node)
    }

    fn length(&self, node: NodeRef) -> u32 {
        Arena::length(self, node)
    }

    fn is_within(&self, top: NodeRef, node: NodeRef) -> bool {
        Arena::is_within(self, top, node)
    }

    fn before(&self, a: NodeRef, b: NodeRef) -> Option<NodeRef> {
        Arena::before(self, a, b)
    }

    fn is_host(&self, node: NodeRef) -> bool {
        Arena::is_host(self, node)
    }

    fn is_editable(&self, host: NodeRef, node: NodeRef) -> bool {
        Arena::is_editable(self, host, node)
    }

    fn node_count(&self) -> u32 {
        Arena::node_count(self)
    }

    fn char_count(&self) -> u64 {
        Arena::char_count(self)
    }
}
