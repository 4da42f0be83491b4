//! A document under edits as nodes that can be read.

ghost use Rattle.std.specs.Prelude.{◌≡◌, ◌↔◌, IsTrue, IfSome, Some, None};

use crate::{Doc, Kind, NodeRef};
use edit_model::arena::{Content, Nodes};

impl Nodes for Doc {
    ghost use Rattle.edit_doc.specs.Held.{Holds};

    ghost trees = { λ d. d.state.trees };

    ghost holds = { λ d r. Holds d r };

    ghost next_label = { λ d. d.state.next };

    fn valid(&self) {
        self.nodes().valid();
        Doc::valid(self)
    }

    fn next_label(&self) -> u32 {
        self.nodes().next_label()
    }

    fn document(&self) -> NodeRef {
        Doc::document(self)
    }

    fn find(&self, label: u32) -> Option<NodeRef> {
        Doc::find(self, label)
    }

    fn content(&self, node: NodeRef) -> &Content {
        Doc::content(self, node)
    }

    fn kind(&self, node: NodeRef) -> Kind {
        Doc::kind(self, node)
    }

    #[tactic(auto, using(crate::proofs::Shown::names_of))]
    fn parent(&self, node: NodeRef) -> Option<NodeRef> {
        Doc::parent(self, node)
    }

    #[tactic(auto, using(crate::proofs::Shown::names_of))]
    fn first_child(&self, node: NodeRef) -> Option<NodeRef> {
        Doc::first_child(self, node)
    }

    #[tactic(auto, using(crate::proofs::Shown::names_of))]
    fn last_child(&self, node: NodeRef) -> Option<NodeRef> {
        Doc::last_child(self, node)
    }

    #[tactic(auto, using(crate::proofs::Shown::names_of))]
    fn prev(&self, node: NodeRef) -> Option<NodeRef> {
        Doc::prev(self, node)
    }

    #[tactic(auto, using(crate::proofs::Shown::names_of))]
    fn next(&self, node: NodeRef) -> Option<NodeRef> {
        Doc::next(self, node)
    }

    fn index(&self, node: NodeRef) -> u32 {
        Doc::index(self, node)
    }

    fn length(&self, node: NodeRef) -> u32 {
        Doc::length(self, node)
    }

    fn is_within(&self, top: NodeRef, node: NodeRef) -> bool {
        self.nodes().is_within(top, node)
    }

    fn before(&self, a: NodeRef, b: NodeRef) -> Option<NodeRef> {
        let first = self.nodes().before(a, b);
        first
    }

    fn is_host(&self, node: NodeRef) -> bool {
        self.nodes().is_host(node)
    }

    fn is_editable(&self, host: NodeRef, node: NodeRef) -> bool {
        self.nodes().is_editable(host, node)
    }

    fn node_count(&self) -> u32 {
        self.counts().nodes
    }

    fn char_count(&self) -> u64 {
        self.counts().chars
    }
}
