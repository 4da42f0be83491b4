//! What is read of a document under edits.

ghost use Rattle.std.specs.Prelude.{◌≡◌, ◌≤◌, ℕ, ◌↔◌, None, Some, IsTrue, IfSome, nat_lt, true};
ghost use Rattle.edit_model.specs.DomModel.Contents.{is_element_at, has_chars_at, name_of, attributes_of, chars_of, length_of};
ghost use Rattle.edit_model.specs.DomModel.Document.{node_count, char_count, page_depth};
ghost use Rattle.edit_model.specs.DomModel.Forest.{content_of, count_of, tree_of, parent_of, first_of, last_of, prev_of, next_of};
ghost use Rattle.edit_model.specs.DomModel.Places.{index_of};
ghost use Rattle.edit_model.specs.Gives.{label_of};
ghost use Rattle.edit_doc.specs.Whole.{IsDoc, IsClosed};
ghost use Rattle.edit_doc.specs.Shows.{Shows};
ghost use Rattle.edit_doc.specs.Kept.{HoldsOnlyNeeded};
ghost use Rattle.edit_doc.specs.Onward.{HasLedOnward};
ghost use Rattle.edit_doc.specs.Held.{Holds, Finds, IfHeld, IsPart};
ghost use Rattle.edit_model.specs.NodeArena.Kinds.{kind_of};
ghost use Rattle.edit_model.specs.PointOrder.PointOrder.{is_before, is_placed};

use crate::{Arena, Attributes, Chars, Counts, Doc, Kind, Name, NodeRef, Point};
use edit_model::arena::Content;
use edit_model::boundary::{comes_before, root_of};

impl Doc {
    /// What holds of every document under edits, for proofs. It does nothing.
    pub fn valid(&self)
        ensures { IsDoc self.now }
    {
        self.tree.nodes.arena.valid();
        self.history.valid();
    }

    /// Which nodes are held outside commands, for proofs: each is in the document, or in a loose
    /// tree with a node that a change of an entry of the history names. It does nothing.
    pub fn kept_nodes(&self)
        requires closed { IsClosed self.now }
        ensures { HoldsOnlyNeeded self.now }
    {
        self.tree.nodes.arena.valid();
        self.tree.nodes.arena.slotted();
    }

    /// How the entries before the cursor led from the page to the document, for proofs: the edits
    /// of each fit the document before it, beside the nodes that its commands made, and give the
    /// document after it. It does nothing.
    pub fn led_onward(&self)
        requires closed { IsClosed self.now }
        ensures { HasLedOnward self.now }
    {
        self.tree.nodes.arena.valid();
    }

    // The nodes, with loose trees of kept entries beside those of the state.
    pub(crate) fn nodes(&self) -> &Arena
        ensures { Shows self.now result.now }
    {
        self.tree.nodes.arena.valid();
        &self.tree.nodes.arena
    }

    /// The nodes: those of the state, and loose trees of kept entries beside them, which no
    /// definition sees.
    pub fn arena(&self) -> &Arena
        ensures trees { IsPart self.now.state.trees result.now.trees }
        ensures document { tree_of result.now.trees 0 ≡ tree_of self.now.state.trees 0 }
        ensures held { result.now.held ≡ self.now.held }
        ensures next { result.now.next ≡ self.now.state.next }
        ensures cap { result.now.cap ≡ self.now.state.cap }
    {
        self.nodes()
    }

    /// The affected editing host of the running command.
    pub fn host(&self) -> Option<NodeRef>
        ensures { Finds self.now result self.now.state.host }
    {
        self.command.host
    }

    /// The numbers of the document, which are kept.
    pub fn counts(&self) -> Counts
        ensures nodes { result.nodes ≡ node_count self.now.state.trees }
        ensures chars { result.chars ≡ char_count self.now.state.trees }
        ensures depth { page_depth self.now.state.trees ≤ result.depth }
    {
        self.tree.nodes.arena.valid();
        self.tree.nodes.counts
    }

    /// How deep the deepest node of the document is. It walks the document.
    pub fn page_depth(&self) -> u32
        ensures { result ≡ page_depth self.now.state.trees }
    {
        self.nodes().page_depth()
    }

    /// Whether the deepest node of the document is deeper than this. It walks the document only
    /// where the kept bound on the depth is greater.
    pub fn is_deeper_than(&self, limit: u32) -> bool
        ensures { result ≡ nat_lt limit (page_depth self.now.state.trees) }
    {
        self.counts().depth > limit && self.page_depth() > limit
    }

    /// Whether a point of the document comes before another one.
    pub fn is_before(&self, first: Point, second: Point) -> bool
        requires first { is_placed self.now.state.trees first ≡ true }
        requires second { is_placed self.now.state.trees second ≡ true }
        ensures { result ≡ is_before self.now.state.trees first second }
    {
        comes_before(self.nodes(), first, second)
    }

    /// The root of the document.
    pub fn document(&self) -> NodeRef
        ensures label { result.label ≡ 0 }
        ensures held { Holds self.now result }
    {
        self.nodes().document()
    }

    /// The node of a label, in the document or in a loose tree of the running command.
    pub fn find(&self, label: u32) -> Option<NodeRef>
        ensures found { IfSome result (λ r. (r.label ≡ label) × Holds self.now r) }
        ensures absent { (result ≡ None) ↔ (count_of self.now.state.trees label ≡ 0) }
    {
        self.tree.nodes.arena.valid();
        let node = self.tree.nodes.arena.find(label)?;
        let root = root_of(&self.tree.nodes.arena, node);
        if root.label == 0 || self.command.has_newly_detached(root) {
            Some(node)
        } else {
            None
        }
    }

    /// The parent of a node; the Document and the root of a loose tree have none.
    pub fn parent(&self, node: NodeRef) -> Option<NodeRef>
        requires { Holds self.now node }
        ensures { Finds self.now result (parent_of self.now.state.trees node.label) }
    {
        self.nodes().parent(node)
    }

    /// The first child of a node.
    pub fn first_child(&self, node: NodeRef) -> Option<NodeRef>
        requires { Holds self.now node }
        ensures { Finds self.now result (first_of self.now.state.trees node.label) }
    {
        self.nodes().first_child(node)
    }

    /// The last child of a node.
    pub fn last_child(&self, node: NodeRef) -> Option<NodeRef>
        requires { Holds self.now node }
        ensures { Finds self.now result (last_of self.now.state.trees node.label) }
    {
        self.nodes().last_child(node)
    }

    /// The sibling just before a node.
    pub fn prev(&self, node: NodeRef) -> Option<NodeRef>
        requires { Holds self.now node }
        ensures { Finds self.now result (prev_of self.now.state.trees node.label) }
    {
        self.nodes().prev(node)
    }

    /// The sibling just after a node.
    pub fn next(&self, node: NodeRef) -> Option<NodeRef>
        requires { Holds self.now node }
        ensures { Finds self.now result (next_of self.now.state.trees node.label) }
    {
        self.nodes().next(node)
    }

    /// How many siblings stand before a node.
    pub fn index(&self, node: NodeRef) -> u32
        requires { Holds self.now node }
        ensures { result ≡ index_of self.now.state.trees node.label }
    {
        self.nodes().index(node)
    }

    /// The length of a node: the count of its characters for a text or a comment, else that of its
    /// children.
    pub fn length(&self, node: NodeRef) -> u32
        requires { Holds self.now node }
        ensures { result ≡ length_of self.now.state.trees node.label }
    {
        self.nodes().length(node)
    }

    /// What a node is.
    pub fn kind(&self, node: NodeRef) -> Kind
        requires { Holds self.now node }
        ensures { kind_of self.now.state.trees node.label ≡ Some result }
    {
        self.nodes().kind(node)
    }

    /// What a node is, with its name and attributes, or its characters.
    pub fn content(&self, node: NodeRef) -> &Content
        requires { Holds self.now node }
        ensures { content_of self.now.state.trees node.label ≡ Some result.now }
    {
        self.nodes().content(node)
    }

    /// The name of an element.
    pub fn name(&self, node: NodeRef) -> &Name
        requires held { Holds self.now node }
        requires element { is_element_at self.now.state.trees node.label ≡ true }
        ensures { name_of self.now.state.trees node.label ≡ Some result.now }
    {
        self.nodes().name(node)
    }

    /// The attributes of an element.
    pub fn attributes(&self, node: NodeRef) -> &Attributes
        requires held { Holds self.now node }
        requires element { is_element_at self.now.state.trees node.label ≡ true }
        ensures { attributes_of self.now.state.trees node.label ≡ Some result.now }
    {
        self.nodes().attributes(node)
    }

    /// The characters of a text or a comment.
    pub fn words(&self, node: NodeRef) -> &Chars
        requires held { Holds self.now node }
        requires chars { has_chars_at self.now.state.trees node.label ≡ true }
        ensures { chars_of self.now.state.trees node.label ≡ Some result.now }
    {
        self.nodes().words(node)
    }
}
