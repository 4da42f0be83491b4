//! Look-ups of a node and its neighbours.

ghost use Rattle.std.specs.Prelude.{◌≡◌, IsTrue, ◌↔◌, Some, true};
ghost use Rattle.dom_model.specs.Forest.{parent_of, first_of, last_of, prev_of, next_of, content_of};
ghost use Rattle.dom_model.specs.Contents.{name_in, attributes_in, chars_in, is_element, has_chars, name_of, attributes_of, chars_of, is_element_at, is_parent_at, has_chars_at};
ghost use Rattle.node_arena.specs.Held.{Holds, NamesHeld, Shows};
ghost use Rattle.node_arena.specs.Kinds.{kind_in, kind_of, is_element_kind, is_parent_kind, has_chars_kind};

use crate::{Arena, Attributes, Chars, Content, Kind, Name, Node, NodeRef};

impl Arena {
    /// The document.
    pub fn document(&self) -> NodeRef
        ensures label { result.label ≡ 0 }
        ensures held { Holds self.now result }
    {
        let _ = &self.nodes;
        NodeRef { slot: 0, label: 0 }
    }

    /// The label that the next node gets.
    pub fn next_label(&self) -> u32
        ensures { result ≡ self.now.next }
    {
        self.next
    }

    /// The label that no node gets, nor any greater one.
    pub fn cap(&self) -> u32
        ensures { result ≡ self.now.cap }
    {
        self.cap
    }

    /// Whether a node is there: its slot has a node of its label.
    pub fn holds(&self, node: NodeRef) -> bool
        ensures { IsTrue result ↔ Holds self.now node }
    {
        match self.nodes.get(node.slot as usize) {
            Some(stored) => stored.label == node.label,
            None => false,
        }
    }

    // The stored node.
    pub(crate) fn node(&self, node: NodeRef) -> &Node
        requires { Holds self.now node }
        ensures { Shows self.now node.label result.now }
    {
        &self.nodes[node.slot as usize]
    }

    /// What a node is, with its name and attributes or its characters.
    pub fn content(&self, node: NodeRef) -> &Content
        requires { Holds self.now node }
        ensures { content_of self.now.trees node.label ≡ Some result.now }
    {
        &self.node(node).content
    }

    /// What a node is.
    pub fn kind(&self, node: NodeRef) -> Kind
        requires { Holds self.now node }
        ensures kind { kind_of self.now.trees node.label ≡ Some result }
        ensures element { is_element_at self.now.trees node.label ≡ is_element_kind result }
        ensures parent { is_parent_at self.now.trees node.label ≡ is_parent_kind result }
        ensures chars { has_chars_at self.now.trees node.label ≡ has_chars_kind result }
    {
        kind_of_content(self.content(node))
    }

    /// The name of an element.
    pub fn name(&self, node: NodeRef) -> &Name
        requires held { Holds self.now node }
        requires element { is_element_at self.now.trees node.label ≡ true }
        ensures { name_of self.now.trees node.label ≡ Some result.now }
    {
        name_in_content(self.content(node))
    }

    /// The attributes of an element.
    pub fn attributes(&self, node: NodeRef) -> &Attributes
        requires held { Holds self.now node }
        requires element { is_element_at self.now.trees node.label ≡ true }
        ensures { attributes_of self.now.trees node.label ≡ Some result.now }
    {
        attributes_in_content(self.content(node))
    }

    /// The characters of Words or a Remark.
    pub fn words(&self, node: NodeRef) -> &Chars
        requires held { Holds self.now node }
        requires chars { has_chars_at self.now.trees node.label ≡ true }
        ensures { chars_of self.now.trees node.label ≡ Some result.now }
    {
        chars_in_content(self.content(node))
    }

    /// The parent of a node.
    pub fn parent(&self, node: NodeRef) -> Option<NodeRef>
        requires { Holds self.now node }
        ensures { NamesHeld self.now result (parent_of self.now.trees node.label) }
    {
        self.node(node).parent
    }

    /// The first child of a node.
    pub fn first_child(&self, node: NodeRef) -> Option<NodeRef>
        requires { Holds self.now node }
        ensures { NamesHeld self.now result (first_of self.now.trees node.label) }
    {
        self.node(node).first
    }

    /// The last child of a node.
    pub fn last_child(&self, node: NodeRef) -> Option<NodeRef>
        requires { Holds self.now node }
        ensures { NamesHeld self.now result (last_of self.now.trees node.label) }
    {
        self.node(node).last
    }

    /// The sibling before a node.
    pub fn prev(&self, node: NodeRef) -> Option<NodeRef>
        requires { Holds self.now node }
        ensures { NamesHeld self.now result (prev_of self.now.trees node.label) }
    {
        self.node(node).prev
    }

    /// The sibling after a node.
    pub fn next(&self, node: NodeRef) -> Option<NodeRef>
        requires { Holds self.now node }
        ensures { NamesHeld self.now result (next_of self.now.trees node.label) }
    {
        self.node(node).next
    }
}

fn kind_of_content(content: &Content) -> Kind
    ensures { result ≡ kind_in content.now }
{
    match content {
        Content::Document => Kind::Document,
        Content::Element { .. } => Kind::Element,
        Content::Words(_) => Kind::Words,
        Content::Remark(_) => Kind::Remark,
    }
}

fn name_in_content(content: &Content) -> &Name
    requires { is_element content.now ≡ true }
    ensures { name_in content.now ≡ Some result.now }
{
    match content {
        Content::Element { name, .. } => name,
        _ => unreachable!(),
    }
}

fn attributes_in_content(content: &Content) -> &Attributes
    requires { is_element content.now ≡ true }
    ensures { attributes_in content.now ≡ Some result.now }
{
    match content {
        Content::Element { attributes, .. } => attributes,
        _ => unreachable!(),
    }
}

fn chars_in_content(content: &Content) -> &Chars
    requires { has_chars content.now ≡ true }
    ensures { chars_in content.now ≡ Some result.now }
{
    match content {
        Content::Words(chars) => chars,
        Content::Remark(chars) => chars,
        _ => unreachable!(),
    }
}
