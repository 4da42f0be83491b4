//! The nodes of a document and of the loose trees beside it.
//!
//! A node stands in a slot of the arena with its content and with links to its parent, its first
//! and last child and both neighbours, so that each move from node to node, each link and each
//! unlink touches a fixed number of slots. A slot that became free is used again under another
//! label; a [`NodeRef`] carries both, and so an old reference is told from a new one. Contracts see
//! an arena as labelled nested lists (`dom_model`), and of slots only which node they hold.
//!
//! The names stand for these terms of the DOM standard: words are the data of a Text node, a remark
//! is a Comment node, `link` inserts a node, and `unlink` removes it. A loose tree is one whose
//! root has no parent and isn't the document.
#![tactic(auto)]

ghost use Rattle.std.specs.Prelude.{◌≡◌, ◌≢◌, ℕ, ◌+◌, ◌<◌, ◌≤◌, ◌^◌, IsTrue, ◌↔◌, Some, None, Err, IsSome, IfSome, IfOk, OnOk, OnErr, length, true};
ghost use Rattle.dom_model.specs.Forest.{count_of};
ghost use Rattle.dom_model.specs.AttributeList.{IsDistinctNames};
ghost use Rattle.dom_model.specs.Contents.{attributes_in, char_length};
ghost use Rattle.dom_model.specs.ArenaState.{ArenaState, HoldsAt, IsValid, IsSlotted};
ghost use Rattle.node_arena.specs.Held.{Holds, Makes, IsNew, leaf_node};

mod counts;
mod edits;
mod elements;
mod hosts;
mod links;
mod nodes;
mod places;
mod reads;

pub use dom_model as dom;
use dom_model::Items;
pub use dom_model::{Attribute, Attributes, Chars, Content, Name};
pub use elements::{has_name, is_break, is_image};
pub use nodes::Nodes;
use slab::Slab;
use std::alloc::{AllocError, Global};
use std::marker::Model;
pub use step_count as stepping;
use thiserror::Error;

/// Names a node: its slot, and its label, which no other node of the arena has.
#[derive(Clone, Copy, PartialEq, Eq, Debug)]
pub struct NodeRef {
    pub slot: u32,
    pub label: u32,
}

/// A list of nodes.
pub type NodeList = Items<NodeRef>;

/// What a node is.
#[derive(Clone, Copy, PartialEq, Eq, Debug)]
pub enum Kind {
    Document,
    Element,
    Words,
    Remark,
}

/// Why no node was made.
#[derive(Clone, Copy, PartialEq, Eq, Debug, Error)]
pub enum MakeFault {
    /// The next label is the cap.
    #[error("no label is left below the cap")]
    Full = 1,
    /// There is no memory for it.
    #[error("out of memory")]
    Memory = 2,
}

#[derive(Drop)]
struct Node {
    label: u32,
    content: Content,
    parent: Option<NodeRef>,
    first: Option<NodeRef>,
    last: Option<NodeRef>,
    prev: Option<NodeRef>,
    next: Option<NodeRef>,
}

/// The nodes of a document and of the loose trees beside it.
#[derive(Drop)]
pub struct Arena {
    nodes: Slab<Node>,
    // the slot of each label; that of a label whose node is gone is stale
    index: Vec<u32>,
    next: u32,
    cap: u32,
}

impl Model for Arena {
    ghost use Rattle.dom_model.specs.ArenaState.{ArenaState, state_code};

    ghost Value = { ArenaState };

    ghost coded = { state_code };

    ghost use Rattle.node_arena.specs.Nodes.{state_of};
    ghost use Rattle.node_arena.specs.Sound.{IsArena};

    ghost view = { λ a. state_of a.nodes.slots a.next a.cap };

    ghost invariant = { λ a. IsArena a.nodes.slots a.next a.cap a.index.items };
}

// A node without links.
fn leaf(label: u32, content: Content) -> Node
    ensures { result ≡ leaf_node label content }
{
    Node {
        label,
        content,
        parent: None,
        first: None,
        last: None,
        prev: None,
        next: None,
    }
}

impl Arena {
    /// An arena with the empty document, which draws labels below the cap.
    pub fn new(alloc: Global, cap: u32) -> Result<Arena, AllocError>
        requires { 0 < cap }
        ensures { IfOk result (λ a. IsNew a cap) }
    {
        let mut nodes = Slab::new(alloc);
        nodes.reserve(1)?;
        let mut index = Vec::new(alloc);
        index.push(0)?;
        nodes.insert_reserved(leaf(0, Content::Document));
        Ok(Arena {
            nodes,
            index,
            next: 1,
            cap,
        })
    }

    /// What holds of every arena, for proofs. It does nothing.
    pub fn valid(&self)
        ensures { IsValid self.now }
    {
        let _ = &self.nodes;
    }

    /// That each node stands in one slot, for proofs. It does nothing.
    pub fn slotted(&self)
        ensures { IsSlotted self.now }
    {
        let _ = &self.nodes;
    }

    // Makes a loose node.
    fn make(&mut self, content: Content) -> Result<NodeRef, MakeFault>
        requires plain { content ≢ Content.Document }
        requires short { char_length content < 2 ^ 32 }
        requires names { IfSome (attributes_in content) IsDistinctNames }
        ensures full { (self.old.next ≡ self.old.cap) ↔ (result ≡ Err MakeFault.Full) }
        ensures made { IfOk result (λ r. Makes self.old self.new r content) }
        ensures err { OnErr result (self.new ≡ self.old) }
    {
        if self.next == self.cap {
            return Err(MakeFault::Full);
        }
        let slot = self.nodes.vacant_key();
        if slot > u32::MAX as usize || self.nodes.reserve(1).is_err() {
            return Err(MakeFault::Memory);
        }
        if self.index.push(slot as u32).is_err() {
            return Err(MakeFault::Memory);
        }
        let label = self.next;
        self.nodes.insert_reserved(leaf(label, content));
        self.next += 1;
        Ok(NodeRef {
            slot: slot as u32,
            label,
        })
    }

    /// Makes a loose element. `Full` is looked at before memory.
    pub fn make_element(&mut self, name: Name, attributes: Attributes) -> Result<NodeRef, MakeFault>
        ensures full { (self.old.next ≡ self.old.cap) ↔ (result ≡ Err MakeFault.Full) }
        ensures made { IfOk result (λ r.
            Makes self.old self.new r (Content.Element name attributes)) }
        ensures err { OnErr result (self.new ≡ self.old) }
    {
        attributes.valid();
        self.make(Content::Element { name, attributes })
    }

    /// Makes a loose Text node. `Full` is looked at before memory.
    pub fn make_words(&mut self, words: Chars) -> Result<NodeRef, MakeFault>
        requires { length words < 2 ^ 32 }
        ensures full { (self.old.next ≡ self.old.cap) ↔ (result ≡ Err MakeFault.Full) }
        ensures made { IfOk result (λ r. Makes self.old self.new r (Content.Words words)) }
        ensures err { OnErr result (self.new ≡ self.old) }
    {
        self.make(Content::Words(words))
    }

    /// Makes a loose Comment node. `Full` is looked at before memory.
    pub fn make_remark(&mut self, words: Chars) -> Result<NodeRef, MakeFault>
        requires { length words < 2 ^ 32 }
        ensures full { (self.old.next ≡ self.old.cap) ↔ (result ≡ Err MakeFault.Full) }
        ensures made { IfOk result (λ r. Makes self.old self.new r (Content.Remark words)) }
        ensures err { OnErr result (self.new ≡ self.old) }
    {
        self.make(Content::Remark(words))
    }
}
