//! Changes of the tree that make no node.

ghost use Rattle.std.specs.Prelude.{◌≡◌, ◌≢◌, ℕ, ◌+◌, ◌≤◌, ◌<◌, ◌^◌, Some, None, true, false, length, [], unwrap_or, IsSome, IfSome, nat_le, OnOk, OnErr};
ghost use Rattle.std.specs.Option.{option_map_or, option_and_then};
ghost use Rattle.slab.specs.Slab.{get};
ghost use Rattle.dom_model.specs.Forest.{count_of, parent_of, first_of, link, unlink};
ghost use Rattle.dom_model.specs.Contents.{is_element, has_chars, chars_in, attributes_in, chars_of, attributes_of, is_element_at, has_chars_at, with_chars, with_attributes};
ghost use Rattle.dom_model.specs.Revised.{revised};
ghost use Rattle.dom_model.specs.Room.{spliced, CanSplice};
ghost use Rattle.dom_model.specs.Pruned.{IsWhole};
ghost use Rattle.dom_model.specs.ArenaState.{CanLink};
ghost use Rattle.node_arena.specs.Change.{change, with_content, chars_stored};
ghost use Rattle.node_arena.specs.Held.{Holds, Drops, DropsTree, DropsMade, label};
ghost use Rattle.node_arena.specs.Made.{has_label, kept_but, kept_below};
ghost use Rattle.node_arena.specs.Sound.{IsIndexed};

use crate::links::{link_in, take_in};
use crate::{Arena, Attributes, Chars, Content, Node, NodeRef};
use slab::Slab;
use std::alloc::AllocError;
use std::marker::Brand;
use std::mem::swap;
use std::sync::ledger::{Blank, Ledger};
use step_count::Steps;

impl Arena {
    /// Puts a loose tree under a parent, before one of its children or at the end: DOM's insert.
    /// Each slot that it touches is a step.
    pub fn link<L: Ledger>(
        &mut self,
        parent: NodeRef,
        before: Option<NodeRef>,
        node: NodeRef,
        steps: &mut Steps<L>,
    )
        requires parent_held { Holds self.old parent }
        requires before_held { IfSome before (λ r. Holds self.old r) }
        requires node_held { Holds self.old node }
        requires can { CanLink self.old.trees parent.label (label before) node.label }
        ensures linked { self.new ≡ record self.old {
          trees = link self.old.trees parent.label (label before) node.label;
        } }
        ensures steps { steps.new ≤ steps.old + 8 }
    {
        link_in(&mut self.nodes, parent, before, node, steps);
    }

    /// Makes the tree of a node loose: DOM's remove. Each slot that it touches is a step.
    pub fn unlink<L: Ledger>(&mut self, node: NodeRef, steps: &mut Steps<L>)
        requires held { Holds self.old node }
        requires child { IsSome (parent_of self.old.trees node.label) }
        ensures unlinked { self.new ≡ record self.old { trees = unlink self.old.trees node.label } }
        ensures steps { steps.new ≤ steps.old + 8 }
    {
        steps.tick();
        let stored = self.node(node);
        let parent = stored.parent.unwrap();
        let prior = stored.prev;
        let after = stored.next;
        take_in(&mut self.nodes, parent, prior, after, node, steps);
    }

    /// Exchanges the characters of Words or a Remark.
    pub fn swap_words(&mut self, node: NodeRef, words: &mut Chars)
        requires held { Holds self.old node }
        requires chars { has_chars_at self.old.trees node.label ≡ true }
        requires short { length words.old < 2 ^ 32 }
        ensures state { self.new ≡ record self.old {
          trees = revised self.old.trees node.label (with_chars words.old);
        } }
        ensures words { chars_of self.old.trees node.label ≡ Some words.new }
    {
        swap_chars_at(&mut self.nodes, node.slot, words);
    }

    /// Replaces `count` characters of Words or a Remark from the offset `at` on, in place.
    pub fn splice_words(&mut self, node: NodeRef, at: usize, count: usize, put: &[char])
        requires held { Holds self.old node }
        requires chars { has_chars_at self.old.trees node.label ≡ true }
        requires can { CanSplice (unwrap_or (chars_of self.old.trees node.label) []) at count
            put.now }
        ensures { self.new ≡ record self.old {
          trees = revised self.old.trees node.label (with_chars
              (spliced (unwrap_or (chars_of self.old.trees node.label) []) at count put.now));
        } }
    {
        splice_chars_at(&mut self.nodes, node.slot, at, count, put);
    }

    /// Exchanges the attributes of an element.
    pub fn swap_attributes(&mut self, node: NodeRef, list: &mut Attributes)
        requires held { Holds self.old node }
        requires element { is_element_at self.old.trees node.label ≡ true }
        ensures state { self.new ≡ record self.old {
          trees = revised self.old.trees node.label (with_attributes list.old);
        } }
        ensures list { attributes_of self.old.trees node.label ≡ Some list.new }
    {
        list.valid();
        swap_attributes_at(&mut self.nodes, node.slot, list);
    }

    // Gives up a loose node without children.
    fn drop_leaf(&mut self, node: NodeRef)
        requires held { Holds self.old node }
        requires inner { 0 < node.label }
        requires loose { parent_of self.old.trees node.label ≡ None }
        requires leaf { first_of self.old.trees node.label ≡ None }
        ensures { Drops self.old self.new node }
    {
        self.nodes.remove(node.slot as usize);
    }

    // Gives up a child without children.
    fn drop_child<L: Ledger>(&mut self, node: NodeRef, steps: &mut Steps<L>)
        requires held { Holds self.old node }
        requires child { IsSome (parent_of self.old.trees node.label) }
        requires leaf { first_of self.old.trees node.label ≡ None }
        ensures { Drops self.old self.new node }
    {
        self.valid();
        self.unlink(node, steps);
        self.drop_leaf(node);
    }

    // Gives up a loose tree leaf by leaf.
    fn drop_leaves<L: Ledger>(&mut self, top: NodeRef, blank: Blank)
        requires name { blank.name ≡ L.name }
        requires parts { blank.parts ≡ L.parts }
        requires some { 0 < blank.parts }
        requires held { Holds self.old top }
        requires inner { 0 < top.label }
        requires loose { parent_of self.old.trees top.label ≡ None }
        ensures { DropsTree self.old self.new top }
    {
        self.valid();
        let mut steps = Steps::<L>::open(blank);
        let mut at = top;
        loop {
            self.valid();
            if let Some(child) = self.first_child(at) {
                at = child;
                continue;
            }
            match self.parent(at) {
                None => break,
                Some(parent) => {
                    self.drop_child(at, &mut steps);
                    at = parent;
                }
            }
        }
        self.drop_leaf(at);
        self.valid();
    }

    /// Gives up a loose tree. Its labels stay spent.
    pub fn drop_tree(&mut self, node: NodeRef)
        requires held { Holds self.old node }
        requires inner { 0 < node.label }
        requires loose { parent_of self.old.trees node.label ≡ None }
        ensures { DropsTree self.old self.new node }
    {
        self.drop_leaves::<Brand>(node, Blank::new(1));
    }

    /// Gives up every node of this label or a greater one: whole loose trees. Their labels stay
    /// spent. It looks at the labels from this one on, and at no others.
    pub fn drop_made(&mut self, first: u32)
        requires inner { 0 < first }
        requires whole { IsWhole (nat_le first) self.old.trees }
        ensures drops { DropsMade self.old self.new first }
        ensures spent { (l : ℕ) → 0 < count_of self.new.trees l → l < first }
    {
        give_up_from(&mut self.nodes, self.index.as_slice(), first, self.next);
    }

    /// Sets the next label back, so that the labels from it on are drawn again.
    pub fn rewind(&mut self, label: u32)
        requires low { label ≤ self.old.next }
        requires spent { (l : ℕ) → 0 < count_of self.old.trees l → l < label }
        ensures { self.new ≡ record self.old { next = label } }
    {
        self.index.truncate(label as usize);
        self.next = label;
    }

    /// Sets the next label on. The labels before it that were not drawn yet never name a node. It
    /// takes memory for the place of each of them; without that nothing changes.
    pub fn skip_to(&mut self, label: u32) -> Result<(), AllocError>
        requires low { self.old.next ≤ label }
        requires high { label ≤ self.old.cap }
        ensures ok { OnOk result (self.new ≡ record self.old { next = label }) }
        ensures err { OnErr result (self.new ≡ self.old) }
    {
        self.index.resize(label as usize, 0)?;
        self.next = label;
        Ok(())
    }
}

// Whether a slot has the node of this label.
fn has_label(nodes: &Slab<Node>, slot: usize, label: u32) -> bool
    ensures { result ≡ has_label label (get nodes.now slot) }
{
    match nodes.get(slot) {
        Some(node) => node.label == label,
        None => false,
    }
}

// Empties a slot, if it has the node of this label.
fn give_up(nodes: &mut Slab<Node>, slot: usize, label: u32)
    ensures at { get nodes.new slot ≡ kept_but label (get nodes.old slot) }
    ensures others { (j : ℕ) → j ≢ slot → get nodes.new j ≡ get nodes.old j }
{
    if has_label(nodes, slot, label) {
        nodes.remove(slot);
    }
}

// Empties the slots that have a node of this label or a greater one. The index tells the slot of
// each label.
fn give_up_from(nodes: &mut Slab<Node>, index: &[u32], first: u32, next: u32)
    requires long { length index.now ≡ next }
    requires indexed { IsIndexed nodes.old.slots index.now }
    ensures { (j : ℕ) → get nodes.new j ≡ kept_below first (get nodes.old j) }
{
    for label in first..next {
        give_up(nodes, index[label as usize] as usize, label);
    }
}

fn swap_chars(content: &mut Content, words: &mut Chars)
    requires { has_chars content.old ≡ true }
    ensures content { content.new ≡ with_chars words.old content.old }
    ensures words { chars_in content.old ≡ Some words.new }
{
    match content {
        Content::Words(chars) => swap(chars, words),
        Content::Remark(chars) => swap(chars, words),
        _ => unreachable!(),
    }
}

fn swap_chars_at(nodes: &mut Slab<Node>, slot: u32, words: &mut Chars)
    requires { option_map_or (λ n. has_chars n.content) (get nodes.old slot) false ≡ true }
    ensures nodes { nodes.new ≡ record nodes.old {
      slots = change nodes.old.slots slot (with_content (with_chars words.old));
    } }
    ensures words { option_and_then (λ n. chars_in n.content) (get nodes.old slot)
        ≡ Some words.new }
{
    swap_chars(&mut nodes[slot as usize].content, words);
}

fn splice_chars(content: &mut Content, at: usize, count: usize, put: &[char])
    requires chars { has_chars content.old ≡ true }
    requires can { CanSplice (unwrap_or (chars_in content.old) []) at count put.now }
    ensures { content.new ≡ with_chars
        (spliced (unwrap_or (chars_in content.old) []) at count put.now) content.old }
{
    match content {
        Content::Words(chars) => chars.splice(at, count, put),
        Content::Remark(chars) => chars.splice(at, count, put),
        _ => unreachable!(),
    }
}

fn splice_chars_at(nodes: &mut Slab<Node>, slot: u32, at: usize, count: usize, put: &[char])
    requires chars { option_map_or (λ n. has_chars n.content) (get nodes.old slot) false ≡ true }
    requires can { CanSplice (chars_stored (get nodes.old slot)) at count put.now }
    ensures { nodes.new ≡ record nodes.old {
      slots = change nodes.old.slots slot (with_content (with_chars
          (spliced (chars_stored (get nodes.old slot)) at count put.now)));
    } }
{
    splice_chars(&mut nodes[slot as usize].content, at, count, put);
}

fn swap_list(content: &mut Content, list: &mut Attributes)
    requires { is_element content.old ≡ true }
    ensures content { content.new ≡ with_attributes list.old content.old }
    ensures list { attributes_in content.old ≡ Some list.new }
{
    match content {
        Content::Element { attributes, .. } => swap(attributes, list),
        _ => unreachable!(),
    }
}

fn swap_attributes_at(nodes: &mut Slab<Node>, slot: u32, list: &mut Attributes)
    requires { option_map_or (λ n. is_element n.content) (get nodes.old slot) false ≡ true }
    ensures nodes { nodes.new ≡ record nodes.old {
      slots = change nodes.old.slots slot (with_content (with_attributes list.old));
    } }
    ensures list { option_and_then (λ n. attributes_in n.content) (get nodes.old slot)
        ≡ Some list.new }
{
    swap_list(&mut nodes[slot as usize].content, list);
}
