//! The place of a node: by its label, among its siblings, and below the root of its tree.

ghost use Rattle.std.specs.Prelude.{◌≡◌, ◌≢◌, ◌≤◌, min, None, IfSome, IsTrue, ◌↔◌, length, Some, nat_lt};
ghost use Rattle.dom_model.specs.Forest.{count_of, children_of, parent_of, depth_of, IsWithin};
ghost use Rattle.dom_model.specs.Contents.{length_of};
ghost use Rattle.dom_model.specs.Places.{index_of, first_of_two};
ghost use Rattle.node_arena.specs.Held.{Holds, NamesHeld};

use crate::{Arena, Content, NodeRef};

impl Arena {
    /// The node of a label, if there is one.
    pub fn find(&self, label: u32) -> Option<NodeRef>
        ensures found { IfSome result (λ r. (r.label ≡ label) × Holds self.now r) }
        ensures absent { (result ≡ None) ↔ (count_of self.now.trees label ≡ 0) }
    {
        if label >= self.next {
            return None;
        }
        let node = NodeRef {
            slot: self.index[label as usize],
            label,
        };
        if self.holds(node) { Some(node) } else { None }
    }

    /// How many siblings stand before a node.
    pub fn index(&self, node: NodeRef) -> u32
        requires { Holds self.now node }
        ensures { result ≡ index_of self.now.trees node.label }
    {
        self.valid();
        let mut at = node;
        let mut index = 0;
        while let Some(prev) = self.prev(at) {
            at = prev;
            index += 1;
        }
        index
    }

    /// The length of a node: the count of its characters for Words and a Remark, else that of its
    /// children.
    pub fn length(&self, node: NodeRef) -> u32
        requires { Holds self.now node }
        ensures { result ≡ length_of self.now.trees node.label }
    {
        self.valid();
        match self.content(node) {
            Content::Words(chars) => chars.len() as u32,
            Content::Remark(chars) => chars.len() as u32,
            _ => self.child_count(node),
        }
    }

    // How many children a node has.
    fn child_count(&self, node: NodeRef) -> u32
        requires { Holds self.now node }
        ensures { result ≡ length (children_of self.now.trees node.label) }
    {
        self.valid();
        match self.last_child(node) {
            None => 0,
            Some(last) => self.index(last) + 1,
        }
    }

    /// How far a node is below the root of its tree.
    pub fn depth(&self, node: NodeRef) -> u32
        requires { Holds self.now node }
        ensures { result ≡ depth_of self.now.trees node.label }
    {
        self.valid();
        let mut at = node;
        let mut depth = 0;
        while let Some(parent) = self.parent(at) {
            at = parent;
            depth += 1;
        }
        depth
    }

    /// Whether a node is `top` or stands below it.
    pub fn is_within(&self, top: NodeRef, node: NodeRef) -> bool
        requires top_held { Holds self.now top }
        requires node_held { Holds self.now node }
        ensures { IsTrue result ↔ IsWithin self.now.trees top.label node.label }
    {
        self.valid();
        let mut at = node;
        while at.label != top.label {
            match self.parent(at) {
                Some(parent) => at = parent,
                None => return false,
            }
        }
        true
    }

    // The node of this depth among a node and its ancestors; the node itself, where it is no
    // deeper.
    fn lifted(&self, node: NodeRef, depth: u32) -> NodeRef
        requires { Holds self.now node }
        ensures held { Holds self.now result }
        ensures above { IsWithin self.now.trees result.label node.label }
        ensures deep { depth_of self.now.trees result.label
            ≡ min (depth_of self.now.trees node.label) depth }
        ensures start { depth_of self.now.trees node.label ≤ depth → result ≡ node }
    {
        self.valid();
        let mut at = node;
        let mut left = self.depth(node);
        while left > depth {
            at = self.parent(at).unwrap();
            left -= 1;
        }
        at
    }

    // Whether the first of two children of one parent comes before the second. It goes on from both
    // at once, to the front and to the end, until one of them meets the other or an end.
    fn is_earlier_child(&self, x: NodeRef, y: NodeRef, parent: NodeRef) -> bool
        requires first_held { Holds self.now x }
        requires second_held { Holds self.now y }
        requires first_child { parent_of self.now.trees x.label ≡ Some parent.label }
        requires second_child { parent_of self.now.trees y.label ≡ Some parent.label }
        ensures { result
            ≡ nat_lt (index_of self.now.trees x.label) (index_of self.now.trees y.label) }
    {
        self.valid();
        let mut before_x = x;
        let mut before_y = y;
        let mut after_x = x;
        let mut after_y = y;
        while let Some(left_x) = self.prev(before_x) {
            let Some(left_y) = self.prev(before_y) else {
                return false;
            };
            let Some(right_x) = self.next(after_x) else {
                return false;
            };
            let Some(right_y) = self.next(after_y) else {
                return true;
            };
            if right_x.label == y.label {
                return true;
            }
            if right_y.label == x.label {
                return false;
            }
            before_x = left_x;
            before_y = left_y;
            after_x = right_x;
            after_y = right_y;
        }
        self.prev(before_y).is_some()
    }

    // The same of two nodes of one depth that are not the same.
    fn before_apart(
        &self,
        a: NodeRef,
        b: NodeRef,
        above_a: NodeRef,
        above_b: NodeRef,
    ) -> Option<NodeRef>
        requires first_held { Holds self.now a }
        requires second_held { Holds self.now b }
        requires first_above_held { Holds self.now above_a }
        requires second_above_held { Holds self.now above_b }
        requires first_above { IsWithin self.now.trees above_a.label a.label }
        requires second_above { IsWithin self.now.trees above_b.label b.label }
        requires deep { depth_of self.now.trees above_a.label
            ≡ depth_of self.now.trees above_b.label }
        requires apart { above_a.label ≢ above_b.label }
        ensures { NamesHeld self.now result (first_of_two self.now.trees a.label b.label) }
    {
        self.valid();
        let mut x = above_a;
        let mut y = above_b;
        while let Some(p) = self.parent(x) {
            let q = self.parent(y).unwrap();
            if p.label == q.label {
                return Some(if self.is_earlier_child(x, y, p) { a } else { b });
            }
            x = p;
            y = q;
        }
        None
    }

    /// Of two nodes the one that comes first in tree order; `None` where they are in different
    /// trees.
    pub fn before(&self, a: NodeRef, b: NodeRef) -> Option<NodeRef>
        requires first_held { Holds self.now a }
        requires second_held { Holds self.now b }
        ensures { NamesHeld self.now result (first_of_two self.now.trees a.label b.label) }
    {
        self.valid();
        let a_depth = self.depth(a);
        let b_depth = self.depth(b);
        let above_a = self.lifted(a, b_depth);
        let above_b = self.lifted(b, a_depth);
        if above_a.label != above_b.label {
            return self.before_apart(a, b, above_a, above_b);
        }
        Some(if a_depth <= b_depth { a } else { b })
    }
}
