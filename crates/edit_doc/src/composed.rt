//! What is composed of edits: splitting a text, and setting the tag name of an element. The steps
//! are those of docs/ALGORITHMS.md.

ghost use Rattle.std.specs.Prelude.{◌≡◌, ℕ, ◌+◌, ◌-◌, ◌<◌, ◌^◌, IfOk, IsSome, Some, length, drop, true};
ghost use Rattle.edit_model.specs.DomModel.Contents.{is_element_at};
ghost use Rattle.edit_model.specs.DomModel.Forest.{children_of, parent_of};
ghost use Rattle.edit_model.specs.DomModel.Places.{index_of};
ghost use Rattle.edit_model.specs.Gives.{Gives, GivesNode, labels_of};
ghost use Rattle.edit_model.specs.Run.{final};
ghost use Rattle.edit_model.specs.Compositions.{characters_of, points_sent, split_under, split_words, renamed, set_tag_name};
ghost use Rattle.edit_model.specs.Moves.{move_each_last};
ghost use Rattle.edit_doc.specs.Whole.{IsOpen, with_state};
ghost use Rattle.edit_doc.specs.Held.{Holds, EachHeld, Keeps};

use crate::{Chars, Doc, EditFault, Name, NodeRef, Point};
use edit_model::arena::has_name;
use edit_parts::tail_of;
use std::alloc::AllocError;

impl Doc {
    /// Splits a text at an offset (DOM Standard, "split a Text node") and answers the new text with
    /// the tail. A node without a parent stays as it is and is the answer.
    #[tactic(auto, using(edit_model::proofs::Steps::exits), unfolding(edit_model::specs::Compositions::split_words))]
    pub fn split_words(&mut self, node: NodeRef, at: u32) -> Result<NodeRef, EditFault>
        requires open { IsOpen self.old }
        requires node_held { Holds self.old node }
        ensures gives { GivesNode result self.old.state self.new.state (split_words node.label at) }
        ensures held { IfOk result (λ r. Holds self.new r) }
        ensures keeps { Keeps self.old self.new }
    {
        match self.parent(node) {
            None => Ok(node),
            Some(parent) => self.split_under(parent, node, at),
        }
    }

    /// Sets the tag name of an element (HTML Editing APIs) and answers the element that has it: a
    /// new one in its place, or the element itself where it has the name, no parent, or isn't
    /// editable.
    #[tactic(auto, using(edit_model::proofs::Steps::exits), unfolding(edit_model::specs::Compositions::set_tag_name))]
    pub fn set_tag_name(&mut self, node: NodeRef, name: &Name) -> Result<NodeRef, EditFault>
        requires open { IsOpen self.old }
        requires node_held { Holds self.old node }
        requires element { is_element_at self.old.state.trees node.label ≡ true }
        ensures gives { GivesNode result self.old.state self.new.state
            (set_tag_name node.label name.now) }
        ensures held { IfOk result (λ r. Holds self.new r) }
        ensures keeps { Keeps self.old self.new }
    {
        match self.parent(node) {
            None => Ok(node),
            Some(parent) => {
                if has_name(self, node, name.as_slice()) || !self.is_editable_for(node) {
                    Ok(node)
                } else {
                    self.rename_under(parent, node, name)
                }
            }
        }
    }

    // A copy of the characters of a node past an offset, and how many they are.
    fn tail_of(&self, node: NodeRef, at: u32) -> Result<(Chars, u32), AllocError>
        requires { Holds self.now node }
        ensures tail { IfOk result (λ r. r.0
            ≡ drop at (characters_of self.now.state.trees node.label)) }
        ensures count { IfOk result (λ r. r.1
            ≡ length (characters_of self.now.state.trees node.label) - at) }
        ensures short { IfOk result (λ r. length r.0 < 2 ^ 32) }
    {
        tail_of(self.alloc, self.nodes().content(node), at)
    }

    // The place in its parent just after a node.
    pub(crate) fn index_after(&self, node: NodeRef) -> u32
        requires { Holds self.now node }
        ensures { result ≡ index_of self.now.state.trees node.label + 1 }
    {
        self.nodes().index(node) + 1
    }

    // Split a text, step 3: the points of a text past an offset go to another text, and those of
    // its parent just after it grow, where the other text was inserted.
    #[tactic(auto, using(edit_model::proofs::Steps::actions), unfolding(edit_model::specs::Compositions::points_sent))]
    fn send_points(&mut self, after: Point, node: NodeRef, at: u32, tail: NodeRef, inserted: bool)
        requires node_held { Holds self.old node }
        requires tail_held { Holds self.old tail }
        ensures sent { (i : ℕ) → after.offset ≡ i + 1 → self.new
            ≡ with_state self.old
            (final (points_sent after.label i node.label at tail.label inserted)
            self.old.state) }
        ensures keeps { Keeps self.old self.new }
    {
        if inserted {
            self.send(node, at, tail);
            self.grow(after);
        }
    }

    // Split a text, steps 2 to 4: splits a text under its parent.
    #[tactic(auto, using(edit_model::proofs::Steps::exits), unfolding(edit_model::specs::Compositions::split_under))]
    fn split_under(&mut self, parent: NodeRef, node: NodeRef, at: u32) -> Result<NodeRef, EditFault>
        requires open { IsOpen self.old }
        requires parent_held { Holds self.old parent }
        requires node_held { Holds self.old node }
        ensures gives { GivesNode result self.old.state self.new.state
            (split_under parent.label self.old.state node.label at) }
        ensures held { IfOk result (λ r. Holds self.new r) }
        ensures keeps { Keeps self.old self.new }
    {
        let (words, rest) = self.tail_of(node, at)?;
        let next = self.next(node);
        let after = Point {
            label: parent.label,
            offset: self.index_after(node),
        };
        let tail = self.make_owned_words(words)?;
        let inserted = self.insert(parent, next, tail)?;
        self.send_points(after, node, at, tail, inserted);
        self.replace_words(node, at, rest, &[])?;
        Ok(tail)
    }

    /// The children of a node, in order. It goes from child to child by links.
    pub fn children_of(&self, node: NodeRef) -> Result<Vec<NodeRef>, AllocError>
        requires { Holds self.now node }
        ensures held { IfOk result (λ list. EachHeld self.now list.items) }
        ensures children { IfOk result (λ list. labels_of list.items
            ≡ children_of self.now.state.trees node.label) }
    {
        self.valid();
        let mut list = Vec::new(self.alloc);
        let mut at = self.first_child(node);
        while let Some(child) = at {
            list.push(child)?;
            at = self.next(child);
        }
        Ok(list)
    }

    /// Moves each node of a list, in its order, to the end of another one. A node that may not go
    /// there stays where it is.
    #[tactic(auto, using(edit_model::proofs::Steps::eachs, edit_model::proofs::Steps::exits), unfolding(edit_model::specs::Moves::move_each_last))]
    pub fn move_each_last(&mut self, list: &[NodeRef], to: NodeRef) -> Result<(), EditFault>
        requires open { IsOpen self.old }
        requires list_held { EachHeld self.old list.now }
        requires to_held { Holds self.old to }
        ensures gives { Gives result self.old.state self.new.state
            (move_each_last (labels_of list.now) to.label) }
        ensures keeps { Keeps self.old self.new }
    {
        for node in list {
            self.move_keeping(*node, to, None)?;
        }
        Ok(())
    }

    // Set the tag name, steps 2 to 4: puts an element of another name in the place of an element.
    #[tactic(auto, using(edit_model::proofs::Steps::exits), unfolding(edit_model::specs::Compositions::renamed))]
    fn rename_under(
        &mut self,
        parent: NodeRef,
        node: NodeRef,
        name: &Name,
    ) -> Result<NodeRef, EditFault>
        requires open { IsOpen self.old }
        requires parent_held { Holds self.old parent }
        requires node_held { Holds self.old node }
        requires element { is_element_at self.old.state.trees node.label ≡ true }
        ensures gives { GivesNode result self.old.state self.new.state
            (renamed parent.label self.old.state node.label name.now) }
        ensures held { IfOk result (λ r. Holds self.new r) }
        ensures keeps { Keeps self.old self.new }
    {
        let children = self.children_of(node)?;
        let name = name.clone()?;
        let attributes = self.attributes(node).copy()?;
        let new = self.make_owned_element(name, attributes)?;
        self.insert(parent, Some(node), new)?;
        self.move_each_last(&children, new)?;
        self.remove(node)?;
        Ok(new)
    }
}
