//! The elementary edits.

ghost use Rattle.std.specs.Prelude.{◌≡◌, ℕ, ◌<◌, ◌^◌, length, is_some, IfErr, IfOk, IfSome, OnErr, OnOk, Some, true};
ghost use Rattle.edit_model.specs.DomModel.Forest.{parent_of};
ghost use Rattle.edit_model.specs.DomModel.Places.{index_of};
ghost use Rattle.edit_model.specs.Action.{applied};
ghost use Rattle.edit_model.specs.Confined.{may_change};
ghost use Rattle.edit_model.specs.Edit.{Insert, Remove, is_made_edit};
ghost use Rattle.edit_model.specs.Possible.{freed};
ghost use Rattle.edit_model.specs.Gives.{Gives, label_of};
ghost use Rattle.edit_model.specs.Run.{insert, remove, move, replace, set_attribute, unset_attribute};
ghost use Rattle.edit_doc.specs.Whole.{IsOpen};
ghost use Rattle.edit_doc.specs.Held.{Holds, IfHeld, Keeps};
ghost use Rattle.edit_doc.specs.Splicing.{own_chars, splice_step};

use crate::numbers::{chars_replaced, counts_moved, counts_with, counts_without};
use crate::{Chars, Counts, Doc, EditFault, Name, NodeRef};
use edit_model::arena::Content;
use edit_parts::{
    adjust_inserted, adjust_moved, has_value, is_in_document, moving_from, removal_of,
    replaced_part,
};
use std::alloc::{AllocError, Global};
use step_edits::steps::{Splice, Step};

// The step by which others take the place of `count` characters of a text, from the offset `at` on.
// `None` where that edit isn't made.
fn splice_step(
    alloc: Global,
    content: &Content,
    node: NodeRef,
    at: u32,
    count: u32,
    put: &[char],
) -> Result<Option<Step>, AllocError>
    requires { length (own_chars content.now) < 2 ^ 32 }
    ensures changes { IfOk result (λ made. is_some made
        ≡ may_change (Some content.now) at count put.now) }
    ensures step { IfOk result (λ made. IfSome made (λ step. step
        ≡ splice_step node at count put.now content.now)) }
{
    let Some(part) = replaced_part(content, at, count, put) else {
        return Ok(None);
    };
    let splice = Splice::new(alloc, node, at, part.rest, part.taken, put)?;
    Ok(Some(Step::Splice(splice)))
}

impl Doc {
    /// Inserts a loose tree under a parent, before one of its children or at the end. Answers
    /// whether it was inserted.
    pub fn insert(
        &mut self,
        parent: NodeRef,
        before: Option<NodeRef>,
        node: NodeRef,
    ) -> Result<bool, EditFault>
        requires open { IsOpen self.old }
        requires parent_held { Holds self.old parent }
        requires before_held { IfHeld self.old before }
        requires node_held { Holds self.old node }
        ensures gives { Gives result self.old.state self.new.state
            (insert parent.label (label_of before) node.label) }
        ensures keeps { Keeps self.old self.new }
        ensures err { OnErr result (self.new ≡ self.old) }
    {
        if !self.may_insert(parent, before, node) {
            return Ok(false);
        }
        self.link(parent, before, node)?;
        Ok(true)
    }

    // Links a loose tree under a parent, before one of its children or at the end, where the trees
    // allow it.
    pub(crate) fn link(
        &mut self,
        parent: NodeRef,
        before: Option<NodeRef>,
        node: NodeRef,
    ) -> Result<(), EditFault>
        requires open { IsOpen self.old }
        requires parent_held { Holds self.old parent }
        requires before_held { IfHeld self.old before }
        requires node_held { Holds self.old node }
        requires possible { is_made_edit (Insert parent.label (label_of before) node.label)
            (freed self.old.state) ≡ true }
        ensures linked { OnOk result (self.new.state ≡ applied
            (Insert parent.label (label_of before) node.label) self.old.state) }
        ensures fault { IfErr result (λ fault. fault ≡ EditFault.Memory) }
        ensures keeps { Keeps self.old self.new }
        ensures err { OnErr result (self.new ≡ self.old) }
    {
        self.tree.nodes.arena.valid();
        self.tree.nodes.arena.slotted();
        let watch = self.tree.watch();
        let enters = is_in_document(&self.tree.nodes.arena, parent);
        let counts = counts_with(
            &self.tree.nodes.arena,
            self.tree.nodes.counts,
            node,
            parent,
            enters,
        );
        let link = Step::Insert {
            node,
            parent,
            before,
        };
        self.tree.nodes.change(&mut self.history, link, counts)?;
        self.command.name_place(node, parent, before);
        let nodes = &self.tree.nodes;
        adjust_inserted(&nodes.arena, &mut self.tree.points, parent, node);
        self.tree
            .overrides
            .unset_if_range_changed(&nodes.arena, &self.tree.points, watch);
        Ok(())
    }

    /// Removes the tree of a node, which becomes loose. Answers whether it was removed.
    pub fn remove(&mut self, node: NodeRef) -> Result<bool, EditFault>
        requires open { IsOpen self.old }
        requires node_held { Holds self.old node }
        ensures gives { Gives result self.old.state self.new.state (remove node.label) }
        ensures keeps { Keeps self.old self.new }
        ensures err { OnErr result (self.new ≡ self.old) }
    {
        let Some(parent) = self.parent(node) else {
            return Ok(false);
        };
        if !self.may_leave(node, parent) {
            return Ok(false);
        }
        self.unlink(node, parent, None)?;
        Ok(true)
    }

    // Takes the tree of a node off its parent, where the trees allow it; it becomes loose. The
    // node's index is counted if it isn't known and a point needs it.
    pub(crate) fn unlink(
        &mut self,
        node: NodeRef,
        parent: NodeRef,
        known: Option<u32>,
    ) -> Result<(), EditFault>
        requires open { IsOpen self.old }
        requires node_held { Holds self.old node }
        requires parent_held { Holds self.old parent }
        requires child { parent_of self.old.state.trees node.label ≡ Some parent.label }
        requires possible { is_made_edit (Remove node.label) (freed self.old.state) ≡ true }
        requires known { IfSome known (λ index. index
            ≡ index_of self.old.state.trees node.label) }
        ensures unlinked { OnOk result (self.new.state
            ≡ applied (Remove node.label) self.old.state) }
        ensures fault { IfErr result (λ fault. fault ≡ EditFault.Memory) }
        ensures keeps { Keeps self.old self.new }
        ensures err { OnErr result (self.new ≡ self.old) }
    {
        self.tree.nodes.arena.valid();
        self.tree.nodes.arena.slotted();
        self.command.detached.reserve(1)?;
        let watch = self.tree.watch();
        let nodes = &self.tree.nodes;
        let removal = removal_of(&nodes.arena, &self.tree.points, node, parent, known);
        let counts = counts_without(&nodes.arena, nodes.counts, node, parent);
        let next = nodes.arena.next(node);
        self.tree
            .nodes
            .change(&mut self.history, Step::Remove { node }, counts)?;
        let _ = self.command.detached.push(node);
        self.command.name_place(node, parent, next);
        removal.adjust(&mut self.tree.points);
        let nodes = &self.tree.nodes;
        self.tree
            .overrides
            .unset_if_range_changed(&nodes.arena, &self.tree.points, watch);
        Ok(())
    }

    /// Moves the tree of a node under a parent, before one of its children or at the end, with the
    /// points in it. Answers whether it was moved.
    pub fn move_keeping(
        &mut self,
        node: NodeRef,
        parent: NodeRef,
        before: Option<NodeRef>,
    ) -> Result<bool, EditFault>
        requires open { IsOpen self.old }
        requires node_held { Holds self.old node }
        requires parent_held { Holds self.old parent }
        requires before_held { IfHeld self.old before }
        ensures gives { Gives result self.old.state self.new.state
            (move node.label parent.label (label_of before)) }
        ensures keeps { Keeps self.old self.new }
        ensures err { OnErr result (self.new ≡ self.old) }
    {
        self.tree.nodes.arena.valid();
        self.tree.nodes.arena.slotted();
        let Some(from) = self.tree.nodes.arena.parent(node) else {
            return Ok(false);
        };
        if !self.may_go(node, from, parent, before) {
            return Ok(false);
        }
        let watch = self.tree.watch();
        let nodes = &self.tree.nodes;
        let place = moving_from(&nodes.arena, &self.tree.points, node, from, parent);
        let counts = counts_moved(&nodes.arena, nodes.counts, node, parent);
        let next = nodes.arena.next(node);
        let step = Step::Move {
            node,
            parent,
            before,
        };
        self.tree.nodes.change(&mut self.history, step, counts)?;
        self.command.name_place(node, from, next);
        self.command.name_place(node, parent, before);
        let nodes = &self.tree.nodes;
        adjust_moved(
            &nodes.arena,
            &mut self.tree.points,
            place,
            parent,
            before,
            node,
        );
        self.tree
            .overrides
            .unset_if_range_changed(&nodes.arena, &self.tree.points, watch);
        Ok(true)
    }

    /// Replaces `count` characters of a text, from the offset `at` on. Answers whether the text
    /// changed.
    pub fn replace_words(
        &mut self,
        node: NodeRef,
        at: u32,
        count: u32,
        put: &[char],
    ) -> Result<bool, EditFault>
        requires open { IsOpen self.old }
        requires node_held { Holds self.old node }
        ensures gives { Gives result self.old.state self.new.state
            (replace node.label at count put.now) }
        ensures keeps { Keeps self.old self.new }
        ensures err { OnErr result (self.new ≡ self.old) }
    {
        self.tree.nodes.arena.valid();
        self.tree.nodes.arena.slotted();
        if !self.is_own(node) {
            return Ok(false);
        }
        let content = self.tree.nodes.arena.content(node);
        let Some(step) = splice_step(self.alloc, content, node, at, count, put)? else {
            return Ok(false);
        };
        let watch = self.tree.watch();
        let chars = chars_replaced(
            &self.tree.nodes.arena,
            self.tree.nodes.counts.chars,
            node,
            at,
            count,
            put,
        );
        let counts = Counts {
            chars,
            ..self.tree.nodes.counts
        };
        self.tree.nodes.change(&mut self.history, step, counts)?;
        self.command.name(node);
        self.tree
            .points
            .replaced(node.label, at, count, put.len() as u32);
        let nodes = &self.tree.nodes;
        self.tree
            .overrides
            .unset_if_range_changed(&nodes.arena, &self.tree.points, watch);
        Ok(true)
    }

    /// Sets an attribute of an element: one that is there keeps its place, a new one goes last.
    /// Answers whether the list changed.
    pub fn set_attribute(
        &mut self,
        node: NodeRef,
        name: &Name,
        value: &Chars,
    ) -> Result<bool, EditFault>
        requires open { IsOpen self.old }
        requires node_held { Holds self.old node }
        ensures gives { Gives result self.old.state self.new.state
            (set_attribute node.label name.now value.now) }
        ensures keeps { Keeps self.old self.new }
        ensures err { OnErr result (self.new ≡ self.old) }
    {
        self.tree.nodes.arena.valid();
        self.tree.nodes.arena.slotted();
        if !self.is_own(node) {
            return Ok(false);
        }
        let Content::Element { attributes, .. } = self.tree.nodes.arena.content(node) else {
            return Ok(false);
        };
        if has_value(attributes, name, value) {
            return Ok(false);
        }
        let mut list = attributes.copy()?;
        list.set(name, value)?;
        let step = Step::SetAttributes { node, list };
        let counts = self.tree.nodes.counts;
        self.tree.nodes.change(&mut self.history, step, counts)?;
        self.command.name(node);
        Ok(true)
    }

    /// Unsets an attribute of an element. Answers whether it was there and was unset.
    pub fn unset_attribute(&mut self, node: NodeRef, name: &Name) -> Result<bool, EditFault>
        requires open { IsOpen self.old }
        requires node_held { Holds self.old node }
        ensures gives { Gives result self.old.state self.new.state
            (unset_attribute node.label name.now) }
        ensures keeps { Keeps self.old self.new }
        ensures err { OnErr result (self.new ≡ self.old) }
    {
        self.tree.nodes.arena.valid();
        self.tree.nodes.arena.slotted();
        if !self.is_own(node) {
            return Ok(false);
        }
        let Content::Element { attributes, .. } = self.tree.nodes.arena.content(node) else {
            return Ok(false);
        };
        if attributes.get(name.as_slice()).is_none() {
            return Ok(false);
        }
        let mut list = attributes.copy()?;
        list.unset(name.as_slice());
        let step = Step::SetAttributes { node, list };
        let counts = self.tree.nodes.counts;
        self.tree.nodes.change(&mut self.history, step, counts)?;
        self.command.name(node);
        Ok(true)
    }
}
