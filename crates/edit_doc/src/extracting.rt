//! Extracting the tail of a node. The steps are those of docs/ALGORITHMS.md.

ghost use Rattle.std.specs.Prelude.{◌≡◌, ℕ, ◌&&◌, ◌∷◌, [], IfOk, drop, not, true};
ghost use Rattle.std.specs.Option.{option_map};
ghost use Rattle.edit_model.specs.DomModel.Contents.{is_element_at, is_parent_at};
ghost use Rattle.edit_model.specs.DomModel.Places.{index_of};
ghost use Rattle.edit_model.specs.Gives.{Gives, labels_of};
ghost use Rattle.edit_model.specs.Action.{may_extract};
ghost use Rattle.edit_model.specs.Confined.{is_editable_for, is_made};
ghost use Rattle.edit_model.specs.Possible.{are_possible};
ghost use Rattle.edit_model.specs.Run.{extract_tail};
ghost use Rattle.edit_model.specs.Tail.{Copy, carried, copy_of};
ghost use Rattle.edit_doc.specs.Whole.{IsOpen};
ghost use Rattle.edit_doc.specs.Held.{Holds, EachHeld, Keeps};
ghost use Rattle.edit_model.specs.PointOrder.PointOrder.{is_in_document, is_within};
ghost use Rattle.edit_doc.specs.Extracting.{tail_at, MakesSteps, TellsIndex};

use crate::{Doc, EditFault, NodeRef, Point};
use edit_model::boundary::{child_toward, is_in_document, is_within};

// A node with its index.
fn place_of(node: Option<NodeRef>, index: u32) -> Option<Point>
    ensures { result ≡ option_map (λ r. record { label = r.label; offset = index }) node }
{
    match node {
        Some(node) => Some(Point {
            label: node.label,
            offset: index,
        }),
        None => None,
    }
}

impl Doc {
    /// Extracts the tail of `end`: what stands in it from a point on goes to the end of `target`.
    /// The elements between `end` and the point are split: each gets a copy, without its id, that
    /// takes what comes after the point in it.
    ///
    /// It is one action: where it may not be made as a whole, nothing happens.
    pub fn extract_tail(
        &mut self,
        from: Point,
        end: NodeRef,
        target: NodeRef,
    ) -> Result<(), EditFault>
        requires open { IsOpen self.old }
        requires end_held { Holds self.old end }
        requires target_held { Holds self.old target }
        ensures gives { Gives result self.old.state self.new.state
            (extract_tail from end.label target.label) }
        ensures keeps { Keeps self.old self.new }
    {
        self.valid();
        let Some(node) = self.find(from.label) else {
            return Ok(());
        };
        if !self.may_extract(from, node, end, target) {
            return Ok(());
        }
        self.extract_into(from, node, end, target)
    }

    // Whether a tail of `end` may be extracted from a node on: that is `end` or stands below it and
    // can have children.
    fn has_tail(&self, node: NodeRef, end: NodeRef) -> bool
        requires node_held { Holds self.now node }
        requires end_held { Holds self.now end }
        ensures { result ≡ (is_editable_for self.now.state end.label
            && (is_in_document self.now.state.trees end.label
            && (is_editable_for self.now.state node.label
            && (is_parent_at self.now.state.trees node.label
            && is_within self.now.state.trees end.label node.label)))) }
    {
        if !self.is_editable_for(end) {
            return false;
        }
        if !is_in_document(self, end.label) {
            return false;
        }
        if !self.is_editable_for(node) {
            return false;
        }
        self.is_parent(node) && is_within(self, end, node)
    }

    // Whether the tail of `end` may go to the target.
    fn takes_tail(&self, end: NodeRef, target: NodeRef) -> bool
        requires end_held { Holds self.now end }
        requires target_held { Holds self.now target }
        ensures { result ≡ (is_made self.now.state target.label
            && (is_in_document self.now.state.trees target.label
            && (is_parent_at self.now.state.trees target.label
            && not (is_within self.now.state.trees end.label target.label)))) }
    {
        if !self.is_made(target) {
            return false;
        }
        if !is_in_document(self, target.label) {
            return false;
        }
        self.is_parent(target) && !is_within(self, end, target)
    }

    #[tactic(auto, using(crate::proofs::Tails::extract_test))]
    fn may_extract(&self, from: Point, node: NodeRef, end: NodeRef, target: NodeRef) -> bool
        requires is { node.label ≡ from.label }
        requires node_held { Holds self.now node }
        requires end_held { Holds self.now end }
        requires target_held { Holds self.now target }
        ensures { result ≡ may_extract self.now.state from end.label target.label }
    {
        if self.command.keeping {
            return false;
        }
        self.has_tail(node, end) && self.takes_tail(end, target)
    }

    // Extract the tail, steps 1 and 2.
    fn extract_into(
        &mut self,
        from: Point,
        node: NodeRef,
        end: NodeRef,
        target: NodeRef,
    ) -> Result<(), EditFault>
        requires open { IsOpen self.old }
        requires is { node.label ≡ from.label }
        requires parent { is_parent_at self.old.state.trees from.label ≡ true }
        requires node_held { Holds self.old node }
        requires end_held { Holds self.old end }
        requires target_held { Holds self.old target }
        requires possible { are_possible (tail_at self.old.state from end.label target.label)
            self.old.state ≡ true }
        ensures steps { MakesSteps result self.old.state self.new.state
            (tail_at self.old.state from end.label target.label) }
        ensures keeps { Keeps self.old self.new }
    {
        self.valid();
        let children = self.children_of(end)?;
        if end.label == from.label {
            return self.carry_from(&children, from.offset, target);
        }
        let Some(child) = child_toward(self, end, node) else {
            return Ok(());
        };
        let after = self.index_after(child);
        let copy = self.copy_without_id(child)?;
        self.extract_into(from, node, child, copy)?;
        self.link(target, None, copy)?;
        self.carry_from(&children, after, target)
    }

    // Makes a copy of an element without its id.
    #[tactic(auto, using(crate::proofs::Tails::copy_steps, crate::proofs::Tails::copy_label))]
    fn copy_without_id(&mut self, node: NodeRef) -> Result<NodeRef, EditFault>
        requires open { IsOpen self.old }
        requires held { Holds self.old node }
        requires element { is_element_at self.old.state.trees node.label ≡ true }
        ensures steps { MakesSteps result self.old.state self.new.state
            (Copy (copy_of self.old.state.trees node.label) ∷ []) }
        ensures label { IfOk result (λ r. r.label ≡ self.old.state.next) }
        ensures held { IfOk result (λ r. Holds self.new r) }
        ensures keeps { Keeps self.old self.new }
    {
        let name = self.name(node).clone()?;
        let mut attributes = self.attributes(node).copy()?;
        attributes.unset(b"id");
        attributes.valid();
        self.make_owned_element(name, attributes)
    }

    // Carries the nodes of a list from an index on, in their order, to the end of another node.
    fn carry_from(&mut self, list: &[NodeRef], from: u32, target: NodeRef) -> Result<(), EditFault>
        requires open { IsOpen self.old }
        requires list_held { EachHeld self.old list.now }
        requires target_held { Holds self.old target }
        requires possible { are_possible (carried target.label (drop from (labels_of list.now)))
            self.old.state ≡ true }
        ensures steps { MakesSteps result self.old.state self.new.state
            (carried target.label (drop from (labels_of list.now))) }
        ensures keeps { Keeps self.old self.new }
    {
        let mut known = None;
        for i in from as usize..list.len() {
            known = self.carry(list[i], target, known)?;
        }
        Ok(())
    }

    // The index of a node, which is known or else counted.
    fn index_from(&self, node: NodeRef, known: Option<Point>) -> u32
        requires held { Holds self.now node }
        requires known { TellsIndex self.now.state.trees known }
        ensures { result ≡ index_of self.now.state.trees node.label }
    {
        if let Some(at) = known {
            if at.label == node.label {
                return at.offset;
            }
        }
        self.index(node)
    }

    // Carries a node to the end of another one, and answers the index of the node after it, which
    // comes to stand where it stood. So of the nodes of one parent in a row one index is counted.
    fn carry(
        &mut self,
        node: NodeRef,
        target: NodeRef,
        known: Option<Point>,
    ) -> Result<Option<Point>, EditFault>
        requires open { IsOpen self.old }
        requires node_held { Holds self.old node }
        requires target_held { Holds self.old target }
        requires known { TellsIndex self.old.state.trees known }
        requires possible { are_possible (carried target.label (node.label ∷ [])) self.old.state
            ≡ true }
        ensures steps { MakesSteps result self.old.state self.new.state
            (carried target.label (node.label ∷ [])) }
        ensures known { IfOk result (λ known. TellsIndex self.new.state.trees known) }
        ensures keeps { Keeps self.old self.new }
    {
        self.valid();
        let Some(parent) = self.parent(node) else {
            return Ok(None);
        };
        let index = self.index_from(node, known);
        let next = self.next(node);
        self.unlink(node, parent, Some(index))?;
        self.link(target, None, node)?;
        Ok(place_of(next, index))
    }
}
