//! Selecting steps, marks, overrides and flags.

ghost use Rattle.std.specs.Prelude.{◌≡◌, ℕ, ◌↔◌, ◌&&◌, Err, IsNone, IfSome, OnOk, OnErr, length, true, false};
ghost use Rattle.edit_model.specs.DomModel.Forest.{parent_of};
ghost use Rattle.edit_model.specs.DomModel.Places.{index_of};
ghost use Rattle.edit_model.specs.LiveRange.LivePoints.{has_mark, with_mark, without_mark};
ghost use Rattle.edit_model.specs.Action.{Select, Extend, Unselect, Grow, Scratch, Override, Flag, acted, Send, with_selection};
ghost use Rattle.edit_model.specs.Confined.{may_select};
ghost use Rattle.edit_model.specs.Overrides.{setting_of};
ghost use Rattle.edit_model.specs.Valid.{IsPlacedPair};
ghost use Rattle.edit_model.specs.State.{State};
ghost use Rattle.edit_doc.specs.Whole.{IsOpen, IsClosed, with_state};
ghost use Rattle.edit_doc.specs.Held.{Holds, Keeps};

use crate::{Doc, Flags, MarkFault, NodeRef, Pair, Point, Points, Setting};
use edit_model::element_names::Command;
use edit_parts::stands_at;

impl Doc {
    /// The live points.
    pub fn points(&self) -> &Points
        ensures { result.now ≡ self.now.state.points }
    {
        &self.tree.points
    }

    /// Selects from the anchor to the focus, where both stand in the document.
    pub fn select(&mut self, anchor: Point, focus: Point)
        ensures { self.new ≡ with_state self.old (acted (Select anchor focus) self.old.state) }
    {
        let pair = Pair { anchor, focus };
        if self.may_keep(pair) {
            self.put_selection(Some(pair));
        }
    }

    /// Selects one point, where it stands in the document.
    pub fn collapse(&mut self, at: Point)
        ensures { self.new ≡ with_state self.old (acted (Select at at) self.old.state) }
    {
        self.select(at, at);
    }

    /// Takes the focus of the selection to another point, where it stands in the document.
    pub fn extend(&mut self, to: Point)
        ensures { self.new ≡ with_state self.old (acted (Extend to) self.old.state) }
    {
        let selection = self.tree.points.selection();
        if let Some(pair) = selection {
            if self.may_select(to) {
                self.put_selection(Some(Pair {
                    anchor: pair.anchor,
                    focus: to,
                }));
            }
        }
    }

    /// Gives up the selection.
    pub fn unselect(&mut self)
        ensures { self.new ≡ with_state self.old (acted Unselect self.old.state) }
    {
        self.put_selection(None);
    }

    /// Each kept point at the place grows by 1, where its node is in the document and has something
    /// there. The node's children are counted only where a kept point stands at it.
    pub fn grow(&mut self, at: Point)
        ensures { self.new ≡ with_state self.old (acted (Grow at) self.old.state) }
    {
        self.tree.nodes.arena.valid();
        if !self.tree.points.stands_at(at.label) {
            return;
        }
        if self.may_grow(at) {
            let watch = self.tree.watch();
            self.tree.points.grown(at);
            let nodes = &self.tree.nodes;
            self.tree
                .overrides
                .unset_if_range_changed(&nodes.arena, &self.tree.points, watch);
        }
    }

    /// Each kept point just before a node, at its index in its parent, grows by 1 and so stands
    /// after it, where the parent is in the document. The index is counted only where a kept point
    /// stands at the parent.
    pub fn grow_before(&mut self, node: NodeRef)
        requires { Holds self.old node }
        ensures grown { IfSome (parent_of self.old.state.trees node.label)
            (λ p. self.new ≡ with_state self.old (acted (Grow
            (record { label = p; offset = index_of self.old.state.trees node.label }))
            self.old.state)) }
        ensures alone { IsNone (parent_of self.old.state.trees node.label) → self.new ≡ self.old }
        ensures keeps { Keeps self.old self.new }
    {
        let Some(parent) = self.parent(node) else {
            return;
        };
        if stands_at(&self.tree.points, parent) {
            let offset = self.index(node);
            self.grow(Point {
                label: parent.label,
                offset,
            });
        }
    }

    /// Keeps a pair of points of the document that go along with edits, until the command ends.
    pub fn set_scratch(&mut self, pair: Pair)
        requires { IsOpen self.old }
        ensures { self.new ≡ with_state self.old (acted (Scratch pair) self.old.state) }
    {
        if self.may_keep(pair) {
            self.tree.points.set_scratch(pair);
        }
    }

    /// Gives the name to the pair. A mark of that name keeps its place, and a new one goes last.
    pub fn set_mark(&mut self, name: &[u8], pair: Pair) -> Result<(), MarkFault>
        requires closed { IsClosed self.old }
        requires placed { IsPlacedPair self.old.state.trees pair }
        ensures set { OnOk result (self.new ≡ with_state self.old (record self.old.state {
          points = with_mark name.now pair self.old.state.points;
        })) }
        ensures too_many { (result ≡ Err MarkFault.TooManyMarks)
            ↔ ((length self.old.state.points.marks ≡ 16)
            × (has_mark name.now self.old.state.points ≡ false)) }
        ensures err { OnErr result (self.new ≡ self.old) }
    {
        self.tree.points.set_mark(name, pair)
    }

    /// Takes the name's mark out, and answers whether there was one.
    pub fn unset_mark(&mut self, name: &[u8]) -> bool
        ensures answer { result ≡ has_mark name.now self.old.state.points }
        ensures unset { self.new ≡ with_state self.old (record self.old.state {
          points = without_mark name.now self.old.state.points;
        }) }
    {
        self.tree.points.unset_mark(name)
    }

    /// The override of a command.
    pub fn setting(&self, command: Command) -> &Setting
        ensures { result.now ≡ setting_of self.now.state.overrides command }
    {
        self.tree.overrides.get(command)
    }

    /// Sets the override of a command.
    pub fn set_setting(&mut self, command: Command, setting: Setting)
        ensures { self.new ≡ with_state self.old (acted (Override command setting) self.old.state) }
    {
        self.tree.overrides.set(command, setting);
    }

    /// The CSS styling flag, and the default single-line container name.
    pub fn flags(&self) -> Flags
        ensures { result ≡ self.now.state.flags }
    {
        self.tree.flags
    }

    /// Sets both.
    pub fn set_flags(&mut self, flags: Flags)
        ensures { self.new ≡ with_state self.old (acted (Flag flags) self.old.state) }
    {
        self.tree.flags = flags;
    }

    // Whether both points of a pair may be kept.
    fn may_keep(&self, pair: Pair) -> bool
        ensures { result
            ≡ (may_select self.now.state pair.anchor && may_select self.now.state pair.focus) }
    {
        self.may_select(pair.anchor) && (pair.focus == pair.anchor || self.may_select(pair.focus))
    }

    // Sets the selection.
    fn put_selection(&mut self, pair: Option<Pair>)
        requires { IfSome pair (IsPlacedPair self.old.state.trees) }
        ensures { self.new ≡ with_state self.old (with_selection pair self.old.state) }
    {
        self.tree.nodes.arena.valid();
        let watch = self.tree.watch();
        self.tree.points.set_selection(pair);
        let nodes = &self.tree.nodes;
        self.tree
            .overrides
            .unset_if_range_changed(&nodes.arena, &self.tree.points, watch);
    }

    // The points of a text past an offset go to another text.
    pub(crate) fn send(&mut self, node: NodeRef, at: u32, tail: NodeRef)
        requires node_held { Holds self.old node }
        requires tail_held { Holds self.old tail }
        ensures { self.new
            ≡ with_state self.old (acted (Send node.label at tail.label) self.old.state) }
    {
        self.tree.nodes.arena.valid();
        if self.may_send(node, at, tail) {
            let watch = self.tree.watch();
            // The points of the parent are moved by the insertion of the tail.
            self.tree
                .points
                .split(node.label, at, tail.label, node.label, 0);
            let nodes = &self.tree.nodes;
            self.tree
                .overrides
                .unset_if_range_changed(&nodes.arena, &self.tree.points, watch);
        }
    }
}
