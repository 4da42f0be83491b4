//! Which edits and selecting steps are made.

ghost use Rattle.std.specs.Prelude.{◌≡◌, ◌&&◌, not, Some};
ghost use Rattle.edit_model.specs.DomModel.Contents.{is_parent_at};
ghost use Rattle.edit_model.specs.Gives.{label_of};
ghost use Rattle.edit_model.specs.Confined.{is_editable_for, is_inside, is_made, is_open, is_own, is_place, may_insert, may_leave, may_go, may_select, may_grow, may_send, stands_so};
ghost use Rattle.edit_doc.specs.Held.{Holds, IfHeld};
ghost use Rattle.edit_model.specs.PointOrder.PointOrder.{is_within};

use crate::{Doc, Kind, NodeRef, Point};
use edit_model::arena::is_break;
use edit_parts::{has_no_kept_leaves, is_in_document};

impl Doc {
    /// Whether a node is editable with the affected editing host of the running command as its
    /// host. Outside commands there is no host, and no node is.
    pub fn is_editable_for(&self, node: NodeRef) -> bool
        requires { Holds self.now node }
        ensures { result ≡ is_editable_for self.now.state node.label }
    {
        match self.host() {
            Some(host) => self.nodes().is_editable(host, node),
            None => false,
        }
    }

    /// Whether a node is the affected editing host of the running command, or editable with it as
    /// its host.
    pub fn is_inside(&self, node: NodeRef) -> bool
        requires { Holds self.now node }
        ensures { result ≡ is_inside self.now.state node.label }
    {
        match self.host() {
            Some(host) if host.label == node.label => true,
            _ => self.is_editable_for(node),
        }
    }

    // The running command drew its label.
    pub(crate) fn is_made(&self, node: NodeRef) -> bool
        ensures { result ≡ is_made self.now.state node.label }
    {
        self.command.start <= node.label
    }

    fn is_open(&self, node: NodeRef) -> bool
        requires { Holds self.now node }
        ensures { result ≡ is_open self.now.state node.label }
    {
        self.is_made(node) || self.is_inside(node)
    }

    pub(crate) fn is_own(&self, node: NodeRef) -> bool
        requires { Holds self.now node }
        ensures { result ≡ is_own self.now.state node.label }
    {
        self.is_made(node) || self.is_editable_for(node)
    }

    pub(crate) fn is_parent(&self, node: NodeRef) -> bool
        requires { Holds self.now node }
        ensures { result ≡ is_parent_at self.now.state.trees node.label }
    {
        matches!(self.nodes().kind(node), Kind::Document | Kind::Element)
    }

    // Whether `before`, if there is one, is a child of the parent other than the node.
    fn is_place(&self, parent: NodeRef, before: Option<NodeRef>, node: NodeRef) -> bool
        requires { IfHeld self.now before }
        ensures { result ≡ is_place self.now.state.trees parent.label (label_of before) node.label }
    {
        match before {
            None => true,
            Some(before) => match self.parent(before) {
                Some(its) => its.label == parent.label && before.label != node.label,
                None => false,
            },
        }
    }

    // Whether the parent can take the node there, with regard to the tree alone.
    fn takes(&self, parent: NodeRef, before: Option<NodeRef>, node: NodeRef) -> bool
        requires parent_held { Holds self.now parent }
        requires before_held { IfHeld self.now before }
        requires node_held { Holds self.now node }
        ensures { result ≡ (is_parent_at self.now.state.trees parent.label
            && (not (is_within self.now.state.trees node.label parent.label)
            && is_place self.now.state.trees parent.label (label_of before) node.label)) }
    {
        self.is_parent(parent)
            && self.is_place(parent, before, node)
            && !self.nodes().is_within(node, parent)
    }

    pub(crate) fn may_insert(&self, parent: NodeRef, before: Option<NodeRef>, node: NodeRef) -> bool
        requires parent_held { Holds self.now parent }
        requires before_held { IfHeld self.now before }
        requires node_held { Holds self.now node }
        ensures { result ≡ may_insert self.now.state parent.label (label_of before) node.label }
    {
        if node.label == 0 {
            return false;
        }
        match self.parent(node) {
            Some(_) => false,
            None => self.takes(parent, before, node) && self.is_open(parent),
        }
    }

    // Whether the node may leave its parent.
    pub(crate) fn may_leave(&self, node: NodeRef, parent: NodeRef) -> bool
        requires node_held { Holds self.now node }
        requires parent_held { Holds self.now parent }
        ensures { result ≡ may_leave self.now.state node.label (Some parent.label) }
    {
        self.is_open(parent)
            && (self.is_own(node) || is_break(self, node))
            && (!self.command.keeping || has_no_kept_leaves(self.nodes(), node))
    }

    // Whether the node, a child of `from`, stands before `before` in the parent already.
    fn stands_so(
        &self,
        node: NodeRef,
        from: NodeRef,
        parent: NodeRef,
        before: Option<NodeRef>,
    ) -> bool
        requires { Holds self.now node }
        ensures { result
            ≡ stands_so self.now.state.trees node.label from.label parent.label (label_of before) }
    {
        from.label == parent.label
            && match (self.next(node), before) {
                (None, None) => true,
                (Some(next), Some(before)) => next.label == before.label,
                _ => false,
            }
    }

    // Whether the node, a child of `from`, may go to another place.
    pub(crate) fn may_go(
        &self,
        node: NodeRef,
        from: NodeRef,
        parent: NodeRef,
        before: Option<NodeRef>,
    ) -> bool
        requires node_held { Holds self.now node }
        requires from_held { Holds self.now from }
        requires parent_held { Holds self.now parent }
        requires before_held { IfHeld self.now before }
        ensures { result
            ≡ may_go self.now.state node.label (Some from.label) parent.label (label_of before) }
    {
        if !self.is_open(from) {
            return false;
        }
        if !self.is_open(parent) {
            return false;
        }
        if !self.takes(parent, before, node) {
            return false;
        }
        let arena = self.nodes();
        if is_in_document(arena, node) && !is_in_document(arena, parent) {
            return false;
        }
        !self.stands_so(node, from, parent, before)
    }

    // Whether kept points may stand at a point.
    pub(crate) fn may_select(&self, at: Point) -> bool
        ensures { result ≡ may_select self.now.state at }
    {
        edit_model::boundary::is_placed(self.nodes(), at)
    }

    // Whether points at a place may grow: something stands after it.
    pub(crate) fn may_grow(&self, at: Point) -> bool
        ensures { result ≡ may_grow self.now.state at }
    {
        let arena = self.nodes();
        match arena.find(at.label) {
            Some(node) => {
                if !is_in_document(arena, node) {
                    return false;
                }
                self.is_open(node) && at.offset < self.length(node)
            }
            None => false,
        }
    }

    // Whether the points of a text past an offset may go to another text.
    pub(crate) fn may_send(&self, node: NodeRef, at: u32, tail: NodeRef) -> bool
        requires node_held { Holds self.now node }
        requires tail_held { Holds self.now tail }
        ensures { result ≡ may_send self.now.state node.label at tail.label }
    {
        let arena = self.nodes();
        let length = self.length(node) as u64;
        let reach = at as u64 + self.length(tail) as u64;
        if !self.is_own(node) {
            return false;
        }
        if !is_in_document(arena, tail) {
            return false;
        }
        if node.label == tail.label {
            return false;
        }
        length <= reach
    }
}
