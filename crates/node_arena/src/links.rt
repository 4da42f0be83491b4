//! Writes to the links of nodes in their slots.

ghost use Rattle.std.specs.Prelude.{◌≡◌, ◌≤◌, ◌+◌, IsSome, IfSome};
ghost use Rattle.slab.specs.Slab.{get};
ghost use Rattle.node_arena.specs.Change.{change, with_first, with_last, with_prev, with_next, placed, next_changed, prev_changed, linked_slots, unlinked_slots, prior_link};

use crate::{Node, NodeRef};
use slab::Slab;
use std::sync::ledger::Ledger;
use step_count::Steps;

// Sets the later neighbour of the node in a slot, or else the first child of the parent.
fn set_next<L: Ledger>(
    nodes: &mut Slab<Node>,
    parent: NodeRef,
    at: Option<NodeRef>,
    to: Option<NodeRef>,
    steps: &mut Steps<L>,
)
    requires parent { IsSome (get nodes.old parent.slot) }
    requires at { IfSome at (λ r. IsSome (get nodes.old r.slot)) }
    ensures nodes { nodes.new
        ≡ record nodes.old { slots = next_changed nodes.old.slots parent at to } }
    ensures steps { steps.new ≡ steps.old + 1 }
{
    steps.tick();
    match at {
        Some(at) => write_next(nodes, at.slot, to),
        None => write_first(nodes, parent.slot, to),
    }
}

// Sets the earlier neighbour of the node in a slot, or else the last child of the parent.
fn set_prev<L: Ledger>(
    nodes: &mut Slab<Node>,
    parent: NodeRef,
    at: Option<NodeRef>,
    to: Option<NodeRef>,
    steps: &mut Steps<L>,
)
    requires parent { IsSome (get nodes.old parent.slot) }
    requires at { IfSome at (λ r. IsSome (get nodes.old r.slot)) }
    ensures nodes { nodes.new
        ≡ record nodes.old { slots = prev_changed nodes.old.slots parent at to } }
    ensures steps { steps.new ≡ steps.old + 1 }
{
    steps.tick();
    match at {
        Some(at) => write_prev(nodes, at.slot, to),
        None => write_last(nodes, parent.slot, to),
    }
}

fn write_next(nodes: &mut Slab<Node>, slot: u32, to: Option<NodeRef>)
    requires { IsSome (get nodes.old slot) }
    ensures { nodes.new ≡ record nodes.old { slots = change nodes.old.slots slot (with_next to) } }
{
    nodes[slot as usize].next = to;
}

fn write_prev(nodes: &mut Slab<Node>, slot: u32, to: Option<NodeRef>)
    requires { IsSome (get nodes.old slot) }
    ensures { nodes.new ≡ record nodes.old { slots = change nodes.old.slots slot (with_prev to) } }
{
    nodes[slot as usize].prev = to;
}

fn write_first(nodes: &mut Slab<Node>, slot: u32, to: Option<NodeRef>)
    requires { IsSome (get nodes.old slot) }
    ensures { nodes.new ≡ record nodes.old { slots = change nodes.old.slots slot (with_first to) } }
{
    nodes[slot as usize].first = to;
}

fn write_last(nodes: &mut Slab<Node>, slot: u32, to: Option<NodeRef>)
    requires { IsSome (get nodes.old slot) }
    ensures { nodes.new ≡ record nodes.old { slots = change nodes.old.slots slot (with_last to) } }
{
    nodes[slot as usize].last = to;
}

fn write_place(
    nodes: &mut Slab<Node>,
    slot: u32,
    parent: Option<NodeRef>,
    prev: Option<NodeRef>,
    next: Option<NodeRef>,
)
    requires { IsSome (get nodes.old slot) }
    ensures { nodes.new
        ≡ record nodes.old { slots = change nodes.old.slots slot (placed parent prev next) } }
{
    let node = &mut nodes[slot as usize];
    node.parent = parent;
    node.prev = prev;
    node.next = next;
}

// The node before a place: the earlier neighbour of `before`, or else the last child of the parent.
fn prior_node<L: Ledger>(
    nodes: &Slab<Node>,
    parent: NodeRef,
    before: Option<NodeRef>,
    steps: &mut Steps<L>,
) -> Option<NodeRef>
    requires parent { IsSome (get nodes.now parent.slot) }
    requires before { IfSome before (λ r. IsSome (get nodes.now r.slot)) }
    ensures node { result ≡ prior_link nodes.now.slots parent before }
    ensures steps { steps.new ≡ steps.old + 1 }
{
    steps.tick();
    match before {
        Some(b) => nodes[b.slot as usize].prev,
        None => nodes[parent.slot as usize].last,
    }
}

// Links a node between the two neighbours of a place.
pub(crate) fn link_in<L: Ledger>(
    nodes: &mut Slab<Node>,
    parent: NodeRef,
    before: Option<NodeRef>,
    node: NodeRef,
    steps: &mut Steps<L>,
)
    requires parent { IsSome (get nodes.old parent.slot) }
    requires before { IfSome before (λ r. IsSome (get nodes.old r.slot)) }
    requires node { IsSome (get nodes.old node.slot) }
    requires prior { IfSome (prior_link nodes.old.slots parent before) (λ r.
        IsSome (get nodes.old r.slot)) }
    ensures nodes { nodes.new ≡ record nodes.old {
      slots = linked_slots nodes.old.slots parent (prior_link nodes.old.slots parent before) before
          node;
    } }
    ensures steps { steps.new ≤ steps.old + 8 }
{
    let prior = prior_node(nodes, parent, before, steps);
    steps.tick();
    write_place(nodes, node.slot, Some(parent), prior, before);
    set_next(nodes, parent, prior, Some(node), steps);
    set_prev(nodes, parent, before, Some(node), steps);
}

// Takes a node out from between two neighbours.
pub(crate) fn take_in<L: Ledger>(
    nodes: &mut Slab<Node>,
    parent: NodeRef,
    prior: Option<NodeRef>,
    after: Option<NodeRef>,
    node: NodeRef,
    steps: &mut Steps<L>,
)
    requires parent { IsSome (get nodes.old parent.slot) }
    requires prior { IfSome prior (λ r. IsSome (get nodes.old r.slot)) }
    requires after { IfSome after (λ r. IsSome (get nodes.old r.slot)) }
    requires node { IsSome (get nodes.old node.slot) }
    ensures nodes { nodes.new
        ≡ record nodes.old { slots = unlinked_slots nodes.old.slots parent prior after node } }
    ensures steps { steps.new ≤ steps.old + 7 }
{
    steps.tick();
    write_place(nodes, node.slot, None, None, None);
    set_next(nodes, parent, prior, after, steps);
    set_prev(nodes, parent, after, prior, steps);
}
