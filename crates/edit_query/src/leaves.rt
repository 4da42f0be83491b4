//! The leaves of the block-extended active range: its visible editable nodes without children.

ghost use Rattle.std.specs.Prelude.{◌≡◌, ◌<◌, IfOk};
ghost use Rattle.edit_model.specs.DomModel.Forest.{count_of};
ghost use Rattle.edit_model.specs.Gives.{label_of, labels_of};
ghost use Rattle.edit_model.specs.Valid.{IsPlacedPair};
ghost use Rattle.edit_actions.specs.EditDoc.Held.{Holds, IfHeld, EachHeld, Finds};
ghost use Rattle.edit_query.specs.Formattable.{first_in};
ghost use Rattle.edit_query.specs.Leaves.{is_leaf, nodes_in, extended_nodes, leaves_between, leaves, first_leaf};

use crate::sought::{Sought, first_sought, sought_of};
use block_extend::block_extend;
use block_extend::questions::{contained_nodes, is_editable, is_visible};
use edit_actions::doc::{Doc, NodeList, NodeRef, Pair, Point};
use edit_actions::ends_of;
use std::alloc::{AllocError, Global};

/// Whether a node is editable with this host, has no children and is visible. Of a node with
/// children no ancestor is looked at.
#[tactic(auto, unfolding(crate::specs::Leaves::is_leaf))]
pub(crate) fn is_leaf(doc: &Doc, host: NodeRef, node: NodeRef) -> bool
    requires host_held { Holds doc.now host }
    requires node_held { Holds doc.now node }
    ensures { result ≡ is_leaf doc.now.state.trees host.label node.label }
{
    doc.first_child(node).is_none() && is_editable(doc, host, node) && is_visible(doc, node)
}

/// The nodes that a range contains, in tree order.
#[tactic(auto, using(crate::proofs::Lists::labels_mapped, crate::proofs::Lists::each_held))]
pub fn nodes_in(alloc: Global, doc: &Doc, range: (Point, Point)) -> Result<NodeList, AllocError>
    requires start { 0 < count_of doc.now.state.trees range.0.label }
    requires end { 0 < count_of doc.now.state.trees range.1.label }
    ensures held { IfOk result (λ list. EachHeld doc.now list) }
    ensures nodes { IfOk result (λ list. labels_of list ≡ nodes_in doc.now.state.trees range) }
{
    contained_nodes(alloc, doc, range)
}

// The nodes that the block-extended range of a pair of points contains.
#[tactic(auto, using(edit_actions::proofs::Placed::placed_here), unfolding(crate::specs::Leaves::extended_nodes))]
fn extended_nodes(alloc: Global, doc: &Doc, pair: Pair) -> Result<NodeList, AllocError>
    requires { IsPlacedPair doc.now.state.trees pair }
    ensures held { IfOk result (λ list. EachHeld doc.now list) }
    ensures nodes { IfOk result (λ list. labels_of list ≡ extended_nodes doc.now.state.trees pair) }
{
    nodes_in(alloc, doc, block_extend(doc, ends_of(doc, pair)))
}

// The leaves among them.
#[tactic(auto, unfolding(crate::specs::Leaves::leaves_between))]
fn leaves_between(
    alloc: Global,
    doc: &Doc,
    host: NodeRef,
    pair: Pair,
) -> Result<Vec<NodeRef>, AllocError>
    requires host_held { Holds doc.now host }
    requires placed { IsPlacedPair doc.now.state.trees pair }
    ensures held { IfOk result (λ list. EachHeld doc.now list.items) }
    ensures nodes { IfOk result (λ list. labels_of list.items
        ≡ leaves_between doc.now.state.trees host.label pair) }
{
    let list = extended_nodes(alloc, doc, pair)?;
    sought_of(alloc, doc, host, Sought::Leaf, list.as_slice())
}

// The first of these.
#[tactic(auto, unfolding(crate::specs::Leaves::leaves_between))]
fn first_between(
    alloc: Global,
    doc: &Doc,
    host: NodeRef,
    pair: Pair,
) -> Result<Option<NodeRef>, AllocError>
    requires host_held { Holds doc.now host }
    requires placed { IsPlacedPair doc.now.state.trees pair }
    ensures { IfOk result (λ node.
        Finds doc.now node (first_in (leaves_between doc.now.state.trees host.label pair))) }
{
    let list = extended_nodes(alloc, doc, pair)?;
    Ok(first_sought(doc, host, Sought::Leaf, list.as_slice()))
}

/// The visible nodes without children, editable with `host` as their editing host, that the
/// block-extended active range contains, in tree order. There are none without a host and without a
/// selection.
#[tactic(auto, unfolding(crate::specs::Leaves::leaves))]
pub(crate) fn leaves(
    alloc: Global,
    doc: &Doc,
    host: Option<NodeRef>,
) -> Result<Vec<NodeRef>, AllocError>
    requires { IfHeld doc.now host }
    ensures held { IfOk result (λ list. EachHeld doc.now list.items) }
    ensures nodes { IfOk result (λ list. labels_of list.items
        ≡ leaves doc.now.state (label_of host)) }
{
    doc.valid();
    match (host, doc.points().selection()) {
        (Some(host), Some(pair)) => leaves_between(alloc, doc, host, pair),
        _ => Ok(Vec::new(alloc)),
    }
}

/// The first of [`leaves`]. It tests no node after it.
#[tactic(auto, unfolding(crate::specs::Leaves::first_leaf, crate::specs::Leaves::leaves))]
pub(crate) fn first_leaf(
    alloc: Global,
    doc: &Doc,
    host: Option<NodeRef>,
) -> Result<Option<NodeRef>, AllocError>
    requires { IfHeld doc.now host }
    ensures { IfOk result (λ node. Finds doc.now node (first_leaf doc.now.state (label_of host))) }
{
    doc.valid();
    match (host, doc.points().selection()) {
        (Some(host), Some(pair)) => first_between(alloc, doc, host, pair),
        _ => Ok(None),
    }
}
