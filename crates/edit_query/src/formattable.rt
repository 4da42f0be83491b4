//! The formattable nodes that the active range effectively contains.

ghost use Rattle.std.specs.Prelude.{◌≡◌, IfOk};
ghost use Rattle.edit_model.specs.Gives.{label_of, labels_of};
ghost use Rattle.edit_model.specs.Valid.{IsPlacedPair};
ghost use Rattle.edit_actions.specs.EditDoc.Held.{Holds, IfHeld, EachHeld, Finds};
ghost use Rattle.block_extend.specs.NodeTests.Ranges.{effective_nodes};
ghost use Rattle.edit_actions.specs.ActiveRange.{start_of, end_of};
ghost use Rattle.edit_query.specs.Formattable.{first_in, formattable_between, formattable_nodes, first_formattable, start_node};

use crate::sought::{Sought, first_sought, sought_of};
use block_extend::questions::effective_nodes;
use edit_actions::doc::{Doc, NodeList, NodeRef, Pair};
use edit_actions::ends_of;
use edit_model::boundary::node_of;
use std::alloc::{AllocError, Global};

/// The nodes that the range of a pair of points effectively contains.
#[tactic(auto, using(edit_actions::proofs::Placed::placed_here, crate::proofs::Lists::labels_mapped, crate::proofs::Lists::each_held))]
pub(crate) fn effective_between(
    alloc: Global,
    doc: &Doc,
    pair: Pair,
) -> Result<NodeList, AllocError>
    requires { IsPlacedPair doc.now.state.trees pair }
    ensures held { IfOk result (λ list. EachHeld doc.now list) }
    ensures nodes { IfOk result (λ list. labels_of list ≡ effective_nodes doc.now.state.trees
        (start_of doc.now.state.trees pair) (end_of doc.now.state.trees pair)) }
{
    effective_nodes(alloc, doc, ends_of(doc, pair))
}

// The formattable ones of them.
#[tactic(auto, unfolding(crate::specs::Formattable::formattable_between))]
fn formattable_between(
    alloc: Global,
    doc: &Doc,
    host: NodeRef,
    pair: Pair,
) -> Result<Vec<NodeRef>, AllocError>
    requires host_held { Holds doc.now host }
    requires placed { IsPlacedPair doc.now.state.trees pair }
    ensures held { IfOk result (λ list. EachHeld doc.now list.items) }
    ensures nodes { IfOk result
        (λ list. labels_of list.items ≡ formattable_between doc.now.state.trees host.label pair) }
{
    let list = effective_between(alloc, doc, pair)?;
    sought_of(alloc, doc, host, Sought::Formattable, list.as_slice())
}

// The first of these.
#[tactic(auto, unfolding(crate::specs::Formattable::formattable_between))]
fn first_between(
    alloc: Global,
    doc: &Doc,
    host: NodeRef,
    pair: Pair,
) -> Result<Option<NodeRef>, AllocError>
    requires host_held { Holds doc.now host }
    requires placed { IsPlacedPair doc.now.state.trees pair }
    ensures { IfOk result
        (λ node. Finds doc.now node
        (first_in (formattable_between doc.now.state.trees host.label pair))) }
{
    let list = effective_between(alloc, doc, pair)?;
    Ok(first_sought(doc, host, Sought::Formattable, list.as_slice()))
}

/// The formattable nodes, those with `host` as their editing host, that the active range
/// effectively contains, in tree order (HTML Editing APIs, "formattable node", "effectively
/// contained"). There are none without a host, without a selection, and at a caret.
#[tactic(auto, unfolding(crate::specs::Formattable::formattable_nodes))]
pub fn formattable_nodes(
    alloc: Global,
    doc: &Doc,
    host: Option<NodeRef>,
) -> Result<Vec<NodeRef>, AllocError>
    requires { IfHeld doc.now host }
    ensures held { IfOk result (λ list. EachHeld doc.now list.items) }
    ensures nodes { IfOk result (λ list. labels_of list.items
        ≡ formattable_nodes doc.now.state (label_of host)) }
{
    doc.valid();
    match (host, doc.points().selection()) {
        (Some(host), Some(pair)) => formattable_between(alloc, doc, host, pair),
        _ => Ok(Vec::new(alloc)),
    }
}

/// The first of [`formattable_nodes`]. It tests no node after it.
#[tactic(auto, unfolding(crate::specs::Formattable::first_formattable, crate::specs::Formattable::formattable_nodes))]
pub fn first_formattable(
    alloc: Global,
    doc: &Doc,
    host: Option<NodeRef>,
) -> Result<Option<NodeRef>, AllocError>
    requires { IfHeld doc.now host }
    ensures { IfOk result (λ node.
        Finds doc.now node (first_formattable doc.now.state (label_of host))) }
{
    doc.valid();
    match (host, doc.points().selection()) {
        (Some(host), Some(pair)) => first_between(alloc, doc, host, pair),
        _ => Ok(None),
    }
}

/// The node of the active range's start.
#[tactic(auto, using(edit_actions::proofs::Placed::placed_here), unfolding(crate::specs::Formattable::start_node))]
pub(crate) fn start_node(doc: &Doc) -> Option<NodeRef>
    ensures { Finds doc.now result (start_node doc.now.state) }
{
    doc.valid();
    match doc.points().selection() {
        Some(pair) => Some(node_of(doc, ends_of(doc, pair).0)),
        None => None,
    }
}
