//! The nodes that the active range effectively contains, in tree order.

ghost use Rattle.std.specs.Prelude.{◌≡◌, IfOk};
ghost use Rattle.std.specs.List.{filter};
ghost use Rattle.edit_model.specs.Gives.{labels_of};
ghost use Rattle.inline_value.specs.EditDoc.Held.{Holds, EachHeld};
ghost use Rattle.inline_value.specs.Selections.{nodes_in_range};
ghost use Rattle.inline_commands.specs.RemovingFormat.{is_candidate, candidates_in_range};

use inline_value::actions::ends_of;
use inline_value::doc::{Doc, NodeList, NodeRef};
use inline_value::questions::{effective_nodes, is_format_candidate};
use std::alloc::{AllocError, Global};

/// All of them.
#[tactic(auto, using(crate::proofs::Below::placed_here), unfolding(inline_value::specs::Selections::nodes_in_range))]
pub(crate) fn nodes_in_range(alloc: Global, doc: &Doc) -> Result<NodeList, AllocError>
    ensures held { IfOk result (λ list. EachHeld doc.now list) }
    ensures nodes { IfOk result (λ list. labels_of list ≡ nodes_in_range doc.now.state) }
{
    doc.valid();
    match doc.points().selection() {
        Some(pair) => effective_nodes(alloc, doc, ends_of(doc, pair)),
        None => NodeList::from_slice(alloc, &[]),
    }
}

/// Whether a node is a removeFormat candidate for the running command's host.
#[tactic(auto, unfolding(crate::specs::RemovingFormat::is_candidate))]
pub(crate) fn is_candidate(doc: &Doc, node: NodeRef) -> bool
    requires { Holds doc.now node }
    ensures { result ≡ is_candidate doc.now.state node.label }
{
    match doc.host() {
        Some(host) => is_format_candidate(doc, host, node),
        None => false,
    }
}

// Of a list, the removeFormat candidates.
fn candidates_of(alloc: Global, doc: &Doc, list: &[NodeRef]) -> Result<Vec<NodeRef>, AllocError>
    requires { EachHeld doc.now list.now }
    ensures held { IfOk result (λ kept. EachHeld doc.now kept.items) }
    ensures nodes { IfOk result
        (λ kept. labels_of kept.items ≡ filter (is_candidate doc.now.state) (labels_of list.now)) }
{
    let mut kept = Vec::new(alloc);
    for node in list {
        if is_candidate(doc, *node) {
            kept.push(*node)?;
        }
    }
    Ok(kept)
}

/// The removeFormat candidates among them.
#[tactic(auto, unfolding(crate::specs::RemovingFormat::candidates_in_range))]
pub(crate) fn candidates_in_range(alloc: Global, doc: &Doc) -> Result<Vec<NodeRef>, AllocError>
    ensures held { IfOk result (λ list. EachHeld doc.now list.items) }
    ensures nodes { IfOk result (λ list. labels_of list.items ≡ candidates_in_range doc.now.state) }
{
    let list = nodes_in_range(alloc, doc)?;
    candidates_of(alloc, doc, list.as_slice())
}
