//! The links that createLink and unlink are for.

ghost use Rattle.std.specs.Prelude.{◌≡◌, ◌++◌, ◌∷◌, ◌<◌, ◌≤◌, [], OnOk, IfOk, drop, filter, length, map, not, reverse};
ghost use Rattle.edit_model.specs.DomModel.Forest.{count_of};
ghost use Rattle.edit_model.specs.PointOrder.PointOrder.{is_ancestor};
ghost use Rattle.edit_model.specs.Valid.{IsPlacedPair};
ghost use Rattle.edit_model.specs.Gives.{labels_of};
ghost use Rattle.inline_value.specs.EditDoc.Held.{Holds, EachHeld};
ghost use Rattle.inline_value.specs.NodeStyles.Lineage.{lineage};
ghost use Rattle.inline_commands.specs.Linking.{links_around};
ghost use Rattle.inline_commands.specs.Merging.{around, beyond, links_above, links_inside, links_over, merged};
ghost use Rattle.inline_commands.specs.Unlink.{is_link, links_of_pair};

use crate::ranges::nodes_in_range;
use edit_model::boundary::{comes_before, is_ancestor, node_of};
use inline_value::actions::ends_of;
use inline_value::doc::{Doc, NodeRef, Pair, Point};
use inline_value::questions::contained_nodes;
use inline_value::values::is_link as is_link_content;
use std::alloc::{AllocError, Global};

// Whether a node is an a with the attribute href.
#[tactic(auto, unfolding(crate::specs::Unlink::is_link))]
fn is_link(doc: &Doc, node: NodeRef) -> bool
    requires { Holds doc.now node }
    ensures { result ≡ is_link doc.now.state.trees node.label }
{
    is_link_content(doc.content(node))
}

// Appends a node, if it is a link.
fn push_if_link(list: &mut Vec<NodeRef>, doc: &Doc, node: NodeRef) -> Result<(), AllocError>
    requires node_held { Holds doc.now node }
    requires each_held { EachHeld doc.now list.old.items }
    ensures held { EachHeld doc.now list.new.items }
    ensures ok { OnOk result (labels_of list.new.items ≡ labels_of list.old.items
        ++ filter (is_link doc.now.state.trees) (node.label ∷ [])) }
{
    if is_link(doc, node) {
        list.push(node)?;
    }
    Ok(())
}

// Appends the links among a node and its ancestors, outermost first.
fn push_above(list: &mut Vec<NodeRef>, doc: &Doc, node: NodeRef) -> Result<(), AllocError>
    requires node_held { Holds doc.now node }
    requires each_held { EachHeld doc.now list.old.items }
    ensures held { EachHeld doc.now list.new.items }
    ensures ok { OnOk result (labels_of list.new.items ≡ labels_of list.old.items
        ++ filter (is_link doc.now.state.trees) (reverse (map (λ k. k.label)
        (lineage doc.now.state.trees node.label)))) }
{
    doc.valid();
    match doc.parent(node) {
        None => push_if_link(list, doc, node),
        Some(parent) => {
            push_above(list, doc, parent)?;
            push_if_link(list, doc, node)
        }
    }
}

// The links among the ancestors of a node, the outermost first.
fn links_above(alloc: Global, doc: &Doc, node: NodeRef) -> Result<Vec<NodeRef>, AllocError>
    requires { Holds doc.now node }
    ensures held { IfOk result (λ list. EachHeld doc.now list.items) }
    ensures links { IfOk result (λ list. labels_of list.items
        ≡ links_above doc.now.state.trees node.label) }
{
    doc.valid();
    let mut list = Vec::new(alloc);
    match doc.parent(node) {
        None => Ok(list),
        Some(parent) => {
            push_above(&mut list, doc, parent)?;
            Ok(list)
        }
    }
}

// The links in a list.
fn links_among(alloc: Global, doc: &Doc, list: &[NodeRef]) -> Result<Vec<NodeRef>, AllocError>
    requires { EachHeld doc.now list.now }
    ensures held { IfOk result (λ kept. EachHeld doc.now kept.items) }
    ensures links { IfOk result (λ kept. labels_of kept.items
        ≡ filter (is_link doc.now.state.trees) (labels_of list.now)) }
{
    let mut kept = Vec::new(alloc);
    for node in list {
        if is_link(doc, *node) {
            kept.push(*node)?;
        }
    }
    Ok(kept)
}

// The links that a range contains. One that isn't in order contains none.
fn links_inside(alloc: Global, doc: &Doc, range: (Point, Point)) -> Result<Vec<NodeRef>, AllocError>
    requires start_there { 0 < count_of doc.now.state.trees range.0.label }
    requires end_there { 0 < count_of doc.now.state.trees range.1.label }
    ensures held { IfOk result (λ list. EachHeld doc.now list.items) }
    ensures links { IfOk result (λ list. labels_of list.items
        ≡ links_inside doc.now.state.trees range.0 range.1) }
{
    if !comes_before(doc, range.0, range.1) {
        return Ok(Vec::new(alloc));
    }
    let contained = contained_nodes(alloc, doc, range)?;
    links_among(alloc, doc, contained.as_slice())
}

// The nodes in a list that don't stand above another node.
fn not_above(
    alloc: Global,
    doc: &Doc,
    list: &[NodeRef],
    below: NodeRef,
) -> Result<Vec<NodeRef>, AllocError>
    requires list_held { EachHeld doc.now list.now }
    requires below_held { Holds doc.now below }
    ensures held { IfOk result (λ kept. EachHeld doc.now kept.items) }
    ensures nodes { IfOk result (λ kept. labels_of kept.items
        ≡ filter (λ l. not (is_ancestor doc.now.state.trees l below.label)) (labels_of list.now)) }
{
    let mut kept = Vec::new(alloc);
    for node in list {
        if !is_ancestor(doc, *node, below) {
            kept.push(*node)?;
        }
    }
    Ok(kept)
}

// The links among the ancestors of a node that aren't among those of another one.
fn links_beside(
    alloc: Global,
    doc: &Doc,
    node: NodeRef,
    other: NodeRef,
) -> Result<Vec<NodeRef>, AllocError>
    requires node_held { Holds doc.now node }
    requires other_held { Holds doc.now other }
    ensures held { IfOk result (λ list. EachHeld doc.now list.items) }
    ensures links { IfOk result (λ list. labels_of list.items
        ≡ filter (λ l. not (is_ancestor doc.now.state.trees l other.label))
        (links_above doc.now.state.trees node.label)) }
{
    let above = links_above(alloc, doc, node)?;
    not_above(alloc, doc, &above, other)
}

// Appends the nodes in a list from a place on for as long as each stands above a node. It answers
// at which place it stopped.
fn push_around(
    list: &mut Vec<NodeRef>,
    doc: &Doc,
    above: &[NodeRef],
    from: usize,
    node: NodeRef,
) -> Result<usize, AllocError>
    requires above_held { EachHeld doc.now above.now }
    requires node_held { Holds doc.now node }
    requires each_held { EachHeld doc.now list.old.items }
    requires from { from ≤ length above.now }
    ensures held { EachHeld doc.now list.new.items }
    ensures stop { IfOk result (λ at. at ≤ length above.now) }
    ensures around { OnOk result (labels_of list.new.items ≡ labels_of list.old.items
        ++ around doc.now.state.trees (labels_of (drop from above.now)) node.label) }
    ensures beyond { IfOk result (λ at. labels_of (drop at above.now)
        ≡ beyond doc.now.state.trees (labels_of (drop from above.now)) node.label) }
{
    let mut at = from;
    while at < above.len() {
        if !is_ancestor(doc, above[at], node) {
            return Ok(at);
        }
        list.push(above[at])?;
        at += 1;
    }
    Ok(at)
}

// Appends two lists in tree order: each node of the first, which are ancestors of one node, before
// the first node of the second that it stands above.
fn push_merged(
    list: &mut Vec<NodeRef>,
    doc: &Doc,
    above: &[NodeRef],
    inside: &[NodeRef],
) -> Result<(), AllocError>
    requires above_held { EachHeld doc.now above.now }
    requires inside_held { EachHeld doc.now inside.now }
    requires each_held { EachHeld doc.now list.old.items }
    ensures held { EachHeld doc.now list.new.items }
    ensures ok { OnOk result (labels_of list.new.items ≡ labels_of list.old.items
        ++ merged doc.now.state.trees (labels_of above.now) (labels_of inside.now)) }
{
    let mut at = 0;
    for node in inside {
        at = push_around(list, doc, above, at, *node)?;
        list.push(*node)?;
    }
    list.extend_from_slice(&above[at..])?;
    Ok(())
}

/// The links that unlink is for, in tree order: those around the start of the range, and with those
/// that it contains those around its end alone. It looks at the nodes from the start to the end and
/// those above them.
#[tactic(auto, using(crate::proofs::Below::placed_here))]
pub(crate) fn links_of(alloc: Global, doc: &Doc, pair: Pair) -> Result<Vec<NodeRef>, AllocError>
    requires { IsPlacedPair doc.now.state.trees pair }
    ensures held { IfOk result (λ list. EachHeld doc.now list.items) }
    ensures links { IfOk result (λ list. labels_of list.items
        ≡ links_of_pair doc.now.state.trees pair) }
{
    doc.valid();
    let (start, end) = ends_of(doc, pair);
    let first = node_of(doc, start);
    let mut list = links_above(alloc, doc, first)?;
    let beside = links_beside(alloc, doc, node_of(doc, end), first)?;
    let inside = links_inside(alloc, doc, (start, end))?;
    push_merged(&mut list, doc, &beside, &inside)?;
    Ok(list)
}

// The links above the nodes of a list, each once where the list is in tree order: of each node
// those that don't stand above the one before it.
fn links_over(alloc: Global, doc: &Doc, list: &[NodeRef]) -> Result<Vec<NodeRef>, AllocError>
    requires { EachHeld doc.now list.now }
    ensures held { IfOk result (λ links. EachHeld doc.now links.items) }
    ensures links { IfOk result (λ links. labels_of links.items
        ≡ links_over doc.now.state.trees 0 (labels_of list.now)) }
{
    let mut links = Vec::new(alloc);
    let mut last = doc.document();
    for node in list {
        let beside = links_beside(alloc, doc, *node, last)?;
        links.extend_from_slice(&beside)?;
        last = *node;
    }
    Ok(links)
}

/// The links that createLink is for, in tree order. It looks at the nodes that the active range
/// effectively contains and those above them.
pub(crate) fn links_around(alloc: Global, doc: &Doc) -> Result<Vec<NodeRef>, AllocError>
    ensures held { IfOk result (λ list. EachHeld doc.now list.items) }
    ensures links { IfOk result (λ list. labels_of list.items ≡ links_around doc.now.state) }
{
    doc.valid();
    let list = nodes_in_range(alloc, doc)?;
    links_over(alloc, doc, list.as_slice())
}
