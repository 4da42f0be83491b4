//! Insert a paragraph, step 4: a line without a container of its own gets one. The steps are those
//! of docs/ALGORITHMS.md.

ghost use Rattle.std.specs.Prelude.{◌≡◌, ◌<◌, ◌++◌, IfOk};
ghost use Rattle.std.specs.List.{find};
ghost use Rattle.edit_model.specs.DomModel.Forest.{count_of};
ghost use Rattle.edit_model.specs.Gives.{GivesMaybe, label_of, labels_of};
ghost use Rattle.inline_value.specs.EditDoc.Whole.{IsOpen};
ghost use Rattle.inline_value.specs.EditDoc.Held.{Holds, IfHeld, EachHeld, Finds, Keeps};
ghost use Rattle.inline_value.specs.WrapSplit.Walks.{turn_bound};
ghost use Rattle.text_insertion.specs.Containers as containers;

use crate::start::{active_start, insert_at_start};
use delete_core::{select, start_in};
use edit_model::boundary::node_of;
use edit_model::dom::Attributes;
use inline_value::actions::ends_of;
use inline_value::container_name;
use inline_value::doc::{Doc, EditFault, NodeList, NodeRef, Point};
use inline_value::extend::block_extend;
use inline_value::query::nodes_in;
use inline_value::questions::{allowed_in_name, is_single_line, name_allowed_in};
use inline_value::wrap::{Blank, CopyMade, NoSibling, WrapRule, append_break, turn_bound, wrap};
use std::alloc::{AllocError, Global};

#[tactic(auto, unfolding(crate::specs::Containers::is_own_container))]
fn is_own_container(doc: &Doc, node: NodeRef) -> bool
    requires { Holds doc.now node }
    ensures { result ≡ containers.is_own_container doc.now.state node.label }
{
    doc.is_editable_for(node) && is_single_line(doc, node)
}

// Whether a node is editable and may stand in a paragraph.
#[tactic(auto, unfolding(crate::specs::Containers::is_line_content))]
fn is_line_content(doc: &Doc, node: NodeRef) -> bool
    requires { Holds doc.now node }
    ensures { result ≡ containers.is_line_content doc.now.state node.label }
{
    doc.is_editable_for(node) && allowed_in_name(doc, node, b"p")
}

// The first such node of a list.
#[tactic(auto, using(edit_model::proofs::Steps::labels_of_drop, edit_model::proofs::Steps::labels_of_end))]
fn first_content_in(doc: &Doc, list: &[NodeRef]) -> Option<NodeRef>
    requires { EachHeld doc.now list.now }
    ensures { Finds doc.now result
        (find (containers.is_line_content doc.now.state) (labels_of list.now)) }
{
    for node in list {
        if is_line_content(doc, *node) {
            return Some(*node);
        }
    }
    None
}

fn first_between(
    alloc: Global,
    doc: &Doc,
    range: (Point, Point),
) -> Result<Option<NodeRef>, AllocError>
    requires start { 0 < count_of doc.now.state.trees range.0.label }
    requires end { 0 < count_of doc.now.state.trees range.1.label }
    ensures { IfOk result (λ found.
        Finds doc.now found (containers.first_between doc.now.state range)) }
{
    let list = nodes_in(alloc, doc, range)?;
    Ok(first_content_in(doc, list.as_slice()))
}

// The first such node in the block-extended active range.
#[tactic(auto, using(crate::proofs::Below::placed_here), unfolding(crate::specs::Containers::first_content))]
fn first_content(alloc: Global, doc: &Doc) -> Result<Option<NodeRef>, AllocError>
    ensures { IfOk result (λ found. Finds doc.now found (containers.first_content doc.now.state)) }
{
    doc.valid();
    let Some(pair) = doc.points().selection() else {
        return Ok(None);
    };
    let range = block_extend(doc, ends_of(doc, pair));
    first_between(alloc, doc, range)
}

// Whether a default container may stand in the node of the start of the active range.
#[tactic(auto, unfolding(crate::specs::Containers::takes_container))]
fn takes_container(doc: &Doc) -> bool
    ensures { result ≡ containers.takes_container doc.now.state }
{
    let Some(at) = active_start(doc) else {
        return false;
    };
    let node = node_of(doc, at);
    if doc.flags().paragraphs {
        name_allowed_in(doc, b"p", node)
    } else {
        name_allowed_in(doc, b"div", node)
    }
}

// Step 4: where nothing can be wrapped, an empty container at the start of the active range, with the
// caret at the start of it.
#[tactic(auto, using(edit_model::proofs::Steps::steps, edit_model::proofs::Steps::exits, edit_model::proofs::Steps::actions), unfolding(crate::specs::Containers::make_container, crate::specs::Containers::insert_container, crate::specs::Containers::add_container))]
fn add_container(alloc: Global, doc: &mut Doc) -> Result<Option<NodeRef>, EditFault>
    requires open { IsOpen doc.old }
    ensures gives { GivesMaybe result doc.old.state doc.new.state containers.add_container }
    ensures held { IfOk result (λ made. IfHeld doc.new made) }
    ensures keeps { Keeps doc.old doc.new }
{
    if !takes_container(doc) {
        return Ok(None);
    }
    let name = container_name(alloc, doc.flags().paragraphs)?;
    let container = doc.make_element(&name, &Attributes::new(alloc))?;
    append_break(alloc, doc, container)?;
    insert_at_start(doc, container)?;
    let caret = start_in(container);
    select(doc, caret, caret);
    Ok(None)
}

// A node, if there is one, that may stand in a paragraph.
fn if_paragraph_child(doc: &Doc, node: Option<NodeRef>) -> Option<NodeRef>
    requires { IfHeld doc.now node }
    ensures { Finds doc.now result (containers.if_paragraph_child doc.now.state (label_of node)) }
{
    let node = node?;
    if allowed_in_name(doc, node, b"p") {
        Some(node)
    } else {
        None
    }
}

// Step 4: a list with the siblings after its last member that may stand in a paragraph.
#[tactic(auto, using(crate::proofs::Rows::contents, edit_model::proofs::Steps::labels_of_push, edit_model::proofs::Steps::append_none))]
fn with_contents_after(
    doc: &Doc,
    list: Vec<NodeRef>,
    last: NodeRef,
) -> Result<Vec<NodeRef>, AllocError>
    requires list_held { EachHeld doc.now list.items }
    requires last_held { Holds doc.now last }
    ensures gives { IfOk result (λ v. labels_of v.items
        ≡ labels_of list.items
        ++ containers.contents_after doc.now.state (turn_bound doc.now.state) last.label) }
    ensures held { IfOk result (λ v. EachHeld doc.now v.items) }
{
    let mut list = list;
    let mut at = last;
    let mut turns = turn_bound(doc);
    while turns > 0 {
        let Some(next) = if_paragraph_child(doc, doc.next(at)) else {
            return Ok(list);
        };
        list.push(next)?;
        at = next;
        turns -= 1;
    }
    Ok(list)
}

// Step 4: the line that begins with a node.
#[tactic(auto, unfolding(crate::specs::Containers::contents_from))]
fn contents_from(alloc: Global, doc: &Doc, first: NodeRef) -> Result<Vec<NodeRef>, AllocError>
    requires { Holds doc.now first }
    ensures gives { IfOk result (λ v. labels_of v.items
        ≡ containers.contents_from doc.now.state first.label) }
    ensures held { IfOk result (λ v. EachHeld doc.now v.items) }
{
    let mut list = Vec::new(alloc);
    list.push(first)?;
    with_contents_after(doc, list, first)
}

// Step 4: wraps the line that begins with a node in a new default container.
#[tactic(auto, using(edit_model::proofs::Steps::steps, edit_model::proofs::Steps::exits), unfolding(crate::specs::Containers::wrap_line))]
fn wrap_line(alloc: Global, doc: &mut Doc, first: NodeRef) -> Result<Option<NodeRef>, EditFault>
    requires open { IsOpen doc.old }
    requires first_held { Holds doc.old first }
    ensures gives { GivesMaybe result doc.old.state doc.new.state
        (containers.wrap_line first.label) }
    ensures held { IfOk result (λ made. IfHeld doc.new made) }
    ensures keeps { Keeps doc.old doc.new }
{
    let blank = Blank {
        name: container_name(alloc, doc.flags().paragraphs)?,
        attributes: Attributes::new(alloc),
    };
    let line = contents_from(alloc, doc, first)?;
    let list = NodeList::from_slice(alloc, &line)?;
    wrap(
        alloc,
        doc,
        list,
        &WrapRule::new(NoSibling, CopyMade { blank }),
    )
}

/// Step 4: the container of a line, the node that was found, where it is one that is editable, or
/// else one that is put round the line. None where the algorithm ends.
#[tactic(auto, using(edit_model::proofs::Steps::steps, edit_model::proofs::Steps::exits), unfolding(crate::specs::Containers::make_line, crate::specs::Containers::own_container))]
pub(crate) fn own_container(
    alloc: Global,
    doc: &mut Doc,
    node: NodeRef,
) -> Result<Option<NodeRef>, EditFault>
    requires open { IsOpen doc.old }
    requires node_held { Holds doc.old node }
    ensures gives { GivesMaybe result doc.old.state doc.new.state
        (containers.own_container node.label) }
    ensures held { IfOk result (λ container. IfHeld doc.new container) }
    ensures keeps { Keeps doc.old doc.new }
{
    if is_own_container(doc, node) {
        return Ok(Some(node));
    }
    match first_content(alloc, doc)? {
        Some(first) => wrap_line(alloc, doc, first),
        None => add_container(alloc, doc),
    }
}
