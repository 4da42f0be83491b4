//! Insert a paragraph, steps 7 to 9: a single-line container is parted in two. The steps are those
//! of docs/ALGORITHMS.md.

ghost use Rattle.std.specs.Prelude.{◌≡◌, ◌<◌, IfOk, IfSome, codes};
ghost use Rattle.edit_model.specs.DomModel.AttributeList.{unset_in};
ghost use Rattle.edit_model.specs.DomModel.Forest.{count_of};
ghost use Rattle.edit_model.specs.Compositions as compositions;
ghost use Rattle.edit_model.specs.Gives.{Gives, GivesNode, labels_of};
ghost use Rattle.inline_value.specs.EditDoc.Whole.{IsOpen};
ghost use Rattle.inline_value.specs.EditDoc.Held.{Holds, EachHeld, Finds, Keeps};
ghost use Rattle.text_insertion.specs.Halves as halves;

use crate::start::active_start;
use delete_core::{after_node, before_node, end_in, select, shows_child, start_in};
use edit_model::boundary::node_of;
use edit_model::dom::{Attributes, Content};
use edit_model::element_names::is_heading;
use inline_value::actions::{attributes_of, insert_after, tag_of};
use inline_value::doc::{Doc, EditFault, Name, NodeRef, Point};
use inline_value::query::nodes_in;
use inline_value::questions::{has_name, is_break};
use inline_value::wrap::{append_break, turn_bound};
use inline_value::{container_name, is_prohibited};
use std::alloc::{AllocError, Global};

// Step 7: out of a node at its start.
#[tactic(auto, unfolding(crate::specs::Halves::leave_start))]
fn leave_start(doc: &Doc, node: NodeRef, at: Point) -> Option<Point>
    requires held { Holds doc.now node }
    requires label { at.label ≡ node.label }
    ensures gives { result ≡ halves.leave_start doc.now.state at }
    ensures there { IfSome result (λ next. 0 < count_of doc.now.state.trees next.label) }
{
    if at.offset == 0 && !is_prohibited(doc, node) {
        before_node(doc, node)
    } else {
        None
    }
}

// Step 7: out of a node at its end.
#[tactic(auto, unfolding(crate::specs::Halves::leave_end))]
fn leave_end(doc: &Doc, node: NodeRef, at: Point) -> Option<Point>
    requires held { Holds doc.now node }
    requires label { at.label ≡ node.label }
    ensures gives { result ≡ halves.leave_end doc.now.state at }
    ensures there { IfSome result (λ next. 0 < count_of doc.now.state.trees next.label) }
{
    if at.offset == doc.length(node) && !is_prohibited(doc, node) {
        after_node(doc, node)
    } else {
        None
    }
}

// Step 7: out of the nodes that a point starts.
#[tactic(auto, using(delete_core::proofs::Turns::point_walks), unfolding(crate::specs::Halves::outer_start))]
fn outer_start(doc: &Doc, at: Point) -> Point
    requires { 0 < count_of doc.now.state.trees at.label }
    ensures gives { result ≡ halves.outer_start doc.now.state at }
    ensures there { 0 < count_of doc.now.state.trees result.label }
{
    let mut at = at;
    let mut turns = turn_bound(doc);
    while turns > 0 {
        let Some(next) = leave_start(doc, node_of(doc, at), at) else {
            return at;
        };
        at = next;
        turns -= 1;
    }
    at
}

// Step 7: out of the nodes that a point ends.
#[tactic(auto, using(delete_core::proofs::Turns::point_walks), unfolding(crate::specs::Halves::outer_end))]
fn outer_end(doc: &Doc, at: Point) -> Point
    requires { 0 < count_of doc.now.state.trees at.label }
    ensures gives { result ≡ halves.outer_end doc.now.state at }
    ensures there { 0 < count_of doc.now.state.trees result.label }
{
    let mut at = at;
    let mut turns = turn_bound(doc);
    while turns > 0 {
        let Some(next) = leave_end(doc, node_of(doc, at), at) else {
            return at;
        };
        at = next;
        turns -= 1;
    }
    at
}

// Step 7.
#[tactic(auto, unfolding(crate::specs::Halves::parting_point))]
fn parting_point(doc: &Doc, at: Point) -> Point
    requires { 0 < count_of doc.now.state.trees at.label }
    ensures gives { result ≡ halves.parting_point doc.now.state at }
    ensures there { 0 < count_of doc.now.state.trees result.label }
{
    outer_end(doc, outer_start(doc, at))
}

// Step 8: whether a list is empty, or a br alone.
#[tactic(auto, using(crate::proofs::Rows::alone))]
fn is_break_alone(doc: &Doc, list: &[NodeRef]) -> bool
    requires { EachHeld doc.now list.now }
    ensures { result ≡ halves.is_break_alone doc.now.state.trees (labels_of list.now) }
{
    if list.len() == 0 {
        return true;
    }
    list.len() == 1 && is_break(doc, list[0])
}

// Step 8: whether nothing, or a br alone, stands in a container from a point on.
#[tactic(auto, unfolding(crate::specs::Halves::ends_line))]
fn ends_line(alloc: Global, doc: &Doc, at: Point, container: NodeRef) -> Result<bool, AllocError>
    requires here { 0 < count_of doc.now.state.trees at.label }
    requires held { Holds doc.now container }
    ensures { IfOk result (λ ends. ends ≡ halves.ends_line doc.now.state at container.label) }
{
    let list = nodes_in(alloc, doc, (at, end_in(doc, container)))?;
    Ok(is_break_alone(doc, list.as_slice()))
}

#[tactic(auto, unfolding(crate::specs::Halves::is_heading_at))]
fn is_heading_at(doc: &Doc, node: NodeRef) -> bool
    requires { Holds doc.now node }
    ensures { result ≡ halves.is_heading_at doc.now.state node.label }
{
    match doc.content(node) {
        Content::Element {
            name,
            attributes: _,
        } => is_heading(name.as_slice()),
        _ => false,
    }
}

// Step 8: what comes after a whole heading, dt or dd.
#[tactic(auto, unfolding(crate::specs::Halves::name_after))]
fn name_after(alloc: Global, doc: &Doc, container: NodeRef) -> Result<Name, AllocError>
    requires { Holds doc.now container }
    ensures { IfOk result (λ name. name ≡ halves.name_after doc.now.state container.label) }
{
    if is_heading_at(doc, container) {
        container_name(alloc, doc.flags().paragraphs)
    } else if has_name(doc, container, b"dt") {
        Name::from_slice(alloc, b"dd")
    } else if has_name(doc, container, b"dd") {
        Name::from_slice(alloc, b"dt")
    } else {
        tag_of(alloc, doc, container)
    }
}

// Step 8: the name of the second container.
#[tactic(auto, unfolding(crate::specs::Halves::second_name))]
fn second_name(alloc: Global, doc: &Doc, at: Point, container: NodeRef) -> Result<Name, AllocError>
    requires here { 0 < count_of doc.now.state.trees at.label }
    requires held { Holds doc.now container }
    ensures { IfOk result (λ name. name ≡ halves.second_name doc.now.state at container.label) }
{
    if ends_line(alloc, doc, at, container)? {
        name_after(alloc, doc, container)
    } else {
        tag_of(alloc, doc, container)
    }
}

// Step 8: its attributes.
fn second_attributes(alloc: Global, doc: &Doc, container: NodeRef) -> Result<Attributes, AllocError>
    requires { Holds doc.now container }
    ensures { IfOk result
        (λ list. list
        ≡ unset_in (compositions.attribute_list_of doc.now.state.trees container.label)
        (codes "id")) }
{
    let mut list = attributes_of(alloc, doc, container)?;
    list.unset(b"id");
    Ok(list)
}

// Step 8: makes the second container.
#[tactic(auto, using(edit_model::proofs::Steps::steps, edit_model::proofs::Steps::exits), unfolding(crate::specs::Halves::make_second))]
fn make_second(
    alloc: Global,
    doc: &mut Doc,
    at: Point,
    container: NodeRef,
) -> Result<NodeRef, EditFault>
    requires open { IsOpen doc.old }
    requires here { 0 < count_of doc.old.state.trees at.label }
    requires container_held { Holds doc.old container }
    ensures gives { GivesNode result doc.old.state doc.new.state
        (halves.make_second at container.label) }
    ensures held { IfOk result (λ r. Holds doc.new r) }
    ensures keeps { Keeps doc.old doc.new }
{
    let name = second_name(alloc, doc, at, container)?;
    let attributes = second_attributes(alloc, doc, container)?;
    doc.make_element(&name, &attributes)
}

// Step 9: the last child of a node, where it is a prohibited paragraph child.
#[tactic(auto, unfolding(crate::specs::Halves::into_last_block))]
fn into_last_block(doc: &Doc, node: NodeRef) -> Option<NodeRef>
    requires { Holds doc.now node }
    ensures { Finds doc.now result (halves.into_last_block doc.now.state node.label) }
{
    let child = doc.last_child(node)?;
    if is_prohibited(doc, child) {
        Some(child)
    } else {
        None
    }
}

// Step 9: down by such children.
#[tactic(auto, using(crate::proofs::Below::walks), unfolding(crate::specs::Halves::deepest_last))]
fn deepest_last(doc: &Doc, node: NodeRef) -> NodeRef
    requires { Holds doc.now node }
    ensures gives { result.label ≡ halves.deepest_last doc.now.state node.label }
    ensures held { Holds doc.now result }
{
    let mut at = node;
    let mut turns = turn_bound(doc);
    while turns > 0 {
        let Some(next) = into_last_block(doc, at) else {
            return at;
        };
        at = next;
        turns -= 1;
    }
    at
}

// Step 9: a node that shows no child gets a br.
#[tactic(auto, using(edit_model::proofs::Steps::steps, edit_model::proofs::Steps::exits), unfolding(crate::specs::Halves::fill_hidden))]
fn fill_hidden(alloc: Global, doc: &mut Doc, node: NodeRef) -> Result<(), EditFault>
    requires open { IsOpen doc.old }
    requires node_held { Holds doc.old node }
    ensures gives { Gives result doc.old.state doc.new.state (halves.fill_hidden node.label) }
    ensures keeps { Keeps doc.old doc.new }
{
    if !shows_child(doc, node) {
        append_break(alloc, doc, node)?;
    }
    Ok(())
}

// Step 9: both get a line at their ends, with the caret at the start of the second one.
#[tactic(auto, using(edit_model::proofs::Steps::steps, edit_model::proofs::Steps::exits, edit_model::proofs::Steps::actions), unfolding(crate::specs::Halves::close_both))]
fn close_both(
    alloc: Global,
    doc: &mut Doc,
    first: NodeRef,
    second: NodeRef,
) -> Result<(), EditFault>
    requires open { IsOpen doc.old }
    requires first_held { Holds doc.old first }
    requires second_held { Holds doc.old second }
    ensures gives { Gives result doc.old.state doc.new.state
        (halves.close_both first.label second.label) }
    ensures keeps { Keeps doc.old doc.new }
{
    let first = deepest_last(doc, first);
    let second = deepest_last(doc, second);
    fill_hidden(alloc, doc, first)?;
    fill_hidden(alloc, doc, second)?;
    let caret = start_in(second);
    select(doc, caret, caret);
    Ok(())
}

/// Steps 7 to 9: parts a container in two at the start of the active range.
#[tactic(auto, using(edit_model::proofs::Steps::steps, edit_model::proofs::Steps::exits), unfolding(crate::specs::Halves::part_at, crate::specs::Halves::part_container))]
pub(crate) fn part_container(
    alloc: Global,
    doc: &mut Doc,
    container: NodeRef,
) -> Result<(), EditFault>
    requires open { IsOpen doc.old }
    requires container_held { Holds doc.old container }
    ensures gives { Gives result doc.old.state doc.new.state
        (halves.part_container container.label) }
    ensures keeps { Keeps doc.old doc.new }
{
    let Some(start) = active_start(doc) else {
        return Ok(());
    };
    let at = parting_point(doc, start); // step 7
    // step 8
    let second = make_second(alloc, doc, at, container)?;
    insert_after(doc, container, second)?;
    doc.extract_tail(at, container, second)?;
    close_both(alloc, doc, container, second) // step 9
}
