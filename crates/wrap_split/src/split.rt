//! Splitting the parent of a list of siblings, and removing a node while its children stay. The
//! steps are those of docs/ALGORITHMS.md.

ghost use Rattle.std.specs.Prelude.{◌≡◌};
ghost use Rattle.edit_model.specs.Gives.{Gives, GivesAs, labels_of};
ghost use Rattle.edit_actions.specs.EditDoc.Whole.{IsOpen};
ghost use Rattle.edit_actions.specs.EditDoc.Held.{Holds, EachHeld, Keeps};
ghost use Rattle.wrap_split.specs.Split.{break_before, break_after, clear_before, copied, copy_front, drop_first_break, close, tidy_after, split_end, split_rest, is_void_thing, split_members, split_parent, split_around, remove_keeping_children};

use crate::breaks::{breaks_at_end, breaks_before};
use edit_actions::doc::{Doc, EditFault, Name, NodeList, NodeRef};
use edit_actions::questions::{
    follows_break, has_name, is_block, is_break, is_image, precedes_break,
};
use edit_actions::{
    attributes_of, children_before, ends_in, first_parent, insert_after, insert_before, make_break,
    members, move_all_after, move_all_before, starts_in, tag_of,
};
use std::alloc::Global;

// Split the parent, step 8: puts a new br before a node, if it is wanted and the node doesn't
// follow a line break.
#[tactic(auto, using(edit_model::proofs::Steps::steps, edit_model::proofs::Steps::exits), unfolding(crate::specs::Split::break_before))]
fn break_before(alloc: Global, doc: &mut Doc, wanted: bool, node: NodeRef) -> Result<(), EditFault>
    requires open { IsOpen doc.old }
    requires node_held { Holds doc.old node }
    ensures gives { Gives result doc.old.state doc.new.state (break_before wanted node.label) }
    ensures keeps { Keeps doc.old doc.new }
{
    if wanted && !follows_break(doc, node) {
        let made = make_break(alloc, doc)?;
        insert_before(doc, node, made)?;
    }
    Ok(())
}

// Split the parent, steps 5 and 10: puts a new br after a node, if it is wanted and the node
// doesn't precede a line break.
#[tactic(auto, using(edit_model::proofs::Steps::steps, edit_model::proofs::Steps::exits), unfolding(crate::specs::Split::break_after))]
fn break_after(alloc: Global, doc: &mut Doc, wanted: bool, node: NodeRef) -> Result<(), EditFault>
    requires open { IsOpen doc.old }
    requires node_held { Holds doc.old node }
    ensures gives { Gives result doc.old.state doc.new.state (break_after wanted node.label) }
    ensures keeps { Keeps doc.old doc.new }
{
    if wanted && !precedes_break(doc, node) {
        let made = make_break(alloc, doc)?;
        insert_after(doc, node, made)?;
    }
    Ok(())
}

// Split the parent, step 3: removes the line breaks before a node whose first child is a member.
#[tactic(auto, using(edit_model::proofs::Steps::steps, edit_model::proofs::Steps::exits), unfolding(crate::specs::Split::clear_before))]
fn clear_before(doc: &mut Doc, node: NodeRef, list: &[NodeRef]) -> Result<(), EditFault>
    requires open { IsOpen doc.old }
    requires node_held { Holds doc.old node }
    ensures gives { Gives result doc.old.state doc.new.state
        (clear_before node.label (labels_of list.now)) }
    ensures keeps { Keeps doc.old doc.new }
{
    if starts_in(doc, node, list) {
        breaks_before(doc, node)?;
    }
    Ok(())
}

// Split the parent, step 6: moves the children before the first member to a copy of the node before
// it. The node loses its id.
#[tactic(auto, using(edit_model::proofs::Steps::steps, edit_model::proofs::Steps::exits), unfolding(crate::specs::Split::copied))]
fn copied(alloc: Global, doc: &mut Doc, node: NodeRef, first: NodeRef) -> Result<(), EditFault>
    requires open { IsOpen doc.old }
    requires node_held { Holds doc.old node }
    ensures gives { Gives result doc.old.state doc.new.state (copied node.label first.label) }
    ensures keeps { Keeps doc.old doc.new }
{
    let name = tag_of(alloc, doc, node)?;
    let attributes = attributes_of(alloc, doc, node)?;
    let front = children_before(alloc, doc, node, first)?;
    let id = Name::from_slice(alloc, b"id")?;
    let copy = doc.make_element(&name, &attributes)?;
    doc.unset_attribute(node, &id)?;
    insert_before(doc, node, copy)?;
    doc.move_each_last(&front, copy)
}

// Split the parent, step 6, where the first child is no member.
#[tactic(auto, using(edit_model::proofs::Steps::steps, edit_model::proofs::Steps::exits), unfolding(crate::specs::Split::copy_front))]
fn copy_front(
    alloc: Global,
    doc: &mut Doc,
    node: NodeRef,
    list: &[NodeRef],
    first: NodeRef,
) -> Result<(), EditFault>
    requires open { IsOpen doc.old }
    requires node_held { Holds doc.old node }
    ensures gives { Gives result doc.old.state doc.new.state
        (copy_front node.label (labels_of list.now) first.label) }
    ensures keeps { Keeps doc.old doc.new }
{
    if starts_in(doc, node, list) {
        return Ok(());
    }
    copied(alloc, doc, node, first)
}

// Split the parent, step 9: removes a br that a block begins with, where the last member is inline
// and no br.
#[tactic(auto, using(edit_model::proofs::Steps::steps, edit_model::proofs::Steps::exits), unfolding(crate::specs::Split::drop_first_break))]
fn drop_first_break(doc: &mut Doc, node: NodeRef, last: NodeRef) -> Result<(), EditFault>
    requires open { IsOpen doc.old }
    requires node_held { Holds doc.old node }
    requires last_held { Holds doc.old last }
    ensures gives { Gives result doc.old.state doc.new.state
        (drop_first_break node.label last.label) }
    ensures keeps { Keeps doc.old doc.new }
{
    let Some(child) = doc.first_child(node) else {
        return Ok(());
    };
    if !is_block(doc, last) && !is_break(doc, last) && is_break(doc, child) && is_block(doc, node) {
        doc.remove(child)?;
    }
    Ok(())
}

// Split the parent, step 10: removes an emptied node, and puts a br where one is wanted after the
// last member.
#[tactic(auto, using(edit_model::proofs::Steps::steps, edit_model::proofs::Steps::exits), unfolding(crate::specs::Split::close))]
fn close(
    alloc: Global,
    doc: &mut Doc,
    node: NodeRef,
    last: NodeRef,
    wanted: bool,
) -> Result<(), EditFault>
    requires open { IsOpen doc.old }
    requires node_held { Holds doc.old node }
    requires last_held { Holds doc.old last }
    ensures gives { Gives result doc.old.state doc.new.state (close node.label last.label wanted) }
    ensures keeps { Keeps doc.old doc.new }
{
    if doc.first_child(node).is_some() {
        return breaks_before(doc, node);
    }
    doc.remove(node)?;
    break_after(alloc, doc, wanted, last)
}

// Split the parent, step 11: removes the line breaks at the end of the parent, where the last
// member is its last child.
#[tactic(auto, using(edit_model::proofs::Steps::steps, edit_model::proofs::Steps::exits), unfolding(crate::specs::Split::tidy_after))]
fn tidy_after(doc: &mut Doc, last: NodeRef) -> Result<(), EditFault>
    requires open { IsOpen doc.old }
    requires last_held { Holds doc.old last }
    ensures gives { Gives result doc.old.state doc.new.state (tidy_after last.label) }
    ensures keeps { Keeps doc.old doc.new }
{
    if doc.next(last).is_some() {
        return Ok(());
    }
    let Some(parent) = doc.parent(last) else {
        return Ok(());
    };
    breaks_at_end(doc, parent)
}

// Split the parent, step 5: the members stand at the end of the node, and not at its start.
#[tactic(auto, using(edit_model::proofs::Steps::steps, edit_model::proofs::Steps::exits), unfolding(crate::specs::Split::split_end))]
fn split_end(
    alloc: Global,
    doc: &mut Doc,
    node: NodeRef,
    list: &[NodeRef],
    last: NodeRef,
    wanted: bool,
) -> Result<(), EditFault>
    requires open { IsOpen doc.old }
    requires node_held { Holds doc.old node }
    requires list_held { EachHeld doc.old list.now }
    requires last_held { Holds doc.old last }
    ensures gives { Gives result doc.old.state doc.new.state
        (split_end node.label (labels_of list.now) last.label wanted) }
    ensures keeps { Keeps doc.old doc.new }
{
    move_all_after(doc, list, node)?;
    break_after(alloc, doc, wanted, last)?;
    breaks_at_end(doc, node)
}

// Split the parent, steps 6 to 11.
#[tactic(auto, using(edit_model::proofs::Steps::steps, edit_model::proofs::Steps::exits), unfolding(crate::specs::Split::split_rest))]
fn split_rest(
    alloc: Global,
    doc: &mut Doc,
    node: NodeRef,
    list: &[NodeRef],
    ends: (NodeRef, NodeRef),
    wanted: (bool, bool),
) -> Result<(), EditFault>
    requires open { IsOpen doc.old }
    requires node_held { Holds doc.old node }
    requires list_held { EachHeld doc.old list.now }
    requires first_held { Holds doc.old ends.0 }
    requires last_held { Holds doc.old ends.1 }
    ensures gives { Gives result doc.old.state doc.new.state
        (split_rest node.label (labels_of list.now) ends.0.label ends.1.label wanted.0 wanted.1) }
    ensures keeps { Keeps doc.old doc.new }
{
    copy_front(alloc, doc, node, list, ends.0)?; // step 6
    move_all_before(doc, list, node)?; // step 7
    break_before(alloc, doc, wanted.0, ends.0)?; // step 8
    drop_first_break(doc, node, ends.1)?; // step 9
    close(alloc, doc, node, ends.1, wanted.1)?; // step 10
    tidy_after(doc, ends.1) // step 11
}

/// Whether a node is an image or a rule.
pub fn is_void_thing(doc: &Doc, node: NodeRef) -> bool
    requires { Holds doc.now node }
    ensures { result ≡ is_void_thing doc.now.state node.label }
{
    is_image(doc, node) || has_name(doc, node, b"hr")
}

// Split the parent, from step 2 on.
#[tactic(auto, using(edit_model::proofs::Steps::steps, edit_model::proofs::Steps::exits, edit_model::proofs::Steps::ends), unfolding(crate::specs::Split::split_members, crate::specs::Split::split_at, crate::specs::Split::split_marked))]
fn split_members(
    alloc: Global,
    doc: &mut Doc,
    node: NodeRef,
    list: &[NodeRef],
) -> Result<(), EditFault>
    requires open { IsOpen doc.old }
    requires node_held { Holds doc.old node }
    requires list_held { EachHeld doc.old list.now }
    ensures gives { Gives result doc.old.state doc.new.state
        (split_members node.label (labels_of list.now)) }
    ensures keeps { Keeps doc.old doc.new }
{
    if list.len() == 0 {
        return Ok(());
    }
    let first = list[0];
    let last = list[list.len() - 1];
    // step 2
    if !doc.is_editable_for(node) || doc.parent(node).is_none() || is_void_thing(doc, node) {
        return Ok(());
    }
    clear_before(doc, node, list)?; // step 3
    let starts = starts_in(doc, node, list); // step 4
    let ends = ends_in(doc, node, list);
    let before = starts && follows_break(doc, node);
    let after = ends && precedes_break(doc, node);
    if !starts && ends {
        return split_end(alloc, doc, node, list, last, after); // step 5
    }
    split_rest(alloc, doc, node, list, (first, last), (before, after))
}

// Split the parent, step 1.
#[tactic(auto, using(edit_model::proofs::Steps::steps, edit_model::proofs::Steps::exits), unfolding(crate::specs::Split::split_parent))]
fn split_parent_of(alloc: Global, doc: &mut Doc, list: &[NodeRef]) -> Result<(), EditFault>
    requires open { IsOpen doc.old }
    requires list_held { EachHeld doc.old list.now }
    ensures gives { Gives result doc.old.state doc.new.state (split_parent (labels_of list.now)) }
    ensures keeps { Keeps doc.old doc.new }
{
    let Some(parent) = first_parent(doc, list) else {
        return Ok(());
    };
    let kept = members(alloc, doc, parent, list)?;
    split_members(alloc, doc, parent, &kept)
}

/// Splits the parent of a list of siblings, so that they come to stand beside it. Of the list, the
/// members that have a parent, and the same one as the first of them, are taken.
pub fn split_parent(alloc: Global, doc: &mut Doc, list: &NodeList) -> Result<(), EditFault>
    requires open { IsOpen doc.old }
    requires list_held { EachHeld doc.old list.now }
    ensures gives { Gives result doc.old.state doc.new.state (split_parent (labels_of list.now)) }
    ensures keeps { Keeps doc.old doc.new }
{
    split_parent_of(alloc, doc, list.as_slice())
}

/// Splits the parent of a node, so that the node comes to stand beside it.
#[tactic(auto, using(edit_model::proofs::Steps::steps, edit_model::proofs::Steps::exits), unfolding(crate::specs::Split::split_around))]
pub fn split_around(alloc: Global, doc: &mut Doc, node: NodeRef) -> Result<(), EditFault>
    requires open { IsOpen doc.old }
    requires node_held { Holds doc.old node }
    ensures gives { GivesAs (λ v. node.label) result doc.old.state doc.new.state
        (split_around node.label) }
    ensures keeps { Keeps doc.old doc.new }
{
    split_parent_of(alloc, doc, &[node])
}

/// Removes a node, whose children come to stand in its place (HTML Editing APIs, "remove preserving
/// its descendants").
#[tactic(auto, using(edit_model::proofs::Steps::steps, edit_model::proofs::Steps::exits), unfolding(crate::specs::Split::remove_keeping_children))]
pub fn remove_keeping_children(alloc: Global, doc: &mut Doc, node: NodeRef) -> Result<(), EditFault>
    requires open { IsOpen doc.old }
    requires node_held { Holds doc.old node }
    ensures gives { Gives result doc.old.state doc.new.state (remove_keeping_children node.label) }
    ensures keeps { Keeps doc.old doc.new }
{
    if doc.first_child(node).is_none() {
        doc.remove(node)?;
        return Ok(());
    }
    let children = doc.children_of(node)?;
    split_parent_of(alloc, doc, &children)
}
