//! Inserting and moving beside a node, and an element that gives way to its children.

ghost use Rattle.std.specs.Prelude.{IfOk};
ghost use Rattle.edit_model.specs.Moves.{insert_before, insert_after, make_break, move_before, move_after, move_first, move_all_before, move_all_after, move_all_first, unwrap};
ghost use Rattle.edit_model.specs.Gives.{Gives, GivesNode, labels_of};
ghost use Rattle.edit_doc.specs.Whole.{IsOpen};
ghost use Rattle.edit_doc.specs.Held.{Holds, EachHeld, Keeps};

use edit_doc::{Attributes, Doc, EditFault, Name, NodeRef};
use std::alloc::Global;

/// Makes a loose br.
#[tactic(auto, using(edit_model::proofs::Steps::steps, edit_model::proofs::Steps::exits), unfolding(edit_model::specs::Moves::make_break))]
pub fn make_break(alloc: Global, doc: &mut Doc) -> Result<NodeRef, EditFault>
    requires open { IsOpen doc.old }
    ensures gives { GivesNode result doc.old.state doc.new.state make_break }
    ensures held { IfOk result (λ r. Holds doc.new r) }
    ensures keeps { Keeps doc.old doc.new }
{
    let name = Name::from_slice(alloc, b"br")?;
    doc.make_element(&name, &Attributes::new(alloc))
}

/// Inserts a loose node just before another one. Where that has no parent, nothing is inserted.
#[tactic(auto, using(edit_model::proofs::Steps::steps, edit_model::proofs::Steps::exits), unfolding(edit_model::specs::Moves::insert_before))]
pub fn insert_before(doc: &mut Doc, other: NodeRef, node: NodeRef) -> Result<(), EditFault>
    requires open { IsOpen doc.old }
    requires other_held { Holds doc.old other }
    requires node_held { Holds doc.old node }
    ensures gives { Gives result doc.old.state doc.new.state
        (insert_before other.label node.label) }
    ensures keeps { Keeps doc.old doc.new }
{
    let Some(parent) = doc.parent(other) else {
        return Ok(());
    };
    doc.insert(parent, Some(other), node)?;
    Ok(())
}

/// Inserts a loose node just after another one. Where that has no parent, nothing is inserted.
#[tactic(auto, using(edit_model::proofs::Steps::steps, edit_model::proofs::Steps::exits), unfolding(edit_model::specs::Moves::insert_after))]
pub fn insert_after(doc: &mut Doc, other: NodeRef, node: NodeRef) -> Result<(), EditFault>
    requires open { IsOpen doc.old }
    requires other_held { Holds doc.old other }
    requires node_held { Holds doc.old node }
    ensures gives { Gives result doc.old.state doc.new.state (insert_after other.label node.label) }
    ensures keeps { Keeps doc.old doc.new }
{
    let Some(parent) = doc.parent(other) else {
        return Ok(());
    };
    let next = doc.next(other);
    doc.insert(parent, next, node)?;
    Ok(())
}

/// Moves a node to just before another one. Where that has no parent, or the node may not go there,
/// it stays.
#[tactic(auto, using(edit_model::proofs::Steps::steps, edit_model::proofs::Steps::exits), unfolding(edit_model::specs::Moves::move_before))]
pub fn move_before(doc: &mut Doc, other: NodeRef, node: NodeRef) -> Result<(), EditFault>
    requires open { IsOpen doc.old }
    requires other_held { Holds doc.old other }
    requires node_held { Holds doc.old node }
    ensures gives { Gives result doc.old.state doc.new.state (move_before other.label node.label) }
    ensures keeps { Keeps doc.old doc.new }
{
    let Some(parent) = doc.parent(other) else {
        return Ok(());
    };
    doc.move_keeping(node, parent, Some(other))?;
    Ok(())
}

/// Moves a node to just after another one. Where that has no parent, or the node may not go there,
/// it stays.
#[tactic(auto, using(edit_model::proofs::Steps::steps, edit_model::proofs::Steps::exits), unfolding(edit_model::specs::Moves::move_after))]
pub fn move_after(doc: &mut Doc, other: NodeRef, node: NodeRef) -> Result<(), EditFault>
    requires open { IsOpen doc.old }
    requires other_held { Holds doc.old other }
    requires node_held { Holds doc.old node }
    ensures gives { Gives result doc.old.state doc.new.state (move_after other.label node.label) }
    ensures keeps { Keeps doc.old doc.new }
{
    let Some(parent) = doc.parent(other) else {
        return Ok(());
    };
    let next = doc.next(other);
    doc.move_keeping(node, parent, next)?;
    Ok(())
}

/// Moves each node of a list to just before another one, in the order of the list. A node that may
/// not go there stays.
#[tactic(auto, using(edit_model::proofs::Steps::eachs, edit_model::proofs::Steps::exits), unfolding(edit_model::specs::Moves::move_all_before))]
pub fn move_all_before(doc: &mut Doc, list: &[NodeRef], other: NodeRef) -> Result<(), EditFault>
    requires open { IsOpen doc.old }
    requires list_held { EachHeld doc.old list.now }
    requires other_held { Holds doc.old other }
    ensures gives { Gives result doc.old.state doc.new.state
        (move_all_before (labels_of list.now) other.label) }
    ensures keeps { Keeps doc.old doc.new }
{
    for node in list {
        move_before(doc, other, *node)?;
    }
    Ok(())
}

/// Moves each node of a list to just after another one, the last one first, so that they stand in
/// the order of the list.
#[tactic(auto, using(edit_model::proofs::Steps::backs, edit_model::proofs::Steps::exits), unfolding(edit_model::specs::Moves::move_all_after))]
pub fn move_all_after(doc: &mut Doc, list: &[NodeRef], other: NodeRef) -> Result<(), EditFault>
    requires open { IsOpen doc.old }
    requires list_held { EachHeld doc.old list.now }
    requires other_held { Holds doc.old other }
    ensures gives { Gives result doc.old.state doc.new.state
        (move_all_after (labels_of list.now) other.label) }
    ensures keeps { Keeps doc.old doc.new }
{
    let mut left = list.len();
    while left > 0 {
        left -= 1;
        move_after(doc, other, list[left])?;
    }
    Ok(())
}

/// Moves a node to the front of another one. Where it may not go there, it stays.
#[tactic(auto, using(edit_model::proofs::Steps::steps, edit_model::proofs::Steps::exits), unfolding(edit_model::specs::Moves::move_first))]
pub fn move_first(doc: &mut Doc, parent: NodeRef, node: NodeRef) -> Result<(), EditFault>
    requires open { IsOpen doc.old }
    requires parent_held { Holds doc.old parent }
    requires node_held { Holds doc.old node }
    ensures gives { Gives result doc.old.state doc.new.state (move_first parent.label node.label) }
    ensures keeps { Keeps doc.old doc.new }
{
    let first = doc.first_child(parent);
    doc.move_keeping(node, parent, first)?;
    Ok(())
}

/// Moves each node of a list to the front of another one, the last one first, so that they stand in
/// the order of the list.
#[tactic(auto, using(edit_model::proofs::Steps::backs, edit_model::proofs::Steps::exits), unfolding(edit_model::specs::Moves::move_all_first))]
pub fn move_all_first(doc: &mut Doc, list: &[NodeRef], parent: NodeRef) -> Result<(), EditFault>
    requires open { IsOpen doc.old }
    requires list_held { EachHeld doc.old list.now }
    requires parent_held { Holds doc.old parent }
    ensures gives { Gives result doc.old.state doc.new.state
        (move_all_first (labels_of list.now) parent.label) }
    ensures keeps { Keeps doc.old doc.new }
{
    let mut left = list.len();
    while left > 0 {
        left -= 1;
        move_first(doc, parent, list[left])?;
    }
    Ok(())
}

/// Removes a node, whose children come to stand in its place as they are. No line break is put or
/// removed there: where lines have to stay apart, the parent of the children is split in its place.
#[tactic(auto, using(edit_model::proofs::Steps::steps, edit_model::proofs::Steps::exits), unfolding(edit_model::specs::Moves::unwrap))]
pub fn unwrap(doc: &mut Doc, node: NodeRef) -> Result<(), EditFault>
    requires open { IsOpen doc.old }
    requires node_held { Holds doc.old node }
    ensures gives { Gives result doc.old.state doc.new.state (unwrap node.label) }
    ensures keeps { Keeps doc.old doc.new }
{
    let children = doc.children_of(node)?;
    move_all_before(doc, &children, node)?;
    doc.remove(node)?;
    Ok(())
}
