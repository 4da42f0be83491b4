//! Normalizing the sublists of an item. The steps are those of docs/ALGORITHMS.md.

ghost use Rattle.std.specs.Prelude.{◌≡◌, IfOk};
ghost use Rattle.edit_model.specs.Gives.{Gives, GivesNode, GivesMaybe, label_of};
ghost use Rattle.inline_value.specs.EditDoc.Whole.{IsOpen};
ghost use Rattle.inline_value.specs.EditDoc.Held.{Holds, IfHeld, Keeps};
ghost use Rattle.list_indent.specs.Sublists.{leaves, follower_of, part_last, is_normalizable, normalize_sublists};

use crate::lists::{has_list, is_blank, is_item, is_list};
use inline_value::actions::{insert_after, move_after, move_first};
use inline_value::doc::{Attributes, Doc, EditFault, Name, NodeRef};
use inline_value::wrap::turn_bound;
use std::alloc::Global;

// Step 2: whether a child leaves the item alone, or goes to the follower.
#[tactic(auto, unfolding(crate::specs::Sublists::leaves))]
fn leaves(doc: &Doc, follower: Option<NodeRef>, child: NodeRef) -> bool
    requires { Holds doc.now child }
    ensures { result ≡ leaves doc.now.state (label_of follower) child.label }
{
    is_list(doc, child) || (follower.is_none() && is_blank(doc, child))
}

// Step 2: the follower of the item. Where there is none, it is a new item just after the item.
#[tactic(auto, using(edit_model::proofs::Steps::steps, edit_model::proofs::Steps::exits), unfolding(crate::specs::Sublists::make_follower, crate::specs::Sublists::follower_of))]
fn follower_of(
    alloc: Global,
    doc: &mut Doc,
    item: NodeRef,
    follower: Option<NodeRef>,
) -> Result<NodeRef, EditFault>
    requires open { IsOpen doc.old }
    requires item_held { Holds doc.old item }
    requires follower_held { IfHeld doc.old follower }
    ensures gives { GivesNode result doc.old.state doc.new.state
        (follower_of item.label (label_of follower)) }
    ensures held { IfOk result (λ r. Holds doc.new r) }
    ensures keeps { Keeps doc.old doc.new }
{
    if let Some(node) = follower {
        return Ok(node);
    }
    let name = Name::from_slice(alloc, b"li")?;
    let made = doc.make_element(&name, &Attributes::new(alloc))?;
    insert_after(doc, item, made)?;
    Ok(made)
}

// Step 2, one turn: the last child leaves the item. Answers the follower.
#[tactic(auto, using(edit_model::proofs::Steps::steps, edit_model::proofs::Steps::exits), unfolding(crate::specs::Sublists::handed_on, crate::specs::Sublists::part_last))]
fn part_last(
    alloc: Global,
    doc: &mut Doc,
    item: NodeRef,
    follower: Option<NodeRef>,
) -> Result<Option<NodeRef>, EditFault>
    requires open { IsOpen doc.old }
    requires item_held { Holds doc.old item }
    requires follower_held { IfHeld doc.old follower }
    ensures gives { GivesMaybe result doc.old.state doc.new.state
        (part_last item.label (label_of follower)) }
    ensures held { IfOk result (λ found. IfHeld doc.new found) }
    ensures keeps { Keeps doc.old doc.new }
{
    let Some(child) = doc.last_child(item) else {
        return Ok(follower);
    };
    if leaves(doc, follower, child) {
        move_after(doc, item, child)?;
        return Ok(None);
    }
    let next = follower_of(alloc, doc, item, follower)?;
    move_first(doc, next, child)?;
    Ok(Some(next))
}

// Step 1: whether a node is an editable item of an editable parent.
#[tactic(auto, unfolding(crate::specs::Sublists::is_normalizable))]
fn is_normalizable(doc: &Doc, node: NodeRef) -> bool
    requires { Holds doc.now node }
    ensures { result ≡ is_normalizable doc.now.state node.label }
{
    if !is_item(doc, node) || !doc.is_editable_for(node) {
        return false;
    }
    match doc.parent(node) {
        Some(parent) => doc.is_editable_for(parent),
        None => false,
    }
}

/// Takes the lists out of an item (HTML Editing APIs, "normalize sublists"): they come to stand
/// after it, and what stands between them in items of its own. A node that is no editable li of an
/// editable parent stays as it is.
#[tactic(auto, using(edit_model::proofs::Steps::whiles, edit_model::proofs::Steps::exits), unfolding(crate::specs::Sublists::normalize_sublists))]
pub fn normalize_sublists(alloc: Global, doc: &mut Doc, node: NodeRef) -> Result<(), EditFault>
    requires open { IsOpen doc.old }
    requires node_held { Holds doc.old node }
    ensures gives { Gives result doc.old.state doc.new.state (normalize_sublists node.label) }
    ensures keeps { Keeps doc.old doc.new }
{
    if !is_normalizable(doc, node) {
        return Ok(()); // step 1
    }
    let mut follower = None;
    let mut turns = turn_bound(doc);
    while turns > 0 && has_list(doc, node) {
        follower = part_last(alloc, doc, node, follower)?;
        turns -= 1;
    }
    Ok(())
}
