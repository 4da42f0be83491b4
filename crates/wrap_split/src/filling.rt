//! Moving a list into the node that it is wrapped in.

ghost use Rattle.std.specs.Prelude.{◌≡◌, ◌<◌, length};
ghost use Rattle.edit_model.specs.Gives.{Gives, label_of, labels_of};
ghost use Rattle.edit_model.specs.Run.{final};
ghost use Rattle.edit_actions.specs.EditDoc.Whole.{IsOpen, with_state};
ghost use Rattle.edit_actions.specs.EditDoc.Held.{Holds, IfHeld, EachHeld, Keeps};
ghost use Rattle.wrap_split.specs.Wrap.{is_inline, is_other, append_break, prepend_break, needs_br, joins_front, separate_with_br, append_all, parted_front, prepend_all, moved_in, grow_at, insert_if_loose, drop_parent, move_children, merged};

use crate::listing::{first_visible, last_visible};
use crate::siblings::{first_visible_child, last_visible_child};
use edit_actions::doc::{Doc, EditFault, NodeRef};
use edit_actions::questions::{is_block, is_break};
use edit_actions::{insert_before, make_break, move_all_first};
use edit_model::boundary::is_earlier;
use std::alloc::Global;

/// Whether there is a node, and it is inline.
pub fn is_inline(doc: &Doc, node: Option<NodeRef>) -> bool
    requires { IfHeld doc.now node }
    ensures { result ≡ is_inline doc.now.state (label_of node) }
{
    match node {
        Some(node) => !is_block(doc, node),
        None => false,
    }
}

// There, and no br.
fn is_other(doc: &Doc, node: Option<NodeRef>) -> bool
    requires { IfHeld doc.now node }
    ensures { result ≡ is_other doc.now.state (label_of node) }
{
    match node {
        Some(node) => !is_break(doc, node),
        None => false,
    }
}

/// Puts a new br at the end of a node (wrap, steps 8 and 11).
#[tactic(auto, using(edit_model::proofs::Steps::steps, edit_model::proofs::Steps::exits), unfolding(crate::specs::Wrap::append_break))]
pub fn append_break(alloc: Global, doc: &mut Doc, node: NodeRef) -> Result<(), EditFault>
    requires open { IsOpen doc.old }
    requires node_held { Holds doc.old node }
    ensures gives { Gives result doc.old.state doc.new.state (append_break node.label) }
    ensures keeps { Keeps doc.old doc.new }
{
    let made = make_break(alloc, doc)?;
    doc.insert(node, None, made)?;
    Ok(())
}

// Wrap, step 9: a new br as the first child of a node.
#[tactic(auto, using(edit_model::proofs::Steps::steps, edit_model::proofs::Steps::exits), unfolding(crate::specs::Wrap::prepend_break))]
fn prepend_break(alloc: Global, doc: &mut Doc, node: NodeRef) -> Result<(), EditFault>
    requires open { IsOpen doc.old }
    requires node_held { Holds doc.old node }
    ensures gives { Gives result doc.old.state doc.new.state (prepend_break node.label) }
    ensures keeps { Keeps doc.old doc.new }
{
    let made = make_break(alloc, doc)?;
    let first = doc.first_child(node);
    doc.insert(node, first, made)?;
    Ok(())
}

// Wrap, steps 8 and 11: whether a br has to part what the node ends with from what comes after it
// there.
#[tactic(auto, unfolding(crate::specs::Wrap::needs_br))]
fn needs_br(doc: &Doc, node: NodeRef, before: Option<NodeRef>, after: Option<NodeRef>) -> bool
    requires node_held { Holds doc.now node }
    requires before_held { IfHeld doc.now before }
    requires after_held { IfHeld doc.now after }
    ensures { result ≡ needs_br doc.now.state node.label (label_of before) (label_of after) }
{
    is_block(doc, node)
        && is_inline(doc, before)
        && is_inline(doc, after)
        && is_other(doc, doc.last_child(node))
}

// Wrap, step 9: whether a br has to part what the node begins with from the list that comes before
// it there.
#[tactic(auto, using(edit_model::proofs::Steps::ends), unfolding(crate::specs::Wrap::joins_front))]
fn joins_front(doc: &Doc, node: NodeRef, list: &[NodeRef]) -> bool
    requires some { 0 < length list.now }
    requires node_held { Holds doc.now node }
    requires list_held { EachHeld doc.now list.now }
    ensures { result ≡ joins_front doc.now.state node.label (labels_of list.now) }
{
    is_block(doc, node)
        && is_inline(doc, first_visible_child(doc, node))
        && is_inline(doc, last_visible(doc, list))
        && !is_break(doc, list[list.len() - 1])
}

// Wrap, steps 8 and 11.
#[tactic(auto, using(edit_model::proofs::Steps::steps, edit_model::proofs::Steps::exits), unfolding(crate::specs::Wrap::separate_with_br))]
fn part_end(
    alloc: Global,
    doc: &mut Doc,
    node: NodeRef,
    before: Option<NodeRef>,
    after: Option<NodeRef>,
) -> Result<(), EditFault>
    requires open { IsOpen doc.old }
    requires node_held { Holds doc.old node }
    requires before_held { IfHeld doc.old before }
    requires after_held { IfHeld doc.old after }
    ensures gives { Gives result doc.old.state doc.new.state
        (separate_with_br node.label (label_of before) (label_of after)) }
    ensures keeps { Keeps doc.old doc.new }
{
    if needs_br(doc, node, before, after) {
        append_break(alloc, doc, node)?;
    }
    Ok(())
}

// Wrap, step 8.
#[tactic(auto, using(edit_model::proofs::Steps::steps, edit_model::proofs::Steps::exits), unfolding(crate::specs::Wrap::append_all))]
fn move_append_all(
    alloc: Global,
    doc: &mut Doc,
    node: NodeRef,
    list: &[NodeRef],
) -> Result<(), EditFault>
    requires open { IsOpen doc.old }
    requires node_held { Holds doc.old node }
    requires list_held { EachHeld doc.old list.now }
    ensures gives { Gives result doc.old.state doc.new.state
        (append_all node.label (labels_of list.now)) }
    ensures keeps { Keeps doc.old doc.new }
{
    let before = last_visible_child(doc, node);
    let after = first_visible(doc, list);
    part_end(alloc, doc, node, before, after)?;
    doc.move_each_last(list, node)
}

// Wrap, step 9.
#[tactic(auto, using(edit_model::proofs::Steps::steps, edit_model::proofs::Steps::exits), unfolding(crate::specs::Wrap::parted_front))]
fn part_front(
    alloc: Global,
    doc: &mut Doc,
    node: NodeRef,
    list: &[NodeRef],
) -> Result<(), EditFault>
    requires open { IsOpen doc.old }
    requires some { 0 < length list.now }
    requires node_held { Holds doc.old node }
    requires list_held { EachHeld doc.old list.now }
    ensures gives { Gives result doc.old.state doc.new.state
        (parted_front node.label (labels_of list.now)) }
    ensures keeps { Keeps doc.old doc.new }
{
    if joins_front(doc, node, list) {
        prepend_break(alloc, doc, node)?;
    }
    Ok(())
}

// Wrap, step 9.
#[tactic(auto, using(edit_model::proofs::Steps::steps, edit_model::proofs::Steps::exits), unfolding(crate::specs::Wrap::prepend_all))]
fn move_prepend_all(
    alloc: Global,
    doc: &mut Doc,
    node: NodeRef,
    list: &[NodeRef],
) -> Result<(), EditFault>
    requires open { IsOpen doc.old }
    requires some { 0 < length list.now }
    requires node_held { Holds doc.old node }
    requires list_held { EachHeld doc.old list.now }
    ensures gives { Gives result doc.old.state doc.new.state
        (prepend_all node.label (labels_of list.now)) }
    ensures keeps { Keeps doc.old doc.new }
{
    part_front(alloc, doc, node, list)?;
    move_all_first(doc, list, node)
}

// Wrap, steps 8 and 9.
#[tactic(auto, using(edit_model::proofs::Steps::steps, edit_model::proofs::Steps::exits), unfolding(crate::specs::Wrap::moved_in))]
pub(crate) fn move_in(
    alloc: Global,
    doc: &mut Doc,
    node: NodeRef,
    list: &[NodeRef],
    first: NodeRef,
) -> Result<(), EditFault>
    requires open { IsOpen doc.old }
    requires some { 0 < length list.now }
    requires node_held { Holds doc.old node }
    requires list_held { EachHeld doc.old list.now }
    requires first_held { Holds doc.old first }
    ensures gives { Gives result doc.old.state doc.new.state
        (moved_in node.label (labels_of list.now) first.label) }
    ensures keeps { Keeps doc.old doc.new }
{
    if is_earlier(doc, node, first) {
        return move_append_all(alloc, doc, node, list);
    }
    move_prepend_all(alloc, doc, node, list)
}

// Wrap, step 6: the points at the place of a node, which was inserted there, grow.
#[tactic(auto, using(edit_model::proofs::Steps::actions), unfolding(crate::specs::Wrap::grow_at))]
fn grow_at(doc: &mut Doc, node: NodeRef)
    requires { Holds doc.old node }
    ensures grown { doc.new ≡ with_state doc.old (final (grow_at node.label) doc.old.state) }
    ensures keeps { Keeps doc.old doc.new }
{
    doc.grow_before(node);
}

// Wrap, step 6: puts a node that has no parent before the first member.
#[tactic(auto, using(edit_model::proofs::Steps::steps, edit_model::proofs::Steps::exits), unfolding(crate::specs::Wrap::insert_if_loose))]
pub(crate) fn put_before(doc: &mut Doc, node: NodeRef, first: NodeRef) -> Result<(), EditFault>
    requires open { IsOpen doc.old }
    requires node_held { Holds doc.old node }
    requires first_held { Holds doc.old first }
    ensures gives { Gives result doc.old.state doc.new.state
        (insert_if_loose node.label first.label) }
    ensures keeps { Keeps doc.old doc.new }
{
    if doc.parent(node).is_none() {
        insert_before(doc, first, node)?;
        grow_at(doc, node);
    }
    Ok(())
}

// Wrap, step 10: removes an emptied parent.
#[tactic(auto, using(edit_model::proofs::Steps::steps, edit_model::proofs::Steps::exits), unfolding(crate::specs::Wrap::drop_empty, crate::specs::Wrap::drop_parent))]
pub(crate) fn drop_parent(doc: &mut Doc, node: Option<NodeRef>) -> Result<(), EditFault>
    requires open { IsOpen doc.old }
    requires node_held { IfHeld doc.old node }
    ensures gives { Gives result doc.old.state doc.new.state (drop_parent (label_of node)) }
    ensures keeps { Keeps doc.old doc.new }
{
    let Some(node) = node else {
        return Ok(());
    };
    if doc.is_editable_for(node) && doc.first_child(node).is_none() {
        doc.remove(node)?;
    }
    Ok(())
}

// Wrap, step 11: the children of a node go to the end of another one.
#[tactic(auto, using(edit_model::proofs::Steps::steps, edit_model::proofs::Steps::exits), unfolding(crate::specs::Wrap::move_children))]
fn move_children(doc: &mut Doc, node: NodeRef, from: NodeRef) -> Result<(), EditFault>
    requires open { IsOpen doc.old }
    requires node_held { Holds doc.old node }
    requires from_held { Holds doc.old from }
    ensures gives { Gives result doc.old.state doc.new.state (move_children node.label from.label) }
    ensures keeps { Keeps doc.old doc.new }
{
    let children = doc.children_of(from)?;
    doc.move_each_last(&children, node)
}

// Wrap, step 11: moves the children of the sibling after a node to its end, and removes the
// sibling.
#[tactic(auto, using(edit_model::proofs::Steps::steps, edit_model::proofs::Steps::exits), unfolding(crate::specs::Wrap::merged))]
pub(crate) fn merge(
    alloc: Global,
    doc: &mut Doc,
    node: NodeRef,
    next: NodeRef,
) -> Result<(), EditFault>
    requires open { IsOpen doc.old }
    requires node_held { Holds doc.old node }
    requires next_held { Holds doc.old next }
    ensures gives { Gives result doc.old.state doc.new.state (merged node.label next.label) }
    ensures keeps { Keeps doc.old doc.new }
{
    let last = doc.last_child(node);
    let first = doc.first_child(next);
    part_end(alloc, doc, node, last, first)?;
    move_children(doc, node, next)?;
    doc.remove(next)?;
    Ok(())
}
