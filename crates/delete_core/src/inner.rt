//! Delete the selection, step 11: merging a block with one that stands in it. The first line of the
//! inner one comes out. The steps are those of docs/ALGORITHMS.md.

ghost use Rattle.std.specs.Prelude.{◌≡◌, IfOk, Some, None};
ghost use Rattle.edit_model.specs.Gives.{Gives, GivesAs, GivesNode, labels_of};
ghost use Rattle.inline_value.specs.EditDoc.Whole.{IsOpen};
ghost use Rattle.inline_value.specs.EditDoc.Held.{Holds, EachHeld, Keeps};
ghost use Rattle.delete_core.specs.Gaps.{is_stuck};
ghost use Rattle.delete_core.specs.Merging.{is_apart, is_sole, drop_sole, parts_lines, part_lines, remove_own, drop_parted, drop_soles, drop_block, split_line, split_out, drop_break_before, take_out_line, merge_inner};
ghost use Rattle.edit_model.specs.DomModel.Forest.{first_in};
ghost use Rattle.delete_core.specs.Values.{ValuesHeld, recorded_in};

use crate::ends::select;
use crate::lines::{if_inline, line_from};
use edit_model::boundary::child_toward;
use inline_value::actions::{insert_after, make_break};
use inline_value::doc::{Doc, EditFault, NodeList, NodeRef, Point};
use inline_value::questions::{is_block, is_break};
use inline_value::wrap::{is_void_thing, split_parent, turn_bound};
use inline_value::{Values, record_values};
use std::alloc::Global;

// Whether a node has a parent other than a block.
#[tactic(auto, unfolding(crate::specs::Merging::is_apart))]
fn is_apart(doc: &Doc, block: NodeRef, node: NodeRef) -> bool
    requires { Holds doc.now node }
    ensures { result ≡ is_apart block.label doc.now.state node.label }
{
    match doc.parent(node) {
        Some(parent) => parent.label != block.label,
        None => false,
    }
}

// Step 11 b: whether a node is editable and the one child of a parent other than the outer block.
#[tactic(auto, unfolding(crate::specs::Merging::is_sole))]
fn is_sole(doc: &Doc, outer: NodeRef, node: NodeRef) -> bool
    requires { Holds doc.now node }
    ensures { result ≡ is_sole outer.label doc.now.state node.label }
{
    doc.is_editable_for(node)
        && doc.prev(node).is_none()
        && doc.next(node).is_none()
        && is_apart(doc, outer, node)
}

// Step 11 b: removes a node, and answers its former parent.
#[tactic(auto, using(edit_model::proofs::Steps::steps, edit_model::proofs::Steps::exits), unfolding(crate::specs::Merging::drop_sole))]
fn drop_sole(doc: &mut Doc, node: NodeRef) -> Result<NodeRef, EditFault>
    requires open { IsOpen doc.old }
    requires node_held { Holds doc.old node }
    ensures gives { GivesNode result doc.old.state doc.new.state (drop_sole node.label) }
    ensures held { IfOk result (λ r. Holds doc.new r) }
    ensures keeps { Keeps doc.old doc.new }
{
    let Some(parent) = doc.parent(node) else {
        return Ok(node);
    };
    doc.remove(node)?;
    Ok(parent)
}

// Step 11 b: whether the lines before and after an editable block would join once it goes.
#[tactic(auto, unfolding(crate::specs::Merging::parts_lines))]
fn parts_lines(doc: &Doc, node: NodeRef) -> bool
    requires { Holds doc.now node }
    ensures { result ≡ parts_lines doc.now.state node.label }
{
    doc.is_editable_for(node)
        && is_block(doc, node)
        && if_inline(doc, doc.prev(node)).is_some()
        && if_inline(doc, doc.next(node)).is_some()
}

// Step 11 b: puts a br after a block, where the lines around it would join.
#[tactic(auto, using(edit_model::proofs::Steps::steps, edit_model::proofs::Steps::exits), unfolding(crate::specs::Merging::part_lines))]
fn part_lines(alloc: Global, doc: &mut Doc, node: NodeRef) -> Result<(), EditFault>
    requires open { IsOpen doc.old }
    requires node_held { Holds doc.old node }
    ensures gives { Gives result doc.old.state doc.new.state (part_lines node.label) }
    ensures keeps { Keeps doc.old doc.new }
{
    if parts_lines(doc, node) {
        let made = make_break(alloc, doc)?;
        insert_after(doc, node, made)?;
    }
    Ok(())
}

// Step 11 b: removes an editable node.
#[tactic(auto, using(edit_model::proofs::Steps::steps, edit_model::proofs::Steps::exits), unfolding(crate::specs::Merging::remove_own))]
fn remove_own(doc: &mut Doc, node: NodeRef) -> Result<(), EditFault>
    requires open { IsOpen doc.old }
    requires node_held { Holds doc.old node }
    ensures gives { Gives result doc.old.state doc.new.state (remove_own node.label) }
    ensures keeps { Keeps doc.old doc.new }
{
    if doc.is_editable_for(node) {
        doc.remove(node)?;
    }
    Ok(())
}

// Step 11 b: the br, and then the block.
#[tactic(auto, using(edit_model::proofs::Steps::steps, edit_model::proofs::Steps::exits), unfolding(crate::specs::Merging::drop_parted))]
fn drop_parted(alloc: Global, doc: &mut Doc, node: NodeRef) -> Result<(), EditFault>
    requires open { IsOpen doc.old }
    requires node_held { Holds doc.old node }
    ensures gives { Gives result doc.old.state doc.new.state (drop_parted node.label) }
    ensures keeps { Keeps doc.old doc.new }
{
    part_lines(alloc, doc, node)?;
    remove_own(doc, node)
}

// Step 11 b: up from a node, as long as it is the one child of its parent; each goes.
#[tactic(auto, using(edit_model::proofs::Steps::whiles, edit_model::proofs::Steps::exits), unfolding(crate::specs::Merging::drop_soles))]
fn drop_soles(doc: &mut Doc, outer: NodeRef, node: NodeRef) -> Result<NodeRef, EditFault>
    requires open { IsOpen doc.old }
    requires node_held { Holds doc.old node }
    ensures gives { GivesNode result doc.old.state doc.new.state
        (drop_soles outer.label node.label) }
    ensures held { IfOk result (λ r. Holds doc.new r) }
    ensures keeps { Keeps doc.old doc.new }
{
    let mut turns = turn_bound(doc);
    let mut at = node;
    while turns > 0 {
        if !is_sole(doc, outer, at) {
            return Ok(at);
        }
        at = drop_sole(doc, at)?;
        turns -= 1;
    }
    Ok(at)
}

// Step 11 b.
#[tactic(auto, using(edit_model::proofs::Steps::steps, edit_model::proofs::Steps::exits), unfolding(crate::specs::Merging::drop_block))]
fn drop_block(alloc: Global, doc: &mut Doc, outer: NodeRef, node: NodeRef) -> Result<(), EditFault>
    requires open { IsOpen doc.old }
    requires node_held { Holds doc.old node }
    ensures gives { Gives result doc.old.state doc.new.state (drop_block outer.label node.label) }
    ensures keeps { Keeps doc.old doc.new }
{
    let top = drop_soles(doc, outer, node)?;
    drop_parted(alloc, doc, top)
}

// Whether splitting the parent of a line that begins with a node changes nothing.
#[tactic(auto, unfolding(crate::specs::Gaps::is_stuck))]
fn is_stuck(doc: &Doc, node: NodeRef) -> bool
    requires { Holds doc.now node }
    ensures { result ≡ is_stuck doc.now.state node.label }
{
    match doc.parent(node) {
        Some(parent) => {
            !doc.is_editable_for(parent)
                || doc.parent(parent).is_none()
                || is_void_thing(doc, parent)
        }
        None => false,
    }
}

// Step 11 e: takes a line out of its parent, until it stands in the outer block. A turn that
// changes nothing is the last.
#[tactic(auto, using(edit_model::proofs::Steps::whiles, edit_model::proofs::Steps::exits, crate::proofs::Stuck::same_while), unfolding(crate::specs::Merging::split_out, crate::specs::Merging::split_line))]
fn split_out(
    alloc: Global,
    doc: &mut Doc,
    outer: NodeRef,
    line: &NodeList,
    first: NodeRef,
) -> Result<(), EditFault>
    requires open { IsOpen doc.old }
    requires line_held { EachHeld doc.old line.now }
    requires first_held { Holds doc.old first }
    requires head { first_in (labels_of line.now) ≡ Some first.label }
    ensures gives { Gives result doc.old.state doc.new.state
        (split_out outer.label (labels_of line.now) first.label) }
    ensures keeps { Keeps doc.old doc.new }
{
    let mut turns = turn_bound(doc);
    while turns > 0 {
        if !is_apart(doc, outer, first) {
            return Ok(());
        }
        if is_stuck(doc, first) {
            return Ok(());
        }
        split_parent(alloc, doc, line)?;
        turns -= 1;
    }
    Ok(())
}

// Step 11 f: removes an editable br before a node.
#[tactic(auto, using(edit_model::proofs::Steps::steps, edit_model::proofs::Steps::exits), unfolding(crate::specs::Merging::drop_break_before))]
fn drop_break_before(doc: &mut Doc, node: NodeRef) -> Result<(), EditFault>
    requires open { IsOpen doc.old }
    requires node_held { Holds doc.old node }
    ensures gives { Gives result doc.old.state doc.new.state (drop_break_before node.label) }
    ensures keeps { Keeps doc.old doc.new }
{
    let Some(prev) = doc.prev(node) else {
        return Ok(());
    };
    if doc.is_editable_for(prev) && is_break(doc, prev) {
        doc.remove(prev)?;
    }
    Ok(())
}

// Steps 11 d to 11 f.
#[tactic(auto, using(edit_model::proofs::Steps::steps, edit_model::proofs::Steps::exits, crate::proofs::Recordings::recordings), unfolding(crate::specs::Merging::take_out_line))]
fn take_out_line(
    alloc: Global,
    doc: &mut Doc,
    outer: NodeRef,
    first: NodeRef,
) -> Result<Option<Values>, EditFault>
    requires open { IsOpen doc.old }
    requires first_held { Holds doc.old first }
    ensures gives { GivesAs recorded_in result doc.old.state doc.new.state
        (take_out_line outer.label first.label) }
    ensures held { IfOk result (ValuesHeld doc.new) }
    ensures keeps { Keeps doc.old doc.new }
{
    let line = line_from(alloc, doc, first)?;
    let values = record_values(alloc, doc, &line)?;
    let list = NodeList::from_vec(line);
    split_out(alloc, doc, outer, &list, first)?;
    drop_break_before(doc, first)?;
    Ok(Some(values))
}

/// Delete the selection, step 11: merges a block with one that is in it. Answers the values to restore; none where the deletion ends with that.
#[tactic(auto, using(edit_model::proofs::Steps::steps, edit_model::proofs::Steps::exits, edit_model::proofs::Steps::actions, crate::proofs::Recordings::recordings), unfolding(crate::specs::Merging::merge_inner, crate::specs::Merging::merge_content, crate::specs::Merging::take_line))]
pub(crate) fn merge_inner(
    alloc: Global,
    doc: &mut Doc,
    outer: NodeRef,
    inner: NodeRef,
) -> Result<Option<Values>, EditFault>
    requires open { IsOpen doc.old }
    requires outer_held { Holds doc.old outer }
    requires inner_held { Holds doc.old inner }
    ensures gives { GivesAs recorded_in result doc.old.state doc.new.state
        (merge_inner outer.label inner.label) }
    ensures held { IfOk result (ValuesHeld doc.new) }
    ensures keeps { Keeps doc.old doc.new }
{
    let Some(child) = child_toward(doc, outer, inner) else {
        return Ok(None);
    };
    let at = Point {
        label: outer.label,
        offset: doc.index(child),
    };
    select(doc, at, at);
    let Some(first) = doc.first_child(inner) else {
        drop_block(alloc, doc, outer, inner)?; // step 11 b
        return Ok(None);
    };
    if is_block(doc, first) {
        return Ok(None); // step 11 c
    }
    take_out_line(alloc, doc, outer, first)
}
