//! Delete the selection, steps 12 and 13: merging a block with one in which it stands, or with one
//! beside it. The steps are those of docs/ALGORITHMS.md.

ghost use Rattle.std.specs.Prelude.{◌≡◌, IfOk};
ghost use Rattle.edit_model.specs.Gives.{Gives, GivesAs, label_of};
ghost use Rattle.inline_value.specs.EditDoc.Whole.{IsOpen};
ghost use Rattle.inline_value.specs.EditDoc.Held.{Holds, IfHeld, Keeps};
ghost use Rattle.delete_core.specs.Merging.{drop_last_break, take_following, merge_outer, is_emptied, drop_emptied, take_children, merge_beside};
ghost use Rattle.delete_core.specs.Values.{ValuesHeld, recorded_in};

use crate::ends::select;
use crate::erasing::removed_up;
use crate::lines::{if_inline, line_at};
use crate::places::end_in;
use edit_model::boundary::child_toward;
use inline_value::doc::{Doc, EditFault, NodeRef};
use inline_value::questions::is_break;
use inline_value::wrap::turn_bound;
use inline_value::{Values, record_values};
use std::alloc::Global;

// Steps 12 and 13: removes a br at the end of a block, where what comes after it there is inline.
#[tactic(auto, using(edit_model::proofs::Steps::steps, edit_model::proofs::Steps::exits), unfolding(crate::specs::Merging::drop_last_break))]
fn drop_last_break(doc: &mut Doc, block: NodeRef, after: Option<NodeRef>) -> Result<(), EditFault>
    requires open { IsOpen doc.old }
    requires block_held { Holds doc.old block }
    requires after_held { IfHeld doc.old after }
    ensures gives { Gives result doc.old.state doc.new.state
        (drop_last_break block.label (label_of after)) }
    ensures keeps { Keeps doc.old doc.new }
{
    let Some(last) = doc.last_child(block) else {
        return Ok(());
    };
    if if_inline(doc, after).is_some() && is_break(doc, last) {
        doc.remove(last)?;
    }
    Ok(())
}

// Step 12: the line after a node goes to the end of a block.
#[tactic(auto, using(edit_model::proofs::Steps::steps, edit_model::proofs::Steps::exits, crate::proofs::Recordings::recordings), unfolding(crate::specs::Merging::take_following))]
fn take_following(
    alloc: Global,
    doc: &mut Doc,
    block: NodeRef,
    child: NodeRef,
) -> Result<Option<Values>, EditFault>
    requires open { IsOpen doc.old }
    requires block_held { Holds doc.old block }
    requires child_held { Holds doc.old child }
    ensures gives { GivesAs recorded_in result doc.old.state doc.new.state
        (take_following block.label child.label) }
    ensures held { IfOk result (ValuesHeld doc.new) }
    ensures keeps { Keeps doc.old doc.new }
{
    let line = line_at(alloc, doc, doc.next(child))?;
    let values = record_values(alloc, doc, &line)?;
    doc.move_each_last(&line, block)?;
    Ok(Some(values))
}

/// Delete the selection, step 12: merges a block with one in which it stands. Answers the values to
/// restore.
#[tactic(auto, using(edit_model::proofs::Steps::steps, edit_model::proofs::Steps::exits, edit_model::proofs::Steps::actions, crate::proofs::Recordings::recordings), unfolding(crate::specs::Merging::merge_outer))]
pub(crate) fn merge_outer(
    alloc: Global,
    doc: &mut Doc,
    block: NodeRef,
    outer: NodeRef,
) -> Result<Option<Values>, EditFault>
    requires open { IsOpen doc.old }
    requires block_held { Holds doc.old block }
    requires outer_held { Holds doc.old outer }
    ensures gives { GivesAs recorded_in result doc.old.state doc.new.state
        (merge_outer block.label outer.label) }
    ensures held { IfOk result (ValuesHeld doc.new) }
    ensures keeps { Keeps doc.old doc.new }
{
    let Some(child) = child_toward(doc, outer, block) else {
        return Ok(None);
    };
    let next = doc.next(child);
    let end = end_in(doc, block);
    select(doc, end, end);
    drop_last_break(doc, block, next)?;
    take_following(alloc, doc, block, child)
}

fn is_emptied(doc: &Doc, node: Option<NodeRef>) -> bool
    requires { IfHeld doc.now node }
    ensures { result ≡ is_emptied doc.now.state (label_of node) }
{
    match node {
        Some(node) => doc.is_editable_for(node) && doc.first_child(node).is_none(),
        None => false,
    }
}

// Step 13: removes nodes that are left empty, from one up.
#[tactic(auto, using(edit_model::proofs::Steps::whiles, edit_model::proofs::Steps::exits), unfolding(crate::specs::Merging::drop_emptied))]
fn drop_emptied(doc: &mut Doc, node: NodeRef) -> Result<(), EditFault>
    requires open { IsOpen doc.old }
    requires node_held { Holds doc.old node }
    ensures gives { Gives result doc.old.state doc.new.state (drop_emptied node.label) }
    ensures keeps { Keeps doc.old doc.new }
{
    let mut turns = turn_bound(doc);
    let mut at = Some(node);
    while turns > 0 {
        if !is_emptied(doc, at) {
            return Ok(());
        }
        at = removed_up(doc, at)?;
        turns -= 1;
    }
    Ok(())
}

// Step 13: the children of a block go to the end of another one.
#[tactic(auto, using(edit_model::proofs::Steps::steps, edit_model::proofs::Steps::exits, crate::proofs::Recordings::recordings), unfolding(crate::specs::Merging::take_children))]
fn take_children(
    alloc: Global,
    doc: &mut Doc,
    block: NodeRef,
    other: NodeRef,
) -> Result<Option<Values>, EditFault>
    requires open { IsOpen doc.old }
    requires block_held { Holds doc.old block }
    requires other_held { Holds doc.old other }
    ensures gives { GivesAs recorded_in result doc.old.state doc.new.state
        (take_children block.label other.label) }
    ensures held { IfOk result (ValuesHeld doc.new) }
    ensures keeps { Keeps doc.old doc.new }
{
    let children = doc.children_of(other)?;
    let values = record_values(alloc, doc, &children)?;
    doc.move_each_last(&children, block)?;
    drop_emptied(doc, other)?;
    Ok(Some(values))
}

/// Delete the selection, step 13: merges a block with another one, neither of which stands in the
/// other. Answers the values to restore.
#[tactic(auto, using(edit_model::proofs::Steps::steps, edit_model::proofs::Steps::exits, edit_model::proofs::Steps::actions, crate::proofs::Recordings::recordings), unfolding(crate::specs::Merging::merge_beside))]
pub(crate) fn merge_beside(
    alloc: Global,
    doc: &mut Doc,
    block: NodeRef,
    other: NodeRef,
) -> Result<Option<Values>, EditFault>
    requires open { IsOpen doc.old }
    requires block_held { Holds doc.old block }
    requires other_held { Holds doc.old other }
    ensures gives { GivesAs recorded_in result doc.old.state doc.new.state
        (merge_beside block.label other.label) }
    ensures held { IfOk result (ValuesHeld doc.new) }
    ensures keeps { Keeps doc.old doc.new }
{
    let first = doc.first_child(other);
    let end = end_in(doc, block);
    select(doc, end, end);
    drop_last_break(doc, block, first)?;
    take_children(alloc, doc, block, other)
}
