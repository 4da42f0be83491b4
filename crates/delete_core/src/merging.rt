//! Delete the selection, steps 9 to 15: merging the blocks of the two ends. The steps are those of
//! docs/ALGORITHMS.md.

ghost use Rattle.std.specs.Prelude.{◌≡◌, IfOk};
ghost use Rattle.edit_model.specs.Gives.{Gives, GivesAs, label_of};
ghost use Rattle.inline_value.specs.EditDoc.Whole.{IsOpen};
ghost use Rattle.inline_value.specs.EditDoc.Held.{Holds, EachHeld, IfHeld, Keeps};
ghost use Rattle.inline_value.specs.Records.{entries_of, nodes_of};
ghost use Rattle.delete_core.specs.Merging.{drop_prop, merged, fill_empty, finish, finish_if, merge, are_mergeable, merge_if};
ghost use Rattle.delete_core.specs.Values.{ValuesHeld, recorded_in};

use crate::ends::collapse_selection;
use crate::inner::merge_inner;
use crate::lists::join_lists;
use crate::outer::{merge_beside, merge_outer};
use inline_value::doc::{Doc, EditFault, NodeRef};
use inline_value::questions::{is_ancestor, is_block_prop};
use inline_value::wrap::{append_break, breaks_at_end};
use inline_value::{Values, restore_values};
use std::alloc::Global;

// Delete the selection, step 10: removes the one child of a block that only holds its line open.
#[tactic(auto, using(edit_model::proofs::Steps::steps, edit_model::proofs::Steps::exits), unfolding(crate::specs::Merging::drop_prop))]
fn drop_prop(doc: &mut Doc, block: NodeRef) -> Result<(), EditFault>
    requires open { IsOpen doc.old }
    requires block_held { Holds doc.old block }
    ensures gives { Gives result doc.old.state doc.new.state (drop_prop block.label) }
    ensures keeps { Keeps doc.old doc.new }
{
    let Some(child) = doc.first_child(block) else {
        return Ok(());
    };
    if doc.next(child).is_none() && is_block_prop(doc, child) {
        doc.remove(child)?;
    }
    Ok(())
}

// Steps 11 to 13.
#[tactic(auto, using(edit_model::proofs::Steps::steps, edit_model::proofs::Steps::exits, crate::proofs::Recordings::recordings), unfolding(crate::specs::Merging::merged))]
fn merged(
    alloc: Global,
    doc: &mut Doc,
    block: NodeRef,
    other: NodeRef,
) -> Result<Option<Values>, EditFault>
    requires open { IsOpen doc.old }
    requires block_held { Holds doc.old block }
    requires other_held { Holds doc.old other }
    ensures gives { GivesAs recorded_in result doc.old.state doc.new.state
        (merged block.label other.label) }
    ensures held { IfOk result (ValuesHeld doc.new) }
    ensures keeps { Keeps doc.old doc.new }
{
    if is_ancestor(doc, block, other) {
        merge_inner(alloc, doc, block, other)
    } else if is_ancestor(doc, other, block) {
        merge_outer(alloc, doc, block, other)
    } else {
        merge_beside(alloc, doc, block, other)
    }
}

/// Puts a new br into a node without children (delete the selection, step 15).
#[tactic(auto, using(edit_model::proofs::Steps::steps, edit_model::proofs::Steps::exits), unfolding(crate::specs::Merging::fill_empty))]
pub fn fill_empty(alloc: Global, doc: &mut Doc, block: NodeRef) -> Result<(), EditFault>
    requires open { IsOpen doc.old }
    requires block_held { Holds doc.old block }
    ensures gives { Gives result doc.old.state doc.new.state (fill_empty block.label) }
    ensures keeps { Keeps doc.old doc.new }
{
    if doc.first_child(block).is_none() {
        append_break(alloc, doc, block)?;
    }
    Ok(())
}

// Steps 14 and 15.
#[tactic(auto, using(edit_model::proofs::Steps::steps, edit_model::proofs::Steps::exits, crate::proofs::Recordings::recordings), unfolding(crate::specs::Merging::finish))]
fn finish(alloc: Global, doc: &mut Doc, block: NodeRef, values: &Values) -> Result<(), EditFault>
    requires open { IsOpen doc.old }
    requires block_held { Holds doc.old block }
    requires values_held { EachHeld doc.old (nodes_of values.now) }
    ensures gives { Gives result doc.old.state doc.new.state
        (finish block.label (entries_of values.now)) }
    ensures keeps { Keeps doc.old doc.new }
{
    join_lists(doc, block)?;
    restore_values(alloc, doc, values)?;
    fill_empty(alloc, doc, block)?;
    breaks_at_end(doc, block)
}

// Steps 10 to 15.
#[tactic(auto, using(edit_model::proofs::Steps::steps, edit_model::proofs::Steps::exits, crate::proofs::Recordings::recordings), unfolding(crate::specs::Merging::merge, crate::specs::Merging::finish_if))]
fn merge(alloc: Global, doc: &mut Doc, block: NodeRef, other: NodeRef) -> Result<(), EditFault>
    requires open { IsOpen doc.old }
    requires block_held { Holds doc.old block }
    requires other_held { Holds doc.old other }
    ensures gives { Gives result doc.old.state doc.new.state (merge block.label other.label) }
    ensures keeps { Keeps doc.old doc.new }
{
    drop_prop(doc, block)?;
    let Some(values) = merged(alloc, doc, block, other)? else {
        return Ok(());
    };
    finish(alloc, doc, block, &values)
}

#[tactic(auto, unfolding(crate::specs::Merging::are_mergeable))]
fn are_mergeable(doc: &Doc, block: NodeRef, other: NodeRef) -> bool
    requires block_held { Holds doc.now block }
    requires other_held { Holds doc.now other }
    ensures { result ≡ are_mergeable doc.now.state block.label other.label }
{
    doc.is_inside(block) && doc.is_inside(other) && block.label != other.label
}

/// Delete the selection, from step 9 on, of blocks that there may be.
#[tactic(auto, using(edit_model::proofs::Steps::steps, edit_model::proofs::Steps::exits), unfolding(crate::specs::Merging::merge_if, crate::specs::Merging::merge_both))]
pub(crate) fn merge_if(
    alloc: Global,
    doc: &mut Doc,
    merging: bool,
    backward: bool,
    blocks: (Option<NodeRef>, Option<NodeRef>),
) -> Result<(), EditFault>
    requires open { IsOpen doc.old }
    requires block_held { IfHeld doc.old blocks.0 }
    requires other_held { IfHeld doc.old blocks.1 }
    ensures gives { Gives result doc.old.state doc.new.state
        (merge_if merging backward (label_of blocks.0) (label_of blocks.1)) }
    ensures keeps { Keeps doc.old doc.new }
{
    if !merging {
        return collapse_selection(doc, backward);
    }
    let Some(block) = blocks.0 else {
        return collapse_selection(doc, backward);
    };
    let Some(other) = blocks.1 else {
        return collapse_selection(doc, backward);
    };
    if !are_mergeable(doc, block, other) {
        return collapse_selection(doc, backward);
    }
    merge(alloc, doc, block, other)
}
