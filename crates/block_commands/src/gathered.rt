//! The nodes of the block-extended active range that a block command goes over.

ghost use Rattle.std.specs.Prelude.{◌≡◌, ◌<◌, IfOk, filter};
ghost use Rattle.edit_model.specs.DomModel.Forest.{count_of};
ghost use Rattle.edit_model.specs.Gives.{labels_of};
ghost use Rattle.inline_value.specs.EditDoc.Held.{EachHeld};
ghost use Rattle.block_commands.specs.Gathered as gathered;

use inline_value::doc::{Doc, NodeRef, Point};
use inline_value::extend::Choice;
use inline_value::query::extended;
use inline_value::questions::contained_nodes;
use std::alloc::{AllocError, Global};

/// Of a list, the nodes that pass a test.
pub fn chosen_of<C: Choice<Doc>>(
    alloc: Global,
    doc: &Doc,
    choice: &C,
    list: &[NodeRef],
) -> Result<Vec<NodeRef>, AllocError>
    requires { EachHeld doc.now list.now }
    ensures held { IfOk result (λ kept. EachHeld doc.now kept.items) }
    ensures nodes { IfOk result
        (λ kept. labels_of kept.items ≡ filter (C.chosen choice.now doc.now) (labels_of list.now)) }
{
    let mut kept = Vec::new(alloc);
    for node in list {
        if choice.chooses(doc, *node) {
            kept.push(*node)?;
        }
    }
    Ok(kept)
}

/// All nodes that a range contains and that pass a test, in tree order.
pub fn contained_in<C: Choice<Doc>>(
    alloc: Global,
    doc: &Doc,
    range: (Point, Point),
    choice: &C,
) -> Result<Vec<NodeRef>, AllocError>
    requires start { 0 < count_of doc.now.state.trees range.0.label }
    requires end { 0 < count_of doc.now.state.trees range.1.label }
    ensures held { IfOk result (λ list. EachHeld doc.now list.items) }
    ensures nodes { IfOk result
        (λ list. labels_of list.items
        ≡ gathered.contained_in (C.chosen choice.now doc.now) doc.now.state.trees range) }
{
    let list = contained_nodes(alloc, doc, range)?;
    chosen_of(alloc, doc, choice, list.as_slice())
}

/// All nodes that the block-extended active range contains and that pass a test, in tree order.
/// Without a selection there are none.
#[tactic(auto, unfolding(crate::specs::Gathered::contained))]
pub(crate) fn contained<C: Choice<Doc>>(
    alloc: Global,
    doc: &Doc,
    choice: &C,
) -> Result<Vec<NodeRef>, AllocError>
    ensures held { IfOk result (λ list. EachHeld doc.now list.items) }
    ensures nodes { IfOk result
        (λ list. labels_of list.items
        ≡ gathered.contained (C.chosen choice.now doc.now) doc.now.state) }
{
    doc.valid();
    match doc.points().selection() {
        Some(pair) => contained_in(alloc, doc, extended(doc, pair), choice),
        None => Ok(Vec::new(alloc)),
    }
}
