//! Delete, steps 4 and 10: what goes at once. The steps are those of docs/ALGORITHMS.md.

ghost use Rattle.std.specs.Prelude.{◌≡◌};
ghost use Rattle.edit_model.specs.Action.{Extend, Scratch, acted};
ghost use Rattle.edit_model.specs.Gives.{Gives};
ghost use Rattle.inline_value.specs.EditDoc.Whole.{IsOpen, with_state};
ghost use Rattle.inline_value.specs.EditDoc.Held.{Holds, Keeps};
ghost use Rattle.text_deletion.specs.Delete as command;

use crate::places::one_before;
use delete_core::{Manner, child_before, select};
use inline_value::doc::{Doc, EditFault, NodeRef, Pair, Point};
use inline_value::questions::{has_name, is_block, is_break, is_image, is_words};
use std::alloc::Global;
use text_insertion::erase;

/// Takes the focus of the selection to another point.
pub(crate) fn extend(doc: &mut Doc, focus: Point)
    ensures extended { doc.new ≡ with_state doc.old (acted (Extend focus) doc.old.state) }
    ensures keeps { Keeps doc.old doc.new }
{
    doc.extend(focus);
}

// Keeps a point that goes along with edits.
fn keep(doc: &mut Doc, at: Point)
    requires open { IsOpen doc.old }
    ensures kept { doc.new
        ≡ with_state doc.old (acted (Scratch record { anchor = at; focus = at }) doc.old.state) }
    ensures keeps { Keeps doc.old doc.new }
{
    doc.set_scratch(Pair {
        anchor: at,
        focus: at,
    });
}

/// Step 4: whether one character, or a br, hr or img of a block, stands before a point.
#[tactic(auto, unfolding(crate::specs::Delete::follows_single))]
pub(crate) fn follows_single(doc: &Doc, node: NodeRef, at: Point) -> bool
    requires held { Holds doc.now node }
    requires label { at.label ≡ node.label }
    ensures { result ≡ command.follows_single doc.now.state at }
{
    (is_words(doc, node) && at.offset != 0)
        || (is_block(doc, node)
            && match child_before(doc, node, at.offset) {
                Some(k) => is_break(doc, k) || has_name(doc, k, b"hr") || is_image(doc, k),
                None => false,
            })
}

/// Step 10: deletes the node before a point. The caret stays where it is.
#[tactic(auto, using(edit_model::proofs::Steps::steps, edit_model::proofs::Steps::exits, edit_model::proofs::Steps::actions), unfolding(crate::specs::Delete::erase_line))]
pub(crate) fn erase_line(
    alloc: Global,
    doc: &mut Doc,
    caret: Point,
    at: Point,
) -> Result<(), EditFault>
    requires open { IsOpen doc.old }
    ensures gives { Gives result doc.old.state doc.new.state (command.erase_line caret at) }
    ensures keeps { Keeps doc.old doc.new }
{
    keep(doc, caret);
    select(doc, one_before(at), at);
    erase(alloc, doc, Manner::DEFAULT)?;
    if let Some(pair) = doc.points().scratch() {
        select(doc, pair.anchor, pair.anchor);
    }
    Ok(())
}
